//! Where the names of a prefix are in the path that begins with it.

ghost use Rattle.std.specs.Prelude.{◌≡◌, Some, IfSome, IsSome, IsNone, MatchOption};
ghost use Rattle.typed_path.specs.components.{windows, prefix_of};
ghost use Rattle.typed_path.specs.queries.{AreNamesOf};
ghost use Rattle.typed_path.specs.views.PieceViews.{found_of, prefix_view};

use crate::scan::{Found, WindowsPrefix, find_prefix};

/// The ranges of bytes in a path that hold the names of its prefix: the server and the share; or
/// its one name, or the letter of its drive, and then an empty second range.
#[derive(Clone, Copy, Debug, PartialEq, Eq)]
pub struct PrefixNames {
    /// The index at which the first one begins.
    pub first: usize,
    /// The index at which the first one ends.
    pub first_end: usize,
    /// The index at which the second one begins.
    pub second: usize,
    /// The index at which the second one ends.
    pub second_end: usize,
}

/// Returns where the names of the prefix of `path` are, or `None` if it has no prefix.
pub fn prefix_names(path: &[u8]) -> Option<PrefixNames>
    ensures { MatchOption (prefix_of windows path.now) (IsNone result) (λ f. IsSome result
        × IfSome result (λ names. AreNamesOf path.now f.prefix names.first names.first_end
        names.second names.second_end)) }
{
    let found = find_prefix(path)?;
    Some(names_of(path, found))
}

/// Returns where in `path` the names of its prefix `found` are: in `\\server\share` at 2 and at 9.
fn names_of(path: &[u8], found: Found<'_>) -> PrefixNames
    requires { Some (found_of found) ≡ prefix_of windows path.now }
    ensures { AreNamesOf path.now (prefix_view found.entry.kind) result.first result.first_end
        result.second result.second_end }
{
    let end = found.length;
    let (first, first_end, second, second_end) = match found.kind {
        WindowsPrefix::VerbatimUNC(server, share) => {
            (8, 8 + server.len(), end - share.len(), end)
        }
        WindowsPrefix::UNC(server, share) => (2, 2 + server.len(), end - share.len(), end),
        WindowsPrefix::Verbatim(_) => (4, end, end, end),
        WindowsPrefix::DeviceNS(_) => (4, end, end, end),
        WindowsPrefix::VerbatimDisk(_) => (4, 5, 5, 5),
        WindowsPrefix::Disk(_) => (0, 1, 1, 1),
    };
    PrefixNames {
        first,
        first_end,
        second,
        second_end,
    }
}
