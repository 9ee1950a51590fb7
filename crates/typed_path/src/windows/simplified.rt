//! Paths of verbatim drives, borrowed without their `\\?\`.

ghost use Rattle.std.specs.Prelude.{◌≡◌, ◌&&◌};
ghost use Rattle.std.specs.List.{list_all};
ghost use Rattle.typed_path.specs.components.{windows, kinds};
ghost use Rattle.typed_path.specs.views.PieceViews.{part_of};
ghost use Rattle.typed_path.specs.queries.{is_exact, is_exact_name, is_simple, is_verbatim_drive, is_written_root, simplified_text};
ghost use Rattle.typed_path.specs.views.PathViews.{path_bytes, components_parts};

use crate::common::{Components, Encoding, Path};
use crate::scan::{Piece, PieceKind, WindowsPrefix, is_taken_for_device};
use crate::windows::WindowsPath;
use crate::windows::encoding::WindowsEncoding;

/// The length in bytes, counting `\\?\`, from which on Windows accepts a path only with that.
const LONG: usize = 264;

impl<'a> Path<'a, WindowsEncoding> {
    /// Returns a path of a verbatim drive, `\\?\C:`, without its `\\?\`, if that means the same to
    /// Windows; else the path itself.
    ///
    /// That of `\\?\C:\a\b` is `C:\a\b`. It means the same if after the drive come a root and then
    /// nothing but names, fewer than 260 bytes are left, and each name is valid, ends in neither a
    /// dot nor a space and stands for no device, whatever spaces are before its first dot:
    /// `\\?\C:\con .txt` stays as it is.
    #[tactic(auto, using(crate::proofs::lemmas::queries::Simplified::simple_long))]
    pub fn simplified(self) -> WindowsPath<'a>
        ensures { path_bytes result ≡ simplified_text windows (path_bytes self.entry) }
    {
        let bytes = self.as_bytes();
        if bytes.len() < LONG && is_simple(self.components()) {
            Path::new(bytes.split_at(4).1)
        } else {
            self
        }
    }
}

/// Whether the components left are a verbatim drive, `\\?\C:`, a root, and names that Windows takes
/// as they are written.
#[tactic(auto, using(crate::proofs::lemmas::queries::Simplified::none_simple, crate::proofs::lemmas::queries::Simplified::one_simple, crate::proofs::lemmas::queries::Simplified::two_simple))]
fn is_simple(mut rest: Components<'_, WindowsEncoding>) -> bool
    ensures { result ≡ is_simple (kinds (components_parts rest.entry)) }
{
    let Some(first) = rest.next() else {
        return false;
    };
    let Some(second) = rest.next() else {
        return false;
    };
    are_drive_and_root(first, second) && are_exact(rest)
}

/// Whether two components are a verbatim drive, `\\?\C:`, and a root.
fn are_drive_and_root(first: Piece<'_>, second: Piece<'_>) -> bool
    ensures { result ≡ (is_verbatim_drive (part_of first.entry).kind
        && is_written_root (part_of second.entry).kind) }
{
    matches!(
        first.kind,
        PieceKind::Prefix(WindowsPrefix::VerbatimDisk(_))
    ) && matches!(second.kind, PieceKind::RootDir)
}

/// Whether the components left are names that Windows takes as they are written.
fn are_exact(mut rest: Components<'_, WindowsEncoding>) -> bool
    ensures { result ≡ list_all is_exact (kinds (components_parts rest.entry)) }
{
    'pieces: while let Some(piece) = rest.next() {
        if !is_exact(piece) {
            return false;
        }
    }
    true
}

/// Whether a component is a name that Windows takes as it is written.
fn is_exact(piece: Piece<'_>) -> bool
    ensures { result ≡ is_exact (part_of piece.entry).kind }
{
    matches!(piece.kind, PieceKind::Normal) && is_exact_name(piece.text)
}

/// Whether Windows takes `name` as it is written, also after a drive without `\\?\`: it is valid,
/// ends in neither a dot nor a space, and is not taken for a device.
fn is_exact_name(name: &[u8]) -> bool
    ensures { result ≡ is_exact_name name.now }
{
    if !WindowsEncoding::valid(name) || name.ends_with(b".") || name.ends_with(b" ") {
        return false;
    }
    !is_taken_for_device(name)
}
