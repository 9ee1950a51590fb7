//! Names beside others, what two files share, whether a path lies in a folder, paths as they are
//! shown, and how long they grow.

ghost use Rattle.std.specs.Prelude.{◌≡◌, ◌++◌, ◌+◌, ◌↔◌, ◌≤◌, ◌&&◌, ℕ, List, true, codes, length, Some, None, IfOk, IfSome, option_map};
ghost use Rattle.typed_path.specs.changes.Push as push_spec;
ghost use Rattle.typed_path.specs.changes.{with_file_name};
ghost use Rattle.typed_path.specs.components.{kinds, parts_of, unix, windows};
ghost use Rattle.typed_path.specs.places.{is_within, normal_text};
ghost use Rattle.typed_path.specs.promises.{IsAlikeBehind, IsBelow, IsLongest, IsNamedBeside, ShareNothing};
ghost use Rattle.typed_path.specs.queries.{file_name_of, has_prefix, is_absolute, simplified_text};
ghost use Rattle.typed_path.specs.views.PathViews.{path_bytes};

use std::alloc::{AllocError, Global};
use typed_path::laws::{
    added_extension_keeps_the_parent, common_ancestor_is_longest, joined_is_short,
    normalized_is_short, prefixed_within_leads_below, renamed_is_short, simplified_is_alike_behind,
    simplified_stays, within_is_exact,
};
use typed_path::{Encoding, Path, UnixPath, UnixPathBuf, WindowsComponents, WindowsPath};

/// Returns where the copy of a file goes that is made before a change: beside it, with `.bak` after
/// its name. A path without a file name is copied as it is.
pub fn backup(alloc: Global, file: UnixPath<'_>) -> Result<UnixPathBuf, AllocError>
    ensures beside { (name : List ℕ) → file_name_of unix (path_bytes file.entry) ≡ Some name
        → IfOk result
        (λ p. IsNamedBeside unix (path_bytes file.entry) p.bytes (name ++ codes ".bak")) }
{
    added_extension_keeps_the_parent(file.as_bytes(), b"bak");
    file.with_added_extension(alloc, b"bak")
}

/// Returns the longest path that two files begin with, `None` if they share no component.
pub fn shared_folder<'a, T: Encoding>(one: Path<'a, T>, other: Path<'_, T>) -> Option<Path<'a, T>>
    ensures longest { IfSome result (λ p.
        IsLongest T.dialect (path_bytes one.entry) (path_bytes other.entry) (path_bytes p)) }
    ensures none { option_map path_bytes result ≡ None
        → ShareNothing T.dialect (path_bytes one.entry) (path_bytes other.entry) }
{
    common_ancestor_is_longest(one.as_bytes(), other.as_bytes());
    one.common_ancestor(other)
}

/// Returns a Windows path as it is shown to a user: without its `\\?\` if that adds nothing.
pub fn shown(path: WindowsPath<'_>) -> WindowsPath<'_>
    ensures alike { IsAlikeBehind (path_bytes path.entry) (path_bytes result) }
    ensures again { simplified_text windows (path_bytes result) ≡ path_bytes result }
{
    simplified_is_alike_behind(path.as_bytes());
    simplified_stays(path.as_bytes());
    path.simplified()
}

/// Whether a Windows path has a prefix and lies at `folder` or below it, from whatever directory
/// both are read.
pub fn is_mounted_in(
    directory: WindowsPath<'_>,
    folder: WindowsPath<'_>,
    path: WindowsPath<'_>,
) -> bool
    ensures asked { result ≡ (has_prefix (kinds (parts_of windows (path_bytes path.entry)))
        && is_within windows (path_bytes path.entry) (path_bytes folder.entry)) }
    ensures below { result ≡ true → IsBelow windows
        (push_spec.push windows (path_bytes directory.entry) (path_bytes folder.entry))
        (push_spec.push windows (path_bytes directory.entry) (path_bytes path.entry)) }
{
    prefixed_within_leads_below(directory.as_bytes(), path.as_bytes(), folder.as_bytes());
    WindowsComponents::new(path).has_prefix() && path.is_within(folder)
}

/// Whether a Unix path lies at `folder` or below it, from every absolute directory.
pub fn always_lies_in(path: UnixPath<'_>, folder: UnixPath<'_>) -> bool
    ensures { (result ≡ true) ↔ ((directory : List ℕ)
        → is_absolute unix (kinds (parts_of unix directory)) ≡ true
        → IsBelow unix (push_spec.push unix directory (path_bytes folder.entry))
        (push_spec.push unix directory (path_bytes path.entry))) }
{
    within_is_exact(path.as_bytes(), folder.as_bytes());
    path.is_within(folder)
}

/// Whether the lengths tell that the path has at most `limit` bytes once `name` is joined to it,
/// once `name` becomes its file name, and once it is normalized. `false` leaves it open.
pub fn surely_fits<T: Encoding>(path: Path<'_, T>, name: &[u8], limit: usize) -> bool
    ensures asked { (result ≡ true)
        ↔ (length (path_bytes path.entry) + length name.now + 3 ≤ limit) }
    ensures joined { result ≡ true
        → length (push_spec.push T.dialect (path_bytes path.entry) name.now) ≤ limit }
    ensures named { result ≡ true
        → length (with_file_name T.dialect (path_bytes path.entry) name.now) ≤ limit }
    ensures normal { result ≡ true
        → length (normal_text T.dialect (path_bytes path.entry)) ≤ limit }
{
    let bytes = path.as_bytes();
    joined_is_short(bytes, name);
    renamed_is_short(bytes, name);
    normalized_is_short(bytes);
    limit >= 3 && limit - 3 >= bytes.len() && limit - 3 - bytes.len() >= name.len()
}
