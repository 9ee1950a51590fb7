//! One way to write each path that leads to a place, without a look at a disk.

ghost use Rattle.std.specs.Prelude.{◌≡◌, ◌↔◌, ◌+◌, ◌≤◌, true, false, length, is_some, IfOk, IfSome};
ghost use Rattle.std.specs.Str.{is_utf8};
ghost use Rattle.typed_path.specs.changes.Push as push_spec;
ghost use Rattle.typed_path.specs.components.{kinds, parts_of, unix, windows};
ghost use Rattle.typed_path.specs.places.{place, route};
ghost use Rattle.typed_path.specs.promises.{IsCleanForm, is_verbatim_unc_name, keeps_prefix, prefix_kind};
ghost use Rattle.typed_path.specs.queries.{is_absolute};
ghost use Rattle.typed_path.specs.views.PathViews.{path_bytes};

use std::alloc::{AllocError, Global};
use typed_path::laws::{
    clean_has_its_form, clean_is_canonical, clean_leads_where_its_path_does, clean_stays_a_text,
    cleaned_is_short, kept_prefix_is_not_named_unc, routes_tell_places,
};
use typed_path::{Encoding, Path, PathBuf, UnixPath, WindowsPath, WindowsPathBuf};

/// Returns a path without detours: it leads where the path does, is its own clean path, and has at
/// most one byte more; of text it is text. The first two are not promised of the verbatim prefix
/// named `UNC`.
pub fn without_detours<T: Encoding>(
    alloc: Global,
    path: Path<'_, T>,
) -> Result<PathBuf<T>, AllocError>
    ensures form { is_verbatim_unc_name (prefix_kind T.dialect (path_bytes path.entry)) ≡ false
        → IfOk result (λ p. IsCleanForm T.dialect (path_bytes path.entry) p.bytes) }
    ensures short { IfOk result (λ p. length p.bytes ≤ length (path_bytes path.entry) + 1) }
    ensures text { is_utf8 (path_bytes path.entry) ≡ true
        → IfOk result (λ p. is_utf8 p.bytes ≡ true) }
{
    let bytes = path.as_bytes();
    clean_has_its_form(bytes);
    cleaned_is_short(bytes);
    clean_stays_a_text(bytes);
    path.clean(alloc)
}

/// Returns a path without detours: read from an absolute directory that keeps its prefix, it lies
/// where the path lies. This is not promised of the verbatim prefix named `UNC`.
pub fn read_from<T: Encoding>(
    alloc: Global,
    directory: Path<'_, T>,
    path: Path<'_, T>,
) -> Result<PathBuf<T>, AllocError>
    ensures place { keeps_prefix T.dialect (path_bytes directory.entry) ≡ true
        → is_absolute T.dialect (kinds (parts_of T.dialect (path_bytes directory.entry))) ≡ true
        → is_verbatim_unc_name (prefix_kind T.dialect (path_bytes path.entry)) ≡ false
        → IfOk result (λ p.
        place T.dialect (push_spec.push T.dialect (path_bytes directory.entry) p.bytes)
        ≡ place T.dialect (push_spec.push T.dialect (path_bytes directory.entry) (path_bytes path.entry))) }
{
    clean_leads_where_its_path_does(directory.as_bytes(), path.as_bytes());
    path.clean(alloc)
}

/// Whether two paths lead alike. If so, they lie at the same place when read from one absolute
/// directory.
pub fn lead_alike(
    alloc: Global,
    directory: UnixPath<'_>,
    one: UnixPath<'_>,
    other: UnixPath<'_>,
) -> Result<bool, AllocError>
    ensures alike { IfOk result (λ alike. (alike ≡ true)
        ↔ (route unix (path_bytes one.entry) ≡ route unix (path_bytes other.entry))) }
    ensures place { is_absolute unix (kinds (parts_of unix (path_bytes directory.entry))) ≡ true
        → IfOk result (λ alike. alike ≡ true
        → place unix (push_spec.push unix (path_bytes directory.entry) (path_bytes one.entry))
        ≡ place unix (push_spec.push unix (path_bytes directory.entry) (path_bytes other.entry))) }
{
    clean_is_canonical(one.as_bytes(), other.as_bytes());
    routes_tell_places(directory.as_bytes(), one.as_bytes(), other.as_bytes());
    let one = one.clean(alloc)?;
    let other = other.clean(alloc)?;
    Ok(one.as_path().as_bytes() == other.as_path().as_bytes())
}

/// Returns a folder of Windows without detours, `None` exactly if it does not keep its prefix.
pub fn tidy_folder(
    alloc: Global,
    folder: WindowsPath<'_>,
) -> Result<Option<WindowsPathBuf>, AllocError>
    ensures asked { IfOk result
        (λ found. is_some found ≡ keeps_prefix windows (path_bytes folder.entry)) }
    ensures form { IfOk result (λ found. IfSome found
        (λ p. IsCleanForm windows (path_bytes folder.entry) p.bytes)) }
{
    if !folder.keeps_prefix() {
        return Ok(None);
    }
    kept_prefix_is_not_named_unc(folder.as_bytes());
    clean_has_its_form(folder.as_bytes());
    Ok(Some(folder.clean(alloc)?))
}
