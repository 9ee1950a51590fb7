//! Links between the pages of a site, written relative to the folder of a page, so that the site
//! may be moved.

ghost use Rattle.std.specs.Prelude.{◌≡◌, ◌≢◌, ◌↔◌, ◌+◌, ◌*◌, ◌≤◌, ℕ, List, [], ◌∷◌, true, false, length, Some, None, IfOk, IfSome, option_map};
ghost use Rattle.typed_path.specs.changes.Push as push_spec;
ghost use Rattle.typed_path.specs.components.{dot, kinds, parts_of, unix, windows};
ghost use Rattle.typed_path.specs.places.{clean_text, relative_text, route};
ghost use Rattle.typed_path.specs.promises.{IsRelative, IsUnreached, keeps_prefix};
ghost use Rattle.typed_path.specs.queries.{begins_with_root, has_any_verbatim_prefix};
ghost use Rattle.typed_path.specs.views.PathViews.{path_bytes};

use std::alloc::{AllocError, Global};
use typed_path::laws::{
    dot_leads_to_the_same, led_is_short, relative_has_none, relative_has_none_at_all,
    relative_has_none_on_unix, relative_leads_back, relative_leads_back_behind_clean,
    relative_leads_back_on_windows, relative_stays_relative,
};
use typed_path::{UnixPath, UnixPathBuf, WindowsPath, WindowsPathBuf};

/// Returns the link from `folder` to `page`: joined to the folder it leads to the page, wherever
/// both lie. It is `.` exactly if both lead to the same place, and `None` exactly if no relative
/// path leads there.
pub fn link(
    alloc: Global,
    folder: UnixPath<'_>,
    page: UnixPath<'_>,
) -> Result<Option<UnixPathBuf>, AllocError>
    ensures leads { IfOk result (λ found. IfSome found (λ link.
        route unix (push_spec.push unix (path_bytes folder.entry) link.bytes)
        ≡ route unix (path_bytes page.entry))) }
    ensures relative { IfOk result (λ found. IfSome found (λ link. IsRelative unix link.bytes)) }
    ensures short { IfOk result (λ found. IfSome found (λ link. length link.bytes
        ≤ length (path_bytes page.entry) + 2 * length (path_bytes folder.entry) + 3)) }
    ensures same { IfOk result (λ found. (option_map (λ link. link.bytes) found ≡ Some (dot ∷ []))
        ↔ (route unix (path_bytes page.entry) ≡ route unix (path_bytes folder.entry))) }
    ensures none { IfOk result (λ found. (option_map (λ link. link.bytes) found ≡ None)
        ↔ ((r : List ℕ) → begins_with_root (kinds (parts_of unix r)) ≡ false
        → route unix (push_spec.push unix (path_bytes folder.entry) r)
        ≢ route unix (path_bytes page.entry))) }
{
    let (from, to) = (folder.as_bytes(), page.as_bytes());
    relative_leads_back(to, from);
    relative_stays_relative(to, from);
    led_is_short(to, from);
    dot_leads_to_the_same(to, from);
    relative_has_none_at_all(to, from);
    page.relative_to(alloc, folder)
}

/// Whether `folder` has no link to `page`. It has none if only one of the two begins at the root.
pub fn has_no_link(
    alloc: Global,
    folder: UnixPath<'_>,
    page: UnixPath<'_>,
) -> Result<bool, AllocError>
    ensures asked { IfOk result (λ none. (none ≡ true)
        ↔ (relative_text unix (path_bytes page.entry) (path_bytes folder.entry) ≡ None)) }
    ensures rooted { IfOk result (λ none. begins_with_root (kinds (parts_of unix (path_bytes page.entry)))
        ≢ begins_with_root (kinds (parts_of unix (path_bytes folder.entry))) → none ≡ true) }
{
    relative_has_none_on_unix(page.as_bytes(), folder.as_bytes());
    Ok(page.relative_to(alloc, folder)?.is_none())
}

/// Returns the link from a folder of Windows to a page, `None` if there is none. Joined to the
/// folder it leads to the page, if the folder keeps its prefix and either is not verbatim or is its
/// own clean path.
pub fn link_on_windows(
    alloc: Global,
    folder: WindowsPath<'_>,
    page: WindowsPath<'_>,
) -> Result<Option<WindowsPathBuf>, AllocError>
    ensures plain { keeps_prefix windows (path_bytes folder.entry) ≡ true
        → has_any_verbatim_prefix (kinds (parts_of windows (path_bytes folder.entry))) ≡ false
        → IfOk result (λ found. IfSome found (λ link.
        route windows (push_spec.push windows (path_bytes folder.entry) link.bytes)
        ≡ route windows (path_bytes page.entry))) }
    ensures clean { keeps_prefix windows (path_bytes folder.entry) ≡ true
        → clean_text windows (path_bytes folder.entry) ≡ path_bytes folder.entry
        → IfOk result (λ found. IfSome found (λ link.
        route windows (push_spec.push windows (path_bytes folder.entry) link.bytes)
        ≡ route windows (path_bytes page.entry))) }
    ensures none { IfOk result (λ found. (option_map (λ link. link.bytes) found ≡ None)
        ↔ IsUnreached windows (path_bytes page.entry) (path_bytes folder.entry)) }
{
    let (from, to) = (folder.as_bytes(), page.as_bytes());
    relative_leads_back_on_windows(to, from);
    relative_leads_back_behind_clean(to, from);
    relative_has_none(to, from);
    page.relative_to(alloc, folder)
}
