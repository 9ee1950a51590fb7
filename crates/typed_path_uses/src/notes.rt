//! Values noted at paths: a map whose keys are paths.

ghost use Rattle.std.specs.Prelude.{◌≡◌, ◌↔◌, ℕ, List, OnOk, OnErr, IfOk, IsTrue, Some};
ghost use Rattle.std.specs.BTreeMap.{IsUnchanged};
ghost use Rattle.typed_path.specs.components.{parts_of, kinds};
ghost use Rattle.typed_path.specs.order.Keyed.{value_at, PutsAt};
ghost use Rattle.typed_path.specs.order.{IsSame};
ghost use Rattle.typed_path.specs.views.PathViews.{path_bytes};

use std::alloc::AllocFailed;
use std::collections::BTreeMap;
use typed_path::laws::order_agrees_with_equality;
use typed_path::{Encoding, Path, PathBuf};

/// Notes a number at a path, and returns the one that was there. Each path with the same components
/// finds it from then on, and every other one finds what it found before.
///
/// # Errors
///
/// If allocation fails. Then the numbers are unchanged.
pub fn note<T: Encoding>(
    notes: &mut BTreeMap<PathBuf<T>, u32>,
    path: PathBuf<T>,
    number: u32,
) -> Result<Option<u32>, AllocFailed<(PathBuf<T>, u32)>>
    ensures found { OnOk result ((other : List ℕ) → IsSame T.dialect other path.bytes
        → value_at T.dialect (kinds (parts_of T.dialect other)) notes.new ≡ Some number) }
    ensures puts { OnOk result
        (PutsAt T.dialect (kinds (parts_of T.dialect path.bytes)) (Some number) notes.old
        notes.new) }
    ensures before { IfOk result (λ before. before
        ≡ value_at T.dialect (kinds (parts_of T.dialect path.bytes)) notes.old) }
    ensures refused { OnErr result (IsUnchanged notes.old notes.new) }
{
    let before = notes.insert(path, number)?;
    Ok(before)
}

/// Returns the number that is noted at a path, `None` if there is none.
pub fn noted<T: Encoding>(notes: &BTreeMap<PathBuf<T>, u32>, path: &PathBuf<T>) -> Option<u32>
    ensures { result ≡ value_at T.dialect (kinds (parts_of T.dialect path.now.bytes)) notes.now }
{
    notes.get(path).copied()
}

/// Whether two paths have the same components.
pub fn are_alike<T: Encoding>(path: Path<'_, T>, other: Path<'_, T>) -> bool
    ensures { IsTrue result ↔ (kinds (parts_of T.dialect (path_bytes path.entry))
        ≡ kinds (parts_of T.dialect (path_bytes other.entry))) }
{
    order_agrees_with_equality(path.as_bytes(), other.as_bytes());
    path == other
}
