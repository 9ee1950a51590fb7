//! Where entries are unpacked if the manifest of their archive is to hold on Unix and on Windows.

ghost use Rattle.std.specs.Prelude.{◌≡◌, map, IfOk, OnOk};
ghost use Rattle.std.specs.List.{All, AllByRecursion};
ghost use Rattle.typed_path.specs.changes.Push as push_spec;
ghost use Rattle.typed_path.specs.components.{parts_of, unix, windows};
ghost use Rattle.typed_path.specs.promises.{LiesBelow, StaysWithin};
ghost use Rattle.typed_path.specs.views.PathViews.{path_bytes};

use std::alloc::Global;
use typed_path::laws::portable_reads_alike;
use typed_path::{CheckedPathError, Encoding, JoinError, Path, PathBuf, UnixPath};

/// Returns where an entry is unpacked whose name is written with `/`, and is read as the same
/// components on both systems. Refuses a root, a name that would lead out of `base`, and what
/// either system does not take as it is written.
///
/// If the base keeps its prefix, the target lies below it.
pub fn target_on_both<T: Encoding>(
    alloc: Global,
    base: Path<'_, T>,
    name: &[u8],
) -> Result<PathBuf<T>, JoinError>
    ensures alike { OnOk result (parts_of windows name.now ≡ parts_of unix name.now) }
    ensures joined { IfOk result (λ p. p.bytes
        ≡ push_spec.push T.dialect (path_bytes base.entry) name.now) }
    ensures below { IfOk result (λ p. LiesBelow T.dialect (path_bytes base.entry) p.bytes) }
    ensures within { IfOk result (λ p. StaysWithin T.dialect (path_bytes base.entry) p.bytes) }
{
    let entry = UnixPath::new(name);
    entry.check_portable()?;
    if entry.has_root() {
        return Err(JoinError::Checked(CheckedPathError::UnexpectedRoot));
    }
    portable_reads_alike(name);
    base.join_portable(alloc, Path::new(name))
}

/// Returns where all entries of a manifest are unpacked, in their order, each as [`target_on_both`]
/// does; or a refusal. So a manifest that is accepted names the same files on both systems.
pub fn targets_on_both<T: Encoding>(
    alloc: Global,
    base: Path<'_, T>,
    names: &[&[u8]],
) -> Result<Vec<PathBuf<T>>, JoinError>
    ensures alike { OnOk result (AllByRecursion
        (λ name. parts_of windows name.now ≡ parts_of unix name.now) names.now) }
    ensures joined { IfOk result (λ ps. map (λ p. p.bytes) ps.items
        ≡ map (λ name. push_spec.push T.dialect (path_bytes base.entry) name.now) names.now) }
    ensures below { IfOk result
        (λ ps. All (λ p. LiesBelow T.dialect (path_bytes base.entry) p.bytes) ps.items) }
{
    let mut targets = Vec::with_capacity(alloc, names.len())?;
    'names: for name in names {
        targets.push(target_on_both(alloc, base, name)?)?;
    }
    Ok(targets)
}
