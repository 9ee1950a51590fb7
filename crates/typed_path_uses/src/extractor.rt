//! Where the entries of an archive are unpacked, on Unix and on Windows.

ghost use Rattle.std.specs.Prelude.{◌≡◌, ◌+◌, ◌++◌, ◌∷◌, [], length, true, map, Some, None, IfOk, OnOk};
ghost use Rattle.std.specs.Vec.{vec_len};
ghost use Rattle.std.specs.List.{All};
ghost use Rattle.typed_path.specs.changes.Push as push_spec;
ghost use Rattle.typed_path.specs.changes.{refusal, fault};
ghost use Rattle.typed_path.specs.views.PathViews.{path_bytes};
ghost use Rattle.typed_path.specs.places.{is_within, place};
ghost use Rattle.typed_path.specs.promises.{keeps_prefix, IsBelow, LiesBelow, StaysWithin};
ghost use Rattle.typed_path_uses.specs.Uses.{place_within, places, places_within, joined_entries, faulty, first_fault, reason, reason_below};

use std::alloc::{AllocError, Global};
use thiserror::Error;
use typed_path::{CheckedPathError, Encoding, Path, PathBuf, PathError};

/// Why there is no target below a base that is known only when the program runs.
#[derive(Clone, Copy, Debug, PartialEq, Eq, Error)]
pub enum Untargeted {
    /// The base does not keep its prefix: what is pushed onto it may become a part of that.
    #[error("the base does not keep its prefix")]
    Base,
    /// The name is refused.
    #[error(transparent)]
    Checked(CheckedPathError),
    /// An allocation failed.
    #[error("out of memory")]
    OutOfMemory,
}

impl From<PathError> for Untargeted {
    ghost use Rattle.typed_path_uses.specs.Uses.{untargeted};

    ghost from_gives = { λ refused e. e ≡ untargeted refused };

    fn from(refused: PathError) -> Untargeted {
        match refused {
            PathError::Checked(fault) => Untargeted::Checked(fault),
            PathError::OutOfMemory => Untargeted::OutOfMemory,
        }
    }
}

impl From<AllocError> for Untargeted {
    ghost use Rattle.typed_path_uses.specs.declared.extractor.Untargeted.TheVariants.{OutOfMemory};

    ghost from_gives = { λ _ e. e ≡ OutOfMemory };

    fn from(_refused: AllocError) -> Untargeted {
        Untargeted::OutOfMemory
    }
}

/// Returns where an entry is unpacked. If the base keeps its prefix, that is at the place of the
/// base, and then at the names that the entry's own name leads to. A name that would lead out of
/// the base is refused.
///
/// Every Unix base keeps its prefix, and so do `C:\out` and `\\server\share\out` on Windows. For a
/// base that may lose it, such as `\\server`, no place is promised.
pub fn target<T: Encoding>(
    alloc: Global,
    base: Path<'_, T>,
    name: &[u8],
) -> Result<PathBuf<T>, PathError>
    ensures place { keeps_prefix T.dialect (path_bytes base.entry) ≡ true → IfOk result
        (λ p. place T.dialect p.bytes ≡ place_within T.dialect (path_bytes base.entry) name.now) }
    ensures below { IfOk result (λ p. LiesBelow T.dialect (path_bytes base.entry) p.bytes) }
    ensures within { IfOk result (λ p. StaysWithin T.dialect (path_bytes base.entry) p.bytes) }
    ensures joined { IfOk result (λ p. p.bytes
        ≡ push_spec.push T.dialect (path_bytes base.entry) name.now) }
    ensures refused { refusal result ≡ fault T.dialect name.now }
{
    base.join_checked(alloc, Path::new(name))
}

/// Does what [`target`] does, for a base that is known only at run time, which is refused if it
/// does not keep its prefix.
pub fn target_below<T: Encoding>(
    alloc: Global,
    base: Path<'_, T>,
    name: &[u8],
) -> Result<PathBuf<T>, Untargeted>
    ensures below { IfOk result (λ p. IsBelow T.dialect (path_bytes base.entry) p.bytes) }
    ensures within { IfOk result
        (λ p. is_within T.dialect p.bytes (path_bytes base.entry) ≡ true) }
    ensures joined { IfOk result (λ p. p.bytes
        ≡ push_spec.push T.dialect (path_bytes base.entry) name.now) }
    ensures refused { reason result
        ≡ reason_below T.dialect (path_bytes base.entry) (fault T.dialect name.now) }
{
    if !base.keeps_prefix() {
        return Err(Untargeted::Base);
    }
    Ok(target(alloc, base, name)?)
}

/// Returns where all entries are unpacked, in their order, each as [`target`] does; or the refusal
/// of the first that is refused.
pub fn targets<T: Encoding>(
    alloc: Global,
    base: Path<'_, T>,
    names: &[&[u8]],
) -> Result<Vec<PathBuf<T>>, PathError>
    ensures places { keeps_prefix T.dialect (path_bytes base.entry) ≡ true → IfOk result
        (λ ps. places T.dialect (map (λ p. p.bytes) ps.items)
        ≡ places_within T.dialect (path_bytes base.entry) names.now) }
    ensures joined { IfOk result (λ ps. map (λ p. p.bytes) ps.items
        ≡ map (λ name. push_spec.push T.dialect (path_bytes base.entry) name.now) names.now) }
    ensures only { OnOk result (first_fault T.dialect names.now ≡ None) }
    ensures refused { (e : CheckedPathError) → refusal result ≡ Some e
        → first_fault T.dialect names.now ≡ Some e }
{
    let mut targets = Vec::with_capacity(alloc, names.len())?;
    'names: for name in names {
        targets.push(target(alloc, base, name)?)?;
    }
    Ok(targets)
}

/// An entry that is refused, and why.
#[derive(Clone, Copy, Debug)]
pub struct Refused<'a> {
    /// The name of the entry.
    pub name: &'a [u8],
    /// What is wrong with it.
    pub fault: CheckedPathError,
}

/// Where the entries of an archive are unpacked, and which of them are refused.
#[derive(Drop)]
pub struct Unpacking<'a, T: Encoding> {
    /// Where the entries that are not refused go, in their order.
    pub targets: Vec<PathBuf<T>>,
    /// The entries that are refused, in their order.
    pub refused: Vec<Refused<'a>>,
}

impl<'a, T: Encoding> Unpacking<'a, T> {
    /// Appends an entry to the targets, or to the refused ones.
    fn unpack(&mut self, alloc: Global, base: Path<'_, T>, name: &'a [u8]) -> Result<(), AllocError>
        ensures below { keeps_prefix T.dialect (path_bytes base.entry) ≡ true
            → All (λ p. IsBelow T.dialect (path_bytes base.entry) p.bytes) self.old.targets.items
            → All (λ p. IsBelow T.dialect (path_bytes base.entry) p.bytes) self.new.targets.items }
        ensures targets { OnOk result (map (λ p. p.bytes) self.new.targets.items
            ≡ map (λ p. p.bytes) self.old.targets.items
            ++ joined_entries T.dialect (path_bytes base.entry) (name.entry ∷ [])) }
        ensures names { OnOk result (map (λ r. r.name) self.new.refused.items
            ≡ map (λ r. r.name) self.old.refused.items ++ faulty T.dialect (name.entry ∷ [])) }
        ensures refused { All (λ r. fault T.dialect r.name.now ≡ Some r.fault)
            self.old.refused.items
            → All (λ r. fault T.dialect r.name.now ≡ Some r.fault) self.new.refused.items }
        ensures all { OnOk result (vec_len self.new.targets + vec_len self.new.refused
            ≡ vec_len self.old.targets + vec_len self.old.refused + 1) }
    {
        match target(alloc, base, name) {
            Ok(path) => self.targets.push(path)?,
            Err(PathError::Checked(fault)) => self.refused.push(Refused { name, fault })?,
            Err(PathError::OutOfMemory) => return Err(AllocError),
        }
        Ok(())
    }
}

/// Returns where the entries of an archive are unpacked, and the refusals of those that are not.
/// Fails only if allocation does.
///
/// Each entry without a fault has the target that [`target`] gives it, and each other one is among
/// the refused with its fault, both in the order of the entries. If the base keeps its prefix, each
/// target lies below it.
pub fn unpacked<'a, T: Encoding>(
    alloc: Global,
    base: Path<'_, T>,
    names: &[&'a [u8]],
) -> Result<Unpacking<'a, T>, AllocError>
    ensures below { keeps_prefix T.dialect (path_bytes base.entry) ≡ true → IfOk result
        (λ u. All (λ p. IsBelow T.dialect (path_bytes base.entry) p.bytes) u.targets.items) }
    ensures targets { IfOk result (λ u. map (λ p. p.bytes) u.targets.items
        ≡ joined_entries T.dialect (path_bytes base.entry) names.now) }
    ensures names { IfOk result
        (λ u. map (λ r. r.name) u.refused.items ≡ faulty T.dialect names.now) }
    ensures refused { IfOk result
        (λ u. All (λ r. fault T.dialect r.name.now ≡ Some r.fault) u.refused.items) }
    ensures all { IfOk result (λ u. vec_len u.targets + vec_len u.refused ≡ length names.now) }
{
    let mut unpacking = Unpacking {
        targets: Vec::new(alloc),
        refused: Vec::new(alloc),
    };
    'names: for name in names {
        unpacking.unpack(alloc, base, name)?;
    }
    Ok(unpacking)
}

/// Does what [`unpacked`] does, for a base that is known only at run time, which is refused if it
/// does not keep its prefix.
pub fn unpacked_below<'a, T: Encoding>(
    alloc: Global,
    base: Path<'_, T>,
    names: &[&'a [u8]],
) -> Result<Unpacking<'a, T>, Untargeted>
    ensures below { IfOk result
        (λ u. All (λ p. IsBelow T.dialect (path_bytes base.entry) p.bytes) u.targets.items) }
    ensures targets { IfOk result (λ u. map (λ p. p.bytes) u.targets.items
        ≡ joined_entries T.dialect (path_bytes base.entry) names.now) }
    ensures names { IfOk result
        (λ u. map (λ r. r.name) u.refused.items ≡ faulty T.dialect names.now) }
    ensures refused { IfOk result
        (λ u. All (λ r. fault T.dialect r.name.now ≡ Some r.fault) u.refused.items) }
    ensures base { reason result ≡ reason_below T.dialect (path_bytes base.entry) None }
{
    if !base.keeps_prefix() {
        return Err(Untargeted::Base);
    }
    Ok(unpacked(alloc, base, names)?)
}
