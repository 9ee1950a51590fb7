//! Paths of a configuration: each is read from a directory, and stays within a folder that is read
//! from there too.

ghost use Rattle.std.specs.Prelude.{◌≡◌, ◌&&◌, true, false, IfOk, IfErr, Err};
ghost use Rattle.typed_path.specs.changes.Push as push_spec;
ghost use Rattle.typed_path.specs.components.{kinds, parts_of};
ghost use Rattle.typed_path.specs.places.{is_within};
ghost use Rattle.typed_path.specs.promises.{IsBelow};
ghost use Rattle.typed_path.specs.queries.{is_valid};
ghost use Rattle.typed_path.specs.views.PathViews.{path_bytes};
ghost use Rattle.typed_path_uses.specs.Uses.{is_firm};
ghost use Rattle.typed_path_uses.specs.declared.config.Unconfigured.TheVariants.{Directory, Name, Outside, OutOfMemory};

use std::alloc::{AllocError, Global};
use thiserror::Error;
use typed_path::laws::within_leads_below;
use typed_path::{Encoding, Path, PathBuf};

/// Why a path of a configuration is not accepted.
#[derive(Clone, Copy, Debug, PartialEq, Eq, Error)]
pub enum Unconfigured {
    /// The directory is not absolute, or does not keep its prefix.
    #[error("the directory is not absolute, or does not keep its prefix")]
    Directory,
    /// The path does not lie within the folder.
    #[error("the path is not within the folder")]
    Outside,
    /// A name of the path is not allowed.
    #[error("a name of the path is not allowed")]
    Name,
    /// An allocation failed.
    #[error("out of memory")]
    OutOfMemory,
}

impl From<AllocError> for Unconfigured {
    ghost from_gives = { λ _ e. e ≡ OutOfMemory };

    fn from(_refused: AllocError) -> Unconfigured {
        Unconfigured::OutOfMemory
    }
}

/// Returns where a path of a configuration leads from `directory`: at `folder` or below it, which
/// is read from there too. Each name of the path is allowed, so none has a NUL, at which a call of
/// the system would end it.
pub fn configured<T: Encoding>(
    alloc: Global,
    directory: Path<'_, T>,
    folder: Path<'_, T>,
    path: Path<'_, T>,
) -> Result<PathBuf<T>, Unconfigured>
    ensures below { IfOk result (λ p. IsBelow T.dialect
        (push_spec.push T.dialect (path_bytes directory.entry) (path_bytes folder.entry)) p.bytes) }
    ensures joined { IfOk result (λ p. p.bytes
        ≡ push_spec.push T.dialect (path_bytes directory.entry) (path_bytes path.entry)) }
    ensures valid { IfOk result (λ _. is_valid T.dialect (kinds (parts_of T.dialect (path_bytes path.entry))) ≡ true) }
    ensures directory { is_firm T.dialect (path_bytes directory.entry) ≡ false
        → result ≡ Err Directory }
    ensures outside { is_firm T.dialect (path_bytes directory.entry) ≡ true
        → is_within T.dialect (path_bytes path.entry) (path_bytes folder.entry) ≡ false
        → result ≡ Err Outside }
    ensures name { is_firm T.dialect (path_bytes directory.entry) ≡ true
        → is_within T.dialect (path_bytes path.entry) (path_bytes folder.entry) ≡ true
        → is_valid T.dialect (kinds (parts_of T.dialect (path_bytes path.entry))) ≡ false
        → result ≡ Err Name }
    ensures memory { is_firm T.dialect (path_bytes directory.entry) ≡ true
        → is_within T.dialect (path_bytes path.entry) (path_bytes folder.entry) ≡ true
        → is_valid T.dialect (kinds (parts_of T.dialect (path_bytes path.entry))) ≡ true
        → IfErr result (λ e. e ≡ OutOfMemory) }
{
    if !(directory.is_absolute() && directory.keeps_prefix()) {
        return Err(Unconfigured::Directory);
    }
    if !path.is_within(folder) {
        return Err(Unconfigured::Outside);
    }
    if !path.is_valid() {
        return Err(Unconfigured::Name);
    }
    within_leads_below(directory.as_bytes(), path.as_bytes(), folder.as_bytes());
    Ok(directory.join(alloc, path)?)
}
