//! Folders that are made one below the other.

ghost use Rattle.std.specs.Prelude.{IfOk};
ghost use Rattle.typed_path.specs.promises.{StaysWithin};
ghost use Rattle.typed_path.specs.views.PathViews.{path_bytes};

use std::alloc::Global;
use typed_path::laws::{joined_is_within, joined_twice_is_within};
use typed_path::{Encoding, Path, PathBuf, PathError};

/// Returns the path of a file in a folder in `base`, where strangers named the folder and the file.
/// It lies within the base, if that keeps its prefix.
///
/// # Errors
///
/// `Checked` for the first name with a fault, `OutOfMemory` if allocation fails.
pub fn filed_in<T: Encoding>(
    alloc: Global,
    base: Path<'_, T>,
    folder: Path<'_, T>,
    file: Path<'_, T>,
) -> Result<PathBuf<T>, PathError>
    ensures within { IfOk result (λ p. StaysWithin T.dialect (path_bytes base.entry) p.bytes) }
{
    let mut path = base.join_checked(alloc, folder)?;
    path.push_checked(file)?;
    joined_twice_is_within(base.as_bytes(), folder.as_bytes(), file.as_bytes());
    Ok(path)
}

/// Returns `base` with the names pushed onto it one by one. None may lead out of what those before
/// it made, so the result lies within the base, if that keeps its prefix.
///
/// # Errors
///
/// `Checked` for the first name with a fault, `OutOfMemory` if allocation fails.
pub fn nested<T: Encoding>(
    alloc: Global,
    base: Path<'_, T>,
    names: &[&[u8]],
) -> Result<PathBuf<T>, PathError>
    ensures within { IfOk result (λ p. StaysWithin T.dialect (path_bytes base.entry) p.bytes) }
{
    let mut path = base.to_path_buf(alloc)?;
    'names: for name in names {
        joined_is_within(path.as_path().as_bytes(), name);
        path.push_checked(Path::new(name))?;
    }
    Ok(path)
}
