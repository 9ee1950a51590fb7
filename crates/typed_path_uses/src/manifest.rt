//! The paths of a manifest that was written on one system, for another.

ghost use Rattle.std.specs.Prelude.{◌≡◌, true, map, IfOk, Some, Ok, Err};
ghost use Rattle.typed_path.specs.declared.errors.CheckedPathError.{CheckedPathError};
ghost use Rattle.typed_path.specs.components.{unix, windows, kinds, parts_of};
ghost use Rattle.typed_path.specs.changes.{refusal};
ghost use Rattle.typed_path.specs.conversions.{converted_checked};
ghost use Rattle.typed_path.specs.promises.{lack_backslash};
ghost use Rattle.typed_path.specs.views.PathViews.{path_bytes};
ghost use Rattle.typed_path_uses.specs.Uses.{crossings, first_refusal};

use std::alloc::Global;
use typed_path::laws::unix_paths_cross_to_windows;
use typed_path::{
    Encoding, Path, PathBuf, PathError, UnixPath, Utf8Encoding, Utf8Path, Utf8PathBuf,
    WindowsPathBuf,
};

/// Returns the paths of a manifest as they are written in another encoding, in their order; or the
/// refusal of the first that cannot be written so.
pub fn rewritten<T: Encoding, U: Encoding>(
    alloc: Global,
    entries: &[&[u8]],
) -> Result<Vec<PathBuf<U>>, PathError>
    ensures ok { IfOk result (λ ps.
        crossings T.dialect U.dialect entries.now ≡ map (λ p. Ok p.bytes) ps.items) }
    ensures refused { (e : CheckedPathError) → refusal result ≡ Some e
        → first_refusal (crossings T.dialect U.dialect entries.now) ≡ Some e }
{
    let mut paths = Vec::with_capacity(alloc, entries.len())?;
    'entries: for entry in entries {
        paths.push(Path::<T>::new(entry).with_encoding_checked::<U>(alloc)?)?;
    }
    Ok(paths)
}

/// Does what [`rewritten`] does, for a manifest of text.
pub fn rewritten_texts<T: Utf8Encoding, U: Utf8Encoding>(
    alloc: Global,
    entries: &[&str],
) -> Result<Vec<Utf8PathBuf<U>>, PathError>
    ensures ok { IfOk result (λ ps.
        crossings T.Bytes.dialect U.Bytes.dialect entries.now ≡ map (λ p. Ok p.bytes) ps.items) }
    ensures refused { (e : CheckedPathError) → refusal result ≡ Some e
        → first_refusal (crossings T.Bytes.dialect U.Bytes.dialect entries.now) ≡ Some e }
{
    let mut paths = Vec::with_capacity(alloc, entries.len())?;
    'entries: for entry in entries {
        paths.push(Utf8Path::<T>::new(entry).with_encoding_checked::<U>(alloc)?)?;
    }
    Ok(paths)
}

/// Returns a Unix path as it is written in a manifest of Windows, or its refusal. If no name of it
/// holds a `\`, it is read there as the same components.
pub fn entry_on_windows(alloc: Global, entry: UnixPath<'_>) -> Result<WindowsPathBuf, PathError>
    ensures alike { lack_backslash (kinds (parts_of unix (path_bytes entry.entry))) ≡ true
        → IfOk result
        (λ p. kinds (parts_of windows p.bytes) ≡ kinds (parts_of unix (path_bytes entry.entry))) }
    ensures ok { IfOk result
        (λ p. converted_checked unix windows (path_bytes entry.entry) ≡ Ok p.bytes) }
    ensures refused { (e : CheckedPathError) → refusal result ≡ Some e
        → converted_checked unix windows (path_bytes entry.entry) ≡ Err e }
{
    unix_paths_cross_to_windows(entry.as_bytes());
    entry.with_windows_encoding_checked(alloc)
}
