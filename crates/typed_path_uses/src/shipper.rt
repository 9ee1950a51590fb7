//! A shipper of logs: each event names a file on Windows, and its log goes below the folder of its
//! day on Unix.

ghost use Rattle.std.specs.Prelude.{◌≡◌, true, IfOk, Some, Ok, Err};
ghost use Rattle.typed_path.specs.changes.Push as push_spec;
ghost use Rattle.typed_path.specs.changes.{refusal, fault};
ghost use Rattle.typed_path.specs.components.{unix};
ghost use Rattle.typed_path.specs.declared.errors.CheckedPathError.{CheckedPathError};
ghost use Rattle.typed_path.specs.places.{is_within};
ghost use Rattle.typed_path.specs.promises.{IsBelow};
ghost use Rattle.typed_path.specs.views.PathViews.{path_bytes};
ghost use Rattle.typed_path_uses.specs.Server.{behind_slash};
ghost use Rattle.typed_path_uses.specs.Shipper as named;

use std::alloc::Global;
use typed_path::laws::within_is_a_preorder;
use typed_path::{PathError, UnixPath, UnixPathBuf, WindowsPath};

/// Returns the folder of a day, below the root of all logs.
pub fn day_folder(alloc: Global, root: UnixPath<'_>, day: &[u8]) -> Result<UnixPathBuf, PathError>
    ensures below { IfOk result (λ folder. IsBelow unix (path_bytes root.entry) folder.bytes) }
    ensures within { IfOk result
        (λ folder. is_within unix folder.bytes (path_bytes root.entry) ≡ true) }
    ensures joined { IfOk result
        (λ folder. folder.bytes ≡ push_spec.push unix (path_bytes root.entry) day.now) }
    ensures refused { refusal result ≡ fault unix day.now }
{
    root.join_checked(alloc, UnixPath::new(day))
}

/// Returns where the log of an event goes: below the folder of its day, at the names of its path on
/// Windows.
///
/// A drive with a root after it is left out, and so is any other prefix; a drive without a root
/// becomes a folder. So a root of logs serves one drive of one machine. For `/logs/2026-11-28` and
/// `C:\inetpub\u.log` it is `/logs/2026-11-28/inetpub/u.log`.
///
/// # Errors
///
/// `Checked` if a name cannot be one on Unix, or if the path leads out, as `C:\..\u.log` does.
/// `OutOfMemory` if allocation fails.
pub fn shipped(
    alloc: Global,
    folder: UnixPath<'_>,
    event: WindowsPath<'_>,
) -> Result<UnixPathBuf, PathError>
    ensures below { IfOk result (λ file. IsBelow unix (path_bytes folder.entry) file.bytes) }
    ensures within { IfOk result
        (λ file. is_within unix file.bytes (path_bytes folder.entry) ≡ true) }
    ensures ok { IfOk result (λ file.
        named.shipped (path_bytes folder.entry) (path_bytes event.entry) ≡ Ok file.bytes) }
    ensures refused { (e : CheckedPathError) → refusal result ≡ Some e
        → named.shipped (path_bytes folder.entry) (path_bytes event.entry) ≡ Err e }
{
    match event.with_unix_encoding_checked(alloc) {
        Ok(path) => logged(alloc, folder, path.as_path()),
        Err(refused) => Err(refused),
    }
}

/// Returns where the log of an event of a day goes: within the root of all logs.
pub fn day_log(
    alloc: Global,
    root: UnixPath<'_>,
    day: &[u8],
    event: WindowsPath<'_>,
) -> Result<UnixPathBuf, PathError>
    ensures within { IfOk result
        (λ file. is_within unix file.bytes (path_bytes root.entry) ≡ true) }
{
    let folder = day_folder(alloc, root, day)?;
    let file = shipped(alloc, folder.as_path(), event)?;
    within_is_a_preorder(
        file.as_path().as_bytes(),
        folder.as_path().as_bytes(),
        root.as_bytes(),
    );
    Ok(file)
}

/// Returns a Unix path without its root, below `folder`.
fn logged(alloc: Global, folder: UnixPath<'_>, path: UnixPath<'_>) -> Result<UnixPathBuf, PathError>
    ensures below { IfOk result (λ file. IsBelow unix (path_bytes folder.entry) file.bytes) }
    ensures within { IfOk result
        (λ file. is_within unix file.bytes (path_bytes folder.entry) ≡ true) }
    ensures ok { IfOk result (λ file.
        named.logged (path_bytes folder.entry) (path_bytes path.entry) ≡ Ok file.bytes) }
    ensures refused { (e : CheckedPathError) → refusal result ≡ Some e
        → named.logged (path_bytes folder.entry) (path_bytes path.entry) ≡ Err e }
{
    folder.join_checked(alloc, UnixPath::new(without_slash(path.as_bytes())))
}

/// Returns a path without a `/` at its front.
fn without_slash(path: &[u8]) -> &[u8]
    ensures { result.now ≡ behind_slash path.now }
{
    match path {
        [b'/', rest @ ..] => rest,
        _ => path,
    }
}
