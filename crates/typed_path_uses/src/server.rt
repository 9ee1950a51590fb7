//! The files with which a server of files answers, on Unix and on Windows.

ghost use Rattle.std.specs.Prelude.{◌≡◌, true, false, IfOk, IfErr, Err, None};
ghost use Rattle.std.specs.List.{list_any};
ghost use Rattle.typed_path.specs.components.{unix, windows};
ghost use Rattle.typed_path.specs.changes.Push as push_spec;
ghost use Rattle.typed_path.specs.changes.{fault};
ghost use Rattle.typed_path.specs.promises.{keeps_prefix, IsBelow, LiesBelow};
ghost use Rattle.typed_path.specs.views.PathViews.{path_bytes};
ghost use Rattle.typed_path_uses.specs.Server as named;
ghost use Rattle.typed_path_uses.specs.Server.{decoded, reason_of, IsReason};
ghost use Rattle.typed_path_uses.specs.declared.server.Unserved.TheVariants.{Root};

use percent_encoding::percent_decode;
use std::alloc::{AllocError, Global};
use thiserror::Error;
use typed_path::constants::windows::DISALLOWED_FILENAME_BYTES;
use typed_path::{
    CheckedPathError, Encoding, Path, PathBuf, PathError, UnixPath, UnixPathBuf, WindowsPath,
    WindowsPathBuf,
};

/// Why the path of a URL names no file.
#[derive(Clone, Copy, Debug, PartialEq, Eq, Error)]
pub enum Unserved {
    /// The path leads out of the root.
    #[error("the path leads out of the root")]
    Traversal,
    /// The path begins with a root, a drive, a share or another prefix.
    #[error("the path is absolute")]
    Absolute,
    /// A name of the path holds the byte 00.
    #[error("a name holds the byte 00")]
    ZeroByte,
    /// A name of the path holds another byte that no name may have.
    #[error("a name holds a byte that no name may have")]
    BadName,
    /// A name of the path stands for a device.
    #[error("a name stands for a device")]
    Device,
    /// The root does not keep its prefix: what is pushed onto it may become a part of that.
    #[error("the root does not keep its prefix")]
    Root,
    /// An allocation failed.
    #[error("out of memory")]
    OutOfMemory,
}

impl From<AllocError> for Unserved {
    ghost use Rattle.typed_path_uses.specs.declared.server.Unserved.TheVariants.{OutOfMemory};

    ghost from_gives = { λ _ e. e ≡ OutOfMemory };

    fn from(_refused: AllocError) -> Unserved {
        Unserved::OutOfMemory
    }
}

/// Returns the file that the path of a URL names, below a root that keeps its prefix; or why it
/// names none.
///
/// The path begins with a `/`, and its escapes are decoded before it is checked.
pub fn served<T: Encoding>(
    alloc: Global,
    root: Path<'_, T>,
    url: &[u8],
) -> Result<PathBuf<T>, Unserved>
    ensures below { IfOk result (λ file. LiesBelow T.dialect (path_bytes root.entry) file.bytes) }
    ensures joined { IfOk result (λ file. file.bytes
        ≡ push_spec.push T.dialect (path_bytes root.entry) (decoded url.now)) }
    ensures only { IfOk result (λ file. fault T.dialect (decoded url.now) ≡ None) }
    ensures refused { IfErr result
        (IsReason (decoded url.now) (fault T.dialect (decoded url.now))) }
{
    let path = decode(alloc, url)?;
    match root.join_checked(alloc, Path::new(path.as_slice())) {
        Ok(file) => Ok(file),
        Err(PathError::Checked(fault)) => Err(reason(fault, path.as_slice())),
        Err(PathError::OutOfMemory) => Err(Unserved::OutOfMemory),
    }
}

/// Does what [`served`] does, for a root that is known only at run time, which is refused if it
/// does not keep its prefix.
pub fn served_below<T: Encoding>(
    alloc: Global,
    root: Path<'_, T>,
    url: &[u8],
) -> Result<PathBuf<T>, Unserved>
    ensures below { IfOk result (λ file. IsBelow T.dialect (path_bytes root.entry) file.bytes) }
    ensures joined { IfOk result (λ file. file.bytes
        ≡ push_spec.push T.dialect (path_bytes root.entry) (decoded url.now)) }
    ensures only { IfOk result (λ file. fault T.dialect (decoded url.now) ≡ None) }
    ensures root { keeps_prefix T.dialect (path_bytes root.entry) ≡ false → result ≡ Err Root }
    ensures refused { keeps_prefix T.dialect (path_bytes root.entry) ≡ true
        → IfErr result (IsReason (decoded url.now) (fault T.dialect (decoded url.now))) }
{
    if !root.keeps_prefix() {
        return Err(Unserved::Root);
    }
    served(alloc, root, url)
}

/// The root of the files on Unix.
pub const UNIX_ROOT: &[u8] = b"/srv/www";

/// The root of the files on Windows.
pub const WINDOWS_ROOT: &[u8] = br"C:\www";

/// Returns the file of a URL on Unix, below `/srv/www`.
pub fn served_on_unix(alloc: Global, url: &[u8]) -> Result<UnixPathBuf, Unserved>
    ensures below { IfOk result (λ file. IsBelow unix UNIX_ROOT.now file.bytes) }
    ensures joined { IfOk result
        (λ file. file.bytes ≡ push_spec.push unix UNIX_ROOT.now (decoded url.now)) }
    ensures only { IfOk result (λ file. fault unix (decoded url.now) ≡ None) }
    ensures refused { IfErr result (IsReason (decoded url.now) (fault unix (decoded url.now))) }
{
    served(alloc, UnixPath::new(UNIX_ROOT), url)
}

/// Returns the file of a URL on Windows, below `C:\www`.
pub fn served_on_windows(alloc: Global, url: &[u8]) -> Result<WindowsPathBuf, Unserved>
    ensures below { IfOk result (λ file. IsBelow windows WINDOWS_ROOT.now file.bytes) }
    ensures joined { IfOk result
        (λ file. file.bytes ≡ push_spec.push windows WINDOWS_ROOT.now (decoded url.now)) }
    ensures only { IfOk result (λ file. fault windows (decoded url.now) ≡ None) }
    ensures refused { IfErr result (IsReason (decoded url.now) (fault windows (decoded url.now))) }
{
    served(alloc, WindowsPath::new(WINDOWS_ROOT), url)
}

/// Returns the path of a URL without its first `/`, with its escapes decoded.
fn decode(alloc: Global, url: &[u8]) -> Result<Vec<u8>, AllocError>
    ensures { IfOk result (λ path. path.items ≡ decoded url.now) }
{
    let url = match url {
        [b'/', rest @ ..] => rest,
        _ => url,
    };
    let mut path = Vec::new(alloc);
    percent_decode(url).append_to(&mut path)?;
    Ok(path)
}

/// Returns the error of a server for a fault of the path.
fn reason(fault: CheckedPathError, path: &[u8]) -> Unserved
    ensures { result ≡ reason_of path.now fault }
{
    match fault {
        CheckedPathError::PathTraversalAttack => Unserved::Traversal,
        CheckedPathError::UnexpectedRoot | CheckedPathError::UnexpectedPrefix => Unserved::Absolute,
        CheckedPathError::InvalidFilename if path.contains(&0) => Unserved::ZeroByte,
        CheckedPathError::InvalidFilename if has_stray(path) => Unserved::BadName,
        CheckedPathError::InvalidFilename => Unserved::Device,
    }
}

/// Whether a path has a byte that no Windows name may have and that is no separator.
fn has_stray(path: &[u8]) -> bool
    ensures { result ≡ list_any named.is_stray path.now }
{
    path.iter().any(|byte| is_stray(*byte))
}

/// Whether a byte is one that no Windows name may have, and no separator.
fn is_stray(byte: u8) -> bool
    ensures { result ≡ named.is_stray byte }
{
    byte != b'/' && byte != b'\\' && DISALLOWED_FILENAME_BYTES.contains(&byte)
}
