//! Manifests written anew: for the other system, without detours, from a directory.

use crate::digest::Digest;
use crate::random::Random;
use crate::tree::{Tree, unix, windows};
use std::alloc::{AllocError, Global};
use typed_path::{
    Encoding, Path, PlatformPath, UnixEncoding, UnixPath, WindowsEncoding, WindowsPath,
};
use typed_path_uses::entry_on_windows;

/// How many entries a manifest has.
const ENTRIES: usize = 1_000;

/// How many of a thousand entries have a detour.
const OFTEN: usize = 333;

/// Normalizes entries, and makes them absolute from a directory.
fn tidy<T: Encoding>(
    alloc: Global,
    entries: &[&[u8]],
    digest: &mut Digest,
) -> Result<(), AllocError> {
    for entry in entries {
        let path = Path::<T>::new(entry);
        digest.bytes(path.normalize(alloc)?.as_path().as_bytes());
        match path.absolutize(alloc, PlatformPath::new(b"/home/user/work")) {
            Ok(path) => digest.bytes(path.as_path().as_bytes()),
            Err(refusal) => digest.nowhere(refusal)?,
        }
    }
    Ok(())
}

/// Converts entries from Unix to Windows.
fn to_windows(alloc: Global, entries: &[&[u8]], digest: &mut Digest) -> Result<(), AllocError> {
    for entry in entries {
        let path = UnixPath::new(entry);
        digest.bytes(path.with_windows_encoding(alloc)?.as_path().as_bytes());
        match entry_on_windows(alloc, path) {
            Ok(path) => digest.bytes(path.as_path().as_bytes()),
            Err(refusal) => digest.refusal(refusal)?,
        }
    }
    Ok(())
}

/// Converts entries from Windows to Unix.
fn to_unix(alloc: Global, entries: &[&[u8]], digest: &mut Digest) -> Result<(), AllocError> {
    for entry in entries {
        let path = WindowsPath::new(entry);
        digest.bytes(path.with_unix_encoding(alloc)?.as_path().as_bytes());
        match path.with_unix_encoding_checked(alloc) {
            Ok(path) => digest.bytes(path.as_path().as_bytes()),
            Err(refusal) => digest.refusal(refusal)?,
        }
    }
    Ok(())
}

/// Writes `manifests` manifests of each system anew.
pub fn manifest(
    alloc: Global,
    manifests: u64,
    random: &mut Random,
    digest: &mut Digest,
) -> Result<(), AllocError> {
    for _ in 0..manifests {
        let roots: &[&[u8]] = &[b"/", b"", b"./"];
        let tree = Tree::new(alloc, random, unix(OFTEN), roots, 200)?;
        let mut entries = tree.files(alloc, random, ENTRIES)?;
        tidy::<UnixEncoding>(alloc, &entries.list(alloc)?, digest)?;
        to_windows(alloc, &entries.renewed(alloc, random)?, digest)?;
        let roots: &[&[u8]] = &[
            br"C:\",
            b"",
            br"\\server\share\",
            br"\\?\C:\",
            br"D:\",
            br"\",
        ];
        let tree = Tree::new(alloc, random, windows(OFTEN), roots, 200)?;
        let mut entries = tree.files(alloc, random, ENTRIES)?;
        tidy::<WindowsEncoding>(alloc, &entries.list(alloc)?, digest)?;
        to_unix(alloc, &entries.renewed(alloc, random)?, digest)?;
    }
    Ok(())
}
