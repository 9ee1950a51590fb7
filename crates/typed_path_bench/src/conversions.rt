//! Paths in the other encoding, and made absolute. Each call returns the length of the path, or 0
//! if it is refused or allocation fails.

use std::alloc::Global;
use typed_path::{PlatformPath, UnixPath, WindowsPath};

/// Converts a Unix path to Windows.
#[unsafe(no_mangle)]
pub extern "C" fn bench_to_windows(alloc: Global, path: &[u8]) -> usize {
    let made = UnixPath::new(path).with_windows_encoding(alloc);
    made.map_or(0, |path| path.as_path().as_bytes().len())
}

/// Converts a Unix path to Windows by checked pushes.
#[unsafe(no_mangle)]
pub extern "C" fn bench_to_windows_checked(alloc: Global, path: &[u8]) -> usize {
    let made = UnixPath::new(path).with_windows_encoding_checked(alloc);
    made.map_or(0, |path| path.as_path().as_bytes().len())
}

/// Converts a Windows path to Unix.
#[unsafe(no_mangle)]
pub extern "C" fn bench_windows_to_unix(alloc: Global, path: &[u8]) -> usize {
    let made = WindowsPath::new(path).with_unix_encoding(alloc);
    made.map_or(0, |path| path.as_path().as_bytes().len())
}

/// Converts a Windows path to Unix by checked pushes.
#[unsafe(no_mangle)]
pub extern "C" fn bench_windows_to_unix_checked(alloc: Global, path: &[u8]) -> usize {
    let made = WindowsPath::new(path).with_unix_encoding_checked(alloc);
    made.map_or(0, |path| path.as_path().as_bytes().len())
}

/// Makes a Unix path absolute from `directory`.
#[unsafe(no_mangle)]
pub extern "C" fn bench_absolutize(alloc: Global, path: &[u8], directory: &[u8]) -> usize {
    let made = UnixPath::new(path).absolutize(alloc, PlatformPath::new(directory));
    made.map_or(0, |path| path.as_path().as_bytes().len())
}
