//! Paths compared and hashed.

use std::cmp::Ordering;
use std::hash::{DefaultHasher, Hash, Hasher};
use typed_path::{Encoding, Key, Path, UnixEncoding, UnixPath, WindowsEncoding};

/// Whether two paths are equal.
fn eq<T: Encoding>(path: &[u8], other: &[u8]) -> usize {
    usize::from(Path::<T>::new(path) == Path::<T>::new(other))
}

/// Returns the order of two paths as a number: 0 for less, 1 for equal, 2 for greater.
fn cmp<T: Encoding>(path: &[u8], other: &[u8]) -> usize {
    match Path::<T>::new(path).cmp(&Path::new(other)) {
        Ordering::Less => 0,
        Ordering::Equal => 1,
        Ordering::Greater => 2,
    }
}

/// Hashes a path, and returns whether the hash is not 0.
fn hash<T: Encoding>(path: &[u8]) -> usize {
    let mut state = DefaultHasher::default();
    Path::<T>::new(path).hash(&mut state);
    usize::from(state.finish() != 0)
}

/// Whether two Unix paths are equal.
#[unsafe(no_mangle)]
pub extern "C" fn bench_eq(path: &[u8], other: &[u8]) -> usize {
    eq::<UnixEncoding>(path, other)
}

/// Returns the order of two Unix paths.
#[unsafe(no_mangle)]
pub extern "C" fn bench_cmp(path: &[u8], other: &[u8]) -> usize {
    cmp::<UnixEncoding>(path, other)
}

/// Hashes a Unix path.
#[unsafe(no_mangle)]
pub extern "C" fn bench_hash(path: &[u8]) -> usize {
    hash::<UnixEncoding>(path)
}

/// Whether two Windows paths are equal.
#[unsafe(no_mangle)]
pub extern "C" fn bench_windows_eq(path: &[u8], other: &[u8]) -> usize {
    eq::<WindowsEncoding>(path, other)
}

/// Returns the order of two Windows paths.
#[unsafe(no_mangle)]
pub extern "C" fn bench_windows_cmp(path: &[u8], other: &[u8]) -> usize {
    cmp::<WindowsEncoding>(path, other)
}

/// Hashes a Windows path.
#[unsafe(no_mangle)]
pub extern "C" fn bench_windows_hash(path: &[u8]) -> usize {
    hash::<WindowsEncoding>(path)
}

/// Whether two Unix paths are equal in lower case.
#[unsafe(no_mangle)]
pub extern "C" fn bench_eq_ignore_case(path: &[u8], other: &[u8]) -> usize {
    usize::from(UnixPath::new(path).eq_ignore_ascii_case(UnixPath::new(other)))
}

/// Hashes the key of a Unix path, and returns whether the hash is not 0.
#[unsafe(no_mangle)]
pub extern "C" fn bench_key_hash(path: &[u8]) -> usize {
    let mut state = DefaultHasher::default();
    Key::new(UnixPath::new(path)).hash(&mut state);
    usize::from(state.finish() != 0)
}

/// Writes the key of a Unix path into a buffer, and returns how many bytes it has.
#[unsafe(no_mangle)]
pub extern "C" fn bench_put_key(path: &[u8]) -> usize {
    let mut room = [0u8; 512];
    UnixPath::new(path).put_key(&mut room)
}
