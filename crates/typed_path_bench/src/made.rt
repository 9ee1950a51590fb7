//! Owned Unix paths made of borrowed ones. Each call returns the length of the path, or 0 if it is
//! refused or allocation fails.

use std::alloc::{AllocError, Global};
use std::borrow::CowStr;
use typed_path::{UnixPath, UnixPathBuf};

/// Returns the length of a path, or 0 for an error.
fn length_of(made: Result<UnixPathBuf, AllocError>) -> usize {
    made.map_or(0, |path| path.as_path().as_bytes().len())
}

/// Copies the path.
#[unsafe(no_mangle)]
pub extern "C" fn bench_to_path_buf(alloc: Global, path: &[u8]) -> usize {
    length_of(UnixPath::new(path).to_path_buf(alloc))
}

/// Makes the path in lower case.
#[unsafe(no_mangle)]
pub extern "C" fn bench_to_ascii_lowercase(alloc: Global, path: &[u8]) -> usize {
    length_of(UnixPath::new(path).to_ascii_lowercase(alloc))
}

/// Joins `other` to the path.
#[unsafe(no_mangle)]
pub extern "C" fn bench_join(alloc: Global, path: &[u8], other: &[u8]) -> usize {
    length_of(UnixPath::new(path).join(alloc, UnixPath::new(other)))
}

/// Joins `other` to the path, unless a component of `other` offends.
#[unsafe(no_mangle)]
pub extern "C" fn bench_join_checked(alloc: Global, path: &[u8], other: &[u8]) -> usize {
    let joined = UnixPath::new(path).join_checked(alloc, UnixPath::new(other));
    joined.map_or(0, |path| path.as_path().as_bytes().len())
}

/// Returns a copy of the path with each component of `other` pushed onto it.
fn extended(alloc: Global, path: &[u8], other: &[u8]) -> Result<UnixPathBuf, AllocError> {
    let mut extended = UnixPathBuf::from_bytes(alloc, path)?;
    extended.extend(UnixPath::new(other).iter().map(UnixPath::new))?;
    Ok(extended)
}

/// Copies the path and pushes each component of `other` onto it.
#[unsafe(no_mangle)]
pub extern "C" fn bench_extend(alloc: Global, path: &[u8], other: &[u8]) -> usize {
    length_of(extended(alloc, path, other))
}

/// Copies the path with another file name.
#[unsafe(no_mangle)]
pub extern "C" fn bench_with_file_name(alloc: Global, path: &[u8], name: &[u8]) -> usize {
    length_of(UnixPath::new(path).with_file_name(alloc, name))
}

/// Copies the path with another extension.
#[unsafe(no_mangle)]
pub extern "C" fn bench_with_extension(alloc: Global, path: &[u8], extension: &[u8]) -> usize {
    length_of(UnixPath::new(path).with_extension(alloc, extension))
}

/// Copies the path with `extension` appended to its file name.
#[unsafe(no_mangle)]
pub extern "C" fn bench_with_added_extension(
    alloc: Global,
    path: &[u8],
    extension: &[u8],
) -> usize {
    length_of(UnixPath::new(path).with_added_extension(alloc, extension))
}

/// Makes the normal path.
#[unsafe(no_mangle)]
pub extern "C" fn bench_normalize(alloc: Global, path: &[u8]) -> usize {
    length_of(UnixPath::new(path).normalize(alloc))
}

/// Makes the clean path.
#[unsafe(no_mangle)]
pub extern "C" fn bench_clean(alloc: Global, path: &[u8]) -> usize {
    length_of(UnixPath::new(path).clean(alloc))
}

/// Makes the path that leads from `base` to the path.
#[unsafe(no_mangle)]
pub extern "C" fn bench_relative_to(alloc: Global, path: &[u8], base: &[u8]) -> usize {
    let found = UnixPath::new(path).relative_to(alloc, UnixPath::new(base));
    match found {
        Ok(Some(found)) => found.as_path().as_bytes().len(),
        Ok(None) | Err(_) => 0,
    }
}

/// Makes text of the path.
#[unsafe(no_mangle)]
pub extern "C" fn bench_to_string_lossy(alloc: Global, path: &[u8]) -> usize {
    match UnixPath::new(path).to_string_lossy(alloc) {
        Ok(CowStr::Borrowed(text)) => text.len(),
        Ok(CowStr::Owned(text)) => text.len(),
        Err(_) => 0,
    }
}
