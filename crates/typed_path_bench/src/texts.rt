//! Calls of paths of text, and the same calls of their bytes, over many paths. Each returns the sum
//! of what the calls return.
//!
//! The paths follow one another in `texts`, and `ends` has the index at which each ends. Both check
//! once that `texts` is UTF-8.

use std::alloc::{AllocError, Global};
use std::str;
use typed_path::{Encoding, PathBuf, UnixPath, Utf8Encoding, Utf8PathBuf, Utf8UnixPath};

/// Returns the length of a path of text, or 0 for an error.
fn text_len<T: Utf8Encoding, E: Drop>(made: Result<Utf8PathBuf<T>, E>) -> usize {
    made.map_or(0, |path| path.as_path().as_str().len())
}

/// Returns the length of a path of bytes, or 0 for an error.
fn bytes_len<T: Encoding, E: Drop>(made: Result<PathBuf<T>, E>) -> usize {
    made.map_or(0, |path| path.as_path().as_bytes().len())
}

/// Copies a path of text, pushes `other` onto it, and returns the length.
fn text_pushed(alloc: Global, path: &str, other: &str) -> Result<usize, AllocError> {
    let mut made = Utf8UnixPath::new(path).to_path_buf(alloc)?;
    made.push(Utf8UnixPath::new(other))?;
    Ok(made.as_path().as_str().len())
}

/// Copies a path of bytes, pushes `other` onto it, and returns the length.
fn bytes_pushed(alloc: Global, path: &[u8], other: &[u8]) -> Result<usize, AllocError> {
    let mut made = UnixPath::new(path).to_path_buf(alloc)?;
    made.push(UnixPath::new(other))?;
    Ok(made.as_path().as_bytes().len())
}

/// Returns what the call of this number returns for a path of text.
fn of_text(alloc: Global, call: usize, path: &str, other: &str) -> usize {
    let path = Utf8UnixPath::new(path);
    match call {
        0 => {
            let mut sum = 0usize;
            for piece in path.components() {
                sum = sum.wrapping_add(piece.text.len());
            }
            sum
        }
        1 => {
            let mut sum = 0usize;
            for text in path.iter().rev() {
                sum = sum.wrapping_add(text.len());
            }
            sum
        }
        2 => path.parent().map_or(1, |parent| parent.as_str().len()),
        3 => text_len(path.join_checked(alloc, Utf8UnixPath::new(other))),
        4 => text_len(path.normalize(alloc)),
        5 => text_len(path.with_windows_encoding(alloc)),
        6 => text_len(path.with_windows_encoding_checked(alloc)),
        _ => text_pushed(alloc, path.as_str(), other).unwrap_or(0),
    }
}

/// Returns what the call of this number returns for a path of bytes.
fn of_bytes(alloc: Global, call: usize, path: &[u8], other: &[u8]) -> usize {
    let path = UnixPath::new(path);
    match call {
        0 => {
            let mut sum = 0usize;
            for piece in path.components() {
                sum = sum.wrapping_add(piece.text.len());
            }
            sum
        }
        1 => {
            let mut sum = 0usize;
            for text in path.iter().rev() {
                sum = sum.wrapping_add(text.len());
            }
            sum
        }
        2 => path.parent().map_or(1, |parent| parent.as_bytes().len()),
        3 => bytes_len(path.join_checked(alloc, UnixPath::new(other))),
        4 => bytes_len(path.normalize(alloc)),
        5 => bytes_len(path.with_windows_encoding(alloc)),
        6 => bytes_len(path.with_windows_encoding_checked(alloc)),
        _ => bytes_pushed(alloc, path.as_bytes(), other).unwrap_or(0),
    }
}

/// Makes one call of each path as text.
#[unsafe(no_mangle)]
pub extern "C" fn bench_texts_of_text(
    alloc: Global,
    texts: &[u8],
    ends: &[usize],
    other: &[u8],
    call: usize,
) -> usize {
    let (Ok(texts), Ok(other)) = (str::from_utf8(texts), str::from_utf8(other)) else {
        return 0;
    };
    let mut sum = 0usize;
    let mut start = 0usize;
    for end in ends {
        let path = texts.get(start..*end).unwrap_or("");
        sum = sum.wrapping_add(of_text(alloc, call, path, other));
        start = *end;
    }
    sum
}

/// Makes one call of each path as bytes.
#[unsafe(no_mangle)]
pub extern "C" fn bench_texts_of_bytes(
    alloc: Global,
    texts: &[u8],
    ends: &[usize],
    other: &[u8],
    call: usize,
) -> usize {
    let (Ok(texts), Ok(other)) = (str::from_utf8(texts), str::from_utf8(other)) else {
        return 0;
    };
    let mut sum = 0usize;
    let mut start = 0usize;
    for end in ends {
        let path = texts.get(start..*end).unwrap_or("");
        sum = sum.wrapping_add(of_bytes(alloc, call, path.as_bytes(), other.as_bytes()));
        start = *end;
    }
    sum
}
