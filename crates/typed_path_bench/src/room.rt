//! Changes of one owned path that has room: each of many paths is written into it, and then it is
//! changed. Each call returns the sum of the lengths after the change.
//!
//! The paths follow one another in `texts`, and `ends` has the index at which each ends.

use std::alloc::{AllocError, Global};
use typed_path::{UnixPath, UnixPathBuf};

/// What is done to a path that was written.
#[derive(Clone, Copy)]
enum Change {
    None,
    Push,
    Pop,
    FileName,
    Extension,
    Clone,
}

/// Changes a path, and returns the length of the result.
fn changed(path: &mut UnixPathBuf, change: Change, other: &[u8]) -> Result<usize, AllocError> {
    match change {
        Change::None => {}
        Change::Push => path.push(UnixPath::new(other))?,
        Change::Pop => {
            path.pop();
        }
        Change::FileName => path.set_file_name(other)?,
        Change::Extension => {
            path.set_extension(other)?;
        }
        Change::Clone => return Ok(path.clone()?.as_path().as_bytes().len()),
    }
    Ok(path.as_path().as_bytes().len())
}

/// Writes each path into one that has room, changes it there, and returns the sum of the lengths.
fn sum(
    alloc: Global,
    texts: &[u8],
    ends: &[usize],
    change: Change,
    other: &[u8],
) -> Result<usize, AllocError> {
    let mut path = UnixPathBuf::with_capacity(alloc, texts.len() + other.len() + 1)?;
    let mut sum = 0usize;
    let mut start = 0usize;
    for end in ends {
        path.clear();
        path.push(UnixPath::new(texts.get(start..*end).unwrap_or(b"")))?;
        sum = sum.wrapping_add(changed(&mut path, change, other)?);
        start = *end;
    }
    Ok(sum)
}

/// Makes no change.
#[unsafe(no_mangle)]
pub extern "C" fn bench_room_lay(
    alloc: Global,
    texts: &[u8],
    ends: &[usize],
    other: &[u8],
) -> usize {
    sum(alloc, texts, ends, Change::None, other).unwrap_or(0)
}

/// Pushes `other`.
#[unsafe(no_mangle)]
pub extern "C" fn bench_room_push(
    alloc: Global,
    texts: &[u8],
    ends: &[usize],
    other: &[u8],
) -> usize {
    sum(alloc, texts, ends, Change::Push, other).unwrap_or(0)
}

/// Removes the last component.
#[unsafe(no_mangle)]
pub extern "C" fn bench_room_pop(
    alloc: Global,
    texts: &[u8],
    ends: &[usize],
    other: &[u8],
) -> usize {
    sum(alloc, texts, ends, Change::Pop, other).unwrap_or(0)
}

/// Sets the file name to `other`.
#[unsafe(no_mangle)]
pub extern "C" fn bench_room_file_name(
    alloc: Global,
    texts: &[u8],
    ends: &[usize],
    other: &[u8],
) -> usize {
    sum(alloc, texts, ends, Change::FileName, other).unwrap_or(0)
}

/// Sets the extension to `other`.
#[unsafe(no_mangle)]
pub extern "C" fn bench_room_extension(
    alloc: Global,
    texts: &[u8],
    ends: &[usize],
    other: &[u8],
) -> usize {
    sum(alloc, texts, ends, Change::Extension, other).unwrap_or(0)
}

/// Clones the path.
#[unsafe(no_mangle)]
pub extern "C" fn bench_room_clone(
    alloc: Global,
    texts: &[u8],
    ends: &[usize],
    other: &[u8],
) -> usize {
    sum(alloc, texts, ends, Change::Clone, other).unwrap_or(0)
}
