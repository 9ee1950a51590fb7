//! Calls on Windows paths. Walks return the sum of the lengths of the components; single steps and
//! parts their length, or 1 if there is none; questions 1 for yes and 0 for no; and calls that make
//! a path its length, or 0 if it is refused or allocation fails.

use crate::answers::told;
use std::alloc::{AllocError, Global};
use typed_path::{TypedPath, Unread, WindowsPath, WindowsPathBuf};

/// Walks by `for`.
#[unsafe(no_mangle)]
pub extern "C" fn bench_windows_walk(path: &[u8]) -> usize {
    let mut sum = 0usize;
    for piece in WindowsPath::new(path).components() {
        sum = sum.wrapping_add(piece.text.len());
    }
    sum
}

/// Walks by `for` from the last component to the first.
#[unsafe(no_mangle)]
pub extern "C" fn bench_windows_walk_back(path: &[u8]) -> usize {
    let mut sum = 0usize;
    for piece in WindowsPath::new(path).components().rev() {
        sum = sum.wrapping_add(piece.text.len());
    }
    sum
}

/// Returns the length of the first component.
#[unsafe(no_mangle)]
pub extern "C" fn bench_windows_first(path: &[u8]) -> usize {
    let first = WindowsPath::new(path).components().next();
    first.map_or(1, |piece| piece.text.len())
}

/// Returns the length of the last component.
#[unsafe(no_mangle)]
pub extern "C" fn bench_windows_last(path: &[u8]) -> usize {
    let last = WindowsPath::new(path).components().next_back();
    last.map_or(1, |piece| piece.text.len())
}

/// Returns the length of the parent.
#[unsafe(no_mangle)]
pub extern "C" fn bench_windows_parent(path: &[u8]) -> usize {
    let parent = WindowsPath::new(path).parent();
    parent.map_or(1, |parent| parent.as_bytes().len())
}

/// Returns the length of the file name.
#[unsafe(no_mangle)]
pub extern "C" fn bench_windows_file_name(path: &[u8]) -> usize {
    let name = WindowsPath::new(path).file_name();
    name.map_or(1, |name| name.len())
}

/// Returns the length of the file name's extension.
#[unsafe(no_mangle)]
pub extern "C" fn bench_windows_extension(path: &[u8]) -> usize {
    let extension = WindowsPath::new(path).extension();
    extension.map_or(1, |extension| extension.len())
}

/// Walks over the path, its parent, the parent of that, and so on, and returns the sum of their
/// lengths.
#[unsafe(no_mangle)]
pub extern "C" fn bench_windows_ancestors(path: &[u8]) -> usize {
    let mut sum = 0usize;
    for ancestor in WindowsPath::new(path).ancestors() {
        sum = sum.wrapping_add(ancestor.as_bytes().len());
    }
    sum
}

/// Whether the path begins with `base`.
#[unsafe(no_mangle)]
pub extern "C" fn bench_windows_starts_with(path: &[u8], base: &[u8]) -> usize {
    usize::from(WindowsPath::new(path).starts_with(WindowsPath::new(base)))
}

/// Whether the path lies at `base` or below it.
#[unsafe(no_mangle)]
pub extern "C" fn bench_windows_is_within(path: &[u8], base: &[u8]) -> usize {
    usize::from(WindowsPath::new(path).is_within(WindowsPath::new(base)))
}

/// Whether the path is known to keep its prefix as a base.
#[unsafe(no_mangle)]
pub extern "C" fn bench_windows_keeps_prefix(path: &[u8]) -> usize {
    usize::from(WindowsPath::new(path).keeps_prefix())
}

/// Returns the length of the path without its `\\?\`, if that means the same; else of the path
/// itself.
#[unsafe(no_mangle)]
pub extern "C" fn bench_windows_simplified(path: &[u8]) -> usize {
    WindowsPath::new(path).simplified().as_bytes().len()
}

/// Returns the length of what is left of the path after `base`.
#[unsafe(no_mangle)]
pub extern "C" fn bench_windows_strip_prefix(path: &[u8], base: &[u8]) -> usize {
    let rest = WindowsPath::new(path).strip_prefix(WindowsPath::new(base));
    rest.map_or(1, |rest| rest.as_bytes().len())
}

/// Whether every name of the path is allowed.
#[unsafe(no_mangle)]
pub extern "C" fn bench_windows_is_valid(path: &[u8]) -> usize {
    usize::from(WindowsPath::new(path).is_valid())
}

/// Whether every system takes the path as it is written.
#[unsafe(no_mangle)]
pub extern "C" fn bench_windows_is_portable(path: &[u8]) -> usize {
    usize::from(WindowsPath::new(path).is_portable())
}

/// Whether some version of Windows may take a name of the path for a device.
#[unsafe(no_mangle)]
pub extern "C" fn bench_windows_may_be_device(path: &[u8]) -> usize {
    usize::from(WindowsPath::new(path).may_be_device())
}

/// Returns the length of the last component, by a step of a reading that is three numbers.
#[unsafe(no_mangle)]
pub extern "C" fn bench_windows_step_back(path: &[u8]) -> usize {
    let path = TypedPath::Windows(WindowsPath::new(path));
    match path.step_back(&mut path.unread()) {
        Ok(Some(taken)) => taken.piece.text.len(),
        Ok(None) | Err(_) => 1,
    }
}

/// Returns what [`told`] makes of the first component left of a reading at `unread`, and moves
/// `unread` past it.
#[unsafe(no_mangle)]
pub extern "C" fn bench_windows_step_front_at(path: &[u8], unread: &mut Unread) -> usize {
    match TypedPath::Windows(WindowsPath::new(path)).step_front(unread) {
        Ok(Some(taken)) => told(taken),
        Ok(None) | Err(_) => 1,
    }
}

/// Returns what [`told`] makes of the last component left of a reading at `unread`, and moves
/// `unread` before it.
#[unsafe(no_mangle)]
pub extern "C" fn bench_windows_step_back_at(path: &[u8], unread: &mut Unread) -> usize {
    match TypedPath::Windows(WindowsPath::new(path)).step_back(unread) {
        Ok(Some(taken)) => told(taken),
        Ok(None) | Err(_) => 1,
    }
}

/// Returns the sum of the indices at which the names of the prefix end, or 1 without a prefix.
#[unsafe(no_mangle)]
pub extern "C" fn bench_windows_prefix_names(path: &[u8]) -> usize {
    let names = TypedPath::Windows(WindowsPath::new(path)).prefix_names();
    names.map_or(1, |names| names.first_end.wrapping_add(names.second_end))
}

/// Returns the length of a path, or 0 for an error.
fn length_of(made: Result<WindowsPathBuf, AllocError>) -> usize {
    made.map_or(0, |path| path.as_path().as_bytes().len())
}

/// Joins `other` to the path.
#[unsafe(no_mangle)]
pub extern "C" fn bench_windows_join(alloc: Global, path: &[u8], other: &[u8]) -> usize {
    length_of(WindowsPath::new(path).join(alloc, WindowsPath::new(other)))
}

/// Joins `other` to the path, unless a component of `other` offends.
#[unsafe(no_mangle)]
pub extern "C" fn bench_windows_join_checked(alloc: Global, path: &[u8], other: &[u8]) -> usize {
    let joined = WindowsPath::new(path).join_checked(alloc, WindowsPath::new(other));
    joined.map_or(0, |path| path.as_path().as_bytes().len())
}

/// Returns a copy of the path with each component of `other` pushed onto it.
fn extended(alloc: Global, path: &[u8], other: &[u8]) -> Result<WindowsPathBuf, AllocError> {
    let mut extended = WindowsPathBuf::from_bytes(alloc, path)?;
    extended.extend(WindowsPath::new(other).iter().map(WindowsPath::new))?;
    Ok(extended)
}

/// Copies the path and pushes each component of `other` onto it.
#[unsafe(no_mangle)]
pub extern "C" fn bench_windows_extend(alloc: Global, path: &[u8], other: &[u8]) -> usize {
    length_of(extended(alloc, path, other))
}

/// Copies the path with another extension.
#[unsafe(no_mangle)]
pub extern "C" fn bench_windows_with_extension(
    alloc: Global,
    path: &[u8],
    extension: &[u8],
) -> usize {
    length_of(WindowsPath::new(path).with_extension(alloc, extension))
}

/// Makes the normal path.
#[unsafe(no_mangle)]
pub extern "C" fn bench_windows_normalize(alloc: Global, path: &[u8]) -> usize {
    length_of(WindowsPath::new(path).normalize(alloc))
}

/// Makes the clean path.
#[unsafe(no_mangle)]
pub extern "C" fn bench_windows_clean(alloc: Global, path: &[u8]) -> usize {
    length_of(WindowsPath::new(path).clean(alloc))
}

/// Makes the path that leads from `base` to the path.
#[unsafe(no_mangle)]
pub extern "C" fn bench_windows_relative_to(alloc: Global, path: &[u8], base: &[u8]) -> usize {
    let found = WindowsPath::new(path).relative_to(alloc, WindowsPath::new(base));
    match found {
        Ok(Some(found)) => found.as_path().as_bytes().len(),
        Ok(None) | Err(_) => 0,
    }
}
