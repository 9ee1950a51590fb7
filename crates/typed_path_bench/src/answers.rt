//! What a Unix path answers, as a number: the length of the answer, or 1 if there is none; for a
//! question 1 for yes and 0 for no.

use typed_path::{PlacedPiece, TypedPath, UnixPath, Unread};

/// Returns the length of the last component.
#[unsafe(no_mangle)]
pub extern "C" fn bench_last(path: &[u8]) -> usize {
    let last = UnixPath::new(path).components().next_back();
    last.map_or(1, |piece| piece.text.len())
}

/// Returns the length of the parent.
#[unsafe(no_mangle)]
pub extern "C" fn bench_parent(path: &[u8]) -> usize {
    let parent = UnixPath::new(path).parent();
    parent.map_or(1, |parent| parent.as_bytes().len())
}

/// Returns the length of the file name.
#[unsafe(no_mangle)]
pub extern "C" fn bench_file_name(path: &[u8]) -> usize {
    UnixPath::new(path).file_name().map_or(1, |name| name.len())
}

/// Returns the length of the file name's extension.
#[unsafe(no_mangle)]
pub extern "C" fn bench_extension(path: &[u8]) -> usize {
    let extension = UnixPath::new(path).extension();
    extension.map_or(1, |extension| extension.len())
}

/// Whether the path begins with `base`.
#[unsafe(no_mangle)]
pub extern "C" fn bench_starts_with(path: &[u8], base: &[u8]) -> usize {
    usize::from(UnixPath::new(path).starts_with(UnixPath::new(base)))
}

/// Returns the length of what both paths begin with.
#[unsafe(no_mangle)]
pub extern "C" fn bench_common_ancestor(path: &[u8], other: &[u8]) -> usize {
    let common = UnixPath::new(path).common_ancestor(UnixPath::new(other));
    common.map_or(1, |common| common.as_bytes().len())
}

/// Whether the path lies at `base` or below it.
#[unsafe(no_mangle)]
pub extern "C" fn bench_is_within(path: &[u8], base: &[u8]) -> usize {
    usize::from(UnixPath::new(path).is_within(UnixPath::new(base)))
}

/// Returns the length of what is left of the path after `base`.
#[unsafe(no_mangle)]
pub extern "C" fn bench_strip_prefix(path: &[u8], base: &[u8]) -> usize {
    let rest = UnixPath::new(path).strip_prefix(UnixPath::new(base));
    rest.map_or(1, |rest| rest.as_bytes().len())
}

/// Whether the path ends with `end`.
#[unsafe(no_mangle)]
pub extern "C" fn bench_ends_with(path: &[u8], end: &[u8]) -> usize {
    usize::from(UnixPath::new(path).ends_with(UnixPath::new(end)))
}

/// Returns the length of the first component.
#[unsafe(no_mangle)]
pub extern "C" fn bench_first(path: &[u8]) -> usize {
    let first = UnixPath::new(path).components().next();
    first.map_or(1, |piece| piece.text.len())
}

/// Whether every name of the path is allowed.
#[unsafe(no_mangle)]
pub extern "C" fn bench_is_valid(path: &[u8]) -> usize {
    usize::from(UnixPath::new(path).is_valid())
}

/// Whether every system takes the path as it is written.
#[unsafe(no_mangle)]
pub extern "C" fn bench_is_portable(path: &[u8]) -> usize {
    usize::from(UnixPath::new(path).is_portable())
}

/// Whether some version of Windows may take a name of the path for a device.
#[unsafe(no_mangle)]
pub extern "C" fn bench_may_be_device(path: &[u8]) -> usize {
    usize::from(UnixPath::new(path).may_be_device())
}

/// Whether the path begins with `base` in lower case.
#[unsafe(no_mangle)]
pub extern "C" fn bench_starts_with_ignore_case(path: &[u8], base: &[u8]) -> usize {
    usize::from(UnixPath::new(path).starts_with_ignore_ascii_case(UnixPath::new(base)))
}

/// Returns the length of the last component, by a step of a reading that is three numbers.
#[unsafe(no_mangle)]
pub extern "C" fn bench_step_back(path: &[u8]) -> usize {
    let path = TypedPath::Unix(UnixPath::new(path));
    match path.step_back(&mut path.unread()) {
        Ok(Some(taken)) => taken.piece.text.len(),
        Ok(None) | Err(_) => 1,
    }
}

/// Returns the index after a component, and 1 more for a name: so all that a step told of it is
/// used.
#[inline(always)]
pub fn told(taken: PlacedPiece<'_>) -> usize {
    let end = taken.start.wrapping_add(taken.piece.text.len());
    end.wrapping_add(usize::from(taken.piece.is_normal()))
}

/// Returns what [`told`] makes of the first component left of a reading at `unread`, and moves
/// `unread` past it.
#[unsafe(no_mangle)]
pub extern "C" fn bench_step_front_at(path: &[u8], unread: &mut Unread) -> usize {
    match TypedPath::Unix(UnixPath::new(path)).step_front(unread) {
        Ok(Some(taken)) => told(taken),
        Ok(None) | Err(_) => 1,
    }
}

/// Returns what [`told`] makes of the last component left of a reading at `unread`, and moves
/// `unread` before it.
#[unsafe(no_mangle)]
pub extern "C" fn bench_step_back_at(path: &[u8], unread: &mut Unread) -> usize {
    match TypedPath::Unix(UnixPath::new(path)).step_back(unread) {
        Ok(Some(taken)) => told(taken),
        Ok(None) | Err(_) => 1,
    }
}

/// Returns how many bytes of the path are kept if `other` is pushed onto it, plus how many are put
/// between.
#[unsafe(no_mangle)]
pub extern "C" fn bench_push_place(path: &[u8], other: &[u8]) -> usize {
    let place = TypedPath::Unix(UnixPath::new(path)).push_place(other);
    place.map_or(1, |place| place.kept.wrapping_add(place.separator.len()))
}
