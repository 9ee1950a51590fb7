//! The calls that are counted. Each returns a number that depends on all of its work: what its
//! comment says, 0 if a path is refused or allocation fails, and 1 if there is no such part; for a
//! question 1 for yes and 0 for no.
//!
//! None is inlined, so that each has a symbol of its own in the program and is counted alone.

use std::alloc::Global;
use std::cmp::Ordering;
use std::hash::{Hash, Hasher};
use typed_path::{
    Encoding, Key, Path, PathBuf, Piece, PlacedPiece, PlatformPath, TypedPath, WindowsPath,
};

/// Returns the length of a path, or 0 for an error.
#[inline(always)]
fn length_of<T: Encoding, E: Drop>(made: Result<PathBuf<T>, E>) -> usize {
    match made {
        Ok(path) => path.as_path().as_bytes().len(),
        Err(_) => 0,
    }
}

/// Returns the length of a part of a path, or 1 if there is none.
#[inline(always)]
fn length_or_one(part: Option<&[u8]>) -> usize {
    match part {
        Some(part) => part.len(),
        None => 1,
    }
}

/// Returns the sum of the lengths of the components, walked from the first to the last.
#[inline(never)]
pub fn walk<T: Encoding>(path: &[u8]) -> usize {
    let mut sum = 0usize;
    for piece in Path::<T>::new(path).components() {
        sum = sum.wrapping_add(piece.text.len());
    }
    sum
}

/// Returns the sum of the lengths of the components, walked from the last to the first.
#[inline(never)]
pub fn walk_back<T: Encoding>(path: &[u8]) -> usize {
    let mut sum = 0usize;
    for piece in Path::<T>::new(path).components().rev() {
        sum = sum.wrapping_add(piece.text.len());
    }
    sum
}

/// Returns the sum of the lengths of all components and of those after the first, walked with a
/// look at the next one before it is taken.
#[inline(never)]
pub fn peekable<T: Encoding>(path: &[u8]) -> usize {
    let mut sum = 0usize;
    let mut components = Path::<T>::new(path).components().peekable();
    'pieces: while let Some(piece) = components.next() {
        let following = components.peek().map_or(0, |next| next.text.len());
        sum = sum.wrapping_add(piece.text.len()).wrapping_add(following);
    }
    sum
}

/// Returns the length of a component, or 1 if there is none.
#[inline(always)]
fn length_of_piece(taken: Option<Piece<'_>>) -> usize {
    match taken {
        Some(piece) => piece.text.len(),
        None => 1,
    }
}

/// Returns the length of the first component.
#[inline(never)]
pub fn first<T: Encoding>(path: &[u8]) -> usize {
    length_of_piece(Path::<T>::new(path).components().next())
}

/// Returns the length of the last component.
#[inline(never)]
pub fn last<T: Encoding>(path: &[u8]) -> usize {
    length_of_piece(Path::<T>::new(path).components().next_back())
}

/// Returns the index of a component that a step took, plus its length; 1 if there is none.
#[inline(always)]
fn place_of<E: Drop>(step: Result<Option<PlacedPiece<'_>>, E>) -> usize {
    match step {
        Ok(Some(taken)) => taken.start.wrapping_add(taken.piece.text.len()),
        Ok(None) | Err(_) => 1,
    }
}

/// Takes the first component by a step of a reading that is three numbers, and returns its index
/// plus its length.
#[inline(never)]
pub fn step_front(path: TypedPath<'_>) -> usize {
    place_of(path.step_front(&mut path.unread()))
}

/// Takes the last component by a step of a reading that is three numbers, and returns its index
/// plus its length.
#[inline(never)]
pub fn step_back(path: TypedPath<'_>) -> usize {
    place_of(path.step_back(&mut path.unread()))
}

/// Returns the sum of the lengths of the components, walked by steps of a reading that is three
/// numbers.
#[inline(never)]
pub fn steps(path: TypedPath<'_>) -> usize {
    let mut unread = path.unread();
    let mut sum = 0usize;
    for _step in 0..path.as_bytes().len() {
        let Ok(Some(taken)) = path.step_front(&mut unread) else {
            break;
        };
        sum = sum.wrapping_add(taken.piece.text.len());
    }
    sum
}

/// Collects the components into a vector, and returns how many there are.
#[inline(never)]
pub fn collect<T: Encoding>(alloc: Global, path: &[u8]) -> usize {
    let components = Path::<T>::new(path).components();
    match components.collect::<Vec<Piece<'_>>>(alloc) {
        Ok(pieces) => pieces.len(),
        Err(_) => 0,
    }
}

/// Returns the sum of the lengths of the path and those above it.
#[inline(never)]
pub fn ancestors<T: Encoding>(path: &[u8]) -> usize {
    let mut sum = 0usize;
    for ancestor in Path::<T>::new(path).ancestors() {
        sum = sum.wrapping_add(ancestor.as_bytes().len());
    }
    sum
}

/// Hashes the path, and returns whether the hash is not 0.
#[inline(never)]
pub fn hash<T: Encoding, H: Hasher + Default + Drop>(path: &[u8]) -> usize {
    let mut state = H::default();
    T::hash(path, &mut state);
    usize::from(state.finish() != 0)
}

/// Hashes the key of the path, and returns whether the hash is not 0.
#[inline(never)]
pub fn key_hash<T: Encoding, H: Hasher + Default + Drop>(path: &[u8]) -> usize {
    let mut state = H::default();
    Key::new(Path::<T>::new(path)).hash(&mut state);
    usize::from(state.finish() != 0)
}

/// Writes the key of the path into a buffer, and returns how many bytes it has.
#[inline(never)]
pub fn put_key<T: Encoding>(path: &[u8]) -> usize {
    let mut room = [0u8; 256];
    Path::<T>::new(path).put_key(&mut room)
}

/// Returns how many bytes of the path are kept if `other` is pushed onto it, plus how many are put
/// between.
#[inline(never)]
pub fn push_place(path: TypedPath<'_>, other: &[u8]) -> usize {
    match path.push_place(other) {
        Some(place) => place.kept.wrapping_add(place.separator.len()),
        None => 1,
    }
}

/// Returns the sum of the indices at which the names of the prefix end.
#[inline(never)]
pub fn prefix_names(path: TypedPath<'_>) -> usize {
    match path.prefix_names() {
        Some(names) => names.first_end.wrapping_add(names.second_end),
        None => 1,
    }
}

/// Returns the length of the parent.
#[inline(never)]
pub fn parent<T: Encoding>(path: &[u8]) -> usize {
    match Path::<T>::new(path).parent() {
        Some(parent) => parent.as_bytes().len(),
        None => 1,
    }
}

/// Returns the length of the file name.
#[inline(never)]
pub fn file_name<T: Encoding>(path: &[u8]) -> usize {
    length_or_one(Path::<T>::new(path).file_name())
}

/// Returns the length of the file name's stem.
#[inline(never)]
pub fn file_stem<T: Encoding>(path: &[u8]) -> usize {
    length_or_one(Path::<T>::new(path).file_stem())
}

/// Returns the length of the file name's extension.
#[inline(never)]
pub fn extension<T: Encoding>(path: &[u8]) -> usize {
    length_or_one(Path::<T>::new(path).extension())
}

/// Whether every name of the path is allowed.
#[inline(never)]
pub fn is_valid<T: Encoding>(path: &[u8]) -> usize {
    usize::from(Path::<T>::new(path).is_valid())
}

/// Whether every system takes the path as it is written.
#[inline(never)]
pub fn is_portable<T: Encoding>(path: &[u8]) -> usize {
    usize::from(Path::<T>::new(path).is_portable())
}

/// Whether every system takes the path as it is written, by the check that says why not.
#[inline(never)]
pub fn check_portable<T: Encoding>(path: &[u8]) -> usize {
    usize::from(Path::<T>::new(path).check_portable().is_ok())
}

/// Whether some version of Windows may take a name of the path for a device.
#[inline(never)]
pub fn may_be_device<T: Encoding>(path: &[u8]) -> usize {
    usize::from(Path::<T>::new(path).may_be_device())
}

/// Whether the path is known to keep its prefix as a base.
#[inline(never)]
pub fn keeps_prefix<T: Encoding>(path: &[u8]) -> usize {
    usize::from(Path::<T>::new(path).keeps_prefix())
}

/// Returns the length of a Windows path without its `\\?\`, if that means the same; else of the
/// path itself.
#[inline(never)]
pub fn simplified(path: &[u8]) -> usize {
    WindowsPath::new(path).simplified().as_bytes().len()
}

/// Returns the length of the normal path.
#[inline(never)]
pub fn normalize<T: Encoding>(alloc: Global, path: &[u8]) -> usize {
    length_of(Path::<T>::new(path).normalize(alloc))
}

/// Returns the length of the clean path.
#[inline(never)]
pub fn clean<T: Encoding>(alloc: Global, path: &[u8]) -> usize {
    length_of(Path::<T>::new(path).clean(alloc))
}

/// Returns the length of the path in the encoding `U`.
#[inline(never)]
pub fn convert<T: Encoding, U: Encoding>(alloc: Global, path: &[u8]) -> usize {
    length_of(Path::<T>::new(path).with_encoding::<U>(alloc))
}

/// Returns the length of the path in the encoding `U`, by checked pushes.
#[inline(never)]
pub fn convert_checked<T: Encoding, U: Encoding>(alloc: Global, path: &[u8]) -> usize {
    length_of(Path::<T>::new(path).with_encoding_checked::<U>(alloc))
}

/// Returns the length of the path made absolute from a directory of the machine.
#[inline(never)]
pub fn absolutize<T: Encoding>(alloc: Global, path: &[u8], directory: &[u8]) -> usize {
    length_of(Path::<T>::new(path).absolutize(alloc, PlatformPath::new(directory)))
}

/// Returns the length of the path made absolute from a directory of its own dialect.
#[inline(never)]
pub fn absolutize_from<T: Encoding>(alloc: Global, path: &[u8], directory: &[u8]) -> usize {
    length_of(Path::<T>::new(path).absolutize_from(alloc, Path::<T>::new(directory)))
}

/// Returns the length of the path with `other` pushed onto it.
#[inline(never)]
pub fn join<T: Encoding>(alloc: Global, path: &[u8], other: &[u8]) -> usize {
    length_of(Path::<T>::new(path).join(alloc, Path::new(other)))
}

/// Returns the length of the path with `other` pushed onto it, unless a component of `other`
/// offends.
#[inline(never)]
pub fn join_checked<T: Encoding>(alloc: Global, path: &[u8], other: &[u8]) -> usize {
    length_of(Path::<T>::new(path).join_checked(alloc, Path::new(other)))
}

/// Returns the length of the path with `other` pushed onto it, unless `other` is not portable or a
/// component of it offends.
#[inline(never)]
pub fn join_portable<T: Encoding>(alloc: Global, path: &[u8], other: &[u8]) -> usize {
    length_of(Path::<T>::new(path).join_portable(alloc, Path::new(other)))
}

/// Returns the length of the path that leads from `base` to the path, or 0 if there is none.
#[inline(never)]
pub fn relative_to<T: Encoding>(alloc: Global, path: &[u8], base: &[u8]) -> usize {
    match Path::<T>::new(path).relative_to(alloc, Path::new(base)) {
        Ok(Some(found)) => found.as_path().as_bytes().len(),
        Ok(None) | Err(_) => 0,
    }
}

/// Whether the path lies at `base` or below it.
#[inline(never)]
pub fn is_within<T: Encoding>(path: &[u8], base: &[u8]) -> usize {
    usize::from(Path::<T>::new(path).is_within(Path::new(base)))
}

/// Returns the length of what both paths begin with.
#[inline(never)]
pub fn common_ancestor<T: Encoding>(path: &[u8], other: &[u8]) -> usize {
    match Path::<T>::new(path).common_ancestor(Path::new(other)) {
        Some(common) => common.as_bytes().len(),
        None => 1,
    }
}

/// Whether the path begins with `base`.
#[inline(never)]
pub fn starts_with<T: Encoding>(path: &[u8], base: &[u8]) -> usize {
    usize::from(Path::<T>::new(path).starts_with(Path::new(base)))
}

/// Returns the length of what is left of the path after `base`.
#[inline(never)]
pub fn strip_prefix<T: Encoding>(path: &[u8], base: &[u8]) -> usize {
    match Path::<T>::new(path).strip_prefix(Path::new(base)) {
        Ok(rest) => rest.as_bytes().len(),
        Err(_) => 1,
    }
}

/// Whether the path ends with `end`.
#[inline(never)]
pub fn ends_with<T: Encoding>(path: &[u8], end: &[u8]) -> usize {
    usize::from(Path::<T>::new(path).ends_with(Path::new(end)))
}

/// Whether two paths are equal.
#[inline(never)]
pub fn eq<T: Encoding>(path: &[u8], other: &[u8]) -> usize {
    usize::from(Path::<T>::new(path) == Path::new(other))
}

/// Whether two paths are equal in lower case.
#[inline(never)]
pub fn eq_ignore_ascii_case<T: Encoding>(path: &[u8], other: &[u8]) -> usize {
    usize::from(Path::<T>::new(path).eq_ignore_ascii_case(Path::new(other)))
}

/// Whether the path begins with `base` in lower case.
#[inline(never)]
pub fn starts_with_ignore_ascii_case<T: Encoding>(path: &[u8], base: &[u8]) -> usize {
    usize::from(Path::<T>::new(path).starts_with_ignore_ascii_case(Path::new(base)))
}

/// Returns the length of the path in lower case.
#[inline(never)]
pub fn to_ascii_lowercase<T: Encoding>(alloc: Global, path: &[u8]) -> usize {
    length_of(Path::<T>::new(path).to_ascii_lowercase(alloc))
}

/// Returns the order of two paths as a number: 0 for less, 1 for equal, 2 for greater.
#[inline(never)]
pub fn cmp<T: Encoding>(path: &[u8], other: &[u8]) -> usize {
    match Path::<T>::new(path).cmp(&Path::new(other)) {
        Ordering::Less => 0,
        Ordering::Equal => 1,
        Ordering::Greater => 2,
    }
}
