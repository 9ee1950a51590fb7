//! Walks over the components of a Unix path. Most return the sum of the lengths of the components.

use std::alloc::Global;
use typed_path::{Piece, TypedPath, UnixPath};

/// Walks by `for`.
#[unsafe(no_mangle)]
pub extern "C" fn bench_walk(path: &[u8]) -> usize {
    let mut sum = 0usize;
    for piece in UnixPath::new(path).components() {
        sum = sum.wrapping_add(piece.text.len());
    }
    sum
}

/// Walks by `for` from the last component to the first.
#[unsafe(no_mangle)]
pub extern "C" fn bench_walk_back(path: &[u8]) -> usize {
    let mut sum = 0usize;
    for piece in UnixPath::new(path).components().rev() {
        sum = sum.wrapping_add(piece.text.len());
    }
    sum
}

/// Walks by `next`.
#[unsafe(no_mangle)]
pub extern "C" fn bench_next(path: &[u8]) -> usize {
    let mut sum = 0usize;
    let mut components = UnixPath::new(path).components();
    'pieces: while let Some(piece) = components.next() {
        sum = sum.wrapping_add(piece.text.len());
    }
    sum
}

/// Walks by `next_back`.
#[unsafe(no_mangle)]
pub extern "C" fn bench_next_back(path: &[u8]) -> usize {
    let mut sum = 0usize;
    let mut components = UnixPath::new(path).components();
    'pieces: while let Some(piece) = components.next_back() {
        sum = sum.wrapping_add(piece.text.len());
    }
    sum
}

/// Walks by steps of a reading that is three numbers. There are at most as many as bytes.
#[unsafe(no_mangle)]
pub extern "C" fn bench_steps(path: &[u8]) -> usize {
    let path = TypedPath::Unix(UnixPath::new(path));
    let mut unread = path.unread();
    let mut sum = 0usize;
    for _step in 0..path.as_bytes().len() {
        let Ok(Some(taken)) = path.step_front(&mut unread) else {
            break;
        };
        sum = sum.wrapping_add(taken.piece.text.len());
    }
    sum
}

/// Walks over the texts of the components alone.
#[unsafe(no_mangle)]
pub extern "C" fn bench_texts(path: &[u8]) -> usize {
    let mut sum = 0usize;
    for text in UnixPath::new(path).iter() {
        sum = sum.wrapping_add(text.len());
    }
    sum
}

/// Makes two walks side by side, by `zip`.
#[unsafe(no_mangle)]
pub extern "C" fn bench_zip(path: &[u8]) -> usize {
    let mut sum = 0usize;
    let components = UnixPath::new(path).components();
    for (piece, other) in components.zip(components) {
        sum = sum
            .wrapping_add(piece.text.len())
            .wrapping_add(other.text.len());
    }
    sum
}

/// Walks by `peekable`, which looks at the next component before it is taken.
#[unsafe(no_mangle)]
pub extern "C" fn bench_peekable(path: &[u8]) -> usize {
    let mut sum = 0usize;
    let mut components = UnixPath::new(path).components().peekable();
    'pieces: while let Some(piece) = components.next() {
        let following = components.peek().map_or(0, |next| next.text.len());
        sum = sum.wrapping_add(piece.text.len()).wrapping_add(following);
    }
    sum
}

/// Walks with a look at the next component, by a copy of the iterator.
#[unsafe(no_mangle)]
pub extern "C" fn bench_ahead(path: &[u8]) -> usize {
    let mut sum = 0usize;
    let mut components = UnixPath::new(path).components();
    'pieces: while let Some(piece) = components.next() {
        let mut ahead = components;
        let following = ahead.next().map_or(0, |next| next.text.len());
        sum = sum.wrapping_add(piece.text.len()).wrapping_add(following);
    }
    sum
}

/// Makes two walks, one after the other, by `chain`.
#[unsafe(no_mangle)]
pub extern "C" fn bench_chain(path: &[u8]) -> usize {
    let mut sum = 0usize;
    let components = UnixPath::new(path).components();
    for piece in components.chain(components) {
        sum = sum.wrapping_add(piece.text.len());
    }
    sum
}

/// Collects the components into a vector, and returns how many there are.
#[unsafe(no_mangle)]
pub extern "C" fn bench_collect(alloc: Global, path: &[u8]) -> usize {
    let pieces = UnixPath::new(path)
        .components()
        .collect::<Vec<Piece<'_>>>(alloc);
    pieces.map_or(0, |pieces| pieces.len())
}

/// Walks by `map` and `fold`.
#[unsafe(no_mangle)]
pub extern "C" fn bench_map(path: &[u8]) -> usize {
    let lengths = UnixPath::new(path)
        .components()
        .map(|piece| piece.text.len());
    lengths.fold(0, |sum: usize, len| sum.wrapping_add(len))
}

/// Walks by `for` over the names, which `filter` selects.
#[unsafe(no_mangle)]
pub extern "C" fn bench_filter(path: &[u8]) -> usize {
    let mut sum = 0usize;
    let components = UnixPath::new(path).components();
    for piece in components.filter(|piece| piece.is_normal()) {
        sum = sum.wrapping_add(piece.text.len());
    }
    sum
}

/// Walks over the path, its parent, the parent of that, and so on, and returns the sum of their
/// lengths.
#[unsafe(no_mangle)]
pub extern "C" fn bench_ancestors(path: &[u8]) -> usize {
    let mut sum = 0usize;
    for ancestor in UnixPath::new(path).ancestors() {
        sum = sum.wrapping_add(ancestor.as_bytes().len());
    }
    sum
}
