//! Calls that need no memory: they succeed even if every allocation fails.

use crate::ended::Ended;
use crate::{tell, tell_all};
use serde_json::Value;
use std::alloc::Global;
use std::borrow::CowStr;
use std::io;
use typed_path::{
    CheckedPathError, Encoding, JoinError, Path, PathBuf, PathError, PathType, TypedPath,
    TypedPathBuf, UnixPathBuf, Utf8Encoding, Utf8Path, Utf8PathBuf, Utf8TypedPath,
    Utf8TypedPathBuf, Utf8UnixPathBuf, Utf8WindowsPathBuf, ValueError, WindowsPathBuf,
};

/// What a checked call returns for `..`.
const ESCAPES: PathError = PathError::Checked(CheckedPathError::PathTraversalAttack);

/// What a portable join returns for `..`.
const JOIN_ESCAPES: JoinError = JoinError::Checked(CheckedPathError::PathTraversalAttack);

/// A base, its parent, how many components and how many ancestors it has, and the dialect that it
/// looks like.
pub type Base = (&'static str, &'static str, usize, usize, PathType);

/// Evaluates to the number of items.
macro_rules! number_of {
    ($items:expr) => {{
        let mut number = 0usize;
        for _ in $items {
            number = number.saturating_add(1);
        }
        number
    }};
}

/// Makes calls of a base, borrowed and owned with room to give back, and prints how each ended.
macro_rules! free {
    ($rt:expr, $family:expr, $lent:expr, $new:expr, $owned:expr, $path:ident: $buf:ty => $bytes:expr, $into:ident.$as_bytes:ident, $alloc:expr, $parent:expr, $whole:expr, $base:expr) => {{
        let (base, above, count, above_count, kind) = $base;
        let Ok(mut $path) = $owned else {
            return tell($rt, $family, "a path", Ended::Refused);
        };
        if $path.reserve(64).is_err() {
            return tell($rt, $family, "a path", Ended::Refused);
        }
        let read = number_of!($lent.components()) == count;
        let listed = number_of!($lent.iter()) == count;
        let climbed = number_of!($lent.ancestors()) == above_count;
        let derived = PathType::derive(base.as_bytes()) == kind;
        let pushed = $path.push_checked($parent) == Err(ESCAPES) && $bytes == base.as_bytes();
        let reserved = $path.reserve(usize::MAX).is_err() && $bytes == base.as_bytes();
        let exactly = $path.reserve_exact(usize::MAX).is_err() && $bytes == base.as_bytes();
        let shrunk = $path.shrink_to(0).is_ok() && $bytes == base.as_bytes();
        let popped = $path.pop() && $bytes == above.as_bytes();
        $path.clear();
        let cleared = $bytes.is_empty();
        let pushed_anew = $path.push($whole).is_ok() && $bytes == base.as_bytes();
        let taken = $path.$into();
        let into = taken.$as_bytes() == base.as_bytes();
        let $path = <$buf>::from(taken);
        let from = $bytes == base.as_bytes();
        let $path = $new;
        let made = $bytes.is_empty();
        let refused = <$buf>::from_value($alloc, &Value::Null).err() == Some(ValueError::NotText);
        let told = [
            ("components", Ended::done(read, base)),
            ("iter", Ended::done(listed, base)),
            ("ancestors", Ended::done(climbed, base)),
            ("derive", Ended::done(derived, base)),
            ("push_checked of a parent", Ended::done(pushed, base)),
            ("reserve of too much", Ended::done(reserved, base)),
            ("reserve_exact of too much", Ended::done(exactly, base)),
            ("shrink_to", Ended::done(shrunk, base)),
            ("pop", Ended::done(popped, base)),
            ("clear", Ended::done(cleared, base)),
            ("push onto room", Ended::done(pushed_anew, base)),
            (stringify!($into), Ended::done(into, base)),
            ("from", Ended::done(from, base)),
            ("new", Ended::done(made, base)),
            ("from_value of no text", Ended::done(refused, base)),
        ];
        tell_all($rt, $family, &told)
    }};
}

/// Evaluates to how questions about a base ended, alone and beside itself and its parent.
macro_rules! asked {
    ($lent:expr, $alloc:expr, $parent:expr, $whole:expr, $base:expr) => {{
        let (base, _, _, _, _) = $base;
        let kept = $lent.keeps_prefix();
        let within = $lent.is_within($whole);
        let shared = $lent.common_ancestor($whole) == Some($lent);
        let apart = matches!($lent.relative_to($alloc, $parent), Ok(None));
        let escaped = $lent.join_checked($alloc, $parent).err() == Some(ESCAPES);
        let refused = $lent.join_portable($alloc, $parent).err() == Some(JOIN_ESCAPES);
        [
            ("keeps_prefix", Ended::done(kept, base)),
            ("is_within", Ended::done(within, base)),
            ("common_ancestor", Ended::done(shared, base)),
            ("relative_to what is apart", Ended::done(apart, base)),
            ("join_checked of a parent", Ended::done(escaped, base)),
            ("join_portable of a parent", Ended::done(refused, base)),
        ]
    }};
}

/// Evaluates to how two calls ended that read bytes as text: of a text, and of a byte that is not
/// UTF-8.
macro_rules! read_as_text {
    ($lent:expr, $no_text:expr, $alloc:expr, $base:expr) => {{
        let (base, _, _, _, _) = $base;
        let is_lent = match $lent.to_string_lossy($alloc) {
            Ok(CowStr::Borrowed(text)) => text == base,
            _ => false,
        };
        let refused = $no_text.to_value($alloc).err() == Some(ValueError::NotUtf8);
        [
            ("to_string_lossy of a text", Ended::done(is_lent, base)),
            ("to_value of no text", Ended::done(refused, base)),
        ]
    }};
}

/// Evaluates to how it ended to take a path out of one of either dialect, and to put it back.
macro_rules! taken_out {
    ($owned:expr, $typed:ident, $unix:ty, $windows:ty, $path:ident => $bytes:expr, $base:expr) => {{
        let (base, _, _, _, kind) = $base;
        match $owned {
            Ok(path) => {
                let (taken, $path) = match <$unix>::try_from(path) {
                    Ok(path) => (PathType::Unix, $typed::Unix(path)),
                    Err(path) => match <$windows>::try_from(path) {
                        Ok(path) => (PathType::Windows, $typed::Windows(path)),
                        Err(path) => (PathType::Unix, path),
                    },
                };
                Ended::done(taken == kind && $bytes == base.as_bytes(), base)
            }
            Err(_) => Ended::Refused,
        }
    }};
}

/// Asks a path of bytes the questions that need no memory, and prints how each ended.
fn asked_bytes<T: Encoding>(
    rt: &impl Print,
    alloc: Global,
    family: &str,
    base: Base,
) -> io::Result<()> {
    let lent = Path::<T>::new(base.0.as_bytes());
    let told = asked!(lent, alloc, Path::new(b".."), lent, base);
    tell_all(rt, family, &told)
}

/// Makes the calls of a path of bytes that need no memory, and prints how each ended.
pub fn free_bytes<T: Encoding>(
    rt: &impl Print,
    alloc: Global,
    family: &str,
    base: Base,
) -> io::Result<()> {
    asked_bytes::<T>(rt, alloc, family, base)?;
    let (lent, parent) = (Path::<T>::new(base.0.as_bytes()), Path::new(b".."));
    let (owned, new) = (
        PathBuf::<T>::from_str(alloc, base.0),
        PathBuf::<T>::new(alloc),
    );
    free!(rt, family, lent, new, owned, path: PathBuf<T> => path.as_path().as_bytes(), into_vec.as_slice, alloc, parent, lent, base)?;
    let told = read_as_text!(lent, Path::<T>::new(b"\xFF"), alloc, base);
    tell_all(rt, family, &told)
}

/// Asks a path of text the questions that need no memory, and prints how each ended.
fn asked_text<T: Utf8Encoding>(
    rt: &impl Print,
    alloc: Global,
    family: &str,
    base: Base,
) -> io::Result<()> {
    let lent = Utf8Path::<T>::new(base.0);
    let told = asked!(lent, alloc, Utf8Path::new(".."), lent, base);
    tell_all(rt, family, &told)
}

/// Returns how it ended to make a path of text one of bytes, and to turn it back.
fn there_and_back<T: Utf8Encoding>(alloc: Global, base: &'static str) -> Ended {
    match Utf8PathBuf::<T>::from_str(alloc, base) {
        Ok(path) => match Utf8PathBuf::<T>::from_bytes_path_buf(path.into_bytes_path_buf()) {
            Ok(path) => Ended::done(path.as_path().as_str() == base, base),
            Err(_) => Ended::Wrong(base),
        },
        Err(_) => Ended::Refused,
    }
}

/// Makes the calls of a path of text that need no memory, and prints how each ended.
pub fn free_text<T: Utf8Encoding>(
    rt: &impl Print,
    alloc: Global,
    family: &str,
    base: Base,
) -> io::Result<()> {
    asked_text::<T>(rt, alloc, family, base)?;
    let (lent, parent) = (Utf8Path::<T>::new(base.0), Utf8Path::new(".."));
    let (owned, new) = (
        Utf8PathBuf::<T>::from_str(alloc, base.0),
        Utf8PathBuf::<T>::new(alloc),
    );
    free!(rt, family, lent, new, owned, path: Utf8PathBuf<T> => path.as_path().as_str().as_bytes(), into_string.as_bytes, alloc, parent, lent, base)?;
    let ended = there_and_back::<T>(alloc, base.0);
    tell(rt, family, "into_bytes_path_buf and back", ended)
}

/// Asks a path of either dialect the questions that need no memory, and prints how each ended.
fn asked_typed(rt: &impl Print, alloc: Global, family: &str, base: Base) -> io::Result<()> {
    let lent = TypedPath::derive(base.0.as_bytes());
    let told = asked!(lent, alloc, b"..", base.0.as_bytes(), base);
    tell_all(rt, family, &told)
}

/// Makes the calls of a path of either dialect that need no memory, and prints how each ended.
pub fn free_typed(rt: &impl Print, alloc: Global, family: &str, base: Base) -> io::Result<()> {
    asked_typed(rt, alloc, family, base)?;
    let lent = TypedPath::derive(base.0.as_bytes());
    let new = TypedPathBuf::new(alloc, base.4);
    free!(rt, family, lent, new, lent.to_path_buf(alloc), path: TypedPathBuf => path.as_bytes(), into_vec.as_slice, alloc, b"..", base.0.as_bytes(), base)?;
    let told = read_as_text!(lent, TypedPath::derive(b"\xFF"), alloc, base);
    tell_all(rt, family, &told)?;
    let taken =
        taken_out!(lent.to_path_buf(alloc), TypedPathBuf, UnixPathBuf, WindowsPathBuf, path => path.as_bytes(), base);
    tell(rt, family, "try_from", taken)
}

/// Asks a path of text of either dialect the questions that need no memory, and prints how each
/// ended.
fn asked_typed_text(rt: &impl Print, alloc: Global, family: &str, base: Base) -> io::Result<()> {
    let lent = Utf8TypedPath::derive(base.0);
    let told = asked!(lent, alloc, "..", base.0, base);
    tell_all(rt, family, &told)
}

/// Makes the calls of a path of text of either dialect that need no memory, and prints how each
/// ended.
pub fn free_typed_text(rt: &impl Print, alloc: Global, family: &str, base: Base) -> io::Result<()> {
    asked_typed_text(rt, alloc, family, base)?;
    let lent = Utf8TypedPath::derive(base.0);
    let new = Utf8TypedPathBuf::new(alloc, base.4);
    free!(rt, family, lent, new, lent.to_path_buf(alloc), path: Utf8TypedPathBuf => path.as_str().as_bytes(), into_string.as_bytes, alloc, "..", base.0, base)?;
    let taken =
        taken_out!(lent.to_path_buf(alloc), Utf8TypedPathBuf, Utf8UnixPathBuf, Utf8WindowsPathBuf, path => path.as_str().as_bytes(), base);
    tell(rt, family, "try_from", taken)
}
