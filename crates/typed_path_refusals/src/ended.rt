//! How a call ends if allocation may fail.

use std::alloc::AllocError;
use typed_path::{
    AbsolutizeError, Encoding, JoinError, PathBuf, PathError, TypedPathBuf, Utf8Encoding,
    Utf8PathBuf, Utf8TypedPathBuf, ValueError,
};

/// How a call ended, or several of one name.
#[derive(Clone, Copy)]
pub enum Ended {
    /// The call returned what it should.
    Done,
    /// An allocation failed, and what was handed in is unchanged.
    Refused,
    /// Anything else. This is the path that the call was made with.
    Wrong(&'static str),
}

impl Ended {
    /// Returns how a call ended that did not fail: done if it is right, else wrong with `of`.
    pub fn done(is_right: bool, of: &'static str) -> Ended {
        if is_right {
            Ended::Done
        } else {
            Ended::Wrong(of)
        }
    }

    /// Returns how a call ended that failed: refused if it is right, else wrong with `of`.
    pub fn refused(is_right: bool, of: &'static str) -> Ended {
        if is_right {
            Ended::Refused
        } else {
            Ended::Wrong(of)
        }
    }

    /// Returns how two calls ended: the worse of both.
    pub fn and(self, other: Ended) -> Ended {
        match (self, other) {
            (Ended::Wrong(_), _) | (Ended::Refused, Ended::Done) => self,
            _ => other,
        }
    }
}

/// Why a call failed.
pub trait Refusal {
    /// Whether an allocation failed.
    fn is_want(&self) -> bool;
}

impl Refusal for AllocError {
    fn is_want(&self) -> bool {
        true
    }
}

impl Refusal for PathError {
    fn is_want(&self) -> bool {
        *self == PathError::OutOfMemory
    }
}

impl Refusal for JoinError {
    fn is_want(&self) -> bool {
        *self == JoinError::OutOfMemory
    }
}

impl Refusal for AbsolutizeError {
    fn is_want(&self) -> bool {
        *self == AbsolutizeError::OutOfMemory
    }
}

impl Refusal for ValueError {
    fn is_want(&self) -> bool {
        *self == ValueError::OutOfMemory
    }
}

/// Why there is no path.
#[derive(Clone, Copy, Debug)]
pub enum Missing {
    /// An allocation failed.
    Memory,
    /// No path is what was asked for.
    NoPath,
}

impl Refusal for Missing {
    fn is_want(&self) -> bool {
        matches!(self, Missing::Memory)
    }
}

/// Returns the path of a call that may return none, which becomes an error.
pub fn there<P: Drop>(made: Result<Option<P>, AllocError>) -> Result<P, Missing> {
    match made {
        Ok(Some(path)) => Ok(path),
        Ok(None) => Err(Missing::NoPath),
        Err(_) => Err(Missing::Memory),
    }
}

/// A path with which a call is made, its argument, and the text of what it should return.
pub type Row = (&'static str, &'static str, &'static str);

/// Returns how a change ended that left the bytes `now`. If there was room, it may not fail.
pub fn changed<V: Drop, E: Refusal + Drop>(
    outcome: Result<V, E>,
    now: &[u8],
    (base, _, wanted): Row,
    has_room: bool,
) -> Ended {
    match outcome {
        Ok(_) => Ended::done(now == wanted.as_bytes(), base),
        Err(refusal) => {
            let is_kept = now == base.as_bytes();
            Ended::refused(refusal.is_want() && is_kept && !has_room, base)
        }
    }
}

/// Evaluates to how a call ended that makes a value with the bytes `$bytes`.
macro_rules! made {
    ($made:expr, $row:expr, $value:ident => $bytes:expr) => {{
        let (base, _, wanted) = $row;
        match $made {
            Ok($value) => Ended::done($bytes == wanted.as_bytes(), base),
            Err(refusal) => Ended::refused(refusal.is_want(), base),
        }
    }};
}

pub(crate) use made;

/// Returns how a call ended that makes a path of bytes.
pub fn bytes<T: Encoding, E: Refusal + Drop>(made: Result<PathBuf<T>, E>, row: Row) -> Ended {
    made!(made, row, path => path.as_path().as_bytes())
}

/// Returns how a call ended that makes a path of text.
pub fn text<T: Utf8Encoding, E: Refusal + Drop>(
    made: Result<Utf8PathBuf<T>, E>,
    row: Row,
) -> Ended {
    made!(made, row, path => path.as_path().as_str().as_bytes())
}

/// Returns how a call ended that makes a path of either dialect.
pub fn typed<E: Refusal + Drop>(made: Result<TypedPathBuf, E>, row: Row) -> Ended {
    made!(made, row, path => path.as_bytes())
}

/// Returns how a call ended that makes a path of text of either dialect.
pub fn typed_text<E: Refusal + Drop>(made: Result<Utf8TypedPathBuf, E>, row: Row) -> Ended {
    made!(made, row, path => path.as_str().as_bytes())
}
