//! The platform encoding, which forwards to that of Unix on every machine, and native names.

ghost use Rattle.std.specs.Prelude.{true, codes, Some};
ghost use Rattle.typed_path.specs.conversions.{platform};

use crate::common::{Encoding, Path, PathBuf};
use crate::errors::CheckedPathError;
use crate::scan::{Cursor, Piece, Separators};
use crate::unix::{UnixComponent, UnixEncoding, UnixPath, UnixPathBuf};
use std::alloc::AllocError;
use std::cmp::Ordering;
use std::fmt;

/// The encoding of the machine's paths, which forwards to that of Unix.
#[derive(Clone, Copy, Debug, Default, PartialEq, Eq, PartialOrd, Ord, Hash)]
pub struct PlatformEncoding;

/// A path that is written as on the machine.
pub type PlatformPath<'a> = Path<'a, PlatformEncoding>;

/// An owned path that is written as on the machine.
pub type PlatformPathBuf = PathBuf<PlatformEncoding>;

/// Prints the name of the type.
impl fmt::Display for PlatformEncoding {
    ghost output = { λ _. Some (codes "PlatformEncoding") };

    fn fmt<W: fmt::Write>(&self, f: &mut fmt::Formatter<W>) -> fmt::Result {
        f.pad("PlatformEncoding")
    }
}

impl Encoding for PlatformEncoding {
    ghost dialect = { platform };

    ghost IS_PLATFORM = { true };

    const IS_PLATFORM: bool = true;

    fn label() -> &'static str {
        UnixEncoding::label()
    }

    #[inline(always)]
    fn is_windows() -> bool {
        UnixEncoding::is_windows()
    }

    fn root_text() -> &'static [u8] {
        UnixEncoding::root_text()
    }

    #[inline(always)]
    fn separators(path: &[u8]) -> Separators {
        UnixEncoding::separators(path)
    }

    #[inline(always)]
    fn cursor(path: &[u8]) -> Cursor<'_> {
        UnixEncoding::cursor(path)
    }

    #[inline(always)]
    fn front<'a>(cursor: &mut Cursor<'a>) -> Option<Piece<'a>> {
        UnixEncoding::front(cursor)
    }

    #[inline(always)]
    fn back<'a>(cursor: &mut Cursor<'a>) -> Option<Piece<'a>> {
        UnixEncoding::back(cursor)
    }

    fn absolute(cursor: &Cursor<'_>) -> bool {
        UnixEncoding::absolute(cursor)
    }

    fn rooted(cursor: &Cursor<'_>) -> bool {
        UnixEncoding::rooted(cursor)
    }

    #[inline]
    fn strip_by_bytes<'a>(path: &'a [u8], base: &[u8]) -> Option<Option<&'a [u8]>> {
        UnixEncoding::strip_by_bytes(path, base)
    }

    #[inline(always)]
    fn order_behind_prefix(path: &[u8], other: &[u8]) -> Option<Ordering> {
        UnixEncoding::order_behind_prefix(path, other)
    }

    fn valid(name: &[u8]) -> bool {
        UnixEncoding::valid(name)
    }

    fn valid_names(path: &[u8]) -> bool {
        UnixEncoding::valid_names(path)
    }

    fn push_over(path: &mut Vec<u8>, kept: usize, other: &[u8]) -> Result<(), AllocError> {
        UnixEncoding::push_over(path, kept, other)
    }

    fn push_next(
        text: &mut Vec<u8>,
        start: usize,
        other: &[u8],
        known: Option<usize>,
    ) -> Result<Option<usize>, AllocError> {
        UnixEncoding::push_next(text, start, other, known)
    }

    fn put_normal(text: &mut Vec<u8>, path: &[u8]) -> Result<(), AllocError> {
        UnixEncoding::put_normal(text, path)
    }

    fn check(path: &[u8]) -> Result<(), CheckedPathError> {
        UnixEncoding::check(path)
    }
}

/// The encoding of the machine's own paths.
pub type NativeEncoding = UnixEncoding;

/// A path of the machine's own kind.
pub type NativePath<'a> = UnixPath<'a>;

/// An owned path of the machine's own kind.
pub type NativePathBuf = UnixPathBuf;

/// A component of a path of the machine's own kind.
pub type NativeComponent<'a> = UnixComponent<'a>;
