//! The encoding of Unix paths: how a path is pushed, checked and normalized.

ghost use Rattle.std.specs.Prelude.{false, ◌≡◌, ◌≤◌, ◌+◌, ◌++◌, ℕ, take, slice_range, length, IfSome, IsNone, IsOk, OnOk, OnErr, ◌<◌, ◌-◌, [], codes, Some, true};
ghost use Rattle.std.specs.Vec.{vec_capacity, vec_len};
ghost use Rattle.typed_path.specs.components.{unix, slash};
ghost use Rattle.typed_path.specs.changes.{push_unix, ended_with, FitsPush, PutsPart, put_in_place, IsNoneOrSeparator};
ghost use Rattle.typed_path.specs.places.{normal_text, IsParted, kept_segments, names_left, rows_of, segment_kinds};

use crate::common::{
    Encoding, PushPlace, compare_texts, cut_back, drop_separator, put_each_segment,
    put_kept_by_slashes, put_over,
};
use crate::errors::CheckedPathError;
use crate::scan::{
    Cursor, Piece, Separators, are_apart, base_end, first_difference, has_long_front,
    has_no_nul_or_dot_pair, has_valid_names, have_other_fronts,
};
use std::alloc::AllocError;
use std::cmp::Ordering;
use std::fmt;

/// The encoding of Unix paths: `/` separates, and every other byte belongs to a name.
#[derive(Clone, Copy, Debug, Default, PartialEq, Eq, PartialOrd, Ord, Hash)]
pub struct UnixEncoding;

/// Prints the name of the type.
impl fmt::Display for UnixEncoding {
    ghost output = { λ _. Some (codes "UnixEncoding") };

    fn fmt<W: fmt::Write>(&self, f: &mut fmt::Formatter<W>) -> fmt::Result {
        f.pad("UnixEncoding")
    }
}

impl Encoding for UnixEncoding {
    ghost dialect = { unix };

    ghost IS_PLATFORM = { false };

    const IS_PLATFORM: bool = false;

    fn label() -> &'static str {
        "unix"
    }

    #[inline(always)]
    fn is_windows() -> bool {
        false
    }

    fn root_text() -> &'static [u8] {
        b"/"
    }

    #[inline(always)]
    fn separators(_path: &[u8]) -> Separators {
        Separators::Slash
    }

    #[inline(always)]
    fn cursor(path: &[u8]) -> Cursor<'_> {
        Cursor::new(path, Separators::Slash)
    }

    #[inline(always)]
    fn front<'a>(cursor: &mut Cursor<'a>) -> Option<Piece<'a>> {
        cursor.front()
    }

    #[inline(always)]
    fn back<'a>(cursor: &mut Cursor<'a>) -> Option<Piece<'a>> {
        cursor.back()
    }

    fn absolute(cursor: &Cursor<'_>) -> bool {
        cursor.begins_with_root()
    }

    fn rooted(cursor: &Cursor<'_>) -> bool {
        cursor.begins_with_root()
    }

    #[inline]
    fn strip_by_bytes<'a>(path: &'a [u8], base: &[u8]) -> Option<Option<&'a [u8]>> {
        if base.is_empty() {
            return None;
        }
        if have_other_fronts(path, base, Separators::Slash) {
            return Some(None);
        }
        let shared = first_difference(path, base);
        if let Some(end) = base_end(path, base, shared, Separators::Slash) {
            return Some(Some(&path[end..]));
        }
        if are_apart(path, base, shared, Separators::Slash) {
            return Some(None);
        }
        None
    }

    #[inline(always)]
    fn order_behind_prefix(path: &[u8], other: &[u8]) -> Option<Ordering> {
        Some(compare_texts(path, other, Separators::Slash))
    }

    fn valid(name: &[u8]) -> bool {
        Separators::Slash.is_valid_name(name)
    }

    fn valid_names(path: &[u8]) -> bool {
        has_valid_names(path, Separators::Slash)
    }

    fn push_over(path: &mut Vec<u8>, kept: usize, other: &[u8]) -> Result<(), AllocError> {
        let kept = kept.min(path.len());
        push_at(path, 0, kept, other)
    }

    // Nothing needs to be known of the path, as a push depends only on its last byte.
    #[inline(always)]
    fn push_next(
        text: &mut Vec<u8>,
        start: usize,
        other: &[u8],
        _known: Option<usize>,
    ) -> Result<Option<usize>, AllocError> {
        let len = text.len();
        push_at(text, start.min(len), len, other)?;
        Ok(None)
    }

    fn put_normal(text: &mut Vec<u8>, path: &[u8]) -> Result<(), AllocError> {
        put_normal(text, path)
    }

    fn check(path: &[u8]) -> Result<(), CheckedPathError> {
        if !path.starts_with(b"/") && has_no_nul_or_dot_pair(path) {
            return Ok(());
        }
        Cursor::new(path, Separators::Slash).check()
    }
}

/// Pushes `other` onto the Unix path `text[start..kept]`, and cuts off what follows `kept`. If
/// allocation fails, `text` is unchanged.
#[inline(always)]
pub fn push_at(
    text: &mut Vec<u8>,
    start: usize,
    kept: usize,
    other: &[u8],
) -> Result<(), AllocError>
    requires ordered { start ≤ kept }
    requires within { kept ≤ length text.old.items }
    ensures ok { OnOk result (text.new.items ≡ take start text.old.items
        ++ push_unix (slice_range text.old.items start kept) other.now) }
    ensures err { OnErr result (text.new.items ≡ text.old.items) }
    ensures capacity { vec_capacity text.old ≤ vec_capacity text.new }
    ensures succeeds { (room : ℕ) → start + room ≤ vec_capacity text.old
        → FitsPush unix room (slice_range text.old.items start kept) other.now → IsOk result }
{
    match separator_between(&text[start..kept], other) {
        Some(separator) => put_over(text, kept, separator, other),
        None => put_over(text, start, b"", other),
    }
}

/// Returns where `other` goes when it is pushed onto `base`: how many bytes of `base` stay, and
/// which separator comes between.
#[inline(always)]
pub fn push_place(base: &[u8], other: &[u8]) -> PushPlace
    ensures place { push_unix base.now other.now
        ≡ put_in_place base.now result.kept result.separator.now other.now }
    ensures within { result.kept ≤ length base.now }
    ensures separator { IsNoneOrSeparator unix result.separator.now }
{
    match separator_between(base, other) {
        Some(separator) => PushPlace {
            kept: base.len(),
            separator,
        },
        None => PushPlace {
            kept: 0,
            separator: b"",
        },
    }
}

/// Returns what a push puts between `base` and `other`: a separator or nothing. `None` if `other`
/// replaces `base`.
#[inline(always)]
fn separator_between(base: &[u8], other: &[u8]) -> Option<&'static [u8]>
    ensures behind { IfSome result (λ separator. push_unix base.now other.now
        ≡ base.now ++ separator.now ++ other.now) }
    ensures replaced { IsNone result → push_unix base.now other.now ≡ other.now }
    ensures short { IfSome result (λ separator. length separator.now ≤ 1) }
    ensures known { IfSome result (λ separator. IsNoneOrSeparator unix separator.now) }
{
    match other {
        [] => Some(b""),
        [b'/', ..] => None,
        _ => Some(separator_behind(base)),
    }
}

/// Returns what `base` needs at its end before a relative path: a separator or nothing.
#[inline(always)]
fn separator_behind(base: &[u8]) -> &'static [u8]
    ensures text { ended_with slash base.now ≡ base.now ++ result.now }
    ensures short { length result.now ≤ 1 }
    ensures known { IsNoneOrSeparator unix result.now }
{
    match base {
        [] | [.., b'/'] => b"",
        _ => b"/",
    }
}

/// Appends the normal path of `path` to `text`. If allocation fails, `text` is unchanged.
pub fn put_normal(text: &mut Vec<u8>, path: &[u8]) -> Result<(), AllocError>
    ensures ok { OnOk result (text.new.items ≡ text.old.items ++ normal_text unix path.now) }
    ensures err { OnErr result (text.new.items ≡ text.old.items) }
    ensures capacity { vec_capacity text.old ≤ vec_capacity text.new }
    ensures succeeds { vec_len text.old + length path.now < vec_capacity text.old → IsOk result }
{
    let len = text.len();
    let done = put_rows(text, path);
    cut_back(text, len, done)
}

/// Appends the normal path of `path` to `text`: the root, and the names that are left after it. If
/// allocation fails, a part of it may stay.
#[inline(always)]
fn put_rows(text: &mut Vec<u8>, path: &[u8]) -> Result<(), AllocError>
    ensures { PutsPart result text.old text.new (normal_text unix path.now) (length path.now + 1) }
{
    // One pass: names are appended with a `/`, `..` takes the last one off, and the last `/` goes.
    let (root, rest) = split_root(path);
    text.extend_from_slice(root)?;
    let left = behind_parents(rest);
    let len = text.len();
    put_left(text, left)?;
    drop_separator(text, len);
    Ok(())
}

/// Splits a path into its root, which may be empty, and the rest.
fn split_root(path: &[u8]) -> (&[u8], &[u8])
    ensures { IsParted path.now result.0.now result.1.now }
{
    match path {
        [b'/', rest @ ..] => (&path[..1], rest),
        _ => (&path[..0], path),
    }
}

/// Returns `text`, the rest of a path after its root, without the `..` at its front: these have no
/// name to cancel.
#[inline(always)]
fn behind_parents(text: &[u8]) -> &[u8]
    ensures same { names_left text.now ≡ names_left result.now }
    ensures shorter { length result.now ≤ length text.now }
{
    let mut left = text;
    'parents: while let [b'.', b'.', b'/', behind @ ..] = left {
        left = behind;
    }
    match left {
        [b'.', b'.'] => &[],
        _ => left,
    }
}

/// Appends the names that `path`, the rest after a root, resolves to, each with a `/` after it. If
/// allocation fails, a part of them may stay.
#[inline(always)]
fn put_left(text: &mut Vec<u8>, path: &[u8]) -> Result<(), AllocError>
    ensures puts { PutsPart result text.old text.new
        (rows_of Separators.Slash (kept_segments true (segment_kinds Separators.Slash path.now)))
        (length path.now + 1) }
    ensures room { OnOk result (vec_len text.new ≤ vec_len text.old + length path.now + 1) }
{
    if path.is_empty() {
        return Ok(());
    }
    // No run of names is searched for if the first one is long.
    if has_long_front(path, Separators::Slash) {
        return put_each_segment(text, path, true);
    }
    put_kept_by_slashes(text, path, true)
}
