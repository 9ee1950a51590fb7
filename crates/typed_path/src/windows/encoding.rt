//! The encoding of Windows paths, with looks at bytes that spare a reading of components.

ghost use Rattle.std.specs.Prelude.{◌≡◌, ◌≤◌, ◌&&◌, true, false, length, codes, Some, None, IfSome, IsTrue};
ghost use Rattle.typed_path.specs.components.{windows, separators, is_separator, prefix_of, prefix, comps};
ghost use Rattle.typed_path.specs.views.BodyViews.{body_items};
ghost use Rattle.typed_path.specs.views.PieceViews.{found_of, prefix_view};
ghost use Rattle.typed_path.specs.promises.{is_verbatim_unc_name};
ghost use Rattle.typed_path.specs.queries.{is_disk, path_starts_with, stripped};
ghost use Rattle.typed_path.specs.order.{path_cmp};
ghost use Rattle.typed_path.specs.changes.{begins_with_separator, has_second_colon, has_no_nul_or_dot_pair, fault, error_of, HaveOnePrefix};
ghost use Rattle.typed_path.specs.scan.{PartAt};

use crate::common::{
    Encoding, compare_each, compare_parted, compare_prefixes, compare_texts, order_of_prefixed,
};
use crate::errors::CheckedPathError;
use crate::scan::{
    Body, Cursor, Found, Look, Piece, Separators, WindowsPrefix, are_apart, base_end,
    byte_behind_two, end_behind, find_prefix, first_difference, has_no_nul_or_dot_pair,
    has_valid_names, look_at_path, parted_drive,
};
use crate::windows::normal::put_normal;
use crate::windows::push::{prefix_len, push_at, push_next};
use std::alloc::AllocError;
use std::cmp::Ordering;
use std::fmt;

/// The encoding of Windows paths: `\` and `/` separate, and a path may begin with a prefix.
#[derive(Clone, Copy, Debug, Default, PartialEq, Eq, PartialOrd, Ord, Hash)]
pub struct WindowsEncoding;

/// Prints the name of the type.
impl fmt::Display for WindowsEncoding {
    ghost output = { λ _. Some (codes "WindowsEncoding") };

    fn fmt<W: fmt::Write>(&self, f: &mut fmt::Formatter<W>) -> fmt::Result {
        f.pad("WindowsEncoding")
    }
}

impl Encoding for WindowsEncoding {
    ghost dialect = { windows };

    ghost IS_PLATFORM = { false };

    const IS_PLATFORM: bool = false;

    fn label() -> &'static str {
        "windows"
    }

    #[inline(always)]
    fn is_windows() -> bool {
        true
    }

    fn root_text() -> &'static [u8] {
        b"\\"
    }

    #[inline(always)]
    fn separators(path: &[u8]) -> Separators {
        Separators::of_windows(path)
    }

    #[inline(always)]
    fn cursor(path: &[u8]) -> Cursor<'_> {
        Cursor::of_windows(path)
    }

    #[inline(always)]
    fn front<'a>(cursor: &mut Cursor<'a>) -> Option<Piece<'a>> {
        cursor.front()
    }

    #[inline(always)]
    fn back<'a>(cursor: &mut Cursor<'a>) -> Option<Piece<'a>> {
        cursor.back()
    }

    fn absolute(cursor: &Cursor<'_>) -> bool {
        match cursor.prefix() {
            Some(WindowsPrefix::VerbatimUNC(_, share) | WindowsPrefix::UNC(_, share)) => {
                !share.is_empty()
            }
            Some(_) => cursor.has_physical_root(),
            None => false,
        }
    }

    fn rooted(cursor: &Cursor<'_>) -> bool {
        match cursor.prefix() {
            Some(WindowsPrefix::VerbatimDisk(_) | WindowsPrefix::Disk(_)) | None => {
                cursor.has_physical_root()
            }
            Some(_) => true,
        }
    }

    #[inline]
    fn strip_by_bytes<'a>(path: &'a [u8], base: &[u8]) -> Option<Option<&'a [u8]>> {
        let ([own, ..], [wanted, ..]) = (path, base) else {
            return None;
        };
        if own != wanted {
            return if begin_apart(path, base) {
                Some(None)
            } else {
                None
            };
        }
        // If only one has a drive, the components tell at once.
        if has_second_colon(path) != has_second_colon(base) {
            return None;
        }
        let shared = first_difference(path, base);
        let Some((end, separators)) = shared_written_prefix(path, base, shared) else {
            if begin_apart(path, base) {
                return Some(None);
            }
            return behind(path, base).map(Some);
        };
        let body = &path[end..];
        let wanted = &base[end..];
        let shared = shared - end;
        if let Some(behind) = base_end(body, wanted, shared, separators) {
            return Some(Some(&body[behind..]));
        }
        // Two roots may be written with different separators, so the bytes do not tell then.
        if let ([own, ..], [wanted, ..]) = (body, wanted) {
            if own != wanted && are_separators(*own, *wanted) {
                return None;
            }
        }
        if are_apart(body, wanted, shared, separators) {
            return Some(None);
        }
        None
    }

    #[inline(always)]
    fn order_behind_prefix(path: &[u8], other: &[u8]) -> Option<Ordering> {
        match shared_drive(path, other) {
            Some(end) => Some(compare_texts(&path[end..], &other[end..], Separators::Either)),
            None => order_by_prefixes(path, other),
        }
    }

    fn valid(name: &[u8]) -> bool {
        Separators::Either.is_valid_name(name)
    }

    fn valid_names(path: &[u8]) -> bool {
        let (_, body) = path.split_at(prefix_len(path));
        has_valid_names(body, Separators::of_windows(path))
    }

    fn push_over(path: &mut Vec<u8>, kept: usize, other: &[u8]) -> Result<(), AllocError> {
        let kept = kept.min(path.len());
        push_at(path, 0, kept, other, None)
    }

    // Not `push_next`, which looks at what it made for the sake of the next push.
    fn push_behind(text: &mut Vec<u8>, start: usize, other: &[u8]) -> Result<(), AllocError> {
        let start = start.min(text.len());
        let len = text.len();
        push_at(text, start, len, other, None)
    }

    #[inline]
    fn push_next(
        text: &mut Vec<u8>,
        start: usize,
        other: &[u8],
        known: Option<usize>,
    ) -> Result<Option<usize>, AllocError> {
        let start = start.min(text.len());
        push_next(text, start, other, known)
    }

    fn put_normal(text: &mut Vec<u8>, path: &[u8]) -> Result<(), AllocError> {
        put_normal(text, path)
    }

    fn check(path: &[u8]) -> Result<(), CheckedPathError> {
        match judged_by_looks(path) {
            Some(judged) => judged,
            None => Cursor::of_windows(path).check(),
        }
    }
}

/// Whether the first bytes tell that `path` does not begin with the components of `other`. `false`
/// leaves it open.
#[inline(always)]
fn begin_apart(path: &[u8], other: &[u8]) -> bool
    ensures { IsTrue result → path_starts_with windows path.now other.now ≡ false }
{
    // A component begins with the byte at its index, but a root is `\` for either separator.
    let ([own, ..], [wanted, ..]) = (path, other) else {
        return false;
    };
    if own != wanted && !are_separators(*own, *wanted) {
        return true;
    }
    // A name after two separators belongs to a prefix.
    match (byte_behind_two(path), byte_behind_two(other)) {
        (Some(own), Some(other)) => other != own,
        _ => false,
    }
}

/// Whether both bytes are separators.
#[inline(always)]
fn are_separators(first: u8, second: u8) -> bool
    ensures { result
        ≡ (is_separator Separators.Either first && is_separator Separators.Either second) }
{
    Separators::Either.contains(first) && Separators::Either.contains(second)
}

/// Returns what is left of `path` after `base`, if their bytes tell; `None` leaves it open.
///
/// They tell if `path` begins with those of `base`, both have the same prefix or none, `base` goes
/// on after it, and no segment spans the end of `base`.
fn behind<'a>(path: &'a [u8], base: &[u8]) -> Option<&'a [u8]>
    ensures { IfSome result (λ rest. stripped windows path.now base.now ≡ Some rest.now) }
{
    // No prefix is read if the bytes differ, and that of `path` alone if `base` ends with it. Few
    // bases come here from `strip_by_bytes`: short ones, those after the verbatim prefix named
    // `UNC`, and those after a verbatim drive without a root.
    if !path.starts_with(base) {
        return None;
    }
    let (prefix, body) = path.split_at(prefix_len(path));
    if base.len() <= prefix.len() {
        return None;
    }
    let (base_prefix, base_body) = base.split_at(prefix_len(base));
    let separators = Separators::of_windows(path);
    if prefix.len() != base_prefix.len()
        || separators.is_verbatim() != Separators::of_windows(base).is_verbatim()
    {
        return None;
    }
    let end = end_behind(body, base_body, separators)?;
    Some(&body[end..])
}

/// Returns the length of the prefix that two paths begin with, written alike, and their separators.
///
/// It is 0 if neither has a prefix. `None` leaves it open. `shared` is the [`first_difference`] of
/// the two.
#[inline(always)]
fn shared_written_prefix(path: &[u8], other: &[u8], shared: usize) -> Option<(usize, Separators)>
    requires { PartAt path.now other.now shared }
    ensures one { IfSome result (λ found. HaveOnePrefix path.now other.now found.0 found.1) }
    ensures begun { IfSome result (λ found. found.0 ≤ shared) }
{
    // Of paths without a drive only the prefix of `path` is read, and a separator has to follow it.
    // None is read if the first bytes differ, as those of most different prefixes do.
    match shared_drive(path, other) {
        Some(end) if end <= shared => return Some((end, Separators::Either)),
        Some(_) => return None,
        None => {}
    }
    if shared < PARTED {
        return None;
    }
    let found = find_prefix(path)?;
    if !begins_with_prefix(other, path, shared, found) {
        return None;
    }
    Some((found.length, Separators::of_windows(path)))
}

/// Returns the length in bytes of the drive that two paths begin with, 2 for `C:\a` and `c:b`, or 0
/// if neither has a prefix. `None` leaves it open: the drives differ, only one has one, or a path
/// begins with two separators.
#[inline(always)]
fn shared_drive(path: &[u8], other: &[u8]) -> Option<usize>
    ensures one { IfSome result (λ end. HaveOnePrefix path.now other.now end Separators.Either) }
    ensures within { IfSome result (λ end. (end ≤ length path.now) × (end ≤ length other.now)) }
{
    let (drive, body) = parted_drive(path)?;
    let (other_drive, _) = parted_drive(other)?;
    if drive != other_drive {
        return None;
    }
    Some(path.len() - body.len())
}

/// The least number of bytes that two paths have to share for a prefix other than `C:` to be read.
const PARTED: usize = 6;

/// Returns the order of two paths of which one begins with two separators, or whose drives differ.
///
/// They differ also if only one has a drive `C:`. `None` leaves it open.
fn order_by_prefixes(path: &[u8], other: &[u8]) -> Option<Ordering>
    ensures { IfSome result (λ order. path_cmp windows path.now other.now ≡ order) }
{
    let (Some((drive, _)), Some((other_drive, _))) = (parted_drive(path), parted_drive(other))
    else {
        return order_behind_marked(path, other);
    };
    match (drive, other_drive) {
        // Equal drives were found before.
        (Some(own), Some(wanted)) if own != wanted => Some(own.cmp(&wanted)),
        (Some(_), None) => Some(order_of_prefixed(whole(other))),
        (None, Some(_)) => Some(order_of_prefixed(whole(path)).reverse()),
        _ => None,
    }
}

/// Returns the order of two paths of which one begins with two separators.
///
/// `None` leaves it open: neither has a prefix.
fn order_behind_marked(path: &[u8], other: &[u8]) -> Option<Ordering>
    ensures { IfSome result (λ order. path_cmp windows path.now other.now ≡ order) }
{
    let Some(found) = find_prefix(path) else {
        find_prefix(other)?;
        return Some(order_of_prefixed(whole(path)).reverse());
    };
    let shared = first_difference(path, other);
    // If both begin with one prefix, only that of `path` is read.
    if begins_with_prefix(other, path, shared, found) {
        let end = found.length;
        let separators = Separators::of_windows(path);
        return Some(compare_parted(&path[end..], &other[end..], shared - end, separators));
    }
    Some(match find_prefix(other) {
        Some(others) => order_by_both_prefixes(path, found, other, others),
        None => order_of_prefixed(whole(other)),
    })
}

/// Returns a reading of a path without a prefix.
#[inline(always)]
fn whole(path: &[u8]) -> Body<'_>
    ensures { prefix_of windows path.now ≡ None → body_items result ≡ comps windows path.now }
{
    Body::new(path, 0, Separators::of_windows(path))
}

/// Returns the order of two paths with the prefixes `found` and `others`.
///
/// It is that of the prefixes, and if these are equal, that of what follows them.
fn order_by_both_prefixes(
    path: &[u8],
    found: Found<'_>,
    other: &[u8],
    others: Found<'_>,
) -> Ordering
    requires own { prefix_of windows path.now ≡ Some (found_of found) }
    requires others { prefix_of windows other.now ≡ Some (found_of others) }
    requires within { (found.length ≤ length path.now) × (others.length ≤ length other.now) }
    ensures { path_cmp windows path.now other.now ≡ result }
{
    let order = compare_prefixes(found.kind, others.kind);
    if order.is_ne() {
        return order;
    }
    let own = Separators::of_windows(path);
    let wanted = Separators::of_windows(other);
    if own.is_same(wanted) {
        return compare_texts(&path[found.length..], &other[others.length..], own);
    }
    compare_each(
        Body::new(path, found.length, own),
        Body::new(other, others.length, wanted),
    )
}

/// Whether `text` begins with the prefix of `path`, which is `found`, and a separator, so that
/// `text` has that prefix too. `false` leaves it open. `shared` is their [`first_difference`].
#[inline(always)]
fn begins_with_prefix(text: &[u8], path: &[u8], shared: usize, found: Found<'_>) -> bool
    requires place { PartAt path.now text.now shared }
    requires found { prefix_of windows path.now ≡ Some (found_of found) }
    ensures prefix { IsTrue result → prefix_of windows text.now ≡ Some (found_of found.entry) }
    ensures separators { IsTrue result → separators windows text.now ≡ separators windows path.now }
    ensures begun { IsTrue result → found.entry.length ≤ shared }
{
    let end = found.length;
    if shared < end || path.len() <= end || text.len() <= end || !stays_before_parted(found.kind) {
        return false;
    }
    Separators::of_windows(path).contains(text[end])
}

/// Whether a path keeps this prefix when what follows the separator after it is replaced. `false`
/// leaves it open.
#[inline(always)]
fn stays_before_parted(prefix: WindowsPrefix<'_>) -> bool
    ensures { IsTrue result → (is_disk (prefix_view prefix.entry) ≡ false)
        × (is_verbatim_unc_name (Some (prefix_view prefix.entry)) ≡ false) }
{
    !matches!(
        prefix,
        WindowsPrefix::Disk(_) | WindowsPrefix::Verbatim(b"UNC")
    )
}

/// Returns what [`Encoding::check`] returns for `path`, if searches tell. `None` leaves it open.
fn judged_by_looks(path: &[u8]) -> Option<Result<(), CheckedPathError>>
    ensures { IfSome result (λ judged. error_of judged ≡ fault windows path.now) }
{
    if has_second_colon(path)
        || begins_with_separator(path)
        || matches!(path, [b'.', b'.', ..] | [.., b'.', b'.'])
    {
        return None;
    }
    // An offence is the answer unless a `..` comes before it. Two dots are searched for in a short
    // path as a whole, and in a long one up to the end of the name in which the block of the
    // offence ends.
    match look_at_path(path) {
        Look::Clean => Some(Ok(())),
        Look::Dots => None,
        Look::Offence(looked) if looked == path.len() => {
            Some(Err(CheckedPathError::InvalidFilename))
        }
        Look::Offence(looked) => {
            if path.len() <= SEARCHED_WHOLE && has_no_nul_or_dot_pair(path) {
                return Some(Err(CheckedPathError::InvalidFilename));
            }
            let (_, behind) = path.split_at(looked);
            let end = looked + Separators::Either.first_in(behind);
            let text = &path[..end];
            if has_no_nul_or_dot_pair(text) {
                if let Look::Offence(_) = look_at_path(text) {
                    return Some(Err(CheckedPathError::InvalidFilename));
                }
            }
            None
        }
    }
}

/// The length in bytes up to which a path with an offence is searched as a whole for two dots: to
/// search the name that offends once more would cost more.
const SEARCHED_WHOLE: usize = 256;

/// Whether the second byte is `:`, as after the letter of a drive.
#[inline(always)]
pub fn has_second_colon(text: &[u8]) -> bool
    ensures { result ≡ has_second_colon text.now }
{
    matches!(text, [_, b':', ..])
}

/// Whether the first byte is `/` or `\`.
#[inline(always)]
pub fn begins_with_separator(text: &[u8]) -> bool
    ensures { result ≡ begins_with_separator text.now }
{
    matches!(text, [b'/' | b'\\', ..])
}
