//! Looks at bytes by blocks: how much at the front is names, and whether a segment after a
//! separator is empty or `.`.

ghost use Rattle.std.specs.Prelude.{◌≡◌, ◌≤◌, ◌<◌, ◌+◌, ◌-◌, ◌==◌, ℕ, true, false, IsTrue, length, slice_index, Bool};
ghost use Rattle.std.specs.Int.{bit_at};
ghost use Rattle.std.specs.List.{list_all, slice_split, list_any};
ghost use Rattle.std.specs.Slice.Scan.{HoldsNowhere, IsFirstPlace};
ghost use Rattle.typed_path.specs.changes.{begins_no_name, begins_no_name_at, is_name_piece, TellsNames};
ghost use Rattle.typed_path.specs.scan.{IsMask, is_one_of, stands_at, begins_blank, has_blank_behind, MarksNoBlank};
ghost use Rattle.typed_path.specs.components.{body, later_body, parts};

use crate::scan::lanes::{first_marked, is_one_of, lowest, marks_at, marks_of};
use crate::scan::separators::Separators;

/// What a look at the front of a text tells of its segments.
#[derive(Clone, Copy, Debug)]
pub enum Leading {
    /// Each of them is a name.
    Whole,
    /// So many bytes are names, each with a separator after it. More names may follow.
    First(usize),
}

/// Whether each segment of `text` is a name: not empty, `.` or `..`. `pair` holds the separators.
/// `false` leaves it open: a segment that begins with `..` is not taken for a name.
#[inline(always)]
pub fn has_only_names(text: &[u8], pair: (u8, u8)) -> bool
    ensures { IsTrue result
        → list_all is_name_piece (slice_split (is_one_of pair) text.now) ≡ true }
{
    matches!(leading_names(text, pair), Leading::Whole)
}

/// Returns how much at the front of `text` is names. `pair` holds the separators. A segment that
/// begins with `..` is not taken for a name, even if it is one, as `..a` is.
#[inline(always)]
pub fn leading_names(text: &[u8], pair: (u8, u8)) -> Leading
    ensures { TellsNames pair text.now result }
{
    if let [only] = text {
        return if begins_no_name(pair, *only, *only) {
            Leading::First(0)
        } else {
            Leading::Whole
        };
    }
    let [first, second, ..] = text else {
        return Leading::First(0);
    };
    if begins_no_name(pair, *first, *second) {
        return Leading::First(0);
    }
    names_behind(text, 0, pair)
}

/// Returns what [`leading_names`] does, but `First(0)` if few or long names are in front.
///
/// So it is for 34 bytes or more, if the first 32 have fewer than three separators, or show that
/// one of the first four segments may be no name.
#[inline(always)]
pub fn leading_short_names(text: &[u8], pair: (u8, u8)) -> Leading
    ensures { TellsNames pair text.now result }
{
    if text.len() < 34 {
        return leading_names(text, pair);
    }
    let [first, second, ..] = text else {
        return Leading::First(0);
    };
    if begins_no_name(pair, *first, *second) {
        return Leading::First(0);
    }
    // Few or long names cost less one by one than a search for those that follow.
    let ends = marks_at::<32>(text, 0, pair);
    let seconds = ends & ends.wrapping_sub(1);
    let thirds = seconds & seconds.wrapping_sub(1);
    if thirds == 0 {
        return Leading::First(0);
    }
    let others = no_names_among(text, 0, ends, pair);
    if others == 0 {
        return names_behind(text, 30, pair);
    }
    let run = lowest(others);
    if run <= lowest(thirds) {
        return Leading::First(0);
    }
    Leading::First(run + 1)
}

/// Returns how much at the front of `text` is names, as [`leading_names`] does.
///
/// `text` has `from + 2` bytes or more. It begins with a name, and one comes after each separator
/// in `text[..from]`; none of these names begins with `..`.
#[inline(always)]
fn names_behind(text: &[u8], from: usize, pair: (u8, u8)) -> Leading
    requires size { from + 2 ≤ length text.now }
    requires first { begins_no_name pair (slice_index text.now 0) (slice_index text.now 1) ≡ false }
    requires passed { HoldsNowhere (begins_no_name_at pair text.now) 0 from }
    ensures { TellsNames pair text.now result }
{
    let to = text.len() - 2;
    let found = first_no_name(text, from, to, pair);
    if found < to {
        return Leading::First(found + 1);
    }
    let last = text[to + 1];
    if is_one_of(pair, text[to]) && begins_no_name(pair, last, last) {
        return Leading::First(to + 1);
    }
    if is_one_of(pair, last) {
        return Leading::First(to + 2);
    }
    Leading::Whole
}

/// Returns the index in `text[..to]` of the first separator before a segment that may be no name:
/// it is empty, `.`, or begins with `..`. Returns `to` if there is none; it is known that
/// `text[..from]` has none.
#[inline(always)]
fn first_no_name(text: &[u8], from: usize, to: usize, pair: (u8, u8)) -> usize
    requires room { to + 2 ≤ length text.now }
    requires ordered { from ≤ to }
    requires passed { HoldsNowhere (begins_no_name_at pair text.now) 0 from }
    ensures { IsFirstPlace (begins_no_name_at pair text.now) 0 to result }
{
    let mut at = from;
    'wholes: while 32 <= to - at {
        let found = first_no_name_in_block::<32>(text, at, pair);
        if found < at + 32 {
            return found;
        }
        at += 32;
    }
    if 32 <= to {
        return first_no_name_in_block::<32>(text, to - 32, pair);
    }
    if 16 <= to {
        return first_no_name_in_two::<16>(text, to, pair);
    }
    if 8 <= to {
        return first_no_name_in_two::<8>(text, to, pair);
    }
    first_no_name_by_one(text, to, pair)
}

/// Returns the index in `text[at..at + N]` of the first separator before a segment that may be no
/// name, or `at + N` if there is none. Reads two bytes past the block.
#[inline(always)]
fn first_no_name_in_block<const N: usize>(text: &[u8], at: usize, pair: (u8, u8)) -> usize
    requires lanes { (0 < N) × (N ≤ 64) }
    requires in_range { at + N + 2 ≤ length text.now }
    ensures { IsFirstPlace (begins_no_name_at pair text.now) at (at + N) result }
{
    first_marked::<N>(no_names_at::<N>(text, at, pair), at)
}

/// Returns the index in `text[..to]` of the first separator before a segment that may be no name,
/// or `to` if there is none, by two blocks of N bytes. `to` is in `N..=2 * N`.
#[inline(always)]
fn first_no_name_in_two<const N: usize>(text: &[u8], to: usize, pair: (u8, u8)) -> usize
    requires lanes { (0 < N) × (N ≤ 64) }
    requires size { (N ≤ to) × (to ≤ N + N) }
    requires in_range { to + 2 ≤ length text.now }
    ensures { IsFirstPlace (begins_no_name_at pair text.now) 0 to result }
{
    let first = no_names_at::<N>(text, 0, pair);
    let last = no_names_at::<N>(text, to - N, pair);
    // Mostly there is none, which one branch tells.
    if (first == 0) & (last == 0) {
        return to;
    }
    let place = first_marked::<N>(first, 0);
    if place < N {
        return place;
    }
    first_marked::<N>(last, to - N)
}

/// Returns the index in `text[..to]` of the first separator before a segment that may be no name,
/// or `to` if there is none, byte by byte.
#[inline(always)]
fn first_no_name_by_one(text: &[u8], to: usize, pair: (u8, u8)) -> usize
    requires { to + 2 ≤ length text.now }
    ensures { IsFirstPlace (begins_no_name_at pair text.now) 0 to result }
{
    let mut at = 0;
    while at < to
        && !(is_one_of(pair, text[at]) && begins_no_name(pair, text[at + 1], text[at + 2]))
    {
        at += 1;
    }
    at
}

/// Returns the mask of the separators in `text[at..at + N]` before segments that may be no names.
/// Reads two bytes past the block.
#[inline(always)]
fn no_names_at<const N: usize>(text: &[u8], at: usize, pair: (u8, u8)) -> u64
    requires lanes { (0 < N) × (N ≤ 64) }
    requires in_range { at + N + 2 ≤ length text.now }
    ensures { IsMask (λ k. begins_no_name_at pair text.now (at + k)) N result }
{
    let ends = marks_at::<N>(text, at + 2, pair) | marks_of::<N>(text, at + 2, b'.');
    let dots = marks_of::<N>(text, at + 1, b'.') & ends;
    marks_at::<N>(text, at, pair) & (marks_at::<N>(text, at + 1, pair) | dots)
}

/// Returns the mask of the separators in `text[at..at + 32]` before segments that may be no names.
///
/// Nothing past the block is read, so bit 31 is never set, and bit 30 may be unset though the
/// segment may be no name. `ends` is the mask of all separators in the block.
#[inline(always)]
fn no_names_among(text: &[u8], at: usize, ends: u64, pair: (u8, u8)) -> u64
    requires in_range { at + 32 ≤ length text.now }
    requires ends { IsMask (λ k. stands_at pair text.now (at + k)) 32 ends }
    ensures set { (k : ℕ) → bit_at result k ≡ 1
        → (k < 31) × (begins_no_name_at pair text.now (at + k) ≡ true) }
    ensures clear { (k : ℕ) → k < 30 → bit_at result k ≡ 0
        → begins_no_name_at pair text.now (at + k) ≡ false }
{
    let dots = marks_of::<32>(text, at, b'.');
    ends & ((ends >> 1) | ((dots >> 1) & ((ends | dots) >> 2)))
}

/// Whether a segment that begins with `first` and `second` may be no name: it is empty, `.`, or
/// begins with `..`.
#[inline(always)]
pub fn begins_no_name(pair: (u8, u8), first: u8, second: u8) -> bool
    ensures { result ≡ begins_no_name pair first second }
{
    is_one_of(pair, first) || (first == b'.' && (is_one_of(pair, second) || second == b'.'))
}

/// Whether no segment but the first is empty or `.`. `false` leaves it open.
#[inline(always)]
pub fn has_no_blank_behind(text: &[u8], separators: Separators) -> bool
    ensures { IsTrue result → has_blank_behind separators text.now ≡ false }
{
    let len = text.len();
    if 32 <= len {
        return has_no_blank_in_blocks::<32>(text, separators);
    }
    if 16 <= len {
        return has_no_blank_in_blocks::<16>(text, separators);
    }
    if 8 <= len {
        return has_no_blank_in_blocks::<8>(text, separators);
    }
    has_no_blank_by_one(text, separators)
}

/// Whether no segment but the first is empty or `.`, byte by byte. `false` leaves it open.
#[inline(always)]
fn has_no_blank_by_one(text: &[u8], separators: Separators) -> bool
    ensures { IsTrue result → has_blank_behind separators text.now ≡ false }
{
    let mut left = text;
    'bytes: while let [first, rest @ ..] = left {
        if separators.contains(*first) && begins_blank(rest, separators) {
            return false;
        }
        left = rest;
    }
    true
}

/// Whether the first segment is empty or `.`.
#[inline(always)]
pub fn begins_blank(text: &[u8], separators: Separators) -> bool
    ensures { result ≡ begins_blank separators text.now }
{
    match text {
        [] | [b'.'] => true,
        [first, ..] if separators.contains(*first) => true,
        [b'.', second, ..] => separators.contains(*second),
        _ => false,
    }
}

/// Whether no segment but the first is empty or `.`, by blocks of N bytes. `false` leaves it open.
///
/// `text` has N bytes or more.
#[inline(always)]
fn has_no_blank_in_blocks<const N: usize>(text: &[u8], separators: Separators) -> bool
    requires lanes { (8 ≤ N) × (N ≤ 32) }
    requires size { N ≤ length text.now }
    ensures { IsTrue result → has_blank_behind separators text.now ≡ false }
{
    let len = text.len();
    let mut at = 0;
    'wholes: while N < len - at {
        let marks = marks_at::<N>(text, at, separators.pair());
        let dots = marks_at::<N>(text, at, (b'.', b'.'));
        if blanks_behind(marks, marks, dots) != 0 {
            return false;
        }
        // The two bytes after a separator count, so the next block overlaps this one by two.
        at += N - 2;
    }
    let last = len - N;
    let marks = marks_at::<N>(text, last, separators.pair());
    let dots = marks_at::<N>(text, last, (b'.', b'.'));
    blanks_behind(marks, marks | (1 << N), dots) == 0
}

/// Returns the mask of the separators that are followed by an empty segment or `.`, given the masks
/// of separators, of the ends of segments, and of dots.
#[inline(always)]
fn blanks_behind(separators: u64, ends: u64, dots: u64) -> u64
    ensures { result ≡ 0 → MarksNoBlank separators ends dots }
{
    separators & ((ends >> 1) | ((dots >> 1) & (ends >> 2)))
}

/// Returns `text` without the separator at its end, which belongs to no component. A lone separator
/// stays.
#[inline(always)]
pub fn before_last_separator(text: &[u8], separators: Separators) -> &[u8]
    ensures body { (at : ℕ) → body separators at text.now ≡ body separators at result.now }
    ensures later { parts (later_body separators 0 result.now)
        ≡ parts (later_body separators 0 text.now) }
    ensures bytes { (p : ℕ → Bool) → list_any p text.now ≡ false → list_any p result.now ≡ false }
    ensures short { length result.now ≤ length text.now }
{
    match text {
        [before @ .., last] if separators.contains(*last) && !before.is_empty() => before,
        _ => text,
    }
}

/// Whether `text` has more than 64 bytes and neither `/` nor `\` is in the first 64. Only picks the
/// cheaper of two ways to one result: to look at all bytes would cost more than to read the name.
#[inline(always)]
pub fn begins_with_long_name(text: &[u8]) -> bool {
    64 < text.len() && marks_at::<64>(text, 0, (b'/', b'\\')) == 0
}

/// Whether no separator is in the first 32 bytes of `text`, or in all of it if it has 16 to 31
/// bytes, so that no two names are side by side there. Only picks the cheaper of two ways to one
/// result.
#[inline(always)]
pub fn has_long_front(text: &[u8], separators: Separators) -> bool {
    let pair = separators.pair();
    if text.len() < 32 {
        return 16 <= text.len()
            && marks_at::<16>(text, 0, pair) == 0
            && marks_at::<16>(text, text.len() - 16, pair) == 0;
    }
    marks_at::<32>(text, 0, pair) == 0
}
