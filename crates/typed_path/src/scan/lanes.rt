//! Searches by blocks of 64, 32, 16, 8 and 4 bytes: for a byte of a pair; for bytes that no Windows
//! name may have, control bytes, NUL, and two dots side by side; and for the first difference of
//! two slices. A pair is one byte twice if only one is searched for.
//!
//! A mask has a bit for each byte of a block, the lowest for the first.

ghost use Rattle.std.specs.Prelude.{◌≡◌, ◌≢◌, ◌≤◌, ◌<◌, ◌+◌, ◌-◌, ◌%◌, ◌^◌, ◌==◌, ℕ, Bool, true, false, length, map, take, drop, slice_index, nat_lt, min, if◌then◌else◌};
ghost use Rattle.std.specs.Int.{bit_at};
ghost use Rattle.std.specs.Char.{to_ascii_lowercase};
ghost use Rattle.std.specs.Str.{str_to_ascii_lowercase};
ghost use Rattle.std.specs.List.{list_any};
ghost use Rattle.std.specs.Slice.Scan.{HoldsNowhere, IsFirstPlace};
ghost use Rattle.typed_path.specs.changes.{is_forbidden, is_forbidden_or, forbidden_at, is_letter_of, is_nul_or_dot_pair, nul_or_dot_pair_at, has_no_nul_or_dot_pair};
ghost use Rattle.typed_path.specs.queries.{control_at, is_control};
ghost use Rattle.typed_path.specs.scan.{IsMask, TellsWhether, is_one_of, stands_at, differs_at, differs_in, IsFirstOf, IsBehindLastOf, PartAt};

use std::simd::prelude::*;

/// Returns the mask of the bytes in `text[at..at + N]` that equal `byte`, bit `i` for `at + i`.
#[inline(always)]
pub fn marks_of<const N: usize>(text: &[u8], at: usize, byte: u8) -> u64
    requires lanes { (0 < N) × (N ≤ 64) }
    requires in_range { at + N ≤ length text.now }
    ensures { IsMask (λ k. slice_index text.now (at + k) == byte) N result }
{
    Simd::<u8, N>::from_slice(&text[at..])
        .simd_eq(Simd::splat(byte))
        .to_bitmask()
}

/// Returns the mask of the bytes in `text[at..at + N]` that are in `pair`, bit `i` for `at + i`.
#[inline(always)]
pub fn marks_at<const N: usize>(text: &[u8], at: usize, pair: (u8, u8)) -> u64
    requires lanes { (0 < N) × (N ≤ 64) }
    requires in_range { at + N ≤ length text.now }
    ensures { IsMask (λ k. stands_at pair text.now (at + k)) N result }
{
    marks_of::<N>(text, at, pair.0) | marks_of::<N>(text, at, pair.1)
}

/// Whether `byte` is in `pair`.
#[inline(always)]
pub fn is_one_of(pair: (u8, u8), byte: u8) -> bool
    ensures { result ≡ is_one_of pair byte }
{
    byte == pair.0 || byte == pair.1
}

/// Returns the index of the lowest set bit of `mask`, which is not 0.
#[inline(always)]
pub fn lowest(mask: u64) -> usize
    requires { mask ≢ 0 }
    ensures within { result < 64 }
    ensures set { bit_at mask result ≡ 1 }
    ensures below { (k : ℕ) → k < result → bit_at mask k ≡ 0 }
{
    mask.trailing_zeros() as usize
}

/// Returns the index of the highest set bit of `mask`, which is not 0.
#[inline(always)]
#[tactic(auto, using(crate::proofs::lemmas::scan::Searches::highest_is_set, crate::proofs::lemmas::scan::Searches::clear_above))]
fn highest(mask: u64) -> usize
    requires { mask ≢ 0 }
    ensures within { result < 64 }
    ensures set { bit_at mask result ≡ 1 }
    ensures above { (k : ℕ) → result < k → bit_at mask k ≡ 0 }
{
    mask.ilog2() as usize
}

/// Returns the index of the first byte in `text[from..to]` in `pair`, or else `to`, byte by byte.
#[inline(always)]
fn first_by_one(text: &[u8], from: usize, to: usize, pair: (u8, u8)) -> usize
    requires ordered { from ≤ to }
    requires in_range { to ≤ length text.now }
    ensures { IsFirstOf pair text.now from to result }
{
    let mut at = from;
    while at < to && !is_one_of(pair, text[at]) {
        at += 1;
    }
    at
}

/// Returns the index just after the last byte in `text[from..to]` that is in `pair`, or `from` if
/// none is, byte by byte.
#[inline(always)]
fn last_by_one(text: &[u8], from: usize, to: usize, pair: (u8, u8)) -> usize
    requires ordered { from ≤ to }
    requires in_range { to ≤ length text.now }
    ensures { IsBehindLastOf pair text.now from to result }
{
    let mut at = to;
    while from < at && !is_one_of(pair, text[at - 1]) {
        at -= 1;
    }
    at
}

/// Returns the index in the text of the lowest bit set in `marks`, or `at + N` if none is set.
///
/// `marks` is the mask of the block of N bytes at `at`.
#[inline(always)]
pub fn first_marked<const N: usize>(marks: u64, at: usize) -> usize
    requires in_range { at + N < 2 ^ 64 }
    requires beyond { (k : ℕ) → N ≤ k → bit_at marks k ≡ 0 }
    ensures { (holds : ℕ → Bool) → IsMask (λ k. holds (at + k)) N marks
        → IsFirstPlace holds at (at + N) result }
{
    if marks == 0 {
        return at + N;
    }
    at + lowest(marks)
}

/// Returns the index of the first byte in `text[at..at + N]` that is in `pair`, or else `at + N`.
#[inline(always)]
fn first_in_block<const N: usize>(text: &[u8], at: usize, pair: (u8, u8)) -> usize
    requires lanes { (0 < N) × (N ≤ 64) }
    requires in_range { at + N ≤ length text.now }
    ensures { IsFirstOf pair text.now at (at + N) result }
{
    first_marked::<N>(marks_at::<N>(text, at, pair), at)
}

/// Returns the index after the last byte in `text[at..at + N]` that is in `pair`, or else `at`.
#[inline(always)]
fn last_in_block<const N: usize>(text: &[u8], at: usize, pair: (u8, u8)) -> usize
    requires lanes { (0 < N) × (N ≤ 64) }
    requires in_range { at + N ≤ length text.now }
    ensures { IsBehindLastOf pair text.now at (at + N) result }
{
    let marks = marks_at::<N>(text, at, pair);
    if marks == 0 {
        return at;
    }
    at + highest(marks) + 1
}

/// Returns the index of the first byte in `text[from..to]` that is in `pair`, or `to` if none is.
/// The range has at most N bytes, and `to` is at least N.
#[inline(always)]
fn first_in_last_block<const N: usize>(text: &[u8], from: usize, to: usize, pair: (u8, u8)) -> usize
    requires lanes { (0 < N) × (N < 64) }
    requires ordered { from ≤ to }
    requires near { to ≤ from + N }
    requires room { N ≤ to }
    requires in_range { to ≤ length text.now }
    ensures { IsFirstOf pair text.now from to result }
{
    // One block of N bytes that ends at `to`; the marks before `from` are shifted out.
    let outside = N - (to - from);
    let block = marks_at::<N>(text, to - N, pair);
    let marks = block >> outside;
    if marks == 0 {
        return to;
    }
    from + lowest(marks)
}

/// Returns the index of the first byte in `text[from..to]` that is in `pair`, or `to` if none is,
/// by at most two blocks of N bytes. `to` is in `N..=2 * N`.
#[inline(always)]
fn first_by_blocks<const N: usize>(text: &[u8], from: usize, to: usize, pair: (u8, u8)) -> usize
    requires lanes { (0 < N) × (N < 64) }
    requires ordered { from ≤ to }
    requires room { (N ≤ to) × (to ≤ N + N) }
    requires in_range { to ≤ length text.now }
    ensures { IsFirstOf pair text.now from to result }
{
    if to - from < N {
        return first_in_last_block::<N>(text, from, to, pair);
    }
    let found = first_in_block::<N>(text, from, pair);
    if found < from + N {
        return found;
    }
    first_in_last_block::<N>(text, found, to, pair)
}

/// Returns the index of the first byte in `text[from..to]` that is in `pair`, or `to` if none is.
#[inline(always)]
pub fn first_between(text: &[u8], from: usize, to: usize, pair: (u8, u8)) -> usize
    requires ordered { from ≤ to }
    requires in_range { to ≤ length text.now }
    ensures { IsFirstOf pair text.now from to result }
{
    let mut at = from;
    while 32 <= to - at {
        let found = first_in_block::<32>(text, at, pair);
        if found < at + 32 {
            return found;
        }
        at += 32;
    }
    // This block may read past `to`.
    if 32 <= text.len() - at {
        return first_in_block::<32>(text, at, pair).min(to);
    }
    if 32 <= to {
        return first_in_last_block::<32>(text, at, to, pair);
    }
    if 16 <= to {
        return first_by_blocks::<16>(text, at, to, pair);
    }
    if 8 <= to {
        return first_by_blocks::<8>(text, at, to, pair);
    }
    if 4 <= to {
        return first_by_blocks::<4>(text, at, to, pair);
    }
    first_by_one(text, at, to, pair)
}

/// Returns the index just after the last byte in `text[from..to]` that is in `pair`, or `from` if
/// none is, by one block of N bytes and then byte by byte.
#[inline(always)]
fn last_by_block<const N: usize>(text: &[u8], from: usize, to: usize, pair: (u8, u8)) -> usize
    requires lanes { (0 < N) × (N ≤ 64) }
    requires ordered { from ≤ to }
    requires in_range { to ≤ length text.now }
    ensures { IsBehindLastOf pair text.now from to result }
{
    if to - from < N {
        return last_by_one(text, from, to, pair);
    }
    let found = last_in_block::<N>(text, to - N, pair);
    if to - N < found {
        return found;
    }
    last_by_one(text, from, found, pair)
}

/// Returns the index after the last byte in `text[from..to]` that is in `pair`, or else `from`.
#[inline(always)]
pub fn last_between(text: &[u8], from: usize, to: usize, pair: (u8, u8)) -> usize
    requires ordered { from ≤ to }
    requires in_range { to ≤ length text.now }
    ensures { IsBehindLastOf pair text.now from to result }
{
    let mut at = to;
    while 32 <= at - from {
        let found = last_in_block::<32>(text, at - 32, pair);
        if at - 32 < found {
            return found;
        }
        at -= 32;
    }
    if at - from < 16 {
        return last_by_block::<8>(text, from, at, pair);
    }
    let found = last_in_block::<16>(text, at - 16, pair);
    if at - 16 < found {
        return found;
    }
    last_by_block::<8>(text, from, at - 16, pair)
}

/// Returns the block in ASCII lower case.
#[inline(always)]
fn in_lower_case<const N: usize>(block: Simd<u8, N>) -> Simd<u8, N>
    ensures { result ≡ str_to_ascii_lowercase block.entry }
{
    let capitals = block.simd_ge(Simd::splat(b'A')) & block.simd_le(Simd::splat(b'Z'));
    capitals.select(block + Simd::splat(32), block)
}

/// Returns the mask of where `text` and `other` differ in `at..at + N`, both in ASCII lower case.
#[inline]
fn lowered_differences_at<const N: usize>(text: &[u8], other: &[u8], at: usize) -> u64
    requires lanes { (0 < N) × (N ≤ 64) }
    requires in_text { at + N ≤ length text.now }
    requires in_other { at + N ≤ length other.now }
    ensures mask { IsMask (λ k. differs_at (str_to_ascii_lowercase text.now)
        (str_to_ascii_lowercase other.now) (at + k)) N result }
    ensures fits { result < 2 ^ 64 }
{
    // A call of its own, so that what compares without lower case stays small enough to be inlined.
    let own = in_lower_case::<N>(Simd::from_slice(&text[at..]));
    let others = in_lower_case::<N>(Simd::from_slice(&other[at..]));
    own.simd_ne(others).to_bitmask()
}

/// Returns the mask of where `text` and `other` differ in `at..at + N`; in lower case if `LOWER`.
#[inline(always)]
fn differences_at<const N: usize, const LOWER: bool>(text: &[u8], other: &[u8], at: usize) -> u64
    requires lanes { (0 < N) × (N ≤ 64) }
    requires in_text { at + N ≤ length text.now }
    requires in_other { at + N ≤ length other.now }
    ensures mask { IsMask (λ k. differs_in LOWER text.now other.now (at + k)) N result }
    ensures fits { result < 2 ^ 64 }
{
    if LOWER {
        return lowered_differences_at::<N>(text, other, at);
    }
    Simd::<u8, N>::from_slice(&text[at..])
        .simd_ne(Simd::from_slice(&other[at..]))
        .to_bitmask()
}

/// Whether `text` and `other` differ in `at..at + N`; in ASCII lower case if `LOWER`.
#[inline(always)]
fn differs_in_block<const N: usize, const LOWER: bool>(text: &[u8], other: &[u8], at: usize) -> bool
    requires lanes { (0 < N) × (N ≤ 64) }
    requires in_text { at + N ≤ length text.now }
    requires in_other { at + N ≤ length other.now }
    ensures { TellsWhether (differs_in LOWER text.now other.now) at (at + N) result }
{
    differences_at::<N, LOWER>(text, other, at) != 0
}

/// Returns the first difference in `at..at + N`, or else `at + N`; in lower case if `LOWER`.
#[inline(always)]
fn first_difference_in_block<const N: usize, const LOWER: bool>(
    text: &[u8],
    other: &[u8],
    at: usize,
) -> usize
    requires lanes { (0 < N) × (N ≤ 64) }
    requires in_text { at + N ≤ length text.now }
    requires in_other { at + N ≤ length other.now }
    ensures { IsFirstPlace (differs_in LOWER text.now other.now) at (at + N) result }
{
    first_marked::<N>(differences_at::<N, LOWER>(text, other, at), at)
}

/// Returns the first difference in `..to`, or else `to`; in lower case if `LOWER`. `..from` is
/// known to be equal, and only the last N bytes before `to` are compared.
#[inline(always)]
fn first_difference_in_last_block<const N: usize, const LOWER: bool>(
    text: &[u8],
    other: &[u8],
    from: usize,
    to: usize,
) -> usize
    requires lanes { (0 < N) × (N ≤ 64) }
    requires room { (N ≤ to) × (to ≤ from + N) }
    requires in_text { to ≤ length text.now }
    requires in_other { to ≤ length other.now }
    requires alike { HoldsNowhere (differs_in LOWER text.now other.now) 0 from }
    ensures { IsFirstPlace (differs_in LOWER text.now other.now) 0 to result }
{
    first_difference_in_block::<N, LOWER>(text, other, to - N)
}

/// Returns the index of the first difference in `..to`, or `to` if there is none, by two blocks of
/// N bytes; in ASCII lower case if `LOWER`. `to` is in `N..=2 * N`.
#[inline(always)]
fn first_difference_in_two<const N: usize, const LOWER: bool>(
    text: &[u8],
    other: &[u8],
    to: usize,
) -> usize
    requires lanes { (0 < N) × (N ≤ 64) }
    requires room { (N ≤ to) × (to ≤ N + N) }
    requires in_text { to ≤ length text.now }
    requires in_other { to ≤ length other.now }
    ensures { IsFirstPlace (differs_in LOWER text.now other.now) 0 to result }
{
    let found = first_difference_in_block::<N, LOWER>(text, other, 0);
    if found < N {
        return found;
    }
    first_difference_in_last_block::<N, LOWER>(text, other, N, to)
}

/// Whether two bytes are equal; in ASCII lower case if `LOWER`.
#[inline(always)]
fn is_same_byte<const LOWER: bool>(byte: u8, other: u8) -> bool
    ensures { result ≡ (if LOWER then to_ascii_lowercase byte == to_ascii_lowercase other else byte == other) }
{
    if LOWER {
        byte.to_ascii_lowercase() == other.to_ascii_lowercase()
    } else {
        byte == other
    }
}

/// Returns the first difference in `..to`, or else `to`, byte by byte; in lower case if `LOWER`.
#[inline(always)]
fn first_difference_by_one<const LOWER: bool>(text: &[u8], other: &[u8], to: usize) -> usize
    requires in_text { to ≤ length text.now }
    requires in_other { to ≤ length other.now }
    ensures { IsFirstPlace (differs_in LOWER text.now other.now) 0 to result }
{
    let mut at = 0;
    while at < to && is_same_byte::<LOWER>(text[at], other[at]) {
        at += 1;
    }
    at
}

/// Returns the first difference, or else the length of the shorter slice; in lower case if `LOWER`.
#[inline(always)]
fn first_place_of_difference<const LOWER: bool>(text: &[u8], other: &[u8]) -> usize
    ensures { IsFirstPlace (differs_in LOWER text.now other.now) 0 (min (length text.now) (length other.now)) result }
{
    let len = text.len().min(other.len());
    let mut at = 0;
    // By blocks of 64, while two of them are left and the first is equal.
    'pairs: while 128 <= len - at && !differs_in_block::<64, LOWER>(text, other, at) {
        at += 64;
    }
    'wholes: while 32 <= len - at {
        let found = first_difference_in_block::<32, LOWER>(text, other, at);
        if found < at + 32 {
            return found;
        }
        at += 32;
    }
    if 32 <= len {
        return first_difference_in_last_block::<32, LOWER>(text, other, at, len);
    }
    if 16 <= len {
        return first_difference_in_two::<16, LOWER>(text, other, len);
    }
    if 8 <= len {
        return first_difference_in_two::<8, LOWER>(text, other, len);
    }
    if 4 <= len {
        return first_difference_in_two::<4, LOWER>(text, other, len);
    }
    first_difference_by_one::<LOWER>(text, other, len)
}

/// Returns the index of the first difference, or the length of the shorter slice if it has none.
#[inline(always)]
pub fn first_difference(text: &[u8], other: &[u8]) -> usize
    ensures { PartAt text.now other.now result }
{
    first_place_of_difference::<false>(text, other)
}

/// Returns the index of the first difference in lower case, or the length of the shorter slice.
pub fn first_difference_in_lower_case(text: &[u8], other: &[u8]) -> usize
    ensures { PartAt (str_to_ascii_lowercase text.now) (str_to_ascii_lowercase other.now) result }
{
    first_place_of_difference::<true>(text, other)
}

/// Whether `text` does not begin with `beginning`. The length of `beginning` is in `N..=2 * N`, and
/// not more than that of `text`.
#[inline(always)]
pub fn begins_otherwise<const N: usize>(beginning: &[u8], text: &[u8]) -> bool
    requires lanes { (0 < N) × (N ≤ 64) }
    requires size { (N ≤ length beginning.now) × (length beginning.now ≤ N + N) }
    requires room { length beginning.now ≤ length text.now }
    ensures { TellsWhether (differs_at beginning.now text.now) 0 (length beginning.now) result }
{
    // The first N and the last N bytes are all of it. Both are compared, so that one branch tells.
    let last = beginning.len() - N;
    differs_in_block::<N, false>(beginning, text, 0)
        | differs_in_block::<N, false>(beginning, text, last)
}

/// Returns the mask of the bytes in `text[at..at + N]` that are NUL, in `:?*"><|`, or in `pair`.
#[inline(always)]
fn forbidden_at<const N: usize>(text: &[u8], at: usize, pair: (u8, u8)) -> u64
    requires lanes { (0 < N) × (N ≤ 64) }
    requires in_range { at + N ≤ length text.now }
    ensures { IsMask (λ k. forbidden_at pair text.now (at + k)) N result }
{
    let block = Simd::<u8, N>::from_slice(&text[at..]);
    (block.simd_eq(Simd::splat(b':'))
        | block.simd_eq(Simd::splat(b'?'))
        | block.simd_eq(Simd::splat(b'*'))
        | block.simd_eq(Simd::splat(b'"'))
        | block.simd_eq(Simd::splat(b'>'))
        | block.simd_eq(Simd::splat(b'<'))
        | block.simd_eq(Simd::splat(b'|'))
        | block.simd_eq(Simd::splat(b'\0'))
        | (block.simd_eq(Simd::splat(pair.0)) | block.simd_eq(Simd::splat(pair.1)))).to_bitmask()
}

/// The forbidden bytes, as [`is_forbidden`] tells, each at the index of its low four bits. The 16
/// entries stand twice, once for each half of a block. Other entries hold a byte with other low
/// bits, which matches nothing.
const FORBIDDEN: [u8; 32] = [
    b'\0', 0, b'"', 0, 0, 0, 0, 0, 0, 0, b':', 0, b'<', 0, b'>', b'?', b'\0', 0, b'"', 0, 0, 0, 0,
    0, 0, 0, b':', 0, b'<', 0, b'>', b'?',
];

/// The forbidden bytes whose entry in [`FORBIDDEN`] is taken by another one.
const ALSO_FORBIDDEN: [u8; 32] = [
    1, 0, 0, 0, 0, 0, 0, 0, 0, 0, b'*', 0, b'|', 0, 0, 0, 1, 0, 0, 0, 0, 0, 0, 0, 0, 0, b'*', 0,
    b'|', 0, 0, 0,
];

/// Returns for each byte of `block` the entry of `table`, whose 16 stand twice, at its low 4 bits.
#[inline(always)]
fn at_low_bits(table: u8x32, block: u8x32) -> u8x32
    requires twice { drop 16 table ≡ take 16 table }
    ensures { result ≡ map (λ b. slice_index table (b % 16)) block }
{
    table.swizzle_dyn_within::<16>(block & u8x32::splat(15))
}

/// Returns the mask of the bytes in `text[at..at + 32]` that are NUL, in `:?*"><|`, or in `pair`.
#[inline(always)]
fn forbidden_in_32_at(text: &[u8], at: usize, pair: (u8, u8)) -> u64
    requires { at + 32 ≤ length text.now }
    ensures { IsMask (λ k. forbidden_at pair text.now (at + k)) 32 result }
{
    // Each byte is compared with its entry of two tables, and not with each forbidden byte.
    let block = u8x32::from_slice(&text[at..]);
    (at_low_bits(u8x32::from_array(FORBIDDEN), block).simd_eq(block)
        | at_low_bits(u8x32::from_array(ALSO_FORBIDDEN), block).simd_eq(block)
        | (block.simd_eq(Simd::splat(pair.0)) | block.simd_eq(Simd::splat(pair.1)))).to_bitmask()
}

/// Returns the mask of the letters in `text[at..at + 32]`, in either case, that `table` holds as
/// capitals at the index of their low four bits. The 16 entries of `table` stand twice.
#[inline(always)]
pub fn letters_at(text: &[u8], at: usize, table: u8x32) -> u64
    requires in_range { at + 32 ≤ length text.now }
    requires twice { drop 16 table ≡ take 16 table }
    ensures { IsMask (λ k. is_letter_of table (slice_index text.now (at + k))) 32 result }
{
    let block = u8x32::from_slice(&text[at..]);
    at_low_bits(table, block)
        .simd_eq(block & u8x32::splat(CAPITAL))
        .to_bitmask()
}

/// All bits of a byte but the one in which a lower-case letter differs from its capital.
const CAPITAL: u8 = 0xDF;

/// Whether a byte in `text[at..at + 32]` is NUL, one of `:?*"><|`, or in `pair`.
#[inline(always)]
pub fn is_forbidden_in_32(text: &[u8], at: usize, pair: (u8, u8)) -> bool
    requires { at + 32 ≤ length text.now }
    ensures { TellsWhether (forbidden_at pair text.now) at (at + 32) result }
{
    forbidden_in_32_at(text, at, pair) != 0
}

/// Whether a byte in `text[at..at + N]` is NUL, one of `:?*"><|`, or in `pair`.
#[inline(always)]
fn is_forbidden_in_block<const N: usize>(text: &[u8], at: usize, pair: (u8, u8)) -> bool
    requires lanes { (0 < N) × (N ≤ 64) }
    requires in_range { at + N ≤ length text.now }
    ensures { TellsWhether (forbidden_at pair text.now) at (at + N) result }
{
    first_marked::<N>(forbidden_at::<N>(text, at, pair), at) < at + N
}

/// Whether a byte of `text` is NUL, one of `:?*"><|`, or in `pair`, by its first and its last N
/// bytes. Its length is in `N..=2 * N`.
#[inline(always)]
fn has_forbidden_in_two<const N: usize>(text: &[u8], pair: (u8, u8)) -> bool
    requires lanes { (0 < N) × (N ≤ 64) }
    requires size { (N ≤ length text.now) × (length text.now ≤ N + N) }
    ensures { result ≡ list_any (is_forbidden_or pair) text.now }
{
    is_forbidden_in_block::<N>(text, 0, pair)
        || is_forbidden_in_block::<N>(text, text.len() - N, pair)
}

/// Whether a byte of `text` is NUL, one of `:?*"><|`, or in `pair`, byte by byte.
#[inline(always)]
fn has_forbidden_by_one(text: &[u8], pair: (u8, u8)) -> bool
    ensures { result ≡ list_any (is_forbidden_or pair) text.now }
{
    let mut forbidden = false;
    'bytes: for byte in text {
        forbidden |= is_forbidden(*byte) || is_one_of(pair, *byte);
    }
    forbidden
}

/// Whether `byte` is NUL or in `:?*"><|`: no Windows name may have it, and it never separates.
#[inline(always)]
fn is_forbidden(byte: u8) -> bool
    ensures { result ≡ is_forbidden byte }
{
    (byte == b':')
        | (byte == b'?')
        | (byte == b'*')
        | (byte == b'"')
        | (byte == b'>')
        | (byte == b'<')
        | (byte == b'|')
        | (byte == 0)
}

/// Whether a byte of `text` is NUL, one of `:?*"><|`, or in `pair`.
#[inline(always)]
pub fn has_forbidden(text: &[u8], pair: (u8, u8)) -> bool
    ensures { result ≡ list_any (is_forbidden_or pair) text.now }
{
    let len = text.len();
    let mut at = 0;
    while 32 <= len - at {
        if is_forbidden_in_32(text, at, pair) {
            return true;
        }
        at += 32;
    }
    if 32 <= len {
        return is_forbidden_in_32(text, len - 32, pair);
    }
    if 16 <= len {
        return has_forbidden_in_two::<16>(text, pair);
    }
    if 8 <= len {
        return has_forbidden_in_two::<8>(text, pair);
    }
    if 4 <= len {
        return has_forbidden_in_two::<4>(text, pair);
    }
    has_forbidden_by_one(text, pair)
}

/// Returns the mask of the bytes in `text[at..at + N]` that are less than `byte`.
#[inline(always)]
fn marks_below<const N: usize>(text: &[u8], at: usize, byte: u8) -> u64
    requires lanes { (0 < N) × (N ≤ 64) }
    requires in_range { at + N ≤ length text.now }
    ensures { IsMask (λ k. nat_lt (slice_index text.now (at + k)) byte) N result }
{
    Simd::<u8, N>::from_slice(&text[at..])
        .simd_lt(Simd::splat(byte))
        .to_bitmask()
}

/// Returns the mask of the control bytes in `text[at..at + N]`: those in `0..32`, and 127.
#[inline(always)]
fn controls_at<const N: usize>(text: &[u8], at: usize) -> u64
    requires lanes { (0 < N) × (N ≤ 64) }
    requires in_range { at + N ≤ length text.now }
    ensures { IsMask (λ k. control_at text.now (at + k)) N result }
{
    marks_below::<N>(text, at, b' ') | marks_of::<N>(text, at, DELETE)
}

/// The last control byte of ASCII, which comes after all other bytes of ASCII.
const DELETE: u8 = 127;

/// Whether `text[at..at + N]` has a control byte, in `0..32` or 127.
#[inline(always)]
fn has_control_in_block<const N: usize>(text: &[u8], at: usize) -> bool
    requires lanes { (0 < N) × (N ≤ 64) }
    requires in_range { at + N ≤ length text.now }
    ensures { TellsWhether (control_at text.now) at (at + N) result }
{
    controls_at::<N>(text, at) != 0
}

/// Whether `text`, of `N..=2 * N` bytes, has a control byte, in `0..32` or 127.
#[inline(always)]
fn has_control_in_two<const N: usize>(text: &[u8]) -> bool
    requires lanes { (0 < N) × (N ≤ 64) }
    requires size { (N ≤ length text.now) × (length text.now ≤ N + N) }
    ensures { result ≡ list_any is_control text.now }
{
    has_control_in_block::<N>(text, 0) || has_control_in_block::<N>(text, text.len() - N)
}

/// Whether `text` has a control byte, in `0..32` or 127, byte by byte.
#[inline(always)]
fn has_control_by_one(text: &[u8]) -> bool
    ensures { result ≡ list_any is_control text.now }
{
    let mut found = false;
    'bytes: for byte in text {
        found |= is_control(*byte);
    }
    found
}

/// Whether `byte` is a control byte of ASCII: in `0..32` or 127.
#[inline(always)]
fn is_control(byte: u8) -> bool
    ensures { result ≡ is_control byte }
{
    (byte < b' ') | (byte == DELETE)
}

/// Whether `text` has a control byte of ASCII: in `0..32` or 127.
#[inline(always)]
pub fn has_control(text: &[u8]) -> bool
    ensures { result ≡ list_any is_control text.now }
{
    let len = text.len();
    let mut at = 0;
    while 32 <= len - at {
        if has_control_in_block::<32>(text, at) {
            return true;
        }
        at += 32;
    }
    if 32 <= len {
        return has_control_in_block::<32>(text, len - 32);
    }
    if 16 <= len {
        return has_control_in_two::<16>(text);
    }
    if 8 <= len {
        return has_control_in_two::<8>(text);
    }
    if 4 <= len {
        return has_control_in_two::<4>(text);
    }
    has_control_by_one(text)
}

/// Returns the mask of the bytes in `text[at..at + N]` that are NUL, or a dot with a dot after it.
///
/// Reads one byte past the block.
#[inline(always)]
fn nul_or_dot_pair_at<const N: usize>(text: &[u8], at: usize) -> u64
    requires lanes { (0 < N) × (N ≤ 64) }
    requires in_range { at + N + 1 ≤ length text.now }
    ensures { IsMask (λ k. nul_or_dot_pair_at text.now (at + k)) N result }
{
    marks_of::<N>(text, at, b'\0')
        | (marks_of::<N>(text, at, b'.') & marks_of::<N>(text, at + 1, b'.'))
}

/// Whether `text[at..at + N]` has NUL, or a dot with a dot after it. Reads one byte past the block.
#[inline(always)]
fn has_nul_or_dot_pair_in_block<const N: usize>(text: &[u8], at: usize) -> bool
    requires lanes { (0 < N) × (N ≤ 64) }
    requires in_range { at + N + 1 ≤ length text.now }
    ensures { TellsWhether (nul_or_dot_pair_at text.now) at (at + N) result }
{
    nul_or_dot_pair_at::<N>(text, at) != 0
}

/// Whether `text[..to]` has NUL, or a dot with a dot after it. `to` is in `N..=2 * N`.
#[inline(always)]
fn has_nul_or_dot_pair_in_two<const N: usize>(text: &[u8], to: usize) -> bool
    requires lanes { (0 < N) × (N ≤ 64) }
    requires size { (N ≤ to) × (to ≤ N + N) }
    requires in_range { to < length text.now }
    ensures { TellsWhether (nul_or_dot_pair_at text.now) 0 to result }
{
    has_nul_or_dot_pair_in_block::<N>(text, 0) | has_nul_or_dot_pair_in_block::<N>(text, to - N)
}

/// Whether `text[..to]` has NUL, or a dot with a dot after it, byte by byte.
#[inline(always)]
fn has_nul_or_dot_pair_by_one(text: &[u8], to: usize) -> bool
    requires { to < length text.now }
    ensures { TellsWhether (nul_or_dot_pair_at text.now) 0 to result }
{
    let mut at = 0;
    while at < to && !is_nul_or_dot_pair(text[at], text[at + 1]) {
        at += 1;
    }
    at < to
}

/// Whether `first` is NUL, or both bytes are dots.
#[inline(always)]
fn is_nul_or_dot_pair(first: u8, second: u8) -> bool
    ensures { result ≡ is_nul_or_dot_pair first second }
{
    first == b'\0' || (first == b'.' && second == b'.')
}

/// Whether `text[..to]` has NUL, or a dot with a dot after it. `text` goes on after `to`.
#[inline(always)]
fn has_nul_or_dot_pair_before(text: &[u8], to: usize) -> bool
    requires { to < length text.now }
    ensures { TellsWhether (nul_or_dot_pair_at text.now) 0 to result }
{
    let mut at = 0;
    while 32 <= to - at {
        if has_nul_or_dot_pair_in_block::<32>(text, at) {
            return true;
        }
        at += 32;
    }
    if 32 <= to {
        return has_nul_or_dot_pair_in_block::<32>(text, to - 32);
    }
    if 16 <= to {
        return has_nul_or_dot_pair_in_two::<16>(text, to);
    }
    if 8 <= to {
        return has_nul_or_dot_pair_in_two::<8>(text, to);
    }
    if 4 <= to {
        return has_nul_or_dot_pair_in_two::<4>(text, to);
    }
    has_nul_or_dot_pair_by_one(text, to)
}

/// Whether `text` has neither NUL nor two dots side by side. Every component of a Unix path that
/// has neither, and no root, is accepted by a checked push.
pub fn has_no_nul_or_dot_pair(text: &[u8]) -> bool
    ensures { result ≡ has_no_nul_or_dot_pair text.now }
{
    match text {
        [] => true,
        [.., last] => *last != b'\0' && !has_nul_or_dot_pair_before(text, text.len() - 1),
    }
}
