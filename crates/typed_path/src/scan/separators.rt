//! The separators of a path, searches for them, and which names may stand between them.

ghost use Rattle.std.specs.Prelude.{◌≡◌, ◌≤◌, ◌<◌, ◌+◌, ◌-◌, ◌*◌, ◌^◌, ◌==◌, ◌||◌, ◌&&◌, ◌∷◌, [], ℕ, not, length, true, take, drop, slice_range, slice_index, false, IsTrue, IsFalse, IfSome, MatchOption};
ghost use Rattle.std.specs.Int.{bit_at};
ghost use Rattle.std.specs.List.{position_or_len, list_any, before_first, IsAfterLastMatch, slice_split};
ghost use Rattle.std.specs.Char.{to_ascii_lowercase};
ghost use Rattle.typed_path.specs.scan.{TellsWhether, is_one_of};
ghost use Rattle.typed_path.specs.components.{windows, backslash, separators, is_separator, is_verbatim, root_text, dialect_of, body, kinds, parts};
ghost use Rattle.typed_path.specs.queries.{has_allowed_bytes, is_reserved, is_valid_name, is_valid, strays_on_windows};
ghost use Rattle.std.specs.Slice.Scan.{HoldsNowhere};
ghost use Rattle.typed_path.specs.changes.{AreMayBegins, BeginsNone, TellsBegins, SeparatesDisallowed, is_stray, is_bare_device, is_numbered_device, is_device, is_forbidden_or, has_stray_of, stray_of_at, dot_pair_at, has_dot_pair, begins_like_device, begins_with_device, is_in, ends_stem, may_end_stem, has_device, has_device_behind};

use crate::scan::lanes::{
    first_between, has_forbidden, has_no_nul_or_dot_pair, is_forbidden_in_32, is_one_of,
    last_between, letters_at, lowest, marks_at,
};
use memchr::memchr;
use std::simd::prelude::*;

/// The separators of a path, which also decide how it is read.
#[derive(Clone, Copy, Debug)]
pub enum Separators {
    /// Only `/`: a Unix path.
    Slash,
    /// Only `\`: a Windows path that begins with exactly `\\?\`, which is read verbatim.
    Backslash,
    /// `/` and `\`: every other Windows path.
    Either,
}

impl Separators {
    /// Returns the separators of a Windows path: `\` alone if it begins with just `\\?\`, else `/`
    /// and `\`, as for `//?/C:/a`.
    #[inline]
    pub fn of_windows(text: &[u8]) -> Separators
        ensures { result ≡ separators windows text.now }
    {
        if text.starts_with(br"\\?\") {
            Separators::Backslash
        } else {
            Separators::Either
        }
    }

    /// Returns the separators as a pair of bytes. A single one is both, so that all sets are
    /// searched for alike.
    #[inline(always)]
    pub fn pair(self) -> (u8, u8)
        ensures { (b : ℕ) → is_separator self b ≡ is_one_of result b }
    {
        match self {
            Separators::Slash => (b'/', b'/'),
            Separators::Backslash => (b'\\', b'\\'),
            Separators::Either => (b'/', b'\\'),
        }
    }

    /// Whether `byte` separates components.
    #[inline(always)]
    pub fn contains(self, byte: u8) -> bool
        ensures { result ≡ is_separator self byte }
    {
        is_one_of(self.pair(), byte)
    }

    /// Whether both are the same set.
    #[inline(always)]
    pub fn is_same(self, other: Separators) -> bool
        ensures { IsTrue result → self ≡ other }
    {
        matches!(
            (self, other),
            (Separators::Slash, Separators::Slash)
                | (Separators::Backslash, Separators::Backslash)
                | (Separators::Either, Separators::Either)
        )
    }

    /// Whether the path is read verbatim, so that `.` is a component wherever it is.
    #[inline(always)]
    pub fn is_verbatim(self) -> bool
        ensures { result ≡ is_verbatim self }
    {
        matches!(self, Separators::Backslash)
    }

    /// Returns how the root is written: `/` or `\`.
    #[inline(always)]
    pub fn root_text(self) -> &'static [u8]
        ensures { result.now ≡ root_text self }
    {
        match self {
            Separators::Slash => b"/",
            Separators::Backslash | Separators::Either => b"\\",
        }
    }

    /// Whether `name` is valid in a path with these separators: it has no byte that no name may
    /// have and, on Windows, does not stand for a device, as `con.txt` does.
    #[inline]
    pub fn is_valid_name(self, name: &[u8]) -> bool
        ensures { result ≡ is_valid_name (dialect_of self) name.now }
    {
        self.has_allowed_bytes(name) && !self.is_reserved(name)
    }

    /// Whether names of a path with these separators may have all bytes of `name`: on Unix all but
    /// `/` and NUL, on Windows all but `/`, `\`, NUL and `:?*"><|`.
    #[inline(always)]
    pub fn has_allowed_bytes(self, name: &[u8]) -> bool
        ensures { result ≡ has_allowed_bytes (dialect_of self) name.now }
    {
        match self {
            Separators::Slash => is_free_of((b'/', b'\0'), name),
            Separators::Backslash | Separators::Either => !has_forbidden(name, (b'/', b'\\')),
        }
    }

    /// Whether `name` stands for a device of Windows, as `con.txt` does; `false` on Unix.
    #[inline(always)]
    #[tactic(auto, using(crate::proofs::lemmas::queries::ValidNames::devices_told))]
    pub fn is_reserved(self, name: &[u8]) -> bool
        ensures { result ≡ is_reserved (dialect_of self) name.now }
    {
        match self {
            Separators::Slash => false,
            Separators::Backslash | Separators::Either => is_device(name),
        }
    }

    /// Whether one search tells that no name in `bytes` has a byte that no name may have. `false`
    /// leaves it open.
    pub fn allows_names_of(self, bytes: &[u8]) -> bool
        ensures { IsTrue result → SeparatesDisallowed self bytes.now }
    {
        !self.has_stray(bytes)
    }

    /// Whether one of `bytes` is no separator, and a byte that no name may have: NUL; on Windows
    /// also one of `:?*"><|` and, if the path is read verbatim, `/`.
    fn has_stray(self, bytes: &[u8]) -> bool
        ensures { result ≡ list_any (is_stray self) bytes.now }
    {
        match self {
            Separators::Slash => memchr(b'\0', bytes).is_some(),
            // Here `/` is not allowed in names, and does not separate.
            Separators::Backslash => has_forbidden(bytes, (b'/', b'/')),
            // Here both slashes separate. The pair adds nothing, as `:` is forbidden anyway.
            Separators::Either => has_forbidden(bytes, (b':', b':')),
        }
    }

    /// Whether one of `bytes` is no separator of this path, and a byte that no Windows name may
    /// have, as `:`, or `\` in a Unix path.
    pub fn strays_on_windows(self, bytes: &[u8]) -> bool
        ensures { result ≡ list_any (strays_on_windows self) bytes.now }
    {
        match self {
            Separators::Slash => has_forbidden(bytes, (b'\\', b'\\')),
            Separators::Backslash | Separators::Either => self.has_stray(bytes),
        }
    }

    /// Returns the index of the first separator, or the length if there is none.
    #[inline(always)]
    pub fn first_in(self, bytes: &[u8]) -> usize
        ensures within { result ≤ length bytes.now }
        ensures first { result ≡ position_or_len (is_separator self) bytes.now }
    {
        first_between(bytes, 0, bytes.len(), self.pair())
    }

    /// Returns how many bytes of `text[from..to]` precede its first separator, or all if there is
    /// none. May read up to 32 bytes before the range, and as many after it.
    #[inline(always)]
    pub fn first_within(self, text: &[u8], from: usize, to: usize) -> usize
        requires ordered { from ≤ to }
        requires in_range { to ≤ length text.now }
        ensures within { result ≤ to - from }
        ensures first { result
            ≡ position_or_len (is_separator self) (slice_range text.now from to) }
    {
        first_between(text, from, to, self.pair()) - from
    }

    /// Returns the index just after the last separator, or 0 if there is none. Searches from the
    /// end.
    #[inline(always)]
    pub fn last_in(self, bytes: &[u8]) -> usize
        ensures within { result ≤ length bytes.now }
        ensures last { IsAfterLastMatch (is_separator self) bytes.now result }
    {
        last_between(bytes, 0, bytes.len(), self.pair())
    }
}

/// Returns the bytes before and after the first separator, or `None` if there is none.
#[inline(always)]
pub fn cut_at_separator(separators: Separators, text: &[u8]) -> Option<(&[u8], &[u8])>
    ensures pieces { MatchOption result
        (slice_split (is_separator separators) text.now ≡ text.now ∷ [])
        (λ cut. slice_split (is_separator separators) text.now
        ≡ cut.0.now ∷ slice_split (is_separator separators) cut.1.now) }
    ensures open { IfSome result
        (λ cut. slice_split (is_separator separators) cut.0.now ≡ cut.0.now ∷ []) }
    ensures sizes { IfSome result
        (λ cut. length text.now ≡ length cut.0.now + 1 + length cut.1.now) }
    ensures front { IfSome result (λ cut. take (length cut.0.now) text.now ≡ cut.0.now) }
{
    // Inlined: a call for each segment would cost more than it saves.
    let at = separators.first_in(text);
    if at < text.len() {
        return Some((&text[..at], &text[at + 1..]));
    }
    None
}

/// Whether `text` has neither byte of `pair`.
#[inline(always)]
pub fn is_free_of(pair: (u8, u8), text: &[u8]) -> bool
    ensures { result ≡ not (list_any (is_one_of pair) text.now) }
{
    first_between(text, 0, text.len(), pair) == text.len()
}

/// Whether `name` stands for a device, as `con` and `Con.txt` do: it begins with the name of one,
/// ASCII case aside, and ends there or goes on with a dot.
#[inline(always)]
fn is_device(name: &[u8]) -> bool
    ensures { result ≡ is_device name.now }
{
    // The first five bytes tell, so no list of devices is searched.
    match name {
        [a, b, c, d, e, ..] => {
            if *d == b'.' {
                is_bare_device(*a, *b, *c)
            } else {
                *e == b'.' && is_numbered_device(*a, *b, *c, *d)
            }
        }
        [a, b, c, d] => {
            if *d == b'.' {
                is_bare_device(*a, *b, *c)
            } else {
                is_numbered_device(*a, *b, *c, *d)
            }
        }
        [a, b, c] => is_bare_device(*a, *b, *c),
        _ => false,
    }
}

/// Whether three bytes are `con`, `prn`, `aux` or `nul`, ASCII case aside.
#[inline(always)]
fn is_bare_device(first: u8, second: u8, third: u8) -> bool
    ensures { result
        ≡ is_bare_device (to_ascii_lowercase first) (to_ascii_lowercase second) (to_ascii_lowercase third) }
{
    matches!(
        (
            first.to_ascii_lowercase(),
            second.to_ascii_lowercase(),
            third.to_ascii_lowercase()
        ),
        (b'c', b'o', b'n') | (b'p', b'r', b'n') | (b'a', b'u', b'x') | (b'n', b'u', b'l')
    )
}

/// Whether four bytes are `com` or `lpt` and a digit, ASCII case aside.
#[inline(always)]
fn is_numbered_device(first: u8, second: u8, third: u8, last: u8) -> bool
    ensures { result
        ≡ is_numbered_device (to_ascii_lowercase first) (to_ascii_lowercase second) (to_ascii_lowercase third) (to_ascii_lowercase last) }
{
    matches!(
        (
            first.to_ascii_lowercase(),
            second.to_ascii_lowercase(),
            third.to_ascii_lowercase()
        ),
        (b'c', b'o', b'm') | (b'l', b'p', b't')
    ) && matches!(last.to_ascii_lowercase(), b'0'..=b'9')
}

/// The length in bytes from which on devices are searched for by blocks.
const ONE_BLOCK: usize = 32;

/// Whether a segment of `text` stands for a device, as `con.txt` does; `false` on Unix.
#[inline(always)]
fn has_reserved(text: &[u8], separators: Separators) -> bool
    ensures { result ≡ list_any (is_reserved (dialect_of separators))
        (slice_split (is_separator separators) text.now) }
{
    // One search by blocks, unless the path is read verbatim or short.
    if ONE_BLOCK <= text.len() && separators.is_same(Separators::Either) {
        return has_device(text);
    }
    let mut rest = text;
    'segments: while let Some((segment, behind)) = cut_at_separator(separators, rest) {
        if separators.is_reserved(segment) {
            return true;
        }
        rest = behind;
    }
    separators.is_reserved(rest)
}

/// Whether each name of a path is valid, as [`Separators::is_valid_name`] tells. `text` is the path
/// without its prefix.
pub fn has_valid_names(text: &[u8], separators: Separators) -> bool
    ensures { (at : ℕ) → result
        ≡ is_valid (dialect_of separators) (kinds (parts (body separators at text.now))) }
{
    // One search tells of all bytes, and only Windows has devices.
    if separators.has_stray(text) {
        return false;
    }
    match separators {
        Separators::Slash => true,
        Separators::Backslash | Separators::Either => !has_reserved(text, separators),
    }
}

/// Whether a segment of `text`, split at `/` and `\`, stands for a device.
fn has_device(text: &[u8]) -> bool
    ensures { result ≡ has_device text.now }
{
    !matches!(look_for(false, None, text), Look::Clean)
}

/// Whether `text` has a byte that no Windows name may have and that is not `/`, or a segment, split
/// at `/` and `\`, that stands for a device.
pub fn has_forbidden_or_device(text: &[u8]) -> bool
    ensures { result ≡ (list_any (is_forbidden_or (backslash, backslash)) text.now
        || has_device text.now) }
{
    !matches!(look_for(false, Some((b'\\', b'\\')), text), Look::Clean)
}

/// Searches a Windows path that is not read verbatim for NUL or one of `:?*"><|`, which no name may
/// have, for two dots side by side, and for a segment that stands for a device. Stops at the first
/// block that has one.
pub fn look_at_path(path: &[u8]) -> Look
    ensures clean { result ≡ Look.Clean → (list_any (is_stray Separators.Either) path.now ≡ false)
        × (has_device path.now ≡ false) × (has_dot_pair path.now ≡ false) }
    ensures offence { (n : ℕ) → result ≡ Look.Offence n → (n ≤ length path.now)
        × ((list_any (is_stray Separators.Either) path.now || has_device path.now) ≡ true) }
    ensures whole { result ≡ Look.Offence (length path.now) → has_dot_pair path.now ≡ false }
{
    look_for(true, Some((b':', b':')), path)
}

/// What a search of a Windows path found.
#[derive(Clone, Copy, Debug)]
pub enum Look {
    /// Nothing that was searched for.
    Clean,
    /// Two dots side by side; in a text of less than 32 bytes also NUL.
    Dots,
    /// A byte or a device that was searched for, and how many bytes had been searched. If two dots
    /// are searched for too, none are side by side in these bytes.
    Offence(usize),
}

/// Returns what a search of `text` by blocks finds first, or [`Look::Clean`] if it finds nothing.
///
/// It looks for a segment, cut at `/` and `\`, that stands for a device; with `dots` for two dots
/// side by side; with `strays` for NUL, `:?*"><|` and the two bytes in `strays`. It stops at the
/// first block that has any of these.
#[inline(always)]
fn look_for(dots: bool, strays: Option<(u8, u8)>, text: &[u8]) -> Look
    ensures clean { result ≡ Look.Clean → (has_stray_of strays text.now ≡ false)
        × (has_device text.now ≡ false) × (IsTrue dots → has_dot_pair text.now ≡ false) }
    ensures dots { result ≡ Look.Dots → IsTrue dots }
    ensures offence { (n : ℕ) → result ≡ Look.Offence n → (n ≤ length text.now)
        × ((has_stray_of strays text.now || has_device text.now) ≡ true) }
    ensures whole { IsTrue dots → result ≡ Look.Offence (length text.now)
        → has_dot_pair text.now ≡ false }
{
    // Masks tell after which separators a device may begin; only these segments are read.
    let len = text.len();
    if len < ONE_BLOCK {
        return look_by_segments(dots, strays, text);
    }
    if begins_with_device(text) {
        return Look::Offence(0);
    }
    let mut at = 0;
    'wholes: while 32 < len - at {
        if dots && has_dot_pair_at(text, at) {
            return Look::Dots;
        }
        if has_stray_at(strays, text, at) {
            return Look::Offence(at + 32);
        }
        let marks = may_begins_at(text, at, 0) & LOOKED;
        if has_device_at(text, at, at + 27, marks) {
            return Look::Offence(at + 32);
        }
        at += 27;
    }
    if dots && has_dot_pair_at(text, len - 32) {
        return Look::Dots;
    }
    if has_stray_at(strays, text, len - 32) {
        return Look::Offence(len);
    }
    let outside = 32 - (len - at);
    let marks = may_begins_at(text, len - 32, ENDED);
    if has_device_at(text, at, len, marks >> outside) {
        return Look::Offence(len);
    }
    Look::Clean
}

/// Returns what [`look_for`] does, by looks at all of `text`, which is meant to be short.
///
/// With `dots` it returns [`Look::Dots`] for a NUL too.
#[inline(always)]
fn look_by_segments(dots: bool, strays: Option<(u8, u8)>, text: &[u8]) -> Look
    ensures clean { result ≡ Look.Clean → (has_stray_of strays text.now ≡ false)
        × (has_device text.now ≡ false) × (IsTrue dots → has_dot_pair text.now ≡ false) }
    ensures dots { result ≡ Look.Dots → IsTrue dots }
    ensures offence { (n : ℕ) → result ≡ Look.Offence n → (n ≤ length text.now)
        × ((has_stray_of strays text.now || has_device text.now) ≡ true) }
    ensures whole { IsTrue dots → result ≡ Look.Offence (length text.now)
        → has_dot_pair text.now ≡ false }
{
    if dots && !has_no_nul_or_dot_pair(text) {
        return Look::Dots;
    }
    if has_stray_of(strays, text) || begins_with_device(text) || has_device_behind(text) {
        return Look::Offence(text.len());
    }
    Look::Clean
}

/// Whether two dots are side by side in `text[at..at + 32]`.
#[inline(always)]
fn has_dot_pair_at(text: &[u8], at: usize) -> bool
    requires in_range { at + 32 ≤ length text.now }
    ensures { IsFalse result → HoldsNowhere (dot_pair_at text.now) at (at + 31) }
{
    let dots = marks_at::<32>(text, at, (b'.', b'.'));
    dots & (dots >> 1) != 0
}

/// Whether `text` has NUL, one of `:?*"><|`, or one of the pair in `strays`; `false` if `strays` is
/// `None`.
#[inline(always)]
fn has_stray_of(strays: Option<(u8, u8)>, text: &[u8]) -> bool
    ensures { result ≡ has_stray_of strays text.now }
{
    match strays {
        Some(pair) => has_forbidden(text, pair),
        None => false,
    }
}

/// Whether `text[at..at + 32]` has NUL, one of `:?*"><|`, or one of the pair in `strays`; `false`
/// if `strays` is `None`.
#[inline(always)]
fn has_stray_at(strays: Option<(u8, u8)>, text: &[u8], at: usize) -> bool
    requires in_range { at + 32 ≤ length text.now }
    ensures { TellsWhether (stray_of_at strays text.now) at (at + 32) result }
{
    match strays {
        Some(pair) => is_forbidden_in_32(text, at, pair),
        None => false,
    }
}

/// Mask of the first 27 bytes of a block: five more bytes of the block follow each.
const LOOKED: u64 = (1 << 27) - 1;

/// Mask of the five bytes after the last block: the end of the text ends a stem there.
const ENDED: u64 = 31 << 32;

/// The first letters of device names, as capitals, each at the index of its low four bits. The 16
/// entries stand twice, as [`letters_at`] needs them. An entry with no letter has other low bits.
const FIRSTS: [u8; 32] = [
    b'P', b'A', 0, b'C', 0, 0, 0, 0, 0, 0, 0, 0, b'L', 0, b'N', 0, b'P', b'A', 0, b'C', 0, 0, 0, 0,
    0, 0, 0, 0, b'L', 0, b'N', 0,
];

/// The second letters of device names, laid out like [`FIRSTS`].
const SECONDS: [u8; 32] = [
    b'P', 0, b'R', 0, 0, b'U', 0, 0, 0, 0, 0, 0, 0, 0, 0, b'O', b'P', 0, b'R', 0, 0, b'U', 0, 0, 0,
    0, 0, 0, 0, 0, 0, b'O',
];

/// Returns the mask of the separators in `text[at..at + 32]` after which a device may begin.
///
/// A first and a second letter of device names come next, and after three or four bytes a stem
/// ends, or the text has ended. `behind` is [`ENDED`] if the text ends with the block. Else it is
/// 0, and a bit from 27 on may be unset that should be set.
#[inline(always)]
fn may_begins_at(text: &[u8], at: usize, behind: u64) -> u64
    requires in_range { at + 32 ≤ length text.now }
    ensures separates { (k : ℕ) → bit_at result k ≡ 1
        → (k < 32) × (is_separator Separators.Either (slice_index text.now (at + k)) ≡ true) }
    ensures passed { (k : ℕ) → k < 27 → bit_at result k ≡ 0 → BeginsNone text.now (at + k) }
    ensures last { at + 32 ≡ length text.now → behind ≡ 31 * 2 ^ 32
        → (k : ℕ) → k < 32 → bit_at result k ≡ 0 → BeginsNone text.now (at + k) }
{
    let separators = marks_at::<32>(text, at, (b'/', b'\\'));
    let dots = marks_at::<32>(text, at, (b'.', b'.'));
    let firsts = letters_at(text, at, u8x32::from_array(FIRSTS));
    let seconds = letters_at(text, at, u8x32::from_array(SECONDS));
    may_begins(separators, firsts, seconds, separators | dots | behind)
}

/// Returns the mask of the separators after which a device may begin: the next byte is one of the
/// first letters, the one after it one of the second, and the fourth or fifth ends a stem. Given
/// are the masks of these four.
#[inline(always)]
fn may_begins(separators: u64, firsts: u64, seconds: u64, ends: u64) -> u64
    ensures { AreMayBegins separators firsts seconds ends result }
{
    separators & ((firsts >> 1) & ((seconds >> 2) & ((ends >> 4) | (ends >> 5))))
}

/// Whether a segment of `text` after a separator, `/` or `\`, stands for a device.
fn has_device_behind(text: &[u8]) -> bool
    ensures { result ≡ has_device_behind text.now }
{
    let len = text.len();
    let mut at = 0;
    'segments: while at < len {
        let found = first_between(text, at, len, (b'/', b'\\'));
        if found == len {
            return false;
        }
        if begins_with_device(&text[found + 1..]) {
            return true;
        }
        at = found + 1;
    }
    false
}

/// Whether a segment after a separator in `text[from..to]` stands for a device. `marks` is the
/// mask, from `from` on, of the separators after which one may.
#[inline(always)]
fn has_device_at(text: &[u8], from: usize, to: usize, marks: u64) -> bool
    requires ordered { from ≤ to }
    requires short { to ≤ from + 32 }
    requires in_range { to ≤ length text.now }
    requires marked { TellsBegins text.now from (to - from) marks }
    ensures { has_device_behind (drop from text.now)
        ≡ (result || has_device_behind (drop to text.now)) }
{
    let mut at = from;
    let mut left = marks;
    'marks: while left != 0 {
        let behind = lowest(left) + 1;
        at += behind;
        if begins_with_device(&text[at..]) {
            return true;
        }
        left >>= behind;
    }
    false
}

/// Whether the first segment of `text`, up to `/` or `\`, stands for a device.
#[inline(always)]
fn begins_with_device(text: &[u8]) -> bool
    ensures { result ≡ begins_with_device text.now }
{
    // The first bytes rule out most segments.
    if !begins_like_device(text) {
        return false;
    }
    may_end_stem(text) && Separators::Either.is_reserved(first_segment(text))
}

/// The letters `acnlp`, which device names begin with, as a set of [`is_in`].
pub const FIRST_LETTERS: u32 = 1 << 1 | 1 << 3 | 1 << 12 | 1 << 14 | 1 << 16;

/// The letters `opru`, which are second in device names, as a set of [`is_in`].
pub const SECOND_LETTERS: u32 = 1 << 15 | 1 << 16 | 1 << 18 | 1 << 21;

/// Whether the first two bytes, masked to five bits, are in `[acnlp][opru]`, as those of each
/// device are.
#[inline(always)]
fn begins_like_device(text: &[u8]) -> bool
    ensures { result ≡ begins_like_device text.now }
{
    match text {
        [a, b, ..] => is_in(FIRST_LETTERS, *a) & is_in(SECOND_LETTERS, *b),
        _ => false,
    }
}

/// Whether the low five bits of `byte` are the index of a set bit of `set`. Letters of either case
/// have one index.
#[inline(always)]
pub fn is_in(set: u32, byte: u8) -> bool
    ensures { result ≡ is_in set byte }
{
    (set >> (byte % 32)) % 2 == 1
}

/// Whether a dot, `/` or `\` ends a stem after three or four bytes, or the text has fewer than five
/// bytes.
#[inline(always)]
fn may_end_stem(text: &[u8]) -> bool
    ensures { result ≡ may_end_stem text.now }
{
    match text {
        [_, _, _, d, e, ..] => ends_stem(*d) | ends_stem(*e),
        _ => true,
    }
}

/// Whether a stem ends before `byte`: it is a dot, `/` or `\`.
#[inline(always)]
fn ends_stem(byte: u8) -> bool
    ensures { result ≡ ends_stem byte }
{
    byte == b'.' || Separators::Either.contains(byte)
}

/// Returns the bytes before the first `/` or `\`, or all.
fn first_segment(text: &[u8]) -> &[u8]
    ensures { result.now ≡ before_first (is_separator Separators.Either) text.now }
{
    &text[..Separators::Either.first_in(text)]
}
