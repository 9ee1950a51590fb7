//! Bytes split at a byte, stripped of a beginning or a base, and compared from their first
//! difference on.
//!
//! A body is what a path has after its prefix. Two bodies share the bytes before their first
//! difference, and the separators among these.

ghost use Rattle.std.specs.Prelude.{◌≡◌, ◌≢◌, ◌≤◌, ◌<◌, ◌+◌, ◌==◌, ◌⊎◌, List, ℕ, [], ◌∷◌, ◌++◌, take, length, MatchOption, IfSome, true, false, drop, IsTrue};
ghost use Rattle.std.specs.List.{slice_split, before_first, starts_with, IsAfterLastMatch};
ghost use Rattle.std.specs.Str.{bytes_eq};
ghost use Rattle.std.specs.Ordering.{is_ne, ordering_reverse};
ghost use Rattle.typed_path.specs.components.{is_separator, is_dot, body, later_body, parts, texts};
ghost use Rattle.typed_path.specs.scan.{is_clean, begins_with_name, tells_name, dots_rank, IsParting, PartWithinNames, PartAt};
ghost use Rattle.typed_path.specs.declared.scan.cursor.Begin.{Begin};
ghost use Rattle.typed_path.specs.order.{left_cmp, bytes_cmp};
ghost use Rattle.typed_path.specs.places.{PartInto};
ghost use Rattle.typed_path.specs.queries.{ShareFront};
ghost use Rattle.typed_path.specs.views.BodyViews.{body_items};

use crate::scan::cursor::Body;
use crate::scan::lanes::{begins_otherwise, first_between, first_difference};
use crate::scan::separators::Separators;
use crate::scan::step::skip_blanks;
use std::cmp::Ordering;

/// Returns the bytes before and after the first `byte`, or `None` if there is none.
pub fn cut_at(byte: u8, text: &[u8]) -> Option<(&[u8], &[u8])>
    ensures pieces { MatchOption result (slice_split (λ b. b == byte) text.now ≡ text.now ∷ [])
        (λ cut. slice_split (λ b. b == byte) text.now
        ≡ cut.0.now ∷ slice_split (λ b. b == byte) cut.1.now) }
    ensures open { IfSome result (λ cut. slice_split (λ b. b == byte) cut.0.now ≡ cut.0.now ∷ []) }
    ensures shorter { IfSome result (λ cut. length cut.1.now < length text.now) }
{
    let at = first_between(text, 0, text.len(), (byte, byte));
    if at < text.len() {
        return Some((&text[..at], &text[at + 1..]));
    }
    None
}

/// Returns the bytes of `text` after `beginning`, or `None` if it does not begin with that.
///
/// `beginning` has 4 to 16 bytes.
#[inline(always)]
pub fn text_behind<'a>(beginning: &[u8], text: &'a [u8]) -> Option<&'a [u8]>
    requires short { (4 ≤ length beginning.now) × (length beginning.now ≤ 16) }
    ensures { MatchOption result ((rest : List ℕ) → text.now ≢ beginning.now ++ rest)
        (λ rest. text.now ≡ beginning.now ++ rest.now) }
{
    // Each caller passes a constant, so two words are compared; comparing slices would be a call.
    let len = beginning.len();
    if text.len() < len {
        return None;
    }
    let differs = if 8 <= len {
        begins_otherwise::<8>(beginning, text)
    } else {
        begins_otherwise::<4>(beginning, text)
    };
    if differs { None } else { Some(&text[len..]) }
}

/// Returns where in `text` the first component after those of `base` begins, or the length if none.
///
/// `None` leaves it open: `base` is empty, `text` does not begin with its bytes, or a segment of
/// `text` goes on past the end of these, as `b` of `a/b` in `a/bc`. `shared` is the
/// [`first_difference`] of the two.
#[inline(always)]
pub fn base_end(text: &[u8], base: &[u8], shared: usize, separators: Separators) -> Option<usize>
    requires { PartAt text.now base.now shared }
    ensures within { IfSome result (λ n. n ≤ length text.now) }
    ensures some { IfSome result (λ n. 0 < length base.now) }
    ensures items { IfSome result (λ n. (at : ℕ) → body separators at text.now
        ≡ body separators at base.now ++ later_body separators (at + n) (drop n text.now)) }
    ensures clean { IfSome result (λ n. is_clean Begin.Inside separators (drop n text.now) ≡ true) }
{
    if shared != base.len() {
        return None;
    }
    end_behind(text, base, separators)
}

/// Returns where in `text` the first component after those of `base` begins, or the length if none.
///
/// `text` begins with the bytes of `base`. `None` leaves it open: `base` is empty, or a segment of
/// `text` goes on past the end of these, as `b` of `a/b` in `a/bc`.
#[inline(always)]
pub fn end_behind(text: &[u8], base: &[u8], separators: Separators) -> Option<usize>
    requires begins { take (length base.now) text.now ≡ base.now }
    requires long { length base.now ≤ length text.now }
    ensures within { IfSome result (λ n. n ≤ length text.now) }
    ensures some { IfSome result (λ n. 0 < length base.now) }
    ensures items { IfSome result (λ n. (at : ℕ) → body separators at text.now
        ≡ body separators at base.now ++ later_body separators (at + n) (drop n text.now)) }
    ensures clean { IfSome result (λ n. is_clean Begin.Inside separators (drop n text.now) ≡ true) }
{
    if base.is_empty() {
        return None;
    }
    let rest = &text[base.len()..];
    if !is_border(base, rest, separators) {
        return None;
    }
    Some(base.len() + skip_blanks(rest, separators))
}

/// Whether no segment spans the border between `front` and `rest`: one of them is empty, or has a
/// separator there.
#[inline(always)]
fn is_border(front: &[u8], rest: &[u8], separators: Separators) -> bool
    ensures { IsTrue result → 0 < length front.now → (at : ℕ)
        → body separators at (front.now ++ rest.now)
        ≡ body separators at front.now ++ later_body separators (at + length front.now) rest.now }
{
    let Some((last, _)) = front.split_last() else {
        return true;
    };
    let Some((first, _)) = rest.split_first() else {
        return true;
    };
    separators.contains(*last) || separators.contains(*first)
}

/// Returns two readings that compare as `rest` and `wanted` do, but begin after their last shared
/// separator, if they share one. They are unchanged if a component was taken from the front of
/// either, or if their separators differ.
#[inline(always)]
pub fn bodies_behind_shared<'a>(rest: Body<'a>, wanted: Body<'a>) -> (Body<'a>, Body<'a>)
    ensures { left_cmp (body_items result.0) (body_items result.1)
        ≡ left_cmp (body_items rest.entry) (body_items wanted.entry) }
{
    let separators = rest.separators;
    if !rest.is_whole() || !wanted.is_whole() || !separators.is_same(wanted.separators) {
        return (rest, wanted);
    }
    let text = rest.as_bytes();
    let other = wanted.as_bytes();
    bodies_behind(text, other, first_difference(text, other), separators)
}

/// Returns readings of two bodies that compare as the bodies do, but begin at the first component
/// after their last shared separator, if they share one. `shared` is their [`first_difference`].
#[inline(always)]
fn bodies_behind<'a>(
    text: &'a [u8],
    other: &'a [u8],
    shared: usize,
    separators: Separators,
) -> (Body<'a>, Body<'a>)
    requires { PartAt text.now other.now shared }
    ensures { left_cmp (body_items result.0) (body_items result.1)
        ≡ left_cmp (body separators 0 text.now) (body separators 0 other.now) }
{
    let start = last_start(&text[..shared], separators);
    if start == 0 {
        return (
            Body::new(text, 0, separators),
            Body::new(other, 0, separators),
        );
    }
    let from = start + skip_blanks(&text[start..], separators);
    let other_from = start + skip_blanks(&other[start..], separators);
    (
        Body::inside(text, from, separators),
        Body::inside(other, other_from, separators),
    )
}

/// Returns the rests of two bodies from the first component after their last shared separator. Read
/// as whole bodies, the rests compare as the two do, and the first begins with the components of
/// the second exactly if `text` does with those of `other`. `None` if no separator is shared.
/// `shared` is their [`first_difference`].
#[inline(always)]
pub fn texts_behind<'a>(
    text: &'a [u8],
    other: &'a [u8],
    shared: usize,
    separators: Separators,
) -> Option<(&'a [u8], &'a [u8])>
    requires { PartAt text.now other.now shared }
    ensures order { IfSome result (λ behind.
        left_cmp (body separators 0 behind.0.now) (body separators 0 behind.1.now)
        ≡ left_cmp (body separators 0 text.now) (body separators 0 other.now)) }
    ensures begins { IfSome result (λ behind.
        starts_with bytes_eq (texts (parts (body separators 0 behind.0.now)))
        (texts (parts (body separators 0 behind.1.now)))
        ≡ starts_with bytes_eq (texts (parts (body separators 0 text.now)))
        (texts (parts (body separators 0 other.now)))) }
    ensures shorter { IfSome result (λ behind. length behind.0.now < length text.now) }
{
    let start = last_start(&text[..shared], separators);
    if start == 0 {
        return None;
    }
    Some((
        behind_blanks(&text[start..], separators),
        behind_blanks(&other[start..], separators),
    ))
}

/// Returns `text`, which comes after a separator, from its first component on; empty if it has
/// none. Read as a whole body, the result has the components that `text` has there.
#[inline(always)]
fn behind_blanks(text: &[u8], separators: Separators) -> &[u8]
    ensures same { (at : ℕ) → parts (body separators 0 result.now)
        ≡ parts (later_body separators at text.now) }
    ensures shorter { length result.now ≤ length text.now }
{
    &text[skip_blanks(text, separators)..]
}

/// Returns the order of two bodies that are equal byte by byte, or first differ within names.
///
/// `None` leaves it open: the segments with the first difference are not both names, or are one and
/// the same name. `shared` is the [`first_difference`] of the two.
#[inline(always)]
pub fn order_behind(
    text: &[u8],
    other: &[u8],
    shared: usize,
    separators: Separators,
) -> Option<Ordering>
    requires { PartAt text.now other.now shared }
    ensures order { IfSome result (λ order.
        left_cmp (body separators 0 text.now) (body separators 0 other.now) ≡ order) }
    ensures apart { IfSome result (λ order. is_ne order ≡ true
        → starts_with bytes_eq (texts (parts (body separators 0 text.now)))
        (texts (parts (body separators 0 other.now))) ≡ false) }
{
    if shared == text.len() && shared == other.len() {
        return Some(Ordering::Equal);
    }
    if !part_within_names(text, other, shared, separators) {
        return None;
    }
    order_of_ends(&text[shared..], &other[shared..], separators)
}

/// Returns the order of two bodies if their first bytes decide it; `None` leaves it open.
///
/// They do if only one body is empty, if only one begins with a root, or if [`order_of_dots`]
/// returns an order.
#[inline(always)]
pub fn order_of_fronts(text: &[u8], other: &[u8], separators: Separators) -> Option<Ordering>
    ensures { IfSome result (λ order.
        left_cmp (body separators 0 text.now) (body separators 0 other.now) ≡ order) }
{
    let Some((own, _)) = text.split_first() else {
        return if other.is_empty() {
            None
        } else {
            Some(Ordering::Less)
        };
    };
    let Some((wanted, _)) = other.split_first() else {
        return Some(Ordering::Greater);
    };
    let rooted = separators.contains(*own);
    if rooted == separators.contains(*wanted) {
        return order_of_dots(text, other, separators);
    }
    if rooted {
        Some(Ordering::Less)
    } else {
        Some(Ordering::Greater)
    }
}

/// Returns the order of two bodies by the dots that they begin with; `None` leaves it open.
///
/// It is known if neither has a root, and one begins with a dot and the other with a greater byte,
/// so with a name; or both begin with a dot, and have different [`front_rank`]s.
#[inline(always)]
fn order_of_dots(text: &[u8], other: &[u8], separators: Separators) -> Option<Ordering>
    ensures { IfSome result (λ order.
        left_cmp (body separators 0 text.now) (body separators 0 other.now) ≡ order) }
{
    let (own, _) = text.split_first()?;
    let (wanted, _) = other.split_first()?;
    if separators.contains(*own) {
        return None;
    }
    if separators.contains(*wanted) {
        return None;
    }
    match own.cmp(wanted) {
        Ordering::Less if *own == b'.' => Some(Ordering::Less),
        Ordering::Greater if *wanted == b'.' => Some(Ordering::Greater),
        Ordering::Equal if *own == b'.' => {
            let order = front_rank(text, separators).cmp(&front_rank(other, separators));
            if order.is_ne() { Some(order) } else { None }
        }
        _ => None,
    }
}

/// Returns the rank of the first segment: 0 for `.`, 1 for `..`, 2 for any other. Reads at most
/// three bytes.
#[inline(always)]
fn front_rank(text: &[u8], separators: Separators) -> u8
    ensures { result ≡ dots_rank (before_first (is_separator separators) text.now) }
{
    match text {
        _ if begins_with_dot(text, separators) => 0,
        [b'.', behind @ ..] if begins_with_dot(behind, separators) => 1,
        _ => 2,
    }
}

/// Whether the first segment is `.`.
#[inline(always)]
fn begins_with_dot(text: &[u8], separators: Separators) -> bool
    ensures { result ≡ is_dot (before_first (is_separator separators) text.now) }
{
    match text {
        [b'.'] => true,
        [b'.', behind, ..] => separators.contains(*behind),
        _ => false,
    }
}

/// Whether the first bytes tell that `text` does not begin with the components of `other`: they
/// differ and are not both separators, or only `text` is empty. `false` leaves it open.
#[inline(always)]
pub fn have_other_fronts(text: &[u8], other: &[u8], separators: Separators) -> bool
    ensures { IsTrue result → starts_with bytes_eq (texts (parts (body separators 0 text.now)))
        (texts (parts (body separators 0 other.now))) ≡ false }
{
    let Some((wanted, _)) = other.split_first() else {
        return false;
    };
    let Some((own, _)) = text.split_first() else {
        return true;
    };
    own != wanted && !(separators.contains(*own) && separators.contains(*wanted))
}

/// Returns the order of `text` beside `beginning`: greater if it has more components, else equal.
///
/// `text` begins with the bytes of `beginning`. `None` leaves it open: `beginning` is empty, or a
/// segment of `text` goes on past the end of these.
#[inline(always)]
fn order_of_longer(text: &[u8], beginning: &[u8], separators: Separators) -> Option<Ordering>
    requires begins { take (length beginning.now) text.now ≡ beginning.now }
    requires long { length beginning.now ≤ length text.now }
    ensures longer { IfSome result (λ order.
        left_cmp (body separators 0 text.now) (body separators 0 beginning.now) ≡ order) }
    ensures shorter { IfSome result (λ order.
        left_cmp (body separators 0 beginning.now) (body separators 0 text.now)
        ≡ ordering_reverse order) }
{
    let end = end_behind(text, beginning, separators)?;
    if end == text.len() {
        return Some(Ordering::Equal);
    }
    Some(Ordering::Greater)
}

/// Returns the order of two bodies of which one begins with the bytes of the other.
///
/// `None` leaves it open: neither does, the shorter is empty, or a segment of the longer goes on
/// past the end of these bytes. `shared` is the [`first_difference`] of the two.
#[inline(always)]
pub fn order_of_beginning(
    text: &[u8],
    other: &[u8],
    shared: usize,
    separators: Separators,
) -> Option<Ordering>
    requires { PartAt text.now other.now shared }
    ensures { IfSome result (λ order.
        left_cmp (body separators 0 text.now) (body separators 0 other.now) ≡ order) }
{
    if shared == other.len() {
        return order_of_longer(text, other, separators);
    }
    if shared == text.len() {
        return Some(order_of_longer(other, text, separators)?.reverse());
    }
    None
}

/// Returns what is left of two bodies after components that both begin with: of `a/b/c` and `a/b`
/// it is `c` and nothing, of `a/bx` and `a/by` it is `bx` and `by`.
///
/// If both rests are nothing but names with one separator between two, then one rest is empty, or
/// their first names differ. `None` leaves it open.
#[inline(always)]
pub fn rests_behind_shared<'a>(
    text: &'a [u8],
    other: &'a [u8],
    separators: Separators,
) -> Option<(&'a [u8], &'a [u8])>
    ensures { IfSome result
        (λ rests. PartInto separators text.now other.now rests.0.now rests.1.now) }
{
    let shared = first_difference(text, other);
    if shared == other.len() {
        if let Some(end) = end_behind(text, other, separators) {
            return Some((&text[end..], b"".as_slice()));
        }
    }
    if shared == text.len() {
        if let Some(end) = end_behind(other, text, separators) {
            return Some((b"".as_slice(), &other[end..]));
        }
    }
    let _order = order_of_ends(&text[shared..], &other[shared..], separators)?;
    let start = last_start(&text[..shared], separators);
    Some((&text[start..], &other[start..]))
}

/// Returns how many bytes at the front of `text` hold the components that both bodies begin with.
///
/// It is known if one body is not empty, the other begins with its bytes, and no segment spans
/// their end; or if the two first differ within names. `None` leaves it open.
#[inline(always)]
pub fn shared_front(text: &[u8], other: &[u8], separators: Separators) -> Option<usize>
    ensures within { IfSome result (λ n. n ≤ length text.now) }
    ensures front { IfSome result
        (λ n. ShareFront separators text.now other.now (take n text.now)) }
{
    let shared = first_difference(text, other);
    if shared == other.len() {
        if let Some(_end) = end_behind(text, other, separators) {
            return Some(shared);
        }
    }
    if shared == text.len() {
        if let Some(_end) = end_behind(other, text, separators) {
            return Some(shared);
        }
    }
    let _order = order_of_ends(&text[shared..], &other[shared..], separators)?;
    let start = last_start(&text[..shared], separators);
    if begins_with_name(&text[start..], separators)
        && begins_with_name(&other[start..], separators)
    {
        return Some(start);
    }
    None
}

/// Whether the bytes tell that `text` does not begin with the components of `other`: the two differ
/// in a name, in their first components, or right after their last shared separator. `false` leaves
/// it open. `shared` is their [`first_difference`].
#[inline(always)]
pub fn are_apart(text: &[u8], other: &[u8], shared: usize, separators: Separators) -> bool
    requires { PartAt text.now other.now shared }
    ensures { IsTrue result → starts_with bytes_eq (texts (parts (body separators 0 text.now)))
        (texts (parts (body separators 0 other.now))) ≡ false }
{
    if shared == 0 {
        return have_other_fronts(text, other, separators);
    }
    if part_in_one_segment(text, other, shared, separators) {
        return order_of_ends(&text[shared..], &other[shared..], separators).is_some();
    }
    part_at_detours(text, other, shared, separators)
}

/// Whether two bodies first differ within names, or within their first segments. `false` leaves it
/// open. `shared` is their [`first_difference`], and not 0.
#[inline(always)]
fn part_in_one_segment(text: &[u8], other: &[u8], shared: usize, separators: Separators) -> bool
    requires shared { PartAt text.now other.now shared }
    requires some { 0 < shared }
    ensures { IsTrue result → PartWithinNames separators text.now other.now shared
        ⊎ IsParting separators text.now other.now shared 0 }
{
    let front = &text[..shared];
    if ends_with_name(front, separators) {
        return true;
    }
    let start = last_start(front, separators);
    start == 0
        || (begins_with_name(&text[start..], separators)
            && begins_with_name(&other[start..], separators))
}

/// Whether the first bytes of [`texts_behind`] tell that `text` does not begin with the components
/// of `other`. `false` leaves it open. `shared` is their [`first_difference`].
#[inline(always)]
fn part_at_detours(text: &[u8], other: &[u8], shared: usize, separators: Separators) -> bool
    requires { PartAt text.now other.now shared }
    ensures { IsTrue result → starts_with bytes_eq (texts (parts (body separators 0 text.now)))
        (texts (parts (body separators 0 other.now))) ≡ false }
{
    // Only a dot or one more separator at the difference is worth a search for the last shared one.
    let is_worth_a_look = matches!(&text[..shared], [.., b'.'])
        || match (&text[shared..], &other[shared..]) {
            ([b'.', b'.', ..], _) | (_, [b'.', ..]) => true,
            ([own, ..], [mark, wanted, ..]) if separators.contains(*mark) => own != wanted,
            ([mark, own, ..], [wanted, ..]) if separators.contains(*mark) => own != wanted,
            ([mark], _) => separators.contains(*mark),
            _ => false,
        };
    if !is_worth_a_look {
        return false;
    }
    match texts_behind(text, other, shared, separators) {
        Some((own, wanted)) => have_other_fronts(own, wanted, separators),
        None => false,
    }
}

/// Whether the segments in which two bodies first differ are names. `false` leaves it open.
/// `shared` is their [`first_difference`].
#[inline(always)]
fn part_within_names(text: &[u8], other: &[u8], shared: usize, separators: Separators) -> bool
    requires { PartAt text.now other.now shared }
    ensures { IsTrue result → PartWithinNames separators text.now other.now shared }
{
    let front = &text[..shared];
    // Mostly the last shared byte tells, and no segment is searched for.
    if ends_with_name(front, separators) {
        return true;
    }
    let start = last_start(front, separators);
    begins_with_name(&text[start..], separators) && begins_with_name(&other[start..], separators)
}

/// Returns the index at which the last segment begins: just after the last separator, or 0.
#[inline(always)]
fn last_start(text: &[u8], separators: Separators) -> usize
    ensures within { result ≤ length text.now }
    ensures last { IsAfterLastMatch (is_separator separators) text.now result }
{
    match text {
        // No search if the last byte separates.
        [.., last] if separators.contains(*last) => text.len(),
        [] | [_] => 0,
        _ => separators.last_in(text),
    }
}

/// Whether the last byte is neither a separator nor a dot, so that its segment is a name.
#[inline(always)]
fn ends_with_name(text: &[u8], separators: Separators) -> bool
    ensures { IsTrue result → (before : List ℕ) × (b : ℕ) × (text.now ≡ before ++ b ∷ [])
        × (tells_name separators b ≡ true) }
{
    match text.split_last() {
        Some((last, _)) => tells_name(*last, separators),
        None => false,
    }
}

/// Whether the first segment is a name, as its first three bytes tell. `false` leaves it open.
#[inline(always)]
fn begins_with_name(text: &[u8], separators: Separators) -> bool
    ensures { IsTrue result → begins_with_name separators text.now ≡ true }
{
    match text {
        [b'.', b'.', third, ..] => !separators.contains(*third),
        [b'.', second, ..] => tells_name(*second, separators),
        [first, ..] => tells_name(*first, separators),
        [] => false,
    }
}

/// Whether each segment that has `byte` is a name: it is neither a separator nor a dot.
#[inline(always)]
fn tells_name(byte: u8, separators: Separators) -> bool
    ensures { result ≡ tells_name separators byte }
{
    !separators.contains(byte) && byte != b'.'
}

/// Compares the first segments of two texts by their first bytes; an empty segment is less. `None`
/// leaves it open: the bytes are equal, or both segments are empty.
#[inline(always)]
fn order_of_ends(text: &[u8], other: &[u8], separators: Separators) -> Option<Ordering>
    ensures { IfSome result (λ order. (is_ne order ≡ true)
        × (bytes_cmp (before_first (is_separator separators) text.now)
        (before_first (is_separator separators) other.now) ≡ order)) }
{
    match (
        first_of_name(text, separators),
        first_of_name(other, separators),
    ) {
        (Some(own), Some(wanted)) => {
            let order = own.cmp(&wanted);
            if order.is_ne() { Some(order) } else { None }
        }
        (Some(_), None) => Some(Ordering::Greater),
        (None, Some(_)) => Some(Ordering::Less),
        (None, None) => None,
    }
}

/// Returns the first byte of the first segment, or `None` if that segment is empty.
#[inline(always)]
fn first_of_name(text: &[u8], separators: Separators) -> Option<u8>
    ensures { MatchOption result (before_first (is_separator separators) text.now ≡ [])
        (λ b. (bs : List ℕ) × (before_first (is_separator separators) text.now ≡ b ∷ bs)) }
{
    let (first, _) = text.split_first()?;
    if separators.contains(*first) {
        return None;
    }
    Some(*first)
}
