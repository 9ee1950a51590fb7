//! The path from a base to another path: as a look at the bytes of both tells, or else name by name
//! from the back. What is read from the back is written backwards, and reversed at the end. Which
//! names are kept, and which `..` unmatched, is said in `lead`. If allocation fails, a call that
//! appends may leave a part of it.

ghost use Rattle.std.specs.Prelude.{◌≡◌, ◌+◌, ◌*◌, ◌-◌, ◌++◌, ◌∷◌, ◌<◌, ◌≤◌, ◌^◌, ◌==◌, ◌&&◌, not, false, nat_le, [], length, take, drop, reverse, option_map, if◌then◌else◌, None, IfOk, IsOk, OnOk, MatchOption, Bool, List, ℕ, Some, IfSome};
ghost use Rattle.std.specs.Vec.{vec_len, vec_capacity};
ghost use Rattle.typed_path.specs.components.{kinds, parts, parts_of, body, is_separator, is_verbatim};
ghost use Rattle.typed_path.specs.places.{AreSteps, IsLast, bare_separators, can_stand, dots, is_reached, kept_names, names_under, relative_text, row_end, rows_of, shared_count, steps_text, AreAlone, AreNearSteps, PartInNames, same_heads};
ghost use Rattle.typed_path.specs.views.BodyViews.{body_items};
ghost use Rattle.typed_path.specs.views.CursorViews.{items_left};
ghost use Rattle.std.specs.List.{slice_split};

use crate::common::encoding::Encoding;
use crate::common::lead::{Lead, begins_rooted, last_name, lead_of};
use crate::common::order::have_same_prefixes;
use crate::common::path_buf::PathBuf;
use crate::common::rows::{put_apart, put_row, put_turned_where, row_end};
use crate::common::writing::drop_separator;
use crate::scan::{
    Body, Cursor, Leading, Separators, cut_at_separator, leading_names, rests_behind_shared,
};
use std::alloc::{AllocError, Global};

/// Returns the path from `base` to `path`: `..` and then names. `Ok(None)` if their prefixes
/// differ, or only one of the two has a prefix or is anchored; if `base` leads higher; or if a name
/// that is left holds a `/`, as one after `\\?\` may.
pub(crate) fn relative_to<T: Encoding>(
    alloc: Global,
    path: &[u8],
    base: &[u8],
) -> Result<Option<PathBuf<T>>, AllocError>
    ensures bytes { IfOk result (λ found. option_map (λ p. p.bytes) found
        ≡ relative_text T.dialect path.now base.now) }
    ensures free { relative_text T.dialect path.now base.now ≡ None → IsOk result }
{
    if let Some(near) = near_steps(T::cursor(path), T::cursor(base), bare_separators::<T>()) {
        let room = near
            .up
            .saturating_mul(3)
            .saturating_add(near.rest.len() + 2);
        // The whole answer fits, so it is allocated once.
        let mut text = Vec::with_capacity(alloc, room)?;
        put_near::<T>(&mut text, near)?;
        return Ok(Some(PathBuf::from_vec(text)));
    }
    relative_by_components(alloc, path, base)
}

/// The steps from a base to a path: `up` times `..`, and then the names in `rest`. `ended` says
/// whether a separator comes after the last of these names too.
#[derive(Clone, Copy)]
pub(crate) struct Near<'a> {
    pub up: usize,
    rest: &'a [u8],
    ended: bool,
}

/// Returns the steps from the base `other` to the path `own`, if a look at the bytes of both tells.
/// `None` leaves it open. `separators` are those of a path without a prefix.
#[inline(always)]
pub(crate) fn near_steps<'a>(
    own: Cursor<'a>,
    other: Cursor<'a>,
    separators: Separators,
) -> Option<Near<'a>>
    requires { is_verbatim separators ≡ false }
    ensures { IfSome result (λ near. AreNearSteps separators
        (kinds (parts (items_left own.entry))) (kinds (parts (items_left other.entry)))
        near.up near.rest.now near.ended) }
{
    if !have_same_heads(own, other) {
        return None;
    }
    near_behind(own.body(), other.body(), separators)
}

/// Whether two paths have the same prefix or none, and both or neither begin with a root, written
/// or implied by a prefix other than `C:`: `C:\a` and `c:/b` do, `C:\a` and `C:a` do not.
#[inline(always)]
fn have_same_heads(own: Cursor<'_>, other: Cursor<'_>) -> bool
    ensures { result ≡ same_heads (kinds (parts (items_left own.entry)))
        (kinds (parts (items_left other.entry))) }
{
    have_same_prefixes(own.prefix(), other.prefix()) && begins_rooted(own) == begins_rooted(other)
}

/// Returns the steps of [`near_steps`] between what two paths have after their prefixes. `None`
/// leaves it open.
#[inline(always)]
fn near_behind<'a>(own: Body<'a>, other: Body<'a>, separators: Separators) -> Option<Near<'a>>
    ensures { IfSome result (λ near. PartInNames separators
        (kinds (parts (body_items own.entry))) (kinds (parts (body_items other.entry)))
        near.up near.rest.now near.ended) }
{
    if !own.is_whole()
        || !other.is_whole()
        || !separators.is_same(own.separators)
        || !separators.is_same(other.separators)
    {
        return None;
    }
    near_texts(own.as_bytes(), other.as_bytes(), separators)
}

/// Returns the steps of [`near_steps`] between two texts without prefixes. `None` leaves it open.
#[inline(always)]
fn near_texts<'a>(text: &'a [u8], other: &'a [u8], separators: Separators) -> Option<Near<'a>>
    ensures { IfSome result (λ near. PartInNames separators
        (kinds (parts (body separators 0 text.now))) (kinds (parts (body separators 0 other.now)))
        near.up near.rest.now near.ended) }
{
    let (rest, behind) = rests_behind_shared(text, other, separators)?;
    let up = names_alone(behind, separators)?;
    let ended = ends_alone(rest, separators)?;
    Some(Near { up, rest, ended })
}

/// Returns how many names `text` has, if it is nothing but names with one separator between two.
///
/// A separator at its end is allowed. `None` leaves it open. The empty text has 0.
#[inline(always)]
fn names_alone(text: &[u8], separators: Separators) -> Option<usize>
    ensures { IfSome result (λ count. (ended : Bool) × (names : List (List ℕ))
        × AreAlone separators text.now ended names × (count ≡ length names)) }
{
    let ended = ends_alone(text, separators)?;
    let ends = count_ends(text, separators);
    Some(if ended { ends } else { ends + 1 })
}

/// Returns whether `text` ends with a separator, if it is nothing but names with one between two.
///
/// `None` leaves it open. Of the empty text it is `Some(true)`.
#[inline(always)]
fn ends_alone(text: &[u8], separators: Separators) -> Option<bool>
    ensures { IfSome result
        (λ ended. (names : List (List ℕ)) × AreAlone separators text.now ended names) }
{
    match leading_names(text, separators.pair()) {
        Leading::Whole => Some(false),
        Leading::First(names) if names == text.len() => Some(true),
        Leading::First(_) => None,
    }
}

/// Returns how many separators a text has.
#[inline(always)]
fn count_ends(text: &[u8], separators: Separators) -> usize
    ensures count { result + 1 ≡ length (slice_split (is_separator separators) text.now) }
    ensures within { result ≤ length text.now }
{
    let mut count = 0;
    let mut rest = text;
    'ends: while let Some((_, behind)) = cut_at_separator(separators, rest) {
        count += 1;
        rest = behind;
    }
    count
}

/// Returns which bytes separate in a path without a prefix.
#[inline(always)]
pub(crate) fn bare_separators<T: Encoding>() -> Separators
    ensures { result ≡ bare_separators T.dialect }
{
    if T::is_windows() {
        Separators::Either
    } else {
        Separators::Slash
    }
}

/// Writes the path that `near` describes into an empty vector.
#[inline(always)]
fn put_near<T: Encoding>(text: &mut Vec<u8>, near: Near<'_>) -> Result<(), AllocError>
    requires empty { text.old.items ≡ [] }
    ensures ok { (names : List (List ℕ))
        → AreAlone (bare_separators T.dialect) near.entry.rest.now near.entry.ended names
        → OnOk result (text.new.items ≡ steps_text T.dialect near.entry.up names) }
    ensures succeeds { near.entry.up * 3 + length near.entry.rest.now + 2 ≤ vec_capacity text.old
        → IsOk result }
{
    let separators = bare_separators::<T>();
    put_ups(text, near.up, separators)?;
    put_alone(text, near, separators)?;
    drop_separator(text, 0);
    put_apart(text, 0, separators)
}

/// Appends `count` times `..`, each with a separator after it.
#[inline(always)]
fn put_ups(text: &mut Vec<u8>, count: usize, separators: Separators) -> Result<(), AllocError>
    ensures ok { OnOk result
        (text.new.items ≡ text.old.items ++ rows_of separators (dots count)) }
    ensures room { OnOk result (vec_len text.new ≤ vec_len text.old + count * 3) }
    ensures capacity { vec_capacity text.old ≤ vec_capacity text.new }
    ensures succeeds { vec_len text.old + count * 3 ≤ vec_capacity text.old → IsOk result }
{
    'ups: for _ in 0..count {
        put_row(text, b"..", 2, separators)?;
    }
    Ok(())
}

/// Appends the names in `near.rest`, without the `..` before them, each with a separator after it:
/// `/` if `separators` is `Slash`, else `\`. With spare capacity for `near.rest` and one byte more
/// it does not fail.
#[inline(always)]
fn put_alone(text: &mut Vec<u8>, near: Near<'_>, separators: Separators) -> Result<(), AllocError>
    ensures ok { (names : List (List ℕ))
        → AreAlone separators near.entry.rest.now near.entry.ended names
        → OnOk result (text.new.items ≡ text.old.items ++ rows_of separators names) }
    ensures room { OnOk result
        (vec_len text.new ≤ vec_len text.old + length near.entry.rest.now + 1) }
    ensures capacity { vec_capacity text.old ≤ vec_capacity text.new }
    ensures succeeds { vec_len text.old + length near.entry.rest.now < vec_capacity text.old
        → IsOk result }
{
    put_turned_where(text, near.rest, separators)?;
    if near.ended {
        return Ok(());
    }
    text.push(row_end(separators))?;
    Ok(())
}

/// Returns what [`relative_to`] does, by reading both paths component by component.
fn relative_by_components<T: Encoding>(
    alloc: Global,
    path: &[u8],
    base: &[u8],
) -> Result<Option<PathBuf<T>>, AllocError>
    ensures bytes { IfOk result (λ found. option_map (λ p. p.bytes) found
        ≡ relative_text T.dialect path.now base.now) }
    ensures free { relative_text T.dialect path.now base.now ≡ None → IsOk result }
{
    match steps_between(T::cursor(path), T::cursor(base)) {
        Some(steps) => {
            let room = steps.up.saturating_mul(3).saturating_add(path.len() + 2);
            let mut text = Vec::with_capacity(alloc, room)?;
            put_steps::<T>(&mut text, path, steps)?;
            Ok(Some(PathBuf::from_vec(text)))
        }
        None => Ok(None),
    }
}

/// How many `..` lead up from a base, and how many of the last kept names of a path lead down from
/// there.
#[derive(Clone, Copy)]
struct Steps {
    up: usize,
    down: usize,
}

/// Returns the steps from the base `other` to the path `own`; `None` where [`relative_to`] returns
/// `Ok(None)`.
#[tactic(auto, using(crate::proofs::lemmas::places::KeptFromBack::few_behind_prefix, crate::proofs::lemmas::places::KeptFromBack::kept_behind_prefix))]
fn steps_between(own: Cursor<'_>, other: Cursor<'_>) -> Option<Steps>
    requires { length (items_left own) + length (items_left other) < 2 ^ 64 }
    ensures { let ks = kinds (parts (items_left own.entry)) in
        let ls = kinds (parts (items_left other.entry)) in
        MatchOption result (is_reached ks ls ≡ false) (λ steps. AreSteps ks ls steps.up steps.down) }
{
    if !have_same_prefixes(own.prefix(), other.prefix()) {
        return None;
    }
    let lead = lead_of(own);
    let start = lead_of(other);
    if !leads_from(lead, start) {
        return None;
    }
    let met = met_count(own.body(), other.body(), lead, start);
    let down = lead.names - met;
    if !can_stand(own.body(), down) {
        return None;
    }
    Some(Steps {
        up: start.names - met + (lead.rising() - start.rising()),
        down,
    })
}

/// Whether a path and a base are both anchored or both not, and the base leads no higher.
fn leads_from(lead: Lead, start: Lead) -> bool
    ensures { result ≡ ((if lead.is_anchored then start.is_anchored else not start.is_anchored)
        && nat_le (if start.is_anchored then 0 else start.unmet)
        (if lead.is_anchored then 0 else lead.unmet)) }
{
    lead.is_anchored == start.is_anchored && start.rising() <= lead.rising()
}

/// Returns how many of the first kept names of a base a path shares, or 0 if one of the two leads
/// higher.
fn met_count(rest: Body<'_>, base: Body<'_>, lead: Lead, start: Lead) -> usize
    requires fits { length (body_items rest) < 2 ^ 64 }
    requires base_fits { length (body_items base) < 2 ^ 64 }
    requires names { lead.names ≡ length (kept_names (kinds (parts (body_items rest)))) }
    requires base_names { start.names ≡ length (kept_names (kinds (parts (body_items base)))) }
    ensures { result ≡ (if (if lead.is_anchored then 0 else lead.unmet)
        == (if start.is_anchored then 0 else start.unmet)
        then shared_count (kept_names (kinds (parts (body_items rest.entry))))
        (kept_names (kinds (parts (body_items base.entry)))) else 0) }
{
    if lead.rising() == start.rising() {
        shared_count(rest, base, lead.names, start.names)
    } else {
        0
    }
}

/// Returns how many of the first kept names two paths share. `names` and `base_names` are how many
/// each has.
fn shared_count(mut rest: Body<'_>, mut base: Body<'_>, names: usize, base_names: usize) -> usize
    requires fits { length (body_items rest) < 2 ^ 64 }
    requires base_fits { length (body_items base) < 2 ^ 64 }
    requires names { names ≡ length (kept_names (kinds (parts (body_items rest)))) }
    requires base_names { base_names ≡ length (kept_names (kinds (parts (body_items base)))) }
    ensures { result ≡ shared_count (kept_names (kinds (parts (body_items rest.entry))))
        (kept_names (kinds (parts (body_items base.entry)))) }
{
    let mut owed = 0;
    let mut base_owed = 0;
    let deeper = names.saturating_sub(base_names);
    skip(&mut rest, &mut owed, deeper);
    skip(&mut base, &mut base_owed, base_names.saturating_sub(names));
    let mut below = names - deeper;
    let mut met = below;
    // From the back, the last difference that is seen is the first one, so it overrides the others.
    'names: while let Some(name) = last_name(&mut base, &mut base_owed) {
        below -= 1;
        if !is_last(&mut rest, &mut owed, name) {
            met = below;
        }
    }
    met
}

/// Takes the last kept name, as [`last_name`] does, and returns whether there is one and it is
/// `name`.
fn is_last(rest: &mut Body<'_>, owed: &mut usize, name: &[u8]) -> bool
    requires { owed.old + length (body_items rest.old) < 2 ^ 64 }
    ensures is { IsLast (names_under owed.old (body_items rest.old))
        (names_under owed.new (body_items rest.new)) name.now result }
    ensures within { owed.new + length (body_items rest.new)
        ≤ owed.old + length (body_items rest.old) }
{
    match last_name(rest, owed) {
        Some(own) => own == name,
        None => false,
    }
}

/// Takes the last `count` kept names, as [`last_name`] does.
fn skip(rest: &mut Body<'_>, owed: &mut usize, count: usize)
    requires fits { owed.old + length (body_items rest.old) < 2 ^ 64 }
    requires count { count ≤ length (names_under owed.old (body_items rest.old)) }
    ensures names { names_under owed.new (body_items rest.new)
        ≡ take (length (names_under owed.old (body_items rest.old)) - count)
        (names_under owed.old (body_items rest.old)) }
    ensures within { owed.new + length (body_items rest.new)
        ≤ owed.old + length (body_items rest.old) }
{
    'names: for _ in 0..count {
        last_name(rest, owed);
    }
}

/// Whether the last `count` names that no `..` cancels hold no `/`; `true` if `/` separates.
#[tactic(auto, using(crate::proofs::lemmas::places::NearSteps::plain_stand))]
fn can_stand(mut rest: Body<'_>, count: usize) -> bool
    requires fits { length (body_items rest) < 2 ^ 64 }
    requires count { count ≤ length (kept_names (kinds (parts (body_items rest)))) }
    ensures { result ≡ can_stand (drop
        (length (kept_names (kinds (parts (body_items rest.entry)))) - count)
        (kept_names (kinds (parts (body_items rest.entry))))) }
{
    if !rest.separators.is_verbatim() {
        return true;
    }
    let mut owed = 0;
    'names: for _ in 0..count {
        if let Some(name) = last_name(&mut rest, &mut owed) {
            if name.contains(&b'/') {
                return false;
            }
        }
    }
    true
}

/// Returns what follows the prefix of a path, which has all its names.
#[tactic(auto, using(crate::proofs::lemmas::places::KeptFromBack::few, crate::proofs::lemmas::places::KeptFromBack::few_behind_prefix, crate::proofs::lemmas::places::KeptFromBack::kept_behind_prefix))]
#[inline(always)]
fn body_of<T: Encoding>(path: &[u8]) -> Body<'_>
    requires { length path.now < 2 ^ 64 }
    ensures fits { length (body_items result) < 2 ^ 64 }
    ensures names { kept_names (kinds (parts (body_items result)))
        ≡ kept_names (kinds (parts_of T.dialect path.now)) }
{
    T::cursor(path).body()
}

/// Writes `steps.up` times `..`, and the last `steps.down` kept names of `path`, into an empty
/// vector.
fn put_steps<T: Encoding>(text: &mut Vec<u8>, path: &[u8], steps: Steps) -> Result<(), AllocError>
    requires empty { text.old.items ≡ [] }
    requires down { steps.down ≤ length (kept_names (kinds (parts_of T.dialect path.now))) }
    ensures ok { let names = kept_names (kinds (parts_of T.dialect path.now)) in
        OnOk result (text.new.items ≡ steps_text T.dialect steps.up
        (drop (length names - steps.down) names)) }
    ensures succeeds { steps.up * 3 + length path.now + 2 ≤ vec_capacity text.old → IsOk result }
{
    let separators = bare_separators::<T>();
    // Both are written from their ends, and all is reversed then.
    put_names(text, body_of::<T>(path), steps.down, separators)?;
    put_parents(text, steps.up, separators)?;
    text.reverse();
    drop_separator(text, 0);
    put_apart(text, 0, separators)
}

/// Writes the last `count` kept names backwards into an empty vector: the last name first, each
/// after a separator and with its bytes reversed.
fn put_names(
    text: &mut Vec<u8>,
    mut rest: Body<'_>,
    count: usize,
    separators: Separators,
) -> Result<(), AllocError>
    requires fits { length (body_items rest) < 2 ^ 64 }
    requires count { count ≤ length (kept_names (kinds (parts (body_items rest)))) }
    requires empty { text.old.items ≡ [] }
    ensures ok { let names = kept_names (kinds (parts (body_items rest.entry))) in
        OnOk result (reverse text.new.items
        ≡ rows_of separators (drop (length names - count) names)) }
    ensures capacity { vec_capacity text.old ≤ vec_capacity text.new }
    ensures succeeds { let names = kept_names (kinds (parts (body_items rest.entry))) in
        length (rows_of separators (drop (length names - count) names)) ≤ vec_capacity text.old
        → IsOk result }
{
    let mut owed = 0;
    'names: for _ in 0..count {
        if let Some(name) = last_name(&mut rest, &mut owed) {
            put_reversed(text, name, separators)?;
        }
    }
    Ok(())
}

/// Appends a separator, and then a name with its bytes reversed.
fn put_reversed(text: &mut Vec<u8>, name: &[u8], separators: Separators) -> Result<(), AllocError>
    ensures ok { OnOk result (reverse text.new.items
        ≡ (name.now ++ row_end separators ∷ []) ++ reverse text.old.items) }
    ensures room { OnOk result (vec_len text.new ≡ vec_len text.old + length name.now + 1) }
    ensures capacity { vec_capacity text.old ≤ vec_capacity text.new }
    ensures succeeds { vec_len text.old + length name.now + 1 ≤ vec_capacity text.old
        → IsOk result }
{
    text.push(row_end(separators))?;
    let start = text.len();
    text.extend_from_slice(name)?;
    text[start..].reverse();
    Ok(())
}

/// Appends `count` times a separator and `..`.
fn put_parents(text: &mut Vec<u8>, count: usize, separators: Separators) -> Result<(), AllocError>
    ensures ok { OnOk result (reverse text.new.items
        ≡ rows_of separators (dots count) ++ reverse text.old.items) }
    ensures room { OnOk result (vec_len text.new ≡ vec_len text.old + count * 3) }
    ensures capacity { vec_capacity text.old ≤ vec_capacity text.new }
    ensures succeeds { vec_len text.old + count * 3 ≤ vec_capacity text.old → IsOk result }
{
    'parents: for _ in 0..count {
        put_reversed(text, b"..", separators)?;
    }
    Ok(())
}
