//! Whether a path lies at another or below it, and what two paths begin with. Which names are kept,
//! and which `..` unmatched, is said in `lead`.

ghost use Rattle.std.specs.Prelude.{◌≡◌, ◌+◌, ◌<◌, ◌≤◌, ◌^◌, ◌&&◌, ◌==◌, not, nat_le, length, IfSome, if◌then◌else◌};
ghost use Rattle.std.specs.List.{starts_with};
ghost use Rattle.std.specs.Str.{bytes_eq};
ghost use Rattle.typed_path.specs.components.{kinds, parts};
ghost use Rattle.typed_path.specs.places.{is_within, kept_names};
ghost use Rattle.typed_path.specs.views.BodyViews.{body_items};
ghost use Rattle.typed_path.specs.views.CursorViews.{items_left};
ghost use Rattle.typed_path.specs.queries.{IsSharedEnd, shared_end};
ghost use Rattle.typed_path.specs.views.PathViews.{path_bytes};

use crate::common::encoding::Encoding;
use crate::common::lead::{Lead, last_name, lead_of};
use crate::common::order::have_same_prefixes;
use crate::common::path::Path;
use crate::common::relative::{bare_separators, near_steps};
use crate::scan::{Body, Cursor, shared_front};

/// Whether `path` lies at `base` or below it, from whatever directory both are read: a `..` cancels
/// the name before it, and one without such a name leads above where the path begins, or after a
/// root nowhere.
pub(crate) fn is_within<T: Encoding>(path: &[u8], base: &[u8]) -> bool
    ensures { result ≡ is_within T.dialect path.now base.now }
{
    // If the bytes tell the steps from the base to the path, none of them may lead up.
    match near_steps(T::cursor(path), T::cursor(base), bare_separators::<T>()) {
        Some(near) => near.up == 0,
        None => within_by_components::<T>(path, base),
    }
}

/// Whether `path` lies at `base` or below it, read component by component from the back.
#[tactic(auto, using(crate::proofs::lemmas::places::KeptFromBack::few, crate::proofs::lemmas::places::KeptFromBack::few_behind_prefix, crate::proofs::lemmas::places::KeptFromBack::kept_behind_prefix))]
fn within_by_components<T: Encoding>(path: &[u8], base: &[u8]) -> bool
    ensures { result ≡ is_within T.dialect path.now base.now }
{
    let own = T::cursor(path);
    let other = T::cursor(base);
    if !have_same_prefixes(own.prefix(), other.prefix()) {
        return false;
    }
    let lead = lead_of(own);
    let wanted = lead_of(other);
    if holds_all(lead, wanted, other.has_prefix()) {
        return true;
    }
    if !leads_alike(lead, wanted) || lead.names < wanted.names {
        return false;
    }
    begin_alike(own.body(), other.body(), lead.names - wanted.names)
}

/// Whether `base` has no kept names and contains `own`, since that leads no higher.
///
/// Both have the same prefix or none; `is_prefixed` says whether they have one. A root without a
/// prefix contains every path without one. A base that is not anchored contains those that are not
/// either, and have no more unmatched `..`.
fn holds_all(own: Lead, base: Lead, is_prefixed: bool) -> bool
    ensures { result ≡ ((base.names == 0) && (if base.is_anchored then not is_prefixed
        else not own.is_anchored && nat_le own.unmet base.unmet)) }
{
    base.names == 0
        && if base.is_anchored {
            !is_prefixed
        } else {
            !own.is_anchored && own.unmet <= base.unmet
        }
}

/// Whether two paths are both anchored, or both not and have as many unmatched `..`.
fn leads_alike(own: Lead, base: Lead) -> bool
    ensures { result ≡ ((if own.is_anchored then base.is_anchored else not base.is_anchored)
        && ((if own.is_anchored then 0 else own.unmet)
        == (if base.is_anchored then 0 else base.unmet))) }
{
    own.is_anchored == base.is_anchored && (own.is_anchored || own.unmet == base.unmet)
}

/// Whether the kept names of a path begin with those of a base; the path has `deeper` more.
#[inline(always)]
fn begin_alike(mut rest: Body<'_>, mut base: Body<'_>, deeper: usize) -> bool
    requires fits { length (body_items rest) < 2 ^ 64 }
    requires base_fits { length (body_items base) < 2 ^ 64 }
    requires deeper { length (kept_names (kinds (parts (body_items rest))))
        ≡ length (kept_names (kinds (parts (body_items base)))) + deeper }
    ensures { result ≡ starts_with bytes_eq (kept_names (kinds (parts (body_items rest.entry))))
        (kept_names (kinds (parts (body_items base.entry)))) }
{
    let mut owed = 0;
    'deeper: for _ in 0..deeper {
        last_name(&mut rest, &mut owed);
    }
    let mut base_owed = 0;
    'names: while let Some(name) = last_name(&mut base, &mut base_owed) {
        match last_name(&mut rest, &mut owed) {
            Some(own) if name == own => {}
            _ => return false,
        }
    }
    true
}

/// Returns the index in `path` at which the leading components end that both paths share, compared
/// as they are written; 0 if they share none.
pub(crate) fn shared_end<T: Encoding>(path: Path<'_, T>, other: Path<'_, T>) -> usize
    ensures end { result ≡ shared_end T.dialect (path_bytes path.entry) (path_bytes other.entry) }
    ensures within { result ≤ length (path_bytes path.entry) }
{
    if let Some(end) = shared_by_bytes(T::cursor(path.as_bytes()), T::cursor(other.as_bytes())) {
        return end;
    }
    shared_by_components(path, other)
}

/// Returns what [`shared_end`] does, of two paths without a prefix, if a look at their bytes tells.
/// `None` leaves it open.
#[inline(always)]
fn shared_by_bytes(own: Cursor<'_>, other: Cursor<'_>) -> Option<usize>
    ensures { IfSome result
        (λ end. IsSharedEnd (items_left own.entry) (items_left other.entry) end) }
{
    if own.has_prefix() || other.has_prefix() {
        return None;
    }
    let own = own.body();
    let other = other.body();
    let separators = own.separators;
    if !own.is_whole() || !other.is_whole() || !separators.is_same(other.separators) {
        return None;
    }
    if own.from != 0 || other.from != 0 {
        return None;
    }
    let text = own.as_bytes();
    let front = shared_front(text, other.as_bytes(), separators)?;
    Some(Body::new(&text[..front], 0, separators).last_end())
}

/// Returns what [`shared_end`] does, by reading both paths component by component.
fn shared_by_components<T: Encoding>(path: Path<'_, T>, other: Path<'_, T>) -> usize
    ensures end { result ≡ shared_end T.dialect (path_bytes path.entry) (path_bytes other.entry) }
    ensures within { result ≤ length (path_bytes path.entry) }
{
    let len = path.as_bytes().len();
    let mut own = path.components();
    let mut others = other.components();
    let mut end = 0;
    'pieces: while let Some(wanted) = others.next() {
        let start = len - own.as_bytes().len();
        match own.next() {
            Some(piece) if piece.text == wanted.text => end = start + piece.text.len(),
            _ => return end,
        }
    }
    end
}
