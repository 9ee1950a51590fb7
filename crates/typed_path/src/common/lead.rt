//! Where a path leads: whether it is anchored, which `..` are unmatched, and which names are kept.
//!
//! A `..` cancels the nearest name before it that no other one has cancelled; it is unmatched if
//! there is none. A name is kept if no `..` cancels it.

ghost use Rattle.std.specs.Prelude.{◌≡◌, ◌+◌, ◌++◌, ◌∷◌, ◌<◌, ◌≤◌, ◌^◌, [], length, MatchOption, ℕ, IfSome, if◌then◌else◌};
ghost use Rattle.typed_path.specs.components.{kinds, parts};
ghost use Rattle.typed_path.specs.places.{is_anchored, kept_names, names_under, unmet, unmet_under};
ghost use Rattle.typed_path.specs.views.BodyViews.{body_items};
ghost use Rattle.typed_path.specs.views.CursorViews.{items_left};

use crate::scan::{Body, Cursor, StepKind};

/// Where a path leads, without its prefix and the names themselves.
#[derive(Clone, Copy)]
pub(crate) struct Lead {
    /// Whether it is anchored: it begins with a root, written or implied by a prefix other than a
    /// drive `C:`.
    pub is_anchored: bool,
    /// How many `..` are unmatched: they have no name to cancel.
    pub unmet: usize,
    /// How many names are kept: no `..` cancels them.
    pub names: usize,
}

impl Lead {
    /// Returns how many `..` lead above where the path begins; 0 if it is anchored.
    ///
    /// Else these are the unmatched ones.
    #[inline(always)]
    pub(crate) fn rising(self) -> usize
        ensures { result ≡ (if self.is_anchored then 0 else self.unmet) }
    {
        if self.is_anchored { 0 } else { self.unmet }
    }
}

/// Returns where a path leads, counted over all its components.
#[tactic(auto, using(crate::proofs::lemmas::places::KeptFromBack::few_behind_prefix, crate::proofs::lemmas::places::KeptFromBack::kept_behind_prefix, crate::proofs::lemmas::places::KeptFromBack::unmet_behind_prefix))]
#[inline(always)]
pub(crate) fn lead_of(cursor: Cursor<'_>) -> Lead
    requires { length (items_left cursor) < 2 ^ 64 }
    ensures anchored { result.is_anchored ≡ is_anchored (kinds (parts (items_left cursor.entry))) }
    ensures unmet { result.unmet ≡ unmet (kinds (parts (items_left cursor.entry))) }
    ensures names { result.names
        ≡ length (kept_names (kinds (parts (items_left cursor.entry)))) }
{
    let depth = depth_of(cursor.body());
    Lead {
        is_anchored: begins_rooted(cursor),
        unmet: depth.unmet,
        names: depth.names,
    }
}

/// How many `..` of a path are unmatched, and how many names are kept.
#[derive(Clone, Copy)]
struct Depth {
    unmet: usize,
    names: usize,
}

/// Counts the unmatched `..` and the kept names of what is left.
#[inline(always)]
fn depth_of(mut rest: Body<'_>) -> Depth
    requires { length (body_items rest) < 2 ^ 64 }
    ensures unmet { result.unmet ≡ unmet (kinds (parts (body_items rest.entry))) }
    ensures names { result.names ≡ length (kept_names (kinds (parts (body_items rest.entry)))) }
{
    let mut owed = 0;
    let mut names = 0;
    'names: while last_name(&mut rest, &mut owed).is_some() {
        names += 1;
    }
    Depth { unmet: owed, names }
}

/// Whether a path is anchored: it begins with a root, written or implied by a prefix other than a
/// drive `C:`.
#[inline(always)]
pub(crate) fn begins_rooted(cursor: Cursor<'_>) -> bool
    ensures { result ≡ is_anchored (kinds (parts (items_left cursor.entry))) }
{
    cursor.has_implicit_root() || cursor.has_physical_root()
}

/// Takes components from the back up to the last kept name, and returns that.
///
/// `None` if no kept name is left; then all are taken. `owed` counts the `..` that were taken and
/// have not yet cancelled a name.
#[inline(always)]
pub(crate) fn last_name<'a>(rest: &mut Body<'a>, owed: &mut usize) -> Option<&'a [u8]>
    requires { owed.old + length (body_items rest.old) < 2 ^ 64 }
    ensures name { MatchOption result (names_under owed.old (body_items rest.old) ≡ [])
        (λ name. names_under owed.old (body_items rest.old)
        ≡ names_under owed.new (body_items rest.new) ++ name.now ∷ []) }
    ensures unmet { unmet_under owed.new (body_items rest.new)
        ≡ unmet_under owed.old (body_items rest.old) }
    ensures within { owed.new + length (body_items rest.new)
        ≤ owed.old + length (body_items rest.old) }
    ensures taken { IfSome result (λ _. owed.new + length (body_items rest.new)
        < owed.old + length (body_items rest.old)) }
    ensures end { MatchOption result (owed.new ≡ unmet_under owed.old (body_items rest.old))
        (λ _. ℕ) }
{
    'steps: while let Some(step) = rest.back() {
        match step.kind {
            StepKind::ParentDir => *owed += 1,
            StepKind::Normal if *owed == 0 => return Some(step.text),
            StepKind::Normal => *owed -= 1,
            _ => {}
        }
    }
    None
}
