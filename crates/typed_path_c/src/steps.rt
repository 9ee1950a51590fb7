//! Steps of a reading that the caller keeps as three numbers.

ghost use Rattle.std.specs.Prelude.{◌≡◌, ◌≤◌, ◌+◌, length, drop, option_map, MatchResult};
ghost use Rattle.typed_path.specs.components.{unix, windows};
ghost use Rattle.typed_path.specs.scan.{first_of, last_of, but_last};
ghost use Rattle.typed_path.specs.typed.{typed_dialect};
ghost use Rattle.typed_path.specs.views.TypedViews.{typed_bytes};
ghost use Rattle.typed_path.specs.views.UnreadViews.{placed_of};
ghost use Rattle.typed_path_c.specs.Answers.{done};
ghost use Rattle.typed_path_c.specs.Steps.{bad_reading, Begins, Steps, StepsIn, StepsFront, StepsBack, Told};

use crate::parts::{Component, kind_number};
use crate::status::{BAD_DIALECT, BAD_READING, DONE, NONE};
use typed_path::{PlacedPiece, ReadingError, TypedPath, Unread};

/// Takes the first component that is left of the reading of the path at `reading`, and moves
/// `reading` past it. [`NONE`] if none is left. [`BAD_READING`] if no reading of the path may stand
/// at these numbers; then they and `component` are unchanged.
#[unsafe(no_mangle)]
pub extern "C" fn typed_path_next(
    dialect: u32,
    path: &[u8],
    reading: &mut Unread,
    component: &mut Component,
) -> u32
    ensures begins { Begins path.now }
    ensures step { Steps first_of (drop 1) dialect path.now reading.old reading.new component.old
        component.new result }
    ensures after { StepsFront dialect path.now reading.old reading.new component.old
        component.new result }
    ensures within { result ≡ done → component.new.start + component.new.length ≤ length path.now }
{
    next(dialect, path, reading, component)
}

/// Does what [`typed_path_next`] does, with the clauses of one step alone.
#[inline(always)]
fn next(dialect: u32, path: &[u8], reading: &mut Unread, component: &mut Component) -> u32
    ensures step { Steps first_of (drop 1) dialect path.now reading.old reading.new component.old
        component.new result }
    ensures within { result ≡ done → component.new.start + component.new.length ≤ length path.now }
{
    // Each is compiled for the separators of its dialect, and for what is known of the numbers:
    // behind a component no root is looked for.
    match dialect {
        0 if reading.stage == 2 => take_first(TypedPath::unix(path), reading, component),
        0 => take_first_of_unix(path, reading, component),
        1 => take_first_of_windows(path, reading, component),
        _ => BAD_DIALECT,
    }
}

/// Does what [`typed_path_next`] does, for a Unix path of which no component was taken, mostly.
#[inline(always)]
fn take_first_of_unix(path: &[u8], reading: &mut Unread, component: &mut Component) -> u32
    ensures step { StepsIn first_of (drop 1) unix path.now reading.old reading.new component.old
        component.new result }
    ensures within { result ≡ done → component.new.start + component.new.length ≤ length path.now }
{
    // A root is taken with no search, and a name with no look for a root.
    match path {
        [b'/', ..] if reading.from == 0 => take_first(TypedPath::unix(path), reading, component),
        [_, ..] if reading.from == 0 => take_first(TypedPath::unix(path), reading, component),
        _ => take_first_within(path, reading, component),
    }
}

/// Does what [`typed_path_next`] does, for a Unix path. A call of its own, since what it serves is
/// rare.
#[inline(never)]
fn take_first_within(path: &[u8], reading: &mut Unread, component: &mut Component) -> u32
    ensures step { StepsIn first_of (drop 1) unix path.now reading.old reading.new component.old
        component.new result }
    ensures within { result ≡ done → component.new.start + component.new.length ≤ length path.now }
{
    take_first(TypedPath::unix(path), reading, component)
}

/// Does what [`typed_path_next`] does, for a Windows path. A call of its own, so that a step on Unix
/// saves no registers for it.
#[inline(never)]
fn take_first_of_windows(path: &[u8], reading: &mut Unread, component: &mut Component) -> u32
    ensures step { StepsIn first_of (drop 1) windows path.now reading.old reading.new component.old
        component.new result }
    ensures within { result ≡ done → component.new.start + component.new.length ≤ length path.now }
{
    // Behind a component no root is looked for.
    if reading.stage == 2 {
        return take_first(TypedPath::windows(path), reading, component);
    }
    take_first(TypedPath::windows(path), reading, component)
}

/// Does what [`typed_path_next`] does, for a path in its dialect.
#[inline(always)]
fn take_first(path: TypedPath<'_>, reading: &mut Unread, component: &mut Component) -> u32
    ensures step { StepsIn first_of (drop 1) (typed_dialect path.entry) (typed_bytes path.entry)
        reading.old reading.new component.old component.new result }
    ensures within { result ≡ done
        → component.new.start + component.new.length ≤ length (typed_bytes path.entry) }
{
    tell(path.step_front(reading), component)
}

/// Takes the last component that is left of the reading of the path at `reading`, and moves
/// `reading` before it. [`NONE`] if none is left. [`BAD_READING`] if no reading of the path may
/// stand at these numbers; then they and `component` are unchanged.
#[unsafe(no_mangle)]
pub extern "C" fn typed_path_next_back(
    dialect: u32,
    path: &[u8],
    reading: &mut Unread,
    component: &mut Component,
) -> u32
    ensures step { Steps last_of but_last dialect path.now reading.old reading.new component.old
        component.new result }
    ensures after { StepsBack dialect path.now reading.old reading.new component.old
        component.new result }
    ensures within { result ≡ done → component.new.start + component.new.length ≤ length path.now }
{
    next_back(dialect, path, reading, component)
}

/// Does what [`typed_path_next_back`] does, with the clauses of one step alone.
#[inline(always)]
fn next_back(dialect: u32, path: &[u8], reading: &mut Unread, component: &mut Component) -> u32
    ensures step { Steps last_of but_last dialect path.now reading.old reading.new component.old
        component.new result }
    ensures within { result ≡ done → component.new.start + component.new.length ≤ length path.now }
{
    match dialect {
        0 => take_last(TypedPath::unix(path), reading, component),
        1 => take_last(TypedPath::windows(path), reading, component),
        _ => BAD_DIALECT,
    }
}

/// Does what [`typed_path_next_back`] does, for a path in its dialect.
#[inline(always)]
fn take_last(path: TypedPath<'_>, reading: &mut Unread, component: &mut Component) -> u32
    ensures step { StepsIn last_of but_last (typed_dialect path.entry) (typed_bytes path.entry)
        reading.old reading.new component.old component.new result }
    ensures within { result ≡ done
        → component.new.start + component.new.length ≤ length (typed_bytes path.entry) }
{
    tell(path.step_back(reading), component)
}

/// Sets `component` to what a step took, and returns [`DONE`]. If nothing was left, or the step was
/// refused, returns [`NONE`] or [`BAD_READING`], and `component` is unchanged.
#[inline(always)]
fn tell(step: Result<Option<PlacedPiece<'_>>, ReadingError>, component: &mut Component) -> u32
    ensures { MatchResult step.entry (λ taken. Told (option_map placed_of taken) component.old component.new result)
        (λ _. (result ≡ bad_reading) × (component.new ≡ component.old)) }
{
    match step {
        Ok(Some(taken)) => {
            *component = Component {
                start: taken.start,
                length: taken.piece.text.len(),
                kind: kind_number(taken.piece),
            };
            DONE
        }
        Ok(None) => NONE,
        Err(_) => BAD_READING,
    }
}
