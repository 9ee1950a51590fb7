//! `..` and names written in rows, each with a separator after it; and the clean path, which is
//! made of such rows. Which names are kept, and which `..` unmatched, is said in `lead`. If
//! allocation fails, a call may leave a part of what it appends, unless its comment says otherwise.

ghost use Rattle.std.specs.Prelude.{◌≡◌, ◌<◌, ◌≤◌, ◌+◌, ◌++◌, ◌∷◌, List, ℕ, [], take, length, IfOk, IsOk, OnOk, OnErr, MatchOption, ◌||◌, false, drop, is_some, if◌then◌else◌, Some};
ghost use Rattle.std.specs.List.{slice_split};
ghost use Rattle.std.specs.Vec.{vec_len, vec_capacity};
ghost use Rattle.typed_path.specs.changes.{Puts, PutsPart};
ghost use Rattle.typed_path.specs.components.{Kind, is_separator, windows, dialect_of, prefix_of, body, parts, kinds};
ghost use Rattle.typed_path.specs.places.{AreKept, ArePut, TellsNamesOf, kept_segments, row_end, rows_of, segment_kind, segment_kinds, behind_head, clean_text, cleaned, unheaded};
ghost use Rattle.typed_path.specs.scan.{turned};
ghost use Rattle.typed_path.specs.queries.{begins_with_root};
ghost use Rattle.typed_path.specs.views.PieceViews.{found_of};

use crate::common::encoding::Encoding;
use crate::common::writing::{
    append_first, behind_segment, cut_back, drop_name, drop_separator, has_room, put_turned,
};
use crate::scan::{
    Body, Found, Leading, Separators, StepKind, WindowsPrefix, cut_at_separator, find_prefix,
    leading_short_names, step_of,
};
use std::alloc::AllocError;

/// Appends the clean path of `path` to `text`. If allocation fails, `text` keeps its bytes.
pub(crate) fn put_clean<T: Encoding>(text: &mut Vec<u8>, path: &[u8]) -> Result<(), AllocError>
    ensures { Puts result text.old text.new (clean_text T.dialect path.now) (length path.now + 2) }
{
    let len = text.len();
    let done = put_whole::<T>(text, path);
    cut_back(text, len, done)
}

/// Appends the clean path of `path` to `text`. If allocation fails, a part of it may stay.
#[inline(always)]
fn put_whole<T: Encoding>(text: &mut Vec<u8>, path: &[u8]) -> Result<(), AllocError>
    ensures { PutsPart result text.old text.new
        (clean_text T.dialect path.now)
        (length path.now + 2) }
{
    if !T::is_windows() {
        return put_bare(text, path, Separators::Slash);
    }
    match find_prefix(path) {
        None => put_bare(text, path, Separators::Either),
        Some(found) => put_prefixed(text, path, found),
    }
}

/// Appends the clean path of a path without a prefix.
#[inline(always)]
fn put_bare(text: &mut Vec<u8>, path: &[u8], separators: Separators) -> Result<(), AllocError>
    ensures { PutsPart result text.old text.new
        (cleaned (dialect_of separators) (parts (body separators 0 path.now)))
        (length path.now + 2) }
{
    let start = text.len();
    if put_headed(text, path, 0, false, separators)? {
        return Ok(());
    }
    put_apart(text, start, separators)
}

/// Appends the clean path of a Windows path with the prefix `found`, which is kept as it is
/// written.
#[inline(always)]
fn put_prefixed(text: &mut Vec<u8>, path: &[u8], found: Found<'_>) -> Result<(), AllocError>
    requires { Some (found_of found) ≡ prefix_of windows path.now }
    ensures { PutsPart result text.old text.new
        (clean_text windows path.now)
        (length path.now + 2) }
{
    let implied = !matches!(found.kind, WindowsPrefix::Disk(_));
    put_headed(
        text,
        path,
        found.length,
        implied,
        Separators::of_windows(path),
    )?;
    Ok(())
}

/// Appends `path[..end]`, the prefix, then a root, and then the `..` and names that the clean path
/// has of the rest. The root is appended if the path has one, or if the prefix implies one, as
/// `implied` says, and something follows. Returns whether the path has one that is written.
#[inline(always)]
fn put_headed(
    text: &mut Vec<u8>,
    path: &[u8],
    end: usize,
    implied: bool,
    separators: Separators,
) -> Result<bool, AllocError>
    requires { end ≤ length path.now }
    ensures ok { IfOk result (λ rooted. text.new.items ≡ text.old.items
        ++ behind_head (row_end separators) (take end path.now) rooted implied (kept_segments
        (implied || rooted) (kinds (parts (body separators 0 (drop end path.now)))))) }
    ensures rooted { IfOk result (λ rooted. rooted
        ≡ begins_with_root (kinds (parts (body separators 0 (drop end path.now))))) }
    ensures kept { take (length text.old.items) text.new.items ≡ text.old.items }
    ensures short { IfOk result (λ rooted. rooted ≡ false → implied ≡ false
        → vec_len text.new ≤ vec_len text.old + length path.now) }
    ensures capacity { vec_capacity text.old ≤ vec_capacity text.new }
    ensures succeeds { vec_len text.old + length path.now + 2 ≤ vec_capacity text.old
        → IsOk result }
{
    let rest = &path[end..];
    let rooted = Body::new(rest, 0, separators).has_physical_root();
    let anchored = implied | rooted;
    append_first(text, path, end)?;
    let alone = text.len() + usize::from(rooted);
    if anchored {
        text.push(row_end(separators))?;
    }
    put_kept(text, rest, separators, anchored)?;
    drop_separator(text, alone);
    Ok(rooted)
}

/// Puts `.` and a separator before `text[start..]` if that begins with what would be read as a
/// prefix. Appends `.` if it is empty.
#[inline(always)]
pub(crate) fn put_apart(
    text: &mut Vec<u8>,
    start: usize,
    separators: Separators,
) -> Result<(), AllocError>
    requires { start ≤ length text.old.items }
    ensures ok { OnOk result (text.new.items ≡ take start text.old.items
        ++ unheaded (dialect_of separators) (drop start text.old.items)) }
    ensures kept { take start text.new.items ≡ take start text.old.items }
    ensures capacity { vec_capacity text.old ≤ vec_capacity text.new }
    ensures succeeds { vec_len text.old + 2 ≤ vec_capacity text.old → IsOk result }
{
    if text.len() == start {
        text.push(b'.')?;
        return Ok(());
    }
    if has_prefix(&text[start..], separators) {
        text.insert(start, row_end(separators))?;
        text.insert(start, b'.')?;
    }
    Ok(())
}

/// Whether a text begins with a prefix; a Unix path never does.
#[inline(always)]
fn has_prefix(text: &[u8], separators: Separators) -> bool
    ensures { result ≡ is_some (prefix_of (dialect_of separators) text.now) }
{
    match separators {
        Separators::Slash => false,
        Separators::Backslash | Separators::Either => find_prefix(text).is_some(),
    }
}

/// The body of [`put_kept_by`] and of [`put_kept_by_slashes`]: copies names that stand side by side
/// at once, and applies the segment after them. If no names are found at the front, or what is left
/// may not fit the capacity, it goes on segment by segment.
///
/// It is a macro so that the compiler knows the separators if only `/` separates. That saves a
/// tenth of the time, and more where few names stand side by side.
macro_rules! settle {
    ($text:ident, $path:ident, $anchored:ident, $separators:expr, $each:ident $(, $own:ident)?) => {{
        let mut floor = $text.len();
        let mut rest = behind_segment(b"", $path, $separators);
        'segments: loop {
            let names = leading_names(rest, $separators);
            if matches!(names, Leading::First(0)) || !has_room($text, rest) {
                return $each($text, floor, rest, $($own,)? $anchored);
            }
            let Some(left) = put_names($text, rest, names, $separators)? else {
                return Ok(());
            };
            let Some((segment, behind)) = cut_at_separator($separators, left) else {
                put_segment($text, floor, left, left, $separators, $anchored)?;
                return Ok(());
            };
            floor = put_segment($text, floor, segment, left, $separators, $anchored)?;
            rest = behind_segment(segment, behind, $separators);
        }
    }};
}

/// The body of [`put_one_by_one`] and of [`put_each_by_slashes`]: puts segment by segment. It is a
/// macro for the same reason as `settle`.
macro_rules! settle_each {
    ($text:ident, $floor:ident, $path:ident, $separators:expr, $anchored:ident) => {{
        let mut begin = $floor;
        let mut rest = $path;
        'segments: while let Some((segment, behind)) = cut_at_separator($separators, rest) {
            begin = put_segment($text, begin, segment, rest, $separators, $anchored)?;
            rest = behind_segment(segment, behind, $separators);
        }
        put_segment($text, begin, rest, rest, $separators, $anchored)?;
        Ok(())
    }};
}

/// Appends the `..` of a path that have no name to cancel, or none of them if `anchored`, and then
/// the names that no `..` cancels, each with a separator after it. `path` is what comes after the
/// prefix; a root in front adds nothing.
#[inline(always)]
pub fn put_kept(
    text: &mut Vec<u8>,
    path: &[u8],
    separators: Separators,
    anchored: bool,
) -> Result<(), AllocError>
    ensures puts { PutsPart result text.old text.new
        (rows_of separators (kept_segments anchored (segment_kinds separators path.now)))
        (length path.now + 1) }
    ensures room { OnOk result (vec_len text.new ≤ vec_len text.old + length path.now + 1) }
{
    match separators {
        Separators::Slash => put_kept_by_slashes(text, path, anchored),
        Separators::Backslash | Separators::Either => put_kept_by(text, path, separators, anchored),
    }
}

/// Appends the unmatched `..` and the kept names of `path`, as [`put_kept`] does.
fn put_kept_by(
    text: &mut Vec<u8>,
    path: &[u8],
    separators: Separators,
    anchored: bool,
) -> Result<(), AllocError>
    ensures puts { PutsPart result text.old text.new
        (rows_of separators (kept_segments anchored (segment_kinds separators path.now)))
        (length path.now + 1) }
    ensures room { OnOk result (vec_len text.new ≤ vec_len text.old + length path.now + 1) }
{
    settle!(text, path, anchored, separators, put_one_by_one, separators)
}

/// Appends the unmatched `..` and the kept names of `path`, each with a `/` after it.
///
/// Only `/` separates. If `anchored`, no `..` is appended. A root in front adds nothing.
pub fn put_kept_by_slashes(
    text: &mut Vec<u8>,
    path: &[u8],
    anchored: bool,
) -> Result<(), AllocError>
    ensures puts { PutsPart result text.old text.new
        (rows_of Separators.Slash (kept_segments anchored (segment_kinds Separators.Slash path.now)))
        (length path.now + 1) }
    ensures room { OnOk result (vec_len text.new ≤ vec_len text.old + length path.now + 1) }
{
    settle!(text, path, anchored, Separators::Slash, put_each_by_slashes)
}

/// Returns how much at the front of `text` is names, as [`leading_short_names`] tells.
#[inline(always)]
fn leading_names(text: &[u8], separators: Separators) -> Leading
    ensures { TellsNamesOf separators text.now result }
{
    leading_short_names(text, separators.pair())
}

/// Appends the segments of `path` one by one to the names in `text[floor..]`; a `..` removes the
/// last name, as [`put_segment`] does. `text[..floor]` stays, also if allocation fails.
#[inline(always)]
fn put_one_by_one(
    text: &mut Vec<u8>,
    floor: usize,
    path: &[u8],
    separators: Separators,
    anchored: bool,
) -> Result<(), AllocError>
    requires { floor ≤ length text.old.items }
    ensures ok { OnOk result ((head : List ℕ) (whole : List Kind)
        → AreKept separators anchored head text.old.items floor (segment_kinds separators path.now)
        whole → text.new.items ≡ head ++ rows_of separators (kept_segments anchored whole)) }
    ensures kept { take floor text.new.items ≡ take floor text.old.items }
    ensures room { OnOk result (vec_len text.new ≤ vec_len text.old + length path.now + 1) }
    ensures capacity { vec_capacity text.old ≤ vec_capacity text.new }
    ensures succeeds { vec_len text.old + length path.now < vec_capacity text.old → IsOk result }
{
    settle_each!(text, floor, path, separators, anchored)
}

/// Applies the segments of `path`, in which only `/` separates, to the names in `text[floor..]`.
///
/// It applies them one by one, as [`put_segment`] does.
#[inline(always)]
fn put_each_by_slashes(
    text: &mut Vec<u8>,
    floor: usize,
    path: &[u8],
    anchored: bool,
) -> Result<(), AllocError>
    requires { floor ≤ length text.old.items }
    ensures ok { OnOk result ((head : List ℕ) (whole : List Kind)
        → AreKept Separators.Slash anchored head text.old.items floor
        (segment_kinds Separators.Slash path.now) whole
        → text.new.items ≡ head ++ rows_of Separators.Slash (kept_segments anchored whole)) }
    ensures kept { take floor text.new.items ≡ take floor text.old.items }
    ensures room { OnOk result (vec_len text.new ≤ vec_len text.old + length path.now + 1) }
    ensures capacity { vec_capacity text.old ≤ vec_capacity text.new }
    ensures succeeds { vec_len text.old + length path.now < vec_capacity text.old → IsOk result }
{
    settle_each!(text, floor, path, Separators::Slash, anchored)
}

/// Appends the unmatched `..` and the kept names of `path`, as [`put_kept_by_slashes`] does.
///
/// It looks for no run of names in front, but goes segment by segment from the first.
#[inline(always)]
pub fn put_each_segment(text: &mut Vec<u8>, path: &[u8], anchored: bool) -> Result<(), AllocError>
    ensures puts { PutsPart result text.old text.new
        (rows_of Separators.Slash (kept_segments anchored (segment_kinds Separators.Slash path.now)))
        (length path.now + 1) }
    ensures room { OnOk result (vec_len text.new ≤ vec_len text.old + length path.now + 1) }
{
    let len = text.len();
    put_each_by_slashes(text, len, path, anchored)
}

/// Appends the names at the front of `path`, each with a separator after it, and returns what is
/// left of `path`; `Ok(None)` if each of its segments was a name. `names` is what [`leading_names`]
/// returns of `path`.
#[inline(always)]
pub fn put_names<'a>(
    text: &mut Vec<u8>,
    path: &'a [u8],
    names: Leading,
    separators: Separators,
) -> Result<Option<&'a [u8]>, AllocError>
    requires { TellsNamesOf separators path.now names }
    ensures ok { IfOk result (λ left. MatchOption left
        (ArePut separators text.old.items text.new.items
        (slice_split (is_separator separators) path.now) [])
        (λ rest. ArePut separators text.old.items text.new.items
        (slice_split (is_separator separators) path.now)
        (slice_split (is_separator separators) rest.now))) }
    ensures front { take (length text.old.items) text.new.items ≡ text.old.items }
    ensures room { IfOk result (λ left. MatchOption left
        (vec_len text.new ≡ vec_len text.old + length path.now + 1)
        (λ rest. vec_len text.new + length rest.now ≡ vec_len text.old + length path.now)) }
    ensures capacity { vec_capacity text.old ≤ vec_capacity text.new }
    ensures succeeds { vec_len text.old + length path.now < vec_capacity text.old → IsOk result }
{
    let Leading::First(names) = names else {
        put_turned_where(text, path, separators)?;
        text.push(row_end(separators))?;
        return Ok(None);
    };
    put_turned_where(text, &path[..names], separators)?;
    Ok(Some(&path[names..]))
}

/// Appends `source` with each of its separators written as [`row_end`] writes it. If allocation
/// fails, `text` keeps its bytes.
#[inline(always)]
pub(crate) fn put_turned_where(
    text: &mut Vec<u8>,
    source: &[u8],
    separators: Separators,
) -> Result<(), AllocError>
    ensures { Puts result text.old text.new
        (turned separators (row_end separators) source.now)
        (length source.now) }
{
    match separators {
        Separators::Either => put_turned(text, source, Separators::Either, b'\\'),
        Separators::Slash | Separators::Backslash => text.extend_from_slice(source),
    }
}

/// Applies `segment`, with which `rest` begins, to the names in `text[floor..]`, and returns the
/// index at which the names begin then. A name is appended. A `..` removes the last name; if there
/// is none, it is appended, and the names begin after it, or it vanishes if `anchored`. An empty
/// segment and `.` do nothing.
#[inline(always)]
fn put_segment(
    text: &mut Vec<u8>,
    floor: usize,
    segment: &[u8],
    rest: &[u8],
    separators: Separators,
    anchored: bool,
) -> Result<usize, AllocError>
    requires within { floor ≤ length text.old.items }
    requires front { take (length segment.now) rest.now ≡ segment.now }
    ensures ok { IfOk result (λ next. (head : List ℕ) (left whole : List Kind)
        → slice_split (is_separator separators) segment.now ≡ segment.now ∷ []
        → AreKept separators anchored head text.old.items floor
        (segment_kind segment.now ∷ left) whole
        → AreKept separators anchored head text.new.items next left whole) }
    ensures within { IfOk result (λ next. (floor ≤ next) × (next ≤ length text.new.items)) }
    ensures kept { take floor text.new.items ≡ take floor text.old.items }
    ensures long { floor ≤ length text.new.items }
    ensures room { vec_len text.new ≤ vec_len text.old + length segment.now + 1 }
    ensures capacity { vec_capacity text.old ≤ vec_capacity text.new }
    ensures succeeds { vec_len text.old + length rest.now < vec_capacity text.old → IsOk result }
{
    match step_of(segment, separators).kind {
        StepKind::ParentDir if anchored || floor < text.len() => {
            drop_name(text, floor, separators);
        }
        StepKind::ParentDir => {
            put_row(text, rest, segment.len(), separators)?;
            return Ok(text.len());
        }
        StepKind::Normal => put_row(text, rest, segment.len(), separators)?,
        StepKind::RootDir | StepKind::CurDir => {}
    }
    Ok(floor)
}

/// Appends the first `len` bytes of `rest`, and a separator.
#[inline(always)]
pub(crate) fn put_row(
    text: &mut Vec<u8>,
    rest: &[u8],
    len: usize,
    separators: Separators,
) -> Result<(), AllocError>
    requires { len ≤ length rest.now }
    ensures ok { OnOk result (text.new.items
        ≡ (text.old.items ++ take len rest.now) ++ row_end separators ∷ []) }
    ensures kept { take (length text.old.items) text.new.items ≡ text.old.items }
    ensures room { vec_len text.new ≤ vec_len text.old + len + 1 }
    ensures capacity { vec_capacity text.old ≤ vec_capacity text.new }
    ensures succeeds { vec_len text.old + length rest.now < vec_capacity text.old → IsOk result }
{
    append_first(text, rest, len)?;
    text.push(row_end(separators))?;
    Ok(())
}

/// Returns the separator that is written after a segment: `/` if only that separates, else `\`.
#[inline(always)]
pub fn row_end(separators: Separators) -> u8
    ensures { result ≡ row_end separators }
{
    match separators {
        Separators::Slash => b'/',
        Separators::Backslash | Separators::Either => b'\\',
    }
}
