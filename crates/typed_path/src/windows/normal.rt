//! The normal path of a Windows path. If allocation fails, a call may leave a part of what it
//! appends, unless its comment says otherwise.

ghost use Rattle.std.specs.Prelude.{◌≡◌, ◌<◌, ◌≤◌, ◌+◌, ◌-◌, ◌++◌, ℕ, List, [], false, true, take, drop, fold, length, map, IsTrue, IsSome, IfSome, IsOk, IfOk, OnOk, OnErr, None};
ghost use Rattle.std.specs.List.{list_any, slice_split};
ghost use Rattle.std.specs.Vec.{vec_len, vec_capacity};
ghost use Rattle.typed_path.specs.components.{windows, slash, backslash, colon, is_separator, drive};
ghost use Rattle.typed_path.specs.scan.{is_one_of};
ghost use Rattle.typed_path.specs.changes.{push_all, spells_anew, TellsNames};
ghost use Rattle.typed_path.specs.places.{normal_text, names_left_of, rows_of, settled, AreRowsOf, ArePlainRows, IsRowHead, IsPartedEither, TakesRows, HaveNoDisks, HasPlainNames, IsHeadOf};
ghost use Rattle.typed_path.specs.views.PieceViews.{found_of};

use crate::common::{
    append_first, behind_segment, cut_back, drop_name, drop_separator, has_room, put_names,
};
use crate::scan::{
    Cursor, Found, Leading, PieceKind, Separators, StepKind, WindowsPrefix, cut_at_separator,
    drive, find_prefix, has_long_front, is_free_of, leading_short_names, step_of,
};
use crate::windows::push::{is_separated, push_at, push_next};
use std::alloc::AllocError;

/// Appends the normal path of `path` to `text`. If allocation fails, `text` is unchanged.
pub fn put_normal(text: &mut Vec<u8>, path: &[u8]) -> Result<(), AllocError>
    ensures ok { OnOk result (text.new.items ≡ text.old.items ++ normal_text windows path.now) }
    ensures err { OnErr result (text.new.items ≡ text.old.items) }
    ensures capacity { vec_capacity text.old ≤ vec_capacity text.new }
    ensures succeeds { HasPlainNames windows path.now
        → vec_len text.old + length path.now < vec_capacity text.old → IsOk result }
{
    let len = text.len();
    let done = put_resolved(text, len, path);
    cut_back(text, len, done)
}

/// Appends the normal path of `path` to `text`, which has `start` bytes. If allocation fails, a
/// part of it may stay.
#[inline(always)]
fn put_resolved(text: &mut Vec<u8>, start: usize, path: &[u8]) -> Result<(), AllocError>
    requires { length text.old.items ≡ start }
    ensures ok { OnOk result (text.new.items ≡ text.old.items ++ normal_text windows path.now) }
    ensures kept { take start text.new.items ≡ take start text.old.items }
    ensures long { start ≤ length text.new.items }
    ensures capacity { vec_capacity text.old ≤ vec_capacity text.new }
    ensures succeeds { HasPlainNames windows path.now
        → vec_len text.old + length path.now < vec_capacity text.old → IsOk result }
{
    // Names are appended as they are, or each component is pushed if that may read otherwise.
    if let Some(head) = row_head(path) {
        if put_rows(text, head)? {
            return Ok(());
        }
        text.truncate(start);
    }
    push_resolved(text, start, path)
}

/// What a normal path begins with before its names, and what the names are read from.
#[derive(Clone, Copy, Debug)]
struct RowHead<'a> {
    /// The raw bytes of the prefix, or none.
    pub prefix: &'a [u8],
    /// `\`, or nothing.
    pub root: &'static [u8],
    /// The rest of the path, after its root.
    pub rest: &'a [u8],
}

/// Returns the head of `path`, its prefix and root, if the names after it may be appended as they
/// are. `None` if they have to be pushed.
#[inline(always)]
fn row_head(path: &[u8]) -> Option<RowHead<'_>>
    ensures rows { IfSome result (λ head.
        IsRowHead path.now (head.prefix.now ++ head.root.now) head.rest.now) }
    ensures head { IfSome result (λ head.
        IsHeadOf path.now head.prefix.now head.root.now head.rest.now) }
    ensures found { spells_anew windows path.now ≡ false → IsSome result }
{
    let Some(found) = find_prefix(path) else {
        return Some(head_behind(path, 0));
    };
    let head = head_behind(path, found.length);
    match found.kind {
        WindowsPrefix::Disk(_) => Some(head),
        _ if takes_rows(path, found, head) => Some(head),
        _ => None,
    }
}

/// Whether the names after the prefix `found`, which is not `C:`, may be appended as they are.
///
/// They may exactly if the prefix is not the verbatim one named `UNC`, as `\\?\UNC`; a root or
/// nothing follows it; and if `path` is read verbatim, no name holds a `/`. `head` is what
/// [`head_behind`] returns for that prefix.
#[inline(always)]
fn takes_rows(path: &[u8], found: Found<'_>, head: RowHead<'_>) -> bool
    requires { found.length ≤ length path.now }
    ensures takes { IsTrue result → TakesRows path.now (found_of found.entry)
        head.entry.root.now head.entry.rest.now }
    ensures told { TakesRows path.now (found_of found.entry)
        head.entry.root.now head.entry.rest.now → IsTrue result }
{
    let behind = &path[found.length..];
    !matches!(found.kind, WindowsPrefix::Verbatim(b"UNC"))
        && (!head.root.is_empty() || head.rest.is_empty())
        && !(Separators::of_windows(path).is_verbatim() && is_separated(Separators::Slash, behind))
}

/// Splits `path` in three: its first `end` bytes, which are its prefix; its root; and the rest.
#[inline(always)]
fn head_behind(path: &[u8], end: usize) -> RowHead<'_>
    requires { end ≤ length path.now }
    ensures prefix { result.prefix.now ≡ take end path.now }
    ensures parted { IsPartedEither (drop end path.now) result.root.now result.rest.now }
{
    let (prefix, rest) = path.split_at(end);
    match rest {
        [first, behind @ ..] if Separators::Either.contains(*first) => RowHead {
            prefix,
            root: b"\\",
            rest: behind,
        },
        _ => RowHead {
            prefix,
            root: b"",
            rest,
        },
    }
}

/// Appends `head` and then the names of its rest, with `\` between. Returns whether that is the
/// normal path: `false` if a name begins with a drive `C:`, which a push would read as a prefix;
/// what was appended is unspecified then.
#[inline(always)]
fn put_rows(text: &mut Vec<u8>, head: RowHead<'_>) -> Result<bool, AllocError>
    ensures ok { IfOk result (λ done. IsTrue done → (path : List ℕ)
        → IsRowHead path (head.entry.prefix.now ++ head.entry.root.now) head.entry.rest.now
        → text.new.items ≡ text.old.items ++ normal_text windows path) }
    ensures kept { take (length text.old.items) text.new.items ≡ text.old.items }
    ensures capacity { vec_capacity text.old ≤ vec_capacity text.new }
    ensures succeeds { vec_len text.old + length head.entry.prefix.now + length head.entry.root.now
        + length head.entry.rest.now < vec_capacity text.old → IsOk result }
    ensures told { HaveNoDisks (slice_split (is_separator Separators.Either) head.entry.rest.now)
        → IfOk result (λ done. IsTrue done) }
{
    text.extend_from_slice(head.prefix)?;
    text.extend_from_slice(head.root)?;
    let len = text.len();
    if !put_segments(text, len, head.rest)? {
        return Ok(false);
    }
    drop_separator(text, len);
    Ok(true)
}

/// The length in bytes from which on a path is searched as a whole before its segments are cut.
const ONE_BLOCK_AND_TWO: usize = 34;

/// Appends the names that `path` resolves to, each with `\` after it, and returns `true`.
///
/// If a segment begins with a drive `C:`, it returns `false`, and what was appended is unspecified.
/// The head before the names has `len` bytes, and is all of `text`.
fn put_segments(text: &mut Vec<u8>, len: usize, path: &[u8]) -> Result<bool, AllocError>
    requires { len ≤ length text.old.items }
    ensures ok { IfOk result (λ plain. IsTrue plain → (head : List ℕ) → length head ≡ len
        → AreRowsOf Separators.Either text.old.items head []
        → ArePlainRows text.new.items head path.now) }
    ensures kept { take len text.new.items ≡ take len text.old.items }
    ensures long { len ≤ length text.new.items }
    ensures capacity { vec_capacity text.old ≤ vec_capacity text.new }
    ensures succeeds { vec_len text.old + length path.now < vec_capacity text.old → IsOk result }
    ensures told { HaveNoDisks (slice_split (is_separator Separators.Either) path.now)
        → IfOk result (λ plain. IsTrue plain) }
{
    // Without room for all of `path`, segments are put one by one: that asks for less at once.
    if ONE_BLOCK_AND_TWO <= path.len()
        && !has_long_front(path, Separators::Either)
        && has_room(text, path)
    {
        let names = leading_short_names(path, (b'/', b'\\'));
        if !matches!(names, Leading::First(0)) && is_free_of((b':', b':'), path) {
            return put_undriven(text, len, path, names);
        }
    }
    put_one_by_one(text, len, path)
}

/// Appends the names that `path` resolves to, each with `\` after it, and returns `true`.
///
/// `path` has no `:`, so no name begins with a drive. The head before the names has `len` bytes,
/// and is all of `text`. `names` is what [`leading_short_names`] returns for `path`; names side by
/// side are appended at once.
fn put_undriven(
    text: &mut Vec<u8>,
    len: usize,
    path: &[u8],
    names: Leading,
) -> Result<bool, AllocError>
    requires within { len ≤ length text.old.items }
    requires free { list_any (is_one_of (colon, colon)) path.now ≡ false }
    requires names { TellsNames (slash, backslash) path.now names }
    ensures ok { IfOk result (λ plain. IsTrue plain → (head : List ℕ) → length head ≡ len
        → AreRowsOf Separators.Either text.old.items head []
        → ArePlainRows text.new.items head path.now) }
    ensures kept { take len text.new.items ≡ take len text.old.items }
    ensures long { len ≤ length text.new.items }
    ensures capacity { vec_capacity text.old ≤ vec_capacity text.new }
    ensures succeeds { vec_len text.old + length path.now < vec_capacity text.old → IsOk result }
    ensures told { IfOk result (λ plain. IsTrue plain) }
{
    let mut rest = path;
    let mut names = names;
    'segments: while let Some(left) = put_names(text, rest, names, Separators::Either)? {
        let Some((segment, behind)) = cut_at_separator(Separators::Either, left) else {
            return put_segment(text, len, left, left);
        };
        put_segment(text, len, segment, left)?;
        rest = behind_segment(segment, behind, Separators::Either);
        names = leading_short_names(rest, (b'/', b'\\'));
        if matches!(names, Leading::First(0)) {
            return put_one_by_one(text, len, rest);
        }
    }
    Ok(true)
}

/// Applies the segments of `path` to the names in `text[len..]`, one by one, as [`put_segment`]
/// does. Returns `false` if one begins with a drive `C:`; what was put is unspecified then.
#[inline(always)]
fn put_one_by_one(text: &mut Vec<u8>, len: usize, path: &[u8]) -> Result<bool, AllocError>
    requires { len ≤ length text.old.items }
    ensures ok { IfOk result (λ plain. IsTrue plain
        → (head whole : List ℕ) (names : List (List ℕ)) → length head ≡ len
        → AreRowsOf Separators.Either text.old.items head names → HaveNoDisks names
        → names_left_of Separators.Either whole
        ≡ fold settled names (slice_split (is_separator Separators.Either) path.now)
        → ArePlainRows text.new.items head whole) }
    ensures kept { take len text.new.items ≡ take len text.old.items }
    ensures long { len ≤ length text.new.items }
    ensures capacity { vec_capacity text.old ≤ vec_capacity text.new }
    ensures succeeds { vec_len text.old + length path.now < vec_capacity text.old → IsOk result }
    ensures told { HaveNoDisks (slice_split (is_separator Separators.Either) path.now)
        → IfOk result (λ plain. IsTrue plain) }
{
    let mut rest = path;
    'segments: while let Some((segment, behind)) = cut_at_separator(Separators::Either, rest) {
        if !put_segment(text, len, segment, rest)? {
            return Ok(false);
        }
        rest = behind_segment(segment, behind, Separators::Either);
    }
    put_segment(text, len, rest, rest)
}

/// Applies `segment`, the front of `rest`, to the names in `text[len..]`: appends a name and a `\`,
/// removes the last name, if there is one, for `..`, skips an empty segment and `.`. Returns
/// `false`, changing nothing, if it begins with a drive `C:`. With spare capacity for `rest` and
/// one byte more nothing is allocated.
#[inline(always)]
fn put_segment(
    text: &mut Vec<u8>,
    len: usize,
    segment: &[u8],
    rest: &[u8],
) -> Result<bool, AllocError>
    requires within { len ≤ length text.old.items }
    requires front { take (length segment.now) rest.now ≡ segment.now }
    ensures ok { IfOk result (λ plain. IsTrue plain → (head : List ℕ) (names : List (List ℕ))
        → length head ≡ len → AreRowsOf Separators.Either text.old.items head names
        → text.new.items ≡ head ++ rows_of Separators.Either (settled names segment.now)) }
    ensures plain { IfOk result (λ plain. IsTrue plain → drive segment.now ≡ None) }
    ensures told { drive segment.now ≡ None → IfOk result (λ plain. IsTrue plain) }
    ensures kept { take len text.new.items ≡ take len text.old.items }
    ensures long { len ≤ length text.new.items }
    ensures room { vec_len text.new ≤ vec_len text.old + length segment.now + 1 }
    ensures capacity { vec_capacity text.old ≤ vec_capacity text.new }
    ensures succeeds { vec_len text.old + length rest.now < vec_capacity text.old → IsOk result }
{
    if drive(segment).is_some() {
        return Ok(false);
    }
    match step_of(segment, Separators::Either).kind {
        StepKind::ParentDir => drop_name(text, len, Separators::Either),
        StepKind::Normal => {
            append_first(text, rest, segment.len())?;
            text.push(b'\\')?;
        }
        StepKind::RootDir | StepKind::CurDir => {}
    }
    Ok(true)
}

/// Appends the normal path of `path` to `text`, by pushes onto the empty path at its end.
///
/// It pushes the components that `path` resolves to, one by one. `text` has `start` bytes. If
/// allocation fails, a part of the normal path may stay.
#[cold]
fn push_resolved(text: &mut Vec<u8>, start: usize, path: &[u8]) -> Result<(), AllocError>
    requires { length text.old.items ≡ start }
    ensures ok { OnOk result (drop start text.new.items ≡ normal_text windows path.now) }
    ensures kept { take start text.new.items ≡ take start text.old.items }
    ensures long { start ≤ length text.new.items }
    ensures capacity { vec_capacity text.old ≤ vec_capacity text.new }
{
    let names = push_heads(text, start, path)?;
    let mut known = None;
    'names: for name in names.as_slice() {
        known = push_next(text, start, name, known)?;
    }
    Ok(())
}

/// The number of names for which memory is allocated first.
const NAMES: usize = 16;

/// Pushes the prefix and the root of `path` onto the empty path at the end of `text`.
///
/// `text` has `start` bytes. Returns the names of `path` that no `..` cancels.
fn push_heads<'a>(
    text: &mut Vec<u8>,
    start: usize,
    path: &'a [u8],
) -> Result<Vec<&'a [u8]>, AllocError>
    requires { length text.old.items ≡ start }
    ensures ok { IfOk result (λ names. normal_text windows path.now
        ≡ push_all windows (drop start text.new.items) (map (λ n. n.now) names.items)) }
    ensures kept { take start text.new.items ≡ take start text.old.items }
    ensures long { start ≤ length text.new.items }
    ensures capacity { vec_capacity text.old ≤ vec_capacity text.new }
{
    let mut names = Vec::with_capacity(*text.allocator(), NAMES)?;
    let mut components = Cursor::of_windows(path);
    'pieces: while let Some(piece) = components.front() {
        match piece.kind {
            PieceKind::Prefix(_) | PieceKind::RootDir => {
                let len = text.len();
                push_at(text, start, len, piece.text, None)?;
            }
            PieceKind::CurDir => {}
            PieceKind::ParentDir => {
                names.pop();
            }
            PieceKind::Normal => names.push(piece.text)?,
        }
    }
    Ok(names)
}
