//! Pushes of one Windows path onto another.
//!
//! Under a verbatim prefix, as `\\?\C:`, a push merges the components of the other path into those
//! of the base, and spells the result: the prefix, the root, and the other components with one `\`
//! between. A path with a verbatim prefix is *spelled* if it is written so already. The components
//! after a prefix are *parted* from it if they have no root, so that a `\` is put between. If
//! allocation fails, a call may leave a part of what it appends, unless its comment says otherwise.

ghost use Rattle.std.specs.Prelude.{◌≡◌, ◌≤◌, ◌+◌, ◌++◌, ℕ, List, IsTrue, true, false, take, drop, slice_range, length, IfOk, IsOk, OnOk, OnErr, Some, ◌<◌, ◌∷◌, [], Bool, IfSome, is_some, not};
ghost use Rattle.std.specs.Vec.{vec_capacity, vec_len};
ghost use Rattle.std.specs.List.{list_any, list_all, slice_split};
ghost use Rattle.typed_path.specs.components.{windows, is_separator, parts_of, kinds, Part, parts, prefix_of, Found, is_empty, later_body};
ghost use Rattle.typed_path.specs.changes.{push_windows, put_in_place, IsNoneOrSeparator, merges, ended_windows, is_disk_alone, raw_length, FitsPush, without_last_name, merge_by_kind, merged, spelled, spells_anew, IsKnown, is_component, TellsSpelled, IsSpelledHead, IsStanding, IsMergeable, AreMergeable, AreReadBehind, Stands, IsSpelled, IsPutBehind, room_of, HoldsNames, names_of, jointed};
ghost use Rattle.typed_path.specs.queries.{has_any_verbatim_prefix, is_verbatim_prefix, has_prefix};
ghost use Rattle.typed_path.specs.views.CursorViews.{items_left};
ghost use Rattle.typed_path.specs.views.PieceViews.{part_of};

use crate::common::{PushPlace, put_over, turn_behind};
use crate::scan::{
    Cursor, Piece, PieceKind, Separators, after_mark, before_last_separator, begins_with_two,
    cut_at_separator, drive, find_prefix, has_only_names, is_dots,
};
use std::alloc::{AllocError, Global};

/// Pushes `other` onto the Windows path `text[start..kept]`, and cuts off what follows `kept`. If
/// allocation fails, `text` is unchanged. `known` is what [`push_next`] returned for the path, or
/// `None`; if it is wrong, the result is unspecified.
pub fn push_at(
    text: &mut Vec<u8>,
    start: usize,
    kept: usize,
    other: &[u8],
    known: Option<usize>,
) -> Result<(), AllocError>
    requires ordered { start ≤ kept }
    requires within { kept ≤ length text.old.items }
    ensures ok { IsKnown windows known (slice_range text.old.items start kept) → OnOk result
        (text.new.items ≡ take start text.old.items
        ++ push_windows (slice_range text.old.items start kept) other.now) }
    ensures err { OnErr result (text.new.items ≡ text.old.items) }
    ensures capacity { vec_capacity text.old ≤ vec_capacity text.new }
    ensures succeeds { (room : ℕ) → start + room ≤ vec_capacity text.old
        → IsKnown windows known (slice_range text.old.items start kept)
        → FitsPush windows room (slice_range text.old.items start kept) other.now → IsOk result }
{
    if other.is_empty() {
        text.truncate(kept);
        return Ok(());
    }
    let path = Cursor::of_windows(other);
    if path.has_prefix() {
        return put_over(text, start, b"", other);
    }
    let base = &text[start..kept];
    if has_verbatim_kind(base) {
        return merge_at(text, start, kept, other, known);
    }
    if path.begins_with_root() {
        let end = start + prefix_len(base);
        return put_over(text, end, b"", other);
    }
    let separator = separator_behind(base);
    put_over(text, kept, separator, other)
}

/// Returns where `other` goes when it is pushed onto `base`: how many bytes of `base` stay, and
/// which separator comes between. `None` if its components are merged into a base with a verbatim
/// prefix, as `\\?\C:\a`.
pub fn push_place(base: &[u8], other: &[u8]) -> Option<PushPlace>
    ensures place { IfSome result (λ place. push_windows base.now other.now
        ≡ put_in_place base.now place.kept place.separator.now other.now) }
    ensures within { IfSome result (λ place. place.kept ≤ length base.now) }
    ensures separator { IfSome result (λ place. IsNoneOrSeparator windows place.separator.now) }
    ensures none { is_some result ≡ not (merges windows base.now other.now) }
{
    if other.is_empty() {
        return Some(PushPlace {
            kept: base.len(),
            separator: b"",
        });
    }
    let path = Cursor::of_windows(other);
    let replaces = path.has_prefix();
    if replaces {
        return Some(PushPlace {
            kept: 0,
            separator: b"",
        });
    }
    let spells_anew = has_verbatim_kind(base);
    if spells_anew {
        return None;
    }
    let is_rooted = path.begins_with_root();
    if is_rooted {
        return Some(PushPlace {
            kept: prefix_len(base),
            separator: b"",
        });
    }
    Some(PushPlace {
        kept: base.len(),
        separator: separator_behind(base),
    })
}

/// Returns what a push puts between the Windows path `base` and a relative path: nothing if `base`
/// is empty, ends with `\` or is only a drive `C:`, else `\`, even after `a/`.
pub fn separator_behind(base: &[u8]) -> &'static [u8]
    ensures text { ended_windows base.now ≡ base.now ++ result.now }
    ensures short { length result.now ≤ 1 }
    ensures known { IsNoneOrSeparator windows result.now }
{
    match base {
        [] | [.., b'\\'] => b"",
        _ if is_disk_alone(base) => b"",
        _ => b"\\",
    }
}

/// Whether `path` is a drive `C:` and nothing else.
fn is_disk_alone(path: &[u8]) -> bool
    ensures { result ≡ is_disk_alone (kinds (parts_of windows path.now)) }
{
    path.len() == 2 && drive(path).is_some()
}

/// Returns the length in bytes of the prefix of `path`, or 0 if it has none.
pub fn prefix_len(path: &[u8]) -> usize
    ensures length { result ≡ raw_length (prefix_of windows path.now) }
    ensures within { result ≤ length path.now }
{
    match find_prefix(path) {
        Some(found) => found.length,
        None => 0,
    }
}

/// Whether `path` has a verbatim prefix, as `\\?\C:` or `//?/a`, which its first five bytes tell.
fn has_verbatim_kind(path: &[u8]) -> bool
    ensures { result ≡ has_any_verbatim_prefix (kinds (parts_of windows path.now)) }
{
    match after_mark(b'?', path) {
        Some(rest) => !rest.is_empty(),
        None => false,
    }
}

/// Pushes `other` onto the path `text[start..]`, and returns what is known of the result.
///
/// That is the length of its prefix if that is verbatim and the path is spelled, else `None`.
/// `known` is the same of the path before; if it is wrong, the result is unspecified. If allocation
/// fails, `text` is unchanged.
#[inline]
pub fn push_next(
    text: &mut Vec<u8>,
    start: usize,
    other: &[u8],
    known: Option<usize>,
) -> Result<Option<usize>, AllocError>
    requires { start ≤ length text.old.items }
    ensures ok { IsKnown windows known (drop start text.old.items) → OnOk result (text.new.items
        ≡ take start text.old.items ++ push_windows (drop start text.old.items) other.now) }
    ensures known { IsKnown windows known (drop start text.old.items)
        → IfOk result (λ next. IsKnown windows next (drop start text.new.items)) }
    ensures err { OnErr result (text.new.items ≡ text.old.items) }
    ensures capacity { vec_capacity text.old ≤ vec_capacity text.new }
    ensures succeeds { (room : ℕ) → start + room ≤ vec_capacity text.old
        → IsKnown windows known (drop start text.old.items)
        → FitsPush windows room (drop start text.old.items) other.now → IsOk result }
{
    // Most pushed paths are names, and most bases neither have nor get a verbatim prefix, as the
    // first bytes tell: then the path is appended at once, and neither is read.
    if known.is_none() && is_plain(other) && stays_unmarked(&text[start..]) {
        put_behind(text, start, other)?;
        return Ok(None);
    }
    push_read(text, start, other, known)
}

/// Whether the first bytes tell that `path` is not empty, and has neither a prefix nor a root.
/// `false` leaves it open.
#[inline(always)]
fn is_plain(path: &[u8]) -> bool
    ensures { IsTrue result → IsPutBehind path.now }
{
    match path {
        [first, ..] => !Separators::Either.contains(*first) && drive(path).is_none(),
        [] => false,
    }
}

/// Whether the first bytes tell that `path` neither has nor gets a verbatim prefix.
///
/// It may get one if a path that [`is_plain`] is appended, as `/` and `\\` do with `?\x`. `false`
/// leaves it open.
#[inline(always)]
fn stays_unmarked(path: &[u8]) -> bool
    ensures { IsTrue result → has_any_verbatim_prefix (kinds (parts_of windows path.now)) ≡ false }
{
    match path {
        [_, _, third, ..] if *third != b'?' => true,
        b"/" => false,
        _ => !begins_with_two(path),
    }
}

/// Appends `other` to the path `text[start..]`, with a separator before it if that path needs one.
/// If allocation fails, `text` is unchanged.
#[inline(always)]
fn put_behind(text: &mut Vec<u8>, start: usize, other: &[u8]) -> Result<(), AllocError>
    requires { start ≤ length text.old.items }
    ensures ok { OnOk result (text.new.items ≡ take start text.old.items
        ++ (ended_windows (drop start text.old.items) ++ other.now)) }
    ensures err { OnErr result (text.new.items ≡ text.old.items) }
    ensures capacity { vec_capacity text.old ≤ vec_capacity text.new }
    ensures succeeds { (room : ℕ) → start + room ≤ vec_capacity text.old
        → length (ended_windows (drop start text.old.items) ++ other.now) ≤ room → IsOk result }
{
    let separator = separator_behind(&text[start..]);
    let len = text.len();
    put_over(text, len, separator, other)
}

/// Pushes `other` onto the path `text[start..]` by reading it, and returns what is known then.
///
/// That and `known` are as in [`push_next`]. If allocation fails, `text` is unchanged.
fn push_read(
    text: &mut Vec<u8>,
    start: usize,
    other: &[u8],
    known: Option<usize>,
) -> Result<Option<usize>, AllocError>
    requires { start ≤ length text.old.items }
    ensures ok { IsKnown windows known (drop start text.old.items) → OnOk result (text.new.items
        ≡ take start text.old.items ++ push_windows (drop start text.old.items) other.now) }
    ensures known { IsKnown windows known (drop start text.old.items)
        → IfOk result (λ next. IsKnown windows next (drop start text.new.items)) }
    ensures err { OnErr result (text.new.items ≡ text.old.items) }
    ensures capacity { vec_capacity text.old ≤ vec_capacity text.new }
    ensures succeeds { (room : ℕ) → start + room ≤ vec_capacity text.old
        → IsKnown windows known (drop start text.old.items)
        → FitsPush windows room (drop start text.old.items) other.now → IsOk result }
{
    // The prefix of a verbatim base is searched again only if nothing but a root followed it.
    let stays = stays_known(text.len() - start, other, known);
    let len = text.len();
    push_at(text, start, len, other, known)?;
    if stays {
        return Ok(known);
    }
    match text.get(start..) {
        Some(path) if has_verbatim_kind(path) => Ok(spelled_head(path)),
        _ => Ok(None),
    }
}

/// Whether `known` still holds once `other` is pushed onto a path of `len` bytes. `false` leaves it
/// open.
fn stays_known(len: usize, other: &[u8], known: Option<usize>) -> bool
    ensures { IsTrue result → (path : List ℕ) → length path ≡ len → IsKnown windows known path
        → IsKnown windows known (push_windows path other.now) }
{
    match known {
        Some(head) if len > 1 && head < len - 1 => find_prefix(other).is_none(),
        _ => false,
    }
}

/// Returns the length in bytes of the prefix of `text` if that is verbatim and `text` is spelled,
/// else `None`.
fn spelled_head(text: &[u8]) -> Option<usize>
    ensures { IsSpelledHead result text.now }
{
    let found = find_prefix(text)?;
    if !found.kind.is_verbatim() {
        return None;
    }
    if !is_spelled_behind(text, &text[found.length..]) {
        return None;
    }
    Some(found.length)
}

/// Whether `text` is spelled. It has a verbatim prefix, and `behind` is what follows that.
fn is_spelled_behind(text: &[u8], behind: &[u8]) -> bool
    ensures { (f : Found) → prefix_of windows text.now ≡ Some f → is_verbatim_prefix f.prefix ≡ true
        → drop f.length text.now ≡ behind.now → TellsSpelled result text.now }
{
    let Some((first, names)) = behind.split_first() else {
        return true;
    };
    if *first != b'\\' {
        return false;
    }
    if names.is_empty() {
        return true;
    }
    let separators = Separators::of_windows(text);
    if !separators.is_verbatim() && is_separated(Separators::Slash, names) {
        return false;
    }
    are_components(separators, names)
}

/// Whether a byte of `text` is a separator.
#[inline(always)]
pub fn is_separated(separators: Separators, text: &[u8]) -> bool
    ensures { result ≡ list_any (is_separator separators) text.now }
{
    separators.first_in(text) != text.len()
}

/// Whether each segment of `text`, split at `\`, is a component, as [`is_component`] tells.
fn are_components(separators: Separators, text: &[u8]) -> bool
    ensures { result ≡ list_all (is_component separators)
        (slice_split (is_separator Separators.Backslash) text.now) }
{
    // Mostly all are names, which one search tells.
    if has_only_names(text, (b'\\', b'\\')) {
        return true;
    }
    let mut rest = text;
    'pieces: while let Some((piece, behind)) = cut_at_separator(Separators::Backslash, rest) {
        if !is_component(separators, piece) {
            return false;
        }
        rest = behind;
    }
    is_component(separators, rest)
}

/// Whether `piece`, which follows other components, is a component as it is written: it is not
/// empty, and `.` only if the path is read verbatim.
fn is_component(separators: Separators, piece: &[u8]) -> bool
    ensures { result ≡ is_component separators piece.now }
{
    match piece {
        [] => false,
        [b'.'] => separators.is_verbatim(),
        _ => true,
    }
}

/// Merges `other` into the path `text[start..kept]`, and cuts off what follows `kept`.
///
/// `other` has no prefix, and the path has a verbatim one. If allocation fails, `text` is
/// unchanged. `known` is what [`push_next`] returned for the path, or `None`; if it is wrong, the
/// result is unspecified.
fn merge_at(
    text: &mut Vec<u8>,
    start: usize,
    kept: usize,
    other: &[u8],
    known: Option<usize>,
) -> Result<(), AllocError>
    requires ordered { start ≤ kept }
    requires within { kept ≤ length text.old.items }
    requires marked { spells_anew windows (slice_range text.old.items start kept) ≡ true }
    requires no_prefix { has_prefix (kinds (parts_of windows other.now)) ≡ false }
    ensures ok { IsKnown windows known (slice_range text.old.items start kept)
        → OnOk result (text.new.items ≡ take start text.old.items
        ++ spelled (merged (parts_of windows (slice_range text.old.items start kept))
        (parts_of windows other.now))) }
    ensures err { OnErr result (text.new.items ≡ text.old.items) }
    ensures capacity { vec_capacity text.old ≤ vec_capacity text.new }
    ensures succeeds { IsKnown windows known (slice_range text.old.items start kept)
        → IsSpelled (slice_range text.old.items start kept)
        → kept + length other.now < vec_capacity text.old → IsOk result }
{
    let base = &text[start..kept];
    if let Some(head) = known_head(base, known) {
        return merge_in_place(text, start, kept, head, other);
    }
    let alloc = *text.allocator();
    let spelled = spelled_anew(alloc, base, other)?;
    put_over(text, start, b"", &spelled)
}

/// Returns the length in bytes of the prefix of `base` if that is verbatim and `base` is spelled,
/// else `None`. A `known` length that is no more than that of `base` is returned unchecked; it has
/// to be what [`push_next`] returned for `base`.
fn known_head(base: &[u8], known: Option<usize>) -> Option<usize>
    ensures within { IfSome result (λ head. head ≤ length base.now) }
    ensures told { IsKnown windows known base.now → IsSpelledHead result base.now }
{
    match known {
        Some(head) if head <= base.len() => Some(head),
        _ => spelled_head(base),
    }
}

/// Merges `other` into the spelled path `text[start..kept]`, and cuts off what follows `kept`.
///
/// `other` has no prefix, and that of the path has `head` bytes. If allocation fails, `text` is
/// unchanged.
fn merge_in_place(
    text: &mut Vec<u8>,
    start: usize,
    kept: usize,
    head: usize,
    other: &[u8],
) -> Result<(), AllocError>
    requires inside { start + head ≤ kept }
    requires within { kept ≤ length text.old.items }
    requires no_prefix { has_prefix (kinds (parts_of windows other.now)) ≡ false }
    ensures ok { IsKnown windows (Some head) (slice_range text.old.items start kept)
        → OnOk result (text.new.items ≡ take start text.old.items
        ++ spelled (merged (parts_of windows (slice_range text.old.items start kept))
        (parts_of windows other.now))) }
    ensures err { OnErr result (text.new.items ≡ text.old.items) }
    ensures capacity { vec_capacity text.old ≤ vec_capacity text.new }
    ensures succeeds { kept + length other.now < vec_capacity text.old → IsOk result }
{
    // All memory is allocated first.
    let parted = start + head == kept;
    text.reserve((kept + other.len() + 1).saturating_sub(text.len()))?;
    text.truncate(kept);
    merge_path(text, start + head, parted, other)?;
    Ok(())
}

/// Returns `base` spelled anew, with the components of `other` merged into its own.
///
/// `base` has a prefix, and `other` has none. A root in `other` takes away all of `base` but the
/// prefix, and puts a root there; `..` removes the last component if that is a name; `.` does
/// nothing. What else `base` has stays, `.` and `..` too.
fn spelled_anew(alloc: Global, base: &[u8], other: &[u8]) -> Result<Vec<u8>, AllocError>
    requires own { has_prefix (kinds (parts_of windows base.now)) ≡ true }
    requires no_prefix { has_prefix (kinds (parts_of windows other.now)) ≡ false }
    ensures { IfOk result (λ text. text.items
        ≡ spelled (merged (parts_of windows base.now) (parts_of windows other.now))) }
{
    let head = prefix_len(base);
    let room = base.len().saturating_add(other.len()).saturating_add(2);
    let mut text = Vec::with_capacity(alloc, room)?;
    text.extend_from_slice(&base[..head])?;
    let mut rest = Cursor::of_windows(base);
    rest.front();
    let parted = put_each(&mut text, head, rest)?;
    merge_path(&mut text, head, parted, other)?;
    Ok(text)
}

/// Appends the components of `path` to a prefix, which is all of `text` and has `head` bytes.
/// Returns whether they are parted from it.
fn put_each(text: &mut Vec<u8>, head: usize, path: Cursor<'_>) -> Result<bool, AllocError>
    requires within { length text.old.items ≡ head }
    requires read { AreReadBehind (parts (items_left path)) }
    ensures stands { IfOk result (λ parted. Stands parted (parts (items_left path.entry))
        (drop head text.new.items)) }
    ensures kept { take head text.new.items ≡ take head text.old.items }
    ensures long { head ≤ length text.new.items }
{
    let mut rest = path;
    let parted = !rest.begins_with_root();
    if !parted {
        text.push(b'\\')?;
        rest.front();
    }
    'pieces: while let Some(piece) = rest.front() {
        put_component(text, head, piece.text)?;
    }
    Ok(parted)
}

/// Merges `other`, which has no prefix, into the components `text[head..]` after a prefix. `parted`
/// tells whether these are parted from it; returns whether the result is. With spare capacity for
/// `other` and one byte more it does not fail.
fn merge_path(
    text: &mut Vec<u8>,
    head: usize,
    parted: bool,
    other: &[u8],
) -> Result<bool, AllocError>
    requires within { head ≤ length text.old.items }
    requires no_prefix { has_prefix (kinds (parts_of windows other.now)) ≡ false }
    ensures stands { IfOk result (λ now. (ps : List Part)
        → Stands parted ps (drop head text.old.items)
        → Stands now (merged ps (parts_of windows other.now)) (drop head text.new.items)) }
    ensures kept { take head text.new.items ≡ take head text.old.items }
    ensures long { head ≤ length text.new.items }
    ensures capacity { vec_capacity text.old ≤ vec_capacity text.new }
    ensures succeeds { vec_len text.old + length other.now < vec_capacity text.old → IsOk result }
{
    // Most paths that are merged hold nothing but names, which are appended at once.
    let Some(names) = names_alone(other) else {
        return merge_each(text, head, parted, Cursor::of_windows(other));
    };
    put_names(text, head, names)?;
    Ok(parted)
}

/// Returns `path` without `./` in front and a separator at its end, if only names are left then.
///
/// These are the names that a merge of `path` appends, with one `/` or `\` between two. `./` may be
/// `.\` too. `path` has no prefix. `None` leaves it open.
#[inline(always)]
fn names_alone(path: &[u8]) -> Option<&[u8]>
    requires { has_prefix (kinds (parts_of windows path.now)) ≡ false }
    ensures named { IfSome result (λ names. HoldsNames names.now) }
    ensures merged { IfSome result (λ names. (ps : List Part)
        → merged ps (parts_of windows path.now) ≡ ps ++ names_of names.now) }
    ensures short { IfSome result (λ names. length names.now ≤ length path.now) }
{
    let (first, _) = path.split_first()?;
    if Separators::Either.contains(*first) {
        return None;
    }
    let names = before_last_separator(behind_dot(path), Separators::Either);
    if !has_only_names(names, (b'/', b'\\')) {
        return None;
    }
    Some(names)
}

/// Returns what follows a `.` and a separator at the front of `path`, or `path` if it begins
/// otherwise.
#[inline(always)]
fn behind_dot(path: &[u8]) -> &[u8]
    ensures same { parts (later_body Separators.Either 0 result.now)
        ≡ parts (later_body Separators.Either 0 path.now) }
    ensures short { length result.now ≤ length path.now }
{
    match path {
        [first, mark, behind @ ..] if (*first == b'.') & Separators::Either.contains(*mark) => {
            behind
        }
        _ => path,
    }
}

/// Appends `names`, which have one separator between two, to the components `text[head..]` after a
/// prefix, with a `\` before the first, as [`put_component`] puts it, and for each separator.
#[inline(always)]
fn put_names(text: &mut Vec<u8>, head: usize, names: &[u8]) -> Result<(), AllocError>
    requires within { head ≤ length text.old.items }
    requires named { HoldsNames names.now }
    ensures stands { OnOk result ((parted : Bool) (ps : List Part)
        → Stands parted ps (drop head text.old.items)
        → Stands parted (ps ++ names_of names.now) (drop head text.new.items)) }
    ensures kept { take head text.new.items ≡ take head text.old.items }
    ensures long { head ≤ length text.new.items }
    ensures capacity { vec_capacity text.old ≤ vec_capacity text.new }
    ensures succeeds { vec_len text.old + length names.now < vec_capacity text.old → IsOk result }
{
    put_component(text, head, names)?;
    let from = text.len() - names.len();
    turn_behind(text, from, Separators::Either, b'\\');
    Ok(())
}

/// Merges the components of `path` into those in `text[head..]` after a prefix. `parted` tells
/// whether these are parted from it; returns whether the result is. With spare capacity for each
/// component and one byte more for each it does not fail.
fn merge_each(
    text: &mut Vec<u8>,
    head: usize,
    parted: bool,
    path: Cursor<'_>,
) -> Result<bool, AllocError>
    requires within { head ≤ length text.old.items }
    requires mergeable { AreMergeable (parts (items_left path)) }
    ensures stands { IfOk result (λ now. (ps : List Part)
        → Stands parted ps (drop head text.old.items)
        → Stands now (merged ps (parts (items_left path.entry))) (drop head text.new.items)) }
    ensures kept { take head text.new.items ≡ take head text.old.items }
    ensures long { head ≤ length text.new.items }
    ensures capacity { vec_capacity text.old ≤ vec_capacity text.new }
    ensures succeeds { vec_len text.old + room_of (parts (items_left path.entry))
        ≤ vec_capacity text.old → IsOk result }
{
    let mut rest = path;
    let mut apart = parted;
    'pieces: while let Some(piece) = rest.front() {
        apart = merge_piece(text, head, apart, piece)?;
    }
    Ok(apart)
}

/// Merges a component into those in `text[head..]`, and returns `parted` for the result.
///
/// A prefix ends at `head`. If `parted`, a `\` there belongs to no component; if not, it is a root.
/// A root replaces all components, `.` is skipped, `..` takes the last one off if it is a name, and
/// a name is appended. `piece` is no prefix. If allocation fails, what follows `head` is
/// unspecified.
fn merge_piece(
    text: &mut Vec<u8>,
    head: usize,
    parted: bool,
    piece: Piece<'_>,
) -> Result<bool, AllocError>
    requires within { head ≤ length text.old.items }
    requires mergeable { IsMergeable (part_of piece) (part_of piece).kind }
    ensures stands { IfOk result (λ now. (ps : List Part)
        → Stands parted ps (drop head text.old.items)
        → Stands now (merge_by_kind ps (part_of piece.entry) (part_of piece.entry).kind)
        (drop head text.new.items)) }
    ensures kept { take head text.new.items ≡ take head text.old.items }
    ensures long { head ≤ length text.new.items }
    ensures capacity { vec_capacity text.old ≤ vec_capacity text.new }
    ensures room { vec_len text.new ≤ vec_len text.old + room_of (part_of piece.entry ∷ []) }
    ensures succeeds { vec_len text.old + room_of (part_of piece.entry ∷ [])
        ≤ vec_capacity text.old → IsOk result }
{
    match piece.kind {
        PieceKind::RootDir => {
            text.truncate(head);
            text.push(b'\\')?;
            return Ok(false);
        }
        PieceKind::CurDir => {}
        PieceKind::ParentDir => {
            let kept = len_without_name(&text[head..], parted);
            text.truncate(head + kept);
        }
        PieceKind::Prefix(_) | PieceKind::Normal => put_component(text, head, piece.text)?,
    }
    Ok(parted)
}

/// Appends `component` to the components in `text[head..]`, with a `\` before it.
///
/// If a root alone is there, no `\` is put between. The prefix ends at `head`.
#[inline(always)]
fn put_component(text: &mut Vec<u8>, head: usize, component: &[u8]) -> Result<(), AllocError>
    requires { head ≤ length text.old.items }
    ensures stands { OnOk result ((parted : Bool) (ps : List Part) (p : Part)
        → Stands parted ps (drop head text.old.items) → IsStanding p → p.text ≡ component.now
        → Stands parted (ps ++ p ∷ []) (drop head text.new.items)) }
    ensures put { OnOk result (text.new.items ≡ jointed head text.old.items ++ component.now) }
    ensures kept { take head text.new.items ≡ take head text.old.items }
    ensures long { head ≤ length text.new.items }
    ensures capacity { vec_capacity text.old ≤ vec_capacity text.new }
    ensures room { vec_len text.new ≤ vec_len text.old + length component.now + 1 }
    ensures succeeds { vec_len text.old + length component.now < vec_capacity text.old
        → IsOk result }
{
    if text.len() != head + 1 {
        text.push(b'\\')?;
    }
    text.extend_from_slice(component)
}

/// Returns the length of `text`, the components after a prefix, once `..` has removed a name.
///
/// It is the whole length if the last component is no name. `parted` says whether the components
/// are parted from the prefix.
fn len_without_name(text: &[u8], parted: bool) -> usize
    ensures within { result ≤ length text.now }
    ensures left { (ps : List Part) → Stands parted ps text.now
        → Stands parted (without_last_name ps) (take result text.now) }
{
    if text.len() <= 1 {
        return text.len();
    }
    let names = &text[1..];
    let last = Separators::Backslash.last_in(names);
    if is_dots(&names[last..]) {
        return text.len();
    }
    if last != 0 {
        return last;
    }
    if parted {
        return 0;
    }
    1
}
