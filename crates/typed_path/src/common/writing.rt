//! Names in vectors of bytes: appended, and removed from the end.

ghost use Rattle.std.specs.Prelude.{◌≡◌, ◌<◌, ◌≤◌, ◌+◌, ◌-◌, ◌++◌, ℕ, List, fold, take, drop, length, IfSome, IsOk, IsTrue, OnOk, OnErr};
ghost use Rattle.std.specs.List.{slice_split};
ghost use Rattle.typed_path.specs.components.{is_separator};
ghost use Rattle.std.specs.Vec.{vec_len, vec_capacity};
ghost use Rattle.typed_path.specs.changes.{Puts, dotted};
ghost use Rattle.typed_path.specs.places.{rows_of, settled, AreRowsOf, HaveNoDisks};
ghost use Rattle.typed_path.specs.scan.{turned};

use crate::scan::Separators;
use std::alloc::AllocError;

/// Returns how many bytes an extension takes with the dot before it: 0 if it is empty.
pub fn dotted_len(extension: &[u8]) -> usize
    ensures { result ≡ length (dotted extension.now) }
{
    if extension.is_empty() {
        0
    } else {
        extension.len() + 1
    }
}

/// Appends a dot and an extension to a stem, or nothing if the extension is empty. If allocation
/// fails, the dot may stay.
pub fn put_extension(stem: &mut Vec<u8>, extension: &[u8]) -> Result<(), AllocError>
    ensures ok { OnOk result (stem.new.items ≡ stem.old.items ++ dotted extension.now) }
    ensures capacity { vec_capacity stem.old ≤ vec_capacity stem.new }
    ensures succeeds { length stem.old.items + length (dotted extension.now) ≤ vec_capacity stem.old
        → IsOk result }
{
    if extension.is_empty() {
        return Ok(());
    }
    stem.push(b'.')?;
    stem.extend_from_slice(extension)
}

/// Cuts `path` to its first `kept` bytes, and appends `separator`, of at most one byte, and
/// `other`. If allocation fails, `path` keeps all its bytes.
#[inline(always)]
pub fn put_over(
    path: &mut Vec<u8>,
    kept: usize,
    separator: &[u8],
    other: &[u8],
) -> Result<(), AllocError>
    requires within { kept ≤ length path.old.items }
    requires short { length separator.now ≤ 1 }
    ensures ok { OnOk result
        (path.new.items ≡ take kept path.old.items ++ separator.now ++ other.now) }
    ensures err { OnErr result (path.new.items ≡ path.old.items) }
    ensures capacity { vec_capacity path.old ≤ vec_capacity path.new }
    ensures succeeds { kept + length separator.now + length other.now ≤ vec_capacity path.old
        → IsOk result }
{
    let len = kept + separator.len() + other.len();
    path.reserve(len.saturating_sub(path.len()))?;
    path.truncate(kept);
    if let [byte] = separator {
        path.push(*byte)?;
    }
    path.extend_from_slice(other)
}

/// Whether the spare capacity of `text` holds `other` and one byte more.
#[inline(always)]
pub fn has_room(text: &Vec<u8>, other: &[u8]) -> bool
    ensures room { IsTrue result → vec_len text.now + length other.now < vec_capacity text.now }
    ensures told { vec_len text.now + length other.now < vec_capacity text.now → IsTrue result }
{
    other.len() < text.capacity() - text.len()
}

/// How many bytes `append_first` copies as one block.
const BLOCK: usize = 16;

/// Appends the first `len` bytes of `source`. If allocation fails, `text` keeps its bytes.
#[inline(always)]
pub fn append_first(text: &mut Vec<u8>, source: &[u8], len: usize) -> Result<(), AllocError>
    requires { len ≤ length source.now }
    ensures { Puts result text.old text.new (take len source.now) (length source.now) }
{
    // A few bytes are copied as a whole block, and what is too much is cut off: a block is one
    // store, where a copy of any length is a call that branches by the length.
    if BLOCK < len || source.len() < BLOCK {
        return text.extend_from_slice(&source[..len]);
    }
    let end = text.len() + len;
    text.extend_from_slice(&source[..BLOCK])?;
    text.truncate(end);
    Ok(())
}

/// Appends `source` with each of its separators replaced by `byte`. If allocation fails, `text`
/// keeps its bytes.
#[inline(always)]
pub fn put_turned(
    text: &mut Vec<u8>,
    source: &[u8],
    separators: Separators,
    byte: u8,
) -> Result<(), AllocError>
    ensures { Puts result text.old text.new
        (turned separators byte source.now)
        (length source.now) }
{
    let len = text.len();
    text.extend_from_slice(source)?;
    turn_behind(text, len, separators, byte);
    Ok(())
}

/// Replaces each separator in `text[from..]` by `byte`.
#[inline(always)]
pub fn turn_behind(text: &mut Vec<u8>, from: usize, separators: Separators, byte: u8)
    requires { from ≤ length text.old.items }
    ensures turned { text.new.items
        ≡ take from text.old.items ++ turned separators byte (drop from text.old.items) }
    ensures capacity { vec_capacity text.new ≡ vec_capacity text.old }
{
    turn(text.as_mut_slice(), from, separators, byte);
}

/// Replaces each separator in the slice `text[from..]` by `byte`, for [`turn_behind`].
fn turn(text: &mut [u8], from: usize, separators: Separators, byte: u8)
    requires { from ≤ length text.old }
    ensures { text.new ≡ take from text.old ++ turned separators byte (drop from text.old) }
{
    'bytes: for at in from..text.len() {
        let own = text[at];
        text[at] = if separators.contains(own) { byte } else { own };
    }
}

/// Removes the last of the names in `text[len..]`, each of which ends with a separator; does
/// nothing if there is none.
#[inline(always)]
pub fn drop_name(text: &mut Vec<u8>, len: usize, separators: Separators)
    requires { len ≤ length text.old.items }
    ensures dropped { (head : List ℕ) (names : List (List ℕ)) → length head ≡ len
        → AreRowsOf separators text.old.items head names
        → text.new.items ≡ head ++ rows_of separators (take (length names - 1) names) }
    ensures kept { take len text.new.items ≡ take len text.old.items }
    ensures long { len ≤ length text.new.items }
    ensures room { vec_len text.new ≤ vec_len text.old }
    ensures capacity { vec_capacity text.new ≡ vec_capacity text.old }
{
    if len < text.len() {
        let start = separators.last_in(&text[len..text.len() - 1]);
        text.truncate(len + start);
    }
}

/// Removes the last byte, the separator after the last name, unless `text` is no longer than `len`.
#[inline(always)]
pub fn drop_separator(text: &mut Vec<u8>, len: usize)
    ensures capacity { vec_capacity text.new ≡ vec_capacity text.old }
    ensures named { len < length text.old.items
        → text.new.items ≡ take (length text.old.items - 1) text.old.items }
    ensures alone { length text.old.items ≤ len → text.new.items ≡ text.old.items }
    ensures kept { take len text.new.items ≡ take len text.old.items }
{
    if len < text.len() {
        text.pop();
    }
}

/// Returns `done`. If that is an error, it first truncates `text` to `len` bytes.
#[inline(always)]
pub fn cut_back(
    text: &mut Vec<u8>,
    len: usize,
    done: Result<(), AllocError>,
) -> Result<(), AllocError>
    ensures same { result ≡ done }
    ensures ok { OnOk result (text.new.items ≡ text.old.items) }
    ensures err { OnErr result (text.new.items ≡ take len text.old.items) }
    ensures capacity { vec_capacity text.new ≡ vec_capacity text.old }
{
    if done.is_err() {
        text.truncate(len);
    }
    done
}

/// Returns `rest`, which comes after `segment`, or less if empty segments and `.` stand there.
///
/// If `segment` is empty or `.`, the empty and `.` segments at the front of `rest` are left out,
/// each with the separator after it. A `.` that ends `rest` stays.
#[inline(always)]
pub fn behind_segment<'a>(segment: &[u8], rest: &'a [u8], separators: Separators) -> &'a [u8]
    ensures same { (names : List (List ℕ))
        → fold settled names (slice_split (is_separator separators) rest.now)
        ≡ fold settled names (slice_split (is_separator separators) result.now) }
    ensures drives { HaveNoDisks (slice_split (is_separator separators) rest.now)
        → HaveNoDisks (slice_split (is_separator separators) result.now) }
    ensures shorter { length result.now ≤ length rest.now }
{
    let mut left = rest;
    if matches!(segment, [] | [b'.']) {
        // So a run of separators is not cut one by one.
        'blanks: while let Some(behind) = behind_blank(left, separators) {
            left = behind;
        }
    }
    left
}

/// Returns what comes after an empty or `.` segment at the front and the separator after it; `None`
/// if the text does not begin with such a segment and a separator.
#[inline(always)]
fn behind_blank(text: &[u8], separators: Separators) -> Option<&[u8]>
    ensures same { IfSome result (λ rest. (names : List (List ℕ))
        → fold settled names (slice_split (is_separator separators) text.now)
        ≡ fold settled names (slice_split (is_separator separators) rest.now)) }
    ensures drives { IfSome result (λ rest.
        HaveNoDisks (slice_split (is_separator separators) text.now)
        → HaveNoDisks (slice_split (is_separator separators) rest.now)) }
    ensures shorter { IfSome result (λ rest. length rest.now < length text.now) }
{
    match text {
        [first, rest @ ..] if separators.contains(*first) => Some(rest),
        [b'.', second, rest @ ..] if separators.contains(*second) => Some(rest),
        _ => None,
    }
}
