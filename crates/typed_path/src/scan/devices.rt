//! Names that some version of Windows may take for devices, by the widest rule.

ghost use Rattle.std.specs.Prelude.{◌≡◌, ◌≤◌, ◌==◌, length};
ghost use Rattle.std.specs.List.{position_or_len};
ghost use Rattle.std.specs.Str.{str_eq_ignore_ascii_case};
ghost use Rattle.typed_path.specs.changes.{begins_as_device};
ghost use Rattle.typed_path.specs.queries.{is_further_device, is_taken_for_device, name_may_be_device, without_last_spaces};

use crate::scan::lanes::first_between;
use crate::scan::separators::{FIRST_LETTERS, SECOND_LETTERS, Separators, is_in};

/// Whether some version of Windows may take `name` for a device, as `nul .txt` or `con:a`. Only the
/// bytes before the first `:` count.
pub fn may_be_device(name: &[u8]) -> bool
    ensures { result ≡ name_may_be_device name.now }
{
    // The first three bytes rule out most names.
    begins_as_device(name) && is_taken_for_device(&name[..first_of(name, b':')])
}

/// Whether Windows takes a `name` without `:` for a device, as it does `con .txt`.
///
/// Only the bytes before the first dot count, without the spaces at their end.
pub fn is_taken_for_device(name: &[u8]) -> bool
    ensures { result ≡ is_taken_for_device name.now }
{
    let stem = without_last_spaces(&name[..first_of(name, b'.')]);
    Separators::Backslash.is_reserved(stem) || is_further_device(stem)
}

/// Returns the index of the first `byte`, or the length if there is none.
#[inline(always)]
fn first_of(text: &[u8], byte: u8) -> usize
    ensures within { result ≤ length text.now }
    ensures first { result ≡ position_or_len (λ b. b == byte) text.now }
{
    first_between(text, 0, text.len(), (byte, byte))
}

/// The letters `lmntx`, which are third in device names, as a set of [`is_in`].
const THIRD_LETTERS: u32 = 1 << 12 | 1 << 13 | 1 << 14 | 1 << 20 | 1 << 24;

/// Whether the first three bytes, masked to five bits, are in `[acnlp][opru][lmntx]`, as those of
/// each device are.
#[inline(always)]
fn begins_as_device(text: &[u8]) -> bool
    ensures { result ≡ begins_as_device text.now }
{
    match text {
        [a, b, c, ..] => {
            is_in(FIRST_LETTERS, *a) & (is_in(SECOND_LETTERS, *b) & is_in(THIRD_LETTERS, *c))
        }
        _ => false,
    }
}

/// Returns `text` without the spaces at its end.
fn without_last_spaces(text: &[u8]) -> &[u8]
    ensures { result.now ≡ without_last_spaces text.now }
{
    let mut len = text.len();
    'spaces: while 0 < len && text[len - 1] == b' ' {
        len -= 1;
    }
    &text[..len]
}

/// Whether `text` is, ASCII case aside, a device that [`Separators::is_valid_name`] does not
/// refuse: `CONIN$`, `CONOUT$`, or `COM` or `LPT` with `¹`, `²` or `³`.
fn is_further_device(text: &[u8]) -> bool
    ensures { result ≡ is_further_device text.now }
{
    is_same(text, b"CONIN$")
        || is_same(text, b"CONOUT$")
        || is_same(text, b"COM\xC2\xB9")
        || is_same(text, b"COM\xC2\xB2")
        || is_same(text, b"COM\xC2\xB3")
        || is_same(text, b"LPT\xC2\xB9")
        || is_same(text, b"LPT\xC2\xB2")
        || is_same(text, b"LPT\xC2\xB3")
}

/// Whether two names are equal, ASCII case aside.
fn is_same(text: &[u8], other: &[u8]) -> bool
    ensures { result ≡ str_eq_ignore_ascii_case text.now other.now }
{
    text.eq_ignore_ascii_case(other)
}
