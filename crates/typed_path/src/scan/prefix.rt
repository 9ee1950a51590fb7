//! The prefix that a Windows path begins with.

ghost use Rattle.std.specs.Prelude.{◌≡◌, ◌≤◌, ◌+◌, true, false, length, is_some, ℕ, List, ◌∷◌, Some, None, option_map, option_copied, IfSome, MatchOption};
ghost use Rattle.typed_path.specs.components.{windows, is_separator, is_drive_letter, drive, after_two, after_mark, after_unc, name, second_name, names_length, is_empty, verbatim_unc_case, verbatim_disk_case, verbatim_case, device_case, unc_case, disk_case, prefix_of, IsPartedDrive};
ghost use Rattle.typed_path.specs.declared.scan.separators.Separators.{Separators};
ghost use Rattle.typed_path.specs.promises.{keeps_prefix};
ghost use Rattle.typed_path.specs.views.PieceViews.{found_of};

use crate::scan::separators::Separators;

/// The prefix of a Windows path, which may precede its root.
///
/// Names are slices of the path; a drive letter is in ASCII upper case. Prefixes are ordered by
/// their kinds, as these are listed, and then by their names or letters.
#[derive(Clone, Copy, Debug, PartialEq, Eq, PartialOrd, Ord, Hash)]
pub enum WindowsPrefix<'a> {
    /// `\\?\name`
    Verbatim(&'a [u8]),
    /// `\\?\UNC\server\share`
    VerbatimUNC(&'a [u8], &'a [u8]),
    /// `\\?\C:`
    VerbatimDisk(u8),
    /// `\\.\name`
    DeviceNS(&'a [u8]),
    /// `\\server\share`
    UNC(&'a [u8], &'a [u8]),
    /// `C:`
    Disk(u8),
}

/// A prefix, and its length in the path.
#[derive(Clone, Copy, Debug)]
pub struct Found<'a> {
    /// The prefix.
    pub kind: WindowsPrefix<'a>,
    /// How many bytes of the path it takes.
    pub length: usize,
}

/// Returns the letter, in ASCII upper case, if `text` begins with a drive letter and `:`, or
/// `None`.
#[inline]
pub fn drive(text: &[u8]) -> Option<u8>
    ensures { result ≡ drive text.now }
{
    match text {
        [letter, b':', ..] if is_drive_letter(*letter) => Some(letter.to_ascii_uppercase()),
        _ => None,
    }
}

/// Whether `byte` is a letter of ASCII, or one of Latin-1 from 0x80 on.
#[inline]
fn is_drive_letter(byte: u8) -> bool
    ensures { result ≡ is_drive_letter byte }
{
    match byte {
        b'A'..=b'Z' | b'a'..=b'z' | 0xAA | 0xB5 | 0xBA => true,
        0xD7 | 0xF7 => false,
        _ => 0xC0 <= byte,
    }
}

/// Whether `byte` is `/` or `\`.
#[inline(always)]
fn separates(byte: u8) -> bool
    ensures { result ≡ is_separator Separators.Either byte }
{
    Separators::Either.contains(byte)
}

/// Returns what follows two separators at the front, or `None` if `text` begins otherwise.
#[inline(always)]
fn after_two(text: &[u8]) -> Option<&[u8]>
    ensures rest { option_copied result ≡ after_two text.now }
    ensures length { IfSome result (λ rest. length rest.now + 2 ≡ length text.now) }
{
    match text {
        [a, b, rest @ ..] if separates(*a) && separates(*b) => Some(rest),
        _ => None,
    }
}

/// Returns the first byte of a name that follows two separators at the front, or `None` if `text`
/// begins otherwise.
#[inline(always)]
pub fn byte_behind_two(text: &[u8]) -> Option<u8>
    ensures { IfSome result (λ b. (is_separator Separators.Either b ≡ false)
        × ((rest : List ℕ) × (after_two text.now ≡ Some (b ∷ rest)))) }
{
    let (first, _) = after_two(text)?.split_first()?;
    if separates(*first) {
        return None;
    }
    Some(*first)
}

/// Returns what follows two separators, the byte `sign` and a separator at the front, or `None` if
/// `text` begins otherwise.
#[inline(always)]
pub fn after_mark(sign: u8, text: &[u8]) -> Option<&[u8]>
    ensures rest { option_copied result ≡ after_mark sign text.now }
    ensures length { IfSome result (λ rest. length rest.now + 4 ≡ length text.now) }
{
    let [a, b, c, d, rest @ ..] = text else {
        return None;
    };
    if separates(*a) && separates(*b) && *c == sign && separates(*d) {
        Some(rest)
    } else {
        None
    }
}

/// Returns what follows `UNC` in capitals and a separator at the front, or `None` if `text` begins
/// otherwise.
#[inline(always)]
fn after_unc(separators: Separators, text: &[u8]) -> Option<&[u8]>
    ensures rest { option_copied result ≡ after_unc separators text.now }
    ensures length { IfSome result (λ rest. length rest.now + 4 ≡ length text.now) }
{
    match text {
        [b'U', b'N', b'C', d, rest @ ..] if separators.contains(*d) => Some(rest),
        _ => None,
    }
}

/// Returns the name at the front: the bytes before the first separator, or all.
#[inline(always)]
fn name(separators: Separators, text: &[u8]) -> &[u8]
    ensures { result.now ≡ name separators text.now }
{
    &text[..separators.first_in(text)]
}

/// Returns the two names at the front, the second of which may be empty, and how many bytes they
/// take with the separator between them. `None` if the first is empty.
#[inline(always)]
fn names(separators: Separators, text: &[u8]) -> Option<(&[u8], &[u8], usize)>
    ensures filled { MatchOption result (is_empty (name separators text.now) ≡ true)
        (λ names. is_empty (name separators text.now) ≡ false) }
    ensures first { IfSome result (λ names. names.0.now ≡ name separators text.now) }
    ensures second { IfSome result (λ names. names.1.now ≡ second_name separators text.now) }
    ensures length { IfSome result (λ names. names.2 ≡ names_length separators text.now) }
    ensures within { IfSome result (λ names. names.2 ≤ length text.now) }
{
    let end = separators.first_in(text);
    if end == 0 {
        return None;
    }
    if end == text.len() {
        return Some((text, &[], end));
    }
    let second = name(separators, &text[end + 1..]);
    Some((&text[..end], second, end + 1 + second.len()))
}

/// Returns the prefix `\\?\UNC\server\share` at the front, or `None` if `text` begins otherwise.
#[inline(always)]
fn verbatim_unc(separators: Separators, text: &[u8]) -> Option<Found<'_>>
    ensures { option_map found_of result ≡ verbatim_unc_case separators text.now }
{
    let rest = after_unc(separators, after_mark(b'?', text)?)?;
    let (server, share, length) = names(separators, rest)?;
    Some(Found {
        kind: WindowsPrefix::VerbatimUNC(server, share),
        length: 8 + length,
    })
}

/// Returns the prefix `\\?\C:` at the front, or `None` if `text` begins otherwise.
#[inline(always)]
fn verbatim_disk(text: &[u8]) -> Option<Found<'_>>
    ensures { option_map found_of result ≡ verbatim_disk_case text.now }
{
    let letter = drive(after_mark(b'?', text)?)?;
    Some(Found {
        kind: WindowsPrefix::VerbatimDisk(letter),
        length: 6,
    })
}

/// Returns the prefix `\\?\name` at the front, or `None` if `text` begins otherwise. The name may
/// be empty if a separator follows. Those of `\\?\C:` and `\\?\UNC\server` are looked for before.
#[inline(always)]
fn verbatim(separators: Separators, text: &[u8]) -> Option<Found<'_>>
    ensures { option_map found_of result ≡ verbatim_case separators text.now }
{
    let rest = after_mark(b'?', text)?;
    if rest.is_empty() {
        return None;
    }
    let name = name(separators, rest);
    Some(Found {
        kind: WindowsPrefix::Verbatim(name),
        length: 4 + name.len(),
    })
}

/// Returns the prefix `\\.\name` at the front, or `None` if `text` begins otherwise.
#[inline(always)]
fn device(text: &[u8]) -> Option<Found<'_>>
    ensures { option_map found_of result ≡ device_case text.now }
{
    let name = name(Separators::Either, after_mark(b'.', text)?);
    if name.is_empty() {
        return None;
    }
    Some(Found {
        kind: WindowsPrefix::DeviceNS(name),
        length: 4 + name.len(),
    })
}

/// Returns the prefix `\\server\share` at the front, or `None` if `text` begins otherwise.
#[inline(always)]
fn unc(text: &[u8]) -> Option<Found<'_>>
    ensures { option_map found_of result ≡ unc_case text.now }
{
    let (server, share, length) = names(Separators::Either, after_two(text)?)?;
    Some(Found {
        kind: WindowsPrefix::UNC(server, share),
        length: 2 + length,
    })
}

/// Returns the prefix `C:` at the front, or `None` if `text` begins otherwise.
#[inline]
fn disk(text: &[u8]) -> Option<Found<'_>>
    ensures { option_map found_of result ≡ disk_case text.now }
{
    let letter = drive(text)?;
    Some(Found {
        kind: WindowsPrefix::Disk(letter),
        length: 2,
    })
}

/// Whether `text` begins with two separators, as each prefix but `C:` does.
#[inline(always)]
pub fn begins_with_two(text: &[u8]) -> bool
    ensures { result ≡ is_some (after_two text.now) }
{
    matches!(text, [a, b, ..] if separates(*a) && separates(*b))
}

/// Returns the prefix of a Windows path that begins with two separators, the first of these that
/// matches: `\\?\UNC\server\share`, `\\?\C:`, `\\?\name`, `\\.\name`, `\\server\share`; `None` if
/// none does.
fn find_marked(text: &[u8]) -> Option<Found<'_>>
    requires { is_some (after_two text.now) ≡ true }
    ensures { option_map found_of result ≡ prefix_of windows text.now }
{
    // The third byte tells which of the cases can match.
    match text {
        [_, _, b'?', ..] => {
            let separators = Separators::of_windows(text);
            verbatim_disk(text)
                .or_else(|| verbatim_unc(separators, text))
                .or_else(|| verbatim(separators, text))
                .or_else(|| unc(text))
        }
        [_, _, b'.', ..] => device(text).or_else(|| unc(text)),
        _ => unc(text),
    }
}

/// Returns the prefix of a Windows path, the first of these that matches: `\\?\UNC\server\share`,
/// `\\?\C:`, `\\?\name`, `\\.\name`, `\\server\share`, `C:`; `None` if none does.
#[inline(always)]
pub fn find_prefix(text: &[u8]) -> Option<Found<'_>>
    ensures { option_map found_of result ≡ prefix_of windows text.now }
{
    if begins_with_two(text) {
        find_marked(text)
    } else {
        disk(text)
    }
}

/// Returns the letter, in ASCII upper case, of the drive `C:` that `text` begins with, and what
/// follows it; `Some((None, text))` without a drive. `None` if `text` begins with two separators,
/// so that it may have another prefix.
#[inline(always)]
pub fn parted_drive(text: &[u8]) -> Option<(Option<u8>, &[u8])>
    ensures { IfSome result (λ parted. IsPartedDrive text.now parted.0 parted.1.now) }
{
    if after_two(text).is_some() {
        return None;
    }
    match drive(text) {
        Some(letter) => Some((Some(letter), &text[2..])),
        None => Some((None, text)),
    }
}

/// Whether `base`, a Windows path, is known to keep its prefix: if `true`, each checked join onto
/// it returns a path with the same prefix, or with none if it has none. `false` leaves it open.
pub fn keeps_prefix(base: &[u8]) -> bool
    ensures { result ≡ keeps_prefix windows base.now }
{
    let Some(found) = find_prefix(base) else {
        return base != b"/".as_slice() && base != br"\\".as_slice() && base != br"/\".as_slice();
    };
    match found.kind {
        WindowsPrefix::Verbatim(name) => name != b"UNC".as_slice(),
        WindowsPrefix::VerbatimUNC(_, share) | WindowsPrefix::UNC(_, share) => !share.is_empty(),
        WindowsPrefix::VerbatimDisk(_) | WindowsPrefix::DeviceNS(_) | WindowsPrefix::Disk(_) =>
            true,
    }
}
