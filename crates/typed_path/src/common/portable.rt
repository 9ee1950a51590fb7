//! Whether every system takes a path as it is written, and whether some version of Windows may take
//! a name of it for a device.

ghost use Rattle.std.specs.Prelude.{◌≡◌, ℕ, false, None, IsTrue, option_map};
ghost use Rattle.std.specs.List.{list_any, slice_split};
ghost use Rattle.std.specs.Str.{is_utf8};
ghost use Rattle.typed_path.specs.components.{body, is_separator, kinds, parts};
ghost use Rattle.typed_path.specs.changes.{error_of, has_second_colon};
ghost use Rattle.typed_path.specs.queries.{ends_unkept, has_portable_bytes, kind_fault, kind_may_be_device, kinds_fault, may_offend, name_fault, offender, portable_fault};
ghost use Rattle.typed_path.specs.views.PieceViews.{part_of};
ghost use Rattle.typed_path.specs.views.OffenceViews.{offence_of};
ghost use Rattle.typed_path.specs.views.PathViews.{components_parts};

use crate::common::components::Components;
use crate::common::encoding::Encoding;
use crate::common::relative::bare_separators;
use crate::errors::PortableError;
use crate::scan::{
    Piece, PieceKind, Separators, begins_with_two, cut_at_separator, has_control, is_dots,
    may_be_device,
};
use std::str;

/// The greatest length of a name, in bytes, that every system accepts.
const LONGEST_NAME: usize = 255;

/// Whether one of the components that are left is a name that some version of Windows may take for
/// a device, as `nul .txt`.
#[tactic(auto, using(crate::proofs::lemmas::queries::Portable::none_device, crate::proofs::lemmas::queries::Portable::step_device, crate::proofs::lemmas::queries::Simplified::one_less))]
pub fn have_device<T: Encoding>(mut rest: Components<'_, T>) -> bool
    ensures { result ≡ list_any kind_may_be_device (kinds (components_parts rest.entry)) }
{
    'pieces: while let Some(piece) = rest.next() {
        if piece_may_be_device(piece) {
            return true;
        }
    }
    false
}

/// Whether a component is a name that some version of Windows may take for a device, as `nul .txt`.
pub fn piece_may_be_device(piece: Piece<'_>) -> bool
    ensures { result ≡ kind_may_be_device (part_of piece.entry).kind }
{
    matches!(piece.kind, PieceKind::Normal) && may_be_device(piece.text)
}

/// Returns the first component left that is not portable, and why; `None` if all are portable.
///
/// It has its bytes as in the path.
pub fn first_unportable<'a, T: Encoding>(
    mut rest: Components<'a, T>,
) -> Option<(&'a [u8], PortableError)>
    ensures { option_map offence_of result ≡ offender (components_parts rest.entry) }
{
    'pieces: while let Some(piece) = rest.next() {
        if let Some(fault) = piece_fault(piece) {
            return Some((piece.text, fault));
        }
    }
    None
}

/// Returns `Err` with the fault of the component that was `found`, or `Ok` if there is none.
pub fn refused_for(found: Option<(&[u8], PortableError)>) -> Result<(), PortableError>
    ensures { error_of result ≡ option_map (λ o. o.1) (option_map offence_of found.entry) }
{
    match found {
        Some((_, fault)) => Err(fault),
        None => Ok(()),
    }
}

/// Returns `Err` with the fault, or `Ok` if there is none.
pub fn refused_as(fault: Option<PortableError>) -> Result<(), PortableError>
    ensures { error_of result ≡ fault }
{
    match fault {
        Some(fault) => Err(fault),
        None => Ok(()),
    }
}

/// Returns the fault of a component, `None` if it is portable.
pub fn piece_fault(piece: Piece<'_>) -> Option<PortableError>
    ensures { result ≡ kind_fault (part_of piece.entry).kind }
{
    match piece.kind {
        PieceKind::Prefix(_) => Some(PortableError::Prefix),
        PieceKind::RootDir | PieceKind::CurDir | PieceKind::ParentDir => None,
        PieceKind::Normal => name_fault(piece.text),
    }
}

/// Checks that every system takes a name as it is written: `Err` is its first fault.
pub fn check_name(name: &[u8]) -> Result<(), PortableError>
    ensures { error_of result ≡ name_fault name.now }
{
    refused_as(name_fault(name))
}

/// Returns the first fault of a name, `None` if it is portable.
fn name_fault(name: &[u8]) -> Option<PortableError>
    ensures { result ≡ name_fault name.now }
{
    if !has_portable_bytes(name) {
        Some(PortableError::Forbidden)
    } else if may_be_device(name) {
        Some(PortableError::Device)
    } else if ends_unkept(name) {
        Some(PortableError::Ending)
    } else if LONGEST_NAME < name.len() {
        Some(PortableError::TooLong)
    } else if is_text(name) {
        None
    } else {
        Some(PortableError::NotText)
    }
}

/// Whether a name has none of `/\:?*"<>|`, which Windows forbids in names, and no control byte: 0
/// to 31, and 127.
fn has_portable_bytes(name: &[u8]) -> bool
    ensures { result ≡ has_portable_bytes name.now }
{
    Separators::Backslash.has_allowed_bytes(name) && !has_control(name)
}

/// Whether a name ends in a dot or a space, which Windows does not keep.
fn ends_unkept(name: &[u8]) -> bool
    ensures { result ≡ ends_unkept name.now }
{
    name.ends_with(b".") || name.ends_with(b" ")
}

/// Whether bytes are UTF-8.
#[tactic(auto, using(crate::proofs::lemmas::texts::TextChanges::text_laws))]
fn is_text(bytes: &[u8]) -> bool
    ensures { result ≡ is_utf8 bytes.now }
{
    str::from_utf8(bytes).is_ok()
}

/// Whether a look at the bytes of a path finds each component portable. `false` leaves it open.
#[tactic(auto, using(crate::proofs::lemmas::queries::Portable::told_unix, crate::proofs::lemmas::queries::Portable::told_bare))]
pub fn looks_portable<T: Encoding>(path: &[u8]) -> bool
    ensures { IsTrue result → portable_fault T.dialect path.now ≡ None }
{
    match bare_separators::<T>() {
        Separators::Slash => are_plain_names(path, Separators::Slash),
        separators => !begins_with_two(path) && are_plain_names(path, separators),
    }
}

/// Whether a look at the bytes of a text without a prefix finds each name portable. `false` leaves
/// it open.
fn are_plain_names(text: &[u8], separators: Separators) -> bool
    ensures names { (at : ℕ) → IsTrue result
        → kinds_fault (kinds (parts (body separators at text.now))) ≡ None }
    ensures free { IsTrue result → has_second_colon text.now ≡ false }
{
    // All bytes are checked by blocks first, and only then the ends of segments.
    if separators.strays_on_windows(text) || has_control(text) || !is_text(text) {
        return false;
    }
    !has_offending_segment(text, separators)
}

/// Whether [`may_offend`] is true of a segment of a text.
fn has_offending_segment(text: &[u8], separators: Separators) -> bool
    ensures { result ≡ list_any may_offend (slice_split (is_separator separators) text.now) }
{
    let mut rest = text;
    'segments: while let Some((segment, behind)) = cut_at_separator(separators, rest) {
        if may_offend(segment) {
            return true;
        }
        rest = behind;
    }
    may_offend(rest)
}

/// Whether a segment has more than 255 bytes, ends in a dot or a space without being `.` or `..`,
/// or may be taken for a device, as `nul .txt`: it offends then. Forbidden bytes and UTF-8 are not
/// looked at.
#[inline(always)]
fn may_offend(segment: &[u8]) -> bool
    ensures { result ≡ may_offend segment.now }
{
    LONGEST_NAME < segment.len()
        || (ends_unkept(segment) && !is_dots(segment))
        || may_be_device(segment)
}
