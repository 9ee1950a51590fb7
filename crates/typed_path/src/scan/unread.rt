//! A reading of a path as three numbers, without the path.

ghost use Rattle.std.specs.Prelude.{◌≡◌};
ghost use Rattle.typed_path.specs.declared.scan.cursor.Begin.{Begin};
ghost use Rattle.typed_path.specs.scan.{is_clean};

use crate::scan::names::begins_blank;
use crate::scan::separators::Separators;
use crate::scan::step::Piece;

/// What a reading has left of a path, in three numbers. Each step is handed the path anew.
///
/// For a path of `len` bytes of which nothing was taken they are 0, `len` and 0.
#[repr(C)]
#[derive(Clone, Copy, Debug, PartialEq, Eq)]
pub struct Unread {
    /// The index in the path at which the slice left begins.
    pub from: usize,
    /// The index at which it ends.
    pub to: usize,
    /// What was taken from the front: nothing (0), at most the prefix (1), or a component after the
    /// prefix (2).
    pub stage: u32,
}

/// A component, and its index in the path.
#[derive(Clone, Copy, Debug)]
pub struct PlacedPiece<'a> {
    /// The index of its first byte in the path.
    pub start: usize,
    /// The component.
    pub piece: Piece<'a>,
}

/// Whether `text`, which comes after a component or a separator, is empty or begins with a
/// component.
#[inline(always)]
pub fn begins_clean(text: &[u8], separators: Separators) -> bool
    ensures { result ≡ is_clean Begin.Inside separators text.now }
{
    match text {
        [] => true,
        [first, ..] if separators.is_verbatim() => !separators.contains(*first),
        _ => !begins_blank(text, separators),
    }
}
