//! An iterator over the components of a path of text, each as a value of the type that the iterator
//! names.
#![tactic(auto, using(crate::proofs::lemmas::texts::TextChanges::reading_laws))]

ghost use Rattle.std.specs.Prelude.{◌≡◌, true, ⊤, map, ◌==◌, length, ℕ, List};
ghost use Rattle.typed_path.specs.components.{Part, kinds, is_name, is_parent, is_current, written, as_written, comps};
ghost use Rattle.typed_path.specs.texts.{IsTextReading, is_text_part};
ghost use Rattle.typed_path.specs.views.PathViews.{components_items, components_slice, components_parts};
ghost use Rattle.typed_path.specs.views.PieceViews.{part_of};
ghost use Rattle.typed_path.specs.views.TextPieceViews.{text_part};
ghost use Rattle.typed_path.specs.queries.{is_absolute, has_root, is_root, is_valid_kind, kind_fault, kind_may_be_device};
ghost use Rattle.typed_path.specs.changes.{error_of};
ghost use Rattle.typed_path.specs.scan.{LeavesFront, LeavesBack};
ghost use Rattle.std.specs.Iterator.{YieldsFirstBy, item_count, YieldsLastBy};

use crate::common::{Components, Encoding, Reading, Reversed, check_name};
use crate::errors::PortableError;
use crate::scan::{Cursor, Piece, PieceKind, may_be_device};
use crate::utf8::encoding::{Utf8Encoding, text_of};
use crate::utf8::path::Utf8Path;
use crate::utf8::windows::Utf8WindowsPrefix;
use std::alloc::AllocError;
use std::fmt;
use std::iter::FusedIterator;
use std::marker::PhantomData;

/// A type of values as which the components of a path of text can be read.
pub trait FromPiece<'a, T: Utf8Encoding>: Copy + fmt::Debug {
    ghost Seen: { Type 0 };

    ghost seen: { Self → Seen };

    ghost seen_of: { Part → Seen };

    /// The name of the iterator over such values, which `Debug` prints.
    const ITERATOR: &'static str;

    /// Returns the value for a piece of text.
    fn from_piece(piece: Piece<'a>) -> Self
        requires text { is_text_part (part_of piece) ≡ true }
        requires written { part_of piece ≡ written T.Bytes.dialect (part_of piece) }
        ensures { seen result ≡ seen_of (part_of piece.entry) };
}

/// The iterator over the components of a path of text, each as a value of the type `I`.
#[derive_where(PartialEq, Eq, PartialOrd, Ord; T: Utf8Encoding)]
pub struct Utf8Reading<'a, T: Utf8Encoding, I> {
    components: Components<'a, T::Bytes>,
    item: PhantomData<I>,
    ghost is_text: { ∥ IsTextReading (components_items components) (components_slice components) ∥₁ },
    ghost written: { components_parts components ≡ as_written T.Bytes.dialect (components_parts components) },
}

impl<'a, T: Utf8Encoding, I> Clone for Utf8Reading<'a, T, I> {
    ghost is_clone = { λ reading copy. copy ≡ reading };

    ghost is_infallible = { λ reading. ⊤ };

    #[inline(always)]
    fn clone(&self) -> Result<Utf8Reading<'a, T, I>, AllocError> {
        Ok(*self)
    }
}

impl<'a, T: Utf8Encoding, I> Copy for Utf8Reading<'a, T, I> {}

impl<'a, T: Utf8Encoding, I> Utf8Reading<'a, T, I> {
    ghost use Rattle.typed_path.specs.views.CursorViews.{slice_left, items_left};
    ghost use Rattle.typed_path.specs.views.TextViews.{utf8_bytes};
    ghost use Rattle.typed_path.specs.views.ReadingViews.{reading_items, reading_slice, reading_parts};
    ghost use Rattle.typed_path.specs.views.ReversedViews.{reversed_source};

    /// Returns an iterator over the components of a path, from either end.
    #[inline(always)]
    pub fn new(path: Utf8Path<'a, T>) -> Utf8Reading<'a, T, I>
        ensures items { reading_items result ≡ comps T.Bytes.dialect (utf8_bytes path.entry) }
        ensures slice { reading_slice result ≡ utf8_bytes path.entry }
    {
        Utf8Reading {
            components: path.as_bytes_path().components(),
            item: PhantomData,
        }
    }

    /// Returns the cursor over what is left.
    #[inline(always)]
    pub(crate) fn cursor(self) -> Cursor<'a>
        ensures items { items_left result ≡ reading_items self.entry }
        ensures slice { slice_left result ≡ reading_slice self.entry }
    {
        self.components.cursor()
    }

    /// Returns an iterator over the same components, of the path of the bytes.
    #[inline(always)]
    pub(super) fn bytes<J>(self) -> Reading<'a, T::Bytes, J>
        ensures items { components_items result ≡ reading_items self.entry }
    {
        self.components.read_as()
    }

    /// Returns an iterator over what is left, from the last to the first.
    #[inline(always)]
    pub fn rev(self) -> Reversed<Utf8Reading<'a, T, I>>
    where
        I: FromPiece<'a, T>,
        ensures { reversed_source result ≡ self.entry }
    {
        Reversed::new(self)
    }

    /// The slice left: from the first component that is left to the end of the last.
    #[inline(always)]
    pub fn as_str(self) -> &'a str
        ensures { result.now ≡ reading_slice self.entry }
    {
        text_of(self.components.as_bytes())
    }

    /// Whether the components that are left are those of an absolute path.
    pub fn is_absolute(self) -> bool
        ensures { result ≡ is_absolute T.Bytes.dialect (kinds (reading_parts self.entry)) }
    {
        self.components.is_absolute()
    }

    /// Whether the components that are left have a root: one written first or right after the
    /// prefix, as in `C:\a`, or one implied by a prefix other than `C:` and `\\?\C:`.
    pub fn has_root(self) -> bool
        ensures { result ≡ has_root T.Bytes.dialect (kinds (reading_parts self.entry)) }
    {
        self.components.has_root()
    }
}

impl<'a, T: Utf8Encoding> Utf8Reading<'a, T, &'a str> {
    ghost use Rattle.typed_path.specs.views.TextViews.{utf8_bytes};
    ghost use Rattle.typed_path.specs.views.ReadingViews.{reading_slice};

    /// The slice left, as a path.
    pub fn as_path(self) -> Utf8Path<'a, T>
        ensures { utf8_bytes result ≡ reading_slice self.entry }
    {
        Utf8Path::new(self.as_str())
    }
}

impl<'a, T: Utf8Encoding, I: FromPiece<'a, T>> Iterator for Utf8Reading<'a, T, I> {
    ghost use Rattle.typed_path.specs.views.ReadingViews.{reading_items, reading_slice, reading_parts};

    type Item = I;

    ghost next_gives = { λ s item t. YieldsFirstBy I.seen
        (λ r. map I.seen_of (reading_parts r)) s item t
        × LeavesFront reading_items reading_slice s t };

    ghost remaining = { item_count reading_parts };

    #[inline(always)]
    fn next(&mut self) -> Option<I> {
        let piece = self.components.next()?;
        Some(I::from_piece(piece))
    }
}

impl<'a, T: Utf8Encoding, I: FromPiece<'a, T>> DoubleEndedIterator for Utf8Reading<'a, T, I> {
    ghost use Rattle.typed_path.specs.views.ReadingViews.{reading_items, reading_slice, reading_parts};

    ghost next_back_gives = { λ s item t. YieldsLastBy I.seen
        (λ r. map I.seen_of (reading_parts r)) s item t
        × LeavesBack reading_items reading_slice s t };

    #[inline(always)]
    fn next_back(&mut self) -> Option<I> {
        let piece = self.components.next_back()?;
        Some(I::from_piece(piece))
    }
}

/// What an iterator has left, printed as a list.
#[derive_where(Clone, Copy)]
struct Listed<'a, T: Utf8Encoding, I> {
    reading: Utf8Reading<'a, T, I>,
}

impl<'a, T: Utf8Encoding, I: FromPiece<'a, T>> fmt::Debug for Listed<'a, T, I> {
    fn fmt<W: fmt::Write>(&self, f: &mut fmt::Formatter<W>) -> fmt::Result {
        f.debug_list().entries(self.reading).finish()
    }
}

impl<'a, T: Utf8Encoding, I: FromPiece<'a, T>> fmt::Debug for Utf8Reading<'a, T, I> {
    fn fmt<W: fmt::Write>(&self, f: &mut fmt::Formatter<W>) -> fmt::Result {
        let reading = *self;
        f.debug_tuple(I::ITERATOR)
            .field(&Listed { reading })
            .finish()
    }
}

impl<'a, T: Utf8Encoding, I: FromPiece<'a, T>> FusedIterator for Utf8Reading<'a, T, I> {}

/// What a component of a path of text is.
#[derive(Clone, Copy, Debug, PartialEq, Eq, PartialOrd, Ord, Hash)]
pub enum Utf8PieceKind<'a> {
    /// The prefix of a Windows path.
    Prefix(Utf8WindowsPrefix<'a>),
    /// The root directory.
    RootDir,
    /// The current directory, `.`.
    CurDir,
    /// The parent directory, `..`.
    ParentDir,
    /// A name.
    Normal,
}

/// One component of a path of text: what it is, and its text.
#[derive(Clone, Copy, Debug, PartialEq, Eq, PartialOrd, Ord, Hash)]
pub struct Utf8Piece<'a> {
    /// What the component is.
    pub kind: Utf8PieceKind<'a>,
    /// How it is written: the raw text of a prefix, `/` or `\` for the root, `.`, `..`, or the
    /// name.
    pub text: &'a str,
}

impl<'a> Utf8Piece<'a> {
    /// Returns the text of the component as in the path; of a root always `/`, or `\` on Windows.
    pub fn as_str(self) -> &'a str
        ensures { result.now ≡ (text_part self.entry).text }
    {
        self.text
    }

    /// Whether nothing is above the component: the root, and every prefix but a drive `C:`. It is
    /// true of a verbatim drive, `\\?\C:`.
    pub fn is_root(self) -> bool
        ensures { result ≡ is_root (text_part self.entry).kind }
    {
        match self.kind {
            Utf8PieceKind::RootDir => true,
            Utf8PieceKind::Prefix(Utf8WindowsPrefix::Disk(_)) => false,
            Utf8PieceKind::Prefix(_) => true,
            _ => false,
        }
    }

    /// Whether the component is a name.
    pub fn is_normal(self) -> bool
        ensures { result ≡ is_name (text_part self.entry).kind }
    {
        matches!(self.kind, Utf8PieceKind::Normal)
    }

    /// Whether the component is the parent directory, `..`.
    pub fn is_parent(self) -> bool
        ensures { result ≡ is_parent (text_part self.entry).kind }
    {
        matches!(self.kind, Utf8PieceKind::ParentDir)
    }

    /// Whether the component is the current directory, `.`.
    pub fn is_current(self) -> bool
        ensures { result ≡ is_current (text_part self.entry).kind }
    {
        matches!(self.kind, Utf8PieceKind::CurDir)
    }

    /// Whether the component is not a name, or is one that the encoding allows: `ab:c` and
    /// `con.txt` are allowed on Unix, and not on Windows.
    pub fn is_valid<T: Utf8Encoding>(self) -> bool
        ensures { result ≡ is_valid_kind T.Bytes.dialect (text_part self.entry).kind }
    {
        match self.kind {
            Utf8PieceKind::Normal => T::Bytes::valid(self.text.as_bytes()),
            _ => true,
        }
    }

    /// Whether the component is a name that some version of Windows may take for a device, as
    /// `nul .txt`.
    pub fn may_be_device(self) -> bool
        ensures { result ≡ kind_may_be_device (text_part self.entry).kind }
    {
        match self.kind {
            Utf8PieceKind::Normal => may_be_device(self.text.as_bytes()),
            _ => false,
        }
    }

    /// Checks that the component is no prefix and, if it is a name, that every system takes it as
    /// it is written, as `check_portable` of a path does.
    pub fn check_portable(self) -> Result<(), PortableError>
        ensures { error_of result ≡ kind_fault (text_part self.entry).kind }
    {
        match self.kind {
            Utf8PieceKind::Prefix(_) => Err(PortableError::Prefix),
            Utf8PieceKind::Normal => check_name(self.text.as_bytes()),
            _ => Ok(()),
        }
    }

    /// Returns how many bytes the component has.
    pub fn len(self) -> usize
        ensures { result ≡ length (text_part self.entry).text }
    {
        self.text.len()
    }

    /// Whether the component has no bytes.
    pub fn is_empty(self) -> bool
        ensures { result ≡ (length (text_part self.entry).text == 0) }
    {
        self.text.is_empty()
    }
}

impl<'a, T: Utf8Encoding> FromPiece<'a, T> for Utf8Piece<'a> {
    ghost Seen = { Part };

    ghost seen = { text_part };

    ghost seen_of = { λ p. p };

    const ITERATOR: &'static str = "Utf8Components";

    #[inline(always)]
    fn from_piece(piece: Piece<'a>) -> Utf8Piece<'a> {
        let kind = match piece.kind {
            PieceKind::Prefix(prefix) => {
                Utf8PieceKind::Prefix(Utf8WindowsPrefix::from_utf8_unchecked(&prefix))
            }
            PieceKind::RootDir => Utf8PieceKind::RootDir,
            PieceKind::CurDir => Utf8PieceKind::CurDir,
            PieceKind::ParentDir => Utf8PieceKind::ParentDir,
            PieceKind::Normal => Utf8PieceKind::Normal,
        };
        Utf8Piece {
            kind,
            text: text_of(piece.text),
        }
    }
}

impl<'a, T: Utf8Encoding> FromPiece<'a, T> for &'a str {
    ghost Seen = { List ℕ };

    ghost seen = { λ text. text.now };

    ghost seen_of = { λ p. p.text };

    const ITERATOR: &'static str = "Utf8Iter";

    #[inline(always)]
    fn from_piece(piece: Piece<'a>) -> &'a str {
        text_of(piece.text)
    }
}
