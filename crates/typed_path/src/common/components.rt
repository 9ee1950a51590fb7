//! Iterators over a path: over its components, as pieces, as texts or as values of the encoding's
//! own type, and over the paths above it; and what one component answers.

ghost use Rattle.std.specs.Prelude.{◌≡◌, ℕ, List, option_map, codes, ⊤, Some, true, drop, slice_get, ◌==◌, [], ◌∷◌, length};
ghost use Rattle.typed_path.specs.components.{Part, parts, Placed, end_of, kinds, written, as_written, comps, Dialect, root_of, dot, root as root_kind, parent as parent_kind, current as current_kind, is_name, is_parent, is_current};
ghost use Rattle.typed_path.specs.texts.{has_text_names, have_text_names};
ghost use Rattle.typed_path.specs.views.CursorViews.{items_left, slice_left};
ghost use Rattle.typed_path.specs.views.UnreadViews.{placed_of};
ghost use Rattle.typed_path.specs.views.PieceViews.{part_of};
ghost use Rattle.typed_path.specs.views.Shown.{Shown, whole, text_alone};
ghost use Rattle.typed_path.specs.scan.{last_of, but_last, slice_after_front, slice_after_back, first_part, last_part, LeavesFront, LeavesBack};
ghost use Rattle.typed_path.specs.queries.{is_absolute, has_root, ancestors_of, kind_fault, kind_may_be_device, readings_behind, is_root as is_root_kind, is_valid_kind};
ghost use Rattle.typed_path.specs.changes.{error_of};
ghost use Rattle.std.specs.Iterator.{YieldsFirstBy, item_count, YieldsLastBy};
ghost use Rattle.typed_path.specs.conversions.{crossed};

use crate::common::encoding::Encoding;
use crate::common::path::Path;
use crate::common::portable::{piece_fault, piece_may_be_device, refused_as};
use crate::errors::PortableError;
use crate::scan::{Cursor, Piece, PieceKind, PlacedPiece};
use std::alloc::AllocError;
use std::fmt;
use std::hash::Hash;
use std::iter::FusedIterator;
use std::marker::PhantomData;

/// The iterator over the components of a path, from either end. The type `I` says what it gives for
/// each: see [`ReadAs`].
pub struct Reading<'a, T: Encoding, I> {
    cursor: Cursor<'a>,
    encoding: PhantomData<T>,
    item: PhantomData<I>,
    ghost written: { parts (items_left cursor) ≡ as_written T.dialect (parts (items_left cursor)) },
    ghost names: { have_text_names (parts (items_left cursor)) ≡ true },
}

/// The iterator over the components of a path, from either end.
pub type Components<'a, T> = Reading<'a, T, Pieces>;

/// The iterator over the texts of the components of a path, from either end.
pub type Iter<'a, T> = Reading<'a, T, Texts>;

impl<'a, T: Encoding, I> Clone for Reading<'a, T, I> {
    ghost is_clone = { λ reading copy. copy ≡ reading };

    ghost is_infallible = { λ reading. ⊤ };

    #[inline(always)]
    fn clone(&self) -> Result<Reading<'a, T, I>, AllocError> {
        Ok(*self)
    }
}

impl<'a, T: Encoding, I> Copy for Reading<'a, T, I> {}

impl<'a, T: Encoding, I> Reading<'a, T, I> {
    ghost use Rattle.typed_path.specs.views.PathViews.{path_bytes, components_items, components_slice, components_parts};

    /// Returns an iterator over the components of a path, from either end.
    #[inline(always)]
    pub fn new(path: Path<'a, T>) -> Reading<'a, T, I>
        ensures items { components_items result ≡ comps T.dialect (path_bytes path.entry) }
        ensures slice { components_slice result ≡ path_bytes path.entry }
    {
        Reading {
            cursor: T::cursor(path.as_bytes()),
            encoding: PhantomData,
            item: PhantomData,
        }
    }

    /// Returns an iterator over the same components, which gives for each what `J` says.
    #[inline(always)]
    pub(crate) fn read_as<J>(self) -> Reading<'a, T, J>
        ensures items { components_items result ≡ components_items self.entry }
        ensures slice { components_slice result ≡ components_slice self.entry }
    {
        Reading {
            cursor: self.cursor,
            encoding: PhantomData,
            item: PhantomData,
        }
    }

    /// Returns the cursor over what is left.
    #[inline(always)]
    pub(crate) fn cursor(self) -> Cursor<'a>
        ensures items { items_left result ≡ components_items self.entry }
        ensures slice { slice_left result ≡ components_slice self.entry }
    {
        self.cursor
    }

    /// The slice left: from the first component that is left to the end of the last.
    ///
    /// Before the first step it is the whole path. What follows the last component stays until a
    /// step from the back. Once all components are taken it is empty. Of the Unix path `/a/./b//`
    /// it is `a/./b//` after one step from the front, and `/a` after one from the back.
    #[inline(always)]
    pub fn as_bytes(self) -> &'a [u8]
        ensures { result.now ≡ components_slice self.entry }
    {
        self.cursor.as_bytes()
    }

    /// Returns the index in the whole path at which the last component that is left ends.
    ///
    /// Of the Unix path `a/b//` it is 3. Once all components are taken the number means nothing.
    #[inline(always)]
    pub fn last_end(self) -> usize
        ensures { (last : Placed) → last_of (components_items self.entry) ≡ Some last → result
            ≡ end_of last }
    {
        self.cursor.last_end()
    }

    /// Returns the last component that is left, with its index in the whole path; `None` if none is
    /// left.
    ///
    /// Of the Unix path `a/b//` it is `b`, at 2.
    #[inline(always)]
    pub fn last_placed(mut self) -> Option<PlacedPiece<'a>>
        ensures { option_map placed_of result ≡ last_of (components_items self.entry) }
    {
        self.cursor.back_placed()
    }

    /// Whether the components that are left are those of an absolute path.
    pub fn is_absolute(self) -> bool
        ensures { result ≡ is_absolute T.dialect (kinds (components_parts self.entry)) }
    {
        T::absolute(&self.cursor)
    }

    /// Whether the components that are left have a root: one written first or right after the
    /// prefix, as in `C:\a`, or one implied by a prefix other than `C:` and `\\?\C:`.
    pub fn has_root(self) -> bool
        ensures { result ≡ has_root T.dialect (kinds (components_parts self.entry)) }
    {
        T::rooted(&self.cursor)
    }
}

impl<'a, T: Encoding, I: ReadAs<'a, T>> Reading<'a, T, I> {
    ghost use Rattle.typed_path.specs.views.PathViews.{components_items, components_slice};
    ghost use Rattle.typed_path.specs.views.ReversedViews.{reversed_source};

    /// Takes the first component that is left, or returns `None` for good once all are taken.
    #[inline(always)]
    pub fn next(&mut self) -> Option<I::Item>
        ensures taken { option_map I.seen result
            ≡ I.shown.of_option (first_part (components_items self.old)) }
        ensures items { components_items self.new ≡ drop 1 (components_items self.old) }
        ensures slice { components_slice self.new
            ≡ slice_after_front (components_items self.old) (components_slice self.old) }
    {
        let piece = T::front(&mut self.cursor)?;
        Some(I::from_piece(piece))
    }

    /// Takes the last component that is left, or returns `None` for good once all are taken.
    #[inline(always)]
    pub fn next_back(&mut self) -> Option<I::Item>
        ensures taken { option_map I.seen result
            ≡ I.shown.of_option (last_part (components_items self.old)) }
        ensures items { components_items self.new ≡ but_last (components_items self.old) }
        ensures slice { components_slice self.new
            ≡ slice_after_back (components_items self.old) (components_slice self.old) }
    {
        let piece = T::back(&mut self.cursor)?;
        Some(I::from_piece(piece))
    }

    /// Returns an iterator over what is left, from the last to the first.
    #[inline(always)]
    pub fn rev(self) -> Reversed<Reading<'a, T, I>>
        ensures { reversed_source result ≡ self.entry }
    {
        Reversed::new(self)
    }
}

impl<'a, T: Encoding, I: ReadAs<'a, T>> Iterator for Reading<'a, T, I> {
    ghost use Rattle.typed_path.specs.views.PathViews.{components_items, components_slice, components_parts};

    type Item = I::Item;

    ghost next_gives = { λ s item t. YieldsFirstBy I.seen (λ r. I.shown.of_list (components_parts r)) s item t
        × LeavesFront components_items components_slice s t };

    ghost remaining = { item_count (λ r. I.shown.of_list (components_parts r)) };

    #[inline(always)]
    fn next(&mut self) -> Option<I::Item> {
        Reading::next(self)
    }
}

impl<'a, T: Encoding, I: ReadAs<'a, T>> DoubleEndedIterator for Reading<'a, T, I> {
    ghost use Rattle.typed_path.specs.views.PathViews.{components_items, components_slice, components_parts};

    ghost next_back_gives = { λ s item t. YieldsLastBy I.seen (λ r. I.shown.of_list (components_parts r)) s item t
        × LeavesBack components_items components_slice s t };

    #[inline(always)]
    fn next_back(&mut self) -> Option<I::Item> {
        Reading::next_back(self)
    }
}

impl<'a, T: Encoding, I: ReadAs<'a, T>> FusedIterator for Reading<'a, T, I> {}

impl<'a, T: Encoding> Reading<'a, T, Texts> {
    ghost use Rattle.typed_path.specs.views.PathViews.{path_bytes, components_slice};

    /// The slice left, as a path.
    ///
    /// Of the Unix path `/a/b` it is `a/b` after one step from the front.
    pub fn as_path(self) -> Path<'a, T>
        ensures { path_bytes result ≡ components_slice self.entry }
    {
        Path::new(self.as_bytes())
    }
}

impl<'a, T: Encoding> Reading<'a, T, Values> {
    ghost use Rattle.typed_path.specs.views.PathViews.{path_bytes, components_slice};

    /// Returns the slice left, unconverted, as a path in the encoding that the caller names.
    pub fn as_path<U: Encoding>(self) -> Path<'a, U>
        ensures { path_bytes result ≡ components_slice self.entry }
    {
        Path::new(self.cursor.as_bytes())
    }
}

/// What an iterator over components gives for each of them.
pub trait ReadAs<'a, T: Encoding> {
    ghost Seen: { Type 0 };

    ghost seen: { Self.Item → Seen };

    ghost shown: { Shown Seen };

    ghost named: { List ℕ };

    /// The type of what is given.
    type Item: Copy + fmt::Debug;

    /// The name of the iterator, which `Debug` prints.
    fn iterator_name() -> &'static str
        ensures { result.now ≡ named };

    /// What is given for a piece.
    fn from_piece(piece: Piece<'a>) -> Self::Item
        requires written { part_of piece ≡ written T.dialect (part_of piece) }
        requires names { has_text_names (part_of piece) ≡ true }
        ensures { seen result ≡ shown.of (part_of piece.entry) };
}

/// Gives each component as a [`Piece`]: its kind and its text.
pub struct Pieces;

impl<'a, T: Encoding> ReadAs<'a, T> for Pieces {
    ghost Seen = { Part };

    ghost seen = { part_of };

    ghost shown = { whole };

    ghost named = { codes "Components" };

    type Item = Piece<'a>;

    fn iterator_name() -> &'static str
        ensures { result.now ≡ codes "Components" }
    {
        "Components"
    }

    #[inline(always)]
    fn from_piece(piece: Piece<'a>) -> Piece<'a> {
        piece
    }
}

/// Gives the text of each component.
pub struct Texts;

impl<'a, T: Encoding> ReadAs<'a, T> for Texts {
    ghost Seen = { List ℕ };

    ghost seen = { λ text. text.now };

    ghost shown = { text_alone };

    ghost named = { codes "Iter" };

    type Item = &'a [u8];

    fn iterator_name() -> &'static str
        ensures { result.now ≡ codes "Iter" }
    {
        "Iter"
    }

    #[inline(always)]
    fn from_piece(piece: Piece<'a>) -> &'a [u8] {
        piece.text
    }
}

/// Gives each component as a value of its encoding's own type.
pub struct Values;

/// The iterator over a path, and then each parent of the one before.
///
/// Each is what one reading from the back has left, so the prefix is read once.
#[derive_where(Clone, Copy)]
pub struct Ancestors<'a, T: Encoding> {
    rest: Components<'a, T>,
    done: bool,
}

impl<'a, T: Encoding> Ancestors<'a, T> {
    ghost use Rattle.typed_path.specs.views.PathViews.{path_bytes, components_items, components_slice, ancestors_from, ancestors_left};

    /// Returns an iterator over `path` and the paths above it.
    #[inline(always)]
    pub(crate) fn new(path: Path<'a, T>) -> Ancestors<'a, T>
        ensures { ancestors_left result ≡ ancestors_of T.dialect (path_bytes path.entry) }
    {
        Ancestors {
            rest: path.components(),
            done: false,
        }
    }

    /// Returns the path that comes next, `None` if all were given.
    pub(crate) fn path(self) -> Option<Path<'a, T>>
        ensures { option_map path_bytes result ≡ slice_get (ancestors_left self.entry) 0 }
    {
        if self.done {
            return None;
        }
        Some(Path::new(self.rest.as_bytes()))
    }

    /// Takes the last component that is left. Returns whether nothing is above it, or no component
    /// was left.
    #[inline(always)]
    fn take_last(rest: &mut Components<'a, T>) -> bool
        ensures { ancestors_from result rest.new
            ≡ readings_behind (components_items rest.old) (components_slice rest.old) }
    {
        match rest.next_back() {
            Some(last) => last.is_root(),
            None => true,
        }
    }
}

impl<'a, T: Encoding> Iterator for Ancestors<'a, T> {
    ghost use Rattle.typed_path.specs.views.PathViews.{path_bytes, ancestors_left};

    type Item = Path<'a, T>;

    ghost next_gives = { YieldsFirstBy path_bytes ancestors_left };

    ghost remaining = { item_count ancestors_left };

    #[inline(always)]
    fn next(&mut self) -> Option<Path<'a, T>> {
        if self.done {
            return None;
        }
        let path = Path::new(self.rest.as_bytes());
        self.done = Ancestors::take_last(&mut self.rest);
        Some(path)
    }
}

impl<'a, T: Encoding> FusedIterator for Ancestors<'a, T> {}

/// An iterator over what another has left, from the last item to the first.
#[derive(Clone, Copy)]
pub struct Reversed<I> {
    source: I,
}

impl<I: DoubleEndedIterator> Reversed<I> {
    ghost use Rattle.typed_path.specs.views.ReversedViews.{reversed_source};

    /// Returns an iterator over what `source` has left, from its end.
    #[inline(always)]
    pub(crate) fn new(source: I) -> Reversed<I>
        ensures { reversed_source result ≡ source }
    {
        Reversed { source }
    }
}

impl<I: DoubleEndedIterator> Iterator for Reversed<I> {
    ghost use Rattle.typed_path.specs.views.ReversedViews.{reversed_source};

    type Item = I::Item;

    ghost can_next = { λ s. I.can_next_back (reversed_source s) };

    ghost next_gives = { λ s item t. I.next_back_gives (reversed_source s) item
        (reversed_source t) };

    ghost remaining = { λ s. I.remaining (reversed_source s) };

    #[inline(always)]
    fn next(&mut self) -> Option<I::Item> {
        self.source.next_back()
    }
}

impl<I: DoubleEndedIterator> DoubleEndedIterator for Reversed<I> {
    ghost use Rattle.typed_path.specs.views.ReversedViews.{reversed_source};

    ghost can_next_back = { λ s. I.can_next (reversed_source s) };

    ghost next_back_gives = { λ s item t. I.next_gives (reversed_source s) item
        (reversed_source t) };

    #[inline(always)]
    fn next_back(&mut self) -> Option<I::Item> {
        self.source.next()
    }
}

/// A component of a path of one encoding.
pub trait Component<'a>: Copy + fmt::Debug + Ord + Hash {
    ghost dialect: { Dialect };

    ghost part: { Self → Part };

    /// Returns the bytes of the component as in the path; of a root always `/`, or `\` on Windows.
    fn as_bytes(&self) -> &'a [u8]
        ensures { result.now ≡ (part self.now).text };

    /// Whether nothing is above the component: the root, and every prefix but a drive `C:`. It is
    /// true of a verbatim drive, `\\?\C:`.
    fn is_root(&self) -> bool
        ensures { result ≡ is_root_kind (part self.now).kind };

    /// Whether the component is a name.
    fn is_normal(&self) -> bool
        ensures { result ≡ is_name (part self.now).kind };

    /// Whether the component is the parent directory, `..`.
    fn is_parent(&self) -> bool
        ensures { result ≡ is_parent (part self.now).kind };

    /// Whether the component is the current directory, `.`.
    fn is_current(&self) -> bool
        ensures { result ≡ is_current (part self.now).kind };

    /// Whether the component is not a name, or is one that the encoding allows: `ab:c` and
    /// `con.txt` are allowed on Unix, and not on Windows.
    fn is_valid(&self) -> bool
        ensures { result ≡ is_valid_kind dialect (part self.now).kind };

    /// Whether the component is a name that some version of Windows may take for a device, as
    /// `nul .txt`.
    fn may_be_device(&self) -> bool
        ensures { result ≡ kind_may_be_device (part self.now).kind };

    /// Checks that the component is no prefix and, if it is a name, that every system takes it as
    /// it is written, as `check_portable` of a path does.
    fn check_portable(&self) -> Result<(), PortableError>
        ensures { error_of result ≡ kind_fault (part self.now).kind };

    /// Returns how many bytes the component has.
    fn len(&self) -> usize
        ensures { result ≡ length (part self.now).text };

    /// Whether the component has no bytes.
    fn is_empty(&self) -> bool
        ensures { result ≡ (length (part self.now).text == 0) };

    /// The root directory.
    fn root() -> Self
        ensures kind { (part result).kind ≡ root_kind }
        ensures text { (part result).text ≡ root_of dialect };

    /// The parent directory.
    fn parent() -> Self
        ensures kind { (part result).kind ≡ parent_kind }
        ensures text { (part result).text ≡ dot ∷ dot ∷ [] };

    /// The current directory.
    fn current() -> Self
        ensures kind { (part result).kind ≡ current_kind }
        ensures text { (part result).text ≡ dot ∷ [] };
}

impl<'a> Piece<'a> {
    ghost use Rattle.typed_path.specs.views.PieceViews.{part_of};

    /// Returns how the component is written in an encoding whose root is written `root`: the root,
    /// and every prefix but a drive `C:`, as `root`; all else as it is.
    #[inline(always)]
    pub(crate) fn crossed(self, root: &'static [u8]) -> &'a [u8]
        ensures { (e : Dialect) → root.now ≡ root_of e
            → result.now ≡ crossed e (part_of self.entry) }
    {
        if self.is_root() { root } else { self.text }
    }

    /// Whether the component is not a name, or is one that the encoding allows: `ab:c` and
    /// `con.txt` are allowed on Unix, and not on Windows.
    pub fn is_valid<T: Encoding>(self) -> bool
        ensures { result ≡ is_valid_kind T.dialect (part_of self.entry).kind }
    {
        match self.kind {
            PieceKind::Normal => T::valid(self.text),
            _ => true,
        }
    }

    /// Whether the component is a name that some version of Windows may take for a device, as
    /// `nul .txt`.
    pub fn may_be_device(self) -> bool
        ensures { result ≡ kind_may_be_device (part_of self.entry).kind }
    {
        piece_may_be_device(self)
    }

    /// Checks that the component is no prefix and, if it is a name, that every system takes it as
    /// it is written, as `check_portable` of a path does.
    pub fn check_portable(self) -> Result<(), PortableError>
        ensures { error_of result ≡ kind_fault (part_of self.entry).kind }
    {
        refused_as(piece_fault(self))
    }
}
