//! A cursor over the components of a path, which takes them from both ends.

ghost use Rattle.std.specs.Prelude.{◌≡◌, ◌≤◌, ◌<◌, ◌-◌, ◌+◌, ℕ, List, length, slice_range, true, [], take, drop, option_map, is_some, Some, None, IfSome, IfNone, IsTrue};
ghost use Rattle.std.specs.List.{position_or_len};
ghost use Rattle.typed_path.specs.components.{Dialect, prefix_part, body, comps, component, Placed, end_of, kinds, parts, windows, dialect_of, is_separator, later_body};
ghost use Rattle.typed_path.specs.views.PieceViews.{part_of, prefix_view, step_part};
ghost use Rattle.typed_path.specs.scan.{pending, is_clean, but_last, last_of, slice_after_front, slice_after_back, first_part, last_part, end_from, first_of, is_unread, unread_items, unread_slice};

use crate::errors::CheckedPathError;
use crate::scan::prefix::{Found, WindowsPrefix, find_prefix};
use crate::scan::separators::Separators;
use crate::scan::span::Span;
use crate::scan::step::{Piece, PieceKind, Step, back_step, depth_behind, front_step, trim_blanks};
use crate::scan::unread::{PlacedPiece, Unread, begins_clean};

/// What is left of a path: a range of its body, which follows the prefix, and the prefix until that
/// is taken.
#[derive(Clone, Copy, Debug)]
pub struct Cursor<'a> {
    text: &'a [u8],
    from: usize,
    to: usize,
    prefix: Option<Found<'a>>,
    begin: Begin,
    separators: Separators,
    ghost ordered: { from ≤ to },
    ghost in_range: { to ≤ length text.now },
    ghost starts_clean: { is_clean begin separators (slice_range text.now from to) ≡ true },
    ghost fits: { pending prefix ≤ from },
}

/// The [`Body`] of a cursor: what it has left after its prefix.
macro_rules! rest {
    ($cursor:expr) => {
        Body {
            text: $cursor.text,
            from: $cursor.from,
            to: $cursor.to,
            begin: $cursor.begin,
            separators: $cursor.separators,
        }
    };
}

/// The cursor over a [`Body`], with the prefix before it if that is still to be taken.
macro_rules! over {
    ($body:expr, $prefix:expr) => {
        Cursor {
            text: $body.text,
            from: $body.from,
            to: $body.to,
            prefix: $prefix,
            begin: $body.begin,
            separators: $body.separators,
        }
    };
}

/// The body of both ways to take the first component left: the prefix, or what the [`Body`] takes
/// by the call that is named.
macro_rules! take_first {
    ($cursor:expr, $take:ident) => {
        match $cursor.prefix {
            Some(found) => Some($cursor.take_prefix(found)),
            None => {
                let mut body = rest!($cursor);
                let step = body.$take();
                *$cursor = over!(body, None);
                Some(step?.piece())
            }
        }
    };
}

impl<'a> Cursor<'a> {
    ghost use Rattle.typed_path.specs.declared.scan.cursor.Begin.{Begin};
    ghost use Rattle.typed_path.specs.queries.{begins_with_root, first_prefix, prefix_among, behind_prefix, has_prefix, has_physical_root};
    ghost use Rattle.typed_path.specs.views.BodyViews.{body_items};
    ghost use Rattle.typed_path.specs.views.SpanViews.{span_bytes};
    ghost use Rattle.typed_path.specs.views.CursorViews.{slice_left, items_left, cursor_separators};
    ghost use Rattle.typed_path.specs.views.UnreadViews.{IsReadingOf};
    ghost use Rattle.typed_path.specs.changes.{error_of, fault_behind};

    /// Returns a cursor over the whole of a path that has no prefix.
    #[inline(always)]
    pub(crate) fn new(text: &'a [u8], separators: Separators) -> Cursor<'a>
        ensures slice { slice_left result ≡ text.now }
        ensures items { items_left result ≡ body separators 0 text.now }
        ensures separators { cursor_separators result ≡ separators }
    {
        Cursor {
            text,
            from: 0,
            to: text.len(),
            prefix: None,
            begin: Begin::Body,
            separators,
        }
    }

    /// Returns a cursor over the whole of a Windows path.
    #[inline(always)]
    pub(crate) fn of_windows(text: &'a [u8]) -> Cursor<'a>
        ensures items { items_left result ≡ comps windows text.now }
        ensures slice { slice_left result ≡ text.now }
        ensures dialect { dialect_of (cursor_separators result) ≡ windows }
    {
        let Some(found) = find_prefix(text) else {
            return Cursor::new(text, Separators::Either);
        };
        Cursor {
            text,
            from: found.length,
            to: text.len(),
            prefix: Some(found),
            begin: Begin::Body,
            separators: Separators::of_windows(text),
        }
    }

    /// Returns the slice left, from the first component left on. Separators at its end stay until a
    /// component is taken from the back.
    #[inline(always)]
    pub fn as_bytes(&self) -> &'a [u8]
        ensures { result.now ≡ slice_left self.now }
    {
        match self.prefix {
            Some(found) => &self.text[self.from - found.length..self.to],
            None => &self.text[self.from..self.to],
        }
    }

    /// Returns the prefix, or `None` if there is none or it was taken.
    #[inline(always)]
    pub(crate) fn prefix(&self) -> Option<WindowsPrefix<'a>>
        ensures { option_map prefix_view result
            ≡ first_prefix (kinds (parts (items_left self.now))) }
    {
        match self.prefix {
            Some(found) => Some(found.kind),
            None => None,
        }
    }

    /// Whether there is a prefix that was not taken yet.
    #[inline(always)]
    pub(crate) fn has_prefix(&self) -> bool
        ensures { result ≡ has_prefix (kinds (parts (items_left self.now))) }
    {
        self.prefix.is_some()
    }

    /// Returns the prefix with its raw bytes, or `None` if there is none or it was taken.
    #[inline(always)]
    pub(crate) fn prefix_piece(&self) -> Option<Piece<'a>>
        ensures { option_map part_of result ≡ prefix_among (parts (items_left self.now)) }
    {
        let found = self.prefix?;
        Some(prefix_piece(self.text, self.from, found))
    }

    /// Returns what is left after the prefix.
    #[inline(always)]
    pub(crate) fn body(&self) -> Body<'a>
        ensures { body_items result ≡ behind_prefix (items_left self.now) }
    {
        rest!(self)
    }

    /// Returns this cursor over `span.text`, whose first `span.len` bytes are the slice left.
    /// Searches may then read past these bytes.
    #[inline(always)]
    pub(crate) fn within(self, span: Span<'a>) -> Cursor<'a>
        requires { slice_left self ≡ span_bytes span }
        ensures { parts (items_left result) ≡ parts (items_left self.entry) }
    {
        Cursor {
            text: span.text,
            from: pending(self.prefix),
            to: span.len,
            prefix: self.prefix,
            begin: self.begin,
            separators: self.separators,
        }
    }

    /// Whether the first component left, not counting the prefix, is the root.
    #[inline(always)]
    pub(crate) fn has_physical_root(&self) -> bool
        ensures { result ≡ has_physical_root (kinds (parts (items_left self.now))) }
    {
        rest!(self).has_physical_root()
    }

    /// Whether the first component left is the root.
    #[inline(always)]
    pub(crate) fn begins_with_root(&self) -> bool
        ensures { result ≡ begins_with_root (kinds (parts (items_left self.now))) }
    {
        self.prefix.is_none() && self.has_physical_root()
    }

    /// Returns the index in the path just after the last component left; unspecified if none is
    /// left.
    #[inline(always)]
    pub(crate) fn last_end(&self) -> usize
        ensures { (last : Placed) → last_of (items_left self.now) ≡ Some last → result
            ≡ end_of last }
    {
        rest!(self).last_end()
    }

    /// Checks the components left as a checked push does those of the pushed path. `Err` is the
    /// error of the first one that is refused.
    #[inline(always)]
    pub(crate) fn check(self) -> Result<(), CheckedPathError>
        ensures { error_of result ≡ fault_behind (dialect_of (cursor_separators self.entry)) []
            (kinds (parts (items_left self.entry))) }
    {
        match self.prefix {
            Some(_) => Err(CheckedPathError::UnexpectedPrefix),
            None => rest!(self).check(),
        }
    }

    /// Takes the first component left and returns it, or `None` if none is left.
    #[inline(always)]
    pub(crate) fn front(&mut self) -> Option<Piece<'a>>
        ensures taken { option_map part_of result ≡ first_part (items_left self.old) }
        ensures items { items_left self.new ≡ drop 1 (items_left self.old) }
        ensures slice { slice_left self.new
            ≡ slice_after_front (items_left self.old) (slice_left self.old) }
        ensures same { (d : Dialect) (t : List ℕ) → IsReadingOf d t self.old → IsReadingOf d t self.new }
    {
        take_first!(self, front)
    }

    /// Takes the prefix, which is `found`, and returns it.
    #[inline(always)]
    fn take_prefix(&mut self, found: Found<'a>) -> Piece<'a>
        requires { self.old.prefix ≡ Some found }
        ensures taken { Some (part_of result) ≡ first_part (items_left self.old) }
        ensures items { items_left self.new ≡ drop 1 (items_left self.old) }
        ensures slice { slice_left self.new
            ≡ slice_after_front (items_left self.old) (slice_left self.old) }
        ensures same { (d : Dialect) (t : List ℕ) → IsReadingOf d t self.old → IsReadingOf d t self.new }
    {
        let piece = prefix_piece(self.text, self.from, found);
        self.prefix = None;
        piece
    }

    /// Takes the last component left and returns it, or `None` if none is left.
    #[inline(always)]
    pub(crate) fn back(&mut self) -> Option<Piece<'a>>
        ensures taken { option_map part_of result ≡ last_part (items_left self.old) }
        ensures items { items_left self.new ≡ but_last (items_left self.old) }
        ensures slice { slice_left self.new
            ≡ slice_after_back (items_left self.old) (slice_left self.old) }
        ensures same { (d : Dialect) (t : List ℕ) → IsReadingOf d t self.old → IsReadingOf d t self.new }
    {
        let (piece, _) = self.back_ended()?;
        Some(piece)
    }

    /// Takes the last component left and returns it, with the index in the path just after it;
    /// `None` if none is left.
    #[inline(always)]
    fn back_ended(&mut self) -> Option<(Piece<'a>, usize)>
        ensures taken { option_map (λ ended. part_of ended.0) result ≡ last_part (items_left self.old) }
        ensures items { items_left self.new ≡ but_last (items_left self.old) }
        ensures slice { slice_left self.new
            ≡ slice_after_back (items_left self.old) (slice_left self.old) }
        ensures end { (last : Placed) → last_of (items_left self.old) ≡ Some last
            → IfSome result (λ ended. ended.1 ≡ end_of last) }
        ensures same { (d : Dialect) (t : List ℕ) → IsReadingOf d t self.old → IsReadingOf d t self.new }
    {
        let mut body = rest!(self);
        if let Some((step, end)) = body.back_ended() {
            *self = over!(body, self.prefix);
            return Some((step.piece(), end));
        }
        let found = self.prefix?;
        let end = self.from;
        Some((self.take_prefix(found), end))
    }
}

impl<'a> Cursor<'a> {
    ghost use Rattle.typed_path.specs.components.{kinds, parts};
    ghost use Rattle.typed_path.specs.queries.{has_implicit_root};
    ghost use Rattle.typed_path.specs.views.CursorViews.{items_left};

    /// Whether the prefix was not taken yet and implies a root, as each kind but `C:` does, that of
    /// `\\?\C:` too.
    #[inline(always)]
    pub(crate) fn has_implicit_root(&self) -> bool
        ensures { result ≡ has_implicit_root (kinds (parts (items_left self.now))) }
    {
        match self.prefix() {
            Some(WindowsPrefix::Disk(_)) | None => false,
            Some(_) => true,
        }
    }
}

impl<'a> Cursor<'a> {
    ghost use Rattle.typed_path.specs.views.CursorViews.{slice_left, items_left};
    ghost use Rattle.typed_path.specs.views.UnreadViews.{IsLookedUp, IsReadingOf, numbers_of, placed_of};

    /// Returns the cursor over `text` with the numbers `unread`. `separators` are those of `text`,
    /// and at stage 0 `prefix` is its prefix; at other stages `prefix` is not used.
    ///
    /// `None` if `to` is past the end of `text` or before `from`; at stage 0, if `from` is not 0 or
    /// `to` is within the prefix; at stage 2, if the slice begins with a separator or a skipped
    /// `.`; at any stage but 0, 1 and 2.
    #[inline(always)]
    #[tactic(auto, using(crate::proofs::lemmas::scan::Unread::whole_fits))]
    pub(crate) fn taken_up(
        text: &'a [u8],
        unread: Unread,
        prefix: Option<Found<'a>>,
        separators: Separators,
    ) -> Option<Cursor<'a>>
        ensures told { (d : Dialect) → IsLookedUp d text.now unread prefix.entry separators
            → is_some result ≡ is_unread d text.now unread }
        ensures items { (d : Dialect) → IsLookedUp d text.now unread prefix.entry separators
            → IfSome result (λ c. items_left c ≡ unread_items d text.now unread) }
        ensures slice { IfSome result (λ c. slice_left c ≡ unread_slice text.now unread) }
        ensures same { (d : Dialect) → IsLookedUp d text.now unread prefix.entry separators
            → IfSome result (IsReadingOf d text.now) }
    {
        if text.len() < unread.to {
            return None;
        }
        match unread.stage {
            0 => {
                let from = pending(prefix);
                if unread.from != 0 || unread.to < from {
                    return None;
                }
                Some(Cursor {
                    text,
                    from,
                    to: unread.to,
                    prefix,
                    begin: Begin::Body,
                    separators,
                })
            }
            1 => {
                if unread.to < unread.from {
                    return None;
                }
                Some(Cursor {
                    text,
                    from: unread.from,
                    to: unread.to,
                    prefix: None,
                    begin: Begin::Body,
                    separators,
                })
            }
            2 => {
                if unread.to < unread.from {
                    return None;
                }
                if !begins_clean(&text[unread.from..unread.to], separators) {
                    return None;
                }
                Some(Cursor {
                    text,
                    from: unread.from,
                    to: unread.to,
                    prefix: None,
                    begin: Begin::Inside,
                    separators,
                })
            }
            _ => None,
        }
    }

    /// Returns the numbers from which [`Cursor::taken_up`] makes this cursor of its path again:
    /// where the bytes left begin and end, and the stage.
    #[inline(always)]
    pub(crate) fn numbers(&self) -> Unread
        ensures { result ≡ numbers_of self.now }
    {
        if self.prefix.is_some() {
            return Unread {
                from: 0,
                to: self.to,
                stage: 0,
            };
        }
        match self.begin {
            Begin::Body => Unread {
                from: self.from,
                to: self.to,
                stage: 1,
            },
            Begin::Inside => Unread {
                from: self.from,
                to: self.to,
                stage: 2,
            },
        }
    }

    /// Returns the index in the path at which the first component left begins; unspecified if none
    /// is left.
    #[inline(always)]
    fn first_start(&self) -> usize
        ensures { (first : Placed) → first_of (items_left self.now) ≡ Some first → result ≡ first.start }
    {
        match self.prefix {
            Some(found) => self.from - found.length,
            None => self.from,
        }
    }

    /// Takes the first component left and returns it, like [`Cursor::front`]. The root needs no
    /// search.
    #[inline(always)]
    fn root_or_front(&mut self) -> Option<Piece<'a>>
        ensures taken { option_map part_of result ≡ first_part (items_left self.old) }
        ensures items { items_left self.new ≡ drop 1 (items_left self.old) }
        ensures slice { slice_left self.new
            ≡ slice_after_front (items_left self.old) (slice_left self.old) }
        ensures same { (d : Dialect) (t : List ℕ) → IsReadingOf d t self.old → IsReadingOf d t self.new }
    {
        take_first!(self, root_or_front)
    }

    /// Takes the first component left and returns it with its index, or `None` if none is left.
    #[inline(always)]
    pub(crate) fn front_placed(&mut self) -> Option<PlacedPiece<'a>>
        ensures taken { option_map placed_of result ≡ first_of (items_left self.old) }
        ensures items { items_left self.new ≡ drop 1 (items_left self.old) }
        ensures slice { slice_left self.new
            ≡ slice_after_front (items_left self.old) (slice_left self.old) }
        ensures same { (d : Dialect) (t : List ℕ) → IsReadingOf d t self.old → IsReadingOf d t self.new }
    {
        let start = self.first_start();
        match self.root_or_front() {
            Some(piece) => Some(PlacedPiece { start, piece }),
            None => None,
        }
    }

    /// Takes the last component left and returns it with its index, or `None` if none is left.
    #[inline(always)]
    pub(crate) fn back_placed(&mut self) -> Option<PlacedPiece<'a>>
        ensures taken { option_map placed_of result ≡ last_of (items_left self.old) }
        ensures items { items_left self.new ≡ but_last (items_left self.old) }
        ensures slice { slice_left self.new
            ≡ slice_after_back (items_left self.old) (slice_left self.old) }
        ensures same { (d : Dialect) (t : List ℕ) → IsReadingOf d t self.old → IsReadingOf d t self.new }
    {
        let (piece, end) = self.back_ended()?;
        Some(PlacedPiece {
            start: end - piece.text.len(),
            piece,
        })
    }
}

/// Returns the length in bytes of a prefix that was not taken yet, or 0 if there is none.
#[inline(always)]
fn pending(prefix: Option<Found<'_>>) -> usize
    ensures { result ≡ pending prefix.entry }
{
    match prefix {
        Some(found) => found.length,
        None => 0,
    }
}

/// Returns the component of the prefix `found`, whose raw bytes end at `end`.
fn prefix_piece<'a>(text: &'a [u8], end: usize, found: Found<'a>) -> Piece<'a>
    requires length { found.length ≤ end }
    requires within { end ≤ length text.now }
    ensures { part_of result ≡ prefix_part (prefix_view found.entry.kind)
        (slice_range text.now (end - found.entry.length) end) }
{
    // Out of line, so that code for paths without a prefix stays small.
    Piece {
        kind: PieceKind::Prefix(found.kind),
        text: &text[end - found.length..end],
    }
}

/// Where the slice left begins, which decides how its first segment is read.
#[derive(Clone, Copy, Debug)]
pub enum Begin {
    /// At the start of the body: an empty first segment is the root, and `.` a component.
    Body,
    /// After a component: an empty segment is skipped, and `.` too unless the path is read
    /// verbatim.
    Inside,
}

/// What is left of a path after its prefix: a range of its bytes.
#[derive(Clone, Copy, Debug)]
pub struct Body<'a> {
    /// The whole path.
    pub text: &'a [u8],
    /// The index at which what is left begins.
    pub from: usize,
    /// The index at which what is left ends.
    pub to: usize,
    begin: Begin,
    /// The separators of the whole path.
    pub separators: Separators,
    ghost ordered: { from ≤ to },
    ghost in_range: { to ≤ length text.now },
    ghost starts_clean: { is_clean begin separators (slice_range text.now from to) ≡ true },
}

impl<'a> Body<'a> {
    ghost use Rattle.typed_path.specs.declared.scan.cursor.Begin.{Begin};
    ghost use Rattle.typed_path.specs.declared.scan.step.StepKind.{StepKind};
    ghost use Rattle.typed_path.specs.queries.{begins_with_root};
    ghost use Rattle.typed_path.specs.views.BodyViews.{body_slice, body_items};
    ghost use Rattle.typed_path.specs.changes.{error_of, fault_behind};

    /// Returns the whole body `text[from..]`, of which nothing was taken.
    #[inline(always)]
    pub fn new(text: &'a [u8], from: usize, separators: Separators) -> Body<'a>
        requires { from ≤ length text.now }
        ensures text { result.text ≡ text.entry }
        ensures from { result.from ≡ from }
        ensures to { result.to ≡ length text.now }
        ensures items { body_items result ≡ body separators from (drop from text.now) }
        ensures separators { result.separators ≡ separators }
    {
        Body {
            text,
            from,
            to: text.len(),
            begin: Begin::Body,
            separators,
        }
    }

    /// Returns the rest `text[from..]` of a body, to be read as what comes after a component.
    ///
    /// It is empty or begins with a component.
    #[inline(always)]
    pub fn inside(text: &'a [u8], from: usize, separators: Separators) -> Body<'a>
        requires within { from ≤ length text.now }
        requires clean { is_clean Begin.Inside separators (drop from text.now) ≡ true }
        ensures items { body_items result ≡ later_body separators from (drop from text.now) }
        ensures from { result.from ≡ from }
    {
        Body {
            text,
            from,
            to: text.len(),
            begin: Begin::Inside,
            separators,
        }
    }

    /// Returns what is left `count` bytes further on, where nothing is left or a component begins,
    /// as after others.
    #[inline(always)]
    pub fn further(self, count: usize) -> Body<'a>
        requires within { count ≤ length (body_slice self) }
        requires clean { is_clean Begin.Inside self.separators (drop count (body_slice self)) ≡ true }
        ensures items { body_items result ≡ later_body self.entry.separators (self.entry.from + count)
            (drop count (body_slice self.entry)) }
        ensures slice { body_slice result ≡ drop count (body_slice self.entry) }
        ensures separators { result.separators ≡ self.entry.separators }
    {
        Body {
            text: self.text,
            from: self.from + count,
            to: self.to,
            begin: Begin::Inside,
            separators: self.separators,
        }
    }

    /// Returns `text[from..]`: the slice left and all bytes after it.
    #[inline(always)]
    pub fn onward(&self) -> &'a [u8]
        ensures { result.now ≡ drop self.now.from self.now.text.now }
    {
        &self.text[self.from..]
    }

    /// Returns the slice left, from the first component left on. Separators at its end stay until a
    /// component is taken from the back.
    #[inline(always)]
    pub fn as_bytes(&self) -> &'a [u8]
        ensures { result.now ≡ body_slice self.now }
    {
        &self.text[self.from..self.to]
    }

    /// Whether no component was taken from the front.
    #[inline(always)]
    pub fn is_whole(&self) -> bool
        ensures { IsTrue result → self.now.begin ≡ Begin.Body }
    {
        matches!(self.begin, Begin::Body)
    }

    /// Whether the first component left is the root.
    #[inline(always)]
    pub fn has_physical_root(&self) -> bool
        ensures { result ≡ begins_with_root (kinds (parts (body_items self.now))) }
    {
        match self.begin {
            Begin::Body => match self.as_bytes().first() {
                Some(byte) => self.separators.contains(*byte),
                None => false,
            },
            Begin::Inside => false,
        }
    }

    /// Returns the index in the path just after the last component left, or `from` if none is left.
    #[inline(always)]
    pub fn last_end(&self) -> usize
        ensures { result ≡ end_from self.now.from (body_items self.now) }
    {
        self.from + trim_blanks(self.as_bytes(), self.separators)
    }

    /// Checks the components left as a checked push does those of the pushed path. `Err` is the
    /// error of the first one that is refused.
    #[inline(always)]
    pub fn check(mut self) -> Result<(), CheckedPathError>
        ensures { error_of result ≡ fault_behind (dialect_of self.entry.separators) []
            (kinds (parts (body_items self.entry))) }
    {
        // Inlined, so that it is compiled for the separators of each encoding.
        let allowed = self.separators.allows_names_of(self.as_bytes());
        let mut depth = 0usize;
        'steps: while let Some(step) = self.front() {
            depth = depth_behind(step, depth, self.separators, allowed)?;
        }
        Ok(())
    }

    /// Takes the first component left and returns it, or `None` if none is left.
    #[inline(always)]
    pub fn front(&mut self) -> Option<Step<'a>>
        ensures taken { option_map step_part result ≡ first_part (body_items self.old) }
        ensures items { body_items self.new ≡ drop 1 (body_items self.old) }
        ensures slice { body_slice self.new
            ≡ slice_after_front (body_items self.old) (body_slice self.old) }
        ensures named { IfSome result (λ step. step.kind ≡ StepKind.Normal
            → take (length step.text.now) (drop self.old.from self.old.text.now) ≡ step.text.now) }
        ensures separators { self.new.separators ≡ self.old.separators }
        ensures text { self.new.text ≡ self.old.text }
    {
        if self.as_bytes().is_empty() {
            return None;
        }
        let end = self.separators.first_within(self.text, self.from, self.to);
        Some(self.take_segment(end))
    }

    /// Takes the root and returns it, or returns `None` if what is left does not begin with one.
    ///
    /// It needs no search, unlike [`Body::front`].
    #[inline(always)]
    pub fn root(&mut self) -> Option<Step<'a>>
        ensures rooted { is_some result ≡ begins_with_root (kinds (parts (body_items self.old))) }
        ensures taken { IfSome result (λ step. Some (step_part step) ≡ first_part (body_items self.old)) }
        ensures items { IfSome result (λ _. body_items self.new ≡ drop 1 (body_items self.old)) }
        ensures slice { IfSome result (λ _. body_slice self.new
            ≡ slice_after_front (body_items self.old) (body_slice self.old)) }
        ensures kept { IfNone result (self.new ≡ self.old) }
        ensures separators { self.new.separators ≡ self.old.separators }
        ensures text { self.new.text ≡ self.old.text }
    {
        if !self.has_physical_root() {
            return None;
        }
        Some(self.take_segment(0))
    }

    /// Takes the first component left and returns it, or `None` if none is left, like
    /// [`Body::front`]. The root needs no search.
    #[inline(always)]
    fn root_or_front(&mut self) -> Option<Step<'a>>
        ensures taken { option_map step_part result ≡ first_part (body_items self.old) }
        ensures items { body_items self.new ≡ drop 1 (body_items self.old) }
        ensures slice { body_slice self.new
            ≡ slice_after_front (body_items self.old) (body_slice self.old) }
        ensures separators { self.new.separators ≡ self.old.separators }
        ensures text { self.new.text ≡ self.old.text }
    {
        if self.has_physical_root() {
            return Some(self.take_segment(0));
        }
        self.front()
    }

    /// Takes the first component left and returns it. Its segment ends at index `end` of the slice
    /// left.
    #[inline(always)]
    pub fn take_segment(&mut self, end: usize) -> Step<'a>
        requires some { 0 < length (body_slice self.old) }
        requires within { end ≤ length (body_slice self.old) }
        requires ends { end ≡ position_or_len (is_separator self.old.separators) (body_slice self.old) }
        ensures taken { Some (step_part result) ≡ first_part (body_items self.old) }
        ensures items { body_items self.new ≡ drop 1 (body_items self.old) }
        ensures slice { body_slice self.new
            ≡ slice_after_front (body_items self.old) (body_slice self.old) }
        ensures named { result.kind ≡ StepKind.Normal
            → take (length result.text.now) (drop self.old.from self.old.text.now) ≡ result.text.now }
        ensures separators { self.new.separators ≡ self.old.separators }
        ensures text { self.new.text ≡ self.old.text }
    {
        let left = self.as_bytes();
        let (step, taken) = front_step(left, end, self.separators);
        self.from += taken;
        self.begin = Begin::Inside;
        step
    }

    /// Takes the last component left and returns it, or `None` if none is left.
    #[inline(always)]
    pub fn back(&mut self) -> Option<Step<'a>>
        ensures taken { option_map step_part result ≡ last_part (body_items self.old) }
        ensures items { body_items self.new ≡ but_last (body_items self.old) }
        ensures slice { body_slice self.new
            ≡ slice_after_back (body_items self.old) (body_slice self.old) }
        ensures text { self.new.text ≡ self.old.text }
        ensures from { self.new.from ≡ self.old.from }
        ensures shorter { self.new.to ≤ self.old.to }
        ensures end { IfSome result
            (λ _. self.new.to ≡ end_from self.old.from (but_last (body_items self.old))) }
        ensures none { IfNone result (body_slice self.old ≡ []) }
        ensures begin { self.new.begin ≡ self.old.begin }
        ensures separators { self.new.separators ≡ self.old.separators }
    {
        let (step, _) = self.back_ended()?;
        Some(step)
    }

    /// Takes the last component left and returns it, with the index in the path just after it;
    /// `None` if none is left.
    #[inline(always)]
    fn back_ended(&mut self) -> Option<(Step<'a>, usize)>
        ensures taken { option_map (λ ended. step_part ended.0) result ≡ last_part (body_items self.old) }
        ensures items { body_items self.new ≡ but_last (body_items self.old) }
        ensures slice { body_slice self.new
            ≡ slice_after_back (body_items self.old) (body_slice self.old) }
        ensures text { self.new.text ≡ self.old.text }
        ensures from { self.new.from ≡ self.old.from }
        ensures shorter { self.new.to ≤ self.old.to }
        ensures left { IfSome result
            (λ _. self.new.to ≡ end_from self.old.from (but_last (body_items self.old))) }
        ensures end { IfSome result (λ ended. ended.1 ≡ end_from self.old.from (body_items self.old)) }
        ensures none { IfNone result (body_slice self.old ≡ []) }
        ensures begin { self.new.begin ≡ self.old.begin }
        ensures separators { self.new.separators ≡ self.old.separators }
    {
        let left = self.as_bytes();
        if left.is_empty() {
            return None;
        }
        let (step, kept, end) = back_step(left, self.separators);
        self.to = self.from + kept;
        Some((step, self.from + end))
    }
}
