//! What a path tells in numbers, for callers in other languages: the steps of a reading that they
//! keep as three numbers, where a pushed path goes, and where the names of a prefix stand. No call
//! allocates.

ghost use Rattle.std.specs.Prelude.{◌≡◌, ◌≤◌, length, drop, option_map, is_ok, is_some, not, IfSome, IfOk, OnOk, OnErr, IsSome, IsNone, MatchOption};
ghost use Rattle.typed_path.specs.changes.{IsNoneOrSeparator, merges, put_in_place};
ghost use Rattle.typed_path.specs.changes.Push as push_spec;
ghost use Rattle.typed_path.specs.components.{comps, end_of, prefix_of, windows};
ghost use Rattle.typed_path.specs.queries.{AreNamesOf};
ghost use Rattle.typed_path.specs.scan.{IsReading, is_unread, unread_items, unread_slice, first_of, last_of, but_last, slice_after_front, slice_after_back};
ghost use Rattle.typed_path.specs.typed.{typed_dialect};
ghost use Rattle.typed_path.specs.views.CursorViews.{items_left, slice_left};
ghost use Rattle.typed_path.specs.views.PieceViews.{found_of};
ghost use Rattle.typed_path.specs.views.TypedViews.{typed_bytes};
ghost use Rattle.typed_path.specs.views.UnreadViews.{IsReadingOf, placed_of};

use crate::common::PushPlace;
use crate::errors::ReadingError;
use crate::scan::{Cursor, Found, PlacedPiece, Separators, Unread, find_prefix};
use crate::typed::path::TypedPath;
use crate::typed::variant::Typed;
use crate::unix;
use crate::windows::{self, PrefixNames};

impl<'a> TypedPath<'a> {
    /// Returns the numbers of a reading of this path from which nothing was taken.
    pub fn unread(self) -> Unread
        ensures items { IsReading (typed_dialect self.entry) (typed_bytes self.entry) result
            (comps (typed_dialect self.entry) (typed_bytes self.entry)) }
        ensures slice { unread_slice (typed_bytes self.entry) result ≡ typed_bytes self.entry }
    {
        Unread {
            from: 0,
            to: self.as_bytes().len(),
            stage: 0,
        }
    }

    /// Takes the first component that is left of the reading of this path at `unread`, and moves
    /// `unread` past it; `Ok(None)` if none is left.
    ///
    /// # Errors
    ///
    /// `ReadingError` exactly if no reading of this path may stand at these numbers, as may be if
    /// they are those of another path. Then they are unchanged.
    #[inline(always)]
    pub fn step_front(self, unread: &mut Unread) -> Result<Option<PlacedPiece<'a>>, ReadingError>
        ensures told { is_ok result
            ≡ is_unread (typed_dialect self.entry) (typed_bytes self.entry) unread.old }
        ensures taken { IfOk result (λ taken. option_map placed_of taken
            ≡ first_of (unread_items (typed_dialect self.entry) (typed_bytes self.entry) unread.old)) }
        ensures items { OnOk result (IsReading (typed_dialect self.entry) (typed_bytes self.entry)
            unread.new (drop 1
            (unread_items (typed_dialect self.entry) (typed_bytes self.entry) unread.old))) }
        ensures slice { OnOk result (unread_slice (typed_bytes self.entry) unread.new
            ≡ slice_after_front
            (unread_items (typed_dialect self.entry) (typed_bytes self.entry) unread.old)
            (unread_slice (typed_bytes self.entry) unread.old)) }
        ensures within { IfOk result (λ taken. IfSome taken
            (λ c. end_of (placed_of c) ≤ length (typed_bytes self.entry))) }
        ensures kept { OnErr result (unread.new ≡ unread.old) }
    {
        let Some(mut cursor) = taken_up(self, *unread) else {
            return Err(ReadingError);
        };
        let taken = cursor.front_placed();
        *unread = cursor.numbers();
        Ok(taken)
    }

    /// Takes the last component that is left of the reading of this path at `unread`, and moves
    /// `unread` before it; `Ok(None)` if none is left.
    ///
    /// # Errors
    ///
    /// Those of [`TypedPath::step_front`].
    #[inline(always)]
    pub fn step_back(self, unread: &mut Unread) -> Result<Option<PlacedPiece<'a>>, ReadingError>
        ensures told { is_ok result
            ≡ is_unread (typed_dialect self.entry) (typed_bytes self.entry) unread.old }
        ensures taken { IfOk result (λ taken. option_map placed_of taken
            ≡ last_of (unread_items (typed_dialect self.entry) (typed_bytes self.entry) unread.old)) }
        ensures items { OnOk result (IsReading (typed_dialect self.entry) (typed_bytes self.entry)
            unread.new (but_last
            (unread_items (typed_dialect self.entry) (typed_bytes self.entry) unread.old))) }
        ensures slice { OnOk result (unread_slice (typed_bytes self.entry) unread.new
            ≡ slice_after_back
            (unread_items (typed_dialect self.entry) (typed_bytes self.entry) unread.old)
            (unread_slice (typed_bytes self.entry) unread.old)) }
        ensures within { IfOk result (λ taken. IfSome taken
            (λ c. end_of (placed_of c) ≤ length (typed_bytes self.entry))) }
        ensures kept { OnErr result (unread.new ≡ unread.old) }
    {
        let Some(mut cursor) = taken_up(self, *unread) else {
            return Err(ReadingError);
        };
        let taken = cursor.back_placed();
        *unread = cursor.numbers();
        Ok(taken)
    }

    /// Returns where `other`, read in the same dialect, goes if it is pushed onto this path: how
    /// many bytes of this one are kept, and what stands between. `None` if the push merges it into
    /// a base with a verbatim prefix, as `\\?\C:\a`.
    ///
    /// Of `a` and `b` on Unix all of `a` is kept, with `/` after it.
    #[inline]
    pub fn push_place(self, other: &[u8]) -> Option<PushPlace>
        ensures place { IfSome result (λ place.
            push_spec.push (typed_dialect self.entry) (typed_bytes self.entry) other.now
            ≡ put_in_place (typed_bytes self.entry) place.kept place.separator.now other.now) }
        ensures within { IfSome result (λ place. place.kept ≤ length (typed_bytes self.entry)) }
        ensures separator { IfSome result
            (λ place. IsNoneOrSeparator (typed_dialect self.entry) place.separator.now) }
        ensures none { is_some result
            ≡ not (merges (typed_dialect self.entry) (typed_bytes self.entry) other.now) }
    {
        match self {
            Typed::Unix(base) => Some(unix::push_place(base.as_bytes(), other)),
            Typed::Windows(base) => windows::push_place(base.as_bytes(), other),
        }
    }

    /// Returns where the names of the prefix begin and end, `None` without a prefix, as on Unix.
    pub fn prefix_names(self) -> Option<PrefixNames>
        ensures { MatchOption (prefix_of (typed_dialect self.entry) (typed_bytes self.entry))
            (IsNone result) (λ f. IsSome result × IfSome result (λ names.
            AreNamesOf (typed_bytes self.entry) f.prefix names.first names.first_end
            names.second names.second_end)) }
    {
        match self {
            Typed::Unix(_) => None,
            Typed::Windows(path) => windows::prefix_names(path.as_bytes()),
        }
    }
}

/// Returns the cursor over what a reading of `path` has left if its numbers are `unread`; `None` if
/// no reading may stand at these, as [`TypedPath::step_front`] says.
#[inline(always)]
fn taken_up<'a>(path: TypedPath<'a>, unread: Unread) -> Option<Cursor<'a>>
    ensures told { is_some result
        ≡ is_unread (typed_dialect path.entry) (typed_bytes path.entry) unread }
    ensures items { IfSome result (λ c. items_left c
        ≡ unread_items (typed_dialect path.entry) (typed_bytes path.entry) unread) }
    ensures slice { IfSome result
        (λ c. slice_left c ≡ unread_slice (typed_bytes path.entry) unread) }
    ensures same { IfSome result
        (IsReadingOf (typed_dialect path.entry) (typed_bytes path.entry)) }
{
    match path {
        Typed::Unix(held) => Cursor::taken_up(held.as_bytes(), unread, None, Separators::Slash),
        Typed::Windows(held) => {
            let text = held.as_bytes();
            let prefix = untaken_prefix(text, unread.stage);
            Cursor::taken_up(text, unread, prefix, Separators::of_windows(text))
        }
    }
}

/// Returns the prefix of a Windows path if the stage is 0, in which nothing was taken from the
/// front; `None` if it has none, or in a later stage.
#[inline(always)]
fn untaken_prefix(path: &[u8], stage: u32) -> Option<Found<'_>>
    ensures { stage ≡ 0 → option_map found_of result ≡ prefix_of windows path.now }
{
    if stage == 0 { find_prefix(path) } else { None }
}
