//! The trait that every encoding of paths implements.

ghost use Rattle.std.specs.Prelude.{◌≡◌, ◌≤◌, ◌<◌, Bool, ◌+◌, ◌++◌, length, fold, ℕ, List, drop, take, option_copied, option_map, IsSome, Some, None, IsOk, IfOk, IfSome, OnOk, OnErr};
ghost use Rattle.std.specs.Vec.{vec_len, vec_capacity};
ghost use Rattle.typed_path.specs.changes.{refusal, error_of, FitsPush, IsKnown, fault};
ghost use Rattle.typed_path.specs.promises.{HasPrefixOf, LiesWithin};
ghost use Rattle.typed_path.specs.components.{Dialect, windows, separators, root_of, label_of, comps, parts_of, kinds, parts};
ghost use Rattle.typed_path.specs.conversions.{same_dialect};
ghost use Rattle.typed_path.specs.scan.{but_last, slice_after_front, slice_after_back, first_part, last_part};
ghost use Rattle.typed_path.specs.views.PieceViews.{part_of};
ghost use Rattle.typed_path.specs.views.CursorViews.{slice_left, items_left};
ghost use Rattle.typed_path.specs.queries.{is_absolute, has_root, is_valid_name, is_valid, stripped};
ghost use Rattle.typed_path.specs.places.{normal_text, HasPlainNames};
ghost use Rattle.typed_path.specs.changes.Push as push_spec;
ghost use Rattle.typed_path.specs.order.{path_cmp};
ghost use Rattle.typed_path.specs.order.Words.{path_words};

use crate::common::order::{feed, feed_prefix};
use crate::errors::{CheckedPathError, PathError};
use crate::scan::{Cursor, Piece, Separators};
use std::alloc::AllocError;
use std::cmp::Ordering;
use std::hash::Hasher;

/// An encoding: how paths are read and written, as on Unix or as on Windows.
///
/// Code that is generic over the encoding relies on nothing but these contracts.
pub trait Encoding: Sized {
    ghost dialect: { Dialect };

    ghost IS_PLATFORM: { Bool };

    /// Whether this is the platform encoding. It is `false` for the Unix encoding, although the
    /// platform encoding forwards to that.
    const IS_PLATFORM: bool;

    /// The name of the encoding: `unix` or `windows`.
    fn label() -> &'static str
        ensures { result.now ≡ label_of dialect };

    /// Whether paths are read and written as on Windows, else as on Unix.
    fn is_windows() -> bool
        ensures { result ≡ same_dialect dialect windows };

    /// The root as it is written when a path is put together: `/` or `\`.
    fn root_text() -> &'static [u8]
        ensures { result.now ≡ root_of dialect };

    /// Not for callers. Returns which bytes separate the components of a path.
    fn separators(path: &[u8]) -> Separators
        ensures { result ≡ separators dialect path.now };

    /// Whether the encoding allows `name`: it has no byte that no name may have and, on Windows,
    /// does not stand for a device, as `con.txt` does. The empty name, `.` and `..` are allowed.
    fn valid(name: &[u8]) -> bool
        ensures { result ≡ is_valid_name dialect name.now };

    /// Whether `valid` is true of each name of a path. The names of its prefix are not looked at.
    fn valid_names(path: &[u8]) -> bool
        ensures { result ≡ is_valid dialect (kinds (parts_of dialect path.now)) };

    /// Feeds a path to a hasher: the prefix by its kind and names, then the bytes of each later
    /// component except the root, and last the sum of the lengths of these bytes.
    fn hash<H: Hasher>(path: &[u8], state: &mut H)
        ensures { state.new ≡ fold H.write state.old (path_words dialect path.now) }
    {
        let cursor = Self::cursor(path);
        feed_prefix(cursor.prefix(), state);
        let mut body = cursor.body();
        let mut len = 0;
        'steps: while let Some(step) = body.front() {
            len += feed(step, state);
        }
        state.write_usize(len);
    }

    /// Checks whether a checked push accepts a path, whatever the base. What an accepted path makes
    /// of a base lies within that base if it still has the base's prefix, as it always does where
    /// `keeps_prefix` is true of the base.
    ///
    /// # Errors
    ///
    /// The refusal of the first component that offends: `UnexpectedPrefix`, `UnexpectedRoot`,
    /// `PathTraversalAttack` for a `..` that no earlier name makes up for, as in `a/../..`, or
    /// `InvalidFilename`.
    fn check(path: &[u8]) -> Result<(), CheckedPathError>
        ensures refused { error_of result ≡ fault dialect path.now }
        ensures prefix { OnOk result
            ((base : List ℕ) → HasPrefixOf dialect base (push_spec.push dialect base path.now)) }
        ensures contained { OnOk result ((base : List ℕ)
            → LiesWithin dialect base path.now (push_spec.push dialect base path.now)) };

    /// Pushes `other` onto `path`: one with a prefix replaces it, one with a root all of it but its
    /// prefix, and an empty one changes nothing. If allocation fails, `path` keeps its bytes.
    fn push(path: &mut Vec<u8>, other: &[u8]) -> Result<(), AllocError>
        ensures ok { OnOk result
            (path.new.items ≡ push_spec.push dialect path.old.items other.now) }
        ensures err { OnErr result (path.new.items ≡ path.old.items) }
        ensures capacity { vec_capacity path.old ≤ vec_capacity path.new }
        ensures succeeds { FitsPush dialect (vec_capacity path.old) path.old.items other.now
            → IsOk result }
    {
        Self::push_over(path, path.len(), other)
    }

    /// Pushes `other` onto `path`, unless `check` refuses `other`. If it does, or allocation fails,
    /// `path` keeps its bytes.
    fn push_checked(path: &mut Vec<u8>, other: &[u8]) -> Result<(), PathError>
        ensures refused { refusal result ≡ fault dialect other.now }
        ensures ok { OnOk result
            (path.new.items ≡ push_spec.push dialect path.old.items other.now) }
        ensures err { OnErr result (path.new.items ≡ path.old.items) }
        ensures unchanged { IsSome (refusal result) → path.new ≡ path.old }
        ensures capacity { vec_capacity path.old ≤ vec_capacity path.new }
        ensures succeeds { fault dialect other.now ≡ None
            → FitsPush dialect (vec_capacity path.old) path.old.items other.now → IsOk result }
        ensures prefix { OnOk result (HasPrefixOf dialect path.old.items path.new.items) }
        ensures contained { OnOk result
            (LiesWithin dialect path.old.items other.now path.new.items) }
    {
        Self::check(other)?;
        Ok(Self::push(path, other)?)
    }

    /// Not for callers. Returns a cursor over the components of a path.
    fn cursor(path: &[u8]) -> Cursor<'_>
        ensures items { items_left result ≡ comps dialect path.now }
        ensures slice { slice_left result ≡ path.now };

    /// Not for callers. Takes the first component that is left, with the separators after it;
    /// `None` if no component is left.
    fn front<'a>(cursor: &mut Cursor<'a>) -> Option<Piece<'a>>
        ensures taken { option_map part_of result ≡ first_part (items_left cursor.old) }
        ensures items { items_left cursor.new ≡ drop 1 (items_left cursor.old) }
        ensures slice { slice_left cursor.new
            ≡ slice_after_front (items_left cursor.old) (slice_left cursor.old) };

    /// Not for callers. Takes the last component that is left, with the separators before it;
    /// `None` if no component is left.
    fn back<'a>(cursor: &mut Cursor<'a>) -> Option<Piece<'a>>
        ensures taken { option_map part_of result ≡ last_part (items_left cursor.old) }
        ensures items { items_left cursor.new ≡ but_last (items_left cursor.old) }
        ensures slice { slice_left cursor.new
            ≡ slice_after_back (items_left cursor.old) (slice_left cursor.old) };

    /// Not for callers. Whether the components that are left are those of an absolute path.
    fn absolute(cursor: &Cursor<'_>) -> bool
        ensures { result ≡ is_absolute dialect (kinds (parts (items_left cursor.now))) };

    /// Not for callers. Whether the components that are left begin with a root, written or implied
    /// by a prefix other than `C:` and `\\?\C:`.
    fn rooted(cursor: &Cursor<'_>) -> bool
        ensures { result ≡ has_root dialect (kinds (parts (items_left cursor.now))) };

    /// Not for callers. Returns whether `path` begins with the components of `base`, and if so what
    /// is left of it after them, if a look at their bytes tells: `Some(Some(rest))` or
    /// `Some(None)`. `None` leaves it open.
    fn strip_by_bytes<'a>(path: &'a [u8], base: &[u8]) -> Option<Option<&'a [u8]>>
        ensures { IfSome result (λ told. stripped dialect path.now base.now ≡ option_copied told) }
    {
        None
    }

    /// Not for callers. Returns the order of two paths if their prefixes differ, or only one has
    /// one, or if the bytes after the prefixes decide it. `None` leaves it open.
    fn order_behind_prefix(path: &[u8], other: &[u8]) -> Option<Ordering>
        ensures { IfSome result (λ order. path_cmp dialect path.now other.now ≡ order) }
    {
        None
    }

    /// Not for callers. Cuts `path` to its first `kept` bytes, and pushes `other` onto these. If
    /// allocation fails, `path` keeps all its bytes.
    fn push_over(path: &mut Vec<u8>, kept: usize, other: &[u8]) -> Result<(), AllocError>
        ensures ok { OnOk result
            (path.new.items ≡ push_spec.push dialect (take kept path.old.items) other.now) }
        ensures err { OnErr result (path.new.items ≡ path.old.items) }
        ensures capacity { vec_capacity path.old ≤ vec_capacity path.new }
        ensures succeeds { FitsPush dialect (vec_capacity path.old)
            (take kept path.old.items) other.now → IsOk result };

    /// Not for callers. Pushes `other` onto the path `text[start..]`. If allocation fails, `text`
    /// keeps its bytes.
    fn push_behind(text: &mut Vec<u8>, start: usize, other: &[u8]) -> Result<(), AllocError>
        ensures ok { OnOk result (text.new.items ≡ take start text.old.items
            ++ push_spec.push dialect (drop start text.old.items) other.now) }
        ensures err { OnErr result (text.new.items ≡ text.old.items) }
        ensures capacity { vec_capacity text.old ≤ vec_capacity text.new }
        ensures succeeds { (room : ℕ) → start + room ≤ vec_capacity text.old
            → FitsPush dialect room (drop start text.old.items) other.now → IsOk result }
    {
        Self::push_next(text, start, other, None)?;
        Ok(())
    }

    /// Not for callers. Pushes `other` onto the path `text[start..]`, and returns what is known of
    /// the result. If allocation fails, `text` keeps its bytes.
    ///
    /// What is known is the length of a verbatim prefix, if all is spelled as a push spells it: 6
    /// for `\\?\C:\a`, and not for `\\?\C:\a\`; else `None`. Pushes in turn hand it on, so that
    /// none has to read anew what stands there. If `known` is wrong, all that holds is that `text`
    /// keeps its bytes if allocation fails.
    fn push_next(
        text: &mut Vec<u8>,
        start: usize,
        other: &[u8],
        known: Option<usize>,
    ) -> Result<Option<usize>, AllocError>
        ensures ok { IsKnown dialect known (drop start text.old.items) → OnOk result
            (text.new.items ≡ take start text.old.items
            ++ push_spec.push dialect (drop start text.old.items) other.now) }
        ensures known { start ≤ length text.old.items
            → IsKnown dialect known (drop start text.old.items)
            → IfOk result (λ next. IsKnown dialect next (drop start text.new.items)) }
        ensures err { OnErr result (text.new.items ≡ text.old.items) }
        ensures capacity { vec_capacity text.old ≤ vec_capacity text.new }
        ensures succeeds { (room : ℕ) → start + room ≤ vec_capacity text.old
            → IsKnown dialect known (drop start text.old.items)
            → FitsPush dialect room (drop start text.old.items) other.now → IsOk result };

    /// Not for callers. Appends the normal path of `path` to `text`: the components that its list
    /// resolves to, pushed one by one onto the empty path. If allocation fails, `text` keeps its
    /// bytes.
    ///
    /// It never fails if `text` has spare capacity for `path` and one byte more, and each of these
    /// pushes only appends: on Windows, if the prefix is not verbatim, as `\\?\C:` is, and no
    /// segment after it begins with a drive `C:`.
    fn put_normal(text: &mut Vec<u8>, path: &[u8]) -> Result<(), AllocError>
        ensures ok { OnOk result (text.new.items ≡ text.old.items ++ normal_text dialect path.now) }
        ensures err { OnErr result (text.new.items ≡ text.old.items) }
        ensures capacity { vec_capacity text.old ≤ vec_capacity text.new }
        ensures succeeds { HasPlainNames dialect path.now
            → vec_len text.old + length path.now < vec_capacity text.old → IsOk result };
}
