//! The laws of paths, each as a function that does nothing and ensures the law.

ghost use Rattle.std.specs.Prelude.{◌≡◌, ◌↔◌, ℕ, ◌+◌, ◌*◌, ◌<◌, ◌≤◌, List, [], ◌∷◌, ◌++◌, true, false, length, Some, None, IfSome, IfOk, pos};
ghost use Rattle.std.specs.List.{concat, list_any, last_or};
ghost use Rattle.std.specs.Cmp.{IsTotalOrder};
ghost use Rattle.std.specs.declared.cmp.Ordering.{Ordering};
ghost use Rattle.std.specs.Ordering.{ordering_then, nat_cmp};
ghost use Rattle.std.specs.Hash.{isize};
ghost use Rattle.std.specs.Str.{is_utf8};
ghost use Rattle.typed_path.specs.components.{Dialect, unix, dot, slash, Kind, Placed, kinds, prefix, Found, prefix_of, comps, parts_of};
ghost use Rattle.typed_path.specs.scan.{Side, reads, left, items_between, but_last, answers_after, items_after, slice_after, fronts, backs, IsWhole, IsLaidOut};
ghost use Rattle.typed_path.specs.queries.{is_child_of, IsOneBelow, parent_of, prefix_in, is_a_dot, stem_of, extension_of, ancestors_of, common_ancestor_of};
ghost use Rattle.typed_path.specs.changes.{fault, push, with_extension, with_file_name};
ghost use Rattle.typed_path.specs.conversions.{converted, converted_checked, absolute_from, absolute_under};
ghost use Rattle.typed_path.specs.places.{clean_text, is_within, normal_text, relative_text};
ghost use Rattle.typed_path.specs.promises.{AreCleanAlike, HasCleanForm, LeadAlike, IsWithinExactly, JoinsWithin, KeepsAgain, StaysWithin, LeadsBelow, JoinAppends, StripJoins, ReadsAsResolved, StaysNormal, IsCanonical, HashAlike, CrossesWhereAllowed, CrossesAsItIs, CrossesBack, CrossesToUnix, IsLongest, ShareNothing, ExtendsName, CleanLeadsAlike, HasNone, HasNoneAtAll, HasNoneOnUnix, IsDotAlike, LeadsBack, StaysRelative};
ghost use Rattle.typed_path.specs.order.{key_bytes, key_writes, AreFedAlike, IsKeyed, IsToldApart, IsSame, is_same, path_cmp, kind_cmp, bytes_cmp, text_unix_words, text_prefix_words, text_kind_words, text_windows_words, text_piece_words};
ghost use Rattle.typed_path.specs.views.PieceViews.{kind_view, part_of};
ghost use Rattle.typed_path.specs.views.UnixViews.{unix_part};
ghost use Rattle.typed_path.specs.order.Words.{path_words, unix_words, kind_words, piece_words};
ghost use Rattle.typed_path.specs.views.PathViews.{path_bytes, components_slice};
ghost use Rattle.typed_path.specs.views.KeyViews.{keyed_path};
ghost use Rattle.typed_path.specs.views.TextViews.{utf8_bytes};
ghost use Rattle.typed_path.specs.views.ReadingViews.{reading_slice};
ghost use Rattle.typed_path.specs.views.TextPieceViews.{text_prefix, text_kind, text_part};
ghost use Rattle.typed_path.specs.views.TextComponentViews.{text_unix_part, text_prefix_part, text_windows_part};
ghost use Rattle.typed_path.specs.typed.{typed_eq, typed_cmp, typed_key_words, typed_words, reading_eq, reading_partial_cmp, kind_place};

mod lowered;
mod portable;
mod windows;

use crate::common::{Ancestors, Components, Encoding, Iter, Key, KeyPath, Path, PathBuf, Reading};
use crate::constants::unix::{
    CURRENT_DIR, CURRENT_DIR_STR, DISALLOWED_FILENAME_BYTES, DISALLOWED_FILENAME_CHARS, PARENT_DIR,
    PARENT_DIR_STR, SEPARATOR, SEPARATOR_STR,
};
use crate::platform::PlatformEncoding;
use crate::scan::{Piece, PieceKind};
use crate::typed::{
    PathType, Typed, TypedAncestors, TypedComponents, TypedIter, TypedReading, Utf8TypedAncestors,
    Utf8TypedComponents, Utf8TypedIter,
};
use crate::unix::{UnixComponent, UnixEncoding};
use crate::utf8::{
    Utf8Ancestors, Utf8Encoding, Utf8Path, Utf8Piece, Utf8PieceKind, Utf8PlatformEncoding,
    Utf8Reading, Utf8UnixComponent, Utf8UnixEncoding, Utf8WindowsComponent, Utf8WindowsEncoding,
    Utf8WindowsPrefix, Utf8WindowsPrefixComponent,
};
use crate::windows::WindowsEncoding;
pub use lowered::{
    lowered_answers_alike, lowered_are_equal, lowered_reads_alike, lowered_stay_equal,
    lowered_stays, lowered_stays_within,
};
pub use portable::{
    portable_crosses, portable_is_valid_in_both, portable_names_are_these, portable_reads_alike,
    portable_reads_alike_on_unix, reserved_names_may_be_devices, unportable_tells_why,
};
use std::hash::Hash;
pub use windows::{
    kept_prefix_is_not_named_unc, normal_stays_stable, prefixed_within_leads_below,
    relative_leads_back_behind_clean, relative_leads_back_on_windows, simplified_is_alike_behind,
    simplified_stays, windows_components_compare_by_kind, windows_constants_are_these,
    windows_prefix_components_compare_by_kind, windows_prefixes_compare_by_kind,
};

/// The normal path of a Unix path is read as the components that the path resolves to.
#[tactic(auto, using(crate::proofs::lemmas::promises::UnixContained::reads_as_resolved))]
pub fn normal_reads_as_resolved(path: &[u8])
    ensures { ReadsAsResolved path.now }
{}

/// The normal path of a Unix path is its own normal path.
#[tactic(auto, using(crate::proofs::lemmas::promises::UnixContained::stays_normal))]
pub fn normal_stays_normal(path: &[u8])
    ensures { StaysNormal path.now }
{}

/// Two Unix paths have the same normal path exactly if they resolve to equal components.
#[tactic(auto, using(crate::proofs::lemmas::promises::UnixContained::is_canonical))]
pub fn normal_is_canonical(path: &[u8], other: &[u8])
    ensures { IsCanonical path.now other.now }
{}

/// Equality of paths is reflexive, symmetric and transitive.
pub fn equality_is_an_equivalence(path: &[u8], other: &[u8], third: &[u8])
    ghost d: { Dialect }
    ensures reflexive { IsSame d path.now path.now }
    ensures symmetric { IsSame d path.now other.now → IsSame d other.now path.now }
    ensures transitive { IsSame d path.now other.now → IsSame d other.now third.now
        → IsSame d path.now third.now }
{}

/// The order of the paths of each dialect is total. Paths that compare as equal, as `a//b` and
/// `a/b`, compare alike with any third.
pub fn order_is_total()
    ghost d: { Dialect }
    ensures { IsTotalOrder (path_cmp d) }
{}

/// Two paths compare as equal exactly if they are equal, and exactly then the test for equality is
/// true.
pub fn order_agrees_with_equality(path: &[u8], other: &[u8])
    ghost d: { Dialect }
    ensures test { (is_same d path.now other.now ≡ true) ↔ IsSame d path.now other.now }
    ensures order { IsSame d path.now other.now ↔ (path_cmp d path.now other.now ≡ Ordering.Equal) }
{}

/// Equal paths feed a hasher the same.
#[tactic(auto, using(crate::proofs::lemmas::order::Comparisons::hash_alike))]
pub fn equal_paths_hash_alike(path: &[u8], other: &[u8])
    ghost d: { Dialect }
    ensures { HashAlike d path.now other.now }
{}

/// Two keys have the same words, and feed a hasher alike, exactly if their paths are equal.
///
/// What a key feeds, joined, is the bytes of its words. If the bytes that two keys feed, each with
/// any bytes after them, are the same as a whole, the paths are equal, and so are the bytes after.
pub fn keys_tell_paths_apart(path: &[u8], other: &[u8])
    ghost d: { Dialect }
    ensures words { IsKeyed d path.now other.now }
    ensures fed { AreFedAlike d path.now other.now }
    ensures joined { concat (key_writes d path.now) ≡ key_bytes d path.now }
    ensures bytes { IsToldApart d path.now other.now }
{}

/// Paths are equal, compare and hash by their components.
pub fn paths_compare_by_components<'a, T: Encoding>(one: Path<'a, T>, other: Path<'a, T>)
    ensures equality { (⟦<Path<'a, T> as PartialEq>⟧.eq one.entry other.entry ≡ true)
        ↔ IsSame T.dialect (path_bytes one.entry) (path_bytes other.entry) }
    ensures order { ⟦<Path<'a, T> as Ord>⟧.cmp one.entry other.entry
        ≡ path_cmp T.dialect (path_bytes one.entry) (path_bytes other.entry) }
    ensures hash { ⟦<Path<'a, T> as Hash>⟧.hash_input one.entry
        ≡ path_words T.dialect (path_bytes one.entry) }
{}

/// The keys of paths, borrowed and owned, feed a hasher the bytes of the words of the components.
pub fn keys_hash_by_components<'a, T: Encoding>(lent: Key<Path<'a, T>>, owned: &Key<PathBuf<T>>)
    ensures lent { ⟦<Key<Path<'a, T>> as Hash>⟧.hash_input lent.entry
        ≡ key_writes T.dialect (path_bytes (keyed_path lent.entry)) }
    ensures owned { ⟦<Key<PathBuf<T>> as Hash>⟧.hash_input owned.now
        ≡ key_writes T.dialect (keyed_path owned.now).bytes }
{}

/// Iterators over texts compare as the paths of their slices left, each read anew.
pub fn iterators_compare_by_what_is_left<'a, T: Encoding>(one: Iter<'a, T>, other: Iter<'a, T>)
    ensures equality { ⟦<Iter<'a, T> as PartialEq>⟧.eq one.entry other.entry
        ≡ is_same T.dialect (components_slice one.entry) (components_slice other.entry) }
    ensures partial_order { ⟦<Iter<'a, T> as PartialOrd>⟧.partial_cmp one.entry other.entry
        ≡ Some (path_cmp T.dialect (components_slice one.entry) (components_slice other.entry)) }
    ensures order { ⟦<Iter<'a, T> as Ord>⟧.cmp one.entry other.entry
        ≡ path_cmp T.dialect (components_slice one.entry) (components_slice other.entry) }
{}

/// Iterators over components compare as the paths of their slices left, each read anew, whatever
/// they give for a component.
pub fn concrete_iterators_compare_by_what_is_left<'a, T: Encoding, I>(
    one: Reading<'a, T, I>,
    other: Reading<'a, T, I>,
)
    ensures equality { ⟦<Reading<'a, T, I> as PartialEq>⟧.eq one.entry other.entry
        ≡ is_same T.dialect (components_slice one.entry) (components_slice other.entry) }
    ensures partial_order { ⟦<Reading<'a, T, I> as PartialOrd>⟧.partial_cmp one.entry other.entry
        ≡ Some (path_cmp T.dialect (components_slice one.entry) (components_slice other.entry)) }
    ensures order { ⟦<Reading<'a, T, I> as Ord>⟧.cmp one.entry other.entry
        ≡ path_cmp T.dialect (components_slice one.entry) (components_slice other.entry) }
{}

/// Cloning an iterator never fails, and makes the same iterator.
pub fn iterators_are_cloned<'a, T: Encoding, I>(
    components: Components<'a, T>,
    texts: Iter<'a, T>,
    ancestors: Ancestors<'a, T>,
    values: Reading<'a, T, I>,
)
    ensures components { ⟦<Components<'a, T> as Clone>⟧.is_infallible components.entry }
    ensures texts { ⟦<Iter<'a, T> as Clone>⟧.is_infallible texts.entry }
    ensures ancestors { ⟦<Ancestors<'a, T> as Clone>⟧.is_infallible ancestors.entry }
    ensures values { ⟦<Reading<'a, T, I> as Clone>⟧.is_infallible values.entry }
    ensures same_components { (copy : _) → ⟦<Components<'a, T> as Clone>⟧.is_clone components.entry copy
        → copy ≡ components.entry }
    ensures same_texts { (copy : _) → ⟦<Iter<'a, T> as Clone>⟧.is_clone texts.entry copy
        → copy ≡ texts.entry }
    ensures same_ancestors { (copy : _) → ⟦<Ancestors<'a, T> as Clone>⟧.is_clone ancestors.entry copy
        → copy ≡ ancestors.entry }
    ensures same_values { (copy : _) → ⟦<Reading<'a, T, I> as Clone>⟧.is_clone values.entry copy
        → copy ≡ values.entry }
{}

/// A file name without an extension is its stem. One with an extension is its stem, a dot and the
/// extension, which has no dot. The stem of a name is not empty.
pub fn name_is_stem_and_extension(name: &[u8])
    ensures stem_alone { extension_of name.now ≡ None → stem_of name.now ≡ name.now }
    ensures stem_and_extension { (extension : List ℕ) → extension_of name.now ≡ Some extension
        → name.now ≡ stem_of name.now ++ dot ∷ extension }
    ensures without_dot { (extension : List ℕ) → extension_of name.now ≡ Some extension
        → list_any is_a_dot extension ≡ false }
    ensures stem_is_filled { 0 < length name.now → 0 < length (stem_of name.now) }
{}

/// A prefix takes at least one byte of its path, and no more than the path has.
pub fn prefix_is_within(path: &[u8])
    ghost d: { Dialect }
    ensures some_bytes { (f : Found) → prefix_of d path.now ≡ Some f → 0 < f.length }
    ensures fits { (f : Found) → prefix_of d path.now ≡ Some f → f.length ≤ length path.now }
{}

/// A path has no more components than bytes.
pub fn list_is_no_longer_than_its_text(path: &[u8])
    ghost d: { Dialect }
    ensures { length (comps d path.now) ≤ length path.now }
{}

/// The components of a path stand in order within it, and the first begins where the path does.
pub fn components_stand_in_order(path: &[u8])
    ghost d: { Dialect }
    ensures { IsLaidOut (comps d path.now) path.now }
{}

/// A reading from both ends is defined step by step, and by the numbers of steps from each end. The
/// two agree on what each step returns and on the components left, be they those of a whole path or
/// what is left of one. They agree on the slice left, also if components were taken before. Once
/// all are taken, nothing is left.
pub fn steps_agree_with_counts(path: &[u8])
    ghost d: { Dialect }
    ensures answers { (cs : List Placed) (sides : List Side) → answers_after cs sides
        ≡ reads cs sides }
    ensures items { (cs : List Placed) (sides : List Side)
        → items_after cs sides ≡ items_between cs (fronts sides) (backs sides) }
    ensures slice { (sides : List Side) → fronts sides + backs sides ≤ length (comps d path.now)
        → slice_after (comps d path.now) path.now sides
        ≡ left (comps d path.now) path.now (fronts sides) (backs sides) }
    ensures half_read { (i j : ℕ) (sides : List Side)
        → i + fronts sides + (j + backs sides) ≤ length (comps d path.now)
        → slice_after (items_between (comps d path.now) i j)
        (left (comps d path.now) path.now i j) sides
        ≡ left (comps d path.now) path.now (i + fronts sides) (j + backs sides) }
    ensures no_items { (cs : List Placed) (sides : List Side)
        → length cs ≤ fronts sides + backs sides → items_after cs sides ≡ [] }
    ensures no_slice { (sides : List Side) → 0 < length (comps d path.now)
        → length (comps d path.now) ≤ fronts sides + backs sides
        → slice_after (comps d path.now) path.now sides ≡ [] }
{}

/// What was taken from the front of a list of components, what is left, and what was taken from the
/// back are together the list, in order.
#[tactic(auto, using(crate::proofs::lemmas::scan::Readings::is_whole))]
pub fn ends_and_rest_are_the_list()
    ensures { (cs : List Placed) (i j : ℕ) → IsWhole cs i j }
{}

/// The list of a parent is the list without its last component, each component at its place.
#[tactic(auto, using(crate::proofs::lemmas::queries::Parents::parent_list))]
pub fn parent_is_the_list_without_its_last(path: &[u8])
    ghost d: { Dialect }
    ensures { (parent : List ℕ) → parent_of d path.now ≡ Some parent
        → comps d parent ≡ but_last (comps d path.now) }
{}

/// The ancestors of a path, itself among them, are at most one more than its components, and the
/// last one has no parent.
pub fn ancestors_end_at_the_top(path: &[u8])
    ghost d: { Dialect }
    ensures number { length (ancestors_of d path.now) ≤ length (comps d path.now) + 1 }
    ensures top { (above : List ℕ) → last_or None (ancestors_of d path.now) ≡ Some above
        → parent_of d above ≡ None }
{}

/// A path ends in a name, and its parent has a given list of components, exactly if the components
/// of the path are that list and one name after it.
#[tactic(auto, using(crate::proofs::lemmas::queries::Parents::child_is_one_below))]
pub fn children_are_one_name_below(path: &[u8])
    ghost d: { Dialect }
    ensures { (above : List Kind) → (is_child_of d above path.now ≡ true)
        ↔ IsOneBelow above (kinds (parts_of d path.now)) }
{}

/// A relative Unix path that is joined to a base that is not empty is read as the list of the base,
/// and then its own without a `.` at the front.
#[tactic(auto, using(crate::proofs::lemmas::promises::UnixContained::join_appends))]
pub fn join_appends(base: &[u8], path: &[u8])
    ensures { JoinAppends base.now path.now }
{}

/// A path onto which another is pushed is at most three bytes longer than the two together. A path
/// with another extension is at most one byte longer than the path and the extension together.
pub fn joined_is_short(base: &[u8], path: &[u8])
    ghost d: { Dialect }
    ensures joined { length (push d base.now path.now) ≤ length base.now + length path.now + 3 }
    ensures extended { length (with_extension d base.now path.now) ≤ length base.now + length path.now + 1 }
{}

/// A path with another file name is at most three bytes longer than the path and the name together.
#[tactic(auto, using(crate::proofs::lemmas::changes::Lengths::with_file_name_length))]
pub fn renamed_is_short(path: &[u8], name: &[u8])
    ghost d: { Dialect }
    ensures { length (with_file_name d path.now name.now) ≤ length path.now + length name.now + 3 }
{}

/// A clean path is at most one byte longer than its path.
#[tactic(auto, using(crate::proofs::lemmas::places::CleanLengths::clean_text_length))]
pub fn cleaned_is_short(path: &[u8])
    ghost d: { Dialect }
    ensures { length (clean_text d path.now) ≤ length path.now + 1 }
{}

/// The path from a base to a path is at most three bytes longer than the path and twice the base.
pub fn led_is_short(path: &[u8], base: &[u8])
    ghost d: { Dialect }
    ensures { IfSome (relative_text d path.now base.now)
        (λ text. length text ≤ length path.now + 2 * length base.now + 3) }
{}

/// A normal path is at most one byte longer than its path.
pub fn normalized_is_short(path: &[u8])
    ghost d: { Dialect }
    ensures { length (normal_text d path.now) ≤ length path.now + 1 }
{}

/// A path that was converted to a dialect, with or without checks, is at most one byte longer than
/// before.
pub fn converted_is_short(path: &[u8])
    ghost d: { Dialect }
    ensures converted { (e : Dialect) → length (converted d e path.now) ≤ length path.now + 1 }
    ensures checked { (e : Dialect)
        → IfOk (converted_checked d e path.now) (λ text. length text ≤ length path.now + 1) }
{}

/// A path made absolute is at most three bytes longer than the directory and the path together.
pub fn absolutized_is_short(directory: &[u8], path: &[u8])
    ghost d: { Dialect }
    ensures { IfSome (absolute_from d directory.now path.now)
        (λ text. length text ≤ length directory.now + length path.now + 3) }
{}

/// A path made absolute from a directory of either dialect is at most three bytes longer than the
/// directory and the path together.
pub fn absolutized_from_is_short(directory: &[u8], path: &[u8])
    ghost d: { Dialect }
    ensures { (e : Dialect) → IfSome (absolute_under d e directory.now path.now)
        (λ text. length text ≤ length directory.now + length path.now + 3) }
{}

/// If a Unix path begins with a base, what is left of it after the base, joined to the base, equals
/// the path.
#[tactic(auto, using(crate::proofs::lemmas::promises::UnixContained::strip_joins))]
pub fn strip_joins(path: &[u8], base: &[u8])
    ensures { StripJoins path.now base.now }
{}

/// A Unix path is within a base exactly if, from every absolute directory, it lies at the place of
/// the base or below it.
#[tactic(auto, using(crate::proofs::lemmas::promises::UnixWithin::is_exact))]
pub fn within_is_exact(path: &[u8], base: &[u8])
    ensures { IsWithinExactly base.now path.now }
{}

/// A path that a checked join accepts is, joined to a base, within the base exactly if the result
/// has the prefix of the base, as it always has on Unix. If the base keeps its prefix, the result
/// is within it, and keeps its prefix too.
#[tactic(auto, using(crate::proofs::lemmas::promises::JoinedWithin::joins_within, crate::proofs::lemmas::promises::JoinedWithin::stays_within, crate::proofs::lemmas::promises::JoinedWithin::keeps_again))]
pub fn joined_is_within(base: &[u8], path: &[u8])
    ghost d: { Dialect }
    ensures exactly { JoinsWithin d base.now path.now }
    ensures kept { fault d path.now ≡ None → StaysWithin d base.now (push d base.now path.now) }
    ensures again { fault d path.now ≡ None → KeepsAgain d base.now (push d base.now path.now) }
{}

/// Each path is within itself. A path that is within another is within each base that the other is
/// within.
#[tactic(auto, using(crate::proofs::lemmas::promises::JoinedWithin::within_itself, crate::proofs::lemmas::promises::JoinedWithin::within_both))]
pub fn within_is_a_preorder(path: &[u8], middle: &[u8], base: &[u8])
    ghost d: { Dialect }
    ensures reflexive { is_within d path.now path.now ≡ true }
    ensures transitive { is_within d path.now middle.now ≡ true
        → is_within d middle.now base.now ≡ true → is_within d path.now base.now ≡ true }
{}

/// If `keeps_prefix` is true of a base, what two checked joins in turn make of it is within it. The
/// second is a join to what the first made.
#[tactic(auto, using(crate::proofs::lemmas::promises::JoinedWithin::stays_within_twice))]
pub fn joined_twice_is_within(base: &[u8], first: &[u8], second: &[u8])
    ghost d: { Dialect }
    ensures { fault d first.now ≡ None → fault d second.now ≡ None
        → StaysWithin d base.now (push d (push d base.now first.now) second.now) }
{}

/// In each dialect, from every absolute directory that keeps its prefix, a path that is within a
/// base lies at the place of the base or below it.
#[tactic(auto, using(crate::proofs::lemmas::promises::VerbatimWithin::leads_below))]
pub fn within_leads_below(directory: &[u8], path: &[u8], base: &[u8])
    ghost d: { Dialect }
    ensures { LeadsBelow d directory.now base.now path.now }
{}

/// A clean path has the prefix of its path, or none if that has none, leads where the path leads,
/// and is its own clean path. The verbatim prefix that is named `UNC`, as `\\?\UNC`, is excepted.
#[tactic(auto, using(crate::proofs::lemmas::promises::WindowsClean::clean_form))]
pub fn clean_has_its_form(path: &[u8])
    ghost d: { Dialect }
    ensures { HasCleanForm d path.now (clean_text d path.now) }
{}

/// Two paths without a prefix, as all Unix paths are, have the same clean path exactly if they have
/// the same route.
#[tactic(auto, using(crate::proofs::lemmas::promises::CleanForms::clean_alike))]
pub fn clean_is_canonical(path: &[u8], other: &[u8])
    ghost d: { Dialect }
    ensures { AreCleanAlike d path.now other.now }
{}

/// In each dialect, from every absolute directory that keeps its prefix, paths with the same route
/// lie at one place.
#[tactic(auto, using(crate::proofs::lemmas::promises::RouteBehind::lead_alike))]
pub fn routes_tell_places(directory: &[u8], path: &[u8], other: &[u8])
    ghost d: { Dialect }
    ensures { LeadAlike d directory.now path.now other.now }
{}

/// In each dialect, from every absolute directory that keeps its prefix, a clean path lies where
/// its path does. The verbatim prefix that is named `UNC`, as `\\?\UNC`, is excepted.
#[tactic(auto, using(crate::proofs::lemmas::promises::RouteBehind::clean_leads_alike))]
pub fn clean_leads_where_its_path_does(directory: &[u8], path: &[u8])
    ghost d: { Dialect }
    ensures { CleanLeadsAlike d directory.now path.now }
{}

/// The clean path of a path in UTF-8 is in UTF-8.
#[tactic(auto, using(crate::proofs::lemmas::texts::TextClean::clean_laws))]
pub fn clean_stays_a_text(path: &[u8])
    ghost d: { Dialect }
    ensures { is_utf8 path.now ≡ true → is_utf8 (clean_text d path.now) ≡ true }
{}

/// The path from a base to another has neither a prefix nor a root.
#[tactic(auto, using(crate::proofs::lemmas::promises::StepsBack::stays_relative))]
pub fn relative_stays_relative(path: &[u8], base: &[u8])
    ghost d: { Dialect }
    ensures { StaysRelative d path.now base.now }
{}

/// On Unix, the path from a base to a path leads there if it is joined to the base.
#[tactic(auto, using(crate::proofs::lemmas::promises::UnixRelative::leads_unix))]
pub fn relative_leads_back(path: &[u8], base: &[u8])
    ensures { LeadsBack unix path.now base.now }
{}

/// `relative_to` finds no path exactly if the prefixes differ, or only one of the two is anchored;
/// if the base leads higher; or if the names that are left are the kept names of no path without a
/// prefix.
pub fn relative_has_none(path: &[u8], base: &[u8])
    ghost d: { Dialect }
    ensures { HasNone d path.now base.now }
{}

/// On Unix, `relative_to` finds no path exactly if only one of the two has a root, or more `..` of
/// the base lead above where it begins.
pub fn relative_has_none_on_unix(path: &[u8], base: &[u8])
    ensures { HasNoneOnUnix path.now base.now }
{}

/// On Unix, `relative_to` finds no path exactly if no relative path leads from the base to the
/// path.
#[tactic(auto, using(crate::proofs::lemmas::promises::UnixRelative::has_none_at_all))]
pub fn relative_has_none_at_all(path: &[u8], base: &[u8])
    ensures { HasNoneAtAll path.now base.now }
{}

/// On Unix, `.` leads from a base to a path exactly if both have the same route.
pub fn dot_leads_to_the_same(path: &[u8], base: &[u8])
    ensures { IsDotAlike path.now base.now }
{}

/// Single components of Unix are equal, compare and hash as their kinds say.
pub fn unix_components_compare_by_kind<'a>(one: UnixComponent<'a>, other: UnixComponent<'a>)
    ensures equality { (⟦<UnixComponent<'a> as PartialEq>⟧.eq one.entry other.entry ≡ true)
        ↔ ((unix_part one.entry).kind ≡ (unix_part other.entry).kind) }
    ensures order { ⟦<UnixComponent<'a> as Ord>⟧.cmp one.entry other.entry
        ≡ kind_cmp (unix_part one.entry).kind (unix_part other.entry).kind }
    ensures hash { ⟦<UnixComponent<'a> as Hash>⟧.hash_input one.entry
        ≡ unix_words (unix_part one.entry).kind }
{}

/// Values of [`PieceKind`] are equal, compare and hash as the kind of a component whose text is
/// empty.
pub fn piece_kinds_compare_by_kind<'a>(one: PieceKind<'a>, other: PieceKind<'a>)
    ensures equality { (⟦<PieceKind<'a> as PartialEq>⟧.eq one.entry other.entry ≡ true)
        ↔ (kind_view one.entry [] ≡ kind_view other.entry []) }
    ensures order { ⟦<PieceKind<'a> as Ord>⟧.cmp one.entry other.entry
        ≡ kind_cmp (kind_view one.entry []) (kind_view other.entry []) }
    ensures hash { ⟦<PieceKind<'a> as Hash>⟧.hash_input one.entry
        ≡ kind_words (kind_view one.entry []) }
{}

/// Pieces, which the readings of both dialects give, are equal, compare and hash by their kinds,
/// and then by their texts.
pub fn pieces_compare_by_kind_and_text<'a>(one: Piece<'a>, other: Piece<'a>)
    ensures equality { (⟦<Piece<'a> as PartialEq>⟧.eq one.entry other.entry ≡ true)
        ↔ (part_of one.entry ≡ part_of other.entry) }
    ensures order { ⟦<Piece<'a> as Ord>⟧.cmp one.entry other.entry
        ≡ ordering_then (kind_cmp (part_of one.entry).kind (part_of other.entry).kind)
        (bytes_cmp (part_of one.entry).text (part_of other.entry).text) }
    ensures hash { ⟦<Piece<'a> as Hash>⟧.hash_input one.entry ≡ piece_words (part_of one.entry) }
{}

/// The constants of Unix have these values.
pub fn unix_constants_are_these()
    ensures separator { SEPARATOR ≡ slash }
    ensures separator_text { SEPARATOR_STR.now ≡ slash ∷ [] }
    ensures parent { PARENT_DIR.now ≡ dot ∷ dot ∷ [] }
    ensures parent_text { PARENT_DIR_STR.now ≡ dot ∷ dot ∷ [] }
    ensures current { CURRENT_DIR.now ≡ dot ∷ [] }
    ensures current_text { CURRENT_DIR_STR.now ≡ dot ∷ [] }
    ensures disallowed_bytes { DISALLOWED_FILENAME_BYTES ≡ slash ∷ 0 ∷ [] }
    ensures disallowed_characters { DISALLOWED_FILENAME_CHARS ≡ slash ∷ 0 ∷ [] }
{}

/// The platform encoding reads and writes as that of Unix does. It is the only encoding of bytes
/// that counts as the machine's, and its twin the only one of text.
pub fn platform_is_unix()
    ensures dialect { ⟦<PlatformEncoding as Encoding>⟧.dialect
        ≡ ⟦<UnixEncoding as Encoding>⟧.dialect }
    ensures platform { ⟦<PlatformEncoding as Encoding>⟧.IS_PLATFORM ≡ true }
    ensures unix { ⟦<UnixEncoding as Encoding>⟧.IS_PLATFORM ≡ false }
    ensures windows { ⟦<WindowsEncoding as Encoding>⟧.IS_PLATFORM ≡ false }
    ensures text { ⟦<Utf8PlatformEncoding as Utf8Encoding>⟧.IS_PLATFORM ≡ true }
    ensures text_of_unix { ⟦<Utf8UnixEncoding as Utf8Encoding>⟧.IS_PLATFORM ≡ false }
    ensures text_of_windows { ⟦<Utf8WindowsEncoding as Utf8Encoding>⟧.IS_PLATFORM ≡ false }
{}

/// If no name of a Unix path has a `\`, the checked conversion to Windows accepts the path exactly
/// if Windows allows each name: none has a byte that Windows forbids in names, and none stands for
/// a device. Then the result is read as the same components, and converted to Unix it equals the
/// path.
#[tactic(auto, using(crate::proofs::lemmas::conversions::Crossings::crosses_where_allowed, crate::proofs::lemmas::conversions::CrossedPaths::crosses_as_it_is, crate::proofs::lemmas::conversions::CrossedPaths::crosses_back))]
pub fn unix_paths_cross_to_windows(path: &[u8])
    ensures accepted { CrossesWhereAllowed path.now }
    ensures kept { CrossesAsItIs path.now }
    ensures back { CrossesBack path.now }
{}

/// A Windows path becomes these components on Unix, if no name has a byte that Windows forbids.
///
/// First a root, if it has one or a prefix other than a drive `C:`; else its drive as a name, or a
/// `.` that is its first component, or nothing. Then its `..` and names, in order.
#[tactic(auto, using(crate::proofs::lemmas::conversions::CrossedPaths::crosses_to_unix))]
pub fn windows_paths_cross_to_unix(path: &[u8])
    ensures { CrossesToUnix path.now }
{}

/// Paths of text are equal, compare and hash by their components, as the paths of their bytes do.
pub fn text_paths_compare_by_components<'a, T: Utf8Encoding>(
    one: Utf8Path<'a, T>,
    other: Utf8Path<'a, T>,
)
    ensures equality { (⟦<Utf8Path<'a, T> as PartialEq>⟧.eq one.entry other.entry ≡ true)
        ↔ IsSame T.Bytes.dialect (utf8_bytes one.entry) (utf8_bytes other.entry) }
    ensures order { ⟦<Utf8Path<'a, T> as Ord>⟧.cmp one.entry other.entry
        ≡ path_cmp T.Bytes.dialect (utf8_bytes one.entry) (utf8_bytes other.entry) }
    ensures hash { ⟦<Utf8Path<'a, T> as Hash>⟧.hash_input one.entry
        ≡ path_words T.Bytes.dialect (utf8_bytes one.entry) }
{}

/// Iterators over a path of text compare as the paths of their slices left, each read anew.
pub fn text_readings_compare_by_what_is_left<'a, T: Utf8Encoding, I>(
    one: Utf8Reading<'a, T, I>,
    other: Utf8Reading<'a, T, I>,
)
    ensures equality { ⟦<Utf8Reading<'a, T, I> as PartialEq>⟧.eq one.entry other.entry
        ≡ is_same T.Bytes.dialect (reading_slice one.entry) (reading_slice other.entry) }
    ensures partial_order { ⟦<Utf8Reading<'a, T, I> as PartialOrd>⟧.partial_cmp one.entry
        other.entry
        ≡ Some (path_cmp T.Bytes.dialect (reading_slice one.entry) (reading_slice other.entry)) }
    ensures order { ⟦<Utf8Reading<'a, T, I> as Ord>⟧.cmp one.entry other.entry
        ≡ path_cmp T.Bytes.dialect (reading_slice one.entry) (reading_slice other.entry) }
{}

/// Cloning an iterator over a path of text never fails, and makes the same iterator.
pub fn text_iterators_are_cloned<'a, T: Utf8Encoding, I>(
    reading: Utf8Reading<'a, T, I>,
    ancestors: Utf8Ancestors<'a, T>,
)
    ensures reading { ⟦<Utf8Reading<'a, T, I> as Clone>⟧.is_infallible reading.entry }
    ensures ancestors { ⟦<Utf8Ancestors<'a, T> as Clone>⟧.is_infallible ancestors.entry }
    ensures same_reading { (copy : _) → ⟦<Utf8Reading<'a, T, I> as Clone>⟧.is_clone reading.entry
        copy → copy ≡ reading.entry }
    ensures same_ancestors { (copy : _) → ⟦<Utf8Ancestors<'a, T> as Clone>⟧.is_clone ancestors.entry
        copy → copy ≡ ancestors.entry }
{}

/// Single components of Unix texts are equal, compare and hash as their kinds say.
pub fn text_unix_components_compare_by_kind<'a>(
    one: Utf8UnixComponent<'a>,
    other: Utf8UnixComponent<'a>,
)
    ensures equality { (⟦<Utf8UnixComponent<'a> as PartialEq>⟧.eq one.entry other.entry ≡ true)
        ↔ ((text_unix_part one.entry).kind ≡ (text_unix_part other.entry).kind) }
    ensures order { ⟦<Utf8UnixComponent<'a> as Ord>⟧.cmp one.entry other.entry
        ≡ kind_cmp (text_unix_part one.entry).kind (text_unix_part other.entry).kind }
    ensures hash { ⟦<Utf8UnixComponent<'a> as Hash>⟧.hash_input one.entry
        ≡ text_unix_words (text_unix_part one.entry).kind }
{}

/// Prefixes of Windows texts are equal, compare and hash as their kinds and names say.
pub fn text_prefixes_compare_by_kind<'a>(one: Utf8WindowsPrefix<'a>, other: Utf8WindowsPrefix<'a>)
    ensures equality { (⟦<Utf8WindowsPrefix<'a> as PartialEq>⟧.eq one.entry other.entry ≡ true)
        ↔ (text_prefix one.entry ≡ text_prefix other.entry) }
    ensures order { ⟦<Utf8WindowsPrefix<'a> as Ord>⟧.cmp one.entry other.entry
        ≡ kind_cmp (prefix (text_prefix one.entry)) (prefix (text_prefix other.entry)) }
    ensures hash { ⟦<Utf8WindowsPrefix<'a> as Hash>⟧.hash_input one.entry
        ≡ text_prefix_words (text_prefix one.entry) }
{}

/// Prefix components of text are equal, compare and hash only by their kinds, however they are
/// written.
pub fn text_prefix_components_compare_by_kind<'a>(
    one: Utf8WindowsPrefixComponent<'a>,
    other: Utf8WindowsPrefixComponent<'a>,
)
    ensures equality { (⟦<Utf8WindowsPrefixComponent<'a> as PartialEq>⟧.eq one.entry other.entry
        ≡ true) ↔ ((text_prefix_part one.entry).kind ≡ (text_prefix_part other.entry).kind) }
    ensures order { ⟦<Utf8WindowsPrefixComponent<'a> as Ord>⟧.cmp one.entry other.entry
        ≡ kind_cmp (text_prefix_part one.entry).kind (text_prefix_part other.entry).kind }
    ensures hash { IfSome (prefix_in (text_prefix_part one.entry).kind) (λ p.
        ⟦<Utf8WindowsPrefixComponent<'a> as Hash>⟧.hash_input one.entry ≡ text_prefix_words p) }
{}

/// Single components of Windows texts are equal, compare and hash as their kinds say.
pub fn text_windows_components_compare_by_kind<'a>(
    one: Utf8WindowsComponent<'a>,
    other: Utf8WindowsComponent<'a>,
)
    ensures equality { (⟦<Utf8WindowsComponent<'a> as PartialEq>⟧.eq one.entry other.entry ≡ true)
        ↔ ((text_windows_part one.entry).kind ≡ (text_windows_part other.entry).kind) }
    ensures order { ⟦<Utf8WindowsComponent<'a> as Ord>⟧.cmp one.entry other.entry
        ≡ kind_cmp (text_windows_part one.entry).kind (text_windows_part other.entry).kind }
    ensures hash { ⟦<Utf8WindowsComponent<'a> as Hash>⟧.hash_input one.entry
        ≡ text_windows_words (text_windows_part one.entry).kind }
{}

/// Values of [`Utf8PieceKind`] are equal, compare and hash as the kind of a component whose text is
/// empty.
pub fn text_piece_kinds_compare_by_kind<'a>(one: Utf8PieceKind<'a>, other: Utf8PieceKind<'a>)
    ensures equality { (⟦<Utf8PieceKind<'a> as PartialEq>⟧.eq one.entry other.entry ≡ true)
        ↔ (text_kind one.entry [] ≡ text_kind other.entry []) }
    ensures order { ⟦<Utf8PieceKind<'a> as Ord>⟧.cmp one.entry other.entry
        ≡ kind_cmp (text_kind one.entry []) (text_kind other.entry []) }
    ensures hash { ⟦<Utf8PieceKind<'a> as Hash>⟧.hash_input one.entry
        ≡ text_kind_words (text_kind one.entry []) }
{}

/// Pieces of text, which the readings of both dialects give, are equal, compare and hash by their
/// kinds, and then by their texts.
pub fn text_pieces_compare_by_kind_and_text<'a>(one: Utf8Piece<'a>, other: Utf8Piece<'a>)
    ensures equality { (⟦<Utf8Piece<'a> as PartialEq>⟧.eq one.entry other.entry ≡ true)
        ↔ (text_part one.entry ≡ text_part other.entry) }
    ensures order { ⟦<Utf8Piece<'a> as Ord>⟧.cmp one.entry other.entry
        ≡ ordering_then (kind_cmp (text_part one.entry).kind (text_part other.entry).kind)
        (bytes_cmp (text_part one.entry).text (text_part other.entry).text) }
    ensures hash { ⟦<Utf8Piece<'a> as Hash>⟧.hash_input one.entry
        ≡ text_piece_words (text_part one.entry) }
{}

/// Typed values of two dialects are never equal, and one of Unix is less. Those of one dialect
/// compare as what they hold. A typed value feeds a hasher its dialect, and then what the value
/// that it holds feeds.
pub fn typed_values_compare_by_kind<U: Ord + Hash, W: Ord + Hash>(
    one: &Typed<U, W>,
    other: &Typed<U, W>,
)
    ensures equality { ⟦<Typed<U, W> as PartialEq>⟧.eq one.now other.now
        ≡ typed_eq U.eq W.eq one.now other.now }
    ensures order { ⟦<Typed<U, W> as Ord>⟧.cmp one.now other.now
        ≡ typed_cmp U.cmp W.cmp one.now other.now }
    ensures hash { ⟦<Typed<U, W> as Hash>⟧.hash_input one.now
        ≡ typed_words U.hash_input W.hash_input one.now }
{}

/// The key of a typed path feeds a hasher what the key of the path that it holds feeds, and then
/// the number of its dialect.
pub fn typed_keys_hash_by_kind<U: KeyPath, W: KeyPath>(key: &Key<Typed<U, W>>)
    ensures { ⟦<Key<Typed<U, W>> as Hash>⟧.hash_input key.now
        ≡ typed_key_words U.key_input W.key_input (keyed_path key.now) }
{}

/// Iterators of two dialects are never equal, and are in no order. Those of one dialect compare as
/// what they hold.
pub fn typed_readings_compare_by_kind<U: PartialOrd, W: PartialOrd>(
    one: &TypedReading<U, W>,
    other: &TypedReading<U, W>,
)
    ensures equality { ⟦<TypedReading<U, W> as PartialEq>⟧.eq one.now other.now
        ≡ reading_eq U.eq W.eq one.now other.now }
    ensures partial_order { ⟦<TypedReading<U, W> as PartialOrd>⟧.partial_cmp one.now other.now
        ≡ reading_partial_cmp U.partial_cmp W.partial_cmp one.now other.now }
{}

/// Dialects compare by their place, Unix first, and feed a hasher that place.
pub fn path_types_compare_by_place(one: PathType, other: PathType)
    ensures order { ⟦<PathType as Ord>⟧.cmp one other
        ≡ nat_cmp (kind_place one) (kind_place other) }
    ensures hash { ⟦<PathType as Hash>⟧.hash_input one ≡ isize (pos (kind_place one)) }
{}

/// Cloning an iterator whose dialect is chosen at run time never fails, and makes the same
/// iterator.
pub fn typed_iterators_are_cloned<'a>(
    components: TypedComponents<'a>,
    texts: TypedIter<'a>,
    ancestors: TypedAncestors<'a>,
    text_components: Utf8TypedComponents<'a>,
    text_texts: Utf8TypedIter<'a>,
    text_ancestors: Utf8TypedAncestors<'a>,
)
    ensures components { ⟦<TypedComponents<'a> as Clone>⟧.is_infallible components.entry }
    ensures texts { ⟦<TypedIter<'a> as Clone>⟧.is_infallible texts.entry }
    ensures ancestors { ⟦<TypedAncestors<'a> as Clone>⟧.is_infallible ancestors.entry }
    ensures text_components { ⟦<Utf8TypedComponents<'a> as Clone>⟧.is_infallible
        text_components.entry }
    ensures text_texts { ⟦<Utf8TypedIter<'a> as Clone>⟧.is_infallible text_texts.entry }
    ensures text_ancestors { ⟦<Utf8TypedAncestors<'a> as Clone>⟧.is_infallible
        text_ancestors.entry }
    ensures same_components { (copy : _) → ⟦<TypedComponents<'a> as Clone>⟧.is_clone components.entry
        copy → copy ≡ components.entry }
    ensures same_texts { (copy : _) → ⟦<TypedIter<'a> as Clone>⟧.is_clone texts.entry copy
        → copy ≡ texts.entry }
    ensures same_ancestors { (copy : _) → ⟦<TypedAncestors<'a> as Clone>⟧.is_clone ancestors.entry copy
        → copy ≡ ancestors.entry }
    ensures same_text_components { (copy : _)
        → ⟦<Utf8TypedComponents<'a> as Clone>⟧.is_clone text_components.entry copy
        → copy ≡ text_components.entry }
    ensures same_text_texts { (copy : _) → ⟦<Utf8TypedIter<'a> as Clone>⟧.is_clone text_texts.entry copy
        → copy ≡ text_texts.entry }
    ensures same_text_ancestors { (copy : _)
        → ⟦<Utf8TypedAncestors<'a> as Clone>⟧.is_clone text_ancestors.entry copy
        → copy ≡ text_ancestors.entry }
{}

/// Two paths begin with their common ancestor, and it begins with each path that both begin with.
/// If they have none, both begin with no path that has a component.
#[tactic(auto, using(crate::proofs::lemmas::promises::Shared::longest, crate::proofs::lemmas::promises::Shared::share_nothing))]
pub fn common_ancestor_is_longest(path: &[u8], other: &[u8])
    ghost d: { Dialect }
    ensures some { (common : List ℕ)
        → common_ancestor_of d path.now other.now ≡ Some common
        → IsLongest d path.now other.now common }
    ensures none { common_ancestor_of d path.now other.now ≡ None
        → ShareNothing d path.now other.now }
{}

/// If a path with a file name gets one more extension, in which no byte separates its components,
/// its parent stays, and its file name becomes the old one, a dot and the extension, or stays if
/// that is empty. Paths are excepted whose prefix is the verbatim one named `UNC`: `\\?\UNC`, as in
/// `\\?\UNC\\a`.
pub fn added_extension_keeps_the_parent(path: &[u8], extension: &[u8])
    ghost d: { Dialect }
    ensures { ExtendsName d path.now extension.now }
{}
