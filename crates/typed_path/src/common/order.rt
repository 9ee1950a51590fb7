//! Equality, order and hashing of paths by their components, and the traits of std for paths and
//! for iterators that rest on these.

ghost use Rattle.std.specs.Prelude.{◌≡◌, ◌&&◌, List, ◌∷◌, None, option_map, fold, refl};
ghost use Rattle.typed_path.specs.scan.{PartAt};
ghost use Rattle.std.specs.List.{flat_map};
ghost use Rattle.std.specs.Ordering.{is_eq, on, as_partial_cmp};
ghost use Rattle.std.specs.Cmp.{eq_by_cmp_equiv, on_total, partial_equiv_from_equiv, partial_order_from_total};
ghost use Rattle.std.proofs.Common.{ap};
ghost use Rattle.typed_path.specs.components.{Prefix, Kind, prefix, kinds, parts, parts_of, body};
ghost use Rattle.typed_path.specs.queries.{first_prefix};
ghost use Rattle.typed_path.specs.order.{kind_cmp, are_same_prefixes, kinds_cmp, is_same, left_cmp, left_same, path_cmp, path_cmp_total, same-kinds};
ghost use Rattle.typed_path.specs.order.Words.{writes_of, words_before, kinds_words};
ghost use Rattle.typed_path.specs.promises.{words_by_kind, fed_length};
ghost use Rattle.typed_path.specs.views.BodyViews.{body_items};
ghost use Rattle.typed_path.specs.views.PieceViews.{prefix_view, step_part, step_rank};
ghost use Rattle.typed_path.specs.views.PathViews.{path_bytes, components_slice};

use crate::common::components::Reading;
use crate::common::encoding::Encoding;
use crate::common::path::Path;
use crate::common::path_buf::PathBuf;
use crate::scan::{
    Body, Separators, Step, StepKind, WindowsPrefix, bodies_behind_shared, first_difference,
    order_behind, order_of_beginning, order_of_fronts, texts_behind,
};
use std::cmp::Ordering;
use std::hash::{Hash, Hasher};

/// Makes the function around it return the order of two paths, if their prefixes differ or only one
/// has a prefix.
macro_rules! return_order_of_prefixes {
    ($own:expr, $others:expr, $compare:path) => {
        match ($own.prefix(), $others.prefix()) {
            (Some(prefix), Some(other)) => {
                let order = $compare(prefix, other);
                if order.is_ne() {
                    return order;
                }
            }
            (Some(_), None) => return order_of_prefixed($others.body()),
            (None, Some(_)) => return order_of_prefixed($own.body()).reverse(),
            (None, None) => {}
        }
    };
}

/// The order of what two bodies have left, component by component from the front.
macro_rules! order_step_by_step {
    ($rest:ident, $wanted:ident, $compare:path) => {{
        'steps: while let Some(step) = $wanted.front() {
            let Some(own) = $rest.front() else {
                return Ordering::Less;
            };
            let order = $compare(own, step);
            if order.is_ne() {
                return order;
            }
        }
        match $rest.front() {
            Some(_) => Ordering::Greater,
            None => Ordering::Equal,
        }
    }};
}

pub(super) use order_step_by_step;
pub(super) use return_order_of_prefixes;

impl<'a, T: Encoding> Path<'a, T> {
    /// Whether the path has the same components as the path of these bytes.
    ///
    /// The Unix path `/a/./b//` has those of `/a/b`.
    #[inline]
    pub fn eq_bytes(self, other: &[u8]) -> bool
        ensures { result ≡ is_same T.dialect (path_bytes self.entry) other.now }
    {
        is_same::<T>(self.as_bytes(), other)
    }

    /// The order of the path and the path of these bytes, by their components.
    ///
    /// On Unix `a/b` is less than `ab`, since `a` is less than `ab`.
    #[inline]
    pub fn cmp_bytes(self, other: &[u8]) -> Ordering
        ensures { result ≡ path_cmp T.dialect (path_bytes self.entry) other.now }
    {
        compare::<T>(self.as_bytes(), other)
    }
}

/// Paths are equal if they have the same components, however these are written.
impl<'a, T: Encoding> PartialEq for Path<'a, T> {
    ghost eq = { on path_bytes (is_same T.dialect) };

    ghost laws = { partial_equiv_from_equiv
        (eq_by_cmp_equiv (on_total path_bytes (path_cmp_total T.dialect))) };

    #[inline]
    fn eq(&self, other: &Path<'a, T>) -> bool {
        is_same::<T>(self.as_bytes(), other.as_bytes())
    }
}

impl<'a, T: Encoding> Eq for Path<'a, T> {
    ghost laws = { eq_by_cmp_equiv (on_total path_bytes (path_cmp_total T.dialect)) };
}

impl<'a, T: Encoding> PartialOrd for Path<'a, T> {
    ghost partial_cmp = { as_partial_cmp (on path_bytes (path_cmp T.dialect)) };

    ghost laws = { partial_order_from_total (on_total path_bytes (path_cmp_total T.dialect)) };

    #[inline]
    fn partial_cmp(&self, other: &Path<'a, T>) -> Option<Ordering> {
        Some(self.cmp(other))
    }
}

impl<'a, T: Encoding> Ord for Path<'a, T> {
    ghost cmp = { on path_bytes (path_cmp T.dialect) };

    ghost total = { on_total path_bytes (path_cmp_total T.dialect) };

    ghost matches_partial_cmp = { λ p q. refl };

    ghost matches_eq = { λ p q. refl };

    #[inline]
    fn cmp(&self, other: &Path<'a, T>) -> Ordering {
        compare::<T>(self.as_bytes(), other.as_bytes())
    }
}

/// Equal paths feed a hasher alike: what is fed is made of the components.
impl<'a, T: Encoding> Hash for Path<'a, T> {
    ghost hash_input = { λ p. kinds_words (kinds (parts_of T.dialect (path_bytes p))) };

    ghost respects_eq = { λ p q same. ap kinds_words
        (same-kinds T.dialect (path_bytes p) (path_bytes q) same) };

    fn hash<H: Hasher>(&self, state: &mut H) {
        T::hash(self.as_bytes(), state);
    }
}

/// Compares as the borrowed paths do.
impl<T: Encoding> PartialEq for PathBuf<T> {
    ghost eq = { on (λ p. p.bytes) (is_same T.dialect) };

    ghost laws = { partial_equiv_from_equiv
        (eq_by_cmp_equiv (on_total (λ p. p.bytes) (path_cmp_total T.dialect))) };

    #[inline]
    fn eq(&self, other: &PathBuf<T>) -> bool {
        is_same::<T>(self.as_path().as_bytes(), other.as_path().as_bytes())
    }
}

impl<T: Encoding> Eq for PathBuf<T> {
    ghost laws = { eq_by_cmp_equiv (on_total (λ p. p.bytes) (path_cmp_total T.dialect)) };
}

impl<T: Encoding> PartialOrd for PathBuf<T> {
    ghost partial_cmp = { as_partial_cmp (on (λ p. p.bytes) (path_cmp T.dialect)) };

    ghost laws = { partial_order_from_total (on_total (λ p. p.bytes) (path_cmp_total T.dialect)) };

    #[inline]
    fn partial_cmp(&self, other: &PathBuf<T>) -> Option<Ordering> {
        Some(self.cmp(other))
    }
}

impl<T: Encoding> Ord for PathBuf<T> {
    ghost cmp = { on (λ p. p.bytes) (path_cmp T.dialect) };

    ghost total = { on_total (λ p. p.bytes) (path_cmp_total T.dialect) };

    ghost matches_partial_cmp = { λ p q. refl };

    ghost matches_eq = { λ p q. refl };

    #[inline]
    fn cmp(&self, other: &PathBuf<T>) -> Ordering {
        compare::<T>(self.as_path().as_bytes(), other.as_path().as_bytes())
    }
}

/// Equal paths feed a hasher alike: what is fed is made of the components.
impl<T: Encoding> Hash for PathBuf<T> {
    ghost hash_input = { λ p. kinds_words (kinds (parts_of T.dialect p.bytes)) };

    ghost respects_eq = { λ p q same. ap kinds_words (same-kinds T.dialect p.bytes q.bytes same) };

    fn hash<H: Hasher>(&self, state: &mut H) {
        T::hash(self.as_path().as_bytes(), state);
    }
}

/// Compares as the paths of the slices left, each read anew, whatever was taken before.
impl<'a, T: Encoding, I> PartialEq for Reading<'a, T, I> {
    ghost eq = { on components_slice (is_same T.dialect) };

    ghost laws = { partial_equiv_from_equiv
        (eq_by_cmp_equiv (on_total components_slice (path_cmp_total T.dialect))) };

    #[inline]
    fn eq(&self, other: &Reading<'a, T, I>) -> bool {
        is_same::<T>(self.as_bytes(), other.as_bytes())
    }
}

impl<'a, T: Encoding, I> Eq for Reading<'a, T, I> {
    ghost laws = { eq_by_cmp_equiv (on_total components_slice (path_cmp_total T.dialect)) };
}

impl<'a, T: Encoding, I> PartialOrd for Reading<'a, T, I> {
    ghost partial_cmp = { as_partial_cmp (on components_slice (path_cmp T.dialect)) };

    ghost laws = { partial_order_from_total
        (on_total components_slice (path_cmp_total T.dialect)) };

    #[inline]
    fn partial_cmp(&self, other: &Reading<'a, T, I>) -> Option<Ordering> {
        Some(self.cmp(other))
    }
}

impl<'a, T: Encoding, I> Ord for Reading<'a, T, I> {
    ghost cmp = { on components_slice (path_cmp T.dialect) };

    ghost total = { on_total components_slice (path_cmp_total T.dialect) };

    ghost matches_partial_cmp = { λ p q. refl };

    ghost matches_eq = { λ p q. refl };

    #[inline]
    fn cmp(&self, other: &Reading<'a, T, I>) -> Ordering {
        compare::<T>(self.as_bytes(), other.as_bytes())
    }
}

/// Whether two paths have the same components.
#[inline]
pub(crate) fn is_same<T: Encoding>(path: &[u8], other: &[u8]) -> bool
    ensures { result ≡ is_same T.dialect path.now other.now }
{
    // Equal bytes need no reading.
    if path == other {
        return true;
    }
    if seem_alike::<T>(path, other) {
        return order_of_unequal::<T>(path, other).is_eq();
    }
    have_same_components::<T>(path, other)
}

/// Whether [`is_same`] is likely to tell sooner by the order of two paths than by their last
/// components: both are short and about as long, end with bytes of names, and have prefixes of one
/// sort, as their second bytes and `\\?\` tell. A wrong guess costs nothing but time.
#[inline(always)]
fn seem_alike<T: Encoding>(path: &[u8], other: &[u8]) -> bool {
    let ([.., last], [.., others]) = (path, other) else {
        return false;
    };
    // Where only `/` separates, the last components tell as soon, unless the paths end alike.
    (last == others || T::root_text() != b"/".as_slice())
        && !matches!(*last, b'/' | b'\\' | b'.')
        && !matches!(*others, b'/' | b'\\' | b'.')
        && path.len() <= MOST_ORDERED
        && other.len() <= MOST_ORDERED
        && path.len() * 3 <= other.len() * 4
        && other.len() * 3 <= path.len() * 4
        && matches!(path, [_, b':', ..]) == matches!(other, [_, b':', ..])
        && path.starts_with(br"\\?\") == other.starts_with(br"\\?\")
}

/// The greatest length of paths of which [`is_same`] asks the order first. What longer ones share
/// may be long, so their last components are compared first.
const MOST_ORDERED: usize = 128;

/// Returns the order of two paths by their components.
#[inline]
fn compare<T: Encoding>(path: &[u8], other: &[u8]) -> Ordering
    ensures { result ≡ path_cmp T.dialect path.now other.now }
{
    // Equal bytes need no reading.
    if path == other {
        return Ordering::Equal;
    }
    order_of_unequal::<T>(path, other)
}

/// Returns the order of two paths by their components, as [`compare`] does, without comparing all
/// their bytes first.
#[inline(always)]
fn order_of_unequal<T: Encoding>(path: &[u8], other: &[u8]) -> Ordering
    ensures { result ≡ path_cmp T.dialect path.now other.now }
{
    match T::order_behind_prefix(path, other) {
        Some(order) => order,
        None => compare_components::<T>(path, other),
    }
}

/// Returns the order of two bodies, which is what paths have after their prefixes, by their
/// components.
#[inline(always)]
pub(crate) fn compare_texts(text: &[u8], other: &[u8], separators: Separators) -> Ordering
    ensures { result ≡ left_cmp (body separators 0 text.now) (body separators 0 other.now) }
{
    // If the bytes decide, neither is read; else only what follows what both begin with.
    compare_parted(text, other, first_difference(text, other), separators)
}

/// Returns the order that [`compare_texts`] does. `shared` is the index of the first difference, or
/// the length of the shorter body if there is none.
#[inline(always)]
pub(crate) fn compare_parted(
    text: &[u8],
    other: &[u8],
    shared: usize,
    separators: Separators,
) -> Ordering
    requires { PartAt text.now other.now shared }
    ensures { result ≡ left_cmp (body separators 0 text.now) (body separators 0 other.now) }
{
    // Most texts differ within names, which is decided here; the others are a call.
    match order_behind(text, other, shared, separators) {
        Some(order) => order,
        None => compare_from(text, other, shared, separators),
    }
}

/// The slow path of [`compare_parted`]: tries the first bytes, then whether one body begins with
/// the other, then all anew after the last separator that both share. If they share no separator
/// any more, it compares component by component.
fn compare_from(text: &[u8], other: &[u8], shared: usize, separators: Separators) -> Ordering
    requires { PartAt text.now other.now shared }
    ensures { result ≡ left_cmp (body separators 0 text.now) (body separators 0 other.now) }
{
    let mut rest = text;
    let mut wanted = other;
    let mut shared = shared;
    'detours: loop {
        if shared <= 2 {
            if let Some(order) = order_of_fronts(rest, wanted, separators) {
                return order;
            }
        }
        if let Some(order) = order_of_beginning(rest, wanted, shared, separators) {
            return order;
        }
        let Some((own, others)) = texts_behind(rest, wanted, shared, separators) else {
            return compare_each(
                Body::new(rest, 0, separators),
                Body::new(wanted, 0, separators),
            );
        };
        rest = own;
        wanted = others;
        shared = first_difference(rest, wanted);
        if let Some(order) = order_behind(rest, wanted, shared, separators) {
            return order;
        }
    }
}

/// Whether two paths have the same components.
fn have_same_components<T: Encoding>(path: &[u8], other: &[u8]) -> bool
    ensures { result ≡ is_same T.dialect path.now other.now }
{
    let own = T::cursor(path);
    let others = T::cursor(other);
    if !have_same_prefixes(own.prefix(), others.prefix()) {
        return false;
    }
    let mut rest = own.body();
    let mut wanted = others.body();
    // Most paths that are not the same differ in the last component.
    if !take_same_last(&mut rest, &mut wanted) {
        return false;
    }
    // Components that both begin with, by their bytes, are not read.
    let (mut rest, mut wanted) = bodies_behind_shared(rest, wanted);
    'steps: while let Some(step) = wanted.front() {
        let Some(own) = rest.front() else {
            return false;
        };
        if !is_same_step(own, step) {
            return false;
        }
    }
    rest.front().is_none()
}

/// Returns the order of two paths by their components.
fn compare_components<T: Encoding>(path: &[u8], other: &[u8]) -> Ordering
    ensures { result ≡ path_cmp T.dialect path.now other.now }
{
    let own = T::cursor(path);
    let others = T::cursor(other);
    return_order_of_prefixes!(own, others, compare_prefixes);
    // Components that both begin with, by their bytes, are not read.
    let (rest, wanted) = bodies_behind_shared(own.body(), others.body());
    compare_each(rest, wanted)
}

/// Returns the order of what two bodies have left, component by component.
#[inline(always)]
pub(crate) fn compare_each(mut rest: Body<'_>, mut wanted: Body<'_>) -> Ordering
    ensures { result ≡ left_cmp (body_items rest.entry) (body_items wanted.entry) }
{
    order_step_by_step!(rest, wanted, compare_steps)
}

/// Takes the last component of both, and returns whether the two are the same, or neither body had
/// one.
#[inline(always)]
fn take_same_last(rest: &mut Body<'_>, wanted: &mut Body<'_>) -> bool
    ensures { left_same (body_items rest.old) (body_items wanted.old)
        ≡ (result && left_same (body_items rest.new) (body_items wanted.new)) }
{
    match (rest.back(), wanted.back()) {
        (Some(own), Some(step)) => is_same_step(own, step),
        (None, None) => true,
        _ => false,
    }
}

/// Returns the order of a path with a prefix beside one without, which has `bare` left: the first
/// is less, unless `bare` is empty.
pub(crate) fn order_of_prefixed(mut bare: Body<'_>) -> Ordering
    ensures { (p : Prefix) (ks : List Kind)
        → None ≡ first_prefix (kinds (parts (body_items bare.entry)))
        → result ≡ kinds_cmp (prefix p ∷ ks) (kinds (parts (body_items bare.entry))) }
{
    match bare.front() {
        Some(_) => Ordering::Less,
        None => Ordering::Greater,
    }
}

/// Whether two paths have the same prefix, or both none.
#[inline(always)]
pub(crate) fn have_same_prefixes(
    own: Option<WindowsPrefix<'_>>,
    other: Option<WindowsPrefix<'_>>,
) -> bool
    ensures { result ≡ are_same_prefixes (option_map prefix_view own.entry)
        (option_map prefix_view other.entry) }
{
    match (own, other) {
        (Some(own), Some(other)) => compare_prefixes(own, other).is_eq(),
        (None, None) => true,
        _ => false,
    }
}

/// Returns the order of two prefixes: by kind, and then by names. How they are written does not
/// count.
#[inline(always)]
pub(crate) fn compare_prefixes(own: WindowsPrefix<'_>, other: WindowsPrefix<'_>) -> Ordering
    ensures { result
        ≡ kind_cmp (prefix (prefix_view own.entry)) (prefix (prefix_view other.entry)) }
{
    own.cmp(&other)
}

/// Returns the order of two components after the prefix: by kind, and then by name.
#[inline(always)]
fn compare_steps(step: Step<'_>, other: Step<'_>) -> Ordering
    ensures { result ≡ kind_cmp (step_part step.entry).kind (step_part other.entry).kind }
{
    if let (StepKind::Normal, StepKind::Normal) = (step.kind, other.kind) {
        return step.text.cmp(other.text);
    }
    kind_rank(step.kind).cmp(&kind_rank(other.kind))
}

/// Whether two components after the prefix are of one kind, and have the same name if they are
/// names.
#[inline(always)]
fn is_same_step(step: Step<'_>, other: Step<'_>) -> bool
    ensures { result ≡ is_eq (kind_cmp (step_part step.entry).kind (step_part other.entry).kind) }
{
    match (step.kind, other.kind) {
        (StepKind::Normal, StepKind::Normal) => step.text == other.text,
        (StepKind::RootDir, StepKind::RootDir)
        | (StepKind::CurDir, StepKind::CurDir)
        | (StepKind::ParentDir, StepKind::ParentDir) => true,
        _ => false,
    }
}

/// Returns the rank by which kinds of components after the prefix are ordered, least first.
///
/// It is 0 for a root, 1 for `.`, 2 for `..` and 3 for a name.
#[inline(always)]
pub(crate) fn kind_rank(kind: StepKind) -> u8
    ensures { result ≡ step_rank kind }
{
    match kind {
        StepKind::RootDir => 0,
        StepKind::CurDir => 1,
        StepKind::ParentDir => 2,
        StepKind::Normal => 3,
    }
}

/// Feeds the prefix of a path to a hasher, by its kind and names; nothing without a prefix.
#[inline(always)]
pub(crate) fn feed_prefix<H: Hasher>(prefix: Option<WindowsPrefix<'_>>, state: &mut H)
    ensures { state.new
        ≡ fold H.write state.old (words_before (option_map prefix_view prefix.entry)) }
{
    if let Some(prefix) = prefix {
        prefix.hash(state);
    }
}

/// Feeds a component after the prefix to a hasher, and returns how many bytes it fed: none for a
/// root.
#[inline(always)]
pub(crate) fn feed<H: Hasher>(step: Step<'_>, state: &mut H) -> usize
    ensures words { state.new ≡ fold H.write state.old
        (flat_map writes_of (words_by_kind (step_part step.entry).text
        (step_part step.entry).kind)) }
    ensures counted { result ≡ fed_length (step_part step.entry).text (step_part step.entry).kind }
{
    match step.kind {
        StepKind::RootDir => 0,
        StepKind::CurDir | StepKind::ParentDir | StepKind::Normal => {
            state.write(step.text);
            step.text.len()
        }
    }
}
