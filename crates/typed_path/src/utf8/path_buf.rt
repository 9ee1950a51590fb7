//! The owned path of text.
#![tactic(auto, using(crate::proofs::lemmas::texts::TextChanges::text_laws))]

ghost use Rattle.std.specs.Prelude.{◌≡◌, true, ◌≤◌, ◌+◌, [], length, is_some, max, min, IsSome, None, IfOk, OnOk, OnErr, IsOk, is_ok, IfErr, map, refl, Some};
ghost use Rattle.std.specs.Str.{is_utf8};
ghost use Rattle.std.specs.String.{string_bytes, string_capacity};
ghost use Rattle.typed_path.specs.changes.{refusal, FitsPush, push_all, IsKnown, fault, popped, without_file_name, with_file_name, with_extension, with_added_extension};
ghost use Rattle.typed_path.specs.promises.{HasPrefixOf, LiesWithin};
ghost use Rattle.typed_path.specs.queries.{parent_of, file_name_of};
ghost use Rattle.std.specs.Cmp.{eq_by_cmp_equiv, on_total, partial_equiv_from_equiv, partial_order_from_total};
ghost use Rattle.std.specs.Ordering.{on, as_partial_cmp};
ghost use Rattle.typed_path.specs.order.{is_same, key_writes, path_cmp, path_cmp_total, same-kinds, same-writes};
ghost use Rattle.std.proofs.Common.{ap};
ghost use Rattle.typed_path.specs.components.{kinds, parts_of};
ghost use Rattle.typed_path.specs.order.Words.{kinds_words};

use crate::common::{KeyPath, PathBuf};
use crate::errors::PathError;
use crate::utf8::encoding::{Utf8Encoding, string_of};
use crate::utf8::path::Utf8Path;
use std::alloc::{AllocError, Global};
use std::cmp::Ordering;
use std::fmt;
use std::hash::{Hash, Hasher};
use std::marker::Model;

/// Turns a result with an owned path, whose bytes are UTF-8, into one with a path of text.
macro_rules! owned {
    ($made:expr) => {
        match $made {
            Ok(path) => Ok(Utf8PathBuf::of(path)),
            Err(error) => Err(error),
        }
    };
}

pub(super) use owned;

/// A path that owns its text, and grows.
#[derive(Drop)]
pub struct Utf8PathBuf<T: Utf8Encoding> {
    pub(super) inner: PathBuf<T::Bytes>,
    ghost is_text: { is_utf8 inner.bytes ≡ true },
}

impl<T: Utf8Encoding> Model for Utf8PathBuf<T> {
    ghost use Rattle.typed_path.specs.views.OwnedViews.{Owned};

    ghost Value = { Owned };

    ghost view = { λ p. p.inner };
}

impl<T: Utf8Encoding> Utf8PathBuf<T> {
    ghost use Rattle.typed_path.specs.views.TextViews.{utf8_bytes};
    ghost use Rattle.typed_path.specs.changes.Push as push_spec;

    /// The empty path.
    pub fn new(alloc: Global) -> Utf8PathBuf<T>
        ensures bytes { result.bytes ≡ [] }
        ensures capacity { result.capacity ≡ 0 }
    {
        Utf8PathBuf::of(PathBuf::new(alloc))
    }

    /// The empty path, with a capacity of `capacity` bytes.
    pub fn with_capacity(alloc: Global, capacity: usize) -> Result<Utf8PathBuf<T>, AllocError>
        ensures bytes { IfOk result (λ p. p.bytes ≡ []) }
        ensures capacity { IfOk result (λ p. p.capacity ≡ capacity) }
        ensures succeeds { capacity ≡ 0 → IsOk result }
    {
        owned!(PathBuf::with_capacity(alloc, capacity))
    }

    /// The path of a copy of this text.
    pub fn from_str(alloc: Global, text: &str) -> Result<Utf8PathBuf<T>, AllocError>
        ensures bytes { IfOk result (λ p. p.bytes ≡ text.now) }
        ensures succeeds { text.now ≡ [] → IsOk result }
    {
        owned!(PathBuf::from_str(alloc, text))
    }

    /// Returns the path of text that has the bytes of `path`, with no copy.
    ///
    /// # Errors
    ///
    /// The `path` itself, exactly if its bytes are not UTF-8.
    pub fn from_bytes_path_buf(path: PathBuf<T::Bytes>) -> Result<Utf8PathBuf<T>, PathBuf<T::Bytes>>
        ensures ok { IfOk result (λ p. (p.bytes ≡ path.bytes) × (p.capacity ≡ path.capacity)) }
        ensures back { IfErr result (λ p. p ≡ path) }
        ensures flag { is_ok result ≡ is_utf8 path.bytes }
    {
        if path.as_path().to_str().is_some() {
            Ok(Utf8PathBuf::of(path))
        } else {
            Err(path)
        }
    }

    /// Returns the path of text that has the bytes of `path`. They are known to be UTF-8, and not
    /// checked again.
    pub fn from_bytes_path_buf_unchecked(path: PathBuf<T::Bytes>) -> Utf8PathBuf<T>
        requires { is_utf8 path.bytes ≡ true }
        ensures bytes { result.bytes ≡ path.bytes }
        ensures capacity { result.capacity ≡ path.capacity }
    {
        Utf8PathBuf::of(path)
    }

    /// Returns the path of text that has the bytes of `inner`, which are UTF-8, with no copy.
    #[inline(always)]
    pub(super) fn of(inner: PathBuf<T::Bytes>) -> Utf8PathBuf<T>
        requires { is_utf8 inner.bytes ≡ true }
        ensures bytes { result.bytes ≡ inner.bytes }
        ensures capacity { result.capacity ≡ inner.capacity }
    {
        Utf8PathBuf { inner }
    }

    /// Borrows the path.
    pub fn as_path(&self) -> Utf8Path<'_, T>
        ensures { utf8_bytes result ≡ self.now.bytes }
    {
        Utf8Path::of(self.inner.as_path())
    }

    /// How many bytes the path can hold without allocating, its own included.
    pub fn capacity(&self) -> usize
        ensures { result ≡ self.now.capacity }
    {
        self.inner.capacity()
    }

    /// Pushes `path` onto this one: one with a prefix replaces it, one with a root all of it but
    /// its prefix, and an empty one changes nothing.
    ///
    /// If allocation fails, the path is unchanged, and its capacity is no less.
    pub fn push(&mut self, path: Utf8Path<'_, T>) -> Result<(), AllocError>
        ensures ok { OnOk result (self.new.bytes ≡ push_spec.push T.Bytes.dialect self.old.bytes
            (utf8_bytes path.entry)) }
        ensures err { OnErr result (self.new.bytes ≡ self.old.bytes) }
        ensures capacity { self.old.capacity ≤ self.new.capacity }
        ensures succeeds { FitsPush T.Bytes.dialect self.old.capacity self.old.bytes
            (utf8_bytes path.entry) → IsOk result }
    {
        self.inner.push(path.as_bytes_path())
    }

    /// Pushes `path` onto this one, unless a component of `path` offends. The result lies within
    /// this path if this one keeps its prefix.
    ///
    /// # Errors
    ///
    /// Those of [`PathBuf::push_checked`](crate::PathBuf::push_checked). Then the path is
    /// unchanged.
    pub fn push_checked(&mut self, path: Utf8Path<'_, T>) -> Result<(), PathError>
        ensures refused { refusal result ≡ fault T.Bytes.dialect (utf8_bytes path.entry) }
        ensures ok { OnOk result (self.new.bytes ≡ push_spec.push T.Bytes.dialect self.old.bytes
            (utf8_bytes path.entry)) }
        ensures err { OnErr result (self.new.bytes ≡ self.old.bytes) }
        ensures unchanged { IsSome (refusal result) → self.new ≡ self.old }
        ensures capacity { self.old.capacity ≤ self.new.capacity }
        ensures succeeds { fault T.Bytes.dialect (utf8_bytes path.entry) ≡ None
            → FitsPush T.Bytes.dialect self.old.capacity self.old.bytes (utf8_bytes path.entry)
            → IsOk result }
        ensures prefix { OnOk result (HasPrefixOf T.Bytes.dialect self.old.bytes self.new.bytes) }
        ensures contained { OnOk result
            (LiesWithin T.Bytes.dialect self.old.bytes (utf8_bytes path.entry) self.new.bytes) }
    {
        self.inner.push_checked(path.as_bytes_path())
    }

    /// Pushes `path` as [`Utf8PathBuf::push`] does, and returns what is known of the result.
    ///
    /// `known` is what is known of this path, as in `PathBuf::push_next`.
    pub(super) fn push_next(
        &mut self,
        path: Utf8Path<'_, T>,
        known: Option<usize>,
    ) -> Result<Option<usize>, AllocError>
        requires { IsKnown T.Bytes.dialect known self.old.bytes }
        ensures ok { OnOk result (self.new.bytes
            ≡ push_spec.push T.Bytes.dialect self.old.bytes (utf8_bytes path.entry)) }
        ensures known { IfOk result (λ next. IsKnown T.Bytes.dialect next self.new.bytes) }
        ensures err { OnErr result (self.new.bytes ≡ self.old.bytes) }
    {
        self.inner.push_next(path.as_bytes_path(), known)
    }

    /// Cuts the path to its parent. Returns whether it has one; without one nothing changes.
    pub fn pop(&mut self) -> bool
        ensures bytes { self.new.bytes ≡ popped T.Bytes.dialect self.old.bytes }
        ensures flag { result ≡ is_some (parent_of T.Bytes.dialect self.old.bytes) }
        ensures capacity { self.new.capacity ≡ self.old.capacity }
    {
        self.inner.pop()
    }

    /// Removes the file name, if there is one, and pushes `name` onto what is left, as
    /// [`Utf8PathBuf::push`] does: one with a prefix replaces that, one with a root all but the
    /// prefix, and an empty one adds nothing.
    ///
    /// If allocation fails, the path is unchanged, and its capacity is no less.
    pub fn set_file_name(&mut self, name: &str) -> Result<(), AllocError>
        ensures ok { OnOk result
            (self.new.bytes ≡ with_file_name T.Bytes.dialect self.old.bytes name.now) }
        ensures err { OnErr result (self.new.bytes ≡ self.old.bytes) }
        ensures capacity { self.old.capacity ≤ self.new.capacity }
        ensures succeeds { FitsPush T.Bytes.dialect self.old.capacity
            (without_file_name T.Bytes.dialect self.old.bytes) name.now → IsOk result }
    {
        self.inner.set_file_name(name.as_bytes())
    }

    /// Replaces the extension of the file name, or removes it if `extension` is empty. Returns
    /// whether there is a file name; without one nothing changes.
    ///
    /// If allocation fails, the path is unchanged, and its capacity is no less.
    pub fn set_extension(&mut self, extension: &str) -> Result<bool, AllocError>
        ensures ok { OnOk result
            (self.new.bytes ≡ with_extension T.Bytes.dialect self.old.bytes extension.now) }
        ensures flag { IfOk result
            (λ renamed. renamed ≡ is_some (file_name_of T.Bytes.dialect self.old.bytes)) }
        ensures err { OnErr result (self.new.bytes ≡ self.old.bytes) }
        ensures unchanged { file_name_of T.Bytes.dialect self.old.bytes ≡ None
            → self.new ≡ self.old }
        ensures capacity { self.old.capacity ≤ self.new.capacity }
        ensures succeeds { length (with_extension T.Bytes.dialect self.old.bytes extension.now)
            ≤ self.old.capacity → IsOk result }
    {
        self.inner.set_extension(extension.as_bytes())
    }

    /// Appends a dot and `extension` to the file name. Returns whether there is a file name.
    /// Without one, or with an empty extension, nothing changes.
    ///
    /// If allocation fails, the path is unchanged, and its capacity is no less.
    pub fn add_extension(&mut self, extension: &str) -> Result<bool, AllocError>
        ensures ok { OnOk result
            (self.new.bytes ≡ with_added_extension T.Bytes.dialect self.old.bytes extension.now) }
        ensures flag { IfOk result
            (λ renamed. renamed ≡ is_some (file_name_of T.Bytes.dialect self.old.bytes)) }
        ensures err { OnErr result (self.new.bytes ≡ self.old.bytes) }
        ensures unchanged { file_name_of T.Bytes.dialect self.old.bytes ≡ None
            → self.new ≡ self.old }
        ensures empty { extension.now ≡ [] → self.new ≡ self.old }
        ensures capacity { self.old.capacity ≤ self.new.capacity }
        ensures succeeds { length (with_added_extension T.Bytes.dialect self.old.bytes extension.now)
            ≤ self.old.capacity → IsOk result }
    {
        self.inner.add_extension(extension.as_bytes())
    }

    /// Makes the path empty. It keeps its capacity.
    pub fn clear(&mut self)
        ensures bytes { self.new.bytes ≡ [] }
        ensures capacity { self.new.capacity ≡ self.old.capacity }
    {
        self.inner.clear();
    }

    /// Reserves capacity for at least `additional` bytes more. If allocation fails, nothing
    /// changes.
    pub fn reserve(&mut self, additional: usize) -> Result<(), AllocError>
        ensures bytes { self.new.bytes ≡ self.old.bytes }
        ensures room { OnOk result (length self.new.bytes + additional ≤ self.new.capacity) }
        ensures capacity { self.old.capacity ≤ self.new.capacity }
        ensures err { OnErr result (self.new.capacity ≡ self.old.capacity) }
        ensures succeeds { length self.old.bytes + additional ≤ self.old.capacity → IsOk result }
    {
        self.inner.reserve(additional)
    }

    /// Alias of `reserve`, which is fallible already.
    pub fn try_reserve(&mut self, additional: usize) -> Result<(), AllocError>
        ensures bytes { self.new.bytes ≡ self.old.bytes }
        ensures room { OnOk result (length self.new.bytes + additional ≤ self.new.capacity) }
        ensures capacity { self.old.capacity ≤ self.new.capacity }
        ensures err { OnErr result (self.new.capacity ≡ self.old.capacity) }
        ensures succeeds { length self.old.bytes + additional ≤ self.old.capacity → IsOk result }
    {
        self.inner.try_reserve(additional)
    }

    /// Reserves capacity for `additional` bytes more, and for no more than these if it has to grow.
    /// If allocation fails, nothing changes.
    pub fn reserve_exact(&mut self, additional: usize) -> Result<(), AllocError>
        ensures bytes { self.new.bytes ≡ self.old.bytes }
        ensures room { OnOk result
            (self.new.capacity ≡ max self.old.capacity (length self.old.bytes + additional)) }
        ensures err { OnErr result (self.new.capacity ≡ self.old.capacity) }
        ensures succeeds { length self.old.bytes + additional ≤ self.old.capacity → IsOk result }
    {
        self.inner.reserve_exact(additional)
    }

    /// Alias of `reserve_exact`, which is fallible already.
    pub fn try_reserve_exact(&mut self, additional: usize) -> Result<(), AllocError>
        ensures bytes { self.new.bytes ≡ self.old.bytes }
        ensures room { OnOk result
            (self.new.capacity ≡ max self.old.capacity (length self.old.bytes + additional)) }
        ensures err { OnErr result (self.new.capacity ≡ self.old.capacity) }
        ensures succeeds { length self.old.bytes + additional ≤ self.old.capacity → IsOk result }
    {
        self.inner.try_reserve_exact(additional)
    }

    /// Gives unused capacity back, as far as a smaller block can be allocated, and never fails. The
    /// empty path keeps none.
    pub fn shrink_to_fit(&mut self) -> Result<(), AllocError>
        ensures ok { IsOk result }
        ensures bytes { self.new.bytes ≡ self.old.bytes }
        ensures capacity { self.new.capacity ≤ self.old.capacity }
        ensures frees { self.old.bytes ≡ [] → self.new.capacity ≡ 0 }
    {
        self.inner.shrink_to_fit()
    }

    /// Gives unused capacity above `min_capacity` bytes back, as far as a smaller block can be
    /// allocated, and never fails.
    pub fn shrink_to(&mut self, min_capacity: usize) -> Result<(), AllocError>
        ensures ok { IsOk result }
        ensures bytes { self.new.bytes ≡ self.old.bytes }
        ensures capacity { self.new.capacity ≤ self.old.capacity }
        ensures room { min min_capacity self.old.capacity ≤ self.new.capacity }
        ensures frees { self.old.bytes ≡ [] → min_capacity ≡ 0 → self.new.capacity ≡ 0 }
    {
        self.inner.shrink_to(min_capacity)
    }

    /// The text of the path, with no copy.
    pub fn into_string(self) -> String
        ensures bytes { string_bytes result ≡ self.bytes }
        ensures capacity { string_capacity result ≡ self.capacity }
    {
        let Utf8PathBuf { inner } = self;
        string_of(inner.into_vec())
    }

    /// The path of the bytes, with no copy.
    pub fn into_bytes_path_buf(self) -> PathBuf<T::Bytes>
        ensures bytes { result.bytes ≡ self.bytes }
        ensures capacity { result.capacity ≡ self.capacity }
    {
        let Utf8PathBuf { inner } = self;
        inner
    }
}

/// Copies the text in one allocation, in the memory of the same allocator.
impl<T: Utf8Encoding> Clone for Utf8PathBuf<T> {
    ghost is_clone = { λ path copy. copy.bytes ≡ path.bytes };

    fn clone(&self) -> Result<Utf8PathBuf<T>, AllocError> {
        owned!(self.inner.clone())
    }
}

/// Prints the text.
impl<T: Utf8Encoding> fmt::Display for Utf8PathBuf<T> {
    ghost output = { λ path. Some path.bytes };

    fn fmt<W: fmt::Write>(&self, f: &mut fmt::Formatter<W>) -> fmt::Result {
        f.pad(self.as_path().as_str())
    }
}

impl<T: Utf8Encoding> fmt::Debug for Utf8PathBuf<T> {
    fn fmt<W: fmt::Write>(&self, f: &mut fmt::Formatter<W>) -> fmt::Result {
        f.debug_struct("Utf8PathBuf")
            .field("_encoding", &T::label())
            .field("inner", &self.as_path().as_str())
            .finish()
    }
}

/// The path of a text, with no copy.
impl<T: Utf8Encoding> From<String> for Utf8PathBuf<T> {
    ghost from_gives = { λ text path. (path.bytes ≡ string_bytes text)
        × (path.capacity ≡ string_capacity text) };

    fn from(text: String) -> Utf8PathBuf<T> {
        Utf8PathBuf::of(PathBuf::from(text))
    }
}

/// The text of a path, with no copy.
impl<T: Utf8Encoding> From<Utf8PathBuf<T>> for String {
    ghost from_gives = { λ path text. (string_bytes text ≡ path.bytes)
        × (string_capacity text ≡ path.capacity) };

    fn from(path: Utf8PathBuf<T>) -> String {
        path.into_string()
    }
}

/// Pushes the paths one by one. If allocation fails, those before stay pushed.
impl<'p, T: Utf8Encoding> Extend<Utf8Path<'p, T>> for Utf8PathBuf<T> {
    ghost use Rattle.typed_path.specs.views.TextViews.{utf8_bytes};

    ghost extend_gives = { λ old paths new. new.bytes
        ≡ push_all T.Bytes.dialect old.bytes (map utf8_bytes paths) };

    fn extend<U: IntoIterator<Item = Utf8Path<'p, T>>>(
        &mut self,
        paths: U,
    ) -> Result<(), AllocError> {
        let mut rest = paths.into_iter();
        let mut known = None;
        'paths: while let Some(path) = rest.next() {
            known = self.push_next(path, known)?;
        }
        Ok(())
    }
}

/// The paths pushed one by one onto the empty path.
impl<'p, T: Utf8Encoding> FromIterator<Utf8Path<'p, T>> for Utf8PathBuf<T> {
    ghost use Rattle.typed_path.specs.views.TextViews.{utf8_bytes};

    type Alloc = Global;

    ghost from_iter_gives = { λ paths path. path.bytes
        ≡ push_all T.Bytes.dialect [] (map utf8_bytes paths) };

    fn from_iter<U: IntoIterator<Item = Utf8Path<'p, T>>>(
        alloc: Global,
        paths: U,
    ) -> Result<Utf8PathBuf<T>, AllocError> {
        let mut path = Utf8PathBuf::new(alloc);
        path.extend(paths)?;
        Ok(path)
    }
}

impl<T: Utf8Encoding> PartialEq for Utf8PathBuf<T> {
    ghost eq = { on (λ p. p.bytes) (is_same T.Bytes.dialect) };

    ghost laws = { partial_equiv_from_equiv
        (eq_by_cmp_equiv (on_total (λ p. p.bytes) (path_cmp_total T.Bytes.dialect))) };

    #[inline]
    fn eq(&self, other: &Utf8PathBuf<T>) -> bool {
        self.inner == other.inner
    }
}

impl<T: Utf8Encoding> Eq for Utf8PathBuf<T> {
    ghost laws = { eq_by_cmp_equiv (on_total (λ p. p.bytes) (path_cmp_total T.Bytes.dialect)) };
}

impl<T: Utf8Encoding> PartialOrd for Utf8PathBuf<T> {
    ghost partial_cmp = { as_partial_cmp (on (λ p. p.bytes) (path_cmp T.Bytes.dialect)) };

    ghost laws = { partial_order_from_total
        (on_total (λ p. p.bytes) (path_cmp_total T.Bytes.dialect)) };

    #[inline]
    fn partial_cmp(&self, other: &Utf8PathBuf<T>) -> Option<Ordering> {
        Some(self.cmp(other))
    }
}

impl<T: Utf8Encoding> Ord for Utf8PathBuf<T> {
    ghost cmp = { on (λ p. p.bytes) (path_cmp T.Bytes.dialect) };

    ghost total = { on_total (λ p. p.bytes) (path_cmp_total T.Bytes.dialect) };

    ghost matches_partial_cmp = { λ p q. refl };

    ghost matches_eq = { λ p q. refl };

    #[inline]
    fn cmp(&self, other: &Utf8PathBuf<T>) -> Ordering {
        self.inner.cmp(&other.inner)
    }
}

impl<T: Utf8Encoding> Hash for Utf8PathBuf<T> {
    ghost hash_input = { λ p. kinds_words (kinds (parts_of T.Bytes.dialect p.bytes)) };

    ghost respects_eq = { λ p q same. ap kinds_words
        (same-kinds T.Bytes.dialect p.bytes q.bytes same) };

    fn hash<H: Hasher>(&self, state: &mut H) {
        self.inner.hash(state);
    }
}

impl<T: Utf8Encoding> KeyPath for Utf8PathBuf<T> {
    ghost key_input = { λ p. key_writes T.Bytes.dialect p.bytes };

    ghost keys_respect_eq = { λ p q. same-writes T.Bytes.dialect p.bytes q.bytes };

    fn hash_key<H: Hasher>(&self, state: &mut H) {
        self.inner.hash_key(state);
    }
}
