//! The owned path: how it is made, how it is changed, and what it is turned into.

ghost use Rattle.std.specs.Prelude.{◌≡◌, ◌≤◌, ◌+◌, [], length, is_some, max, min, IsSome, None, IfOk, OnOk, OnErr, IsOk, map, take, ◌++◌};
ghost use Rattle.std.specs.Vec.{vec_capacity};
ghost use Rattle.typed_path.specs.changes.{refusal, FitsPush, push_all, IsKnown, fault, popped, without_file_name, with_file_name, with_extension, dotted, with_added_extension};
ghost use Rattle.typed_path.specs.promises.{HasPrefixOf, LiesWithin};
ghost use Rattle.typed_path.specs.queries.{parent_of, file_name_of};
ghost use Rattle.std.specs.String.{string_bytes, string_capacity};
ghost use Rattle.typed_path.specs.views.PathViews.{path_bytes};

use crate::common::encoding::Encoding;
use crate::common::path::Path;
use crate::common::writing::{dotted_len, put_extension};
use crate::errors::PathError;
use std::alloc::{AllocError, Global};
use std::marker::{Model, PhantomData};

/// A path that owns its bytes, and grows.
#[derive(Drop)]
pub struct PathBuf<T> {
    pub(super) inner: Vec<u8>,
    encoding: PhantomData<T>,
}

impl<T> Model for PathBuf<T> {
    ghost use Rattle.std.specs.Vec.{vec_capacity};
    ghost use Rattle.typed_path.specs.views.OwnedViews.{Owned};

    ghost Value = { Owned };

    ghost view = { λ p. record { bytes = p.inner.items; capacity = vec_capacity p.inner } };
}

impl<T: Encoding> PathBuf<T> {
    ghost use Rattle.typed_path.specs.changes.Push as push_spec;

    /// The empty path.
    pub fn new(alloc: Global) -> PathBuf<T>
        ensures bytes { result.bytes ≡ [] }
        ensures capacity { result.capacity ≡ 0 }
    {
        PathBuf::from_vec(Vec::new(alloc))
    }

    /// The empty path, with a capacity of `capacity` bytes.
    pub fn with_capacity(alloc: Global, capacity: usize) -> Result<PathBuf<T>, AllocError>
        ensures bytes { IfOk result (λ p. p.bytes ≡ []) }
        ensures capacity { IfOk result (λ p. p.capacity ≡ capacity) }
        ensures succeeds { capacity ≡ 0 → IsOk result }
    {
        Ok(PathBuf::from_vec(Vec::with_capacity(alloc, capacity)?))
    }

    /// The path of a copy of these bytes.
    pub fn from_bytes(alloc: Global, bytes: &[u8]) -> Result<PathBuf<T>, AllocError>
        ensures bytes { IfOk result (λ p. p.bytes ≡ bytes.now) }
        ensures succeeds { bytes.now ≡ [] → IsOk result }
    {
        let mut inner = Vec::with_capacity(alloc, bytes.len())?;
        inner.extend_from_slice(bytes)?;
        Ok(PathBuf::from_vec(inner))
    }

    /// The path of a copy of this text.
    pub fn from_str(alloc: Global, text: &str) -> Result<PathBuf<T>, AllocError>
        ensures bytes { IfOk result (λ p. p.bytes ≡ text.now) }
        ensures succeeds { text.now ≡ [] → IsOk result }
    {
        PathBuf::from_bytes(alloc, text.as_bytes())
    }

    /// The path of the bytes of a vector, with no copy.
    pub(crate) fn from_vec(inner: Vec<u8>) -> PathBuf<T>
        ensures bytes { result.bytes ≡ inner.items }
        ensures capacity { result.capacity ≡ vec_capacity inner }
    {
        PathBuf {
            inner,
            encoding: PhantomData,
        }
    }

    /// Borrows the path.
    pub fn as_path(&self) -> Path<'_, T>
        ensures { path_bytes result ≡ self.now.bytes }
    {
        Path::new(self.inner.as_slice())
    }

    /// How many bytes the path can hold without allocating, its own included.
    pub fn capacity(&self) -> usize
        ensures { result ≡ self.now.capacity }
    {
        self.inner.capacity()
    }

    /// Pushes `path` onto this one: one with a prefix replaces it, one with a root all of it but
    /// its prefix, and an empty one changes nothing.
    ///
    /// On Unix `b` makes `a` into `a/b`; on Windows `..` makes `\\?\C:\a` into `\\?\C:\`.
    ///
    /// If the result fits the capacity, nothing is allocated. If this path has a verbatim prefix of
    /// Windows, as `\\?\C:`, that is promised only if it has one `\` between its components, as a
    /// push would spell them, and spare capacity for `path` and one byte more. If allocation fails,
    /// the path is unchanged, and its capacity is no less.
    pub fn push(&mut self, path: Path<'_, T>) -> Result<(), AllocError>
        ensures ok { OnOk result
            (self.new.bytes ≡ push_spec.push T.dialect self.old.bytes (path_bytes path.entry)) }
        ensures err { OnErr result (self.new.bytes ≡ self.old.bytes) }
        ensures capacity { self.old.capacity ≤ self.new.capacity }
        ensures succeeds { FitsPush T.dialect self.old.capacity self.old.bytes
            (path_bytes path.entry) → IsOk result }
    {
        T::push(&mut self.inner, path.as_bytes())
    }

    /// Pushes `path` onto this one, unless a component of `path` offends.
    ///
    /// The result lies within this path if this one keeps its prefix: on Unix `abc/../def` makes
    /// `/etc` into `/etc/abc/../def`.
    ///
    /// # Errors
    ///
    /// `Checked` if `path` has a prefix, a root, a `..` that no earlier name of it makes up for, or
    /// a name that the encoding does not allow, as `con.txt` on Windows: the first of these says
    /// which. Then nothing changes, and nothing is allocated. `OutOfMemory` if it has none of them,
    /// and allocation fails: the path is unchanged, and its capacity is no less.
    pub fn push_checked(&mut self, path: Path<'_, T>) -> Result<(), PathError>
        ensures refused { refusal result ≡ fault T.dialect (path_bytes path.entry) }
        ensures ok { OnOk result
            (self.new.bytes ≡ push_spec.push T.dialect self.old.bytes (path_bytes path.entry)) }
        ensures err { OnErr result (self.new.bytes ≡ self.old.bytes) }
        ensures unchanged { IsSome (refusal result) → self.new ≡ self.old }
        ensures capacity { self.old.capacity ≤ self.new.capacity }
        ensures succeeds { fault T.dialect (path_bytes path.entry) ≡ None
            → FitsPush T.dialect self.old.capacity self.old.bytes (path_bytes path.entry)
            → IsOk result }
        ensures prefix { OnOk result (HasPrefixOf T.dialect self.old.bytes self.new.bytes) }
        ensures contained { OnOk result
            (LiesWithin T.dialect self.old.bytes (path_bytes path.entry) self.new.bytes) }
    {
        T::push_checked(&mut self.inner, path.as_bytes())
    }

    /// Pushes `path` as [`PathBuf::push`] does, and returns what is known of the result.
    ///
    /// `known` is what is known of this path, as [`Encoding::push_next`] says: so pushes in turn
    /// need not read this path anew for each.
    pub(crate) fn push_next(
        &mut self,
        path: Path<'_, T>,
        known: Option<usize>,
    ) -> Result<Option<usize>, AllocError>
        ensures ok { IsKnown T.dialect known self.old.bytes → OnOk result
            (self.new.bytes ≡ push_spec.push T.dialect self.old.bytes (path_bytes path.entry)) }
        ensures known { IsKnown T.dialect known self.old.bytes
            → IfOk result (λ next. IsKnown T.dialect next self.new.bytes) }
        ensures err { OnErr result (self.new.bytes ≡ self.old.bytes) }
        ensures capacity { self.old.capacity ≤ self.new.capacity }
        ensures succeeds { IsKnown T.dialect known self.old.bytes
            → FitsPush T.dialect self.old.capacity self.old.bytes (path_bytes path.entry)
            → IsOk result }
    {
        T::push_next(&mut self.inner, 0, path.as_bytes(), known)
    }

    /// Cuts the path to its parent. Returns whether it has one; without one nothing changes.
    ///
    /// The Unix path `/a/b//` becomes `/a`, and `/` stays.
    pub fn pop(&mut self) -> bool
        ensures bytes { self.new.bytes ≡ popped T.dialect self.old.bytes }
        ensures flag { result ≡ is_some (parent_of T.dialect self.old.bytes) }
        ensures capacity { self.new.capacity ≡ self.old.capacity }
    {
        let Some(parent) = self.as_path().parent() else {
            return false;
        };
        let kept = parent.as_bytes().len();
        self.inner.truncate(kept);
        true
    }

    /// Removes the file name, if there is one, and pushes `name` onto what is left, as
    /// [`PathBuf::push`] does: one with a prefix replaces that, one with a root all but the prefix,
    /// and an empty one adds nothing.
    ///
    /// On Unix `c` makes `a//b/` into `a/c`, and `a/..` into `a/../c`.
    ///
    /// If allocation fails, the path is unchanged, and its capacity is no less.
    pub fn set_file_name(&mut self, name: &[u8]) -> Result<(), AllocError>
        ensures ok { OnOk result
            (self.new.bytes ≡ with_file_name T.dialect self.old.bytes name.now) }
        ensures err { OnErr result (self.new.bytes ≡ self.old.bytes) }
        ensures capacity { self.old.capacity ≤ self.new.capacity }
        ensures succeeds { FitsPush T.dialect self.old.capacity
            (without_file_name T.dialect self.old.bytes) name.now → IsOk result }
    {
        let kept = self.as_path().without_file_name().as_bytes().len();
        T::push_over(&mut self.inner, kept, name)
    }

    /// Replaces the extension of the file name, or removes it if `extension` is empty. Returns
    /// whether there is a file name; without one nothing changes.
    ///
    /// `zip` makes `a.tar.gz` into `a.tar.zip`.
    ///
    /// If allocation fails, the path is unchanged, and its capacity is no less.
    pub fn set_extension(&mut self, extension: &[u8]) -> Result<bool, AllocError>
        ensures ok { OnOk result
            (self.new.bytes ≡ with_extension T.dialect self.old.bytes extension.now) }
        ensures flag { IfOk result
            (λ renamed. renamed ≡ is_some (file_name_of T.dialect self.old.bytes)) }
        ensures err { OnErr result (self.new.bytes ≡ self.old.bytes) }
        ensures unchanged { file_name_of T.dialect self.old.bytes ≡ None → self.new ≡ self.old }
        ensures capacity { self.old.capacity ≤ self.new.capacity }
        ensures succeeds { length (with_extension T.dialect self.old.bytes extension.now)
            ≤ self.old.capacity → IsOk result }
    {
        let Some(end) = self.as_path().stem_end() else {
            return Ok(false);
        };
        self.extend_at(end, extension)?;
        Ok(true)
    }

    /// Appends a dot and `extension` to the file name. Returns whether there is a file name.
    /// Without one, or with an empty extension, nothing changes.
    ///
    /// `gz` makes `a.tar` into `a.tar.gz`, and `a.tar/` too.
    ///
    /// If allocation fails, the path is unchanged, and its capacity is no less.
    pub fn add_extension(&mut self, extension: &[u8]) -> Result<bool, AllocError>
        ensures ok { OnOk result
            (self.new.bytes ≡ with_added_extension T.dialect self.old.bytes extension.now) }
        ensures flag { IfOk result
            (λ renamed. renamed ≡ is_some (file_name_of T.dialect self.old.bytes)) }
        ensures err { OnErr result (self.new.bytes ≡ self.old.bytes) }
        ensures unchanged { file_name_of T.dialect self.old.bytes ≡ None → self.new ≡ self.old }
        ensures empty { extension.now ≡ [] → self.new ≡ self.old }
        ensures capacity { self.old.capacity ≤ self.new.capacity }
        ensures succeeds { length (with_added_extension T.dialect self.old.bytes extension.now)
            ≤ self.old.capacity → IsOk result }
    {
        let Some(end) = self.as_path().name_end() else {
            return Ok(false);
        };
        if !extension.is_empty() {
            self.extend_at(end, extension)?;
        }
        Ok(true)
    }

    /// Cuts the path to its first `end` bytes, and appends a dot and the extension, or nothing if
    /// that is empty. If allocation fails, the path keeps all its bytes.
    fn extend_at(&mut self, end: usize, extension: &[u8]) -> Result<(), AllocError>
        requires { end ≤ length self.old.bytes }
        ensures ok { OnOk result
            (self.new.bytes ≡ take end self.old.bytes ++ dotted extension.now) }
        ensures err { OnErr result (self.new.bytes ≡ self.old.bytes) }
        ensures capacity { self.old.capacity ≤ self.new.capacity }
        ensures succeeds { length (take end self.old.bytes ++ dotted extension.now)
            ≤ self.old.capacity → IsOk result }
    {
        let behind = self.inner.len() - end;
        self.inner
            .reserve(dotted_len(extension).saturating_sub(behind))?;
        self.inner.truncate(end);
        put_extension(&mut self.inner, extension)
    }

    /// Makes the path empty. It keeps its capacity.
    pub fn clear(&mut self)
        ensures bytes { self.new.bytes ≡ [] }
        ensures capacity { self.new.capacity ≡ self.old.capacity }
    {
        self.inner.clear();
    }

    /// Reserves capacity for at least `additional` bytes more. If allocation fails, nothing
    /// changes.
    pub fn reserve(&mut self, additional: usize) -> Result<(), AllocError>
        ensures bytes { self.new.bytes ≡ self.old.bytes }
        ensures room { OnOk result (length self.new.bytes + additional ≤ self.new.capacity) }
        ensures capacity { self.old.capacity ≤ self.new.capacity }
        ensures err { OnErr result (self.new.capacity ≡ self.old.capacity) }
        ensures succeeds { length self.old.bytes + additional ≤ self.old.capacity → IsOk result }
    {
        self.inner.reserve(additional)
    }

    /// Alias of `reserve`, which is fallible already.
    pub fn try_reserve(&mut self, additional: usize) -> Result<(), AllocError>
        ensures bytes { self.new.bytes ≡ self.old.bytes }
        ensures room { OnOk result (length self.new.bytes + additional ≤ self.new.capacity) }
        ensures capacity { self.old.capacity ≤ self.new.capacity }
        ensures err { OnErr result (self.new.capacity ≡ self.old.capacity) }
        ensures succeeds { length self.old.bytes + additional ≤ self.old.capacity → IsOk result }
    {
        self.inner.try_reserve(additional)
    }

    /// Reserves capacity for `additional` bytes more, and for no more than these if it has to grow.
    /// If allocation fails, nothing changes.
    pub fn reserve_exact(&mut self, additional: usize) -> Result<(), AllocError>
        ensures bytes { self.new.bytes ≡ self.old.bytes }
        ensures room { OnOk result
            (self.new.capacity ≡ max self.old.capacity (length self.old.bytes + additional)) }
        ensures err { OnErr result (self.new.capacity ≡ self.old.capacity) }
        ensures succeeds { length self.old.bytes + additional ≤ self.old.capacity → IsOk result }
    {
        self.inner.reserve_exact(additional)
    }

    /// Alias of `reserve_exact`, which is fallible already.
    pub fn try_reserve_exact(&mut self, additional: usize) -> Result<(), AllocError>
        ensures bytes { self.new.bytes ≡ self.old.bytes }
        ensures room { OnOk result
            (self.new.capacity ≡ max self.old.capacity (length self.old.bytes + additional)) }
        ensures err { OnErr result (self.new.capacity ≡ self.old.capacity) }
        ensures succeeds { length self.old.bytes + additional ≤ self.old.capacity → IsOk result }
    {
        self.inner.try_reserve_exact(additional)
    }

    /// Gives unused capacity back, as far as a smaller block can be allocated, and never fails. The
    /// empty path keeps none.
    pub fn shrink_to_fit(&mut self) -> Result<(), AllocError>
        ensures ok { IsOk result }
        ensures bytes { self.new.bytes ≡ self.old.bytes }
        ensures capacity { self.new.capacity ≤ self.old.capacity }
        ensures frees { self.old.bytes ≡ [] → self.new.capacity ≡ 0 }
    {
        self.inner.shrink_to_fit();
        Ok(())
    }

    /// Gives unused capacity above `min_capacity` bytes back, as far as a smaller block can be
    /// allocated, and never fails.
    pub fn shrink_to(&mut self, min_capacity: usize) -> Result<(), AllocError>
        ensures ok { IsOk result }
        ensures bytes { self.new.bytes ≡ self.old.bytes }
        ensures capacity { self.new.capacity ≤ self.old.capacity }
        ensures room { min min_capacity self.old.capacity ≤ self.new.capacity }
        ensures frees { self.old.bytes ≡ [] → min_capacity ≡ 0 → self.new.capacity ≡ 0 }
    {
        self.inner.shrink_to(min_capacity);
        Ok(())
    }

    /// The bytes of the path, with no copy.
    pub fn into_vec(self) -> Vec<u8>
        ensures bytes { result.items ≡ self.bytes }
        ensures capacity { vec_capacity result ≡ self.capacity }
    {
        let PathBuf { inner, encoding: _ } = self;
        inner
    }
}

/// Copies the bytes in one allocation, in the memory of the same allocator.
impl<T: Encoding> Clone for PathBuf<T> {
    ghost is_clone = { λ path copy. copy.bytes ≡ path.bytes };

    fn clone(&self) -> Result<PathBuf<T>, AllocError> {
        PathBuf::from_bytes(*self.inner.allocator(), self.inner.as_slice())
    }
}

/// The path of the bytes of a vector, with no copy.
impl<T: Encoding> From<Vec<u8>> for PathBuf<T> {
    ghost from_gives = { λ bytes path. (path.bytes ≡ bytes.items)
        × (path.capacity ≡ vec_capacity bytes) };

    fn from(bytes: Vec<u8>) -> PathBuf<T> {
        PathBuf::from_vec(bytes)
    }
}

/// The path of the bytes of a text, with no copy.
impl<T: Encoding> From<String> for PathBuf<T> {
    ghost from_gives = { λ text path. (path.bytes ≡ string_bytes text)
        × (path.capacity ≡ string_capacity text) };

    fn from(text: String) -> PathBuf<T> {
        PathBuf::from_vec(text.into_bytes())
    }
}

/// The bytes of a path, with no copy.
impl<T: Encoding> From<PathBuf<T>> for Vec<u8> {
    ghost from_gives = { λ path bytes. (bytes.items ≡ path.bytes)
        × (vec_capacity bytes ≡ path.capacity) };

    fn from(path: PathBuf<T>) -> Vec<u8> {
        path.into_vec()
    }
}

/// Pushes the paths one by one. If allocation fails, those before stay pushed.
impl<'p, T: Encoding> Extend<Path<'p, T>> for PathBuf<T> {
    ghost extend_gives = { λ old paths new. new.bytes
        ≡ push_all T.dialect old.bytes (map path_bytes paths) };

    fn extend<U: IntoIterator<Item = Path<'p, T>>>(&mut self, paths: U) -> Result<(), AllocError> {
        let mut rest = paths.into_iter();
        let mut known = None;
        'paths: while let Some(path) = rest.next() {
            known = self.push_next(path, known)?;
        }
        Ok(())
    }
}

/// The paths pushed one by one onto the empty path.
impl<'p, T: Encoding> FromIterator<Path<'p, T>> for PathBuf<T> {
    type Alloc = Global;

    ghost from_iter_gives = { λ paths path. path.bytes
        ≡ push_all T.dialect [] (map path_bytes paths) };

    fn from_iter<U: IntoIterator<Item = Path<'p, T>>>(
        alloc: Global,
        paths: U,
    ) -> Result<PathBuf<T>, AllocError> {
        let mut path = PathBuf::new(alloc);
        path.extend(paths)?;
        Ok(path)
    }
}
