//! The borrowed path: how it is made, what it answers, and the owned paths that are made of it.

ghost use Rattle.std.specs.Prelude.{◌≡◌, IfOk, not, ◌≤◌, length, option_map, option_copied, IfSome, [], IsOk, take, ◌++◌, None};
ghost use Rattle.typed_path.specs.places.{clean_text, is_within, normal_text, relative_text};
ghost use Rattle.typed_path.specs.components.{kinds, comps, parts_of};
ghost use Rattle.typed_path.specs.queries.{is_absolute, has_root, is_portable, is_valid, may_be_device, parent_of, portable_fault, file_name_of, file_stem_of, stripped, path_starts_with, path_ends_with, ancestors_of, stripped_to, extension, file_prefix_of, has_trailing_separator, common_ancestor_of, unportable};
ghost use Rattle.typed_path.specs.scan.{last_part};
ghost use Rattle.typed_path.specs.changes.{without_file_name, stem_end, with_file_name, with_extension, refusal, fault, name_end, with_added_extension, dotted, error_of, join_fault, join_refusal};
ghost use Rattle.typed_path.specs.promises.{HasNormalForm, HasPrefixOf, LiesWithin, LiesBelow, StaysWithin, keeps_prefix};
ghost use Rattle.typed_path.specs.views.PathViews.{path_bytes, components_items, components_slice, ancestors_left};
ghost use Rattle.typed_path.specs.views.PieceViews.{part_of};
ghost use Rattle.typed_path.specs.views.OffenceViews.{offence_of};

use crate::common::components::{Ancestors, Components, Iter, Reading};
use crate::common::encoding::Encoding;
use crate::common::path_buf::PathBuf;
use crate::common::portable::{first_unportable, have_device, looks_portable, refused_for};
use crate::common::relative::relative_to;
use crate::common::rows::put_clean;
use crate::common::within::{is_within, shared_end};
use crate::common::writing::{dotted_len, put_extension};
use crate::errors::{JoinError, PathError, PortableError, StripPrefixError};
use crate::scan::{Piece, keeps_prefix, split_name};
use std::alloc::{AllocError, Global};
use std::marker::PhantomData;

/// A path: a slice of bytes, with the encoding by which it is read.
#[derive_where(Clone, Copy)]
pub struct Path<'a, T> {
    bytes: &'a [u8],
    encoding: PhantomData<T>,
}

impl<'a, T> Path<'a, T> {
    /// The path of these bytes. Any bytes are a path.
    #[inline(always)]
    pub fn new(bytes: &'a [u8]) -> Path<'a, T>
        ensures { path_bytes result ≡ bytes.now }
    {
        Path {
            bytes,
            encoding: PhantomData,
        }
    }

    /// The bytes of the path.
    #[inline(always)]
    pub fn as_bytes(self) -> &'a [u8]
        ensures { result.now ≡ path_bytes self.entry }
    {
        self.bytes
    }
}

impl<'a, T: Encoding> Path<'a, T> {
    ghost use Rattle.typed_path.specs.changes.Push as push_spec;

    /// Whether the path is absolute: on Unix it begins with a root; on Windows with a server and a
    /// share, as `\\s\h`, or with a prefix of another kind and a root right after that, as `C:\`.
    ///
    /// On Windows `C:\a` is absolute, and `C:a`, `\a`, `\\s` and `\\.\COM1` are not.
    pub fn is_absolute(self) -> bool
        ensures { result ≡ is_absolute T.dialect
            (kinds (parts_of T.dialect (path_bytes self.entry))) }
    {
        self.components().is_absolute()
    }

    /// Whether the path is not absolute.
    pub fn is_relative(self) -> bool
        ensures { result ≡ not
            (is_absolute T.dialect (kinds (parts_of T.dialect (path_bytes self.entry)))) }
    {
        !self.is_absolute()
    }

    /// Whether the path has a root: one written first or right after the prefix, as in `C:\a`, or
    /// one implied by a prefix other than `C:` and `\\?\C:`.
    ///
    /// On Windows `\a` and `\\s\h` have one, and `C:a` has none.
    pub fn has_root(self) -> bool
        ensures { result ≡ has_root T.dialect (kinds (parts_of T.dialect (path_bytes self.entry))) }
    {
        self.components().has_root()
    }

    /// Whether the encoding allows every name of the path: `ab:c` and `con.txt` are allowed on
    /// Unix, and not on Windows.
    pub fn is_valid(self) -> bool
        ensures { result ≡ is_valid T.dialect (kinds (parts_of T.dialect (path_bytes self.entry))) }
    {
        T::valid_names(self.bytes)
    }

    /// Whether some version of Windows may take a name of the path for a device, as `nul .txt`.
    ///
    /// `nul .txt`, `con:a` and `COM¹` may be taken for one, `nul_` and `a.con` not. Only what
    /// precedes the first `:` of a name counts, of that only what precedes the first dot, without
    /// spaces at its end and in either case.
    ///
    /// The names are those of the path's own dialect: on Unix `a\nul` is one name, and no device.
    /// If it is not known on which system a path will be used, ask it in both dialects.
    pub fn may_be_device(self) -> bool
        ensures { result ≡ may_be_device T.dialect (path_bytes self.entry) }
    {
        have_device(self.components())
    }

    /// Whether the path has no prefix and every system takes each of its names as it is written, as
    /// [`Path::check_portable`] finds. Roots, `.` and `..` are accepted.
    ///
    /// `a/b.txt` is portable, and `nul`, `a:b` and `a/b.` are not.
    pub fn is_portable(self) -> bool
        ensures { result ≡ is_portable T.dialect (path_bytes self.entry) }
    {
        self.check_portable().is_ok()
    }

    /// Checks that the path has no prefix, and that every system takes each of its names as it is
    /// written: none refuses it, changes it, or takes it for something else. Roots, `.` and `..`
    /// are accepted. A name has to be UTF-8 of at most 255 bytes, without NUL and `/\:?*"><|`,
    /// which Windows forbids in names, and without control bytes, in `0..32` or 127. It ends in
    /// neither a dot nor a space, and no version of Windows may take it for a device, as
    /// `nul .txt`.
    ///
    /// # Errors
    ///
    /// The refusal of the first component that offends, and of its faults the first in this order:
    /// `Prefix`, `Forbidden`, `Device`, `Ending`, `TooLong`, `NotText`. On Windows `C:\nul` is
    /// refused with `Prefix`.
    pub fn check_portable(self) -> Result<(), PortableError>
        ensures { error_of result ≡ portable_fault T.dialect (path_bytes self.entry) }
    {
        if looks_portable::<T>(self.bytes) {
            return Ok(());
        }
        // A prefix offends first, and is found without a list.
        if T::cursor(self.bytes).prefix().is_some() {
            return Err(PortableError::Prefix);
        }
        refused_for(self.unportable())
    }

    /// Returns the first component that is not portable, and why; `None` if the path is portable.
    ///
    /// It has its bytes as in the path; the error is that of [`Path::check_portable`].
    ///
    /// Of `a/nul .txt/b` it is `nul .txt` with `Device`.
    pub fn unportable(self) -> Option<(&'a [u8], PortableError)>
        ensures { option_map offence_of result
            ≡ unportable T.dialect (path_bytes self.entry) }
    {
        first_unportable(self.components())
    }

    /// Whether each path that a checked join makes of this one is known to have the prefix of this
    /// one, or none if this one has none. `false` leaves it open.
    ///
    /// It is `true` of every Unix path. On Windows it is `true` of `C:\a`, `\\s\h` and `a`. It is
    /// `false` of `\\s`, a server without a share, and of `\\?\UNC`, `/`, `\\` and `/\`, as what is
    /// put after these becomes a part of a prefix. It is `false` too of some that keep theirs, as
    /// `//a/` and `\\s\\x`.
    ///
    /// So a base that is known only at run time is asked once: if it keeps its prefix, each path
    /// that [`Path::join_checked`] makes of it lies below it.
    pub fn keeps_prefix(self) -> bool
        ensures { result ≡ keeps_prefix T.dialect (path_bytes self.entry) }
    {
        !T::is_windows() || keeps_prefix(self.bytes)
    }

    /// Returns an iterator over the components of the path, from either end.
    ///
    /// The Unix path `/a/./b//` has the root, `a` and `b`.
    #[inline(always)]
    pub fn components(self) -> Components<'a, T>
        ensures items { components_items result ≡ comps T.dialect (path_bytes self.entry) }
        ensures slice { components_slice result ≡ path_bytes self.entry }
    {
        Reading::new(self)
    }

    /// Returns an iterator over the texts of the components, from either end: a root is `/` or `\`.
    ///
    /// Those of the Unix path `/a/./b` are `/`, `a` and `b`.
    #[inline(always)]
    pub fn iter(self) -> Iter<'a, T>
        ensures items { components_items result ≡ comps T.dialect (path_bytes self.entry) }
        ensures slice { components_slice result ≡ path_bytes self.entry }
    {
        Reading::new(self)
    }

    /// Returns an iterator over the path, and then each parent of the one before.
    ///
    /// Those of the Unix path `/a/b/.` are `/a/b/.`, `/a` and `/`.
    #[inline(always)]
    pub fn ancestors(self) -> Ancestors<'a, T>
        ensures { ancestors_left result ≡ ancestors_of T.dialect (path_bytes self.entry) }
    {
        Ancestors::new(self)
    }

    /// Returns the path without its last component. `None` if it has no component, or if nothing is
    /// above the last one: a root or, on Windows, a prefix other than a drive `C:`.
    ///
    /// On Unix that of `/a/./b//` is `/a`, that of `a` is the empty path, and `/` has none.
    pub fn parent(self) -> Option<Path<'a, T>>
        ensures { option_map path_bytes result ≡ parent_of T.dialect (path_bytes self.entry) }
    {
        let mut components = self.components();
        let last = components.next_back()?;
        if last.is_root() {
            return None;
        }
        Some(Path::new(components.as_bytes()))
    }

    /// Returns the last component if it is a name, else `None`.
    ///
    /// Of `a/b//` it is `b`, and `a/..` has none.
    pub fn file_name(self) -> Option<&'a [u8]>
        ensures { option_copied result ≡ file_name_of T.dialect (path_bytes self.entry) }
    {
        self.last()?.file_name()
    }

    /// Returns the file name up to its last dot, or the whole file name if it has no dot but one at
    /// its start. `None` if the path has no file name.
    ///
    /// Of `a.tar.gz` it is `a.tar`, and of `.bashrc` it is `.bashrc`.
    pub fn file_stem(self) -> Option<&'a [u8]>
        ensures { option_copied result ≡ file_stem_of T.dialect (path_bytes self.entry) }
    {
        self.last()?.file_stem()
    }

    /// Returns what follows the last dot of the file name. `None` if the path has no file name, or
    /// that has no dot but one at its start.
    ///
    /// Of `a.tar.gz` it is `gz`, of `a.` it is empty, and `.bashrc` has none.
    pub fn extension(self) -> Option<&'a [u8]>
        ensures { option_copied result ≡ extension T.dialect (path_bytes self.entry) }
    {
        self.last()?.extension()
    }

    /// Returns the file name up to its first dot that is not at its start, or the whole file name
    /// if it has none. `None` if the path has no file name.
    ///
    /// Of `a.tar.gz` it is `a`, and of `.config.toml` it is `.config`.
    pub fn file_prefix(self) -> Option<&'a [u8]>
        ensures { option_copied result ≡ file_prefix_of T.dialect (path_bytes self.entry) }
    {
        self.last()?.file_prefix()
    }

    /// Whether the last byte is a separator of the path, as that of `a/`, and of `/` alone. On
    /// Windows `/` is no separator if the path begins with `\\?\`.
    ///
    /// On Windows that of `a\` is one too, and that of `\\?\C:\a/` is none.
    pub fn has_trailing_separator(self) -> bool
        ensures { result ≡ has_trailing_separator T.dialect (path_bytes self.entry) }
    {
        match self.bytes {
            [] => false,
            [.., last] => T::separators(self.bytes).contains(*last),
        }
    }

    /// Returns the last component, `None` if there is none.
    #[inline(always)]
    fn last(self) -> Option<Piece<'a>>
        ensures { option_map part_of result ≡ last_part (comps T.dialect (path_bytes self.entry)) }
    {
        self.components().next_back()
    }

    /// Returns the path without its file name, or the whole path if it has no file name.
    pub(crate) fn without_file_name(self) -> Path<'a, T>
        ensures { path_bytes result ≡ without_file_name T.dialect (path_bytes self.entry) }
    {
        let mut components = self.components();
        match components.next_back() {
            Some(last) if last.is_normal() => Path::new(components.as_bytes()),
            _ => self,
        }
    }

    /// Returns the index at which the stem of the file name ends, `None` if there is no file name.
    pub(crate) fn stem_end(self) -> Option<usize>
        ensures end { result ≡ stem_end T.dialect (path_bytes self.entry) }
        ensures within { IfSome result (λ end. end ≤ length (path_bytes self.entry)) }
    {
        let last = self.components().last_placed()?;
        if !last.piece.is_normal() {
            return None;
        }
        Some(last.start + split_name(last.piece.text).0.len())
    }

    /// Returns the index at which the file name ends, `None` if there is none.
    pub(crate) fn name_end(self) -> Option<usize>
        ensures end { result ≡ name_end T.dialect (path_bytes self.entry) }
        ensures within { IfSome result (λ end. end ≤ length (path_bytes self.entry)) }
    {
        let last = self.components().last_placed()?;
        if !last.piece.is_normal() {
            return None;
        }
        Some(last.start + last.piece.len())
    }

    /// Returns what is left of the path after `base`.
    ///
    /// Of the Unix path `/a/./b/c` it is `b/c` after `/a`.
    ///
    /// # Errors
    ///
    /// `StripPrefixError` exactly if the path does not begin with the components of `base`,
    /// compared as they are written: on Windows `c:\a` does not begin with `C:`.
    pub fn strip_prefix(self, base: Path<'_, T>) -> Result<Path<'a, T>, StripPrefixError>
        ensures { stripped_to path_bytes result
            ≡ stripped T.dialect (path_bytes self.entry) (path_bytes base.entry) }
    {
        self.behind(base).ok_or(StripPrefixError)
    }

    /// Whether the path begins with the components of `base`, compared as they are written: on
    /// Windows `C:/a` begins with `C:\`, and `c:\a` does not.
    ///
    /// `a/b` begins with `a`, and `ab` does not.
    pub fn starts_with(self, base: Path<'_, T>) -> bool
        ensures { result ≡ path_starts_with T.dialect (path_bytes self.entry)
            (path_bytes base.entry) }
    {
        self.behind(base).is_some()
    }

    /// Returns the leading components that both paths share, compared as they are written, as the
    /// front of this path up to the end of the last one; `None` if they share none.
    ///
    /// Of the Unix path `/a//b/c` it is `/a//b` beside `/a/b/d`, and `a` has none beside `/a`. On
    /// Windows that of `C:/a\b` is `C:/a` beside `C:\a\c`, and `c:\a` has none beside `C:\a`. Both
    /// paths begin with it, and it begins with each path that both begin with.
    pub fn common_ancestor(self, other: Path<'_, T>) -> Option<Path<'a, T>>
        ensures { option_map path_bytes result ≡ common_ancestor_of T.dialect
            (path_bytes self.entry) (path_bytes other.entry) }
    {
        let end = shared_end(self, other);
        let shared = &self.as_bytes()[..end];
        if shared.is_empty() {
            None
        } else {
            Some(Path::new(shared))
        }
    }

    /// Whether the path ends with the components of `end`, compared as they are written.
    ///
    /// `a/b/c` ends with `b/c`, and `a/bc` does not end with `c`.
    pub fn ends_with(self, end: Path<'_, T>) -> bool
        ensures { result ≡ path_ends_with T.dialect (path_bytes self.entry) (path_bytes end.entry) }
    {
        let mut rest = self.components();
        let mut wanted = end.components();
        'pieces: while let Some(piece) = wanted.next_back() {
            let Some(own) = rest.next_back() else {
                return false;
            };
            if piece.text != own.text {
                return false;
            }
        }
        true
    }

    /// Whether the path lies at `base` or below it, from whatever directory both are read.
    ///
    /// A `..` cancels the name before it. One without such a name leads above where the path
    /// begins, or after a root nowhere. So `a/b/..` and `a/b` lie within `a`, and `a/../b` and
    /// `../a` do not; `a` lies within `..`. A root without a prefix contains every path without a
    /// prefix. On Windows `c:\a` lies within `C:\`, since the case of drive letters does not count,
    /// and not within `C:\A`. Links are not followed.
    ///
    /// From every absolute directory that keeps its prefix, the place of a path that is within a
    /// base is that of the base, and then some names. On Unix this is true of no other path.
    pub fn is_within(self, base: Path<'_, T>) -> bool
        ensures { result ≡ is_within T.dialect (path_bytes self.entry) (path_bytes base.entry) }
    {
        is_within::<T>(self.as_bytes(), base.as_bytes())
    }

    /// Returns the path from `base` to this one, from whatever directory both are read: a `..` for
    /// each name of `base` that this path does not begin with, and for each `..` by which this path
    /// leads higher, and then the names of this path that are left.
    ///
    /// From `/a/b` to `/a/c/d` it is `../c/d`, from `a` to `a/.` it is `.`, and from `a` to `../b`
    /// it is `../../b`. It has neither a prefix nor a root. If nothing is left to write, it is `.`;
    /// on Windows `.\` precedes a name that would be read as a prefix, as in `.\C:`. Names are
    /// compared byte by byte. Links are not followed.
    ///
    /// It is `Ok(None)`, and never an error, if the two have different prefixes, or only one of the
    /// two has a prefix or begins with a root, written or implied; if more `..` of `base` than of
    /// this path lead above where it begins, as from `..` to `a`; or if a name that is left holds a
    /// `/`, as one of a verbatim Windows path may.
    ///
    /// On Unix the result, joined to `base`, leads where this path leads, and it is `None` exactly
    /// if no relative path does. On Windows it leads there if `base` keeps its prefix and, if that
    /// is verbatim, ends with at least as many names as the result has `..`.
    pub fn relative_to(
        self,
        alloc: Global,
        base: Path<'_, T>,
    ) -> Result<Option<PathBuf<T>>, AllocError>
        ensures bytes { IfOk result (λ found. option_map (λ p. p.bytes) found
            ≡ relative_text T.dialect (path_bytes self.entry) (path_bytes base.entry)) }
        ensures free { relative_text T.dialect (path_bytes self.entry) (path_bytes base.entry) ≡ None
            → IsOk result }
    {
        relative_to::<T>(alloc, self.as_bytes(), base.as_bytes())
    }

    /// Returns what is left of the path after `base`, `None` if it does not begin with the
    /// components of `base`, compared as they are written.
    fn behind(self, base: Path<'_, T>) -> Option<Path<'a, T>>
        ensures { option_map path_bytes result
            ≡ stripped T.dialect (path_bytes self.entry) (path_bytes base.entry) }
    {
        // A look at the bytes mostly tells, be it that the path begins with the base or that it
        // does not.
        match T::strip_by_bytes(self.as_bytes(), base.as_bytes()) {
            Some(Some(rest)) => Some(Path::new(rest)),
            Some(None) => None,
            None => self.behind_by_components(base),
        }
    }

    /// Returns what [`Path::behind`] does, by reading both paths component by component.
    fn behind_by_components(self, base: Path<'_, T>) -> Option<Path<'a, T>>
        ensures { option_map path_bytes result
            ≡ stripped T.dialect (path_bytes self.entry) (path_bytes base.entry) }
    {
        let mut rest = self.components();
        let mut wanted = base.components();
        'pieces: while let Some(piece) = wanted.next() {
            let own = rest.next()?;
            if piece.text != own.text {
                return None;
            }
        }
        Some(Path::new(rest.as_bytes()))
    }

    /// A copy that owns its bytes.
    pub fn to_path_buf(self, alloc: Global) -> Result<PathBuf<T>, AllocError>
        ensures bytes { IfOk result (λ p. p.bytes ≡ path_bytes self.entry) }
        ensures succeeds { path_bytes self.entry ≡ [] → IsOk result }
    {
        PathBuf::from_bytes(alloc, self.as_bytes())
    }

    /// Returns this path with `path` pushed onto it: one with a prefix replaces it, one with a root
    /// all of it but its prefix, and an empty one makes a copy.
    ///
    /// On Unix `/etc` with `a` is `/etc/a`; on Windows `C:\a\b` with `\c` is `C:\c`.
    pub fn join(self, alloc: Global, path: Path<'_, T>) -> Result<PathBuf<T>, AllocError>
        ensures { IfOk result (λ p. p.bytes
            ≡ push_spec.push T.dialect (path_bytes self.entry) (path_bytes path.entry)) }
    {
        let base = self.as_bytes();
        let other = path.as_bytes();
        let mut joined = Vec::with_capacity(alloc, base.len() + other.len() + 1)?;
        joined.extend_from_slice(base)?;
        T::push(&mut joined, other)?;
        Ok(PathBuf::from_vec(joined))
    }

    /// Returns this path with `path` pushed onto it, unless a component of `path` offends.
    ///
    /// The result lies within this path if it has the prefix of this one: on Unix `/etc` with
    /// `abc/../def` is `/etc/abc/../def`. If this path keeps its prefix, the place of the result is
    /// that of this path, and then some names, and the result is within this path, as
    /// [`Path::is_within`] says. A `path` that offends is refused for that, however little memory
    /// there is.
    ///
    /// # Errors
    ///
    /// `Checked` if `path` has a prefix, a root, a `..` that no earlier name of it makes up for, or
    /// a name that the encoding does not allow, as `con.txt` on Windows: the first of these says
    /// which. `OutOfMemory` if it has none of them, and allocation fails.
    pub fn join_checked(self, alloc: Global, path: Path<'_, T>) -> Result<PathBuf<T>, PathError>
        ensures refused { refusal result ≡ fault T.dialect (path_bytes path.entry) }
        ensures joined { IfOk result (λ p. p.bytes
            ≡ push_spec.push T.dialect (path_bytes self.entry) (path_bytes path.entry)) }
        ensures prefix { IfOk result (λ p. HasPrefixOf T.dialect (path_bytes self.entry) p.bytes) }
        ensures contained { IfOk result
            (λ p. LiesWithin T.dialect (path_bytes self.entry) (path_bytes path.entry) p.bytes) }
        ensures below { IfOk result (λ p. LiesBelow T.dialect (path_bytes self.entry) p.bytes) }
        ensures within { IfOk result
            (λ p. StaysWithin T.dialect (path_bytes self.entry) p.bytes) }
    {
        T::check(path.as_bytes())?;
        Ok(self.join(alloc, path)?)
    }

    /// Returns this path with `path` pushed onto it, unless `path` is not portable or a component
    /// of it offends.
    ///
    /// What [`Path::join_checked`] promises of its result is true of this one too, and every system
    /// takes the names that were pushed as they are written. A `path` that is not portable, or
    /// offends, is refused for that, however little memory there is.
    ///
    /// # Errors
    ///
    /// `Portable` if `path` is not portable, with the refusal of [`Path::check_portable`]. Else
    /// those of [`Path::join_checked`]; of a portable path these are never for a prefix or for a
    /// name that is not allowed.
    pub fn join_portable(self, alloc: Global, path: Path<'_, T>) -> Result<PathBuf<T>, JoinError>
        ensures refused { join_refusal result ≡ join_fault T.dialect (path_bytes path.entry) }
        ensures joined { IfOk result (λ p. p.bytes
            ≡ push_spec.push T.dialect (path_bytes self.entry) (path_bytes path.entry)) }
        ensures prefix { IfOk result (λ p. HasPrefixOf T.dialect (path_bytes self.entry) p.bytes) }
        ensures contained { IfOk result
            (λ p. LiesWithin T.dialect (path_bytes self.entry) (path_bytes path.entry) p.bytes) }
        ensures below { IfOk result (λ p. LiesBelow T.dialect (path_bytes self.entry) p.bytes) }
        ensures within { IfOk result
            (λ p. StaysWithin T.dialect (path_bytes self.entry) p.bytes) }
    {
        path.check_portable()?;
        Ok(self.join_checked(alloc, path)?)
    }

    /// Returns a copy without its file name, if it has one, and with `name` pushed onto that, as
    /// [`Path::join`] pushes: one with a prefix replaces what is there, one with a root all but the
    /// prefix, and an empty one adds nothing.
    ///
    /// On Unix `a//b/` with `c` is `a/c`, and `a/..` with `c` is `a/../c`.
    pub fn with_file_name(self, alloc: Global, name: &[u8]) -> Result<PathBuf<T>, AllocError>
        ensures { IfOk result
            (λ p. p.bytes ≡ with_file_name T.dialect (path_bytes self.entry) name.now) }
    {
        self.without_file_name().join(alloc, Path::new(name))
    }

    /// Returns a copy whose file name has another extension, or none if `extension` is empty.
    /// Without a file name it is an unchanged copy.
    ///
    /// `a.tar.gz` with `zip` is `a.tar.zip`, and with an empty one `a.tar`.
    pub fn with_extension(self, alloc: Global, extension: &[u8]) -> Result<PathBuf<T>, AllocError>
        ensures { IfOk result
            (λ p. p.bytes ≡ with_extension T.dialect (path_bytes self.entry) extension.now) }
    {
        match self.stem_end() {
            Some(end) => self.extended_at(alloc, end, extension),
            None => self.to_path_buf(alloc),
        }
    }

    /// Returns a copy with `extension` appended to its file name, after a dot. Without a file name,
    /// or with an empty extension, it is an unchanged copy.
    ///
    /// `a.tar` with `gz` is `a.tar.gz`, and so is `a.tar/`.
    pub fn with_added_extension(
        self,
        alloc: Global,
        extension: &[u8],
    ) -> Result<PathBuf<T>, AllocError>
        ensures { IfOk result
            (λ p. p.bytes ≡ with_added_extension T.dialect (path_bytes self.entry) extension.now) }
    {
        match self.name_end() {
            Some(end) if !extension.is_empty() => self.extended_at(alloc, end, extension),
            _ => self.to_path_buf(alloc),
        }
    }

    /// Returns a copy of the first `end` bytes, with a dot and the extension after them, or nothing
    /// if that is empty.
    fn extended_at(
        self,
        alloc: Global,
        end: usize,
        extension: &[u8],
    ) -> Result<PathBuf<T>, AllocError>
        requires { end ≤ length (path_bytes self) }
        ensures { IfOk result
            (λ p. p.bytes ≡ take end (path_bytes self.entry) ++ dotted extension.now) }
    {
        let kept = &self.as_bytes()[..end];
        let mut extended = Vec::with_capacity(alloc, kept.len() + dotted_len(extension))?;
        extended.extend_from_slice(kept)?;
        put_extension(&mut extended, extension)?;
        Ok(PathBuf::from_vec(extended))
    }

    /// Returns the path without `.`, and without `..` and the names that these cancel.
    ///
    /// That of the Unix path `foo/bar//baz/./asdf/quux/..` is `foo/bar/baz/asdf`.
    ///
    /// The components that are left are pushed one by one onto the empty path. A `..` that has no
    /// name to cancel vanishes. On Unix the result is read as just these components, is its own
    /// normal path, and is the same, byte for byte, for all paths that lead to the same place. On
    /// Windows, if no name has a byte that no name may have and the prefix is not the verbatim one
    /// named `UNC`, as `\\?\UNC`, the result is read as these components with a root put in after a
    /// verbatim drive `\\?\C:`, leads where the path does, and is its own normal path.
    pub fn normalize(self, alloc: Global) -> Result<PathBuf<T>, AllocError>
        ensures text { IfOk result (λ p. p.bytes ≡ normal_text T.dialect (path_bytes self.entry)) }
        ensures form { IfOk result (λ p. HasNormalForm T.dialect (path_bytes self.entry) p.bytes) }
    {
        let path = self.as_bytes();
        let mut text = Vec::with_capacity(alloc, path.len() + 1)?;
        T::put_normal(&mut text, path)?;
        Ok(PathBuf::from_vec(text))
    }

    /// Returns the path without `.`, doubled separators, a last separator that is no root, and
    /// names that a `..` cancels; on Windows with `\` for each separator after the prefix. A
    /// relative path keeps the `..` that it needs. If nothing is left, the result is `.`.
    ///
    /// That of the Unix path `a/../../b//./c` is `../b/c`, and that of `a/..` is `.`.
    ///
    /// The prefix is kept as it is written, and on Windows none is gained: that of `a\..\C:\b` is
    /// `.\C:\b`. A root is put between `\\?\C:` and a name. From every absolute directory that
    /// keeps its prefix, the result leads where the path does, and it is its own clean path; of a
    /// path with the verbatim prefix named `UNC`, as `\\?\UNC`, neither of the two is promised.
    pub fn clean(self, alloc: Global) -> Result<PathBuf<T>, AllocError>
        ensures { IfOk result (λ p. p.bytes ≡ clean_text T.dialect (path_bytes self.entry)) }
    {
        let path = self.as_bytes();
        let mut text = Vec::with_capacity(alloc, path.len() + 2)?;
        put_clean::<T>(&mut text, path)?;
        Ok(PathBuf::from_vec(text))
    }
}

impl<'a, T: Encoding> IntoIterator for Path<'a, T> {
    type Item = &'a [u8];

    type IntoIter = Iter<'a, T>;

    ghost into_iter_gives = { λ path iter. components_items iter ≡ comps T.dialect (path_bytes path)
        × components_slice iter ≡ path_bytes path };

    fn into_iter(self) -> Iter<'a, T> {
        self.iter()
    }
}
