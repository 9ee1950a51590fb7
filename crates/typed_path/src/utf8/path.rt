//! The borrowed path of text, and an iterator over the paths above it.
#![tactic(auto, using(crate::proofs::lemmas::texts::TextChanges::text_laws))]

ghost use Rattle.std.specs.Prelude.{◌≡◌, true, ⊤, not, option_map, is_ok, IfOk, IfErr, option_copied, [], IsOk, Ok, Err, Some, None};
ghost use Rattle.std.specs.Str.{is_utf8};
ghost use Rattle.typed_path.specs.views.PathViews.{path_bytes, ancestors_left};
ghost use Rattle.typed_path.specs.views.OffenceViews.{offence_of};
ghost use Rattle.typed_path.specs.typed.Outcomes.{JoinsChecked, JoinsPortable, LeadsFrom, Normalizes, ConvertsChecked, Absolutizes, AbsolutizesFrom};
ghost use Rattle.typed_path.specs.texts.{is_text_option, IsTextError, are_texts};
ghost use Rattle.typed_path.specs.components.{kinds, comps, parts_of, unix, windows};
ghost use Rattle.typed_path.specs.queries.{is_absolute, has_root, is_portable, is_valid, may_be_device, parent_of, portable_fault, unportable, file_name_of, file_stem_of, stripped, path_starts_with, path_ends_with, ancestors_of, stripped_to, extension, file_prefix_of, has_trailing_separator, common_ancestor_of};
ghost use Rattle.typed_path.specs.order.{is_same, key_writes, lowered, path_cmp, same-writes};
ghost use Rattle.typed_path.specs.places.{clean_text, is_within};
ghost use Rattle.typed_path.specs.promises.{keeps_prefix};
ghost use Rattle.typed_path.specs.changes.{error_of, with_file_name, with_extension, with_added_extension};
ghost use Rattle.typed_path.specs.conversions.{platform, same_dialect, converted};
ghost use Rattle.std.specs.Iterator.{YieldsFirstBy, item_count};

use crate::common::{Ancestors, KeyPath, Path};
use crate::errors::{AbsolutizeError, JoinError, PathError, PortableError, StripPrefixError};
use crate::utf8::encoding::{Utf8Encoding, text_of, text_of_option};
use crate::utf8::path_buf::{Utf8PathBuf, owned};
use crate::utf8::reading::{Utf8Piece, Utf8Reading};
use crate::utf8::unix::{
    Utf8PlatformEncoding, Utf8PlatformPath, Utf8PlatformPathBuf, Utf8UnixEncoding, Utf8UnixPathBuf,
};
use crate::utf8::windows::{Utf8WindowsEncoding, Utf8WindowsPathBuf};
use std::alloc::{AllocError, Global};
use std::cmp::Ordering;
use std::hash::Hasher;
use std::iter::FusedIterator;
use std::str::Utf8Error;
use std::{fmt, str};

/// A borrowed path of text: a `str`, with the encoding by which it is read.
///
/// Equality, order and hash are those of the path of its bytes.
#[derive_where(PartialEq, Eq, PartialOrd, Ord, Hash; T: Utf8Encoding)]
pub struct Utf8Path<'a, T: Utf8Encoding> {
    path: Path<'a, T::Bytes>,
    ghost is_text: { is_utf8 (path_bytes path) ≡ true },
}

impl<'a, T: Utf8Encoding> KeyPath for Utf8Path<'a, T> {
    ghost key_input = { λ p. key_writes T.Bytes.dialect (path_bytes p.path) };

    ghost keys_respect_eq = { λ p q. same-writes T.Bytes.dialect (path_bytes p.path) (path_bytes q.path) };

    fn hash_key<H: Hasher>(&self, state: &mut H) {
        self.path.hash_key(state);
    }
}

impl<'a, T: Utf8Encoding> Clone for Utf8Path<'a, T> {
    ghost is_clone = { λ path copy. copy ≡ path };

    ghost is_infallible = { λ path. ⊤ };

    #[inline(always)]
    fn clone(&self) -> Result<Utf8Path<'a, T>, AllocError> {
        Ok(*self)
    }
}

impl<'a, T: Utf8Encoding> Copy for Utf8Path<'a, T> {}

/// The iterator over the components of a path of text, from either end.
pub type Utf8Components<'a, T> = Utf8Reading<'a, T, Utf8Piece<'a>>;

/// The iterator over the texts of the components of a path, from either end.
pub type Utf8Iter<'a, T> = Utf8Reading<'a, T, &'a str>;

impl<'a, T: Utf8Encoding> Utf8Path<'a, T> {
    ghost use Rattle.typed_path.specs.views.ReadingViews.{reading_items, reading_slice};
    ghost use Rattle.typed_path.specs.views.TextAncestorViews.{utf8_ancestors_left};
    ghost use Rattle.typed_path.specs.views.TextViews.{utf8_bytes};
    ghost use Rattle.typed_path.specs.changes.Push as push_spec;

    /// The path of this text. Any text is a path.
    #[inline(always)]
    pub fn new(text: &'a str) -> Utf8Path<'a, T>
        ensures { utf8_bytes result ≡ text.now }
    {
        Utf8Path {
            path: Path::new(text.as_bytes()),
        }
    }

    /// Returns the path of text that has the bytes of `path`.
    ///
    /// # Errors
    ///
    /// `Utf8Error` exactly if the bytes are not UTF-8.
    pub fn from_bytes_path(path: Path<'a, T::Bytes>) -> Result<Utf8Path<'a, T>, Utf8Error>
        ensures ok { IfOk result (λ p. utf8_bytes p ≡ path_bytes path.entry) }
        ensures flag { is_ok result ≡ is_utf8 (path_bytes path.entry) }
        ensures err { IfErr result (IsTextError (path_bytes path.entry)) }
    {
        Ok(Utf8Path::new(str::from_utf8(path.as_bytes())?))
    }

    /// Returns the path of text with the bytes of `path`, which are UTF-8 and not checked again.
    pub fn from_bytes_path_unchecked(path: Path<'a, T::Bytes>) -> Utf8Path<'a, T>
        requires { is_utf8 (path_bytes path) ≡ true }
        ensures { utf8_bytes result ≡ path_bytes path.entry }
    {
        Utf8Path::of(path)
    }

    /// Returns the path of text that has the bytes of `path`, which are UTF-8.
    #[inline(always)]
    pub(super) fn of(path: Path<'a, T::Bytes>) -> Utf8Path<'a, T>
        requires { is_utf8 (path_bytes path) ≡ true }
        ensures { utf8_bytes result ≡ path_bytes path.entry }
    {
        Utf8Path { path }
    }

    /// Returns the path of text with the bytes of `path`, which are UTF-8, and `None` for `None`.
    #[inline(always)]
    pub(super) fn of_option(path: Option<Path<'a, T::Bytes>>) -> Option<Utf8Path<'a, T>>
        requires { is_text_option (option_map path_bytes path) ≡ true }
        ensures { option_map utf8_bytes result ≡ option_map path_bytes path.entry }
    {
        match path {
            Some(path) => Some(Utf8Path::of(path)),
            None => None,
        }
    }

    /// The text of the path.
    #[inline(always)]
    pub fn as_str(self) -> &'a str
        ensures { result.now ≡ utf8_bytes self.entry }
    {
        text_of(self.path.as_bytes())
    }

    /// The path of its bytes.
    #[inline(always)]
    pub fn as_bytes_path(self) -> Path<'a, T::Bytes>
        ensures bytes { path_bytes result ≡ utf8_bytes self.entry }
        ensures text { is_utf8 (path_bytes result) ≡ true }
    {
        self.path
    }

    /// Whether the path is absolute: on Unix it begins with a root; on Windows with a server and a
    /// share, as `\\s\h`, or with a prefix of another kind and a root right after that, as `C:\`.
    pub fn is_absolute(self) -> bool
        ensures { result ≡ is_absolute T.Bytes.dialect
            (kinds (parts_of T.Bytes.dialect (utf8_bytes self.entry))) }
    {
        self.path.is_absolute()
    }

    /// Whether the path is not absolute.
    pub fn is_relative(self) -> bool
        ensures { result ≡ not (is_absolute T.Bytes.dialect (kinds
            (parts_of T.Bytes.dialect (utf8_bytes self.entry)))) }
    {
        self.path.is_relative()
    }

    /// Whether the path has a root: one written first or right after the prefix, as in `C:\a`, or
    /// one implied by a prefix other than `C:` and `\\?\C:`.
    pub fn has_root(self) -> bool
        ensures { result ≡ has_root T.Bytes.dialect
            (kinds (parts_of T.Bytes.dialect (utf8_bytes self.entry))) }
    {
        self.path.has_root()
    }

    /// Whether the encoding allows every name of the path: `ab:c` and `con.txt` are allowed on
    /// Unix, and not on Windows.
    pub fn is_valid(self) -> bool
        ensures { result ≡ is_valid T.Bytes.dialect
            (kinds (parts_of T.Bytes.dialect (utf8_bytes self.entry))) }
    {
        self.path.is_valid()
    }

    /// Whether some version of Windows may take a name of the path for a device, as `nul .txt`.
    pub fn may_be_device(self) -> bool
        ensures { result ≡ may_be_device T.Bytes.dialect (utf8_bytes self.entry) }
    {
        self.path.may_be_device()
    }

    /// Whether the path has no prefix and every system takes each of its names as it is written, as
    /// [`Utf8Path::check_portable`] finds. Roots, `.` and `..` are accepted.
    pub fn is_portable(self) -> bool
        ensures { result ≡ is_portable T.Bytes.dialect (utf8_bytes self.entry) }
    {
        self.path.is_portable()
    }

    /// Checks that the path has no prefix, and that every system takes each of its names as it is
    /// written, as [`Path::check_portable`] does.
    ///
    /// # Errors
    ///
    /// The refusal of the first component that offends.
    pub fn check_portable(self) -> Result<(), PortableError>
        ensures { error_of result ≡ portable_fault T.Bytes.dialect (utf8_bytes self.entry) }
    {
        self.path.check_portable()
    }

    /// Returns the first component that is not portable, and why; `None` if the path is portable.
    ///
    /// It has its text as in the path; the error is that of [`Utf8Path::check_portable`].
    pub fn unportable(self) -> Option<(&'a str, PortableError)>
        ensures { option_map offence_of result
            ≡ unportable T.Bytes.dialect (utf8_bytes self.entry) }
    {
        match self.as_bytes_path().unportable() {
            Some((text, fault)) => Some((text_of(text), fault)),
            None => None,
        }
    }

    /// Whether each path that a checked join makes of this one is known to have the prefix of this
    /// one, or none if this one has none. `false` leaves it open.
    pub fn keeps_prefix(self) -> bool
        ensures { result ≡ keeps_prefix T.Bytes.dialect (utf8_bytes self.entry) }
    {
        self.path.keeps_prefix()
    }

    /// Returns an iterator over the components of the path, from either end.
    #[inline(always)]
    pub fn components(self) -> Utf8Components<'a, T>
        ensures items { reading_items result ≡ comps T.Bytes.dialect (utf8_bytes self.entry) }
        ensures slice { reading_slice result ≡ utf8_bytes self.entry }
    {
        Utf8Reading::new(self)
    }

    /// Returns an iterator over the texts of the components, from either end: a root is `/` or `\`.
    #[inline(always)]
    pub fn iter(self) -> Utf8Iter<'a, T>
        ensures items { reading_items result ≡ comps T.Bytes.dialect (utf8_bytes self.entry) }
        ensures slice { reading_slice result ≡ utf8_bytes self.entry }
    {
        Utf8Reading::new(self)
    }

    /// Returns an iterator over the path, and then each parent of the one before.
    #[inline(always)]
    pub fn ancestors(self) -> Utf8Ancestors<'a, T>
        ensures { utf8_ancestors_left result
            ≡ ancestors_of T.Bytes.dialect (utf8_bytes self.entry) }
    {
        Utf8Ancestors::new(self)
    }

    /// Returns the path without its last component. `None` if it has no component, or if nothing is
    /// above the last one: a root or, on Windows, a prefix other than a drive `C:`.
    ///
    /// Of the Unix path `日/本//語/` it is `日/本`.
    pub fn parent(self) -> Option<Utf8Path<'a, T>>
        ensures { option_map utf8_bytes result ≡ parent_of T.Bytes.dialect (utf8_bytes self.entry) }
    {
        Utf8Path::of_option(self.as_bytes_path().parent())
    }

    /// Returns the last component if it is a name, else `None`.
    pub fn file_name(self) -> Option<&'a str>
        ensures { option_copied result ≡ file_name_of T.Bytes.dialect (utf8_bytes self.entry) }
    {
        text_of_option(self.as_bytes_path().file_name())
    }

    /// Returns the file name up to its last dot, or the whole file name if it has no dot but one at
    /// its start. `None` if the path has no file name.
    pub fn file_stem(self) -> Option<&'a str>
        ensures { option_copied result ≡ file_stem_of T.Bytes.dialect (utf8_bytes self.entry) }
    {
        text_of_option(self.as_bytes_path().file_stem())
    }

    /// Returns what follows the last dot of the file name. `None` if the path has no file name, or
    /// that has no dot but one at its start.
    pub fn extension(self) -> Option<&'a str>
        ensures { option_copied result ≡ extension T.Bytes.dialect (utf8_bytes self.entry) }
    {
        text_of_option(self.as_bytes_path().extension())
    }

    /// Returns the file name up to its first dot that is not at its start, or the whole file name
    /// if it has none. `None` if the path has no file name.
    pub fn file_prefix(self) -> Option<&'a str>
        ensures { option_copied result ≡ file_prefix_of T.Bytes.dialect (utf8_bytes self.entry) }
    {
        text_of_option(self.as_bytes_path().file_prefix())
    }

    /// Whether the last character is a separator of the path, as that of `a/`, and of `/` alone. On
    /// Windows `/` is no separator if the path begins with `\\?\`.
    pub fn has_trailing_separator(self) -> bool
        ensures { result ≡ has_trailing_separator T.Bytes.dialect (utf8_bytes self.entry) }
    {
        self.as_bytes_path().has_trailing_separator()
    }

    /// Returns what is left of the path after `base`.
    ///
    /// # Errors
    ///
    /// `StripPrefixError` exactly if the path does not begin with the components of `base`,
    /// compared as they are written.
    pub fn strip_prefix(self, base: Utf8Path<'_, T>) -> Result<Utf8Path<'a, T>, StripPrefixError>
        ensures { stripped_to utf8_bytes result
            ≡ stripped T.Bytes.dialect (utf8_bytes self.entry) (utf8_bytes base.entry) }
    {
        match self.as_bytes_path().strip_prefix(base.as_bytes_path()) {
            Ok(rest) => Ok(Utf8Path::of(rest)),
            Err(error) => Err(error),
        }
    }

    /// Whether the path begins with the components of `base`, compared as they are written: on
    /// Windows `C:/a` begins with `C:\`, and `c:\a` does not.
    pub fn starts_with(self, base: Utf8Path<'_, T>) -> bool
        ensures { result ≡ path_starts_with T.Bytes.dialect (utf8_bytes self.entry)
            (utf8_bytes base.entry) }
    {
        self.as_bytes_path().starts_with(base.as_bytes_path())
    }

    /// Whether the path begins with the components of `base`, as both are written in lower case.
    pub fn starts_with_ignore_ascii_case(self, base: Utf8Path<'_, T>) -> bool
        ensures { result ≡ path_starts_with T.Bytes.dialect
            (lowered T.Bytes.dialect (utf8_bytes self.entry))
            (lowered T.Bytes.dialect (utf8_bytes base.entry)) }
    {
        self.as_bytes_path()
            .starts_with_ignore_ascii_case(base.as_bytes_path())
    }

    /// Whether the path and `other` have the same components in lower case.
    pub fn eq_ignore_ascii_case(self, other: Utf8Path<'_, T>) -> bool
        ensures { result ≡ is_same T.Bytes.dialect
            (lowered T.Bytes.dialect (utf8_bytes self.entry))
            (lowered T.Bytes.dialect (utf8_bytes other.entry)) }
    {
        self.as_bytes_path()
            .eq_ignore_ascii_case(other.as_bytes_path())
    }

    /// Returns the order of the path and `other` in lower case, by their components.
    pub fn cmp_ignore_ascii_case(self, other: Utf8Path<'_, T>) -> Ordering
        ensures { result ≡ path_cmp T.Bytes.dialect
            (lowered T.Bytes.dialect (utf8_bytes self.entry))
            (lowered T.Bytes.dialect (utf8_bytes other.entry)) }
    {
        self.as_bytes_path()
            .cmp_ignore_ascii_case(other.as_bytes_path())
    }

    /// Returns the leading components that both paths share, compared as they are written, as the
    /// front of this path up to the end of the last one; `None` if they share none.
    pub fn common_ancestor(self, other: Utf8Path<'_, T>) -> Option<Utf8Path<'a, T>>
        ensures { option_map utf8_bytes result ≡ common_ancestor_of T.Bytes.dialect
            (utf8_bytes self.entry) (utf8_bytes other.entry) }
    {
        Utf8Path::of_option(self.as_bytes_path().common_ancestor(other.as_bytes_path()))
    }

    /// Whether the path lies at `base` or below it, from whatever directory both are read.
    pub fn is_within(self, base: Utf8Path<'_, T>) -> bool
        ensures { result ≡ is_within T.Bytes.dialect (utf8_bytes self.entry)
            (utf8_bytes base.entry) }
    {
        self.as_bytes_path().is_within(base.as_bytes_path())
    }

    /// Returns the path from `base` to this one: `..` and then names, or `Ok(None)` if
    /// [`Path::relative_to`](crate::Path::relative_to) finds none. On Windows it leads here, joined
    /// to `base`, under the conditions that stand there.
    #[tactic(auto, using(crate::proofs::lemmas::texts::TextChanges::text_laws, crate::proofs::lemmas::texts::TextClean::relative_laws))]
    pub fn relative_to(
        self,
        alloc: Global,
        base: Utf8Path<'_, T>,
    ) -> Result<Option<Utf8PathBuf<T>>, AllocError>
        ensures { LeadsFrom T.Bytes.dialect (λ p. p.bytes) (utf8_bytes base.entry)
            (utf8_bytes self.entry) result }
    {
        match self
            .as_bytes_path()
            .relative_to(alloc, base.as_bytes_path())
        {
            Ok(Some(path)) => Ok(Some(Utf8PathBuf::of(path))),
            Ok(None) => Ok(None),
            Err(error) => Err(error),
        }
    }

    /// Whether the path ends with the components of `end`, compared as they are written.
    pub fn ends_with(self, end: Utf8Path<'_, T>) -> bool
        ensures { result ≡ path_ends_with T.Bytes.dialect (utf8_bytes self.entry)
            (utf8_bytes end.entry) }
    {
        self.as_bytes_path().ends_with(end.as_bytes_path())
    }

    /// Whether the path has the same components as the path of this text.
    #[inline]
    pub fn eq_str(self, other: &str) -> bool
        ensures { result ≡ is_same T.Bytes.dialect (utf8_bytes self.entry) other.now }
    {
        self.path.eq_bytes(other.as_bytes())
    }

    /// The order of the path and the path of this text, by their components.
    #[inline]
    pub fn cmp_str(self, other: &str) -> Ordering
        ensures { result ≡ path_cmp T.Bytes.dialect (utf8_bytes self.entry) other.now }
    {
        self.path.cmp_bytes(other.as_bytes())
    }

    /// A copy that owns its text.
    pub fn to_path_buf(self, alloc: Global) -> Result<Utf8PathBuf<T>, AllocError>
        ensures bytes { IfOk result (λ p. p.bytes ≡ utf8_bytes self.entry) }
        ensures succeeds { utf8_bytes self.entry ≡ [] → IsOk result }
    {
        owned!(self.as_bytes_path().to_path_buf(alloc))
    }

    /// Returns this path with `path` pushed onto it: one with a prefix replaces it, one with a root
    /// all of it but its prefix, and an empty one makes a copy.
    pub fn join(self, alloc: Global, path: Utf8Path<'_, T>) -> Result<Utf8PathBuf<T>, AllocError>
        ensures { IfOk result (λ p. p.bytes
            ≡ push_spec.push T.Bytes.dialect (utf8_bytes self.entry) (utf8_bytes path.entry)) }
    {
        owned!(self.as_bytes_path().join(alloc, path.as_bytes_path()))
    }

    /// Returns this path with `path` pushed onto it, unless a component of `path` offends.
    ///
    /// The result lies within this path if it has the prefix of this one. A `path` that offends is
    /// refused for that, however little memory there is.
    ///
    /// # Errors
    ///
    /// Those of [`Path::join_checked`](crate::Path::join_checked).
    pub fn join_checked(
        self,
        alloc: Global,
        path: Utf8Path<'_, T>,
    ) -> Result<Utf8PathBuf<T>, PathError>
        ensures { JoinsChecked T.Bytes.dialect (λ p. p.bytes) (utf8_bytes self.entry)
            (utf8_bytes path.entry) result }
    {
        owned!(
            self.as_bytes_path()
                .join_checked(alloc, path.as_bytes_path())
        )
    }

    /// Returns this path with `path` pushed onto it, unless `path` is not portable or a component
    /// of it offends.
    ///
    /// # Errors
    ///
    /// Those of [`Path::join_portable`](crate::Path::join_portable).
    pub fn join_portable(
        self,
        alloc: Global,
        path: Utf8Path<'_, T>,
    ) -> Result<Utf8PathBuf<T>, JoinError>
        ensures { JoinsPortable T.Bytes.dialect (λ p. p.bytes) (utf8_bytes self.entry)
            (utf8_bytes path.entry) result }
    {
        owned!(
            self.as_bytes_path()
                .join_portable(alloc, path.as_bytes_path())
        )
    }

    /// Returns a copy without its file name, if it has one, and with `name` pushed onto that, as
    /// [`Utf8Path::join`] pushes: one with a prefix replaces what is there, one with a root all but
    /// the prefix, and an empty one adds nothing.
    pub fn with_file_name(self, alloc: Global, name: &str) -> Result<Utf8PathBuf<T>, AllocError>
        ensures { IfOk result
            (λ p. p.bytes ≡ with_file_name T.Bytes.dialect (utf8_bytes self.entry) name.now) }
    {
        owned!(self.as_bytes_path().with_file_name(alloc, name.as_bytes()))
    }

    /// Returns a copy whose file name has another extension, or none if `extension` is empty.
    /// Without a file name it is an unchanged copy.
    ///
    /// `/tmp/日本語.txt/` with `z` is `/tmp/日本語.z`.
    pub fn with_extension(
        self,
        alloc: Global,
        extension: &str,
    ) -> Result<Utf8PathBuf<T>, AllocError>
        ensures { IfOk result
            (λ p. p.bytes ≡ with_extension T.Bytes.dialect (utf8_bytes self.entry) extension.now) }
    {
        owned!(
            self.as_bytes_path()
                .with_extension(alloc, extension.as_bytes())
        )
    }

    /// Returns a copy with `extension` appended to its file name, after a dot. Without a file name,
    /// or with an empty extension, it is an unchanged copy.
    ///
    /// `/tmp/日本語/` with `z` is `/tmp/日本語.z`.
    pub fn with_added_extension(
        self,
        alloc: Global,
        extension: &str,
    ) -> Result<Utf8PathBuf<T>, AllocError>
        ensures { IfOk result
            (λ p. p.bytes ≡ with_added_extension T.Bytes.dialect (utf8_bytes self.entry) extension.now) }
    {
        owned!(
            self.as_bytes_path()
                .with_added_extension(alloc, extension.as_bytes())
        )
    }

    /// Returns the path without `.`, and without `..` and the names that these cancel, in the form
    /// of [`Path::normalize`](crate::Path::normalize).
    pub fn normalize(self, alloc: Global) -> Result<Utf8PathBuf<T>, AllocError>
        ensures { Normalizes T.Bytes.dialect (λ p. p.bytes) (utf8_bytes self.entry) result }
    {
        owned!(self.as_bytes_path().normalize(alloc))
    }

    /// Returns the path without `.`, doubled separators, a last separator that is no root, and
    /// names that a `..` cancels; on Windows with `\` for each separator after the prefix, as
    /// [`Path::clean`](crate::Path::clean) does.
    #[tactic(auto, using(crate::proofs::lemmas::texts::TextChanges::text_laws, crate::proofs::lemmas::texts::TextClean::clean_laws))]
    pub fn clean(self, alloc: Global) -> Result<Utf8PathBuf<T>, AllocError>
        ensures { IfOk result (λ p. p.bytes ≡ clean_text T.Bytes.dialect (utf8_bytes self.entry)) }
    {
        owned!(self.as_bytes_path().clean(alloc))
    }

    /// Returns the path with each ASCII letter in lower case, except on Windows the `UNC` of
    /// `\\?\UNC\` before a server, as
    /// [`Path::to_ascii_lowercase`](crate::Path::to_ascii_lowercase) does.
    #[tactic(auto, using(crate::proofs::lemmas::texts::TextChanges::text_laws, crate::proofs::lemmas::texts::TextLowered::lowered_laws))]
    pub fn to_ascii_lowercase(self, alloc: Global) -> Result<Utf8PathBuf<T>, AllocError>
        ensures { IfOk result (λ p. p.bytes ≡ lowered T.Bytes.dialect (utf8_bytes self.entry)) }
    {
        owned!(self.as_bytes_path().to_ascii_lowercase(alloc))
    }

    /// Returns the path in the encoding `U`: its components pushed one by one onto the empty path,
    /// as [`Path::with_encoding`](crate::Path::with_encoding) does.
    pub fn with_encoding<U: Utf8Encoding>(self, alloc: Global) -> Result<Utf8PathBuf<U>, AllocError>
        ensures { IfOk result
            (λ p. p.bytes ≡ converted T.Bytes.dialect U.Bytes.dialect (utf8_bytes self.entry)) }
    {
        owned!(self.as_bytes_path().with_encoding::<U::Bytes>(alloc))
    }

    /// Returns the path in the encoding `U`, unless a checked push refuses a name of it or its
    /// drive.
    ///
    /// Its components are put one by one onto the empty path, each name and each drive by a checked
    /// push, all else by a plain one, even if `U` has the label of this encoding.
    ///
    /// # Errors
    ///
    /// Those of [`Path::with_encoding_checked`](crate::Path::with_encoding_checked).
    pub fn with_encoding_checked<U: Utf8Encoding>(
        self,
        alloc: Global,
    ) -> Result<Utf8PathBuf<U>, PathError>
        ensures { ConvertsChecked T.Bytes.dialect U.Bytes.dialect
            (λ p. p.bytes) (utf8_bytes self.entry) result }
    {
        owned!(
            self.as_bytes_path()
                .with_encoding_checked::<U::Bytes>(alloc)
        )
    }

    /// Whether the encoding has the label of Unix.
    pub fn has_unix_encoding(self) -> bool
        ensures { result ≡ same_dialect T.Bytes.dialect unix }
    {
        self.as_bytes_path().has_unix_encoding()
    }

    /// Returns the path as on Unix, as [`Utf8Path::with_encoding`] does.
    pub fn with_unix_encoding(self, alloc: Global) -> Result<Utf8UnixPathBuf, AllocError>
        ensures { IfOk result (λ p. p.bytes
            ≡ converted T.Bytes.dialect unix (utf8_bytes self.entry)) }
    {
        self.with_encoding::<Utf8UnixEncoding>(alloc)
    }

    /// Returns the path as on Unix, unless a checked push refuses a name of it or its drive, as
    /// [`Utf8Path::with_encoding_checked`] says.
    pub fn with_unix_encoding_checked(self, alloc: Global) -> Result<Utf8UnixPathBuf, PathError>
        ensures { ConvertsChecked T.Bytes.dialect unix
            (λ p. p.bytes) (utf8_bytes self.entry) result }
    {
        self.with_encoding_checked::<Utf8UnixEncoding>(alloc)
    }

    /// Whether the encoding has the label of Windows; else it has that of Unix.
    pub fn has_windows_encoding(self) -> bool
        ensures { result ≡ same_dialect T.Bytes.dialect windows }
    {
        self.as_bytes_path().has_windows_encoding()
    }

    /// Returns the path as on Windows, as [`Utf8Path::with_encoding`] does.
    pub fn with_windows_encoding(self, alloc: Global) -> Result<Utf8WindowsPathBuf, AllocError>
        ensures { IfOk result (λ p. p.bytes
            ≡ converted T.Bytes.dialect windows (utf8_bytes self.entry)) }
    {
        self.with_encoding::<Utf8WindowsEncoding>(alloc)
    }

    /// Returns the path as on Windows, unless a checked push refuses a name of it or its drive, as
    /// [`Utf8Path::with_encoding_checked`] says.
    pub fn with_windows_encoding_checked(
        self,
        alloc: Global,
    ) -> Result<Utf8WindowsPathBuf, PathError>
        ensures { ConvertsChecked T.Bytes.dialect windows
            (λ p. p.bytes) (utf8_bytes self.entry) result }
    {
        self.with_encoding_checked::<Utf8WindowsEncoding>(alloc)
    }

    /// Whether the encoding is [`Utf8PlatformEncoding`] itself, and not the one that it stands for.
    pub fn has_platform_encoding(self) -> bool
        ensures { result ≡ T.IS_PLATFORM }
    {
        T::IS_PLATFORM
    }

    /// Returns the path as on the machine, as [`Utf8Path::with_encoding`] does.
    pub fn with_platform_encoding(self, alloc: Global) -> Result<Utf8PlatformPathBuf, AllocError>
        ensures { IfOk result (λ p. p.bytes
            ≡ converted T.Bytes.dialect platform (utf8_bytes self.entry)) }
    {
        self.with_encoding::<Utf8PlatformEncoding>(alloc)
    }

    /// Returns the path as on the machine, unless a checked push refuses a name of it or its drive,
    /// as [`Utf8Path::with_encoding_checked`] says.
    pub fn with_platform_encoding_checked(
        self,
        alloc: Global,
    ) -> Result<Utf8PlatformPathBuf, PathError>
        ensures { ConvertsChecked T.Bytes.dialect platform
            (λ p. p.bytes) (utf8_bytes self.entry) result }
    {
        self.with_encoding_checked::<Utf8PlatformEncoding>(alloc)
    }

    /// Returns the normal path of this path if it is absolute, else that of `directory`, written in
    /// this path's encoding, with this path pushed onto it.
    ///
    /// # Errors
    ///
    /// `Ambiguous` if the path is absolute neither by itself nor after the directory. `OutOfMemory`
    /// if allocation fails.
    pub fn absolutize(
        self,
        alloc: Global,
        directory: Utf8PlatformPath<'_>,
    ) -> Result<Utf8PathBuf<T>, AbsolutizeError>
        ensures { Absolutizes T.Bytes.dialect (λ p. p.bytes) (utf8_bytes directory.entry)
            (utf8_bytes self.entry) result }
    {
        let absolute = self
            .as_bytes_path()
            .absolutize(alloc, directory.as_bytes_path());
        owned!(absolute)
    }

    /// Returns what [`Utf8Path::absolutize`] returns, but from a directory of any encoding.
    pub fn absolutize_from<U: Utf8Encoding>(
        self,
        alloc: Global,
        directory: Utf8Path<'_, U>,
    ) -> Result<Utf8PathBuf<T>, AbsolutizeError>
        ensures { AbsolutizesFrom T.Bytes.dialect U.Bytes.dialect (λ p. p.bytes)
            (utf8_bytes directory.entry) (utf8_bytes self.entry) result }
    {
        let made = self
            .as_bytes_path()
            .absolutize_from(alloc, directory.as_bytes_path());
        owned!(made)
    }
}

impl<'a, T: Utf8Encoding> IntoIterator for Utf8Path<'a, T> {
    ghost use Rattle.typed_path.specs.views.TextViews.{utf8_bytes};
    ghost use Rattle.typed_path.specs.views.ReadingViews.{reading_items, reading_slice};

    type Item = &'a str;

    type IntoIter = Utf8Iter<'a, T>;

    ghost into_iter_gives = { λ path iter. reading_items iter
        ≡ comps T.Bytes.dialect (utf8_bytes path) × reading_slice iter ≡ utf8_bytes path };

    fn into_iter(self) -> Utf8Iter<'a, T> {
        self.iter()
    }
}

/// Prints the text.
impl<'a, T: Utf8Encoding> fmt::Display for Utf8Path<'a, T> {
    ghost use Rattle.typed_path.specs.views.TextViews.{utf8_bytes};

    ghost output = { λ path. Some (utf8_bytes path) };

    fn fmt<W: fmt::Write>(&self, f: &mut fmt::Formatter<W>) -> fmt::Result {
        f.pad(self.as_str())
    }
}

impl<'a, T: Utf8Encoding> fmt::Debug for Utf8Path<'a, T> {
    fn fmt<W: fmt::Write>(&self, f: &mut fmt::Formatter<W>) -> fmt::Result {
        f.debug_struct("Utf8Path")
            .field("_encoding", &T::label())
            .field("inner", &self.as_str())
            .finish()
    }
}

/// The iterator over a path of text, and then each parent of the one before.
pub struct Utf8Ancestors<'a, T: Utf8Encoding> {
    inner: Ancestors<'a, T::Bytes>,
    ghost is_text: { are_texts (ancestors_left inner) ≡ true },
}

impl<'a, T: Utf8Encoding> Clone for Utf8Ancestors<'a, T> {
    ghost is_clone = { λ ancestors copy. copy ≡ ancestors };

    ghost is_infallible = { λ ancestors. ⊤ };

    #[inline(always)]
    fn clone(&self) -> Result<Utf8Ancestors<'a, T>, AllocError> {
        Ok(*self)
    }
}

impl<'a, T: Utf8Encoding> Copy for Utf8Ancestors<'a, T> {}

impl<'a, T: Utf8Encoding> Utf8Ancestors<'a, T> {
    ghost use Rattle.typed_path.specs.views.TextViews.{utf8_bytes};
    ghost use Rattle.typed_path.specs.views.TextAncestorViews.{utf8_ancestors_left};

    /// Returns an iterator over `path` and the paths above it.
    #[inline(always)]
    pub(super) fn new(path: Utf8Path<'a, T>) -> Utf8Ancestors<'a, T>
        ensures { utf8_ancestors_left result
            ≡ ancestors_of T.Bytes.dialect (utf8_bytes path.entry) }
    {
        Utf8Ancestors {
            inner: path.as_bytes_path().ancestors(),
        }
    }
}

impl<'a, T: Utf8Encoding> Iterator for Utf8Ancestors<'a, T> {
    ghost use Rattle.typed_path.specs.views.TextViews.{utf8_bytes};
    ghost use Rattle.typed_path.specs.views.TextAncestorViews.{utf8_ancestors_left};

    type Item = Utf8Path<'a, T>;

    ghost next_gives = { YieldsFirstBy utf8_bytes utf8_ancestors_left };

    ghost remaining = { item_count utf8_ancestors_left };

    #[inline(always)]
    fn next(&mut self) -> Option<Utf8Path<'a, T>> {
        Utf8Path::of_option(self.inner.next())
    }
}

impl<'a, T: Utf8Encoding> FusedIterator for Utf8Ancestors<'a, T> {}

impl<'a, T: Utf8Encoding> fmt::Debug for Utf8Ancestors<'a, T> {
    fn fmt<W: fmt::Write>(&self, f: &mut fmt::Formatter<W>) -> fmt::Result {
        let mut ancestors = *self;
        f.debug_struct("Utf8Ancestors")
            .field("next", &ancestors.next())
            .finish()
    }
}
