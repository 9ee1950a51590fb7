//! Borrowed paths whose dialect is chosen at run time.

ghost use Rattle.std.specs.Prelude.{◌≡◌, [], IfOk, IsOk, Ok, not, IfSome, option_map, option_copied};
ghost use Rattle.typed_path.specs.typed.{kind_dialect, derived_dialect, typed_dialect};
ghost use Rattle.typed_path.specs.typed.Outcomes.{JoinsChecked, JoinsPortable, LeadsFrom, Normalizes, ConvertsChecked, Absolutizes, AbsolutizesFrom};
ghost use Rattle.typed_path.specs.views.TypedViews.{typed_bytes, owned_bytes, typed_items, typed_slice, typed_iter_items, typed_iter_slice, typed_ancestors_left, typed_displayed, reading_dialect};
ghost use Rattle.typed_path.specs.components.{unix, windows, kinds, comps, parts_of};
ghost use Rattle.typed_path.specs.views.OffenceViews.{offence_of};
ghost use Rattle.typed_path.specs.changes.{error_of, with_file_name, with_extension, with_added_extension};
ghost use Rattle.typed_path.specs.conversions.{converted};
ghost use Rattle.typed_path.specs.places.{clean_text, is_within};
ghost use Rattle.typed_path.specs.order.{lowered};
ghost use Rattle.typed_path.specs.typed.Orders.{lowered_typed_cmp, lowered_typed_eq};
ghost use Rattle.typed_path.specs.promises.{keeps_prefix};
ghost use Rattle.typed_path.specs.views.PathViews.{path_bytes};
ghost use Rattle.typed_path.specs.changes.Push as push_spec;
ghost use Rattle.std.specs.Str.{IsUtf8};
ghost use Rattle.std.specs.Str.Lossy.{utf8_lossy};
ghost use Rattle.std.specs.Cow.{cow_str_bytes, IsBorrowedStr};
ghost use Rattle.typed_path.specs.queries.{is_absolute, has_root, is_portable, may_be_device, portable_fault, unportable, parent_of, file_name_of, file_stem_of, stripped, path_starts_with, path_ends_with, ancestors_of, stripped_to, text_of_bytes, extension, file_prefix_of, has_trailing_separator, simplified_text, common_ancestor_of};

use crate::common::{Ancestors, Display, Iter, Path};
use crate::errors::{AbsolutizeError, JoinError, PathError, PortableError, StripPrefixError};
use crate::platform::PlatformPath;
use crate::typed::path_buf::TypedPathBuf;
use crate::typed::reading::TypedComponents;
use crate::typed::variant::{
    PathType, Typed, each, made_as, typed, typed_option, typed_option_result, typed_result,
};
use crate::unix::{UnixEncoding, UnixPath};
use crate::windows::{WindowsEncoding, WindowsPath};
use std::alloc::{AllocError, Global};
use std::borrow::CowStr;
use std::cmp::Ordering;

/// A path of Unix or of Windows: a slice of bytes, with the dialect by which it is read.
pub type TypedPath<'a> = Typed<UnixPath<'a>, WindowsPath<'a>>;

/// The iterator over the texts of the components of a path, from either end.
pub type TypedIter<'a> = Typed<Iter<'a, UnixEncoding>, Iter<'a, WindowsEncoding>>;

/// The iterator over a path, and then each parent of the one before.
pub type TypedAncestors<'a> = Typed<Ancestors<'a, UnixEncoding>, Ancestors<'a, WindowsEncoding>>;

/// A path to be printed: as text, with U+FFFD for what is not UTF-8.
pub type TypedDisplay<'a> = Typed<Display<'a, UnixEncoding>, Display<'a, WindowsEncoding>>;

impl<'a> TypedPath<'a> {
    /// The path of these bytes, in the dialect `kind`.
    #[inline(always)]
    pub fn new(bytes: &'a [u8], kind: PathType) -> TypedPath<'a>
        ensures dialect { typed_dialect result ≡ kind_dialect kind }
        ensures bytes { typed_bytes result ≡ bytes.now }
    {
        made_as!(kind, Path::new(bytes))
    }

    /// The Unix path of these bytes.
    #[inline(always)]
    pub fn unix(bytes: &'a [u8]) -> TypedPath<'a>
        ensures dialect { typed_dialect result ≡ unix }
        ensures bytes { typed_bytes result ≡ bytes.now }
    {
        Typed::Unix(Path::new(bytes))
    }

    /// The Windows path of these bytes.
    #[inline(always)]
    pub fn windows(bytes: &'a [u8]) -> TypedPath<'a>
        ensures dialect { typed_dialect result ≡ windows }
        ensures bytes { typed_bytes result ≡ bytes.now }
    {
        Typed::Windows(Path::new(bytes))
    }

    /// The path of these bytes, in the dialect that [`PathType::derive`] says they look like.
    #[inline]
    pub fn derive(bytes: &'a [u8]) -> TypedPath<'a>
        ensures dialect { typed_dialect result ≡ derived_dialect bytes.now }
        ensures bytes { typed_bytes result ≡ bytes.now }
    {
        TypedPath::new(bytes, PathType::derive(bytes))
    }

    /// The bytes of the path.
    #[inline(always)]
    pub fn as_bytes(self) -> &'a [u8]
        ensures { result.now ≡ typed_bytes self.entry }
    {
        each!(self, path => path.as_bytes())
    }

    /// Returns the path as text if it is UTF-8, else `None`.
    pub fn to_str(self) -> Option<&'a str>
        ensures { option_copied result ≡ text_of_bytes (typed_bytes self.entry) }
    {
        each!(self, path => path.to_str())
    }

    /// Returns the path as text, with U+FFFD for what is not UTF-8. If all of it is UTF-8, the text
    /// is borrowed and nothing is allocated.
    pub fn to_string_lossy(self, alloc: Global) -> Result<CowStr<'a>, AllocError>
        ensures text { IfOk result
            (λ text. cow_str_bytes text ≡ utf8_lossy (typed_bytes self.entry)) }
        ensures lent { IsUtf8 (typed_bytes self.entry) → IfOk result IsBorrowedStr }
        ensures succeeds { IsUtf8 (typed_bytes self.entry) → IsOk result }
    {
        each!(self, path => path.to_string_lossy(alloc))
    }

    /// Returns the path as a value that prints it.
    pub fn display(self) -> TypedDisplay<'a>
        ensures dialect { typed_dialect result ≡ typed_dialect self.entry }
        ensures bytes { typed_displayed result ≡ typed_bytes self.entry }
    {
        typed!(self, path => path.display())
    }

    /// Whether the path is absolute: on Unix it begins with a root; on Windows with a server and a
    /// share, as `\\s\h`, or with a prefix of another kind and a root right after that, as `C:\`.
    pub fn is_absolute(self) -> bool
        ensures { result ≡ is_absolute (typed_dialect self.entry)
            (kinds (parts_of (typed_dialect self.entry) (typed_bytes self.entry))) }
    {
        each!(self, path => path.is_absolute())
    }

    /// Whether the path is not absolute.
    pub fn is_relative(self) -> bool
        ensures { result ≡ not (is_absolute (typed_dialect self.entry)
            (kinds (parts_of (typed_dialect self.entry) (typed_bytes self.entry)))) }
    {
        each!(self, path => path.is_relative())
    }

    /// Whether the path has a root: one written first or right after the prefix, as in `C:\a`, or
    /// one implied by a prefix other than `C:` and `\\?\C:`.
    pub fn has_root(self) -> bool
        ensures { result ≡ has_root (typed_dialect self.entry)
            (kinds (parts_of (typed_dialect self.entry) (typed_bytes self.entry))) }
    {
        each!(self, path => path.has_root())
    }

    /// Whether some version of Windows may take a name of the path for a device, as `nul .txt`.
    pub fn may_be_device(self) -> bool
        ensures { result ≡ may_be_device (typed_dialect self.entry) (typed_bytes self.entry) }
    {
        each!(self, path => path.may_be_device())
    }

    /// Whether the path has no prefix and every system takes each of its names as it is written, as
    /// [`TypedPath::check_portable`] finds. Roots, `.` and `..` are accepted.
    pub fn is_portable(self) -> bool
        ensures { result ≡ is_portable (typed_dialect self.entry) (typed_bytes self.entry) }
    {
        each!(self, path => path.is_portable())
    }

    /// Checks that the path has no prefix, and that every system takes each of its names as it is
    /// written, as [`Path::check_portable`] does.
    ///
    /// # Errors
    ///
    /// The refusal of the first component that offends.
    pub fn check_portable(self) -> Result<(), PortableError>
        ensures { error_of result ≡ portable_fault (typed_dialect self.entry) (typed_bytes self.entry) }
    {
        each!(self, path => path.check_portable())
    }

    /// Returns the first component that is not portable, and why; `None` if the path is portable.
    ///
    /// It has its bytes as in the path; the error is that of [`TypedPath::check_portable`].
    pub fn unportable(self) -> Option<(&'a [u8], PortableError)>
        ensures { option_map offence_of result
            ≡ unportable (typed_dialect self.entry) (typed_bytes self.entry) }
    {
        each!(self, path => path.unportable())
    }

    /// Whether each path that a checked join makes of this one is known to have the prefix of this
    /// one, or none if this one has none. `false` leaves it open.
    pub fn keeps_prefix(self) -> bool
        ensures { result ≡ keeps_prefix (typed_dialect self.entry) (typed_bytes self.entry) }
    {
        each!(self, path => path.keeps_prefix())
    }

    /// Returns a path of a verbatim drive of Windows, `\\?\C:`, without its `\\?\`, if that means
    /// the same to Windows; else, as of every Unix path, the path itself.
    pub fn simplified(self) -> TypedPath<'a>
        ensures dialect { typed_dialect result ≡ typed_dialect self.entry }
        ensures bytes { typed_bytes result
            ≡ simplified_text (typed_dialect self.entry) (typed_bytes self.entry) }
    {
        match self {
            Typed::Unix(_) => self,
            Typed::Windows(path) => Typed::Windows(path.simplified()),
        }
    }

    /// Returns the path without its last component. `None` if it has no component, or if nothing is
    /// above the last one: a root or, on Windows, a prefix other than a drive `C:`.
    pub fn parent(self) -> Option<TypedPath<'a>>
        ensures dialect { IfSome result (λ p. typed_dialect p ≡ typed_dialect self.entry) }
        ensures bytes { option_map typed_bytes result
            ≡ parent_of (typed_dialect self.entry) (typed_bytes self.entry) }
    {
        typed_option!(self, path => path.parent())
    }

    /// Returns an iterator over the path, and then each parent of the one before.
    #[inline(always)]
    pub fn ancestors(self) -> TypedAncestors<'a>
        ensures dialect { typed_dialect result ≡ typed_dialect self.entry }
        ensures left { typed_ancestors_left result
            ≡ ancestors_of (typed_dialect self.entry) (typed_bytes self.entry) }
    {
        typed!(self, path => path.ancestors())
    }

    /// Returns the last component if it is a name, else `None`.
    pub fn file_name(self) -> Option<&'a [u8]>
        ensures { option_copied result
            ≡ file_name_of (typed_dialect self.entry) (typed_bytes self.entry) }
    {
        each!(self, path => path.file_name())
    }

    /// Returns the file name up to its last dot, or the whole file name if it has no dot but one at
    /// its start. `None` if the path has no file name.
    pub fn file_stem(self) -> Option<&'a [u8]>
        ensures { option_copied result
            ≡ file_stem_of (typed_dialect self.entry) (typed_bytes self.entry) }
    {
        each!(self, path => path.file_stem())
    }

    /// Returns what follows the last dot of the file name. `None` if the path has no file name, or
    /// that has no dot but one at its start.
    pub fn extension(self) -> Option<&'a [u8]>
        ensures { option_copied result
            ≡ extension (typed_dialect self.entry) (typed_bytes self.entry) }
    {
        each!(self, path => path.extension())
    }

    /// Returns the file name up to its first dot that is not at its start, or the whole file name
    /// if it has none. `None` if the path has no file name.
    pub fn file_prefix(self) -> Option<&'a [u8]>
        ensures { option_copied result
            ≡ file_prefix_of (typed_dialect self.entry) (typed_bytes self.entry) }
    {
        each!(self, path => path.file_prefix())
    }

    /// Whether the last byte is a separator of the path, as that of `a/`, and of `/` alone. On
    /// Windows `/` is no separator if the path begins with `\\?\`.
    pub fn has_trailing_separator(self) -> bool
        ensures { result ≡ has_trailing_separator (typed_dialect self.entry) (typed_bytes self.entry) }
    {
        each!(self, path => path.has_trailing_separator())
    }

    /// Returns what is left of the path after `base`, read in the same dialect.
    ///
    /// # Errors
    ///
    /// `StripPrefixError` exactly if the path does not begin with the components of `base`,
    /// compared as they are written.
    pub fn strip_prefix(self, base: &[u8]) -> Result<TypedPath<'a>, StripPrefixError>
        ensures dialect { IfOk result (λ p. typed_dialect p ≡ typed_dialect self.entry) }
        ensures bytes { stripped_to typed_bytes result
            ≡ stripped (typed_dialect self.entry) (typed_bytes self.entry) base.now }
    {
        typed_result!(self, path => path.strip_prefix(Path::new(base)))
    }

    /// Whether the path begins with the components of `base`, read in the same dialect and compared
    /// as they are written: on Windows `C:/a` begins with `C:\`, and `c:\a` does not.
    pub fn starts_with(self, base: &[u8]) -> bool
        ensures { result
            ≡ path_starts_with (typed_dialect self.entry) (typed_bytes self.entry) base.now }
    {
        each!(self, path => path.starts_with(Path::new(base)))
    }

    /// Whether the path begins with the components of `base`, as both are written in lower case.
    ///
    /// `base` is read in the same dialect.
    pub fn starts_with_ignore_ascii_case(self, base: &[u8]) -> bool
        ensures { result ≡ path_starts_with (typed_dialect self.entry)
            (lowered (typed_dialect self.entry) (typed_bytes self.entry))
            (lowered (typed_dialect self.entry) base.now) }
    {
        each!(self, path => path.starts_with_ignore_ascii_case(Path::new(base)))
    }

    /// Whether the path is of the dialect of `other`, and has the same components in lower case.
    pub fn eq_ignore_ascii_case(self, other: TypedPath<'_>) -> bool
        ensures { result ≡ lowered_typed_eq (typed_dialect self.entry) (typed_bytes self.entry)
            (typed_dialect other.entry) (typed_bytes other.entry) }
    {
        self.cmp_ignore_ascii_case(other).is_eq()
    }

    /// Returns the order of the path and `other`: of one dialect, by their components in lower
    /// case; else a Unix path is less than a Windows path.
    pub fn cmp_ignore_ascii_case(self, other: TypedPath<'_>) -> Ordering
        ensures { result ≡ lowered_typed_cmp (typed_dialect self.entry) (typed_bytes self.entry)
            (typed_dialect other.entry) (typed_bytes other.entry) }
    {
        match (self, other) {
            (Typed::Unix(path), Typed::Unix(other)) => path.cmp_ignore_ascii_case(other),
            (Typed::Windows(path), Typed::Windows(other)) => path.cmp_ignore_ascii_case(other),
            (Typed::Unix(_), Typed::Windows(_)) => Ordering::Less,
            (Typed::Windows(_), Typed::Unix(_)) => Ordering::Greater,
        }
    }

    /// Returns the leading components that both paths share, compared as they are written, as the
    /// front of this path up to the end of the last one; `None` if they share none. `other` is read
    /// in the same dialect.
    pub fn common_ancestor(self, other: &[u8]) -> Option<TypedPath<'a>>
        ensures dialect { IfSome result (λ p. typed_dialect p ≡ typed_dialect self.entry) }
        ensures bytes { option_map typed_bytes result
            ≡ common_ancestor_of (typed_dialect self.entry) (typed_bytes self.entry) other.now }
    {
        typed_option!(self, path => path.common_ancestor(Path::new(other)))
    }

    /// Whether the path lies at `base` or below it, whichever directory both are read from.
    ///
    /// `base` is read in the same dialect. [`crate::Path::is_within`] says what that is on Windows.
    pub fn is_within(self, base: &[u8]) -> bool
        ensures { result ≡ is_within (typed_dialect self.entry) (typed_bytes self.entry) base.now }
    {
        each!(self, path => path.is_within(Path::new(base)))
    }

    /// Returns the path from `base`, read in the same dialect, to this one: `..` and then names, or
    /// `Ok(None)` if [`Path::relative_to`] finds none. On Windows it leads here, joined to `base`,
    /// under the conditions that stand there.
    pub fn relative_to(self, alloc: Global, base: &[u8]) -> Result<Option<TypedPathBuf>, AllocError>
        ensures dialect { IfOk result (λ found. IfSome found
            (λ p. typed_dialect p ≡ typed_dialect self.entry)) }
        ensures leads { LeadsFrom (typed_dialect self.entry) owned_bytes base.now
            (typed_bytes self.entry) result }
    {
        typed_option_result!(self, path => path.relative_to(alloc, Path::new(base)))
    }

    /// Whether the path ends with the components of `end`, read in the same dialect and compared as
    /// they are written.
    pub fn ends_with(self, end: &[u8]) -> bool
        ensures { result
            ≡ path_ends_with (typed_dialect self.entry) (typed_bytes self.entry) end.now }
    {
        each!(self, path => path.ends_with(Path::new(end)))
    }

    /// Returns an iterator over the components of the path, from either end.
    #[inline(always)]
    pub fn components(self) -> TypedComponents<'a>
        ensures dialect { reading_dialect result ≡ typed_dialect self.entry }
        ensures items { typed_items result
            ≡ comps (typed_dialect self.entry) (typed_bytes self.entry) }
        ensures slice { typed_slice result ≡ typed_bytes self.entry }
    {
        TypedComponents::new(self)
    }

    /// Returns an iterator over the texts of the components, from either end: a root is `/` or `\`.
    #[inline(always)]
    pub fn iter(self) -> TypedIter<'a>
        ensures dialect { typed_dialect result ≡ typed_dialect self.entry }
        ensures items { typed_iter_items result
            ≡ comps (typed_dialect self.entry) (typed_bytes self.entry) }
        ensures slice { typed_iter_slice result ≡ typed_bytes self.entry }
    {
        typed!(self, path => path.iter())
    }

    /// A copy that owns its bytes.
    pub fn to_path_buf(self, alloc: Global) -> Result<TypedPathBuf, AllocError>
        ensures dialect { IfOk result (λ p. typed_dialect p ≡ typed_dialect self.entry) }
        ensures bytes { IfOk result (λ p. owned_bytes p ≡ typed_bytes self.entry) }
        ensures succeeds { typed_bytes self.entry ≡ [] → IsOk result }
    {
        typed_result!(self, path => path.to_path_buf(alloc))
    }

    /// Returns this path with `path`, read in the same dialect, pushed onto it: one with a prefix
    /// replaces it, one with a root all of it but its prefix, and an empty one makes a copy.
    pub fn join(self, alloc: Global, path: &[u8]) -> Result<TypedPathBuf, AllocError>
        ensures dialect { IfOk result (λ p. typed_dialect p ≡ typed_dialect self.entry) }
        ensures joined { IfOk result (λ p. owned_bytes p
            ≡ push_spec.push (typed_dialect self.entry) (typed_bytes self.entry) path.now) }
    {
        typed_result!(self, base => base.join(alloc, Path::new(path)))
    }

    /// Returns this path with `path`, read in the same dialect, pushed onto it, unless a component
    /// of `path` offends.
    ///
    /// The result lies within this path if it has the prefix of this one. A `path` that offends is
    /// refused for that, however little memory there is.
    ///
    /// # Errors
    ///
    /// Those of [`Path::join_checked`].
    pub fn join_checked(self, alloc: Global, path: &[u8]) -> Result<TypedPathBuf, PathError>
        ensures dialect { IfOk result (λ p. typed_dialect p ≡ typed_dialect self.entry) }
        ensures joined { JoinsChecked (typed_dialect self.entry) owned_bytes
            (typed_bytes self.entry) path.now result }
    {
        typed_result!(self, base => base.join_checked(alloc, Path::new(path)))
    }

    /// Returns this path with `path`, read in the same dialect, pushed onto it, unless `path` is
    /// not portable or a component of it offends.
    ///
    /// # Errors
    ///
    /// Those of [`Path::join_portable`].
    pub fn join_portable(self, alloc: Global, path: &[u8]) -> Result<TypedPathBuf, JoinError>
        ensures dialect { IfOk result (λ p. typed_dialect p ≡ typed_dialect self.entry) }
        ensures joined { JoinsPortable (typed_dialect self.entry) owned_bytes
            (typed_bytes self.entry) path.now result }
    {
        typed_result!(self, base => base.join_portable(alloc, Path::new(path)))
    }

    /// Returns a copy without its file name, if it has one, and with `name` pushed onto that, as
    /// [`TypedPath::join`] pushes: one with a prefix replaces what is there, one with a root all
    /// but the prefix, and an empty one adds nothing.
    pub fn with_file_name(self, alloc: Global, name: &[u8]) -> Result<TypedPathBuf, AllocError>
        ensures dialect { IfOk result (λ p. typed_dialect p ≡ typed_dialect self.entry) }
        ensures bytes { IfOk result (λ p. owned_bytes p
            ≡ with_file_name (typed_dialect self.entry) (typed_bytes self.entry) name.now) }
    {
        typed_result!(self, path => path.with_file_name(alloc, name))
    }

    /// Returns a copy whose file name has another extension, or none if `extension` is empty.
    /// Without a file name it is an unchanged copy.
    pub fn with_extension(self, alloc: Global, extension: &[u8]) -> Result<TypedPathBuf, AllocError>
        ensures dialect { IfOk result (λ p. typed_dialect p ≡ typed_dialect self.entry) }
        ensures bytes { IfOk result (λ p. owned_bytes p
            ≡ with_extension (typed_dialect self.entry) (typed_bytes self.entry) extension.now) }
    {
        typed_result!(self, path => path.with_extension(alloc, extension))
    }

    /// Returns a copy with `extension` appended to its file name, after a dot. Without a file name,
    /// or with an empty extension, it is an unchanged copy.
    pub fn with_added_extension(
        self,
        alloc: Global,
        extension: &[u8],
    ) -> Result<TypedPathBuf, AllocError>
        ensures dialect { IfOk result (λ p. typed_dialect p ≡ typed_dialect self.entry) }
        ensures bytes { IfOk result (λ p. owned_bytes p
            ≡ with_added_extension (typed_dialect self.entry) (typed_bytes self.entry) extension.now) }
    {
        typed_result!(self, path => path.with_added_extension(alloc, extension))
    }

    /// Returns the path without `.`, and without `..` and the names that these cancel, in the form
    /// of [`Path::normalize`].
    pub fn normalize(self, alloc: Global) -> Result<TypedPathBuf, AllocError>
        ensures dialect { IfOk result (λ p. typed_dialect p ≡ typed_dialect self.entry) }
        ensures normal { Normalizes (typed_dialect self.entry) owned_bytes (typed_bytes self.entry)
            result }
    {
        typed_result!(self, path => path.normalize(alloc))
    }

    /// Returns the path without `.`, doubled separators, a last separator that is no root, and
    /// names that a `..` cancels; on Windows with `\` for each separator after the prefix, as
    /// [`Path::clean`] does.
    pub fn clean(self, alloc: Global) -> Result<TypedPathBuf, AllocError>
        ensures dialect { IfOk result (λ p. typed_dialect p ≡ typed_dialect self.entry) }
        ensures bytes { IfOk result (λ p. owned_bytes p
            ≡ clean_text (typed_dialect self.entry) (typed_bytes self.entry)) }
    {
        typed_result!(self, path => path.clean(alloc))
    }

    /// Returns the path with each ASCII letter in lower case, except on Windows the `UNC` of
    /// `\\?\UNC\` before a server, as [`Path::to_ascii_lowercase`] does.
    pub fn to_ascii_lowercase(self, alloc: Global) -> Result<TypedPathBuf, AllocError>
        ensures dialect { IfOk result (λ p. typed_dialect p ≡ typed_dialect self.entry) }
        ensures bytes { IfOk result (λ p. owned_bytes p
            ≡ lowered (typed_dialect self.entry) (typed_bytes self.entry)) }
    {
        typed_result!(self, path => path.to_ascii_lowercase(alloc))
    }

    /// Returns the normal path of this path if it is absolute, else that of `directory`, written in
    /// this path's dialect, with this path pushed onto it.
    ///
    /// # Errors
    ///
    /// `Ambiguous` if the path is absolute neither by itself nor after the directory, as every
    /// Windows path without a prefix is after `/home/u`. `OutOfMemory` if allocation fails.
    pub fn absolutize(
        self,
        alloc: Global,
        directory: PlatformPath<'_>,
    ) -> Result<TypedPathBuf, AbsolutizeError>
        ensures dialect { IfOk result (λ p. typed_dialect p ≡ typed_dialect self.entry) }
        ensures absolute { Absolutizes (typed_dialect self.entry) owned_bytes
            (path_bytes directory.entry) (typed_bytes self.entry) result }
    {
        typed_result!(self, path => path.absolutize(alloc, directory))
    }

    /// Returns the normal path of this path if it is absolute, else that of `directory`, written in
    /// this path's dialect, with this path pushed onto it.
    ///
    /// The directory is of either dialect.
    ///
    /// # Errors
    ///
    /// `Ambiguous` if the path is absolute neither by itself nor after the directory. `OutOfMemory`
    /// if allocation fails.
    pub fn absolutize_from(
        self,
        alloc: Global,
        directory: TypedPath<'_>,
    ) -> Result<TypedPathBuf, AbsolutizeError>
        ensures dialect { IfOk result (λ p. typed_dialect p ≡ typed_dialect self.entry) }
        ensures absolute { AbsolutizesFrom (typed_dialect self.entry) (typed_dialect directory.entry)
            owned_bytes (typed_bytes directory.entry) (typed_bytes self.entry) result }
    {
        match directory {
            Typed::Unix(unix) => typed_result!(self, path => path.absolutize_from(alloc, unix)),
            Typed::Windows(windows) => {
                typed_result!(self, path => path.absolutize_from(alloc, windows))
            }
        }
    }

    /// Returns the path as on Unix: a copy if it is a Unix path, else as [`Path::with_encoding`]
    /// does.
    pub fn with_unix_encoding(self, alloc: Global) -> Result<TypedPathBuf, AllocError>
        ensures dialect { IfOk result (λ p. typed_dialect p ≡ unix) }
        ensures bytes { IfOk result (λ p. owned_bytes p
            ≡ converted (typed_dialect self.entry) unix (typed_bytes self.entry)) }
    {
        Ok(Typed::Unix(each!(self, path => path.with_unix_encoding(alloc))?))
    }

    /// Returns the path as on Unix, unless a checked push refuses a name of it or its drive.
    ///
    /// Each name and each drive is put by a checked push, all else by a plain one, even if it is a
    /// Unix path.
    ///
    /// # Errors
    ///
    /// Those of [`Path::with_encoding_checked`].
    pub fn with_unix_encoding_checked(self, alloc: Global) -> Result<TypedPathBuf, PathError>
        ensures dialect { IfOk result (λ p. typed_dialect p ≡ unix) }
        ensures converted { ConvertsChecked (typed_dialect self.entry) unix owned_bytes
            (typed_bytes self.entry) result }
    {
        Ok(Typed::Unix(each!(self, path => path.with_unix_encoding_checked(alloc))?))
    }

    /// Returns the path as on Windows: a copy if it is a Windows path, else as
    /// [`Path::with_encoding`] does.
    pub fn with_windows_encoding(self, alloc: Global) -> Result<TypedPathBuf, AllocError>
        ensures dialect { IfOk result (λ p. typed_dialect p ≡ windows) }
        ensures bytes { IfOk result (λ p. owned_bytes p
            ≡ converted (typed_dialect self.entry) windows (typed_bytes self.entry)) }
    {
        Ok(Typed::Windows(each!(self, path => path.with_windows_encoding(alloc))?))
    }

    /// Returns the path as on Windows, unless a checked push refuses a name of it or its drive.
    ///
    /// Each name and each drive is put by a checked push, all else by a plain one, even if it is a
    /// Windows path. So the Windows path `C:\a` is refused, and no component `..` is.
    ///
    /// # Errors
    ///
    /// Those of [`Path::with_encoding_checked`].
    pub fn with_windows_encoding_checked(self, alloc: Global) -> Result<TypedPathBuf, PathError>
        ensures dialect { IfOk result (λ p. typed_dialect p ≡ windows) }
        ensures converted { ConvertsChecked (typed_dialect self.entry) windows owned_bytes
            (typed_bytes self.entry) result }
    {
        Ok(Typed::Windows(each!(self, path => path.with_windows_encoding_checked(alloc))?))
    }
}

/// The path of these bytes, in the dialect that they look like.
impl<'a> From<&'a [u8]> for TypedPath<'a> {
    ghost from_gives = { λ bytes path. (typed_dialect path ≡ derived_dialect bytes.now)
        × (typed_bytes path ≡ bytes.now) };

    fn from(bytes: &'a [u8]) -> TypedPath<'a> {
        TypedPath::derive(bytes)
    }
}

/// The path of this text, in the dialect that it looks like.
impl<'a> From<&'a str> for TypedPath<'a> {
    ghost from_gives = { λ text path. (typed_dialect path ≡ derived_dialect text.now)
        × (typed_bytes path ≡ text.now) };

    fn from(text: &'a str) -> TypedPath<'a> {
        TypedPath::derive(text.as_bytes())
    }
}
