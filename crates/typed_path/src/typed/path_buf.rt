//! Owned paths whose dialect is chosen at run time.

ghost use Rattle.std.specs.Prelude.{◌≡◌, [], IfOk, IsOk, not, Ok, Err, Some, None, IfSome, option_map, option_copied, Option, IfErr, is_ok};
ghost use Rattle.std.specs.Vec.{vec_capacity};
ghost use Rattle.std.specs.Str.{IsUtf8};
ghost use Rattle.std.specs.Str.Lossy.{utf8_lossy};
ghost use Rattle.std.specs.Cow.{cow_str_bytes, IsBorrowedStr};
ghost use Rattle.typed_path.specs.components.{unix, windows, kinds, comps, parts_of};
ghost use Rattle.typed_path.specs.typed.{kind_dialect, derived_dialect, typed_dialect, KeepsDialect, held_unix, held_windows};
ghost use Rattle.typed_path.specs.typed.Outcomes.{Pushes, PushesChecked, Pops, SetsFileName, SetsExtension, Clears, Reserves, ReservesExactly, ShrinksTo, JoinsChecked, JoinsPortable, Normalizes, ConvertsChecked, Absolutizes, AbsolutizesFrom, AddsExtension, LeadsFrom};
ghost use Rattle.typed_path.specs.views.TypedViews.{typed_bytes, typed_owned, owned_bytes, typed_items, typed_slice, typed_iter_items, typed_iter_slice, typed_ancestors_left, reading_dialect};
ghost use Rattle.typed_path.specs.queries.{is_absolute, has_root, is_portable, may_be_device, portable_fault, unportable, parent_of, file_name_of, file_stem_of, extension, stripped, path_starts_with, path_ends_with, ancestors_of, stripped_to, text_of_bytes, file_prefix_of, has_trailing_separator, simplified_text, common_ancestor_of};
ghost use Rattle.typed_path.specs.views.OffenceViews.{offence_of};
ghost use Rattle.typed_path.specs.changes.{error_of, with_file_name, with_extension, with_added_extension};
ghost use Rattle.typed_path.specs.conversions.{converted, same_dialect};
ghost use Rattle.typed_path.specs.places.{clean_text, is_within};
ghost use Rattle.typed_path.specs.order.{lowered};
ghost use Rattle.typed_path.specs.typed.Orders.{lowered_typed_cmp, lowered_typed_eq};
ghost use Rattle.typed_path.specs.promises.{keeps_prefix};
ghost use Rattle.typed_path.specs.views.PathViews.{path_bytes};
ghost use Rattle.typed_path.specs.changes.Push as push_spec;
ghost use Rattle.std.specs.String.{string_bytes, string_capacity};

use crate::common::{Path, PathBuf};
use crate::errors::{AbsolutizeError, JoinError, PathError, PortableError, StripPrefixError};
use crate::platform::PlatformPath;
use crate::typed::path::{TypedAncestors, TypedIter, TypedPath};
use crate::typed::reading::TypedComponents;
use crate::typed::variant::{PathType, Typed, each, made_as, typed};
use crate::unix::{UnixPath, UnixPathBuf};
use crate::windows::{WindowsPath, WindowsPathBuf};
use std::alloc::{AllocError, Global};
use std::borrow::CowStr;
use std::cmp::Ordering;

/// An owned path of Unix or of Windows, which grows.
pub type TypedPathBuf = Typed<UnixPathBuf, WindowsPathBuf>;

impl TypedPathBuf {
    /// The empty path, in the dialect `kind`.
    pub fn new(alloc: Global, kind: PathType) -> TypedPathBuf
        ensures dialect { typed_dialect result ≡ kind_dialect kind }
        ensures bytes { owned_bytes result ≡ [] }
        ensures capacity { (typed_owned result).capacity ≡ 0 }
    {
        made_as!(kind, PathBuf::new(alloc))
    }

    /// The empty Unix path.
    pub fn unix(alloc: Global) -> TypedPathBuf
        ensures dialect { typed_dialect result ≡ unix }
        ensures bytes { owned_bytes result ≡ [] }
        ensures capacity { (typed_owned result).capacity ≡ 0 }
    {
        Typed::Unix(PathBuf::new(alloc))
    }

    /// The empty Windows path.
    pub fn windows(alloc: Global) -> TypedPathBuf
        ensures dialect { typed_dialect result ≡ windows }
        ensures bytes { owned_bytes result ≡ [] }
        ensures capacity { (typed_owned result).capacity ≡ 0 }
    {
        Typed::Windows(PathBuf::new(alloc))
    }

    /// The Unix path of a copy of these bytes.
    pub fn from_unix(alloc: Global, bytes: &[u8]) -> Result<TypedPathBuf, AllocError>
        ensures dialect { IfOk result (λ p. typed_dialect p ≡ unix) }
        ensures bytes { IfOk result (λ p. owned_bytes p ≡ bytes.now) }
        ensures succeeds { bytes.now ≡ [] → IsOk result }
    {
        TypedPath::unix(bytes).to_path_buf(alloc)
    }

    /// The Windows path of a copy of these bytes.
    pub fn from_windows(alloc: Global, bytes: &[u8]) -> Result<TypedPathBuf, AllocError>
        ensures dialect { IfOk result (λ p. typed_dialect p ≡ windows) }
        ensures bytes { IfOk result (λ p. owned_bytes p ≡ bytes.now) }
        ensures succeeds { bytes.now ≡ [] → IsOk result }
    {
        TypedPath::windows(bytes).to_path_buf(alloc)
    }

    /// The path of a copy of these bytes, in the dialect that [`PathType::derive`] says they look
    /// like.
    pub fn from_bytes(alloc: Global, bytes: &[u8]) -> Result<TypedPathBuf, AllocError>
        ensures dialect { IfOk result (λ p. typed_dialect p ≡ derived_dialect bytes.now) }
        ensures bytes { IfOk result (λ p. owned_bytes p ≡ bytes.now) }
        ensures succeeds { bytes.now ≡ [] → IsOk result }
    {
        TypedPath::derive(bytes).to_path_buf(alloc)
    }

    /// The path of a copy of this text, in the dialect that it looks like.
    pub fn from_str(alloc: Global, text: &str) -> Result<TypedPathBuf, AllocError>
        ensures dialect { IfOk result (λ p. typed_dialect p ≡ derived_dialect text.now) }
        ensures bytes { IfOk result (λ p. owned_bytes p ≡ text.now) }
        ensures succeeds { text.now ≡ [] → IsOk result }
    {
        TypedPathBuf::from_bytes(alloc, text.as_bytes())
    }

    /// Borrows the path.
    pub fn to_path(&self) -> TypedPath<'_>
        ensures dialect { typed_dialect result ≡ typed_dialect self.now }
        ensures bytes { typed_bytes result ≡ owned_bytes self.now }
    {
        typed!(self, own => own.as_path())
    }

    /// Pushes `path` onto this one. See [`PathBuf::push`].
    pub fn push(&mut self, path: &[u8]) -> Result<(), AllocError>
        ensures dialect { KeepsDialect self.old self.new }
        ensures pushed { Pushes (typed_dialect self.old) (typed_owned self.old) path.now result
            (typed_owned self.new) }
    {
        each!(self, own => own.push(Path::new(path)))
    }

    /// Pushes `path` onto this one, unless a component of `path` offends. See
    /// [`PathBuf::push_checked`].
    pub fn push_checked(&mut self, path: &[u8]) -> Result<(), PathError>
        ensures dialect { KeepsDialect self.old self.new }
        ensures pushed { PushesChecked (typed_dialect self.old) (typed_owned self.old) path.now
            result (typed_owned self.new) }
    {
        each!(self, own => own.push_checked(Path::new(path)))
    }

    /// Cuts the path to its parent. See [`PathBuf::pop`].
    pub fn pop(&mut self) -> bool
        ensures dialect { KeepsDialect self.old self.new }
        ensures popped { Pops (typed_dialect self.old) (typed_owned self.old) result
            (typed_owned self.new) }
    {
        each!(self, own => own.pop())
    }

    /// Removes the file name, if there is one, and pushes `name` onto what is left. See
    /// [`PathBuf::set_file_name`].
    pub fn set_file_name(&mut self, name: &[u8]) -> Result<(), AllocError>
        ensures dialect { KeepsDialect self.old self.new }
        ensures named { SetsFileName (typed_dialect self.old) (typed_owned self.old) name.now result
            (typed_owned self.new) }
    {
        each!(self, own => own.set_file_name(name))
    }

    /// Replaces the extension of the file name, or removes it if `extension` is empty. See
    /// [`PathBuf::set_extension`].
    pub fn set_extension(&mut self, extension: &[u8]) -> Result<bool, AllocError>
        ensures dialect { KeepsDialect self.old self.new }
        ensures extended { SetsExtension (typed_dialect self.old) (typed_owned self.old)
            extension.now result (typed_owned self.new) }
    {
        each!(self, own => own.set_extension(extension))
    }

    /// Appends a dot and `extension` to the file name. See [`PathBuf::add_extension`].
    pub fn add_extension(&mut self, extension: &[u8]) -> Result<bool, AllocError>
        ensures dialect { KeepsDialect self.old self.new }
        ensures extended { AddsExtension (typed_dialect self.old) (typed_owned self.old)
            extension.now result (typed_owned self.new) }
    {
        each!(self, own => own.add_extension(extension))
    }

    /// Makes the path empty. See [`PathBuf::clear`].
    pub fn clear(&mut self)
        ensures dialect { KeepsDialect self.old self.new }
        ensures cleared { Clears (typed_owned self.old) (typed_owned self.new) }
    {
        each!(self, own => own.clear())
    }

    /// How many bytes the path can hold without allocating, its own included. See
    /// [`PathBuf::capacity`].
    pub fn capacity(&self) -> usize
        ensures { result ≡ (typed_owned self.now).capacity }
    {
        each!(self, own => own.capacity())
    }

    /// Reserves capacity for at least `additional` bytes more. See [`PathBuf::reserve`].
    pub fn reserve(&mut self, additional: usize) -> Result<(), AllocError>
        ensures dialect { KeepsDialect self.old self.new }
        ensures reserved { Reserves (typed_owned self.old) additional result
            (typed_owned self.new) }
    {
        each!(self, own => own.reserve(additional))
    }

    /// Alias of `reserve`, which is fallible already. See [`PathBuf::try_reserve`].
    pub fn try_reserve(&mut self, additional: usize) -> Result<(), AllocError>
        ensures dialect { KeepsDialect self.old self.new }
        ensures reserved { Reserves (typed_owned self.old) additional result
            (typed_owned self.new) }
    {
        each!(self, own => own.try_reserve(additional))
    }

    /// Reserves capacity for `additional` bytes more, and for no more than these if it has to grow.
    /// See [`PathBuf::reserve_exact`].
    pub fn reserve_exact(&mut self, additional: usize) -> Result<(), AllocError>
        ensures dialect { KeepsDialect self.old self.new }
        ensures reserved { ReservesExactly (typed_owned self.old) additional result
            (typed_owned self.new) }
    {
        each!(self, own => own.reserve_exact(additional))
    }

    /// Alias of `reserve_exact`, which is fallible already. See [`PathBuf::try_reserve_exact`].
    pub fn try_reserve_exact(&mut self, additional: usize) -> Result<(), AllocError>
        ensures dialect { KeepsDialect self.old self.new }
        ensures reserved { ReservesExactly (typed_owned self.old) additional result
            (typed_owned self.new) }
    {
        each!(self, own => own.try_reserve_exact(additional))
    }

    /// Gives unused capacity back, as far as a smaller block can be allocated, and never fails. See
    /// [`PathBuf::shrink_to_fit`].
    pub fn shrink_to_fit(&mut self) -> Result<(), AllocError>
        ensures dialect { KeepsDialect self.old self.new }
        ensures shrunk { ShrinksTo (typed_owned self.old) 0 result (typed_owned self.new) }
    {
        each!(self, own => own.shrink_to_fit())
    }

    /// Gives unused capacity above `min_capacity` bytes back, as far as a smaller block can be
    /// allocated, and never fails. See [`PathBuf::shrink_to`].
    pub fn shrink_to(&mut self, min_capacity: usize) -> Result<(), AllocError>
        ensures dialect { KeepsDialect self.old self.new }
        ensures shrunk { ShrinksTo (typed_owned self.old) min_capacity result
            (typed_owned self.new) }
    {
        each!(self, own => own.shrink_to(min_capacity))
    }

    /// The bytes of the path, with no copy. See [`PathBuf::into_vec`].
    pub fn into_vec(self) -> Vec<u8>
        ensures bytes { result.items ≡ owned_bytes self }
        ensures capacity { vec_capacity result ≡ (typed_owned self).capacity }
    {
        each!(self, own => own.into_vec())
    }

    /// The bytes of the path. See [`TypedPath::as_bytes`].
    pub fn as_bytes(&self) -> &[u8]
        ensures { result.now ≡ owned_bytes self.now }
    {
        self.to_path().as_bytes()
    }

    /// Returns the path as text if it is UTF-8, else `None`. See [`TypedPath::to_str`].
    pub fn to_str(&self) -> Option<&str>
        ensures { option_copied result ≡ text_of_bytes (owned_bytes self.now) }
    {
        self.to_path().to_str()
    }

    /// Returns the path as text, with U+FFFD for what is not UTF-8. See
    /// [`TypedPath::to_string_lossy`].
    pub fn to_string_lossy(&self, alloc: Global) -> Result<CowStr<'_>, AllocError>
        ensures text { IfOk result
            (λ text. cow_str_bytes text ≡ utf8_lossy (owned_bytes self.now)) }
        ensures lent { IsUtf8 (owned_bytes self.now) → IfOk result IsBorrowedStr }
        ensures succeeds { IsUtf8 (owned_bytes self.now) → IsOk result }
    {
        self.to_path().to_string_lossy(alloc)
    }

    /// Whether the path is absolute. See [`TypedPath::is_absolute`].
    pub fn is_absolute(&self) -> bool
        ensures { result ≡ is_absolute (typed_dialect self.now)
            (kinds (parts_of (typed_dialect self.now) (owned_bytes self.now))) }
    {
        self.to_path().is_absolute()
    }

    /// Whether the path is not absolute. See [`TypedPath::is_relative`].
    pub fn is_relative(&self) -> bool
        ensures { result ≡ not (is_absolute (typed_dialect self.now)
            (kinds (parts_of (typed_dialect self.now) (owned_bytes self.now)))) }
    {
        self.to_path().is_relative()
    }

    /// Whether the path has a root. See [`TypedPath::has_root`].
    pub fn has_root(&self) -> bool
        ensures { result ≡ has_root (typed_dialect self.now)
            (kinds (parts_of (typed_dialect self.now) (owned_bytes self.now))) }
    {
        self.to_path().has_root()
    }

    /// Whether some version of Windows may take a name of the path for a device, as `nul .txt`. See
    /// [`TypedPath::may_be_device`].
    pub fn may_be_device(&self) -> bool
        ensures { result ≡ may_be_device (typed_dialect self.now) (owned_bytes self.now) }
    {
        self.to_path().may_be_device()
    }

    /// Whether the path has no prefix and every system takes each of its names as it is written.
    /// See [`TypedPath::is_portable`].
    pub fn is_portable(&self) -> bool
        ensures { result ≡ is_portable (typed_dialect self.now) (owned_bytes self.now) }
    {
        self.to_path().is_portable()
    }

    /// Checks that the path has no prefix, and that every system takes each of its names as it is
    /// written. See [`TypedPath::check_portable`].
    pub fn check_portable(&self) -> Result<(), PortableError>
        ensures { error_of result ≡ portable_fault (typed_dialect self.now) (owned_bytes self.now) }
    {
        self.to_path().check_portable()
    }

    /// Returns the first component that is not portable, and why. See [`TypedPath::unportable`].
    pub fn unportable(&self) -> Option<(&[u8], PortableError)>
        ensures { option_map offence_of result
            ≡ unportable (typed_dialect self.now) (owned_bytes self.now) }
    {
        self.to_path().unportable()
    }

    /// Whether each path that a checked join makes of this one is known to have the prefix of this
    /// one, or none if this one has none. See [`TypedPath::keeps_prefix`].
    pub fn keeps_prefix(&self) -> bool
        ensures { result ≡ keeps_prefix (typed_dialect self.now) (owned_bytes self.now) }
    {
        self.to_path().keeps_prefix()
    }

    /// Returns a path of a verbatim drive of Windows, `\\?\C:`, without its `\\?\`, if that means
    /// the same to Windows. See [`TypedPath::simplified`].
    pub fn simplified(&self) -> TypedPath<'_>
        ensures dialect { typed_dialect result ≡ typed_dialect self.now }
        ensures bytes { typed_bytes result
            ≡ simplified_text (typed_dialect self.now) (owned_bytes self.now) }
    {
        self.to_path().simplified()
    }

    /// Returns the path without its last component. See [`TypedPath::parent`].
    pub fn parent(&self) -> Option<TypedPath<'_>>
        ensures dialect { IfSome result (λ p. typed_dialect p ≡ typed_dialect self.now) }
        ensures bytes { option_map typed_bytes result
            ≡ parent_of (typed_dialect self.now) (owned_bytes self.now) }
    {
        self.to_path().parent()
    }

    /// Returns an iterator over the path, and then each parent of the one before. See
    /// [`TypedPath::ancestors`].
    pub fn ancestors(&self) -> TypedAncestors<'_>
        ensures dialect { typed_dialect result ≡ typed_dialect self.now }
        ensures left { typed_ancestors_left result
            ≡ ancestors_of (typed_dialect self.now) (owned_bytes self.now) }
    {
        self.to_path().ancestors()
    }

    /// Returns the last component if it is a name, else `None`. See [`TypedPath::file_name`].
    pub fn file_name(&self) -> Option<&[u8]>
        ensures { option_copied result
            ≡ file_name_of (typed_dialect self.now) (owned_bytes self.now) }
    {
        self.to_path().file_name()
    }

    /// Returns the file name up to its last dot, or the whole file name if it has no dot but one at
    /// its start. See [`TypedPath::file_stem`].
    pub fn file_stem(&self) -> Option<&[u8]>
        ensures { option_copied result
            ≡ file_stem_of (typed_dialect self.now) (owned_bytes self.now) }
    {
        self.to_path().file_stem()
    }

    /// Returns what follows the last dot of the file name. See [`TypedPath::extension`].
    pub fn extension(&self) -> Option<&[u8]>
        ensures { option_copied result ≡ extension (typed_dialect self.now) (owned_bytes self.now) }
    {
        self.to_path().extension()
    }

    /// Returns the file name up to its first dot that is not at its start, or the whole file name
    /// if it has none. See [`TypedPath::file_prefix`].
    pub fn file_prefix(&self) -> Option<&[u8]>
        ensures { option_copied result
            ≡ file_prefix_of (typed_dialect self.now) (owned_bytes self.now) }
    {
        self.to_path().file_prefix()
    }

    /// Whether the last byte is a separator of the path, as that of `a/`, and of `/` alone. See
    /// [`TypedPath::has_trailing_separator`].
    pub fn has_trailing_separator(&self) -> bool
        ensures { result ≡ has_trailing_separator (typed_dialect self.now) (owned_bytes self.now) }
    {
        self.to_path().has_trailing_separator()
    }

    /// Returns what is left of the path after `base`, read in the same dialect. See
    /// [`TypedPath::strip_prefix`].
    pub fn strip_prefix(&self, base: &[u8]) -> Result<TypedPath<'_>, StripPrefixError>
        ensures dialect { IfOk result (λ p. typed_dialect p ≡ typed_dialect self.now) }
        ensures bytes { stripped_to typed_bytes result
            ≡ stripped (typed_dialect self.now) (owned_bytes self.now) base.now }
    {
        self.to_path().strip_prefix(base)
    }

    /// Whether the path begins with the components of `base`, read in the same dialect and compared
    /// as they are written. See [`TypedPath::starts_with`].
    pub fn starts_with(&self, base: &[u8]) -> bool
        ensures { result
            ≡ path_starts_with (typed_dialect self.now) (owned_bytes self.now) base.now }
    {
        self.to_path().starts_with(base)
    }

    /// Whether the path begins with the components of `base`, as both are written in lower case.
    /// See [`TypedPath::starts_with_ignore_ascii_case`].
    pub fn starts_with_ignore_ascii_case(&self, base: &[u8]) -> bool
        ensures { result ≡ path_starts_with (typed_dialect self.now)
            (lowered (typed_dialect self.now) (owned_bytes self.now))
            (lowered (typed_dialect self.now) base.now) }
    {
        self.to_path().starts_with_ignore_ascii_case(base)
    }

    /// Whether the path is of the dialect of `other`, and has the same components in lower case.
    /// See [`TypedPath::eq_ignore_ascii_case`].
    pub fn eq_ignore_ascii_case(&self, other: TypedPath<'_>) -> bool
        ensures { result ≡ lowered_typed_eq (typed_dialect self.now) (owned_bytes self.now)
            (typed_dialect other.entry) (typed_bytes other.entry) }
    {
        self.to_path().eq_ignore_ascii_case(other)
    }

    /// Returns the order of the path and `other`. See [`TypedPath::cmp_ignore_ascii_case`].
    pub fn cmp_ignore_ascii_case(&self, other: TypedPath<'_>) -> Ordering
        ensures { result ≡ lowered_typed_cmp (typed_dialect self.now) (owned_bytes self.now)
            (typed_dialect other.entry) (typed_bytes other.entry) }
    {
        self.to_path().cmp_ignore_ascii_case(other)
    }

    /// Returns the leading components that both paths share, compared as they are written, as the
    /// front of this path up to the end of the last one. See [`TypedPath::common_ancestor`].
    pub fn common_ancestor(&self, other: &[u8]) -> Option<TypedPath<'_>>
        ensures dialect { IfSome result (λ p. typed_dialect p ≡ typed_dialect self.now) }
        ensures bytes { option_map typed_bytes result
            ≡ common_ancestor_of (typed_dialect self.now) (owned_bytes self.now) other.now }
    {
        self.to_path().common_ancestor(other)
    }

    /// Whether the path lies at `base` or below it, from whatever directory both are read. See
    /// [`TypedPath::is_within`].
    pub fn is_within(&self, base: &[u8]) -> bool
        ensures { result ≡ is_within (typed_dialect self.now) (owned_bytes self.now) base.now }
    {
        self.to_path().is_within(base)
    }

    /// Returns the path from `base`, read in the same dialect, to this one. See
    /// [`TypedPath::relative_to`].
    pub fn relative_to(
        &self,
        alloc: Global,
        base: &[u8],
    ) -> Result<Option<TypedPathBuf>, AllocError>
        ensures dialect { IfOk result (λ found. IfSome found
            (λ p. typed_dialect p ≡ typed_dialect self.now)) }
        ensures leads { LeadsFrom (typed_dialect self.now) owned_bytes base.now
            (owned_bytes self.now) result }
    {
        self.to_path().relative_to(alloc, base)
    }

    /// Whether the path ends with the components of `end`, read in the same dialect and compared as
    /// they are written. See [`TypedPath::ends_with`].
    pub fn ends_with(&self, end: &[u8]) -> bool
        ensures { result ≡ path_ends_with (typed_dialect self.now) (owned_bytes self.now) end.now }
    {
        self.to_path().ends_with(end)
    }

    /// Returns an iterator over the components of the path, from either end. See
    /// [`TypedPath::components`].
    pub fn components(&self) -> TypedComponents<'_>
        ensures dialect { reading_dialect result ≡ typed_dialect self.now }
        ensures items { typed_items result ≡ comps (typed_dialect self.now) (owned_bytes self.now) }
        ensures slice { typed_slice result ≡ owned_bytes self.now }
    {
        self.to_path().components()
    }

    /// Returns an iterator over the texts of the components, from either end. That of a root is
    /// `/`, or `\` on Windows. See [`TypedPath::iter`].
    pub fn iter(&self) -> TypedIter<'_>
        ensures dialect { typed_dialect result ≡ typed_dialect self.now }
        ensures items { typed_iter_items result
            ≡ comps (typed_dialect self.now) (owned_bytes self.now) }
        ensures slice { typed_iter_slice result ≡ owned_bytes self.now }
    {
        self.to_path().iter()
    }

    /// Returns this path with `path`, read in the same dialect, pushed onto it. See
    /// [`TypedPath::join`].
    pub fn join(&self, alloc: Global, path: &[u8]) -> Result<TypedPathBuf, AllocError>
        ensures dialect { IfOk result (λ p. typed_dialect p ≡ typed_dialect self.now) }
        ensures joined { IfOk result (λ p. owned_bytes p
            ≡ push_spec.push (typed_dialect self.now) (owned_bytes self.now) path.now) }
    {
        self.to_path().join(alloc, path)
    }

    /// Returns this path with `path`, read in the same dialect, pushed onto it, unless a component
    /// of `path` offends. See [`TypedPath::join_checked`].
    pub fn join_checked(&self, alloc: Global, path: &[u8]) -> Result<TypedPathBuf, PathError>
        ensures dialect { IfOk result (λ p. typed_dialect p ≡ typed_dialect self.now) }
        ensures joined { JoinsChecked (typed_dialect self.now) owned_bytes (owned_bytes self.now)
            path.now result }
    {
        self.to_path().join_checked(alloc, path)
    }

    /// Returns this path with `path`, read in the same dialect, pushed onto it, unless `path` is
    /// not portable or a component of it offends. See [`TypedPath::join_portable`].
    pub fn join_portable(&self, alloc: Global, path: &[u8]) -> Result<TypedPathBuf, JoinError>
        ensures dialect { IfOk result (λ p. typed_dialect p ≡ typed_dialect self.now) }
        ensures joined { JoinsPortable (typed_dialect self.now) owned_bytes (owned_bytes self.now)
            path.now result }
    {
        self.to_path().join_portable(alloc, path)
    }

    /// Returns a copy without its file name, if it has one, and with `name` pushed onto that. See
    /// [`TypedPath::with_file_name`].
    pub fn with_file_name(&self, alloc: Global, name: &[u8]) -> Result<TypedPathBuf, AllocError>
        ensures dialect { IfOk result (λ p. typed_dialect p ≡ typed_dialect self.now) }
        ensures bytes { IfOk result (λ p. owned_bytes p
            ≡ with_file_name (typed_dialect self.now) (owned_bytes self.now) name.now) }
    {
        self.to_path().with_file_name(alloc, name)
    }

    /// Returns a copy whose file name has another extension, or none if `extension` is empty. See
    /// [`TypedPath::with_extension`].
    pub fn with_extension(&self, alloc: Global, extension: &[u8]) -> Result<Self, AllocError>
        ensures dialect { IfOk result (λ p. typed_dialect p ≡ typed_dialect self.now) }
        ensures bytes { IfOk result (λ p. owned_bytes p
            ≡ with_extension (typed_dialect self.now) (owned_bytes self.now) extension.now) }
    {
        self.to_path().with_extension(alloc, extension)
    }

    /// Returns a copy with `extension` appended to its file name, after a dot. See
    /// [`TypedPath::with_added_extension`].
    pub fn with_added_extension(&self, alloc: Global, extension: &[u8]) -> Result<Self, AllocError>
        ensures dialect { IfOk result (λ p. typed_dialect p ≡ typed_dialect self.now) }
        ensures bytes { IfOk result (λ p. owned_bytes p
            ≡ with_added_extension (typed_dialect self.now) (owned_bytes self.now) extension.now) }
    {
        self.to_path().with_added_extension(alloc, extension)
    }

    /// Returns the path without `.`, and without `..` and the names that these cancel. See
    /// [`TypedPath::normalize`].
    pub fn normalize(&self, alloc: Global) -> Result<TypedPathBuf, AllocError>
        ensures dialect { IfOk result (λ p. typed_dialect p ≡ typed_dialect self.now) }
        ensures normal { Normalizes (typed_dialect self.now) owned_bytes (owned_bytes self.now)
            result }
    {
        self.to_path().normalize(alloc)
    }

    /// Returns the path without `.`, doubled separators, a last separator that is no root, and
    /// names that a `..` cancels. See [`TypedPath::clean`].
    pub fn clean(&self, alloc: Global) -> Result<TypedPathBuf, AllocError>
        ensures dialect { IfOk result (λ p. typed_dialect p ≡ typed_dialect self.now) }
        ensures bytes { IfOk result (λ p. owned_bytes p
            ≡ clean_text (typed_dialect self.now) (owned_bytes self.now)) }
    {
        self.to_path().clean(alloc)
    }

    /// Returns the path with each ASCII letter in lower case, except on Windows the `UNC` of
    /// `\\?\UNC\` before a server. See [`TypedPath::to_ascii_lowercase`].
    pub fn to_ascii_lowercase(&self, alloc: Global) -> Result<TypedPathBuf, AllocError>
        ensures dialect { IfOk result (λ p. typed_dialect p ≡ typed_dialect self.now) }
        ensures bytes { IfOk result (λ p. owned_bytes p
            ≡ lowered (typed_dialect self.now) (owned_bytes self.now)) }
    {
        self.to_path().to_ascii_lowercase(alloc)
    }

    /// Returns the normal path of this path if it is absolute, else that of `directory`, written in
    /// this path's dialect, with this path pushed onto it. See [`TypedPath::absolutize`].
    pub fn absolutize(
        &self,
        alloc: Global,
        directory: PlatformPath<'_>,
    ) -> Result<TypedPathBuf, AbsolutizeError>
        ensures dialect { IfOk result (λ p. typed_dialect p ≡ typed_dialect self.now) }
        ensures absolute { Absolutizes (typed_dialect self.now) owned_bytes
            (path_bytes directory.entry) (owned_bytes self.now) result }
    {
        self.to_path().absolutize(alloc, directory)
    }

    /// Returns the normal path of this path if it is absolute, else that of `directory`, written in
    /// this path's dialect, with this path pushed onto it. See [`TypedPath::absolutize_from`].
    pub fn absolutize_from(
        &self,
        alloc: Global,
        directory: TypedPath<'_>,
    ) -> Result<TypedPathBuf, AbsolutizeError>
        ensures dialect { IfOk result (λ p. typed_dialect p ≡ typed_dialect self.now) }
        ensures absolute { AbsolutizesFrom (typed_dialect self.now) (typed_dialect directory.entry)
            owned_bytes (typed_bytes directory.entry) (owned_bytes self.now) result }
    {
        self.to_path().absolutize_from(alloc, directory)
    }

    /// Returns the path as on Unix: a copy, or its components pushed one by one, a root as `/`, so
    /// that `\a\\b\` is `/a/b`. See [`TypedPath::with_unix_encoding`].
    pub fn with_unix_encoding(&self, alloc: Global) -> Result<TypedPathBuf, AllocError>
        ensures dialect { IfOk result (λ p. typed_dialect p ≡ unix) }
        ensures bytes { IfOk result (λ p. owned_bytes p
            ≡ converted (typed_dialect self.now) unix (owned_bytes self.now)) }
    {
        self.to_path().with_unix_encoding(alloc)
    }

    /// Returns the path as on Unix, unless a checked push refuses a name of it or its drive. See
    /// [`TypedPath::with_unix_encoding_checked`].
    pub fn with_unix_encoding_checked(&self, alloc: Global) -> Result<TypedPathBuf, PathError>
        ensures dialect { IfOk result (λ p. typed_dialect p ≡ unix) }
        ensures converted { ConvertsChecked (typed_dialect self.now) unix owned_bytes
            (owned_bytes self.now) result }
    {
        self.to_path().with_unix_encoding_checked(alloc)
    }

    /// Returns the path as on Windows: a copy, or its components pushed one by one, a root as `\`,
    /// so that `/a//b/` is `\a\b`. See [`TypedPath::with_windows_encoding`].
    pub fn with_windows_encoding(&self, alloc: Global) -> Result<TypedPathBuf, AllocError>
        ensures dialect { IfOk result (λ p. typed_dialect p ≡ windows) }
        ensures bytes { IfOk result (λ p. owned_bytes p
            ≡ converted (typed_dialect self.now) windows (owned_bytes self.now)) }
    {
        self.to_path().with_windows_encoding(alloc)
    }

    /// Returns the path as on Windows, unless a checked push refuses a name of it or its drive. See
    /// [`TypedPath::with_windows_encoding_checked`].
    pub fn with_windows_encoding_checked(&self, alloc: Global) -> Result<TypedPathBuf, PathError>
        ensures dialect { IfOk result (λ p. typed_dialect p ≡ windows) }
        ensures converted { ConvertsChecked (typed_dialect self.now) windows owned_bytes
            (owned_bytes self.now) result }
    {
        self.to_path().with_windows_encoding_checked(alloc)
    }
}

/// A value that may hold one of another type.
pub trait TryAsRef<T> {
    ghost try_as_ref_gives: { Self → Option T → Type 0 };

    /// Returns the value that is held if it is of that type, else `None`.
    fn try_as_ref(&self) -> Option<T>
        ensures { try_as_ref_gives self.now result };
}

/// The path that is held if it is a Unix path, else `None`.
impl<'a> TryAsRef<UnixPath<'a>> for TypedPath<'a> {
    ghost try_as_ref_gives = { λ path held. held ≡ held_unix path };

    fn try_as_ref(&self) -> Option<UnixPath<'a>> {
        match self {
            Typed::Unix(path) => Some(*path),
            Typed::Windows(_) => None,
        }
    }
}

/// The path that is held if it is a Windows path, else `None`.
impl<'a> TryAsRef<WindowsPath<'a>> for TypedPath<'a> {
    ghost try_as_ref_gives = { λ path held. held ≡ held_windows path };

    fn try_as_ref(&self) -> Option<WindowsPath<'a>> {
        match self {
            Typed::Unix(_) => None,
            Typed::Windows(path) => Some(*path),
        }
    }
}

impl<'a> UnixPath<'a> {
    /// Returns the path as a typed one of the same dialect.
    pub fn to_typed_path(self) -> TypedPath<'a>
        ensures dialect { typed_dialect result ≡ unix }
        ensures bytes { typed_bytes result ≡ path_bytes self.entry }
    {
        Typed::Unix(self)
    }

    /// Returns a copy of the path as a typed one of the same dialect.
    pub fn to_typed_path_buf(self, alloc: Global) -> Result<TypedPathBuf, AllocError>
        ensures dialect { IfOk result (λ p. typed_dialect p ≡ unix) }
        ensures bytes { IfOk result (λ p. owned_bytes p ≡ path_bytes self.entry) }
        ensures succeeds { path_bytes self.entry ≡ [] → IsOk result }
    {
        self.to_typed_path().to_path_buf(alloc)
    }
}

impl<'a> WindowsPath<'a> {
    /// Returns the path as a typed one of the same dialect.
    pub fn to_typed_path(self) -> TypedPath<'a>
        ensures dialect { typed_dialect result ≡ windows }
        ensures bytes { typed_bytes result ≡ path_bytes self.entry }
    {
        Typed::Windows(self)
    }

    /// Returns a copy of the path as a typed one of the same dialect.
    pub fn to_typed_path_buf(self, alloc: Global) -> Result<TypedPathBuf, AllocError>
        ensures dialect { IfOk result (λ p. typed_dialect p ≡ windows) }
        ensures bytes { IfOk result (λ p. owned_bytes p ≡ path_bytes self.entry) }
        ensures succeeds { path_bytes self.entry ≡ [] → IsOk result }
    {
        self.to_typed_path().to_path_buf(alloc)
    }
}

/// The path of the bytes of a vector, in the dialect that they look like, with no copy.
impl From<Vec<u8>> for TypedPathBuf {
    ghost from_gives = { λ bytes path. (typed_dialect path ≡ derived_dialect bytes.items)
        × (owned_bytes path ≡ bytes.items)
        × ((typed_owned path).capacity ≡ vec_capacity bytes) };

    fn from(bytes: Vec<u8>) -> TypedPathBuf {
        made_as!(PathType::derive(bytes.as_slice()), PathBuf::from(bytes))
    }
}

/// The path of the bytes of a text, in the dialect that it looks like, with no copy.
impl From<String> for TypedPathBuf {
    ghost from_gives = { λ text path. (typed_dialect path ≡ derived_dialect (string_bytes text))
        × (owned_bytes path ≡ string_bytes text)
        × ((typed_owned path).capacity ≡ string_capacity text) };

    fn from(text: String) -> TypedPathBuf {
        TypedPathBuf::from(text.into_bytes())
    }
}

/// The path that is held if it is a Unix path; a Windows path is given back.
impl TryFrom<TypedPathBuf> for UnixPathBuf {
    type Error = TypedPathBuf;

    ghost try_from_gives = { λ path made. (is_ok made ≡ same_dialect (typed_dialect path) unix)
        × IfOk made (λ p. p ≡ typed_owned path)
        × IfErr made (λ back. back ≡ path) };

    fn try_from(path: TypedPathBuf) -> Result<UnixPathBuf, TypedPathBuf> {
        match path {
            Typed::Unix(path) => Ok(path),
            Typed::Windows(path) => Err(Typed::Windows(path)),
        }
    }
}

/// The path that is held if it is a Windows path; a Unix path is given back.
impl TryFrom<TypedPathBuf> for WindowsPathBuf {
    type Error = TypedPathBuf;

    ghost try_from_gives = { λ path made. (is_ok made ≡ same_dialect (typed_dialect path) windows)
        × IfOk made (λ p. p ≡ typed_owned path)
        × IfErr made (λ back. back ≡ path) };

    fn try_from(path: TypedPathBuf) -> Result<WindowsPathBuf, TypedPathBuf> {
        match path {
            Typed::Unix(path) => Err(Typed::Unix(path)),
            Typed::Windows(path) => Ok(path),
        }
    }
}
