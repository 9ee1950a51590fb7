//! Owned paths of text whose dialect is chosen at run time.

ghost use Rattle.std.specs.Prelude.{◌≡◌, [], IfOk, IsOk, not, bytes_eq, Ok, Err, Some, None, IfSome, option_map, option_copied, Option, IfErr, is_ok};
ghost use Rattle.std.specs.String.{string_bytes, string_capacity};
ghost use Rattle.typed_path.specs.components.{unix, windows, kinds, comps, parts_of};
ghost use Rattle.typed_path.specs.typed.{kind_dialect, derived_dialect, typed_dialect, KeepsDialect, held_unix, held_windows};
ghost use Rattle.typed_path.specs.typed.Outcomes.{Pushes, PushesChecked, Pops, SetsFileName, SetsExtension, Clears, Reserves, ReservesExactly, ShrinksTo, JoinsChecked, JoinsPortable, Normalizes, ConvertsChecked, Absolutizes, AbsolutizesFrom, AddsExtension, LeadsFrom};
ghost use Rattle.typed_path.specs.views.TypedViews.{typed_owned, owned_bytes, reading_dialect};
ghost use Rattle.typed_path.specs.views.TypedTextViews.{typed_text, typed_text_items, typed_text_slice, typed_text_iter_items, typed_text_iter_slice, typed_text_ancestors_left};
ghost use Rattle.typed_path.specs.queries.{is_absolute, has_root, is_portable, may_be_device, portable_fault, unportable, parent_of, file_name_of, file_stem_of, extension, stripped, path_starts_with, path_ends_with, ancestors_of, stripped_to, file_prefix_of, has_trailing_separator, simplified_text, common_ancestor_of};
ghost use Rattle.typed_path.specs.views.OffenceViews.{offence_of};
ghost use Rattle.typed_path.specs.changes.{error_of, with_file_name, with_extension, with_added_extension};
ghost use Rattle.typed_path.specs.conversions.{converted, same_dialect};
ghost use Rattle.typed_path.specs.places.{clean_text, is_within};
ghost use Rattle.typed_path.specs.order.{lowered};
ghost use Rattle.typed_path.specs.typed.Orders.{lowered_typed_cmp, lowered_typed_eq};
ghost use Rattle.typed_path.specs.promises.{keeps_prefix};
ghost use Rattle.typed_path.specs.views.TextViews.{utf8_bytes};
ghost use Rattle.typed_path.specs.changes.Push as push_spec;

use crate::errors::{AbsolutizeError, JoinError, PathError, PortableError, StripPrefixError};
use crate::typed::path_buf::TryAsRef;
use crate::typed::utf8::path::{Utf8TypedAncestors, Utf8TypedIter, Utf8TypedPath};
use crate::typed::utf8::reading::Utf8TypedComponents;
use crate::typed::variant::{PathType, Typed, each, made_as, typed};
use crate::utf8::{
    Utf8Path, Utf8PathBuf, Utf8PlatformPath, Utf8UnixPath, Utf8UnixPathBuf, Utf8WindowsPath,
    Utf8WindowsPathBuf,
};
use std::alloc::{AllocError, Global};
use std::cmp::Ordering;

/// An owned path of text of Unix or of Windows, which grows.
pub type Utf8TypedPathBuf = Typed<Utf8UnixPathBuf, Utf8WindowsPathBuf>;

impl Utf8TypedPathBuf {
    /// The empty path, in the dialect `kind`.
    pub fn new(alloc: Global, kind: PathType) -> Utf8TypedPathBuf
        ensures dialect { typed_dialect result ≡ kind_dialect kind }
        ensures bytes { owned_bytes result ≡ [] }
        ensures capacity { (typed_owned result).capacity ≡ 0 }
    {
        made_as!(kind, Utf8PathBuf::new(alloc))
    }

    /// The empty Unix path.
    pub fn unix(alloc: Global) -> Utf8TypedPathBuf
        ensures dialect { typed_dialect result ≡ unix }
        ensures bytes { owned_bytes result ≡ [] }
        ensures capacity { (typed_owned result).capacity ≡ 0 }
    {
        Typed::Unix(Utf8PathBuf::new(alloc))
    }

    /// The empty Windows path.
    pub fn windows(alloc: Global) -> Utf8TypedPathBuf
        ensures dialect { typed_dialect result ≡ windows }
        ensures bytes { owned_bytes result ≡ [] }
        ensures capacity { (typed_owned result).capacity ≡ 0 }
    {
        Typed::Windows(Utf8PathBuf::new(alloc))
    }

    /// The Unix path of a copy of this text.
    pub fn from_unix(alloc: Global, text: &str) -> Result<Utf8TypedPathBuf, AllocError>
        ensures dialect { IfOk result (λ p. typed_dialect p ≡ unix) }
        ensures bytes { IfOk result (λ p. owned_bytes p ≡ text.now) }
        ensures succeeds { text.now ≡ [] → IsOk result }
    {
        Utf8TypedPath::unix(text).to_path_buf(alloc)
    }

    /// The Windows path of a copy of this text.
    pub fn from_windows(alloc: Global, text: &str) -> Result<Utf8TypedPathBuf, AllocError>
        ensures dialect { IfOk result (λ p. typed_dialect p ≡ windows) }
        ensures bytes { IfOk result (λ p. owned_bytes p ≡ text.now) }
        ensures succeeds { text.now ≡ [] → IsOk result }
    {
        Utf8TypedPath::windows(text).to_path_buf(alloc)
    }

    /// The path of a copy of this text, in the dialect that [`PathType::derive`] says it looks
    /// like.
    pub fn from_str(alloc: Global, text: &str) -> Result<Utf8TypedPathBuf, AllocError>
        ensures dialect { IfOk result (λ p. typed_dialect p ≡ derived_dialect text.now) }
        ensures bytes { IfOk result (λ p. owned_bytes p ≡ text.now) }
        ensures succeeds { text.now ≡ [] → IsOk result }
    {
        Utf8TypedPath::derive(text).to_path_buf(alloc)
    }

    /// Borrows the path.
    pub fn to_path(&self) -> Utf8TypedPath<'_>
        ensures dialect { typed_dialect result ≡ typed_dialect self.now }
        ensures bytes { typed_text result ≡ owned_bytes self.now }
    {
        typed!(self, own => own.as_path())
    }

    /// Pushes `path` onto this one. See [`Utf8PathBuf::push`].
    pub fn push(&mut self, path: &str) -> Result<(), AllocError>
        ensures dialect { KeepsDialect self.old self.new }
        ensures pushed { Pushes (typed_dialect self.old) (typed_owned self.old) path.now result
            (typed_owned self.new) }
    {
        each!(self, own => own.push(Utf8Path::new(path)))
    }

    /// Pushes `path` onto this one, unless a component of `path` offends. See
    /// [`Utf8PathBuf::push_checked`].
    pub fn push_checked(&mut self, path: &str) -> Result<(), PathError>
        ensures dialect { KeepsDialect self.old self.new }
        ensures pushed { PushesChecked (typed_dialect self.old) (typed_owned self.old) path.now
            result (typed_owned self.new) }
    {
        each!(self, own => own.push_checked(Utf8Path::new(path)))
    }

    /// Cuts the path to its parent. See [`Utf8PathBuf::pop`].
    pub fn pop(&mut self) -> bool
        ensures dialect { KeepsDialect self.old self.new }
        ensures popped { Pops (typed_dialect self.old) (typed_owned self.old) result
            (typed_owned self.new) }
    {
        each!(self, own => own.pop())
    }

    /// Removes the file name, if there is one, and pushes `name` onto what is left. See
    /// [`Utf8PathBuf::set_file_name`].
    pub fn set_file_name(&mut self, name: &str) -> Result<(), AllocError>
        ensures dialect { KeepsDialect self.old self.new }
        ensures named { SetsFileName (typed_dialect self.old) (typed_owned self.old) name.now result
            (typed_owned self.new) }
    {
        each!(self, own => own.set_file_name(name))
    }

    /// Replaces the extension of the file name, or removes it if `extension` is empty. See
    /// [`Utf8PathBuf::set_extension`].
    pub fn set_extension(&mut self, extension: &str) -> Result<bool, AllocError>
        ensures dialect { KeepsDialect self.old self.new }
        ensures extended { SetsExtension (typed_dialect self.old) (typed_owned self.old)
            extension.now result (typed_owned self.new) }
    {
        each!(self, own => own.set_extension(extension))
    }

    /// Appends a dot and `extension` to the file name. See [`Utf8PathBuf::add_extension`].
    pub fn add_extension(&mut self, extension: &str) -> Result<bool, AllocError>
        ensures dialect { KeepsDialect self.old self.new }
        ensures extended { AddsExtension (typed_dialect self.old) (typed_owned self.old)
            extension.now result (typed_owned self.new) }
    {
        each!(self, own => own.add_extension(extension))
    }

    /// Makes the path empty. See [`Utf8PathBuf::clear`].
    pub fn clear(&mut self)
        ensures dialect { KeepsDialect self.old self.new }
        ensures cleared { Clears (typed_owned self.old) (typed_owned self.new) }
    {
        each!(self, own => own.clear())
    }

    /// How many bytes the path can hold without allocating, its own included. See
    /// [`Utf8PathBuf::capacity`].
    pub fn capacity(&self) -> usize
        ensures { result ≡ (typed_owned self.now).capacity }
    {
        each!(self, own => own.capacity())
    }

    /// Reserves capacity for at least `additional` bytes more. See [`Utf8PathBuf::reserve`].
    pub fn reserve(&mut self, additional: usize) -> Result<(), AllocError>
        ensures dialect { KeepsDialect self.old self.new }
        ensures reserved { Reserves (typed_owned self.old) additional result
            (typed_owned self.new) }
    {
        each!(self, own => own.reserve(additional))
    }

    /// Alias of `reserve`, which is fallible already. See [`Utf8PathBuf::try_reserve`].
    pub fn try_reserve(&mut self, additional: usize) -> Result<(), AllocError>
        ensures dialect { KeepsDialect self.old self.new }
        ensures reserved { Reserves (typed_owned self.old) additional result
            (typed_owned self.new) }
    {
        each!(self, own => own.try_reserve(additional))
    }

    /// Reserves capacity for `additional` bytes more, and for no more than these if it has to grow.
    /// See [`Utf8PathBuf::reserve_exact`].
    pub fn reserve_exact(&mut self, additional: usize) -> Result<(), AllocError>
        ensures dialect { KeepsDialect self.old self.new }
        ensures reserved { ReservesExactly (typed_owned self.old) additional result
            (typed_owned self.new) }
    {
        each!(self, own => own.reserve_exact(additional))
    }

    /// Alias of `reserve_exact`, which is fallible already. See [`Utf8PathBuf::try_reserve_exact`].
    pub fn try_reserve_exact(&mut self, additional: usize) -> Result<(), AllocError>
        ensures dialect { KeepsDialect self.old self.new }
        ensures reserved { ReservesExactly (typed_owned self.old) additional result
            (typed_owned self.new) }
    {
        each!(self, own => own.try_reserve_exact(additional))
    }

    /// Gives unused capacity back, as far as a smaller block can be allocated, and never fails. See
    /// [`Utf8PathBuf::shrink_to_fit`].
    pub fn shrink_to_fit(&mut self) -> Result<(), AllocError>
        ensures dialect { KeepsDialect self.old self.new }
        ensures shrunk { ShrinksTo (typed_owned self.old) 0 result (typed_owned self.new) }
    {
        each!(self, own => own.shrink_to_fit())
    }

    /// Gives unused capacity above `min_capacity` bytes back, as far as a smaller block can be
    /// allocated, and never fails. See [`Utf8PathBuf::shrink_to`].
    pub fn shrink_to(&mut self, min_capacity: usize) -> Result<(), AllocError>
        ensures dialect { KeepsDialect self.old self.new }
        ensures shrunk { ShrinksTo (typed_owned self.old) min_capacity result
            (typed_owned self.new) }
    {
        each!(self, own => own.shrink_to(min_capacity))
    }

    /// The text of the path, with no copy. See [`Utf8PathBuf::into_string`].
    pub fn into_string(self) -> String
        ensures bytes { string_bytes result ≡ owned_bytes self }
        ensures capacity { string_capacity result ≡ (typed_owned self).capacity }
    {
        each!(self, own => own.into_string())
    }

    /// The text of the path. See [`Utf8TypedPath::as_str`].
    pub fn as_str(&self) -> &str
        ensures { result.now ≡ owned_bytes self.now }
    {
        self.to_path().as_str()
    }

    /// Whether the path is absolute. See [`Utf8TypedPath::is_absolute`].
    pub fn is_absolute(&self) -> bool
        ensures { result ≡ is_absolute (typed_dialect self.now)
            (kinds (parts_of (typed_dialect self.now) (owned_bytes self.now))) }
    {
        self.to_path().is_absolute()
    }

    /// Whether the path is not absolute. See [`Utf8TypedPath::is_relative`].
    pub fn is_relative(&self) -> bool
        ensures { result ≡ not (is_absolute (typed_dialect self.now)
            (kinds (parts_of (typed_dialect self.now) (owned_bytes self.now)))) }
    {
        self.to_path().is_relative()
    }

    /// Whether the path has a root. See [`Utf8TypedPath::has_root`].
    pub fn has_root(&self) -> bool
        ensures { result ≡ has_root (typed_dialect self.now)
            (kinds (parts_of (typed_dialect self.now) (owned_bytes self.now))) }
    {
        self.to_path().has_root()
    }

    /// Whether some version of Windows may take a name of the path for a device, as `nul .txt`. See
    /// [`Utf8TypedPath::may_be_device`].
    pub fn may_be_device(&self) -> bool
        ensures { result ≡ may_be_device (typed_dialect self.now) (owned_bytes self.now) }
    {
        self.to_path().may_be_device()
    }

    /// Whether the path has no prefix and every system takes each of its names as it is written.
    /// See [`Utf8TypedPath::is_portable`].
    pub fn is_portable(&self) -> bool
        ensures { result ≡ is_portable (typed_dialect self.now) (owned_bytes self.now) }
    {
        self.to_path().is_portable()
    }

    /// Checks that the path has no prefix, and that every system takes each of its names as it is
    /// written. See [`Utf8TypedPath::check_portable`].
    pub fn check_portable(&self) -> Result<(), PortableError>
        ensures { error_of result ≡ portable_fault (typed_dialect self.now) (owned_bytes self.now) }
    {
        self.to_path().check_portable()
    }

    /// Returns the first component that is not portable, and why.
    ///
    /// See [`Utf8TypedPath::unportable`].
    pub fn unportable(&self) -> Option<(&str, PortableError)>
        ensures { option_map offence_of result
            ≡ unportable (typed_dialect self.now) (owned_bytes self.now) }
    {
        self.to_path().unportable()
    }

    /// Whether each path that a checked join makes of this one is known to have the prefix of this
    /// one, or none if this one has none. See [`Utf8TypedPath::keeps_prefix`].
    pub fn keeps_prefix(&self) -> bool
        ensures { result ≡ keeps_prefix (typed_dialect self.now) (owned_bytes self.now) }
    {
        self.to_path().keeps_prefix()
    }

    /// Returns a path of a verbatim drive of Windows, `\\?\C:`, without its `\\?\`, if that means
    /// the same to Windows. See [`Utf8TypedPath::simplified`].
    pub fn simplified(&self) -> Utf8TypedPath<'_>
        ensures dialect { typed_dialect result ≡ typed_dialect self.now }
        ensures bytes { typed_text result
            ≡ simplified_text (typed_dialect self.now) (owned_bytes self.now) }
    {
        self.to_path().simplified()
    }

    /// Returns the path without its last component. See [`Utf8TypedPath::parent`].
    pub fn parent(&self) -> Option<Utf8TypedPath<'_>>
        ensures dialect { IfSome result (λ p. typed_dialect p ≡ typed_dialect self.now) }
        ensures bytes { option_map typed_text result
            ≡ parent_of (typed_dialect self.now) (owned_bytes self.now) }
    {
        self.to_path().parent()
    }

    /// Returns an iterator over the path, and then each parent of the one before. See
    /// [`Utf8TypedPath::ancestors`].
    pub fn ancestors(&self) -> Utf8TypedAncestors<'_>
        ensures dialect { typed_dialect result ≡ typed_dialect self.now }
        ensures left { typed_text_ancestors_left result
            ≡ ancestors_of (typed_dialect self.now) (owned_bytes self.now) }
    {
        self.to_path().ancestors()
    }

    /// Returns the last component if it is a name, else `None`. See [`Utf8TypedPath::file_name`].
    pub fn file_name(&self) -> Option<&str>
        ensures { option_copied result
            ≡ file_name_of (typed_dialect self.now) (owned_bytes self.now) }
    {
        self.to_path().file_name()
    }

    /// Returns the file name up to its last dot, or the whole file name if it has no dot but one at
    /// its start. See [`Utf8TypedPath::file_stem`].
    pub fn file_stem(&self) -> Option<&str>
        ensures { option_copied result
            ≡ file_stem_of (typed_dialect self.now) (owned_bytes self.now) }
    {
        self.to_path().file_stem()
    }

    /// Returns what follows the last dot of the file name, if it has an extension. See
    /// [`Utf8TypedPath::extension`].
    pub fn extension(&self) -> Option<&str>
        ensures { option_copied result ≡ extension (typed_dialect self.now) (owned_bytes self.now) }
    {
        self.to_path().extension()
    }

    /// Returns the file name up to its first dot that is not at its start, or the whole file name
    /// if it has none. See [`Utf8TypedPath::file_prefix`].
    pub fn file_prefix(&self) -> Option<&str>
        ensures { option_copied result
            ≡ file_prefix_of (typed_dialect self.now) (owned_bytes self.now) }
    {
        self.to_path().file_prefix()
    }

    /// Whether the last character is a separator of the path, as that of `a/`, and of `/` alone.
    /// See [`Utf8TypedPath::has_trailing_separator`].
    pub fn has_trailing_separator(&self) -> bool
        ensures { result ≡ has_trailing_separator (typed_dialect self.now) (owned_bytes self.now) }
    {
        self.to_path().has_trailing_separator()
    }

    /// Returns what is left of the path after `base`, read in the same dialect. See
    /// [`Utf8TypedPath::strip_prefix`].
    pub fn strip_prefix(&self, base: &str) -> Result<Utf8TypedPath<'_>, StripPrefixError>
        ensures dialect { IfOk result (λ p. typed_dialect p ≡ typed_dialect self.now) }
        ensures bytes { stripped_to typed_text result
            ≡ stripped (typed_dialect self.now) (owned_bytes self.now) base.now }
    {
        self.to_path().strip_prefix(base)
    }

    /// Whether the path begins with the components of `base`, read in the same dialect and compared
    /// as they are written. See [`Utf8TypedPath::starts_with`].
    pub fn starts_with(&self, base: &str) -> bool
        ensures { result
            ≡ path_starts_with (typed_dialect self.now) (owned_bytes self.now) base.now }
    {
        self.to_path().starts_with(base)
    }

    /// Whether the path begins with the components of `base`, as both are written in lower case.
    /// See [`Utf8TypedPath::starts_with_ignore_ascii_case`].
    pub fn starts_with_ignore_ascii_case(&self, base: &str) -> bool
        ensures { result ≡ path_starts_with (typed_dialect self.now)
            (lowered (typed_dialect self.now) (owned_bytes self.now))
            (lowered (typed_dialect self.now) base.now) }
    {
        self.to_path().starts_with_ignore_ascii_case(base)
    }

    /// Whether the path is of the dialect of `other`, and has the same components in lower case.
    /// See [`Utf8TypedPath::eq_ignore_ascii_case`].
    pub fn eq_ignore_ascii_case(&self, other: Utf8TypedPath<'_>) -> bool
        ensures { result ≡ lowered_typed_eq (typed_dialect self.now) (owned_bytes self.now)
            (typed_dialect other.entry) (typed_text other.entry) }
    {
        self.to_path().eq_ignore_ascii_case(other)
    }

    /// Returns the order of the path and `other`. See [`Utf8TypedPath::cmp_ignore_ascii_case`].
    pub fn cmp_ignore_ascii_case(&self, other: Utf8TypedPath<'_>) -> Ordering
        ensures { result ≡ lowered_typed_cmp (typed_dialect self.now) (owned_bytes self.now)
            (typed_dialect other.entry) (typed_text other.entry) }
    {
        self.to_path().cmp_ignore_ascii_case(other)
    }

    /// Returns the leading components that both paths share, compared as they are written, as the
    /// front of this path up to the end of the last one. See [`Utf8TypedPath::common_ancestor`].
    pub fn common_ancestor(&self, other: &str) -> Option<Utf8TypedPath<'_>>
        ensures dialect { IfSome result (λ p. typed_dialect p ≡ typed_dialect self.now) }
        ensures bytes { option_map typed_text result
            ≡ common_ancestor_of (typed_dialect self.now) (owned_bytes self.now) other.now }
    {
        self.to_path().common_ancestor(other)
    }

    /// Whether the path lies at `base` or below it, from whatever directory both are read. See
    /// [`Utf8TypedPath::is_within`].
    pub fn is_within(&self, base: &str) -> bool
        ensures { result ≡ is_within (typed_dialect self.now) (owned_bytes self.now) base.now }
    {
        self.to_path().is_within(base)
    }

    /// Returns the path from `base`, read in the same dialect, to this one. See
    /// [`Utf8TypedPath::relative_to`].
    pub fn relative_to(
        &self,
        alloc: Global,
        base: &str,
    ) -> Result<Option<Utf8TypedPathBuf>, AllocError>
        ensures dialect { IfOk result (λ found. IfSome found
            (λ p. typed_dialect p ≡ typed_dialect self.now)) }
        ensures leads { LeadsFrom (typed_dialect self.now) owned_bytes base.now
            (owned_bytes self.now) result }
    {
        self.to_path().relative_to(alloc, base)
    }

    /// Whether the path ends with the components of `end`, read in the same dialect and compared as
    /// they are written. See [`Utf8TypedPath::ends_with`].
    pub fn ends_with(&self, end: &str) -> bool
        ensures { result ≡ path_ends_with (typed_dialect self.now) (owned_bytes self.now) end.now }
    {
        self.to_path().ends_with(end)
    }

    /// Whether the path is this text, character by character. See [`Utf8TypedPath::eq_str`].
    #[inline]
    pub fn eq_str(&self, other: &str) -> bool
        ensures { result ≡ bytes_eq (owned_bytes self.now) other.now }
    {
        self.to_path().eq_str(other)
    }

    /// Returns an iterator over the components of the path, from either end. See
    /// [`Utf8TypedPath::components`].
    pub fn components(&self) -> Utf8TypedComponents<'_>
        ensures dialect { reading_dialect result ≡ typed_dialect self.now }
        ensures items { typed_text_items result
            ≡ comps (typed_dialect self.now) (owned_bytes self.now) }
        ensures slice { typed_text_slice result ≡ owned_bytes self.now }
    {
        self.to_path().components()
    }

    /// Returns an iterator over the texts of the components, from either end. That of a root is
    /// `/`, or `\` on Windows. See [`Utf8TypedPath::iter`].
    pub fn iter(&self) -> Utf8TypedIter<'_>
        ensures dialect { typed_dialect result ≡ typed_dialect self.now }
        ensures items { typed_text_iter_items result
            ≡ comps (typed_dialect self.now) (owned_bytes self.now) }
        ensures slice { typed_text_iter_slice result ≡ owned_bytes self.now }
    {
        self.to_path().iter()
    }

    /// Returns this path with `path`, read in the same dialect, pushed onto it. See
    /// [`Utf8TypedPath::join`].
    pub fn join(&self, alloc: Global, path: &str) -> Result<Utf8TypedPathBuf, AllocError>
        ensures dialect { IfOk result (λ p. typed_dialect p ≡ typed_dialect self.now) }
        ensures joined { IfOk result (λ p. owned_bytes p
            ≡ push_spec.push (typed_dialect self.now) (owned_bytes self.now) path.now) }
    {
        self.to_path().join(alloc, path)
    }

    /// Returns this path with `path`, read in the same dialect, pushed onto it, unless a component
    /// of `path` offends. See [`Utf8TypedPath::join_checked`].
    pub fn join_checked(&self, alloc: Global, path: &str) -> Result<Utf8TypedPathBuf, PathError>
        ensures dialect { IfOk result (λ p. typed_dialect p ≡ typed_dialect self.now) }
        ensures joined { JoinsChecked (typed_dialect self.now) owned_bytes (owned_bytes self.now)
            path.now result }
    {
        self.to_path().join_checked(alloc, path)
    }

    /// Returns this path with `path`, read in the same dialect, pushed onto it, unless `path` is
    /// not portable or a component of it offends. See [`Utf8TypedPath::join_portable`].
    pub fn join_portable(&self, alloc: Global, path: &str) -> Result<Utf8TypedPathBuf, JoinError>
        ensures dialect { IfOk result (λ p. typed_dialect p ≡ typed_dialect self.now) }
        ensures joined { JoinsPortable (typed_dialect self.now) owned_bytes (owned_bytes self.now)
            path.now result }
    {
        self.to_path().join_portable(alloc, path)
    }

    /// Returns a copy without its file name, if it has one, and with `name` pushed onto that. See
    /// [`Utf8TypedPath::with_file_name`].
    pub fn with_file_name(&self, alloc: Global, name: &str) -> Result<Utf8TypedPathBuf, AllocError>
        ensures dialect { IfOk result (λ p. typed_dialect p ≡ typed_dialect self.now) }
        ensures bytes { IfOk result (λ p. owned_bytes p
            ≡ with_file_name (typed_dialect self.now) (owned_bytes self.now) name.now) }
    {
        self.to_path().with_file_name(alloc, name)
    }

    /// Returns a copy whose file name has another extension, or none if `extension` is empty. See
    /// [`Utf8TypedPath::with_extension`].
    pub fn with_extension(&self, alloc: Global, extension: &str) -> Result<Self, AllocError>
        ensures dialect { IfOk result (λ p. typed_dialect p ≡ typed_dialect self.now) }
        ensures bytes { IfOk result (λ p. owned_bytes p
            ≡ with_extension (typed_dialect self.now) (owned_bytes self.now) extension.now) }
    {
        self.to_path().with_extension(alloc, extension)
    }

    /// Returns a copy with `extension` appended to its file name, after a dot. See
    /// [`Utf8TypedPath::with_added_extension`].
    pub fn with_added_extension(&self, alloc: Global, extension: &str) -> Result<Self, AllocError>
        ensures dialect { IfOk result (λ p. typed_dialect p ≡ typed_dialect self.now) }
        ensures bytes { IfOk result (λ p. owned_bytes p
            ≡ with_added_extension (typed_dialect self.now) (owned_bytes self.now) extension.now) }
    {
        self.to_path().with_added_extension(alloc, extension)
    }

    /// Returns the path without `.`, and without `..` and the names that these cancel. See
    /// [`Utf8TypedPath::normalize`].
    pub fn normalize(&self, alloc: Global) -> Result<Utf8TypedPathBuf, AllocError>
        ensures dialect { IfOk result (λ p. typed_dialect p ≡ typed_dialect self.now) }
        ensures normal { Normalizes (typed_dialect self.now) owned_bytes (owned_bytes self.now)
            result }
    {
        self.to_path().normalize(alloc)
    }

    /// Returns the path without `.`, doubled separators, a last separator that is no root, and
    /// names that a `..` cancels. See [`Utf8TypedPath::clean`].
    pub fn clean(&self, alloc: Global) -> Result<Utf8TypedPathBuf, AllocError>
        ensures dialect { IfOk result (λ p. typed_dialect p ≡ typed_dialect self.now) }
        ensures bytes { IfOk result (λ p. owned_bytes p
            ≡ clean_text (typed_dialect self.now) (owned_bytes self.now)) }
    {
        self.to_path().clean(alloc)
    }

    /// Returns the path with each ASCII letter in lower case, except on Windows the `UNC` of
    /// `\\?\UNC\` before a server. See [`Utf8TypedPath::to_ascii_lowercase`].
    pub fn to_ascii_lowercase(&self, alloc: Global) -> Result<Utf8TypedPathBuf, AllocError>
        ensures dialect { IfOk result (λ p. typed_dialect p ≡ typed_dialect self.now) }
        ensures bytes { IfOk result (λ p. owned_bytes p
            ≡ lowered (typed_dialect self.now) (owned_bytes self.now)) }
    {
        self.to_path().to_ascii_lowercase(alloc)
    }

    /// Returns the normal path of this path if it is absolute, else that of `directory`, written in
    /// this path's dialect, with this path pushed onto it. See [`Utf8TypedPath::absolutize`].
    pub fn absolutize(
        &self,
        alloc: Global,
        directory: Utf8PlatformPath<'_>,
    ) -> Result<Utf8TypedPathBuf, AbsolutizeError>
        ensures dialect { IfOk result (λ p. typed_dialect p ≡ typed_dialect self.now) }
        ensures absolute { Absolutizes (typed_dialect self.now) owned_bytes
            (utf8_bytes directory.entry) (owned_bytes self.now) result }
    {
        self.to_path().absolutize(alloc, directory)
    }

    /// Returns the normal path of this path if it is absolute, else that of `directory`, written in
    /// this path's dialect, with this path pushed onto it. See [`Utf8TypedPath::absolutize_from`].
    pub fn absolutize_from(
        &self,
        alloc: Global,
        directory: Utf8TypedPath<'_>,
    ) -> Result<Utf8TypedPathBuf, AbsolutizeError>
        ensures dialect { IfOk result (λ p. typed_dialect p ≡ typed_dialect self.now) }
        ensures absolute { AbsolutizesFrom (typed_dialect self.now) (typed_dialect directory.entry)
            owned_bytes (typed_text directory.entry) (owned_bytes self.now) result }
    {
        self.to_path().absolutize_from(alloc, directory)
    }

    /// Returns the path as on Unix: a copy, or its components pushed one by one, a root as `/`, so
    /// that `\a\\b\` is `/a/b`. See [`Utf8TypedPath::with_unix_encoding`].
    pub fn with_unix_encoding(&self, alloc: Global) -> Result<Utf8TypedPathBuf, AllocError>
        ensures dialect { IfOk result (λ p. typed_dialect p ≡ unix) }
        ensures bytes { IfOk result (λ p. owned_bytes p
            ≡ converted (typed_dialect self.now) unix (owned_bytes self.now)) }
    {
        self.to_path().with_unix_encoding(alloc)
    }

    /// Returns the path as on Unix, unless a checked push refuses a name of it or its drive. See
    /// [`Utf8TypedPath::with_unix_encoding_checked`].
    pub fn with_unix_encoding_checked(&self, alloc: Global) -> Result<Utf8TypedPathBuf, PathError>
        ensures dialect { IfOk result (λ p. typed_dialect p ≡ unix) }
        ensures converted { ConvertsChecked (typed_dialect self.now) unix owned_bytes
            (owned_bytes self.now) result }
    {
        self.to_path().with_unix_encoding_checked(alloc)
    }

    /// Returns the path as on Windows: a copy, or its components pushed one by one, a root as `\`,
    /// so that `/a//b/` is `\a\b`. See [`Utf8TypedPath::with_windows_encoding`].
    pub fn with_windows_encoding(&self, alloc: Global) -> Result<Utf8TypedPathBuf, AllocError>
        ensures dialect { IfOk result (λ p. typed_dialect p ≡ windows) }
        ensures bytes { IfOk result (λ p. owned_bytes p
            ≡ converted (typed_dialect self.now) windows (owned_bytes self.now)) }
    {
        self.to_path().with_windows_encoding(alloc)
    }

    /// Returns the path as on Windows, unless a checked push refuses a name of it or its drive. See
    /// [`Utf8TypedPath::with_windows_encoding_checked`].
    pub fn with_windows_encoding_checked(&self, alloc: Global) -> Result<Self, PathError>
        ensures dialect { IfOk result (λ p. typed_dialect p ≡ windows) }
        ensures converted { ConvertsChecked (typed_dialect self.now) windows owned_bytes
            (owned_bytes self.now) result }
    {
        self.to_path().with_windows_encoding_checked(alloc)
    }
}

/// The path that is held if it is a Unix path, else `None`.
impl<'a> TryAsRef<Utf8UnixPath<'a>> for Utf8TypedPath<'a> {
    ghost try_as_ref_gives = { λ path held. held ≡ held_unix path };

    fn try_as_ref(&self) -> Option<Utf8UnixPath<'a>> {
        match self {
            Typed::Unix(path) => Some(*path),
            Typed::Windows(_) => None,
        }
    }
}

/// The path that is held if it is a Windows path, else `None`.
impl<'a> TryAsRef<Utf8WindowsPath<'a>> for Utf8TypedPath<'a> {
    ghost try_as_ref_gives = { λ path held. held ≡ held_windows path };

    fn try_as_ref(&self) -> Option<Utf8WindowsPath<'a>> {
        match self {
            Typed::Unix(_) => None,
            Typed::Windows(path) => Some(*path),
        }
    }
}

impl<'a> Utf8UnixPath<'a> {
    /// Returns the path as a typed one of the same dialect.
    pub fn to_typed_path(self) -> Utf8TypedPath<'a>
        ensures dialect { typed_dialect result ≡ unix }
        ensures bytes { typed_text result ≡ utf8_bytes self.entry }
    {
        Typed::Unix(self)
    }

    /// Returns a copy of the path as a typed one of the same dialect.
    pub fn to_typed_path_buf(self, alloc: Global) -> Result<Utf8TypedPathBuf, AllocError>
        ensures dialect { IfOk result (λ p. typed_dialect p ≡ unix) }
        ensures bytes { IfOk result (λ p. owned_bytes p ≡ utf8_bytes self.entry) }
        ensures succeeds { utf8_bytes self.entry ≡ [] → IsOk result }
    {
        self.to_typed_path().to_path_buf(alloc)
    }
}

impl<'a> Utf8WindowsPath<'a> {
    /// Returns the path as a typed one of the same dialect.
    pub fn to_typed_path(self) -> Utf8TypedPath<'a>
        ensures dialect { typed_dialect result ≡ windows }
        ensures bytes { typed_text result ≡ utf8_bytes self.entry }
    {
        Typed::Windows(self)
    }

    /// Returns a copy of the path as a typed one of the same dialect.
    pub fn to_typed_path_buf(self, alloc: Global) -> Result<Utf8TypedPathBuf, AllocError>
        ensures dialect { IfOk result (λ p. typed_dialect p ≡ windows) }
        ensures bytes { IfOk result (λ p. owned_bytes p ≡ utf8_bytes self.entry) }
        ensures succeeds { utf8_bytes self.entry ≡ [] → IsOk result }
    {
        self.to_typed_path().to_path_buf(alloc)
    }
}

/// The path of a text, in the dialect that it looks like, with no copy.
impl From<String> for Utf8TypedPathBuf {
    ghost from_gives = { λ text path. (typed_dialect path ≡ derived_dialect (string_bytes text))
        × (owned_bytes path ≡ string_bytes text)
        × ((typed_owned path).capacity ≡ string_capacity text) };

    fn from(text: String) -> Utf8TypedPathBuf {
        made_as!(PathType::derive(text.as_bytes()), Utf8PathBuf::from(text))
    }
}

/// The path that is held if it is a Unix path; a Windows path is given back.
impl TryFrom<Utf8TypedPathBuf> for Utf8UnixPathBuf {
    type Error = Utf8TypedPathBuf;

    ghost try_from_gives = { λ path made. (is_ok made ≡ same_dialect (typed_dialect path) unix)
        × IfOk made (λ p. p ≡ typed_owned path)
        × IfErr made (λ back. back ≡ path) };

    fn try_from(path: Utf8TypedPathBuf) -> Result<Utf8UnixPathBuf, Utf8TypedPathBuf> {
        match path {
            Typed::Unix(path) => Ok(path),
            Typed::Windows(path) => Err(Typed::Windows(path)),
        }
    }
}

/// The path that is held if it is a Windows path; a Unix path is given back.
impl TryFrom<Utf8TypedPathBuf> for Utf8WindowsPathBuf {
    type Error = Utf8TypedPathBuf;

    ghost try_from_gives = { λ path made. (is_ok made ≡ same_dialect (typed_dialect path) windows)
        × IfOk made (λ p. p ≡ typed_owned path)
        × IfErr made (λ back. back ≡ path) };

    fn try_from(path: Utf8TypedPathBuf) -> Result<Utf8WindowsPathBuf, Utf8TypedPathBuf> {
        match path {
            Typed::Unix(path) => Err(Typed::Unix(path)),
            Typed::Windows(path) => Ok(path),
        }
    }
}
