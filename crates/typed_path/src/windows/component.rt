//! The prefixes and components of a Windows path: single ones, read from bytes, and the iterator
//! over all.

ghost use Rattle.std.specs.Prelude.{◌≡◌, min, length, option_map, true};
ghost use Rattle.typed_path.specs.queries.{share_length, is_verbatim_prefix, prefix_length, is_prefix, prefix_in, prefix_part_in, first_prefix, prefix_among, has_prefix, has_any_verbatim_prefix, has_verbatim_prefix, has_verbatim_unc_prefix, has_verbatim_disk_prefix, has_device_ns_prefix, has_unc_prefix, has_disk_prefix, has_physical_root, has_implicit_root};
ghost use Rattle.typed_path.specs.components.{prefix, prefix_part, Part, kinds, windows, iterator_name};
ghost use Rattle.typed_path.specs.texts.{has_text_names};
ghost use Rattle.typed_path.specs.views.PieceViews.{prefix_view};

use crate::common::{Component, Encoding, Path, ReadAs, Reading, Values, check_name};
use crate::constants::windows::{CURRENT_DIR, PARENT_DIR, SEPARATOR_STR};
use crate::errors::{ParseError, PortableError};
use crate::scan::{Piece, PieceKind, Separators, WindowsPrefix, find_prefix, may_be_device};
use crate::windows::encoding::WindowsEncoding;

impl<'a> WindowsPrefix<'a> {
    /// Returns how many bytes the prefix has when it is written with one separator between names,
    /// or `usize::MAX` if it has more.
    ///
    /// That of `\\server\share` has 14, and that of `\\server\` has 8.
    pub fn len(self) -> usize
        ensures { result ≡ min (prefix_length (prefix_view self.entry)) usize.MAX }
    {
        match self {
            Self::Verbatim(name) | Self::DeviceNS(name) => name.len().saturating_add(4),
            Self::VerbatimUNC(server, share) => share_len(share)
                .saturating_add(server.len())
                .saturating_add(8),
            Self::UNC(server, share) => share_len(share)
                .saturating_add(server.len())
                .saturating_add(2),
            Self::VerbatimDisk(_) => 6,
            Self::Disk(_) => 2,
        }
    }

    /// Whether the prefix is of one of the three verbatim kinds.
    pub fn is_verbatim(self) -> bool
        ensures { result ≡ is_verbatim_prefix (prefix_view self.entry) }
    {
        matches!(
            self,
            Self::Verbatim(_) | Self::VerbatimUNC(..) | Self::VerbatimDisk(_)
        )
    }
}

/// Returns how many bytes a share adds to its server: none if it is empty, and else its own and one
/// for the separator, or `usize::MAX` if there are more.
fn share_len(share: &[u8]) -> usize
    ensures { result ≡ min (share_length share.now) usize.MAX }
{
    if share.is_empty() {
        0
    } else {
        share.len().saturating_add(1)
    }
}

/// Reads bytes that are one prefix: `c:` is the drive `C`.
///
/// # Errors
///
/// `not a prefix` if they have none, and `contains more than prefix` if more comes after it, as in
/// `C:\`.
impl<'a> TryFrom<&'a [u8]> for WindowsPrefix<'a> {
    ghost use Rattle.typed_path.specs.views.WindowsViews.{IsPrefixReading};

    type Error = ParseError;

    ghost try_from_gives = { λ text reading. IsPrefixReading text.now reading };

    fn try_from(text: &'a [u8]) -> Result<WindowsPrefix<'a>, ParseError> {
        let Some(found) = find_prefix(text) else {
            return Err("not a prefix");
        };
        if found.length < text.len() {
            return Err("contains more than prefix");
        }
        Ok(found.kind)
    }
}

/// Reads an array as the slice of its bytes.
impl<'a, const N: usize> TryFrom<&'a [u8; N]> for WindowsPrefix<'a> {
    ghost use Rattle.typed_path.specs.views.WindowsViews.{IsPrefixReading};

    type Error = ParseError;

    ghost try_from_gives = { λ text reading. IsPrefixReading text.now reading };

    fn try_from(text: &'a [u8; N]) -> Result<WindowsPrefix<'a>, ParseError> {
        WindowsPrefix::try_from(text.as_slice())
    }
}

/// Reads a text as the slice of its bytes.
impl<'a> TryFrom<&'a str> for WindowsPrefix<'a> {
    ghost use Rattle.typed_path.specs.views.WindowsViews.{IsPrefixReading};

    type Error = ParseError;

    ghost try_from_gives = { λ text reading. IsPrefixReading text.now reading };

    fn try_from(text: &'a str) -> Result<WindowsPrefix<'a>, ParseError> {
        WindowsPrefix::try_from(text.as_bytes())
    }
}

/// The prefix of a Windows path, with its raw bytes.
///
/// Equality, order and hash look only at the kind: how the prefix is written is no part of it.
#[derive(Clone, Copy, Debug)]
#[derive_where(PartialEq, Eq, PartialOrd, Ord, Hash)]
pub struct WindowsPrefixComponent<'a> {
    #[derive_where(skip(EqHashOrd))]
    raw: &'a [u8],
    kind: WindowsPrefix<'a>,
    ghost names: { has_text_names (prefix_part (prefix_view kind) raw.now) ≡ true },
}

impl<'a> WindowsPrefixComponent<'a> {
    ghost use Rattle.typed_path.specs.views.WindowsViews.{prefix_component_part};

    /// Returns the prefix `kind` with its raw bytes.
    #[inline(always)]
    pub(crate) fn new(raw: &'a [u8], kind: WindowsPrefix<'a>) -> WindowsPrefixComponent<'a>
        requires { has_text_names (prefix_part (prefix_view kind) raw.now) ≡ true }
        ensures { prefix_component_part result ≡ prefix_part (prefix_view kind.entry) raw.now }
    {
        WindowsPrefixComponent { raw, kind }
    }

    /// Returns which prefix it is.
    pub fn kind(self) -> WindowsPrefix<'a>
        ensures { prefix (prefix_view result) ≡ (prefix_component_part self.entry).kind }
    {
        self.kind
    }

    /// Returns how many bytes the prefix has.
    pub fn len(self) -> usize
        ensures { result ≡ length (prefix_component_part self.entry).text }
    {
        self.raw.len()
    }

    /// Returns the prefix as it is written in the path, as `c:` of `c:\a`.
    pub fn as_bytes(self) -> &'a [u8]
        ensures { result.now ≡ (prefix_component_part self.entry).text }
    {
        self.raw
    }
}

/// Reads bytes that are one prefix, and keeps them.
///
/// # Errors
///
/// Those of reading a [`WindowsPrefix`].
impl<'a> TryFrom<&'a [u8]> for WindowsPrefixComponent<'a> {
    ghost use Rattle.typed_path.specs.views.WindowsViews.{IsPrefixComponentReading};

    type Error = ParseError;

    ghost try_from_gives = { λ text reading. IsPrefixComponentReading text.now reading };

    fn try_from(text: &'a [u8]) -> Result<WindowsPrefixComponent<'a>, ParseError> {
        let kind = WindowsPrefix::try_from(text)?;
        Ok(WindowsPrefixComponent::new(text, kind))
    }
}

/// Reads an array as the slice of its bytes.
impl<'a, const N: usize> TryFrom<&'a [u8; N]> for WindowsPrefixComponent<'a> {
    ghost use Rattle.typed_path.specs.views.WindowsViews.{IsPrefixComponentReading};

    type Error = ParseError;

    ghost try_from_gives = { λ text reading. IsPrefixComponentReading text.now reading };

    fn try_from(text: &'a [u8; N]) -> Result<WindowsPrefixComponent<'a>, ParseError> {
        WindowsPrefixComponent::try_from(text.as_slice())
    }
}

/// Reads a text as the slice of its bytes.
impl<'a> TryFrom<&'a str> for WindowsPrefixComponent<'a> {
    ghost use Rattle.typed_path.specs.views.WindowsViews.{IsPrefixComponentReading};

    type Error = ParseError;

    ghost try_from_gives = { λ text reading. IsPrefixComponentReading text.now reading };

    fn try_from(text: &'a str) -> Result<WindowsPrefixComponent<'a>, ParseError> {
        WindowsPrefixComponent::try_from(text.as_bytes())
    }
}

/// A component of a Windows path.
///
/// The order is prefixes by kind, the root, the current directory, the parent directory, and then
/// names by their bytes.
#[derive(Clone, Copy, Debug, PartialEq, Eq, PartialOrd, Ord, Hash)]
pub enum WindowsComponent<'a> {
    /// The prefix, as `C:` or `\\server\share`.
    Prefix(WindowsPrefixComponent<'a>),
    /// The root directory, `\`.
    RootDir,
    /// The current directory, `.`.
    CurDir,
    /// The parent directory, `..`.
    ParentDir,
    /// A name.
    Normal(&'a [u8]),
}

impl<'a> WindowsComponent<'a> {
    ghost use Rattle.typed_path.specs.views.PathViews.{path_bytes};
    ghost use Rattle.typed_path.specs.views.WindowsViews.{windows_part, prefix_component_part};

    /// Returns the bytes of this one component as a path in the encoding that the caller names.
    /// Nothing is converted.
    pub fn as_path<T: Encoding>(self) -> Path<'a, T>
        ensures { path_bytes result ≡ (windows_part self.entry).text }
    {
        Path::new(self.as_bytes())
    }

    /// Whether the component is a prefix.
    pub fn is_prefix(self) -> bool
        ensures { result ≡ is_prefix (windows_part self.entry).kind }
    {
        matches!(self, WindowsComponent::Prefix(_))
    }

    /// Returns the prefix with its bytes, or `None` if the component is no prefix.
    pub fn prefix(self) -> Option<WindowsPrefixComponent<'a>>
        ensures { option_map prefix_component_part result
            ≡ prefix_part_in (windows_part self.entry) }
    {
        match self {
            WindowsComponent::Prefix(component) => Some(component),
            _ => None,
        }
    }

    /// Returns which prefix the component is, or `None` if it is no prefix.
    pub fn prefix_kind(self) -> Option<WindowsPrefix<'a>>
        ensures { option_map prefix_view result ≡ prefix_in (windows_part self.entry).kind }
    {
        Some(self.prefix()?.kind())
    }
}

impl<'a> Component<'a> for WindowsComponent<'a> {
    ghost use Rattle.typed_path.specs.views.WindowsViews.{windows_part};

    ghost dialect = { windows };

    ghost part = { windows_part };

    fn as_bytes(&self) -> &'a [u8] {
        match self {
            WindowsComponent::Prefix(component) => component.as_bytes(),
            WindowsComponent::RootDir => SEPARATOR_STR.as_bytes(),
            WindowsComponent::CurDir => CURRENT_DIR,
            WindowsComponent::ParentDir => PARENT_DIR,
            WindowsComponent::Normal(name) => name,
        }
    }

    fn is_root(&self) -> bool {
        match self {
            Self::RootDir => true,
            Self::Prefix(component) => !matches!(component.kind(), WindowsPrefix::Disk(_)),
            _ => false,
        }
    }

    fn is_normal(&self) -> bool {
        matches!(self, WindowsComponent::Normal(_))
    }

    fn is_parent(&self) -> bool {
        matches!(self, WindowsComponent::ParentDir)
    }

    fn is_current(&self) -> bool {
        matches!(self, WindowsComponent::CurDir)
    }

    fn is_valid(&self) -> bool {
        match self {
            WindowsComponent::Normal(name) => Separators::Either.is_valid_name(name),
            _ => true,
        }
    }

    fn may_be_device(&self) -> bool {
        match self {
            WindowsComponent::Normal(name) => may_be_device(name),
            _ => false,
        }
    }

    fn check_portable(&self) -> Result<(), PortableError> {
        match self {
            WindowsComponent::Prefix(_) => Err(PortableError::Prefix),
            WindowsComponent::Normal(name) => check_name(name),
            _ => Ok(()),
        }
    }

    fn len(&self) -> usize {
        self.as_bytes().len()
    }

    fn is_empty(&self) -> bool {
        self.as_bytes().is_empty()
    }

    fn root() -> WindowsComponent<'a> {
        WindowsComponent::RootDir
    }

    fn parent() -> WindowsComponent<'a> {
        WindowsComponent::ParentDir
    }

    fn current() -> WindowsComponent<'a> {
        WindowsComponent::CurDir
    }
}

/// Reads bytes that are one component: `c:` is a prefix, and `a/` is the name `a`.
///
/// # Errors
///
/// `no component found` if they have none, and `found more than one component` if they have more,
/// as `C:\` has.
impl<'a> TryFrom<&'a [u8]> for WindowsComponent<'a> {
    ghost use Rattle.typed_path.specs.views.WindowsViews.{IsWindowsReading};

    type Error = ParseError;

    ghost try_from_gives = { λ text reading. IsWindowsReading text.now reading };

    fn try_from(text: &'a [u8]) -> Result<WindowsComponent<'a>, ParseError> {
        let mut components = WindowsComponents::new(Path::new(text));
        let Some(component) = components.next() else {
            return Err("no component found");
        };
        match components.next() {
            None => Ok(component),
            Some(_) => Err("found more than one component"),
        }
    }
}

/// Reads an array as the slice of its bytes.
impl<'a, const N: usize> TryFrom<&'a [u8; N]> for WindowsComponent<'a> {
    ghost use Rattle.typed_path.specs.views.WindowsViews.{IsWindowsReading};

    type Error = ParseError;

    ghost try_from_gives = { λ text reading. IsWindowsReading text.now reading };

    fn try_from(text: &'a [u8; N]) -> Result<WindowsComponent<'a>, ParseError> {
        WindowsComponent::try_from(text.as_slice())
    }
}

/// Reads a text as the slice of its bytes.
impl<'a> TryFrom<&'a str> for WindowsComponent<'a> {
    ghost use Rattle.typed_path.specs.views.WindowsViews.{IsWindowsReading};

    type Error = ParseError;

    ghost try_from_gives = { λ text reading. IsWindowsReading text.now reading };

    fn try_from(text: &'a str) -> Result<WindowsComponent<'a>, ParseError> {
        WindowsComponent::try_from(text.as_bytes())
    }
}

/// The iterator over the components of a Windows path, from either end.
pub type WindowsComponents<'a> = Reading<'a, WindowsEncoding, Values>;

impl<'a> ReadAs<'a, WindowsEncoding> for Values {
    ghost use Rattle.typed_path.specs.views.Shown.{whole};
    ghost use Rattle.typed_path.specs.views.WindowsViews.{windows_part};

    ghost Seen = { Part };

    ghost seen = { windows_part };

    ghost shown = { whole };

    ghost named = { iterator_name windows };

    type Item = WindowsComponent<'a>;

    fn iterator_name() -> &'static str
        ensures { result.now ≡ iterator_name windows }
    {
        "WindowsComponents"
    }

    #[inline(always)]
    fn from_piece(piece: Piece<'a>) -> WindowsComponent<'a> {
        match piece.kind {
            PieceKind::Prefix(kind) => {
                WindowsComponent::Prefix(WindowsPrefixComponent::new(piece.text, kind))
            }
            PieceKind::RootDir => WindowsComponent::RootDir,
            PieceKind::CurDir => WindowsComponent::CurDir,
            PieceKind::ParentDir => WindowsComponent::ParentDir,
            PieceKind::Normal => WindowsComponent::Normal(piece.text),
        }
    }
}

impl<'a> Reading<'a, WindowsEncoding, Values> {
    ghost use Rattle.typed_path.specs.views.WindowsViews.{prefix_component_part};
    ghost use Rattle.typed_path.specs.views.PathViews.{components_parts};

    /// Whether the first component left is a prefix.
    pub fn has_prefix(self) -> bool
        ensures { result ≡ has_prefix (kinds (components_parts self.entry)) }
    {
        self.prefix_kind().is_some()
    }

    /// Returns the prefix with its bytes, or `None` if the first component left is no prefix.
    pub fn prefix(self) -> Option<WindowsPrefixComponent<'a>>
        ensures { option_map prefix_component_part result
            ≡ prefix_among (components_parts self.entry) }
    {
        <Values as ReadAs<'a, WindowsEncoding>>::from_piece(self.cursor().prefix_piece()?).prefix()
    }

    /// Returns which prefix the first component left is, or `None` if it is no prefix.
    pub fn prefix_kind(self) -> Option<WindowsPrefix<'a>>
        ensures { option_map prefix_view result
            ≡ first_prefix (kinds (components_parts self.entry)) }
    {
        self.cursor().prefix()
    }

    /// Whether the first component left is a verbatim prefix: `\\?\name`, `\\?\UNC\server\share` or
    /// `\\?\C:`. That of `//?/C:/a` is one, and that of `C:\a` is not.
    pub fn has_any_verbatim_prefix(self) -> bool
        ensures { result ≡ has_any_verbatim_prefix (kinds (components_parts self.entry)) }
    {
        match self.prefix_kind() {
            Some(prefix) => prefix.is_verbatim(),
            None => false,
        }
    }

    /// Whether the first component left is a prefix `\\?\name`.
    pub fn has_verbatim_prefix(self) -> bool
        ensures { result ≡ has_verbatim_prefix (kinds (components_parts self.entry)) }
    {
        matches!(self.prefix_kind(), Some(WindowsPrefix::Verbatim(_)))
    }

    /// Whether the first component left is a prefix `\\?\UNC\server\share`.
    pub fn has_verbatim_unc_prefix(self) -> bool
        ensures { result ≡ has_verbatim_unc_prefix (kinds (components_parts self.entry)) }
    {
        matches!(self.prefix_kind(), Some(WindowsPrefix::VerbatimUNC(..)))
    }

    /// Whether the first component left is a prefix `\\?\C:`.
    pub fn has_verbatim_disk_prefix(self) -> bool
        ensures { result ≡ has_verbatim_disk_prefix (kinds (components_parts self.entry)) }
    {
        matches!(self.prefix_kind(), Some(WindowsPrefix::VerbatimDisk(_)))
    }

    /// Whether the first component left is a prefix `\\.\name`.
    pub fn has_device_ns_prefix(self) -> bool
        ensures { result ≡ has_device_ns_prefix (kinds (components_parts self.entry)) }
    {
        matches!(self.prefix_kind(), Some(WindowsPrefix::DeviceNS(_)))
    }

    /// Whether the first component left is a prefix `\\server\share`.
    pub fn has_unc_prefix(self) -> bool
        ensures { result ≡ has_unc_prefix (kinds (components_parts self.entry)) }
    {
        matches!(self.prefix_kind(), Some(WindowsPrefix::UNC(..)))
    }

    /// Whether the first component left is a prefix `C:`.
    pub fn has_disk_prefix(self) -> bool
        ensures { result ≡ has_disk_prefix (kinds (components_parts self.entry)) }
    {
        matches!(self.prefix_kind(), Some(WindowsPrefix::Disk(_)))
    }

    /// Whether a root is written: it is the first component left, or comes right after the prefix,
    /// as in `C:\a`. `C:a` and `\\s\h` have none.
    pub fn has_physical_root(self) -> bool
        ensures { result ≡ has_physical_root (kinds (components_parts self.entry)) }
    {
        self.cursor().has_physical_root()
    }

    /// Whether the first component left is a prefix other than `C:`, which implies a root, as in
    /// `\\s\h`. It is true of `\\?\C:` too, after which `has_root` asks for a written one.
    pub fn has_implicit_root(self) -> bool
        ensures { result ≡ has_implicit_root (kinds (components_parts self.entry)) }
    {
        self.cursor().has_implicit_root()
    }
}
