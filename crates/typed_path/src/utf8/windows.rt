//! Windows paths of text: their encoding, prefixes and components, and what these answer.
#![tactic(auto, using(crate::proofs::lemmas::texts::TextChanges::text_laws))]

ghost use Rattle.std.specs.Prelude.{◌≡◌, true, false, codes, Some, min, is_ok, IfOk, IfErr, length, option_map};
ghost use Rattle.std.specs.Str.{is_utf8};
ghost use Rattle.typed_path.specs.components.{windows, Part, kinds};
ghost use Rattle.typed_path.specs.views.TextComponentViews.{text_windows_part, IsTextPrefixReading, text_prefix_part, IsTextPrefixComponentReading, IsTextWindowsReading};
ghost use Rattle.typed_path.specs.queries.{is_verbatim_prefix, prefix_length, is_prefix, prefix_in, prefix_part_in, first_prefix, prefix_among, has_prefix, has_any_verbatim_prefix, has_verbatim_prefix, has_verbatim_unc_prefix, has_verbatim_disk_prefix, has_device_ns_prefix, has_unc_prefix, has_disk_prefix, has_physical_root, has_implicit_root, simplified_text};
ghost use Rattle.typed_path.specs.texts.{is_text_prefix, is_text_part, is_text_part_option, IsTextError, prefix_no_text, part_no_text};
ghost use Rattle.typed_path.specs.views.PieceViews.{prefix_view};
ghost use Rattle.typed_path.specs.views.TextPieceViews.{text_prefix};
ghost use Rattle.typed_path.specs.views.WindowsViews.{prefix_component_part, windows_part};
ghost use Rattle.typed_path.specs.views.TextViews.{utf8_bytes};
ghost use Rattle.typed_path.specs.views.ReadingViews.{reading_parts, reading_slice};

use crate::common::{Encoding, ReadAs, Values, check_name};
use crate::constants::windows::{CURRENT_DIR_STR, PARENT_DIR_STR, SEPARATOR_STR};
use crate::errors::{ParseError, PortableError};
use crate::scan::{Piece, WindowsPrefix, may_be_device};
use crate::utf8::encoding::{Utf8Component, Utf8Encoding, text_of};
use crate::utf8::path::Utf8Path;
use crate::utf8::path_buf::Utf8PathBuf;
use crate::utf8::reading::{FromPiece, Utf8Reading};
use crate::windows::{WindowsComponent, WindowsEncoding, WindowsPrefixComponent};
use std::str::Utf8Error;
use std::{fmt, str};

/// The encoding of Windows paths of text.
#[derive(Clone, Copy, Debug, Default, PartialEq, Eq, PartialOrd, Ord, Hash)]
pub struct Utf8WindowsEncoding;

/// A path of text that is written as on Windows.
pub type Utf8WindowsPath<'a> = Utf8Path<'a, Utf8WindowsEncoding>;

/// An owned path of text that is written as on Windows.
pub type Utf8WindowsPathBuf = Utf8PathBuf<Utf8WindowsEncoding>;

impl Utf8Encoding for Utf8WindowsEncoding {
    type Bytes = WindowsEncoding;

    ghost IS_PLATFORM = { false };

    const IS_PLATFORM: bool = false;
}

impl<'a> Utf8Path<'a, Utf8WindowsEncoding> {
    /// Returns a path of a verbatim drive, `\\?\C:`, without its `\\?\`, if that means the same to
    /// Windows; else the path itself. [`Path::simplified`] says when it does.
    ///
    /// [`Path::simplified`]: crate::Path::simplified
    pub fn simplified(self) -> Utf8WindowsPath<'a>
        ensures { utf8_bytes result ≡ simplified_text windows (utf8_bytes self.entry) }
    {
        Utf8Path::of(self.as_bytes_path().simplified())
    }
}

/// Prints the name of the type.
impl fmt::Display for Utf8WindowsEncoding {
    ghost output = { λ _. Some (codes "Utf8WindowsEncoding") };

    fn fmt<W: fmt::Write>(&self, f: &mut fmt::Formatter<W>) -> fmt::Result {
        f.pad("Utf8WindowsEncoding")
    }
}

/// The prefix of a Windows path of text, which comes before its root.
///
/// The names are slices of the path's text. A drive letter is the character whose number is the
/// byte, in ASCII upper case. Kinds are ordered as they are listed here, and prefixes of one kind
/// by their names or letters.
#[derive(Clone, Copy, Debug, PartialEq, Eq, PartialOrd, Ord, Hash)]
pub enum Utf8WindowsPrefix<'a> {
    /// `\\?\name`
    Verbatim(&'a str),
    /// `\\?\UNC\server\share`
    VerbatimUNC(&'a str, &'a str),
    /// `\\?\C:`
    VerbatimDisk(char),
    /// `\\.\name`
    DeviceNS(&'a str),
    /// `\\server\share`
    UNC(&'a str, &'a str),
    /// `C:`
    Disk(char),
}

impl<'a> Utf8WindowsPrefix<'a> {
    /// Returns a prefix of bytes as one of text.
    ///
    /// # Errors
    ///
    /// `Utf8Error` of the first name that is not UTF-8, exactly if there is one.
    pub fn from_utf8(prefix: &WindowsPrefix<'a>) -> Result<Utf8WindowsPrefix<'a>, Utf8Error>
        ensures ok { IfOk result (λ p. text_prefix p ≡ prefix_view prefix.now) }
        ensures flag { is_ok result ≡ is_text_prefix (prefix_view prefix.now) }
        ensures err { IfErr result (IsTextError (prefix_no_text (prefix_view prefix.now))) }
    {
        Ok(match *prefix {
            WindowsPrefix::Verbatim(name) => Self::Verbatim(str::from_utf8(name)?),
            WindowsPrefix::VerbatimUNC(server, share) => {
                Self::VerbatimUNC(str::from_utf8(server)?, str::from_utf8(share)?)
            }
            WindowsPrefix::VerbatimDisk(letter) => Self::VerbatimDisk(char::from(letter)),
            WindowsPrefix::DeviceNS(name) => Self::DeviceNS(str::from_utf8(name)?),
            WindowsPrefix::UNC(server, share) => {
                Self::UNC(str::from_utf8(server)?, str::from_utf8(share)?)
            }
            WindowsPrefix::Disk(letter) => Self::Disk(char::from(letter)),
        })
    }

    /// Returns a prefix of bytes as one of text. Its names are known to be UTF-8, and not checked
    /// again.
    pub fn from_utf8_unchecked(prefix: &WindowsPrefix<'a>) -> Utf8WindowsPrefix<'a>
        requires { is_text_prefix (prefix_view prefix.now) ≡ true }
        ensures { text_prefix result ≡ prefix_view prefix.now }
    {
        match *prefix {
            WindowsPrefix::Verbatim(name) => Self::Verbatim(text_of(name)),
            WindowsPrefix::VerbatimUNC(server, share) => {
                Self::VerbatimUNC(text_of(server), text_of(share))
            }
            WindowsPrefix::VerbatimDisk(letter) => Self::VerbatimDisk(char::from(letter)),
            WindowsPrefix::DeviceNS(name) => Self::DeviceNS(text_of(name)),
            WindowsPrefix::UNC(server, share) => Self::UNC(text_of(server), text_of(share)),
            WindowsPrefix::Disk(letter) => Self::Disk(char::from(letter)),
        }
    }

    /// Returns the prefix as one of bytes, but with `C` as the letter of a drive: its length and
    /// its kind are the same.
    fn outline(self) -> WindowsPrefix<'a>
        ensures length { prefix_length (prefix_view result)
            ≡ prefix_length (text_prefix self.entry) }
        ensures verbatim { is_verbatim_prefix (prefix_view result)
            ≡ is_verbatim_prefix (text_prefix self.entry) }
    {
        match self {
            Self::Verbatim(name) => WindowsPrefix::Verbatim(name.as_bytes()),
            Self::VerbatimUNC(server, share) => {
                WindowsPrefix::VerbatimUNC(server.as_bytes(), share.as_bytes())
            }
            Self::VerbatimDisk(_) => WindowsPrefix::VerbatimDisk(b'C'),
            Self::DeviceNS(name) => WindowsPrefix::DeviceNS(name.as_bytes()),
            Self::UNC(server, share) => WindowsPrefix::UNC(server.as_bytes(), share.as_bytes()),
            Self::Disk(_) => WindowsPrefix::Disk(b'C'),
        }
    }

    /// Returns how many bytes the prefix has when it is written with one separator between names,
    /// or `usize::MAX` if it has more.
    pub fn len(self) -> usize
        ensures { result ≡ min (prefix_length (text_prefix self.entry)) usize.MAX }
    {
        self.outline().len()
    }

    /// Whether the prefix is of one of the three verbatim kinds.
    pub fn is_verbatim(self) -> bool
        ensures { result ≡ is_verbatim_prefix (text_prefix self.entry) }
    {
        self.outline().is_verbatim()
    }
}

/// Reads a text that is one prefix: `c:` is the drive `C`.
///
/// # Errors
///
/// Those of reading a [`WindowsPrefix`].
impl<'a> TryFrom<&'a str> for Utf8WindowsPrefix<'a> {
    type Error = ParseError;

    ghost try_from_gives = { λ text reading. IsTextPrefixReading text.now reading };

    fn try_from(text: &'a str) -> Result<Utf8WindowsPrefix<'a>, ParseError> {
        match WindowsPrefix::try_from(text) {
            Ok(prefix) => Ok(Utf8WindowsPrefix::from_utf8_unchecked(&prefix)),
            Err(why) => Err(why),
        }
    }
}

/// The prefix of a Windows path of text, with its raw text.
///
/// Equality, order and hash look only at the kind: how the prefix is written is no part of it.
#[derive(Clone, Copy, Debug)]
#[derive_where(PartialEq, Eq, PartialOrd, Ord, Hash)]
pub struct Utf8WindowsPrefixComponent<'a> {
    #[derive_where(skip(EqHashOrd))]
    raw: &'a str,
    kind: Utf8WindowsPrefix<'a>,
}

impl<'a> Utf8WindowsPrefixComponent<'a> {
    ghost use Rattle.typed_path.specs.components.{prefix};

    /// Returns a prefix component of bytes as one of text. Its names are UTF-8 if its raw bytes
    /// are.
    ///
    /// # Errors
    ///
    /// `Utf8Error` exactly if the raw bytes are not UTF-8.
    pub fn from_utf8(component: &WindowsPrefixComponent<'a>) -> Result<Self, Utf8Error>
        ensures ok { IfOk result (λ c. text_prefix_part c ≡ prefix_component_part component.now) }
        ensures flag { is_ok result ≡ is_text_part (prefix_component_part component.now) }
        ensures err { IfErr result (IsTextError
            (part_no_text (prefix_component_part component.now))) }
    {
        let raw = str::from_utf8(component.as_bytes())?;
        let kind = Utf8WindowsPrefix::from_utf8_unchecked(&component.kind());
        Ok(Utf8WindowsPrefixComponent { raw, kind })
    }

    /// Returns a prefix component of bytes as one of text. It is known to be UTF-8, and not checked
    /// again.
    pub fn from_utf8_unchecked(component: &WindowsPrefixComponent<'a>) -> Self
        requires { is_utf8 (prefix_component_part component.now).text ≡ true }
        ensures { text_prefix_part result ≡ prefix_component_part component.now }
    {
        Utf8WindowsPrefixComponent {
            raw: text_of(component.as_bytes()),
            kind: Utf8WindowsPrefix::from_utf8_unchecked(&component.kind()),
        }
    }

    /// Returns a prefix component of bytes as one of text, and `None` for `None`.
    ///
    /// It is known to be UTF-8, and not checked again.
    pub(super) fn of_option(component: Option<WindowsPrefixComponent<'a>>) -> Option<Self>
        requires { is_text_part_option (option_map prefix_component_part component) ≡ true }
        ensures { option_map text_prefix_part result
            ≡ option_map prefix_component_part component.entry }
    {
        match component {
            Some(component) => Some(Utf8WindowsPrefixComponent::from_utf8_unchecked(&component)),
            None => None,
        }
    }

    /// Returns which prefix it is.
    pub fn kind(self) -> Utf8WindowsPrefix<'a>
        ensures { prefix (text_prefix result) ≡ (text_prefix_part self.entry).kind }
    {
        self.kind
    }

    /// Returns how many bytes the prefix has.
    pub fn len(self) -> usize
        ensures { result ≡ length (text_prefix_part self.entry).text }
    {
        self.raw.len()
    }

    /// Returns the prefix as it is written in the path, as `c:` of `c:\a`.
    pub fn as_str(self) -> &'a str
        ensures { result.now ≡ (text_prefix_part self.entry).text }
    {
        self.raw
    }
}

/// Reads a text that is one prefix, and keeps it.
///
/// # Errors
///
/// Those of reading a [`WindowsPrefix`].
impl<'a> TryFrom<&'a str> for Utf8WindowsPrefixComponent<'a> {
    type Error = ParseError;

    ghost try_from_gives = { λ text reading. IsTextPrefixComponentReading text.now reading };

    fn try_from(text: &'a str) -> Result<Utf8WindowsPrefixComponent<'a>, ParseError> {
        match WindowsPrefixComponent::try_from(text) {
            Ok(component) => Ok(Utf8WindowsPrefixComponent::from_utf8_unchecked(&component)),
            Err(why) => Err(why),
        }
    }
}

/// A component of a Windows path of text.
///
/// The order is prefixes by kind, the root, the current directory, the parent directory, and then
/// names by their bytes.
#[derive(Clone, Copy, Debug, PartialEq, Eq, PartialOrd, Ord, Hash)]
pub enum Utf8WindowsComponent<'a> {
    /// The prefix, as `C:` or `\\server\share`.
    Prefix(Utf8WindowsPrefixComponent<'a>),
    /// The root directory, `\`.
    RootDir,
    /// The current directory, `.`.
    CurDir,
    /// The parent directory, `..`.
    ParentDir,
    /// A name.
    Normal(&'a str),
}

impl<'a> Utf8WindowsComponent<'a> {
    /// Returns a component of bytes as one of text.
    ///
    /// # Errors
    ///
    /// `Utf8Error` exactly if it is a name that is not UTF-8, or a prefix whose raw bytes are not.
    #[tactic(auto, using(crate::proofs::lemmas::texts::TextChanges::component_laws))]
    pub fn from_utf8(component: &WindowsComponent<'a>) -> Result<Self, Utf8Error>
        ensures ok { IfOk result (λ c. text_windows_part c ≡ windows_part component.now) }
        ensures flag { is_ok result ≡ is_text_part (windows_part component.now) }
        ensures err { IfErr result (IsTextError (part_no_text (windows_part component.now))) }
    {
        match component {
            WindowsComponent::Prefix(prefix) => {
                let prefix = Utf8WindowsPrefixComponent::from_utf8(prefix)?;
                Ok(Self::Prefix(prefix))
            }
            WindowsComponent::RootDir => Ok(Self::RootDir),
            WindowsComponent::CurDir => Ok(Self::CurDir),
            WindowsComponent::ParentDir => Ok(Self::ParentDir),
            WindowsComponent::Normal(name) => Ok(Self::Normal(str::from_utf8(name)?)),
        }
    }

    /// Returns a component of bytes as one of text. It is known to be UTF-8, and not checked again.
    #[inline(always)]
    pub fn from_utf8_unchecked(component: &WindowsComponent<'a>) -> Utf8WindowsComponent<'a>
        requires { is_text_part (windows_part component.now) ≡ true }
        ensures { text_windows_part result ≡ windows_part component.now }
    {
        match component {
            WindowsComponent::Prefix(prefix) => {
                Self::Prefix(Utf8WindowsPrefixComponent::from_utf8_unchecked(prefix))
            }
            WindowsComponent::RootDir => Self::RootDir,
            WindowsComponent::CurDir => Self::CurDir,
            WindowsComponent::ParentDir => Self::ParentDir,
            WindowsComponent::Normal(name) => Self::Normal(text_of(name)),
        }
    }

    /// Whether the component is a prefix.
    pub fn is_prefix(self) -> bool
        ensures { result ≡ is_prefix (text_windows_part self.entry).kind }
    {
        matches!(self, Self::Prefix(_))
    }

    /// Returns the prefix with its text, or `None` if the component is no prefix.
    pub fn prefix(self) -> Option<Utf8WindowsPrefixComponent<'a>>
        ensures { option_map text_prefix_part result
            ≡ prefix_part_in (text_windows_part self.entry) }
    {
        match self {
            Self::Prefix(component) => Some(component),
            _ => None,
        }
    }

    /// Returns which prefix the component is, or `None` if it is no prefix.
    pub fn prefix_kind(self) -> Option<Utf8WindowsPrefix<'a>>
        ensures { option_map text_prefix result ≡ prefix_in (text_windows_part self.entry).kind }
    {
        Some(self.prefix()?.kind())
    }

    /// Returns the text of this one component as a path in the encoding that the caller names.
    /// Nothing is converted.
    pub fn as_path<T: Utf8Encoding>(self) -> Utf8Path<'a, T>
        ensures { utf8_bytes result ≡ (text_windows_part self.entry).text }
    {
        Utf8Path::new(self.as_str())
    }
}

impl<'a> Utf8Component<'a> for Utf8WindowsComponent<'a> {
    ghost dialect = { windows };

    ghost part = { text_windows_part };

    fn as_str(&self) -> &'a str {
        match self {
            Utf8WindowsComponent::Prefix(component) => component.as_str(),
            Utf8WindowsComponent::RootDir => SEPARATOR_STR,
            Utf8WindowsComponent::CurDir => CURRENT_DIR_STR,
            Utf8WindowsComponent::ParentDir => PARENT_DIR_STR,
            Utf8WindowsComponent::Normal(name) => name,
        }
    }

    fn is_root(&self) -> bool {
        match self {
            Self::RootDir => true,
            Self::Prefix(component) => !matches!(component.kind(), Utf8WindowsPrefix::Disk(_)),
            _ => false,
        }
    }

    fn is_normal(&self) -> bool {
        matches!(self, Utf8WindowsComponent::Normal(_))
    }

    fn is_parent(&self) -> bool {
        matches!(self, Utf8WindowsComponent::ParentDir)
    }

    fn is_current(&self) -> bool {
        matches!(self, Utf8WindowsComponent::CurDir)
    }

    fn is_valid(&self) -> bool {
        match self {
            Utf8WindowsComponent::Normal(name) => WindowsEncoding::valid(name.as_bytes()),
            _ => true,
        }
    }

    fn may_be_device(&self) -> bool {
        match self {
            Utf8WindowsComponent::Normal(name) => may_be_device(name.as_bytes()),
            _ => false,
        }
    }

    fn check_portable(&self) -> Result<(), PortableError> {
        match self {
            Utf8WindowsComponent::Prefix(_) => Err(PortableError::Prefix),
            Utf8WindowsComponent::Normal(name) => check_name(name.as_bytes()),
            _ => Ok(()),
        }
    }

    fn len(&self) -> usize {
        self.as_str().len()
    }

    fn is_empty(&self) -> bool {
        self.as_str().is_empty()
    }

    fn root() -> Utf8WindowsComponent<'a> {
        Utf8WindowsComponent::RootDir
    }

    fn parent() -> Utf8WindowsComponent<'a> {
        Utf8WindowsComponent::ParentDir
    }

    fn current() -> Utf8WindowsComponent<'a> {
        Utf8WindowsComponent::CurDir
    }
}

/// Prints the text of the component.
impl<'a> fmt::Display for Utf8WindowsComponent<'a> {
    ghost output = { λ c. Some (text_windows_part c).text };

    fn fmt<W: fmt::Write>(&self, f: &mut fmt::Formatter<W>) -> fmt::Result {
        f.pad(self.as_str())
    }
}

impl<'a> FromPiece<'a, Utf8WindowsEncoding> for Utf8WindowsComponent<'a> {
    ghost Seen = { Part };

    ghost seen = { text_windows_part };

    ghost seen_of = { λ p. p };

    const ITERATOR: &'static str = "Utf8WindowsComponents";

    #[inline(always)]
    fn from_piece(piece: Piece<'a>) -> Utf8WindowsComponent<'a> {
        Self::from_utf8_unchecked(&<Values as ReadAs<'a, WindowsEncoding>>::from_piece(piece))
    }
}

/// Reads a text that is one component: `c:` is a prefix, and `a/` is the name `a`.
///
/// # Errors
///
/// Those of reading a [`WindowsComponent`].
impl<'a> TryFrom<&'a str> for Utf8WindowsComponent<'a> {
    type Error = ParseError;

    ghost try_from_gives = { λ text reading. IsTextWindowsReading text.now reading };

    fn try_from(text: &'a str) -> Result<Utf8WindowsComponent<'a>, ParseError> {
        match WindowsComponent::try_from(text) {
            Ok(component) => Ok(Utf8WindowsComponent::from_utf8_unchecked(&component)),
            Err(why) => Err(why),
        }
    }
}

/// The iterator over the components of a Windows path of text, from either end.
pub type Utf8WindowsComponents<'a> = Utf8Reading<'a, Utf8WindowsEncoding, Utf8WindowsComponent<'a>>;

impl<'a> Utf8Reading<'a, Utf8WindowsEncoding, Utf8WindowsComponent<'a>> {
    /// Returns the slice left, unconverted, as a path in the encoding that the caller names.
    pub fn as_path<U: Utf8Encoding>(self) -> Utf8Path<'a, U>
        ensures { utf8_bytes result ≡ reading_slice self.entry }
    {
        Utf8Path::new(self.as_str())
    }

    /// Returns the prefix with its text, or `None` if the first component left is no prefix.
    pub fn prefix(self) -> Option<Utf8WindowsPrefixComponent<'a>>
        ensures { option_map text_prefix_part result ≡ prefix_among (reading_parts self.entry) }
    {
        Utf8WindowsPrefixComponent::of_option(self.bytes().prefix())
    }

    /// Returns which prefix the first component left is, or `None` if it is no prefix.
    pub fn prefix_kind(self) -> Option<Utf8WindowsPrefix<'a>>
        ensures { option_map text_prefix result ≡ first_prefix (kinds (reading_parts self.entry)) }
    {
        Some(self.prefix()?.kind())
    }

    /// Whether the first component left is a prefix.
    pub fn has_prefix(self) -> bool
        ensures { result ≡ has_prefix (kinds (reading_parts self.entry)) }
    {
        self.bytes().has_prefix()
    }

    /// Whether the first component left is a verbatim prefix: `\\?\name`, `\\?\UNC\server\share` or
    /// `\\?\C:`. That of `//?/C:/a` is one, and that of `C:\a` is not.
    pub fn has_any_verbatim_prefix(self) -> bool
        ensures { result ≡ has_any_verbatim_prefix (kinds (reading_parts self.entry)) }
    {
        self.bytes().has_any_verbatim_prefix()
    }

    /// Whether the first component left is a prefix `\\?\name`.
    pub fn has_verbatim_prefix(self) -> bool
        ensures { result ≡ has_verbatim_prefix (kinds (reading_parts self.entry)) }
    {
        self.bytes().has_verbatim_prefix()
    }

    /// Whether the first component left is a prefix `\\?\UNC\server\share`.
    pub fn has_verbatim_unc_prefix(self) -> bool
        ensures { result ≡ has_verbatim_unc_prefix (kinds (reading_parts self.entry)) }
    {
        self.bytes().has_verbatim_unc_prefix()
    }

    /// Whether the first component left is a prefix `\\?\C:`.
    pub fn has_verbatim_disk_prefix(self) -> bool
        ensures { result ≡ has_verbatim_disk_prefix (kinds (reading_parts self.entry)) }
    {
        self.bytes().has_verbatim_disk_prefix()
    }

    /// Whether the first component left is a prefix `\\.\name`.
    pub fn has_device_ns_prefix(self) -> bool
        ensures { result ≡ has_device_ns_prefix (kinds (reading_parts self.entry)) }
    {
        self.bytes().has_device_ns_prefix()
    }

    /// Whether the first component left is a prefix `\\server\share`.
    pub fn has_unc_prefix(self) -> bool
        ensures { result ≡ has_unc_prefix (kinds (reading_parts self.entry)) }
    {
        self.bytes().has_unc_prefix()
    }

    /// Whether the first component left is a prefix `C:`.
    pub fn has_disk_prefix(self) -> bool
        ensures { result ≡ has_disk_prefix (kinds (reading_parts self.entry)) }
    {
        self.bytes().has_disk_prefix()
    }

    /// Whether a root is written: it is the first component left, or comes right after the prefix,
    /// as in `C:\a`. `C:a` and `\\s\h` have none.
    pub fn has_physical_root(self) -> bool
        ensures { result ≡ has_physical_root (kinds (reading_parts self.entry)) }
    {
        self.bytes().has_physical_root()
    }

    /// Whether the first component left is a prefix other than `C:`, which implies a root, as in
    /// `\\s\h`. It is true of `\\?\C:` too, after which `has_root` asks for a written one.
    pub fn has_implicit_root(self) -> bool
        ensures { result ≡ has_implicit_root (kinds (reading_parts self.entry)) }
    {
        self.bytes().has_implicit_root()
    }
}
