//! Unix paths of text: their encoding, and what their components answer; and the paths of the
//! machine.
#![tactic(auto, using(crate::proofs::lemmas::texts::TextChanges::text_laws))]

ghost use Rattle.std.specs.Prelude.{◌≡◌, true, false, codes, Some, is_ok, IfOk, IfErr};
ghost use Rattle.typed_path.specs.components.{unix, Part};
ghost use Rattle.typed_path.specs.views.TextComponentViews.{text_unix_part, IsTextOfUnix, IsTextUnixReading};
ghost use Rattle.typed_path.specs.texts.{is_text_part, IsTextError, part_no_text};
ghost use Rattle.typed_path.specs.views.TextViews.{utf8_bytes};
ghost use Rattle.typed_path.specs.views.UnixViews.{unix_part};
ghost use Rattle.typed_path.specs.views.ReadingViews.{reading_slice};

use crate::common::{Encoding, ReadAs, Values, check_name};
use crate::constants::unix::{CURRENT_DIR_STR, PARENT_DIR_STR, SEPARATOR_STR};
use crate::errors::{ParseError, PortableError};
use crate::platform::PlatformEncoding;
use crate::scan::{Piece, may_be_device};
use crate::unix::{UnixComponent, UnixEncoding};
use crate::utf8::encoding::{Utf8Component, Utf8Encoding, text_of};
use crate::utf8::path::Utf8Path;
use crate::utf8::path_buf::Utf8PathBuf;
use crate::utf8::reading::{FromPiece, Utf8Reading};
use std::str::Utf8Error;
use std::{fmt, str};

/// The encoding of Unix paths of text.
#[derive(Clone, Copy, Debug, Default, PartialEq, Eq, PartialOrd, Ord, Hash)]
pub struct Utf8UnixEncoding;

/// A path of text that is written as on Unix.
pub type Utf8UnixPath<'a> = Utf8Path<'a, Utf8UnixEncoding>;

/// An owned path of text that is written as on Unix.
pub type Utf8UnixPathBuf = Utf8PathBuf<Utf8UnixEncoding>;

impl Utf8Encoding for Utf8UnixEncoding {
    type Bytes = UnixEncoding;

    ghost IS_PLATFORM = { false };

    const IS_PLATFORM: bool = false;
}

/// Prints the name of the type.
impl fmt::Display for Utf8UnixEncoding {
    ghost output = { λ _. Some (codes "Utf8UnixEncoding") };

    fn fmt<W: fmt::Write>(&self, f: &mut fmt::Formatter<W>) -> fmt::Result {
        f.pad("Utf8UnixEncoding")
    }
}

/// A component of a Unix path of text.
///
/// The order is the root, the current directory, the parent directory, and then names by their
/// bytes.
#[derive(Clone, Copy, Debug, PartialEq, Eq, PartialOrd, Ord, Hash)]
pub enum Utf8UnixComponent<'a> {
    /// The root directory, `/`.
    RootDir,
    /// The current directory, `.`.
    CurDir,
    /// The parent directory, `..`.
    ParentDir,
    /// A name.
    Normal(&'a str),
}

/// The iterator over the components of a Unix path of text, from either end.
pub type Utf8UnixComponents<'a> = Utf8Reading<'a, Utf8UnixEncoding, Utf8UnixComponent<'a>>;

impl<'a> Utf8UnixComponent<'a> {
    /// Returns a component of bytes as one of text.
    ///
    /// # Errors
    ///
    /// `Utf8Error` exactly if it is a name that is not UTF-8.
    #[tactic(auto, using(crate::proofs::lemmas::texts::TextChanges::component_laws))]
    pub fn from_utf8(component: &UnixComponent<'a>) -> Result<Utf8UnixComponent<'a>, Utf8Error>
        ensures ok { IfOk result (λ c. text_unix_part c ≡ unix_part component.now) }
        ensures flag { is_ok result ≡ is_text_part (unix_part component.now) }
        ensures err { IfErr result (IsTextError (part_no_text (unix_part component.now))) }
    {
        match *component {
            UnixComponent::RootDir => Ok(Utf8UnixComponent::RootDir),
            UnixComponent::CurDir => Ok(Utf8UnixComponent::CurDir),
            UnixComponent::ParentDir => Ok(Utf8UnixComponent::ParentDir),
            UnixComponent::Normal(name) => Ok(Utf8UnixComponent::Normal(str::from_utf8(name)?)),
        }
    }

    /// Returns a component of bytes as one of text. It is known to be UTF-8, and not checked again.
    #[inline(always)]
    pub fn from_utf8_unchecked(component: &UnixComponent<'a>) -> Utf8UnixComponent<'a>
        requires { is_text_part (unix_part component.now) ≡ true }
        ensures { text_unix_part result ≡ unix_part component.now }
    {
        match *component {
            UnixComponent::RootDir => Utf8UnixComponent::RootDir,
            UnixComponent::CurDir => Utf8UnixComponent::CurDir,
            UnixComponent::ParentDir => Utf8UnixComponent::ParentDir,
            UnixComponent::Normal(name) => Utf8UnixComponent::Normal(text_of(name)),
        }
    }

    /// Returns the text of this one component as a path in the encoding that the caller names.
    /// Nothing is converted.
    pub fn as_path<T: Utf8Encoding>(self) -> Utf8Path<'a, T>
        ensures { utf8_bytes result ≡ (text_unix_part self.entry).text }
    {
        Utf8Path::new(self.as_str())
    }
}

impl<'a> Utf8Component<'a> for Utf8UnixComponent<'a> {
    ghost dialect = { unix };

    ghost part = { text_unix_part };

    fn as_str(&self) -> &'a str {
        match self {
            Utf8UnixComponent::RootDir => SEPARATOR_STR,
            Utf8UnixComponent::CurDir => CURRENT_DIR_STR,
            Utf8UnixComponent::ParentDir => PARENT_DIR_STR,
            Utf8UnixComponent::Normal(name) => name,
        }
    }

    fn is_root(&self) -> bool {
        matches!(self, Utf8UnixComponent::RootDir)
    }

    fn is_normal(&self) -> bool {
        matches!(self, Utf8UnixComponent::Normal(_))
    }

    fn is_parent(&self) -> bool {
        matches!(self, Utf8UnixComponent::ParentDir)
    }

    fn is_current(&self) -> bool {
        matches!(self, Utf8UnixComponent::CurDir)
    }

    fn is_valid(&self) -> bool {
        match self {
            Utf8UnixComponent::Normal(name) => UnixEncoding::valid(name.as_bytes()),
            _ => true,
        }
    }

    fn may_be_device(&self) -> bool {
        match self {
            Utf8UnixComponent::Normal(name) => may_be_device(name.as_bytes()),
            _ => false,
        }
    }

    fn check_portable(&self) -> Result<(), PortableError> {
        match self {
            Utf8UnixComponent::Normal(name) => check_name(name.as_bytes()),
            _ => Ok(()),
        }
    }

    fn len(&self) -> usize {
        self.as_str().len()
    }

    fn is_empty(&self) -> bool {
        self.as_str().is_empty()
    }

    fn root() -> Utf8UnixComponent<'a> {
        Utf8UnixComponent::RootDir
    }

    fn parent() -> Utf8UnixComponent<'a> {
        Utf8UnixComponent::ParentDir
    }

    fn current() -> Utf8UnixComponent<'a> {
        Utf8UnixComponent::CurDir
    }
}

/// Prints the text of the component.
impl<'a> fmt::Display for Utf8UnixComponent<'a> {
    ghost output = { λ c. Some (text_unix_part c).text };

    fn fmt<W: fmt::Write>(&self, f: &mut fmt::Formatter<W>) -> fmt::Result {
        f.pad(self.as_str())
    }
}

impl<'a> FromPiece<'a, Utf8UnixEncoding> for Utf8UnixComponent<'a> {
    ghost Seen = { Part };

    ghost seen = { text_unix_part };

    ghost seen_of = { λ p. p };

    const ITERATOR: &'static str = "Utf8UnixComponents";

    #[inline(always)]
    fn from_piece(piece: Piece<'a>) -> Utf8UnixComponent<'a> {
        Self::from_utf8_unchecked(&<Values as ReadAs<'a, UnixEncoding>>::from_piece(piece))
    }
}

impl<'a> Utf8Reading<'a, Utf8UnixEncoding, Utf8UnixComponent<'a>> {
    /// Returns the slice left, unconverted, as a path in the encoding that the caller names.
    pub fn as_path<U: Utf8Encoding>(self) -> Utf8Path<'a, U>
        ensures { utf8_bytes result ≡ reading_slice self.entry }
    {
        Utf8Path::new(self.as_str())
    }
}

/// Makes the component of text, as [`Utf8UnixComponent::from_utf8`] does.
impl<'a> TryFrom<UnixComponent<'a>> for Utf8UnixComponent<'a> {
    type Error = Utf8Error;

    ghost try_from_gives = { λ component made. IsTextOfUnix component made };

    fn try_from(component: UnixComponent<'a>) -> Result<Utf8UnixComponent<'a>, Utf8Error> {
        Utf8UnixComponent::from_utf8(&component)
    }
}

/// Reads a text that is one component: `a//.` is the name `a`.
///
/// # Errors
///
/// Those of reading a [`UnixComponent`].
impl<'a> TryFrom<&'a str> for Utf8UnixComponent<'a> {
    type Error = ParseError;

    ghost try_from_gives = { λ text reading. IsTextUnixReading text.now reading };

    fn try_from(text: &'a str) -> Result<Utf8UnixComponent<'a>, ParseError> {
        match UnixComponent::try_from(text) {
            Ok(component) => Ok(Utf8UnixComponent::from_utf8_unchecked(&component)),
            Err(why) => Err(why),
        }
    }
}

/// The encoding of the machine's paths of text, which forwards to that of Unix.
#[derive(Clone, Copy, Debug, Default, PartialEq, Eq, PartialOrd, Ord, Hash)]
pub struct Utf8PlatformEncoding;

/// A path of text that is written as on the machine.
pub type Utf8PlatformPath<'a> = Utf8Path<'a, Utf8PlatformEncoding>;

/// An owned path of text that is written as on the machine.
pub type Utf8PlatformPathBuf = Utf8PathBuf<Utf8PlatformEncoding>;

impl Utf8Encoding for Utf8PlatformEncoding {
    type Bytes = PlatformEncoding;

    ghost IS_PLATFORM = { true };

    const IS_PLATFORM: bool = true;
}

/// Prints the name of the type.
impl fmt::Display for Utf8PlatformEncoding {
    ghost output = { λ _. Some (codes "Utf8PlatformEncoding") };

    fn fmt<W: fmt::Write>(&self, f: &mut fmt::Formatter<W>) -> fmt::Result {
        f.pad("Utf8PlatformEncoding")
    }
}

/// The encoding of texts of the machine's own paths.
pub type Utf8NativeEncoding = Utf8UnixEncoding;

/// A path of text of the machine's own kind.
pub type Utf8NativePath<'a> = Utf8UnixPath<'a>;

/// An owned path of text of the machine's own kind.
pub type Utf8NativePathBuf = Utf8UnixPathBuf;

/// A component of a path of text of the machine's own kind.
pub type Utf8NativeComponent<'a> = Utf8UnixComponent<'a>;
