//! The components of a Unix path: single ones, read from bytes, and the iterator over all.

ghost use Rattle.std.specs.Prelude.{◌≡◌};
ghost use Rattle.typed_path.specs.components.{unix, iterator_name, Part};
ghost use Rattle.typed_path.specs.views.UnixViews.{unix_part, IsUnixReading};
ghost use Rattle.typed_path.specs.views.PathViews.{path_bytes};
ghost use Rattle.typed_path.specs.views.Shown.{whole};

use crate::common::{Component, Encoding, Path, ReadAs, Reading, Values, check_name};
use crate::constants::unix::{CURRENT_DIR, PARENT_DIR};
use crate::errors::{ParseError, PortableError};
use crate::scan::{Piece, PieceKind, may_be_device};
use crate::unix::encoding::UnixEncoding;

/// A component of a Unix path.
///
/// The order is the root, the current directory, the parent directory, and then names by their
/// bytes.
#[derive(Clone, Copy, Debug, PartialEq, Eq, PartialOrd, Ord, Hash)]
pub enum UnixComponent<'a> {
    /// The root directory, `/`.
    RootDir,
    /// The current directory, `.`.
    CurDir,
    /// The parent directory, `..`.
    ParentDir,
    /// A name.
    Normal(&'a [u8]),
}

impl<'a> UnixComponent<'a> {
    /// Returns the bytes of this one component as a path in the encoding that the caller names.
    /// Nothing is converted.
    pub fn as_path<T: Encoding>(self) -> Path<'a, T>
        ensures { path_bytes result ≡ (unix_part self.entry).text }
    {
        Path::new(self.as_bytes())
    }
}

impl<'a> Component<'a> for UnixComponent<'a> {
    ghost dialect = { unix };

    ghost part = { unix_part };

    fn as_bytes(&self) -> &'a [u8] {
        match self {
            UnixComponent::RootDir => b"/",
            UnixComponent::CurDir => CURRENT_DIR,
            UnixComponent::ParentDir => PARENT_DIR,
            UnixComponent::Normal(name) => name,
        }
    }

    fn is_root(&self) -> bool {
        matches!(self, UnixComponent::RootDir)
    }

    fn is_normal(&self) -> bool {
        matches!(self, UnixComponent::Normal(_))
    }

    fn is_parent(&self) -> bool {
        matches!(self, UnixComponent::ParentDir)
    }

    fn is_current(&self) -> bool {
        matches!(self, UnixComponent::CurDir)
    }

    fn is_valid(&self) -> bool {
        match self {
            UnixComponent::Normal(name) => UnixEncoding::valid(name),
            _ => true,
        }
    }

    fn may_be_device(&self) -> bool {
        match self {
            UnixComponent::Normal(name) => may_be_device(name),
            _ => false,
        }
    }

    fn check_portable(&self) -> Result<(), PortableError> {
        match self {
            UnixComponent::Normal(name) => check_name(name),
            _ => Ok(()),
        }
    }

    fn len(&self) -> usize {
        self.as_bytes().len()
    }

    fn is_empty(&self) -> bool {
        self.as_bytes().is_empty()
    }

    fn root() -> UnixComponent<'a> {
        UnixComponent::RootDir
    }

    fn parent() -> UnixComponent<'a> {
        UnixComponent::ParentDir
    }

    fn current() -> UnixComponent<'a> {
        UnixComponent::CurDir
    }
}

/// The iterator over the components of a Unix path, from either end.
pub type UnixComponents<'a> = Reading<'a, UnixEncoding, Values>;

impl<'a> ReadAs<'a, UnixEncoding> for Values {
    ghost Seen = { Part };

    ghost seen = { unix_part };

    ghost shown = { whole };

    ghost named = { iterator_name unix };

    type Item = UnixComponent<'a>;

    fn iterator_name() -> &'static str
        ensures { result.now ≡ iterator_name unix }
    {
        "UnixComponents"
    }

    #[inline(always)]
    fn from_piece(piece: Piece<'a>) -> UnixComponent<'a> {
        match piece.kind {
            PieceKind::RootDir => UnixComponent::RootDir,
            PieceKind::ParentDir => UnixComponent::ParentDir,
            PieceKind::Normal => UnixComponent::Normal(piece.text),
            PieceKind::CurDir | PieceKind::Prefix(_) => UnixComponent::CurDir,
        }
    }
}

/// Reads bytes that are one component: `a//.` is the name `a`.
///
/// # Errors
///
/// `no component found` if they have none, and `found more than one component` if they have more,
/// as `/a` has.
impl<'a> TryFrom<&'a [u8]> for UnixComponent<'a> {
    type Error = ParseError;

    ghost try_from_gives = { λ text reading. IsUnixReading text.now reading };

    fn try_from(text: &'a [u8]) -> Result<UnixComponent<'a>, ParseError> {
        let mut components = UnixComponents::new(Path::new(text));
        let Some(component) = components.next() else {
            return Err("no component found");
        };
        match components.next() {
            None => Ok(component),
            Some(_) => Err("found more than one component"),
        }
    }
}

/// Reads an array as the slice of its bytes.
impl<'a, const N: usize> TryFrom<&'a [u8; N]> for UnixComponent<'a> {
    type Error = ParseError;

    ghost try_from_gives = { λ text reading. IsUnixReading text.now reading };

    fn try_from(text: &'a [u8; N]) -> Result<UnixComponent<'a>, ParseError> {
        UnixComponent::try_from(text.as_slice())
    }
}

/// Reads a text as the slice of its bytes.
impl<'a> TryFrom<&'a str> for UnixComponent<'a> {
    type Error = ParseError;

    ghost try_from_gives = { λ text reading. IsUnixReading text.now reading };

    fn try_from(text: &'a str) -> Result<UnixComponent<'a>, ParseError> {
        UnixComponent::try_from(text.as_bytes())
    }
}
