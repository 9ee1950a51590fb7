//! The errors of this crate.

ghost use Rattle.std.specs.Prelude.{◌≡◌};

use std::alloc::{AllocError, AllocFailed};
use thiserror::Error;

/// The path does not begin with the base.
#[derive(Clone, Copy, Debug, PartialEq, Eq, Hash, Error)]
#[error("prefix not found")]
pub struct StripPrefixError;

/// The three numbers cannot be those of a reading of the path.
#[derive(Clone, Copy, Debug, PartialEq, Eq, Hash, Error)]
#[error("no reading of the path stands there")]
pub struct ReadingError;

/// Why bytes are not one component or one prefix: one of four messages.
pub type ParseError = &'static str;

/// Why a checked push or a checked conversion is refused.
#[derive(Clone, Copy, Debug, PartialEq, Eq, Hash, Error)]
pub enum CheckedPathError {
    /// A name that the target does not allow, as `ab:c` or `con.txt` on Windows.
    #[error("path contains invalid filename")]
    InvalidFilename,
    /// A `..` that no earlier name of the argument makes up for.
    #[error("path attempts to escape original path")]
    PathTraversalAttack,
    /// A prefix in the argument.
    #[error("path contains unexpected prefix")]
    UnexpectedPrefix,
    /// A root in the argument.
    #[error("path contains unexpected root")]
    UnexpectedRoot,
}

/// Why a checked push or a checked conversion failed.
#[derive(Clone, Copy, Debug, PartialEq, Eq, Hash, Error)]
pub enum PathError {
    /// The path that was to be pushed is refused.
    #[error(transparent)]
    Checked(CheckedPathError),
    /// An allocation failed.
    #[error("out of memory")]
    OutOfMemory,
}

impl From<CheckedPathError> for PathError {
    ghost use Rattle.typed_path.specs.declared.errors.PathError.TheVariants.{Checked};

    ghost from_gives = { λ refusal e. e ≡ Checked refusal };

    fn from(refusal: CheckedPathError) -> PathError {
        PathError::Checked(refusal)
    }
}

impl From<AllocError> for PathError {
    ghost use Rattle.typed_path.specs.declared.errors.PathError.TheVariants.{OutOfMemory};

    ghost from_gives = { λ _ e. e ≡ OutOfMemory };

    fn from(_refused: AllocError) -> PathError {
        PathError::OutOfMemory
    }
}

impl<T: Drop> From<AllocFailed<T>> for PathError {
    ghost use Rattle.typed_path.specs.declared.errors.PathError.TheVariants.{OutOfMemory};

    ghost from_gives = { λ _ e. e ≡ OutOfMemory };

    fn from(_refused: AllocFailed<T>) -> PathError {
        PathError::OutOfMemory
    }
}

/// Why a path is not portable: some system does not take a component of it as it is written, but
/// refuses it, changes it, or takes it for something else.
#[derive(Clone, Copy, Debug, PartialEq, Eq, Hash, Error)]
pub enum PortableError {
    /// A prefix.
    #[error("path contains a prefix")]
    Prefix,
    /// A name with a byte that no name of Windows may have, as `:`, or with a control byte, in
    /// `0..32` or 127.
    #[error("path contains a forbidden byte")]
    Forbidden,
    /// A name that some version of Windows may take for a device, as `nul .txt`.
    #[error("path contains a name that may be a device")]
    Device,
    /// A name that ends in a dot or a space.
    #[error("path contains a name that ends in a dot or a space")]
    Ending,
    /// A name of more than 255 bytes.
    #[error("path contains a name that is too long")]
    TooLong,
    /// A name that is not UTF-8.
    #[error("path contains a name that is not UTF-8")]
    NotText,
}

/// Why a portable join failed.
#[derive(Clone, Copy, Debug, PartialEq, Eq, Hash, Error)]
pub enum JoinError {
    /// The path that was to be joined is not portable.
    #[error(transparent)]
    Portable(PortableError),
    /// The path is portable, and is refused as a checked join refuses it.
    #[error(transparent)]
    Checked(CheckedPathError),
    /// An allocation failed.
    #[error("out of memory")]
    OutOfMemory,
}

impl From<PortableError> for JoinError {
    ghost use Rattle.typed_path.specs.declared.errors.JoinError.TheVariants.{Portable};

    ghost from_gives = { λ refusal e. e ≡ Portable refusal };

    fn from(refusal: PortableError) -> JoinError {
        JoinError::Portable(refusal)
    }
}

impl From<PathError> for JoinError {
    ghost use Rattle.typed_path.specs.changes.Joined.{join_error};

    ghost from_gives = { λ refused e. e ≡ join_error refused };

    fn from(refused: PathError) -> JoinError {
        match refused {
            PathError::Checked(fault) => JoinError::Checked(fault),
            PathError::OutOfMemory => JoinError::OutOfMemory,
        }
    }
}

impl From<AllocError> for JoinError {
    ghost use Rattle.typed_path.specs.declared.errors.JoinError.TheVariants.{OutOfMemory};

    ghost from_gives = { λ _ e. e ≡ OutOfMemory };

    fn from(_refused: AllocError) -> JoinError {
        JoinError::OutOfMemory
    }
}

impl<T: Drop> From<AllocFailed<T>> for JoinError {
    ghost use Rattle.typed_path.specs.declared.errors.JoinError.TheVariants.{OutOfMemory};

    ghost from_gives = { λ _ e. e ≡ OutOfMemory };

    fn from(_refused: AllocFailed<T>) -> JoinError {
        JoinError::OutOfMemory
    }
}

/// Why a path could not be made absolute.
#[derive(Clone, Copy, Debug, PartialEq, Eq, Hash, Error)]
pub enum AbsolutizeError {
    /// The path is absolute neither by itself nor after the directory.
    #[error("path is ambiguous")]
    Ambiguous,
    /// An allocation failed.
    #[error("out of memory")]
    OutOfMemory,
}

impl From<AllocError> for AbsolutizeError {
    ghost use Rattle.typed_path.specs.declared.errors.AbsolutizeError.TheVariants.{OutOfMemory};

    ghost from_gives = { λ _ e. e ≡ OutOfMemory };

    fn from(_refused: AllocError) -> AbsolutizeError {
        AbsolutizeError::OutOfMemory
    }
}

impl<T: Drop> From<AllocFailed<T>> for AbsolutizeError {
    ghost use Rattle.typed_path.specs.declared.errors.AbsolutizeError.TheVariants.{OutOfMemory};

    ghost from_gives = { λ _ e. e ≡ OutOfMemory };

    fn from(_refused: AllocFailed<T>) -> AbsolutizeError {
        AbsolutizeError::OutOfMemory
    }
}

/// Why not all lines of the input were answered.
#[derive(Clone, Copy, Debug, PartialEq, Eq, Hash, Error)]
pub enum LineError {
    /// The reader failed.
    #[error("reading failed")]
    Read,
    /// The writer failed, or took no byte.
    #[error("writing failed")]
    Write,
    /// An allocation failed.
    #[error("out of memory")]
    OutOfMemory,
}

impl From<AllocError> for LineError {
    ghost use Rattle.typed_path.specs.declared.errors.LineError.TheVariants.{OutOfMemory};

    ghost from_gives = { λ _ e. e ≡ OutOfMemory };

    fn from(_refused: AllocError) -> LineError {
        LineError::OutOfMemory
    }
}

impl<T: Drop> From<AllocFailed<T>> for LineError {
    ghost use Rattle.typed_path.specs.declared.errors.LineError.TheVariants.{OutOfMemory};

    ghost from_gives = { λ _ e. e ≡ OutOfMemory };

    fn from(_refused: AllocFailed<T>) -> LineError {
        LineError::OutOfMemory
    }
}

/// Why a path could not be made into a JSON value, or be made of one.
#[derive(Clone, Copy, Debug, PartialEq, Eq, Hash, Error)]
pub enum ValueError {
    /// The bytes of the path are not UTF-8.
    #[error("path is not UTF-8")]
    NotUtf8,
    /// The value is not a JSON string.
    #[error("value is not a text")]
    NotText,
    /// An allocation failed.
    #[error("out of memory")]
    OutOfMemory,
}

impl From<AllocError> for ValueError {
    ghost use Rattle.typed_path.specs.declared.errors.ValueError.TheVariants.{OutOfMemory};

    ghost from_gives = { λ _ e. e ≡ OutOfMemory };

    fn from(_refused: AllocError) -> ValueError {
        ValueError::OutOfMemory
    }
}

impl<T: Drop> From<AllocFailed<T>> for ValueError {
    ghost use Rattle.typed_path.specs.declared.errors.ValueError.TheVariants.{OutOfMemory};

    ghost from_gives = { λ _ e. e ≡ OutOfMemory };

    fn from(_refused: AllocFailed<T>) -> ValueError {
        ValueError::OutOfMemory
    }
}
