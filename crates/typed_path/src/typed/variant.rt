//! Values of Unix or of Windows, the macros that forward a call to the value that is held, and the
//! dialect that a path looks like.

ghost use Rattle.std.specs.Prelude.{◌≡◌, refl};
ghost use Rattle.typed_path.specs.components.{unix, windows};
ghost use Rattle.typed_path.specs.conversions.{same_dialect};
ghost use Rattle.typed_path.specs.typed.{typed_dialect, of_held, kind_dialect, derived_dialect, typed_key_words, typed_keys_alike};

use crate::common::KeyPath;
use crate::scan::find_prefix;
use std::fmt;
use std::hash::Hasher;

/// A value of Unix or one of Windows, as it is chosen at run time.
///
/// Values of two dialects are never equal, and one of Unix is less than one of Windows. Values of
/// one dialect compare as those that they hold. A value feeds a hasher its dialect, and then what
/// the one that it holds feeds.
#[derive(Clone, Copy, Debug, PartialEq, Eq, PartialOrd, Ord, Hash, Drop)]
pub enum Typed<U, W> {
    /// Of Unix.
    Unix(U),
    /// Of Windows.
    Windows(W),
}

/// Evaluates `answer`, with the value that is held as `held`.
macro_rules! each {
    ($typed:expr, $held:ident => $answer:expr) => {
        match $typed {
            Self::Unix($held) => $answer,
            Self::Windows($held) => $answer,
        }
    };
}

/// Evaluates `answer`, with the value that is held as `held`, and wraps it in the same dialect.
macro_rules! typed {
    ($typed:expr, $held:ident => $answer:expr) => {
        match $typed {
            Self::Unix($held) => Typed::Unix($answer),
            Self::Windows($held) => Typed::Windows($answer),
        }
    };
}

/// Evaluates `answer`, an `Option`, as `typed` does, and wraps the value in it, if any.
macro_rules! typed_option {
    ($typed:expr, $held:ident => $answer:expr) => {
        match $typed {
            Self::Unix($held) => match $answer {
                Some(answer) => Some(Typed::Unix(answer)),
                None => None,
            },
            Self::Windows($held) => match $answer {
                Some(answer) => Some(Typed::Windows(answer)),
                None => None,
            },
        }
    };
}

/// Evaluates `answer`, a `Result`, as `typed` does, and wraps the value in it, if it is `Ok`.
macro_rules! typed_result {
    ($typed:expr, $held:ident => $answer:expr) => {
        match $typed {
            Self::Unix($held) => match $answer {
                Ok(answer) => Ok(Typed::Unix(answer)),
                Err(error) => Err(error),
            },
            Self::Windows($held) => match $answer {
                Ok(answer) => Ok(Typed::Windows(answer)),
                Err(error) => Err(error),
            },
        }
    };
}

/// Evaluates `answer`, an `Option` in a `Result`, as `typed` does, and wraps the value in it.
macro_rules! typed_option_result {
    ($typed:expr, $held:ident => $answer:expr) => {
        match $typed {
            Self::Unix($held) => match $answer {
                Ok(Some(answer)) => Ok(Some(Typed::Unix(answer))),
                Ok(None) => Ok(None),
                Err(error) => Err(error),
            },
            Self::Windows($held) => match $answer {
                Ok(Some(answer)) => Ok(Some(Typed::Windows(answer))),
                Ok(None) => Ok(None),
                Err(error) => Err(error),
            },
        }
    };
}

/// Wraps a value in the dialect `kind`.
macro_rules! made_as {
    ($kind:expr, $made:expr) => {
        match $kind {
            PathType::Unix => Typed::Unix($made),
            PathType::Windows => Typed::Windows($made),
        }
    };
}

pub(super) use each;
pub(super) use made_as;
pub(super) use typed;
pub(super) use typed_option;
pub(super) use typed_option_result;
pub(super) use typed_result;

impl<U, W> Typed<U, W> {
    /// Whether the value is one of Unix.
    pub fn is_unix(&self) -> bool
        ensures { result ≡ same_dialect (typed_dialect self.now) unix }
    {
        matches!(self, Typed::Unix(_))
    }

    /// Whether the value is one of Windows.
    pub fn is_windows(&self) -> bool
        ensures { result ≡ same_dialect (typed_dialect self.now) windows }
    {
        matches!(self, Typed::Windows(_))
    }
}

/// Prints the held value.
impl<U: fmt::Display, V: fmt::Display> fmt::Display for Typed<U, V> {
    ghost output = { of_held U.output V.output };

    fn fmt<W: fmt::Write>(&self, f: &mut fmt::Formatter<W>) -> fmt::Result {
        each!(self, held => held.fmt(f))
    }
}

/// A dialect of paths: that of Unix, or that of Windows.
#[derive(Clone, Copy, Debug, PartialEq, Eq, PartialOrd, Ord, Hash)]
pub enum PathType {
    /// Written as on Unix.
    Unix,
    /// Written as on Windows.
    Windows,
}

impl PathType {
    /// Returns the dialect that a path looks like: Windows if it begins with `\` or with a prefix
    /// of Windows, else Unix.
    ///
    /// `\`, `//a/b` and `a:b` look like Windows, the empty path and `///a` like Unix.
    pub fn derive(text: &[u8]) -> PathType
        ensures { kind_dialect result ≡ derived_dialect text.now }
    {
        if matches!(text, [b'\\', ..]) || find_prefix(text).is_some() {
            PathType::Windows
        } else {
            PathType::Unix
        }
    }
}

impl<U: KeyPath, W: KeyPath> KeyPath for Typed<U, W> {
    ghost key_input = { typed_key_words U.key_input W.key_input };

    ghost keys_respect_eq = { typed_keys_alike
        (record {
          of_unix = λ x y. refl;
          of_windows = λ x y. refl;
          unix_first = λ x y. refl;
          windows_first = λ x y. refl;
        })
        U.keys_respect_eq W.keys_respect_eq };

    fn hash_key<H: Hasher>(&self, state: &mut H) {
        match self {
            Typed::Unix(path) => {
                path.hash_key(state);
                state.write_u8(0);
            }
            Typed::Windows(path) => {
                path.hash_key(state);
                state.write_u8(1);
            }
        }
    }
}
