//! The traits that every encoding of paths of text and every component of such a path implement;
//! and bytes that are known to be UTF-8, taken as text without a check.
#![tactic(auto, using(crate::proofs::lemmas::texts::TextChanges::text_laws))]

ghost use Rattle.std.specs.Prelude.{◌≡◌, ◌≤◌, Bool, fold, None, IsSome, IsOk, OnOk, OnErr, ◌==◌, [], ◌∷◌, length, option_copied, true};
ghost use Rattle.std.specs.String.{string_bytes, string_capacity, string_vec};
ghost use Rattle.std.specs.Str.{is_utf8};
ghost use Rattle.typed_path.specs.components.{label_of, Dialect, root_of, dot, Part, root as root_kind, parent as parent_kind, current as current_kind, is_name, is_parent, is_current};
ghost use Rattle.typed_path.specs.changes.{error_of, refusal, FitsPush, fault};
ghost use Rattle.typed_path.specs.order.Words.{path_words};
ghost use Rattle.typed_path.specs.promises.{HasPrefixOf, LiesWithin};
ghost use Rattle.typed_path.specs.queries.{is_root as is_root_kind, is_valid_kind, kind_fault, kind_may_be_device};
ghost use Rattle.typed_path.specs.texts.{is_text_option};
ghost use Rattle.typed_path.specs.changes.Push as push_spec;

use crate::common::Encoding;
use crate::errors::{PathError, PortableError};
use std::alloc::AllocError;
use std::hash::{Hash, Hasher};
use std::{fmt, mem, str};

/// An encoding of paths of text.
///
/// It names the encoding of the bytes, and all else follows from that.
pub trait Utf8Encoding: Sized {
    /// The encoding of the bytes.
    type Bytes: Encoding;

    ghost IS_PLATFORM: { Bool };

    /// Whether this is the platform encoding. It is `false` for the Unix encoding, although the
    /// platform encoding forwards to that.
    const IS_PLATFORM: bool;

    /// The name of the encoding: `unix` or `windows`.
    fn label() -> &'static str
        ensures { result.now ≡ label_of Self.Bytes.dialect }
    {
        Self::Bytes::label()
    }

    /// Feeds a path to a hasher, as `Encoding::hash` feeds its bytes.
    fn hash<H: Hasher>(path: &str, state: &mut H)
        ensures { state.new ≡ fold H.write state.old (path_words Self.Bytes.dialect path.now) }
    {
        Self::Bytes::hash(path.as_bytes(), state);
    }

    /// Pushes `other` onto `path`: one with a prefix replaces it, one with a root all of it but its
    /// prefix, and an empty one changes nothing. If allocation fails, `path` keeps its bytes.
    fn push(path: &mut String, other: &str) -> Result<(), AllocError>
        ensures ok { OnOk result (string_bytes path.new
            ≡ push_spec.push Self.Bytes.dialect (string_bytes path.old) other.now) }
        ensures err { OnErr result (string_bytes path.new ≡ string_bytes path.old) }
        ensures capacity { string_capacity path.old ≤ string_capacity path.new }
        ensures succeeds { FitsPush Self.Bytes.dialect (string_capacity path.old)
            (string_bytes path.old) other.now → IsOk result }
    {
        let mut bytes = mem::replace(path, String::new(*path.allocator())).into_bytes();
        let done = Self::Bytes::push(&mut bytes, other.as_bytes());
        *path = string_of(bytes);
        done
    }

    /// Pushes `other` onto `path`, unless `Encoding::check` refuses `other`. If it does, or
    /// allocation fails, `path` keeps its bytes.
    fn push_checked(path: &mut String, other: &str) -> Result<(), PathError>
        ensures refused { refusal result ≡ fault Self.Bytes.dialect other.now }
        ensures ok { OnOk result (string_bytes path.new
            ≡ push_spec.push Self.Bytes.dialect (string_bytes path.old) other.now) }
        ensures err { OnErr result (string_bytes path.new ≡ string_bytes path.old) }
        ensures unchanged { IsSome (refusal result) → path.new ≡ path.old }
        ensures capacity { string_capacity path.old ≤ string_capacity path.new }
        ensures succeeds { fault Self.Bytes.dialect other.now ≡ None
            → FitsPush Self.Bytes.dialect (string_capacity path.old) (string_bytes path.old)
            other.now → IsOk result }
        ensures prefix { OnOk result (HasPrefixOf Self.Bytes.dialect (string_bytes path.old)
            (string_bytes path.new)) }
        ensures contained { OnOk result (LiesWithin Self.Bytes.dialect (string_bytes path.old)
            other.now (string_bytes path.new)) }
    {
        Self::Bytes::check(other.as_bytes())?;
        Ok(Self::push(path, other)?)
    }
}

/// A component of a path of text of one encoding.
pub trait Utf8Component<'a>: Copy + fmt::Debug + Ord + Hash {
    ghost dialect: { Dialect };

    ghost part: { Self → Part };

    /// Returns the text of the component as in the path; of a root always `/`, or `\` on Windows.
    fn as_str(&self) -> &'a str
        ensures { result.now ≡ (part self.now).text };

    /// Whether nothing is above the component: the root, and every prefix but a drive `C:`. It is
    /// true of a verbatim drive, `\\?\C:`.
    fn is_root(&self) -> bool
        ensures { result ≡ is_root_kind (part self.now).kind };

    /// Whether the component is a name.
    fn is_normal(&self) -> bool
        ensures { result ≡ is_name (part self.now).kind };

    /// Whether the component is the parent directory, `..`.
    fn is_parent(&self) -> bool
        ensures { result ≡ is_parent (part self.now).kind };

    /// Whether the component is the current directory, `.`.
    fn is_current(&self) -> bool
        ensures { result ≡ is_current (part self.now).kind };

    /// Whether the component is not a name, or is one that the encoding allows: `ab:c` and
    /// `con.txt` are allowed on Unix, and not on Windows.
    fn is_valid(&self) -> bool
        ensures { result ≡ is_valid_kind dialect (part self.now).kind };

    /// Whether the component is a name that some version of Windows may take for a device, as
    /// `nul .txt`.
    fn may_be_device(&self) -> bool
        ensures { result ≡ kind_may_be_device (part self.now).kind };

    /// Checks that the component is no prefix and, if it is a name, that every system takes it as
    /// it is written, as `check_portable` of a path does.
    fn check_portable(&self) -> Result<(), PortableError>
        ensures { error_of result ≡ kind_fault (part self.now).kind };

    /// Returns how many bytes the component has.
    fn len(&self) -> usize
        ensures { result ≡ length (part self.now).text };

    /// Whether the component has no bytes.
    fn is_empty(&self) -> bool
        ensures { result ≡ (length (part self.now).text == 0) };

    /// The root directory.
    fn root() -> Self
        ensures kind { (part result).kind ≡ root_kind }
        ensures text { (part result).text ≡ root_of dialect };

    /// The parent directory.
    fn parent() -> Self
        ensures kind { (part result).kind ≡ parent_kind }
        ensures text { (part result).text ≡ dot ∷ dot ∷ [] };

    /// The current directory.
    fn current() -> Self
        ensures kind { (part result).kind ≡ current_kind }
        ensures text { (part result).text ≡ dot ∷ [] };
}

/// Returns the bytes as text. They have to be UTF-8, and are not checked.
#[inline(always)]
pub fn text_of(bytes: &[u8]) -> &str
    requires { is_utf8 bytes.now ≡ true }
    ensures { result.now ≡ bytes.now }
{
    unsafe { str::from_utf8_unchecked(bytes) }
}

/// Returns the bytes as text, and `None` for `None`.
///
/// They have to be UTF-8, and are not checked.
#[inline(always)]
pub fn text_of_option(bytes: Option<&[u8]>) -> Option<&str>
    requires { is_text_option (option_copied bytes) ≡ true }
    ensures { option_copied result ≡ option_copied bytes.entry }
{
    match bytes {
        Some(bytes) => Some(text_of(bytes)),
        None => None,
    }
}

/// Returns the owned bytes as text, with no copy. They have to be UTF-8, and are not checked.
#[inline(always)]
pub fn string_of(bytes: Vec<u8>) -> String
    requires { is_utf8 bytes.items ≡ true }
    ensures { string_vec result ≡ bytes }
{
    unsafe { String::from_utf8_unchecked(bytes) }
}
