//! The statuses, the dialect that a number names, and how an answer is put into a buffer.

ghost use Rattle.std.proofs.Common.{rules};
ghost use Rattle.std.specs.Prelude.{ℕ, List, Result, Ok, Err, IfOk, IsOk, Option, option_map, ◌≡◌, ◌≤◌, IfSome, IsNone, None, Some, MatchResult, take};
ghost use Rattle.typed_path.specs.changes.{error_of, refusal};
ghost use Rattle.typed_path.specs.declared.errors.CheckedPathError.{CheckedPathError};
ghost use Rattle.typed_path.specs.typed.{typed_dialect};
ghost use Rattle.typed_path.specs.views.TypedViews.{typed_bytes, owned_bytes};
ghost use Rattle.typed_path_c.specs.Answers.{dialect_named, fault_status, portable_status, path_status, join_status, absolute_status, status_by, out_of_memory, done, IsPut, IsRefused, StandsAsMade, IsCrossed, IsFound};

use std::alloc::AllocError;
use typed_path::{
    AbsolutizeError, CheckedPathError, JoinError, PathError, PortableError, TypedPath, TypedPathBuf,
};

/// The call succeeded.
pub const DONE: u32 = 0;
/// An allocation failed.
pub const OUT_OF_MEMORY: u32 = 5;
/// The answer does not fit into the buffer or array.
pub const TOO_SMALL: u32 = 6;
/// The number names no dialect.
pub const BAD_DIALECT: u32 = 7;
/// There is no such part, path or text.
pub const NONE: u32 = 8;
/// The path is absolute neither alone nor after the directory.
pub const AMBIGUOUS: u32 = 9;
/// An end lies before the one before it, or beyond the names.
pub const BAD_ENDS: u32 = 10;
/// No reading of the path may stand at the numbers.
pub const BAD_READING: u32 = 11;

/// An error that has a status: why a call failed, or refused a path.
pub trait Refusal: Sized {
    ghost status: { Self → ℕ };

    /// Returns the status of the error, which is never [`DONE`].
    fn status(self) -> u32
        ensures { result ≡ status self };

    ghost refuses: { (e : Self) → status e ≡ done → ⊥ };
}

impl Refusal for CheckedPathError {
    ghost status = { fault_status };

    ghost refuses = { Prim.search rules };

    fn status(self) -> u32 {
        match self {
            CheckedPathError::InvalidFilename => 1,
            CheckedPathError::PathTraversalAttack => 2,
            CheckedPathError::UnexpectedPrefix => 3,
            CheckedPathError::UnexpectedRoot => 4,
        }
    }
}

impl Refusal for PortableError {
    ghost status = { portable_status };

    ghost refuses = { Prim.search rules };

    fn status(self) -> u32 {
        match self {
            PortableError::Prefix => 12,
            PortableError::Forbidden => 13,
            PortableError::Device => 14,
            PortableError::Ending => 15,
            PortableError::TooLong => 16,
            PortableError::NotText => 17,
        }
    }
}

impl Refusal for AllocError {
    ghost status = { λ _. out_of_memory };

    ghost refuses = { Prim.search rules };

    fn status(self) -> u32 {
        OUT_OF_MEMORY
    }
}

impl Refusal for PathError {
    ghost status = { path_status };

    ghost refuses = { Prim.search rules };

    fn status(self) -> u32 {
        match self {
            PathError::Checked(fault) => fault.status(),
            PathError::OutOfMemory => OUT_OF_MEMORY,
        }
    }
}

impl Refusal for JoinError {
    ghost status = { join_status };

    ghost refuses = { Prim.search rules };

    fn status(self) -> u32 {
        match self {
            JoinError::Portable(fault) => fault.status(),
            JoinError::Checked(fault) => fault.status(),
            JoinError::OutOfMemory => OUT_OF_MEMORY,
        }
    }
}

impl Refusal for AbsolutizeError {
    ghost status = { absolute_status };

    ghost refuses = { Prim.search rules };

    fn status(self) -> u32 {
        match self {
            AbsolutizeError::Ambiguous => AMBIGUOUS,
            AbsolutizeError::OutOfMemory => OUT_OF_MEMORY,
        }
    }
}

/// Returns the status of a check: [`DONE`] for `Ok`, else that of the error.
pub fn ended<E: Refusal>(judged: Result<(), E>) -> u32
    ensures { result ≡ status_by E.status (error_of judged) }
{
    match judged {
        Ok(()) => DONE,
        Err(fault) => fault.status(),
    }
}

/// Returns the path of these bytes in the dialect that a number names, `None` if it names none.
pub fn path_in(dialect: u32, bytes: &[u8]) -> Option<TypedPath<'_>>
    ensures none { IsNone result → dialect_named dialect ≡ None }
    ensures dialect { IfSome result (λ p. dialect_named dialect ≡ Some (typed_dialect p)) }
    ensures bytes { IfSome result (λ p. typed_bytes p ≡ bytes.now) }
{
    match dialect {
        0 => Some(TypedPath::unix(bytes)),
        1 => Some(TypedPath::windows(bytes)),
        _ => None,
    }
}

/// Evaluates to `$some`, in which `$path` is the path in the dialect that `$dialect` names, or to
/// `$none` if that names none.
macro_rules! of_path {
    ($dialect:expr, $path:ident => $some:expr, $none:expr) => {
        match path_in($dialect, $path) {
            Some($path) => $some,
            None => $none,
        }
    };
}

/// Evaluates to the call of `$asked` for the encoding that `$dialect` names, or to `$none` if that
/// names none.
macro_rules! of_encoding {
    ($dialect:expr, $asked:ident($($argument:expr),*), $none:expr) => {
        match $dialect {
            0 => $asked::<typed_path::UnixEncoding>($($argument),*),
            1 => $asked::<typed_path::WindowsEncoding>($($argument),*),
            _ => $none,
        }
    };
}

pub(super) use of_encoding;
pub(super) use of_path;

/// Puts `answer` at the front of `out` if it fits, with a NUL after it if there is room for one;
/// else `out` is unchanged. Sets `len` to the length of `answer` either way.
pub fn put(answer: &[u8], out: &mut [u8], len: &mut usize) -> u32
    ensures put { IsPut answer.now out.old out.new len.new result }
    ensures stands { result ≡ done → take len.new out.new ≡ answer.now }
{
    *len = answer.len();
    if out.len() < answer.len() {
        return TOO_SMALL;
    }
    let (front, behind) = out.split_at_mut(answer.len());
    front.copy_from_slice(answer);
    if let [first, ..] = behind {
        *first = 0;
    }
    DONE
}

/// Puts a path as [`put`] does. If there is an error, returns its status, and `out` and `len` are
/// unchanged.
pub fn put_made<E: Refusal>(made: Result<TypedPathBuf, E>, out: &mut [u8], len: &mut usize) -> u32
    ensures put { MatchResult made (λ p. IsPut (owned_bytes p) out.old out.new len.new result)
        (λ e. IsRefused (E.status e) out.old len.old out.new len.new result) }
    ensures stands { StandsAsMade owned_bytes made result (take len.new out.new) }
{
    match made {
        Ok(path) => put(path.as_bytes(), out, len),
        Err(why) => why.status(),
    }
}

/// Puts a path as [`put`] does. If there is none, returns [`NONE`], and if allocation failed,
/// [`OUT_OF_MEMORY`]; then `out` and `len` are unchanged.
pub fn put_found(
    found: Result<Option<TypedPathBuf>, AllocError>,
    out: &mut [u8],
    len: &mut usize,
) -> u32
    ensures put { (answer : Option (List ℕ)) → IfOk found (λ f. option_map owned_bytes f ≡ answer)
        → (answer ≡ None → IsOk found) → IsFound answer out.old len.old out.new len.new result }
    ensures stands { result ≡ done → IfOk found (λ f. option_map owned_bytes f ≡ Some (take len.new out.new)) × IsOk found }
{
    match found {
        Ok(Some(path)) => put(path.as_bytes(), out, len),
        Ok(None) => NONE,
        Err(_) => OUT_OF_MEMORY,
    }
}

/// Does what [`put_made`] does, for a path that was converted by checked pushes. The clause `put`
/// speaks of the defined outcome, which a failed allocation leaves open.
pub fn put_crossed(made: Result<TypedPathBuf, PathError>, out: &mut [u8], len: &mut usize) -> u32
    ensures put { (answer : Result (List ℕ) CheckedPathError)
        → IfOk made (λ p. answer ≡ Ok (owned_bytes p))
        → ((why : CheckedPathError) → refusal made ≡ Some why → answer ≡ Err why)
        → IsCrossed answer out.old len.old out.new len.new result }
    ensures made { MatchResult made (λ p. IsPut (owned_bytes p) out.old out.new len.new result)
        (λ e. IsRefused (path_status e) out.old len.old out.new len.new result) }
    ensures stands { StandsAsMade owned_bytes made result (take len.new out.new) }
{
    put_made(made, out, len)
}
