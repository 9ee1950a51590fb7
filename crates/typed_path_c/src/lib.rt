//! The calls of `typed_path` for C.
//!
//! A slice crosses as a pointer and a length, a `&mut` as a pointer, and `Global` as nothing. An
//! answer goes into a buffer of the caller, and a number that names no dialect has a status of its
//! own. What a call does is said by its clause, in the words of the library; what the caller owes
//! is in the header.
#![tactic(auto)]

ghost use Rattle.std.specs.Prelude.{◌≡◌};

mod asked;
mod batch;
mod hash;
mod made;
mod parts;
mod place;
mod status;
mod steps;
mod texts;

/// Returns the version of the library as one number: 10000 times the major version, plus 100 times
/// the minor one, plus the patch.
#[unsafe(no_mangle)]
pub extern "C" fn typed_path_version() -> u32
    ensures { result ≡ 201 }
{
    201
}
