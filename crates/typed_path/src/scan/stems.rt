//! Names split at their last or first dot.

ghost use Rattle.std.specs.Prelude.{◌≡◌, ◌≤◌, length, option_copied, position};
ghost use Rattle.std.specs.List.{before_first};
ghost use Rattle.typed_path.specs.queries.{stem_of, extension_of, first_stem_of, is_a_dot};

use memchr::memrchr;

/// Splits a name at its last dot: returns its stem, and its extension if it has one. A dot at index
/// 0 begins no extension.
pub fn split_name(name: &[u8]) -> (&[u8], Option<&[u8]>)
    ensures stem { result.0.now ≡ stem_of name.now }
    ensures shorter { length result.0.now ≤ length name.now }
    ensures extension { option_copied result.1 ≡ extension_of name.now }
{
    let Some(at) = memrchr(b'.', name) else {
        return (name, None);
    };
    if at == 0 {
        return (name, None);
    }
    (&name[..at], Some(&name[at + 1..]))
}

/// Returns a name up to its first dot that is not at index 0, or the whole name if it has none.
pub fn first_stem(name: &[u8]) -> &[u8]
    ensures { result.now ≡ first_stem_of name.now }
{
    match name {
        [] => name,
        [_, rest @ ..] => {
            let len = before_dot(rest).len();
            &name[..len + 1]
        }
    }
}

/// Returns what precedes the first dot, or the whole text if it has none.
#[tactic(auto, using(crate::proofs::lemmas::queries::FileNames::before_dot_some, crate::proofs::lemmas::queries::FileNames::before_dot_none))]
fn before_dot(text: &[u8]) -> &[u8]
    ensures { result.now ≡ before_first is_a_dot text.now }
{
    match first_dot(text) {
        Some(at) => &text[..at],
        None => text,
    }
}

/// Returns the index of the first dot, `None` if there is none.
fn first_dot(text: &[u8]) -> Option<usize>
    ensures { result ≡ position is_a_dot text.now }
{
    text.iter().position(|b| *b == b'.')
}
