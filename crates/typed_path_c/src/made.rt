//! Paths that are made of others, and put into a buffer of the caller.
#![tactic(auto, using(typed_path::proofs::lemmas::texts::TextChanges::text_laws, typed_path::proofs::lemmas::texts::TextClean::clean_laws, typed_path::proofs::lemmas::texts::TextClean::relative_laws, typed_path::proofs::lemmas::texts::TextLowered::lowered_laws, typed_path::proofs::lemmas::promises::LoweredPaths::lowered_length, crate::proofs::Crossed::never_small, typed_path::proofs::lemmas::changes::Lengths::push_length, typed_path::proofs::lemmas::changes::Lengths::with_extension_length, crate::proofs::Crossed::with_added_extension_length, crate::proofs::Crossed::resolved_length, typed_path::proofs::lemmas::changes::Lengths::with_file_name_length, typed_path::proofs::lemmas::changes::PushLengths::normal_text_length, typed_path::proofs::lemmas::changes::PushLengths::converted_length, typed_path::proofs::lemmas::changes::PushLengths::checked_known, typed_path::proofs::lemmas::places::CleanLengths::clean_text_length))]

ghost use Rattle.std.specs.Prelude.{◌≡◌, ◌+◌, ◌*◌, IfOk, true, take, length};
ghost use Rattle.std.specs.Str.{is_utf8};
ghost use Rattle.typed_path.specs.changes.Push as push_spec;
ghost use Rattle.typed_path.specs.changes.{fault, join_fault, refusal, with_added_extension, with_extension, with_file_name};
ghost use Rattle.typed_path.specs.order.{lowered};
ghost use Rattle.typed_path.specs.places.{clean_text, normal_text};
ghost use Rattle.typed_path.specs.typed.{typed_dialect};
ghost use Rattle.typed_path.specs.views.TypedViews.{owned_bytes, typed_bytes};
ghost use Rattle.typed_path_c.specs.Answers.{done, fault_status, join_status, Makes, Joins, LiesIn, LiesInKept, Leads, Converts, Crosses, Absolutizes, AbsolutizesFrom, Suffices};

use crate::status::{BAD_DIALECT, of_path, path_in, put_crossed, put_found, put_made};
use std::alloc::Global;
use typed_path::{PathError, PlatformPath, TypedPath, TypedPathBuf};

/// Puts the path with `other` pushed onto it: an absolute one replaces it, an empty one makes a
/// copy.
#[unsafe(no_mangle)]
pub extern "C" fn typed_path_join(
    alloc: Global,
    dialect: u32,
    path: &[u8],
    other: &[u8],
    out: &mut [u8],
    len: &mut usize,
) -> u32
    ensures joined { Makes dialect (λ d. push_spec.push d path.now other.now)
        out.old len.old out.new len.new result }
    ensures fits { Suffices (length path.now + length other.now + 3) out.old result }
    ensures text { is_utf8 path.now ≡ true → is_utf8 other.now ≡ true → result ≡ done
        → is_utf8 (take len.new out.new) ≡ true }
{
    of_path!(dialect, path => put_made(path.join(alloc, other), out, len), BAD_DIALECT)
}

/// Puts the path with `other` pushed onto it, unless a component of `other` offends: then returns
/// the status of the first that does.
#[unsafe(no_mangle)]
pub extern "C" fn typed_path_join_checked(
    alloc: Global,
    dialect: u32,
    path: &[u8],
    other: &[u8],
    out: &mut [u8],
    len: &mut usize,
) -> u32
    ensures joined { Joins dialect fault_status (λ d. fault d other.now)
        (λ d. push_spec.push d path.now other.now) out.old len.old out.new len.new result }
    ensures contained { LiesIn dialect path.now other.now result out.new len.new }
    ensures fits { Suffices (length path.now + length other.now + 3) out.old result }
    ensures text { is_utf8 path.now ≡ true → is_utf8 other.now ≡ true → result ≡ done → is_utf8 (take len.new out.new) ≡ true }
{
    of_path!(dialect, path => put_made(path.join_checked(alloc, other), out, len), BAD_DIALECT)
}

/// Puts the path with `other` pushed onto it, unless `other` is not portable or a component of it
/// offends: then returns the status of the refusal.
#[unsafe(no_mangle)]
pub extern "C" fn typed_path_join_portable(
    alloc: Global,
    dialect: u32,
    path: &[u8],
    other: &[u8],
    out: &mut [u8],
    len: &mut usize,
) -> u32
    ensures joined { Joins dialect join_status (λ d. join_fault d other.now)
        (λ d. push_spec.push d path.now other.now) out.old len.old out.new len.new result }
    ensures contained { LiesIn dialect path.now other.now result out.new len.new }
    ensures fits { Suffices (length path.now + length other.now + 3) out.old result }
    ensures text { is_utf8 path.now ≡ true → is_utf8 other.now ≡ true → result ≡ done → is_utf8 (take len.new out.new) ≡ true }
{
    of_path!(dialect, path => put_made(path.join_portable(alloc, other), out, len), BAD_DIALECT)
}

/// Puts the clean path of a checked join, unless the join is refused.
#[unsafe(no_mangle)]
pub extern "C" fn typed_path_resolve_checked(
    alloc: Global,
    dialect: u32,
    path: &[u8],
    other: &[u8],
    out: &mut [u8],
    len: &mut usize,
) -> u32
    ensures resolved { Joins dialect fault_status (λ d. fault d other.now)
        (λ d. clean_text d (push_spec.push d path.now other.now)) out.old len.old out.new len.new result }
    ensures contained { LiesInKept dialect path.now other.now result out.new len.new }
    ensures fits { Suffices (length path.now + length other.now + 4) out.old result }
    ensures text { is_utf8 path.now ≡ true → is_utf8 other.now ≡ true → result ≡ done → is_utf8 (take len.new out.new) ≡ true }
{
    of_path!(dialect, path => put_made(resolve(alloc, path, other), out, len), BAD_DIALECT)
}

/// Returns the clean path of a checked join. If `other` offends, it is refused for that, however
/// little memory there is.
fn resolve(alloc: Global, path: TypedPath<'_>, other: &[u8]) -> Result<TypedPathBuf, PathError>
    ensures refused { refusal result ≡ fault (typed_dialect path.entry) other.now }
    ensures resolved { IfOk result (λ p. owned_bytes p ≡ clean_text (typed_dialect path.entry)
        (push_spec.push (typed_dialect path.entry) (typed_bytes path.entry) other.now)) }
{
    let joined = path.join_checked(alloc, other)?;
    Ok(joined.clean(alloc)?)
}

/// Puts a path without its file name, if it has one, and with another pushed onto that.
#[unsafe(no_mangle)]
pub extern "C" fn typed_path_with_file_name(
    alloc: Global,
    dialect: u32,
    path: &[u8],
    name: &[u8],
    out: &mut [u8],
    len: &mut usize,
) -> u32
    ensures named { Makes dialect (λ d. with_file_name d path.now name.now)
        out.old len.old out.new len.new result }
    ensures fits { Suffices (length path.now + length name.now + 3) out.old result }
    ensures text { is_utf8 path.now ≡ true → is_utf8 name.now ≡ true → result ≡ done → is_utf8 (take len.new out.new) ≡ true }
{
    of_path!(dialect, path => put_made(path.with_file_name(alloc, name), out, len), BAD_DIALECT)
}

/// Puts a copy of the path whose file name has another extension, or none if `extension` is empty.
/// Without a file name it is an unchanged copy.
#[unsafe(no_mangle)]
pub extern "C" fn typed_path_with_extension(
    alloc: Global,
    dialect: u32,
    path: &[u8],
    extension: &[u8],
    out: &mut [u8],
    len: &mut usize,
) -> u32
    ensures extended { Makes dialect (λ d. with_extension d path.now extension.now)
        out.old len.old out.new len.new result }
    ensures fits { Suffices (length path.now + length extension.now + 1) out.old result }
    ensures text { is_utf8 path.now ≡ true → is_utf8 extension.now ≡ true → result ≡ done → is_utf8 (take len.new out.new) ≡ true }
{
    of_path!(dialect, path => put_made(path.with_extension(alloc, extension), out, len), BAD_DIALECT)
}

/// Puts a copy of the path with `extension` appended to its file name, after a dot. Without a file
/// name, or with an empty extension, it is an unchanged copy.
#[unsafe(no_mangle)]
pub extern "C" fn typed_path_with_added_extension(
    alloc: Global,
    dialect: u32,
    path: &[u8],
    extension: &[u8],
    out: &mut [u8],
    len: &mut usize,
) -> u32
    ensures extended { Makes dialect (λ d. with_added_extension d path.now extension.now)
        out.old len.old out.new len.new result }
    ensures fits { Suffices (length path.now + length extension.now + 1) out.old result }
    ensures text { is_utf8 path.now ≡ true → is_utf8 extension.now ≡ true → result ≡ done → is_utf8 (take len.new out.new) ≡ true }
{
    of_path!(dialect, path => put_made(path.with_added_extension(alloc, extension), out, len), BAD_DIALECT)
}

/// Puts the path in lower case: with each ASCII letter in lower case, except the `UNC` of a prefix
/// `\\?\UNC\`.
#[unsafe(no_mangle)]
pub extern "C" fn typed_path_to_ascii_lowercase(
    alloc: Global,
    dialect: u32,
    path: &[u8],
    out: &mut [u8],
    len: &mut usize,
) -> u32
    ensures lowered { Makes dialect (λ d. lowered d path.now) out.old len.old out.new len.new result }
    ensures fits { Suffices (length path.now + 1) out.old result }
    ensures text { is_utf8 path.now ≡ true → result ≡ done → is_utf8 (take len.new out.new) ≡ true }
{
    of_path!(dialect, path => put_made(path.to_ascii_lowercase(alloc), out, len), BAD_DIALECT)
}

/// Puts the path without `.`, and without `..` and the names that these cancel.
#[unsafe(no_mangle)]
pub extern "C" fn typed_path_normalize(
    alloc: Global,
    dialect: u32,
    path: &[u8],
    out: &mut [u8],
    len: &mut usize,
) -> u32
    ensures normal { Makes dialect (λ d. normal_text d path.now) out.old len.old out.new len.new result }
    ensures fits { Suffices (length path.now + 1) out.old result }
    ensures text { is_utf8 path.now ≡ true → result ≡ done → is_utf8 (take len.new out.new) ≡ true }
{
    of_path!(dialect, path => put_made(path.normalize(alloc), out, len), BAD_DIALECT)
}

/// Puts a path without `.`, doubled separators, a last separator that is no root, and names that a
/// `..` cancels; a relative path keeps the `..` that it needs.
#[unsafe(no_mangle)]
pub extern "C" fn typed_path_clean(
    alloc: Global,
    dialect: u32,
    path: &[u8],
    out: &mut [u8],
    len: &mut usize,
) -> u32
    ensures clean { Makes dialect (λ d. clean_text d path.now) out.old len.old out.new len.new result }
    ensures fits { Suffices (length path.now + 1) out.old result }
    ensures text { is_utf8 path.now ≡ true → result ≡ done → is_utf8 (take len.new out.new) ≡ true }
{
    of_path!(dialect, path => put_made(path.clean(alloc), out, len), BAD_DIALECT)
}

/// Puts the relative path from a base to a path.
#[unsafe(no_mangle)]
pub extern "C" fn typed_path_relative_to(
    alloc: Global,
    dialect: u32,
    path: &[u8],
    base: &[u8],
    out: &mut [u8],
    len: &mut usize,
) -> u32
    ensures leads { Leads dialect path.now base.now out.old len.old out.new len.new result }
    ensures fits { Suffices (length path.now + 2 * length base.now + 3) out.old result }
    ensures text { is_utf8 path.now ≡ true → is_utf8 base.now ≡ true → result ≡ done → is_utf8 (take len.new out.new) ≡ true }
{
    of_path!(dialect, path => put_found(path.relative_to(alloc, base), out, len), BAD_DIALECT)
}

/// Puts the path as it is written in the dialect `other`: a copy if that is its own.
#[unsafe(no_mangle)]
pub extern "C" fn typed_path_convert(
    alloc: Global,
    dialect: u32,
    path: &[u8],
    other: u32,
    out: &mut [u8],
    len: &mut usize,
) -> u32
    ensures converted { Converts dialect other path.now out.old len.old out.new len.new result }
    ensures fits { Suffices (length path.now + 1) out.old result }
    ensures text { is_utf8 path.now ≡ true → result ≡ done → is_utf8 (take len.new out.new) ≡ true }
{
    match (path_in(dialect, path), other) {
        (Some(path), 0) => put_made(path.with_unix_encoding(alloc), out, len),
        (Some(path), 1) => put_made(path.with_windows_encoding(alloc), out, len),
        _ => BAD_DIALECT,
    }
}

/// Puts the path as it is written in the dialect `other` by checked pushes, also if that is its
/// own, or returns the status of the first component that is refused there.
#[unsafe(no_mangle)]
pub extern "C" fn typed_path_convert_checked(
    alloc: Global,
    dialect: u32,
    path: &[u8],
    other: u32,
    out: &mut [u8],
    len: &mut usize,
) -> u32
    ensures converted { Crosses dialect other path.now out.old len.old out.new len.new result }
    ensures fits { Suffices (length path.now + 1) out.old result }
    ensures text { is_utf8 path.now ≡ true → result ≡ done → is_utf8 (take len.new out.new) ≡ true }
{
    match (path_in(dialect, path), other) {
        (Some(path), 0) => put_crossed(path.with_unix_encoding_checked(alloc), out, len),
        (Some(path), 1) => put_crossed(path.with_windows_encoding_checked(alloc), out, len),
        _ => BAD_DIALECT,
    }
}

/// Puts the normal path of the path if it is absolute, else that of the Unix path `directory`,
/// written in the dialect of the path, with the path pushed onto it. Returns the status `AMBIGUOUS`
/// if the path is absolute neither alone nor after the directory.
#[unsafe(no_mangle)]
pub extern "C" fn typed_path_absolutize(
    alloc: Global,
    dialect: u32,
    path: &[u8],
    directory: &[u8],
    out: &mut [u8],
    len: &mut usize,
) -> u32
    ensures absolute { Absolutizes dialect directory.now path.now out.old len.old out.new len.new result }
    ensures fits { Suffices (length directory.now + length path.now + 3) out.old result }
    ensures text { is_utf8 path.now ≡ true → is_utf8 directory.now ≡ true → result ≡ done → is_utf8 (take len.new out.new) ≡ true }
{
    let directory = PlatformPath::new(directory);
    of_path!(dialect, path => put_made(path.absolutize(alloc, directory), out, len), BAD_DIALECT)
}

/// Puts what [`typed_path_absolutize`] does, with a directory of the dialect `other`.
#[unsafe(no_mangle)]
pub extern "C" fn typed_path_absolutize_from(
    alloc: Global,
    dialect: u32,
    path: &[u8],
    other: u32,
    directory: &[u8],
    out: &mut [u8],
    len: &mut usize,
) -> u32
    ensures absolute { AbsolutizesFrom dialect other directory.now path.now out.old len.old out.new len.new result }
    ensures fits { Suffices (length directory.now + length path.now + 3) out.old result }
    ensures text { is_utf8 path.now ≡ true → is_utf8 directory.now ≡ true → result ≡ done → is_utf8 (take len.new out.new) ≡ true }
{
    match (path_in(dialect, path), path_in(other, directory)) {
        (Some(path), Some(directory)) => put_made(path.absolutize_from(alloc, directory), out, len),
        _ => BAD_DIALECT,
    }
}
