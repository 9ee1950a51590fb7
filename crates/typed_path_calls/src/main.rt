//! A program of single calls, which `bench/calls` counts. Each line of standard input names a
//! dialect and a call, and has one path or two, with a tab between two fields. The call is made
//! twice, and each time the number that it returns is printed.
#![tactic(auto)]

mod counted;

use anyhow::{Context, Result, bail};
use std::alloc::Global;
use std::hash::{DefaultHasher, FoldHasher};
use std::io::Read;
use typed_path::{Encoding, TypedPath, UnixEncoding, UnixPath, WindowsEncoding, WindowsPath};

/// Returns what the call `name` returns for a path of the encoding `T`, which is converted to `U`.
/// `None` if no call has that name.
fn answer<T: Encoding, U: Encoding>(
    alloc: Global,
    name: &[u8],
    path: &[u8],
    other: &[u8],
) -> Option<usize> {
    Some(match name {
        b"first" => counted::first::<T>(path),
        b"last" => counted::last::<T>(path),
        b"walk" => counted::walk::<T>(path),
        b"walk_back" => counted::walk_back::<T>(path),
        b"peekable" => counted::peekable::<T>(path),
        b"collect" => counted::collect::<T>(alloc, path),
        b"ancestors" => counted::ancestors::<T>(path),
        b"hash" => counted::hash::<T, DefaultHasher>(path),
        b"key_hash" => counted::key_hash::<T, DefaultHasher>(path),
        b"map_hash" => counted::hash::<T, FoldHasher>(path),
        b"map_key_hash" => counted::key_hash::<T, FoldHasher>(path),
        b"put_key" => counted::put_key::<T>(path),
        b"parent" => counted::parent::<T>(path),
        b"file_name" => counted::file_name::<T>(path),
        b"file_stem" => counted::file_stem::<T>(path),
        b"extension" => counted::extension::<T>(path),
        b"is_valid" => counted::is_valid::<T>(path),
        b"is_portable" => counted::is_portable::<T>(path),
        b"check_portable" => counted::check_portable::<T>(path),
        b"may_be_device" => counted::may_be_device::<T>(path),
        b"keeps_prefix" => counted::keeps_prefix::<T>(path),
        b"simplified" => counted::simplified(path),
        b"normalize" => counted::normalize::<T>(alloc, path),
        b"clean" => counted::clean::<T>(alloc, path),
        b"convert" => counted::convert::<T, U>(alloc, path),
        b"convert_checked" => counted::convert_checked::<T, U>(alloc, path),
        b"absolutize" => counted::absolutize::<T>(alloc, path, other),
        b"absolutize_from" => counted::absolutize_from::<T>(alloc, path, other),
        b"join" => counted::join::<T>(alloc, path, other),
        b"join_checked" => counted::join_checked::<T>(alloc, path, other),
        b"join_portable" => counted::join_portable::<T>(alloc, path, other),
        b"relative_to" => counted::relative_to::<T>(alloc, path, other),
        b"to_lowercase" => counted::to_ascii_lowercase::<T>(alloc, path),
        _ => return answer_beside::<T>(name, path, other),
    })
}

/// Returns what the call `name` returns for two paths that it looks at. `None` if no call has that
/// name.
fn answer_beside<T: Encoding>(name: &[u8], path: &[u8], other: &[u8]) -> Option<usize> {
    Some(match name {
        b"is_within" => counted::is_within::<T>(path, other),
        b"common_ancestor" => counted::common_ancestor::<T>(path, other),
        b"starts_with" => counted::starts_with::<T>(path, other),
        b"starts_with_ignore_case" => counted::starts_with_ignore_ascii_case::<T>(path, other),
        b"strip_prefix" => counted::strip_prefix::<T>(path, other),
        b"ends_with" => counted::ends_with::<T>(path, other),
        b"eq" => counted::eq::<T>(path, other),
        b"eq_ignore_case" => counted::eq_ignore_ascii_case::<T>(path, other),
        b"cmp" => counted::cmp::<T>(path, other),
        _ => return None,
    })
}

/// Returns what the call `name` returns for a path in its dialect. `None` if no call has that name.
fn answer_typed(name: &[u8], path: TypedPath<'_>, other: &[u8]) -> Option<usize> {
    Some(match name {
        b"step_front" => counted::step_front(path),
        b"step_back" => counted::step_back(path),
        b"steps" => counted::steps(path),
        b"push_place" => counted::push_place(path, other),
        b"prefix_names" => counted::prefix_names(path),
        _ => return None,
    })
}

/// Makes the call of a line, and returns its number.
fn answer_line(alloc: Global, line: &[u8]) -> Result<usize> {
    let mut fields = line.split(|byte| *byte == b'\t');
    let dialect = fields.next().context("no dialect")?;
    let name = fields.next().context("no call")?;
    let path = fields.next().context("no path")?;
    let other = fields.next().unwrap_or(b"");
    match dialect {
        b"unix" => answer_typed(name, TypedPath::Unix(UnixPath::new(path)), other).or_else(
            || answer::<UnixEncoding, WindowsEncoding>(alloc, name, path, other),
        ),
        b"windows" => answer_typed(name, TypedPath::Windows(WindowsPath::new(path)), other).or_else(
            || answer::<WindowsEncoding, UnixEncoding>(alloc, name, path, other),
        ),
        _ => bail!("no dialect of this name"),
    }
    .context("no call of this name")
}

fn main(rt: HostRuntime) -> Result<()> {
    let mut input = Vec::new(rt.alloc());
    rt.reader().read_to_end(&mut input)?;
    let lines = input.as_slice().strip_suffix(b"\n").context("no line")?;
    for line in lines.split(|byte| *byte == b'\n') {
        for _turn in 0..2 {
            let told = answer_line(rt.alloc(), line)?;
            println!(rt; "{told}")?;
        }
    }
    Ok(())
}
