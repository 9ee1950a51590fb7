//! Calls that borrow from an owned path or ask about it. It has an allocator, but they need no
//! memory.

use crate::ended::Ended;
use crate::free::Base;
use crate::{tell, tell_all};
use std::alloc::Global;
use std::io;
use typed_path::{
    Encoding, Path, PathBuf, TypedPath, Utf8Encoding, Utf8Path, Utf8PathBuf, Utf8TypedPath,
};

/// Borrows an owned path whose type fixes the dialect, compares it with a copy, and prints how each
/// call ended.
macro_rules! lends {
    ($rt:expr, $family:expr, $one:expr, $two:expr, $lent:expr, $base:expr) => {{
        let (base, _, _, _, _) = $base;
        let (Ok(one), Ok(two)) = ($one, $two) else {
            return tell($rt, $family, "a path", Ended::Refused);
        };
        let told = [
            ("as_path", Ended::done(one.as_path() == $lent, base)),
            ("capacity", Ended::done(base.len() <= one.capacity(), base)),
            ("==", Ended::done(one == two, base)),
            ("cmp", Ended::done(one.cmp(&two).is_eq(), base)),
        ];
        tell_all($rt, $family, &told)
    }};
}

/// Asks an owned path of either dialect, which should answer as the one borrowed from it does, and
/// prints how each call ended.
macro_rules! answers {
    ($rt:expr, $family:expr, $owned:expr, $lent:expr, $bytes:ident, $above:expr, $base:expr) => {{
        let (base, _, count, above_count, _) = $base;
        let Ok(path) = $owned else {
            return tell($rt, $family, "a path", Ended::Refused);
        };
        let (mut read, mut listed, mut climbed) = (0usize, 0usize, 0usize);
        for _ in path.components() {
            read = read.saturating_add(1);
        }
        for _ in path.iter() {
            listed = listed.saturating_add(1);
        }
        for _ in path.ancestors() {
            climbed = climbed.saturating_add(1);
        }
        let (left, wanted) = (path.strip_prefix($above), $lent.strip_prefix($above));
        let told = [
            ("to_path", path.to_path() == $lent),
            (stringify!($bytes), path.$bytes() == $lent.$bytes()),
            ("capacity", base.len() <= path.capacity()),
            ("is_absolute", path.is_absolute() == $lent.is_absolute()),
            ("is_relative", path.is_relative() == $lent.is_relative()),
            ("has_root", path.has_root() == $lent.has_root()),
            ("keeps_prefix, owned", path.keeps_prefix()),
            ("parent", path.parent() == $lent.parent()),
            ("file_name", path.file_name() == $lent.file_name()),
            ("file_stem", path.file_stem() == $lent.file_stem()),
            ("extension", path.extension() == $lent.extension()),
            ("file_prefix", path.file_prefix() == $lent.file_prefix()),
            (
                "has_trailing_separator",
                path.has_trailing_separator() == $lent.has_trailing_separator(),
            ),
            ("simplified", path.simplified() == $lent.simplified()),
            ("strip_prefix", left.is_ok() && left.ok() == wanted.ok()),
            ("starts_with", path.starts_with($above)),
            ("ends_with", path.ends_with($above) == $lent.ends_with($above)),
            ("is_within, owned", path.is_within($above)),
            (
                "common_ancestor, owned",
                path.common_ancestor($above) == $lent.common_ancestor($above),
            ),
            ("components, owned", read == count),
            ("iter, owned", listed == count),
            ("ancestors, owned", climbed == above_count),
        ];
        for (call, is_right) in told {
            tell($rt, $family, call, Ended::done(is_right, base))?;
        }
        Ok(())
    }};
}

/// Borrows and compares a path of bytes, and prints how each call ended.
pub fn lend_bytes<T: Encoding>(
    rt: &impl Print,
    alloc: Global,
    family: &str,
    base: Base,
) -> io::Result<()> {
    let one = PathBuf::<T>::from_str(alloc, base.0);
    let two = PathBuf::<T>::from_str(alloc, base.0);
    lends!(
        rt,
        family,
        one,
        two,
        Path::<T>::new(base.0.as_bytes()),
        base
    )
}

/// Borrows and compares a path of text, and prints how each call ended.
pub fn lend_text<T: Utf8Encoding>(
    rt: &impl Print,
    alloc: Global,
    family: &str,
    base: Base,
) -> io::Result<()> {
    let one = Utf8PathBuf::<T>::from_str(alloc, base.0);
    let two = Utf8PathBuf::<T>::from_str(alloc, base.0);
    lends!(rt, family, one, two, Utf8Path::<T>::new(base.0), base)
}

/// Asks an owned path of either dialect, and prints how each call ended.
pub fn lend_typed(rt: &impl Print, alloc: Global, family: &str, base: Base) -> io::Result<()> {
    let lent = TypedPath::derive(base.0.as_bytes());
    answers!(
        rt,
        family,
        lent.to_path_buf(alloc),
        lent,
        as_bytes,
        base.1.as_bytes(),
        base
    )
}

/// Asks an owned path of text of either dialect, and prints how each call ended.
pub fn lend_typed_text(rt: &impl Print, alloc: Global, family: &str, base: Base) -> io::Result<()> {
    let lent = Utf8TypedPath::derive(base.0);
    answers!(
        rt,
        family,
        lent.to_path_buf(alloc),
        lent,
        as_str,
        base.1,
        base
    )
}
