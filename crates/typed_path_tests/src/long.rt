//! Texts of a megabyte, which a crate of tests for each family reads and normalizes, each call
//! once.

use crate::support::repeated;
use std::alloc::{AllocError, Global};

/// What a text begins with, what follows and how often; how many components it has; and what its
/// normal path begins with, and what follows in it as often.
pub type Long = (
    &'static [u8],
    &'static [u8],
    usize,
    usize,
    &'static [u8],
    &'static [u8],
);

/// Texts that are read alike on both systems.
pub const LONG_TEXTS: &[Long] = &[
    (b"", b".", 1_048_576, 1, b"", b"."),
    (b"", b"./", 524_288, 1, b"", b""),
    (b"", b"..///./", 150_000, 150_000, b"", b""),
    (b"", b"a-name/..//", 95_326, 190_652, b"", b""),
];

/// Texts of Windows.
pub const LONG_WINDOWS_TEXTS: &[Long] = &[
    (b"a", br"\a", 524_287, 524_288, b"a", br"\a"),
    (br"\\?\C:\x", b"/name", 209_715, 3, br"\\?\C:\x", br"\name"),
    (
        br"\\?\C:",
        br"\a name/b",
        116_508,
        116_510,
        br"\\?\C:",
        br"\a name\b",
    ),
    (
        br"\\?\UNC\",
        br"\\?\UNC\",
        131_072,
        262_146,
        br"\\?\UNC",
        br"\?\UNC",
    ),
    (br"\\?\", br"\\?\", 262_144, 262_146, br"\\?\", br"\?"),
];

/// The lengths of names with which each call that grows a path is made: on both sides of each
/// length at which a search takes other blocks or gives up, and of what two bytes can count.
pub const LENGTHS: &[usize] = &[
    1, 7, 8, 9, 15, 16, 17, 31, 32, 33, 127, 128, 129, 255, 256, 257, 1_023, 1_024, 1_025, 4_095,
    4_096, 4_097, 65_535, 65_536, 100_000,
];

/// Returns a long text, its normal path, and how many components it has.
pub fn long_texts(alloc: Global, long: &Long) -> Result<(Vec<u8>, Vec<u8>, usize), AllocError> {
    let &(begin, part, times, count, normal_begin, normal_part) = long;
    let text = repeated(alloc, begin, part, times, b"")?;
    let normal = repeated(alloc, normal_begin, normal_part, times, b"")?;
    Ok((text, normal, count))
}

/// Asserts of each long text that it is read as it should be, on either system.
#[macro_export]
macro_rules! each_long_text {
    ($rt:expr, $long:ident => $unix:expr, $windows:expr) => {
        for $long in $crate::LONG_TEXTS {
            assert!($rt; $unix, "{:?} on Unix", $long);
            assert!($rt; $windows, "{:?}", $long);
        }
        for $long in $crate::LONG_WINDOWS_TEXTS {
            assert!($rt; $windows, "{:?}", $long);
        }
    };
}

/// Asserts of a name of each length that paths grow by it as they should, on either system.
#[macro_export]
macro_rules! each_name {
    ($rt:expr, $name:ident => $unix:expr, $windows:expr) => {
        for &length in $crate::LENGTHS {
            let bytes = $crate::repeated($rt.alloc(), b"", b"a", length, b"")?;
            let $name = std::str::from_utf8(bytes.as_slice()).unwrap_or("");
            assert!($rt; $unix, "{length} bytes");
            assert!($rt; $windows, "{length} bytes on Windows");
        }
    };
}

/// Whether each call that grows a path returns what it should for one long name: `$lent` is a path
/// of that name, `$pushed` the name as what is pushed, and `$name` the name. `$owned` and `$empty`
/// are empty paths, and `$nothing` is the empty path as what is pushed.
#[macro_export]
macro_rules! grows {
    ($alloc:expr, $owned:expr, $empty:expr, $lent:expr, $pushed:expr, $nothing:expr, $name:expr, $path:ident => $bytes:expr) => {{
        let len = $name.len();
        let twice = len.saturating_mul(2).saturating_add(1);
        let mut $path = $owned;
        let pushed = $path.push($pushed).is_ok() && $bytes.len() == len;
        let checked = $path.push_checked($pushed).is_ok() && $bytes.len() == twice;
        let renamed = $path.set_file_name($name).is_ok() && $bytes.len() == twice;
        let reserved = $path.reserve(len).is_ok() && $path.reserve_exact(len).is_ok();
        $path = $empty.with_file_name($alloc, $name)?;
        let named = $bytes.len() == len;
        let extended = $path.set_extension($name).is_ok() && $bytes.len() == twice;
        $path = $lent.with_extension($alloc, $name)?.clone()?;
        let copied = $bytes.len() == twice;
        $path = $lent.join($alloc, $pushed)?;
        let joined = $bytes.len() == twice && $lent.join_checked($alloc, $pushed).is_ok();
        $path = $lent.normalize($alloc)?;
        let settled = $bytes.len() == len;
        $path = $lent.clean($alloc)?;
        let cleaned = $bytes.len() == len;
        let mut led = false;
        if let Some(found) = $lent.relative_to($alloc, $nothing)? {
            $path = found;
            led = $bytes.len() == len;
        }
        $path = $lent.to_path_buf($alloc)?;
        let made = $bytes.len() == len;
        let crossed = $lent.with_unix_encoding($alloc).is_ok()
            && $lent.with_windows_encoding($alloc).is_ok()
            && $lent.with_unix_encoding_checked($alloc).is_ok()
            && $lent.with_windows_encoding_checked($alloc).is_ok();
        let owned = pushed && checked && renamed && reserved && extended && copied;
        owned && named && joined && settled && cleaned && led && made && crossed
    }};
}

/// Whether a path has `$count` components, read from either end.
#[macro_export]
macro_rules! has_number {
    ($path:expr, $count:expr) => {{
        let (mut forward, mut backward) = (0usize, 0usize);
        for _ in $path.components() {
            forward = forward.saturating_add(1);
        }
        for _ in $path.components().rev() {
            backward = backward.saturating_add(1);
        }
        forward == $count && backward == $count
    }};
}

/// Whether a path has `$count` components, read from both ends until they meet.
#[macro_export]
macro_rules! meets_behind {
    ($path:expr, $count:expr) => {{
        let (mut rest, mut is_there) = ($path.components(), true);
        for _ in 0..$count / 2 {
            is_there = is_there && rest.next().is_some() && rest.next_back().is_some();
        }
        for _ in 0..$count % 2 {
            is_there = is_there && rest.next().is_some();
        }
        is_there && rest.next().is_none() && rest.next_back().is_none()
    }};
}
