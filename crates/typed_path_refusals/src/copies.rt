//! Copies of a path, its JSON value, and its conversions to encodings that a type names.

use crate::ended::{Ended, Refusal, Row, bytes, made, text, typed, typed_text};
use crate::{tell, tell_all};
use serde_json::Value;
use std::alloc::{AllocError, Global};
use std::io;
use typed_path::{
    Encoding, Path, PathBuf, TypedPath, TypedPathBuf, UnixEncoding, UnixPath, Utf8Encoding,
    Utf8Path, Utf8PathBuf, Utf8TypedPath, Utf8TypedPathBuf, Utf8UnixEncoding, Utf8UnixPath,
    Utf8WindowsPath, ValueError, WindowsPath,
};

/// A path that is copied, and how it is written on Unix.
pub type Copied = (&'static str, &'static str);

/// A path that is not UTF-8, and what it is as text.
const LOSSY: Row = ("byte 255", "", "\u{FFFD}");

/// Returns how a call ended that makes a JSON value of a path.
fn value(made: Result<Value, ValueError>, row: Row) -> Ended {
    made!(made, row, value => value.as_str().unwrap_or("").as_bytes())
}

/// Returns a JSON string.
fn value_of(alloc: Global, text: &str) -> Result<Value, AllocError> {
    Ok(Value::from(String::from_str(alloc, text)?))
}

/// Makes copies of a path of bytes, and prints how each call ended.
pub fn copy_bytes<T: Encoding>(
    rt: &impl Print,
    alloc: Global,
    family: &str,
    (base, on_unix): Copied,
) -> io::Result<()> {
    let (kept, unix) = ((base, "", base), (base, "", on_unix));
    let path = Path::<T>::new(base.as_bytes());
    let (Ok(owned), Ok(held)) = (path.to_path_buf(alloc), value_of(alloc, base)) else {
        return tell(rt, family, "a path", Ended::Refused);
    };
    let lossy = Path::<T>::new(b"\xFF").to_string_lossy(alloc);
    let copied = PathBuf::<T>::from_bytes(alloc, base.as_bytes());
    let crossed = path.with_platform_encoding_checked(alloc);
    let told = [
        ("to_path_buf", bytes(path.to_path_buf(alloc), kept)),
        ("from_bytes", bytes(copied, kept)),
        ("from_str", bytes(PathBuf::<T>::from_str(alloc, base), kept)),
        (
            "with_capacity",
            bytes(PathBuf::<T>::with_capacity(alloc, 9), ("", "", "")),
        ),
        ("clone", bytes(owned.clone(), kept)),
        (
            "with_platform_encoding",
            bytes(path.with_platform_encoding(alloc), unix),
        ),
        ("with_platform_encoding_checked", bytes(crossed, unix)),
        (
            "with_encoding",
            bytes(path.with_encoding::<UnixEncoding>(alloc), unix),
        ),
        (
            "with_encoding_checked",
            bytes(path.with_encoding_checked::<T>(alloc), kept),
        ),
        (
            "to_string_lossy",
            made!(lossy, LOSSY, text => text.as_str().as_bytes()),
        ),
        ("to_value", value(path.to_value(alloc), kept)),
        (
            "from_value",
            bytes(PathBuf::<T>::from_value(alloc, &held), kept),
        ),
    ];
    tell_all(rt, family, &told)
}

/// Makes copies of a path of text, and prints how each call ended.
pub fn copy_text<T: Utf8Encoding>(
    rt: &impl Print,
    alloc: Global,
    family: &str,
    (base, on_unix): Copied,
) -> io::Result<()> {
    let (kept, unix) = ((base, "", base), (base, "", on_unix));
    let path = Utf8Path::<T>::new(base);
    let (Ok(owned), Ok(held)) = (path.to_path_buf(alloc), value_of(alloc, base)) else {
        return tell(rt, family, "a path", Ended::Refused);
    };
    let crossed = path.with_platform_encoding_checked(alloc);
    let told = [
        ("to_path_buf", text(path.to_path_buf(alloc), kept)),
        (
            "from_str",
            text(Utf8PathBuf::<T>::from_str(alloc, base), kept),
        ),
        (
            "with_capacity",
            text(Utf8PathBuf::<T>::with_capacity(alloc, 9), ("", "", "")),
        ),
        ("clone", text(owned.clone(), kept)),
        (
            "with_platform_encoding",
            text(path.with_platform_encoding(alloc), unix),
        ),
        ("with_platform_encoding_checked", text(crossed, unix)),
        (
            "with_encoding",
            text(path.with_encoding::<Utf8UnixEncoding>(alloc), unix),
        ),
        (
            "with_encoding_checked",
            text(path.with_encoding_checked::<T>(alloc), kept),
        ),
        ("to_value", value(path.to_value(alloc), kept)),
        (
            "from_value",
            text(Utf8PathBuf::<T>::from_value(alloc, &held), kept),
        ),
    ];
    tell_all(rt, family, &told)
}

/// Makes copies of a path in the dialect that it looks like, and prints how each call ended.
pub fn copy_typed(
    rt: &impl Print,
    alloc: Global,
    family: &str,
    base: &'static str,
) -> io::Result<()> {
    let (kept, name) = ((base, "", base), base.as_bytes());
    let path = TypedPath::derive(name);
    let (Ok(owned), Ok(held)) = (path.to_path_buf(alloc), value_of(alloc, base)) else {
        return tell(rt, family, "a path", Ended::Refused);
    };
    let lossy = TypedPath::derive(b"\xFF").to_string_lossy(alloc);
    let told = [
        ("to_path_buf", typed(path.to_path_buf(alloc), kept)),
        (
            "from_unix",
            typed(TypedPathBuf::from_unix(alloc, name), kept),
        ),
        (
            "from_windows",
            typed(TypedPathBuf::from_windows(alloc, name), kept),
        ),
        (
            "from_bytes",
            typed(TypedPathBuf::from_bytes(alloc, name), kept),
        ),
        ("from_str", typed(TypedPathBuf::from_str(alloc, base), kept)),
        ("clone", typed(owned.clone(), kept)),
        (
            "to_typed_path_buf of Unix",
            typed(UnixPath::new(name).to_typed_path_buf(alloc), kept),
        ),
        (
            "to_typed_path_buf of Windows",
            typed(WindowsPath::new(name).to_typed_path_buf(alloc), kept),
        ),
        (
            "to_string_lossy",
            made!(lossy, LOSSY, text => text.as_str().as_bytes()),
        ),
        ("to_value", value(path.to_value(alloc), kept)),
        (
            "from_value",
            typed(TypedPathBuf::from_value(alloc, &held), kept),
        ),
    ];
    tell_all(rt, family, &told)
}

/// Makes copies of a path of text in the dialect that it looks like, and prints how each call
/// ended.
pub fn copy_typed_text(
    rt: &impl Print,
    alloc: Global,
    family: &str,
    base: &'static str,
) -> io::Result<()> {
    let kept = (base, "", base);
    let path = Utf8TypedPath::derive(base);
    let (Ok(owned), Ok(held)) = (path.to_path_buf(alloc), value_of(alloc, base)) else {
        return tell(rt, family, "a path", Ended::Refused);
    };
    let unix = Utf8UnixPath::new(base).to_typed_path_buf(alloc);
    let windows = Utf8WindowsPath::new(base).to_typed_path_buf(alloc);
    let told = [
        ("to_path_buf", typed_text(path.to_path_buf(alloc), kept)),
        (
            "from_unix",
            typed_text(Utf8TypedPathBuf::from_unix(alloc, base), kept),
        ),
        (
            "from_windows",
            typed_text(Utf8TypedPathBuf::from_windows(alloc, base), kept),
        ),
        (
            "from_str",
            typed_text(Utf8TypedPathBuf::from_str(alloc, base), kept),
        ),
        ("clone", typed_text(owned.clone(), kept)),
        ("to_typed_path_buf of Unix", typed_text(unix, kept)),
        ("to_typed_path_buf of Windows", typed_text(windows, kept)),
        ("to_value", value(path.to_value(alloc), kept)),
        (
            "from_value",
            typed_text(Utf8TypedPathBuf::from_value(alloc, &held), kept),
        ),
    ];
    tell_all(rt, family, &told)
}
