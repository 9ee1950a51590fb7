//! Texts of a megabyte, read and normalized as paths of either dialect, of bytes and of text; and
//! names of many lengths, of bytes and of text, in each call that grows a path and as JSON values.

use serde_json::Value;
use std::alloc::{AllocError, Global};
use std::str;
use std::test::Fail;
use typed_path::{
    PathType, TypedPath, TypedPathBuf, UnixPath, UnixPathBuf, Utf8TypedPath, Utf8TypedPathBuf,
    Utf8WindowsPath, Utf8WindowsPathBuf, ValueError,
};
use typed_path_tests::{Long, each_long_text, each_name, grows, long_texts, meets_behind};

/// Whether a long path has its components and its normal path.
fn is_read(alloc: Global, kind: PathType, long: &Long) -> Result<bool, AllocError> {
    let (bytes, normal, count) = long_texts(alloc, long)?;
    let path = TypedPath::new(bytes.as_slice(), kind);
    Ok(path.normalize(alloc)?.as_bytes() == normal.as_slice() && meets_behind!(path, count))
}

#[test]
fn megabytes(rt: HostRuntime) -> Result<(), Fail> {
    let alloc = rt.alloc();
    each_long_text!(rt, long => is_read(alloc, PathType::Unix, long)?, is_read(alloc, PathType::Windows, long)?);
    Ok(())
}

/// Whether a long path of text has its components and its normal path.
fn is_read_as_text(alloc: Global, kind: PathType, long: &Long) -> Result<bool, AllocError> {
    let (bytes, normal, count) = long_texts(alloc, long)?;
    let text = Utf8TypedPath::new(str::from_utf8(bytes.as_slice()).unwrap_or(""), kind);
    Ok(
        text.normalize(alloc)?.as_str().as_bytes() == normal.as_slice()
            && meets_behind!(text, count),
    )
}

#[test]
fn megabytes_of_text(rt: HostRuntime) -> Result<(), Fail> {
    let alloc = rt.alloc();
    each_long_text!(rt, long => is_read_as_text(alloc, PathType::Unix, long)?, is_read_as_text(alloc, PathType::Windows, long)?);
    Ok(())
}

/// Whether a name is kept as a JSON value, by a path of each family.
fn is_kept(alloc: Global, kind: PathType, name: &str) -> Result<bool, ValueError> {
    let values: [Value; 4] = [
        UnixPath::new(name.as_bytes()).to_value(alloc)?,
        Utf8WindowsPath::new(name).to_value(alloc)?,
        TypedPath::new(name.as_bytes(), kind).to_value(alloc)?,
        Utf8TypedPath::new(name, kind).to_value(alloc)?,
    ];
    for value in &values {
        let is_kept = value.as_str() == Some(name)
            && UnixPathBuf::from_value(alloc, value)?.as_path().as_bytes() == name.as_bytes()
            && Utf8WindowsPathBuf::from_value(alloc, value)?
                .as_path()
                .as_str()
                == name
            && TypedPathBuf::from_value(alloc, value)?.as_bytes() == name.as_bytes()
            && Utf8TypedPathBuf::from_value(alloc, value)?.as_str() == name;
        if !is_kept {
            return Ok(false);
        }
    }
    Ok(true)
}

/// Whether each call that grows a path of bytes returns what it should for one name.
fn is_grown(alloc: Global, kind: PathType, name: &str) -> Result<bool, AllocError> {
    let bytes = name.as_bytes();
    let (empty, lent) = (TypedPath::new(b"", kind), TypedPath::new(bytes, kind));
    Ok(
        grows!(alloc, TypedPathBuf::new(alloc, kind), empty, lent, bytes, b"", bytes, path => path.as_bytes()),
    )
}

/// Whether each call that grows a path of text returns what it should for one name.
fn is_grown_as_text(alloc: Global, kind: PathType, name: &str) -> Result<bool, AllocError> {
    let (empty, lent) = (Utf8TypedPath::new("", kind), Utf8TypedPath::new(name, kind));
    Ok(
        grows!(alloc, Utf8TypedPathBuf::new(alloc, kind), empty, lent, name, "", name, path => path.as_str()),
    )
}

/// Whether [`is_grown`], [`is_grown_as_text`] and [`is_kept`] are true of one name.
fn is_grown_and_kept(alloc: Global, kind: PathType, name: &str) -> Result<bool, AllocError> {
    Ok(
        is_grown(alloc, kind, name)?
            && is_grown_as_text(alloc, kind, name)?
            && is_kept(alloc, kind, name) == Ok(true),
    )
}

#[test]
fn names_of_many_lengths(rt: HostRuntime) -> Result<(), Fail> {
    let alloc = rt.alloc();
    each_name!(rt, name => is_grown_and_kept(alloc, PathType::Unix, name)?, is_grown_and_kept(alloc, PathType::Windows, name)?);
    Ok(())
}
