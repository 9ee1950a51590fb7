//! Texts of a megabyte, read and normalized as paths of text, and names of many lengths in each
//! call that grows a path.

use std::alloc::{AllocError, Global};
use std::str;
use std::test::Fail;
use typed_path::{Utf8Encoding, Utf8Path, Utf8PathBuf, Utf8UnixEncoding, Utf8WindowsEncoding};
use typed_path_tests::{Long, each_long_text, each_name, grows, long_texts, meets_behind};

/// Whether a long text has its components, and its normal path.
fn is_read<T: Utf8Encoding>(alloc: Global, long: &Long) -> Result<bool, AllocError> {
    let (text, normal, count) = long_texts(alloc, long)?;
    let path = Utf8Path::<T>::new(str::from_utf8(text.as_slice()).unwrap_or(""));
    let is_normal = path.normalize(alloc)?.as_path().as_str().as_bytes() == normal.as_slice();
    Ok(is_normal && meets_behind!(path, count))
}

#[test]
fn megabytes(rt: HostRuntime) -> Result<(), Fail> {
    let alloc = rt.alloc();
    each_long_text!(rt, long => is_read::<Utf8UnixEncoding>(alloc, long)?, is_read::<Utf8WindowsEncoding>(alloc, long)?);
    Ok(())
}

/// Whether each call that grows a path returns what it should for one name.
fn is_grown<T: Utf8Encoding>(alloc: Global, name: &str) -> Result<bool, AllocError> {
    let (empty, lent) = (Utf8Path::<T>::new(""), Utf8Path::<T>::new(name));
    Ok(
        grows!(alloc, Utf8PathBuf::<T>::new(alloc), empty, lent, lent, empty, name, path => path.as_path().as_str()),
    )
}

#[test]
fn names_of_many_lengths(rt: HostRuntime) -> Result<(), Fail> {
    let alloc = rt.alloc();
    each_name!(rt, name => is_grown::<Utf8UnixEncoding>(alloc, name)?, is_grown::<Utf8WindowsEncoding>(alloc, name)?);
    Ok(())
}
