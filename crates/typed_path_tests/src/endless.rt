//! Texts of a megabyte, read and normalized as paths of bytes, and names of many lengths in each
//! call that grows a path.

use crate::long::{Long, long_texts};
use crate::{each_long_text, each_name, grows, has_number};
use std::alloc::{AllocError, Global};
use std::test::Fail;
use typed_path::{Encoding, Path, PathBuf, UnixEncoding, WindowsEncoding};

/// Whether a long text has its components, and its normal path.
fn is_read<T: Encoding>(alloc: Global, long: &Long) -> Result<bool, AllocError> {
    let (text, normal, count) = long_texts(alloc, long)?;
    let path = Path::<T>::new(text.as_slice());
    let is_normal = path.normalize(alloc)?.as_path().as_bytes() == normal.as_slice();
    Ok(is_normal && has_number!(path, count))
}

#[test]
fn megabytes(rt: HostRuntime) -> Result<(), Fail> {
    let alloc = rt.alloc();
    each_long_text!(rt, long => is_read::<UnixEncoding>(alloc, long)?, is_read::<WindowsEncoding>(alloc, long)?);
    Ok(())
}

/// Whether each call that grows a path returns what it should for one name.
fn is_grown<T: Encoding>(alloc: Global, name: &[u8]) -> Result<bool, AllocError> {
    let (empty, lent) = (Path::<T>::new(b""), Path::<T>::new(name));
    Ok(
        grows!(alloc, PathBuf::<T>::new(alloc), empty, lent, lent, empty, name, path => path.as_path().as_bytes()),
    )
}

#[test]
fn names_of_many_lengths(rt: HostRuntime) -> Result<(), Fail> {
    let alloc = rt.alloc();
    each_name!(rt, name => is_grown::<UnixEncoding>(alloc, name.as_bytes())?, is_grown::<WindowsEncoding>(alloc, name.as_bytes())?);
    Ok(())
}
