//! Paths in lower case with enough memory, and comparisons in lower case.

use crate::long::LENGTHS;
use crate::support::repeated;
use std::alloc::{AllocError, Global};
use std::test::Fail;
use typed_path::{Encoding, Path, UnixEncoding, UnixPath, WindowsEncoding};

/// Whether each path of a table is as its row says in lower case, and is equal to that in lower
/// case and begins with it.
fn are_lowered_as<T: Encoding>(alloc: Global, rows: &[(&[u8], &[u8])]) -> Result<bool, AllocError> {
    for &(path, wanted) in rows {
        let lowered = Path::<T>::new(path).to_ascii_lowercase(alloc)?;
        let path = Path::<T>::new(path);
        if lowered.as_path().as_bytes() != wanted
            || !path.eq_ignore_ascii_case(lowered.as_path())
            || !path.starts_with_ignore_ascii_case(lowered.as_path())
        {
            return Ok(false);
        }
    }
    Ok(true)
}

#[test]
fn lower_case(rt: HostRuntime) -> Result<(), Fail> {
    const UNIX: &[(&[u8], &[u8])] = &[
        (b"", b""),
        (b"/Src//./Main.RS", b"/src//./main.rs"),
        (b"//?/UNC/S", b"//?/unc/s"),
        (
            b"ABCDEFGHIJKLMNOPQRSTUVWXYZ@[`{0189\xC3\x89",
            b"abcdefghijklmnopqrstuvwxyz@[`{0189\xC3\x89",
        ),
    ];
    const WINDOWS: &[(&[u8], &[u8])] = &[
        (br"C:\Windows/System32", br"c:\windows/system32"),
        (br"\\Server\Share\A", br"\\server\share\a"),
        (br"\\?\UNC\Server\Share\A", br"\\?\UNC\server\share\a"),
        (br"\\?\UNC", br"\\?\unc"),
        (br"\\?\Unc\S", br"\\?\unc\s"),
        (br"\\.\COM1", br"\\.\com1"),
        (br"\\?\C:\A", br"\\?\c:\a"),
    ];
    assert!(rt; are_lowered_as::<UnixEncoding>(rt.alloc(), UNIX)?);
    assert!(rt; are_lowered_as::<WindowsEncoding>(rt.alloc(), WINDOWS)?);
    Ok(())
}

#[test]
fn names_of_any_length_in_lower_case(rt: HostRuntime) -> Result<(), Fail> {
    for &length in LENGTHS {
        let name = repeated(rt.alloc(), b"", b"A", length, b"")?;
        let lowered = UnixPath::new(name.as_slice()).to_ascii_lowercase(rt.alloc())?;
        assert_eq!(rt; lowered.as_path().as_bytes().len(), length);
    }
    Ok(())
}
