//! Clean paths: what other libraries make of the same paths.

use std::alloc::{AllocError, Global};
use std::test::Fail;
use typed_path::{Encoding, Path, UnixEncoding, WindowsEncoding};

/// Whether each path of a table has the clean path in its row.
fn are_clean_as<T: Encoding>(alloc: Global, rows: &[(&[u8], &[u8])]) -> Result<bool, AllocError> {
    for &(path, wanted) in rows {
        let clean = Path::<T>::new(path).clean(alloc)?;
        if clean.as_path().as_bytes() != wanted {
            return Ok(false);
        }
    }
    Ok(true)
}

#[test]
fn clean_texts_of_unix(rt: HostRuntime) -> Result<(), Fail> {
    const ROWS: &[(&[u8], &[u8])] = &[
        (b"", b"."),
        (b"/", b"/"),
        (b".", b"."),
        (b"..", b".."),
        (b"//", b"/"),
        (b"/.", b"/"),
        (b"/..", b"/"),
        (b"../..", b"../.."),
        (b"a/..", b"."),
        (b"a/../..", b".."),
        (b"/a/../..", b"/"),
        (b"a//b/./c/", b"a/b/c"),
        (b"../a", b"../a"),
        (b"./../a", b"../a"),
        (b"a/b/../../..", b".."),
        (b"a/./../b", b"b"),
        (b"/a/b/..", b"/a"),
        (b"//a//..//b", b"/b"),
        (b".../..", b"."),
        (b"..a/..", b"."),
        (b"a/../b/../..", b".."),
        (b"/...", b"/..."),
        (b"b", b"b"),
        (b"//a/../c.d/", b"/c.d"),
        (b"./", b"."),
        (b"/c.d/b/c.d/.../../.", b"/c.d/b/c.d"),
        (b"/b//a", b"/b/a"),
        (b"/../.../.../", b"/.../..."),
        (b"../", b".."),
        (b"/b", b"/b"),
        (b"//.h/c.d/./../b", b"/.h/b"),
        (b".h/", b".h"),
        (b"/c.d/../c.d/b", b"/c.d/b"),
        (b"..//../b/c.d/.", b"../../b/c.d"),
        (b"/a", b"/a"),
        (b"a/c.d/", b"a/c.d"),
        (b"/.../b", b"/.../b"),
        (b"/.h/", b"/.h"),
        (b"/./c.d/a/c.d", b"/c.d/a/c.d"),
        (b"/c.d/c.d", b"/c.d/c.d"),
        (b"b/.h/../.../..", b"b"),
        (b"./a/.h/../c.d", b"a/c.d"),
        (b"../.h/../..", b"../.."),
        (b"a/../.../.h", b".../.h"),
        (b"/../.h/../a", b"/a"),
        (b"/../../..", b"/"),
        (b"./c.d/a", b"c.d/a"),
        (b"b/.../a", b"b/.../a"),
        (b"...", b"..."),
        (b"/./c.d//.h/c.d", b"/c.d/.h/c.d"),
        (b"..//c.d/.../.h", b"../c.d/.../.h"),
        (b"/../a/...", b"/a/..."),
        (b".h/.h/.../.../../a", b".h/.h/.../a"),
        (b"/a/", b"/a"),
        (b"/../a/../.", b"/"),
        (b".h/.h/a", b".h/.h/a"),
        (b"/b/.h//./a/c.d", b"/b/.h/a/c.d"),
        (b"/a//c.d/b/b", b"/a/c.d/b/b"),
        (b".../..//...", b"..."),
        (b"/.../b/b/b", b"/.../b/b/b"),
    ];
    assert!(rt; are_clean_as::<UnixEncoding>(rt.alloc(), ROWS)?);
    Ok(())
}

#[test]
fn clean_texts_of_windows(rt: HostRuntime) -> Result<(), Fail> {
    const ROWS: &[(&[u8], &[u8])] = &[
        (b"C:\\a\\..\\b", b"C:\\b"),
        (b"C:\\..\\a", b"C:\\a"),
        (b"C:..\\a", b"C:..\\a"),
        (b"C:a\\..\\..\\b", b"C:..\\b"),
        (b"..\\a", b"..\\a"),
        (b"a\\..\\..", b".."),
        (b"C:/a/./b//c", b"C:\\a\\b\\c"),
        (b"\\..\\a", b"\\a"),
        (b"\\a\\..", b"\\"),
        (b"C:\\\\", b"C:\\"),
        (b".", b"."),
        (b"", b"."),
        (b"\\\\server\\share\\..\\a", b"\\\\server\\share\\a"),
        (b"\\\\server\\share\\a\\..\\b", b"\\\\server\\share\\b"),
        (b"a/..\\b", b"b"),
        (b"C:.", b"C:"),
        (b"C:a\\..", b"C:"),
        (b"..\\..\\a\\..\\b", b"..\\..\\b"),
        (b"a\\..\\C:\\b", b".\\C:\\b"),
        (b".\\C:", b".\\C:"),
        (b"\\\\?\\C:a", b"\\\\?\\C:\\a"),
        (b"\\\\?\\C:\\a/..\\b\\.\\..", b"\\\\?\\C:\\a/.."),
        (b"a\\..\\\\\\s\\h", b"s\\h"),
        (b"//s/h", b"//s/h"),
        (b"//s/h/", b"//s/h\\"),
    ];
    assert!(rt; are_clean_as::<WindowsEncoding>(rt.alloc(), ROWS)?);
    Ok(())
}
