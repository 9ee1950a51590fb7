//! Paths that lead from a base to another: rows of the answers of other libraries.

use std::alloc::{AllocError, Global};
use std::test::Fail;
use typed_path::{Encoding, Path, UnixEncoding, WindowsEncoding};

/// Whether the path that leads from a base to a path is `wanted`; `-` stands for none.
fn leads_as<T: Encoding>(
    alloc: Global,
    base: &[u8],
    path: &[u8],
    wanted: &[u8],
) -> Result<bool, AllocError> {
    let found = Path::<T>::new(path).relative_to(alloc, Path::new(base))?;
    match found {
        Some(found) => Ok(found.as_path().as_bytes() == wanted),
        None => Ok(wanted == b"-".as_slice()),
    }
}

/// What Go's `filepath.Rel` returns on Unix from each base to each of these paths, without the `/.`
/// that it leaves at the end of some.
#[test]
fn unix_paths(rt: HostRuntime) -> Result<(), Fail> {
    const PATHS: [&[u8]; 13] = [
        b"", b".", b"a", b"a/b/c", b"..", b"../a", b"../b", b"/", b"/a", b"/a/b/c", b"/b",
        b"../../x", b"a/../b",
    ];
    const ROWS: &[(&[u8], &[u8])] = &[
        (b"", b". . a a/b/c .. ../a ../b - - - - ../../x b"),
        (b".", b". . a a/b/c .. ../a ../b - - - - ../../x b"),
        (
            b"a",
            b".. .. . b/c ../.. ../../a ../../b - - - - ../../../x ../b",
        ),
        (
            b"a/b",
            b"../.. ../.. .. c ../../.. ../../../a ../../../b - - - - ../../../../x ../../b",
        ),
        (b"..", b"- - - - . a b - - - - ../x -"),
        (b"../a", b"- - - - .. . ../b - - - - ../../x -"),
        (b"/", b"- - - - - - - . a a/b/c b - -"),
        (b"/a", b"- - - - - - - .. . b/c ../b - -"),
        (b"/a/b", b"- - - - - - - ../.. .. c ../../b - -"),
        (b"a/..", b". . a a/b/c .. ../a ../b - - - - ../../x b"),
        (b"../..", b"- - - - - - - - - - - x -"),
        (b"/a/../b", b"- - - - - - - .. ../a ../a/b/c . - -"),
        (
            b"a/./b/",
            b"../.. ../.. .. c ../../.. ../../../a ../../../b - - - - ../../../../x ../../b",
        ),
        (b"//a/b//", b"- - - - - - - ../.. .. c ../../b - -"),
    ];
    for (base, answers) in ROWS {
        for (path, wanted) in PATHS.iter().zip(answers.split(|byte| *byte == b' ')) {
            assert!(rt; leads_as::<UnixEncoding>(rt.alloc(), base, path, wanted)?);
        }
    }
    Ok(())
}

/// What Python's `ntpath.relpath` returns.
#[test]
fn windows_paths(rt: HostRuntime) -> Result<(), Fail> {
    const ROWS: &[(&[u8], &[u8], &[u8])] = &[
        (br"C:\a", br"C:\a\b", b"b"),
        (br"C:\a\b", br"C:\a", b".."),
        (br"C:\a\b", br"C:\c\d", br"..\..\c\d"),
        (br"C:\a", br"C:\a", b"."),
        (b"C:/a/x/..", br"C:\a\b/c", br"b\c"),
        (br"\\s\h\a", br"\\s\h\b", br"..\b"),
        (br"C:\\", br"C:\a", b"a"),
    ];
    for &(base, path, wanted) in ROWS {
        assert!(rt; leads_as::<WindowsEncoding>(rt.alloc(), base, path, wanted)?);
    }
    Ok(())
}
