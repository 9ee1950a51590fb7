//! Calls of paths with enough memory, and printed paths.

use std::alloc::{AllocError, Global};
use std::test::Fail;
use typed_path::{
    AbsolutizeError, CheckedPathError, Encoding, Path, PathError, UnixEncoding, UnixPath,
    UnixPathBuf,
};

/// Whether a path has the normal path `wanted`.
pub fn normalizes_as<T: Encoding>(
    alloc: Global,
    path: &[u8],
    wanted: &[u8],
) -> Result<bool, AllocError> {
    let normal = Path::<T>::new(path).normalize(alloc)?;
    Ok(normal.as_path().as_bytes() == wanted)
}

#[test]
fn normal_texts(rt: HostRuntime) -> Result<(), Fail> {
    const ROWS: &[(&[u8], &[u8])] = &[
        (b"foo/bar//baz/./asdf/quux/..", b"foo/bar/baz/asdf"),
        (b"a//b/.", b"a/b"),
        (b"./a/b", b"a/b"),
        (b"/a/b", b"/a/b"),
        (b"/../..", b"/"),
        (b"", b""),
    ];
    for &(path, wanted) in ROWS {
        assert!(rt; normalizes_as::<UnixEncoding>(rt.alloc(), path, wanted)?);
    }
    Ok(())
}

#[test]
fn printed_errors(rt: HostRuntime) -> Result<(), Fail> {
    let rows = [
        (
            CheckedPathError::InvalidFilename,
            "path contains invalid filename",
        ),
        (
            CheckedPathError::PathTraversalAttack,
            "path attempts to escape original path",
        ),
        (
            CheckedPathError::UnexpectedPrefix,
            "path contains unexpected prefix",
        ),
        (
            CheckedPathError::UnexpectedRoot,
            "path contains unexpected root",
        ),
    ];
    for (error, wanted) in rows {
        assert_eq!(rt; error.to_string(rt.alloc())?.as_str(), wanted);
        let refused = PathError::Checked(error).to_string(rt.alloc())?;
        assert_eq!(rt; refused.as_str(), wanted);
    }
    let ambiguous = AbsolutizeError::Ambiguous.to_string(rt.alloc())?;
    assert_eq!(rt; ambiguous.as_str(), "path is ambiguous");
    Ok(())
}

#[test]
fn an_owned_path(rt: HostRuntime) -> Result<(), Fail> {
    let mut path = UnixPathBuf::new(rt.alloc());
    for (pushed, wanted) in [
        ("etc", "etc"),
        ("", "etc"),
        ("a/", "etc/a/"),
        ("b", "etc/a/b"),
        ("/x", "/x"),
    ] {
        path.push(UnixPath::new(pushed.as_bytes()))?;
        assert_eq!(rt; path.as_path().as_bytes(), wanted.as_bytes());
    }
    Ok(())
}
