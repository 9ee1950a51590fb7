//! Paths in other encodings, and made absolute, with enough memory: rows of known answers.

use std::alloc::{AllocError, Global};
use std::test::Fail;
use typed_path::{
    AbsolutizeError, CheckedPathError, Encoding, NativeComponent, NativeEncoding, NativePath,
    NativePathBuf, Path, PathBuf, PathError, Piece, PlatformEncoding, PlatformPath,
    PlatformPathBuf, UnixEncoding, UnixPath, WindowsEncoding, WindowsPath,
};

/// A path, what it becomes, and what the checked conversion returns.
pub type Row<'a> = (&'a [u8], &'a [u8], Result<&'a [u8], CheckedPathError>);

/// Whether a checked conversion returned what is wanted. No row wants a failed allocation.
fn is_as<U: Encoding>(
    answer: Result<PathBuf<U>, PathError>,
    wanted: Result<&[u8], CheckedPathError>,
) -> bool {
    match (answer, wanted) {
        (Ok(path), Ok(wanted)) => path.as_path().as_bytes() == wanted,
        (Err(PathError::Checked(refusal)), Err(wanted)) => refusal == wanted,
        _ => false,
    }
}

/// Whether a path becomes what a row says, by either conversion.
pub fn converts_as<T: Encoding, U: Encoding>(
    alloc: Global,
    row: Row<'_>,
) -> Result<bool, AllocError> {
    let (path, text, checked) = row;
    let path = Path::<T>::new(path);
    let converted = path.with_encoding::<U>(alloc)?;
    Ok(
        converted.as_path().as_bytes() == text
            && is_as(path.with_encoding_checked::<U>(alloc), checked),
    )
}

#[test]
fn to_windows(rt: HostRuntime) -> Result<(), Fail> {
    use CheckedPathError::{InvalidFilename, UnexpectedPrefix};
    let rows: [Row<'_>; 9] = [
        (b"/tmp/aux.h", br"\tmp\aux.h", Err(InvalidFilename)),
        (b"/tmp/a:b", b"a:b", Err(UnexpectedPrefix)),
        (b"/tmp/ab:c", br"\tmp\ab:c", Err(InvalidFilename)),
        (b"/C:", b"C:", Err(UnexpectedPrefix)),
        (br"a\b", br"a\b", Ok(br"a\b")),
        (
            b"/tmp/|invalid|/foo.txt",
            br"\tmp\|invalid|\foo.txt",
            Err(InvalidFilename),
        ),
        (b"/tmp/foo.txt", br"\tmp\foo.txt", Ok(br"\tmp\foo.txt")),
        (br"\\?\C:/a/./../b", br"\\?\C:\b", Err(UnexpectedPrefix)),
        (b"", b"", Ok(b"")),
    ];
    for row in rows {
        assert!(rt; converts_as::<UnixEncoding, WindowsEncoding>(rt.alloc(), row)?);
    }
    let own: [Row<'_>; 4] = [
        (br"\\s\con\x", br"\\s\con\x", Ok(br"\x")),
        (br"C:\x", br"C:\x", Err(UnexpectedPrefix)),
        (br"\\.\COM1\x", br"\\.\COM1\x", Ok(br"\x")),
        (br"\\s\h\x", br"\\s\h\x", Ok(br"\x")),
    ];
    for row in own {
        assert!(rt; converts_as::<WindowsEncoding, WindowsEncoding>(rt.alloc(), row)?);
    }
    Ok(())
}

#[test]
fn to_unix_and_the_platform(rt: HostRuntime) -> Result<(), Fail> {
    use CheckedPathError::UnexpectedRoot;
    let rows: [Row<'_>; 6] = [
        (br"C:\x", b"/x", Ok(b"/x")),
        (br"\\.\COM1\x", b"/x", Ok(b"/x")),
        (b"C:tmp", b"C:/tmp", Ok(b"C:/tmp")),
        (br"\\s\h\x", b"/x", Ok(b"/x")),
        (br"\\?\C:\a\.\b", b"/a/./b", Ok(b"/a/./b")),
        (br"\\?\C:\a\/x", b"/x", Err(UnexpectedRoot)),
    ];
    for row in rows {
        assert!(rt; converts_as::<WindowsEncoding, UnixEncoding>(rt.alloc(), row)?);
        assert!(rt; converts_as::<WindowsEncoding, PlatformEncoding>(rt.alloc(), row)?);
    }
    let own: Row<'_> = (b"a//b", b"a//b", Ok(b"a/b"));
    assert!(rt; converts_as::<UnixEncoding, PlatformEncoding>(rt.alloc(), own)?);
    assert!(rt; converts_as::<PlatformEncoding, UnixEncoding>(rt.alloc(), own)?);
    Ok(())
}

#[test]
fn named_encodings(rt: HostRuntime) -> Result<(), Fail> {
    let unix = UnixPath::new(b"a//b");
    let windows = WindowsPath::new(br"C:\x");
    let platform = PlatformPath::new(b"a//b");
    assert!(rt; unix.has_unix_encoding() && !unix.has_windows_encoding());
    assert!(rt; !windows.has_unix_encoding() && windows.has_windows_encoding());
    assert!(rt; platform.has_unix_encoding() && !platform.has_windows_encoding());
    assert!(rt; platform.has_platform_encoding());
    assert!(rt; !unix.has_platform_encoding() && !windows.has_platform_encoding());
    let alloc = rt.alloc();
    assert_eq!(rt;
        unix.with_platform_encoding(alloc)?.as_path().as_bytes(),
        b"a//b".as_slice()
    );
    assert!(rt; is_as(unix.with_platform_encoding_checked(alloc), Ok(b"a/b")));
    assert_eq!(rt;
        windows.with_unix_encoding(alloc)?.as_path().as_bytes(),
        b"/x".as_slice()
    );
    assert!(rt; is_as(windows.with_unix_encoding_checked(alloc), Ok(b"/x")));
    assert_eq!(rt;
        unix.with_windows_encoding(alloc)?.as_path().as_bytes(),
        br"a\b".as_slice()
    );
    assert!(rt; is_as(unix.with_windows_encoding_checked(alloc), Ok(br"a\b")));
    Ok(())
}

/// Whether there is a piece, and it has these bytes.
fn has_text(piece: Option<Piece<'_>>, text: &[u8]) -> bool {
    piece.is_some_and(|piece| piece.text == text)
}

/// Whether a path is read as on Unix: `/` alone separates, and there is no prefix.
fn is_read_as_on_unix<T: Encoding>(path: Path<'_, T>) -> bool {
    let mut components = path.components();
    has_text(components.next(), br"C:\a")
        && has_text(components.next(), b"b")
        && components.next().is_none()
}

#[test]
fn names_of_the_machine(rt: HostRuntime) -> Result<(), Fail> {
    let text = br"C:\a/b";
    let native = NativePathBuf::from_bytes(rt.alloc(), text)?;
    let platform = PlatformPathBuf::from_bytes(rt.alloc(), text)?;
    assert!(rt; is_read_as_on_unix(native.as_path()) && is_read_as_on_unix(NativePath::new(text)));
    assert!(rt;
        is_read_as_on_unix(platform.as_path()) && is_read_as_on_unix(PlatformPath::new(text))
    );
    assert!(rt; is_read_as_on_unix(Path::<NativeEncoding>::new(text)));
    assert!(rt; is_read_as_on_unix(Path::<PlatformEncoding>::new(text)));
    assert!(rt; NativeComponent::try_from(br"C:\a") == Ok(NativeComponent::Normal(br"C:\a")));
    assert!(rt; NativeComponent::try_from(text).is_err());
    assert!(rt; NativePath::new(b"/a").is_absolute() && PlatformPath::new(b"/a").is_absolute());
    Ok(())
}

/// Whether a path is made absolute from `directory` as `wanted`, or is ambiguous if nothing is
/// wanted.
pub fn absolutizes_as<T: Encoding>(
    alloc: Global,
    directory: &[u8],
    path: &[u8],
    wanted: Option<&[u8]>,
) -> bool {
    let answer = Path::<T>::new(path).absolutize(alloc, PlatformPath::new(directory));
    match (answer, wanted) {
        (Ok(path), Some(wanted)) => path.as_path().as_bytes() == wanted,
        (Err(refusal), None) => refusal == AbsolutizeError::Ambiguous,
        _ => false,
    }
}

#[test]
fn absolute_paths(rt: HostRuntime) -> Result<(), Fail> {
    const UNIX: &[(&[u8], &[u8], Option<&[u8]>)] = &[
        (b"/home/u", b"a/../b", Some(b"/home/u/b")),
        (b"/home/u", b"/a/b/../c/./d", Some(b"/a/c/d")),
        (b"u", b"a", None),
    ];
    for &(directory, path, wanted) in UNIX {
        assert!(rt; absolutizes_as::<UnixEncoding>(rt.alloc(), directory, path, wanted));
        assert!(rt; absolutizes_as::<PlatformEncoding>(rt.alloc(), directory, path, wanted));
    }
    const WINDOWS: &[(&[u8], Option<&[u8]>)] = &[
        (br"\a", None),
        (b"C:something", None),
        (br"C:\a\..\b", Some(br"C:\b")),
        (br"\\server", None),
    ];
    for &(path, wanted) in WINDOWS {
        assert!(rt; absolutizes_as::<WindowsEncoding>(rt.alloc(), b"/home/u", path, wanted));
    }
    Ok(())
}
