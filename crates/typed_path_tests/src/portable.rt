//! Portable paths: names that other tools refuse, joins with enough memory, and printed errors.

use crate::long::LENGTHS;
use crate::support::repeated;
use std::alloc::Global;
use std::test::Fail;
use typed_path::{
    CheckedPathError, Encoding, JoinError, Path, PortableError, TypedPath, UnixEncoding, UnixPath,
    Utf8UnixPath, WindowsEncoding, WindowsPath,
};

// CPython, Git, Go or werkzeug refuse each of these on Windows.
#[test]
fn names_refused_elsewhere(rt: HostRuntime) {
    use PortableError::{Device, Ending, Forbidden};
    const ROWS: &[(&[u8], PortableError)] = &[
        (b"NUL", Device),
        (b"nul.txt", Device),
        (b"nul .txt", Device),
        (b"nul.", Device),
        (b"NUL:", Forbidden),
        (b"NUL::$DATA", Forbidden),
        (b"CONIN$", Device),
        (b"conin$.txt", Device),
        (b"COM\xC2\xB9.txt", Device),
        (b"LPT0", Device),
        (b"a*b", Forbidden),
        (b"a\x01", Forbidden),
        (b"a.", Ending),
        (b"a ", Ending),
        (b"...", Ending),
    ];
    for &(name, wanted) in ROWS {
        assert_eq!(rt; WindowsPath::new(name).check_portable(), Err(wanted));
        assert_eq!(rt; UnixPath::new(name).check_portable(), Err(wanted));
    }
}

/// Whether a portable join ends as wanted.
fn joins_as<T: Encoding>(
    alloc: Global,
    base: &[u8],
    path: &[u8],
    wanted: Result<&[u8], JoinError>,
) -> bool {
    let joined = Path::<T>::new(base).join_portable(alloc, Path::new(path));
    match wanted {
        Ok(wanted) => joined.is_ok_and(|path| path.as_path().as_bytes() == wanted),
        Err(refusal) => joined.err() == Some(refusal),
    }
}

#[test]
fn portable_joins(rt: HostRuntime) {
    use CheckedPathError::{PathTraversalAttack, UnexpectedRoot};
    use JoinError::{Checked, Portable};
    use PortableError::{Device, Forbidden, Prefix};
    const UNIX: &[(&[u8], Result<&[u8], JoinError>)] = &[
        (b"a/../b.txt", Ok(b"/etc/a/../b.txt")),
        (br"a\b", Err(Portable(Forbidden))),
        (b"/a", Err(Checked(UnexpectedRoot))),
    ];
    for &(path, wanted) in UNIX {
        assert!(rt; joins_as::<UnixEncoding>(rt.alloc(), b"/etc", path, wanted));
    }
    const WINDOWS: &[(&[u8], Result<&[u8], JoinError>)] = &[
        (b"b/c", Ok(br"C:\a\b/c")),
        (b"D:c", Err(Portable(Prefix))),
        (b"aux .h", Err(Portable(Device))),
        (br"b\..\..", Err(Checked(PathTraversalAttack))),
    ];
    for &(path, wanted) in WINDOWS {
        assert!(rt; joins_as::<WindowsEncoding>(rt.alloc(), br"C:\a", path, wanted));
    }
    let alloc = rt.alloc();
    let text = Utf8UnixPath::new("/é").join_portable(alloc, Utf8UnixPath::new("a/ü"));
    assert!(rt; text.is_ok_and(|path| path.as_path().as_str() == "/é/a/ü"));
    let typed = TypedPath::windows(br"C:\a").join_portable(alloc, b"b");
    assert!(rt; typed.is_ok_and(|path| path.as_bytes() == br"C:\a\b".as_slice()));
}

#[test]
fn portable_joins_of_any_length(rt: HostRuntime) -> Result<(), Fail> {
    for &count in LENGTHS {
        let path = repeated(rt.alloc(), b"", b"a/", count, b"b")?;
        let joined = UnixPath::new(b"/").join_portable(rt.alloc(), UnixPath::new(path.as_slice()));
        assert!(rt; joined.is_ok());
    }
    Ok(())
}

#[test]
fn printed_portable_errors(rt: HostRuntime) -> Result<(), Fail> {
    let rows = [
        (PortableError::Prefix, "path contains a prefix"),
        (PortableError::Forbidden, "path contains a forbidden byte"),
        (
            PortableError::Device,
            "path contains a name that may be a device",
        ),
        (
            PortableError::Ending,
            "path contains a name that ends in a dot or a space",
        ),
        (
            PortableError::TooLong,
            "path contains a name that is too long",
        ),
        (
            PortableError::NotText,
            "path contains a name that is not UTF-8",
        ),
    ];
    for (error, wanted) in rows {
        assert_eq!(rt; error.to_string(rt.alloc())?.as_str(), wanted);
        let refused = JoinError::Portable(error).to_string(rt.alloc())?;
        assert_eq!(rt; refused.as_str(), wanted);
    }
    Ok(())
}
