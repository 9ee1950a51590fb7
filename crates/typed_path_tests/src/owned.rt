//! Owned paths, with enough memory.

use std::alloc::{AllocError, Global};
use std::test::Fail;
use typed_path::{
    CheckedPathError, Encoding, Path, PathBuf, PathError, PathOp, Reply, UnixComponents,
    UnixEncoding, UnixPath, UnixPathBuf, run_ops,
};

/// Whether a checked push and a checked join of a path onto a base both end as wanted.
pub fn joins_as<T: Encoding>(
    alloc: Global,
    base: &[u8],
    path: &[u8],
    wanted: Result<&[u8], CheckedPathError>,
) -> Result<bool, AllocError> {
    let mut pushed = PathBuf::<T>::from_bytes(alloc, base)?;
    let outcome = pushed.push_checked(Path::new(path));
    let text = pushed.as_path().as_bytes();
    let joined = Path::<T>::new(base).join_checked(alloc, Path::new(path));
    Ok(match wanted {
        Ok(wanted) => {
            outcome.is_ok()
                && text == wanted
                && joined.is_ok_and(|path| path.as_path().as_bytes() == wanted)
        }
        Err(refusal) => {
            outcome == Err(PathError::Checked(refusal))
                && text == base
                && joined.err() == Some(PathError::Checked(refusal))
        }
    })
}

#[test]
fn checked_pushes(rt: HostRuntime) -> Result<(), Fail> {
    use CheckedPathError::{InvalidFilename, PathTraversalAttack, UnexpectedRoot};
    const ROWS: &[(&[u8], &[u8], Result<&[u8], CheckedPathError>)] = &[
        (b"/etc", b"..", Err(PathTraversalAttack)),
        (b"/etc", b"/sneaky/replacement", Err(UnexpectedRoot)),
        (b"/etc", b"abc/../def", Ok(b"/etc/abc/../def")),
        (b"some/path", b"some/inva\0lid/path", Err(InvalidFilename)),
        (b"..", b"a", Ok(b"../a")),
        (b"a", b"", Ok(b"a")),
    ];
    for &(base, path, wanted) in ROWS {
        assert!(rt; joins_as::<UnixEncoding>(rt.alloc(), base, path, wanted)?);
    }
    Ok(())
}

#[test]
fn changed_names(rt: HostRuntime) -> Result<(), Fail> {
    let rows = [
        ("...", "", true, ".."),
        ("foo/..", "z", false, "foo/.."),
        ("/tmp/日本語.txt/", "z", true, "/tmp/日本語.z"),
        ("a/b.tar.gz", "", true, "a/b.tar"),
        ("", "z", false, ""),
    ];
    for (path, extension, changed, wanted) in rows {
        let mut owned = UnixPathBuf::from_str(rt.alloc(), path)?;
        assert_eq!(rt; owned.set_extension(extension.as_bytes())?, changed);
        assert_eq!(rt; owned.into_vec().as_slice(), wanted.as_bytes());
        let copy = UnixPath::new(path.as_bytes()).with_extension(rt.alloc(), extension.as_bytes());
        assert_eq!(rt; copy?.as_path().as_bytes(), wanted.as_bytes());
    }
    let long = "a name that is much longer than the one that comes in its place, by many bytes";
    for (path, name, wanted) in [
        ("a/b", "", "a"),
        ("a/b/", "c", "a/c"),
        ("a/..", "b", "a/../b"),
        (long, "b", "b"),
    ] {
        let mut owned = UnixPathBuf::from_str(rt.alloc(), path)?;
        owned.set_file_name(name.as_bytes())?;
        assert_eq!(rt; owned.into_vec().as_slice(), wanted.as_bytes());
        let copy = UnixPath::new(path.as_bytes()).with_file_name(rt.alloc(), name.as_bytes())?;
        assert_eq!(rt; copy.as_path().as_bytes(), wanted.as_bytes());
    }
    Ok(())
}

// The answers are those of Rust's `std::path`.
#[test]
fn added_extensions(rt: HostRuntime) -> Result<(), Fail> {
    const ROWS: &[(&[u8], &[u8], bool, &[u8])] = &[
        (b"/feel/the", b"formatted", true, b"/feel/the.formatted"),
        (
            b"/feel/the.formatted",
            b"dark.side",
            true,
            b"/feel/the.formatted.dark.side",
        ),
        (b"foo.tar.gz", b"", true, b"foo.tar.gz"),
        (b"foo.tar.gz", b"xz", true, b"foo.tar.gz.xz"),
        (b"foo/", b"txt", true, b"foo.txt"),
        (b"/", b"txt", false, b"/"),
    ];
    for &(path, extension, added, wanted) in ROWS {
        let mut owned = UnixPathBuf::from_bytes(rt.alloc(), path)?;
        assert_eq!(rt; owned.add_extension(extension)?, added);
        assert_eq!(rt; owned.into_vec().as_slice(), wanted);
        let copy = UnixPath::new(path).with_added_extension(rt.alloc(), extension)?;
        assert_eq!(rt; copy.as_path().as_bytes(), wanted);
    }
    Ok(())
}

#[test]
fn a_run_of_operations(rt: HostRuntime) -> Result<(), Fail> {
    let operations = [
        PathOp::PushChecked(b".."),
        PathOp::Push(b"a.txt"),
        PathOp::SetExtension(b"z"),
        PathOp::SetFileName(b"b"),
        PathOp::Pop,
        PathOp::Pop,
        PathOp::Pop,
        PathOp::Extend(&[b"x", b"/y", b"z"]),
    ];
    let mut path = UnixPathBuf::from_str(rt.alloc(), "/etc")?;
    let mut replies = Vec::new(rt.alloc());
    run_ops(&mut path, &operations, &mut replies)?;
    assert_eq!(rt; path.as_path().as_bytes(), b"/y/z".as_slice());
    let wanted = [
        Reply::Refused(CheckedPathError::PathTraversalAttack),
        Reply::Done,
        Reply::Flag(true),
        Reply::Done,
        Reply::Flag(true),
        Reply::Flag(true),
        Reply::Flag(false),
        Reply::Done,
    ];
    assert_eq!(rt; replies.as_slice(), wanted.as_slice());
    run_ops(&mut path, &[PathOp::Clear], &mut replies)?;
    assert_eq!(rt; path.as_path().as_bytes(), b"".as_slice());
    Ok(())
}

#[test]
fn room(rt: HostRuntime) -> Result<(), Fail> {
    let empty = UnixPathBuf::with_capacity(rt.alloc(), 64)?;
    assert!(rt; empty.capacity() >= 64);
    for way in [
        "reserve",
        "try_reserve",
        "reserve_exact",
        "try_reserve_exact",
    ] {
        let mut path = UnixPathBuf::from_str(rt.alloc(), "/etc")?;
        match way {
            "reserve" => path.reserve(64)?,
            "try_reserve" => path.try_reserve(64)?,
            "reserve_exact" => path.reserve_exact(64)?,
            _ => path.try_reserve_exact(64)?,
        }
        assert!(rt; path.capacity() >= 68);
        path.shrink_to(32)?;
        assert!(rt; path.capacity() >= 32);
        path.shrink_to_fit()?;
        assert_eq!(rt; path.as_path().as_bytes(), b"/etc".as_slice());
    }
    Ok(())
}

#[test]
fn owned_paths_from_other_values(rt: HostRuntime) -> Result<(), Fail> {
    let names = [
        UnixPath::new(b"a"),
        UnixPath::new(b"b/"),
        UnixPath::new(b"c"),
    ];
    let mut path = UnixPathBuf::from_iter(rt.alloc(), names)?;
    path.extend([UnixPath::new(b"d")])?;
    let built: [UnixPathBuf; 5] = [
        path.clone()?,
        path,
        UnixPathBuf::from(Vec::from_slice(rt.alloc(), b"a/b/c/d")?),
        UnixPathBuf::from(String::from_str(rt.alloc(), "a/b/c/d")?),
        UnixPath::new(b"a/b/c").join(rt.alloc(), UnixPath::new(b"d"))?,
    ];
    for path in built {
        let copy = path.as_path().to_path_buf(rt.alloc())?;
        assert_eq!(rt; Vec::from(copy).as_slice(), b"a/b/c/d".as_slice());
        assert_eq!(rt; path.into_vec().as_slice(), b"a/b/c/d".as_slice());
    }
    Ok(())
}

#[test]
fn printed_paths(rt: HostRuntime) -> Result<(), Fail> {
    const ROWS: &[(&[u8], Option<&str>, &str)] = &[
        (b"/tmp/a b", Some("/tmp/a b"), "/tmp/a b"),
        (b"\xE6\x97\xA5/\xE6\x9C\xAC", Some("日/本"), "日/本"),
        (b"a\xff/b", None, "a\u{FFFD}/b"),
        (b"", Some(""), ""),
    ];
    for &(bytes, text, printed) in ROWS {
        let path = UnixPath::new(bytes);
        assert_eq!(rt; path.to_str(), text);
        assert_eq!(rt; path.to_string_lossy(rt.alloc())?.as_str(), printed);
        assert_eq!(rt; path.to_string(rt.alloc())?.as_str(), printed);
        assert_eq!(rt; path.display().to_string(rt.alloc())?.as_str(), printed);
    }
    let padded = format!(in rt.alloc(); "{:>4}|", UnixPath::new(b"a"))?;
    assert_eq!(rt; padded.as_str(), "   a|");
    Ok(())
}

#[test]
fn texts_for_programmers(rt: HostRuntime) -> Result<(), Fail> {
    let alloc = rt.alloc();
    let path = UnixPath::new(b"/a");
    let owned = path.to_path_buf(alloc)?;
    let rows = [
        (
            format!(in alloc; "{path:?}")?,
            "Path { _encoding: \"unix\", inner: [47, 97] }",
        ),
        (
            format!(in alloc; "{owned:?}")?,
            "PathBuf { _encoding: \"unix\", inner: [47, 97] }",
        ),
        (
            format!(in alloc; "{:?}", path.display())?,
            "Path { _encoding: \"unix\", inner: [47, 97] }",
        ),
        (
            format!(in alloc; "{:?}", UnixComponents::new(path))?,
            "UnixComponents([RootDir, Normal([97])])",
        ),
        (
            format!(in alloc; "{:?}", path.iter())?,
            "Iter([[47], [97]])",
        ),
        (
            format!(in alloc; "{:?}", path.ancestors())?,
            "Ancestors { next: Some(Path { _encoding: \"unix\", inner: [47, 97] }) }",
        ),
        (format!(in alloc; "{UnixEncoding}")?, "UnixEncoding"),
    ];
    for (printed, wanted) in rows {
        assert_eq!(rt; printed.as_str(), wanted);
    }
    Ok(())
}
