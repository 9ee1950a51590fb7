//! Paths of text: rows of known answers, what is printed of them, and calls with enough memory.

use std::alloc::{AllocError, Global};
use std::test::Fail;
use typed_path::{
    AbsolutizeError, CheckedPathError, Path, PathBuf, PathError, Utf8Component, Utf8Encoding,
    Utf8NativeComponent, Utf8NativeEncoding, Utf8NativePath, Utf8NativePathBuf, Utf8Path,
    Utf8PathBuf, Utf8PlatformEncoding, Utf8PlatformPath, Utf8PlatformPathBuf, Utf8UnixComponent,
    Utf8UnixComponents, Utf8UnixEncoding, Utf8UnixPath, Utf8UnixPathBuf, Utf8WindowsComponent,
    Utf8WindowsComponents, Utf8WindowsEncoding, Utf8WindowsPath, Utf8WindowsPathBuf,
    Utf8WindowsPrefix, Utf8WindowsPrefixComponent, WindowsPrefix, WindowsPrefixComponent,
};
use typed_path_tests::repeated;

/// Whether a call made the path `wanted`.
fn is_made<T: Utf8Encoding>(made: Result<Utf8PathBuf<T>, AllocError>, wanted: &str) -> bool {
    match made {
        Ok(path) => path.as_path().as_str() == wanted,
        Err(_) => false,
    }
}

/// Whether a call that may refuse a path made the path that is wanted, or refused it for the fault
/// that is wanted.
fn answers<T: Utf8Encoding>(
    made: Result<Utf8PathBuf<T>, PathError>,
    wanted: Result<&str, CheckedPathError>,
) -> bool {
    match (made, wanted) {
        (Ok(path), Ok(text)) => path.as_path().as_str() == text,
        (Err(PathError::Checked(refused)), Err(wanted)) => refused == wanted,
        _ => false,
    }
}

/// Whether a path is made absolute as `wanted`, or is ambiguous if nothing is wanted.
fn is_absolutized<T: Utf8Encoding>(alloc: Global, path: &str, wanted: Option<&str>) -> bool {
    let directory = Utf8PlatformPath::new("/home/u");
    match (
        Utf8Path::<T>::new(path).absolutize(alloc, directory),
        wanted,
    ) {
        (Ok(path), Some(text)) => path.as_path().as_str() == text,
        (Err(AbsolutizeError::Ambiguous), None) => true,
        _ => false,
    }
}

#[test]
fn read_texts(rt: HostRuntime) -> Result<(), Fail> {
    let mut components = Utf8UnixPath::new("日/本//語/").components();
    let Some(last) = components.next_back() else {
        return Err(Fail::new("it is there"));
    };
    assert_eq!(rt; last.as_str(), "語");
    assert_eq!(rt; components.as_str(), "日/本");
    let accented = Utf8WindowsPath::new("é:x");
    assert!(rt; accented.iter().next() == Some("é:x"));
    assert!(rt; accented.iter().rev().next() == Some("é:x"));
    assert!(rt; !accented.is_valid());
    assert!(rt; !Utf8WindowsPath::new("con.txt").is_valid());
    assert!(rt; Utf8UnixPath::new("con.txt").is_valid());
    assert!(rt; Utf8UnixPath::new("a/").eq_str("a"));
    assert!(rt; Utf8UnixPath::new("a/b") == Utf8UnixPath::new("a//b/."));
    assert!(rt; Utf8UnixPath::new("a/b") < Utf8UnixPath::new("ab"));
    const ABOVE: &[&str] = &["/é/b", "/é", "/"];
    let mut ancestors = Utf8UnixPath::new("/é/b").ancestors();
    for &wanted in ABOVE {
        assert!(rt; ancestors.next() == Some(Utf8UnixPath::new(wanted)));
    }
    assert!(rt; ancestors.next().is_none());
    Ok(())
}

#[test]
fn prefixes_of_texts(rt: HostRuntime) -> Result<(), Fail> {
    let accented = Utf8WindowsPrefix::from_utf8(&WindowsPrefix::Disk(0xE9));
    assert!(rt; accented == Ok(Utf8WindowsPrefix::Disk('\u{E9}')));
    let Ok(raw) = WindowsPrefixComponent::try_from(b"\xE9:") else {
        return Err(Fail::new("it is there"));
    };
    assert!(rt; Utf8WindowsPrefixComponent::from_utf8(&raw).is_err());
    Ok(())
}

#[test]
fn components_of_texts(rt: HostRuntime) {
    assert!(rt; Utf8WindowsPrefix::try_from("c:") == Ok(Utf8WindowsPrefix::Disk('C')));
    assert!(rt; Utf8WindowsPrefix::try_from("c:/").is_err());
    assert!(rt; Utf8UnixComponent::try_from("é//.") == Ok(Utf8UnixComponent::Normal("é")));
    assert!(rt; Utf8UnixComponent::try_from("") == Err("no component found"));
    assert!(rt; Utf8UnixComponent::try_from("/a") == Err("found more than one component"));
    assert!(rt; Utf8WindowsComponent::try_from("..") == Ok(Utf8WindowsComponent::ParentDir));
}

#[test]
fn readings_of_texts(rt: HostRuntime) {
    let path = Utf8WindowsPath::new(r"\\?\C:\é");
    assert!(rt; Utf8WindowsComponents::new(path).has_verbatim_disk_prefix());
    let kind = Utf8WindowsComponents::new(path).prefix_kind();
    assert!(rt; kind == Some(Utf8WindowsPrefix::VerbatimDisk('C')));
    let last = Utf8WindowsComponents::new(path).next_back();
    assert!(rt; last == Some(Utf8WindowsComponent::Normal("é")));
    let first = Utf8UnixComponents::new(Utf8UnixPath::new("/a")).next();
    assert!(rt; first == Some(Utf8UnixComponent::RootDir));
}

#[test]
fn bytes_and_texts(rt: HostRuntime) -> Result<(), Fail> {
    assert!(rt; Utf8UnixPath::from_bytes_path(Path::new(b"a\xFF")).is_err());
    assert!(rt; Utf8UnixPath::from_bytes_path(Path::new(b"\xFF")).is_err());
    assert!(rt; Utf8UnixPath::from_bytes_path(Path::new(b"a")) == Ok(Utf8UnixPath::new("a")));
    let no_text = PathBuf::from_bytes(rt.alloc(), b"\xFF")?;
    match Utf8UnixPathBuf::from_bytes_path_buf(no_text) {
        Ok(_) => return Err(Fail::new("it is there")),
        Err(back) => assert_eq!(rt; back.as_path().as_bytes(), b"\xFF".as_slice()),
    }
    let text = PathBuf::from_bytes(rt.alloc(), "é".as_bytes())?;
    match Utf8UnixPathBuf::from_bytes_path_buf(text) {
        Ok(path) => assert_eq!(rt; path.into_string().as_str(), "é"),
        Err(_) => return Err(Fail::new("it is there")),
    }
    Ok(())
}

#[test]
fn changed_texts(rt: HostRuntime) -> Result<(), Fail> {
    let alloc = rt.alloc();
    let mut path = Utf8UnixPathBuf::from_str(alloc, "/tmp/日本語.txt/")?;
    assert!(rt; path.set_extension("z")?);
    assert_eq!(rt; path.as_path().as_str(), "/tmp/日本語.z");
    path.push(Utf8UnixPath::new("é"))?;
    path.set_file_name("ü")?;
    assert!(rt;
        path.push_checked(Utf8UnixPath::new(".."))
            == Err(PathError::Checked(CheckedPathError::PathTraversalAttack))
    );
    assert_eq!(rt; path.as_path().as_str(), "/tmp/日本語.z/ü");
    assert!(rt; path.pop());
    assert_eq!(rt; path.clone()?.into_string().as_str(), "/tmp/日本語.z");
    path.reserve(64)?;
    path.shrink_to_fit()?;
    assert!(rt; path.capacity() < 64);
    assert_eq!(rt; path.as_path().as_str(), "/tmp/日本語.z");
    path.clear();
    path.extend([Utf8UnixPath::new("a"), Utf8UnixPath::new("é")])?;
    assert_eq!(rt; path.as_path().as_str(), "a/é");
    let mut text = String::from_str(alloc, "a")?;
    Utf8WindowsEncoding::push(&mut text, "é")?;
    Utf8WindowsEncoding::push_checked(&mut text, "b")?;
    assert_eq!(rt; text.as_str(), r"a\é\b");
    assert_eq!(rt;
        String::from(Utf8UnixPathBuf::from(text)).as_str(),
        r"a\é\b"
    );
    Ok(())
}

#[test]
fn made_texts(rt: HostRuntime) -> Result<(), Fail> {
    let alloc = rt.alloc();
    let path = Utf8UnixPath::new("/é/./b/../c.txt");
    assert!(rt; is_made(path.normalize(alloc), "/é/c.txt"));
    assert!(rt; is_made(path.clean(alloc), "/é/c.txt"));
    assert!(rt;
        is_made(
            path.join(alloc, Utf8UnixPath::new("ü")),
            "/é/./b/../c.txt/ü"
        )
    );
    assert!(rt; is_made(path.with_file_name(alloc, "ü"), "/é/./b/../ü"));
    assert!(rt; is_made(path.with_extension(alloc, "ü"), "/é/./b/../c.ü"));
    assert!(rt; is_made(path.to_path_buf(alloc), "/é/./b/../c.txt"));
    assert!(rt; is_made(path.with_windows_encoding(alloc), r"\é\b\..\c.txt"));
    assert!(rt; is_made(path.with_platform_encoding(alloc), "/é/./b/../c.txt"));
    let invalid = Utf8UnixPath::new("/tmp/|invalid|/foo.txt");
    assert!(rt;
        answers(
            invalid.with_windows_encoding_checked(alloc),
            Err(CheckedPathError::InvalidFilename)
        )
    );
    assert!(rt;
        answers(
            invalid.with_unix_encoding_checked(alloc),
            Ok("/tmp/|invalid|/foo.txt")
        )
    );
    assert!(rt;
        answers(
            Utf8UnixPath::new("/tmp/foo.txt").with_windows_encoding_checked(alloc),
            Ok(r"\tmp\foo.txt")
        )
    );
    let base = Utf8WindowsPath::new(r"C:\é");
    assert!(rt;
        answers(
            base.join_checked(alloc, Utf8WindowsPath::new("a/ü")),
            Ok(r"C:\é\a/ü")
        )
    );
    assert!(rt;
        answers(
            base.join_checked(alloc, Utf8WindowsPath::new("a/../..")),
            Err(CheckedPathError::PathTraversalAttack)
        )
    );
    assert!(rt; is_absolutized::<Utf8WindowsEncoding>(alloc, r"\a", None));
    assert!(rt; is_absolutized::<Utf8WindowsEncoding>(alloc, "C:something", None));
    assert!(rt; is_absolutized::<Utf8WindowsEncoding>(alloc, r"C:\a\..\b", Some(r"C:\b")));
    assert!(rt; is_absolutized::<Utf8UnixEncoding>(alloc, "a/../b", Some("/home/u/b")));
    let built = Utf8UnixPathBuf::from_iter(alloc, [Utf8UnixPath::new("a"), Utf8UnixPath::new("é")]);
    assert!(rt; is_made(built, "a/é"));
    Ok(())
}

/// Whether the calls that make a path make long ones too.
fn makes_long_ones<T: Utf8Encoding>(alloc: Global) -> Result<bool, AllocError> {
    let bytes = repeated(alloc, b"", "é/".as_bytes(), 5_000, b"b")?;
    let Ok(text) = String::from_utf8(bytes) else {
        return Ok(false);
    };
    let path = Utf8Path::<T>::new(text.as_str());
    let mut owned = Utf8PathBuf::<T>::new(alloc);
    owned.push(path)?;
    owned.push(Utf8Path::new("c"))?;
    owned.pop();
    let copy = owned.clone()?;
    Ok(
        owned == path.to_path_buf(alloc)?
            && copy == path.normalize(alloc)?
            && copy == Utf8Path::new("").join(alloc, path)?
            && path.with_encoding::<T>(alloc)?.as_path().as_str() == text.as_str(),
    )
}

#[test]
fn long_texts(rt: HostRuntime) -> Result<(), Fail> {
    assert!(rt; makes_long_ones::<Utf8UnixEncoding>(rt.alloc())?);
    assert!(rt; makes_long_ones::<Utf8WindowsEncoding>(rt.alloc())?);
    assert!(rt; makes_long_ones::<Utf8PlatformEncoding>(rt.alloc())?);
    Ok(())
}

#[test]
fn printed_texts(rt: HostRuntime) -> Result<(), Fail> {
    let alloc = rt.alloc();
    let path = Utf8UnixPath::new("é/b");
    assert_eq!(rt; path.to_string(alloc)?.as_str(), "é/b");
    assert_eq!(rt; path.to_path_buf(alloc)?.to_string(alloc)?.as_str(), "é/b");
    assert_eq!(rt;
        Utf8UnixComponent::Normal("é").to_string(alloc)?.as_str(),
        "é"
    );
    assert_eq!(rt;
        Utf8WindowsComponent::RootDir.to_string(alloc)?.as_str(),
        r"\"
    );
    assert_eq!(rt;
        Utf8UnixEncoding.to_string(alloc)?.as_str(),
        "Utf8UnixEncoding"
    );
    assert_eq!(rt;
        Utf8WindowsEncoding.to_string(alloc)?.as_str(),
        "Utf8WindowsEncoding"
    );
    assert_eq!(rt;
        Utf8PlatformEncoding.to_string(alloc)?.as_str(),
        "Utf8PlatformEncoding"
    );
    let debug = format!(in alloc; "{path:?}")?;
    assert_eq!(rt;
        debug.as_str(),
        r#"Utf8Path { _encoding: "unix", inner: "é/b" }"#
    );
    let components = Utf8UnixComponents::new(path);
    let debug = format!(in alloc; "{components:?}")?;
    assert_eq!(rt;
        debug.as_str(),
        r#"Utf8UnixComponents([Normal("é"), Normal("b")])"#
    );
    let texts = path.iter();
    let debug = format!(in alloc; "{texts:?}")?;
    assert_eq!(rt; debug.as_str(), r#"Utf8Iter(["é", "b"])"#);
    Ok(())
}

#[test]
fn names_of_the_machine(rt: HostRuntime) -> Result<(), Fail> {
    assert!(rt; !Utf8WindowsPath::new(r"\a").has_unix_encoding());
    assert!(rt; Utf8NativePath::new("/a").is_absolute());
    assert!(rt; Utf8PlatformPath::new("/a").has_platform_encoding());
    assert!(rt; !Utf8NativePath::new("/a").has_platform_encoding());
    assert_eq!(rt; Utf8NativeEncoding::label(), "unix");
    let current: Utf8NativeComponent<'_> = Utf8UnixComponent::CurDir;
    assert_eq!(rt; current.as_str(), ".");
    let native: Utf8NativePathBuf = Utf8UnixPathBuf::new(rt.alloc());
    let platform: Utf8PlatformPathBuf = Utf8PathBuf::from_str(rt.alloc(), "/a")?;
    let windows: Utf8WindowsPathBuf = Utf8PathBuf::from_str(rt.alloc(), r"C:\a")?;
    assert!(rt; native.as_path().as_str().is_empty());
    assert!(rt; platform.as_path().has_root() && windows.as_path().is_absolute());
    Ok(())
}
