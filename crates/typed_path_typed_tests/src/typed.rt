//! Paths whose dialect is chosen at run time: rows of known answers, and what each value feeds a
//! hasher.

use std::cmp::Ordering;
use std::test::Fail;
use typed_path::{
    AbsolutizeError, CheckedPathError, PathError, PathType, PlatformPath, TryAsRef, Typed,
    TypedComponents, TypedPath, TypedPathBuf, UnixComponent, UnixPath, UnixPathBuf, Utf8Path,
    Utf8PlatformPath, Utf8TypedComponents, Utf8TypedPath, Utf8TypedPathBuf, Utf8UnixComponent,
    Utf8UnixPath, Utf8UnixPathBuf, Utf8WindowsComponent, Utf8WindowsPath, Utf8WindowsPathBuf,
    Utf8WindowsPrefix, Utf8WindowsPrefixComponent, WindowsComponent, WindowsPath, WindowsPathBuf,
    WindowsPrefix, WindowsPrefixComponent,
};
use typed_path_tests::recorded;

#[test]
fn derived_kinds(rt: HostRuntime) {
    const WINDOWS: &[&[u8]] = &[br"\", b"//a/b", b"a:b", b"\xE9:x", br"\\?\C:\base"];
    for &text in WINDOWS {
        assert!(rt; TypedPath::derive(text).is_windows());
    }
    const UNIX: &[&[u8]] = &[b"", b"///a", b"\xD7:x", b"a/b", b"/c:"];
    for &text in UNIX {
        assert!(rt; TypedPath::derive(text).is_unix());
    }
    assert!(rt; TypedPath::from("a:b") == TypedPath::windows(b"a:b"));
    assert!(rt; Utf8TypedPath::from(r"C:\a") == Utf8TypedPath::windows(r"C:\a"));
}

#[test]
fn two_kinds(rt: HostRuntime) {
    let unix = TypedPath::new(b"a", PathType::Unix);
    let windows = TypedPath::new(b"a", PathType::Windows);
    assert!(rt; unix != windows);
    assert!(rt; unix < windows);
    assert!(rt; TypedPath::unix(b"b") < windows);
    assert!(rt; TypedPath::windows(br"a\b") == TypedPath::windows(b"a/b"));
    let (left, other) = (unix.components(), windows.components());
    assert!(rt; left != other);
    assert!(rt; PartialOrd::partial_cmp(&left, &other).is_none());
    let greater = TypedPath::unix(b"b").components();
    assert!(rt; PartialOrd::partial_cmp(&left, &greater) == Some(Ordering::Less));
    let text = Utf8TypedPath::unix("a").components();
    let windows_text = Utf8TypedPath::windows("a").components();
    assert!(rt; PartialOrd::partial_cmp(&text, &windows_text).is_none());
}

#[test]
fn exact_texts(rt: HostRuntime) {
    assert!(rt; !Utf8TypedPath::unix("a/").eq_str("a"));
    assert!(rt; Utf8TypedPath::unix("a/").eq_str("a/"));
    assert!(rt; Utf8UnixPath::new("a/").eq_str("a"));
}

#[test]
fn converted_paths(rt: HostRuntime) -> Result<(), Fail> {
    let alloc = rt.alloc();
    let path = Utf8TypedPath::derive(r"C:\path\to\file.txt");
    assert!(rt; path.is_windows());
    let unix = path.with_unix_encoding(alloc)?;
    assert!(rt; unix.is_unix());
    assert_eq!(rt; unix.as_str(), "/path/to/file.txt");
    let copied = TypedPath::unix(b"a//b/./..").with_unix_encoding(alloc)?;
    assert_eq!(rt; copied.as_bytes(), b"a//b/./..".as_slice());
    let Ok(checked) = TypedPath::unix(b"a//b/.").with_unix_encoding_checked(alloc) else {
        return Err(Fail::new("it is refused"));
    };
    assert_eq!(rt; checked.as_bytes(), b"a/b".as_slice());
    let invalid = Utf8TypedPath::unix("/tmp/|invalid|/foo.txt");
    let refused = PathError::Checked(CheckedPathError::InvalidFilename);
    assert!(rt; invalid.with_windows_encoding_checked(alloc).err() == Some(refused));
    Ok(())
}

#[test]
fn components_alone(rt: HostRuntime) -> Result<(), Fail> {
    let Some(name) = TypedPath::windows(br"C:\a").components().next_back() else {
        return Err(Fail::new("it is there"));
    };
    assert!(rt; name.is_windows());
    assert!(rt; name.as_normal_bytes() == Some(b"a".as_slice()));
    assert!(rt; name.to_path() == TypedPath::unix(b"a"));
    let Some(prefix) = Utf8TypedPath::windows(r"C:\a").components().next() else {
        return Err(Fail::new("it is there"));
    };
    assert!(rt; !prefix.is_root());
    assert!(rt; prefix.to_path() == Utf8TypedPath::windows("C:"));
    let mut left = TypedComponents::new(TypedPath::unix(b"/a/./b//"));
    left.next_back();
    assert!(rt; left.to_path() == TypedPath::unix(b"/a"));
    Ok(())
}

#[test]
fn values_held(rt: HostRuntime) -> Result<(), Fail> {
    let alloc = rt.alloc();
    match UnixPathBuf::try_from(TypedPathBuf::from_windows(alloc, b"a/b")?) {
        Ok(_) => return Err(Fail::new("it is there")),
        Err(back) => assert!(rt; back.to_path() == TypedPath::windows(b"a/b")),
    }
    match Utf8WindowsPathBuf::try_from(Utf8TypedPathBuf::from_windows(alloc, "é")?) {
        Ok(path) => assert_eq!(rt; path.as_path().as_str(), "é"),
        Err(_) => return Err(Fail::new("it is refused")),
    }
    let path = TypedPath::windows(b"a");
    let held: Option<WindowsPath<'_>> = path.try_as_ref();
    assert!(rt; held == Some(WindowsPath::new(b"a")));
    let other: Option<UnixPath<'_>> = path.try_as_ref();
    assert!(rt; other.is_none());
    assert!(rt; TypedPathBuf::from(String::from_str(alloc, "a:b")?).is_windows());
    assert!(rt; Utf8UnixPath::new("a:b").to_typed_path().is_unix());
    match TypedPath::derive(b"a/b") {
        TypedPath::Unix(path) => assert!(rt; path == UnixPath::new(b"a/b")),
        TypedPath::Windows(_) => return Err(Fail::new("it is of Unix")),
    }
    Ok(())
}

#[test]
fn printed_values(rt: HostRuntime) -> Result<(), Fail> {
    let alloc = rt.alloc();
    let (path, text) = (TypedPath::windows(br"C:\a"), Utf8TypedPath::unix("é/b"));
    let (owned, component) = (text.to_path_buf(alloc)?, text.components().next());
    let printed = [
        (
            format!(in alloc; "{}|{:>6}|", path.display(), path.display())?,
            r"C:\a|  C:\a|",
        ),
        (format!(in alloc; "{text}|{text:<5}|")?, "é/b|é/b  |"),
        (format!(in alloc; "{owned}|{owned:^5}|")?, "é/b| é/b |"),
        (
            format!(in alloc; "{component:?}")?,
            r#"Some(Unix(Normal("é")))"#,
        ),
    ];
    for (printed, wanted) in printed {
        assert_eq!(rt; printed.as_str(), wanted);
    }
    Ok(())
}

#[test]
fn absolute_paths(rt: HostRuntime) -> Result<(), Fail> {
    let alloc = rt.alloc();
    let home = Utf8PlatformPath::new("/home/u");
    let ambiguous = Utf8TypedPath::windows("a").absolutize(alloc, home);
    assert!(rt; ambiguous.err() == Some(AbsolutizeError::Ambiguous));
    let directory = PlatformPath::new(b"/home/u");
    let Ok(absolute) = TypedPath::unix(b"a/../b").absolutize(alloc, directory) else {
        return Err(Fail::new("it is refused"));
    };
    assert_eq!(rt; absolute.as_bytes(), b"/home/u/b".as_slice());
    Ok(())
}

#[test]
fn changed_paths(rt: HostRuntime) -> Result<(), Fail> {
    let mut path = Utf8TypedPathBuf::from_str(rt.alloc(), r"\\?\C:\base")?;
    path.push(r"a/b\..\..")?;
    assert_eq!(rt; path.as_str(), r"\\?\C:\base");
    path.push("é")?;
    assert!(rt; path.set_extension("z")?);
    let refused = PathError::Checked(CheckedPathError::UnexpectedPrefix);
    assert!(rt; path.push_checked("C:x") == Err(refused));
    assert_eq!(rt; path.as_str(), r"\\?\C:\base\é.z");
    assert!(rt; path.pop());
    path.set_file_name("b")?;
    assert_eq!(rt; path.clone()?.into_string().as_str(), r"\\?\C:\b");
    path.clear();
    assert!(rt; path.is_windows());
    Ok(())
}

#[test]
fn words_tell_names_apart(rt: HostRuntime) {
    assert!(rt; recorded(&UnixPath::new(b"a")) != recorded(&UnixPath::new(b"b")));
    assert!(rt; recorded(&WindowsPath::new(b"a")) != recorded(&WindowsPath::new(b"b")));
    assert!(rt; recorded(&PlatformPath::new(b"a")) == recorded(&UnixPath::new(b"a")));
    assert!(rt; recorded(&PlatformPath::new(b"a")) != recorded(&PlatformPath::new(b"b")));
    assert!(rt; recorded(&Utf8UnixPath::new("a")) != recorded(&Utf8UnixPath::new("b")));
    assert!(rt; recorded(&Utf8WindowsPath::new("a")) != recorded(&Utf8WindowsPath::new("b")));
    assert!(rt; recorded(&TypedPath::unix(b"a")) != recorded(&TypedPath::unix(b"b")));
    assert!(rt; recorded(&TypedPath::unix(b"a")) != recorded(&TypedPath::windows(b"a")));
    assert!(rt; recorded(&Utf8TypedPath::windows("a")) != recorded(&Utf8TypedPath::windows("b")));
}

#[test]
fn words_tell_owned_names_apart(rt: HostRuntime) -> Result<(), Fail> {
    let alloc = rt.alloc();
    let words = [
        recorded(&UnixPathBuf::from_bytes(alloc, b"a")?)
            != recorded(&UnixPathBuf::from_bytes(alloc, b"b")?),
        recorded(&WindowsPathBuf::from_bytes(alloc, b"a")?)
            != recorded(&WindowsPathBuf::from_bytes(alloc, b"b")?),
        recorded(&Utf8UnixPathBuf::from_str(alloc, "a")?)
            != recorded(&Utf8UnixPathBuf::from_str(alloc, "b")?),
        recorded(&Utf8WindowsPathBuf::from_str(alloc, "a")?)
            != recorded(&Utf8WindowsPathBuf::from_str(alloc, "b")?),
        recorded(&TypedPathBuf::from_unix(alloc, b"a")?)
            != recorded(&TypedPathBuf::from_unix(alloc, b"b")?),
        recorded(&Utf8TypedPathBuf::from_str(alloc, "a")?)
            != recorded(&Utf8TypedPathBuf::from_str(alloc, "b")?),
    ];
    for differ in words {
        assert!(rt; differ);
    }
    Ok(())
}

#[test]
fn words_tell_components_apart(rt: HostRuntime) {
    assert!(rt; recorded(&UnixComponent::Normal(b"a")) != recorded(&UnixComponent::Normal(b"b")));
    assert!(rt;
        recorded(&WindowsComponent::Normal(b"a")) != recorded(&WindowsComponent::Normal(b"b"))
    );
    assert!(rt;
        recorded(&Utf8UnixComponent::Normal("a")) != recorded(&Utf8UnixComponent::Normal("b"))
    );
    let (a, b) = (
        Utf8WindowsComponent::Normal("a"),
        Utf8WindowsComponent::Normal("b"),
    );
    assert!(rt; recorded(&a) != recorded(&b));
    let typed = recorded(&TypedPath::unix(b"a").components().next());
    assert!(rt; typed != recorded(&TypedPath::unix(b"b").components().next()));
    let texts = recorded(&Utf8TypedPath::windows("a").components().next());
    assert!(rt; texts != recorded(&Utf8TypedPath::windows("b").components().next()));
    let pieces = recorded(&UnixPath::new(b"a").components().next());
    assert!(rt; pieces != recorded(&UnixPath::new(b"b").components().next()));
    let text_pieces = recorded(&Utf8UnixPath::new("a").components().next());
    assert!(rt; text_pieces != recorded(&Utf8UnixPath::new("b").components().next()));
}

#[test]
fn words_tell_drives_apart(rt: HostRuntime) {
    assert!(rt; recorded(&WindowsPrefix::Disk(b'C')) != recorded(&WindowsPrefix::Disk(b'D')));
    assert!(rt; recorded(&Utf8WindowsPrefix::Disk('C')) != recorded(&Utf8WindowsPrefix::Disk('D')));
    let bytes = [b"C:".as_slice(), b"D:".as_slice()];
    let raw = bytes.map(|text| recorded(&WindowsPrefixComponent::try_from(text)));
    assert!(rt; raw[0] != raw[1]);
    let components = bytes.map(|text| recorded(&WindowsComponent::try_from(text)));
    assert!(rt; components[0] != components[1]);
    let texts = ["C:", "D:"].map(|text| recorded(&Utf8WindowsPrefixComponent::try_from(text)));
    assert!(rt; texts[0] != texts[1]);
    let text_components = ["C:", "D:"].map(|text| recorded(&Utf8WindowsComponent::try_from(text)));
    assert!(rt; text_components[0] != text_components[1]);
}
