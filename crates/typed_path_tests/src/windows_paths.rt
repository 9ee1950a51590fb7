//! Whole Windows paths, with enough memory: rows of known answers.

use crate::owned::joins_as;
use crate::paths::normalizes_as;
use std::test::Fail;
use typed_path::{
    CheckedPathError, End, PieceKind, PlatformEncoding, WindowsComponents, WindowsEncoding,
    WindowsPath, WindowsPathBuf, WindowsPrefix, read_ends,
};

#[test]
fn pushes(rt: HostRuntime) -> Result<(), Fail> {
    const ROWS: &[(&[u8], &[u8], &[u8])] = &[
        (br"C:\a\b", br"\c", br"C:\c"),
        (br"\\?\UNC\s\h", b"a", br"\\?\UNC\s\h\a"),
        (br"\\?\C:\x", b"/y", br"\\?\C:\y"),
        (br"\\s\h\x", b"/y", br"\\s\h/y"),
        (b"C:", b"a", b"C:a"),
        (b"a/", b"b", br"a/\b"),
        (br"\\?\C:\x\", b".", br"\\?\C:\x"),
        (br"\\?\C:\x\", b"", br"\\?\C:\x\"),
        (br"\\?\C:\x", br"\y", br"\\?\C:\y"),
        (br"C:\a", b"..", br"C:\a\.."),
        (br"\\?\C:\a", b"..", br"\\?\C:\"),
        (br"C:\a", br"D:b", b"D:b"),
        (b"", b"a", b"a"),
        (b"", b"", b""),
    ];
    for &(base, path, wanted) in ROWS {
        let mut pushed = WindowsPathBuf::from_bytes(rt.alloc(), base)?;
        pushed.push(WindowsPath::new(path))?;
        assert_eq!(rt; pushed.as_path().as_bytes(), wanted);
        let joined = WindowsPath::new(base).join(rt.alloc(), WindowsPath::new(path))?;
        assert_eq!(rt; joined.as_path().as_bytes(), wanted);
    }
    Ok(())
}

#[test]
fn checked_joins(rt: HostRuntime) -> Result<(), Fail> {
    use CheckedPathError::{
        InvalidFilename, PathTraversalAttack, UnexpectedPrefix, UnexpectedRoot,
    };
    const ROWS: &[(&[u8], &[u8], Result<&[u8], CheckedPathError>)] = &[
        (br"\\?\C:\base", br"a/b\..\..", Ok(br"\\?\C:\base")),
        (b"//?/C:/base", b"a", Ok(br"//?/C:\base\a")),
        (b"/", b"a", Ok(br"/\a")),
        (br"\\server", b"a", Ok(br"\\server\a")),
        (br"\\server/", b"a", Ok(br"\\server/\a")),
        (br"\\?\", b"a", Ok(br"\\?\a")),
        (b"/", br"a\..\b", Ok(br"/\a\..\b")),
        (br"\\?\C:\base\..", b"a", Ok(br"\\?\C:\base\..\a")),
        (br"\\?\C:\x/y", b"a", Ok(br"\\?\C:\x/y\a")),
        (b"//?//", b"a", Ok(br"//?/\a")),
        (br"some\path", b"C:abc", Err(UnexpectedPrefix)),
        (br"some\path", br"\abc", Err(UnexpectedRoot)),
        (br"\\?\C:\base", br"a\..\..", Err(PathTraversalAttack)),
        (b"a", br"b\C:", Err(InvalidFilename)),
        (br"C:\out", br"a\b?", Err(InvalidFilename)),
    ];
    for &(base, path, wanted) in ROWS {
        assert!(rt; joins_as::<WindowsEncoding>(rt.alloc(), base, path, wanted)?);
    }
    Ok(())
}

#[test]
fn normal_texts(rt: HostRuntime) -> Result<(), Fail> {
    const ROWS: &[(&[u8], &[u8])] = &[
        (br"C:\a\.\..\b", br"C:\b"),
        (br"x\C:", b"C:"),
        (br"\\?\x\a/b\c\..", br"\\?\x\a\b"),
        (br"\\s\h\..\x", br"\\s\h\x"),
        (b"//?/x/a/../b", br"//?/x\b"),
        (br"\\s\\x", br"\\s\\x"),
        (br"\\?\\a", br"\\?\\a"),
        (br"\\?\C:a", br"\\?\C:\a"),
        (br"\C:", b"C:"),
        (br"b\..\C:", b"C:"),
        (br"a/b/../../..\c", b"c"),
        (br"\\?\C:\a\.\b\..\c\", br"\\?\C:\a\c"),
        (br"\\?\UNC\s\\a\..\b", br"\\?\UNC\s\\b"),
        (b"", b""),
    ];
    for &(path, wanted) in ROWS {
        assert!(rt; normalizes_as::<WindowsEncoding>(rt.alloc(), path, wanted)?);
    }
    Ok(())
}

#[test]
fn questions_and_changes(rt: HostRuntime) -> Result<(), Fail> {
    let drive = WindowsPath::new(b"C:");
    assert!(rt;
        drive
            .parent()
            .is_some_and(|parent| parent.as_bytes().is_empty())
    );
    let mut popped = WindowsPathBuf::from_bytes(rt.alloc(), b"C:")?;
    assert!(rt; popped.pop());
    assert!(rt; popped.as_path().as_bytes().is_empty());
    const ALONE: &[&[u8]] = &[br"\\?\", br"\\.\COM1", br"\\s\h", br"\", b""];
    for &text in ALONE {
        assert!(rt; WindowsPath::new(text).parent().is_none());
    }
    for (text, valid) in [
        (br"\\?\c:/x".as_slice(), false),
        (b"1:", false),
        (br"b\..\C:", false),
        (b"C:", true),
        (b"//./COM1/x", true),
        (br"\\.\COM1", true),
        (b"con.txt", false),
        (b"Nul", false),
        (br"a\COM0.x.y", false),
        (b".con", true),
        (b"com10", true),
        (b"con ", true),
        (b"lpt", true),
        (b"c.on", true),
    ] {
        assert!(rt; WindowsPath::new(text).is_valid() == valid);
    }
    let mut renamed = WindowsPathBuf::from_bytes(rt.alloc(), b"C:/a.bc/")?;
    assert!(rt; renamed.set_extension(b"z")?);
    assert_eq!(rt; renamed.as_path().as_bytes(), b"C:/a.z".as_slice());
    renamed.set_file_name(b"y")?;
    assert_eq!(rt; renamed.as_path().as_bytes(), br"C:/\y".as_slice());
    let share = WindowsPath::new(br"c:\a");
    assert!(rt; !share.starts_with(WindowsPath::new(b"C:")));
    assert!(rt; WindowsPath::new(br"a\C:").ends_with(WindowsPath::new(b"C:")));
    Ok(())
}

#[test]
fn requests_from_both_ends(rt: HostRuntime) -> Result<(), Fail> {
    let mut components = WindowsPath::new(br"\\?\C:\a\.\b").components();
    let mut answers = Vec::new(rt.alloc());
    let ends = [
        End::Back,
        End::Front,
        End::Back,
        End::Front,
        End::Back,
        End::Front,
    ];
    read_ends(&mut components, &ends, &mut answers)?;
    let texts: [Option<&[u8]>; 6] = [
        Some(b"b"),
        Some(br"\\?\C:"),
        Some(b"."),
        Some(br"\"),
        Some(b"a"),
        None,
    ];
    for (answer, wanted) in answers.iter().zip(texts) {
        assert!(rt; answer.map(|piece| piece.text) == wanted);
    }
    assert!(rt; answers.len() == 6);
    assert!(rt;
        WindowsPath::new(br"\\?\C:\a")
            .components()
            .next()
            .is_some_and(|piece| {
                matches!(
                    piece.kind,
                    PieceKind::Prefix(WindowsPrefix::VerbatimDisk(b'C'))
                )
            })
    );
    Ok(())
}

#[test]
fn texts_for_programmers(rt: HostRuntime) -> Result<(), Fail> {
    let alloc = rt.alloc();
    let path = WindowsPath::new(br"C:\a");
    let owned = path.to_path_buf(alloc)?;
    let prefixes = [
        WindowsPrefix::Verbatim(b"x"),
        WindowsPrefix::VerbatimUNC(b"s", b"h"),
        WindowsPrefix::VerbatimDisk(b'C'),
        WindowsPrefix::DeviceNS(b"d"),
        WindowsPrefix::UNC(b"s", b""),
    ];
    let rows = [
        (
            format!(in alloc; "{path:?}")?,
            "Path { _encoding: \"windows\", inner: [67, 58, 92, 97] }",
        ),
        (
            format!(in alloc; "{owned:?}")?,
            "PathBuf { _encoding: \"windows\", inner: [67, 58, 92, 97] }",
        ),
        (
            format!(in alloc; "{:?}", WindowsComponents::new(path))?,
            "WindowsComponents([Prefix(WindowsPrefixComponent { raw: [67, 58], kind: Disk(67) }), RootDir, Normal([97])])",
        ),
        (
            format!(in alloc; "{:?}", WindowsPath::new(br"\..").components())?,
            "Components([Piece { kind: RootDir, text: [92] }, Piece { kind: ParentDir, text: [46, 46] }])",
        ),
        (
            format!(in alloc; "{:?}", path.iter())?,
            "Iter([[67, 58], [92], [97]])",
        ),
        (
            format!(in alloc; "{prefixes:?}")?,
            "[Verbatim([120]), VerbatimUNC([115], [104]), VerbatimDisk(67), DeviceNS([100]), UNC([115], [])]",
        ),
        (
            format!(in alloc; "{WindowsEncoding:?} {WindowsEncoding}")?,
            "WindowsEncoding WindowsEncoding",
        ),
        (
            format!(in alloc; "{PlatformEncoding:?} {PlatformEncoding}")?,
            "PlatformEncoding PlatformEncoding",
        ),
    ];
    for (printed, wanted) in rows {
        assert_eq!(rt; printed.as_str(), wanted);
    }
    Ok(())
}

// The answers are those of the crate `dunce`.
#[test]
fn simplified_paths(rt: HostRuntime) {
    const ROWS: &[(&[u8], &[u8])] = &[
        (br"\\?\C:\foo\bar", br"C:\foo\bar"),
        (br"\\?\Z:\foo\bar\", br"Z:\foo\bar\"),
        (br"\\?\c:\foo", br"c:\foo"),
        (br"\\?\C:\foo\.\bar", br"\\?\C:\foo\.\bar"),
        (br"\\?\C:\foo\..\bar", br"\\?\C:\foo\..\bar"),
        (br"\\?\C:\con .txt", br"\\?\C:\con .txt"),
        (br"\\?\C:\COM4.txt", br"\\?\C:\COM4.txt"),
        (br"\\?\c\foo", br"\\?\c\foo"),
        (br"\\?\c:foo\bar", br"\\?\c:foo\bar"),
        (br"\\?\serv\", br"\\?\serv\"),
        (br"\\.\C:\notdisk", br"\\.\C:\notdisk"),
        (
            br"\\?\GLOBALROOT\Device\ImDisk0\path\to\file.txt",
            br"\\?\GLOBALROOT\Device\ImDisk0\path\to\file.txt",
        ),
    ];
    for &(path, wanted) in ROWS {
        assert_eq!(rt; WindowsPath::new(path).simplified().as_bytes(), wanted);
    }
}
