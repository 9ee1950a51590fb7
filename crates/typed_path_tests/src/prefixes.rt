//! Single prefixes of Windows: read from bytes, asked and compared.

use typed_path::{Component, ParseError, WindowsComponent, WindowsPrefix, WindowsPrefixComponent};

#[test]
fn prefixes_from_texts(rt: HostRuntime) {
    const NONE: &str = "not a prefix";
    const MORE: &str = "contains more than prefix";
    const ROWS: &[(&[u8], Result<WindowsPrefix<'static>, ParseError>)] = &[
        (b"", Err(NONE)),
        (b"a", Err(NONE)),
        (b":", Err(NONE)),
        (b"1:", Err(NONE)),
        (br"\", Err(NONE)),
        (br"\\", Err(NONE)),
        (br"\\\", Err(NONE)),
        (br"\\\x", Err(NONE)),
        (b"c:", Ok(WindowsPrefix::Disk(b'C'))),
        (br"C:\", Err(MORE)),
        (b"C:.", Err(MORE)),
        (b"\xE9:", Ok(WindowsPrefix::Disk(0xE9))),
        (b"\xAA:", Ok(WindowsPrefix::Disk(0xAA))),
        (b"\xD7:", Err(NONE)),
        (b"\xF7:", Err(NONE)),
        (br"\\?", Ok(WindowsPrefix::UNC(b"?", b""))),
        (br"\\?\", Ok(WindowsPrefix::UNC(b"?", b""))),
        (br"\\?\\", Err(MORE)),
        (br"\\?\U", Ok(WindowsPrefix::Verbatim(b"U"))),
        (br"\\?\UNC", Ok(WindowsPrefix::Verbatim(b"UNC"))),
        (br"\\?\UNC\", Err(MORE)),
        (br"\\?\UNC\s", Ok(WindowsPrefix::VerbatimUNC(b"s", b""))),
        (
            br"\\?\UNC\srv\",
            Ok(WindowsPrefix::VerbatimUNC(b"srv", b"")),
        ),
        (
            br"\\?\UNC\srv\sh",
            Ok(WindowsPrefix::VerbatimUNC(b"srv", b"sh")),
        ),
        (br"\\?\UNC\srv\sh\", Err(MORE)),
        (br"\\?\unc\s", Err(MORE)),
        (br"\\?\UNC/s/h", Ok(WindowsPrefix::Verbatim(b"UNC/s/h"))),
        (b"//?/UNC/s/h", Ok(WindowsPrefix::VerbatimUNC(b"s", b"h"))),
        (br"\\?\c:", Ok(WindowsPrefix::VerbatimDisk(b'C'))),
        (br"\/?\C:", Ok(WindowsPrefix::VerbatimDisk(b'C'))),
        (br"\\?\c:/x", Err(MORE)),
        (br"\\.", Ok(WindowsPrefix::UNC(b".", b""))),
        (br"\\.\", Ok(WindowsPrefix::UNC(b".", b""))),
        (b"//./COM1", Ok(WindowsPrefix::DeviceNS(b"COM1"))),
        (br"\\s\h", Ok(WindowsPrefix::UNC(b"s", b"h"))),
        (br"\\s\", Ok(WindowsPrefix::UNC(b"s", b""))),
        (br"\\s\\", Err(MORE)),
        (br"\\s\h\", Err(MORE)),
    ];
    for &(text, wanted) in ROWS {
        assert!(rt; WindowsPrefix::try_from(text) == wanted);
        let component = WindowsPrefixComponent::try_from(text);
        assert!(rt; component.map(|component| component.kind()) == wanted);
        if let Ok(component) = component {
            assert!(rt; component.as_bytes() == text);
            assert!(rt; component.len() == text.len());
        }
    }
    assert!(rt; WindowsPrefix::try_from("c:") == Ok(WindowsPrefix::Disk(b'C')));
    assert!(rt; WindowsPrefix::try_from(b"c:") == Ok(WindowsPrefix::Disk(b'C')));
    let drive = WindowsPrefixComponent::try_from("c:");
    assert!(rt; drive == WindowsPrefixComponent::try_from(b"C:"));
}

#[test]
fn lengths_and_kinds(rt: HostRuntime) {
    let rows = [
        (WindowsPrefix::Verbatim(b"x"), 5, true),
        (WindowsPrefix::Verbatim(b""), 4, true),
        (WindowsPrefix::VerbatimUNC(b"s", b"h"), 11, true),
        (WindowsPrefix::VerbatimUNC(b"s", b""), 9, true),
        (WindowsPrefix::VerbatimDisk(b'C'), 6, true),
        (WindowsPrefix::DeviceNS(b"d"), 5, false),
        (WindowsPrefix::UNC(b"s", b"h"), 5, false),
        (WindowsPrefix::UNC(b"server", b""), 8, false),
        (WindowsPrefix::Disk(b'C'), 2, false),
    ];
    for (prefix, len, verbatim) in rows {
        assert!(rt; prefix.len() == len);
        assert!(rt; prefix.is_verbatim() == verbatim);
    }
    for [one, other] in [
        [rows[0].0, rows[2].0],
        [rows[2].0, rows[4].0],
        [rows[4].0, rows[5].0],
        [rows[5].0, rows[6].0],
        [rows[6].0, rows[8].0],
    ] {
        assert!(rt; one < other);
    }
}

#[test]
fn single_components(rt: HostRuntime) {
    let Ok(share) = WindowsPrefixComponent::try_from(br"\\server\") else {
        panic!(rt; "the share is no prefix");
    };
    let Ok(drive) = WindowsPrefixComponent::try_from("c:") else {
        panic!(rt; "the drive is no prefix");
    };
    assert!(rt; share.kind().len() == 8);
    assert!(rt; share.len() == 9);
    let rows: [(WindowsComponent<'_>, &[u8], bool, bool); 7] = [
        (WindowsComponent::Prefix(share), br"\\server\", true, true),
        (WindowsComponent::Prefix(drive), b"c:", false, true),
        (WindowsComponent::RootDir, br"\", true, true),
        (WindowsComponent::CurDir, b".", false, true),
        (WindowsComponent::ParentDir, b"..", false, true),
        (WindowsComponent::Normal(b"a"), b"a", false, true),
        (WindowsComponent::Normal(b"a:b"), b"a:b", false, false),
    ];
    for (component, text, root, valid) in rows {
        assert!(rt; component.as_bytes() == text);
        assert!(rt; component.len() == text.len());
        assert!(rt; component.is_root() == root);
        assert!(rt; component.is_valid() == valid);
        let prefix = component.prefix().map(|prefix| prefix.kind());
        assert!(rt; prefix == component.prefix_kind());
        assert!(rt; prefix.is_some() == component.is_prefix());
    }
    assert!(rt; rows.windows(2).all(|pair| pair[0].0 < pair[1].0));
}
