//! Components of Windows paths, as calls read them: rows of known answers.

use std::str;
use typed_path::{
    Component, Encoding, ParseError, TypedPath, Utf8TypedPath, Utf8WindowsPath, WindowsComponent,
    WindowsComponents, WindowsEncoding, WindowsPath, WindowsPrefix, WindowsPrefixComponent,
};

/// Returns the components of a path.
fn components(text: &[u8]) -> WindowsComponents<'_> {
    WindowsComponents::new(WindowsPath::new(text))
}

/// Whether components, which `$components` makes anew for each end, have these texts from the front
/// and from the back. With `$has_prefix`, a first one is not compared.
macro_rules! have_texts {
    ($components:expr, $has_prefix:expr, $texts:expr, $($bytes:ident).+) => {{
        let mut forward = $components;
        let mut backward = $components;
        if $has_prefix && (forward.next().is_none() || backward.next().is_none()) {
            return false;
        }
        for text in $texts {
            match forward.next() {
                Some(component) if component$(.$bytes())+ == *text => {}
                _ => return false,
            }
        }
        for text in $texts.iter().rev() {
            match backward.next_back() {
                Some(component) if component$(.$bytes())+ == *text => {}
                _ => return false,
            }
        }
        forward.next().is_none()
            && backward.next_back().is_none()
            && backward$(.$bytes())+.is_empty()
    }};
}

/// Whether a path has these components after its prefix, if any.
fn have_texts(text: &[u8], has_prefix: bool, texts: &[&[u8]]) -> bool {
    have_texts!(components(text), has_prefix, texts, as_bytes)
}

/// Whether a path of text has these components after its prefix, if any.
fn texts_have_texts(text: &str, has_prefix: bool, texts: &[&[u8]]) -> bool {
    have_texts!(
        Utf8WindowsPath::new(text).components(),
        has_prefix,
        texts,
        as_str.as_bytes
    )
}

/// Whether a path of either dialect has these components after its prefix, if any.
fn typed_have_texts(text: &[u8], has_prefix: bool, texts: &[&[u8]]) -> bool {
    have_texts!(
        TypedPath::windows(text).components(),
        has_prefix,
        texts,
        as_bytes
    )
}

/// Whether a path of text of either dialect has these components after its prefix, if any.
fn typed_texts_have_texts(text: &str, has_prefix: bool, texts: &[&[u8]]) -> bool {
    have_texts!(
        Utf8TypedPath::windows(text).components(),
        has_prefix,
        texts,
        as_str.as_bytes
    )
}

#[test]
fn component_lists(rt: HostRuntime) {
    const ROWS: &[(&[u8], Option<WindowsPrefix<'static>>, &[&[u8]])] = &[
        (b"", None, &[]),
        (
            br"C:\path\to\file.txt",
            Some(WindowsPrefix::Disk(67)),
            &[b"C:", br"\", b"path", b"to", b"file.txt"],
        ),
        (br"\\?\", Some(WindowsPrefix::UNC(b"?", b"")), &[br"\\?\"]),
        (
            br"\\?\\a",
            Some(WindowsPrefix::Verbatim(b"")),
            &[br"\\?\", br"\", b"a"],
        ),
        (
            b"//?/x/a",
            Some(WindowsPrefix::Verbatim(b"x")),
            &[b"//?/x", br"\", b"a"],
        ),
        (
            br"\\?\x\a",
            Some(WindowsPrefix::Verbatim(b"x")),
            &[br"\\?\x", br"\", b"a"],
        ),
        (
            b"\xE9:x",
            Some(WindowsPrefix::Disk(0xE9)),
            &[b"\xE9:", b"x"],
        ),
        (b"\xD7:x", None, &[b"\xD7:x"]),
        (br"\", None, &[br"\"]),
        (br"\\", None, &[br"\"]),
        (br"\\\x", None, &[br"\", b"x"]),
        (br"\\?", Some(WindowsPrefix::UNC(b"?", b"")), &[br"\\?"]),
        (br"\\?\U", Some(WindowsPrefix::Verbatim(b"U")), &[br"\\?\U"]),
        (
            br"\\?\UNC",
            Some(WindowsPrefix::Verbatim(b"UNC")),
            &[br"\\?\UNC"],
        ),
        (
            br"\\?\UNC\",
            Some(WindowsPrefix::Verbatim(b"UNC")),
            &[br"\\?\UNC", br"\"],
        ),
        (
            br"\\?\UNC\s",
            Some(WindowsPrefix::VerbatimUNC(b"s", b"")),
            &[br"\\?\UNC\s"],
        ),
        (
            br"\\?\UNC\srv\",
            Some(WindowsPrefix::VerbatimUNC(b"srv", b"")),
            &[br"\\?\UNC\srv\"],
        ),
        (
            br"\\?\UNC\srv\sh\",
            Some(WindowsPrefix::VerbatimUNC(b"srv", b"sh")),
            &[br"\\?\UNC\srv\sh", br"\"],
        ),
        (
            br"\\?\UNC/s/h",
            Some(WindowsPrefix::Verbatim(b"UNC/s/h")),
            &[br"\\?\UNC/s/h"],
        ),
        (
            b"//?/UNC/s/h/x",
            Some(WindowsPrefix::VerbatimUNC(b"s", b"h")),
            &[b"//?/UNC/s/h", br"\", b"x"],
        ),
        (
            br"\\?\c:/x",
            Some(WindowsPrefix::VerbatimDisk(67)),
            &[br"\\?\c:", b"/x"],
        ),
        (
            br"\\?\C:\a\.\b",
            Some(WindowsPrefix::VerbatimDisk(67)),
            &[br"\\?\C:", br"\", b"a", b".", b"b"],
        ),
        (
            br"C:.\a",
            Some(WindowsPrefix::Disk(67)),
            &[b"C:", b".", b"a"],
        ),
        (
            br"C:a\.\b",
            Some(WindowsPrefix::Disk(67)),
            &[b"C:", b"a", b"b"],
        ),
        (br"\\.", Some(WindowsPrefix::UNC(b".", b"")), &[br"\\."]),
        (br"\\.\", Some(WindowsPrefix::UNC(b".", b"")), &[br"\\.\"]),
        (
            b"//./COM1/x",
            Some(WindowsPrefix::DeviceNS(b"COM1")),
            &[b"//./COM1", br"\", b"x"],
        ),
        (
            br"\\.\COM1",
            Some(WindowsPrefix::DeviceNS(b"COM1")),
            &[br"\\.\COM1"],
        ),
        (
            br"\\s\h",
            Some(WindowsPrefix::UNC(b"s", b"h")),
            &[br"\\s\h"],
        ),
        (
            br"\\s\\x",
            Some(WindowsPrefix::UNC(b"s", b"")),
            &[br"\\s\", br"\", b"x"],
        ),
        (
            b"//s/h//x/",
            Some(WindowsPrefix::UNC(b"s", b"h")),
            &[b"//s/h", br"\", b"x"],
        ),
        (
            br"\/?\C:/x",
            Some(WindowsPrefix::VerbatimDisk(67)),
            &[br"\/?\C:", br"\", b"x"],
        ),
        (b"1:", None, &[b"1:"]),
    ];
    for &(text, prefix, texts) in ROWS {
        let components = components(text);
        assert!(rt; components.prefix_kind() == prefix);
        let raw = components.prefix().map(|prefix| prefix.as_bytes());
        assert!(rt; raw == prefix.and_then(|_| texts.first().copied()));
        assert!(rt; have_texts(text, false, texts));
    }
}

#[test]
fn share_cut_after_each_byte(rt: HostRuntime) {
    let text = br"\\?\UNC\srv\share\x";
    let unc = WindowsPrefix::VerbatimUNC;
    let rows: [(Option<WindowsPrefix<'_>>, &[&[u8]]); 20] = [
        (None, &[]),
        (None, &[br"\"]),
        (None, &[br"\"]),
        (Some(WindowsPrefix::UNC(b"?", b"")), &[]),
        (Some(WindowsPrefix::UNC(b"?", b"")), &[]),
        (Some(WindowsPrefix::Verbatim(b"U")), &[]),
        (Some(WindowsPrefix::Verbatim(b"UN")), &[]),
        (Some(WindowsPrefix::Verbatim(b"UNC")), &[]),
        (Some(WindowsPrefix::Verbatim(b"UNC")), &[br"\"]),
        (Some(unc(b"s", b"")), &[]),
        (Some(unc(b"sr", b"")), &[]),
        (Some(unc(b"srv", b"")), &[]),
        (Some(unc(b"srv", b"")), &[]),
        (Some(unc(b"srv", b"s")), &[]),
        (Some(unc(b"srv", b"sh")), &[]),
        (Some(unc(b"srv", b"sha")), &[]),
        (Some(unc(b"srv", b"shar")), &[]),
        (Some(unc(b"srv", b"share")), &[]),
        (Some(unc(b"srv", b"share")), &[br"\"]),
        (Some(unc(b"srv", b"share")), &[br"\", b"x"]),
    ];
    for (end, (prefix, texts)) in rows.into_iter().enumerate() {
        let cut = &text[..end];
        let has_prefix = prefix.is_some();
        let mut components = components(cut);
        assert!(rt; components.prefix_kind() == prefix);
        if has_prefix {
            assert!(rt;
                components
                    .next()
                    .is_some_and(|first| first.prefix_kind() == prefix)
            );
        }
        assert!(rt; have_texts(cut, has_prefix, texts));
        let string = str::from_utf8(cut).unwrap_or("?");
        assert!(rt; texts_have_texts(string, has_prefix, texts));
        assert!(rt; typed_have_texts(cut, has_prefix, texts));
        assert!(rt; typed_texts_have_texts(string, has_prefix, texts));
    }
}

#[test]
fn questions(rt: HostRuntime) {
    // Absolute, rooted, with a root written, with one implied; and which of the kinds the prefix
    // is.
    const ROWS: &[(&[u8], [bool; 4], usize)] = &[
        (b"", [false, false, false, false], 6),
        (b"a", [false, false, false, false], 6),
        (br"\x", [false, true, true, false], 6),
        (br"\\?\x", [false, true, false, true], 0),
        (br"\\?\x\a", [true, true, true, true], 0),
        (br"\\?\UNC\s\h", [true, true, false, true], 1),
        (br"\\?\UNC\s", [false, true, false, true], 1),
        (br"\\?\C:\a", [true, true, true, true], 2),
        (br"\\?\C:a", [false, false, false, true], 2),
        (b"//./COM1/x", [true, true, true, true], 3),
        (br"\\.\COM1", [false, true, false, true], 3),
        (br"\\s\h", [true, true, false, true], 4),
        (br"\\s\\x", [false, true, true, true], 4),
        (br"\\?\", [false, true, false, true], 4),
        (br"C:\path\to\file.txt", [true, true, true, false], 5),
        (b"C:", [false, false, false, false], 5),
        (b"C:a", [false, false, false, false], 5),
    ];
    for &(text, roots, kind) in ROWS {
        let c = components(text);
        let answers = [
            c.is_absolute(),
            c.has_root(),
            c.has_physical_root(),
            c.has_implicit_root(),
        ];
        assert!(rt; answers == roots);
        let kinds = [
            c.has_verbatim_prefix(),
            c.has_verbatim_unc_prefix(),
            c.has_verbatim_disk_prefix(),
            c.has_device_ns_prefix(),
            c.has_unc_prefix(),
            c.has_disk_prefix(),
        ];
        for (at, holds) in kinds.into_iter().enumerate() {
            assert!(rt; holds == (at == kind));
        }
        assert!(rt; c.has_prefix() == (kind < 6));
        assert!(rt; c.has_any_verbatim_prefix() == (kind < 3));
    }
}

#[test]
fn slices_left(rt: HostRuntime) {
    const ROWS: &[(&[u8], usize, usize, &[u8])] = &[
        (br"\\?\C:\a\.\b", 0, 0, br"\\?\C:\a\.\b"),
        (br"\\?\C:\a\.\b", 0, 1, br"\\?\C:\a\."),
        (br"\\?\C:\a\.\b", 0, 2, br"\\?\C:\a"),
        (br"\\?\C:\a\.\b", 0, 3, br"\\?\C:\"),
        (br"\\?\C:\a\.\b", 0, 4, br"\\?\C:"),
        (br"\\?\C:\a\.\b", 0, 5, b""),
        (br"C:.\a\.", 1, 0, br".\a\."),
        (br"C:.\a\.", 1, 1, b"."),
        (b"//s/h//x/", 1, 0, b"//x/"),
        (b"//s/h//x/", 2, 0, b"x/"),
        (b"//s/h//x/", 3, 0, b""),
        (b"//s/h//x/", 0, 1, b"//s/h/"),
        (br"a\C:", 1, 0, b"C:"),
        (b"C://a", 1, 0, b"//a"),
    ];
    for &(text, fronts, backs, left) in ROWS {
        let mut components = components(text);
        for _ in 0..fronts {
            assert!(rt; components.next().is_some());
        }
        for _ in 0..backs {
            assert!(rt; components.next_back().is_some());
        }
        assert!(rt; components.as_bytes() == left);
        assert!(rt; components.has_prefix() == (fronts == 0 && backs < 5));
    }
}

#[test]
fn single_texts(rt: HostRuntime) {
    const NONE: &str = "no component found";
    const MORE: &str = "found more than one component";
    let rows: [(&[u8], Result<WindowsComponent<'_>, ParseError>); 8] = [
        (b"", Err(NONE)),
        (br"C:\", Err(MORE)),
        (br"\a", Err(MORE)),
        (b"/", Ok(WindowsComponent::RootDir)),
        (b"//", Ok(WindowsComponent::RootDir)),
        (b".", Ok(WindowsComponent::CurDir)),
        (b"..", Ok(WindowsComponent::ParentDir)),
        (br"a/\.", Ok(WindowsComponent::Normal(b"a"))),
    ];
    for (text, wanted) in rows {
        assert!(rt; WindowsComponent::try_from(text) == wanted);
    }
    let drive = WindowsPrefixComponent::try_from("C:").map(WindowsComponent::Prefix);
    assert!(rt; WindowsComponent::try_from("c:") == drive);
    assert!(rt; WindowsComponent::try_from(b"c:") == drive);
}
