//! Pushes and conversions onto Windows bases that are read verbatim, or get a verbatim prefix by
//! the push: rows of known answers.

use crate::conversions::converts_as;
use std::alloc::{AllocError, Global};
use std::test::Fail;
use typed_path::{
    CheckedPathError, Encoding, UnixEncoding, WindowsEncoding, WindowsPath, WindowsPathBuf,
};

/// Whether two paths make what a row says of a base, pushed one by one and in one call. A row has
/// the base, a path, the base with it, the other path, and the base with both, with a space between
/// two fields.
fn pushes_as(alloc: Global, row: &[u8]) -> Result<bool, AllocError> {
    let mut fields = row.split(|byte| *byte == b' ');
    let base = fields.next().unwrap_or(b"");
    let path = WindowsPath::new(fields.next().unwrap_or(b""));
    let once = fields.next().unwrap_or(b"");
    let other = WindowsPath::new(fields.next().unwrap_or(b""));
    let twice = fields.next().unwrap_or(b"");
    let mut pushed = WindowsPathBuf::from_bytes(alloc, base)?;
    pushed.push(path)?;
    let joined = WindowsPath::new(base).join(alloc, path)?;
    let is_once = pushed.as_path().as_bytes() == once && joined.as_path().as_bytes() == once;
    pushed.push(other)?;
    let mut extended = WindowsPathBuf::from_bytes(alloc, base)?;
    extended.extend([path, other])?;
    let made = WindowsPathBuf::from_iter(alloc, [WindowsPath::new(base), path, other])?;
    Ok(
        is_once
            && pushed.as_path().as_bytes() == twice
            && extended.as_path().as_bytes() == twice
            && made.as_path().as_bytes() == twice,
    )
}

#[test]
fn pushes_onto_verbatim_bases(rt: HostRuntime) -> Result<(), Fail> {
    const ROWS: &[&[u8]] = &[
        br"\\?\C: .. \\?\C: a \\?\C:\a",
        br"\\?\C: a \\?\C:\a .. \\?\C:\",
        br"\\?\C: a\b \\?\C:\a\b a\b \\?\C:\a\b\a\b",
        br"\\?\C:\  \\?\C:\ a\.. \\?\C:\",
        br"\\?\C:\ .. \\?\C:\ a \\?\C:\a",
        br"\\?\C:\ C:z C:z a C:z\a",
        br"\\?\C:\x /y \\?\C:\y a\.. \\?\C:\y",
        br"\\?\C:\x \y \\?\C:\y .. \\?\C:\",
        br"\\?\C:\x \y \\?\C:\y ..\..\b \\?\C:\b",
        br"\\?\C:\x\  \\?\C:\x\ . \\?\C:\x",
        br"\\?\C:\x\ . \\?\C:\x .. \\?\C:\",
        br"\\?\C:\. .. \\?\C:\. a \\?\C:\.\a",
        br"\\?\C:\. a\..\..\c \\?\C:\.\c /y \\?\C:\y",
        br"\\?\C:\. a\..\..\c \\?\C:\.\c C:z C:z",
        br"\\?\C:\. a\b\..\..\..\d \\?\C:\.\d /y \\?\C:\y",
        br"\\?\C:\x\\y . \\?\C:\x\y a\..\..\c \\?\C:\x\c",
        br"\\?\C:\x\\y . \\?\C:\x\y a\b\..\..\..\d \\?\C:\x\d",
        br"\\?\C:\x\\y a \\?\C:\x\y\a a\b \\?\C:\x\y\a\a\b",
        br"\\?\C:\x/y a \\?\C:\x/y\a a \\?\C:\x/y\a\a",
        br"\\?\C:\x/y a \\?\C:\x/y\a b/./c \\?\C:\x/y\a\b\c",
        br"\\?\C:\x/y a\.. \\?\C:\x/y  \\?\C:\x/y",
        br"\\?\C:\x/y a\.. \\?\C:\x/y . \\?\C:\x/y",
        br"//?/C:/x . //?/C:\x a\.. //?/C:\x",
        br"//?/C:/x ..\..\b //?/C:\b b/./c //?/C:\b\b\c",
        br"//?/C:/x b/./c //?/C:\x\b\c a //?/C:\x\b\c\a",
        br"//?/C: .. //?/C: a\.. //?/C:",
        br"//?/C: a\.. //?/C: C:z C:z",
        br"//?// .. //?/\ a //?/\a",
        br"//?// /y //?/\y .. //?/\",
        br"//?// \y //?/\y a //?/\y\a",
        br"//?// a\b //?/\a\b a\b //?/\a\b\a\b",
        br"\\?\UNC ..\..\b \\?\UNC\b \ \\?\UNC\b\",
        br"\\?\UNC /y \\?\UNC\y a\..\..\c \\?\UNC\y\c",
        br"\\?\UNC a \\?\UNC\a .. \\?\UNC\a",
        br"\\?\UNC a\b\..\..\..\d \\?\UNC\d \ \\?\UNC\d\",
        br"\\?\UNC\ .. \\?\UNC\ /y \\?\UNC\y",
        br"\\?\UNC\ a \\?\UNC\a b \\?\UNC\a\b",
        br"\\?\UNC\ b/./c \\?\UNC\b\c \y \\?\UNC\b\c\y",
        br"\\?\UNC\ b/./c \\?\UNC\b\c a\b\..\..\..\d \\?\UNC\b\c\d",
        br"\\?\UNC\s \ \\?\UNC\s\ ..\..\b \\?\UNC\s\\b",
        br"\\?\UNC\s \ \\?\UNC\s\ a\..\..\c \\?\UNC\s\\c",
        br"\\?\UNC\s \ \\?\UNC\s\ a\b\..\..\..\d \\?\UNC\s\\d",
        br"\\?\UNC\s a \\?\UNC\s\a .. \\?\UNC\s\a",
        br"\\?\UNC\s\ a \\?\UNC\s\\a .. \\?\UNC\s\\",
        br"\\?\UNC\s\ a\.. \\?\UNC\s\ ..\..\b \\?\UNC\s\\b",
        br"\\?\UNC\s\ a\..\..\c \\?\UNC\s\\c /y \\?\UNC\s\\y",
        br"\\?\UNC\s\ a\b\..\..\..\d \\?\UNC\s\\d \y \\?\UNC\s\\y",
        br"\\?\UNC\s\h ..\..\b \\?\UNC\s\h\b \y \\?\UNC\s\h\y",
        br"\\?\UNC\s\h a \\?\UNC\s\h\a .. \\?\UNC\s\h\",
        br"\\?\UNC\s\h a\..\..\c \\?\UNC\s\h\c \y \\?\UNC\s\h\y",
        br"\\?\UNC\s\h b/./c \\?\UNC\s\h\b\c a\..\..\c \\?\UNC\s\h\b\c",
        br"\\?\UNC\s\h\x .. \\?\UNC\s\h\ . \\?\UNC\s\h\",
        br"\\?\UNC\s\h\x .. \\?\UNC\s\h\ b/./c \\?\UNC\s\h\b\c",
        br"\\?\UNC\s\h\x \ \\?\UNC\s\h\ a\b\..\..\..\d \\?\UNC\s\h\d",
        br"\\?\x .. \\?\x a \\?\x\a",
        br"\\?\x a \\?\x\a b/./c \\?\x\a\b\c",
        br"\\?\x a\.. \\?\x \ \\?\x\",
        br"\\?\x a\b\..\..\..\d \\?\x\d \ \\?\x\",
        br"\\?\\a .. \\?\\ b/./c \\?\\b\c",
        br"\\?\\a ..\..\b \\?\\b . \\?\\b",
        br"\\?\\a /y \\?\\y ..\..\b \\?\\b",
        br"\\?\\a a\b \\?\\a\a\b a\b \\?\\a\a\b\a\b",
    ];
    for &row in ROWS {
        assert!(rt; pushes_as(rt.alloc(), row)?, "the row {row:?}");
    }
    Ok(())
}

// No clause says of which paths something is known.
#[test]
fn known_of_pushed_paths(rt: HostRuntime) -> Result<(), Fail> {
    // A base, a path, the base with it, and what is known of that.
    const ROWS: &[(&[u8], &[u8], &[u8], Option<usize>)] = &[
        (br"\\?\", b"x", br"\\?\x", Some(5)),
        (br"\\?", b"x", br"\\?\x", Some(5)),
        (b"//?/", b"x", br"//?/\x", Some(4)),
        (b"//?", b"x", br"//?\x", Some(5)),
        (br"\\", br"?\x", br"\\?\x", Some(5)),
        (b"//", b"?/x", br"//\?/x", None),
        (br"/\", b"?/x", br"/\?/x", Some(5)),
        (b"/", br"?\x", br"/\?\x", Some(5)),
        (br"\", br"?\x", br"\?\x", None),
        (br"\\?\", br"x\y", br"\\?\x\y", Some(5)),
        (br"\\?\", b"x/y", br"\\?\x/y", Some(7)),
        (b"//?/", b"x/y", br"//?/\x/y", None),
        (br"\\?\", b"x/./", br"\\?\x/./", Some(8)),
        (br"\\?\", br"x\.", br"\\?\x\.", Some(5)),
        (br"\\?\", br"x\\y", br"\\?\x\\y", None),
        (br"\\?\", b"UNC", br"\\?\UNC", Some(7)),
        (br"\\?\", br"UNC\s", br"\\?\UNC\s", Some(9)),
        (br"\\?\x", b"y", br"\\?\x\y", Some(5)),
        (br"\\.\", b"x", br"\\.\x", None),
        (br"\\", b"x", br"\\x", None),
        (br"\\s", b"x", br"\\s\x", None),
        (b"C:", br"?\x", br"C:?\x", None),
        (b"", br"?\x", br"?\x", None),
        (b"a", b"x", br"a\x", None),
    ];
    let mut text = Vec::new(rt.alloc());
    for &(base, path, pushed, known) in ROWS {
        text.clear();
        text.extend_from_slice(base)?;
        let next = WindowsEncoding::push_next(&mut text, 0, path, None)?;
        assert_eq!(rt; text.as_slice(), pushed, "{path:?} on {base:?}");
        assert_eq!(rt; next, known, "{path:?} on {base:?}");
    }
    Ok(())
}

#[test]
fn conversions_onto_verbatim_names(rt: HostRuntime) -> Result<(), Fail> {
    const ROWS: &[(&[u8], &[u8])] = &[
        (
            br"\\?\C:/..\a\b\..\c\d\e\f\g\h\i\j",
            br"\\?\C:\a\c\d\e\f\g\h\i\j",
        ),
        (br"\\?\C:\a\./..", br"\\?\C:\a\."),
        (br"\\?\C:\x/a\..\b", br"\\?\C:\x\b"),
        (br"\\?\C:\x\\y/z", br"\\?\C:\x\y\z"),
        (br"\\?\C:/a\..\..\b/c", br"\\?\C:\b\c"),
        (br"\\?\C:\x\/..", br"\\?\C:\"),
        (br"\\?\C:\./../a", br"\\?\C:\.\a"),
        (br"\\?\C:\x/\y/..", br"\\?\C:\"),
        (br"\\?\C:\x\\y/.", br"\\?\C:\x\\y"),
        (br"\\?\C:\x\\y/..\..", br"\\?\C:\"),
        (br"\\?\UNC/s/h/..", br"\\?\UNC\s\h"),
        (br"\\?\UNC/s\h/../x", br"\\?\UNC\s\h\x"),
        (br"\\?\UNC\/s/h", br"\\?\UNC\s\h"),
        (br"\\?\UNC\s/\/..\..\b", br"\\?\UNC\s\\b"),
        (br"\\?\UNC\s\h/a/../..\b", br"\\?\UNC\s\h\b"),
        (br"\\?\x/a\b\..\..\..\d/e", br"\\?\x\d\e"),
        (br"\\?\\a/..\..\b", br"\\?\\b"),
        (br"\\?\C:\x/C:z/a", br"C:z\a"),
        (br"x/\\?\C:\y/..", br"\\?\C:\"),
        (br"/\\?\C:/a/\b/.\c", br"\\?\C:\b\c"),
        (br"\\?\x/a\b/..", br"\\?\x\a"),
        (br"\\?\C:/.\a/b", br"\\?\C:\a\b"),
    ];
    for &(path, wanted) in ROWS {
        let row = (path, wanted, Err(CheckedPathError::UnexpectedPrefix));
        assert!(rt;
            converts_as::<UnixEncoding, WindowsEncoding>(rt.alloc(), row)?,
            "of {path:?}"
        );
    }
    Ok(())
}
