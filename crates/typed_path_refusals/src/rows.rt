//! The arguments of each call in a dialect, and what it should return by the rules of the
//! specification.

use crate::calls::{Change, Make};
use crate::copies::Copied;
use crate::ended::Row;
use crate::free::Base;
use crate::lists::States;
use typed_path::PathType;

/// The name of a call, the call, and its rows.
type Rows<C> = (&'static str, C, &'static [Row]);

/// All rows of a dialect.
pub struct Table {
    /// For the calls that change an owned path. If there is room, none of these may fail.
    pub changes: &'static [Rows<Change>],
    /// For pushes onto bases that are not spelled as a push spells them.
    pub anew: &'static [Row],
    /// For the calls that make a new path.
    pub makes: &'static [Rows<Make>],
    /// A path that is copied, and how it is written on Unix.
    pub copied: Copied,
    /// A path for the calls that need no memory.
    pub free: Base,
    /// For a list that is pushed onto a path.
    pub onto: States,
    /// For a list that is pushed onto the empty path.
    pub nothing: States,
    /// What a path is after none of the operations of a list, after one, and so on up to all but
    /// the last.
    pub behind: [&'static str; 7],
}

const PUSHES: [Row; 6] = [
    ("", "a", "a"),
    ("a", "", "a"),
    ("..", "a", "../a"),
    ("/etc", "abc/../def", "/etc/abc/../def"),
    (
        "etc/",
        "a name that asks for room",
        "etc/a name that asks for room",
    ),
    (
        "/a/base/that/may/be/moved",
        "b",
        "/a/base/that/may/be/moved/b",
    ),
];

const REPLACED: [Row; 2] = [
    ("/etc", "/x", "/x"),
    ("/etc", "/asks/for/room", "/asks/for/room"),
];

const NAMES: [Row; 5] = [
    ("a/b", "", "a"),
    ("a/b/", "c", "a/c"),
    ("a/..", "b", "a/../b"),
    ("a name that is longer than the other", "b", "b"),
    (
        "/tmp/a",
        "a name that asks for room",
        "/tmp/a name that asks for room",
    ),
];

const EXTENSIONS: [Row; 5] = [
    ("foo/..", "z", "foo/.."),
    ("a/b.tar.gz", "", "a/b.tar"),
    ("a.tar.gz", "zip", "a.tar.zip"),
    ("/tmp/日本語.txt/", "z", "/tmp/日本語.z"),
    (
        "a/b",
        "an extension that asks for room",
        "a/b.an extension that asks for room",
    ),
];

const ADDED: [Row; 4] = [
    ("foo/..", "z", "foo/.."),
    ("a.tar/", "", "a.tar/"),
    ("a.tar/", "gz", "a.tar.gz"),
    (
        "a/b.c",
        "an extension that asks for room",
        "a/b.c.an extension that asks for room",
    ),
];

const KEPT: [Row; 2] = [("", "", ""), ("/etc", "", "/etc")];

const NORMAL: [Row; 2] = [
    ("/../..", "", "/"),
    ("foo/bar//baz/./asdf/quux/..", "", "foo/bar/baz/asdf"),
];

const CLEAN: [Row; 4] = [
    ("a/..", "", "."),
    ("/../a//b/.", "", "/a/b"),
    ("a/../../b/./c", "", "../b/c"),
    (
        "./a name that asks for room/b/.",
        "",
        "a name that asks for room/b",
    ),
];

const LOWER: [Row; 2] = [
    ("", "", ""),
    (
        "/Tmp/É/A name that asks for room",
        "",
        "/tmp/É/a name that asks for room",
    ),
];

const RELATIVE: [Row; 4] = [
    ("/a/b/c", "/a/d", "../b/c"),
    ("a", "a/.", "."),
    (
        "a/a name that asks for room",
        "a/b",
        "../a name that asks for room",
    ),
    (
        "../../a name that asks for room",
        "b",
        "../../../a name that asks for room",
    ),
];

const ABSOLUTE: [Row; 2] = [
    ("a/../b", "/home/u", "/home/u/b"),
    ("/a/b/../c/./d", "/home/u", "/a/c/d"),
];

const COPIED: [Row; 1] = [("a//b/./..", "", "a//b/./..")];

const BUILT: [Row; 1] = [("a//b/.", "", "a/b")];

const TO_WINDOWS: [Row; 1] = [("/tmp/foo.txt", "", r"\tmp\foo.txt")];

/// The rows of Unix.
pub const UNIX: Table = Table {
    changes: &[
        ("push", Change::Push, &PUSHES),
        ("push_checked", Change::PushChecked, &PUSHES),
        ("push in its place", Change::Push, &REPLACED),
        ("set_file_name", Change::SetFileName, &NAMES),
        ("set_extension", Change::SetExtension, &EXTENSIONS),
        ("add_extension", Change::AddExtension, &ADDED),
        ("reserve", Change::Reserve, &KEPT),
        ("try_reserve", Change::TryReserve, &KEPT),
        ("reserve_exact", Change::ReserveExact, &KEPT),
        ("try_reserve_exact", Change::TryReserveExact, &KEPT),
    ],
    anew: &[],
    makes: &[
        ("join", Make::Join, &PUSHES),
        ("join in its place", Make::Join, &REPLACED),
        ("join_checked", Make::JoinChecked, &PUSHES),
        ("join_portable", Make::JoinPortable, &PUSHES),
        ("with_file_name", Make::WithFileName, &NAMES),
        ("with_extension", Make::WithExtension, &EXTENSIONS),
        ("with_added_extension", Make::WithAddedExtension, &ADDED),
        ("normalize", Make::Normalize, &NORMAL),
        ("clean", Make::Clean, &CLEAN),
        ("to_ascii_lowercase", Make::ToLowercase, &LOWER),
        ("relative_to", Make::RelativeTo, &RELATIVE),
        ("absolutize", Make::Absolutize, &ABSOLUTE),
        ("with_unix_encoding", Make::WithUnix, &COPIED),
        ("with_unix_encoding_checked", Make::WithUnixChecked, &BUILT),
        ("with_windows_encoding", Make::WithWindows, &TO_WINDOWS),
        (
            "with_windows_encoding_checked",
            Make::WithWindowsChecked,
            &TO_WINDOWS,
        ),
    ],
    copied: ("/a/b", "/a/b"),
    free: ("/etc", "/", 2, 2, PathType::Unix),
    onto: [
        "/x",
        "/x/one name/two/b",
        "/x/one name/two/b/one name/two",
        "/x/one name/two/b/one name/two/one name",
    ],
    nothing: [
        "",
        "one name/two/b",
        "one name/two/b/one name/two",
        "one name/two/b/one name/two/one name",
    ],
    behind: [
        "/etc",
        "/etc",
        "/etc/a name.b",
        "/etc/a name.an extension",
        "/etc/a name that is longer than all before it",
        "/etc",
        "",
    ],
};

const WINDOWS_PUSHES: [Row; 9] = [
    ("", "a", "a"),
    ("C:", "a", "C:a"),
    (r"\\server", "a", r"\\server\a"),
    (r"C:\é", "a/ü", r"C:\é\a/ü"),
    (r"\\?\UNC\s\h", "a", r"\\?\UNC\s\h\a"),
    (r"\\?\C:\x", "a", r"\\?\C:\x\a"),
    (r"\\?\C:\x/y", "b/./c", r"\\?\C:\x/y\b\c"),
    (r"\\?\C:\base", r"a/b\..\..", r"\\?\C:\base"),
    (
        r"\\?\C:\x",
        "a name that asks for room",
        r"\\?\C:\x\a name that asks for room",
    ),
];

const WINDOWS_REPLACED: [Row; 6] = [
    (r"C:\a\b", r"\c", r"C:\c"),
    (r"\\s\h\x", "/y", r"\\s\h/y"),
    (
        r"C:\a",
        "D:a name that asks for room",
        "D:a name that asks for room",
    ),
    (r"\\?\C:\x", "/y", r"\\?\C:\y"),
    (r"\\?\C:\a", "..", r"\\?\C:\"),
    (r"\\?\C:\x", r"\\s\h\y", r"\\s\h\y"),
];

const WINDOWS_NAMES: [Row; 4] = [
    ("C:x", "y", "C:y"),
    (r"C:\a\b", "c", r"C:\a\c"),
    (r"\\?\C:\x\y", "z", r"\\?\C:\x\z"),
    (
        r"\\?\C:\x\y",
        "a name that asks for room",
        r"\\?\C:\x\a name that asks for room",
    ),
];

const WINDOWS_EXTENSIONS: [Row; 3] = [
    (r"C:\a.b", "txt", r"C:\a.txt"),
    (r"\\s\h\a", "z", r"\\s\h\a.z"),
    (r"\\?\C:\x.y", "zip", r"\\?\C:\x.zip"),
];

const WINDOWS_ADDED: [Row; 3] = [
    ("C:", "z", "C:"),
    (r"C:a.tar\", "gz", "C:a.tar.gz"),
    (
        r"\\?\C:\a/b",
        "an extension that asks for room",
        r"\\?\C:\a/b.an extension that asks for room",
    ),
];

const WINDOWS_KEPT: [Row; 2] = [("C:", "", "C:"), (r"\\?\C:\x", "", r"\\?\C:\x")];

const WINDOWS_CLEAN: [Row; 4] = [
    (r"a\..\C:\b", "", r".\C:\b"),
    (r"\\?\C:a", "", r"\\?\C:\a"),
    (r"C:/a\..\..//b", "", r"C:\b"),
    (
        r"C:\.\a name that asks for room\.",
        "",
        r"C:\a name that asks for room",
    ),
];

const WINDOWS_NORMAL: [Row; 4] = [
    (r"x\C:", "", "C:"),
    (r"C:\a\.\..\b", "", r"C:\b"),
    (r"\\?\x\a/b\c\..", "", r"\\?\x\a\b"),
    ("//?/x/a/../b", "", r"//?/x\b"),
];

const WINDOWS_LOWER: [Row; 2] = [
    (r"C:\A/B", "", r"c:\a/b"),
    (r"\\?\UNC\S\H\A", "", r"\\?\UNC\s\h\a"),
];

const WINDOWS_RELATIVE: [Row; 3] = [
    ("C:/a/b", r"c:\a\d", r"..\b"),
    (r"a\C:", "a", r".\C:"),
    (
        r"C:\a\a name that asks for room",
        r"C:\a\b",
        r"..\a name that asks for room",
    ),
];

const WINDOWS_ABSOLUTE: [Row; 2] = [
    (r"C:\a\..\b", "/home/u", r"C:\b"),
    (r"a\..\b", r"\\s\h/name", r"\\s\h\name\b"),
];

const WINDOWS_COPIED: [Row; 1] = [(r"\\s\con\x", "", r"\\s\con\x")];

const WINDOWS_BUILT: [Row; 2] = [(r"\\s\h\x", "", r"\x"), (r"\\.\COM1\x", "", r"\x")];

const TO_UNIX: [Row; 3] = [
    (r"C:\x", "", "/x"),
    ("C:tmp", "", "C:/tmp"),
    (r"\\?\C:\a\.\b", "", "/a/./b"),
];

/// The rows of Windows.
pub const WINDOWS: Table = Table {
    changes: &[
        ("push", Change::Push, &WINDOWS_PUSHES),
        ("push_checked", Change::PushChecked, &WINDOWS_PUSHES),
        ("push in its place", Change::Push, &WINDOWS_REPLACED),
        ("set_file_name", Change::SetFileName, &WINDOWS_NAMES),
        ("set_extension", Change::SetExtension, &WINDOWS_EXTENSIONS),
        ("add_extension", Change::AddExtension, &WINDOWS_ADDED),
        ("reserve", Change::Reserve, &WINDOWS_KEPT),
        ("try_reserve", Change::TryReserve, &WINDOWS_KEPT),
        ("reserve_exact", Change::ReserveExact, &WINDOWS_KEPT),
        ("try_reserve_exact", Change::TryReserveExact, &WINDOWS_KEPT),
    ],
    anew: &[
        ("//?/C:/base", "a", r"//?/C:\base\a"),
        ("//?/C:/x", r"..\..\b", r"//?/C:\b"),
        (r"\\?\C:\x\", ".", r"\\?\C:\x"),
    ],
    makes: &[
        ("join", Make::Join, &WINDOWS_PUSHES),
        ("join in its place", Make::Join, &WINDOWS_REPLACED),
        ("join_checked", Make::JoinChecked, &WINDOWS_PUSHES),
        ("join_portable", Make::JoinPortable, &WINDOWS_PUSHES),
        ("with_file_name", Make::WithFileName, &WINDOWS_NAMES),
        ("with_extension", Make::WithExtension, &WINDOWS_EXTENSIONS),
        (
            "with_added_extension",
            Make::WithAddedExtension,
            &WINDOWS_ADDED,
        ),
        ("normalize", Make::Normalize, &WINDOWS_NORMAL),
        ("clean", Make::Clean, &WINDOWS_CLEAN),
        ("to_ascii_lowercase", Make::ToLowercase, &WINDOWS_LOWER),
        ("relative_to", Make::RelativeTo, &WINDOWS_RELATIVE),
        ("absolutize", Make::Absolutize, &WINDOWS_ABSOLUTE),
        ("with_unix_encoding", Make::WithUnix, &TO_UNIX),
        (
            "with_unix_encoding_checked",
            Make::WithUnixChecked,
            &TO_UNIX,
        ),
        ("with_windows_encoding", Make::WithWindows, &WINDOWS_COPIED),
        (
            "with_windows_encoding_checked",
            Make::WithWindowsChecked,
            &WINDOWS_BUILT,
        ),
    ],
    copied: (r"\a\b", "/a/b"),
    free: (r"\\?\C:\x", r"\\?\C:\", 3, 2, PathType::Windows),
    onto: [
        r"\\?\C:\x",
        r"\\?\C:\x\one name\two\b",
        r"\\?\C:\x\one name\two\b\one name\two",
        r"\\?\C:\x\one name\two\b\one name\two\one name",
    ],
    nothing: [
        "",
        "one name/two/b",
        r"one name/two/b\one name/two",
        r"one name/two/b\one name/two\one name",
    ],
    behind: [
        r"C:\x",
        r"C:\x",
        r"C:\x\a name.b",
        r"C:\x\a name.an extension",
        r"C:\x\a name that is longer than all before it",
        r"C:\x",
        "",
    ],
};
