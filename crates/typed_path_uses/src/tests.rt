//! Rows of known answers for the callers.

use crate::{
    Rule, Tree, Unconfigured, Unserved, Untargeted, always_lies_in, are_alike, backup, configured,
    counted, day_folder, day_log, entry_on_windows, filed_in, has_no_link, is_ignored,
    is_mounted_in, lead_alike, link, link_on_windows, nested, note, noted, read_from, rewritten,
    rewritten_texts, served_below, served_on_unix, served_on_windows, shared_folder, shipped,
    shown, surely_fits, target_below, target_on_both, targets, targets_on_both, text_target_below,
    tidy_folder, typed_target_below, unpacked, unpacked_below, without_detours,
};
use std::alloc::{AllocError, Global};
use std::collections::BTreeMap;
use std::hash::RandomState;
use std::test::Fail;
use typed_path::{
    CheckedPathError, Encoding, JoinError, Key, Path, PathError, PortableError, TypedPath,
    UnixEncoding, UnixPath, UnixPathBuf, Utf8UnixEncoding, Utf8WindowsEncoding, Utf8WindowsPath,
    WindowsEncoding, WindowsPath, WindowsPathBuf,
};

#[test]
fn served_files(rt: HostRuntime) -> Result<(), Fail> {
    use Unserved::{Absolute, BadName, Device, Traversal, ZeroByte};
    let rows: [(&[u8], Result<&[u8], Unserved>, Result<&[u8], Unserved>); 12] = [
        (
            b"/index.html",
            Ok(b"/srv/www/index.html"),
            Ok(br"C:\www\index.html"),
        ),
        (
            b"/my%20page.html",
            Ok(b"/srv/www/my page.html"),
            Ok(br"C:\www\my page.html"),
        ),
        (
            b"/a/%2e%2e/b",
            Ok(b"/srv/www/a/../b"),
            Ok(br"C:\www\a/../b"),
        ),
        (b"/%2e%2e%2fetc/passwd", Err(Traversal), Err(Traversal)),
        (b"/a/../../b", Err(Traversal), Err(Traversal)),
        (
            b"/..%5cboot.ini",
            Ok(br"/srv/www/..\boot.ini"),
            Err(Traversal),
        ),
        (b"/c%3a", Ok(b"/srv/www/c:"), Err(Absolute)),
        (b"//etc/passwd", Err(Absolute), Err(Absolute)),
        (b"/%00", Err(ZeroByte), Err(ZeroByte)),
        (b"/con", Ok(b"/srv/www/con"), Err(Device)),
        (b"/nul.txt", Ok(b"/srv/www/nul.txt"), Err(Device)),
        (b"/a%3fb", Ok(b"/srv/www/a?b"), Err(BadName)),
    ];
    for (url, on_unix, on_windows) in rows {
        let unix = served_on_unix(rt.alloc(), url);
        let windows = served_on_windows(rt.alloc(), url);
        assert_eq!(rt;
            unix.as_ref()
                .map(|file| file.as_path().as_bytes())
                .map_err(|e| *e),
            on_unix
        );
        assert_eq!(rt;
            windows
                .as_ref()
                .map(|file| file.as_path().as_bytes())
                .map_err(|e| *e),
            on_windows
        );
    }
    Ok(())
}

/// Returns how many of three entries are unpacked below a base, and the fault for which one is
/// refused.
fn unpacked_with<T: Encoding>(
    alloc: Global,
    base: &[u8],
    name: &[u8],
) -> Result<(usize, Option<CheckedPathError>), PathError> {
    let all = unpacked(alloc, Path::<T>::new(base), &[b"a", name, b"b"])?;
    Ok((
        all.targets.len(),
        all.refused.first().map(|refused| refused.fault),
    ))
}

/// Returns what [`unpacked_with`] should return for a name with `fault`: the other two entries are
/// plain.
fn wanted(fault: Option<CheckedPathError>) -> (usize, Option<CheckedPathError>) {
    (if fault.is_none() { 3 } else { 2 }, fault)
}

#[test]
fn traps_of_archives(rt: HostRuntime) -> Result<(), Fail> {
    use CheckedPathError::{
        InvalidFilename, PathTraversalAttack, UnexpectedPrefix, UnexpectedRoot,
    };
    let rows: [(&[u8], Option<CheckedPathError>, Option<CheckedPathError>); 12] = [
        (b"docs/read me.txt", None, None),
        (b"a/../b", None, None),
        (
            b"../evil",
            Some(PathTraversalAttack),
            Some(PathTraversalAttack),
        ),
        (
            b"a/../../b",
            Some(PathTraversalAttack),
            Some(PathTraversalAttack),
        ),
        (b"/etc/passwd", Some(UnexpectedRoot), Some(UnexpectedRoot)),
        (br"..\evil", None, Some(PathTraversalAttack)),
        (br"\evil", None, Some(UnexpectedRoot)),
        (br"C:\evil", None, Some(UnexpectedPrefix)),
        (b"C:evil", None, Some(UnexpectedPrefix)),
        (br"\\server\share\evil", None, Some(UnexpectedPrefix)),
        (b"nul", None, Some(InvalidFilename)),
        (b"a\0b", Some(InvalidFilename), Some(InvalidFilename)),
    ];
    for (name, on_unix, on_windows) in rows {
        let unix = unpacked_with::<UnixEncoding>(rt.alloc(), b"/srv/out", name)?;
        assert_eq!(rt; unix, wanted(on_unix));
        let windows = unpacked_with::<WindowsEncoding>(rt.alloc(), br"C:\out", name)?;
        assert_eq!(rt; windows, wanted(on_windows));
    }
    Ok(())
}

/// Windows bases, and the target of `a` below each that keeps its prefix.
const BASES: &[(&str, Option<&str>)] = &[
    (r"C:\out", Some(r"C:\out\a")),
    (r"\\s\h", Some(r"\\s\h\a")),
    ("out", Some(r"out\a")),
    (r"\\s", None),
    (r"\\?\UNC", None),
    ("/", None),
];

#[test]
fn bases_that_are_known_later(rt: HostRuntime) -> Result<(), Fail> {
    for (base, below) in BASES {
        let path = WindowsPath::new(base.as_bytes());
        let below = below.map(|text| text.as_bytes());
        let wanted = below.ok_or(Untargeted::Base);
        let target = target_below(rt.alloc(), path, b"a");
        assert_eq!(rt;
            target
                .as_ref()
                .map(|path| path.as_path().as_bytes())
                .map_err(|e| *e),
            wanted
        );
        let target = text_target_below(rt.alloc(), Utf8WindowsPath::new(base), "a");
        assert_eq!(rt;
            target
                .as_ref()
                .map(|path| path.as_path().as_str().as_bytes())
                .map_err(|e| *e),
            wanted
        );
        let target = typed_target_below(rt.alloc(), TypedPath::windows(base.as_bytes()), b"a");
        assert_eq!(rt;
            target.as_ref().map(|path| path.as_bytes()).map_err(|e| *e),
            wanted
        );
        assert_eq!(rt; targets(rt.alloc(), path, &[b"a", b"b"])?.len(), 2);
        let unpacking = unpacked_below(rt.alloc(), path, &[b"a"]);
        assert_eq!(rt;
            unpacking
                .as_ref()
                .map(|all| all.targets.len())
                .map_err(|e| *e),
            wanted.map(|_| 1)
        );
        let file = served_below(rt.alloc(), path, b"/a");
        assert_eq!(rt;
            file.as_ref()
                .map(|path| path.as_path().as_bytes())
                .map_err(|e| *e),
            below.ok_or(Unserved::Root)
        );
    }
    Ok(())
}

#[test]
fn ignored_paths(rt: HostRuntime) -> Result<(), Fail> {
    let rules = [
        Rule::new(b"target/"),
        Rule::new(b"a/*/c"),
        Rule::new(b"!a/keep/c"),
        Rule::new(b"/x"),
        Rule::new(b"*.o"),
        Rule::new(b"c:/tmp/*"),
    ];
    let rows: [(&[u8], bool, bool, bool); 16] = [
        (b"target", true, true, true),
        (b"target", false, false, false),
        (b"./target//", true, false, false),
        (b"target//.", true, true, true),
        (b"a/b/c", false, true, true),
        (b"a//b/./c", false, true, true),
        (br"a\b/c", false, false, true),
        (b"a/keep/c", false, false, false),
        (br"a\\keep/c", false, false, false),
        (b"a/../c", false, false, false),
        (b"a/b/c/d", false, false, false),
        (b"x", false, false, false),
        (br"\x", false, false, true),
        (b"main.o", false, false, false),
        (b"*.o", false, true, true),
        (br"C:\tmp\1", false, false, true),
    ];
    for (path, is_folder, on_unix, on_windows) in rows {
        assert_eq!(rt; is_ignored(&rules, UnixPath::new(path), is_folder), on_unix);
        assert_eq!(rt;
            is_ignored(&rules, WindowsPath::new(path), is_folder),
            on_windows
        );
    }
    Ok(())
}

/// The files of a tree on Unix, in no order.
const ON_UNIX: &[(&[u8], &[u8])] = &[
    (b"/a/./c.txt", b"two"),
    (b"/a/d/e", b"three"),
    (b"/x/../a/b.txt", b"one"),
];

const FOUND_ON_UNIX: &[(&[u8], Option<&[u8]>)] = &[
    (b"/a/b.txt", Some(b"one")),
    (b"/a/./b.txt", Some(b"one")),
    (b"/x/../a//b.txt", Some(b"one")),
    (b"/../a/b.txt/", Some(b"one")),
    (b"/a/B.txt", None),
    (b"a/b.txt", None),
    (b"/a", None),
    (br"/a\b.txt", None),
    (b"/a/d/../d/e", Some(b"three")),
];

/// The files of a tree on Windows.
const ON_WINDOWS: &[(&[u8], &[u8])] = &[(br"C:\a/b", b"one"), (br"\\server\share\b", b"two")];

const FOUND_ON_WINDOWS: &[(&[u8], Option<&[u8]>)] = &[
    (br"C:/a\.\b", Some(b"one")),
    (br"c:\x\..\a\b", Some(b"one")),
    (br"C:\A\b", None),
    (b"C:a/b", None),
    (b"//server/share/b", Some(b"two")),
];

/// Returns a tree with these files.
fn tree_of<T: Encoding>(alloc: Global, files: &[(&[u8], &[u8])]) -> Result<Tree<T>, AllocError> {
    let mut tree = Tree::new(alloc);
    for (path, bytes) in files {
        tree.write(Path::new(path), bytes)?;
    }
    Ok(tree)
}

/// Whether each path finds the bytes in its row.
fn finds_all<T: Encoding>(
    tree: &Tree<T>,
    rows: &[(&[u8], Option<&[u8]>)],
) -> Result<bool, AllocError> {
    for (path, wanted) in rows {
        if tree.read(Path::new(path))? != *wanted {
            return Ok(false);
        }
    }
    Ok(true)
}

#[test]
fn virtual_tree(rt: HostRuntime) -> Result<(), Fail> {
    let windows = tree_of::<WindowsEncoding>(rt.alloc(), ON_WINDOWS)?;
    assert!(rt; finds_all(&windows, FOUND_ON_WINDOWS)?);
    let mut tree = tree_of::<UnixEncoding>(rt.alloc(), ON_UNIX)?;
    assert!(rt; finds_all(&tree, FOUND_ON_UNIX)?);
    let children = tree.children(UnixPath::new(b"/a/d/.."))?;
    assert_eq!(rt; children.len(), 2);
    for (child, wanted) in children.iter().zip([b"/a/b.txt", b"/a/c.txt"]) {
        assert_eq!(rt; child.as_bytes(), wanted.as_slice());
    }
    drop(children);
    let rows: [(&[u8], &[u8], bool, usize); 4] = [
        (b"/a/b.txt", b"/a/./b.txt", true, 3),
        (b"/a/none", b"/b", false, 3),
        (b"/a/b.txt", b"/b", true, 3),
        (b"/a/d/e", b"/x/../b", true, 2),
    ];
    for (from, to, moved, len) in rows {
        let from = UnixPath::new(from);
        assert_eq!(rt; tree.rename(from, UnixPath::new(to))?, moved);
        assert_eq!(rt; tree.len(), len);
    }
    let b = UnixPath::new(b"/./b");
    assert_eq!(rt; tree.read(b)?, Some(b"three".as_slice()));
    assert!(rt; tree.remove(b)?.is_some());
    assert!(rt; tree.remove(b)?.is_none());
    assert_eq!(rt; tree.len(), 1);
    Ok(())
}

#[test]
fn notes_at_paths(rt: HostRuntime) -> Result<(), Fail> {
    const ROWS: &[(&[u8], &[u8], bool)] = &[
        (b"C:/a", br"c:\a\.", true),
        (br"\\s\h\a", b"//s/h//a", true),
        (b"C:a", br"C:\a", false),
    ];
    for &(path, other, alike) in ROWS {
        let mut notes = BTreeMap::new(rt.alloc());
        let key = WindowsPathBuf::from_bytes(rt.alloc(), path)?;
        assert!(rt; note(&mut notes, key, 7).is_ok_and(|before| before.is_none()));
        let found = noted(&notes, &WindowsPathBuf::from_bytes(rt.alloc(), other)?);
        assert_eq!(rt; found.is_some(), alike);
        assert_eq!(rt;
            are_alike(WindowsPath::new(path), WindowsPath::new(other)),
            alike
        );
    }
    Ok(())
}

/// Whether a manifest whose last entry is `entry` is rewritten, and that entry as `wanted`.
fn is_rewritten<T: Encoding, U: Encoding>(alloc: Global, entry: &[u8], wanted: &[u8]) -> bool {
    let made = rewritten::<T, U>(alloc, &[b"first", entry]).ok();
    made.is_some_and(|paths| {
        paths
            .last()
            .is_some_and(|path| path.as_path().as_bytes() == wanted)
    })
}

#[test]
fn manifests(rt: HostRuntime) {
    const ON_WINDOWS: &[(&[u8], &[u8])] = &[(b"/tmp/foo.txt", br"\tmp\foo.txt"), (b"a/b", br"a\b")];
    for &(entry, wanted) in ON_WINDOWS {
        assert!(rt; is_rewritten::<UnixEncoding, WindowsEncoding>(rt.alloc(), entry, wanted));
        let made = entry_on_windows(rt.alloc(), UnixPath::new(entry)).ok();
        assert!(rt; made.is_some_and(|path| path.as_path().as_bytes() == wanted));
    }
    const ON_UNIX: &[(&[u8], &[u8])] = &[
        (br"\\s\h\x", b"/x"),
        (br"C:\x", b"/x"),
        (br"a\b", b"a/b"),
    ];
    for &(entry, wanted) in ON_UNIX {
        assert!(rt; is_rewritten::<WindowsEncoding, UnixEncoding>(rt.alloc(), entry, wanted));
    }
    const REFUSED: &[(&str, CheckedPathError)] = &[
        ("/tmp/|invalid|/foo.txt", CheckedPathError::InvalidFilename),
        ("/tmp/aux.h", CheckedPathError::InvalidFilename),
        ("/C:", CheckedPathError::UnexpectedPrefix),
    ];
    for &(entry, fault) in REFUSED {
        let made = rewritten::<UnixEncoding, WindowsEncoding>(
            rt.alloc(),
            &[b"first", entry.as_bytes()],
        );
        assert!(rt; made.err() == Some(PathError::Checked(fault)));
        let made = rewritten_texts::<Utf8UnixEncoding, Utf8WindowsEncoding>(
            rt.alloc(),
            &["first", entry],
        );
        assert!(rt; made.err() == Some(PathError::Checked(fault)));
    }
}

/// A directory, a folder and a path, and where the path leads or why it is not accepted.
type Configured = (
    &'static [u8],
    &'static [u8],
    &'static [u8],
    Result<&'static [u8], Unconfigured>,
);

fn configured_rows<T: Encoding>(alloc: Global, rows: &[Configured]) -> Option<usize> {
    'rows: for (at, (directory, folder, path, wanted)) in rows.iter().enumerate() {
        let made = configured::<T>(
            alloc,
            Path::new(directory),
            Path::new(folder),
            Path::new(path),
        );
        let bytes = made.as_ref().map(|made| made.as_path().as_bytes());
        if bytes.map_err(|e| *e) != *wanted {
            return Some(at);
        }
    }
    None
}

#[test]
fn configured_paths(rt: HostRuntime) {
    const UNIX: &[Configured] = &[
        (b"/etc/app", b"data", b"data/a", Ok(b"/etc/app/data/a")),
        (b"/etc/app", b".", b"a", Ok(b"/etc/app/a")),
        (
            b"/etc/app",
            b"../data",
            b"../data/./a",
            Ok(b"/etc/app/../data/./a"),
        ),
        (b"/etc/app", b"/srv", b"/srv/a", Ok(b"/srv/a")),
        (
            b"/etc/app",
            b"data",
            b"data/../a",
            Err(Unconfigured::Outside),
        ),
        (
            b"/etc/app",
            b"data",
            b"/etc/app/data/a",
            Err(Unconfigured::Outside),
        ),
        (b"app", b"data", b"data/a", Err(Unconfigured::Directory)),
        (b"/srv", b"/srv", b"/srv/..\0/a", Err(Unconfigured::Name)),
    ];
    const WINDOWS: &[Configured] = &[
        (br"C:\app", b"data", br"data\a", Ok(br"C:\app\data\a")),
        (br"C:\app", br"d:\data", br"D:\data\a", Ok(br"D:\data\a")),
        (
            br"C:\app",
            b"data",
            br"data\..\a",
            Err(Unconfigured::Outside),
        ),
        (br"C:\app", b"data", b"D:a", Err(Unconfigured::Outside)),
        (br"\app", b"data", br"data\a", Err(Unconfigured::Directory)),
        (
            br"C:\srv",
            br"C:\srv",
            br"C:\srv\con",
            Err(Unconfigured::Name),
        ),
        (
            br"\\server\",
            b"data",
            br"data\a",
            Err(Unconfigured::Directory),
        ),
    ];
    assert_eq!(rt; configured_rows::<UnixEncoding>(rt.alloc(), UNIX), None);
    assert_eq!(rt;
        configured_rows::<WindowsEncoding>(rt.alloc(), WINDOWS),
        None
    );
}

#[test]
fn texts_of_errors(rt: HostRuntime) -> Result<(), Fail> {
    let alloc = rt.alloc();
    let rows = [
        (
            Unserved::Traversal.to_string(alloc)?,
            "the path leads out of the root",
        ),
        (Unserved::Absolute.to_string(alloc)?, "the path is absolute"),
        (
            Unserved::ZeroByte.to_string(alloc)?,
            "a name holds the byte 00",
        ),
        (
            Unserved::BadName.to_string(alloc)?,
            "a name holds a byte that no name may have",
        ),
        (
            Unserved::Device.to_string(alloc)?,
            "a name stands for a device",
        ),
        (
            Unserved::Root.to_string(alloc)?,
            "the root does not keep its prefix",
        ),
        (Unserved::OutOfMemory.to_string(alloc)?, "out of memory"),
        (
            Untargeted::Base.to_string(alloc)?,
            "the base does not keep its prefix",
        ),
        (Untargeted::OutOfMemory.to_string(alloc)?, "out of memory"),
        (
            Unconfigured::Directory.to_string(alloc)?,
            "the directory is not absolute, or does not keep its prefix",
        ),
        (
            Unconfigured::Outside.to_string(alloc)?,
            "the path is not within the folder",
        ),
        (
            Unconfigured::Name.to_string(alloc)?,
            "a name of the path is not allowed",
        ),
        (Unconfigured::OutOfMemory.to_string(alloc)?, "out of memory"),
    ];
    for (printed, wanted) in rows {
        assert_eq!(rt; printed.as_str(), wanted);
    }
    Ok(())
}

#[test]
fn shipped_logs(rt: HostRuntime) -> Result<(), Fail> {
    use CheckedPathError::{InvalidFilename, PathTraversalAttack, UnexpectedRoot};
    let alloc = rt.alloc();
    let rows: [(&[u8], Result<&[u8], CheckedPathError>); 10] = [
        (
            br"C:\inetpub\logs\u.log",
            Ok(b"/logs/2026-11-28/inetpub/logs/u.log"),
        ),
        (br"inetpub/u.log", Ok(b"/logs/2026-11-28/inetpub/u.log")),
        (br"\\srv\share\a\u.log", Ok(b"/logs/2026-11-28/a/u.log")),
        (br"C:\a\..\u.log", Ok(b"/logs/2026-11-28/a/../u.log")),
        (br"C:\con", Ok(b"/logs/2026-11-28/con")),
        (b"C:u.log", Ok(b"/logs/2026-11-28/C:/u.log")),
        (b"", Ok(b"/logs/2026-11-28")),
        (br"C:\..\u.log", Err(PathTraversalAttack)),
        (br"..\..\etc\u.log", Err(PathTraversalAttack)),
        (b"C:\\a\0b", Err(InvalidFilename)),
    ];
    let folder = day_folder(alloc, UnixPath::new(b"/logs"), b"2026-11-28")?;
    for (event, wanted) in rows {
        let file = shipped(alloc, folder.as_path(), WindowsPath::new(event));
        match (&file, wanted) {
            (Ok(file), Ok(wanted)) => assert_eq!(rt; file.as_path().as_bytes(), wanted),
            (Err(PathError::Checked(fault)), Err(wanted)) => assert_eq!(rt; *fault, wanted),
            _ => assert!(rt; false, "another outcome"),
        }
    }
    for day in [b"/etc".as_slice(), b"/"] {
        let refused = day_folder(alloc, UnixPath::new(b"/logs"), day);
        assert!(rt; matches!(&refused, Err(PathError::Checked(UnexpectedRoot))));
    }
    Ok(())
}

#[test]
fn entries_on_both(rt: HostRuntime) {
    const MADE: &[(&[u8], &[u8], &[u8])] = &[
        (b"a/b.txt", b"/out/a/b.txt", br"C:\out\a/b.txt"),
        (b"a/../b", b"/out/a/../b", br"C:\out\a/../b"),
        (b"", b"/out", br"C:\out"),
    ];
    for &(name, on_unix, on_windows) in MADE {
        let unix = target_on_both(rt.alloc(), UnixPath::new(b"/out"), name);
        assert!(rt; unix.is_ok_and(|path| path.as_path().as_bytes() == on_unix));
        let windows = target_on_both(rt.alloc(), WindowsPath::new(br"C:\out"), name);
        assert!(rt; windows.is_ok_and(|path| path.as_path().as_bytes() == on_windows));
    }
    const REFUSED: &[(&[u8], JoinError)] = &[
        (b"a/nul .txt", JoinError::Portable(PortableError::Device)),
        (br"a\b", JoinError::Portable(PortableError::Forbidden)),
        (b"x./y", JoinError::Portable(PortableError::Ending)),
        (b"/a", JoinError::Checked(CheckedPathError::UnexpectedRoot)),
        (
            b"a/../..",
            JoinError::Checked(CheckedPathError::PathTraversalAttack),
        ),
    ];
    for &(name, wanted) in REFUSED {
        let unix = target_on_both(rt.alloc(), UnixPath::new(b"/out"), name);
        assert!(rt; unix.err() == Some(wanted));
        let windows = target_on_both(rt.alloc(), WindowsPath::new(br"C:\out"), name);
        assert!(rt; windows.err() == Some(wanted));
    }
    let all = targets_on_both(rt.alloc(), UnixPath::new(b"/out"), &[b"a", b"b/c"]);
    assert!(rt; all.is_ok_and(|targets| targets.len() == 2));
}

#[test]
fn folders_links_and_places(rt: HostRuntime) -> Result<(), Fail> {
    let alloc = rt.alloc();
    let site = UnixPath::new(b"/site");
    let folder = UnixPath::new(b"/site/a");
    let page = UnixPath::new(b"/site/b/../c.html");
    let made: [(UnixPathBuf, &[u8]); 6] = [
        (backup(alloc, page)?, b"/site/b/../c.html.bak"),
        (
            filed_in(alloc, site, UnixPath::new(b"in"), UnixPath::new(b"a.txt"))?,
            b"/site/in/a.txt",
        ),
        (nested(alloc, site, &[b"a", b"b"])?, b"/site/a/b"),
        (
            day_log(alloc, site, b"2026-11-28", WindowsPath::new(br"C:\u.log"))?,
            b"/site/2026-11-28/u.log",
        ),
        (without_detours(alloc, page)?, b"/site/c.html"),
        (read_from(alloc, site, UnixPath::new(b"a/../b"))?, b"b"),
    ];
    for (path, wanted) in made {
        assert_eq!(rt; path.as_path().as_bytes(), wanted);
    }
    let found = link(alloc, folder, page)?;
    assert_eq!(rt;
        found.as_ref().map(|link| link.as_path().as_bytes()),
        Some(b"../c.html".as_slice())
    );
    let drive = WindowsPath::new(br"C:\");
    let mounted = WindowsPath::new(br"C:\site\.\a");
    let found = link_on_windows(alloc, mounted, WindowsPath::new(br"C:\site\c"))?;
    assert_eq!(rt;
        found.as_ref().map(|link| link.as_path().as_bytes()),
        Some(br"..\c".as_slice())
    );
    let found = tidy_folder(alloc, mounted)?;
    assert_eq!(rt;
        found.as_ref().map(|tidy| tidy.as_path().as_bytes()),
        Some(br"C:\site\a".as_slice())
    );
    let shared = shared_folder(folder, page);
    assert_eq!(rt;
        shared.map(|shared| shared.as_bytes()),
        Some(b"/site".as_slice())
    );
    assert_eq!(rt;
        shown(WindowsPath::new(br"\\?\C:\a")).as_bytes(),
        br"C:\a".as_slice()
    );
    let told = [
        (always_lies_in(folder, site), true),
        (always_lies_in(site, folder), false),
        (has_no_link(alloc, folder, UnixPath::new(b"a"))?, true),
        (has_no_link(alloc, folder, page)?, false),
        (
            lead_alike(alloc, site, page, UnixPath::new(b"/site/c.html"))?,
            true,
        ),
        (lead_alike(alloc, site, page, folder)?, false),
        (is_mounted_in(drive, drive, mounted), true),
        (is_mounted_in(drive, mounted, drive), false),
        (surely_fits(folder, b"b", 11), true),
        (surely_fits(folder, b"b", 10), false),
        (tidy_folder(alloc, WindowsPath::new(b"/"))?.is_none(), true),
    ];
    for (answer, wanted) in told {
        assert_eq!(rt; answer, wanted);
    }
    Ok(())
}

#[test]
fn counted_names(rt: HostRuntime) -> Result<(), Fail> {
    let alloc = rt.alloc();
    let names: [&[u8]; 5] = [b"a/bc", b"ab/c", b"a//bc/.", b"/a/bc", b"abc"];
    let rows: [(&[u8], Option<usize>); 5] = [
        (b"./a", None),
        (b"a/bc", Some(2)),
        (b"ab//c", Some(1)),
        (b"/a/./bc", Some(1)),
        (b"abc", Some(1)),
    ];
    let counts = counted::<UnixEncoding, RandomState>(alloc, RandomState::new(&rt)?, &names)?;
    assert_eq!(rt; counts.len(), 4);
    for (name, wanted) in rows {
        let key = Key::new(UnixPathBuf::from_bytes(alloc, name)?);
        assert_eq!(rt; counts.get(&key).copied(), wanted);
    }
    Ok(())
}
