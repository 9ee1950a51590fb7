//! Calls that need much memory, or none, with enough of it: each succeeds.

use crate::conversions::{absolutizes_as, converts_as};
use crate::owned::joins_as;
use crate::paths::normalizes_as;
use crate::support::repeated;
use std::alloc::{AllocError, Global};
use std::test::Fail;
use typed_path::{
    CheckedPathError, Encoding, End, Path, PathBuf, PathOp, PlatformEncoding, Reply, UnixEncoding,
    UnixPath, UnixPathBuf, WindowsEncoding, WindowsPath, WindowsPathBuf, read_ends, run_ops,
};

/// Whether what is made of the empty path is empty, and a name joined to it is that name.
fn is_made_of_nothing<T: Encoding>(alloc: Global) -> Result<bool, AllocError> {
    let empty = Path::<T>::new(b"");
    let made: [PathBuf<T>; 7] = [
        PathBuf::from_bytes(alloc, b"")?.clone()?,
        PathBuf::new(alloc).clone()?,
        empty.to_path_buf(alloc)?,
        empty.join(alloc, empty)?,
        empty.normalize(alloc)?,
        empty.with_extension(alloc, b"a")?,
        empty.with_encoding::<T>(alloc)?,
    ];
    for path in made {
        if !path.as_path().as_bytes().is_empty() {
            return Ok(false);
        }
    }
    Ok(joins_as::<T>(alloc, b"", b"", Ok(b""))? && joins_as::<T>(alloc, b"", b"a", Ok(b"a"))?)
}

#[test]
fn empty_paths(rt: HostRuntime) -> Result<(), Fail> {
    assert!(rt; is_made_of_nothing::<UnixEncoding>(rt.alloc())?);
    assert!(rt; is_made_of_nothing::<WindowsEncoding>(rt.alloc())?);
    assert!(rt; is_made_of_nothing::<PlatformEncoding>(rt.alloc())?);
    Ok(())
}

/// A base, what the pushed path is a repetition of and how often, what the result begins with, and
/// what follows in it as often.
type Push = (
    &'static [u8],
    &'static [u8],
    usize,
    &'static [u8],
    &'static [u8],
);

/// Whether a long path is pushed and joined as a row says, checked and not, with a capacity of no
/// more than twice both paths.
fn pushes_long<T: Encoding>(alloc: Global, row: Push) -> Result<bool, AllocError> {
    let (base, text, times, begin, wanted) = row;
    let path = repeated(alloc, b"", text, times, b"")?;
    let path = Path::<T>::new(path.as_slice());
    let wanted = repeated(alloc, begin, wanted, times, b"")?;
    let mut pushed = PathBuf::new(alloc);
    pushed.push(Path::new(base))?;
    pushed.push(path)?;
    let joined = Path::new(base).join(alloc, path)?;
    let room = base.len() + path.as_bytes().len() + 1;
    Ok(
        pushed.capacity() / 2 <= room
            && joined.capacity() / 2 <= room
            && pushed.as_path().as_bytes() == wanted.as_slice()
            && pushed.clone()?.as_path().as_bytes() == wanted.as_slice()
            && joined.as_path().as_bytes() == wanted.as_slice()
            && joins_as::<T>(alloc, base, path.as_bytes(), Ok(wanted.as_slice()))?,
    )
}

#[test]
fn long_pushes(rt: HostRuntime) -> Result<(), Fail> {
    let unix: [Push; 2] = [
        (b"", b"name/", 2_000, b"", b"name/"),
        (b"etc", b"name/", 100, b"etc/", b"name/"),
    ];
    for row in unix {
        assert!(rt;
            pushes_long::<UnixEncoding>(rt.alloc(), row)?,
            "onto {:?}",
            row.0
        );
    }
    let windows: [Push; 7] = [
        (b"", br"name\", 2_000, b"", br"name\"),
        (b"etc", b"name/", 100, br"etc\", b"name/"),
        (br"\\?\C:\x", b"name/", 2_000, br"\\?\C:\x", br"\name"),
        (br"\\?\C:\x/y\", b"name/", 2_000, br"\\?\C:\x/y", br"\name"),
        (br"\\?\UNC\s\h", br"a\..\", 2_000, br"\\?\UNC\s\h", b""),
        (br"\\?\x\.\", br"a\.\", 2_000, br"\\?\x\.", br"\a"),
        (b"//?/x//y", br"a\b\", 17, br"//?/x\y", br"\a\b"),
    ];
    for row in windows {
        assert!(rt;
            pushes_long::<WindowsEncoding>(rt.alloc(), row)?,
            "onto {:?}",
            row.0
        );
    }
    Ok(())
}

#[test]
fn long_normal_texts(rt: HostRuntime) -> Result<(), Fail> {
    let alloc = rt.alloc();
    for times in [17, 70] {
        let path = repeated(alloc, br"\\?\x", br"\a/b", times, br"\c\..")?;
        let wanted = repeated(alloc, br"\\?\x", br"\a\b", times, b"")?;
        assert!(rt; normalizes_as::<WindowsEncoding>(alloc, path.as_slice(), wanted.as_slice())?);
    }
    const ROWS: &[(&[u8], &[u8], &[u8], &[u8])] = &[
        (br"\\?\x", br"\a/b\c\..", br"\\?\x", br"\a\b"),
        (br"\\?\C:\a\..", b"", br"\\?\C:", b""),
        (br"\\s\h", br"\a\..\b\.\..\", br"\\s\h", b""),
        (br"\..\a\..", br"\c", b"", br"\c"),
    ];
    let name = repeated(alloc, br"\", b"name", 2_500, b"")?;
    for &(begin, end, wanted_begin, wanted_end) in ROWS {
        let path = repeated(alloc, begin, name.as_slice(), 10, end)?;
        let wanted = repeated(alloc, wanted_begin, name.as_slice(), 10, wanted_end)?;
        assert!(rt; normalizes_as::<WindowsEncoding>(alloc, path.as_slice(), wanted.as_slice())?);
    }
    let path = repeated(alloc, b"/..", b"//a/../name/.", 8_000, b"/a/..")?;
    let wanted = repeated(alloc, b"", b"/name", 8_000, b"")?;
    assert!(rt; normalizes_as::<UnixEncoding>(alloc, path.as_slice(), wanted.as_slice())?);
    Ok(())
}

/// What a text begins with, what follows and how often, and what the text ends with.
type Text = (&'static [u8], &'static [u8], usize, &'static [u8]);

/// Returns the text of a row.
fn written(alloc: Global, (begin, text, times, end): Text) -> Result<Vec<u8>, AllocError> {
    repeated(alloc, begin, text, times, end)
}

/// Whether the clean path of a long path is as a row says, with a capacity of at most two bytes
/// more than the path has.
fn cleans_long<T: Encoding>(alloc: Global, path: Text, wanted: Text) -> Result<bool, AllocError> {
    let (path, wanted) = (written(alloc, path)?, written(alloc, wanted)?);
    let clean = Path::<T>::new(path.as_slice()).clean(alloc)?;
    Ok(clean.capacity() <= path.len() + 2 && clean.as_path().as_bytes() == wanted.as_slice())
}

#[test]
fn long_clean_texts(rt: HostRuntime) -> Result<(), Fail> {
    let unix: [(Text, Text); 2] = [
        (
            (b"/..", b"//name/.", 1_000, b"/a/.."),
            (b"", b"/name", 1_000, b""),
        ),
        ((b"..", b"/..", 2_000, b"/."), (b"..", b"/..", 2_000, b"")),
    ];
    for (path, wanted) in unix {
        assert!(rt;
            cleans_long::<UnixEncoding>(rt.alloc(), path, wanted)?,
            "{:?}",
            path.1
        );
    }
    let windows: [(Text, Text); 3] = [
        (
            (b"C:/..", br"/name\.", 1_000, b""),
            (b"C:", br"\name", 1_000, b""),
        ),
        (
            (br"\\?\C:", br"\a/b\c\..", 1_000, b""),
            (br"\\?\C:", br"\a/b", 1_000, b""),
        ),
        (
            (br"x\..\C:", br"\name", 1_000, b""),
            (br".\C:", br"\name", 1_000, b""),
        ),
    ];
    for (path, wanted) in windows {
        assert!(rt;
            cleans_long::<WindowsEncoding>(rt.alloc(), path, wanted)?,
            "{:?}",
            path.1
        );
    }
    Ok(())
}

/// Whether a path leads from a base to another as a row says, with a capacity of at most two bytes
/// more than the longer of the path and the other.
fn leads_long<T: Encoding>(
    alloc: Global,
    (base, path, wanted): (Text, Text, Text),
) -> Result<bool, AllocError> {
    let (base, path) = (written(alloc, base)?, written(alloc, path)?);
    let wanted = written(alloc, wanted)?;
    let found = Path::<T>::new(path.as_slice()).relative_to(alloc, Path::new(base.as_slice()))?;
    let room = path.len().max(wanted.len()) + 2;
    Ok(found.is_some_and(|found| {
        found.capacity() <= room && found.as_path().as_bytes() == wanted.as_slice()
    }))
}

#[test]
fn long_relative_paths(rt: HostRuntime) -> Result<(), Fail> {
    let unix: [(Text, Text, Text); 3] = [
        (
            (b"a/b", b"", 0, b""),
            (b"a", b"/name", 2_000, b""),
            (b"..", b"/name", 2_000, b""),
        ),
        (
            (b"a", b"/name", 2_000, b""),
            (b"b", b"", 0, b""),
            (b"..", b"/..", 2_000, b"/b"),
        ),
        (
            (b"/b/..", b"", 0, b""),
            (b"/.", b"/name", 2_000, b""),
            (b"", b"name/", 1_999, b"name"),
        ),
    ];
    for row in unix {
        assert!(rt; leads_long::<UnixEncoding>(rt.alloc(), row)?, "{:?}", row.2);
    }
    let windows: [(Text, Text, Text); 2] = [
        (
            (br"C:\a\b", b"", 0, b""),
            (br"c:\a\x", b"/name", 2_000, b""),
            (br"..\x", br"\name", 2_000, b""),
        ),
        (
            (br"\\?\C:\", b"", 0, b""),
            (br"\\?\C:\y\..", br"\name", 2_000, b""),
            (b"", br"name\", 1_999, b"name"),
        ),
    ];
    for row in windows {
        assert!(rt;
            leads_long::<WindowsEncoding>(rt.alloc(), row)?,
            "{:?}",
            row.2
        );
    }
    Ok(())
}

#[test]
fn long_conversions(rt: HostRuntime) -> Result<(), Fail> {
    let alloc = rt.alloc();
    // What the path begins with, what follows and how often; both of the result; whether it is
    // refused.
    const ROWS: &[(&[u8], &[u8], usize, &[u8], &[u8], bool)] = &[
        (b"", b"/name", 2_000, b"", br"\name", false),
        (b"a", b"/name", 2_000, b"a", br"\name", false),
        (br"\\?\C:", b"/name", 2_000, br"\\?\C:", br"\name", true),
        (br"\\?\C:\x", br"/a\b", 70, br"\\?\C:\x", br"\a\b", true),
        (br"\\?\C:\x", br"/a\..", 70, br"\\?\C:\x", b"", true),
    ];
    for &(begin, text, times, wanted_begin, wanted, refused) in ROWS {
        let path = repeated(alloc, begin, text, times, b"")?;
        let wanted = repeated(alloc, wanted_begin, wanted, times, b"")?;
        let checked = if refused {
            Err(CheckedPathError::UnexpectedPrefix)
        } else {
            Ok(wanted.as_slice())
        };
        let row = (path.as_slice(), wanted.as_slice(), checked);
        assert!(rt;
            converts_as::<UnixEncoding, WindowsEncoding>(alloc, row)?,
            "from {begin:?}"
        );
    }
    let wanted = repeated(alloc, b"", b"/name", 2_000, b"")?;
    const BEGINS: &[&[u8]] = &[b"", b"C:", br"\\.\COM1", br"\\?\UNC\s\h"];
    for &begin in BEGINS {
        let path = repeated(alloc, begin, br"\name", 2_000, b"")?;
        let row = (path.as_slice(), wanted.as_slice(), Ok(wanted.as_slice()));
        assert!(rt;
            converts_as::<WindowsEncoding, UnixEncoding>(alloc, row)?,
            "from {begin:?}"
        );
    }
    Ok(())
}

#[test]
fn long_directories(rt: HostRuntime) -> Result<(), Fail> {
    let alloc = rt.alloc();
    let directory = repeated(alloc, b"", b"/name", 2_000, b"")?;
    let directory = directory.as_slice();
    let wanted = repeated(alloc, b"", b"/name", 2_000, b"/b")?;
    let wanted = Some(wanted.as_slice());
    assert!(rt; absolutizes_as::<UnixEncoding>(alloc, directory, b"a/../b", wanted));
    assert!(rt; absolutizes_as::<PlatformEncoding>(alloc, directory, b"a/../b", wanted));
    assert!(rt; absolutizes_as::<WindowsEncoding>(alloc, directory, b"a", None));
    let share = repeated(alloc, br"\\s\h", b"/name", 2_000, b"")?;
    let wanted = repeated(alloc, br"\\s\h", br"\name", 2_000, br"\b")?;
    let wanted = Some(wanted.as_slice());
    assert!(rt; absolutizes_as::<WindowsEncoding>(alloc, share.as_slice(), br"a\..\b", wanted));
    Ok(())
}

#[test]
fn long_lists(rt: HostRuntime) -> Result<(), Fail> {
    let alloc = rt.alloc();
    let mut path = UnixPathBuf::new(alloc);
    let mut replies = Vec::new(alloc);
    run_ops(&mut path, &[PathOp::Push(b"name"); 100], &mut replies)?;
    let wanted = repeated(alloc, b"name", b"/name", 99, b"")?;
    assert_eq!(rt; path.as_path().as_bytes(), wanted.as_slice());
    assert_eq!(rt; replies.as_slice(), [Reply::Done; 100].as_slice());

    let mut components = path.as_path().components();
    let mut answers = Vec::new(alloc);
    read_ends(&mut components, &[End::Back; 90], &mut answers)?;
    read_ends(&mut components, &[End::Front; 100], &mut answers)?;
    assert_eq!(rt; answers.len(), 190);
    for (at, answer) in answers.iter().enumerate() {
        let wanted = if at < 100 {
            Some(b"name".as_slice())
        } else {
            None
        };
        assert!(rt; answer.map(|piece| piece.text) == wanted, "answer {at}");
    }

    let made = UnixPathBuf::from_iter(alloc, [UnixPath::new(b"name"); 250])?;
    let wanted = repeated(alloc, b"name", b"/name", 249, b"")?;
    assert_eq!(rt; made.as_path().as_bytes(), wanted.as_slice());
    let mut extended = WindowsPathBuf::from_bytes(alloc, br"\\?\C:")?;
    extended.extend([WindowsPath::new(br"name\a\.."); 100])?;
    let wanted = repeated(alloc, br"\\?\C:", br"\name", 100, b"")?;
    assert_eq!(rt; extended.as_path().as_bytes(), wanted.as_slice());
    Ok(())
}
