//! Paths as keys of maps, what they feed a hasher, and their order: rows of known answers.

use crate::support::{Recorder, recorded};
use std::alloc::{AllocError, Global};
use std::cmp::Ordering;
use std::collections::{BTreeMap, BTreeSet, HashMap, HashSet};
use std::hash::{DefaultHasher, Hash, Hasher};
use std::test::Fail;
use typed_path::{
    Encoding, Key, Path, PathBuf, Piece, PieceKind, UnixEncoding, UnixPath, WindowsComponents,
    WindowsEncoding, WindowsPath, WindowsPathBuf,
};

/// Returns what a recorder makes of texts, each fed by one write, and a number after them.
fn recorded_words(texts: &[&[u8]], count: usize) -> u64 {
    let mut state = Recorder::new();
    for text in texts {
        state.write(text);
    }
    state.write_usize(count);
    state.finish()
}

#[test]
fn words_of_paths(rt: HostRuntime) {
    let unix: [(&[u8], u64); 5] = [
        (b"/a/b", recorded_words(&[b"a", b"b"], 2)),
        (b"./a//", recorded_words(&[b".", b"a"], 2)),
        (b"", recorded_words(&[], 0)),
        (b"/", recorded_words(&[], 0)),
        (b"../name", recorded_words(&[b"..", b"name"], 6)),
    ];
    for (path, wanted) in unix {
        assert_eq!(rt; recorded(&UnixPath::new(path)), wanted);
    }
    let windows: [(&[u8], u64); 2] = [
        (br"\a/b", recorded_words(&[b"a", b"b"], 2)),
        (br".\a\..", recorded_words(&[b".", b"a", b".."], 4)),
    ];
    for (path, wanted) in windows {
        assert_eq!(rt; recorded(&WindowsPath::new(path)), wanted);
    }
    assert!(rt; recorded_words(&[b"ab"], 2) != recorded_words(&[b"a", b"b"], 2));
    assert!(rt; recorded_words(&[], 2) != recorded_words(&[b"a", b"b"], 2));
}

#[test]
fn equal_windows_paths(rt: HostRuntime) -> Result<(), Fail> {
    const ROWS: &[(&[u8], &[u8], bool)] = &[
        (b"//?/x/a", br"\\?\x\a", true),
        (br"c:\a", br"C:\a", true),
        (b"C:/a", br"c:\a\.", true),
        (br"a\\b", b"a/./b/", true),
        (br"\\s\h", b"//s/h", true),
        (br"\\?\C:\a", br"C:\a", false),
        (br"C:\a", br"C:\A", false),
        (b"C:a", br"C:\a", false),
        (b"", b".", false),
    ];
    for &(path, other, same) in ROWS {
        let (one, two) = (WindowsPath::new(path), WindowsPath::new(other));
        assert_eq!(rt; one == two, same);
        assert_eq!(rt; one.eq_bytes(other), same);
        assert_eq!(rt; one.cmp(&two) == Ordering::Equal, same);
        assert_eq!(rt; one.cmp_bytes(other), one.cmp(&two));
        assert!(rt; !same || recorded(&one) == recorded(&two));
        let owned = WindowsPathBuf::from_bytes(rt.alloc(), path)?;
        let owned_other = WindowsPathBuf::from_bytes(rt.alloc(), other)?;
        assert_eq!(rt; owned == owned_other, same);
        assert_eq!(rt; recorded(&owned), recorded(&one));
    }
    Ok(())
}

/// Whether each path of a list is less than all that follow it, borrowed and owned.
fn are_in_order<T: Encoding>(rt: HostRuntime, paths: &[&[u8]]) -> Result<bool, Fail> {
    for i in 0..paths.len() {
        for j in 0..paths.len() {
            let wanted = i.cmp(&j);
            let one = Path::<T>::new(paths[i]);
            let two = Path::<T>::new(paths[j]);
            let owned = PathBuf::<T>::from_bytes(rt.alloc(), paths[i])?;
            let other = PathBuf::<T>::from_bytes(rt.alloc(), paths[j])?;
            if one.cmp(&two) != wanted || owned.cmp(&other) != wanted {
                return Ok(false);
            }
            if one.cmp_bytes(paths[j]) != wanted || one.partial_cmp(&two) != Some(wanted) {
                return Ok(false);
            }
        }
    }
    Ok(true)
}

#[test]
fn orders(rt: HostRuntime) -> Result<(), Fail> {
    let windows: [&[u8]; 10] = [
        br"\\?\x",
        br"\\?\UNC\s\h",
        br"\\?\C:",
        br"\\.\d",
        br"\\s\h",
        b"C:",
        br"\a",
        br".\a",
        b"..",
        b"a",
    ];
    assert!(rt; are_in_order::<WindowsEncoding>(rt, &windows)?);
    let unix: [&[u8]; 8] = [b"", b"/", b"/a", b".", b"..", b"a", b"a/b", b"b"];
    assert!(rt; are_in_order::<UnixEncoding>(rt, &unix)?);
    Ok(())
}

#[test]
fn half_read_iterators(rt: HostRuntime) {
    let mut left = WindowsComponents::new(WindowsPath::new(br"a\C:"));
    let whole = WindowsComponents::new(WindowsPath::new(b"C:"));
    assert!(rt; left != whole);
    let _ = left.next();
    assert!(rt; left == whole);
    assert_eq!(rt; Ord::cmp(&left, &whole), Ordering::Equal);
    let mut generic = WindowsPath::new(br"a\C:").components();
    let _ = generic.next();
    assert!(rt; generic == WindowsPath::new(b"c:").components());
    let mut texts = WindowsPath::new(br"a\C:").iter();
    let _ = texts.next();
    assert!(rt; texts == WindowsPath::new(b"C:").iter());
    let mut ends = UnixPath::new(b"x//a/./b").components();
    let _ = ends.next();
    assert!(rt; ends == UnixPath::new(b"a/b").components());
    let _ = ends.next_back();
    assert!(rt; ends == UnixPath::new(b"a").components());
    assert!(rt; ends < UnixPath::new(b"b").components());
    let name = Piece {
        kind: PieceKind::Normal,
        text: b"a",
    };
    assert!(rt; ends.next() == Some(name));
    assert!(rt; ends.next() < Some(name));
}

#[test]
fn keys_of_maps(rt: HostRuntime) -> Result<(), Fail> {
    const ROWS: &[(&[u8], u32)] = &[(b"C:/a", 1), (br"c:\a\.", 2)];
    let key = WindowsPathBuf::from_bytes(rt.alloc(), br"C:\a")?;
    let mut hashed = HashMap::new(rt.alloc());
    let mut sorted = BTreeMap::new(rt.alloc());
    for &(path, value) in ROWS {
        hashed.insert(WindowsPathBuf::from_bytes(rt.alloc(), path)?, value)?;
        sorted.insert(WindowsPathBuf::from_bytes(rt.alloc(), path)?, value)?;
    }
    assert_eq!(rt; hashed.len(), 1);
    assert_eq!(rt; hashed.get(&key).copied(), Some(2));
    assert_eq!(rt; sorted.len(), 1);
    assert_eq!(rt; sorted.get(&key).copied(), Some(2));
    Ok(())
}

#[test]
fn lent_keys_of_sets(rt: HostRuntime) -> Result<(), Fail> {
    let mut hashed = HashSet::new(rt.alloc());
    let mut sorted = BTreeSet::new(rt.alloc());
    assert!(rt; hashed.insert(WindowsPath::new(b"C:/a"))?);
    assert!(rt; !hashed.insert(WindowsPath::new(br"c:\a\."))?);
    assert!(rt; hashed.contains(&WindowsPath::new(br"C:\a")));
    assert!(rt; sorted.insert(WindowsPath::new(b"C:/a"))?);
    assert!(rt; !sorted.insert(WindowsPath::new(br"c:\a\."))?);
    assert!(rt; sorted.contains(&WindowsPath::new(br"C:\a")));
    Ok(())
}

/// Returns what std's hasher makes of a value.
fn hashed<K: Hash>(key: &K) -> u64 {
    let mut state = DefaultHasher::new();
    key.hash(&mut state);
    state.finish()
}

/// Returns thirteen letters, with separators between some of them, which the bits of a number
/// choose.
fn spelled(alloc: Global, mut bits: u32) -> Result<Vec<u8>, AllocError> {
    let mut path = Vec::new(alloc);
    for _ in 0..12 {
        path.push(b'a')?;
        if bits % 2 == 1 {
            path.push(b'/')?;
        }
        bits /= 2;
    }
    path.push(b'a')?;
    Ok(path)
}

#[test]
fn names_that_collide(rt: HostRuntime) -> Result<(), Fail> {
    let mut hashes = HashSet::new(rt.alloc());
    for bits in 0..4_096 {
        let path = spelled(rt.alloc(), bits)?;
        let path = UnixPath::new(path.as_slice());
        assert_eq!(rt; hashed(&path), hashed(&UnixPath::new(b"aaaaaaaaaaaaa")));
        hashes.insert(hashed(&Key::new(path)))?;
    }
    assert_eq!(rt; hashes.len(), 4_096);
    Ok(())
}

#[test]
fn keys_by_their_paths(rt: HostRuntime) -> Result<(), Fail> {
    let mut counts = HashMap::new(rt.alloc());
    for path in [b"C:/a".as_slice(), br"c:\a\.", br"C:\a", br"C:\b"] {
        let key = Key::new(WindowsPathBuf::from_bytes(rt.alloc(), path)?);
        let count = counts.get(&key).copied().unwrap_or(0_u32);
        counts.insert(key, count.wrapping_add(1))?;
    }
    assert_eq!(rt; counts.len(), 2);
    let key = Key::new(WindowsPathBuf::from_bytes(rt.alloc(), br"c:/a")?);
    assert_eq!(rt; counts.get(&key).copied(), Some(3));
    assert_eq!(rt; key.path().as_path().as_bytes(), b"c:/a".as_slice());
    assert!(rt; Key::new(WindowsPath::new(br"C:\a")) < Key::new(WindowsPath::new(br"C:\b")));
    assert_eq!(rt; key.into_path().as_path().as_bytes(), b"c:/a".as_slice());
    Ok(())
}
