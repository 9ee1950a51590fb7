//! Paths as keys: sorted, without duplicates, and looked up.

use crate::digest::Digest;
use crate::random::Random;
use crate::texts::Texts;
use crate::tree::{Style, Tree, unix, windows};
use std::alloc::{AllocError, Global};
use std::collections::{BTreeMap, HashMap};
use typed_path::{Encoding, Path, PathBuf, UnixEncoding, WindowsEncoding};
use typed_path_uses::{note, noted};

/// How many of a thousand paths are looked up as they are written otherwise.
const OFTEN: usize = 250;

/// How many of a thousand paths are there as they are written otherwise too.
const DOUBLES: usize = 10;

/// Sorts paths, and adds each to the digest unless it equals the one before.
fn sort<T: Encoding>(
    alloc: Global,
    names: &[&[u8]],
    digest: &mut Digest,
) -> Result<(), AllocError> {
    let mut paths = Vec::with_capacity(alloc, names.len())?;
    for name in names {
        paths.push(Path::<T>::new(name))?;
    }
    paths.sort()?;
    let mut last = Path::<T>::new(b"");
    for path in &paths {
        if *path != last {
            digest.bytes(path.as_bytes());
        }
        last = *path;
    }
    Ok(())
}

/// Appends a path as it is written otherwise: with its last separator doubled.
fn put_otherwise(texts: &mut Texts, separator: &[u8], path: &[u8]) -> Result<(), AllocError> {
    let at = path
        .iter()
        .rposition(|byte| separator.contains(byte))
        .unwrap_or(0);
    texts.put(path.get(..at).unwrap_or(b""))?;
    texts.put(separator)?;
    texts.put(path.get(at..).unwrap_or(b""))
}

/// Puts names into a random order.
fn shuffle(random: &mut Random, names: &mut Vec<&[u8]>) {
    let count = names.len();
    for index in 0..count {
        let other = random.below(count);
        if index < names.len() && other < names.len() {
            names.swap(index, other);
        }
    }
}

/// Notes a number at each path, in an ordered map and in a hash map, and looks paths up in both.
fn look_up<T: Encoding>(
    alloc: Global,
    names: &[&[u8]],
    wanted: &[&[u8]],
    digest: &mut Digest,
) -> Result<(), AllocError> {
    let mut notes = BTreeMap::new(alloc);
    let mut numbers = HashMap::new(alloc);
    let mut number = 0u32;
    for name in names {
        number = number.wrapping_add(1);
        let path = PathBuf::<T>::from_bytes(alloc, name)?;
        digest.noted(numbers.insert(path.clone()?, number)?);
        digest.noted(note(&mut notes, path, number)?);
    }
    for name in wanted {
        let path = Path::<T>::new(name).to_path_buf(alloc)?;
        digest.noted(noted(&notes, &path));
        digest.noted(numbers.get(&path).copied());
    }
    Ok(())
}

/// Uses the files of one tree as keys, and some of them as they are written otherwise too.
fn keys_of<T: Encoding>(
    alloc: Global,
    random: &mut Random,
    style: Style,
    roots: &[&[u8]],
    count: usize,
    digest: &mut Digest,
) -> Result<(), AllocError> {
    let tree = Tree::new(alloc, random, style, roots, 600)?;
    let files = tree.files(alloc, random, count)?;
    let mut names = Texts::new(alloc);
    let mut keys = Texts::new(alloc);
    for path in &files.list(alloc)? {
        names.put(path)?;
        names.end()?;
        if random.chance(DOUBLES) {
            put_otherwise(&mut names, style.separator, path)?;
            names.end()?;
        }
        if random.chance(OFTEN) {
            put_otherwise(&mut keys, style.separator, path)?;
        } else {
            keys.put(path)?;
        }
        keys.end()?;
    }
    let mut wanted = keys.list(alloc)?;
    shuffle(random, &mut wanted);
    sort::<T>(alloc, &names.list(alloc)?, digest)?;
    look_up::<T>(alloc, &names.list(alloc)?, &wanted, digest)
}

/// Uses paths of one tree of each system as keys: `thousands` times 1,000 of each, at most a
/// million.
pub fn keys(
    alloc: Global,
    thousands: u64,
    random: &mut Random,
    digest: &mut Digest,
) -> Result<(), AllocError> {
    let count = (thousands.min(1_000) as usize) * 1_000;
    let roots: &[&[u8]] = &[b"/", b"/home/user/", b""];
    keys_of::<UnixEncoding>(alloc, random, unix(10), roots, count, digest)?;
    let roots: &[&[u8]] = &[
        br"C:\",
        b"",
        br"\\server\share\",
        br"\\?\C:\Users\",
        br"D:\",
        br"src\",
    ];
    keys_of::<WindowsEncoding>(alloc, random, windows(10), roots, count, digest)
}
