//! Paths that are seldom met: very deep ones, very long ones, runs of separators, chains of pushes
//! and pops, bytes that are not UTF-8, and text that is not ASCII.

use crate::digest::Digest;
use crate::random::Random;
use crate::texts::Texts;
use std::alloc::{AllocError, Global};
use std::hash::{DefaultHasher, Hash, Hasher};
use typed_path::{
    Encoding, Path, PathBuf, UnixEncoding, UnixPath, Utf8UnixPath, Utf8WindowsPath,
    WindowsEncoding, WindowsPath,
};

/// Names of one byte.
const SHORT: &[&[u8]] = &[b"a/", b"b/", b"c/", b"d/", b"e/", b"f/", b"g/", b"h/"];

/// Names of usual lengths.
const USUAL: &[&[u8]] = &[
    b"usr/",
    b"lib/",
    b"node_modules/",
    b"src/",
    b"dist-packages/",
    b"index.html/",
    b"a/",
    b"README.md/",
    b"x86_64-linux-gnu/",
    b"3f2504e0-4f89-11d3-9a0c-0305e82c3301/",
    b"main.rs/",
    b"__init__.py/",
];

/// Names with separators and `.` that count for nothing, or with `..` that cancels.
const RUNS: &[&[u8]] = &[
    b"////////",
    b"/././././",
    b"a/../",
    b"usr/",
    b"b/../../",
    b"lib/",
    b"./",
    b"share/./",
    b"..//",
];

/// Names that are text, not all of ASCII.
const TEXTS: &[&[u8]] = &[
    b"\xC3\xA9t\xC3\xA9/",
    b"\xE6\x97\xA5\xE6\x9C\xAC\xE8\xAA\x9E/",
    b"\xD0\xB4\xD0\xBE\xD0\xBA\xD1\x83\xD0\xBC\xD0\xB5\xD0\xBD\xD1\x82\xD1\x8B/",
    b"a/",
    b"na\xC3\xAFve.txt/",
    b"src/",
];

/// Names of which some are not UTF-8.
const BYTES: &[&[u8]] = &[
    b"caf\xE9/",
    b"\xFF\xFE/",
    b"ok/",
    b"na\xEFve.txt/",
    b"plain/",
];

/// Names of Windows.
const WINDOWS: &[&[u8]] = &[
    br"Users\",
    br"me\",
    br"AppData\",
    br"Local\",
    br"a\",
    br"Program Files\",
];

/// Returns a path of `count` drawn names, with letters before the last that no other path has.
fn path_of(
    alloc: Global,
    random: &mut Random,
    names: &[&[u8]],
    count: usize,
) -> Result<Texts, AllocError> {
    let mut texts = Texts::new(alloc);
    for _ in 1..count {
        texts.put(random.pick(names))?;
    }
    texts.put_letters(random)?;
    texts.put(random.pick(names))?;
    texts.end()?;
    Ok(texts)
}

/// Makes the calls with a path that are made with most, however long it is.
fn handle<T: Encoding, U: Encoding>(
    alloc: Global,
    bytes: &[u8],
    digest: &mut Digest,
) -> Result<(), AllocError> {
    let path = Path::<T>::new(bytes);
    for piece in path.components() {
        digest.piece(piece);
    }
    for text in path.iter().rev() {
        digest.bytes(text);
    }
    let normal = path.normalize(alloc)?;
    digest.bytes(normal.as_path().as_bytes());
    digest.bytes(path.with_encoding::<U>(alloc)?.as_path().as_bytes());
    match path.with_encoding_checked::<U>(alloc) {
        Ok(path) => digest.bytes(path.as_path().as_bytes()),
        Err(refusal) => digest.refusal(refusal)?,
    }
    match Path::<T>::new(b"base").join_checked(alloc, path) {
        Ok(path) => digest.bytes(path.as_path().as_bytes()),
        Err(refusal) => digest.refusal(refusal)?,
    }
    digest.flag(path == normal.as_path());
    digest.flag(path < normal.as_path());
    let mut state = DefaultHasher::default();
    path.hash(&mut state);
    digest.take(state.finish());
    Ok(())
}

/// Pushes names one by one onto a verbatim base, and pops until nothing is left.
fn push_and_pop(alloc: Global, random: &mut Random, digest: &mut Digest) -> Result<(), AllocError> {
    let base = path_of(alloc, random, WINDOWS, 1)?;
    let names = path_of(alloc, random, WINDOWS, 8)?;
    let mut path = WindowsPath::new(br"\\?\C:\").join(alloc, WindowsPath::new(base.get(0)))?;
    path.push(WindowsPath::new(names.get(0)))?;
    for _ in 0..40 {
        path.push(WindowsPath::new(random.pick(WINDOWS)))?;
        digest.bytes(path.as_path().as_bytes());
    }
    for _ in 0..49 {
        digest.flag(path.pop());
        digest.bytes(path.as_path().as_bytes());
    }
    Ok(())
}

/// Makes calls with a path of text that is not ASCII.
fn handle_text(alloc: Global, bytes: &[u8], digest: &mut Digest) -> Result<(), AllocError> {
    let Ok(path) = Utf8UnixPath::from_bytes_path(UnixPath::new(bytes)) else {
        return Ok(());
    };
    for text in path.iter() {
        digest.bytes(text.as_bytes());
    }
    digest.bytes(path.normalize(alloc)?.as_path().as_str().as_bytes());
    digest.bytes(
        path.with_windows_encoding(alloc)?
            .as_path()
            .as_str()
            .as_bytes(),
    );
    let base = Utf8WindowsPath::new(r"\\?\C:\日本");
    match base.join_checked(alloc, Utf8WindowsPath::new(path.as_str())) {
        Ok(path) => digest.bytes(path.as_path().as_str().as_bytes()),
        Err(refusal) => digest.refusal(refusal)?,
    }
    Ok(())
}

/// Makes calls with a path of bytes that are not UTF-8.
fn handle_bytes(alloc: Global, bytes: &[u8], digest: &mut Digest) -> Result<(), AllocError> {
    let path = UnixPath::new(bytes);
    digest.some(path.to_str().map(|text| text.as_bytes()));
    let mut owned = PathBuf::<UnixEncoding>::from_bytes(alloc, bytes)?;
    digest.flag(owned.set_extension(b"\xFF")?);
    digest.bytes(owned.as_path().as_bytes());
    digest.some(path.file_stem());
    Ok(())
}

/// Handles 64 paths of each kind, `times` times; the first time, and every 64th after that, two
/// very long ones too.
pub fn awkward(
    alloc: Global,
    times: u64,
    random: &mut Random,
    digest: &mut Digest,
) -> Result<(), AllocError> {
    for time in 0..times {
        for _ in 0..64 {
            let deep = path_of(alloc, random, SHORT, 30)?;
            handle::<UnixEncoding, WindowsEncoding>(alloc, deep.get(0), digest)?;
            handle::<WindowsEncoding, UnixEncoding>(alloc, deep.get(0), digest)?;
            let runs = path_of(alloc, random, RUNS, 20)?;
            handle::<UnixEncoding, WindowsEncoding>(alloc, runs.get(0), digest)?;
            handle::<WindowsEncoding, UnixEncoding>(alloc, runs.get(0), digest)?;
            push_and_pop(alloc, random, digest)?;
            let text = path_of(alloc, random, TEXTS, 12)?;
            handle_text(alloc, text.get(0), digest)?;
            let bytes = path_of(alloc, random, BYTES, 12)?;
            handle_bytes(alloc, bytes.get(0), digest)?;
        }
        if time % 64 == 0 {
            let long = path_of(alloc, random, USUAL, 50_000)?;
            handle::<UnixEncoding, WindowsEncoding>(alloc, long.get(0), digest)?;
            handle::<WindowsEncoding, UnixEncoding>(alloc, long.get(0), digest)?;
            let runs = path_of(alloc, random, RUNS, 50_000)?;
            handle::<UnixEncoding, WindowsEncoding>(alloc, runs.get(0), digest)?;
        }
    }
    Ok(())
}
