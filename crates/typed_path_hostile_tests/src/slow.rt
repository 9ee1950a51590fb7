//! A slow reading of paths, by whole splits, with which calls are compared on every short text.

use std::alloc::{AllocError, Global};
use std::test::Fail;
use typed_path::{
    Encoding, End, Path, Piece, PieceKind, UnixEncoding, WindowsEncoding, WindowsPrefix, read_ends,
};

/// The bytes that the short texts are made of.
const BYTES: [u8; 7] = [b'/', b'\\', b'.', b'?', b':', b'a', b'C'];

/// The separators of Windows paths that are not read verbatim.
const BOTH: &[u8] = br"\/";

/// A component, and where it begins and ends in the path.
#[derive(Clone, Copy)]
pub struct Part<'a> {
    pub piece: Piece<'a>,
    pub begin: usize,
    pub end: usize,
}

/// Returns the separators of a path: `/` on Unix; on Windows both, or `\` alone after `\\?\`.
fn separators(windows: bool, text: &[u8]) -> &'static [u8] {
    if !windows {
        b"/"
    } else if text.starts_with(br"\\?\") {
        br"\"
    } else {
        BOTH
    }
}

/// Returns the name at the front of a text, up to the next separator or the end, and what follows
/// it.
fn name<'a>(text: &'a [u8], separators: &[u8]) -> (&'a [u8], &'a [u8]) {
    let name = text
        .split(|byte| separators.contains(byte))
        .next()
        .unwrap_or(b"");
    (name, text.get(name.len()..).unwrap_or(b""))
}

/// Returns a server, then after a separator a share, which may be empty or absent, and what
/// follows. `None` if the server is empty.
fn names<'a>(text: &'a [u8], separators: &[u8]) -> Option<(&'a [u8], &'a [u8], &'a [u8])> {
    let (server, behind) = name(text, separators);
    if server.is_empty() {
        return None;
    }
    match behind.split_first() {
        Some((_, behind)) => {
            let (share, behind) = name(behind, separators);
            Some((server, share, behind))
        }
        None => Some((server, b"", behind)),
    }
}

/// Returns what follows two separators, `sign` and a separator at the front, or `None` if a text
/// begins otherwise.
fn behind_mark(text: &[u8], sign: u8) -> Option<&[u8]> {
    match text {
        [one, two, mark, three, behind @ ..]
            if BOTH.contains(one) && BOTH.contains(two) && *mark == sign && BOTH.contains(three) =>
            { Some(behind) }
        _ => None,
    }
}

/// Returns the letter, in upper case, of an ASCII letter with a colon at the front, and what
/// follows; `None` if a text begins otherwise.
fn drive(text: &[u8]) -> Option<(u8, &[u8])> {
    match text {
        [letter, b':', behind @ ..] if letter.is_ascii_alphabetic() => {
            Some((letter.to_ascii_uppercase(), behind))
        }
        _ => None,
    }
}

/// Returns the prefix after a verbatim mark, the first of three cases, and what follows it. `own`
/// are the separators of the path.
fn verbatim<'a>(text: &'a [u8], own: &[u8]) -> Option<(WindowsPrefix<'a>, &'a [u8])> {
    if let [b'U', b'N', b'C', separator, behind @ ..] = text {
        if own.contains(separator) {
            if let Some((server, share, behind)) = names(behind, own) {
                return Some((WindowsPrefix::VerbatimUNC(server, share), behind));
            }
        }
    }
    if let Some((letter, behind)) = drive(text) {
        return Some((WindowsPrefix::VerbatimDisk(letter), behind));
    }
    if text.is_empty() {
        return None;
    }
    let (name, behind) = name(text, own);
    Some((WindowsPrefix::Verbatim(name), behind))
}

/// Returns the prefix of a Windows path, the first of six cases, and what follows it.
fn prefix(text: &[u8]) -> Option<(WindowsPrefix<'_>, &[u8])> {
    if let Some(behind) = behind_mark(text, b'?') {
        if let Some(found) = verbatim(behind, separators(true, text)) {
            return Some(found);
        }
    }
    if let Some(behind) = behind_mark(text, b'.') {
        let (name, behind) = name(behind, BOTH);
        if !name.is_empty() {
            return Some((WindowsPrefix::DeviceNS(name), behind));
        }
    }
    if let [one, two, behind @ ..] = text {
        if BOTH.contains(one) && BOTH.contains(two) {
            if let Some((server, share, behind)) = names(behind, BOTH) {
                return Some((WindowsPrefix::UNC(server, share), behind));
            }
        }
    }
    let (letter, behind) = drive(text)?;
    Some((WindowsPrefix::Disk(letter), behind))
}

/// Returns the kind of a segment, `None` if it is skipped. `first` says whether it is the first of
/// its body, and `dots` whether each `.` is a component.
fn kind_of(segment: &[u8], first: bool, dots: bool) -> Option<PieceKind<'static>> {
    match segment {
        [] if first => Some(PieceKind::RootDir),
        [] => None,
        [b'.'] if first || dots => Some(PieceKind::CurDir),
        [b'.'] => None,
        [b'.', b'.'] => Some(PieceKind::ParentDir),
        _ => Some(PieceKind::Normal),
    }
}

/// Returns the components of a path.
pub fn parts_of(alloc: Global, windows: bool, text: &[u8]) -> Result<Vec<Part<'_>>, AllocError> {
    let mut parts = Vec::new(alloc);
    let mut rest = text;
    if windows {
        if let Some((kind, behind)) = prefix(text) {
            let end = text.len().saturating_sub(behind.len());
            let raw = text.get(..end).unwrap_or(b"");
            let kind = PieceKind::Prefix(kind);
            let piece = Piece { kind, text: raw };
            parts.push(Part {
                piece,
                begin: 0,
                end,
            })?;
            rest = behind;
        }
    }
    if rest.is_empty() {
        return Ok(parts);
    }
    let own = separators(windows, text);
    let root: &[u8] = if windows { br"\" } else { b"/" };
    let mut begin = text.len().saturating_sub(rest.len());
    for (number, segment) in rest.split(|byte| own.contains(byte)).enumerate() {
        let end = begin.saturating_add(segment.len());
        if let Some(kind) = kind_of(segment, number == 0, own.len() == 1 && windows) {
            let piece = Piece {
                kind,
                text: if segment.is_empty() { root } else { segment },
            };
            let end = end.max(begin.saturating_add(1));
            parts.push(Part { piece, begin, end })?;
        }
        begin = end.saturating_add(1);
    }
    Ok(parts)
}

/// Whether two components have one kind and the same bytes.
fn is_same(piece: Piece<'_>, other: Piece<'_>) -> bool {
    let is_same_kind = match (piece.kind, other.kind) {
        (PieceKind::Prefix(one), PieceKind::Prefix(two)) => one == two,
        (PieceKind::RootDir, PieceKind::RootDir)
        | (PieceKind::CurDir, PieceKind::CurDir)
        | (PieceKind::ParentDir, PieceKind::ParentDir)
        | (PieceKind::Normal, PieceKind::Normal) => true,
        _ => false,
    };
    is_same_kind && piece.text == other.text
}

/// Whether steps from these ends take these components, and leave the right slice after each step.
fn is_read_as<T: Encoding>(
    alloc: Global,
    text: &[u8],
    parts: &[Part<'_>],
    ends: &[End],
) -> Result<bool, AllocError> {
    let mut components = Path::<T>::new(text).components();
    let mut answers = Vec::with_capacity(alloc, 1)?;
    let (mut first, mut last) = (0usize, parts.len());
    let (mut from, mut to) = (0, text.len());
    for end in ends {
        let place = match end {
            End::Front => first,
            End::Back => last.saturating_sub(1),
        };
        let taken = if first < last { parts.get(place) } else { None };
        if taken.is_some() {
            match end {
                End::Front => first = first.saturating_add(1),
                End::Back => last = last.saturating_sub(1),
            }
            match (end, parts.get(first), parts.get(last.saturating_sub(1))) {
                (End::Front, Some(next), _) if first < last => from = next.begin,
                (End::Back, _, Some(before)) if first < last => to = before.end,
                _ => to = from,
            }
        }
        answers.clear();
        read_ends(&mut components, &[*end], &mut answers)?;
        let is_taken = match (answers.first(), taken) {
            (Some(Some(piece)), Some(part)) => is_same(*piece, part.piece),
            (Some(None), None) => true,
            _ => false,
        };
        if !is_taken || components.as_bytes() != text.get(from..to).unwrap_or(b"?") {
            return Ok(false);
        }
    }
    Ok(true)
}

/// Whether a path is read as [`parts_of`] reads it: from the front alone, from the back alone, and
/// from both in turn.
fn is_read_alike<T: Encoding>(
    alloc: Global,
    windows: bool,
    text: &[u8],
) -> Result<bool, AllocError> {
    let parts = parts_of(alloc, windows, text)?;
    let turns = [
        End::Front,
        End::Back,
        End::Front,
        End::Back,
        End::Front,
        End::Back,
        End::Front,
    ];
    Ok(
        is_read_as::<T>(alloc, text, &parts, &[End::Front; 7])?
            && is_read_as::<T>(alloc, text, &parts, &[End::Back; 7])?
            && is_read_as::<T>(alloc, text, &parts, &turns)?,
    )
}

/// Makes `text` the bytes `begin`, and then the text of this number among those of `length` bytes.
pub fn put_numbered(
    text: &mut Vec<u8>,
    begin: &[u8],
    length: usize,
    number: usize,
) -> Result<(), AllocError> {
    text.clear();
    text.extend_from_slice(begin)?;
    let mut rest = number;
    for _ in 0..length {
        text.push(BYTES.get(rest % 7).copied().unwrap_or(b'a'))?;
        rest /= 7;
    }
    Ok(())
}

/// Whether [`is_read_alike`] is true of the first `count` texts of `length` bytes after `begin`.
fn are_read_alike<T: Encoding>(
    alloc: Global,
    windows: bool,
    begin: &[u8],
    length: usize,
    count: usize,
) -> Result<bool, AllocError> {
    let mut text = Vec::new(alloc);
    for number in 0..count {
        put_numbered(&mut text, begin, length, number)?;
        if !is_read_alike::<T>(alloc, windows, text.as_slice())? {
            return Ok(false);
        }
    }
    Ok(true)
}

/// The lengths of the short texts, and how many texts there are of each.
pub const SHORT: [(usize, usize); 6] = [(0, 1), (1, 7), (2, 49), (3, 343), (4, 2_401), (5, 16_807)];

#[test]
fn every_short_text(rt: HostRuntime) -> Result<(), Fail> {
    let alloc = rt.alloc();
    for (length, count) in SHORT {
        let unix = are_read_alike::<UnixEncoding>(alloc, false, b"", length, count)?;
        let windows = are_read_alike::<WindowsEncoding>(alloc, true, b"", length, count)?;
        assert!(rt; unix && windows, "{length} bytes");
    }
    Ok(())
}

#[test]
fn every_short_text_behind_a_mark(rt: HostRuntime) -> Result<(), Fail> {
    const MARKS: &[&[u8]] = &[br"\\?\", b"//?/", br"\\?\UNC\", b"//?/UNC/", br"\/.\"];
    for &mark in MARKS {
        for (length, count) in [(1, 7), (2, 49), (3, 343), (4, 2_401)] {
            let alike = are_read_alike::<WindowsEncoding>(rt.alloc(), true, mark, length, count)?;
            assert!(rt; alike, "{length} bytes behind {mark:?}");
        }
    }
    Ok(())
}
