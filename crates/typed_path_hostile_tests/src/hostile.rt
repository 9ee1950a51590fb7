//! Calls of paths on every short text, compared with slow answers that are read off the slow
//! component list.

use crate::slow::{Part, SHORT, parts_of, put_numbered};
use std::alloc::{AllocError, Global};
use std::test::Fail;
use typed_path::{
    CheckedPathError, Encoding, Path, PathError, Piece, PieceKind, UnixEncoding, WindowsEncoding,
    WindowsPrefix,
};
use typed_path_tests::recorded;

/// The bases that each text is pushed onto.
const BASES: [&[u8]; 5] = [b"", b"/etc", b"C:", br"\\?\C:\base\x/y", br"\\s\h\a"];

/// Whether nothing is above a component.
fn is_root(piece: Piece<'_>) -> bool {
    match piece.kind {
        PieceKind::RootDir => true,
        PieceKind::Prefix(WindowsPrefix::Disk(_)) => false,
        PieceKind::Prefix(_) => true,
        _ => false,
    }
}

/// Returns a path without its last component, `None` if it has none or nothing is above it.
fn parent<'a>(text: &'a [u8], parts: &[Part<'_>]) -> Option<&'a [u8]> {
    let last = parts.last()?;
    if is_root(last.piece) {
        return None;
    }
    match parts.get(parts.len().saturating_sub(2)) {
        Some(before) if parts.len() > 1 => text.get(..before.end),
        _ => Some(b""),
    }
}

/// Returns the last component if it is a name, else `None`.
fn file_name<'a>(parts: &[Part<'a>]) -> Option<&'a [u8]> {
    let last = parts.last()?;
    match last.piece.kind {
        PieceKind::Normal => Some(last.piece.text),
        _ => None,
    }
}

/// Appends components to a resolved list: `.` is left out, `..` removes a name if one is last, and
/// a root replaces all but the first.
fn take_over<'a>(list: &mut Vec<Piece<'a>>, parts: &[Part<'a>]) -> Result<(), AllocError> {
    for part in parts {
        match part.piece.kind {
            PieceKind::CurDir => {}
            PieceKind::ParentDir => {
                if matches!(list.last(), Some(last) if matches!(last.kind, PieceKind::Normal)) {
                    list.pop();
                }
            }
            PieceKind::RootDir => {
                list.truncate(list.len().min(1));
                list.push(part.piece)?;
            }
            _ => list.push(part.piece)?,
        }
    }
    Ok(())
}

/// Appends the texts of components, with `\` between two of which neither is the root.
fn put_spelled(text: &mut Vec<u8>, list: &[Piece<'_>]) -> Result<(), AllocError> {
    let mut joins = false;
    for piece in list {
        let is_root = matches!(piece.kind, PieceKind::RootDir);
        if joins && !is_root {
            text.push(b'\\')?;
        }
        text.extend_from_slice(piece.text)?;
        joins = !is_root;
    }
    Ok(())
}

/// Whether a component is a prefix of one of the three verbatim kinds.
fn is_verbatim(piece: &Piece<'_>) -> bool {
    matches!(
        piece.kind,
        PieceKind::Prefix(
            WindowsPrefix::Verbatim(_)
                | WindowsPrefix::VerbatimUNC(..)
                | WindowsPrefix::VerbatimDisk(_)
        )
    )
}

/// Appends a base, a separator unless the base is empty or ends with it, and a path.
fn put_behind(
    text: &mut Vec<u8>,
    base: &[u8],
    separator: u8,
    path: &[u8],
) -> Result<(), AllocError> {
    text.extend_from_slice(base)?;
    if !base.is_empty() && base.last() != Some(&separator) {
        text.push(separator)?;
    }
    text.extend_from_slice(path)
}

/// Returns a path pushed onto a base of Windows.
fn pushed_on_windows(alloc: Global, base: &[u8], path: &[u8]) -> Result<Vec<u8>, AllocError> {
    let mut text = Vec::new(alloc);
    let own = parts_of(alloc, true, base)?;
    let others = parts_of(alloc, true, path)?;
    let head = match own.first() {
        Some(part) if matches!(part.piece.kind, PieceKind::Prefix(_)) => Some(part.piece),
        _ => None,
    };
    match (head, others.first()) {
        (_, Some(first)) if matches!(first.piece.kind, PieceKind::Prefix(_)) => {
            text.extend_from_slice(path)?;
        }
        (Some(prefix), _) if is_verbatim(&prefix) => {
            let mut list = Vec::new(alloc);
            for part in &own {
                list.push(part.piece)?;
            }
            take_over(&mut list, others.as_slice())?;
            put_spelled(&mut text, list.as_slice())?;
        }
        (_, Some(first)) if matches!(first.piece.kind, PieceKind::RootDir) => {
            text.extend_from_slice(head.map_or(b"".as_slice(), |prefix| prefix.text))?;
            text.extend_from_slice(path)?;
        }
        (Some(prefix), _) if prefix.text == base && !is_root(prefix) => {
            text.extend_from_slice(base)?;
            text.extend_from_slice(path)?;
        }
        _ => put_behind(&mut text, base, b'\\', path)?,
    }
    Ok(text)
}

/// Returns a path pushed onto a base.
fn pushed(alloc: Global, windows: bool, base: &[u8], path: &[u8]) -> Result<Vec<u8>, AllocError> {
    let mut text = Vec::new(alloc);
    if path.is_empty() {
        text.extend_from_slice(base)?;
    } else if windows {
        return pushed_on_windows(alloc, base, path);
    } else if path.starts_with(b"/") {
        text.extend_from_slice(path)?;
    } else {
        put_behind(&mut text, base, b'/', path)?;
    }
    Ok(text)
}

/// Returns the path of the components that a list resolves to, pushed one by one.
fn normal(alloc: Global, windows: bool, parts: &[Part<'_>]) -> Result<Vec<u8>, AllocError> {
    let mut list = Vec::new(alloc);
    take_over(&mut list, parts)?;
    let mut text = Vec::new(alloc);
    for piece in &list {
        text = pushed(alloc, windows, text.as_slice(), piece.text)?;
    }
    Ok(text)
}

/// Returns the fault for which a checked push refuses a path, `None` if it accepts it. No short
/// text has a device.
fn fault(windows: bool, parts: &[Part<'_>]) -> Option<CheckedPathError> {
    let never: &[u8] = if windows { b"\\/:?*\"><|\0" } else { b"/\0" };
    let mut names = 0u32;
    for part in parts {
        match part.piece.kind {
            PieceKind::Prefix(_) => return Some(CheckedPathError::UnexpectedPrefix),
            PieceKind::RootDir => return Some(CheckedPathError::UnexpectedRoot),
            PieceKind::ParentDir if names == 0 => {
                return Some(CheckedPathError::PathTraversalAttack);
            }
            PieceKind::ParentDir => names = names.saturating_sub(1),
            PieceKind::Normal if part.piece.text.iter().any(|byte| never.contains(byte)) => {
                return Some(CheckedPathError::InvalidFilename);
            }
            PieceKind::Normal => names = names.saturating_add(1),
            PieceKind::CurDir => {}
        }
    }
    None
}

/// Whether a checked join of each base with a path returns what the slow one does.
fn is_joined_alike<T: Encoding>(
    alloc: Global,
    windows: bool,
    text: &[u8],
    parts: &[Part<'_>],
) -> Result<bool, AllocError> {
    for base in BASES {
        let joined = Path::<T>::new(base).join_checked(alloc, Path::new(text));
        let alike = match (joined, fault(windows, parts)) {
            (Ok(path), None) => {
                path.as_path().as_bytes() == pushed(alloc, windows, base, text)?.as_slice()
            }
            (Err(PathError::Checked(refused)), Some(fault)) => refused == fault,
            _ => false,
        };
        if !alike {
            return Ok(false);
        }
    }
    Ok(true)
}

/// Returns the clean path of a text: its prefix; the root, written or implied, the implied one only
/// if something follows; without a root the `..` that cancel no name; and the names that no `..`
/// cancels, with separators between. Without a prefix and a root, `.` and a separator precede what
/// would be read as a prefix, and nothing becomes `.`.
fn cleaned(alloc: Global, windows: bool, led: &Led<'_>) -> Result<Vec<u8>, AllocError> {
    let separator = if windows { b'\\' } else { b'/' };
    let mut segments = Vec::new(alloc);
    if !led.is_anchored {
        for _ in 0..led.unmet {
            segments.push(b"..".as_slice())?;
        }
    }
    for name in &led.names {
        segments.push(*name)?;
    }
    let mut text = Vec::new(alloc);
    let mut is_rooted = false;
    for part in &led.parts {
        match part.piece.kind {
            PieceKind::Prefix(_) => text.extend_from_slice(part.piece.text)?,
            PieceKind::RootDir => is_rooted = true,
            _ => {}
        }
    }
    let is_bare = text.is_empty() && !is_rooted;
    if is_rooted || led.is_anchored && !segments.is_empty() {
        text.push(separator)?;
    }
    let mut joined = Vec::new(alloc);
    for segment in &segments {
        if !joined.is_empty() {
            joined.push(separator)?;
        }
        joined.extend_from_slice(segment)?;
    }
    if is_bare && joined.is_empty() {
        text.push(b'.')?;
    } else if is_bare
        && windows
        && prefix_of(parts_of(alloc, true, joined.as_slice())?.as_slice()).is_some()
    {
        text.push(b'.')?;
        text.push(separator)?;
    }
    text.extend_from_slice(joined.as_slice())?;
    Ok(text)
}

/// Whether the calls on a path return what its slow component list says.
fn is_answered_alike<T: Encoding>(
    alloc: Global,
    windows: bool,
    text: &[u8],
) -> Result<bool, AllocError> {
    let parts = parts_of(alloc, windows, text)?;
    let path = Path::<T>::new(text);
    let above = path.parent().map(|parent| parent.as_bytes());
    let normal = normal(alloc, windows, parts.as_slice())?;
    let clean = cleaned(alloc, windows, &read_slowly(alloc, windows, text)?)?;
    Ok(
        above == parent(text, parts.as_slice())
            && path.file_name() == file_name(parts.as_slice())
            && path.normalize(alloc)?.as_path().as_bytes() == normal.as_slice()
            && path.clean(alloc)?.as_path().as_bytes() == clean.as_slice()
            && is_joined_alike::<T>(alloc, windows, text, parts.as_slice())?,
    )
}

#[test]
fn calls_on_every_short_text(rt: HostRuntime) -> Result<(), Fail> {
    let alloc = rt.alloc();
    let mut text = Vec::new(alloc);
    for (length, count) in SHORT {
        for number in 0..count {
            put_numbered(&mut text, b"", length, number)?;
            let unix = is_answered_alike::<UnixEncoding>(alloc, false, text.as_slice())?;
            let windows = is_answered_alike::<WindowsEncoding>(alloc, true, text.as_slice())?;
            assert!(rt; unix && windows, "{:?}", text.as_slice());
        }
    }
    Ok(())
}

/// Whether two lists have the same kinds and names, each in its place.
fn are_same(parts: &[Part<'_>], others: &[Part<'_>]) -> bool {
    parts.len() == others.len()
        && parts.iter().zip(others).all(|(part, other)| {
            match (part.piece.kind, other.piece.kind) {
                (PieceKind::Normal, PieceKind::Normal) => part.piece.text == other.piece.text,
                (one, two) => one == two,
            }
        })
}

/// A path with its slow list, and what that says of where it leads: the names that no `..` cancels,
/// how many `..` cancel no name, and whether it begins with a root, written or implied.
#[derive(Drop)]
struct Led<'a> {
    text: &'a [u8],
    parts: Vec<Part<'a>>,
    names: Vec<&'a [u8]>,
    unmet: u32,
    is_anchored: bool,
}

/// Whether components begin with a root, written or implied by a prefix.
fn is_anchored(parts: &[Part<'_>]) -> bool {
    match parts {
        [first, second, ..]
            if matches!(first.piece.kind, PieceKind::Prefix(WindowsPrefix::Disk(_))) => {
            matches!(second.piece.kind, PieceKind::RootDir)
        }
        [first, ..] => matches!(first.piece.kind, PieceKind::RootDir) || is_root(first.piece),
        [] => false,
    }
}

/// Reads a path slowly.
fn read_slowly(alloc: Global, windows: bool, text: &[u8]) -> Result<Led<'_>, AllocError> {
    let parts = parts_of(alloc, windows, text)?;
    let (mut names, mut unmet) = (Vec::new(alloc), 0u32);
    for part in &parts {
        match part.piece.kind {
            PieceKind::Normal => names.push(part.piece.text)?,
            PieceKind::ParentDir if names.is_empty() => unmet = unmet.saturating_add(1),
            PieceKind::ParentDir => names.truncate(names.len().saturating_sub(1)),
            _ => {}
        }
    }
    let is_anchored = is_anchored(parts.as_slice());
    Ok(Led {
        text,
        parts,
        names,
        unmet,
        is_anchored,
    })
}

/// Returns the prefix that components begin with, `None` if they have none.
fn prefix_of<'a>(parts: &[Part<'a>]) -> Option<WindowsPrefix<'a>> {
    match parts.first()?.piece.kind {
        PieceKind::Prefix(prefix) => Some(prefix),
        _ => None,
    }
}

/// Whether a path lies within another, by what their lists say of where they lead.
fn is_led_within(own: &Led<'_>, base: &Led<'_>) -> bool {
    let (prefix, other) = (
        prefix_of(own.parts.as_slice()),
        prefix_of(base.parts.as_slice()),
    );
    let begins = base.names.len() <= own.names.len()
        && own
            .names
            .iter()
            .zip(&base.names)
            .all(|(own, base)| own == base);
    let leads = begins
        && own.is_anchored == base.is_anchored
        && (own.is_anchored || own.unmet == base.unmet);
    let holds = base.names.is_empty()
        && if base.is_anchored {
            other.is_none()
        } else {
            !own.is_anchored && own.unmet <= base.unmet
        };
    prefix == other && (leads || holds)
}

/// Returns how many `..` of a path lead above where it begins.
fn rising(led: &Led<'_>) -> u32 {
    if led.is_anchored { 0 } else { led.unmet }
}

/// Returns how many leading names two paths share.
fn shared_count(own: &Led<'_>, base: &Led<'_>) -> usize {
    let mut shared = 0usize;
    for (own, base) in own.names.iter().zip(&base.names) {
        if own != base {
            break;
        }
        shared = shared.saturating_add(1);
    }
    shared
}

/// Appends a segment, after a separator unless it is the first.
fn put_segment(text: &mut Vec<u8>, separator: u8, segment: &[u8]) -> Result<(), AllocError> {
    if !text.is_empty() {
        text.push(separator)?;
    }
    text.extend_from_slice(segment)
}

/// Whether a path begins with a prefix.
fn begins_with_prefix(alloc: Global, windows: bool, text: &[u8]) -> Result<bool, AllocError> {
    let parts = parts_of(alloc, windows, text)?;
    Ok(prefix_of(parts.as_slice()).is_some())
}

/// Returns the path that leads from a base to a path, `None` if there is none, by what their lists
/// say of where they lead.
fn relative(
    alloc: Global,
    windows: bool,
    own: &Led<'_>,
    base: &Led<'_>,
) -> Result<Option<Vec<u8>>, AllocError> {
    let prefix = prefix_of(own.parts.as_slice());
    let (high, low) = (rising(own), rising(base));
    if prefix != prefix_of(base.parts.as_slice())
        || own.is_anchored != base.is_anchored
        || high < low
    {
        return Ok(None);
    }
    let shared = if high == low {
        shared_count(own, base)
    } else {
        0
    };
    let down = own.names.as_slice().get(shared..).unwrap_or(&[]);
    if down.iter().any(|name| name.contains(&b'/')) {
        return Ok(None);
    }
    let separator = if windows { b'\\' } else { b'/' };
    let mut text = Vec::new(alloc);
    for _ in shared..base.names.len() {
        put_segment(&mut text, separator, b"..")?;
    }
    for _ in low..high {
        put_segment(&mut text, separator, b"..")?;
    }
    for name in down {
        put_segment(&mut text, separator, name)?;
    }
    let is_prefixed = begins_with_prefix(alloc, windows, text.as_slice())?;
    if is_prefixed {
        text.insert(0, separator)?;
    }
    if is_prefixed || text.is_empty() {
        text.insert(0, b'.')?;
    }
    Ok(Some(text))
}

/// Whether the path that leads from one to another is what their lists say.
fn is_led_alike<T: Encoding>(
    alloc: Global,
    windows: bool,
    own: &Led<'_>,
    base: &Led<'_>,
) -> Result<bool, AllocError> {
    let found = Path::<T>::new(own.text).relative_to(alloc, Path::new(base.text))?;
    match (found, relative(alloc, windows, own, base)?) {
        (Some(found), Some(wanted)) => Ok(found.as_path().as_bytes() == wanted.as_slice()),
        (None, None) => Ok(true),
        _ => Ok(false),
    }
}

/// Whether two paths compare equal, are hashed alike if they are equal, and the first lies within
/// the second, each as their lists say.
fn are_compared_alike<T: Encoding>(one: &Led<'_>, two: &Led<'_>) -> bool {
    let same = are_same(one.parts.as_slice(), two.parts.as_slice());
    let (path, other) = (Path::<T>::new(one.text), Path::<T>::new(two.text));
    (path == other) == same
        && (!same || recorded(&path) == recorded(&other))
        && path.is_within(other) == is_led_within(one, two)
}

/// Whether [`are_compared_alike`] and [`is_led_alike`] are true of every pair of paths.
fn are_all_compared_alike<T: Encoding>(
    alloc: Global,
    windows: bool,
    texts: &[Vec<u8>],
) -> Result<bool, AllocError> {
    let mut all = Vec::new(alloc);
    for text in texts {
        all.push(read_slowly(alloc, windows, text.as_slice())?)?;
    }
    for one in &all {
        for two in &all {
            if !are_compared_alike::<T>(one, two) || !is_led_alike::<T>(alloc, windows, one, two)? {
                return Ok(false);
            }
        }
    }
    Ok(true)
}

/// Longer texts, which are paired with all short ones too.
const LONGER: [&[u8]; 10] = [
    b"../../a/..",
    b"a/../../C/a",
    b"/a/C/./../a",
    br"C:a\..\..\C",
    br"c:/a\C",
    br"\\a\C\..\a",
    b"//a/C/a/C",
    br"\\?\C:\a\..\C",
    br"\\?\C:\a/C\.",
    br"\\?\a\C/..\a",
];

#[test]
fn every_pair_of_short_texts(rt: HostRuntime) -> Result<(), Fail> {
    let alloc = rt.alloc();
    let mut texts = Vec::new(alloc);
    for (length, count) in [(0, 1), (1, 7), (2, 49), (3, 343)] {
        for number in 0..count {
            let mut text = Vec::new(alloc);
            put_numbered(&mut text, b"", length, number)?;
            texts.push(text)?;
        }
    }
    for longer in LONGER {
        texts.push(Vec::from_slice(alloc, longer)?)?;
    }
    assert!(rt; are_all_compared_alike::<UnixEncoding>(alloc, false, texts.as_slice())?);
    assert!(rt; are_all_compared_alike::<WindowsEncoding>(alloc, true, texts.as_slice())?);
    Ok(())
}
