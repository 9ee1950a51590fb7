//! Readings from both ends, and what a path answers.

use std::alloc::{AllocError, Global};
use std::test::Fail;
use typed_path::{
    Component, End, ParseError, Path, ReadingError, StripPrefixError, UnixComponent,
    UnixComponents, UnixEncoding, UnixPath, read_ends,
};

/// Returns a line for each end that is read: the component that it gives, or `none`, and the slice
/// left then.
fn taken(alloc: Global, path: &[u8], ends: &[End]) -> Result<Vec<u8>, AllocError> {
    let mut components = UnixPath::new(path).components();
    let mut lines = Vec::new(alloc);
    for end in ends {
        let piece = match end {
            End::Front => components.next(),
            End::Back => components.next_back(),
        };
        lines.extend_from_slice(piece.map_or(b"none".as_slice(), |piece| piece.text))?;
        lines.push(b'|')?;
        lines.extend_from_slice(components.as_bytes())?;
        lines.push(b'\n')?;
    }
    Ok(lines)
}

#[test]
fn components_from_both_ends(rt: HostRuntime) -> Result<(), Fail> {
    let back = [End::Back, End::Back, End::Back, End::Back, End::Back];
    let turns = [End::Back, End::Front, End::Back, End::Front];
    let rows = [
        ("/a/./b//", turns.as_slice(), "b|/a\n/|a\na|\nnone|\n"),
        ("./a/b/c", &back, "c|./a/b\nb|./a\na|.\n.|\nnone|\n"),
        ("/././.", &back[..2], "/|\nnone|\n"),
        ("日/本//語/", &back[..2], "語|日/本\n本|日\n"),
        ("", &turns[..2], "none|\nnone|\n"),
    ];
    for (path, ends, wanted) in rows {
        let taken = taken(rt.alloc(), path.as_bytes(), ends)?;
        assert_eq!(rt; taken.as_slice(), wanted.as_bytes(), "of {path}");
    }
    Ok(())
}

#[test]
fn read_ends_appends(rt: HostRuntime) -> Result<(), Fail> {
    let mut components = UnixPath::new(b"/a/./b//").components();
    let mut answers = Vec::new(rt.alloc());
    let ends = [End::Back, End::Front, End::Back, End::Front];
    read_ends(&mut components, &ends, &mut answers)?;
    let mut texts = Vec::new(rt.alloc());
    for answer in &answers {
        texts.push(answer.map(|piece| piece.text))?;
    }
    let wanted: [Option<&[u8]>; 4] = [Some(b"b"), Some(b"/"), Some(b"a"), None];
    assert_eq!(rt; texts.as_slice(), wanted.as_slice());
    Ok(())
}

#[test]
fn bases(rt: HostRuntime) -> Result<(), Fail> {
    const ROWS: &[(&[u8], &[u8], Option<&[u8]>)] = &[
        (b"/a/./b/c", b"/a", Some(b"b/c")),
        (b"a/b/", b"a/b", Some(b"")),
        (b"a//b/", b"", Some(b"a//b/")),
        (b"/a", b"/b", None),
        (b"a", b"a/b", None),
        (b"ab/c", b"a", None),
    ];
    for &(path, base, wanted) in ROWS {
        let path = UnixPath::new(path);
        let base = UnixPath::new(base);
        let rest = path.strip_prefix(base).ok().map(|rest| rest.as_bytes());
        assert_eq!(rt; rest, wanted);
        assert_eq!(rt; path.starts_with(base), wanted.is_some());
    }
    for (path, end, wanted) in [
        ("/a/b", "b", true),
        ("/a/b", "/b", false),
        ("/a/b/.", "a/b", true),
        ("b", "a/b", false),
    ] {
        let path = UnixPath::new(path.as_bytes());
        assert_eq!(rt; path.ends_with(UnixPath::new(end.as_bytes())), wanted);
    }
    assert_eq!(rt;
        StripPrefixError.to_string(rt.alloc())?.as_str(),
        "prefix not found"
    );
    assert_eq!(rt;
        ReadingError.to_string(rt.alloc())?.as_str(),
        "no reading of the path stands there"
    );
    Ok(())
}

#[test]
fn names(rt: HostRuntime) {
    const ROWS: &[(&[u8], Option<&[u8]>, Option<&[u8]>, Option<&[u8]>)] = &[
        (b".bashrc", Some(b".bashrc"), Some(b".bashrc"), None),
        (b"a.", Some(b"a."), Some(b"a"), Some(b"")),
        (b"..x", Some(b"..x"), Some(b"."), Some(b"x")),
        (b"...", Some(b"..."), Some(b".."), Some(b"")),
        (
            b"/tmp/x.tar.gz/",
            Some(b"x.tar.gz"),
            Some(b"x.tar"),
            Some(b"gz"),
        ),
        (b"foo/..", None, None, None),
        (b"/", None, None, None),
        (b"", None, None, None),
    ];
    for &(path, name, stem, extension) in ROWS {
        let path = UnixPath::new(path);
        assert_eq!(rt; path.file_name(), name);
        assert_eq!(rt; path.file_stem(), stem);
        assert_eq!(rt; path.extension(), extension);
    }
}

// The answers are those of Rust's `std::path`.
#[test]
fn first_stems(rt: HostRuntime) {
    const ROWS: &[(&[u8], Option<&[u8]>)] = &[
        (b"foo.rs", Some(b"foo")),
        (b"foo.tar.gz", Some(b"foo")),
        (b"/a/.config", Some(b".config")),
        (b".config.toml/", Some(b".config")),
        (b"..foo", Some(b".")),
        (b"foo/..", None),
        (b"/", None),
    ];
    for &(path, stem) in ROWS {
        assert_eq!(rt; UnixPath::new(path).file_prefix(), stem);
    }
}

// The answers are those of Python's `os.path.commonpath`.
#[test]
fn common_ancestors(rt: HostRuntime) {
    const ROWS: &[(&[u8], &[u8], Option<&[u8]>)] = &[
        (b"/usr/lib", b"/usr/local/lib", Some(b"/usr")),
        (b"/usr/local/", b"/usr/local", Some(b"/usr/local")),
        (b"/usr//local", b"//usr/local", Some(b"/usr//local")),
        (b"/usr/./local", b"/./usr/local", Some(b"/usr/./local")),
        (b"/", b"/dev", Some(b"/")),
        (b"/usr/lib/", b"/usr/lib64", Some(b"/usr")),
        (b"and//jam", b"and/spam//", Some(b"and")),
        (b"spam", b"alot", None),
        (b"", b"spam", None),
    ];
    for &(path, other, wanted) in ROWS {
        let common = UnixPath::new(path).common_ancestor(UnixPath::new(other));
        assert_eq!(rt; common.map(|path| path.as_bytes()), wanted);
    }
}

#[test]
fn those_above(rt: HostRuntime) -> Result<(), Fail> {
    let mut texts = Vec::new(rt.alloc());
    for path in UnixPath::new(b"/a/b/.").ancestors() {
        texts.push(path.as_bytes())?;
    }
    let wanted: [&[u8]; 3] = [b"/a/b/.", b"/a", b"/"];
    assert_eq!(rt; texts.as_slice(), wanted.as_slice());
    Ok(())
}

#[test]
fn questions(rt: HostRuntime) {
    for (path, absolute, valid) in [
        ("/a", true, true),
        ("a/\0", false, false),
        ("./con", false, true),
        ("", false, true),
    ] {
        let path = UnixPath::new(path.as_bytes());
        assert_eq!(rt; path.is_absolute(), absolute);
        assert_eq!(rt; path.has_root(), absolute);
        assert_eq!(rt; path.is_relative(), !absolute);
        assert_eq!(rt; path.is_valid(), valid);
    }
}

#[test]
fn readings(rt: HostRuntime) {
    const ROWS: &[(&str, Result<UnixComponent<'static>, ParseError>)] = &[
        ("", Err("no component found")),
        ("/a", Err("found more than one component")),
        ("/", Ok(UnixComponent::RootDir)),
        ("a//.", Ok(UnixComponent::Normal(b"a"))),
        (".", Ok(UnixComponent::CurDir)),
        ("..", Ok(UnixComponent::ParentDir)),
    ];
    for &(text, wanted) in ROWS {
        assert!(rt; UnixComponent::try_from(text) == wanted);
        assert!(rt; UnixComponent::try_from(text.as_bytes()) == wanted);
    }
    assert!(rt; UnixComponent::try_from(b"/") == Ok(UnixComponent::RootDir));
}

#[test]
fn components_of_unix(rt: HostRuntime) -> Result<(), Fail> {
    let mut components = UnixComponents::new(UnixPath::new(b"/a/../b"));
    assert_eq!(rt; components.next_back(), Some(UnixComponent::Normal(b"b")));
    assert_eq!(rt;
        components.as_path::<UnixEncoding>().as_bytes(),
        b"/a/..".as_slice()
    );
    assert!(rt; components.has_root());
    let mut texts = Vec::new(rt.alloc());
    for component in components.rev() {
        texts.push(component.as_bytes())?;
    }
    let wanted: [&[u8]; 3] = [b"..", b"a", b"/"];
    assert_eq!(rt; texts.as_slice(), wanted.as_slice());
    let mut names = Vec::new(rt.alloc());
    for name in Path::<UnixEncoding>::new(b"a/b") {
        names.push(name)?;
    }
    let wanted: [&[u8]; 2] = [b"a", b"b"];
    assert_eq!(rt; names.as_slice(), wanted.as_slice());
    Ok(())
}
