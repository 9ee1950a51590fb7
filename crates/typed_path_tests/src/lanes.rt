//! The searches for separators, at every length and every index, for both encodings.

use std::test::Fail;
use typed_path::{Encoding, Path, UnixEncoding, UnixPath, WindowsEncoding};

/// The length of the longest text that is searched: three whole blocks and a rest.
const LONGEST: usize = 100;

/// Returns the text of the first component of a text without dots, found byte by byte. The first of
/// the separators is how a root is written.
fn first_text<'a>(text: &'a [u8], separators: &'a [u8; 2]) -> &'a [u8] {
    for (place, byte) in text.iter().enumerate() {
        if *byte == separators[0] || *byte == separators[1] {
            return if place == 0 {
                &separators[..1]
            } else {
                &text[..place]
            };
        }
    }
    text
}

/// Returns the text of the last component of a text without dots, found byte by byte.
fn last_text<'a>(text: &'a [u8], separators: &'a [u8; 2]) -> &'a [u8] {
    let mut begin = 0;
    let mut end = 0;
    for (place, byte) in text.iter().enumerate() {
        if *byte != separators[0] && *byte != separators[1] {
            if place != end {
                begin = place;
            }
            end = place + 1;
        }
    }
    if end == 0 {
        return &separators[..text.len().min(1)];
    }
    text.get(begin..end).unwrap_or(b"")
}

/// Whether the first component of a text, and the last, are those that are found byte by byte.
fn ends_are_found<T: Encoding>(text: &[u8], separators: &[u8; 2]) -> bool {
    let components = Path::<T>::new(text).components();
    let (mut from_front, mut from_back) = (components, components);
    let first = from_front.next().map_or(b"".as_slice(), |piece| piece.text);
    let last = from_back
        .next_back()
        .map_or(b"".as_slice(), |piece| piece.text);
    first == first_text(text, separators) && last == last_text(text, separators)
}

/// Whether [`ends_are_found`] is true of texts of this length, at most [`LONGEST`]: of separators
/// alone, and of letters with a separator at each index or none, and perhaps another in the middle.
fn are_found_at_each_place<T: Encoding>(length: usize, separators: &[u8; 2]) -> bool {
    let length = length.min(LONGEST);
    for place in 0..=length {
        for further in [LONGEST / 2, LONGEST] {
            let mut bytes = [b'a'; LONGEST + 1];
            if let Some(byte) = bytes.get_mut(further) {
                *byte = separators[0];
            }
            bytes[place] = if place % 2 == length % 2 {
                separators[0]
            } else {
                separators[1]
            };
            if !ends_are_found::<T>(&bytes[..length], separators) {
                return false;
            }
        }
    }
    let mut bytes = [separators[0]; LONGEST];
    bytes[LONGEST / 2] = separators[1];
    ends_are_found::<T>(&bytes[..length], separators)
}

#[test]
fn separators_are_found_at_each_place(rt: HostRuntime) -> Result<(), Fail> {
    for length in 0..=LONGEST {
        assert!(rt;
            are_found_at_each_place::<UnixEncoding>(length, b"//"),
            "Unix, {length} bytes"
        );
        assert!(rt;
            are_found_at_each_place::<WindowsEncoding>(length, br"\/"),
            "Windows, {length} bytes"
        );
    }
    Ok(())
}

#[test]
fn reversed_iterators_begin_at_the_end(rt: HostRuntime) -> Result<(), Fail> {
    let path = UnixPath::new(b"/usr/lib");
    let mut components = path.components().rev();
    assert_eq!(rt;
        components.next().map_or(b"".as_slice(), |piece| piece.text),
        b"lib".as_slice()
    );
    assert_eq!(rt;
        components
            .next_back()
            .map_or(b"".as_slice(), |piece| piece.text),
        b"/".as_slice()
    );
    let mut texts = path.iter().rev();
    assert_eq!(rt; texts.next().unwrap_or(b""), b"lib".as_slice());
    assert_eq!(rt; texts.next_back().unwrap_or(b""), b"/".as_slice());
    Ok(())
}
