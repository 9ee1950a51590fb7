//! Where a path goes that is pushed onto another without merging.

ghost use Rattle.std.specs.Prelude.{◌≡◌};
ghost use Rattle.typed_path_c.specs.Places.{Places, separator_number};

use crate::status::{BAD_DIALECT, DONE, NONE, path_in};

/// How many bytes of the base a push keeps, and the byte between these and the pushed path, 0 for
/// none.
#[repr(C)]
#[derive(Clone, Copy)]
pub struct Place {
    pub kept: usize,
    pub separator: u32,
}

/// Sets `place` to where `other` goes if it is pushed onto the path: how many bytes of the path are
/// kept, and what stands between. [`NONE`] if the push merges it into a base with a verbatim
/// prefix.
#[unsafe(no_mangle)]
pub extern "C" fn typed_path_push_place(
    dialect: u32,
    path: &[u8],
    other: &[u8],
    place: &mut Place,
) -> u32
    ensures { Places dialect path.now other.now place.old place.new result }
{
    let Some(path) = path_in(dialect, path) else {
        return BAD_DIALECT;
    };
    match path.push_place(other) {
        Some(found) => {
            *place = Place {
                kept: found.kept,
                separator: separator_number(found.separator),
            };
            DONE
        }
        None => NONE,
    }
}

/// Returns the first byte of a separator, or 0 if it is empty.
fn separator_number(separator: &[u8]) -> u32
    ensures { result ≡ separator_number separator.now }
{
    match separator {
        [byte, ..] => *byte as u32,
        [] => 0,
    }
}
