//! What a status says, and what a kind of component is called, in English.

ghost use Rattle.std.specs.Prelude.{◌≡◌, ◌≤◌, length};
ghost use Rattle.typed_path_c.specs.Answers.{Suffices};
ghost use Rattle.typed_path_c.specs.Texts.{kind_text, status_text, Says};

use crate::status::{NONE, put};

/// Puts the text of a status, or returns [`NONE`] if there is no such status.
#[unsafe(no_mangle)]
pub extern "C" fn typed_path_status_text(status: u32, out: &mut [u8], len: &mut usize) -> u32
    ensures said { Says (status_text status) out.old len.old out.new len.new result }
    ensures fits { Suffices 63 out.old result }
{
    say(status_text(status), out, len)
}

/// Puts the text of a kind of component, or returns [`NONE`] if there is no such kind.
#[unsafe(no_mangle)]
pub extern "C" fn typed_path_kind_text(kind: u32, out: &mut [u8], len: &mut usize) -> u32
    ensures said { Says (kind_text kind) out.old len.old out.new len.new result }
    ensures fits { Suffices 63 out.old result }
{
    say(kind_text(kind), out, len)
}

/// Puts `text`, or returns [`NONE`] if it is empty.
fn say(text: &str, out: &mut [u8], len: &mut usize) -> u32
    ensures said { Says text.now out.old len.old out.new len.new result }
    ensures fits { length text.now ≤ 63 → Suffices 63 out.old result }
{
    if text.is_empty() {
        return NONE;
    }
    put(text.as_bytes(), out, len)
}

/// Returns the text of a status, empty if there is no such status. For a refusal that the library
/// prints, it is what the library prints.
fn status_text(status: u32) -> &'static str
    ensures text { result.now ≡ status_text status }
    ensures short { length result.now ≤ 63 }
{
    match status {
        0 => "done",
        1 => "path contains invalid filename",
        2 => "path attempts to escape original path",
        3 => "path contains unexpected prefix",
        4 => "path contains unexpected root",
        5 => "out of memory",
        6 => "answer does not fit",
        7 => "number names no dialect",
        8 => "there is none",
        9 => "path is ambiguous",
        10 => "an end lies before the one before it, or behind the names",
        11 => "no reading of the path stands there",
        12 => "path contains a prefix",
        13 => "path contains a forbidden byte",
        14 => "path contains a name that may be a device",
        15 => "path contains a name that ends in a dot or a space",
        16 => "path contains a name that is too long",
        17 => "path contains a name that is not UTF-8",
        _ => "",
    }
}

/// Returns the text of a kind of component, empty if there is no such kind.
fn kind_text(kind: u32) -> &'static str
    ensures text { result.now ≡ kind_text kind }
    ensures short { length result.now ≤ 63 }
{
    match kind {
        0 => "root",
        1 => "current directory",
        2 => "parent directory",
        3 => "name",
        4 => "verbatim prefix",
        5 => "verbatim share",
        6 => "verbatim drive",
        7 => "device",
        8 => "share",
        9 => "drive",
        _ => "",
    }
}
