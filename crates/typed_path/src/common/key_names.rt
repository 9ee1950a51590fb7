//! Names that stand side by side in a path, written as the bytes of its key.

ghost use Rattle.std.specs.Prelude.{◌≡◌, ◌≤◌, ◌<◌, ◌+◌, ◌^◌, ◌++◌, length, take, drop};
ghost use Rattle.typed_path.specs.order.{IsPutFrom, left_key_bytes};
ghost use Rattle.typed_path.specs.views.BodyViews.{body_items};

use crate::scan::{Body, begins_no_name, lowest, marks_at};

/// Takes names off the front of `body`, and returns how many bytes they are in the key.
///
/// The bytes are written to `block` from `at` on; what follows them there may be overwritten. 0
/// means that none was taken: whether the next component is a name is left open.
///
/// In a path one separator stands between two such names, and in its key one byte: the length of
/// the second. So all bytes are copied at once, and lengths are written over the separators.
#[inline(always)]
pub fn lay_names(body: &mut Body<'_>, block: &mut [u8], at: usize) -> usize
    requires room { at + 64 ≤ length block.old }
    ensures within { result ≤ 64 }
    ensures long { length block.new ≡ length block.old }
    ensures kept { take at block.new ≡ take at block.old }
    ensures laid { left_key_bytes (body_items body.old)
        ≡ take result (drop at block.new) ++ left_key_bytes (body_items body.new) }
{
    let left = body.as_bytes();
    let pair = body.separators.pair();
    let [first, second, ..] = left else {
        return 0;
    };
    if begins_no_name(pair, *first, *second) {
        return 0;
    }
    // Separators stand before the bytes, and fill the block after them: so each segment ends in the
    // block, and one that is cut off there is left in `body`.
    let size = left.len().min(61);
    put_bytes(block, at, &[pair.0; 64]);
    put_bytes(block, at + 1, &left[..size]);
    let mut marks = marks_at::<64>(block, at, pair) >> 1;
    let mut begin = 0;
    'names: while marks != 0 {
        let length = lowest(marks);
        let end = begin + 1 + length;
        if size < end {
            if size < left.len() {
                break;
            }
            block[at + begin] = 10 + length as u8;
            *body = body.further(size);
            return size + 1;
        }
        let parted = begins_no_name(pair, block[at + end + 1], block[at + end + 2]);
        block[at + begin] = 10 + length as u8;
        if parted {
            *body = body.further(begin);
            body.take_segment(length);
            return end;
        }
        begin = end;
        marks = (marks >> length) >> 1;
    }
    if begin != 0 {
        *body = body.further(begin);
    }
    begin
}

/// Writes `bytes` to `out[at..]`, or nothing if they do not fit, and returns `at + bytes.len()`.
#[inline(always)]
pub fn put_bytes(out: &mut [u8], at: usize, bytes: &[u8]) -> usize
    requires { at + length bytes.now < 2 ^ 64 }
    ensures { IsPutFrom at bytes.now out.old out.new result }
{
    let end = at + bytes.len();
    if end <= out.len() {
        out[at..end].copy_from_slice(bytes);
    }
    end
}
