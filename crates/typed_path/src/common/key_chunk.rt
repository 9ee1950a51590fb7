//! The bytes of a key on their way to a hasher.

ghost use Rattle.std.specs.Prelude.{◌≡◌, ◌≤◌, ◌<◌, ◌++◌, [], IsTrue, false, fold, length};

use crate::common::key_names::{lay_names, put_bytes};
use crate::scan::Body;
use std::hash::Hasher;

/// Bytes of a key that wait to be fed to a hasher: up to 128, which go in one call.
///
/// After these 128 there is room for the 64 that [`lay_names`] may write.
#[derive(Clone, Copy)]
pub struct Chunk {
    bytes: [u8; 192],
    used: usize,
    ghost long: { length bytes ≡ 192 },
    ghost fits: { used ≤ 128 },
}

impl Chunk {
    ghost use Rattle.typed_path.specs.order.{AreFed, chunked, left_key_bytes};
    ghost use Rattle.typed_path.specs.views.BodyViews.{body_items};
    ghost use Rattle.typed_path.specs.views.KeyViews.{chunk_bytes};

    /// Returns a chunk in which no bytes wait.
    #[inline(always)]
    pub fn new() -> Chunk
        ensures { chunk_bytes result ≡ [] }
    {
        Chunk {
            bytes: [0; 192],
            used: 0,
        }
    }

    /// Returns the bytes that wait to be fed.
    #[inline(always)]
    pub fn as_bytes(&self) -> &[u8]
        ensures { result.now ≡ chunk_bytes self.now }
    {
        &self.bytes[..self.used]
    }

    /// Appends `bytes` to those that wait. While more than 128 wait, feeds `state` the first 128.
    #[inline(always)]
    pub fn put<H: Hasher>(&mut self, bytes: &[u8], state: &mut H)
        ensures { AreFed H.write bytes.now state.old (chunk_bytes self.old) (chunk_bytes self.new) state.new }
    {
        if 128 - self.used < bytes.len() {
            return self.put_over(bytes, state);
        }
        self.used = put_bytes(&mut self.bytes, self.used, bytes);
    }

    /// Does what [`Chunk::put`] does, if more than 128 bytes wait then.
    fn put_over<H: Hasher>(&mut self, bytes: &[u8], state: &mut H)
        ensures { AreFed H.write bytes.now state.old (chunk_bytes self.old) (chunk_bytes self.new) state.new }
    {
        let mut left = bytes;
        'chunks: while 128 - self.used < left.len() {
            let (front, behind) = left.split_at(128 - self.used);
            put_bytes(&mut self.bytes, self.used, front);
            state.write(&self.bytes[..128]);
            self.used = 0;
            left = behind;
        }
        self.used = put_bytes(&mut self.bytes, self.used, left);
    }

    /// Takes names off the front of `body`, as [`lay_names`] does, and returns whether it took any.
    ///
    /// In the key they are appended to the bytes that wait; if more than 128 wait then, `state` is
    /// fed the first 128. `false` leaves it open whether a name comes next.
    #[inline(always)]
    pub fn put_names<H: Hasher>(&mut self, body: &mut Body<'_>, state: &mut H) -> bool
        ensures fed { fold H.write state.old (chunked (chunk_bytes self.old ++ left_key_bytes (body_items body.old)))
            ≡ fold H.write state.new (chunked (chunk_bytes self.new ++ left_key_bytes (body_items body.new))) }
        ensures fewer { IsTrue result → length (left_key_bytes (body_items body.new))
            < length (left_key_bytes (body_items body.old)) }
        ensures none { result ≡ false → (state.new ≡ state.old) × (chunk_bytes self.new ≡ chunk_bytes self.old)
            × (left_key_bytes (body_items body.new) ≡ left_key_bytes (body_items body.old)) }
    {
        let count = lay_names(body, &mut self.bytes, self.used);
        let end = self.used + count;
        if end <= 128 {
            self.used = end;
            return count != 0;
        }
        state.write(&self.bytes[..128]);
        self.bytes.copy_within(128..192, 0);
        self.used = end - 128;
        true
    }
}
