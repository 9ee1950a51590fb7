//! What tests share: texts with repetitions, and a hasher that tells its words apart.

use std::alloc::{AllocError, Global};
use std::hash::{DefaultHasher, Hash, Hasher};

/// How many repetitions are appended at once.
const BLOCK: usize = 1_024;

/// Returns `begin`, `text` as often as `times` says, and `end`.
pub fn repeated(
    alloc: Global,
    begin: &[u8],
    text: &[u8],
    times: usize,
    end: &[u8],
) -> Result<Vec<u8>, AllocError> {
    let mut bytes = Vec::new(alloc);
    bytes.extend_from_slice(begin)?;
    let block = text.repeat(alloc, BLOCK.min(times))?;
    for _ in 0..times / BLOCK {
        bytes.extend_from_slice(block.as_slice())?;
    }
    let rest = text.repeat(alloc, times % BLOCK)?;
    bytes.extend_from_slice(rest.as_slice())?;
    bytes.extend_from_slice(end)?;
    Ok(bytes)
}

/// A hasher that tells its words apart: after each word it is fed its length.
#[derive(Drop)]
pub struct Recorder(DefaultHasher);

impl Recorder {
    pub fn new() -> Recorder {
        Recorder(DefaultHasher::new())
    }
}

impl Hasher for Recorder {
    ghost use Rattle.std.specs.Prelude.{◌∷◌, length, fold};
    ghost use Rattle.std.specs.Hash.{usize};
    ghost use Rattle.std.specs.Hash.DefaultHasher as sip;

    ghost write = { λ s bytes. record { 0 = fold sip.write s.0 (bytes ∷ usize (length bytes)) } };

    ghost finish = { λ s. sip.finish s.0 };

    fn finish(&self) -> u64 {
        self.0.finish()
    }

    fn write(&mut self, bytes: &[u8]) {
        self.0.write(bytes);
        self.0.write_usize(bytes.len());
    }
}

/// Returns what a recorder makes of a key.
pub fn recorded<K: Hash>(key: &K) -> u64 {
    let mut state = Recorder::new();
    key.hash(&mut state);
    state.finish()
}
