//! A reader that gives its bytes in pieces and fails, and a writer that takes few bytes and fails.

ghost use Rattle.std.specs.Prelude.{None, true, false};

use typed_path::{Failed, Sink, Source};

/// A reader that gives at most `piece` bytes a read, and fails once it gave `until` bytes.
#[derive(Drop)]
pub struct Pieces<'a> {
    pub bytes: &'a [u8],
    pub piece: usize,
    pub until: usize,
    pub failed: bool,
}

impl<'a> Pieces<'a> {
    pub fn new(bytes: &'a [u8], piece: usize, until: usize) -> Pieces<'a> {
        Pieces {
            bytes,
            piece,
            until,
            failed: false,
        }
    }
}

impl Source for Pieces<'_> {
    ghost use Rattle.std.specs.Prelude.{None, length};

    ghost remaining = { λ _. None };

    ghost has_failed = { λ s. s.failed };

    ghost bound = { λ s. length s.bytes.now };

    fn read(&mut self, buffer: &mut [u8]) -> Result<usize, Failed> {
        if self.until == 0 {
            self.failed = true;
            return Err(Failed);
        }
        let count = self
            .bytes
            .len()
            .min(buffer.len())
            .min(self.piece)
            .min(self.until);
        buffer[..count].copy_from_slice(&self.bytes[..count]);
        self.bytes = &self.bytes[count..];
        self.until -= count;
        Ok(count)
    }
}

/// A writer that takes at most `piece` bytes a write, and fails at the write after `writes` of
/// them.
#[derive(Drop)]
pub struct Drops {
    pub taken: Vec<u8>,
    pub piece: usize,
    pub writes: usize,
    pub failed: bool,
}

impl Sink for Drops {
    ghost use Rattle.std.specs.Prelude.{None};

    ghost contents = { λ _. None };

    ghost has_failed = { λ s. s.failed };

    fn write(&mut self, bytes: &[u8]) -> Result<usize, Failed> {
        let count = bytes.len().min(self.piece);
        if self.writes == 0 || count == 0 && !bytes.is_empty() {
            self.failed = true;
            return Err(Failed);
        }
        match self.taken.extend_from_slice(&bytes[..count]) {
            Ok(()) => {
                self.writes -= 1;
                Ok(count)
            }
            Err(_) => {
                self.failed = true;
                Err(Failed)
            }
        }
    }
}
