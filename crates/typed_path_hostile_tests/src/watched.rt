//! Lines that are read one by one: before each, the replies to all before it must be written.

ghost use Rattle.std.specs.Prelude.{None, false, length};

use std::cell::Cell;
use std::test::Fail;
use typed_path::{Failed, Sink, Source, answer_lines};

/// A reader that gives one line a call, and notes if another number of bytes than expected was
/// written by then.
#[derive(Drop)]
struct Watcher<'a> {
    lines: &'a [(&'a [u8], usize)],
    written: &'a Cell<usize>,
    is_late: bool,
}

impl Source for Watcher<'_> {
    ghost remaining = { λ _. None };

    ghost has_failed = { λ _. false };

    ghost bound = { λ s. length s.lines.now };

    fn read(&mut self, buffer: &mut [u8]) -> Result<usize, Failed> {
        let [(line, wanted), rest @ ..] = self.lines else {
            return Ok(0);
        };
        if self.written.get() != *wanted {
            self.is_late = true;
        }
        let count = line.len().min(buffer.len());
        buffer[..count].copy_from_slice(&line[..count]);
        self.lines = rest;
        Ok(count)
    }
}

/// A writer that counts the bytes that it takes.
#[derive(Drop)]
struct Counter<'a> {
    written: &'a Cell<usize>,
}

impl Sink for Counter<'_> {
    ghost contents = { λ _. None };

    ghost has_failed = { λ _. false };

    fn write(&mut self, bytes: &[u8]) -> Result<usize, Failed> {
        self.written
            .set(self.written.get().saturating_add(bytes.len()));
        Ok(bytes.len())
    }
}

#[test]
fn replies_before_the_next_read(rt: HostRuntime) {
    let lines: [(&[u8], usize); 5] = [
        (b"normalize\tunix\ta//b\n", 0),
        (b"derive\ta:b\n", 7),
        (b"x\nderive\t\nhalf a ", 18),
        (b"line\n", 38),
        (b"y", 50),
    ];
    let written = Cell::new(0);
    let mut reader = Watcher {
        lines: &lines,
        written: &written,
        is_late: false,
    };
    let mut writer = Counter { written: &written };
    let outcome = answer_lines(rt.alloc(), &mut reader, &mut writer);
    assert_eq!(rt; outcome, Ok(()));
    assert!(rt; !reader.is_late);
    assert_eq!(rt; written.get(), 62);
}
