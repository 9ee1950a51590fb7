//! Replies to lines, in whatever pieces they come and whatever fails.

use crate::streams::{Drops, Pieces};
use std::alloc::Global;
use std::io;
use std::io::{Read, Write};
use std::test::Fail;
use typed_path::{LineError, Sink, Source, StdSink, StdSource, answer_lines, exit_status};
use typed_path_tests::repeated;

const ALL: usize = usize::MAX;

fn sink(alloc: Global, piece: usize, writes: usize) -> Drops {
    Drops {
        taken: Vec::new(alloc),
        piece,
        writes,
        failed: false,
    }
}

/// Returns the replies to an input that comes in pieces and fails after `until` bytes, and how
/// the run ended.
fn answered(
    alloc: Global,
    input: &[u8],
    piece: usize,
    until: usize,
) -> (Vec<u8>, Result<(), LineError>) {
    let mut reader = Pieces::new(input, piece, until);
    let mut writer = sink(alloc, ALL, ALL);
    let outcome = answer_lines(alloc, &mut reader, &mut writer);
    let Drops {
        taken,
        piece: _,
        writes: _,
        failed: _,
    } = writer;
    (taken, outcome)
}

#[test]
fn replies(rt: HostRuntime) -> Result<(), Fail> {
    const ROWS: &[(&[u8], &[u8])] = &[
        (
            b"normalize\tunix\tfoo/bar//baz/./asdf/quux/..",
            b"ok\tfoo/bar/baz/asdf\n",
        ),
        (b"normalize\tunix\t/a/./b/../../..//c\n", b"ok\t/c\n"),
        (b"normalize\tunix\t../a\n", b"ok\ta\n"),
        (b"normalize\tunix\t.\n", b"ok\t\n"),
        (b"normalize\tunix\t\n", b"ok\t\n"),
        (
            b"components\tunix\t./a/..\n",
            b"ok\tcurrent=.\tnormal=a\tparent=..\n",
        ),
        (b"components\tunix\t\n", b"ok\n"),
        (
            b"components\tunix\t/a/./b//\n",
            b"ok\troot=/\tnormal=a\tnormal=b\n",
        ),
        (b"join\tunix\t/etc\tabc/../def\n", b"ok\t/etc/abc/../def\n"),
        (
            b"join_checked\tunix\t/etc\t..\n",
            b"err\tPathTraversalAttack\n",
        ),
        (
            b"join_checked\tunix\t/etc\t/sneaky/replacement\n",
            b"err\tUnexpectedRoot\n",
        ),
        (
            b"join_checked\tunix\tsome/path\tsome/inva\0lid/path\n",
            b"err\tInvalidFilename\n",
        ),
        (b"join_checked\tunix\t..\ta\n", b"ok\t../a\n"),
        (
            b"components\twindows\tC:\\a\n",
            b"ok\tDisk=C:\troot=\\\tnormal=a\n",
        ),
        (b"normalize\twindows\tC:\\a\\.\\..\\b\n", b"ok\tC:\\b\n"),
        (b"join\twindows\tC:\ta\n", b"ok\tC:a\n"),
        (
            b"join_checked\twindows\t\\\\?\\C:\\base\ta/b\\..\\..\n",
            b"ok\t\\\\?\\C:\\base\n",
        ),
        (
            b"join_checked\twindows\tsome\\path\tC:abc\n",
            b"err\tUnexpectedPrefix\n",
        ),
        (b"convert\twindows\tunix\tC:tmp\n", b"ok\tC:/tmp\n"),
        (b"convert\tunix\twindows\t/tmp/a:b\n", b"ok\ta:b\n"),
        (b"convert\tunix\tunix\ta//b\n", b"ok\ta//b\n"),
        (b"convert_checked\tunix\tunix\ta//b\n", b"ok\ta/b\n"),
        (
            b"convert_checked\tunix\twindows\t/tmp/foo.txt\n",
            b"ok\t\\tmp\\foo.txt\n",
        ),
        (
            b"convert_checked\twindows\twindows\tC:\\x\n",
            b"err\tUnexpectedPrefix\n",
        ),
        (
            b"join_checked\twindows\tC:\\x\taux.h\n",
            b"err\tInvalidFilename\n",
        ),
        (
            b"convert_checked\tunix\twindows\t/tmp/ab:c\n",
            b"err\tInvalidFilename\n",
        ),
        (
            b"join\tunix\t/etc\ta\njoin\twindows\tC:\\x\tb\nconvert_checked\tunix\tunix\tc//d\n",
            b"ok\t/etc/a\nok\tC:\\x\\b\nok\tc/d\n",
        ),
        (b"derive\ta:b\n", b"ok\twindows\n"),
        (b"derive\t\n", b"ok\tunix\n"),
        (b"derive\t\\\n", b"ok\twindows\n"),
        (b"derive\t//a/b\n", b"ok\twindows\n"),
        (b"derive\t///a\n", b"ok\tunix\n"),
        (b"derive\t\xe9:x\n", b"ok\twindows\n"),
        (b"derive\t\xd7:x\n", b"ok\tunix\n"),
        (b"derive\ta\tb\n", b"err\tBadLine\n"),
        (b"derive\n", b"err\tBadLine\n"),
        (b"convert\tunix\tmac\ta\n", b"err\tBadLine\n"),
        (b"convert\tunix\ta\n", b"err\tBadLine\n"),
        (b"normalize\tmac\ta\n", b"err\tBadLine\n"),
        (b"normalize\tunix\ta\tb\n", b"err\tBadLine\n"),
        (b"\n", b"err\tBadLine\n"),
        (b"\xff\xfe\r\n\n", b"err\tBadLine\nerr\tBadLine\n"),
        (
            b"normalize\tunix\ta/.\r\nnormalize\tunix\t\xff/",
            b"ok\ta/.\r\nok\t\xff\n",
        ),
        (b"", b""),
    ];
    for piece in [ALL, 1, 7] {
        for &(input, wanted) in ROWS {
            let (written, outcome) = answered(rt.alloc(), input, piece, ALL);
            assert_eq!(rt; outcome, Ok(()));
            assert_eq!(rt; written.as_slice(), wanted, "the reply to {input:?}");
        }
    }
    Ok(())
}

const THREE: &[u8] = b"normalize\tunix\ta//b\nderive\ta:b\nx";

#[test]
fn failing_reader(rt: HostRuntime) -> Result<(), Fail> {
    const ROWS: &[(usize, &[u8])] = &[
        (19, b""),
        (20, b"ok\ta/b\n"),
        (30, b"ok\ta/b\n"),
        (31, b"ok\ta/b\nok\twindows\n"),
    ];
    for &(until, wanted) in ROWS {
        for piece in [ALL, 1] {
            let (written, outcome) = answered(rt.alloc(), THREE, piece, until);
            assert_eq!(rt; outcome, Err(LineError::Read));
            assert_eq!(rt; written.as_slice(), wanted, "failed after {until} bytes");
        }
    }
    Ok(())
}

#[test]
fn failing_writer(rt: HostRuntime) -> Result<(), Fail> {
    const ROWS: &[(usize, usize, &[u8])] = &[(1, 4, b"ok\ta"), (5, 1, b"ok\ta/"), (ALL, 0, b"")];
    for &(piece, writes, wanted) in ROWS {
        let mut reader = Pieces::new(THREE, ALL, ALL);
        let mut writer = sink(rt.alloc(), piece, writes);
        let outcome = answer_lines(rt.alloc(), &mut reader, &mut writer);
        assert_eq!(rt; outcome, Err(LineError::Write));
        assert_eq!(rt; writer.taken.as_slice(), wanted);
    }
    Ok(())
}

/// A writer that takes nothing.
#[derive(Drop)]
struct Full;

impl Write for Full {
    fn write(&mut self, _bytes: &[u8]) -> io::Result<usize> {
        Ok(0)
    }

    fn flush(&mut self) -> io::Result<()> {
        Ok(())
    }
}

/// A writer that takes one byte a call, and nothing once it took `left` bytes.
#[derive(Drop)]
struct Slow {
    taken: Vec<u8>,
    left: usize,
}

impl Write for Slow {
    fn write(&mut self, bytes: &[u8]) -> io::Result<usize> {
        let (Some(byte), Some(left)) = (bytes.first(), self.left.checked_sub(1)) else {
            return Ok(0);
        };
        self.left = left;
        match self.taken.push(*byte) {
            Ok(()) => Ok(1),
            Err(_) => Ok(0),
        }
    }

    fn flush(&mut self) -> io::Result<()> {
        Ok(())
    }
}

/// A reader that gives one byte a call.
#[derive(Drop)]
struct Trickle<'a> {
    bytes: &'a [u8],
}

impl Read for Trickle<'_> {
    fn read(&mut self, buffer: &mut [u8]) -> io::Result<usize> {
        let count = self.bytes.len().min(buffer.len()).min(1);
        buffer[..count].copy_from_slice(&self.bytes[..count]);
        self.bytes = &self.bytes[count..];
        Ok(count)
    }
}

#[test]
fn streams_of_one_byte(rt: HostRuntime) -> Result<(), Fail> {
    let mut reader = StdSource::new(Trickle { bytes: b"ab" });
    let mut buffer = [0u8; 4];
    for wanted in [Ok(1), Ok(1), Ok(0)] {
        assert_eq!(rt; reader.read(&mut buffer), wanted);
    }

    let mut slow = Slow {
        taken: Vec::new(rt.alloc()),
        left: ALL,
    };
    {
        let mut writer = StdSink::new(&mut slow);
        assert_eq!(rt; Sink::write(&mut writer, b"abc"), Ok(1));
        assert_eq!(rt; Sink::write(&mut writer, b""), Ok(0));

        let mut reader = StdSource::new(Trickle { bytes: THREE });
        let outcome = answer_lines(rt.alloc(), &mut reader, &mut writer);
        assert_eq!(rt; outcome, Ok(()));
    }
    assert_eq!(rt;
        slow.taken.as_slice(),
        b"aok\ta/b\nok\twindows\nerr\tBadLine\n".as_slice()
    );
    Ok(())
}

#[test]
fn full_at_the_fifth_byte(rt: HostRuntime) -> Result<(), Fail> {
    for piece in [1, 7] {
        let mut reader = Pieces::new(THREE, piece, ALL);
        let mut slow = Slow {
            taken: Vec::new(rt.alloc()),
            left: 4,
        };
        {
            let mut writer = StdSink::new(&mut slow);
            let outcome = answer_lines(rt.alloc(), &mut reader, &mut writer);
            assert_eq!(rt; outcome, Err(LineError::Write));
        }
        assert_eq!(rt; slow.taken.as_slice(), b"ok\ta".as_slice());
    }
    Ok(())
}

#[test]
fn streams_of_std(rt: HostRuntime) -> Result<(), Fail> {
    let mut reader = StdSource::new(THREE);
    let mut full = StdSink::new(Full);
    let outcome = answer_lines(rt.alloc(), &mut reader, &mut full);
    assert_eq!(rt; outcome, Err(LineError::Write));

    let mut reader = StdSource::new(THREE);
    let mut written = Vec::new(rt.alloc());
    {
        let mut writer = StdSink::new(&mut written);
        let outcome = answer_lines(rt.alloc(), &mut reader, &mut writer);
        assert_eq!(rt; outcome, Ok(()));
    }
    assert_eq!(rt;
        written.as_slice(),
        b"ok\ta/b\nok\twindows\nerr\tBadLine\n".as_slice()
    );
    Ok(())
}

#[test]
fn long_lines(rt: HostRuntime) -> Result<(), Fail> {
    let alloc = rt.alloc();
    let mut lines = repeated(alloc, b"normalize\tunix\t", b"a/../", 600_000, b"\n")?;
    let one = repeated(alloc, b"join\tunix\t", b"/name", 1_000, b"\t")?;
    lines.extend_from_slice(one.as_slice())?;
    let two = repeated(alloc, b"", b"name/", 1_000, b"\njoin\twindows\t")?;
    lines.extend_from_slice(two.as_slice())?;
    let three = repeated(alloc, b"\\\\?\\C:\\x\t", b"name/", 2_000, b"\n")?;
    lines.extend_from_slice(three.as_slice())?;

    let mut wanted = repeated(alloc, b"ok\t\nok\t", b"/name", 1_000, b"/")?;
    let two = repeated(alloc, b"", b"name/", 1_000, b"\nok\t")?;
    wanted.extend_from_slice(two.as_slice())?;
    let three = repeated(alloc, b"\\\\?\\C:\\x", b"\\name", 2_000, b"\n")?;
    wanted.extend_from_slice(three.as_slice())?;
    let (written, outcome) = answered(alloc, lines.as_slice(), ALL, ALL);
    assert_eq!(rt; outcome, Ok(()));
    assert_eq!(rt; written.as_slice(), wanted.as_slice());
    Ok(())
}

#[test]
fn statuses(rt: HostRuntime) {
    let rows = [
        (Ok(()), 0),
        (Err(LineError::Read), 1),
        (Err(LineError::Write), 1),
        (Err(LineError::OutOfMemory), 2),
    ];
    for (outcome, wanted) in rows {
        assert_eq!(rt; exit_status(&outcome), wanted);
    }
}
