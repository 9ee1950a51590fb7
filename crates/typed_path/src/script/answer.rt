//! A dialogue of lines between a source and a sink: the two streams, the loop over reads, and what
//! is kept between them.

ghost use Rattle.std.specs.Prelude.{◌≡◌, ◌<◌, [], length, true, OnOk, OnErr, IfErr, IsErrOf, ◌∷◌, ◌≤◌, ℕ, List, Bool, Option, take, IfOk, ◌-◌, ◌^◌, false, None, if◌then◌else◌, ◌++◌};
ghost use Rattle.std.specs.Io.KnownBytes.{Appends, Consumes, IsAtEnd};
ghost use Rattle.typed_path.specs.script.{streams, AnswersAll, StopsReading, StopsWriting, RunsOut, Ends, WritesPart, KeepsIfTold, split_lines, reply, replies_to, complete_lines, open_line, all_lines, status_of};

use crate::errors::LineError;
use crate::scan::cut_at;
use crate::script::lines::answer_line;
use std::alloc::{AllocError, Global};
use std::io::{Read, Write};
use thiserror::Error;

/// A source or a sink failed.
#[derive(Clone, Copy, Debug, PartialEq, Eq, Error)]
#[error("a stream failed")]
pub struct Failed;

/// A stream that bytes are read from.
///
/// Its ghost members tell the bytes that are left, if they are known; whether it has failed; and a
/// bound on how many reads may still give bytes.
pub trait Source {
    ghost remaining: { Self → Option (List ℕ) };

    ghost has_failed: { Self → Bool };

    ghost bound: { Self → ℕ };

    /// Reads into the front of `buffer`, and returns how many bytes came. 0 means the end, unless
    /// `buffer` is empty. A failure moves no byte.
    fn read(&mut self, buffer: &mut [u8]) -> Result<usize, Failed>
        ensures count { IfOk result (λ n. n ≤ length buffer.new) }
        ensures bytes { IfOk result
            (λ n. Consumes (remaining self.old) (remaining self.new) (take n buffer.new)) }
        ensures end { IfOk result
            (λ n. n ≡ 0 → 0 < length buffer.new → IsAtEnd (remaining self.new)) }
        ensures nearer { IfOk result (λ n. 0 < n → bound self.new < bound self.old) }
        ensures unfailed { OnOk result (has_failed self.new ≡ has_failed self.old) }
        ensures failed { OnErr result (has_failed self.new ≡ true) }
        ensures kept { OnErr result (KeepsIfTold (remaining self.old) (remaining self.new)) };
}

/// A stream that bytes are written to.
///
/// Its ghost members tell the bytes that were written, if they are known, and whether it has
/// failed.
pub trait Sink {
    ghost contents: { Self → Option (List ℕ) };

    ghost has_failed: { Self → Bool };

    /// Writes bytes from the front of `bytes`, and returns how many: at least one, unless `bytes`
    /// is empty. A failure moves no byte.
    fn write(&mut self, bytes: &[u8]) -> Result<usize, Failed>
        ensures count { IfOk result (λ n. n ≤ length bytes.now) }
        ensures some { IfOk result (λ n. 0 < length bytes.now → 0 < n) }
        ensures bytes { IfOk result
            (λ n. Appends (contents self.old) (contents self.new) (take n bytes.now)) }
        ensures unfailed { OnOk result (has_failed self.new ≡ has_failed self.old) }
        ensures failed { OnErr result (has_failed self.new ≡ true) }
        ensures kept { OnErr result (KeepsIfTold (contents self.old) (contents self.new)) };
}

/// Reads lines of commands to the end of the input, and writes a reply to each.
///
/// A line is complete once its line feed, or the end of the input, was read; every complete line is
/// answered before the next read. The reply to the line `join<TAB>unix<TAB>/a<TAB>b` is
/// `ok<TAB>/a/b`. Nothing is flushed.
///
/// # Errors
///
/// `Read` or `Write` if the reader or the writer failed. `OutOfMemory` if allocation fails: no byte
/// of the reply to the line at hand is written then, and replies that were not written yet are
/// dropped.
pub fn answer_lines<R: Source, W: Sink>(
    alloc: Global,
    reader: &mut R,
    writer: &mut W,
) -> Result<(), LineError>
    ensures ok { OnOk result (AnswersAll (streams (R.remaining reader.old) (R.has_failed reader.old)
        (W.contents writer.old) (W.has_failed writer.old))
        (streams (R.remaining reader.new) (R.has_failed reader.new)
        (W.contents writer.new) (W.has_failed writer.new))) }
    ensures read { IsErrOf result LineError.Read → StopsReading
        (streams (R.remaining reader.old) (R.has_failed reader.old)
        (W.contents writer.old) (W.has_failed writer.old))
        (streams (R.remaining reader.new) (R.has_failed reader.new)
        (W.contents writer.new) (W.has_failed writer.new)) }
    ensures write { IsErrOf result LineError.Write → StopsWriting
        (streams (R.remaining reader.old) (R.has_failed reader.old)
        (W.contents writer.old) (W.has_failed writer.old))
        (streams (R.remaining reader.new) (R.has_failed reader.new)
        (W.contents writer.new) (W.has_failed writer.new)) }
    ensures memory { IsErrOf result LineError.OutOfMemory → RunsOut
        (streams (R.remaining reader.old) (R.has_failed reader.old)
        (W.contents writer.old) (W.has_failed writer.old))
        (streams (R.remaining reader.new) (R.has_failed reader.new)
        (W.contents writer.new) (W.has_failed writer.new)) }
{
    let mut chunk = vec![in alloc; 0u8; CHUNK]?;
    let mut dialogue = Dialogue::new(alloc);
    converse(&mut dialogue, reader, writer, chunk.as_mut_slice())
}

/// How many bytes one read asks for at most.
const CHUNK: usize = 65_536;

/// Reads into `buffer` until a read gives nothing, and answers the lines that come.
fn converse<R: Source, W: Sink>(
    dialogue: &mut Dialogue,
    reader: &mut R,
    writer: &mut W,
    buffer: &mut [u8],
) -> Result<(), LineError>
    requires room { 0 < length buffer.old }
    requires no_line { dialogue.old.line.items ≡ [] }
    requires no_replies { dialogue.old.replies.items ≡ [] }
    ensures { Ends result (streams (R.remaining reader.old) (R.has_failed reader.old)
        (W.contents writer.old) (W.has_failed writer.old))
        (streams (R.remaining reader.new) (R.has_failed reader.new)
        (W.contents writer.new) (W.has_failed writer.new)) }
{
    'reads: loop {
        let Ok(count) = reader.read(buffer) else {
            return Err(LineError::Read);
        };
        if count == 0 {
            break;
        }
        dialogue.take_in(&buffer[..count])?;
        send(dialogue, writer)?;
    }
    dialogue.finish()?;
    send(dialogue, writer)
}

/// Writes the replies of a dialogue, and removes them from it. If the writer fails, some of their
/// first bytes may have been written.
fn send<W: Sink>(dialogue: &mut Dialogue, writer: &mut W) -> Result<(), LineError>
    ensures written { OnOk result
        (Appends (W.contents writer.old) (W.contents writer.new) dialogue.old.replies.items) }
    ensures emptied { OnOk result (dialogue.new.replies.items ≡ []) }
    ensures line { dialogue.new.line.items ≡ dialogue.old.line.items }
    ensures unfailed { OnOk result (W.has_failed writer.new ≡ W.has_failed writer.old) }
    ensures error { IfErr result (λ e. e ≡ LineError.Write) }
    ensures part { OnErr result
        (WritesPart (W.contents writer.old) (W.contents writer.new) dialogue.old.replies.items) }
    ensures failed { OnErr result (W.has_failed writer.new ≡ true) }
{
    write_all(writer, dialogue.replies.as_slice()).map_err(|_| LineError::Write)?;
    dialogue.replies.clear();
    Ok(())
}

/// Writes all bytes, by as many writes as it takes. If one fails, some of the first bytes may have
/// been written.
fn write_all<W: Sink>(writer: &mut W, bytes: &[u8]) -> Result<(), Failed>
    ensures written { OnOk result
        (Appends (W.contents writer.old) (W.contents writer.new) bytes.now) }
    ensures unfailed { OnOk result (W.has_failed writer.new ≡ W.has_failed writer.old) }
    ensures part { OnErr result
        (WritesPart (W.contents writer.old) (W.contents writer.new) bytes.now) }
    ensures failed { OnErr result (W.has_failed writer.new ≡ true) }
{
    let mut rest = bytes;
    'writes: while !rest.is_empty() {
        let count = writer.write(rest)?;
        rest = &rest[count..];
    }
    Ok(())
}

/// The replies that were not written yet, and the line that is not complete yet.
#[derive(Drop)]
struct Dialogue {
    /// What came after the last line feed.
    line: Vec<u8>,
    /// The replies that were not written yet.
    replies: Vec<u8>,
    ghost is_open: { split_lines line.items ≡ line.items ∷ [] },
}

impl Dialogue {
    /// Returns a dialogue with no open line and no replies.
    fn new(alloc: Global) -> Dialogue
        ensures line { result.line.items ≡ [] }
        ensures replies { result.replies.items ≡ [] }
    {
        Dialogue {
            line: Vec::new(alloc),
            replies: Vec::new(alloc),
        }
    }

    /// Takes in more input, and answers each line that it completes. If allocation fails, the state
    /// of the dialogue is unspecified.
    fn take_in(&mut self, input: &[u8]) -> Result<(), AllocError>
        ensures replies { OnOk result (self.new.replies.items ≡ self.old.replies.items
            ++ replies_to (complete_lines (self.old.line.items ++ input.now))) }
        ensures line { OnOk result
            (self.new.line.items ≡ open_line (self.old.line.items ++ input.now)) }
    {
        let mut rest = input;
        if !self.line.is_empty() {
            let Some((piece, behind)) = cut_at(b'\n', input) else {
                return self.line.extend_from_slice(input);
            };
            self.complete(piece)?;
            rest = behind;
        }
        'lines: while let Some(left) = answer_line(rest, &mut self.replies)? {
            rest = left;
        }
        self.line.extend_from_slice(rest)
    }

    /// Answers the line that `piece`, which has no line feed, completes. If allocation fails, the
    /// state of the dialogue is unspecified.
    fn complete(&mut self, piece: &[u8]) -> Result<(), AllocError>
        requires { split_lines piece.now ≡ piece.now ∷ [] }
        ensures replies { OnOk result (self.new.replies.items
            ≡ self.old.replies.items ++ reply (self.old.line.items ++ piece.now)) }
        ensures line { OnOk result (self.new.line.items ≡ []) }
    {
        self.line.extend_from_slice(piece)?;
        self.line.push(b'\n')?;
        let answered = answer_line(self.line.as_slice(), &mut self.replies).is_ok();
        self.line.clear();
        if answered { Ok(()) } else { Err(AllocError) }
    }

    /// Answers the open line, if it is not empty, once the input is at its end. If allocation
    /// fails, the state of the dialogue is unspecified.
    fn finish(&mut self) -> Result<(), AllocError>
        ensures { OnOk result (self.new.replies.items
            ≡ self.old.replies.items ++ replies_to (all_lines (self.old.line.items ∷ []))) }
    {
        if self.line.is_empty() {
            return Ok(());
        }
        self.complete(b"")
    }
}

/// A source over a reader of std. Once it has failed, the bytes that are left are not known.
///
/// It grants 2^64 - 1 reads; one more is a failure.
#[derive(Drop)]
pub struct StdSource<R> {
    reader: R,
    granted: u64,
    failed: bool,
}

impl<R: Read> StdSource<R> {
    /// Returns a source over the reader, which has not failed.
    pub fn new(reader: R) -> StdSource<R>
        ensures remaining { ⟦<StdSource<R> as Source>⟧.remaining result ≡ R.remaining reader }
        ensures unfailed { ⟦<StdSource<R> as Source>⟧.has_failed result ≡ false }
        ensures granted { ⟦<StdSource<R> as Source>⟧.bound result ≡ 2 ^ 64 - 1 }
    {
        StdSource {
            reader,
            granted: u64::MAX,
            failed: false,
        }
    }
}

impl<R: Read> Source for StdSource<R> {
    ghost remaining = { λ s. if s.failed then None else R.remaining s.reader };

    ghost has_failed = { λ s. s.failed };

    ghost bound = { λ s. s.granted };

    /// Uses up one of the granted reads. Fails if none is left, or if the reader fails.
    fn read(&mut self, buffer: &mut [u8]) -> Result<usize, Failed>
        ensures count { IfOk result (λ n. n ≤ length buffer.new) }
        ensures bytes { IfOk result (λ n. Consumes (⟦<StdSource<R> as Source>⟧.remaining self.old)
            (⟦<StdSource<R> as Source>⟧.remaining self.new) (take n buffer.new)) }
        ensures end { IfOk result (λ n. n ≡ 0 → 0 < length buffer.new
            → IsAtEnd (⟦<StdSource<R> as Source>⟧.remaining self.new)) }
        ensures nearer { IfOk result (λ n. 0 < n → ⟦<StdSource<R> as Source>⟧.bound self.new
            < ⟦<StdSource<R> as Source>⟧.bound self.old) }
        ensures granted { ⟦<StdSource<R> as Source>⟧.bound self.new
            ≡ ⟦<StdSource<R> as Source>⟧.bound self.old - 1 }
        ensures unfailed { OnOk result (⟦<StdSource<R> as Source>⟧.has_failed self.new
            ≡ ⟦<StdSource<R> as Source>⟧.has_failed self.old) }
        ensures failed { OnErr result (⟦<StdSource<R> as Source>⟧.has_failed self.new ≡ true) }
        ensures kept { OnErr result (KeepsIfTold (⟦<StdSource<R> as Source>⟧.remaining self.old)
            (⟦<StdSource<R> as Source>⟧.remaining self.new)) }
    {
        if self.granted == 0 {
            self.failed = true;
            return Err(Failed);
        }
        self.granted -= 1;
        match self.reader.read(buffer) {
            Ok(count) => Ok(count),
            Err(_) => {
                self.failed = true;
                Err(Failed)
            }
        }
    }
}

/// A sink over a writer of std. Once it has failed, the bytes that were written are not known.
///
/// A write that takes no byte is a failure, unless there is none to write.
#[derive(Drop)]
pub struct StdSink<W> {
    writer: W,
    failed: bool,
}

impl<W: Write> StdSink<W> {
    /// Returns a sink over the writer, which has not failed.
    pub fn new(writer: W) -> StdSink<W>
        ensures contents { ⟦<StdSink<W> as Sink>⟧.contents result ≡ W.contents writer }
        ensures unfailed { ⟦<StdSink<W> as Sink>⟧.has_failed result ≡ false }
    {
        StdSink {
            writer,
            failed: false,
        }
    }
}

impl<W: Write> Sink for StdSink<W> {
    ghost contents = { λ s. if s.failed then None else W.contents s.writer };

    ghost has_failed = { λ s. s.failed };

    fn write(&mut self, bytes: &[u8]) -> Result<usize, Failed> {
        match self.writer.write(bytes) {
            Ok(count) if count > 0 || bytes.is_empty() => Ok(count),
            _ => {
                self.failed = true;
                Err(Failed)
            }
        }
    }
}

/// Returns the exit status of a run: 0 if all was answered, 1 if the reader or the writer failed, 2
/// if allocation failed.
pub fn exit_status(outcome: &Result<(), LineError>) -> u8
    ensures { result ≡ status_of outcome.now }
{
    match outcome {
        Ok(()) => 0,
        Err(LineError::Read | LineError::Write) => 1,
        Err(LineError::OutOfMemory) => 2,
    }
}
