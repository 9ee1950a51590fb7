//! A line with a command, at the front of an input, and the reply to it: either is fields with a
//! tab between, and a line feed. If allocation fails, `replies` may keep a part of the reply.

ghost use Rattle.std.specs.Prelude.{◌≡◌, [], ◌∷◌, ◌++◌, Some, take, length, OnOk, option_map, ◌≢◌, ℕ, List, codes, MatchOption, IfOk, IfSome, IfNone};
ghost use Rattle.typed_path.specs.components.{parts_of};
ghost use Rattle.typed_path.specs.changes.{push};
ghost use Rattle.typed_path.specs.views.PieceViews.{part_of, step_part};
ghost use Rattle.typed_path.specs.views.SpanViews.{span_bytes};
ghost use Rattle.typed_path.specs.conversions.{converted_checked};
ghost use Rattle.typed_path.specs.script.{tab, equals_sign, reply_line, text_reply, components_reply, reply_in, pair_reply_in, convert_reply_in, joined_reply, converted_reply, derived_reply, bad_line, component_field, kind_name, split_lines, fields_of, reply, bare_reply, AnswersFirst, command_name, end_byte, texts_reply};

use crate::common::{Encoding, append_first};
use crate::conversions::{convert_checked, put_converted};
use crate::errors::{CheckedPathError, PathError};
use crate::scan::{
    Piece, PieceKind, Span, Step, StepKind, WindowsPrefix, cut_at, first_between, text_behind,
};
use crate::typed::PathType;
use crate::unix::UnixEncoding;
use crate::windows::WindowsEncoding;
use std::alloc::AllocError;

/// Appends the reply to the first line of `input` to `replies`, and returns what follows the line.
/// `None`, and no reply, if `input` has no line feed.
pub fn answer_line<'a>(
    input: &'a [u8],
    replies: &mut Vec<u8>,
) -> Result<Option<&'a [u8]>, AllocError>
    ensures { IfOk result (λ left. AnswersFirst reply input.now (option_map (λ t. t.now) left)
        replies.old.items replies.new.items) }
{
    let Some((command, rest)) = command_of(input) else {
        return match text_behind(b"derive\t", input) {
            Some(texts) => answer_derive(texts, replies),
            None => answer_bad_line(input, replies),
        };
    };
    if let Some(texts) = text_behind(b"unix\t", rest) {
        return answer_texts::<UnixEncoding>(command, texts, replies);
    }
    if let Some(texts) = text_behind(b"windows\t", rest) {
        return answer_texts::<WindowsEncoding>(command, texts, replies);
    }
    answer_bad_line(rest, replies)
}

/// Answers the command `derive`: which encoding the path at the front of `input` looks like.
/// Returns as [`answer_line`] does.
fn answer_derive<'a>(input: &'a [u8], replies: &mut Vec<u8>) -> Result<Option<&'a [u8]>, AllocError>
    ensures { IfOk result (λ left.
        AnswersFirst (λ texts. reply_line (bare_reply (codes "derive" ∷ fields_of texts)))
        input.now (option_map (λ t. t.now) left) replies.old.items replies.new.items) }
{
    match cut_field(input) {
        None => Ok(None),
        Some((path, FieldEnd::LineFeed, left)) => {
            put_derived(path.as_bytes(), replies)?;
            Ok(Some(left))
        }
        Some((_, FieldEnd::Tab, rest)) => answer_bad_line(rest, replies),
    }
}

/// Answers a command by the paths at the front of `input`, with a tab between. Returns as
/// [`answer_line`] does.
#[inline(always)]
fn answer_texts<'a, T: Encoding>(
    command: Command,
    input: &'a [u8],
    replies: &mut Vec<u8>,
) -> Result<Option<&'a [u8]>, AllocError>
    ensures { IfOk result (λ left. AnswersFirst (λ texts. reply_line
        (texts_reply T.dialect (command_name command) (fields_of texts)))
        input.now (option_map (λ t. t.now) left) replies.old.items replies.new.items) }
{
    // Inlined: a call would hand the result on through memory.
    match cut_field(input) {
        None => Ok(None),
        Some((path, FieldEnd::LineFeed, left)) => {
            put_path_reply::<T>(command, path, replies)?;
            Ok(Some(left))
        }
        Some((first, FieldEnd::Tab, rest)) => answer_pair::<T>(
            command,
            first.as_bytes(),
            rest,
            replies,
        ),
    }
}

/// Answers a command by `first` and by the path at the front of `input`. Returns as [`answer_line`]
/// does.
fn answer_pair<'a, T: Encoding>(
    command: Command,
    first: &[u8],
    input: &'a [u8],
    replies: &mut Vec<u8>,
) -> Result<Option<&'a [u8]>, AllocError>
    ensures { IfOk result (λ left. AnswersFirst (λ texts. reply_line
        (texts_reply T.dialect (command_name command) (first.now ∷ fields_of texts)))
        input.now (option_map (λ t. t.now) left) replies.old.items replies.new.items) }
{
    match cut_field(input) {
        None => Ok(None),
        Some((path, FieldEnd::LineFeed, left)) => {
            put_pair_reply::<T>(command, first, path, replies)?;
            Ok(Some(left))
        }
        Some((_, FieldEnd::Tab, rest)) => answer_bad_line(rest, replies),
    }
}

/// Answers a line that is no command, of which `input` holds the rest. Returns as [`answer_line`]
/// does.
fn answer_bad_line<'a>(
    input: &'a [u8],
    replies: &mut Vec<u8>,
) -> Result<Option<&'a [u8]>, AllocError>
    ensures { IfOk result (λ left. AnswersFirst (λ line. reply_line bad_line)
        input.now (option_map (λ t. t.now) left) replies.old.items replies.new.items) }
{
    let Some((_, left)) = cut_at(b'\n', input) else {
        return Ok(None);
    };
    put_bad_line(replies)?;
    Ok(Some(left))
}

/// A command whose line names an encoding.
#[derive(Clone, Copy)]
enum Command {
    Normalize,
    Components,
    Join,
    JoinChecked,
    Convert,
    ConvertChecked,
}

/// Returns the command at the front of `input`, and what follows its tab; `None` if `input` begins
/// otherwise.
fn command_of(input: &[u8]) -> Option<(Command, &[u8])>
    ensures { MatchOption result
        ((c : Command) (rest : List ℕ) → input.now ≢ command_name c ++ tab ∷ rest)
        (λ found. input.now ≡ command_name found.0 ++ tab ∷ found.1.now) }
{
    if let Some(rest) = text_behind(b"normalize\t", input) {
        return Some((Command::Normalize, rest));
    }
    if let Some(rest) = text_behind(b"components\t", input) {
        return Some((Command::Components, rest));
    }
    if let Some(rest) = text_behind(b"join\t", input) {
        return Some((Command::Join, rest));
    }
    if let Some(rest) = text_behind(b"join_checked\t", input) {
        return Some((Command::JoinChecked, rest));
    }
    if let Some(rest) = text_behind(b"convert\t", input) {
        return Some((Command::Convert, rest));
    }
    if let Some(rest) = text_behind(b"convert_checked\t", input) {
        return Some((Command::ConvertChecked, rest));
    }
    None
}

/// The byte that ends a field.
#[derive(Clone, Copy)]
enum FieldEnd {
    /// A tab: another field follows.
    Tab,
    /// A line feed: the line ends.
    LineFeed,
}

/// Returns the field at the front of `input`, which byte ends it, and what follows that byte;
/// `None` if `input` has neither a tab nor a line feed.
#[inline(always)]
fn cut_field(input: &[u8]) -> Option<(Span<'_>, FieldEnd, &[u8])>
    ensures none { IfNone result (split_lines input.now ≡ input.now ∷ []) }
    ensures text { IfSome result
        (λ cut. input.now ≡ span_bytes cut.0 ++ end_byte cut.1 ∷ cut.2.now) }
    ensures field { IfSome result (λ cut. fields_of (span_bytes cut.0) ≡ span_bytes cut.0 ∷ []) }
    ensures line { IfSome result (λ cut. split_lines (span_bytes cut.0) ≡ span_bytes cut.0 ∷ []) }
{
    let at = first_between(input, 0, input.len(), (b'\t', b'\n'));
    if at == input.len() {
        return None;
    }
    let end = if input[at] == b'\t' {
        FieldEnd::Tab
    } else {
        FieldEnd::LineFeed
    };
    let field = Span {
        text: input,
        len: at,
    };
    Some((field, end, &input[at + 1..]))
}

/// Appends to `replies` the line `ok`, a tab, and the name of the encoding that `path` looks like:
/// `unix` or `windows`.
fn put_derived(path: &[u8], replies: &mut Vec<u8>) -> Result<(), AllocError>
    ensures { OnOk result
        (replies.new.items ≡ replies.old.items ++ reply_line (derived_reply path.now)) }
{
    match PathType::derive(path) {
        PathType::Unix => replies.extend_from_slice(b"ok\tunix\n"),
        PathType::Windows => replies.extend_from_slice(b"ok\twindows\n"),
    }
}

/// Appends to `replies` the reply to a command with one path: that of [`put_bad_line`] if the
/// command needs two fields.
fn put_path_reply<T: Encoding>(
    command: Command,
    path: Span<'_>,
    replies: &mut Vec<u8>,
) -> Result<(), AllocError>
    ensures { OnOk result (replies.new.items ≡ replies.old.items
        ++ reply_line (reply_in T.dialect (command_name command) (span_bytes path.entry))) }
{
    match command {
        Command::Normalize => {
            replies.extend_from_slice(b"ok\t")?;
            T::put_normal(replies, path.as_bytes())?;
            replies.push(b'\n')?;
            Ok(())
        }
        Command::Components => put_components::<T>(path, replies),
        Command::Join | Command::JoinChecked | Command::Convert | Command::ConvertChecked => {
            put_bad_line(replies)
        }
    }
}

/// Appends to `replies` the reply to a command with two fields: a base and a path, or the name of
/// an encoding and a path. It is that of [`put_bad_line`] if the command takes one path, or no
/// encoding has that name.
fn put_pair_reply<T: Encoding>(
    command: Command,
    first: &[u8],
    path: Span<'_>,
    replies: &mut Vec<u8>,
) -> Result<(), AllocError>
    ensures { OnOk result (replies.new.items ≡ replies.old.items ++ reply_line
        (pair_reply_in T.dialect (command_name command) first.now (span_bytes path.entry))) }
{
    match command {
        Command::Join => put_joined::<T>(first, path.as_bytes(), replies),
        Command::JoinChecked => match T::check(path.as_bytes()) {
            Ok(()) => put_joined::<T>(first, path.as_bytes(), replies),
            Err(refusal) => put_refusal(refusal, replies),
        },
        Command::Convert | Command::ConvertChecked if first == b"unix".as_slice() => {
            put_conversion::<T, UnixEncoding>(command, path, replies)
        }
        Command::Convert | Command::ConvertChecked if first == b"windows".as_slice() => {
            put_conversion::<T, WindowsEncoding>(command, path, replies)
        }
        _ => put_bad_line(replies),
    }
}

/// Appends to `replies` the reply to a command that converts `path` to the encoding `U`; to any
/// other command that of [`put_bad_line`].
fn put_conversion<T: Encoding, U: Encoding>(
    command: Command,
    path: Span<'_>,
    replies: &mut Vec<u8>,
) -> Result<(), AllocError>
    ensures { OnOk result (replies.new.items ≡ replies.old.items ++ reply_line
        (convert_reply_in T.dialect (command_name command) (span_bytes path.entry) U.dialect)) }
{
    match command {
        Command::Convert => {
            replies.extend_from_slice(b"ok\t")?;
            put_converted::<T, U>(replies, path)?;
            replies.push(b'\n')?;
            Ok(())
        }
        Command::ConvertChecked => put_converted_checked::<T, U>(path, replies),
        Command::Normalize | Command::Components | Command::Join | Command::JoinChecked => {
            put_bad_line(replies)
        }
    }
}

/// Appends to `replies` the line `ok`, a tab, and `path` in the encoding `U`, as
/// [`convert_checked`] makes it; or that of [`put_refusal`] if a component is refused.
fn put_converted_checked<T: Encoding, U: Encoding>(
    path: Span<'_>,
    replies: &mut Vec<u8>,
) -> Result<(), AllocError>
    ensures { OnOk result (replies.new.items ≡ replies.old.items ++ reply_line (converted_reply
        (converted_checked T.dialect U.dialect (span_bytes path.entry)))) }
{
    let len = replies.len();
    replies.extend_from_slice(b"ok\t")?;
    let start = replies.len();
    match convert_checked::<T, U>(replies, start, path) {
        Ok(()) => {
            replies.push(b'\n')?;
            Ok(())
        }
        Err(PathError::Checked(refusal)) => {
            replies.truncate(len);
            put_refusal(refusal, replies)
        }
        Err(PathError::OutOfMemory) => Err(AllocError),
    }
}

/// Appends to `replies` the line `ok`, a tab, and `base` with `path` pushed onto it. If allocation
/// fails, `replies` may keep a part of the line.
fn put_joined<T: Encoding>(
    base: &[u8],
    path: &[u8],
    replies: &mut Vec<u8>,
) -> Result<(), AllocError>
    ensures { OnOk result
        (replies.new.items ≡ replies.old.items ++ text_reply (push T.dialect base.now path.now)) }
{
    replies.extend_from_slice(b"ok\t")?;
    let start = replies.len();
    replies.extend_from_slice(base)?;
    T::push_behind(replies, start, path)?;
    replies.push(b'\n')?;
    Ok(())
}

/// Appends to `replies` the line `err`, a tab, and the name of a refusal.
fn put_refusal(refusal: CheckedPathError, replies: &mut Vec<u8>) -> Result<(), AllocError>
    ensures { OnOk result
        (replies.new.items ≡ replies.old.items ++ reply_line (joined_reply [] (Some refusal))) }
{
    match refusal {
        CheckedPathError::InvalidFilename => replies.extend_from_slice(b"err\tInvalidFilename\n"),
        CheckedPathError::PathTraversalAttack => {
            replies.extend_from_slice(b"err\tPathTraversalAttack\n")
        }
        CheckedPathError::UnexpectedPrefix => {
            replies.extend_from_slice(b"err\tUnexpectedPrefix\n")
        }
        CheckedPathError::UnexpectedRoot => replies.extend_from_slice(b"err\tUnexpectedRoot\n"),
    }
}

/// Appends to `replies` the line `err`, a tab, and `BadLine`, which is the reply to a line that is
/// no command.
fn put_bad_line(replies: &mut Vec<u8>) -> Result<(), AllocError>
    ensures { OnOk result (replies.new.items ≡ replies.old.items ++ reply_line bad_line) }
{
    replies.extend_from_slice(b"err\tBadLine\n")
}

/// Appends to `replies` the line `ok`, with a tab and a field, as `normal=a`, for each component of
/// `path`.
fn put_components<T: Encoding>(path: Span<'_>, replies: &mut Vec<u8>) -> Result<(), AllocError>
    ensures { OnOk result (replies.new.items ≡ replies.old.items
        ++ reply_line (components_reply (parts_of T.dialect (span_bytes path.entry)))) }
{
    let cursor = T::cursor(path.as_bytes()).within(path);
    replies.extend_from_slice(b"ok")?;
    // The prefix comes first, so that the loop is over steps, which have no room for one.
    match cursor.prefix_piece() {
        Some(piece) => put_component(piece, replies)?,
        None => {}
    }
    let mut body = cursor.body();
    let mut left = body.onward();
    'steps: while let Some(step) = body.front() {
        put_step(step, left, replies)?;
        left = body.onward();
    }
    replies.push(b'\n')?;
    Ok(())
}

/// Appends to `replies` a tab and the field of a component after the prefix, as `normal=a`. `left`
/// begins with the component if that is a name, and may go on after it.
#[inline(always)]
fn put_step(step: Step<'_>, left: &[u8], replies: &mut Vec<u8>) -> Result<(), AllocError>
    requires { step.kind ≡ StepKind.Normal → take (length step.text.now) left.now ≡ step.text.now }
    ensures { OnOk result
        (replies.new.items ≡ replies.old.items ++ tab ∷ component_field (step_part step.entry)) }
{
    put_label(step.piece(), replies)?;
    match step.kind {
        StepKind::Normal => append_first(replies, left, step.text.len()),
        _ => replies.extend_from_slice(step.text),
    }
}

/// Appends to `replies` a tab and the field of a component, as `root=/` or `normal=a`.
#[inline(always)]
fn put_component(piece: Piece<'_>, replies: &mut Vec<u8>) -> Result<(), AllocError>
    ensures { OnOk result
        (replies.new.items ≡ replies.old.items ++ tab ∷ component_field (part_of piece.entry)) }
{
    put_label(piece, replies)?;
    replies.extend_from_slice(piece.text)
}

/// Appends to `replies` a tab, the word for the kind of a component, as `root` or `normal`, and
/// `=`.
#[inline(always)]
fn put_label(piece: Piece<'_>, replies: &mut Vec<u8>) -> Result<(), AllocError>
    ensures { OnOk result (replies.new.items ≡ replies.old.items
        ++ tab ∷ kind_name (part_of piece.entry).kind ++ equals_sign ∷ []) }
{
    // A constant label is copied by a store, where a slice that is chosen first would be a call.
    match piece.kind {
        PieceKind::Prefix(prefix) => match prefix {
            WindowsPrefix::Verbatim(_) => replies.extend_from_slice(b"\tVerbatim="),
            WindowsPrefix::VerbatimUNC(_, _) => replies.extend_from_slice(b"\tVerbatimUNC="),
            WindowsPrefix::VerbatimDisk(_) => replies.extend_from_slice(b"\tVerbatimDisk="),
            WindowsPrefix::DeviceNS(_) => replies.extend_from_slice(b"\tDeviceNS="),
            WindowsPrefix::UNC(_, _) => replies.extend_from_slice(b"\tUNC="),
            WindowsPrefix::Disk(_) => replies.extend_from_slice(b"\tDisk="),
        },
        PieceKind::RootDir => replies.extend_from_slice(b"\troot="),
        PieceKind::CurDir => replies.extend_from_slice(b"\tcurrent="),
        PieceKind::ParentDir => replies.extend_from_slice(b"\tparent="),
        PieceKind::Normal => replies.extend_from_slice(b"\tnormal="),
    }
}
