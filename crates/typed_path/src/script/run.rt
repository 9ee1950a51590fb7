//! Lists of operations on an owned path, and lists of requests to an iterator over components.

ghost use Rattle.std.specs.Prelude.{◌≡◌, ◌≤◌, ◌+◌, ◌++◌, map, length, OnOk, OnErr, IfOk, IsOk, option_map};
ghost use Rattle.std.specs.Vec.{vec_len, vec_capacity};
ghost use Rattle.typed_path.specs.changes.{step, text_after, FitsEach, FitsStep, FitsAll};
ghost use Rattle.typed_path.specs.views.RunViews.{operation_of, operations_of, response_of, responses_of, IsPartDone, AreTaken, StopsAt};
ghost use Rattle.typed_path.specs.views.PieceViews.{part_of};
ghost use Rattle.typed_path.specs.views.PathViews.{components_items, components_slice};
ghost use Rattle.typed_path.specs.scan.{answers_after, items_after, slice_after, sides, taken_parts};
ghost use Rattle.typed_path.specs.changes.Push as push_spec;
ghost use Rattle.typed_path.specs.changes.Run as run_spec;

use crate::common::{Components, Encoding, Path, PathBuf};
use crate::errors::{CheckedPathError, PathError};
use crate::scan::Piece;
use std::alloc::AllocError;

/// An operation on an owned path.
#[derive(Clone, Copy, Debug)]
pub enum PathOp<'a> {
    /// `push` of a path of these bytes.
    Push(&'a [u8]),
    /// `push_checked` of a path of these bytes.
    PushChecked(&'a [u8]),
    /// `pop`.
    Pop,
    /// `set_file_name`.
    SetFileName(&'a [u8]),
    /// `set_extension`.
    SetExtension(&'a [u8]),
    /// `clear`.
    Clear,
    /// `extend` by paths of these bytes.
    Extend(&'a [&'a [u8]]),
}

/// What an operation returns.
#[derive(Clone, Copy, Debug, PartialEq, Eq, Hash)]
pub enum Reply {
    /// The operation was done, and returns nothing.
    Done,
    /// What `pop` and `set_extension` return.
    Flag(bool),
    /// Why a checked push is refused.
    Refused(CheckedPathError),
}

/// Does operations on a path in their order, and appends a reply for each.
///
/// Of the Unix path `/etc` the operations `Push(b"a.txt")` and `Pop` leave `/etc`, and the replies
/// `Done` and `Flag(true)`. A refused push is a reply.
///
/// # Errors
///
/// `AllocError` if allocation fails. Memory for a reply is allocated before its operation, so the
/// replies are then those of the operations done, and the path is as these left it, with the pushes
/// that an `Extend` had done.
pub fn run_ops<T: Encoding>(
    path: &mut PathBuf<T>,
    operations: &[PathOp<'_>],
    replies: &mut Vec<Reply>,
) -> Result<(), AllocError>
    ensures path { OnOk result
        (path.new.bytes ≡ text_after T.dialect path.old.bytes (operations_of operations.now)) }
    ensures replies { OnOk result (responses_of replies.new.items ≡ responses_of replies.old.items
        ++ run_spec.replies T.dialect path.old.bytes (operations_of operations.now)) }
    ensures memory { OnErr result
        (StopsAt T.dialect path.old.bytes (operations_of operations.now) path.new.bytes
        (responses_of replies.old.items) (responses_of replies.new.items)) }
    ensures succeeds { vec_len replies.old + length operations.now ≤ vec_capacity replies.old
        → FitsAll T.dialect path.old.capacity path.old.bytes (operations_of operations.now)
        → IsOk result }
{
    'operations: for operation in operations {
        replies.reserve(1)?;
        let reply = apply(path, *operation)?;
        replies.push(reply)?;
    }
    Ok(())
}

/// Does one operation on a path, and returns its reply. If allocation fails, nothing was done but
/// for some pushes of an `Extend`.
fn apply<T: Encoding>(path: &mut PathBuf<T>, operation: PathOp<'_>) -> Result<Reply, AllocError>
    ensures path { OnOk result
        (path.new.bytes ≡ (step T.dialect path.old.bytes (operation_of operation.entry)).0) }
    ensures reply { IfOk result (λ reply. response_of reply
        ≡ (step T.dialect path.old.bytes (operation_of operation.entry)).1) }
    ensures memory { OnErr result
        (IsPartDone T.dialect path.old.bytes (operation_of operation.entry) path.new.bytes) }
    ensures capacity { path.old.capacity ≤ path.new.capacity }
    ensures succeeds { FitsStep T.dialect path.old.capacity path.old.bytes
        (operation_of operation.entry) → IsOk result }
{
    match operation {
        PathOp::Push(other) => path.push(Path::new(other))?,
        PathOp::PushChecked(other) => match path.push_checked(Path::new(other)) {
            Ok(()) => {}
            Err(PathError::Checked(refusal)) => return Ok(Reply::Refused(refusal)),
            Err(PathError::OutOfMemory) => return Err(AllocError),
        },
        PathOp::Pop => return Ok(Reply::Flag(path.pop())),
        PathOp::SetFileName(name) => path.set_file_name(name)?,
        PathOp::SetExtension(extension) => {
            return Ok(Reply::Flag(path.set_extension(extension)?));
        }
        PathOp::Clear => path.clear(),
        PathOp::Extend(others) => push_each(path, others)?,
    }
    Ok(Reply::Done)
}

/// Pushes the paths of these bytes one by one. If allocation fails, those before stay pushed.
fn push_each<T: Encoding>(path: &mut PathBuf<T>, others: &[&[u8]]) -> Result<(), AllocError>
    ensures ok { OnOk result (path.new.bytes
        ≡ push_spec.push_all T.dialect path.old.bytes (map (λ b. b.now) others.now)) }
    ensures err { OnErr result
        (AreTaken T.dialect path.old.bytes (map (λ b. b.now) others.now) path.new.bytes) }
    ensures capacity { path.old.capacity ≤ path.new.capacity }
    ensures succeeds { FitsEach T.dialect path.old.capacity path.old.bytes
        (map (λ b. b.now) others.now) → IsOk result }
{
    let mut known = None;
    'others: for other in others {
        known = path.push_next(Path::new(other), known)?;
    }
    Ok(())
}

/// The end of a path at which a component is asked for.
#[derive(Clone, Copy, Debug, PartialEq, Eq, PartialOrd, Ord, Hash)]
pub enum End {
    /// The first component that is left.
    Front,
    /// The last component that is left.
    Back,
}

/// Takes one component for each of `ends`, and appends it to `answers`: `None` once all are taken.
///
/// Of the Unix path `/a/b` the ends `Back` and `Front` give `b` and the root.
///
/// # Errors
///
/// `AllocError` if allocation fails. All memory is allocated first, so nothing has changed then.
pub fn read_ends<'a, T: Encoding>(
    components: &mut Components<'a, T>,
    ends: &[End],
    answers: &mut Vec<Option<Piece<'a>>>,
) -> Result<(), AllocError>
    ensures answers { OnOk result (map (option_map part_of) answers.new.items
        ≡ map (option_map part_of) answers.old.items
        ++ taken_parts (answers_after (components_items components.old) (sides ends.now))) }
    ensures items { OnOk result (components_items components.new
        ≡ items_after (components_items components.old) (sides ends.now)) }
    ensures slice { OnOk result (components_slice components.new
        ≡ slice_after (components_items components.old) (components_slice components.old)
        (sides ends.now)) }
    ensures succeeds { vec_len answers.old + length ends.now ≤ vec_capacity answers.old
        → IsOk result }
    ensures answers_kept { OnErr result (answers.new.items ≡ answers.old.items) }
    ensures items_kept { OnErr result
        (components_items components.new ≡ components_items components.old) }
    ensures slice_kept { OnErr result
        (components_slice components.new ≡ components_slice components.old) }
{
    answers.reserve(ends.len())?;
    'ends: for end in ends {
        let answer = match end {
            End::Front => components.next(),
            End::Back => components.next_back(),
        };
        answers.push(answer)?;
    }
    Ok(())
}
