//! Calls that take lists: of paths, of operations, of ends.

use crate::ended::{Ended, changed};
use std::alloc::{AllocError, Global};
use typed_path::{
    CheckedPathError, Encoding, End, Path, PathBuf, PathOp, Piece, Reply, UnixPath, UnixPathBuf,
    Utf8Encoding, Utf8Path, Utf8PathBuf, read_ends, run_ops,
};

/// A path whose ancestors are the paths of a list: `one name/two/b`, `one name/two`, `one name`,
/// and the empty one, which changes nothing.
const LIST: &str = "one name/two/b";

/// A path, and what it is once the first of the list is pushed, once the second is, and once all
/// are.
pub type States = [&'static str; 4];

/// Returns how a path ended onto which the list was pushed. If allocation failed, a beginning of
/// the list may be pushed.
fn extended(outcome: Result<(), AllocError>, now: &[u8], states: States) -> Ended {
    let [none, one, two, all] = states.map(|state| now == state.as_bytes());
    match outcome {
        Ok(()) => Ended::done(all, states[0]),
        Err(_) => Ended::refused(none || one || two, states[0]),
    }
}

/// Extends a path of bytes by the list, and returns how that ended.
pub fn extend_bytes<T: Encoding>(alloc: Global, states: States) -> Result<Ended, AllocError> {
    let mut path = PathBuf::<T>::from_str(alloc, states[0])?;
    let outcome = path.extend(Path::new(LIST.as_bytes()).ancestors());
    Ok(extended(outcome, path.as_path().as_bytes(), states))
}

/// Extends a path of text by the list, and returns how that ended.
pub fn extend_text<T: Utf8Encoding>(alloc: Global, states: States) -> Result<Ended, AllocError> {
    let mut path = Utf8PathBuf::<T>::from_str(alloc, states[0])?;
    let outcome = path.extend(Utf8Path::new(LIST).ancestors());
    Ok(extended(outcome, path.as_path().as_str().as_bytes(), states))
}

/// Pushes the first of the list onto two texts, by either call of an encoding, and returns how that
/// ended.
pub fn push_text<T: Utf8Encoding>(alloc: Global, states: States) -> Result<Ended, AllocError> {
    let row = (states[0], LIST, states[1]);
    let mut text = String::from_str(alloc, states[0])?;
    let pushed = changed(T::push(&mut text, LIST), text.as_bytes(), row, false);
    let mut text = String::from_str(alloc, states[0])?;
    let checked = changed(
        T::push_checked(&mut text, LIST),
        text.as_bytes(),
        row,
        false,
    );
    Ok(pushed.and(checked))
}

/// Extends the empty Unix path by three names, and returns how that ended.
pub fn extend_nothing(alloc: Global) -> Ended {
    let mut path = UnixPathBuf::new(alloc);
    let (a, b, c) = (
        UnixPath::new(b"a"),
        UnixPath::new(b"b"),
        UnixPath::new(b"c"),
    );
    let outcome = path.extend([a, b, c]);
    extended(
        outcome,
        path.as_path().as_bytes(),
        ["", "a", "a/b", "a/b/c"],
    )
}

/// Makes a path of bytes of the list, and returns how that ended.
pub fn collect_bytes<T: Encoding>(alloc: Global, states: States) -> Result<Ended, AllocError> {
    let list = Path::<T>::new(LIST.as_bytes()).ancestors();
    let path = PathBuf::from_iter(alloc, list)?;
    Ok(Ended::done(path.as_path().as_bytes() == states[3].as_bytes(), states[3]))
}

/// Makes a path of text of the list, and returns how that ended.
pub fn collect_text<T: Utf8Encoding>(alloc: Global, states: States) -> Result<Ended, AllocError> {
    let path = Utf8PathBuf::from_iter(alloc, Utf8Path::<T>::new(LIST).ancestors())?;
    Ok(Ended::done(path.as_path().as_str() == states[3], states[3]))
}

/// Operations, the last of which pushes the list.
const OPERATIONS: [PathOp<'static>; 7] = [
    PathOp::PushChecked(b".."),
    PathOp::Push(b"a name.b"),
    PathOp::SetExtension(b"an extension"),
    PathOp::SetFileName(b"a name that is longer than all before it"),
    PathOp::Pop,
    PathOp::Clear,
    PathOp::Extend(&[b"one name/two/b", b"one name/two", b"one name"]),
];

/// What each of the operations returns.
const REPLIES: [Reply; 7] = [
    Reply::Refused(CheckedPathError::PathTraversalAttack),
    Reply::Done,
    Reply::Flag(true),
    Reply::Done,
    Reply::Flag(true),
    Reply::Done,
    Reply::Done,
];

/// Runs the operations on a path of bytes, and returns how that ended. `behind` has what the path
/// is after none of them, after one, and so on up to all but the last. If allocation failed, the
/// path should be what it is after those that have replies, or with a beginning of the list pushed
/// by the last.
pub fn operate<T: Encoding>(
    alloc: Global,
    behind: [&'static str; 7],
    states: States,
) -> Result<Ended, AllocError> {
    let mut path = PathBuf::<T>::from_str(alloc, behind[0])?;
    let mut replies = Vec::new(alloc);
    let outcome = run_ops(&mut path, &OPERATIONS, &mut replies);
    let (now, count) = (path.as_path().as_bytes(), replies.len());
    if Some(replies.as_slice()) != REPLIES.get(..count) {
        return Ok(Ended::Wrong("a reply"));
    }
    if count >= 6 {
        return Ok(extended(outcome, now, states));
    }
    let is_behind = behind.get(count).is_some_and(|text| now == text.as_bytes());
    Ok(Ended::refused(is_behind && outcome.is_err(), behind[0]))
}

/// Reads from both ends, and returns how that ended. If allocation failed, nothing should be read.
pub fn read_both<T: Encoding>(alloc: Global) -> Result<Ended, AllocError> {
    let text = b"a/./b//c".as_slice();
    let mut components = Path::<T>::new(text).components();
    let mut answers: Vec<Option<Piece<'_>>> = Vec::new(alloc);
    let ends = [End::Back, End::Front, End::Back, End::Front];
    let outcome = read_ends(&mut components, &ends, &mut answers);
    let left = components.as_bytes();
    Ok(match outcome {
        Ok(()) => Ended::done(left.is_empty() && answers.len() == 4, "ends"),
        Err(_) => Ended::refused(left == text && answers.is_empty(), "ends"),
    })
}
