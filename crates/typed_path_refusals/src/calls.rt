//! The calls that every family has: those that change an owned path, and those that make a new one.

use crate::ended::{Ended, Row, bytes, changed, text, there, typed, typed_text};
use std::alloc::{AllocError, Global};
use typed_path::{
    Encoding, Path, PathBuf, PathType, PlatformPath, TypedPath, Utf8Encoding, Utf8Path,
    Utf8PathBuf, Utf8PlatformPath, Utf8TypedPath,
};

/// A call that changes an owned path.
#[derive(Clone, Copy)]
pub enum Change {
    Push,
    PushChecked,
    SetFileName,
    SetExtension,
    AddExtension,
    Reserve,
    TryReserve,
    ReserveExact,
    TryReserveExact,
}

/// A call that makes a new path.
#[derive(Clone, Copy)]
pub enum Make {
    Join,
    JoinChecked,
    JoinPortable,
    WithFileName,
    WithExtension,
    WithAddedExtension,
    Normalize,
    Clean,
    ToLowercase,
    RelativeTo,
    Absolutize,
    WithUnix,
    WithUnixChecked,
    WithWindows,
    WithWindowsChecked,
}

/// For how many bytes more room is reserved.
const MORE: usize = 100;

/// Makes a change of an owned path, with room reserved before if `$room` is true, and evaluates to
/// how it ended, as `Ok`. An allocation that fails before the change is returned as an error.
macro_rules! change {
    ($of:expr, $path:ident => $bytes:expr, $change:expr, $other:expr, $name:expr, $row:expr, $room:expr) => {{
        let mut $path = $of;
        if $room {
            $path.reserve(MORE)?;
        }
        Ok(match $change {
            Change::Push => changed($path.push($other), $bytes, $row, $room),
            Change::PushChecked => changed($path.push_checked($other), $bytes, $row, $room),
            Change::SetFileName => changed($path.set_file_name($name), $bytes, $row, $room),
            Change::SetExtension => changed($path.set_extension($name), $bytes, $row, $room),
            Change::AddExtension => changed($path.add_extension($name), $bytes, $row, $room),
            Change::Reserve => changed($path.reserve(MORE), $bytes, $row, $room),
            Change::TryReserve => changed($path.try_reserve(MORE), $bytes, $row, $room),
            Change::ReserveExact => changed($path.reserve_exact(MORE), $bytes, $row, $room),
            Change::TryReserveExact => changed($path.try_reserve_exact(MORE), $bytes, $row, $room),
        })
    }};
}

/// Makes a call that makes a path, and evaluates to how it ended, as the function `$judged` of
/// `ended` says.
macro_rules! make {
    ($judged:ident, $path:expr, $make:expr, $alloc:expr, $other:expr, $name:expr, $at:expr, $row:expr) => {
        match $make {
            Make::Join => $judged($path.join($alloc, $other), $row),
            Make::JoinChecked => $judged($path.join_checked($alloc, $other), $row),
            Make::JoinPortable => $judged($path.join_portable($alloc, $other), $row),
            Make::WithFileName => $judged($path.with_file_name($alloc, $name), $row),
            Make::WithExtension => $judged($path.with_extension($alloc, $name), $row),
            Make::WithAddedExtension => $judged($path.with_added_extension($alloc, $name), $row),
            Make::Normalize => $judged($path.normalize($alloc), $row),
            Make::Clean => $judged($path.clean($alloc), $row),
            Make::ToLowercase => $judged($path.to_ascii_lowercase($alloc), $row),
            Make::RelativeTo => $judged(there($path.relative_to($alloc, $other)), $row),
            Make::Absolutize => $judged($path.absolutize($alloc, $at), $row),
            Make::WithUnix => $judged($path.with_unix_encoding($alloc), $row),
            Make::WithUnixChecked => $judged($path.with_unix_encoding_checked($alloc), $row),
            Make::WithWindows => $judged($path.with_windows_encoding($alloc), $row),
            Make::WithWindowsChecked => $judged($path.with_windows_encoding_checked($alloc), $row),
        }
    };
}

/// Makes a change of a path of bytes, and returns how it ended.
pub fn change_bytes<T: Encoding>(
    alloc: Global,
    call: Change,
    row: Row,
    room: bool,
) -> Result<Ended, AllocError> {
    let name = row.1.as_bytes();
    let owned = PathBuf::<T>::from_bytes(alloc, row.0.as_bytes())?;
    change!(owned, path => path.as_path().as_bytes(), call, Path::new(name), name, row, room)
}

/// Makes a change of a path of text, and returns how it ended.
pub fn change_text<T: Utf8Encoding>(
    alloc: Global,
    call: Change,
    row: Row,
    room: bool,
) -> Result<Ended, AllocError> {
    let (other, name) = (Utf8Path::new(row.1), row.1);
    let owned = Utf8PathBuf::<T>::from_str(alloc, row.0)?;
    change!(owned, path => path.as_path().as_str().as_bytes(), call, other, name, row, room)
}

/// Makes a change of a path of either dialect, and returns how it ended.
pub fn change_typed(
    alloc: Global,
    kind: PathType,
    call: Change,
    row: Row,
    room: bool,
) -> Result<Ended, AllocError> {
    let name = row.1.as_bytes();
    let owned = TypedPath::new(row.0.as_bytes(), kind).to_path_buf(alloc)?;
    change!(owned, path => path.as_bytes(), call, name, name, row, room)
}

/// Makes a change of a path of text of either dialect, and returns how it ended.
pub fn change_typed_text(
    alloc: Global,
    kind: PathType,
    call: Change,
    row: Row,
    room: bool,
) -> Result<Ended, AllocError> {
    let owned = Utf8TypedPath::new(row.0, kind).to_path_buf(alloc)?;
    change!(owned, path => path.as_str().as_bytes(), call, row.1, row.1, row, room)
}

/// Makes a path of a path of bytes, and returns how that ended.
pub fn make_bytes<T: Encoding>(alloc: Global, call: Make, row: Row) -> Ended {
    let (path, name) = (Path::<T>::new(row.0.as_bytes()), row.1.as_bytes());
    make!(
        bytes,
        path,
        call,
        alloc,
        Path::new(name),
        name,
        PlatformPath::new(name),
        row
    )
}

/// Makes a path of a path of text, and returns how that ended.
pub fn make_text<T: Utf8Encoding>(alloc: Global, call: Make, row: Row) -> Ended {
    let (path, name) = (Utf8Path::<T>::new(row.0), row.1);
    make!(
        text,
        path,
        call,
        alloc,
        Utf8Path::new(name),
        name,
        Utf8PlatformPath::new(name),
        row
    )
}

/// Makes a path of an owned one of either dialect, which must stay as it is, and returns how that
/// ended.
pub fn make_typed(
    alloc: Global,
    kind: PathType,
    call: Make,
    row: Row,
) -> Result<Ended, AllocError> {
    let (base, name) = (row.0, row.1.as_bytes());
    let path = TypedPath::new(base.as_bytes(), kind).to_path_buf(alloc)?;
    let ended = make!(
        typed,
        path,
        call,
        alloc,
        name,
        name,
        PlatformPath::new(name),
        row
    );
    Ok(ended.and(Ended::done(path.as_bytes() == base.as_bytes(), base)))
}

/// Makes a path of an owned one of text of either dialect, which must stay as it is, and returns
/// how that ended.
pub fn make_typed_text(
    alloc: Global,
    kind: PathType,
    call: Make,
    row: Row,
) -> Result<Ended, AllocError> {
    let (base, name) = (row.0, row.1);
    let path = Utf8TypedPath::new(base, kind).to_path_buf(alloc)?;
    let ended = make!(
        typed_text,
        path,
        call,
        alloc,
        name,
        name,
        Utf8PlatformPath::new(name),
        row
    );
    Ok(ended.and(Ended::done(path.as_str() == base, base)))
}
