//! Makes the calls of each family while memory may be refused, and prints a line for each that says
//! how it ended: done, refused, or wrong.
#![tactic(auto)]

mod calls;
mod copies;
mod ended;
mod free;
mod lends;
mod lists;
mod rows;

use calls::{
    Change, change_bytes, change_text, change_typed, change_typed_text, make_bytes, make_text,
    make_typed, make_typed_text,
};
use copies::{copy_bytes, copy_text, copy_typed, copy_typed_text};
use ended::Ended;
use free::{free_bytes, free_text, free_typed, free_typed_text};
use lends::{lend_bytes, lend_text, lend_typed, lend_typed_text};
use lists::{
    collect_bytes, collect_text, extend_bytes, extend_nothing, extend_text, operate, push_text,
    read_both,
};
use rows::{Table, UNIX, WINDOWS};
use std::io;
use typed_path::{
    Encoding, PathType, PlatformEncoding, UnixEncoding, Utf8Encoding, Utf8PlatformEncoding,
    Utf8UnixEncoding, Utf8WindowsEncoding, WindowsEncoding,
};

/// Prints how a call of a family ended.
fn tell(rt: &impl Print, family: &str, call: &str, ended: Ended) -> io::Result<()> {
    match ended {
        Ended::Done => println!(rt; "{family}: {call} done"),
        Ended::Refused => println!(rt; "{family}: {call} refused"),
        Ended::Wrong(of) => println!(rt; "{family}: {call} wrong: {of}"),
    }
}

/// Prints how calls of a family ended.
fn tell_all(rt: &impl Print, family: &str, told: &[(&str, Ended)]) -> io::Result<()> {
    for (call, ended) in told {
        tell(rt, family, call, *ended)?;
    }
    Ok(())
}

/// Makes the calls that every family has, and prints how each ended with all its rows: first the
/// changes of an owned path, then those that make a new one.
macro_rules! tell_rows {
    ($rt:expr, $family:expr, $table:expr, $call:ident, $row:ident, $room:ident => $change:expr, $make:expr) => {
        for (name, call, rows) in $table.changes {
            let $call = *call;
            let mut ended = Ended::Done;
            for row in *rows {
                for $room in [false, true] {
                    let $row = *row;
                    ended = ended.and($change.unwrap_or(Ended::Refused));
                }
            }
            tell($rt, $family, name, ended)?;
        }
        let mut anew = Ended::Done;
        for row in $table.anew {
            let ($call, $row, $room) = (Change::Push, *row, false);
            anew = anew.and($change.unwrap_or(Ended::Refused));
        }
        tell($rt, $family, "push, spelled anew", anew)?;
        for (name, call, rows) in $table.makes {
            let $call = *call;
            let mut ended = Ended::Done;
            for row in *rows {
                let $row = *row;
                ended = ended.and($make);
            }
            tell($rt, $family, name, ended)?;
        }
    };
}

/// Makes the calls of paths of bytes, and prints how each ended.
fn tell_bytes<T: Encoding>(
    rt: &(impl Print + AllocGlobal),
    family: &str,
    table: &Table,
) -> io::Result<()> {
    let alloc = rt.alloc();
    tell_rows!(rt, family, table, call, row, room =>
        change_bytes::<T>(alloc, call, row, room), make_bytes::<T>(alloc, call, row));
    let lists = [
        ("extend", extend_bytes::<T>(alloc, table.onto)),
        ("from_iter", collect_bytes::<T>(alloc, table.nothing)),
        ("run_ops", operate::<T>(alloc, table.behind, table.nothing)),
        ("read_ends", read_both::<T>(alloc)),
    ];
    for (call, ended) in lists {
        tell(rt, family, call, ended.unwrap_or(Ended::Refused))?;
    }
    copy_bytes::<T>(rt, alloc, family, table.copied)?;
    free_bytes::<T>(rt, alloc, family, table.free)?;
    lend_bytes::<T>(rt, alloc, family, table.free)
}

/// Makes the calls of paths of text, and prints how each ended.
fn tell_text<T: Utf8Encoding>(
    rt: &(impl Print + AllocGlobal),
    family: &str,
    table: &Table,
) -> io::Result<()> {
    let alloc = rt.alloc();
    tell_rows!(rt, family, table, call, row, room =>
        change_text::<T>(alloc, call, row, room), make_text::<T>(alloc, call, row));
    let lists = [
        ("extend", extend_text::<T>(alloc, table.onto)),
        ("from_iter", collect_text::<T>(alloc, table.nothing)),
        ("push of the encoding", push_text::<T>(alloc, table.onto)),
    ];
    for (call, ended) in lists {
        tell(rt, family, call, ended.unwrap_or(Ended::Refused))?;
    }
    copy_text::<T>(rt, alloc, family, table.copied)?;
    free_text::<T>(rt, alloc, family, table.free)?;
    lend_text::<T>(rt, alloc, family, table.free)
}

/// Makes the calls of paths of either dialect, and prints how each ended.
fn tell_typed(
    rt: &(impl Print + AllocGlobal),
    family: &str,
    kind: PathType,
    table: &Table,
) -> io::Result<()> {
    let alloc = rt.alloc();
    tell_rows!(rt, family, table, call, row, room =>
        change_typed(alloc, kind, call, row, room),
        make_typed(alloc, kind, call, row).unwrap_or(Ended::Refused));
    copy_typed(rt, alloc, family, table.copied.0)?;
    free_typed(rt, alloc, family, table.free)?;
    lend_typed(rt, alloc, family, table.free)
}

/// Makes the calls of paths of text of either dialect, and prints how each ended.
fn tell_typed_text(
    rt: &(impl Print + AllocGlobal),
    family: &str,
    kind: PathType,
    table: &Table,
) -> io::Result<()> {
    let alloc = rt.alloc();
    tell_rows!(rt, family, table, call, row, room =>
        change_typed_text(alloc, kind, call, row, room),
        make_typed_text(alloc, kind, call, row).unwrap_or(Ended::Refused));
    copy_typed_text(rt, alloc, family, table.copied.0)?;
    free_typed_text(rt, alloc, family, table.free)?;
    lend_typed_text(rt, alloc, family, table.free)
}

fn main(rt: HostRuntime) -> io::Result<()> {
    tell_bytes::<UnixEncoding>(&rt, "UnixPath", &UNIX)?;
    tell(
        &rt,
        "UnixPath",
        "extend of nothing by names",
        extend_nothing(rt.alloc()),
    )?;
    tell_bytes::<WindowsEncoding>(&rt, "WindowsPath", &WINDOWS)?;
    tell_bytes::<PlatformEncoding>(&rt, "PlatformPath", &UNIX)?;
    tell_text::<Utf8UnixEncoding>(&rt, "Utf8UnixPath", &UNIX)?;
    tell_text::<Utf8WindowsEncoding>(&rt, "Utf8WindowsPath", &WINDOWS)?;
    tell_text::<Utf8PlatformEncoding>(&rt, "Utf8PlatformPath", &UNIX)?;
    tell_typed(&rt, "TypedPath of Unix", PathType::Unix, &UNIX)?;
    tell_typed(&rt, "TypedPath of Windows", PathType::Windows, &WINDOWS)?;
    tell_typed_text(&rt, "Utf8TypedPath of Unix", PathType::Unix, &UNIX)?;
    tell_typed_text(&rt, "Utf8TypedPath of Windows", PathType::Windows, &WINDOWS)
}
