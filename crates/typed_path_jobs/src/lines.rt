//! Lines of all commands, some of them bad, which the loop of the program answers.

use crate::digest::Digest;
use crate::random::Random;
use crate::texts::Texts;
use crate::tree::{Tree, unix, windows};
use std::alloc::{AllocError, Global};
use typed_path::{StdSink, StdSource, answer_lines, exit_status};

/// How many lines an input has on paths of each system.
const LINES: usize = 1_800;

/// How many inputs differ by their letters alone, before other lines are made.
const RENEWALS: u64 = 32;

/// The commands, each with its tab.
const COMMANDS: &[&[u8]] = &[
    b"components\t",
    b"normalize\t",
    b"join\t",
    b"join_checked\t",
    b"convert\t",
    b"convert_checked\t",
    b"derive\t",
];

/// The names of the dialects, each with its tab.
const DIALECTS: &[&[u8]] = &[b"unix\t", b"windows\t"];

/// What bad lines begin with.
const BAD: &[&[u8]] = &[
    b"normalise\tunix\t",
    b"\t",
    b"join\tdos\t",
    b"",
    b"convert\tunix\t",
];

/// Appends one line, on a path of `tree`, or on a folder of it and a path of `joined`.
fn put_line(
    random: &mut Random,
    (tree, joined): (&Tree, &Tree),
    dialect: &[u8],
    texts: &mut Texts,
) -> Result<(), AllocError> {
    let mut place = tree;
    if random.chance(30) {
        texts.put(random.pick(BAD))?;
    } else {
        let command = random.pick(COMMANDS);
        texts.put(command)?;
        if command != b"derive\t".as_slice() {
            texts.put(dialect)?;
        }
        if command.starts_with(b"join") {
            texts.put(tree.folder(random))?;
            texts.put(b"\t")?;
            place = joined;
        }
        if command.starts_with(b"convert") {
            texts.put(random.pick(DIALECTS))?;
        }
    }
    place.put_file(random, texts)?;
    texts.put(b"\n")
}

/// Returns an input of lines, half of them on paths of each system.
fn input(alloc: Global, random: &mut Random) -> Result<Texts, AllocError> {
    let joined = Tree::new(alloc, random, unix(50), &[b"", b"", b"", b"../", b"/"], 50)?;
    let mut texts = Texts::new(alloc);
    let roots: &[&[u8]] = &[b"/", b"", b"./", b"../"];
    let tree = Tree::new(alloc, random, unix(100), roots, 100)?;
    for _ in 0..LINES {
        put_line(random, (&tree, &joined), b"unix\t", &mut texts)?;
    }
    let roots: &[&[u8]] = &[
        br"C:\",
        b"",
        br"\\server\share\",
        br"\\?\C:\",
        b"d:/",
        br"..\",
    ];
    let tree = Tree::new(alloc, random, windows(100), roots, 100)?;
    for _ in 0..LINES {
        put_line(random, (&tree, &joined), b"windows\t", &mut texts)?;
    }
    Ok(texts)
}

/// Answers the lines of `inputs` inputs.
pub fn answer(
    alloc: Global,
    inputs: u64,
    random: &mut Random,
    digest: &mut Digest,
) -> Result<(), AllocError> {
    let mut lines = Texts::new(alloc);
    for number in 0..inputs {
        if number % RENEWALS == 0 {
            lines = input(alloc, random)?;
        } else {
            lines.renew(random);
        }
        let mut replies = Vec::new(alloc);
        let mut reader = StdSource::new(lines.bytes());
        let mut writer = StdSink::new(&mut replies);
        let outcome = answer_lines(alloc, &mut reader, &mut writer);
        digest.take(u64::from(exit_status(&outcome)));
        digest.bytes(replies.as_slice());
    }
    Ok(())
}
