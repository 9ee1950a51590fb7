//! The names of archives, each joined to a base by a checked join.

use crate::digest::Digest;
use crate::random::Random;
use crate::texts::Texts;
use crate::tree::{Style, Tree, unix, windows};
use std::alloc::{AllocError, Global};
use typed_path::{Encoding, Path, TypedPath, UnixEncoding, WindowsEncoding};
use typed_path_uses::{typed_target, unpacked};

/// What hostile names begin with: they lead elsewhere, or some system does not allow them.
const HOSTILE: &[&[u8]] = &[
    b"../",
    b"/etc/",
    br"C:\",
    b"a/../../",
    b"con.txt/",
    b"what?/",
    b"nul/",
    br"..\",
    b"a:b/",
    br"\",
    b"a/b/../../../",
    b"aux/",
    b"x\0y/",
    br"\\server\share\",
    b"<a>/",
    b"c:",
];

/// How many names an archive has.
const NAMES: usize = 1_000;

/// How many of a thousand names are hostile.
const OFTEN: usize = 30;

/// Returns the names of an archive: some hostile, some with a detour.
fn names(alloc: Global, random: &mut Random, style: Style) -> Result<Texts, AllocError> {
    let tree = Tree::new(alloc, random, style, &[b"", b"./"], 200)?;
    let mut texts = Texts::new(alloc);
    for _ in 0..NAMES {
        if random.chance(OFTEN) {
            texts.put(random.pick(HOSTILE))?;
        }
        tree.put_file(random, &mut texts)?;
        texts.end()?;
    }
    Ok(texts)
}

/// Unpacks names onto a base.
fn unpack_onto<T: Encoding>(
    alloc: Global,
    base: &[u8],
    names: &[&[u8]],
    digest: &mut Digest,
) -> Result<(), AllocError> {
    let unpacking = unpacked(alloc, Path::<T>::new(base), names)?;
    for target in &unpacking.targets {
        digest.bytes(target.as_path().as_bytes());
    }
    for refused in &unpacking.refused {
        digest.bytes(refused.name);
        digest.fault(refused.fault);
    }
    Ok(())
}

/// Joins each name to a base whose dialect is known only at run time.
fn targets(
    alloc: Global,
    base: TypedPath<'_>,
    names: &[&[u8]],
    digest: &mut Digest,
) -> Result<(), AllocError> {
    for name in names {
        match typed_target(alloc, base, name) {
            Ok(target) => digest.typed(target.to_path()),
            Err(refusal) => digest.refusal(refusal)?,
        }
    }
    Ok(())
}

/// Returns a verbatim base, as a canonical Windows path is.
fn verbatim(alloc: Global, random: &mut Random) -> Result<Texts, AllocError> {
    let tree = Tree::new(
        alloc,
        random,
        windows(0),
        &[br"\\?\C:\Users\me\AppData\"],
        3,
    )?;
    tree.files(alloc, random, 1)
}

/// Unpacks an archive onto each base, `archives` times, each archive with names of its own.
pub fn unpack(
    alloc: Global,
    archives: u64,
    random: &mut Random,
    digest: &mut Digest,
) -> Result<(), AllocError> {
    for _ in 0..archives {
        let mut names = names(alloc, random, unix(20))?;
        unpack_onto::<UnixEncoding>(alloc, b"/srv/files", &names.list(alloc)?, digest)?;
        let base = br"C:\dist\files";
        unpack_onto::<WindowsEncoding>(alloc, base, &names.renewed(alloc, random)?, digest)?;
        let base = verbatim(alloc, random)?;
        unpack_onto::<WindowsEncoding>(alloc, base.get(0), &names.renewed(alloc, random)?, digest)?;
        let base = TypedPath::unix(b"/var/www");
        targets(alloc, base, &names.renewed(alloc, random)?, digest)?;
        let base = TypedPath::windows(br"D:\www");
        targets(alloc, base, &names.renewed(alloc, random)?, digest)?;
    }
    Ok(())
}
