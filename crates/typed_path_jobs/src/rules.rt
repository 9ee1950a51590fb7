//! Rules over the paths of a tree, and questions to each path.

use crate::digest::Digest;
use crate::random::Random;
use crate::texts::Texts;
use crate::tree::{FOLDERS, Style, Tree, unix, windows};
use std::alloc::{AllocError, Global};
use typed_path::{Encoding, Path, PathType, TypedPath, UnixEncoding, UnixPath, WindowsEncoding};
use typed_path_uses::{Rule, is_ignored, listing};

/// How many paths of a tree are asked, before they get other letters.
const PATHS: usize = 1_000;

/// How many rules there are, and how many folders the paths are compared with.
const RULES: usize = 12;

/// Returns lines of rules: a folder with any one name after it, some with a `!` in front.
fn lines(alloc: Global, random: &mut Random, tree: &Tree, any: &[u8]) -> Result<Texts, AllocError> {
    let mut texts = Texts::new(alloc);
    for _ in 0..RULES {
        if random.chance(200) {
            texts.put(b"!")?;
        }
        texts.put(tree.folder(random))?;
        texts.put(any)?;
        texts.end()?;
    }
    Ok(texts)
}

/// Asks a path about itself.
fn ask<T: Encoding>(path: Path<'_, T>, digest: &mut Digest) {
    digest.some(path.file_name());
    digest.some(path.extension());
    digest.some(path.file_stem());
    digest.flag(path.is_absolute());
    digest.flag(path.has_root());
    digest.some(path.parent().map(|parent| parent.as_bytes()));
    for above in path.ancestors() {
        digest.bytes(above.as_bytes());
    }
    for piece in path.components() {
        digest.piece(piece);
    }
    for text in path.iter().rev() {
        digest.bytes(text);
    }
    digest.flag(path.is_valid());
}

/// Asks whether a path begins with `folder`, and what is left after it; and whether it ends with
/// that, or else with `name`.
fn compare<T: Encoding>(path: Path<'_, T>, folder: &[u8], name: &[u8], digest: &mut Digest) {
    digest.flag(path.starts_with(Path::new(folder)));
    let end = match path.strip_prefix(Path::new(folder)) {
        Ok(rest) => rest,
        Err(_) => Path::new(name),
    };
    digest.bytes(end.as_bytes());
    digest.flag(path.ends_with(end));
    digest.some(path.file_name());
    digest.some(path.parent().map(|parent| parent.as_bytes()));
}

/// Asks a path whose dialect is known only at run time.
fn ask_typed(path: TypedPath<'_>, digest: &mut Digest) {
    digest.some(path.file_name());
    digest.some(path.extension());
    if let Some(parent) = path.parent() {
        digest.typed(parent);
    }
    for component in path.components() {
        digest.component(component);
    }
}

/// Returns the rules of lines.
fn rules<'a>(alloc: Global, lines: &[&'a [u8]]) -> Result<Vec<Rule<'a>>, AllocError> {
    let mut rules = Vec::with_capacity(alloc, lines.len())?;
    for line in lines {
        rules.push(Rule::new(line))?;
    }
    Ok(rules)
}

/// Asks the paths of one tree, which get other letters for each group of questions.
fn rules_of<T: Encoding>(
    alloc: Global,
    random: &mut Random,
    (style, kind, any): (Style, PathType, &[u8]),
    roots: &[&[u8]],
    digest: &mut Digest,
) -> Result<(), AllocError> {
    let tree = Tree::new(alloc, random, style, roots, 200)?;
    let lines = lines(alloc, random, &tree, any)?;
    let rules = rules(alloc, &lines.list(alloc)?)?;
    let mut paths = tree.files(alloc, random, PATHS)?;
    for _ in 0..RULES {
        let folder = tree.folder(random);
        let name = random.pick(FOLDERS);
        for path in &paths.renewed(alloc, random)? {
            compare(Path::<T>::new(path), folder, name, digest);
        }
        for path in &paths.renewed(alloc, random)? {
            digest.flag(TypedPath::new(path, kind).starts_with(folder));
        }
    }
    for path in &paths.renewed(alloc, random)? {
        ask(Path::<T>::new(path), digest);
    }
    for path in &paths.renewed(alloc, random)? {
        ask_typed(TypedPath::new(path, kind), digest);
    }
    for path in &paths.renewed(alloc, random)? {
        digest.flag(is_ignored(&rules, Path::<T>::new(path), false));
        digest.bytes(listing(alloc, UnixPath::new(path))?.as_slice());
    }
    Ok(())
}

/// Asks the paths of `trees` trees of each system.
pub fn ask_rules(
    alloc: Global,
    trees: u64,
    random: &mut Random,
    digest: &mut Digest,
) -> Result<(), AllocError> {
    for _ in 0..trees {
        let as_on_unix = (unix(50), PathType::Unix, b"/*".as_slice());
        let roots: &[&[u8]] = &[b"", b"/", b"/srv/"];
        rules_of::<UnixEncoding>(alloc, random, as_on_unix, roots, digest)?;
        let as_on_windows = (windows(50), PathType::Windows, br"\*".as_slice());
        let roots: &[&[u8]] = &[b"", br"C:\", br"\\?\D:\work\", br"\\server\share\"];
        rules_of::<WindowsEncoding>(alloc, random, as_on_windows, roots, digest)?;
    }
    Ok(())
}
