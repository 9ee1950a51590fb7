//! Paths as keys of maps, where strangers choose the paths. A key also tells a hasher where each
//! component ends, so two paths of one dialect feed it alike only if they are equal.

ghost use Rattle.std.specs.Prelude.{◌≡◌, List, ℕ, IsTrue, fold, option_map};
ghost use Rattle.std.specs.List.{concat};
ghost use Rattle.typed_path.specs.order.{AreFed, key_writes, key_words_before, kind_key_words, length_prefixed, prefix_key_words, same-writes};
ghost use Rattle.typed_path.specs.views.KeyViews.{chunk_bytes};
ghost use Rattle.typed_path.specs.views.PieceViews.{prefix_view, step_part};
ghost use Rattle.typed_path.specs.views.PathViews.{path_bytes};

use crate::common::encoding::Encoding;
use crate::common::key_chunk::Chunk;
use crate::common::path::Path;
use crate::common::path_buf::PathBuf;
use crate::scan::{Step, StepKind, WindowsPrefix};
use std::hash::{Hash, Hasher};

/// A path that may be in a [`Key`]: borrowed or owned, of bytes or of text, typed or not.
pub trait KeyPath: Eq {
    ghost key_input: { Self → List (List ℕ) };

    /// Feeds the bytes of the path's key to `state`, 128 in a call and what is left in one more.
    ///
    /// A name is its length and its bytes; a root, `.` and `..` are one byte each; a prefix is a
    /// byte for its kind, and then its names, put as names are, or the letter of its drive. A byte
    /// with which no component begins is last. A typed path feeds one byte more for its dialect, in
    /// a call of its own.
    fn hash_key<H: Hasher>(&self, state: &mut H)
        ensures { state.new ≡ fold H.write state.old (key_input self.now) };

    ghost keys_respect_eq: { (x y : Self) → IsTrue (Self.eq x y) → key_input x ≡ key_input y };
}

impl<'a, T: Encoding> KeyPath for Path<'a, T> {
    ghost key_input = { λ p. key_writes T.dialect (path_bytes p) };

    ghost keys_respect_eq = { λ p q. same-writes T.dialect (path_bytes p) (path_bytes q) };

    fn hash_key<H: Hasher>(&self, state: &mut H) {
        feed_key::<T, H>(self.as_bytes(), state);
    }
}

impl<T: Encoding> KeyPath for PathBuf<T> {
    ghost key_input = { λ p. key_writes T.dialect p.bytes };

    ghost keys_respect_eq = { λ p q. same-writes T.dialect p.bytes q.bytes };

    fn hash_key<H: Hasher>(&self, state: &mut H) {
        self.as_path().hash_key(state);
    }
}

/// A path as the key of a map, where strangers choose the paths.
///
/// It compares as its path does. Paths that are not equal feed a hasher different bytes as keys: so
/// do `a/bc`, `ab/c` and `abc`, which feed the same bytes as paths. A hasher with a seed, as std's
/// `RandomState` makes it, so spreads them like any other keys.
#[derive(Clone, Copy, Debug, PartialEq, Eq, PartialOrd, Ord, Drop)]
pub struct Key<P> {
    path: P,
}

impl<P> Key<P> {
    /// The key of a path.
    pub fn new(path: P) -> Key<P>
        ensures { result.path ≡ path }
    {
        Key { path }
    }

    /// The path.
    pub fn path(&self) -> &P
        ensures { result.now ≡ self.now.path }
    {
        &self.path
    }

    /// Moves the path out.
    pub fn into_path(self) -> P
        ensures { result ≡ self.path }
    {
        self.path
    }
}

impl<P: KeyPath> Hash for Key<P> {
    ghost hash_input = { λ key. P.key_input key.path };

    ghost respects_eq = { λ x y same. P.keys_respect_eq x.path y.path same };

    fn hash<H: Hasher>(&self, state: &mut H) {
        self.path.hash_key(state);
    }
}

/// Feeds the key of a path to a hasher, up to the byte 0 that ends it.
fn feed_key<T: Encoding, H: Hasher>(path: &[u8], state: &mut H)
    ensures { state.new ≡ fold H.write state.old (key_writes T.dialect path.now) }
{
    let cursor = T::cursor(path);
    let mut chunk = Chunk::new();
    feed_prefix(cursor.prefix(), &mut chunk, state);
    let mut body = cursor.body();
    'steps: loop {
        if chunk.put_names(&mut body, state) {
            continue;
        }
        let Some(step) = body.front() else {
            break;
        };
        feed_step(step, &mut chunk, state);
    }
    chunk.put(&[0], state);
    state.write(chunk.as_bytes());
}

/// Feeds `prefix` as [`feed_kind_and_names`] does, or nothing if it is `None`.
#[inline(always)]
fn feed_prefix<H: Hasher>(prefix: Option<WindowsPrefix<'_>>, chunk: &mut Chunk, state: &mut H)
    ensures { AreFed H.write (concat (key_words_before (option_map prefix_view prefix.entry)))
        state.old (chunk_bytes chunk.old) (chunk_bytes chunk.new) state.new }
{
    if let Some(prefix) = prefix {
        feed_kind_and_names(prefix, chunk, state);
    }
}

/// Feeds a prefix: a byte from 1 to 6 for its kind, and then its names or the letter of its drive.
fn feed_kind_and_names<H: Hasher>(prefix: WindowsPrefix<'_>, chunk: &mut Chunk, state: &mut H)
    ensures { AreFed H.write (concat (prefix_key_words (prefix_view prefix.entry)))
        state.old (chunk_bytes chunk.old) (chunk_bytes chunk.new) state.new }
{
    match prefix {
        WindowsPrefix::Verbatim(name) => {
            chunk.put(&[1], state);
            feed_name(name, chunk, state);
        }
        WindowsPrefix::VerbatimUNC(server, share) => {
            chunk.put(&[2], state);
            feed_name(server, chunk, state);
            feed_name(share, chunk, state);
        }
        WindowsPrefix::VerbatimDisk(letter) => chunk.put(&[3, letter], state),
        WindowsPrefix::DeviceNS(name) => {
            chunk.put(&[4], state);
            feed_name(name, chunk, state);
        }
        WindowsPrefix::UNC(server, share) => {
            chunk.put(&[5], state);
            feed_name(server, chunk, state);
            feed_name(share, chunk, state);
        }
        WindowsPrefix::Disk(letter) => chunk.put(&[6, letter], state),
    }
}

/// Feeds a component after the prefix: a name as [`feed_name`] does, any other as one byte.
///
/// The byte is 7 for a root, 8 for `.` and 9 for `..`.
#[inline(always)]
fn feed_step<H: Hasher>(step: Step<'_>, chunk: &mut Chunk, state: &mut H)
    ensures { AreFed H.write (concat (kind_key_words (step_part step.entry).kind))
        state.old (chunk_bytes chunk.old) (chunk_bytes chunk.new) state.new }
{
    match step.kind {
        StepKind::RootDir => chunk.put(&[7], state),
        StepKind::CurDir => chunk.put(&[8], state),
        StepKind::ParentDir => chunk.put(&[9], state),
        StepKind::Normal => feed_name(step.text, chunk, state),
    }
}

/// Feeds the length of `name`, and then its bytes.
///
/// A length n of up to 244 is the one byte 10 + n, and a greater one the byte 255 and n in eight
/// bytes, lowest first. No kind has a number of 10 or more.
#[inline(always)]
fn feed_name<H: Hasher>(name: &[u8], chunk: &mut Chunk, state: &mut H)
    ensures { AreFed H.write (concat (length_prefixed name.now))
        state.old (chunk_bytes chunk.old) (chunk_bytes chunk.new) state.new }
{
    if name.len() < 245 {
        chunk.put(&[10 + name.len() as u8], state);
    } else {
        chunk.put(&[255], state);
        chunk.put(&name.len().to_le_bytes(), state);
    }
    chunk.put(name, state);
}
