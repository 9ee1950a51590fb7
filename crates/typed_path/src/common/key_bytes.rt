//! The key of a path as bytes in a buffer, for a hasher that is called across a boundary.

ghost use Rattle.std.specs.Prelude.{◌≡◌, ◌≤◌, ◌<◌, ◌+◌, ◌^◌, ◌∷◌, ◌++◌, length, drop, option_map};
ghost use Rattle.std.specs.List.{concat};
ghost use Rattle.typed_path.specs.order.{key_bytes, IsPutFrom, key_words_before, kind_key_words, length_prefixed, length_words, prefix_key_words};
ghost use Rattle.typed_path.specs.views.PathViews.{path_bytes};
ghost use Rattle.typed_path.specs.views.PieceViews.{prefix_view, step_part};

use crate::common::encoding::Encoding;
use crate::common::key_names::{lay_names, put_bytes};
use crate::common::path::Path;
use crate::scan::{Step, StepKind, WindowsPrefix};

impl<'a, T: Encoding> Path<'a, T> {
    /// Writes the bytes that the path's [`Key`](crate::Key) feeds a hasher to the front of `out`,
    /// and returns their number, also if it is more than `out` holds; then nothing is written. It
    /// is at most `2 * n + 1` for a path of `n` bytes.
    ///
    /// Equal paths have the same bytes; of two others, the bytes of neither begin with those of the
    /// other. So other values may be fed after them.
    #[tactic(auto, using(crate::proofs::lemmas::order::KeyBytes::key_bytes_size))]
    pub fn put_key(self, out: &mut [u8]) -> usize
        ensures length { result ≡ length (key_bytes T.dialect (path_bytes self.entry)) }
        ensures put { length (key_bytes T.dialect (path_bytes self.entry)) ≤ length out.old → out.new
            ≡ key_bytes T.dialect (path_bytes self.entry)
            ++ drop (length (key_bytes T.dialect (path_bytes self.entry))) out.old }
        ensures kept { length out.old < length (key_bytes T.dialect (path_bytes self.entry))
            → out.new ≡ out.old }
    {
        let path = self.as_bytes();
        if path.len() < out.len() / 2 {
            return put_words::<T>(path, out);
        }
        let needed = put_words::<T>(path, &mut []);
        if needed <= out.len() {
            put_words::<T>(path, out);
        }
        needed
    }
}

/// Writes the bytes of a path's key to the front of `out`, and returns how many they are. If they
/// do not fit, only some of them may be written.
fn put_words<T: Encoding>(path: &[u8], out: &mut [u8]) -> usize
    ensures { IsPutFrom 0 (key_bytes T.dialect path.now) out.old out.new result }
{
    let cursor = T::cursor(path);
    let start = put_prefix(out, 0, cursor.prefix());
    let mut body = cursor.body();
    // A root needs no search.
    let mut at = match body.root() {
        Some(root) => put_step(out, start, root),
        None => start,
    };
    let mut block = [0; 64];
    'steps: loop {
        let count = lay_names(&mut body, &mut block, 0);
        if count != 0 {
            at = put_bytes(out, at, &block[..count]);
            continue;
        }
        let Some(step) = body.front() else {
            break;
        };
        at = put_step(out, at, step);
    }
    put_bytes(out, at, &[0])
}

/// Writes `prefix` to `out[at..]` as [`put_kind_and_names`] does, or nothing if it is `None`.
///
/// Returns the index after it, which may be past the end of `out`; so do the functions below.
#[inline(always)]
fn put_prefix(out: &mut [u8], at: usize, prefix: Option<WindowsPrefix<'_>>) -> usize
    requires { at + length (concat (key_words_before (option_map prefix_view prefix))) < 2 ^ 64 }
    ensures { IsPutFrom at (concat (key_words_before (option_map prefix_view prefix.entry)))
        out.old out.new result }
{
    match prefix {
        None => at,
        Some(prefix) => put_kind_and_names(out, at, prefix),
    }
}

/// Writes a prefix to `out[at..]`: a byte from 1 to 6 for its kind, and then its names or letter.
fn put_kind_and_names(out: &mut [u8], at: usize, prefix: WindowsPrefix<'_>) -> usize
    requires { at + length (concat (prefix_key_words (prefix_view prefix))) < 2 ^ 64 }
    ensures { IsPutFrom at (concat (prefix_key_words (prefix_view prefix.entry)))
        out.old out.new result }
{
    match prefix {
        WindowsPrefix::Verbatim(name) => put_named(out, at, 1, name),
        WindowsPrefix::VerbatimUNC(server, share) => put_both_named(out, at, 2, server, share),
        WindowsPrefix::VerbatimDisk(letter) => put_bytes(out, at, &[3, letter]),
        WindowsPrefix::DeviceNS(name) => put_named(out, at, 4, name),
        WindowsPrefix::UNC(server, share) => put_both_named(out, at, 5, server, share),
        WindowsPrefix::Disk(letter) => put_bytes(out, at, &[6, letter]),
    }
}

/// Writes a component after the prefix to `out[at..]`: a name as [`put_name`] does, any other as
/// one byte, which is 7 for a root, 8 for `.` and 9 for `..`.
#[inline(always)]
fn put_step(out: &mut [u8], at: usize, step: Step<'_>) -> usize
    requires { at + length (concat (kind_key_words (step_part step).kind)) < 2 ^ 64 }
    ensures { IsPutFrom at (concat (kind_key_words (step_part step.entry).kind)) out.old out.new result }
{
    match step.kind {
        StepKind::RootDir => put_bytes(out, at, &[7]),
        StepKind::CurDir => put_bytes(out, at, &[8]),
        StepKind::ParentDir => put_bytes(out, at, &[9]),
        StepKind::Normal => put_name(out, at, step.text),
    }
}

/// Writes the number of a kind and two names to `out[at..]`.
fn put_both_named(out: &mut [u8], at: usize, kind: u8, server: &[u8], share: &[u8]) -> usize
    requires { at + 1 + length (concat (length_prefixed server.now ++ length_prefixed share.now)) < 2 ^ 64 }
    ensures { IsPutFrom at (kind ∷ concat (length_prefixed server.now ++ length_prefixed share.now))
        out.old out.new result }
{
    let behind = put_named(out, at, kind, server);
    put_name(out, behind, share)
}

/// Writes the number of a kind and a name to `out[at..]`.
fn put_named(out: &mut [u8], at: usize, kind: u8, name: &[u8]) -> usize
    requires { at + 1 + length (concat (length_prefixed name.now)) < 2 ^ 64 }
    ensures { IsPutFrom at (kind ∷ concat (length_prefixed name.now)) out.old out.new result }
{
    let behind = put_bytes(out, at, &[kind]);
    put_name(out, behind, name)
}

/// Writes the length of a name, as [`put_count`] does, and then its bytes to `out[at..]`.
fn put_name(out: &mut [u8], at: usize, name: &[u8]) -> usize
    requires { at + length (concat (length_prefixed name.now)) < 2 ^ 64 }
    ensures { IsPutFrom at (concat (length_prefixed name.now)) out.old out.new result }
{
    let behind = put_count(out, at, name.len());
    put_bytes(out, behind, name)
}

/// Writes a length to `out[at..]`. One of up to 244 is the byte 10 + n, and a greater one the byte
/// 255 and n in eight bytes, lowest first. No kind has a number of 10 or more.
fn put_count(out: &mut [u8], at: usize, count: usize) -> usize
    requires { at + length (concat (length_words count)) < 2 ^ 64 }
    ensures { IsPutFrom at (concat (length_words count)) out.old out.new result }
{
    if count < 245 {
        return put_bytes(out, at, &[10 + count as u8]);
    }
    let behind = put_bytes(out, at, &[255]);
    put_bytes(out, behind, &count.to_le_bytes())
}
