//! The components of a path, and one step over them at either end of a slice.

ghost use Rattle.std.specs.Prelude.{◌≡◌, ◌≤◌, ◌<◌, ◌+◌, ◌++◌, ◌||◌, ℕ, true, not, take, drop, length, IfSome, IfNone, ◌^◌, List, ◌∷◌, IfOk, IsTrue, ◌==◌, option_and_then, option_copied, option_map};
ghost use Rattle.std.specs.List.{position_or_len};
ghost use Rattle.typed_path.specs.components.{is_empty, is_dot, is_dot_dot, component, first, later_body, is_separator, dialect_of, Kind, is_name, is_parent, is_current};
ghost use Rattle.typed_path.specs.scan.{body_from, is_clean, is_trimmed, end_from};
ghost use Rattle.typed_path.specs.views.PieceViews.{step_part, part_of};
ghost use Rattle.typed_path.specs.declared.scan.cursor.Begin.{Begin};
ghost use Rattle.typed_path.specs.declared.scan.step.StepKind.{StepKind};
ghost use Rattle.typed_path.specs.changes.{fault_at, judged};
ghost use Rattle.typed_path.specs.queries.{extension_of, first_stem_of, kind_has_allowed_bytes, is_root, name_of, stem_of};

use crate::errors::CheckedPathError;
use crate::scan::prefix::WindowsPrefix;
use crate::scan::separators::Separators;
use crate::scan::stems::{first_stem, split_name};

/// What a component is.
#[derive(Clone, Copy, Debug, PartialEq, Eq, PartialOrd, Ord, Hash)]
pub enum PieceKind<'a> {
    /// The prefix of a Windows path.
    Prefix(WindowsPrefix<'a>),
    /// The root directory.
    RootDir,
    /// The current directory, `.`.
    CurDir,
    /// The parent directory, `..`.
    ParentDir,
    /// A name.
    Normal,
}

/// One component of a path: what it is, and its bytes.
#[derive(Clone, Copy, Debug, PartialEq, Eq, PartialOrd, Ord, Hash)]
pub struct Piece<'a> {
    /// What the component is.
    pub kind: PieceKind<'a>,
    /// How it is written: the raw bytes of a prefix, `/` or `\` for the root, `.`, `..`, or the
    /// name.
    pub text: &'a [u8],
}

impl<'a> Piece<'a> {
    /// Returns the bytes of the component as in the path; of a root always `/`, or `\` on Windows.
    pub fn as_bytes(self) -> &'a [u8]
        ensures { result.now ≡ (part_of self.entry).text }
    {
        self.text
    }

    /// Whether nothing is above the component: the root, and every prefix but a drive `C:`. It is
    /// true of a verbatim drive, `\\?\C:`.
    #[inline(always)]
    pub fn is_root(self) -> bool
        ensures { result ≡ is_root (part_of self.entry).kind }
    {
        match self.kind {
            PieceKind::RootDir => true,
            PieceKind::Prefix(WindowsPrefix::Disk(_)) => false,
            PieceKind::Prefix(_) => true,
            _ => false,
        }
    }

    /// Whether the component is a name.
    pub fn is_normal(self) -> bool
        ensures { result ≡ is_name (part_of self.entry).kind }
    {
        matches!(self.kind, PieceKind::Normal)
    }

    /// Whether the component is the parent directory, `..`.
    pub fn is_parent(self) -> bool
        ensures { result ≡ is_parent (part_of self.entry).kind }
    {
        matches!(self.kind, PieceKind::ParentDir)
    }

    /// Whether the component is the current directory, `.`.
    pub fn is_current(self) -> bool
        ensures { result ≡ is_current (part_of self.entry).kind }
    {
        matches!(self.kind, PieceKind::CurDir)
    }

    /// Returns the component if it is a name, else `None`.
    pub fn file_name(self) -> Option<&'a [u8]>
        ensures { option_copied result ≡ name_of (part_of self.entry).kind }
    {
        if self.is_normal() {
            Some(self.text)
        } else {
            None
        }
    }

    /// Returns a name up to its last dot, or the whole name if it has no dot but one at its start.
    /// `None` if the component is no name.
    ///
    /// Of `a.tar.gz` it is `a.tar`, and of `.bashrc` it is `.bashrc`.
    pub fn file_stem(self) -> Option<&'a [u8]>
        ensures { option_copied result ≡ option_map stem_of (name_of (part_of self.entry).kind) }
    {
        let name = self.file_name()?;
        Some(split_name(name).0)
    }

    /// Returns what follows the last dot of a name. `None` if the component is no name, or has no
    /// dot but one at its start.
    ///
    /// Of `a.tar.gz` it is `gz`, of `a.` it is empty, and `.bashrc` has none.
    pub fn extension(self) -> Option<&'a [u8]>
        ensures { option_copied result ≡ option_and_then extension_of (name_of (part_of self.entry).kind) }
    {
        split_name(self.file_name()?).1
    }

    /// Returns a name up to its first dot that is not at its start, or the whole name if it has
    /// none. `None` if the component is no name.
    ///
    /// Of `a.tar.gz` it is `a`, and of `.config.toml` it is `.config`.
    pub fn file_prefix(self) -> Option<&'a [u8]>
        ensures { option_copied result ≡ option_map first_stem_of (name_of (part_of self.entry).kind) }
    {
        let name = self.file_name()?;
        Some(first_stem(name))
    }

    /// Returns how many bytes the component has.
    pub fn len(self) -> usize
        ensures { result ≡ length (part_of self.entry).text }
    {
        self.text.len()
    }

    /// Whether the component has no bytes.
    pub fn is_empty(self) -> bool
        ensures { result ≡ (length (part_of self.entry).text == 0) }
    {
        self.text.is_empty()
    }
}

/// What a component after the prefix is.
#[derive(Clone, Copy, Debug)]
pub enum StepKind {
    /// The root directory.
    RootDir,
    /// The current directory, `.`.
    CurDir,
    /// The parent directory, `..`.
    ParentDir,
    /// A name.
    Normal,
}

/// One component after the prefix: a [`Piece`] without room for a prefix, which loops would copy at
/// each step.
#[derive(Clone, Copy, Debug)]
pub struct Step<'a> {
    /// What the component is.
    pub kind: StepKind,
    /// How it is written.
    pub text: &'a [u8],
}

impl<'a> Step<'a> {
    /// Returns the component as a [`Piece`].
    #[inline(always)]
    pub fn piece(self) -> Piece<'a>
        ensures { part_of result ≡ step_part self.entry }
    {
        let kind = match self.kind {
            StepKind::RootDir => PieceKind::RootDir,
            StepKind::CurDir => PieceKind::CurDir,
            StepKind::ParentDir => PieceKind::ParentDir,
            StepKind::Normal => PieceKind::Normal,
        };
        Piece {
            kind,
            text: self.text,
        }
    }
}

/// Returns the component that `segment` is as the first one of a body: an empty segment is the
/// root.
#[inline(always)]
pub fn step_of(segment: &[u8], separators: Separators) -> Step<'_>
    ensures { (at : ℕ) → first separators (record { text = segment.now; start = at })
        ≡ component (step_part result) at }
{
    let (kind, text) = match segment {
        [] => (StepKind::RootDir, separators.root_text()),
        [b'.'] => (StepKind::CurDir, segment),
        [b'.', b'.'] => (StepKind::ParentDir, segment),
        name => (StepKind::Normal, name),
    };
    Step { kind, text }
}

/// Returns the first component of `text` and the index of the next one, or the length if none.
///
/// `text` begins with a component. `end` is the index of its first separator, or the length.
#[inline(always)]
pub fn front_step(text: &[u8], end: usize, separators: Separators) -> (Step<'_>, usize)
    requires some { 0 < length text.now }
    requires within { end ≤ length text.now }
    requires ends { end ≡ position_or_len (is_separator separators) text.now }
    ensures within { result.1 ≤ length text.now }
    ensures first { (begin : Begin) (at : ℕ) → is_clean begin separators text.now ≡ true
        → body_from begin separators at text.now ≡ component (step_part result.0) at
        ++ later_body separators (at + result.1) (drop result.1 text.now) }
    ensures clean { is_clean Begin.Inside separators (drop result.1 text.now) ≡ true }
    ensures named { result.0.kind ≡ StepKind.Normal
        → take (length result.0.text.now) text.now ≡ result.0.text.now }
{
    let behind = skip_from_separator(&text[end..], separators);
    (step_of(&text[..end], separators), end + behind)
}

/// Returns what [`skip_blanks`] does, if `text` is empty or begins with a separator: that is not
/// looked at.
#[inline(always)]
fn skip_from_separator(text: &[u8], separators: Separators) -> usize
    requires { position_or_len (is_separator separators) text.now ≡ 0 }
    ensures within { result ≤ length text.now }
    ensures same { (at : ℕ) → later_body separators at text.now
        ≡ later_body separators (at + result) (drop result text.now) }
    ensures clean { is_clean Begin.Inside separators (drop result text.now) ≡ true }
{
    match text {
        [] => 0,
        [_, rest @ ..] => 1 + skip_blanks(rest, separators),
    }
}

/// Returns the index of the first component in `text`, or the length if there is none. `text` comes
/// after a component or a separator, so separators are skipped and, unless the path is read
/// verbatim, segments that are `.`.
#[inline(always)]
pub fn skip_blanks(text: &[u8], separators: Separators) -> usize
    ensures within { result ≤ length text.now }
    ensures same { (at : ℕ) → later_body separators at text.now
        ≡ later_body separators (at + result) (drop result text.now) }
    ensures clean { is_clean Begin.Inside separators (drop result text.now) ≡ true }
{
    let mut start = 0;
    while let Some(skipped) = blank(&text[start..], separators) {
        start += skipped;
    }
    start
}

/// Returns the length of what is skipped first in `text`, which comes after a component or a
/// separator: a separator, or a `.` and the separator after it, if any. `None` if `text` is empty
/// or begins with a component.
#[inline(always)]
fn blank(text: &[u8], separators: Separators) -> Option<usize>
    ensures within { IfSome result (λ n. (0 < n) × (n ≤ length text.now)) }
    ensures skipped { IfSome result (λ n. (at : ℕ) → later_body separators at text.now
        ≡ later_body separators (at + n) (drop n text.now)) }
    ensures clean { IfNone result (is_clean Begin.Inside separators text.now ≡ true) }
{
    let (first, rest) = text.split_first()?;
    if separators.contains(*first) {
        return Some(1);
    }
    if *first != b'.' || separators.is_verbatim() {
        return None;
    }
    match rest.first() {
        None => Some(1),
        Some(second) if separators.contains(*second) => Some(2),
        Some(_) => None,
    }
}

/// Returns the last component of `text`, which begins with a component, the index just after the
/// component before it, or 0 if there is none, and the index just after the last one.
#[inline(always)]
pub fn back_step(text: &[u8], separators: Separators) -> (Step<'_>, usize, usize)
    requires { 0 < length text.now }
    ensures within { result.1 ≤ length text.now }
    ensures last { (begin : Begin) (at : ℕ) → is_clean begin separators text.now ≡ true
        → (place : ℕ) × (body_from begin separators at text.now
        ≡ body_from begin separators at (take result.1 text.now)
        ++ component (step_part result.0) place) }
    ensures ends { (begin : Begin) (at : ℕ) → is_clean begin separators text.now ≡ true
        → end_from at (body_from begin separators at (take result.1 text.now)) ≡ at + result.1 }
    ensures clean { (begin : Begin) → is_clean begin separators text.now ≡ true
        → is_clean begin separators (take result.1 text.now) ≡ true }
    ensures end { (begin : Begin) (at : ℕ) → is_clean begin separators text.now ≡ true
        → end_from at (body_from begin separators at text.now) ≡ at + result.2 }
    ensures end_within { result.2 ≤ length text.now }
{
    let end = trim_blanks(text, separators);
    let last = &text[..end];
    let start = separators.last_in(last);
    let step = step_of(&last[start..], separators);
    if start == last.len() {
        return (step, 0, end);
    }
    (step, trim_blanks(&last[..start], separators), end)
}

/// Returns the index just after the last component of `text`. Skips separators at the end and,
/// unless the path is read verbatim, segments that are `.`; never the first byte.
#[inline(always)]
pub fn trim_blanks(text: &[u8], separators: Separators) -> usize
    ensures within { result ≤ length text.now }
    ensures some { 0 < length text.now → 0 < result }
    ensures same { (begin : Begin) (at : ℕ) → body_from begin separators at (take result text.now)
        ≡ body_from begin separators at text.now }
    ensures clean { (begin : Begin) → is_clean begin separators (take result text.now)
        ≡ is_clean begin separators text.now }
    ensures trimmed { is_trimmed separators (take result text.now) ≡ true }
{
    let mut end = text.len();
    'blanks: while ends_blank(&text[..end], separators) {
        end -= 1;
    }
    end
}

/// Whether the last byte belongs to no component: it is a separator, or a `.` after one, which is
/// skipped unless the path is read verbatim. A lone byte always belongs to one.
#[inline(always)]
fn ends_blank(text: &[u8], separators: Separators) -> bool
    ensures { result ≡ not (is_trimmed separators text.now) }
{
    let Some((last, front)) = text.split_last() else {
        return false;
    };
    let Some(before) = front.last() else {
        return false;
    };
    separators.contains(*last)
        || (*last == b'.' && !separators.is_verbatim() && separators.contains(*before))
}

/// Returns the depth after `step`, given the `depth` before it, or the error for which it is
/// refused. The depth counts the names that no `..` has cancelled yet. With `allowed`, the bytes of
/// a name are known to be allowed in names.
#[inline(always)]
pub fn depth_behind(
    step: Step<'_>,
    depth: usize,
    separators: Separators,
    allowed: bool,
) -> Result<usize, CheckedPathError>
    requires fits { depth + 1 < 2 ^ 64 }
    requires allowed { IsTrue allowed
        → kind_has_allowed_bytes (dialect_of separators) (step_part step).kind ≡ true }
    ensures within { IfOk result (λ deeper. deeper ≤ depth + 1) }
    ensures judged { (ks : List Kind)
        → fault_at (dialect_of separators) depth ((step_part step.entry).kind ∷ ks)
        ≡ judged (λ deeper. fault_at (dialect_of separators) deeper ks) result }
{
    match step.kind {
        StepKind::RootDir => Err(CheckedPathError::UnexpectedRoot),
        StepKind::CurDir => Ok(depth),
        StepKind::ParentDir => depth
            .checked_sub(1)
            .ok_or(CheckedPathError::PathTraversalAttack),
        StepKind::Normal
            if (allowed || separators.has_allowed_bytes(step.text))
                && !separators.is_reserved(step.text) => { Ok(depth + 1) }
        StepKind::Normal => Err(CheckedPathError::InvalidFilename),
    }
}

/// Whether a name is empty, `.` or `..`.
#[inline(always)]
pub fn is_dots(name: &[u8]) -> bool
    ensures { result ≡ (is_empty name.now || is_dot name.now || is_dot_dot name.now) }
{
    matches!(name, [] | [b'.'] | [b'.', b'.'])
}
