//! Paths in lower case, and paths compared in lower case: without regard to the case of ASCII
//! letters.

ghost use Rattle.std.specs.Prelude.{◌≡◌, ◌<◌, ℕ, List, length, get_or, IfOk};
ghost use Rattle.std.specs.Str.{bytes_eq, str_to_ascii_lowercase};
ghost use Rattle.typed_path.specs.components.{prefix};
ghost use Rattle.typed_path.specs.queries.{path_starts_with};
ghost use Rattle.typed_path.specs.order.{IsLoweredBehind, is_same, kind_cmp, lowered, lowered_behind, lowered_bytes_cmp, lowered_cmp, lowered_kind, lowered_part, lowered_prefix, mark_in, mark_length, path_cmp};
ghost use Rattle.typed_path.specs.views.BodyViews.{body_items};
ghost use Rattle.typed_path.specs.views.PieceViews.{kind_view, part_of, prefix_view, step_part};
ghost use Rattle.typed_path.specs.views.PathViews.{path_bytes};

use crate::common::encoding::Encoding;
use crate::common::order::{
    kind_rank, order_of_prefixed, order_step_by_step, return_order_of_prefixes,
};
use crate::common::path::Path;
use crate::common::path_buf::PathBuf;
use crate::scan::{
    Body, Piece, PieceKind, Step, StepKind, WindowsPrefix, first_difference_in_lower_case,
};
use std::alloc::{AllocError, Global};
use std::cmp::Ordering;

impl<'a, T: Encoding> Path<'a, T> {
    /// Whether the path and `other` have the same components in lower case.
    ///
    /// It is the lower case of [`Path::to_ascii_lowercase`]. So `a/B` equals `A//b`, and on Windows
    /// `\\Server\a` equals `\\server\A`. But `\\?\UNC\s\h` does not equal `\\?\unc\s\h`, which has
    /// another prefix.
    pub fn eq_ignore_ascii_case(self, other: Path<'_, T>) -> bool
        ensures { result ≡ is_same T.dialect (lowered T.dialect (path_bytes self.entry))
            (lowered T.dialect (path_bytes other.entry)) }
    {
        self.cmp_ignore_ascii_case(other).is_eq()
    }

    /// Returns the order of the path and `other` in lower case, by their components.
    ///
    /// `B` is greater than `a`, and `_` is less than `A`, since it is less than `a`.
    #[inline(always)]
    pub fn cmp_ignore_ascii_case(self, other: Path<'_, T>) -> Ordering
        ensures { result ≡ path_cmp T.dialect (lowered T.dialect (path_bytes self.entry))
            (lowered T.dialect (path_bytes other.entry)) }
    {
        compare_lowered::<T>(self.as_bytes(), other.as_bytes())
    }

    /// Whether the path begins with the components of `base`, as both are written in lower case.
    ///
    /// So `Src/Lib` begins with `src`, and on Windows `c:\a` with `C:`.
    pub fn starts_with_ignore_ascii_case(self, base: Path<'_, T>) -> bool
        ensures { result ≡ path_starts_with T.dialect (lowered T.dialect (path_bytes self.entry))
            (lowered T.dialect (path_bytes base.entry)) }
    {
        let mut rest = self.components();
        let mut wanted = base.components();
        'pieces: while let Some(piece) = wanted.next() {
            let Some(own) = rest.next() else {
                return false;
            };
            if !is_written_alike(own, piece) {
                return false;
            }
        }
        true
    }

    /// Returns the path in lower case: with each ASCII letter in lower case, except on Windows the
    /// `UNC` of `\\?\UNC\` before a server, which is read so only in capitals.
    ///
    /// That of `Src/É` is `src/É`, and on Windows that of `\\?\UNC\S\H` is `\\?\UNC\s\h`.
    ///
    /// The result is read as the path is, each component in lower case. It is as long, and in lower
    /// case it is itself.
    pub fn to_ascii_lowercase(self, alloc: Global) -> Result<PathBuf<T>, AllocError>
        ensures { IfOk result (λ p. p.bytes ≡ lowered T.dialect (path_bytes self.entry)) }
    {
        let path = self.as_bytes();
        let kept = kept_before::<T>(path);
        let mut lowered = Vec::from_slice(alloc, path)?;
        let (_, rest) = lowered.split_at_mut(kept);
        rest.make_ascii_lowercase();
        Ok(PathBuf::from_vec(lowered))
    }
}

/// Returns how many bytes at the front of a path stay as they are in lower case: those of a
/// `\\?\UNC\` before a server, else 0.
#[inline]
fn kept_before<T: Encoding>(path: &[u8]) -> usize
    ensures { IsLoweredBehind T.dialect path.now result }
{
    match T::cursor(path).prefix() {
        Some(prefix) => mark_len(prefix),
        None => 0,
    }
}

/// Returns how many bytes at the front of a prefix stay as they are in lower case: the 8 of
/// `\\?\UNC\` before a server, else 0.
#[inline(always)]
fn mark_len(prefix: WindowsPrefix<'_>) -> usize
    ensures { result ≡ mark_length (prefix_view prefix.entry) }
{
    match prefix {
        WindowsPrefix::VerbatimUNC(_, _) => 8,
        _ => 0,
    }
}

/// Returns the order of two paths in lower case, by their components.
fn compare_lowered<T: Encoding>(path: &[u8], other: &[u8]) -> Ordering
    ensures { result ≡ path_cmp T.dialect (lowered T.dialect path.now)
        (lowered T.dialect other.now) }
{
    // Equal bytes need no reading.
    if path == other {
        return Ordering::Equal;
    }
    let own = T::cursor(path);
    let others = T::cursor(other);
    return_order_of_prefixes!(own, others, compare_lowered_prefixes);
    compare_each_lowered::<T>(own.body(), others.body())
}

/// Returns the order of what two bodies have left in lower case, component by component. It is
/// generic so that it is compiled for the separators of each encoding.
fn compare_each_lowered<T: Encoding>(mut rest: Body<'_>, mut wanted: Body<'_>) -> Ordering
    ensures { result ≡ lowered_cmp (body_items rest.entry) (body_items wanted.entry) }
{
    order_step_by_step!(rest, wanted, compare_lowered_steps)
}

/// Returns the order of two prefixes in lower case: by kind, and then by names.
fn compare_lowered_prefixes(own: WindowsPrefix<'_>, other: WindowsPrefix<'_>) -> Ordering
    ensures { result ≡ kind_cmp (prefix (lowered_prefix (prefix_view own.entry)))
        (prefix (lowered_prefix (prefix_view other.entry))) }
{
    match (own, other) {
        (WindowsPrefix::Verbatim(own), WindowsPrefix::Verbatim(other))
        | (WindowsPrefix::DeviceNS(own), WindowsPrefix::DeviceNS(other)) => {
            compare_lowered_names(own, other)
        }
        (WindowsPrefix::VerbatimUNC(own, share), WindowsPrefix::VerbatimUNC(other, others))
        | (WindowsPrefix::UNC(own, share), WindowsPrefix::UNC(other, others)) => {
            let order = compare_lowered_names(own, other);
            if order.is_ne() {
                return order;
            }
            compare_lowered_names(share, others)
        }
        _ => own.cmp(&other),
    }
}

/// Returns the order of two components after the prefix in lower case: by kind, and then by name.
#[inline(always)]
fn compare_lowered_steps(step: Step<'_>, other: Step<'_>) -> Ordering
    ensures { result ≡ kind_cmp (lowered_kind (step_part step.entry).kind)
        (lowered_kind (step_part other.entry).kind) }
{
    if let (StepKind::Normal, StepKind::Normal) = (step.kind, other.kind) {
        return compare_lowered_names(step.text, other.text);
    }
    kind_rank(step.kind).cmp(&kind_rank(other.kind))
}

/// Returns the order of two names in lower case.
#[inline(always)]
fn compare_lowered_names(name: &[u8], other: &[u8]) -> Ordering
    ensures { result ≡ lowered_bytes_cmp name.now other.now }
{
    let shared = first_difference_in_lower_case(name, other);
    if shared < name.len() && shared < other.len() {
        return name[shared]
            .to_ascii_lowercase()
            .cmp(&other[shared].to_ascii_lowercase());
    }
    name.len().cmp(&other.len())
}

/// Whether two components are written alike in lower case.
fn is_written_alike(own: Piece<'_>, other: Piece<'_>) -> bool
    ensures { result ≡ bytes_eq (lowered_part (part_of other.entry)).text
        (lowered_part (part_of own.entry)).text }
{
    let kept = kept_len(own.kind);
    let others = kept_len(other.kind);
    if kept == 0 && others == 0 {
        return is_same_in_lower_case(own.text, other.text);
    }
    if own.text.len() != other.text.len() {
        return false;
    }
    for at in 0..own.text.len() {
        if lowered_byte(own.text, kept, at) != lowered_byte(other.text, others, at) {
            return false;
        }
    }
    true
}

/// Whether two texts are equal in lower case.
#[inline(always)]
fn is_same_in_lower_case(text: &[u8], other: &[u8]) -> bool
    ensures { result ≡ bytes_eq (str_to_ascii_lowercase other.now) (str_to_ascii_lowercase text.now) }
{
    text.len() == other.len() && first_difference_in_lower_case(text, other) == text.len()
}

/// Returns how many bytes at the front of a component stay as they are in lower case: the 8 of
/// `\\?\UNC\` before a server, else 0.
#[inline(always)]
fn kept_len(kind: PieceKind<'_>) -> usize
    ensures { (text : List ℕ) → result ≡ mark_in (kind_view kind.entry text) }
{
    match kind {
        PieceKind::Prefix(prefix) => mark_len(prefix),
        _ => 0,
    }
}

/// Returns the byte at index `at` in lower case, or as it is if it is one of the first `kept`.
#[inline(always)]
fn lowered_byte(text: &[u8], kept: usize, at: usize) -> u8
    requires { at < length text.now }
    ensures { result ≡ get_or (lowered_behind kept text.now) at 0 }
{
    if at < kept {
        text[at]
    } else {
        text[at].to_ascii_lowercase()
    }
}
