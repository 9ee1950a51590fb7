//! The laws of Windows: of normal, relative and simplified paths, of constants, and of single
//! values.

ghost use Rattle.std.specs.Prelude.{◌≡◌, ◌↔◌, true, false, IfSome, [], ◌∷◌, ◌++◌, codes, map};
ghost use Rattle.typed_path.specs.components.{dot, slash, backslash, windows, prefix, kinds, parts_of};
ghost use Rattle.typed_path.specs.changes.{push};
ghost use Rattle.typed_path.specs.places.{is_within};
ghost use Rattle.typed_path.specs.promises.{IsBelow, StaysStable, IsAlikeBehind, LeadsBackBehindClean, LeadsBackOnWindows, is_verbatim_unc_name, keeps_prefix, prefix_kind};
ghost use Rattle.typed_path.specs.queries.{has_prefix, prefix_in, reserved_names, simplified_text};
ghost use Rattle.typed_path.specs.order.{kind_cmp};
ghost use Rattle.typed_path.specs.order.Words.{prefix_words, windows_words};
ghost use Rattle.typed_path.specs.views.PieceViews.{prefix_view};
ghost use Rattle.typed_path.specs.views.WindowsViews.{prefix_component_part, windows_part};

use crate::constants::windows::{
    ALT_SEPARATOR, ALT_SEPARATOR_STR, CURRENT_DIR, CURRENT_DIR_STR, DISALLOWED_FILENAME_BYTES,
    DISALLOWED_FILENAME_CHARS, PARENT_DIR, PARENT_DIR_STR, RESERVED_DEVICE_NAMES,
    RESERVED_DEVICE_NAMES_STR, SEPARATOR, SEPARATOR_STR,
};
use crate::windows::{WindowsComponent, WindowsPrefix, WindowsPrefixComponent};
use std::hash::Hash;

/// The normal path of a Windows path is read as the components that the path resolves to, with a
/// root put in after a verbatim drive, `\\?\C:`. It leads where the path does, and is its own
/// normal path. This holds if no name has a byte that no name may have, and the prefix is not the
/// verbatim one named `UNC`, as `\\?\UNC`.
#[tactic(auto, using(crate::proofs::lemmas::promises::WindowsStable::stays_stable))]
pub fn normal_stays_stable(path: &[u8])
    ensures { StaysStable path.now }
{}

/// A Windows path that has a prefix and is within a base lies, from every directory, at the place
/// of the base or below it.
#[tactic(auto, using(crate::proofs::lemmas::promises::WindowsWithin::prefixed_below))]
pub fn prefixed_within_leads_below(directory: &[u8], path: &[u8], base: &[u8])
    ensures { has_prefix (kinds (parts_of windows path.now)) ≡ true
        → is_within windows path.now base.now ≡ true
        → IsBelow windows (push windows directory.now base.now)
        (push windows directory.now path.now) }
{}

/// On Windows, the path from a base to a path leads there if it is joined to the base, provided
/// that the base keeps its prefix and, if that is verbatim, ends with at least as many names as
/// `..` lead up.
pub fn relative_leads_back_on_windows(path: &[u8], base: &[u8])
    ensures { LeadsBackOnWindows path.now base.now }
{}

/// On Windows, the path from a base to a path leads there if it is joined to the base, provided
/// that the base is clean and keeps its prefix, be that verbatim or not.
pub fn relative_leads_back_behind_clean(path: &[u8], base: &[u8])
    ensures { LeadsBackBehindClean path.now base.now }
{}

/// The prefix of a base that keeps it is not the verbatim one named `UNC`, as `\\?\UNC`, which
/// other laws except.
#[tactic(auto, using(crate::proofs::lemmas::promises::WindowsContained::kept_no_unc))]
pub fn kept_prefix_is_not_named_unc(base: &[u8])
    ensures { keeps_prefix windows base.now ≡ true
        → is_verbatim_unc_name (prefix_kind windows base.now) ≡ false }
{}

/// A simplified path has the components of the path, except that a verbatim drive, `\\?\C:`, may
/// have become a drive `C:`. It is absolute, has a root and has a file name as the path does, and
/// resolves to the same names.
#[tactic(auto, using(crate::proofs::lemmas::queries::Simplified::alike_behind))]
pub fn simplified_is_alike_behind(path: &[u8])
    ensures { IsAlikeBehind path.now (simplified_text windows path.now) }
{}

/// A simplified path is its own simplified path.
#[tactic(auto, using(crate::proofs::lemmas::queries::Simplified::simplified_again))]
pub fn simplified_stays(path: &[u8])
    ensures { simplified_text windows (simplified_text windows path.now)
        ≡ simplified_text windows path.now }
{}

/// The constants of Windows have these values.
pub fn windows_constants_are_these()
    ensures separator { SEPARATOR ≡ backslash }
    ensures separator_text { SEPARATOR_STR.now ≡ backslash ∷ [] }
    ensures other_separator { ALT_SEPARATOR ≡ slash }
    ensures other_separator_text { ALT_SEPARATOR_STR.now ≡ slash ∷ [] }
    ensures parent { PARENT_DIR.now ≡ dot ∷ dot ∷ [] }
    ensures parent_text { PARENT_DIR_STR.now ≡ dot ∷ dot ∷ [] }
    ensures current { CURRENT_DIR.now ≡ dot ∷ [] }
    ensures current_text { CURRENT_DIR_STR.now ≡ dot ∷ [] }
    ensures disallowed_bytes { DISALLOWED_FILENAME_BYTES.now ≡ codes "\\/:?*\"><|" ++ 0 ∷ [] }
    ensures disallowed_characters { DISALLOWED_FILENAME_CHARS.now ≡ codes "\\/:?*\"><|" ++ 0 ∷ [] }
    ensures reserved { map (λ name. name.now) RESERVED_DEVICE_NAMES.now ≡ reserved_names }
    ensures reserved_texts { map (λ name. name.now) RESERVED_DEVICE_NAMES_STR.now ≡ reserved_names }
{}

/// Prefixes of Windows are equal, compare and hash as their kinds and names say.
pub fn windows_prefixes_compare_by_kind<'a>(one: WindowsPrefix<'a>, other: WindowsPrefix<'a>)
    ensures equality { (⟦<WindowsPrefix<'a> as PartialEq>⟧.eq one.entry other.entry ≡ true)
        ↔ (prefix_view one.entry ≡ prefix_view other.entry) }
    ensures order { ⟦<WindowsPrefix<'a> as Ord>⟧.cmp one.entry other.entry
        ≡ kind_cmp (prefix (prefix_view one.entry)) (prefix (prefix_view other.entry)) }
    ensures hash { ⟦<WindowsPrefix<'a> as Hash>⟧.hash_input one.entry
        ≡ prefix_words (prefix_view one.entry) }
{}

/// Prefix components are equal, compare and hash only by their kinds, however they are written.
pub fn windows_prefix_components_compare_by_kind<'a>(
    one: WindowsPrefixComponent<'a>,
    other: WindowsPrefixComponent<'a>,
)
    ensures equality { (⟦<WindowsPrefixComponent<'a> as PartialEq>⟧.eq one.entry other.entry ≡ true)
        ↔ ((prefix_component_part one.entry).kind ≡ (prefix_component_part other.entry).kind) }
    ensures order { ⟦<WindowsPrefixComponent<'a> as Ord>⟧.cmp one.entry other.entry
        ≡ kind_cmp (prefix_component_part one.entry).kind (prefix_component_part other.entry).kind }
    ensures hash { IfSome (prefix_in (prefix_component_part one.entry).kind) (λ p.
        ⟦<WindowsPrefixComponent<'a> as Hash>⟧.hash_input one.entry ≡ prefix_words p) }
{}

/// Single components of Windows are equal, compare and hash as their kinds say.
pub fn windows_components_compare_by_kind<'a>(
    one: WindowsComponent<'a>,
    other: WindowsComponent<'a>,
)
    ensures equality { (⟦<WindowsComponent<'a> as PartialEq>⟧.eq one.entry other.entry ≡ true)
        ↔ ((windows_part one.entry).kind ≡ (windows_part other.entry).kind) }
    ensures order { ⟦<WindowsComponent<'a> as Ord>⟧.cmp one.entry other.entry
        ≡ kind_cmp (windows_part one.entry).kind (windows_part other.entry).kind }
    ensures hash { ⟦<WindowsComponent<'a> as Hash>⟧.hash_input one.entry
        ≡ windows_words (windows_part one.entry).kind }
{}
