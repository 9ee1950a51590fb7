//! Which paths of a tree are ignored, by rules that are read from lines.

ghost use Rattle.std.specs.Prelude.{◌≡◌, ◌&&◌, not, List, ◌∷◌};
ghost use Rattle.typed_path.specs.components.{Kind, normal, kinds, parts_of};
ghost use Rattle.typed_path.specs.views.PathViews.{path_bytes, components_parts};
ghost use Rattle.typed_path.specs.views.PieceViews.{part_of};
ghost use Rattle.typed_path_uses.specs.declared.ignore.Rule.{Rule};
ghost use Rattle.typed_path_uses.specs.Ignore as ignore_spec;
ghost use Rattle.typed_path_uses.specs.Ignore.{begins_with_mark, behind_mark, ends_with_slash, fits_kind, rule_fits, IsLastThatFits};

use typed_path::{Components, Encoding, Path, Piece, PieceKind};

/// A rule: which paths it fits, and whether it ignores them or takes that back.
#[derive(Clone, Copy, Debug)]
pub struct Rule<'a> {
    /// A path, in which the name `*` stands for any one name.
    pub pattern: &'a [u8],
    /// Whether the paths that the rule fits are not ignored.
    pub is_back: bool,
    /// Whether the rule fits folders alone.
    pub is_folder: bool,
}

impl<'a> Rule<'a> {
    /// Returns the rule of a line. A `!` at its front takes back, and a `/` at its end is for
    /// folders alone.
    pub fn new(line: &'a [u8]) -> Rule<'a>
        ensures pattern { result.pattern.now ≡ behind_mark line.now }
        ensures back { result.is_back ≡ begins_with_mark line.now }
        ensures folder { result.is_folder ≡ ends_with_slash line.now }
    {
        Rule {
            pattern: without_mark(line),
            is_back: line.starts_with(b"!"),
            is_folder: line.ends_with(b"/"),
        }
    }
}

/// Returns a line without a `!` at its front.
fn without_mark(line: &[u8]) -> &[u8]
    ensures { result.now ≡ behind_mark line.now }
{
    match line {
        [b'!', rest @ ..] => rest,
        _ => line,
    }
}

/// Whether a name of a rule is `*`, which fits any one name.
fn is_star(name: &[u8]) -> bool
    ensures { result ≡ ignore_spec.is_star (normal name.now) }
{
    matches!(name, [b'*'])
}

/// Whether the component `wanted` of a rule fits `piece` of a path.
fn fits_piece(wanted: Piece<'_>, piece: Piece<'_>) -> bool
    ensures { result ≡ fits_kind (part_of wanted.entry).kind (part_of piece.entry).kind }
{
    match (wanted.kind, piece.kind) {
        (PieceKind::Normal, PieceKind::Normal) => {
            is_star(wanted.text) || wanted.text == piece.text
        }
        (PieceKind::Prefix(wanted), PieceKind::Prefix(prefix)) => wanted.cmp(&prefix).is_eq(),
        (PieceKind::RootDir, PieceKind::RootDir)
        | (PieceKind::CurDir, PieceKind::CurDir)
        | (PieceKind::ParentDir, PieceKind::ParentDir) => true,
        _ => false,
    }
}

/// Takes the next component of a path, and returns whether `wanted` of a rule fits it; `false` if
/// none is left.
fn fits_next<T: Encoding>(wanted: Piece<'_>, rest: &mut Components<'_, T>) -> bool
    ensures { (others : List Kind)
        → ignore_spec.fits ((part_of wanted.entry).kind ∷ others)
        (kinds (components_parts rest.old))
        ≡ (result && ignore_spec.fits others (kinds (components_parts rest.new))) }
{
    match rest.next() {
        Some(piece) => fits_piece(wanted, piece),
        None => false,
    }
}

/// Whether a path has as many components as a pattern, and each fits the one in its place.
fn fits_path<T: Encoding>(pattern: Path<'_, T>, path: Path<'_, T>) -> bool
    ensures { result ≡ ignore_spec.fits (kinds (parts_of T.dialect (path_bytes pattern.entry)))
        (kinds (parts_of T.dialect (path_bytes path.entry))) }
{
    let mut rest = path.components();
    'pieces: for wanted in pattern.components() {
        if !fits_next(wanted, &mut rest) {
            return false;
        }
    }
    rest.next().is_none()
}

/// Whether a rule fits a path, which is a folder or not.
pub fn fits<T: Encoding>(rule: Rule<'_>, path: Path<'_, T>, is_folder: bool) -> bool
    ensures { result ≡ rule_fits T.dialect (kinds (parts_of T.dialect (path_bytes path.entry)))
        is_folder rule.entry }
{
    (!rule.is_folder || is_folder) && fits_path(Path::new(rule.pattern), path)
}

/// Whether a path is ignored: the last rule that fits it decides, and if none does it is not.
pub fn is_ignored<T: Encoding>(rules: &[Rule<'_>], path: Path<'_, T>, is_folder: bool) -> bool
    ensures answer { result
        ≡ ignore_spec.is_ignored T.dialect (kinds (parts_of T.dialect (path_bytes path.entry)))
        is_folder rules.now }
    ensures last { (rule : Rule)
        → IsLastThatFits (rule_fits T.dialect (kinds (parts_of T.dialect (path_bytes path.entry)))
        is_folder) rules.now rule → result ≡ not rule.is_back }
{
    let mut ignored = false;
    'rules: for rule in rules {
        if fits(*rule, path, is_folder) {
            ignored = !rule.is_back;
        }
    }
    ignored
}
