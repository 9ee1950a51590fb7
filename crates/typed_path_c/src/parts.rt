//! Parts of a path, given by their places, and its components.

ghost use Rattle.std.specs.Prelude.{◌≡◌, ◌<◌, ◌^◌, ℕ, length, ◌++◌, ◌∷◌, [], List, Some, drop, option_map, MatchOption};
ghost use Rattle.typed_path.specs.components.{Placed, comps};
ghost use Rattle.typed_path.specs.scan.{first_of, last_of};
ghost use Rattle.typed_path.specs.views.PathViews.{components_items, components_slice};
ghost use Rattle.typed_path.specs.views.PieceViews.{part_of};
ghost use Rattle.typed_path.specs.views.TypedViews.{typed_bytes};
ghost use Rattle.typed_path.specs.views.UnreadViews.{placed_of};
ghost use Rattle.typed_path_c.specs.declared.parts.Component.{Component};
ghost use Rattle.typed_path_c.specs.Answers.{done, none_there};
ghost use Rattle.typed_path_c.specs.Parts.{parent_place, file_name_place, file_stem_place, file_prefix_place, extension_place, stripped_place, simplified_place, common_place, front_place, IsLent, Lends, kind_number, over, told, ListsIn, Lists, LendsAt, IsBehind};
ghost use Rattle.typed_path_c.specs.Places.{Names};

use crate::status::{BAD_DIALECT, DONE, NONE, TOO_SMALL, of_encoding, path_in};
use typed_path::{
    Components, Encoding, Path, Piece, PieceKind, PlacedPiece, TypedPath, WindowsPrefix,
};

/// A part of the caller's path: the index of its first byte, and its length in bytes.
#[repr(C)]
#[derive(Clone, Copy)]
pub struct Span {
    pub start: usize,
    pub length: usize,
}

/// Sets `part` to what was found, and returns [`DONE`]; returns [`NONE`] if nothing was.
fn lend<T: Copy>(found: Option<T>, part: &mut T) -> u32
    ensures { MatchOption found ((result ≡ none_there) × (part.new ≡ part.old))
        (λ f. (result ≡ done) × (part.new ≡ f)) }
{
    match found {
        Some(found) => {
            *part = found;
            DONE
        }
        None => NONE,
    }
}

/// Returns the last component, `None` if there is none.
///
/// Always inlined: a value with room for a prefix is returned by copies that wait for each other,
/// which takes longer than the reading.
#[inline(always)]
fn last_of<T: Encoding>(path: &[u8]) -> Option<PlacedPiece<'_>>
    ensures { option_map placed_of result ≡ last_of (comps T.dialect path.now) }
{
    Path::<T>::new(path).components().last_placed()
}

/// Sets `span` to the path without its last component. [`NONE`] if it has no component, or if
/// nothing is above the last one: a root or, on Windows, a prefix other than a drive.
#[unsafe(no_mangle)]
pub extern "C" fn typed_path_parent(dialect: u32, path: &[u8], span: &mut Span) -> u32
    ensures { Lends dialect (λ d. parent_place d path.now) span.old span.new result }
{
    let found = of_encoding!(dialect, parent(path), return BAD_DIALECT);
    lend(found, span)
}

fn parent<T: Encoding>(path: &[u8]) -> Option<Span>
    ensures { option_map (λ s. (s.start, s.length)) result ≡ parent_place T.dialect path.now }
{
    match Path::<T>::new(path).parent() {
        Some(front) => Some(Span {
            start: 0,
            length: front.as_bytes().len(),
        }),
        None => None,
    }
}

/// Returns where a front of a path is, which begins at 0; `None` if there is none.
fn whole_front(found: Option<TypedPath<'_>>) -> Option<Span>
    ensures { option_map (λ s. (s.start, s.length)) result
        ≡ option_map front_place (option_map typed_bytes found.entry) }
{
    match found {
        Some(front) => Some(Span {
            start: 0,
            length: front.as_bytes().len(),
        }),
        None => None,
    }
}

/// The body of the three calls for the front of a file name: it lends what `$front` answers of the
/// last component. Each is a call of its own for each dialect, so that one saves no registers for
/// the other.
macro_rules! lend_front {
    ($path:ident, $span:ident, $front:ident) => {{
        let Some(last) = last_of::<T>($path) else {
            return NONE;
        };
        let Some(front) = last.piece.$front() else {
            return NONE;
        };
        *$span = Span {
            start: last.start,
            length: front.len(),
        };
        DONE
    }};
}

/// Sets `span` to the last component if it is a name; else returns [`NONE`].
#[unsafe(no_mangle)]
pub extern "C" fn typed_path_file_name(dialect: u32, path: &[u8], span: &mut Span) -> u32
    ensures { Lends dialect (λ d. file_name_place d path.now) span.old span.new result }
{
    of_encoding!(dialect, lend_file_name(path, span), BAD_DIALECT)
}

#[inline(never)]
fn lend_file_name<T: Encoding>(path: &[u8], span: &mut Span) -> u32
    ensures { IsLent (file_name_place T.dialect path.now) span.old span.new result }
{
    lend_front!(path, span, file_name)
}

/// Sets `span` to the file name up to its last dot, or to the whole file name if it has no dot but
/// one at its start. [`NONE`] if the path has no file name.
#[unsafe(no_mangle)]
pub extern "C" fn typed_path_file_stem(dialect: u32, path: &[u8], span: &mut Span) -> u32
    ensures { Lends dialect (λ d. file_stem_place d path.now) span.old span.new result }
{
    of_encoding!(dialect, lend_file_stem(path, span), BAD_DIALECT)
}

#[inline(never)]
fn lend_file_stem<T: Encoding>(path: &[u8], span: &mut Span) -> u32
    ensures { IsLent (file_stem_place T.dialect path.now) span.old span.new result }
{
    lend_front!(path, span, file_stem)
}

/// Sets `span` to the file name up to its first dot that is not at its start, or to the whole file
/// name if it has none. [`NONE`] if the path has no file name.
#[unsafe(no_mangle)]
pub extern "C" fn typed_path_file_prefix(dialect: u32, path: &[u8], span: &mut Span) -> u32
    ensures { Lends dialect (λ d. file_prefix_place d path.now) span.old span.new result }
{
    of_encoding!(dialect, lend_file_prefix(path, span), BAD_DIALECT)
}

#[inline(never)]
fn lend_file_prefix<T: Encoding>(path: &[u8], span: &mut Span) -> u32
    ensures { IsLent (file_prefix_place T.dialect path.now) span.old span.new result }
{
    lend_front!(path, span, file_prefix)
}

/// Sets `span` to what follows the last dot of the file name. [`NONE`] if the path has no file
/// name, or that has no dot but one at its start.
#[unsafe(no_mangle)]
pub extern "C" fn typed_path_extension(dialect: u32, path: &[u8], span: &mut Span) -> u32
    ensures { Lends dialect (λ d. extension_place d path.now) span.old span.new result }
{
    of_encoding!(dialect, lend_extension(path, span), BAD_DIALECT)
}

#[inline(never)]
fn lend_extension<T: Encoding>(path: &[u8], span: &mut Span) -> u32
    ensures { IsLent (extension_place T.dialect path.now) span.old span.new result }
{
    let Some(last) = last_of::<T>(path) else {
        return NONE;
    };
    let Some(extension) = last.piece.extension() else {
        return NONE;
    };
    let end = last.start + last.piece.len();
    *span = Span {
        start: end - extension.len(),
        length: extension.len(),
    };
    DONE
}

/// Sets `span` to the leading components that both paths share, compared as they are written, as
/// the front of the path up to the end of the last one. [`NONE`] if they share none.
#[unsafe(no_mangle)]
pub extern "C" fn typed_path_common_ancestor(
    dialect: u32,
    path: &[u8],
    other: &[u8],
    span: &mut Span,
) -> u32
    ensures { Lends dialect (λ d. common_place d path.now other.now) span.old span.new result }
{
    let Some(path) = path_in(dialect, path) else {
        return BAD_DIALECT;
    };
    lend(whole_front(path.common_ancestor(other)), span)
}

/// Sets `span` to a path of a verbatim drive of Windows without its `\\?\`, if that means the same
/// to Windows; else to the path itself.
#[unsafe(no_mangle)]
pub extern "C" fn typed_path_simplified(dialect: u32, path: &[u8], span: &mut Span) -> u32
    ensures { Lends dialect (λ d. simplified_place d path.now) span.old span.new result }
{
    let Some(own) = path_in(dialect, path) else {
        return BAD_DIALECT;
    };
    let length = own.simplified().as_bytes().len();
    *span = Span {
        start: path.len().saturating_sub(length),
        length,
    };
    DONE
}

/// Sets `span` to what is left of the path after `base`. [`NONE`] if the path does not begin with
/// the components of `base`, compared as they are written.
#[unsafe(no_mangle)]
pub extern "C" fn typed_path_strip_prefix(
    dialect: u32,
    path: &[u8],
    base: &[u8],
    span: &mut Span,
) -> u32
    ensures { Lends dialect (λ d. stripped_place d path.now base.now) span.old span.new result }
{
    let Some(own) = path_in(dialect, path) else {
        return BAD_DIALECT;
    };
    match own.strip_prefix(base) {
        Ok(rest) => {
            let length = rest.as_bytes().len();
            *span = Span {
                start: path.len().saturating_sub(length),
                length,
            };
            DONE
        }
        Err(_) => NONE,
    }
}

/// Sets `first` and `second` to the names of the prefix: the server and the share, or a name or the
/// letter of a drive alone, and then an empty span. [`NONE`] without a prefix, as on Unix.
#[unsafe(no_mangle)]
pub extern "C" fn typed_path_prefix_names(
    dialect: u32,
    path: &[u8],
    first: &mut Span,
    second: &mut Span,
) -> u32
    ensures { Names dialect path.now first.old first.new second.old second.new result }
{
    let Some(path) = path_in(dialect, path) else {
        return BAD_DIALECT;
    };
    match path.prefix_names() {
        Some(names) => {
            *first = Span {
                start: names.first,
                length: names.first_end - names.first,
            };
            *second = Span {
                start: names.second,
                length: names.second_end - names.second,
            };
            DONE
        }
        None => NONE,
    }
}

/// A component of the caller's path: the index of its first byte, its length in bytes, and the
/// number of its kind.
#[repr(C)]
#[derive(Clone, Copy)]
pub struct Component {
    pub start: usize,
    pub length: usize,
    pub kind: u32,
}

/// Returns the number of the kind of a component.
pub fn kind_number(piece: Piece<'_>) -> u32
    ensures { result ≡ kind_number (part_of piece.entry).kind }
{
    match piece.kind {
        PieceKind::RootDir => 0,
        PieceKind::CurDir => 1,
        PieceKind::ParentDir => 2,
        PieceKind::Normal => 3,
        PieceKind::Prefix(WindowsPrefix::Verbatim(_)) => 4,
        PieceKind::Prefix(WindowsPrefix::VerbatimUNC(_, _)) => 5,
        PieceKind::Prefix(WindowsPrefix::VerbatimDisk(_)) => 6,
        PieceKind::Prefix(WindowsPrefix::DeviceNS(_)) => 7,
        PieceKind::Prefix(WindowsPrefix::UNC(_, _)) => 8,
        PieceKind::Prefix(WindowsPrefix::Disk(_)) => 9,
    }
}

/// Takes the first component of `rest`, which is left of `path`; `None` if none is left.
#[tactic(auto, using(crate::proofs::Spans::behind_front))]
fn next<T: Encoding>(path: &[u8], rest: &mut Components<'_, T>) -> Option<Component>
    ensures told { (seen : List Placed)
        → IsBehind T.dialect path.now seen (components_items rest.old) (components_slice rest.old)
        → result ≡ option_map told (first_of (components_items rest.old)) }
    ensures behind { (seen : List Placed) (c : Placed) → first_of (components_items rest.old) ≡ Some c
        → IsBehind T.dialect path.now seen (components_items rest.old) (components_slice rest.old)
        → IsBehind T.dialect path.now (seen ++ c ∷ []) (components_items rest.new) (components_slice rest.new) }
    ensures items { components_items rest.new ≡ drop 1 (components_items rest.old) }
    ensures fits { length path.now < 2 ^ 64 }
{
    let start = path.len().saturating_sub(rest.as_bytes().len());
    match rest.next() {
        Some(piece) => Some(Component {
            start,
            length: piece.text.len(),
            kind: kind_number(piece),
        }),
        None => None,
    }
}

/// Puts the components of the path into `out`, as many as fit, and sets `count` to how many there
/// are. [`TOO_SMALL`] if `out` is shorter than that.
#[unsafe(no_mangle)]
pub extern "C" fn typed_path_components(
    dialect: u32,
    path: &[u8],
    out: &mut [Component],
    count: &mut usize,
) -> u32
    ensures { Lists dialect path.now out.old count.old out.new count.new result }
{
    of_encoding!(dialect, list(path, out, count), BAD_DIALECT)
}

/// Puts what [`typed_path_components`] does, for a path of one encoding.
fn list<T: Encoding>(path: &[u8], out: &mut [Component], count: &mut usize) -> u32
    ensures { ListsIn (comps T.dialect path.now) out.old out.new count.new result }
{
    let mut rest = Path::<T>::new(path).components();
    let mut at = 0;
    'components: while let Some(component) = next::<T>(path, &mut rest) {
        put_item(out, at, component);
        at += 1;
    }
    *count = at;
    if at <= out.len() { DONE } else { TOO_SMALL }
}

/// Puts an item at index `at` of an array, if that is long enough.
#[tactic(auto, using(crate::proofs::Spans::over_item, crate::proofs::Spans::over_full, crate::proofs::Spans::over_length))]
fn put_item(out: &mut [Component], at: usize, item: Component)
    ensures { (items old : List Component) → length items ≡ at → out.old ≡ over items old
        → out.new ≡ over (items ++ item ∷ []) old }
{
    if at < out.len() {
        out[at] = item;
    }
}

/// Sets `component` to the one at `index`, counted from 0. [`NONE`] if the path has no more than
/// `index` components.
#[unsafe(no_mangle)]
pub extern "C" fn typed_path_component_at(
    dialect: u32,
    path: &[u8],
    index: usize,
    component: &mut Component,
) -> u32
    ensures { LendsAt dialect path.now index component.old component.new result }
{
    let found = of_encoding!(dialect, component_at(path, index), return BAD_DIALECT);
    lend(found, component)
}

/// Returns the component at `index` of a path of one encoding, `None` if it has no more than
/// `index`.
fn component_at<T: Encoding>(path: &[u8], index: usize) -> Option<Component>
    ensures { result ≡ option_map told (first_of (drop index (comps T.dialect path.now))) }
{
    let mut rest = Path::<T>::new(path).components();
    let mut at = 0;
    'components: while let Some(component) = next::<T>(path, &mut rest) {
        if at == index {
            return Some(component);
        }
        at += 1;
    }
    None
}
