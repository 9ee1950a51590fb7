//! Paths converted to another encoding, with and without checks, and paths made absolute.

ghost use Rattle.std.specs.Prelude.{◌<◌, ◌≡◌, ◌≤◌, ◌+◌, ◌++◌, ℕ, [], ◌∷◌, map, take, drop, length, IsTrue, IsOk, IfSome, IfOk, OnOk, OnErr, Result, Ok, Err, Some, None, true, false, if◌then◌else◌};
ghost use Rattle.std.specs.Vec.{vec_capacity};
ghost use Rattle.typed_path.specs.components.{parts_of, unix, windows, is_separator, is_verbatim, separators, slash};
ghost use Rattle.std.specs.List.{list_any};
ghost use Rattle.typed_path.specs.conversions.{CrossesTurned, IsUnrefused, separator_of, same_dialect, converted, converted_checked, FitsConverted, crossed, crossed_all, crossing_fault, push_checked_each, platform, absolute_from, absolute_under};
ghost use Rattle.typed_path.specs.changes.{refusal, error_of, fault, FitsEach, IsKnown, begins_with_separator};
ghost use Rattle.typed_path.specs.queries.{is_disk};
ghost use Rattle.typed_path.specs.scan.{turned};
ghost use Rattle.typed_path.specs.views.SpanViews.{span_bytes};
ghost use Rattle.typed_path.specs.views.PieceViews.{part_of, prefix_view};

use crate::common::{Encoding, Path, PathBuf, cut_back, has_room, put_turned};
use crate::errors::{AbsolutizeError, CheckedPathError, PathError};
use crate::platform::{PlatformEncoding, PlatformPath, PlatformPathBuf};
use crate::scan::{
    Piece, PieceKind, Separators, Span, WindowsPrefix, before_last_separator,
    begins_with_long_name, find_prefix, has_forbidden_or_device, has_no_blank_behind, is_dots,
    is_free_of,
};
use crate::unix::{UnixEncoding, UnixPathBuf};
use crate::windows::{WindowsEncoding, WindowsPathBuf, begins_with_separator, has_second_colon};
use std::alloc::{AllocError, Global};

impl<'a, T: Encoding> Path<'a, T> {
    ghost use Rattle.typed_path.specs.views.PathViews.{path_bytes};
    ghost use Rattle.typed_path.specs.declared.errors.AbsolutizeError.TheVariants.{Ambiguous};
    ghost use Rattle.typed_path.specs.changes.Push as push_spec;

    /// Returns the path in the encoding `U`: its components pushed one by one onto the empty path.
    /// The root, and every prefix but a drive `C:`, becomes the root of `U`; all else is pushed as
    /// it is. If `U` has the label of this encoding, the result is a copy.
    ///
    /// From Windows to Unix `C:\x` is `/x`, and `C:tmp` is `C:/tmp`.
    pub fn with_encoding<U: Encoding>(self, alloc: Global) -> Result<PathBuf<U>, AllocError>
        ensures { IfOk result
            (λ p. p.bytes ≡ converted T.dialect U.dialect (path_bytes self.entry)) }
    {
        let path = self.as_bytes();
        let mut text = Vec::with_capacity(alloc, path.len() + 1)?;
        put_converted::<T, U>(&mut text, Span::whole(path))?;
        Ok(PathBuf::from_vec(text))
    }

    /// Returns the path in the encoding `U`, unless a checked push refuses a name of it or its
    /// drive.
    ///
    /// Its components are put one by one onto the empty path, each name and each drive by a checked
    /// push, all else by a plain one, even if `U` has the label of this encoding.
    ///
    /// # Errors
    ///
    /// `Checked` for the first name or drive that a checked push refuses: from Unix to Windows
    /// `/tmp/ab:c` is refused with `InvalidFilename`, and from Windows to Windows `C:\a` with
    /// `UnexpectedPrefix`. Roots, `.`, `..` and other prefixes are never refused. `OutOfMemory` if
    /// allocation fails before such a component is met.
    pub fn with_encoding_checked<U: Encoding>(self, alloc: Global) -> Result<PathBuf<U>, PathError>
        ensures ok { IfOk result (λ p.
            converted_checked T.dialect U.dialect (path_bytes self.entry) ≡ Ok p.bytes) }
        ensures refused { (e : CheckedPathError) → refusal result ≡ Some e
            → converted_checked T.dialect U.dialect (path_bytes self.entry) ≡ Err e }
    {
        let path = self.as_bytes();
        let mut text = Vec::with_capacity(alloc, path.len() + 1)?;
        convert_checked::<T, U>(&mut text, 0, Span::whole(path))?;
        Ok(PathBuf::from_vec(text))
    }

    /// Whether the encoding has the label of Unix.
    pub fn has_unix_encoding(self) -> bool
        ensures { result ≡ same_dialect T.dialect unix }
    {
        have_one_dialect::<T, UnixEncoding>()
    }

    /// Returns the path as on Unix, as [`Path::with_encoding`] does.
    pub fn with_unix_encoding(self, alloc: Global) -> Result<UnixPathBuf, AllocError>
        ensures { IfOk result (λ p. p.bytes ≡ converted T.dialect unix (path_bytes self.entry)) }
    {
        self.with_encoding::<UnixEncoding>(alloc)
    }

    /// Returns the path as on Unix, unless a checked push refuses a name of it or its drive.
    ///
    /// # Errors
    ///
    /// Those of [`Path::with_encoding_checked`].
    pub fn with_unix_encoding_checked(self, alloc: Global) -> Result<UnixPathBuf, PathError>
        ensures ok { IfOk result
            (λ p. converted_checked T.dialect unix (path_bytes self.entry) ≡ Ok p.bytes) }
        ensures refused { (e : CheckedPathError) → refusal result ≡ Some e
            → converted_checked T.dialect unix (path_bytes self.entry) ≡ Err e }
    {
        self.with_encoding_checked::<UnixEncoding>(alloc)
    }

    /// Whether the encoding has the label of Windows; else it has that of Unix.
    pub fn has_windows_encoding(self) -> bool
        ensures { result ≡ same_dialect T.dialect windows }
    {
        have_one_dialect::<T, WindowsEncoding>()
    }

    /// Returns the path as on Windows, as [`Path::with_encoding`] does.
    pub fn with_windows_encoding(self, alloc: Global) -> Result<WindowsPathBuf, AllocError>
        ensures { IfOk result (λ p. p.bytes ≡ converted T.dialect windows (path_bytes self.entry)) }
    {
        self.with_encoding::<WindowsEncoding>(alloc)
    }

    /// Returns the path as on Windows, unless a checked push refuses a name of it or its drive.
    ///
    /// # Errors
    ///
    /// Those of [`Path::with_encoding_checked`].
    pub fn with_windows_encoding_checked(self, alloc: Global) -> Result<WindowsPathBuf, PathError>
        ensures ok { IfOk result
            (λ p. converted_checked T.dialect windows (path_bytes self.entry) ≡ Ok p.bytes) }
        ensures refused { (e : CheckedPathError) → refusal result ≡ Some e
            → converted_checked T.dialect windows (path_bytes self.entry) ≡ Err e }
    {
        self.with_encoding_checked::<WindowsEncoding>(alloc)
    }

    /// Whether the encoding is [`PlatformEncoding`] itself, and not the one that it stands for.
    pub fn has_platform_encoding(self) -> bool
        ensures { result ≡ T.IS_PLATFORM }
    {
        T::IS_PLATFORM
    }

    /// Returns the path as on the machine, as [`Path::with_encoding`] does.
    pub fn with_platform_encoding(self, alloc: Global) -> Result<PlatformPathBuf, AllocError>
        ensures { IfOk result (λ p. p.bytes
            ≡ converted T.dialect platform (path_bytes self.entry)) }
    {
        self.with_encoding::<PlatformEncoding>(alloc)
    }

    /// Returns the path as on the machine, unless a checked push refuses a name of it or its drive.
    ///
    /// # Errors
    ///
    /// Those of [`Path::with_encoding_checked`].
    pub fn with_platform_encoding_checked(self, alloc: Global) -> Result<PlatformPathBuf, PathError>
        ensures ok { IfOk result
            (λ p. converted_checked T.dialect platform (path_bytes self.entry) ≡ Ok p.bytes) }
        ensures refused { (e : CheckedPathError) → refusal result ≡ Some e
            → converted_checked T.dialect platform (path_bytes self.entry) ≡ Err e }
    {
        self.with_encoding_checked::<PlatformEncoding>(alloc)
    }

    /// Returns the normal path of this path if it is absolute, else that of `directory`, written in
    /// this path's encoding, with this path pushed onto it.
    ///
    /// Of the Unix path `a/../b` it is `/home/u/b`, from `/home/u`.
    ///
    /// # Errors
    ///
    /// `Ambiguous` if neither the path nor what the push makes is absolute: the Unix path `a` from
    /// `b`, and the Windows path `a` from `/home/u`, as `\home\u\a` has no prefix. `OutOfMemory` if
    /// allocation fails.
    pub fn absolutize(
        self,
        alloc: Global,
        directory: PlatformPath<'_>,
    ) -> Result<PathBuf<T>, AbsolutizeError>
        ensures ok { IfOk result (λ p.
            absolute_from T.dialect (path_bytes directory.entry) (path_bytes self.entry)
            ≡ Some p.bytes) }
        ensures ambiguous { result ≡ Err Ambiguous
            → absolute_from T.dialect (path_bytes directory.entry) (path_bytes self.entry) ≡ None }
    {
        self.absolutize_from(alloc, directory)
    }

    /// Returns the normal path of this path if it is absolute, else that of `directory`, written in
    /// this path's encoding, with this path pushed onto it.
    ///
    /// The directory is of any encoding: of the Windows path `a\..\b` it is `C:\work\b`, from
    /// `C:\work`.
    ///
    /// # Errors
    ///
    /// `Ambiguous` if the path is absolute neither by itself nor after the directory, as `D:a`
    /// after `C:\work`. `OutOfMemory` if allocation fails.
    pub fn absolutize_from<U: Encoding>(
        self,
        alloc: Global,
        directory: Path<'_, U>,
    ) -> Result<PathBuf<T>, AbsolutizeError>
        ensures ok { IfOk result (λ p.
            absolute_under T.dialect U.dialect (path_bytes directory.entry) (path_bytes self.entry)
            ≡ Some p.bytes) }
        ensures ambiguous { result ≡ Err Ambiguous
            → absolute_under T.dialect U.dialect (path_bytes directory.entry) (path_bytes self.entry)
            ≡ None }
    {
        if self.is_absolute() {
            return Ok(self.normalize(alloc)?);
        }
        let base = directory.as_bytes();
        let path = self.as_bytes();
        let mut joined = Vec::with_capacity(alloc, base.len() + path.len() + 1)?;
        put_converted::<U, T>(&mut joined, Span::whole(base))?;
        T::push(&mut joined, path)?;
        let joined = PathBuf::from_vec(joined);
        if !joined.as_path().is_absolute() {
            return Err(AbsolutizeError::Ambiguous);
        }
        Ok(joined.as_path().normalize(alloc)?)
    }
}

/// Whether two encodings have the same dialect, and so the same label.
#[inline(always)]
fn have_one_dialect<T: Encoding, U: Encoding>() -> bool
    ensures { result ≡ same_dialect T.dialect U.dialect }
{
    T::is_windows() == U::is_windows()
}

/// Appends `path`, converted from the encoding `T` to `U` as [`Path::with_encoding`] does, to
/// `text`. If allocation fails, `text` is unchanged.
pub fn put_converted<T: Encoding, U: Encoding>(
    text: &mut Vec<u8>,
    path: Span<'_>,
) -> Result<(), AllocError>
    ensures ok { OnOk result (text.new.items
        ≡ text.old.items ++ converted T.dialect U.dialect (span_bytes path.entry)) }
    ensures err { OnErr result (text.new.items ≡ text.old.items) }
    ensures succeeds { (room : ℕ) → length text.old.items + room ≤ vec_capacity text.old
        → FitsConverted T.dialect U.dialect room (span_bytes path.entry) → IsOk result }
{
    if have_one_dialect::<T, U>() {
        return text.extend_from_slice(path.as_bytes());
    }
    if let Some(turned) = turned::<T, U>(path.as_bytes()) {
        // Without room for all of it components are pushed, which asks for less memory at once.
        if has_room(text, turned) {
            return put_turned(text, turned, Separators::Either, separator_of::<U>());
        }
    }
    let len = text.len();
    let done = push_each::<T, U>(text, len, path);
    cut_back(text, len, done)
}

/// Returns the separator that a path of the encoding is put together with: `/` or `\`.
#[inline(always)]
fn separator_of<U: Encoding>() -> u8
    ensures { result ≡ separator_of U.dialect }
{
    if have_one_dialect::<U, UnixEncoding>() {
        b'/'
    } else {
        b'\\'
    }
}

/// Returns bytes that need only have their separators replaced to be `path` in the encoding `U`.
///
/// Each `/` and `\` in them becomes the separator of `U`. `None` leaves it open.
#[inline(always)]
fn turned<T: Encoding, U: Encoding>(path: &[u8]) -> Option<&[u8]>
    ensures { IfSome result (λ text. CrossesTurned T.dialect U.dialect path.now text.now) }
{
    // So most paths are copied at once, and no component is pushed.
    if path.len() < SHORT || begins_with_long_name(path) {
        return None;
    }
    if have_one_dialect::<T, UnixEncoding>() && have_one_dialect::<U, WindowsEncoding>() {
        return turned_for_windows(path);
    }
    if have_one_dialect::<T, WindowsEncoding>() && have_one_dialect::<U, UnixEncoding>() {
        if stands_behind_drive(path) {
            return None;
        }
        return turned_for_unix(path);
    }
    None
}

/// Whether `path` begins with an ASCII letter, `:`, and a byte other than `/` and `\`: what comes
/// after the drive has to be read then. Only picks the cheaper of two ways to one result.
#[inline(always)]
fn stands_behind_drive(path: &[u8]) -> bool {
    matches!(path, [letter, b':', third, ..]
        if letter.is_ascii_alphabetic() && !matches!(*third, b'/' | b'\\'))
}

/// The length in bytes from which on a path is searched before it is converted.
const SHORT: usize = 3;

/// Returns what [`turned`] does from Unix to Windows, if `path` has neither `\` nor `:`.
///
/// A `\` would separate on Windows, and a `:` may mark a drive. `None` leaves it open.
fn turned_for_windows(path: &[u8]) -> Option<&[u8]>
    ensures { IfSome result (λ text. CrossesTurned unix windows path.now text.now) }
{
    let text = before_last_separator(path, Separators::Slash);
    if is_free_of((b':', b'\\'), text) && has_no_blank_behind(text, Separators::Either) {
        return Some(text);
    }
    None
}

/// Returns bytes that are `path` on Unix once each `\` in them is replaced by `/`.
///
/// A path without a prefix is returned without a separator at its end; of one with a prefix and a
/// root, what follows the prefix, likewise. A path that is only a prefix is returned as it is for a
/// drive `C:`, and as `/` for any other. `None` leaves it open, even for such paths.
#[inline(always)]
fn turned_for_unix(path: &[u8]) -> Option<&[u8]>
    ensures { IfSome result (λ text. CrossesTurned windows unix path.now text.now) }
{
    let Some(found) = find_prefix(path) else {
        let text = before_last_separator(path, Separators::Either);
        if has_no_blank_behind(text, Separators::Either) {
            return Some(text);
        }
        return None;
    };
    let behind = &path[found.length..];
    if behind.is_empty() {
        return Some(prefix_alone(path, found.kind));
    }
    let text = before_last_separator(behind, Separators::of_windows(path));
    if is_rooted(path, text) && (text.len() == 1 || has_no_blank_behind(text, Separators::Either)) {
        return Some(text);
    }
    None
}

/// Returns what a path that is only a prefix is written as on Unix: a drive `C:` as it is, any
/// other prefix as `/`.
#[inline(always)]
fn prefix_alone<'a>(path: &'a [u8], prefix: WindowsPrefix<'a>) -> &'a [u8]
    ensures { result.now ≡ (if is_disk (prefix_view prefix.entry) then path.now else slash ∷ []) }
{
    match prefix {
        WindowsPrefix::Disk(_) => path,
        _ => b"/",
    }
}

/// Whether `behind`, which comes after the prefix of the Windows path `path`, begins with a root
/// and no name in it holds a `/`.
#[inline(always)]
fn is_rooted(path: &[u8], behind: &[u8]) -> bool
    ensures rooted { IsTrue result → begins_with_separator behind.now ≡ true }
    ensures slashless { IsTrue result → is_verbatim (separators windows path.now) ≡ true
        → list_any (is_separator Separators.Slash) behind.now ≡ false }
{
    begins_with_separator(behind)
        && (!Separators::of_windows(path).is_verbatim() || is_free_of((b'/', b'/'), behind))
}

/// Pushes the components of `path` one by one onto the empty path at the end of `text`.
///
/// They are pushed as they are written in the encoding `U`. `text` has `start` bytes. If allocation
/// fails, some may stay pushed.
fn push_each<T: Encoding, U: Encoding>(
    text: &mut Vec<u8>,
    start: usize,
    path: Span<'_>,
) -> Result<(), AllocError>
    requires { length text.old.items ≡ start }
    ensures ok { OnOk result (drop start text.new.items
        ≡ crossed_all U.dialect (parts_of T.dialect (span_bytes path.entry))) }
    ensures kept { take start text.new.items ≡ take start text.old.items }
    ensures long { start ≤ length text.new.items }
    ensures succeeds { (room : ℕ) → start + room ≤ vec_capacity text.old
        → FitsEach U.dialect room []
        (map (crossed U.dialect) (parts_of T.dialect (span_bytes path.entry))) → IsOk result }
{
    let cursor = T::cursor(path.as_bytes()).within(path);
    let mut known = match cursor.prefix_piece() {
        Some(piece) => U::push_next(text, start, piece.crossed(U::root_text()), None)?,
        None => None,
    };
    let mut body = cursor.body();
    'steps: while let Some(step) = body.front() {
        known = U::push_next(text, start, step.piece().crossed(U::root_text()), known)?;
    }
    Ok(())
}

/// Appends `path`, converted from the encoding `T` to `U` with checks, to `text`.
///
/// `text` has `start` bytes, which stay in every case; after a failure a part of the result may
/// follow them. What is refused, and with which error, is told at [`Path::with_encoding_checked`].
pub fn convert_checked<T: Encoding, U: Encoding>(
    text: &mut Vec<u8>,
    start: usize,
    path: Span<'_>,
) -> Result<(), PathError>
    requires { length text.old.items ≡ start }
    ensures ok { OnOk result (converted_checked T.dialect U.dialect (span_bytes path.entry)
        ≡ Ok (drop start text.new.items)) }
    ensures refused { (e : CheckedPathError) → refusal result ≡ Some e
        → converted_checked T.dialect U.dialect (span_bytes path.entry) ≡ Err e }
    ensures kept { take start text.new.items ≡ take start text.old.items }
    ensures long { start ≤ length text.new.items }
{
    // If searches tell that none is refused, the path is converted without checks.
    if is_unrefused::<T, U>(path.as_bytes()) {
        return Ok(put_converted::<T, U>(text, path)?);
    }
    push_each_checked::<T, U>(text, start, path)
}

/// Whether `T` and `U` differ in dialect, and searches tell that no component of `path` is refused.
///
/// `false` leaves it open.
#[inline(always)]
fn is_unrefused<T: Encoding, U: Encoding>(path: &[u8]) -> bool
    ensures { IsTrue result → (same_dialect T.dialect U.dialect ≡ false)
        × IsUnrefused T.dialect U.dialect path.now }
{
    if have_one_dialect::<T, UnixEncoding>() && have_one_dialect::<U, WindowsEncoding>() {
        // Short paths are read, and so are those whose second byte is `:`.
        return SHORTEST_LOOKED_AT <= path.len()
            && !has_second_colon(path)
            && !has_forbidden_or_device(path);
    }
    if have_one_dialect::<T, WindowsEncoding>() && have_one_dialect::<U, UnixEncoding>() {
        // Unix forbids only NUL and `/` in names; `/` separates unless the path is read verbatim.
        return SHORT <= path.len()
            && !Separators::of_windows(path).is_verbatim()
            && is_free_of((b'\0', b'\0'), path);
    }
    false
}

/// The length in bytes from which on a Unix path is searched as a whole before it is converted to
/// Windows with checks.
const SHORTEST_LOOKED_AT: usize = 8;

/// Checks the components of `path` and pushes them one by one, up to the first that is refused.
///
/// They are checked and pushed as [`push_piece_checked`] does, onto the empty path at the end of
/// `text`, which has `start` bytes. Some may stay pushed if one is refused or allocation fails.
fn push_each_checked<T: Encoding, U: Encoding>(
    text: &mut Vec<u8>,
    start: usize,
    path: Span<'_>,
) -> Result<(), PathError>
    requires { length text.old.items ≡ start }
    ensures ok { OnOk result (converted_checked T.dialect U.dialect (span_bytes path.entry)
        ≡ Ok (drop start text.new.items)) }
    ensures refused { (e : CheckedPathError) → refusal result ≡ Some e
        → converted_checked T.dialect U.dialect (span_bytes path.entry) ≡ Err e }
    ensures kept { take start text.new.items ≡ take start text.old.items }
    ensures long { start ≤ length text.new.items }
{
    let cursor = T::cursor(path.as_bytes()).within(path);
    let mut known = match cursor.prefix_piece() {
        Some(piece) => push_piece_checked::<U>(text, start, piece, None)?,
        None => None,
    };
    let mut body = cursor.body();
    'steps: while let Some(step) = body.front() {
        known = push_piece_checked::<U>(text, start, step.piece(), known)?;
    }
    Ok(())
}

/// Checks `piece` as [`check_component`] does, and pushes it onto the path `text[start..]`.
///
/// It is pushed as it is written in the encoding `U`. `known` is what is known of the path. Returns
/// what is known of the result, as [`Encoding::push_next`] does.
#[inline(always)]
fn push_piece_checked<U: Encoding>(
    text: &mut Vec<u8>,
    start: usize,
    piece: Piece<'_>,
    known: Option<usize>,
) -> Result<Option<usize>, PathError>
    requires { start ≤ length text.old.items }
    ensures ok { IsKnown U.dialect known (drop start text.old.items) → OnOk result
        (push_checked_each U.dialect (Ok (drop start text.old.items)) (part_of piece.entry ∷ [])
        ≡ Ok (drop start text.new.items)) }
    ensures refused { (e : CheckedPathError) → refusal result ≡ Some e
        → push_checked_each U.dialect (Ok (drop start text.old.items))
        (part_of piece.entry ∷ []) ≡ Err e }
    ensures known { IsKnown U.dialect known (drop start text.old.items)
        → IfOk result (λ next. IsKnown U.dialect next (drop start text.new.items)) }
    ensures kept { IsKnown U.dialect known (drop start text.old.items)
        → take start text.new.items ≡ take start text.old.items }
    ensures long { IsKnown U.dialect known (drop start text.old.items)
        → start ≤ length text.new.items }
{
    check_component::<U>(piece)?;
    Ok(U::push_next(text, start, piece.crossed(U::root_text()), known)?)
}

/// Checks the bytes of a component as those of a path that is pushed, as [`Encoding::check`] of `U`
/// does: on Windows the Unix name `..\x` is refused. A root, `.`, `..` and every prefix but a drive
/// `C:` are never refused.
#[inline(always)]
fn check_component<U: Encoding>(piece: Piece<'_>) -> Result<(), CheckedPathError>
    ensures { error_of result ≡ crossing_fault U.dialect (part_of piece.entry) }
{
    // Most others are names that the encoding allows, which need no reading.
    if matches!(piece.kind, PieceKind::CurDir | PieceKind::ParentDir)
        || piece.is_root()
        || is_name::<U>(piece.text)
    {
        Ok(())
    } else {
        U::check(piece.text)
    }
}

/// Whether `text` is a name that the encoding allows, as [`Encoding::valid`] tells, and not empty,
/// `.` or `..`.
#[inline(always)]
fn is_name<U: Encoding>(text: &[u8]) -> bool
    ensures { IsTrue result → fault U.dialect text.now ≡ None }
{
    !is_dots(text) && U::valid(text)
}
