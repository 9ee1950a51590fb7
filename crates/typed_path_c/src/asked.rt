//! What a path is asked, alone and beside another. With a number that names no dialect, `answer` is
//! `false`.

ghost use Rattle.std.specs.Prelude.{◌≡◌, false};
ghost use Rattle.typed_path.specs.components.{kinds, parts_of, windows};
ghost use Rattle.typed_path.specs.order.{is_same, lowered, path_cmp};
ghost use Rattle.typed_path.specs.places.{is_within};
ghost use Rattle.typed_path.specs.promises.{keeps_prefix};
ghost use Rattle.typed_path.specs.changes.{fault};
ghost use Rattle.typed_path.specs.queries.{is_absolute, has_root, is_portable, is_valid, is_valid_name, may_be_device, path_starts_with, path_ends_with, portable_fault};
ghost use Rattle.typed_path.specs.typed.{derived_dialect};
ghost use Rattle.typed_path_c.specs.Answers.{dialect_named, done, bad_dialect, fault_status, portable_status, status_by, order_number, IsHeldByEach, Judges, Tells, Orders};

use crate::status::{BAD_DIALECT, DONE, ended, of_encoding, of_path, path_in};
use std::cmp::Ordering;
use typed_path::{Encoding, Path, PathType, UnixPath, WindowsPath};

/// Sets `answer`, and returns [`DONE`].
fn tell(asked: bool, answer: &mut bool) -> u32
    ensures status { result ≡ done }
    ensures answer { answer.new ≡ asked }
{
    *answer = asked;
    DONE
}

/// Sets `answer` to `false`, and returns [`BAD_DIALECT`].
fn tell_none(answer: &mut bool) -> u32
    ensures status { result ≡ bad_dialect }
    ensures answer { answer.new ≡ false }
{
    *answer = false;
    BAD_DIALECT
}

/// Returns the number of the dialect that a path looks like: Windows if it begins with `\` or with
/// a prefix of Windows, else Unix.
#[unsafe(no_mangle)]
pub extern "C" fn typed_path_derive(path: &[u8]) -> u32
    ensures { dialect_named result ≡ Some (derived_dialect path.now) }
{
    match PathType::derive(path) {
        PathType::Unix => 0,
        PathType::Windows => 1,
    }
}

/// Whether a path is absolute: on Unix it begins with a root; on Windows with a server and a share,
/// or with a prefix of another kind and a root right after that.
#[unsafe(no_mangle)]
pub extern "C" fn typed_path_is_absolute(dialect: u32, path: &[u8], answer: &mut bool) -> u32
    ensures { Tells dialect (λ d. is_absolute d (kinds (parts_of d path.now))) answer.new result }
{
    of_path!(dialect, path => tell(path.is_absolute(), answer), tell_none(answer))
}

/// Whether it has a root: one written first or right after the prefix, as in `C:\a`, or one implied
/// by a prefix other than `C:` and `\\?\C:`.
#[unsafe(no_mangle)]
pub extern "C" fn typed_path_has_root(dialect: u32, path: &[u8], answer: &mut bool) -> u32
    ensures { Tells dialect (λ d. has_root d (kinds (parts_of d path.now))) answer.new result }
{
    of_path!(dialect, path => tell(path.has_root(), answer), tell_none(answer))
}

/// Whether the dialect allows every name of the path.
#[unsafe(no_mangle)]
pub extern "C" fn typed_path_is_valid(dialect: u32, path: &[u8], answer: &mut bool) -> u32
    ensures { Tells dialect (λ d. is_valid d (kinds (parts_of d path.now))) answer.new result }
{
    match dialect {
        0 => tell(UnixPath::new(path).is_valid(), answer),
        1 => tell_valid_on_windows(path, answer),
        _ => tell_none(answer),
    }
}

/// Does what [`typed_path_is_valid`] does, for a Windows path. A call of its own, so that a look at
/// a Unix path saves no registers for it.
#[inline(never)]
fn tell_valid_on_windows(path: &[u8], answer: &mut bool) -> u32
    ensures status { result ≡ done }
    ensures answer { answer.new ≡ is_valid windows (kinds (parts_of windows path.now)) }
{
    tell(WindowsPath::new(path).is_valid(), answer)
}

/// Whether the dialect allows the name.
#[unsafe(no_mangle)]
pub extern "C" fn typed_path_is_valid_name(dialect: u32, name: &[u8], answer: &mut bool) -> u32
    ensures { Tells dialect (λ d. is_valid_name d name.now) answer.new result }
{
    let asked = of_encoding!(dialect, is_valid_name(name), return tell_none(answer));
    tell(asked, answer)
}

/// Whether the encoding allows the name.
fn is_valid_name<T: Encoding>(name: &[u8]) -> bool
    ensures { result ≡ is_valid_name T.dialect name.now }
{
    T::valid(name)
}

/// Returns the status of the first component for which a checked join refuses the path, whatever it
/// is joined to, or [`DONE`] if there is none.
#[unsafe(no_mangle)]
pub extern "C" fn typed_path_check(dialect: u32, path: &[u8]) -> u32
    ensures judged { Judges dialect (λ d. status_by fault_status (fault d path.now)) result }
    ensures contained { IsHeldByEach dialect path.now result }
{
    of_encoding!(dialect, check(path), BAD_DIALECT)
}

/// Returns what [`typed_path_check`] does, for a path of one encoding.
fn check<T: Encoding>(path: &[u8]) -> u32
    ensures { result ≡ status_by fault_status (fault T.dialect path.now) }
{
    ended(T::check(path))
}

/// Returns the status of the first component that some system does not take as it is written, or
/// [`DONE`] if there is none.
#[unsafe(no_mangle)]
pub extern "C" fn typed_path_check_portable(dialect: u32, path: &[u8]) -> u32
    ensures { Judges dialect (λ d. status_by portable_status (portable_fault d path.now)) result }
{
    of_encoding!(dialect, check_portable(path), BAD_DIALECT)
}

/// Returns what [`typed_path_check_portable`] does, for a path of one encoding.
fn check_portable<T: Encoding>(path: &[u8]) -> u32
    ensures { result ≡ status_by portable_status (portable_fault T.dialect path.now) }
{
    ended(Path::<T>::new(path).check_portable())
}

/// Whether a path has no prefix and every system takes each of its names as it is written.
#[unsafe(no_mangle)]
pub extern "C" fn typed_path_is_portable(dialect: u32, path: &[u8], answer: &mut bool) -> u32
    ensures { Tells dialect (λ d. is_portable d path.now) answer.new result }
{
    of_encoding!(dialect, tell_portable(path, answer), tell_none(answer))
}

/// Sets `answer` to whether a path of one encoding has no prefix and every system takes each of its
/// names as it is written, and returns [`DONE`].
fn tell_portable<T: Encoding>(path: &[u8], answer: &mut bool) -> u32
    ensures status { result ≡ done }
    ensures answer { answer.new ≡ is_portable T.dialect path.now }
{
    tell(Path::<T>::new(path).is_portable(), answer)
}

/// Whether some version of Windows may take a name of the path for a device.
#[unsafe(no_mangle)]
pub extern "C" fn typed_path_may_be_device(dialect: u32, path: &[u8], answer: &mut bool) -> u32
    ensures { Tells dialect (λ d. may_be_device d path.now) answer.new result }
{
    of_path!(dialect, path => tell(path.may_be_device(), answer), tell_none(answer))
}

/// Whether each path that a checked join makes of this one is known to have the prefix of this one,
/// or none if this one has none. `false` leaves it open.
#[unsafe(no_mangle)]
pub extern "C" fn typed_path_keeps_prefix(dialect: u32, path: &[u8], answer: &mut bool) -> u32
    ensures { Tells dialect (λ d. keeps_prefix d path.now) answer.new result }
{
    of_path!(dialect, path => tell(path.keeps_prefix(), answer), tell_none(answer))
}

/// Whether the path begins with the components of `base`, compared as they are written.
#[unsafe(no_mangle)]
pub extern "C" fn typed_path_starts_with(
    dialect: u32,
    path: &[u8],
    base: &[u8],
    answer: &mut bool,
) -> u32
    ensures { Tells dialect (λ d. path_starts_with d path.now base.now) answer.new result }
{
    of_path!(dialect, path => tell(path.starts_with(base), answer), tell_none(answer))
}

/// Whether the path in lower case begins with the components of `base` in lower case, compared as
/// they are written. Only ASCII letters have a lower case here.
#[unsafe(no_mangle)]
pub extern "C" fn typed_path_starts_with_ignore_ascii_case(
    dialect: u32,
    path: &[u8],
    base: &[u8],
    answer: &mut bool,
) -> u32
    ensures { Tells dialect (λ d. path_starts_with d (lowered d path.now) (lowered d base.now)) answer.new result }
{
    of_path!(dialect, path => tell(path.starts_with_ignore_ascii_case(base), answer), tell_none(answer))
}

/// Whether the path ends with the components of `end`, compared as they are written.
#[unsafe(no_mangle)]
pub extern "C" fn typed_path_ends_with(
    dialect: u32,
    path: &[u8],
    end: &[u8],
    answer: &mut bool,
) -> u32
    ensures { Tells dialect (λ d. path_ends_with d path.now end.now) answer.new result }
{
    of_path!(dialect, path => tell(path.ends_with(end), answer), tell_none(answer))
}

/// Whether the path lies at `base` or below it, from whatever directory both are read.
#[unsafe(no_mangle)]
pub extern "C" fn typed_path_is_within(
    dialect: u32,
    path: &[u8],
    base: &[u8],
    answer: &mut bool,
) -> u32
    ensures { Tells dialect (λ d. is_within d path.now base.now) answer.new result }
{
    of_path!(dialect, path => tell(path.is_within(base), answer), tell_none(answer))
}

/// Whether the path has the same components as `other`.
#[unsafe(no_mangle)]
pub extern "C" fn typed_path_equal(
    dialect: u32,
    path: &[u8],
    other: &[u8],
    answer: &mut bool,
) -> u32
    ensures { Tells dialect (λ d. is_same d path.now other.now) answer.new result }
{
    let asked = of_encoding!(dialect, are_same(path, other), return tell_none(answer));
    tell(asked, answer)
}

/// Whether two paths of one encoding have the same components.
fn are_same<T: Encoding>(path: &[u8], other: &[u8]) -> bool
    ensures { result ≡ is_same T.dialect path.now other.now }
{
    Path::<T>::new(path) == Path::new(other)
}

/// Whether the path has the same components as `other` in lower case.
#[unsafe(no_mangle)]
pub extern "C" fn typed_path_equal_ignore_ascii_case(
    dialect: u32,
    path: &[u8],
    other: &[u8],
    answer: &mut bool,
) -> u32
    ensures { Tells dialect (λ d. is_same d (lowered d path.now) (lowered d other.now)) answer.new result }
{
    let asked = of_encoding!(dialect, are_alike(path, other), return tell_none(answer));
    tell(asked, answer)
}

/// Whether two paths of one encoding have the same components in lower case.
fn are_alike<T: Encoding>(path: &[u8], other: &[u8]) -> bool
    ensures { result ≡ is_same T.dialect (lowered T.dialect path.now) (lowered T.dialect other.now) }
{
    Path::<T>::new(path).eq_ignore_ascii_case(Path::new(other))
}

/// Sets `order` to the order of the path and `other` by components: -1, 0 or 1.
#[unsafe(no_mangle)]
pub extern "C" fn typed_path_compare(
    dialect: u32,
    path: &[u8],
    other: &[u8],
    order: &mut i32,
) -> u32
    ensures { Orders dialect (λ d. path_cmp d path.now other.now) order.old order.new result }
{
    *order = of_encoding!(dialect, compared(path, other), return BAD_DIALECT);
    DONE
}

/// Returns the order of two paths of one encoding by components: -1, 0 or 1.
fn compared<T: Encoding>(path: &[u8], other: &[u8]) -> i32
    ensures { result ≡ order_number (path_cmp T.dialect path.now other.now) }
{
    number_of(Path::<T>::new(path).cmp(&Path::new(other)))
}

/// Sets `order` to the order of the path and `other` in lower case, by components: -1, 0 or 1.
#[unsafe(no_mangle)]
pub extern "C" fn typed_path_compare_ignore_ascii_case(
    dialect: u32,
    path: &[u8],
    other: &[u8],
    order: &mut i32,
) -> u32
    ensures { Orders dialect (λ d. path_cmp d (lowered d path.now) (lowered d other.now)) order.old order.new result }
{
    *order = of_encoding!(dialect, lowered_compared(path, other), return BAD_DIALECT);
    DONE
}

/// Returns the order of two paths of one encoding in lower case, by components: -1, 0 or 1.
fn lowered_compared<T: Encoding>(path: &[u8], other: &[u8]) -> i32
    ensures { result ≡ order_number (path_cmp T.dialect (lowered T.dialect path.now) (lowered T.dialect other.now)) }
{
    number_of(Path::<T>::new(path).cmp_ignore_ascii_case(Path::new(other)))
}

/// Returns an order as a number: -1, 0 or 1.
fn number_of(order: Ordering) -> i32
    ensures { result ≡ order_number order }
{
    match order {
        Ordering::Less => -1,
        Ordering::Equal => 0,
        Ordering::Greater => 1,
    }
}
