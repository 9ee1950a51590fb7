//! Paths as text, and what is printed of paths and of the iterators over them.

ghost use Rattle.std.specs.Prelude.{◌≡◌, IfOk, IsOk, option_copied};
ghost use Rattle.std.specs.Str.Lossy.{utf8_lossy};
ghost use Rattle.std.specs.String.{string_bytes};
ghost use Rattle.std.specs.Str.{IsUtf8};
ghost use Rattle.std.specs.Cow.{cow_str_bytes, IsBorrowedStr};
ghost use Rattle.typed_path.specs.queries.{text_of_bytes};
ghost use Rattle.typed_path.specs.views.PathViews.{path_bytes, displayed};

use crate::common::components::{Ancestors, ReadAs, Reading};
use crate::common::encoding::Encoding;
use crate::common::path::Path;
use crate::common::path_buf::PathBuf;
use std::alloc::{AllocError, Global};
use std::borrow::CowStr;
use std::{fmt, str};

/// A path to be printed: as text, with U+FFFD for what is not UTF-8.
#[derive_where(Clone, Copy)]
pub struct Display<'a, T> {
    path: Path<'a, T>,
}

impl<'a, T: Encoding> Path<'a, T> {
    /// Returns the path as text if it is UTF-8, else `None`.
    pub fn to_str(self) -> Option<&'a str>
        ensures { option_copied result ≡ text_of_bytes (path_bytes self.entry) }
    {
        str::from_utf8(self.as_bytes()).ok()
    }

    /// Returns the path as text, with U+FFFD for what is not UTF-8.
    ///
    /// If all of it is UTF-8, the text is borrowed and nothing is allocated. Of the bytes
    /// `0x61 0xFF` it is `a` and U+FFFD.
    pub fn to_string_lossy(self, alloc: Global) -> Result<CowStr<'a>, AllocError>
        ensures text { IfOk result
            (λ text. cow_str_bytes text ≡ utf8_lossy (path_bytes self.entry)) }
        ensures lent { IsUtf8 (path_bytes self.entry) → IfOk result IsBorrowedStr }
        ensures succeeds { IsUtf8 (path_bytes self.entry) → IsOk result }
    {
        match self.to_str() {
            Some(text) => Ok(CowStr::Borrowed(text)),
            None => Ok(CowStr::Owned(replaced(alloc, self.as_bytes())?)),
        }
    }

    /// Returns the path as a value that prints it.
    pub fn display(self) -> Display<'a, T>
        ensures { displayed result ≡ path_bytes self.entry }
    {
        Display { path: self }
    }
}

/// Returns a copy of the bytes as text, with U+FFFD for what is not UTF-8.
fn replaced(alloc: Global, bytes: &[u8]) -> Result<String, AllocError>
    ensures { IfOk result (λ text. string_bytes text ≡ utf8_lossy bytes.now) }
{
    // Capacity for as many bytes is reserved at once.
    let mut text = String::with_capacity(alloc, bytes.len())?;
    'chunks: for chunk in bytes.utf8_chunks() {
        text.push_str(chunk.valid())?;
        if !chunk.invalid().is_empty() {
            text.push('\u{FFFD}')?;
        }
    }
    Ok(text)
}

/// Prints the path as text, with U+FFFD for what is not UTF-8.
impl<'a, T: Encoding> fmt::Display for Path<'a, T> {
    ghost output = { λ path. text_of_bytes (path_bytes path) };

    fn fmt<W: fmt::Write>(&self, f: &mut fmt::Formatter<W>) -> fmt::Result {
        match self.to_str() {
            Some(text) => f.pad(text),
            None => {
                for chunk in self.as_bytes().utf8_chunks() {
                    f.write_str(chunk.valid())?;
                    if !chunk.invalid().is_empty() {
                        f.write_str("\u{FFFD}")?;
                    }
                }
                Ok(())
            }
        }
    }
}

impl<'a, T: Encoding> fmt::Display for Display<'a, T> {
    ghost output = { λ d. text_of_bytes (displayed d) };

    fn fmt<W: fmt::Write>(&self, f: &mut fmt::Formatter<W>) -> fmt::Result {
        fmt::Display::fmt(&self.path, f)
    }
}

impl<'a, T: Encoding> fmt::Debug for Path<'a, T> {
    fn fmt<W: fmt::Write>(&self, f: &mut fmt::Formatter<W>) -> fmt::Result {
        f.debug_struct("Path")
            .field("_encoding", &T::label())
            .field("inner", &self.as_bytes())
            .finish()
    }
}

impl<T: Encoding> fmt::Debug for PathBuf<T> {
    fn fmt<W: fmt::Write>(&self, f: &mut fmt::Formatter<W>) -> fmt::Result {
        f.debug_struct("PathBuf")
            .field("_encoding", &T::label())
            .field("inner", &self.as_path().as_bytes())
            .finish()
    }
}

impl<'a, T: Encoding> fmt::Debug for Display<'a, T> {
    fn fmt<W: fmt::Write>(&self, f: &mut fmt::Formatter<W>) -> fmt::Result {
        fmt::Debug::fmt(&self.path, f)
    }
}

/// What an iterator has left, printed as a list.
#[derive_where(Clone, Copy)]
struct Listed<'a, T: Encoding, I> {
    reading: Reading<'a, T, I>,
}

impl<'a, T: Encoding, I: ReadAs<'a, T>> fmt::Debug for Listed<'a, T, I> {
    fn fmt<W: fmt::Write>(&self, f: &mut fmt::Formatter<W>) -> fmt::Result {
        f.debug_list().entries(self.reading).finish()
    }
}

impl<'a, T: Encoding, I: ReadAs<'a, T>> fmt::Debug for Reading<'a, T, I> {
    fn fmt<W: fmt::Write>(&self, f: &mut fmt::Formatter<W>) -> fmt::Result {
        let reading = *self;
        f.debug_tuple(I::iterator_name())
            .field(&Listed { reading })
            .finish()
    }
}

impl<'a, T: Encoding> fmt::Debug for Ancestors<'a, T> {
    fn fmt<W: fmt::Write>(&self, f: &mut fmt::Formatter<W>) -> fmt::Result {
        f.debug_struct("Ancestors")
            .field("next", &self.path())
            .finish()
    }
}
