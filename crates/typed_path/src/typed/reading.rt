//! Iterators over paths whose dialect is chosen at run time, and components of these.

ghost use Rattle.std.specs.Prelude.{◌≡◌, option_copied, refl, IfSome, ◌==◌, length};
ghost use Rattle.typed_path.specs.scan.{LeavesFront, LeavesBack};
ghost use Rattle.typed_path.specs.typed.{typed_dialect, KeepsDialect, reading_partial_cmp, reading_partial_order, derived_dialect};
ghost use Rattle.typed_path.specs.views.TypedViews.{typed_bytes, reading_dialect, typed_items, typed_slice, typed_parts, typed_part, typed_iter_items, typed_iter_slice, typed_iter_texts, typed_ancestors_left};
ghost use Rattle.typed_path.specs.components.{kinds, is_name, is_parent, is_current, comps};
ghost use Rattle.typed_path.specs.queries.{is_absolute, has_root, is_root, name_of};
ghost use Rattle.std.specs.Iterator.{YieldsFirstBy, item_count, YieldsLastBy, YieldsFirstRef, YieldsLastRef};

use crate::common::Component;
use crate::typed::path::{TypedAncestors, TypedIter, TypedPath};
use crate::typed::variant::{Typed, each, typed, typed_option};
use crate::unix::{UnixComponent, UnixComponents};
use crate::windows::{WindowsComponent, WindowsComponents};
use std::cmp::Ordering;
use std::iter::FusedIterator;

/// An iterator over a path of Unix or of Windows.
///
/// Two of one dialect are equal if the paths of their slices left are, each read anew. Two of
/// different dialects are never equal.
#[derive(Clone, Copy, Debug, PartialEq, Eq)]
pub enum TypedReading<U, W> {
    /// Of Unix.
    Unix(U),
    /// Of Windows.
    Windows(W),
}

/// Two of one dialect are ordered as the paths of their slices left, each read anew. Two of
/// different dialects are in no order.
impl<U: PartialOrd, W: PartialOrd> PartialOrd for TypedReading<U, W> {
    ghost partial_cmp = { reading_partial_cmp U.partial_cmp W.partial_cmp };

    ghost laws = { reading_partial_order
        (record {
          of_unix = λ x y. refl;
          of_windows = λ x y. refl;
          unix_first = λ x y. refl;
          windows_first = λ x y. refl;
        })
        U.PartialOrd.laws W.PartialOrd.laws };

    #[inline]
    fn partial_cmp(&self, other: &TypedReading<U, W>) -> Option<Ordering> {
        match (self, other) {
            (TypedReading::Unix(own), TypedReading::Unix(other)) => own.partial_cmp(other),
            (TypedReading::Windows(own), TypedReading::Windows(other)) => own.partial_cmp(other),
            _ => None,
        }
    }
}

/// The iterator over the components of a path, from either end.
pub type TypedComponents<'a> = TypedReading<UnixComponents<'a>, WindowsComponents<'a>>;

impl<'a> TypedComponents<'a> {
    /// Returns an iterator over the components of a path, from either end.
    #[inline(always)]
    pub fn new(path: TypedPath<'a>) -> TypedComponents<'a>
        ensures dialect { reading_dialect result ≡ typed_dialect path.entry }
        ensures items { typed_items result
            ≡ comps (typed_dialect path.entry) (typed_bytes path.entry) }
        ensures slice { typed_slice result ≡ typed_bytes path.entry }
    {
        match path {
            Typed::Unix(path) => TypedReading::Unix(UnixComponents::new(path)),
            Typed::Windows(path) => TypedReading::Windows(WindowsComponents::new(path)),
        }
    }

    /// The slice left, as a path of the same dialect.
    pub fn to_path(self) -> TypedPath<'a>
        ensures dialect { typed_dialect result ≡ reading_dialect self.entry }
        ensures bytes { typed_bytes result ≡ typed_slice self.entry }
    {
        typed!(self, reading => reading.as_path())
    }

    /// The slice left: from the first component that is left to the end of the last.
    pub fn as_bytes(self) -> &'a [u8]
        ensures { result.now ≡ typed_slice self.entry }
    {
        each!(self, reading => reading.as_bytes())
    }

    /// Whether the components that are left are those of an absolute path.
    pub fn is_absolute(self) -> bool
        ensures { result ≡ is_absolute (reading_dialect self.entry)
            (kinds (typed_parts self.entry)) }
    {
        each!(self, reading => reading.is_absolute())
    }

    /// Whether the components that are left have a root: one written first or right after the
    /// prefix, as in `C:\a`, or one implied by a prefix other than `C:` and `\\?\C:`.
    pub fn has_root(self) -> bool
        ensures { result ≡ has_root (reading_dialect self.entry) (kinds (typed_parts self.entry)) }
    {
        each!(self, reading => reading.has_root())
    }
}

impl<'a> Iterator for TypedComponents<'a> {
    type Item = TypedComponent<'a>;

    ghost next_gives = { λ s component t. YieldsFirstBy typed_part typed_parts s component t
        × LeavesFront typed_items typed_slice s t
        × (reading_dialect t ≡ reading_dialect s)
        × IfSome component (λ c. typed_dialect c ≡ reading_dialect s) };

    ghost remaining = { item_count typed_parts };

    #[inline(always)]
    fn next(&mut self) -> Option<TypedComponent<'a>> {
        typed_option!(self, reading => Iterator::next(reading))
    }
}

impl<'a> DoubleEndedIterator for TypedComponents<'a> {
    ghost next_back_gives = { λ s component t. YieldsLastBy typed_part typed_parts s component t
        × LeavesBack typed_items typed_slice s t
        × (reading_dialect t ≡ reading_dialect s)
        × IfSome component (λ c. typed_dialect c ≡ reading_dialect s) };

    #[inline(always)]
    fn next_back(&mut self) -> Option<TypedComponent<'a>> {
        typed_option!(self, reading => DoubleEndedIterator::next_back(reading))
    }
}

impl<'a> FusedIterator for TypedComponents<'a> {}

impl<'a> TypedIter<'a> {
    /// The slice left, as a path of the same dialect.
    pub fn to_path(self) -> TypedPath<'a>
        ensures dialect { typed_dialect result ≡ typed_dialect self.entry }
        ensures bytes { typed_bytes result ≡ typed_iter_slice self.entry }
    {
        typed!(self, left => left.as_path())
    }

    /// The slice left: from the first component that is left to the end of the last.
    pub fn as_bytes(self) -> &'a [u8]
        ensures { result.now ≡ typed_iter_slice self.entry }
    {
        each!(self, left => left.as_path().as_bytes())
    }
}

impl<'a> Iterator for TypedIter<'a> {
    type Item = &'a [u8];

    ghost next_gives = { λ s text t. YieldsFirstRef typed_iter_texts s text t
        × LeavesFront typed_iter_items typed_iter_slice s t
        × KeepsDialect s t };

    ghost remaining = { item_count typed_iter_texts };

    #[inline(always)]
    fn next(&mut self) -> Option<&'a [u8]> {
        each!(self, left => Iterator::next(left))
    }
}

impl<'a> DoubleEndedIterator for TypedIter<'a> {
    ghost next_back_gives = { λ s text t. YieldsLastRef typed_iter_texts s text t
        × LeavesBack typed_iter_items typed_iter_slice s t
        × KeepsDialect s t };

    #[inline(always)]
    fn next_back(&mut self) -> Option<&'a [u8]> {
        each!(self, left => DoubleEndedIterator::next_back(left))
    }
}

impl<'a> FusedIterator for TypedIter<'a> {}

impl<'a> Iterator for TypedAncestors<'a> {
    type Item = TypedPath<'a>;

    ghost next_gives = { λ s path t. YieldsFirstBy typed_bytes typed_ancestors_left s path t
        × KeepsDialect s t
        × IfSome path (λ p. typed_dialect p ≡ typed_dialect s) };

    ghost remaining = { item_count typed_ancestors_left };

    #[inline(always)]
    fn next(&mut self) -> Option<TypedPath<'a>> {
        typed_option!(self, above => Iterator::next(above))
    }
}

impl<'a> FusedIterator for TypedAncestors<'a> {}

/// A component of a path of Unix or of Windows.
pub type TypedComponent<'a> = Typed<UnixComponent<'a>, WindowsComponent<'a>>;

impl<'a> TypedComponent<'a> {
    /// Returns the path of this one component, in the dialect that its text looks like.
    ///
    /// Of the component `a` of the Windows path `C:\a` it is the Unix path `a`.
    pub fn to_path(self) -> TypedPath<'a>
        ensures dialect { typed_dialect result ≡ derived_dialect (typed_part self.entry).text }
        ensures bytes { typed_bytes result ≡ (typed_part self.entry).text }
    {
        TypedPath::derive(self.as_bytes())
    }

    /// Returns the bytes of the component as in the path; of a root always `/`, or `\` on Windows.
    pub fn as_bytes(self) -> &'a [u8]
        ensures { result.now ≡ (typed_part self.entry).text }
    {
        each!(self, component => component.as_bytes())
    }

    /// Whether nothing is above the component: the root, and every prefix but a drive `C:`. It is
    /// true of a verbatim drive, `\\?\C:`.
    pub fn is_root(self) -> bool
        ensures { result ≡ is_root (typed_part self.entry).kind }
    {
        each!(self, component => component.is_root())
    }

    /// Whether the component is a name.
    pub fn is_normal(self) -> bool
        ensures { result ≡ is_name (typed_part self.entry).kind }
    {
        each!(self, component => component.is_normal())
    }

    /// Returns the name if the component is one, else `None`.
    pub fn as_normal_bytes(self) -> Option<&'a [u8]>
        ensures { option_copied result ≡ name_of (typed_part self.entry).kind }
    {
        match self {
            Typed::Unix(UnixComponent::Normal(name)) => Some(name),
            Typed::Windows(WindowsComponent::Normal(name)) => Some(name),
            _ => None,
        }
    }

    /// Whether the component is the parent directory, `..`.
    pub fn is_parent(self) -> bool
        ensures { result ≡ is_parent (typed_part self.entry).kind }
    {
        each!(self, component => component.is_parent())
    }

    /// Whether the component is the current directory, `.`.
    pub fn is_current(self) -> bool
        ensures { result ≡ is_current (typed_part self.entry).kind }
    {
        each!(self, component => component.is_current())
    }

    /// Returns how many bytes the component has.
    pub fn len(self) -> usize
        ensures { result ≡ length (typed_part self.entry).text }
    {
        each!(self, component => component.len())
    }

    /// Whether the component has no bytes.
    pub fn is_empty(self) -> bool
        ensures { result ≡ (length (typed_part self.entry).text == 0) }
    {
        each!(self, component => component.is_empty())
    }
}
