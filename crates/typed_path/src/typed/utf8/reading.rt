//! Iterators over paths of text whose dialect is chosen at run time, and components of these.

ghost use Rattle.std.specs.Prelude.{◌≡◌, option_copied, IfSome, ◌==◌, length};
ghost use Rattle.typed_path.specs.scan.{LeavesFront, LeavesBack};
ghost use Rattle.typed_path.specs.typed.{typed_dialect, KeepsDialect, derived_dialect};
ghost use Rattle.typed_path.specs.views.TypedTextViews.{typed_text, typed_text_items, typed_text_slice, typed_text_parts, typed_text_part, typed_text_iter_items, typed_text_iter_slice, typed_text_iter_texts, typed_text_ancestors_left};
ghost use Rattle.typed_path.specs.components.{kinds, is_name, is_parent, is_current, comps};
ghost use Rattle.typed_path.specs.queries.{is_absolute, has_root, is_root, name_of};
ghost use Rattle.std.specs.Iterator.{YieldsFirstBy, item_count, YieldsLastBy, YieldsFirstRef, YieldsLastRef};
ghost use Rattle.typed_path.specs.views.TypedViews.{reading_dialect};

use crate::typed::reading::TypedReading;
use crate::typed::utf8::path::{Utf8TypedAncestors, Utf8TypedIter, Utf8TypedPath};
use crate::typed::variant::{Typed, each, typed, typed_option};
use crate::utf8::{
    Utf8Component, Utf8UnixComponent, Utf8UnixComponents, Utf8WindowsComponent,
    Utf8WindowsComponents,
};
use std::iter::FusedIterator;

/// The iterator over the components of a path of text, from either end.
pub type Utf8TypedComponents<'a> = TypedReading<Utf8UnixComponents<'a>, Utf8WindowsComponents<'a>>;

impl<'a> Utf8TypedComponents<'a> {
    /// Returns an iterator over the components of a path, from either end.
    #[inline(always)]
    pub fn new(path: Utf8TypedPath<'a>) -> Utf8TypedComponents<'a>
        ensures dialect { reading_dialect result ≡ typed_dialect path.entry }
        ensures items { typed_text_items result
            ≡ comps (typed_dialect path.entry) (typed_text path.entry) }
        ensures slice { typed_text_slice result ≡ typed_text path.entry }
    {
        match path {
            Typed::Unix(path) => TypedReading::Unix(Utf8UnixComponents::new(path)),
            Typed::Windows(path) => TypedReading::Windows(Utf8WindowsComponents::new(path)),
        }
    }

    /// The slice left, as a path of the same dialect.
    pub fn to_path(self) -> Utf8TypedPath<'a>
        ensures dialect { typed_dialect result ≡ reading_dialect self.entry }
        ensures bytes { typed_text result ≡ typed_text_slice self.entry }
    {
        typed!(self, reading => reading.as_path())
    }

    /// The slice left: from the first component that is left to the end of the last.
    pub fn as_str(self) -> &'a str
        ensures { result.now ≡ typed_text_slice self.entry }
    {
        each!(self, reading => reading.as_str())
    }

    /// Whether the components that are left are those of an absolute path.
    pub fn is_absolute(self) -> bool
        ensures { result ≡ is_absolute (reading_dialect self.entry)
            (kinds (typed_text_parts self.entry)) }
    {
        each!(self, reading => reading.is_absolute())
    }

    /// Whether the components that are left have a root: one written first or right after the
    /// prefix, as in `C:\a`, or one implied by a prefix other than `C:` and `\\?\C:`.
    pub fn has_root(self) -> bool
        ensures { result ≡ has_root (reading_dialect self.entry)
            (kinds (typed_text_parts self.entry)) }
    {
        each!(self, reading => reading.has_root())
    }
}

impl<'a> Iterator for Utf8TypedComponents<'a> {
    type Item = Utf8TypedComponent<'a>;

    ghost next_gives = { λ s component t. YieldsFirstBy typed_text_part typed_text_parts s component
        t × LeavesFront typed_text_items typed_text_slice s t
        × (reading_dialect t ≡ reading_dialect s)
        × IfSome component (λ c. typed_dialect c ≡ reading_dialect s) };

    ghost remaining = { item_count typed_text_parts };

    #[inline(always)]
    fn next(&mut self) -> Option<Utf8TypedComponent<'a>> {
        typed_option!(self, reading => Iterator::next(reading))
    }
}

impl<'a> DoubleEndedIterator for Utf8TypedComponents<'a> {
    ghost next_back_gives = { λ s component t. YieldsLastBy typed_text_part typed_text_parts s
        component t × LeavesBack typed_text_items typed_text_slice s t
        × (reading_dialect t ≡ reading_dialect s)
        × IfSome component (λ c. typed_dialect c ≡ reading_dialect s) };

    #[inline(always)]
    fn next_back(&mut self) -> Option<Utf8TypedComponent<'a>> {
        typed_option!(self, reading => DoubleEndedIterator::next_back(reading))
    }
}

impl<'a> FusedIterator for Utf8TypedComponents<'a> {}

impl<'a> Utf8TypedIter<'a> {
    /// The slice left, as a path of the same dialect.
    pub fn to_path(self) -> Utf8TypedPath<'a>
        ensures dialect { typed_dialect result ≡ typed_dialect self.entry }
        ensures bytes { typed_text result ≡ typed_text_iter_slice self.entry }
    {
        typed!(self, left => left.as_path())
    }

    /// The slice left: from the first component that is left to the end of the last.
    pub fn as_str(self) -> &'a str
        ensures { result.now ≡ typed_text_iter_slice self.entry }
    {
        each!(self, left => left.as_str())
    }
}

impl<'a> Iterator for Utf8TypedIter<'a> {
    type Item = &'a str;

    ghost next_gives = { λ s text t. YieldsFirstRef typed_text_iter_texts s text t
        × LeavesFront typed_text_iter_items typed_text_iter_slice s t
        × KeepsDialect s t };

    ghost remaining = { item_count typed_text_iter_texts };

    #[inline(always)]
    fn next(&mut self) -> Option<&'a str> {
        each!(self, left => Iterator::next(left))
    }
}

impl<'a> DoubleEndedIterator for Utf8TypedIter<'a> {
    ghost next_back_gives = { λ s text t. YieldsLastRef typed_text_iter_texts s text t
        × LeavesBack typed_text_iter_items typed_text_iter_slice s t
        × KeepsDialect s t };

    #[inline(always)]
    fn next_back(&mut self) -> Option<&'a str> {
        each!(self, left => DoubleEndedIterator::next_back(left))
    }
}

impl<'a> FusedIterator for Utf8TypedIter<'a> {}

impl<'a> Iterator for Utf8TypedAncestors<'a> {
    type Item = Utf8TypedPath<'a>;

    ghost next_gives = { λ s path t. YieldsFirstBy typed_text typed_text_ancestors_left s path t
        × KeepsDialect s t
        × IfSome path (λ p. typed_dialect p ≡ typed_dialect s) };

    ghost remaining = { item_count typed_text_ancestors_left };

    #[inline(always)]
    fn next(&mut self) -> Option<Utf8TypedPath<'a>> {
        typed_option!(self, above => Iterator::next(above))
    }
}

impl<'a> FusedIterator for Utf8TypedAncestors<'a> {}

/// A component of a path of text of Unix or of Windows.
pub type Utf8TypedComponent<'a> = Typed<Utf8UnixComponent<'a>, Utf8WindowsComponent<'a>>;

impl<'a> Utf8TypedComponent<'a> {
    /// Returns the path of this one component, in the dialect that its text looks like.
    ///
    /// Of the component `a` of the Windows path `C:\a` it is the Unix path `a`.
    pub fn to_path(self) -> Utf8TypedPath<'a>
        ensures dialect { typed_dialect result ≡ derived_dialect (typed_text_part self.entry).text }
        ensures bytes { typed_text result ≡ (typed_text_part self.entry).text }
    {
        Utf8TypedPath::derive(self.as_str())
    }

    /// Returns the text of the component as in the path; of a root always `/`, or `\` on Windows.
    pub fn as_str(self) -> &'a str
        ensures { result.now ≡ (typed_text_part self.entry).text }
    {
        each!(self, component => component.as_str())
    }

    /// Whether nothing is above the component: the root, and every prefix but a drive `C:`. It is
    /// true of a verbatim drive, `\\?\C:`.
    pub fn is_root(self) -> bool
        ensures { result ≡ is_root (typed_text_part self.entry).kind }
    {
        each!(self, component => component.is_root())
    }

    /// Whether the component is a name.
    pub fn is_normal(self) -> bool
        ensures { result ≡ is_name (typed_text_part self.entry).kind }
    {
        each!(self, component => component.is_normal())
    }

    /// Returns the name if the component is one, else `None`.
    pub fn as_normal_str(self) -> Option<&'a str>
        ensures { option_copied result ≡ name_of (typed_text_part self.entry).kind }
    {
        match self {
            Typed::Unix(Utf8UnixComponent::Normal(name)) => Some(name),
            Typed::Windows(Utf8WindowsComponent::Normal(name)) => Some(name),
            _ => None,
        }
    }

    /// Whether the component is the parent directory, `..`.
    pub fn is_parent(self) -> bool
        ensures { result ≡ is_parent (typed_text_part self.entry).kind }
    {
        each!(self, component => component.is_parent())
    }

    /// Whether the component is the current directory, `.`.
    pub fn is_current(self) -> bool
        ensures { result ≡ is_current (typed_text_part self.entry).kind }
    {
        each!(self, component => component.is_current())
    }

    /// Returns how many bytes the component has.
    pub fn len(self) -> usize
        ensures { result ≡ length (typed_text_part self.entry).text }
    {
        each!(self, component => component.len())
    }

    /// Whether the component has no bytes.
    pub fn is_empty(self) -> bool
        ensures { result ≡ (length (typed_text_part self.entry).text == 0) }
    {
        each!(self, component => component.is_empty())
    }
}
