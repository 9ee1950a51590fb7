//! The first bytes of a longer list.

ghost use Rattle.std.specs.Prelude.{◌≡◌, ◌≤◌, length};

/// The first `len` bytes of `text`. Searches and copies may read the bytes after them, so that
/// these can work on blocks of a fixed size.
#[derive(Clone, Copy, Debug)]
pub struct Span<'a> {
    /// The bytes of the span, and those after it.
    pub text: &'a [u8],
    /// The length of the span in bytes.
    pub len: usize,
    ghost within: { len ≤ length text.now },
}

impl<'a> Span<'a> {
    ghost use Rattle.typed_path.specs.views.SpanViews.{span_bytes};

    /// Returns the span of all bytes of `text`.
    #[inline(always)]
    pub fn whole(text: &'a [u8]) -> Span<'a>
        ensures { span_bytes result ≡ text.now }
    {
        Span {
            text,
            len: text.len(),
        }
    }

    /// Returns the bytes of the span.
    #[inline(always)]
    pub fn as_bytes(self) -> &'a [u8]
        ensures { result.now ≡ span_bytes self.entry }
    {
        &self.text[..self.len]
    }
}
