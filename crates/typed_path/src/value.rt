//! Paths as JSON values.

ghost use Rattle.std.specs.Prelude.{◌≡◌, true, false, IfOk, IfErr};
ghost use Rattle.serde_json.specs.View.{view};
ghost use Rattle.typed_path.specs.declared.errors.ValueError.TheVariants.{NotUtf8, NotText, OutOfMemory};
ghost use Rattle.typed_path.specs.values.{IsValueOf, is_json_text, FailsBy};
ghost use Rattle.std.specs.Str.{is_utf8};
ghost use Rattle.typed_path.specs.typed.{typed_dialect, derived_dialect};
ghost use Rattle.typed_path.specs.views.PathViews.{path_bytes};
ghost use Rattle.typed_path.specs.views.TextViews.{utf8_bytes};
ghost use Rattle.typed_path.specs.views.TypedViews.{typed_bytes, owned_bytes};
ghost use Rattle.typed_path.specs.views.TypedTextViews.{typed_text};

use crate::common::{Encoding, Path, PathBuf};
use crate::errors::ValueError;
use crate::typed::{TypedPath, TypedPathBuf, Utf8TypedPath, Utf8TypedPathBuf};
use crate::unix::UnixPath;
use crate::utf8::{Utf8Encoding, Utf8Path, Utf8PathBuf};
use serde_json::Value;
use std::alloc::Global;

/// Returns a JSON string with a copy of `text`. Its only error is `OutOfMemory`.
fn value_of(alloc: Global, text: &str) -> Result<Value, ValueError>
    ensures ok { IfOk result (λ v. IsValueOf text.now (view v)) }
    ensures err { IfErr result (λ e. e ≡ OutOfMemory) }
{
    let mut copy = String::with_capacity(alloc, text.len())?;
    copy.push_str(text)?;
    Ok(Value::from(copy))
}

/// Makes a path of the text of a JSON string; any other value is refused with `NotText`.
macro_rules! of_text {
    ($value:expr, $text:ident => $made:expr) => {
        match $value.as_str() {
            Some($text) => Ok($made?),
            None => Err(ValueError::NotText),
        }
    };
}

impl<'a, T: Encoding> Path<'a, T> {
    /// Returns the path as a JSON string.
    ///
    /// # Errors
    ///
    /// `NotUtf8` exactly if the path is not UTF-8, before anything is allocated; `OutOfMemory` if
    /// allocation fails.
    pub fn to_value(self, alloc: Global) -> Result<Value, ValueError>
        ensures ok { IfOk result (λ v. IsValueOf (path_bytes self.entry) (view v)) }
        ensures not_utf8 { is_utf8 (path_bytes self.entry) ≡ false → FailsBy NotUtf8 result }
        ensures memory { is_utf8 (path_bytes self.entry) ≡ true
            → IfErr result (λ e. e ≡ OutOfMemory) }
    {
        match self.to_str() {
            Some(text) => value_of(alloc, text),
            None => Err(ValueError::NotUtf8),
        }
    }
}

impl<T: Encoding> PathBuf<T> {
    /// Returns the path that a JSON string holds.
    ///
    /// # Errors
    ///
    /// `NotText` exactly if the value is not a string, before anything is allocated; `OutOfMemory`
    /// if allocation fails.
    pub fn from_value(alloc: Global, value: &Value) -> Result<PathBuf<T>, ValueError>
        ensures ok { IfOk result (λ p. IsValueOf p.bytes (view value.now)) }
        ensures not_text { is_json_text (view value.now) ≡ false → FailsBy NotText result }
        ensures memory { is_json_text (view value.now) ≡ true
            → IfErr result (λ e. e ≡ OutOfMemory) }
    {
        of_text!(value, text => PathBuf::from_str(alloc, text))
    }
}

impl<'a, T: Utf8Encoding> Utf8Path<'a, T> {
    /// Returns the path as a JSON string.
    ///
    /// # Errors
    ///
    /// `OutOfMemory` if allocation fails.
    pub fn to_value(self, alloc: Global) -> Result<Value, ValueError>
        ensures ok { IfOk result (λ v. IsValueOf (utf8_bytes self.entry) (view v)) }
        ensures memory { IfErr result (λ e. e ≡ OutOfMemory) }
    {
        value_of(alloc, self.as_str())
    }
}

impl<T: Utf8Encoding> Utf8PathBuf<T> {
    /// Returns the path that a JSON string holds.
    ///
    /// # Errors
    ///
    /// `NotText` exactly if the value is not a string, before anything is allocated; `OutOfMemory`
    /// if allocation fails.
    pub fn from_value(alloc: Global, value: &Value) -> Result<Utf8PathBuf<T>, ValueError>
        ensures ok { IfOk result (λ p. IsValueOf p.bytes (view value.now)) }
        ensures not_text { is_json_text (view value.now) ≡ false → FailsBy NotText result }
        ensures memory { is_json_text (view value.now) ≡ true
            → IfErr result (λ e. e ≡ OutOfMemory) }
    {
        of_text!(value, text => Utf8PathBuf::from_str(alloc, text))
    }
}

impl<'a> TypedPath<'a> {
    /// Returns the path as a JSON string, which does not tell the dialect.
    ///
    /// # Errors
    ///
    /// `NotUtf8` exactly if the path is not UTF-8, before anything is allocated; `OutOfMemory` if
    /// allocation fails.
    pub fn to_value(self, alloc: Global) -> Result<Value, ValueError>
        ensures ok { IfOk result (λ v. IsValueOf (typed_bytes self.entry) (view v)) }
        ensures not_utf8 { is_utf8 (typed_bytes self.entry) ≡ false → FailsBy NotUtf8 result }
        ensures memory { is_utf8 (typed_bytes self.entry) ≡ true
            → IfErr result (λ e. e ≡ OutOfMemory) }
    {
        UnixPath::new(self.as_bytes()).to_value(alloc)
    }
}

impl<'a> Utf8TypedPath<'a> {
    /// Returns the path as a JSON string, which does not tell the dialect.
    ///
    /// # Errors
    ///
    /// `OutOfMemory` if allocation fails.
    pub fn to_value(self, alloc: Global) -> Result<Value, ValueError>
        ensures ok { IfOk result (λ v. IsValueOf (typed_text self.entry) (view v)) }
        ensures memory { IfErr result (λ e. e ≡ OutOfMemory) }
    {
        value_of(alloc, self.as_str())
    }
}

impl TypedPathBuf {
    /// Returns the path that a JSON string holds, in the dialect that the text looks like.
    ///
    /// # Errors
    ///
    /// `NotText` exactly if the value is not a string, before anything is allocated; `OutOfMemory`
    /// if allocation fails.
    pub fn from_value(alloc: Global, value: &Value) -> Result<TypedPathBuf, ValueError>
        ensures dialect { IfOk result (λ p. typed_dialect p ≡ derived_dialect (owned_bytes p)) }
        ensures ok { IfOk result (λ p. IsValueOf (owned_bytes p) (view value.now)) }
        ensures not_text { is_json_text (view value.now) ≡ false → FailsBy NotText result }
        ensures memory { is_json_text (view value.now) ≡ true
            → IfErr result (λ e. e ≡ OutOfMemory) }
    {
        of_text!(value, text => TypedPathBuf::from_str(alloc, text))
    }
}

impl Utf8TypedPathBuf {
    /// Returns the path that a JSON string holds, in the dialect that the text looks like.
    ///
    /// # Errors
    ///
    /// `NotText` exactly if the value is not a string, before anything is allocated; `OutOfMemory`
    /// if allocation fails.
    pub fn from_value(alloc: Global, value: &Value) -> Result<Utf8TypedPathBuf, ValueError>
        ensures dialect { IfOk result (λ p. typed_dialect p ≡ derived_dialect (owned_bytes p)) }
        ensures ok { IfOk result (λ p. IsValueOf (owned_bytes p) (view value.now)) }
        ensures not_text { is_json_text (view value.now) ≡ false → FailsBy NotText result }
        ensures memory { is_json_text (view value.now) ≡ true
            → IfErr result (λ e. e ≡ OutOfMemory) }
    {
        of_text!(value, text => Utf8TypedPathBuf::from_str(alloc, text))
    }
}
