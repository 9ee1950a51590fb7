//! The entries of an archive whose names are text.

ghost use Rattle.std.specs.Prelude.{◌≡◌, true, IfOk};
ghost use Rattle.std.specs.String.{string_bytes};
ghost use Rattle.typed_path.specs.changes.Push as push_spec;
ghost use Rattle.typed_path.specs.changes.{refusal, fault};
ghost use Rattle.typed_path.specs.places.{normal_text, place};
ghost use Rattle.typed_path.specs.promises.{keeps_prefix, IsBelow, LiesBelow};
ghost use Rattle.typed_path.specs.views.TextViews.{utf8_bytes};
ghost use Rattle.typed_path_uses.specs.Uses.{place_within, reason, reason_below};

use crate::extractor::Untargeted;
use std::alloc::{AllocError, Global};
use typed_path::{PathError, Utf8Encoding, Utf8Path, Utf8PathBuf};

/// Returns where an entry whose name is text is unpacked, as [`target`](crate::target) does for
/// bytes.
pub fn text_target<T: Utf8Encoding>(
    alloc: Global,
    base: Utf8Path<'_, T>,
    name: &str,
) -> Result<Utf8PathBuf<T>, PathError>
    ensures place { keeps_prefix T.Bytes.dialect (utf8_bytes base.entry) ≡ true → IfOk result
        (λ p. place T.Bytes.dialect p.bytes
        ≡ place_within T.Bytes.dialect (utf8_bytes base.entry) name.now) }
    ensures below { IfOk result (λ p. LiesBelow T.Bytes.dialect (utf8_bytes base.entry) p.bytes) }
    ensures joined { IfOk result (λ p. p.bytes
        ≡ push_spec.push T.Bytes.dialect (utf8_bytes base.entry) name.now) }
    ensures refused { refusal result ≡ fault T.Bytes.dialect name.now }
{
    base.join_checked(alloc, Utf8Path::new(name))
}

/// Does what [`text_target`] does, for a base that is known only at run time, which is refused if
/// it does not keep its prefix.
pub fn text_target_below<T: Utf8Encoding>(
    alloc: Global,
    base: Utf8Path<'_, T>,
    name: &str,
) -> Result<Utf8PathBuf<T>, Untargeted>
    ensures below { IfOk result (λ p. IsBelow T.Bytes.dialect (utf8_bytes base.entry) p.bytes) }
    ensures joined { IfOk result (λ p. p.bytes
        ≡ push_spec.push T.Bytes.dialect (utf8_bytes base.entry) name.now) }
    ensures refused { reason result ≡ reason_below T.Bytes.dialect (utf8_bytes base.entry)
        (fault T.Bytes.dialect name.now) }
{
    if !base.keeps_prefix() {
        return Err(Untargeted::Base);
    }
    Ok(text_target(alloc, base, name)?)
}

/// Returns the key of an entry, to be shown: the normal path of its name.
pub fn text_key<T: Utf8Encoding>(alloc: Global, name: Utf8Path<'_, T>) -> Result<String, AllocError>
    ensures { IfOk result
        (λ key. string_bytes key ≡ normal_text T.Bytes.dialect (utf8_bytes name.entry)) }
{
    Ok(name.normalize(alloc)?.into_string())
}
