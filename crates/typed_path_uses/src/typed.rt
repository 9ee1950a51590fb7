//! Names from archives and manifests of either dialect, which is known only at run time.

ghost use Rattle.std.specs.Prelude.{◌≡◌, true, IfOk};
ghost use Rattle.typed_path.specs.components.{unix};
ghost use Rattle.typed_path.specs.changes.Push as push_spec;
ghost use Rattle.typed_path.specs.changes.{refusal, fault};
ghost use Rattle.typed_path.specs.conversions.{converted};
ghost use Rattle.typed_path.specs.places.{place};
ghost use Rattle.typed_path.specs.promises.{keeps_prefix, IsBelow, LiesBelow};
ghost use Rattle.typed_path.specs.typed.{derived_dialect, typed_dialect};
ghost use Rattle.typed_path.specs.views.TypedViews.{typed_bytes, owned_bytes};
ghost use Rattle.typed_path_uses.specs.Uses.{place_within, reason, reason_below};

use crate::extractor::Untargeted;
use std::alloc::{AllocError, Global};
use typed_path::{PathError, TypedPath, TypedPathBuf, Utf8TypedPath, Utf8TypedPathBuf};

/// Returns where an entry of an archive is unpacked under a base whose dialect is known only at run
/// time: within the base, if that keeps its prefix.
pub fn typed_target(
    alloc: Global,
    base: TypedPath<'_>,
    name: &[u8],
) -> Result<TypedPathBuf, PathError>
    ensures place { keeps_prefix (typed_dialect base.entry) (typed_bytes base.entry) ≡ true
        → IfOk result (λ p. place (typed_dialect base.entry) (owned_bytes p)
        ≡ place_within (typed_dialect base.entry) (typed_bytes base.entry) name.now) }
    ensures below { IfOk result (λ p. LiesBelow (typed_dialect base.entry)
        (typed_bytes base.entry) (owned_bytes p)) }
    ensures joined { IfOk result (λ p. owned_bytes p
        ≡ push_spec.push (typed_dialect base.entry) (typed_bytes base.entry) name.now) }
    ensures dialect { IfOk result (λ p. typed_dialect p ≡ typed_dialect base.entry) }
    ensures refused { refusal result ≡ fault (typed_dialect base.entry) name.now }
{
    base.join_checked(alloc, name)
}

/// Does what [`typed_target`] does, for a base that is refused if it does not keep its prefix.
pub fn typed_target_below(
    alloc: Global,
    base: TypedPath<'_>,
    name: &[u8],
) -> Result<TypedPathBuf, Untargeted>
    ensures below { IfOk result (λ p. IsBelow (typed_dialect base.entry)
        (typed_bytes base.entry) (owned_bytes p)) }
    ensures joined { IfOk result (λ p. owned_bytes p
        ≡ push_spec.push (typed_dialect base.entry) (typed_bytes base.entry) name.now) }
    ensures dialect { IfOk result (λ p. typed_dialect p ≡ typed_dialect base.entry) }
    ensures refused { reason result ≡ reason_below (typed_dialect base.entry)
        (typed_bytes base.entry) (fault (typed_dialect base.entry) name.now) }
{
    if !base.keeps_prefix() {
        return Err(Untargeted::Base);
    }
    Ok(typed_target(alloc, base, name)?)
}

/// Returns a name from a manifest of either dialect as on Unix.
pub fn listed_as_on_unix(alloc: Global, name: &str) -> Result<Utf8TypedPathBuf, AllocError>
    ensures dialect { IfOk result (λ p. typed_dialect p ≡ unix) }
    ensures bytes { IfOk result
        (λ p. owned_bytes p ≡ converted (derived_dialect name.now) unix name.now) }
{
    Utf8TypedPath::derive(name).with_unix_encoding(alloc)
}
