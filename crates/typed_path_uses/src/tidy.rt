//! Normal paths as keys.

ghost use Rattle.std.specs.Prelude.{◌≡◌, ◌↔◌, true, IfOk};
ghost use Rattle.typed_path.specs.views.PathViews.{path_bytes};
ghost use Rattle.typed_path.specs.components.{unix};
ghost use Rattle.typed_path.specs.places.{normal_text};
ghost use Rattle.typed_path_uses.specs.Uses.{LeadAlike};

use std::alloc::{AllocError, Global};
use typed_path::UnixPath;

/// Returns the key of a path: its normal path.
pub fn key(alloc: Global, path: UnixPath<'_>) -> Result<Vec<u8>, AllocError>
    ensures { IfOk result (λ key. key.items ≡ normal_text unix (path_bytes path.entry)) }
{
    Ok(path.normalize(alloc)?.into_vec())
}

/// Whether two paths have one key, which is so exactly if they lead to the same root and names.
pub fn are_one(alloc: Global, path: UnixPath<'_>, other: UnixPath<'_>) -> Result<bool, AllocError>
    ensures { IfOk result (λ one. (one ≡ true)
        ↔ LeadAlike (path_bytes path.entry) (path_bytes other.entry)) }
{
    let normal = path.normalize(alloc)?;
    let other_key = key(alloc, other)?;
    Ok(normal.as_path().as_bytes() == other_key.as_slice())
}
