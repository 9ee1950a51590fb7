//! How often each path occurs among the names of an archive, by a hash map whose keys no one can
//! choose to collide.

ghost use Rattle.std.specs.Prelude.{◌≡◌, List, IfOk};
ghost use Rattle.typed_path.specs.components.{Kind};
ghost use Rattle.typed_path_uses.specs.Counts.{count_at, times};

use std::alloc::{AllocError, Global};
use std::collections::HashMap;
use std::hash::BuildHasher;
use typed_path::{Encoding, Key, PathBuf};

/// Returns how often each path occurs among `names`, in whatever way it is written. The hasher
/// should have a key of its own, as `RandomState` has, since strangers chose the names.
///
/// # Errors
///
/// If allocation fails.
pub fn counted<T: Encoding, S: BuildHasher + Drop>(
    alloc: Global,
    hasher: S,
    names: &[&[u8]],
) -> Result<HashMap<Key<PathBuf<T>>, usize, S>, AllocError>
    ensures { IfOk result (λ counts. (components : List Kind)
        → count_at T.dialect components counts ≡ times T.dialect components names.now) }
{
    let mut counts = HashMap::with_hasher(alloc, hasher);
    'names: for name in names {
        let key = Key::new(PathBuf::from_bytes(alloc, name)?);
        let before = counts.get(&key).copied().unwrap_or(0);
        counts.insert(key, before + 1)?;
    }
    Ok(counts)
}
