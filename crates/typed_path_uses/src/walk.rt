//! A walk over the components of a path.

ghost use Rattle.std.specs.Prelude.{◌≡◌, IfOk};
ghost use Rattle.typed_path.specs.views.PathViews.{path_bytes};
ghost use Rattle.typed_path.specs.components.{unix, parts_of};
ghost use Rattle.typed_path_uses.specs.Uses.{lines_of};

use std::alloc::{AllocError, Global};
use typed_path::UnixPath;

/// Returns the components of a path, each on a line of its own.
pub fn listing(alloc: Global, path: UnixPath<'_>) -> Result<Vec<u8>, AllocError>
    ensures { IfOk result (λ text. text.items ≡ lines_of (parts_of unix (path_bytes path.entry))) }
{
    let mut text = Vec::new(alloc);
    'components: for component in path.components() {
        text.extend_from_slice(component.as_bytes())?;
        text.push(b'\n')?;
    }
    Ok(text)
}
