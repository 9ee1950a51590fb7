//! Paths of text whose dialect is chosen at run time.

mod path;
mod path_buf;
mod reading;

pub use path::{Utf8TypedAncestors, Utf8TypedIter, Utf8TypedPath};
pub use path_buf::Utf8TypedPathBuf;
pub use reading::{Utf8TypedComponent, Utf8TypedComponents};
