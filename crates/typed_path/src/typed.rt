//! Paths whose dialect is chosen at run time.

mod numbers;
mod path;
mod path_buf;
mod reading;
mod utf8;
mod variant;

pub use path::{TypedAncestors, TypedDisplay, TypedIter, TypedPath};
pub use path_buf::{TryAsRef, TypedPathBuf};
pub use reading::{TypedComponent, TypedComponents, TypedReading};
pub use utf8::{
    Utf8TypedAncestors, Utf8TypedComponent, Utf8TypedComponents, Utf8TypedIter, Utf8TypedPath,
    Utf8TypedPathBuf,
};
pub use variant::{PathType, Typed};
