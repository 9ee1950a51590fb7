//! The constants of both encodings.

pub mod unix;
pub mod windows;
