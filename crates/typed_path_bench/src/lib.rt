//! Calls of `typed_path` for a program in another language, which times them. Each returns a number
//! that depends on all of its work, or 0 if allocation fails.
#![tactic(auto)]

mod answers;
mod conversions;
mod keys;
mod made;
mod room;
mod texts;
mod walks;
mod windows;
