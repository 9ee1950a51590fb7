//! What no clause of `typed_path` says of paths of text: rows of known answers, and printed paths.
#![tactic(auto)]

#[cfg(test)]
mod endless;
#[cfg(test)]
mod texts;
