//! What no clause of `typed_path` says of paths whose dialect is chosen at run time, and of JSON
//! values: rows of known answers, and printed paths.
#![tactic(auto)]

#[cfg(test)]
mod endless;
#[cfg(test)]
mod typed;
#[cfg(test)]
mod values;
