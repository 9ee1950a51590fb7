//! What no clause of `typed_path` says of paths of bytes: rows of known answers, calls with enough
//! memory, and printed paths; and what the other crates of tests share with these.
#![tactic(auto)]

#[cfg(test)]
mod ample;
#[cfg(test)]
mod ascii_case;
#[cfg(test)]
mod clean;
#[cfg(test)]
mod conversions;
#[cfg(test)]
mod endless;
#[cfg(test)]
mod ends;
#[cfg(test)]
mod keys;
mod lanes;
mod long;
#[cfg(test)]
mod owned;
#[cfg(test)]
mod paths;
#[cfg(test)]
mod portable;
#[cfg(test)]
mod prefixes;
#[cfg(test)]
mod relative;
mod support;
#[cfg(test)]
mod verbatim;
#[cfg(test)]
mod windows;
#[cfg(test)]
mod windows_paths;

pub use long::{LENGTHS, LONG_TEXTS, LONG_WINDOWS_TEXTS, Long, long_texts};
pub use support::{Recorder, recorded, repeated};
