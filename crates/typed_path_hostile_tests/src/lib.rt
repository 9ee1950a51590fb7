//! Hostile use of `typed_path`: every short text, compared with a slow reading; and streams that
//! come in pieces and fail.
#![tactic(auto)]

#[cfg(test)]
mod hostile;
#[cfg(test)]
mod lines;
#[cfg(test)]
mod slow;
#[cfg(test)]
mod streams;
#[cfg(test)]
mod watched;
