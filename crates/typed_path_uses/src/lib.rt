//! Callers of `typed_path`, each with what it promises to its own callers.
#![tactic(auto)]

mod beside;
mod both;
mod config;
mod counts;
mod extractor;
mod folders;
mod ignore;
mod links;
mod manifest;
mod notes;
mod places;
mod server;
mod shipper;
mod texts;
mod tidy;
mod tree;
mod typed;
mod walk;

pub use beside::{always_lies_in, backup, is_mounted_in, shared_folder, shown, surely_fits};
pub use both::{target_on_both, targets_on_both};
pub use config::{Unconfigured, configured};
pub use counts::counted;
pub use extractor::{
    Refused, Unpacking, Untargeted, target, target_below, targets, unpacked, unpacked_below,
};
pub use folders::{filed_in, nested};
pub use ignore::{Rule, fits, is_ignored};
pub use links::{has_no_link, link, link_on_windows};
pub use manifest::{entry_on_windows, rewritten, rewritten_texts};
pub use notes::{are_alike, note, noted};
pub use places::{lead_alike, read_from, tidy_folder, without_detours};
pub use server::{
    UNIX_ROOT, Unserved, WINDOWS_ROOT, served, served_below, served_on_unix, served_on_windows,
};
pub use shipper::{day_folder, day_log, shipped};
pub use texts::{text_key, text_target, text_target_below};
pub use tidy::{are_one, key};
pub use tree::{Tree, unix_paths_are_one, windows_path_is_filed};
pub use typed::{listed_as_on_unix, typed_target, typed_target_below};
pub use walk::listing;

#[cfg(test)]
mod tests;
