//! Where a path goes that is pushed onto another without merging: after a front of that one.

/// What a push keeps of the base, and what it puts between that and the pushed path.
#[derive(Clone, Copy, Debug)]
pub struct PushPlace {
    /// How many bytes of the base are kept.
    pub kept: usize,
    /// What follows these, before the pushed path: one separator, or nothing.
    pub separator: &'static [u8],
}
