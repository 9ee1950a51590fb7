//! The laws of paths in lower case.

ghost use Rattle.std.specs.Prelude.{◌≡◌, ◌↔◌, true, length, map};
ghost use Rattle.typed_path.specs.components.{Dialect, comps, kinds, parts_of};
ghost use Rattle.typed_path.specs.queries.{has_root, is_absolute, is_valid};
ghost use Rattle.typed_path.specs.changes.{fault};
ghost use Rattle.typed_path.specs.places.{is_within};
ghost use Rattle.typed_path.specs.order.{IsSame, is_same, lowered, lowered_kinds, lowered_placed};

/// The components of a path in lower case are those of the path, each in lower case at its place.
#[tactic(auto, using(crate::proofs::lemmas::order::Lowered::comps_lowered))]
pub fn lowered_reads_alike(path: &[u8])
    ghost d: { Dialect }
    ensures { comps d (lowered d path.now) ≡ map lowered_placed (comps d path.now) }
{}

/// Two paths in lower case are equal exactly if their components are, each in lower case.
pub fn lowered_are_equal(path: &[u8], other: &[u8])
    ghost d: { Dialect }
    ensures { (is_same d (lowered d path.now) (lowered d other.now) ≡ true)
        ↔ (lowered_kinds (kinds (parts_of d path.now)) ≡ lowered_kinds (kinds (parts_of d other.now))) }
{}

/// Equal paths are equal in lower case too.
#[tactic(auto, using(crate::proofs::lemmas::promises::LoweredPaths::equal_lowered))]
pub fn lowered_stay_equal(path: &[u8], other: &[u8])
    ghost d: { Dialect }
    ensures { IsSame d path.now other.now → IsSame d (lowered d path.now) (lowered d other.now) }
{}

/// A path in lower case has as many bytes, and is its own path in lower case.
#[tactic(auto, using(crate::proofs::lemmas::promises::LoweredPaths::lowered_again, crate::proofs::lemmas::promises::LoweredPaths::lowered_length))]
pub fn lowered_stays(path: &[u8])
    ghost d: { Dialect }
    ensures size { length (lowered d path.now) ≡ length path.now }
    ensures again { lowered d (lowered d path.now) ≡ lowered d path.now }
{}

/// A path in lower case is absolute, has a root, and has valid names exactly if the path does, and
/// a checked join refuses both for the same.
#[tactic(auto, using(crate::proofs::lemmas::promises::LoweredPaths::is_absolute_lowered, crate::proofs::lemmas::promises::LoweredPaths::has_root_lowered, crate::proofs::lemmas::promises::LoweredPaths::is_valid_lowered, crate::proofs::lemmas::promises::LoweredPaths::fault_lowered))]
pub fn lowered_answers_alike(path: &[u8])
    ghost d: { Dialect }
    ensures absolute { is_absolute d (kinds (parts_of d (lowered d path.now)))
        ≡ is_absolute d (kinds (parts_of d path.now)) }
    ensures root { has_root d (kinds (parts_of d (lowered d path.now)))
        ≡ has_root d (kinds (parts_of d path.now)) }
    ensures valid { is_valid d (kinds (parts_of d (lowered d path.now)))
        ≡ is_valid d (kinds (parts_of d path.now)) }
    ensures refused { fault d (lowered d path.now) ≡ fault d path.now }
{}

/// If a path is within a base, the path in lower case is within the base in lower case.
#[tactic(auto, using(crate::proofs::lemmas::promises::LoweredPaths::is_within_lowered))]
pub fn lowered_stays_within(path: &[u8], base: &[u8])
    ghost d: { Dialect }
    ensures { is_within d path.now base.now ≡ true
        → is_within d (lowered d path.now) (lowered d base.now) ≡ true }
{}
