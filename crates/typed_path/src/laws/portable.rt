//! The laws of portable paths, and of names that some version of Windows may take for devices.

ghost use Rattle.std.specs.Prelude.{◌≡◌, ◌↔◌, ℕ, List, [], true, false, None, Ok, IsOk, option_map};
ghost use Rattle.std.specs.List.{list_any};
ghost use Rattle.typed_path.specs.components.{Dialect, is_parent, kinds, parts_of, unix, windows};
ghost use Rattle.typed_path.specs.queries.{IsPortableName, begins_with_root, is_backslash, is_portable_name, is_reserved, is_root, is_taken_for_device, is_valid, may_be_device, name_may_be_device, portable_fault, unportable};
ghost use Rattle.typed_path.specs.changes.{fault, fault_behind};
ghost use Rattle.typed_path.specs.conversions.{converted, converted_checked};
ghost use Rattle.typed_path.specs.order.{IsSame};

/// A name that stands for a device by the rule of valid names, as `con.txt`, or by that of
/// simplified paths, as `con .txt`, may be taken for one by the widest rule.
pub fn reserved_names_may_be_devices(name: &[u8])
    ensures reserved { is_reserved windows name.now ≡ true → name_may_be_device name.now ≡ true }
    ensures taken { is_taken_for_device name.now ≡ true → name_may_be_device name.now ≡ true }
{}

/// A portable name is one that is not empty, is valid in both dialects, has no control byte, in
/// `0..32` or 127, may be taken for a device by no version of Windows, ends in neither a dot nor a
/// space, has at most 255 bytes and is UTF-8.
pub fn portable_names_are_these(name: &[u8])
    ensures { (is_portable_name name.now ≡ true) ↔ IsPortableName name.now }
{}

/// A path is refused as not portable for what its first component that offends is refused for.
pub fn unportable_tells_why(path: &[u8])
    ghost d: { Dialect }
    ensures { option_map (λ found. found.1) (unportable d path.now) ≡ portable_fault d path.now }
{}

/// A portable path is valid in both dialects, and no version of Windows may take one of its names
/// for a device. If it has neither a root nor a `..`, a checked call of either dialect refuses none
/// of its components.
pub fn portable_is_valid_in_both(path: &[u8])
    ghost d: { Dialect }
    ensures valid { portable_fault d path.now ≡ None
        → (e : Dialect) → is_valid e (kinds (parts_of d path.now)) ≡ true }
    ensures no_device { portable_fault d path.now ≡ None → may_be_device d path.now ≡ false }
    ensures accepted { portable_fault d path.now ≡ None
        → list_any is_root (kinds (parts_of d path.now)) ≡ false
        → list_any is_parent (kinds (parts_of d path.now)) ≡ false
        → (e : Dialect) → fault_behind e [] (kinds (parts_of d path.now)) ≡ None }
    ensures fault { portable_fault d path.now ≡ None
        → list_any is_root (kinds (parts_of d path.now)) ≡ false
        → list_any is_parent (kinds (parts_of d path.now)) ≡ false → fault d path.now ≡ None }
{}

/// A portable Unix path has no `\`. Without a root it is read on Windows as the same components, so
/// it is portable there. If it also has no `..`, the checks of both dialects accept it.
pub fn portable_reads_alike(path: &[u8])
    ensures lacks { portable_fault unix path.now ≡ None → list_any is_backslash path.now ≡ false }
    ensures alike { portable_fault unix path.now ≡ None
        → begins_with_root (kinds (parts_of unix path.now)) ≡ false
        → parts_of windows path.now ≡ parts_of unix path.now }
    ensures portable { portable_fault unix path.now ≡ None
        → begins_with_root (kinds (parts_of unix path.now)) ≡ false
        → portable_fault windows path.now ≡ None }
    ensures accepted { portable_fault unix path.now ≡ None
        → list_any is_root (kinds (parts_of unix path.now)) ≡ false
        → list_any is_parent (kinds (parts_of unix path.now)) ≡ false
        → (e : Dialect) → fault e path.now ≡ None }
{}

/// A portable Windows path without a `\` is read on Unix as the same kinds, so it is portable
/// there. Without a root it is read as the same components. If it also has no `..`, the checks of
/// both dialects accept it.
pub fn portable_reads_alike_on_unix(path: &[u8])
    ensures kinds { portable_fault windows path.now ≡ None
        → list_any is_backslash path.now ≡ false
        → kinds (parts_of unix path.now) ≡ kinds (parts_of windows path.now) }
    ensures portable { portable_fault windows path.now ≡ None
        → list_any is_backslash path.now ≡ false → portable_fault unix path.now ≡ None }
    ensures alike { portable_fault windows path.now ≡ None
        → list_any is_backslash path.now ≡ false
        → begins_with_root (kinds (parts_of windows path.now)) ≡ false
        → parts_of unix path.now ≡ parts_of windows path.now }
    ensures accepted { portable_fault windows path.now ≡ None
        → list_any is_backslash path.now ≡ false
        → list_any is_root (kinds (parts_of windows path.now)) ≡ false
        → list_any is_parent (kinds (parts_of windows path.now)) ≡ false
        → (e : Dialect) → fault e path.now ≡ None }
{}

/// A portable path keeps its components in the other dialect, stays portable there, and converted
/// back equals the path that it was.
pub fn portable_crosses(path: &[u8])
    ensures accepted { portable_fault unix path.now ≡ None
        → IsOk (converted_checked unix windows path.now) }
    ensures kept { portable_fault unix path.now ≡ None
        → (u : List ℕ) → converted_checked unix windows path.now ≡ Ok u
        → kinds (parts_of windows u) ≡ kinds (parts_of unix path.now) }
    ensures back { portable_fault unix path.now ≡ None
        → (u : List ℕ) → converted_checked unix windows path.now ≡ Ok u
        → IsSame unix (converted windows unix u) path.now }
    ensures kept_on_unix { portable_fault windows path.now ≡ None
        → kinds (parts_of unix (converted windows unix path.now))
        ≡ kinds (parts_of windows path.now) }
    ensures portable_on_unix { portable_fault windows path.now ≡ None
        → portable_fault unix (converted windows unix path.now) ≡ None }
    ensures back_to_windows { portable_fault windows path.now ≡ None
        → (u : List ℕ) → converted_checked unix windows (converted windows unix path.now) ≡ Ok u
        → kinds (parts_of windows u) ≡ kinds (parts_of windows path.now) }
{}
