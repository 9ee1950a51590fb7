//! Files in memory, each at a normal path.

ghost use Rattle.std.specs.Prelude.{◌≡◌, ◌↔◌, ◌++◌, ◌∷◌, [], ℕ, List, true, false, map, filter, IfOk, OnOk, OnErr, Some, None, is_some, option_map, option_copied};
ghost use Rattle.std.specs.List.{IsDistinct};
ghost use Rattle.std.specs.BTreeMap.{btree_map_len, keys, IsUnchanged};
ghost use Rattle.typed_path.specs.components.{unix, windows, kinds, parts_of};
ghost use Rattle.typed_path.specs.order.{is_same};
ghost use Rattle.typed_path.specs.places.{resolve};
ghost use Rattle.typed_path.specs.promises.{is_verbatim_unc_name, prefix_kind, with_drive_root};
ghost use Rattle.typed_path.specs.queries.{is_child_of, have_allowed_bytes};
ghost use Rattle.typed_path.specs.views.PathViews.{path_bytes};
ghost use Rattle.typed_path_uses.specs.Tree.{filed, found, AreOne, IsKeyOf, Puts, Moves, children_of};
ghost use Rattle.typed_path_uses.specs.Uses.{LeadAlike};

use std::alloc::{AllocError, Global};
use std::collections::BTreeMap;
use typed_path::laws::normal_stays_stable;
use typed_path::{Encoding, Path, PathBuf};

/// Files in memory. Each has one key, a normal path, and each path whose normal path has the same
/// components finds it.
///
/// On Unix `/a/./b` and `/x/../a//b` find the file at `/a/b`, and `a/b` and `/a/B` do not. On
/// Windows `C:/a\.\b` finds the one at `C:\a\b`. A folder exists if the path of a file names it.
#[derive(Drop)]
pub struct Tree<T: Encoding> {
    alloc: Global,
    files: BTreeMap<PathBuf<T>, Vec<u8>>,
}

impl<T: Encoding> Tree<T> {
    /// Returns a tree without files.
    pub fn new(alloc: Global) -> Tree<T>
        ensures { (path : List ℕ) → found T.dialect result.files path ≡ None }
    {
        let files = BTreeMap::new(alloc);
        Tree { alloc, files }
    }

    /// Returns how many files there are. No two keys are of one file.
    pub fn len(&self) -> usize
        ensures number { result ≡ btree_map_len self.now.files }
        ensures alone { IsDistinct (λ k l. is_same T.dialect k.bytes l.bytes)
            (keys self.now.files) }
    {
        self.files.len()
    }

    /// Returns the bytes of the file at a path, `None` if there is no file.
    ///
    /// # Errors
    ///
    /// If allocation of the normal path fails.
    pub fn read(&self, path: Path<'_, T>) -> Result<Option<&[u8]>, AllocError>
        ensures { IfOk result (λ file. option_copied file
            ≡ found T.dialect self.now.files (path_bytes path.entry)) }
    {
        let file = self.files.get(&key_of(self.alloc, path)?);
        Ok(file.map(Vec::as_slice))
    }

    /// Writes a file at a path, in place of the one that is there. What other paths find is
    /// unchanged.
    ///
    /// # Errors
    ///
    /// If allocation fails. Then the files are unchanged.
    pub fn write(&mut self, path: Path<'_, T>, bytes: &[u8]) -> Result<(), AllocError>
        ensures written { OnOk result
            (Puts T.dialect (path_bytes path.entry) (Some bytes.now) self.old.files
            self.new.files) }
        ensures refused { OnErr result (IsUnchanged self.old.files self.new.files) }
    {
        let key = key_of(self.alloc, path)?;
        self.files.insert(key, Vec::from_slice(self.alloc, bytes)?)?;
        Ok(())
    }

    /// Removes the file at a path, and returns its bytes, `None` if there is no file.
    ///
    /// # Errors
    ///
    /// If allocation of the normal path fails. Then the files are unchanged.
    pub fn remove(&mut self, path: Path<'_, T>) -> Result<Option<Vec<u8>>, AllocError>
        ensures removed { OnOk result
            (Puts T.dialect (path_bytes path.entry) None self.old.files self.new.files) }
        ensures taken { IfOk result (λ file. option_map (λ bytes. bytes.items) file
            ≡ found T.dialect self.old.files (path_bytes path.entry)) }
        ensures refused { OnErr result (IsUnchanged self.old.files self.new.files) }
    {
        let key = key_of(self.alloc, path)?;
        Ok(self.files.remove(&key))
    }

    /// Moves the file at `from` to `to`, in place of the one that is there, and returns whether
    /// there was one to move. The bytes are copied before the file is removed. If both paths are of
    /// one file, nothing is changed.
    ///
    /// # Errors
    ///
    /// If allocation fails. Then the files are unchanged.
    pub fn rename(&mut self, from: Path<'_, T>, to: Path<'_, T>) -> Result<bool, AllocError>
        ensures told { IfOk result (λ moved. moved
            ≡ is_some (found T.dialect self.old.files (path_bytes from.entry))) }
        ensures moved { IfOk result (λ moved. moved ≡ true
            → Moves T.dialect (path_bytes from.entry) (path_bytes to.entry) self.old.files
            self.new.files) }
        ensures absent { IfOk result (λ moved. moved ≡ false
            → IsUnchanged self.old.files self.new.files) }
        ensures refused { OnErr result (IsUnchanged self.old.files self.new.files) }
    {
        let key = key_of(self.alloc, from)?;
        let other = key_of(self.alloc, to)?;
        let Some(bytes) = self.files.get(&key) else {
            return Ok(false);
        };
        if key != other {
            let bytes = Vec::from_slice(self.alloc, bytes.as_slice())?;
            self.files.insert(other, bytes)?;
            self.files.remove(&key);
        }
        Ok(true)
    }

    /// Returns the paths of the files one name below a folder, in the order of paths. Folders in it
    /// are not listed, and for a folder that does not exist the list is empty.
    ///
    /// # Errors
    ///
    /// If allocation of the folder's normal path or of the list fails.
    pub fn children(&self, folder: Path<'_, T>) -> Result<Vec<Path<'_, T>>, AllocError>
        ensures { IfOk result (λ paths. map path_bytes paths.items
            ≡ children_of T.dialect (path_bytes folder.entry) self.now.files) }
    {
        let above = key_of(self.alloc, folder)?;
        let mut children = Vec::new(self.alloc);
        'keys: for key in self.files.keys() {
            list_child(&mut children, key.as_path(), above.as_path())?;
        }
        Ok(children)
    }
}

/// Appends a path to the children of a folder, if it is one.
fn list_child<'a, T: Encoding>(
    children: &mut Vec<Path<'a, T>>,
    path: Path<'a, T>,
    folder: Path<'_, T>,
) -> Result<(), AllocError>
    ensures { OnOk result (map path_bytes children.new.items ≡ map path_bytes children.old.items
        ++ filter (is_child_of T.dialect (kinds (parts_of T.dialect (path_bytes folder.entry))))
        (path_bytes path.entry ∷ [])) }
{
    if path.file_name().is_some() && path.parent() == Some(folder) {
        children.push(path)?;
    }
    Ok(())
}

/// Returns the key of the file that a path leads to.
fn key_of<T: Encoding>(alloc: Global, path: Path<'_, T>) -> Result<PathBuf<T>, AllocError>
    ensures { IfOk result (λ key. IsKeyOf T.dialect (path_bytes path.entry) key.bytes) }
{
    Ok(path.normalize(alloc)?)
}

/// On Unix, two paths are of one file exactly if they lead to the same root and names.
pub fn unix_paths_are_one(path: &[u8], other: &[u8])
    ensures { AreOne unix path.now other.now ↔ LeadAlike path.now other.now }
{}

/// On Windows, a path is filed under what it resolves to, with a root put in after a verbatim
/// drive, if no name has a byte that no name may have and the prefix is not the verbatim one named
/// `UNC`.
pub fn windows_path_is_filed(path: &[u8])
    ensures { have_allowed_bytes windows (kinds (parts_of windows path.now)) ≡ true
        → is_verbatim_unc_name (prefix_kind windows path.now) ≡ false
        → filed windows path.now ≡ kinds (with_drive_root (resolve (parts_of windows path.now))) }
{
    normal_stays_stable(path);
}
