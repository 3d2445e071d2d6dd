// The folders below one root, in an ordered map.
ghost use Rattle.std.specs.Prelude.{◌≡◌, Some, None, IfOk, OnOk, OnErr};
ghost use Rattle.rel_paths.specs.Names.{names_of, IsHeldPath};
ghost use Rattle.tree_mem.specs.Items.{item_in, Sets, SameItems};

use crate::entries::{Entries, Item};
use crate::text::split_last;
use std::alloc::{AllocError, Global};
use std::collections::BTreeMap;

/// The folders that have entries, by the texts of their paths below one root.
pub(crate) type Folders = BTreeMap<String, Entries>;

/// What lies at a path.
pub(crate) fn item_at(folders: &Folders, text: &str) -> Option<Item>
    requires { IsHeldPath text.now }
    ensures { result ≡ item_in folders.now (names_of text.now) }
{
    let (folder, name) = split_last(text);
    folders.get(folder)?.get(name)
}

/// Puts an item at a path.
pub(crate) fn put_item(
    alloc: Global,
    folders: &mut Folders,
    text: &str,
    item: Item,
) -> Result<(), AllocError>
    requires { IsHeldPath text.now }
    ensures ok { OnOk result (Sets folders.old folders.new (names_of text.now) (Some item)) }
    ensures err { OnErr result (SameItems folders.old folders.new) }
{
    let (folder, name) = split_last(text);
    let name = name.to_string(alloc)?;
    match folders.get_mut(folder) {
        Some(entries) => entries.set(name, item),
        None => {
            let mut entries = Entries::new(alloc);
            entries.set(name, item)?;
            folders.insert(folder.to_string(alloc)?, entries)?;
            Ok(())
        }
    }
}

/// Takes away what lies at a path.
pub(crate) fn remove_item(folders: &mut Folders, text: &str)
    requires { IsHeldPath text.now }
    ensures { Sets folders.old folders.new (names_of text.now) None }
{
    let (folder, name) = split_last(text);
    if let Some(entries) = folders.get_mut(folder) {
        entries.remove(name);
    }
}

/// Folders with the same items.
pub(crate) fn copy_folders(folders: &Folders) -> Result<Folders, AllocError>
    ensures { IfOk result (λ copy. SameItems folders.now copy) }
{
    folders.clone()
}
