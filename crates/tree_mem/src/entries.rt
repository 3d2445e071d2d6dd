// What lies in a folder, in an ordered map.
ghost use Rattle.std.specs.Prelude.{◌≡◌, Some, None, IfOk, OnOk, OnErr, [], map};
ghost use Rattle.std.specs.BTreeMap.{get_by_text, IsOrdered};
ghost use Rattle.std.specs.String.{string_bytes, string_cmp};
ghost use Rattle.tree_fs.specs.EntryName.{IsName};
ghost use Rattle.tree_mem.specs.Keys.{AreNames, Changes, SameTexts};
ghost use Rattle.tree_mem.specs.Kinds.{item_kind, entry_of};

use rel_paths::only_memory;
use std::alloc::{AllocError, Global};
use std::collections::BTreeMap;
use tree_fs::{Entry, Kind, Name};

/// What lies under a name.
#[derive(Clone, Copy, Debug, PartialEq, Eq)]
pub(crate) enum Item {
    Folder,
    /// The file with this number.
    File(u64),
}

/// What lies in a folder, by name.
#[derive(Drop)]
pub(crate) struct Entries {
    items: BTreeMap<String, Item>,
    ghost named: { AreNames items.entries },
}

impl Item {
    pub(crate) fn kind(self) -> Kind
        ensures { result ≡ item_kind self }
    {
        match self {
            Item::Folder => Kind::Folder,
            Item::File(_) => Kind::File,
        }
    }
}

impl Clone for Entries {
    ghost is_clone = { λ a b. SameTexts a.items b.items };

    fn clone(&self) -> Result<Entries, AllocError> {
        Ok(Entries {
            items: self.items.clone()?,
        })
    }
}

impl Entries {
    pub(crate) fn new(alloc: Global) -> Entries
        ensures { result.items.entries ≡ [] }
    {
        Entries {
            items: BTreeMap::new(alloc),
        }
    }

    pub(crate) fn get(&self, name: &str) -> Option<Item>
        ensures { result ≡ get_by_text self.now.items name.now }
    {
        self.items.get(name).copied()
    }

    pub(crate) fn set(&mut self, name: String, item: Item) -> Result<(), AllocError>
        requires { IsName (string_bytes name) }
        ensures ok { OnOk result (Changes self.old.items self.new.items (string_bytes name) (Some item)) }
        ensures err { OnErr result (self.new.items.entries ≡ self.old.items.entries) }
    {
        self.items.insert(name, item)?;
        Ok(())
    }

    pub(crate) fn remove(&mut self, name: &str)
        ensures { Changes self.old.items self.new.items name.now None }
    {
        self.items.remove(name);
    }

    /// The entries in the order of their names.
    pub(crate) fn list(&self, alloc: Global) -> Result<Vec<Entry>, AllocError>
        ensures each { IfOk result (λ listed. listed.items ≡ map entry_of self.now.items.entries) }
        ensures ordered { OnOk result (IsOrdered string_cmp self.now.items) }
    {
        let mut listed = Vec::new(alloc);
        for (name, item) in &self.items {
            listed.push(Entry {
                name: entry_name(alloc, name.as_str())?,
                kind: item.kind(),
            })?;
        }
        Ok(listed)
    }
}

// The name with this text.
#[tactic(auto, unfolding(tree_fs::specs::EntryName::name_fault))]
fn entry_name(alloc: Global, text: &str) -> Result<Name, AllocError>
    requires { IsName text.now }
    ensures { IfOk result (λ name. name ≡ text.now) }
{
    match Name::parse(alloc, text) {
        Ok(name) => Ok(name),
        Err(fault) => Err(only_memory(fault)),
    }
}
