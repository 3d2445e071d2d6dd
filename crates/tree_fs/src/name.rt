// What a folder has: names and kinds.
ghost use Rattle.std.specs.Prelude.{◌≡◌, IfOk, IfErr, IfSome, Some, Err, not, nat_eq, ◌&&◌};
ghost use Rattle.std.specs.List.{list_all};
ghost use Rattle.fault_count.specs.Causes.{Explains};
ghost use Rattle.tree_fs.specs.EntryName.{IsName, is_entry_name, name_fault};

use rel_paths::{PathError, Text};
use std::alloc::Global;
use std::convert::AsStr;
use std::fmt;
use std::marker::Model;

/// What stands at a place.
#[derive(Clone, Copy, Debug, PartialEq, Eq)]
pub enum Kind {
    /// Nothing, also where the place's parent is no folder.
    Absent,
    File,
    Folder,
    /// Something else, as a symbolic link or a device.
    Other,
}

/// The name of an entry: UTF-8 text of 1 to 255 bytes without `/` and zero byte, not `.` or `..`.
/// A contract sees it as its bytes, and its order is theirs.
#[derive(PartialEq, Eq, PartialOrd, Ord, Hash, Drop)]
pub struct Name {
    text: Text,
}

impl Model for Name {
    ghost use Rattle.std.specs.Prelude.{List, ℕ};
    ghost use Rattle.tree_fs.specs.EntryName.{IsName};

    ghost Value = { List ℕ };

    ghost view = { λ a. a.text };

    ghost invariant = { λ a. IsName a.text };

    ghost inverse = { λ bytes. record { text = bytes } };
}

impl Name {
    /// The name with this text. `Empty` is for no bytes, `Long` for over 255 bytes, and
    /// `BadName(0)` for other text that is no name.
    pub fn parse(alloc: Global, text: &str) -> Result<Name, PathError>
        ensures same { IfOk result (λ name. name ≡ text.now) }
        ensures good { IfOk result (λ name. IsName name) }
        ensures err { IfErr result (Explains PathError.Memory (name_fault text.now)) }
        ensures fault { IfSome (name_fault text.now) (λ e. result ≡ Err e) }
    {
        if text.is_empty() {
            return Err(PathError::Empty);
        }
        if text.len() > 255 {
            return Err(PathError::Long);
        }
        if !is_entry_name(text) {
            return Err(PathError::BadName(0));
        }
        Ok(Name {
            text: Text::new(alloc, text)?,
        })
    }

    /// The name.
    pub fn text(&self) -> &str
        ensures same { result.now ≡ self.now }
        ensures good { IsName self.now }
    {
        self.text.as_str()
    }
}

fn has_name_bytes(text: &[u8]) -> bool
    ensures { result ≡ list_all (λ b. not (nat_eq b 47) && not (nat_eq b 0)) text.now }
{
    text.iter().all(|b| *b != b'/' && *b != 0)
}

// Whether this text may be the name of an entry.
fn is_entry_name(text: &str) -> bool
    ensures { result ≡ is_entry_name text.now }
{
    !text.is_empty()
        && text.len() <= 255
        && text != "."
        && text != ".."
        && has_name_bytes(text.as_bytes())
}

impl AsStr for Name {
    ghost text = { λ name. name };

    fn as_str(&self) -> &str {
        self.text()
    }
}

impl fmt::Debug for Name {
    fn fmt<W: fmt::Write>(&self, f: &mut fmt::Formatter<W>) -> fmt::Result {
        f.write_str(self.text())
    }
}

impl fmt::Display for Name {
    ghost output = { λ name. Some name };

    fn fmt<W: fmt::Write>(&self, f: &mut fmt::Formatter<W>) -> fmt::Result {
        f.write_str(self.text())
    }
}

/// An entry of a folder.
#[derive(Drop)]
pub struct Entry {
    pub name: Name,
    pub kind: Kind,
}
