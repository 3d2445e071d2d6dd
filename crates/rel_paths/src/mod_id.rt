// A mod's id.
ghost use Rattle.std.specs.Prelude.{◌≡◌, IfOk, IfErr, IfSome, Some};
ghost use Rattle.fault_count.specs.Causes.{Explains};
ghost use Rattle.rel_paths.specs.Names.{id_fault, IsModId};

use crate::names::is_name_within;
use crate::{PathError, Text};
use std::alloc::{AllocError, Global};
use std::convert::AsStr;
use std::fmt;
use std::marker::Model;

// How many bytes an id may have.
const MOST_BYTES: usize = 240;

/// A mod's id: one good name of at most 240 bytes. A contract sees it as its bytes, and its order
/// is theirs.
#[derive(PartialEq, Eq, PartialOrd, Ord, Hash, Drop)]
pub struct ModId {
    text: Text,
}

impl Model for ModId {
    ghost use Rattle.std.specs.Prelude.{List, ℕ};
    ghost use Rattle.rel_paths.specs.Names.{IsModId};

    ghost Value = { List ℕ };

    ghost view = { λ a. a.text };

    ghost invariant = { λ a. IsModId a.text };

    ghost inverse = { λ bytes. record { text = bytes } };
}

impl ModId {
    /// The mod's id with this text. `Empty` is for no bytes, and `BadName(0)` for other text that
    /// is no good name or has over 240 bytes.
    #[tactic(auto, unfolding(crate::specs::Names::id_fault))]
    pub fn parse(alloc: Global, text: &str) -> Result<ModId, PathError>
        ensures same { IfOk result (λ id. id ≡ text.now) }
        ensures good { IfOk result (λ id. IsModId id) }
        ensures err { IfErr result (Explains PathError.Memory (id_fault text.now)) }
        ensures fault { IfSome (id_fault text.now) (λ e. result ≡ Err e) }
    {
        if text.is_empty() {
            return Err(PathError::Empty);
        }
        if !is_name_within(MOST_BYTES, text) {
            return Err(PathError::BadName(0));
        }
        Ok(ModId {
            text: Text::new(alloc, text)?,
        })
    }

    /// An equal id.
    pub fn copy(&self) -> Result<ModId, AllocError>
        ensures { IfOk result (λ id. id ≡ self.now) }
    {
        Ok(ModId {
            text: self.text.copy()?,
        })
    }

    /// The id.
    pub fn text(&self) -> &str
        ensures same { result.now ≡ self.now }
        ensures good { IsModId self.now }
    {
        self.text.as_str()
    }
}

impl AsStr for ModId {
    ghost text = { λ id. id };

    fn as_str(&self) -> &str {
        self.text()
    }
}

impl fmt::Debug for ModId {
    fn fmt<W: fmt::Write>(&self, f: &mut fmt::Formatter<W>) -> fmt::Result {
        f.write_str(self.text())
    }
}

impl fmt::Display for ModId {
    ghost output = { λ id. Some id };

    fn fmt<W: fmt::Write>(&self, f: &mut fmt::Formatter<W>) -> fmt::Result {
        f.write_str(self.text())
    }
}
