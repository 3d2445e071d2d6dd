// The unknown keys of a table.
ghost use Rattle.std.specs.Prelude.{◌≡◌, is_some};
ghost use Rattle.toml.specs.Data.{no_members, get_member};
ghost use Rattle.toml.specs.View.{table_view};

use std::alloc::Global;
use std::marker::Model;
use toml::Table;

/// The unknown keys of a table and their values, which edits keep. A contract sees them as members,
/// in the order of the keys' bytes.
#[derive(Drop)]
pub struct Extra {
    table: Table,
}

impl Model for Extra {
    ghost use Rattle.toml.specs.Data.{Members};
    ghost use Rattle.profile_toml.specs.Stored.{coded_members};

    ghost Value = { Members };

    ghost coded = { coded_members };

    ghost use Rattle.toml.specs.View.{table_view};

    ghost view = { λ a. table_view a.table };
}

impl Extra {
    /// No keys. It takes no memory.
    pub fn none(alloc: Global) -> Extra
        ensures { result ≡ no_members }
    {
        Extra {
            table: Table::new(alloc),
        }
    }

    pub(crate) fn of(table: Table) -> Extra
        ensures { result ≡ table_view table }
    {
        Extra { table }
    }

    /// Whether there is a value at the key.
    pub fn has(&self, key: &str) -> bool
        ensures { result ≡ is_some (get_member key.now self.now) }
    {
        self.table.contains_key(key)
    }

    pub(crate) fn into_table(self) -> Table
        ensures { table_view result ≡ self }
    {
        self.table
    }
}
