// What a document must have nowhere.
ghost use Rattle.std.specs.Prelude.{◌≡◌, nat_le};
ghost use Rattle.toml.specs.View.{view, array_view, table_view};
ghost use Rattle.profile_toml.specs.Levels.{levels, items_levels, members_levels};
ghost use Rattle.profile_toml.specs.Floats.{has_float, items_have_float, members_have_float};

use toml::value::Array;
use toml::{Table, Value};

// Whether the value has at most so many levels.
#[cycle(levels)]
pub(crate) fn fits(most: u32, value: &Value) -> bool
    ensures { result ≡ nat_le (levels (view value.now)) most }
{
    if most == 0 {
        return false;
    }
    match value {
        Value::Array(array) => array_fits(most - 1, array),
        Value::Table(table) => table_fits(most - 1, table),
        _ => true,
    }
}

#[cycle(levels)]
fn array_fits(most: u32, array: &Array) -> bool
    ensures { result ≡ nat_le (items_levels (array_view array.now)) most }
{
    for item in array {
        if !fits(most, item) {
            return false;
        }
    }
    true
}

#[cycle(levels)]
pub(crate) fn table_fits(most: u32, table: &Table) -> bool
    ensures { result ≡ nat_le (members_levels (table_view table.now)) most }
{
    for (_key, member) in table.iter() {
        if !fits(most, member) {
            return false;
        }
    }
    true
}

// Whether the value is, or holds at any depth, a float or a date that isn't printed.
#[cycle(floats)]
pub(crate) fn has_float(value: &Value) -> bool
    ensures { result ≡ has_float (view value.now) }
{
    match value {
        Value::Float(_) => true,
        Value::Datetime(datetime) => !datetime.is_valid(),
        Value::Array(array) => array_has_float(array),
        Value::Table(table) => table_has_float(table),
        _ => false,
    }
}

#[cycle(floats)]
fn array_has_float(array: &Array) -> bool
    ensures { result ≡ items_have_float (array_view array.now) }
{
    for item in array {
        if has_float(item) {
            return true;
        }
    }
    false
}

#[cycle(floats)]
pub(crate) fn table_has_float(table: &Table) -> bool
    ensures { result ≡ members_have_float (table_view table.now) }
{
    for (_key, member) in table.iter() {
        if has_float(member) {
            return true;
        }
    }
    false
}
