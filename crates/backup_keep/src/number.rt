// Numbers of what is set aside.
ghost use Rattle.std.specs.Prelude.{◌≡◌, ◌++◌, ◌∷◌, [], ℕ, List, Some, IfSome};
ghost use Rattle.std.specs.Fmt.{decimal};
ghost use Rattle.backup_keep.specs.Asides.{IsAsideNumber, IsGreatest};
ghost use Rattle.tree_fs.specs.Listing.{entry_names};

use tree_fs::Entry;

// The number that a name is: from 1 to 4294967295, without a leading zero.
fn aside_number(name: &str) -> Option<u32>
    ensures number { IfSome result (λ n. IsAsideNumber n × (name.now ≡ decimal n)) }
    ensures whole { (n : ℕ) → IsAsideNumber n → name.now ≡ decimal n → result ≡ Some n }
{
    if name.starts_with('+') {
        return None;
    }
    if name.starts_with('0') {
        return None;
    }
    name.parse().ok()
}

// The greatest number among the names of entries, or 0.
pub(crate) fn greatest(entries: &[Entry]) -> u32
    ensures { IsGreatest (entry_names entries.now) result }
{
    let mut greatest = 0;
    for entry in entries {
        greatest = with_name(greatest, entry.name.text());
    }
    greatest
}

// The greatest number among some names and one more.
fn with_name(greatest: u32, name: &str) -> u32
    ensures { (names : List (List ℕ)) → IsGreatest names greatest → IsGreatest (names ++ name.now ∷ []) result }
{
    match aside_number(name) {
        Some(number) => number.max(greatest),
        None => greatest,
    }
}
