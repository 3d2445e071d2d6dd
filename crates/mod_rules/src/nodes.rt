// The enabled mods, and the one that a rule matches.
ghost use Rattle.std.specs.Prelude.{◌≡◌, ◌<◌, ◌^◌, length, IfOk};
ghost use Rattle.mod_rules.specs.Nodes.{enabled_of, is_met_by, is_matching};
ghost use Rattle.mod_rules.specs.Pairs.{counts_before, node_of};

use indexmap::IndexMap;
use profile_toml::{ModEntry, Rule};
use rel_paths::ModId;
use std::alloc::{AllocError, Global};

// For each mod in order, how many enabled ones stand before it.
pub(crate) fn counts_before(
    alloc: Global,
    mods: &IndexMap<ModId, ModEntry>,
) -> Result<Vec<u32>, AllocError>
    requires { length (enabled_of mods.now.entries) < 2 ^ 32 }
    ensures { IfOk result (λ counts. counts.items ≡ counts_before 0 mods.now.entries) }
{
    let mut counts = Vec::new(alloc);
    let mut count = 0;
    for (_, entry) in mods {
        counts.push(count)?;
        if entry.is_enabled() {
            count += 1;
        }
    }
    Ok(counts)
}

// Whether the mod is enabled and, if the rule has a range, has a release that the range matches.
fn is_met_by(rule: &Rule, entry: &ModEntry) -> bool
    ensures { result ≡ is_met_by rule.now entry.now }
{
    entry.is_enabled() && rule.admits(entry.release())
}

// The node of the mod that the rule matches.
pub(crate) fn node_of(mods: &IndexMap<ModId, ModEntry>, counts: &[u32], rule: &Rule) -> Option<u32>
    requires { counts.now ≡ counts_before 0 mods.now.entries }
    ensures { result ≡ node_of 0 rule.now mods.now.entries }
{
    let (place, _, entry) = mods.get_full(rule.refers())?;
    if is_met_by(rule, entry) {
        Some(counts[place])
    } else {
        None
    }
}

// Whether the rule matches: the mod that it refers to is there, and meets it.
pub(crate) fn is_matching(mods: &IndexMap<ModId, ModEntry>, rule: &Rule) -> bool
    ensures { result ≡ is_matching mods.now.entries rule.now }
{
    match mods.get(rule.refers()) {
        Some(entry) => is_met_by(rule, entry),
        None => false,
    }
}
