// Where the files of the enabled mods are deployed.
ghost use Rattle.std.specs.Prelude.{◌≡◌, ◌∷◌, [], IfOk, IfErr, IfSome, IsErrOf, find, length, option_map};
ghost use Rattle.std.specs.Option.{option_copied};
ghost use Rattle.std.specs.Str.{bytes_eq};
ghost use Rattle.std.specs.List.{AllByRecursion};
ghost use Rattle.rel_paths.specs.Names.{IsBase, IsFreePath};
ghost use Rattle.tree_fs.specs.Story.{Story, disk_of};
ghost use Rattle.mod_rules.specs.Nodes.{nodes_of};
ghost use Rattle.stage_scan.specs.Placed.{IsPlaced, HasUserTarget};
ghost use Rattle.deploy_plan.specs.Sources.{AreSources};
ghost use Rattle.command_steps.specs.declared.limits.Limits.{Limits};
ghost use Rattle.command_steps.specs.declared.stop.Stop.TheVariants.{TreeFault};
ghost use Rattle.command_steps.specs.Profiles.{HasProfile, enabled_ids, base_named, base_of, bases_of};
ghost use Rattle.command_steps.specs.Scans.{AreScans, placed_scans, IsLongStop};
ghost use Rattle.command_steps.specs.Looks.{AreSourcesOf};
ghost use Rattle.command_steps.specs.Steps.{targets};
ghost use Rattle.command_steps.specs.Orders.{Takes};

use crate::Stop;
use answer_lines::{Refusal, ScanRefusal};
use indexmap::IndexMap;
use profile_toml::{ModEntry, ModType, Profile};
use rel_paths::{ModId, RelPath};
use stage_scan::{BaseError, Placed, Scan, Sources, place_below};
use std::alloc::Global;

/// Scans with their files where they are deployed, and of each scan what its files are below the mod.
#[derive(Drop)]
pub struct PlacedScans {
    pub scans: Vec<Scan>,
    pub sources: Vec<Sources>,
}

// The type with this id.
fn type_named<'a>(types: &'a [ModType], id: &ModId) -> Option<&'a ModType>
    ensures { option_copied result ≡ find (λ t. bytes_eq t.id id.now) types.now }
{
    types.iter().find(|mod_type| mod_type.id() == id)
}

// The base of the type with this id.
fn base_named<'a>(types: &'a [ModType], id: &ModId) -> Option<&'a RelPath>
    ensures same { option_map (λ b. b.now) result ≡ base_named types.now id.now }
    ensures base { IfSome result (λ b. IsBase b.now) }
{
    Some(type_named(types, id)?.base())
}

// The base below which the files of a mod are deployed, if its type has one.
fn base_of<'a>(profile: &'a Profile, entry: &ModEntry) -> Option<&'a RelPath>
    ensures same { option_map (λ b. b.now) result ≡ base_of profile.now entry.now }
    ensures base { IfSome result (λ b. IsBase b.now) }
{
    base_named(profile.types(), entry.mod_type()?)
}

// The scan of a mod with its files where they are deployed.
fn place_mod(alloc: Global, scan: &Scan, base: Option<&RelPath>) -> Result<Placed, Stop>
    requires { IfSome base (λ base. IsBase base.now) }
    ensures placed { IfOk result (IsPlaced scan.now (option_map (λ b. b.now) base.entry)) }
    ensures users { IfOk result (λ _.
        AllByRecursion (HasUserTarget (option_map (λ b. b.now) base.entry)) scan.now.files) }
    ensures free { IfOk result (λ _. AllByRecursion IsFreePath scan.now.files) }
    ensures stopped { IfErr result (IsLongStop (option_map (λ b. b.now) base.entry) scan.now) }
{
    let _ = scan.files.as_slice();
    match place_below(alloc, scan, base) {
        Ok(placed) => Ok(placed),
        Err(BaseError::TargetLong(path)) => {
            let mod_id = scan.mod_id.copy()?;
            Err(Stop::Refused(Refusal::Scan(ScanRefusal::TargetLong { mod_id, path })))
        }
        Err(BaseError::Memory) => Err(Stop::Memory),
    }
}

// The same of these mods, which are the profile's.
fn place_mods(
    alloc: Global,
    profile: &Profile,
    mods: &IndexMap<ModId, ModEntry>,
    scans: &[Scan],
) -> Result<PlacedScans, Stop>
    requires mods { mods.now.entries ≡ profile.now.mods }
    requires count { length scans.now ≡ length (nodes_of profile.now) }
    ensures takes { (limits : Limits) (s : Story) → HasProfile (disk_of s) profile.now
        → AreScans (disk_of s) (enabled_ids profile.now) scans.now
        → Takes (targets ∷ []) limits s s
        (λ placed. placed.scans.items ≡ placed_scans (bases_of profile.now) scans.now) result }
    ensures placed { IfOk result (λ placed.
        placed.scans.items ≡ placed_scans (bases_of profile.now) scans.now) }
    ensures sources { IfOk result (λ placed. AreSourcesOf scans.now placed.sources.items) }
    ensures belong { IfOk result (λ placed.
        AreSources placed.scans.items placed.sources.items) }
    ensures calm { IsErrOf result TreeFault → ⊥ }
{
    let mut placed = Vec::new(alloc);
    let mut sources = Vec::new(alloc);
    let mut node = 0;
    for (_, entry) in mods {
        if entry.is_enabled() {
            let one = place_mod(alloc, &scans[node], base_of(profile, entry))?;
            placed.push(one.scan)?;
            sources.push(one.sources)?;
            node += 1;
        }
    }
    Ok(PlacedScans {
        scans: placed,
        sources,
    })
}

/// The scans of the enabled mods with their files where they are deployed: below the base of the mod's
/// type, or at their own paths. The first file, by mod and then by path, whose path is too long there
/// is told as `TargetLong`.
pub fn place_scans(alloc: Global, profile: &Profile, scans: &[Scan]) -> Result<PlacedScans, Stop>
    requires { length scans.now ≡ length (nodes_of profile.now) }
    ensures takes { (limits : Limits) (s : Story) → HasProfile (disk_of s) profile.now
        → AreScans (disk_of s) (enabled_ids profile.now) scans.now
        → Takes (targets ∷ []) limits s s
        (λ placed. placed.scans.items ≡ placed_scans (bases_of profile.now) scans.now) result }
    ensures placed { IfOk result (λ placed.
        placed.scans.items ≡ placed_scans (bases_of profile.now) scans.now) }
    ensures sources { IfOk result (λ placed. AreSourcesOf scans.now placed.sources.items) }
    ensures belong { IfOk result (λ placed.
        AreSources placed.scans.items placed.sources.items) }
    ensures calm { IsErrOf result TreeFault → ⊥ }
{
    place_mods(alloc, profile, profile.mods(), scans)
}
