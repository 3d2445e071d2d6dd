// Scans of mods that are deployed below a base folder.
ghost use Rattle.std.specs.Prelude.{◌≡◌, IfOk, IfErr, IfSome, MatchOption, option_map};
ghost use Rattle.std.specs.List.{AllByRecursion};
ghost use Rattle.rel_paths.specs.Names.{IsBase, IsFreePath};
ghost use Rattle.stage_scan.specs.Placed.{target, HasUserTarget, IsPlaced, IsBaseError};
ghost use Rattle.stage_scan.specs.declared.placed.BaseError.TheVariants.{Memory};

use crate::{Files, Scan};
use rel_paths::RelPath;
use std::alloc::{AllocError, AllocFailed, Global};

/// A scan whose files are at the paths where they are deployed, and what each of them is below its
/// mod.
#[derive(Drop)]
pub struct Placed {
    pub scan: Scan,
    pub sources: Sources,
}

/// Paths below a mod: that of the scan's file at the same index.
#[derive(Drop)]
pub struct Sources {
    pub paths: Vec<RelPath>,
}

/// Why files have no place below a base folder.
#[derive(Debug, Drop)]
pub enum BaseError {
    /// The path of this file, joined behind the base, is no user path. It is the first such file in
    /// path order.
    TargetLong(RelPath),
    /// Memory ran out.
    Memory,
}

impl From<AllocError> for BaseError {
    ghost from_gives = { λ _ e. e ≡ Memory };

    fn from(_: AllocError) -> Self {
        BaseError::Memory
    }
}

impl<T: Drop> From<AllocFailed<T>> for BaseError {
    ghost from_gives = { λ _ e. e ≡ Memory };

    fn from(_: AllocFailed<T>) -> Self {
        BaseError::Memory
    }
}

// Where this file is deployed, where that is a user path.
fn user_target(
    alloc: Global,
    base: Option<&RelPath>,
    source: &RelPath,
) -> Result<Option<RelPath>, AllocError>
    requires base { IfSome base (λ base. IsBase base.now) }
    requires source { IsFreePath source.now }
    ensures { IfOk result (λ found. MatchOption found (HasUserTarget (option_map (λ b. b.now) base.entry) source.now → ⊥) (λ path. (path ≡ target (option_map (λ b. b.now) base.entry) source.now) × IsFreePath path)) }
{
    let Some(base) = base else {
        return Ok(Some(source.copy()?));
    };
    let path = base.join(alloc, source)?;
    if path.is_user() {
        Ok(Some(path))
    } else {
        Ok(None)
    }
}

/// The scan of a mod whose files are deployed below a base folder, or at their own paths where
/// there is none. A base is a user path that isn't reserved, of at most 8 names and 300 bytes.
pub fn place_below(alloc: Global, scan: &Scan, base: Option<&RelPath>) -> Result<Placed, BaseError>
    requires { IfSome base (λ base. IsBase base.now) }
    ensures placed { IfOk result (IsPlaced scan.now (option_map (λ b. b.now) base.entry)) }
    ensures users { IfOk result (λ _. AllByRecursion (HasUserTarget (option_map (λ b. b.now) base.entry)) scan.now.files) }
    ensures err { IfErr result (IsBaseError (option_map (λ b. b.now) base.entry) scan.now.files) }
{
    let mut targets = Vec::new(alloc);
    let mut sources = Vec::new(alloc);
    for source in scan.files.as_slice() {
        let Some(target) = user_target(alloc, base, source)? else {
            return Err(BaseError::TargetLong(source.copy()?));
        };
        targets.push(target)?;
        sources.push(source.copy()?)?;
    }
    let mod_id = scan.mod_id.copy()?;
    Ok(Placed {
        scan: Scan {
            mod_id,
            files: Files::new(targets),
            entries: scan.entries,
        },
        sources: Sources { paths: sources },
    })
}
