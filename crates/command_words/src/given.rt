// What all positional words of a command say.
ghost use Rattle.std.specs.Prelude.{◌≡◌, None, Some, IfOk, IfErr};
ghost use Rattle.rel_paths.specs.Names.{IsUserPath};
ghost use Rattle.command_words.specs.Values.{mod_id, user_path, number, only, path_and_id, id_and_version, id_kind_id};
ghost use Rattle.command_words.specs.Words.{texts};

use crate::WordError;
use crate::values::{mod_id, number, rule_kind, user_path, version};
use profile_toml::{Release, RuleKind};
use rel_paths::{ModId, RelPath};
use std::alloc::Global;

pub(crate) fn only_id(alloc: Global, given: &[&str]) -> Result<ModId, WordError>
    ensures ok { IfOk result (λ id. only mod_id (texts given.now) ≡ Some id) }
    ensures usage { IfErr result (λ e. e ≡ WordError.Usage
        → only mod_id (texts given.now) ≡ None) }
{
    match *given {
        [id] => mod_id(alloc, id),
        _ => Err(WordError::Usage),
    }
}

pub(crate) fn only_path(alloc: Global, given: &[&str]) -> Result<RelPath, WordError>
    ensures ok { IfOk result (λ path. only user_path (texts given.now) ≡ Some path) }
    ensures usage { IfErr result (λ e. e ≡ WordError.Usage
        → only user_path (texts given.now) ≡ None) }
{
    match *given {
        [path] => user_path(alloc, path),
        _ => Err(WordError::Usage),
    }
}

pub(crate) fn only_number(given: &[&str]) -> Option<u64>
    ensures { result ≡ only number (texts given.now) }
{
    match *given {
        [text] => number(text),
        _ => None,
    }
}

pub(crate) fn path_and_id(alloc: Global, given: &[&str]) -> Result<(RelPath, ModId), WordError>
    ensures ok { IfOk result (λ r. path_and_id (texts given.now) ≡ Some r) }
    ensures user { IfOk result (λ r. IsUserPath r.0) }
    ensures usage { IfErr result (λ e. e ≡ WordError.Usage
        → path_and_id (texts given.now) ≡ None) }
{
    match *given {
        [path, id] => {
            let path = user_path(alloc, path)?;
            let id = mod_id(alloc, id)?;
            Ok((path, id))
        }
        _ => Err(WordError::Usage),
    }
}

pub(crate) fn id_and_version(alloc: Global, given: &[&str]) -> Result<(ModId, Release), WordError>
    ensures ok { IfOk result (λ r. id_and_version (texts given.now) ≡ Some r) }
    ensures usage { IfErr result (λ e. e ≡ WordError.Usage
        → id_and_version (texts given.now) ≡ None) }
{
    match *given {
        [id, text] => {
            let id = mod_id(alloc, id)?;
            let release = version(alloc, text)?;
            Ok((id, release))
        }
        _ => Err(WordError::Usage),
    }
}

pub(crate) fn id_kind_id(
    alloc: Global,
    given: &[&str],
) -> Result<(ModId, RuleKind, ModId), WordError>
    ensures ok { IfOk result (λ r. id_kind_id (texts given.now) ≡ Some r) }
    ensures usage { IfErr result (λ e. e ≡ WordError.Usage
        → id_kind_id (texts given.now) ≡ None) }
{
    match *given {
        [id, kind, refers] => {
            let id = mod_id(alloc, id)?;
            let kind = rule_kind(kind).ok_or(WordError::Usage)?;
            let refers = mod_id(alloc, refers)?;
            Ok((id, kind, refers))
        }
        _ => Err(WordError::Usage),
    }
}
