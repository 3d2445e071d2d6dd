// What single words say.
ghost use Rattle.std.specs.Prelude.{◌≡◌, None, Some, IfOk, IfErr};
ghost use Rattle.rel_paths.specs.Names.{IsUserPath};
ghost use Rattle.command_words.specs.Values.{mod_id, user_path, version, number};
ghost use Rattle.profile_toml.specs.Rules.{kind_of};

use crate::WordError;
use profile_toml::{Release, ReleaseError, RuleKind};
use rel_paths::{ModId, PathError, RelPath};
use std::alloc::Global;

pub(crate) fn mod_id(alloc: Global, text: &str) -> Result<ModId, WordError>
    ensures ok { IfOk result (λ id. mod_id text.now ≡ Some id) }
    ensures usage { IfErr result (λ e. e ≡ WordError.Usage → mod_id text.now ≡ None) }
{
    match ModId::parse(alloc, text) {
        Ok(id) => Ok(id),
        Err(PathError::Memory) => Err(WordError::Memory),
        Err(_) => Err(WordError::Usage),
    }
}

pub(crate) fn user_path(alloc: Global, text: &str) -> Result<RelPath, WordError>
    ensures ok { IfOk result (λ path. user_path text.now ≡ Some path) }
    ensures user { IfOk result IsUserPath }
    ensures usage { IfErr result (λ e. e ≡ WordError.Usage → user_path text.now ≡ None) }
{
    match RelPath::parse(alloc, text) {
        Ok(path) => Ok(path),
        Err(PathError::Memory) => Err(WordError::Memory),
        Err(_) => Err(WordError::Usage),
    }
}

#[tactic(auto, unfolding(profile_toml::specs::Rules::kind_of))]
pub(crate) fn rule_kind(word: &str) -> Option<RuleKind>
    ensures { result ≡ kind_of word.now }
{
    match word {
        "before" => Some(RuleKind::Before),
        "after" => Some(RuleKind::After),
        "requires" => Some(RuleKind::Requires),
        "conflicts" => Some(RuleKind::Conflicts),
        "recommends" => Some(RuleKind::Recommends),
        _ => None,
    }
}

pub(crate) fn version(alloc: Global, text: &str) -> Result<Release, WordError>
    ensures ok { IfOk result (λ release. version text.now ≡ Some release) }
    ensures usage { IfErr result (λ e. e ≡ WordError.Usage → version text.now ≡ None) }
{
    match Release::parse(alloc, text) {
        Ok(release) => Ok(release),
        Err(ReleaseError::Memory) => Err(WordError::Memory),
        Err(ReleaseError::Refused) => Err(WordError::Usage),
    }
}

// `parse` takes a sign, which a number here hasn't.
pub(crate) fn number(text: &str) -> Option<u64>
    ensures { result ≡ number text.now }
{
    if text.starts_with('+') {
        return None;
    }
    text.parse().ok()
}
