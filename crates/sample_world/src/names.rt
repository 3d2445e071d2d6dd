// Ids, paths and bytes.
ghost use Rattle.std.specs.Prelude.{◌≡◌, ◌++◌, IfOk, OnOk};
ghost use Rattle.std.specs.String.{string_bytes};
ghost use Rattle.rel_paths.specs.Names.{IsUserPath};
ghost use Rattle.sample_world.specs.Texts.{padded, mods_of, mod_id, file_path, mod_bytes, game_bytes};

use rel_paths::{ModId, RelPath, only_memory};
use std::alloc::{AllocError, Global};

/// How many mods the sample of a number has: 20 to 200.
#[tactic(auto, unfolding(crate::specs::Texts::mods_of))]
pub(crate) fn count_mods(number: u64) -> u32
    ensures { result ≡ mods_of number }
{
    20 + (number % 181) as u32
}

// Adds a number in so many decimal digits, with zeros in front.
fn push_padded(text: &mut String, width: u32, number: u32) -> Result<(), AllocError>
    ensures { OnOk result (string_bytes text.new ≡ string_bytes text.old ++ padded width number) }
{
    if width == 0 {
        return Ok(());
    }
    push_padded(text, width - 1, number / 10)?;
    let digit = number % 10;
    write!(text, "{digit}")
}

/// The id of a mod.
pub(crate) fn mod_id(alloc: Global, index: u32) -> Result<ModId, AllocError>
    ensures { IfOk result (λ id. id ≡ mod_id index) }
{
    let mut text = "m".to_string(alloc)?;
    push_padded(&mut text, 3, index)?;
    match ModId::parse(alloc, text.as_str()) {
        Ok(id) => Ok(id),
        Err(fault) => Err(only_memory(fault)),
    }
}

/// The path of a file, in a mod and in the game.
pub(crate) fn file_path(alloc: Global, index: u32) -> Result<RelPath, AllocError>
    ensures same { IfOk result (λ path. path ≡ file_path index) }
    ensures user { IfOk result (λ path. IsUserPath path) }
{
    let mut text = "d".to_string(alloc)?;
    push_padded(&mut text, 3, index / 100)?;
    text.push_str("/f")?;
    push_padded(&mut text, 5, index)?;
    text.push_str(".txt")?;
    match RelPath::parse(alloc, text.as_str()) {
        Ok(path) => Ok(path),
        Err(fault) => Err(only_memory(fault)),
    }
}

/// The bytes that a file has in a mod, as text.
pub(crate) fn mod_bytes(
    alloc: Global,
    mod_index: u32,
    file_index: u32,
) -> Result<String, AllocError>
    ensures { IfOk result (λ text. string_bytes text ≡ mod_bytes mod_index file_index) }
{
    format!(in alloc; "{mod_index} {file_index}")
}

/// The bytes that a file has in the game, as text.
pub(crate) fn game_bytes(alloc: Global, file_index: u32) -> Result<String, AllocError>
    ensures { IfOk result (λ text. string_bytes text ≡ game_bytes file_index) }
{
    format!(in alloc; "game {file_index}")
}
