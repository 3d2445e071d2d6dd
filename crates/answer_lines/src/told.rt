// The line of a refusal.
ghost use Rattle.std.specs.Prelude.{◌≡◌, ◌++◌, IfOk, OnOk};
ghost use Rattle.std.specs.List.{flat_map};
ghost use Rattle.std.specs.String.{string_bytes};
ghost use Rattle.answer_lines.specs.Lines.{tabbed};
ghost use Rattle.answer_lines.specs.Refusals.{refusal_line};
ghost use Rattle.answer_lines.specs.Shown.{texts_of};

use crate::Refusal;
use crate::rows::Carried;
use crate::values::{end_line, push_number, push_place, push_spot, push_value};
use rel_paths::ModId;
use std::alloc::{AllocError, Global};

fn push_ids(text: &mut String, ids: &[ModId]) -> Result<(), AllocError>
    ensures { OnOk result (string_bytes text.new ≡ string_bytes text.old ++ flat_map tabbed ids.now) }
{
    for id in ids {
        push_value(text, id.text())?;
    }
    Ok(())
}

// Adds what a refusal carries.
fn push_carried(text: &mut String, carried: &Carried) -> Result<(), AllocError>
    ensures { OnOk result (string_bytes text.new
        ≡ string_bytes text.old ++ flat_map tabbed (texts_of carried.now)) }
{
    match carried {
        Carried::Nothing => Ok(()),
        Carried::Text(value) => push_value(text, value),
        Carried::Texts(first, second) => {
            push_value(text, first)?;
            push_value(text, second)
        }
        Carried::Ids(ids) => push_ids(text, ids),
        Carried::Place(place) => push_place(text, place),
        Carried::Entry(folder, name) => {
            push_place(text, folder)?;
            push_value(text, name)
        }
        Carried::Number(number) => push_number(text, *number),
        Carried::Counted(value, count) => {
            push_value(text, value)?;
            push_number(text, *count)
        }
        Carried::Spot(spot) => push_spot(text, *spot),
    }
}

/// The line of a refusal: `refused`, its number, its name, and each value that it carries.
///
/// Numbers are decimal. A place is its root's word and its path, joined by `/`. A spot is `top`, or
/// `file` or `folder`, a space and its index.
pub fn refusal_line(alloc: Global, refusal: &Refusal) -> Result<Vec<u8>, AllocError>
    ensures { IfOk result (λ line. line.items ≡ refusal_line refusal.now) }
{
    let row = refusal.row();
    let mut line = String::new(alloc);
    line.push_str("refused")?;
    push_number(&mut line, row.number as u64)?;
    push_value(&mut line, row.name)?;
    push_carried(&mut line, &row.carried)?;
    end_line(&mut line)?;
    Ok(line.into_bytes())
}
