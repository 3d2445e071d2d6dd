// The values of a line.
ghost use Rattle.std.specs.Prelude.{◌≡◌, ◌++◌, OnOk};
ghost use Rattle.std.specs.Fmt.{decimal};
ghost use Rattle.std.specs.String.{string_bytes};
ghost use Rattle.tree_fs.specs.Texts.{place_text};
ghost use Rattle.answer_lines.specs.Lines.{tabbed, line_end};
ghost use Rattle.answer_lines.specs.Refusals.{spot_text};

use manifest_json::Spot;
use std::alloc::AllocError;
use tree_fs::Place;

/// Adds a further value.
pub(crate) fn push_value(text: &mut String, value: &str) -> Result<(), AllocError>
    ensures { OnOk result (string_bytes text.new ≡ string_bytes text.old ++ tabbed value.now) }
{
    text.push_str("\t")?;
    text.push_str(value)
}

/// Adds a further value, a number.
pub(crate) fn push_number(text: &mut String, number: u64) -> Result<(), AllocError>
    ensures { OnOk result (string_bytes text.new ≡ string_bytes text.old ++ tabbed (decimal number)) }
{
    write!(text, "\t{number}")
}

/// Adds a further value, a place.
pub(crate) fn push_place(text: &mut String, place: &Place) -> Result<(), AllocError>
    ensures { OnOk result (string_bytes text.new ≡ string_bytes text.old ++ tabbed (place_text place.now)) }
{
    text.push_str("\t")?;
    text.push_str(place.root.word())?;
    if let Some(path) = &place.rel {
        text.push_str("/")?;
        text.push_str(path.text())?;
    }
    Ok(())
}

/// Adds a further value, a part of a manifest or of a list of files.
pub(crate) fn push_spot(text: &mut String, spot: Spot) -> Result<(), AllocError>
    ensures { OnOk result (string_bytes text.new ≡ string_bytes text.old ++ tabbed (spot_text spot)) }
{
    match spot {
        Spot::Top => text.push_str("\ttop"),
        Spot::File(i) => write!(text, "\tfile {i}"),
        Spot::Folder(i) => write!(text, "\tfolder {i}"),
    }
}

/// Ends the line.
pub(crate) fn end_line(text: &mut String) -> Result<(), AllocError>
    ensures { OnOk result (string_bytes text.new ≡ string_bytes text.old ++ line_end) }
{
    text.push_str("\n")
}
