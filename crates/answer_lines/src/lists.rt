// The lines of lists.
ghost use Rattle.std.specs.Prelude.{◌≡◌, ◌++◌, IfOk, OnOk, map};
ghost use Rattle.std.specs.List.{AllByRecursion, flat_map};
ghost use Rattle.std.specs.String.{string_bytes};
ghost use Rattle.answer_lines.specs.Lines.{tabbed};
ghost use Rattle.answer_lines.specs.Words.{by_word, why_word};
ghost use Rattle.answer_lines.specs.Lists.{id_of, HasId, order_line, order_lines, winner_line, winner_lines};
ghost use Rattle.answer_lines.specs.Lists.{PathHasIds, path_line, PairHasIds, pair_line, HasIds, conflict_lines};
ghost use Rattle.answer_lines.specs.Lists.{change_line, change_lines};

use crate::values::{end_line, push_value};
use change_detect::Change;
use conflict_report::{PathReport, Report, Why};
use rel_paths::ModId;
use std::alloc::{AllocError, Global};
use winner_table::{By, WinRow};

/// The lines of a load order: the id of each node, one on a line. Id k is that of node k.
pub fn order_lines(alloc: Global, ids: &[ModId], order: &[u32]) -> Result<Vec<u8>, AllocError>
    requires { AllByRecursion (HasId ids.now) order.now }
    ensures { IfOk result (λ lines. lines.items ≡ order_lines ids.now order.now) }
{
    let mut lines = String::new(alloc);
    for node in order {
        push_order_line(&mut lines, ids, *node)?;
    }
    Ok(lines.into_bytes())
}

fn push_order_line(lines: &mut String, ids: &[ModId], node: u32) -> Result<(), AllocError>
    requires { HasId ids.now node }
    ensures { OnOk result (string_bytes lines.new ≡ string_bytes lines.old ++ order_line ids.now node) }
{
    lines.push_str(ids[node as usize].text())?;
    end_line(lines)
}

/// The lines of winners, one for each path: the path, the winner's id, and `override` or `order`.
pub fn winner_lines(alloc: Global, wins: &[WinRow]) -> Result<Vec<u8>, AllocError>
    ensures { IfOk result (λ lines. lines.items ≡ winner_lines wins.now) }
{
    let mut lines = String::new(alloc);
    for row in wins {
        push_winner_line(&mut lines, row)?;
    }
    Ok(lines.into_bytes())
}

fn by_word(by: By) -> &'static str
    ensures { result.now ≡ by_word by }
{
    match by {
        By::Override => "override",
        By::Order => "order",
    }
}

fn push_winner_line(lines: &mut String, row: &WinRow) -> Result<(), AllocError>
    ensures { OnOk result (string_bytes lines.new ≡ string_bytes lines.old ++ winner_line row.now) }
{
    lines.push_str(row.path.text())?;
    push_value(lines, row.mod_id.text())?;
    push_value(lines, by_word(row.by))?;
    end_line(lines)
}

/// The lines of a report of conflicts: for each path `path`, the path, its winner's id, `override`,
/// `rule` or `position`, and the id of each provider; then for each pair `pair` and the two ids.
/// Id k is that of node k.
pub fn conflict_lines(alloc: Global, ids: &[ModId], report: &Report) -> Result<Vec<u8>, AllocError>
    requires { HasIds ids.now report.now }
    ensures { IfOk result (λ lines. lines.items ≡ conflict_lines ids.now report.now) }
{
    let mut lines = String::new(alloc);
    push_path_lines(&mut lines, ids, report.paths.as_slice())?;
    push_pair_lines(&mut lines, ids, report.pairs.as_slice())?;
    Ok(lines.into_bytes())
}

fn push_path_lines(
    lines: &mut String,
    ids: &[ModId],
    paths: &[PathReport],
) -> Result<(), AllocError>
    requires { AllByRecursion (PathHasIds ids.now) paths.now }
    ensures { OnOk result (string_bytes lines.new
        ≡ string_bytes lines.old ++ flat_map (path_line ids.now) paths.now) }
{
    for report in paths {
        push_path_line(lines, ids, report)?;
    }
    Ok(())
}

fn push_pair_lines(
    lines: &mut String,
    ids: &[ModId],
    pairs: &[(u32, u32)],
) -> Result<(), AllocError>
    requires { AllByRecursion (PairHasIds ids.now) pairs.now }
    ensures { OnOk result (string_bytes lines.new
        ≡ string_bytes lines.old ++ flat_map (pair_line ids.now) pairs.now) }
{
    for pair in pairs {
        push_pair_line(lines, ids, pair)?;
    }
    Ok(())
}

fn why_word(why: Why) -> &'static str
    ensures { result.now ≡ why_word why }
{
    match why {
        Why::Override => "override",
        Why::Rule => "rule",
        Why::Position => "position",
    }
}

fn push_id(lines: &mut String, ids: &[ModId], node: u32) -> Result<(), AllocError>
    requires { HasId ids.now node }
    ensures { OnOk result (string_bytes lines.new ≡ string_bytes lines.old ++ tabbed (id_of ids.now node)) }
{
    push_value(lines, ids[node as usize].text())
}

fn push_ids(lines: &mut String, ids: &[ModId], nodes: &[u32]) -> Result<(), AllocError>
    requires { AllByRecursion (HasId ids.now) nodes.now }
    ensures { OnOk result (string_bytes lines.new
        ≡ string_bytes lines.old ++ flat_map tabbed (map (id_of ids.now) nodes.now)) }
{
    for node in nodes {
        push_id(lines, ids, *node)?;
    }
    Ok(())
}

fn push_path_line(lines: &mut String, ids: &[ModId], report: &PathReport) -> Result<(), AllocError>
    requires { PathHasIds ids.now report.now }
    ensures { OnOk result (string_bytes lines.new ≡ string_bytes lines.old ++ path_line ids.now report.now) }
{
    lines.push_str("path")?;
    push_value(lines, report.path.text())?;
    push_id(lines, ids, report.winner)?;
    push_value(lines, why_word(report.why))?;
    push_ids(lines, ids, report.providers.as_slice())?;
    end_line(lines)
}

fn push_pair_line(lines: &mut String, ids: &[ModId], pair: &(u32, u32)) -> Result<(), AllocError>
    requires { PairHasIds ids.now pair.now }
    ensures { OnOk result (string_bytes lines.new ≡ string_bytes lines.old ++ pair_line ids.now pair.now) }
{
    lines.push_str("pair")?;
    push_id(lines, ids, pair.0)?;
    push_id(lines, ids, pair.1)?;
    end_line(lines)
}

/// The lines of changes: the name of each one's class, and its path; last `changes`, a space and how
/// many they are.
pub fn change_lines(alloc: Global, changes: &[Change]) -> Result<Vec<u8>, AllocError>
    ensures { IfOk result (λ lines. lines.items ≡ change_lines changes.now) }
{
    let mut lines = String::new(alloc);
    for change in changes {
        push_change_line(&mut lines, change)?;
    }
    let count = changes.len();
    write!(lines, "changes {count}\n")?;
    Ok(lines.into_bytes())
}

fn push_change_line(lines: &mut String, change: &Change) -> Result<(), AllocError>
    ensures { OnOk result (string_bytes lines.new ≡ string_bytes lines.old ++ change_line change.now) }
{
    lines.push_str(change.class.name())?;
    push_value(lines, change.path.text())?;
    end_line(lines)
}
