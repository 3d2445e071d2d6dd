// Tables of cases, each a script that is played from an empty world on. A line that begins with two
// equal signs tells what follows, up to the next such line:
//
//     == an_edit_is_kept            a case, by what it shows
//     == an_edit_is_kept from USED  a case that goes on from where the lines of a start lead
//     == USED:                      the lines of this start
//     ==                            another script of the same case, from its start again
//
// A script with rows is played once for each of them, with the row's values in the places that it
// and its start have for them:
//
//     $ order & 0                   a row: `$1` stands for `order`, and `$2` for `0`
//     > $1 now => $2
//
// The name of a case is written before it is played, so that a failure is told below it.
use crate::script::{joined, play};
use std::process::Abort;

// The places of the values of a row.
const PLACES: [&str; 4] = ["$1", "$2", "$3", "$4"];

/// Plays each case of the table.
pub fn play_all(rt: &(impl AllocGlobal + Abort + Eprint), table: &str) {
    let table = joined(rt, table);
    for block in table.as_str().split("== ") {
        let (head, scripts) = block.split_once('\n').unwrap_or((block, ""));
        if !head.is_empty() && !head.ends_with(':') {
            play_case(rt, table.as_str(), head, scripts);
        }
    }
}

fn play_case(rt: &(impl AllocGlobal + Abort + Eprint), table: &str, head: &str, scripts: &str) {
    eprintln!(rt; "{head}").expect(rt, "standard error");
    let start = match head.split_once(" from ") {
        Some((_, name)) => start_of(table, name).expect(rt, head),
        None => "",
    };
    for script in scripts.split("==\n") {
        play_rows(rt, start, script);
    }
}

// The lines of the start of this name.
fn start_of<'a>(table: &'a str, name: &str) -> Option<&'a str> {
    for block in table.split("== ") {
        let (head, lines) = block.split_once('\n')?;
        if head.strip_suffix(':') == Some(name) {
            return Some(lines);
        }
    }
    None
}

// What stands behind the sign of a row.
fn row_of(line: &str) -> Option<&str> {
    let (sign, _) = line.split_once(' ').unwrap_or((line, ""));
    if sign == "$" {
        line.strip_prefix('$')
    } else {
        None
    }
}

fn play_rows(rt: &(impl AllocGlobal + Abort), start: &str, script: &str) {
    if script.lines().all(|line| row_of(line).is_none()) {
        play(rt, start, script);
    }
    for line in script.lines() {
        if let Some(row) = row_of(line) {
            let start = filled(rt, start, row);
            let script = filled(rt, script, row);
            play(rt, start.as_str(), script.as_str());
        }
    }
}

fn filled(rt: &(impl AllocGlobal + Abort), script: &str, row: &str) -> String {
    let mut text = script.to_string(rt.alloc()).expect(rt, "memory");
    for (place, value) in PLACES.iter().zip(row.split(" &")) {
        let whole = text.replace(rt.alloc(), *place, value.trim());
        text = whole.expect(rt, "memory");
    }
    text
}
