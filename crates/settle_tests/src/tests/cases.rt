// What is planned for a row, by its class and the action that is chosen: the usual one, or that
// which its path is named after.
use super::settling::check;

#[test]
fn a_clean_desk_needs_nothing(rt: HostRuntime) {
    let lines = "stage/b/revert = \"abc\"
game/revert = stage/b/revert
game/revert.vortex_backup = \"game\"";
    let row = ("*revert", "");
    check(&rt, lines, row, "files 1\n", row);
    check(&rt, "game/q = \"q\"", ("", ""), "files 0\n", ("", ""));
}

#[test]
fn a_replaced_file_is_set_aside(rt: HostRuntime) {
    let wanted = "folder\tkeep/aside
folder\tkeep/aside/1
folder\tkeep/aside/1/game
save\tgame/x.txt\tkeep/aside/1/game/x.txt
set\tgame/x.txt\tstage/b/x.txt
files 1
";
    let lines = "stage/b/x.txt = \"abc\"
game/x.txt = \"new\"
game/x.txt.vortex_backup = \"game\"";
    check(&rt, lines, ("*x.txt=", ""), wanted, ("*x.txt=abc", ""));
    // also where the files have the same bytes
    let equal = "stage/b/x.txt = \"abc\"\ngame/x.txt = \"abc\"";
    check(&rt, equal, ("x.txt", ""), wanted, ("x.txt", ""));
}

#[test]
fn a_replaced_file_is_imported(rt: HostRuntime) {
    let wanted = "folder\tkeep/aside
folder\tkeep/aside/1
folder\tkeep/aside/1/stage
folder\tkeep/aside/1/stage/b
save\tstage/b/import\tkeep/aside/1/stage/b/import
set\tstage/b/import\tgame/import
files 1
";
    let lines = "stage/b/import = \"abc\"
game/import = \"new\"
game/import.vortex_backup = \"game\"";
    check(&rt, lines, ("*import", ""), wanted, ("*import=new", ""));
}

// The place of the mod's file is that of the row's source.
#[test]
fn a_file_is_imported_to_its_source(rt: HostRuntime) {
    let wanted = "folder\tkeep/aside
folder\tkeep/aside/1
folder\tkeep/aside/1/stage
folder\tkeep/aside/1/stage/b
folder\tkeep/aside/1/stage/b/s
save\tstage/b/s/y\tkeep/aside/1/stage/b/s/y
set\tstage/b/s/y\tgame/import
files 1
";
    let lines = "stage/b/s/y = \"abc\"\ngame/import = \"new\"";
    let (old, new) = (("import@s/y", ""), ("import@s/y=new", ""));
    check(&rt, lines, old, wanted, new);
}

#[test]
fn a_replaced_file_is_given_up(rt: HostRuntime) {
    let wanted = "folder\tkeep/aside
folder\tkeep/aside/1
folder\tkeep/aside/1/game
save\tgame/revert\tkeep/aside/1/game/revert
set\tgame/revert\tstage/b/revert
clear\tkeep/aside/1/game/revert
files 1
";
    let lines = "stage/b/revert = \"abc\"
game/revert = \"new\"
game/revert.vortex_backup = \"game\"";
    check(&rt, lines, ("*revert=new", ""), wanted, ("*revert", ""));
}

#[test]
fn the_next_number_is_taken(rt: HostRuntime) {
    let wanted = "folder\tkeep/aside/8
folder\tkeep/aside/8/game
save\tgame/x.txt\tkeep/aside/8/game/x.txt
set\tgame/x.txt\tstage/b/x.txt
files 1
";
    let lines = "stage/b/x.txt = \"abc\"\ngame/x.txt = \"new\"\nkeep/aside/7/\nkeep/aside/q/";
    check(&rt, lines, ("x.txt", ""), wanted, ("x.txt", ""));
}

#[test]
fn an_emptied_file_is_kept_with_its_digest(rt: HostRuntime) {
    let lines = "stage/b/x.txt = \"\"\ngame/x.txt = stage/b/x.txt";
    check(&rt, lines, ("x.txt", ""), "files 1\n", ("x.txt=", ""));
    // also where an action is chosen that isn't allowed for it
    let lines = "stage/b/drop = \"\"\ngame/drop = stage/b/drop";
    check(&rt, lines, ("drop", ""), "files 1\n", ("drop=", ""));
}

#[test]
fn a_deleted_file_is_linked_again(rt: HostRuntime) {
    let wanted = "folder\tgame/d\nset\tgame/d/x.txt\tstage/b/d/x.txt\nfiles 1\n";
    let lines = "stage/b/d/x.txt = \"new\"";
    for folders in ["", "d"] {
        check(
            &rt,
            lines,
            ("d/x.txt", folders),
            wanted,
            ("d/x.txt=new", "d"),
        );
    }
    // a folder that others made isn't an own one
    let wanted = "set\tgame/d/x.txt\tstage/b/d/x.txt\nfiles 1\n";
    let lines = "stage/b/d/x.txt = \"new\"\ngame/d/";
    check(&rt, lines, ("d/x.txt", ""), wanted, ("d/x.txt=new", ""));
}

#[test]
fn a_found_file_is_staged_again(rt: HostRuntime) {
    let wanted = "folder\tstage/b
folder\tstage/b/s
set\tstage/b/s/y\tgame/d/x.txt
files 1
";
    let (old, new) = (("d/x.txt@s/y", "d"), ("d/x.txt@s/y=new", "d"));
    check(&rt, "game/d/x.txt = \"new\"", old, wanted, new);
}

#[test]
fn a_found_file_without_its_source_is_set_aside(rt: HostRuntime) {
    let aside = "folder\tkeep/aside
folder\tkeep/aside/1
folder\tkeep/aside/1/game
folder\tkeep/aside/1/game/d
save\tgame/d/drop\tkeep/aside/1/game/d/drop
";
    // its original isn't there any more
    let wanted = format!(in rt.alloc(); "{aside}set\tgame/d/drop\t-\nremove\tgame/d\nfiles 0\n");
    let wanted = wanted.expect(&rt, "memory");
    let lines = "game/d/drop = \"abc\"";
    check(&rt, lines, ("*d/drop", "d"), wanted.as_str(), ("", ""));
    // it goes back
    let back = "set\tgame/d/drop\tgame/d/drop.vortex_backup\nclear\tgame/d/drop.vortex_backup\n";
    let wanted = format!(in rt.alloc(); "{aside}{back}files 0\n").expect(&rt, "memory");
    let lines = "game/d/drop = \"abc\"\ngame/d/drop.vortex_backup = \"game\"";
    check(&rt, lines, ("*d/drop", "d"), wanted.as_str(), ("", "d"));
}

#[test]
fn a_deleted_file_is_dropped(rt: HostRuntime) {
    // the staged file stays
    let lines = "stage/b/drop = \"abc\"";
    for row in ["drop", "*drop"] {
        check(&rt, lines, (row, ""), "files 0\n", ("", ""));
    }
    let wanted = "set\tgame/drop\tgame/drop.vortex_backup
clear\tgame/drop.vortex_backup
files 0
";
    let lines = "stage/b/drop = \"abc\"\ngame/drop.vortex_backup = \"game\"";
    check(&rt, lines, ("*drop", ""), wanted, ("", ""));
    // what stands at the backup place of a row that isn't shadowed belongs to others
    check(&rt, lines, ("drop", ""), "files 0\n", ("", ""));
}

#[test]
fn a_row_without_any_file_goes(rt: HostRuntime) {
    let old = ("*d/x.txt", "d");
    check(&rt, "game/d/", old, "remove\tgame/d\nfiles 0\n", ("", ""));
    check(&rt, "", old, "files 0\n", ("", ""));
    // a folder with a file of others stays, and so does a folder of theirs
    check(&rt, "game/d/q = \"q\"", old, "files 0\n", ("", "d"));
    check(&rt, "game/d/", ("d/x.txt", ""), "files 0\n", ("", ""));
}
