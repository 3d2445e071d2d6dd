// All pairs of class and action in one settlement.
use super::running::check_run;
use super::settling::check;

// Each row has its path after what is done with it. Of `d/drop` and `staged/x` only the game file
// is there, of `drop` and `linked/x` only the staged one, of `off/x` neither.
const LINES: &str = "stage/b/aside = \"new\"
game/aside = \"abc\"
stage/b/clean = \"abc\"
game/clean = stage/b/clean
game/d/drop = \"abc\"
stage/b/drop = \"abc\"
game/drop.vortex_backup = \"game\"
stage/b/import = \"abc\"
game/import = \"new\"
stage/b/keep = \"new\"
game/keep = stage/b/keep
stage/b/linked/x = \"new\"
game/off/
stage/b/revert = \"new\"
game/revert = \"abc\"
game/staged/x = \"new\"
";

const OLD: (&str, &str) = (
    "aside clean d/drop *drop import keep linked/x off/x revert staged/x",
    "d linked off staged",
);

const PLAN: &str = "folder\tgame/linked
folder\tkeep/aside
folder\tkeep/aside/1
folder\tkeep/aside/1/game
folder\tkeep/aside/1/game/d
folder\tkeep/aside/1/stage
folder\tkeep/aside/1/stage/b
folder\tstage/b/staged
save\tgame/aside\tkeep/aside/1/game/aside
save\tgame/d/drop\tkeep/aside/1/game/d/drop
save\tgame/revert\tkeep/aside/1/game/revert
save\tstage/b/import\tkeep/aside/1/stage/b/import
set\tgame/aside\tstage/b/aside
set\tgame/d/drop\t-
set\tgame/drop\tgame/drop.vortex_backup
set\tgame/linked/x\tstage/b/linked/x
set\tgame/revert\tstage/b/revert
set\tstage/b/import\tgame/import
set\tstage/b/staged/x\tgame/staged/x
clear\tgame/drop.vortex_backup
clear\tkeep/aside/1/game/revert
remove\tgame/off
remove\tgame/d
files 7
";

const NEW: (&str, &str) = (
    "aside=new clean import=new keep=new linked/x=new revert=new staged/x=new",
    "linked staged",
);

const GAME: &str = "game/aside = \"new\"
game/clean = \"abc\"
game/drop = \"game\"
game/import = \"new\"
game/keep = \"new\"
game/linked/
game/linked/x = \"new\"
game/revert = \"new\"
game/staged/
game/staged/x = \"new\"
";

const STAGE: &str = "stage/b/
stage/b/aside = \"new\"
stage/b/clean = \"abc\"
stage/b/drop = \"abc\"
stage/b/import = \"new\"
stage/b/keep = \"new\"
stage/b/linked/
stage/b/linked/x = \"new\"
stage/b/revert = \"new\"
stage/b/staged/
stage/b/staged/x = \"new\"
";

const KEEP: &str = "keep/aside/
keep/aside/1/
keep/aside/1/game/
keep/aside/1/game/aside = \"abc\"
keep/aside/1/game/d/
keep/aside/1/game/d/drop = \"abc\"
keep/aside/1/stage/
keep/aside/1/stage/b/
keep/aside/1/stage/b/import = \"abc\"
";

#[test]
fn all_pairs_are_planned_at_once(rt: HostRuntime) {
    check(&rt, LINES, OLD, PLAN, NEW);
}

#[test]
fn all_pairs_are_carried_out_at_once(rt: HostRuntime) {
    check_run(&rt, LINES, OLD, NEW, [GAME, KEEP, STAGE]);
}
