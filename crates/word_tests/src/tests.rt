// Words of command lines, and the commands that they say.
use change_choices::Choices;
use command_words::{Command, read_words};
use std::process::Abort;

// The name of a command that carries nothing.
fn bare_name(command: &Command) -> &'static str {
    match command {
        Command::Order => "Order",
        Command::Winners => "Winners",
        Command::Conflicts => "Conflicts",
        Command::Plan => "Plan",
        Command::Deploy => "Deploy",
        Command::Check => "Check",
        Command::Status => "Status",
        Command::Purge => "Purge",
        Command::Recover => "Recover",
        Command::Batch => "Batch",
        _other => "",
    }
}

// The actions for what is replaced, changed, deleted, has no source and is gone, in this order.
fn choices_text(rt: &(impl AllocGlobal + Abort), choices: &Choices) -> String {
    let replaced = choices.replaced;
    let changed = choices.changed;
    let deleted = choices.deleted;
    let source_deleted = choices.source_deleted;
    let gone = choices.gone;
    format!(in rt.alloc();
        "{replaced:?} {changed:?} {deleted:?} {source_deleted:?} {gone:?}"
    ).expect(rt, "memory")
}

fn settle_text(rt: &(impl AllocGlobal + Abort), choices: &Choices, from_input: bool) -> String {
    let actions = choices_text(rt, choices);
    let input = if from_input { " FromInput" } else { "" };
    format!(in rt.alloc(); "Settle {actions}{input}").expect(rt, "memory")
}

fn command_text(rt: &(impl AllocGlobal + Abort), command: &Command) -> String {
    match command {
        Command::Settle {
            choices,
            from_input,
        } => settle_text(rt, choices, *from_input),
        Command::Edit(edit) => format!(in rt.alloc(); "{edit:?}").expect(rt, "memory"),
        Command::Sample(number) => format!(in rt.alloc(); "Sample({number})").expect(rt, "memory"),
        other => bare_name(other).to_string(rt.alloc()).expect(rt, "memory"),
    }
}

// The command that the words say, or why they say none.
fn said(rt: &(impl AllocGlobal + Abort), words: &[&str]) -> String {
    match read_words(rt.alloc(), words) {
        Ok(command) => command_text(rt, &command),
        Err(e) => format!(in rt.alloc(); "{e:?}").expect(rt, "memory"),
    }
}

// The words, with a bar between each two, say this command.
fn check_said(rt: &(impl AllocGlobal + Abort), line: &str, wanted: &str) {
    let words: Vec<&str> = line.split('|').collect(rt.alloc()).expect(rt, "memory");
    let found = said(rt, words.as_slice());
    assert_eq!(rt; found.as_str(), wanted, "{line}");
}

// Each line has words and, behind an arrow, the command that they say.
fn check_lines(rt: &(impl AllocGlobal + Abort), lines: &str) {
    for line in lines.lines() {
        let (words, wanted) = line.split_once(" => ").expect(rt, "an arrow");
        check_said(rt, words, wanted);
    }
}

// Each line has words that say no command.
fn check_usage(rt: &(impl AllocGlobal + Abort), lines: &str) {
    for words in lines.lines() {
        check_said(rt, words, "Usage");
    }
}

const FIRST_WORDS: &str = "order => Order
winners => Winners
conflicts => Conflicts
plan => Plan
deploy => Deploy
check => Check
status => Status
purge => Purge
recover => Recover
batch => Batch
settle => Settle Aside Keep Restore Restore Drop
enable|z => Enable(z)
disable|a => Disable(a)
rule|a|after|b => AddRule { mod_id: a, kind: After, refers: b }
drop-rule|a|after|b => DropRule { mod_id: a, kind: After, refers: b }
override|d/x.txt|a => SetOverride { path: d/x.txt, mod_id: a }
drop-override|q => DropOverride(q)
upgrade => Upgrade
release|a|1.0.0 => Release { mod_id: a, release: 1.0.0 }
sample|7 => Sample(7)";

const PARTS: &str = "enable|Texture Pack => Enable(Texture Pack)
enable|é => Enable(é)
enable|help => Enable(help)
disable|a=b => Disable(a=b)
rule|a|before|b => AddRule { mod_id: a, kind: Before, refers: b }
rule|b|requires|a => AddRule { mod_id: b, kind: Requires, refers: a }
rule|a|conflicts|a => AddRule { mod_id: a, kind: Conflicts, refers: a }
drop-rule|b|recommends|a => DropRule { mod_id: b, kind: Recommends, refers: a }
rule|after|after|after => AddRule { mod_id: after, kind: After, refers: after }
override|a|b => SetOverride { path: a, mod_id: b }
override|x.vortex_backup|a => SetOverride { path: x.vortex_backup, mod_id: a }
release|a|1.0.0-rc.1+b.5 => Release { mod_id: a, release: 1.0.0-rc.1+b.5 }
sample|0 => Sample(0)
sample|007 => Sample(7)
sample|18446744073709551615 => Sample(18446744073709551615)
sample|0018446744073709551615 => Sample(18446744073709551615)";

#[test]
fn each_form_says_its_command(rt: HostRuntime) {
    check_lines(&rt, FIRST_WORDS);
    check_lines(&rt, PARTS);
}

const ENDS: &str = "deploy|-- => Deploy
deploy|--|-- => Usage
deploy|--|a => Usage
upgrade|-- => Upgrade
enable|-- => Usage
enable|--|a => Enable(a)
enable|a|-- => Enable(a)
enable|--|a|-- => Usage
enable|a|--|-- => Usage
enable|--|-- => Enable(--)
enable|--|--|-- => Usage
enable|--|--help => Enable(--help)
rule|a|--|after|b => AddRule { mod_id: a, kind: After, refers: b }
rule|a|after|b|-- => AddRule { mod_id: a, kind: After, refers: b }
rule|--|a|after|b|-- => Usage
drop-rule|--|--|before|-- => DropRule { mod_id: --, kind: Before, refers: -- }
sample|--|7 => Sample(7)
sample|7|-- => Sample(7)";

const DASHED: &str = "enable|- => Enable(-)
enable|--|- => Enable(-)
enable|a- => Enable(a-)
enable|-a => Usage
enable|--a => Usage
enable|-1 => Usage
disable|--|-a => Disable(-a)
rule|-a|after|b => Usage
rule|--|-a|after|b => AddRule { mod_id: -a, kind: After, refers: b }
rule|a|after|-b => Usage
rule|a|after|--|-b => AddRule { mod_id: a, kind: After, refers: -b }
drop-rule|-|before|- => DropRule { mod_id: -, kind: Before, refers: - }
override|-x|a => Usage
override|--|-x|-a => SetOverride { path: -x, mod_id: -a }
override|x|--|-a => SetOverride { path: x, mod_id: -a }
drop-override|-d/x => Usage
drop-override|--|-d/x => DropOverride(-d/x)
release|--|-a|1.0.0 => Release { mod_id: -a, release: 1.0.0 }
release|a|-1.0.0 => Usage";

#[test]
fn words_behind_an_end_are_positional(rt: HostRuntime) {
    check_lines(&rt, ENDS);
    check_lines(&rt, DASHED);
}

const NO_FORMS: &str = "
Deploy
deploys
depl
help
--help
-h
--version
-V
--
-
--|deploy
droprule|a|after|b
deploy|--help
deploy|-h
deploy|--version
enable|--help
sample|-h
batch|--from-input
enable|a|--from-input";

#[test]
fn words_in_no_form_are_usage(rt: HostRuntime) {
    check_usage(&rt, NO_FORMS);
    let found = said(&rt, &[]);
    assert_eq!(&rt; found.as_str(), "Usage");
}

const COUNTS: &str = "order|a
winners|a
conflicts|a
plan|a
deploy|now
check|a
status|a
purge|a
recover|a
batch|a
upgrade|a
enable
enable|a|b
disable
disable|a|b
rule|a|after
rule|a|after|b|c
drop-rule|a|after
drop-rule|a|after|b|c
override|x
override|x|a|b
drop-override
drop-override|x|y
release|a
release|a|1.0.0|b
sample
sample|1|2";

#[test]
fn too_few_or_too_many_words_are_usage(rt: HostRuntime) {
    check_usage(&rt, COUNTS);
}

const NO_PARTS: &str = "enable|
enable|.
enable|..
enable|a/b
enable|a\\b
disable|a\tb
rule|a/b|after|c
rule|a|after|b/c
rule|a|After|b
rule|a||b
rule|a|b|after
rule|after|a|b
drop-rule|..|after|b
drop-rule|a|after|
drop-rule|a|afte|b
override|/x|a
override|x/|a
override|d//x|a
override|d/../x|a
override|d\\x|a
override||a
override|a|d/x
drop-override|/x
drop-override|.
drop-override|
release|a/b|1.0.0
release|a|1.0
release|a|v1.0.0
release|a|^1.0.0
release|a|01.0.0
release|1.0.0|a";

const NO_NUMBERS: &str = "sample|
sample|+7
sample|-7
sample|--|-7
sample| 7
sample|0x10
sample|1_000
sample|7.0
sample|7a
sample|٧
sample|18446744073709551616
sample|99999999999999999999";

#[test]
fn wrong_parts_are_usage(rt: HostRuntime) {
    check_usage(&rt, NO_PARTS);
    check_usage(&rt, NO_NUMBERS);
}

// The option takes the action as its next word, and in its own word.
fn check_action(rt: &(impl AllocGlobal + Abort), option: &str, action: &str, wanted: &str) {
    let next = format!(in rt.alloc(); "settle|--{option}|{action}").expect(rt, "memory");
    check_said(rt, next.as_str(), wanted);
    let joined = format!(in rt.alloc(); "settle|--{option}={action}").expect(rt, "memory");
    check_said(rt, joined.as_str(), wanted);
}

// Each line has an option, an action and, behind an arrow, the command that they say.
fn check_actions(rt: &(impl AllocGlobal + Abort), lines: &str) {
    for line in lines.lines() {
        let (pair, wanted) = line.split_once(" => ").expect(rt, "an arrow");
        let (option, action) = pair.split_once(' ').expect(rt, "an option and an action");
        check_action(rt, option, action, wanted);
    }
}

const SETTLEMENTS: &str = "settle|-- => Settle Aside Keep Restore Restore Drop
settle|--from-input => Settle Aside Keep Restore Restore Drop FromInput
settle|--from-input|-- => Settle Aside Keep Restore Restore Drop FromInput
settle|--replaced=import|-- => Settle Import Keep Restore Restore Drop
settle|--from-input|--replaced|revert => Settle Revert Keep Restore Restore Drop FromInput
settle|--source-deleted|drop|--deleted=restore => Settle Aside Keep Restore Drop Drop
settle|--gone|drop|--changed|keep|--deleted=drop => Settle Aside Keep Drop Restore Drop";

const ACTIONS: &str = "replaced aside => Settle Aside Keep Restore Restore Drop
replaced import => Settle Import Keep Restore Restore Drop
replaced revert => Settle Revert Keep Restore Restore Drop
changed keep => Settle Aside Keep Restore Restore Drop
deleted restore => Settle Aside Keep Restore Restore Drop
deleted drop => Settle Aside Keep Drop Restore Drop
source-deleted restore => Settle Aside Keep Restore Restore Drop
source-deleted drop => Settle Aside Keep Restore Drop Drop
gone drop => Settle Aside Keep Restore Restore Drop";

#[test]
fn options_of_a_settlement_say_its_actions(rt: HostRuntime) {
    check_lines(&rt, SETTLEMENTS);
    check_said(
        &rt,
        "settle|--gone=drop|--source-deleted=drop|--deleted|drop|--changed=keep|--replaced|import",
        "Settle Import Keep Drop Drop Drop",
    );
    check_actions(&rt, ACTIONS);
}

// The option takes none of these words.
fn check_not_taken(rt: &(impl AllocGlobal + Abort), option: &str, words: &str) {
    for word in words.split(' ') {
        check_action(rt, option, word, "Usage");
    }
}

const NO_SETTLEMENTS: &str = "settle|--replaced=aside|--replaced|aside
settle|--replaced|aside|--replaced|aside
settle|--gone=drop|--gone=drop
settle|--deleted|drop|--from-input|--deleted|restore
settle|--from-input|--from-input
settle|--replaced
settle|--gone|drop|--replaced
settle|--replaced|--
settle|--replaced|--|aside
settle|--replaced|--from-input
settle|--from-input=
settle|--from-input=true
settle|--from-input|true
settle|aside
settle|
settle|-
settle|--|aside
settle|--|--
settle|--|--from-input
settle|--|--gone|drop
settle|--replaced|aside|keep
settle|--replace|aside
settle|-replaced|aside
settle|-r|aside
settle|replaced=aside
settle|--Replaced|aside
settle|---replaced|aside
settle|--kept|keep
settle|--=aside
settle|--help
settle|-h
settle|--version
settle|help";

#[test]
fn other_settlements_are_usage(rt: HostRuntime) {
    check_usage(&rt, NO_SETTLEMENTS);
    for (option, words) in [
        ("replaced", "keep restore drop"),
        ("changed", "aside import revert restore drop"),
        ("deleted", "aside import revert keep"),
        ("source-deleted", "aside import revert keep"),
        ("gone", "aside import revert keep restore"),
        ("replaced", " Aside asid asides - -aside =aside aside=aside"),
    ] {
        check_not_taken(&rt, option, words);
    }
}

// What an edit takes of just this length, with no more behind it.
fn check_longest(rt: &(impl AllocGlobal + Abort), first: &str, edit: &str, text: &str, more: &str) {
    let line = format!(in rt.alloc(); "{first}|{text}").expect(rt, "memory");
    let wanted = format!(in rt.alloc(); "{edit}({text})").expect(rt, "memory");
    check_said(rt, line.as_str(), wanted.as_str());
    let longer = format!(in rt.alloc(); "{line}{more}").expect(rt, "memory");
    check_said(rt, longer.as_str(), "Usage");
}

#[test]
fn the_longest_id_and_paths_are_taken(rt: HostRuntime) {
    let name = "n".repeat(rt.alloc(), 240).expect(&rt, "memory");
    check_longest(&rt, "enable", "Enable", name.as_str(), "n");
    check_longest(&rt, "drop-override", "DropOverride", name.as_str(), "n");
    let folders = "d/".repeat(rt.alloc(), 63).expect(&rt, "memory");
    let path = format!(in rt.alloc(); "{folders}d").expect(&rt, "memory");
    check_longest(&rt, "drop-override", "DropOverride", path.as_str(), "/d");
}
