// Lines without a value, and lines of totals.
use answer_lines::{FixedLine, IntentState, Totals, total_lines};
use std::process::Abort;

#[test]
fn lines_without_a_value(rt: HostRuntime) {
    for (line, wanted) in [
        (FixedLine::Usage, "usage\n"),
        (FixedLine::RecoverFirst, "recover first\n"),
        (FixedLine::NothingToRecover, "nothing to recover\n"),
        (FixedLine::ProfileWritten, "profile written\n"),
        (FixedLine::ProfileUnchanged, "profile unchanged\n"),
    ] {
        assert_eq!(&rt; line.text(), wanted);
    }
}

fn check(rt: &(impl AllocGlobal + Abort), totals: Totals, wanted: &str) {
    let lines = total_lines(rt.alloc(), &totals).expect(rt, "memory");
    assert!(rt; lines.as_slice() == wanted.as_bytes());
}

#[test]
fn what_commands_moved(rt: HostRuntime) {
    let deployed = Totals::Deployed {
        rows: 3,
        sets: 2,
        saves: 1,
    };
    check(&rt, deployed, "deployed 3, set 2, saved 1\n");
    let settled = Totals::Settled {
        changes: 2,
        sets: 1,
        saves: 0,
    };
    check(&rt, settled, "settled 2, set 1, saved 0\n");
    let purged = Totals::Purged {
        rows: 1,
        sets: 1,
        saves: 0,
    };
    check(&rt, purged, "purged 1, set 1, saved 0\n");
    let recovered = Totals::Recovered { sets: 0, clears: 1 };
    check(&rt, recovered, "recovered, set 0, cleared 1\n");
}

fn check_status(rt: &(impl AllocGlobal + Abort), intent: IntentState, wanted: &str) {
    let status = Totals::Status {
        files: 1,
        folders: 0,
        intent,
    };
    check(rt, status, wanted);
}

#[test]
fn a_status_is_three_lines(rt: HostRuntime) {
    check_status(&rt, IntentState::None, "files 1\nfolders 0\nintent none\n");
    check_status(&rt, IntentState::Set, "files 1\nfolders 0\nintent set\n");
    check_status(
        &rt,
        IntentState::Clear,
        "files 1\nfolders 0\nintent clear\n",
    );
}
