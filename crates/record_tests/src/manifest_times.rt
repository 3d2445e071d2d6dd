// What reading and writing of manifests cost.
use manifest_json::{manifest_text, read_manifest};
use std::process::Abort;
use std::time::{CpuClock, Duration};

// The text of row i, whose mod has one row of every 2,000.
fn row_text(rt: &(impl AllocGlobal + Abort), i: u64) -> String {
    let path = format!(in rt.alloc();
        "data/f{}/file{}.bin",
        10_000 + i / 100,
        100 + i % 100
    ).expect(rt, "memory");
    let digest = "ba7816bf8f01cfea414140de5dae2223b00361a396177a9cb410ff61f20015ad";
    format!(in rt.alloc();
        "{{\"digest\":\"{digest}\",\"mod\":\"m{}\",\"path\":\"{path}\",\"shadowed\":false,\"source\":\"in/{path}\"}}",
        i % 2000
    )
    .expect(rt, "memory")
}

// The text of a manifest with so many rows.
fn text_of(rt: &(impl AllocGlobal + Abort), rows: u64) -> String {
    let mut text = String::new(rt.alloc());
    text.push_str("{\"files\":[").expect(rt, "memory");
    for i in 0..rows {
        if i > 0 {
            text.push(',').expect(rt, "memory");
        }
        text.push_str(row_text(rt, i).as_str()).expect(rt, "memory");
    }
    text.push_str("],\"folders\":[],\"version\":2}")
        .expect(rt, "memory");
    text
}

fn now(rt: &(impl CpuClock + Abort)) -> Duration {
    rt.thread_cpu_time().expect(rt, "a clock")
}

// The processor time for reading a manifest from its text and writing it again as the same text.
fn time_of(rt: &(impl AllocGlobal + CpuClock + Abort), text: &str) -> Duration {
    let start = now(rt);
    let manifest = read_manifest(rt.alloc(), text.as_bytes()).expect(rt, "a manifest");
    let again = manifest_text(rt.alloc(), &manifest).expect(rt, "memory");
    let time = now(rt).saturating_sub(start);
    assert!(rt; again.as_slice() == text.as_bytes());
    time
}

// The least of three tries for so many rows.
fn least_time(rt: &(impl AllocGlobal + CpuClock + Abort), rows: u64) -> Duration {
    let text = text_of(rt, rows);
    let mut least = Duration::MAX;
    for _ in 0..3u8 {
        least = least.min(time_of(rt, text.as_str()));
    }
    least
}

// Whether four times the rows take less than nine times as long in one of ten rounds: other work on
// the machine may slow down some of them.
fn takes_linear_time(rt: &(impl AllocGlobal + CpuClock + Abort), few: u64, many: u64) -> bool {
    for _ in 0..10u8 {
        let small = least_time(rt, few);
        let large = least_time(rt, many);
        if large.as_nanos() / 9 < small.as_nanos() {
            return true;
        }
    }
    false
}

#[test]
fn four_times_the_rows_take_less_than_nine_times_the_time(rt: HostRuntime) {
    assert!(&rt; takes_linear_time(&rt, 3_000, 12_000));
}

#[test]
fn manifests_of_200_000_rows_are_read_and_written_in_a_few_seconds(rt: HostRuntime) {
    let text = text_of(&rt, 200_000);
    let time = time_of(&rt, text.as_str());
    assert!(&rt; time < Duration::from_secs(8), "{time:?}");
}
