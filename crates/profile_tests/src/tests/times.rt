// Reading and printing take time linear in the text.
use crate::tests::profiles::{printed, profile_of};
use std::process::Abort;
use std::time::{CpuClock, Duration};

// Adds a type, an override, and a mod of that type with so many rules.
fn add_mod(rt: &(impl AllocGlobal + Abort), text: &mut String, place: u32, rules: u32) {
    write!(
        text,
        "[[types]]\nid = 't{place}'\nbase = 'bin'\n[[overrides]]\npath = 'p{place}'\nmod = 'a'
[[mods]]\nid = 'a{place}'\nrelease = '1.0.{place}'\ntype = 't{place}'\n"
    )
    .expect(rt, "memory");
    for rule in 0..rules {
        write!(
            text,
            "[[mods.rules]]\nkind = 'after'\nref = 'b{rule}'\nrange = '^1'\n"
        )
        .expect(rt, "memory");
    }
}

// A document of so many mods with so many rules each.
fn many(rt: &(impl AllocGlobal + Abort), mods: u32, rules: u32) -> String {
    let mut text = "version = 2\n".to_string(rt.alloc()).expect(rt, "memory");
    for place in 0..mods {
        add_mod(rt, &mut text, place, rules);
    }
    text
}

// How long reading and printing took.
#[derive(Clone, Copy)]
struct Taken {
    reading: Duration,
    printing: Duration,
}

fn time_of(rt: &(impl AllocGlobal + CpuClock + Abort), text: &str) -> Taken {
    let start = rt.thread_cpu_time().expect(rt, "a clock");
    let profile = profile_of(rt, text);
    let read = rt.thread_cpu_time().expect(rt, "a clock");
    let _text = printed(rt, profile);
    let end = rt.thread_cpu_time().expect(rt, "a clock");
    Taken {
        reading: read.saturating_sub(start),
        printing: end.saturating_sub(read),
    }
}

// The least processor times of three tries.
fn least_times(rt: &(impl AllocGlobal + CpuClock + Abort), mods: u32, rules: u32) -> Taken {
    let text = many(rt, mods, rules);
    let mut least = time_of(rt, text.as_str());
    for _ in 0..2u8 {
        let taken = time_of(rt, text.as_str());
        least.reading = least.reading.min(taken.reading);
        least.printing = least.printing.min(taken.printing);
    }
    least
}

// Eight times the text takes eight times as long where time is linear in it, and 64 times where it is
// quadratic. A tenth of a second isn't counted: the smaller one alone may fit into the processor's
// cache, and other work on the machine takes from that.
fn is_below_24_times(few: Duration, many: Duration) -> bool {
    many.saturating_sub(Duration::from_millis(100)).as_nanos() / 24 <= few.as_nanos()
}

// How many mods, and with how many rules each.
type Size = (u32, u32);

// Whether it is so in one of ten rounds: other work on the machine may slow down some of them.
fn takes_linear_time(
    rt: &(impl AllocGlobal + CpuClock + Abort),
    (few, rules): Size,
    (many, more_rules): Size,
) -> bool {
    for _ in 0..10u8 {
        let small = least_times(rt, few, rules);
        let large = least_times(rt, many, more_rules);
        if is_below_24_times(small.reading, large.reading)
            && is_below_24_times(small.printing, large.printing)
        {
            return true;
        }
    }
    false
}

#[test]
fn eight_times_the_text_takes_less_than_24_times_the_time(rt: HostRuntime) {
    for (small, large) in [
        ((200, 20), (1600, 20)),
        ((1000, 0), (8000, 0)),
        ((1, 1000), (1, 8000)),
    ] {
        assert!(&rt; takes_linear_time(&rt, small, large), "{large:?}");
    }
}
