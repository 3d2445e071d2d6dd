// Winners of all small worlds, beside a plain look at each path.
use super::worlds::check_winners;
use std::process::Abort;

// Of the sets of three files, the one with this number.
fn files_of(number: u32) -> &'static [&'static str] {
    match number % 8 {
        0 => &[],
        1 => &["p"],
        2 => &["q"],
        3 => &["p", "q"],
        4 => &["r"],
        5 => &["p", "r"],
        6 => &["q", "r"],
        _ => &["p", "q", "r"],
    }
}

// Whether the override gives this path to this mod.
fn is_wanted(wanted: Option<(&str, &str)>, path: &str, id: &str) -> bool {
    match wanted {
        Some((at, to)) => at == path && to == id,
        None => false,
    }
}

// The row of the path: the mod that the override gives it to, where that has the path, otherwise
// the last of the order that has it.
fn row_of(
    rt: &(impl AllocGlobal + Abort),
    mods: &[(&str, &[&str])],
    order: &[u32],
    path: &str,
    wanted: Option<(&str, &str)>,
) -> String {
    let mut row = String::new(rt.alloc());
    for node in order {
        let (id, files) = *mods.get(*node as usize).expect(rt, "a mod");
        if files.contains(&path) {
            if is_wanted(wanted, path, id) {
                return format!(in rt.alloc(); "{path} {id} override\n").expect(rt, "memory");
            }
            row = format!(in rt.alloc(); "{path} {id} order\n").expect(rt, "memory");
        }
    }
    row
}

// All rows.
fn rows_of(
    rt: &(impl AllocGlobal + Abort),
    mods: &[(&str, &[&str])],
    order: &[u32],
    wanted: Option<(&str, &str)>,
) -> String {
    let p = row_of(rt, mods, order, "p", wanted);
    let q = row_of(rt, mods, order, "q", wanted);
    let r = row_of(rt, mods, order, "r", wanted);
    format!(in rt.alloc(); "{p}{q}{r}").expect(rt, "memory")
}

// In each of these orders, `winners` answers what the plain look finds.
fn agrees(rt: &(impl AllocGlobal + Abort), mods: &[(&str, &[&str])], wanted: Option<(&str, &str)>) {
    for order in [
        [0, 1, 2],
        [0, 2, 1],
        [1, 0, 2],
        [1, 2, 0],
        [2, 0, 1],
        [2, 1, 0],
    ] {
        let rows = rows_of(rt, mods, order.as_slice(), wanted);
        check_winners(rt, mods, order.as_slice(), wanted, rows.as_str());
    }
}

#[test]
fn small_worlds_agree_with_a_look_at_each_path(rt: HostRuntime) {
    for number in 0..512u32 {
        let mods: [(&str, &[&str]); 3] = [
            ("a", files_of(number)),
            ("b", files_of(number / 8)),
            ("c", files_of(number / 64)),
        ];
        agrees(&rt, mods.as_slice(), None);
        agrees(&rt, mods.as_slice(), Some(("q", "a")));
        agrees(&rt, mods.as_slice(), Some(("q", "off")));
    }
}
