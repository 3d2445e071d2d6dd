// Winners of worlds that are written out.
use super::worlds::check_winners;

#[test]
fn an_override_to_a_mod_without_the_file_decides_nothing(rt: HostRuntime) {
    let mods: [(&str, &[&str]); 2] = [("a", &["y"]), ("b", &["x.txt"])];
    let rows = "x.txt b order\ny a order\n";
    check_winners(&rt, mods.as_slice(), &[0, 1], Some(("x.txt", "a")), rows);
}

#[test]
fn an_override_to_an_absent_mod_decides_nothing(rt: HostRuntime) {
    let mods: [(&str, &[&str]); 2] = [("a", &["x"]), ("b", &["x"])];
    check_winners(
        &rt,
        mods.as_slice(),
        &[0, 1],
        Some(("x", "off")),
        "x b order\n",
    );
}

#[test]
fn the_last_of_the_load_order_wins(rt: HostRuntime) {
    let mods: [(&str, &[&str]); 2] = [("a", &["x.txt"]), ("b", &["x.txt"])];
    check_winners(&rt, mods.as_slice(), &[0, 1], None, "x.txt b order\n");
    check_winners(&rt, mods.as_slice(), &[1, 0], None, "x.txt a order\n");
}

#[test]
fn an_override_wins_over_the_load_order(rt: HostRuntime) {
    let mods: [(&str, &[&str]); 3] = [("a", &["x"]), ("b", &["x"]), ("c", &["x"])];
    check_winners(&rt, mods.as_slice(), &[0, 1, 2], None, "x c order\n");
    check_winners(
        &rt,
        mods.as_slice(),
        &[0, 1, 2],
        Some(("x", "a")),
        "x a override\n",
    );
    check_winners(
        &rt,
        mods.as_slice(),
        &[0, 1, 2],
        Some(("x", "c")),
        "x c override\n",
    );
}

#[test]
fn a_name_of_240_bytes_wins_as_any(rt: HostRuntime) {
    let mods: [(&str, &[&str]); 1] = [(
        "a",
        &[concat!(
            "nnnnnnnnnnnnnnnnnnnnnnnnnnnnnnnnnnnnnnnnnnnnnnnnnnnnnnnnnnnnnnnnnnnnnnnnnnnnnnnn",
            "nnnnnnnnnnnnnnnnnnnnnnnnnnnnnnnnnnnnnnnnnnnnnnnnnnnnnnnnnnnnnnnnnnnnnnnnnnnnnnnn",
            "nnnnnnnnnnnnnnnnnnnnnnnnnnnnnnnnnnnnnnnnnnnnnnnnnnnnnnnnnnnnnnnnnnnnnnnnnnnnnnnn"
        )],
    )];
    let rows = concat!(
        "nnnnnnnnnnnnnnnnnnnnnnnnnnnnnnnnnnnnnnnnnnnnnnnnnnnnnnnnnnnnnnnnnnnnnnnnnnnnnnnn",
        "nnnnnnnnnnnnnnnnnnnnnnnnnnnnnnnnnnnnnnnnnnnnnnnnnnnnnnnnnnnnnnnnnnnnnnnnnnnnnnnn",
        "nnnnnnnnnnnnnnnnnnnnnnnnnnnnnnnnnnnnnnnnnnnnnnnnnnnnnnnnnnnnnnnnnnnnnnnnnnnnnnnn",
        " a order\n"
    );
    check_winners(&rt, mods.as_slice(), &[0], None, rows);
}

#[test]
fn a_file_of_one_mod_is_no_folder_of_another(rt: HostRuntime) {
    let mods: [(&str, &[&str]); 2] = [("a", &["p"]), ("b", &["p/q"])];
    check_winners(&rt, mods.as_slice(), &[0, 1], None, "FileAndFolder p");
    let first: [(&str, &[&str]); 1] = [("a", &["p"])];
    check_winners(&rt, first.as_slice(), &[0], None, "p a order\n");
    let second: [(&str, &[&str]); 1] = [("b", &["p/q"])];
    check_winners(&rt, second.as_slice(), &[0], None, "p/q b order\n");
}
