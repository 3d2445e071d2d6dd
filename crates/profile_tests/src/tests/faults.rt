// What is told of texts that are no profiles.
use profile_toml::read_profile;
use std::process::Abort;

// What bytes are refused for, or `read`.
fn answer(rt: &(impl AllocGlobal + Abort), bytes: &[u8]) -> String {
    match read_profile(rt.alloc(), bytes) {
        Ok(_) => "read".to_string(rt.alloc()).expect(rt, "memory"),
        Err(e) => format!(in rt.alloc(); "{e:?}").expect(rt, "memory"),
    }
}

fn check(rt: &(impl AllocGlobal + Abort), text: &str, wanted: &str) {
    let found = answer(rt, text.as_bytes());
    assert_eq!(rt; found.as_str(), wanted, "{text}");
}

// The table tells a case by its name. `<` begins the form of the texts that follow: what stands in
// front of an arrow comes to the place of the dollar, and behind the arrow is what the text is
// refused for, or `read`. A bar is a line end.
const FAULTS: &str = r#"
    == faults_of_the_document
    < $
    = 1 => NotToml
    version = 1 => read
    version = 2 => read
    => Version
    version = 0 => Version
    version = 3 => Version
    version = '1' => Version
    version = 1|x = 1.5 => Float
    version = 2|x = [{ y = inf }] => Float
    version = 1|x = 2026-01-01 => read
    version = 2|fold = false => Shape(fold)
    version = 2|types = {} => Shape(types)
    version = 1|mods = 3 => Shape(mods)
    version = 1|overrides = 'x' => Shape(overrides)

    == faults_of_types
    < version = 2|types = [$]
    => read
    1 => Shape(types[0])
    { base = 'bin' } => Shape(types[0].id)
    { id = 1 } => Shape(types[0].id)
    { id = 'a/b' } => BadPath(a/b)
    { id = 'd', base = 'bin' }, 1 => Shape(types[1])
    { id = 'd', base = 'bin' }, { id = 'd' } => SameType(d)
    { id = 'd' } => Shape(types[0].base)
    { id = 'd', base = ['bin'] } => Shape(types[0].base)
    { id = 'd', base = '../bin' } => BadPath(../bin)
    { id = 'd', base = '' } => BadPath()
    { id = 'd', base = 'vortex.deployment.json' } => BadPath(vortex.deployment.json)
    { id = 'd', base = 'x.vortex_backup/y' } => BadPath(x.vortex_backup/y)
    { id = 'd', base = 'bin' }, { id = 'e', base = 'bin' } => read

    == faults_of_mods
    < version = 2|mods = [$]|types = [{ id = 'd', base = 'bin' }, { id = 'e', base = 'bin' }]
    => read
    1 => Shape(mods[0])
    { enabled = true } => Shape(mods[0].id)
    { id = 1 } => Shape(mods[0].id)
    { id = '' } => BadPath()
    { id = 'a/b' } => BadPath(a/b)
    { id = 'a' }, 1 => Shape(mods[1])
    { id = 'a' }, { id = 'a' } => SameMod(a)
    { id = 'a', enabled = 1 } => Shape(mods[0].enabled)
    { id = 'a', release = 1 } => Shape(mods[0].release)
    { id = 'a', release = '1.0' } => BadRelease(1.0)
    { id = 'a', type = 1 } => Shape(mods[0].type)
    { id = 'a', type = 'd/e' } => NoType(d/e)
    { id = 'a', type = 'f' } => NoType(f)
    { id = 'a', type = 'd' }, { id = 'b', type = 'e' } => read
    { id = 'a', rules = {} } => Shape(mods[0].rules)

    == faults_of_rules
    < version = 2|mods = [{ id = 'a' }, { id = 'b', rules = [$] }]
    => read
    1 => Shape(mods[1].rules[0])
    { ref = 'a' } => Shape(mods[1].rules[0].kind)
    { kind = 1 } => Shape(mods[1].rules[0].kind)
    { kind = 'After' } => BadKind(After)
    { kind = 'before' } => Shape(mods[1].rules[0].ref)
    { kind = 'after', ref = 1 } => Shape(mods[1].rules[0].ref)
    { kind = 'requires', ref = '..' } => BadPath(..)
    { kind = 'conflicts', ref = 'c', range = 1 } => Shape(mods[1].rules[0].range)
    { kind = 'recommends', ref = 'c', range = 'one' } => BadRange(one)
    { kind = 'recommends', ref = 'c', range = '>=1' }, 1 => Shape(mods[1].rules[1])

    == faults_of_overrides
    < version = 1|overrides = [$]
    => read
    [] => Shape(overrides[0])
    { mod = 'a' } => Shape(overrides[0].path)
    { path = 1 } => Shape(overrides[0].path)
    { path = '/x' } => BadPath(/x)
    { path = 'x' } => Shape(overrides[0].mod)
    { path = 'x', mod = 1 } => Shape(overrides[0].mod)
    { path = 'x', mod = '.' } => BadPath(.)
    { path = 'x', mod = 'a' }, { path = 'x/y' } => Shape(overrides[1].mod)
    { path = 'x', mod = 'a' }, { path = 'x', mod = 'b' } => SameOverride(x)

    == of_the_faults_of_a_document_the_first_is_told
    < $
    version = 3|x = 1.5 => Float
    fold = 1|mods = 2 => Version
    version = 2|mods = 1|types = 2|fold = 3 => Shape(fold)
    version = 2|overrides = 1|mods = 2|types = 3 => Shape(types)
    version = 2|overrides = 1|mods = 2 => Shape(mods)
    version = 2|mods = [{}]|types = [{ id = 'd', base = 'bin' }, {}] => Shape(types[1].id)
    version = 1|overrides = 1|mods = [{ id = 'a' }, {}] => Shape(mods[1].id)

    == of_the_faults_of_types_and_mods_the_first_is_told
    < version = 2|types = [$]
    { base = '/', id = 1 }, 2 => Shape(types[0].id)
    { id = 'd', base = 'bin' }, { id = 'd', base = '/' } => SameType(d)
    { id = 'd', base = '/' }, 2 => BadPath(/)
    < version = 2|mods = [$]|types = [{ id = 'd', base = 'bin' }, { id = 'e', base = 'bin' }]
    { id = 'a' }, { id = 'a', enabled = 1 } => SameMod(a)
    { id = 'a', rules = 1, type = 2, release = 3, enabled = 4 } => Shape(mods[0].enabled)
    { id = 'a', rules = 1, type = 2, release = 3 } => Shape(mods[0].release)
    { id = 'a', rules = 1, type = 'f', release = '1' } => BadRelease(1)
    { id = 'a', rules = 1, type = 'f' } => NoType(f)
    { id = 'a', rules = [1] }, 2 => Shape(mods[0].rules[0])

    == of_the_faults_of_rules_and_overrides_the_first_is_told
    < version = 2|mods = [{ id = 'a' }, { id = 'b', rules = [$] }]
    { range = 1, ref = 2, kind = 'x' } => BadKind(x)
    { range = 1, ref = '.', kind = 'after' } => BadPath(.)
    { range = 'one', ref = 'b', kind = 'after' }, 1 => BadRange(one)
    < version = 1|overrides = [$]
    { mod = 1, path = '/' } => BadPath(/)
    { path = 'x', mod = 'a' }, { path = 'x' } => SameOverride(x)
"#;

fn check_line(rt: &(impl AllocGlobal + Abort), form: &str, line: &str) {
    let (items, wanted) = line.split_once("=> ").expect(rt, line);
    let text = form.replace(rt.alloc(), '$', items.trim());
    let text = text.expect(rt, "memory");
    let text = text.as_str().replace(rt.alloc(), '|', "\n");
    check(rt, text.expect(rt, "memory").as_str(), wanted);
}

fn check_form(rt: &(impl AllocGlobal + Abort + Eprint), form: &str, lines: &str) {
    for line in lines.lines() {
        let line = line.trim();
        if let Some(name) = line.strip_prefix("== ") {
            eprintln!(rt; "{name}").expect(rt, "standard error");
        } else if !line.is_empty() {
            check_line(rt, form, line);
        }
    }
}

fn check_all(rt: &(impl AllocGlobal + Abort + Eprint), table: &str) {
    for block in table.split("< ") {
        let (form, lines) = block.split_once('\n').unwrap_or((block, ""));
        check_form(rt, form, lines);
    }
}

#[test]
fn each_fault_is_told(rt: HostRuntime) {
    check_all(&rt, FAULTS);
    assert_eq!(&rt; answer(&rt, b"version = 1 #\xff").as_str(), "NotToml");
}

// What is told of a type with this base.
fn check_base(rt: &(impl AllocGlobal + Abort), base: &str, is_one: bool) {
    let text = format!(in rt.alloc(); "version = 2\ntypes = [{{ id = 'd', base = '{base}' }}]");
    let fault = format!(in rt.alloc(); "BadPath({base})").expect(rt, "memory");
    let wanted = if is_one { "read" } else { fault.as_str() };
    check(rt, text.expect(rt, "memory").as_str(), wanted);
}

#[test]
fn a_base_has_8_names_and_300_bytes_at_most(rt: HostRuntime) {
    check_base(&rt, "1/2/3/4/5/6/7/8", true);
    check_base(&rt, "1/2/3/4/5/6/7/8/9", false);
    let name = "n".repeat(rt.alloc(), 59).expect(&rt, "memory");
    let base = format!(in rt.alloc(); "{name}/{name}/{name}/{name}/{name}").expect(&rt, "memory");
    let longer = format!(in rt.alloc(); "{base}/").expect(&rt, "memory");
    assert_eq!(&rt; longer.len(), 300);
    check_base(
        &rt,
        format!(in rt.alloc(); "{base}n")
            .expect(&rt, "memory")
            .as_str(),
        true,
    );
    check_base(
        &rt,
        format!(in rt.alloc(); "{longer}n")
            .expect(&rt, "memory")
            .as_str(),
        false,
    );
}

// What is told of a document with a value in so many arrays, one in the other.
fn check_nested(rt: &(impl AllocGlobal + Abort), count: usize, inner: &str, wanted: &str) {
    let opened = "[".repeat(rt.alloc(), count).expect(rt, "memory");
    let closed = "]".repeat(rt.alloc(), count).expect(rt, "memory");
    let text = format!(in rt.alloc(); "version = 1\nx = {opened}{inner}{closed}");
    check(rt, text.expect(rt, "memory").as_str(), wanted);
}

// The document is at level 1, and the outermost array at level 2.
#[test]
fn values_lie_at_most_64_levels_deep(rt: HostRuntime) {
    for (count, inner, wanted) in [
        (63, "", "read"),
        (64, "", "Deep"),
        (62, "1", "read"),
        (62, "1.5", "Float"),
        (63, "1.5", "Deep"),
    ] {
        check_nested(&rt, count, inner, wanted);
    }
}
