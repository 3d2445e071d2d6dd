// Which path extends an earlier one, of paths that come in order.
ghost use Rattle.std.specs.Prelude.{◌≡◌, map, reverse};
ghost use Rattle.rel_paths.specs.Names.{extends};
ghost use Rattle.manifest_json.specs.Stack.{still_open, extends_first};

// Whether the path has the names of the other and then more.
#[tactic(auto, unfolding(rel_paths::specs::Names::extends))]
fn extends(path: &str, other: &str) -> bool
    ensures { result ≡ extends path.now other.now }
{
    match path.strip_prefix(other) {
        None => false,
        Some(rest) => rest.starts_with('/'),
    }
}

// Takes off the last texts up to one that the path begins with.
pub(crate) fn close(stack: &mut Vec<&str>, path: &str)
    ensures { reverse (map (λ t. t.now) stack.new.items) ≡ still_open path.now (reverse (map (λ t. t.now) stack.old.items)) }
{
    while let Some(text) = stack.last() {
        if path.as_bytes().starts_with(text.as_bytes()) {
            break;
        }
        stack.pop();
    }
}

// Whether the path extends the last text.
pub(crate) fn extends_last(stack: &[&str], path: &str) -> bool
    ensures { result ≡ extends_first path.now (reverse (map (λ t. t.now) stack.now)) }
{
    match stack.last() {
        None => false,
        Some(text) => extends(path, text),
    }
}
