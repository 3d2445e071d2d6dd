// The change at a path.
ghost use Rattle.std.specs.Prelude.{◌≡◌, IfSome, Some, option_map};
ghost use Rattle.std.specs.List.{Contains};
ghost use Rattle.manifest_json.specs.Paths.{AreRising};
ghost use Rattle.change_detect.specs.Changes.{change_paths};
ghost use Rattle.change_detect.specs.declared.changes.Change.{Change};

use change_detect::Change;

/// The change whose path has this text, of changes in path order.
pub(crate) fn change_at<'a>(changes: &'a [Change], text: &str) -> Option<&'a Change>
    requires { AreRising (change_paths changes.now) }
    ensures among { IfSome result (λ c. Contains changes.now c.now) }
    ensures path { IfSome result (λ c. c.now.path ≡ text.now) }
    ensures alone { (c : Change) → Contains changes.now c → c.path ≡ text.now
        → option_map (λ found. found.now) result ≡ Some c }
{
    match changes.binary_search_by(|change| change.path.text().cmp(text)) {
        Ok(index) => Some(&changes[index]),
        Err(_) => None,
    }
}
