// Winners by their paths, and paths below those of a list.
ghost use Rattle.std.specs.Prelude.{◌↔◌, ◌≡◌, IsTrue, map};
ghost use Rattle.manifest_json.specs.Paths.{AreRising};
ghost use Rattle.deploy_plan.specs.Search.{IsBelowOne};

use crate::wins::Won;
use plan_lists::{Pathed, has_text};
use rel_paths::RelPath;

impl<'a> Pathed for Won<'a> {
    ghost path = { λ win. win.path.now };

    fn path(&self) -> &RelPath {
        self.path
    }
}

/// Whether this path lies below that of one of these.
pub(crate) fn lies_below<T: Pathed>(items: &[T], path: &RelPath) -> bool
    requires { AreRising (map T.path items.now) }
    ensures { IsTrue result ↔ IsBelowOne (map T.path items.now) path.now }
{
    let mut rest = path.text();
    while let Some((above, _)) = rest.rsplit_once('/') {
        if has_text(items, above) {
            return true;
        }
        rest = above;
    }
    false
}
