// Looking up paths in lists that are in their order.
ghost use Rattle.std.specs.Prelude.{◌↔◌, ◌≡◌, IsTrue, IfOk, map};
ghost use Rattle.std.specs.List.{Contains};
ghost use Rattle.manifest_json.specs.Paths.{AreRising};
ghost use Rattle.winner_table.specs.Folders.{IsFolderOf, IsFirstNotBelow};
ghost use Rattle.plan_lists.specs.Search.{AreFalling};

use manifest_json::Row;
use rel_paths::RelPath;
use std::alloc::{AllocError, Global};

/// What has a path, by which it stands in its list.
pub trait Pathed {
    ghost use Rattle.std.specs.Prelude.{List, ℕ};

    ghost path: { Self → List ℕ };

    fn path(&self) -> &RelPath
        ensures { result.now ≡ path self.now };
}

impl Pathed for RelPath {
    ghost path = { λ p. p };

    fn path(&self) -> &RelPath {
        self
    }
}

impl Pathed for Row {
    ghost path = { λ row. row.path };

    fn path(&self) -> &RelPath {
        &self.path
    }
}

/// Whether one of these, which are in path order, has the path with this text.
pub fn has_text<T: Pathed>(items: &[T], text: &str) -> bool
    requires { AreRising (map T.path items.now) }
    ensures { IsTrue result ↔ Contains (map T.path items.now) text.now }
{
    items
        .binary_search_by(|item| item.path().text().cmp(text))
        .is_ok()
}

/// The same of paths that stand from the last to the first.
pub fn has_text_falling(paths: &[RelPath], text: &str) -> bool
    requires { AreFalling paths.now }
    ensures { IsTrue result ↔ Contains paths.now text.now }
{
    paths.binary_search_by(|path| text.cmp(path.text())).is_ok()
}

// The index of the first one whose path isn't below this text.
fn first_from<T: Pathed>(items: &[T], text: &str) -> usize
    requires { AreRising (map T.path items.now) }
    ensures { IsFirstNotBelow text.now (map T.path items.now) result }
{
    items.partition_point(|item| item.path().text() < text)
}

/// Whether the path of one of these lies below this path. The least text of what lies below it is
/// that of the path and a slash.
pub fn has_below<T: Pathed>(alloc: Global, items: &[T], path: &RelPath) -> Result<bool, AllocError>
    requires { AreRising (map T.path items.now) }
    ensures { IfOk result (λ found. IsTrue found ↔ IsFolderOf (map T.path items.now) path.now) }
{
    let text = format!(in alloc; "{}/", path.text())?;
    match items.get(first_from(items, text.as_str())) {
        None => Ok(false),
        Some(item) => Ok(item.path().starts_with(path)),
    }
}
