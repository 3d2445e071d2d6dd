// The order of paths, which counts its comparisons.
ghost use Rattle.std.specs.Prelude.{◌≡◌};

use crate::{Compare, Provided};
use rel_paths::RelPath;
use std::cmp::Ordering;

/// Compares paths by the bytes of their texts, and counts the comparisons.
#[derive(Drop)]
pub struct PathOrder {
    count: u128,
}

impl PathOrder {
    /// The order of paths, with no comparison made.
    pub fn new() -> PathOrder
        ensures { result.count ≡ 0 }
    {
        PathOrder { count: 0 }
    }

    /// How many comparisons were made.
    pub fn count(&self) -> u128
        ensures { result ≡ self.now.count }
    {
        self.count
    }
}

impl Compare<RelPath> for PathOrder {
    ghost key = { λ _ path. path };

    ghost count = { λ order. order.count };

    fn compare(&mut self, a: &RelPath, b: &RelPath) -> Ordering {
        self.count += 1;
        a.cmp(b)
    }
}

impl<'a> Compare<Provided<'a>> for PathOrder {
    ghost key = { λ _ item. item.path.now };

    ghost count = { λ order. order.count };

    fn compare(&mut self, a: &Provided<'a>, b: &Provided<'a>) -> Ordering {
        self.count += 1;
        a.path.cmp(b.path)
    }
}
