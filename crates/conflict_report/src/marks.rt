// Relations between nodes, marked pair by pair.
ghost use Rattle.std.specs.Prelude.{◌≡◌, ◌<◌, ◌^◌, ◌↔◌, IsTrue, IfOk};
ghost use Rattle.conflict_report.specs.Relations.{Holds, HoldsNowhere, GrowsBy};

use crate::relation::Relation;
use std::alloc::{AllocError, Global};

impl Relation {
    /// The relation between this many nodes that holds nowhere.
    pub(crate) fn none(alloc: Global, count: u32) -> Result<Relation, AllocError>
        ensures count { IfOk result (λ relation. relation.count ≡ count) }
        ensures none { IfOk result HoldsNowhere }
    {
        let side = count as usize;
        let marks = vec![in alloc; false; side * side]?;
        Ok(Relation { count, marks })
    }

    /// Whether the relation holds from the first node to the second.
    pub(crate) fn has(&self, first: u32, second: u32) -> bool
        requires first { first < self.now.count }
        requires second { second < self.now.count }
        ensures { IsTrue result ↔ Holds self.now first second }
    {
        self.marks[first as usize * self.count as usize + second as usize]
    }

    /// Lets the relation hold from the first node to the second.
    pub(crate) fn add(&mut self, first: u32, second: u32)
        requires first { first < self.old.count }
        requires second { second < self.old.count }
        ensures { GrowsBy self.old self.new (λ a b. (a ≡ first) × (b ≡ second)) }
    {
        let place = first as usize * self.count as usize + second as usize;
        self.marks[place] = true;
    }

    /// Lets the relation hold from the first node to all that it holds to from the second.
    pub(crate) fn join(&mut self, first: u32, second: u32)
        requires first { first < self.old.count }
        requires second { second < self.old.count }
        ensures { GrowsBy self.old self.new (λ a b. (a ≡ first) × Holds self.old second b) }
    {
        let count = self.count;
        for node in 0..count {
            if self.has(second, node) {
                self.add(first, node);
            }
        }
    }
}
