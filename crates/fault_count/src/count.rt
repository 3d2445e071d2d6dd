// A count that stands still at its end.
ghost use Rattle.std.specs.Prelude.{◌≡◌, ◌<◌, ◌≤◌, ◌+◌, ◌-◌, ◌^◌, min};
ghost use Rattle.fault_count.specs.Rose.{Rose};

use std::marker::Model;

/// How often an object failed, from 0 to `u64::MAX`, where the count stands still.
#[derive(Drop)]
pub struct FaultCount {
    count: u64,
}

impl Model for FaultCount {
    ghost use Rattle.std.specs.Prelude.{ℕ};

    ghost Value = { ℕ };

    ghost view = { λ a. a.count };
}

impl FaultCount {
    /// No fault yet.
    pub fn new() -> FaultCount
        ensures { result ≡ 0 }
    {
        FaultCount { count: 0 }
    }

    /// How often the object failed.
    pub fn get(&self) -> u64
        ensures value { result ≡ self.now }
        ensures fits { result < 2 ^ 64 }
    {
        self.count
    }

    /// One fault more, where the count doesn't stand at its end.
    pub fn raise(&mut self)
        ensures next { self.new ≡ min (self.old + 1) (2 ^ 64 - 1) }
        ensures rose { Rose self.old self.new }
        ensures later { self.old ≤ self.new }
    {
        self.count = self.count.saturating_add(1);
    }
}
