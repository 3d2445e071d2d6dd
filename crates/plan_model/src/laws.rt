// The laws of plans, each as the contract of a call that does nothing.
ghost use Rattle.plan_model.specs.Laws.{GoesByEntries};

/// Which folders go is told by their entries.
pub fn goes_by_entries()
    ensures { GoesByEntries }
{}
