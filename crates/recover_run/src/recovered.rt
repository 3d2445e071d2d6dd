// What recovery tells.
ghost use Rattle.std.specs.Prelude.{◌≡◌, length};
ghost use Rattle.recover_run.specs.declared.recovered.Recovered.TheVariants.{Finished};

use move_plan::Plan;

/// What recovery tells.
#[derive(Clone, Copy, Debug, PartialEq, Eq)]
pub enum Recovered {
    /// No intent stood: no command was stopped.
    Nothing,
    /// An intent was carried to its end. The counts are those of its plan, also where sets or
    /// clears of it were done before. A plan whose saves and sets were done has no sets.
    Finished { sets: u64, clears: u64 },
}

// The counts of a plan.
pub(crate) fn finished(plan: &Plan) -> Recovered
    ensures { result ≡ Finished (length plan.now.sets) (length plan.now.clears) }
{
    Recovered::Finished {
        sets: plan.sets.as_slice().len() as u64,
        clears: plan.clears.as_slice().len() as u64,
    }
}
