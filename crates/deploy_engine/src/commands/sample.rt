// `sample`: makes a large valid world from a number, tours it, and tells what it counted.
ghost use Rattle.std.specs.Prelude.{◌≡◌, ◌≢◌, ◌⊎◌, false, IfOk, IfErr, IsErrOf};
ghost use Rattle.command_steps.specs.Stops.{IsFault};
ghost use Rattle.deploy_engine.specs.SampleWork.{PrintsSample, StopsSample};

use crate::Limits;
use crate::commands::Report;
use crate::touring::take_tour;
use command_steps::Stop;
use sample_world::make;
use std::alloc::Global;
use tour_counts::tour_lines;

// Why the sample stops where its tour does. No call on its own world is to fail.
fn own_stop(stop: Stop) -> Stop
    ensures same { IsFault result ⊎ (result ≡ stop) }
    ensures calm { result ≢ Stop.TreeFault }
{
    match stop {
        Stop::Refused(refusal) => Stop::Refused(refusal),
        Stop::RecoverFirst => Stop::RecoverFirst,
        Stop::TreeFault | Stop::Memory => Stop::Memory,
    }
}

/// Tours the sample of a number, which is a world of its own in memory.
pub(crate) fn tell_sample(alloc: Global, number: u64) -> Result<Report, Stop>
    ensures lines { IfOk result (λ report. PrintsSample number report.lines.items) }
    ensures changes { IfOk result (λ report. report.changes ≡ false) }
    ensures stopped { IfErr result (λ stop. IsFault stop ⊎ StopsSample number stop) }
    ensures calm { IsErrOf result Stop.TreeFault → ⊥ }
{
    let mut world = make(alloc, number)?;
    let tour = match take_tour(alloc, &Limits::usual(), &mut world) {
        Ok(tour) => tour,
        Err(stop) => return Err(own_stop(stop)),
    };
    let lines = tour_lines(alloc, &tour)?;
    Ok(Report {
        lines,
        changes: false,
    })
}
