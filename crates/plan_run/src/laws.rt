// What a command that carries out a plan relies on, each law as the contract of a call that does
// nothing.
ghost use Rattle.plan_run.specs.Laws.{SweptIsQuiet, SweptIsOpen, SweepsKeep, QuietLeads, QuietStops, QuietKeeps};
ghost use Rattle.plan_run.specs.Laws.{LaidOutIsNeeded, ExecutedIsQuiet, DeploysToEnd, DeploysAtStops, SettlesToEnd};
ghost use Rattle.plan_run.specs.Laws.{SettlesAtStops, PurgesToEnd, PurgesAtStops};

/// After the sweep of a disk that stands without an intent the disk is quiet, and nothing stands in
/// the way of a control place where nothing stood there before. Each step of the sweep keeps the
/// invariant of a history and the game folder without mods.
pub fn sweep_begins()
    ensures quiet { SweptIsQuiet }
    ensures open_places { SweptIsOpen }
    ensures keeps { SweepsKeep }
{}

/// Whatever a stop leaves of a quiet disk leads to the desk of that disk.
pub fn quiet_leads()
    ensures leads { QuietLeads }
    ensures stops { QuietStops }
    ensures keeps { QuietKeeps }
{}

/// A plan with the folders of a planner makes none but above its destinations.
pub fn folders_are_needed()
    ensures { LaidOutIsNeeded }
{}

/// After a plan was carried out the disk is quiet again.
pub fn executed_is_quiet()
    ensures { ExecutedIsQuiet }
{}

/// Where a plan leads to the desk of a deployment, that desk is there after the plan was carried
/// out, and it is the new one at every stop.
pub fn plan_deploys()
    ensures end { DeploysToEnd }
    ensures stops { DeploysAtStops }
{}

/// The same for a settlement.
pub fn plan_settles()
    ensures end { SettlesToEnd }
    ensures stops { SettlesAtStops }
{}

/// The same for a purge.
pub fn plan_purges()
    ensures end { PurgesToEnd }
    ensures stops { PurgesAtStops }
{}
