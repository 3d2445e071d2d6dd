// The laws of a deployment's plan, each as the contract of a call that does nothing.
ghost use Rattle.deploy_plan.specs.Laws.{DeployLeads, DeploySound, DeployOnce, WalkLaysOut, WalkInOrder, MadeForWins};
ghost use Rattle.deploy_plan.specs.Laws.{OnlyOwnGo, RowsAreKept, OwnIsKept, NoneIsFirst, FirstIsOne, TurnedOrNone};
ghost use Rattle.deploy_plan.specs.Laws.{ObstacleOrNone};
ghost use Rattle.deploy_plan.specs.Scanned.{SourcesBelong, WinnersHaveSources, WinnersAreStaged};

/// The plan of a deployment leads to its desk.
pub fn deploy_leads()
    ensures { DeployLeads }
{}

/// The plan of a deployment is sound.
pub fn deploy_sound()
    ensures { DeploySound }
{}

/// A deployment has one plan.
pub fn deploy_once()
    ensures { DeployOnce }
{}

/// The lists of the walk over old rows and winners say what a deployment moves.
pub fn walk_lays_out()
    ensures { WalkLaysOut }
{}

/// The sets of the walk are in order.
pub fn walk_in_order()
    ensures { WalkInOrder }
{}

/// A plan of a deployment makes the folders that are missing above new winners, and takes off old
/// own folders alone.
pub fn folders_by_wins()
    ensures made { MadeForWins }
    ensures off { OnlyOwnGo }
{}

/// The new rows and own folders can be those of a manifest.
pub fn manifest_is_kept()
    ensures rows { RowsAreKept }
    ensures own { OwnIsKept }
{}

/// Where nothing refuses the plan, no reason is the first; otherwise at most one is.
pub fn one_is_first()
    ensures none { NoneIsFirst }
    ensures one { FirstIsOne }
{}

/// No winning path is turned, or one is the first that is. Nothing is in the way of a path, or one
/// thing is the first.
pub fn first_or_none()
    ensures turned { TurnedOrNone }
    ensures walk { ObstacleOrNone }
{}

/// What the winners of scans bring with them: each file is at the target of its source, each winner
/// has a source, and each such source is a file on the disk that was scanned.
pub fn winners_are_scanned()
    ensures belong { SourcesBelong }
    ensures from { WinnersHaveSources }
    ensures staged { WinnersAreStaged }
{}
