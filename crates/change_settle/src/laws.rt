// The laws of a settlement's plan, each as the contract of a call that does nothing.
ghost use Rattle.change_settle.specs.Laws.{SettleLeads, SettleSound, SettleOnce, SettleWalks, MadeForFiles, OnlyOwnGo};
ghost use Rattle.change_settle.specs.Laws.{RowsAreKept, OwnIsKept, NoneIsFirst, FirstIsOne};

/// The plan of a settlement leads to its desk.
pub fn settle_leads()
    ensures { SettleLeads }
{}

/// The plan of a settlement is sound.
pub fn settle_sound()
    ensures { SettleSound }
{}

/// A settlement with its aside number has one plan.
pub fn settle_once()
    ensures { SettleOnce }
{}

/// The lists of one pass over the rows say what a settlement moves.
pub fn settle_walks()
    ensures { SettleWalks }
{}

/// A plan of a settlement makes the folders that are missing above what is put back or set aside,
/// and takes off old own folders alone.
pub fn folders_by_rows()
    ensures made { MadeForFiles }
    ensures off { OnlyOwnGo }
{}

/// What a plan leaves of rows and own folders can be a manifest.
pub fn manifest_is_kept()
    ensures rows { RowsAreKept }
    ensures own { OwnIsKept }
{}

/// Where nothing refuses the plan, no reason is the first; otherwise at most one is.
pub fn one_is_first()
    ensures none { NoneIsFirst }
    ensures one { FirstIsOne }
{}
