// The laws of a purge's plan, each as the contract of a call that does nothing.
ghost use Rattle.purge_run.specs.Laws.{PurgeLeads, PurgeSound, PurgeOnce, PurgeIsOne, PurgeWalks, SetsInOrder};
ghost use Rattle.purge_run.specs.Laws.{SavesInOrder, MadeForAsides, OnlyOwnGo, NoneIsFirst, FirstIsOne};

/// The plan of a purge leads to its desk.
pub fn purge_leads()
    ensures { PurgeLeads }
{}

/// The plan of a purge is sound.
pub fn purge_sound()
    ensures { PurgeSound }
{}

/// A purge has one plan, and so it has with each aside number.
pub fn purge_once()
    ensures once { PurgeOnce }
    ensures one { PurgeIsOne }
{}

/// The lists of one pass over the rows say what a purge moves.
pub fn purge_walks()
    ensures { PurgeWalks }
{}

/// The lists of the pass are in order.
pub fn pass_in_order()
    ensures sets { SetsInOrder }
    ensures saves { SavesInOrder }
{}

/// A plan of a purge makes the folders that are missing above what is set aside, and takes off old
/// own folders alone.
pub fn folders_by_rows()
    ensures made { MadeForAsides }
    ensures off { OnlyOwnGo }
{}

/// Where nothing refuses the plan, no reason is the first; otherwise at most one is.
pub fn one_is_first()
    ensures none { NoneIsFirst }
    ensures one { FirstIsOne }
{}
