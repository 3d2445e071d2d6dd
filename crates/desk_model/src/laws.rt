// The laws of the definitions, each as the contract of a call that does nothing.
ghost use Rattle.std.specs.Prelude.{List};
ghost use Rattle.tree_fs.specs.declared.op.Op.{Op};
ghost use Rattle.tree_fs.specs.Disk.{Disk};
ghost use Rattle.desk_model.specs.History.{History, CallsKeep, Follows};
ghost use Rattle.desk_model.specs.Laws.{RestStands, FewerStand, ImagesStand, ImagesAgree, StepsAgree, IntentsChange};
ghost use Rattle.desk_model.specs.Laws.{MidIsKept, ImagesKeepMid, StopsKeep, StopsKeepPlain, OthersKeep, OthersCarry};
ghost use Rattle.desk_model.specs.Laws.{SettledRestages, SettledIsClean, DeployedOnce, SettledOnce, PurgedOnce};
ghost use Rattle.desk_model.specs.Laws.{EditedOnce};

/// On a disk without an intent, with nothing pending and every file firm, the invariant holds.
pub fn rest_stands()
    ensures { RestStands }
{}

/// A disk that stands does so where its places may hold less.
pub fn fewer_stand()
    ensures { FewerStand }
{}

/// Each disk that a stop may leave of a standing one stands, and with the profile's place settled
/// has the outcome that its value of the intent place had.
pub fn images_stand()
    ensures stand { ImagesStand }
    ensures agree { ImagesAgree }
{}

/// A step from a standing disk to a standing one that only adds values or only takes some away
/// keeps the outcome of each value of the intent place.
pub fn steps_agree()
    ensures { StepsAgree }
{}

/// A new value of the intent place: where the disk with it stands, the disks before it and after it
/// stand too, and the outcomes are kept.
pub fn intents_change()
    ensures { IntentsChange }
{}

/// What has been carried out of a plan is kept by stops, and where places may hold less.
pub fn mid_is_kept()
    ensures fewer { MidIsKept }
    ensures images { ImagesKeepMid }
{}

/// A stop keeps the invariant of a history, and the game folder without mods that recovery leads
/// to.
pub fn stops_keep()
    ensures invariant { StopsKeep }
    ensures plain { StopsKeepPlain }
{}

/// A change by others keeps the invariant of a history, and carries the game folder without mods
/// that recovery leads to.
pub fn others_keep()
    ensures invariant { OthersKeep }
    ensures plain { OthersCarry }
{}

/// A settlement leaves at each row's staged place the found file or the one that was there, and a
/// staged file that goes stands aside.
pub fn settled_restages()
    ensures { SettledRestages }
{}

/// After a settlement every row is clean.
pub fn settled_is_clean()
    ensures { SettledIsClean }
{}

/// What a deployment, a settlement, a purge and an edit lead to is one desk each.
pub fn desks_are_one()
    ensures deployed { DeployedOnce }
    ensures settled { SettledOnce }
    ensures purged { PurgedOnce }
    ensures edited { EditedOnce }
{}

/// A program, by the steps that its calls may add at a disk.
pub trait Calls {
    ghost runs: { Disk → List Op → Type 0 };
}

/// Along each history of a program whose calls keep the invariant, the invariant holds, and recovery
/// leads to the game folder without mods as the user left it.
pub fn histories_follow<C: Calls>()
    ensures { CallsKeep C.runs → (d : Disk) (h : History C.runs d) → Follows C.runs d h }
{}
