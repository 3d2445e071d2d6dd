// What stands at the folders above files that are put back.
ghost use Rattle.std.specs.Prelude.{◌≡◌, IfOk, OnOk, map};
ghost use Rattle.fault_count.specs.Causes.{HasCause};
ghost use Rattle.std.specs.List.{Contains};
ghost use Rattle.tree_fs.specs.Spot.{Spot, spot_of};
ghost use Rattle.tree_fs.specs.Story.{disk_of};
ghost use Rattle.tree_fs.specs.declared.tree.TreeError.TheVariants.{Failed};
ghost use Rattle.change_settle.specs.Above.{AreLooked};
ghost use Rattle.change_settle.specs.Looks.{missing_with, blocked_with};

use std::alloc::{AllocError, Global};
use tree_fs::{Kind, Place, Tree, TreeError};

/// Folders that were looked at.
#[derive(Drop)]
pub(crate) struct Looked {
    /// Those that are missing.
    pub missing: Vec<Place>,
    /// Those at which something else stands.
    pub blocked: Vec<Place>,
}

impl Looked {
    fn note(&mut self, place: &Place, kind: Kind) -> Result<(), AllocError>
        ensures missing { OnOk result (self.new.missing.items
            ≡ missing_with kind place.now self.old.missing.items) }
        ensures blocked { OnOk result (self.new.blocked.items
            ≡ blocked_with kind place.now self.old.blocked.items) }
    {
        match kind {
            Kind::Folder => {}
            Kind::Absent => self.missing.push(place.copy()?)?,
            Kind::File | Kind::Other => self.blocked.push(place.copy()?)?,
        }
        Ok(())
    }
}

/// Looks at each of these folders, once.
pub(crate) fn look_at<T: Tree>(
    alloc: Global,
    tree: &mut T,
    folders: &[Place],
) -> Result<Looked, TreeError>
    ensures looked { T.tells →
        IfOk result (λ l. AreLooked (disk_of (T.story tree.old)) (map spot_of folders.now)
        (map spot_of l.missing.items) (map spot_of l.blocked.items)) }
    ensures among { IfOk result (λ l. (s : Spot) → Contains (map spot_of l.missing.items) s
        → Contains (map spot_of folders.now) s) }
    ensures same { T.tells → T.story tree.new ≡ T.story tree.old }
    ensures cause { HasCause Failed (T.faults tree.old) (T.faults tree.new) result }
{
    let mut looked = Looked {
        missing: Vec::new(alloc),
        blocked: Vec::new(alloc),
    };
    for place in folders {
        let kind = tree.kind(place)?;
        looked.note(place, kind)?;
    }
    Ok(looked)
}
