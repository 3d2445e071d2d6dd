// The bytes of a control file, read piece by piece.
ghost use Rattle.std.specs.Prelude.{◌≡◌, ◌<◌, ◌≤◌, IfOk, length, take};
ghost use Rattle.tree_fs.specs.Texts.{control_spot};
ghost use Rattle.tree_fs.specs.Disk.{IsFile};
ghost use Rattle.tree_fs.specs.Parts.{bytes_at};
ghost use Rattle.tree_fs.specs.Story.{disk_of};
ghost use Rattle.fault_count.specs.Causes.{HasCause};
ghost use Rattle.tree_fs.specs.declared.tree.TreeError.TheVariants.{Failed};

use rel_paths::Control;
use std::alloc::Global;
use tree_fs::{Place, Tree, TreeError};

// The most bytes that are read at once.
const PIECE: u32 = 65_536;

// How many bytes to read where this many are left.
fn piece_of(left: u64) -> u32
    ensures within { result ≤ left }
    ensures some { 0 < left → 0 < result }
{
    if left < PIECE as u64 {
        left as u32
    } else {
        PIECE
    }
}

// The first bytes of a part, at most so many.
fn first_of(part: &[u8], most: u32) -> &[u8]
    ensures within { length result.now ≤ most }
    ensures same { length part.now ≤ most → result.now ≡ part.now }
{
    if part.len() <= most as usize {
        part
    } else {
        &part[..most as usize]
    }
}

/// The bytes of a control file, which has to be there where the tree tells its story.
///
/// It reads 65,536 bytes at a time, and at most as many as the tree told for the file's size.
pub fn control_bytes<T: Tree>(
    alloc: Global,
    tree: &mut T,
    which: Control,
) -> Result<Vec<u8>, TreeError>
    requires { T.tells → IsFile (disk_of (T.story tree.old)) (control_spot which) }
    ensures answer { T.tells →
        IfOk result (λ bytes.
        bytes.items ≡ bytes_at (disk_of (T.story tree.old)) (control_spot which)) }
    ensures same { T.tells → T.story tree.new ≡ T.story tree.old }
    ensures cause { HasCause Failed (T.faults tree.old) (T.faults tree.new) result }
{
    let at = Place::control(which);
    let size = tree.size(&at)?;
    let mut bytes = Vec::new(alloc);
    let mut done = 0;
    while done < size {
        let most = piece_of(size - done);
        let read = tree.read_part(&at, done, most)?;
        let part = first_of(&read, most);
        if part.is_empty() {
            break;
        }
        bytes.extend_from_slice(part)?;
        done += part.len() as u64;
    }
    Ok(bytes)
}
