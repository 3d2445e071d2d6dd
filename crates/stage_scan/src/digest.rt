// The digest of a file, read piece by piece.
ghost use Rattle.std.specs.Prelude.{◌≡◌, ◌<◌, ◌≤◌, IfOk, length, take};
ghost use Rattle.sha2.specs.Sha256.{sha256};
ghost use Rattle.tree_fs.specs.Spot.{spot_of};
ghost use Rattle.tree_fs.specs.Disk.{IsFile};
ghost use Rattle.tree_fs.specs.Parts.{bytes_at};
ghost use Rattle.tree_fs.specs.Story.{disk_of};
ghost use Rattle.fault_count.specs.Causes.{HasCause};
ghost use Rattle.tree_fs.specs.declared.tree.TreeError.TheVariants.{Failed};

use manifest_json::FileDigest;
use sha2::{Digest, Sha256};
use tree_fs::{Place, Tree, TreeError};

// The most bytes that are read at once.
const PIECE: u32 = 65_536;

// How many bytes to read where this many are left.
fn piece_of(left: u64) -> u32
    ensures within { result ≤ left }
    ensures some { 0 < left → 0 < result }
{
    if left < PIECE as u64 {
        left as u32
    } else {
        PIECE
    }
}

// The first bytes of a part, at most so many.
fn first_of(part: &[u8], most: u32) -> &[u8]
    ensures within { length result.now ≤ most }
    ensures same { length part.now ≤ most → result.now ≡ part.now }
    ensures front { result.now ≡ take (length result.now) part.now }
{
    if part.len() <= most as usize {
        part
    } else {
        &part[..most as usize]
    }
}

/// The SHA-256 digest of the bytes of the file at a place.
///
/// It reads 65,536 bytes at a time, and at most as many as the tree told for the file's size.
pub fn digest_of<T: Tree>(tree: &mut T, at: &Place) -> Result<FileDigest, TreeError>
    requires { T.tells → IsFile (disk_of (T.story tree.old)) (spot_of at.now) }
    ensures answer { T.tells → IfOk result (λ digest. digest.bytes ≡ sha256 (bytes_at (disk_of (T.story tree.old)) (spot_of at.now))) }
    ensures same { T.tells → T.story tree.new ≡ T.story tree.old }
    ensures cause { HasCause Failed (T.faults tree.old) (T.faults tree.new) result }
{
    let size = tree.size(at)?;
    let mut hasher = Sha256::new();
    let mut done = 0;
    while done < size {
        let most = piece_of(size - done);
        let read = tree.read_part(at, done, most)?;
        let part = first_of(&read, most);
        if part.is_empty() {
            break;
        }
        hasher.update(part);
        done += part.len() as u64;
    }
    Ok(FileDigest {
        bytes: hasher.finalize(),
    })
}
