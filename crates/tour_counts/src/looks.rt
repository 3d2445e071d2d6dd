// What is counted of scans and of conflicts.
ghost use Rattle.std.specs.Prelude.{◌≡◌, ◌+◌, IfOk};
ghost use Rattle.tour_counts.specs.Looks.{file_count, is_why, decided_count};

use conflict_report::{PathReport, Why};
use stage_scan::Scan;
use std::alloc::AllocError;

/// The sum, where a count holds it.
pub(crate) fn sum_of(count: u64, more: u64) -> Result<u64, AllocError>
    ensures { IfOk result (λ sum. sum ≡ count + more) }
{
    match count.checked_add(more) {
        Some(sum) => Ok(sum),
        None => Err(AllocError),
    }
}

/// How many files these scans have. More than a count holds is answered as want of memory.
pub fn count_scanned(scans: &[Scan]) -> Result<u64, AllocError>
    ensures { IfOk result (λ count. count ≡ file_count scans.now) }
{
    let mut count: u64 = 0;
    for scan in scans {
        count = sum_of(count, scan.files.as_slice().len() as u64)?;
    }
    Ok(count)
}

fn is_decided(path: &PathReport, why: Why) -> bool
    ensures { result ≡ is_why why path.now.why }
{
    match (why, path.why) {
        (Why::Override, Why::Override) => true,
        (Why::Rule, Why::Rule) => true,
        (Why::Position, Why::Position) => true,
        _ => false,
    }
}

/// How many of these paths are decided so.
pub fn count_decided(paths: &[PathReport], why: Why) -> u64
    ensures { result ≡ decided_count why paths.now }
{
    paths.iter().filter(|path| is_decided(*path, why)).count() as u64
}
