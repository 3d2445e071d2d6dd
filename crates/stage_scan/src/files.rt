// Lists of files in path order.
ghost use Rattle.std.specs.Prelude.{◌≡◌, ◌↔◌, IsTrue, IfOk, IfNone, IfSome};
ghost use Rattle.std.specs.List.{AllByRecursion};
ghost use Rattle.rel_paths.specs.Names.{IsFreePath};
ghost use Rattle.stage_scan.specs.Files.{AreInPathOrder, AreFilePaths, HasSamePaths};

use rel_paths::RelPath;
use std::alloc::AllocError;
use std::marker::Model;

// Whether it is a user path that isn't reserved.
fn is_free(path: &RelPath) -> bool
    ensures { IsTrue result ↔ IsFreePath path.now }
{
    path.is_user() && !path.is_reserved()
}

fn are_in_path_order(paths: &[RelPath]) -> bool
    ensures { IsTrue result ↔ AreInPathOrder paths.now }
{
    paths.is_sorted_by(|a, b| a < b)
}

fn are_free(paths: &[RelPath]) -> bool
    ensures { IsTrue result ↔ AllByRecursion IsFreePath paths.now }
{
    paths.iter().all(is_free)
}

/// Paths of files: user paths that aren't reserved, in path order, each once.
#[derive(Drop)]
pub struct Files {
    paths: Vec<RelPath>,
}

impl Model for Files {
    ghost use Rattle.std.specs.Prelude.{ℕ, List};
    ghost use Rattle.stage_scan.specs.Files.{AreFilePaths};

    ghost Value = { List (List ℕ) };

    ghost view = { λ a. a.paths.items };

    ghost invariant = { λ a. AreFilePaths a.paths.items };
}

impl Files {
    /// These paths as they stand. They have to be in path order, each once, and free.
    pub fn new(paths: Vec<RelPath>) -> Files
        requires order { AreInPathOrder paths.items }
        requires free { AllByRecursion IsFreePath paths.items }
        ensures { result ≡ paths.items }
    {
        Files { paths }
    }

    /// These paths in path order, each once. They have to be free.
    pub fn sorted(mut paths: Vec<RelPath>) -> Result<Files, AllocError>
        requires { AllByRecursion IsFreePath paths.items }
        ensures order { IfOk result AreInPathOrder }
        ensures same { IfOk result (λ files. HasSamePaths paths.items files) }
    {
        paths.sort()?;
        paths.dedup();
        Ok(Files { paths })
    }

    /// These paths as they stand, where they are free and in path order, each once.
    pub fn checked(paths: Vec<RelPath>) -> Option<Files>
        ensures some { IfSome result (λ files. files ≡ paths.items) }
        ensures none { IfNone result (AreFilePaths paths.items → ⊥) }
    {
        if are_in_path_order(paths.as_slice()) && are_free(paths.as_slice()) {
            Some(Files { paths })
        } else {
            None
        }
    }

    /// The paths, in path order.
    pub fn as_slice(&self) -> &[RelPath]
        ensures same { result.now ≡ self.now }
        ensures order { AreInPathOrder self.now }
        ensures free { AllByRecursion IsFreePath self.now }
    {
        self.paths.as_slice()
    }
}
