// The text of a path, cut before its last name.
ghost use Rattle.std.specs.Prelude.{◌≡◌, ◌++◌, ◌∷◌, []};
ghost use Rattle.rel_paths.specs.Names.{names_of, IsHeldPath};
ghost use Rattle.tree_fs.specs.EntryName.{IsName};
ghost use Rattle.tree_fs.specs.Spot.{names_below, spot_of, spot_eq, is_entry};
ghost use Rattle.tree_mem.specs.Keys.{folder_names};

use tree_fs::Place;

// The text of the folder that a path lies in, and the last name.
pub(crate) fn split_last(text: &str) -> (&str, &str)
    requires { IsHeldPath text.now }
    ensures names { names_of text.now ≡ folder_names result.0.now ++ result.1.now ∷ [] }
    ensures good { IsName result.1.now }
{
    match text.rsplit_once('/') {
        Some(parts) => parts,
        None => ("", text),
    }
}

// The text of a place as a folder, which is empty for a root.
pub(crate) fn folder_text(at: &Place) -> &str
    ensures { folder_names result.now ≡ names_below at.now.rel }
{
    match &at.rel {
        Some(path) => path.text(),
        None => "",
    }
}

// Whether a place is an entry of the folder.
pub(crate) fn lies_in(at: &Place, folder: &Place) -> bool
    ensures { result ≡ is_entry (spot_of folder.now) (spot_of at.now) }
{
    match &at.rel {
        Some(path) => { at.root == folder.root && split_last(path.text()).0 == folder_text(folder) }
        None => false,
    }
}

// Whether two places are one.
pub(crate) fn is_one_place(at: &Place, other: &Place) -> bool
    ensures { result ≡ spot_eq (spot_of other.now) (spot_of at.now) }
{
    at == other
}
