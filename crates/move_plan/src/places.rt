// Tests of single places.
ghost use Rattle.std.specs.Prelude.{◌≡◌, length};
ghost use Rattle.std.specs.List.{list_all};
ghost use Rattle.rel_paths.specs.Names.{names_of, is_good_byte, is_name_within};
ghost use Rattle.tree_fs.specs.declared.place.Root.TheVariants.{Keep};
ghost use Rattle.move_plan.specs.Tests.{lies_at, is_free, is_free_below, is_user_text, is_backup, is_keeping};

use rel_paths::{Control, RelPath};
use tree_fs::{Place, Root};

// Whether the path is that of the control place, or lies below it.
fn lies_at(which: Control, path: &RelPath) -> bool
    ensures { result ≡ lies_at which path.now }
{
    path.starts_with(&RelPath::control(which))
}

// Whether it is no root and no control place, and lies below no control place.
pub(crate) fn is_free(place: &Place) -> bool
    ensures { result ≡ is_free place.now }
{
    let Some(path) = &place.rel else {
        return false;
    };
    match place.root {
        Root::Stage => true,
        Root::Game => !lies_at(Control::Manifest, path),
        Root::Keep => is_free_in_keep(path),
    }
}

fn is_free_in_keep(path: &RelPath) -> bool
    ensures { result ≡ is_free_below Keep path.now }
{
    !lies_at(Control::Intent, path)
        && !lies_at(Control::IntentTemp, path)
        && !lies_at(Control::ManifestTemp, path)
        && !lies_at(Control::ProfileTemp, path)
        && !lies_at(Control::Profile, path)
}

// Whether it is the backup place of a path, or a place below the aside folder.
pub(crate) fn is_keeping(place: &Place) -> bool
    ensures { result ≡ is_keeping place.now }
{
    let Some(path) = &place.rel else {
        return false;
    };
    match place.root {
        Root::Stage => false,
        Root::Game => is_backup(path.text()),
        Root::Keep => path.text().starts_with("aside/"),
    }
}

// Whether a text is that of a user path's backup.
fn is_backup(path: &str) -> bool
    ensures { result ≡ is_backup path.now }
{
    match path.strip_suffix(".vortex_backup") {
        None => false,
        Some(front) => is_user_text(front),
    }
}

// Whether a text is that of a user path.
fn is_user_text(text: &str) -> bool
    ensures { result ≡ is_user_text text.now }
{
    !text.is_empty() && text.len() <= 1024 && count_names(text) <= 64 && has_user_names(text)
}

fn count_names(text: &str) -> usize
    ensures { result ≡ length (names_of text.now) }
{
    text.split('/').count()
}

fn has_user_names(text: &str) -> bool
    ensures { result ≡ list_all (is_name_within 240) (names_of text.now) }
{
    text.split('/').all(is_user_name)
}

fn is_user_name(name: &str) -> bool
    ensures { result ≡ is_name_within 240 name.now }
{
    !name.is_empty()
        && name != "."
        && name != ".."
        && has_good_bytes(name.as_bytes())
        && name.len() <= 240
}

fn has_good_bytes(name: &[u8]) -> bool
    ensures { result ≡ list_all is_good_byte name.now }
{
    name.iter()
        .all(|b| *b >= 32 && *b != b'/' && *b != b'\\' && *b != 127)
}
