// The temps, and the places that they come to.
ghost use Rattle.std.specs.Prelude.{◌≡◌};
ghost use Rattle.tree_fs.specs.Spot.{spot_of};
ghost use Rattle.intent_journal.specs.Temps.{temp_spot, place_spot};
ghost use Rattle.intent_journal.specs.Sweeps.{temp_at};

use rel_paths::Control;
use tree_fs::Place;

/// A file that is written beside its place, so that a stop leaves the old bytes there or the new
/// ones.
#[derive(Clone, Copy, Debug, PartialEq, Eq)]
pub enum Temp {
    /// `keep/intent.tmp`, for `keep/intent.json`.
    Intent,
    /// `keep/manifest.tmp`, for `game/vortex.deployment.json`.
    Manifest,
    /// `keep/profile.tmp`, for `keep/profile.toml`.
    Profile,
}

// Where the temp is written.
pub(crate) fn temp_place(which: Temp) -> Place
    ensures place { result ≡ temp_at which }
    ensures spot { spot_of result ≡ temp_spot which }
{
    match which {
        Temp::Intent => Place::control(Control::IntentTemp),
        Temp::Manifest => Place::control(Control::ManifestTemp),
        Temp::Profile => Place::control(Control::ProfileTemp),
    }
}

// The place that the temp is for.
pub(crate) fn own_place(which: Temp) -> Place
    ensures { spot_of result ≡ place_spot which }
{
    match which {
        Temp::Intent => Place::control(Control::Intent),
        Temp::Manifest => Place::control(Control::Manifest),
        Temp::Profile => Place::control(Control::Profile),
    }
}
