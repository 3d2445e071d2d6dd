// The places that the program keeps for itself.
ghost use Rattle.std.specs.Prelude.{◌≡◌};
ghost use Rattle.rel_paths.specs.Controls.{control_order};

/// A place that the program keeps for itself. The manifest lies in `game`, the others in `keep`.
#[derive(Clone, Copy, Debug, PartialEq, Eq)]
pub enum Control {
    /// `keep/intent.json`
    Intent,
    /// `keep/intent.tmp`
    IntentTemp,
    /// `keep/manifest.tmp`
    ManifestTemp,
    /// `keep/profile.tmp`
    ProfileTemp,
    /// `keep/profile.toml`
    Profile,
    /// `game/vortex.deployment.json`
    Manifest,
}

static IN_ORDER: [Control; 6] = [
    Control::Intent,
    Control::IntentTemp,
    Control::ManifestTemp,
    Control::ProfileTemp,
    Control::Profile,
    Control::Manifest,
];

impl Control {
    /// The control places in their order. Where several are in the way, the first is told.
    pub fn in_order() -> &'static [Control]
        ensures { result.now ≡ control_order }
    {
        &IN_ORDER
    }
}
