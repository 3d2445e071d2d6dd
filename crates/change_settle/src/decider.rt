// Who decides what is done about each change.
ghost use Rattle.std.specs.Prelude.{◌≡◌, true};
ghost use Rattle.change_choices.specs.Allowed.{is_allowed};
ghost use Rattle.change_choices.specs.Choice.{choice};
ghost use Rattle.change_choices.specs.declared.choices.Choices.{Choices};
ghost use Rattle.change_settle.specs.Decides.{GivesChoice, GivesSome};

use change_choices::{Action, Choices, Class};
use rel_paths::RelPath;

/// What is done about each change, by a stored callback that gives the answer of choices. It is
/// called with the text of the path.
#[derive(Drop)]
pub struct Decider<F> {
    choose: F,
}

impl<F: Fn(&str, Class) -> Action> Decider<F> {
    /// Keeps a callback that gives the answer of these choices.
    pub fn new(choices: &Choices, choose: F) -> Decider<F>
        requires callable { F.IsAlwaysCallable choose }
        requires answers { GivesChoice (F.post choose) choices.now }
        ensures kept { result.choose ≡ choose }
        ensures answers { GivesChoice (F.post result.choose) choices.now }
        ensures some { GivesSome (F.post result.choose) }
    {
        let _ = choices.gone;
        Decider { choose }
    }

    /// The choice for a path whose change is of this class.
    pub fn decide(&self, path: &RelPath, class: Class) -> Action
        requires { F.IsAlwaysCallable self.now.choose }
        ensures choice { (choices : Choices) → GivesChoice (F.post self.now.choose) choices
            → result ≡ choice choices path.now class }
        ensures allowed { (choices : Choices) → GivesChoice (F.post self.now.choose) choices
            → is_allowed class result ≡ true }
    {
        (self.choose)(path.text(), class)
    }
}
