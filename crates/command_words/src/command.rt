// Commands.
use change_choices::Choices;
use profile_edit::Edit;

/// What the words of a command line ask for.
#[derive(Drop)]
pub enum Command {
    /// Tells the load order.
    Order,
    /// Tells which mod wins each path.
    Winners,
    /// Tells the paths that several mods provide.
    Conflicts,
    /// Tells what a deployment would move.
    Plan,
    /// Deploys the mods.
    Deploy,
    /// Tells what others changed.
    Check,
    /// Tells what is deployed, and whether a command was stopped.
    Status,
    /// Settles what others changed.
    Settle {
        /// What is done about which change. The words say nothing of single paths.
        choices: Choices,
        /// Whether the input has actions for single paths.
        from_input: bool,
    },
    /// Takes the deployment away.
    Purge,
    /// Ends a command that was stopped.
    Recover,
    /// Edits the profile.
    Edit(Edit),
    /// Does the commands of the input's lines.
    Batch,
    /// Tells figures of the sample world with this number.
    Sample(u64),
}
