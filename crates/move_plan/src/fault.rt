// Why a plan isn't sound.
/// The first rule of a plan, of nine, that fails, and the first entry that fails it.
#[derive(Clone, Copy, Debug, PartialEq, Eq)]
pub struct PlanFault {
    /// The number of the rule, from 1 to 9.
    pub rule: u8,
    /// The index of the entry in its list, from 0.
    pub index: u64,
}
