// What is kept of a relation between nodes.
ghost use Rattle.std.specs.Prelude.{◌≡◌, ◌*◌, length};

/// Which nodes stand in a relation to which: a mark for each pair of nodes below the count, row by
/// row.
#[derive(Drop)]
pub(crate) struct Relation {
    pub(crate) count: u32,
    pub(crate) marks: Vec<bool>,
    ghost square: { length marks.items ≡ count * count },
}
