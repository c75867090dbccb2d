// A graph as it is built.
ghost use Rattle.std.specs.Prelude.{◌≡◌, ◌≤◌, length};
ghost use Rattle.lists.specs.Entries.{entries};
ghost use Rattle.compile.specs.Growth.{capacity};

mod nodes;

use graph::Row;
use lists::list::List;

// The rows and the loads of its nodes: those of node n stand at place n. The memory for loads has at most 65,535 places.
// Its calls answer None where there is no room: an error with one reason would say no more.
// The kind is no field but a parameter: each method would have to promise that it left the kind as it was.
#[derive(Drop)]
pub(crate) struct Draft<'r, 'l, L> {
    pub(crate) rows: List<'r, Row>,
    pub(crate) loads: List<'l, L>,
    ghost paired: { length (entries rows) ≡ length (entries loads) },
    ghost few: { capacity loads ≤ 65535 },
}
