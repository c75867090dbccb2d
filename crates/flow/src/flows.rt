// A graph with a flow on its arcs.
ghost use Rattle.flow.specs.Scans.{Fits};

use graph::Row;

// The rows of a graph, and the flow of each of its arcs: cell k is that of arc k.
#[derive(Clone, Copy)]
pub struct Flow<'a> {
    pub rows: &'a [Row],
    pub arcs: &'a [u32],
    ghost fits: { Fits rows.now arcs.now },
}
