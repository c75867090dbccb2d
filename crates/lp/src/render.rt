// The model of a graph as text in given memory.
ghost use Rattle.std.specs.Prelude.{◌≡◌, ℕ, ◌≤◌, length, nat_le};
ghost use Rattle.graph.specs.Graph.{Layered};
ghost use Rattle.flow.specs.Model.{model};
ghost use Rattle.flow.specs.Text.{text};
ghost use Rattle.lp.specs.Sinks.{Fills, Stands};

use crate::arcs::write_variables;
use crate::constraints::{write_item_rows, write_node_rows};
use crate::links::LinkedGraph;
use crate::sink::{Room, Sink, Writer};
use graph::{MAX_NODES, Row};

// The most arcs of a graph: two to a node.
const ARCS: usize = 2 * MAX_NODES;

fn write_model<S: Sink>(sink: &mut S, graph: LinkedGraph, demands: &[u32])
    ensures { S.took sink.old (text (model graph.entry.rows.now demands.now)) sink.new }
{
    sink.put(b"Minimize\n obj: z\nSubject To\n");
    write_node_rows(sink, graph);
    write_item_rows(sink, graph, demands);
    sink.put(b"Generals\n z");
    write_variables(sink, graph);
    sink.put(b"\nEnd\n");
}

// Whether the text of the model has room in so many bytes.
fn fits(graph: LinkedGraph, demands: &[u32], room: usize) -> bool
    ensures { result ≡ nat_le (length (text (model graph.entry.rows.now demands.now))) room }
{
    let mut measure = Room { left: Some(room) };
    write_model(&mut measure, graph, demands);
    measure.left.is_some()
}

// The text of the model at the start of memory that has room for it. Answers its length.
fn fill(graph: LinkedGraph, demands: &[u32], out: &mut [u8]) -> usize
    requires { length (text (model graph.rows.now demands.now)) ≤ length out.old }
    ensures { Stands (text (model graph.entry.rows.now demands.now)) out.old result out.new }
{
    let mut writer = Writer { out, at: 0 };
    write_model(&mut writer, graph, demands);
    writer.at
}

// The text is measured first, so that nothing is written where it does not fit.
fn fill_if_fits(graph: LinkedGraph, demands: &[u32], out: &mut [u8]) -> Option<usize>
    ensures { Fills (text (model graph.entry.rows.now demands.now)) out.old result out.new }
{
    if !fits(graph, demands, out.len()) {
        return None;
    }
    Some(fill(graph, demands, out))
}

// The text of the model at the start of `out`, and its length. None where `out` is too short, which then stays as it is.
pub fn model_text(rows: &[Row], demands: &[u32], out: &mut [u8]) -> Option<usize>
    requires few { length rows.now ≤ 65535 }
    requires layered { (m : ℕ) × Layered m rows.now }
    ensures { Fills (text (model rows.now demands.now)) out.old result out.new }
{
    let mut first = [0; MAX_NODES];
    let first = &mut first[..rows.len()];
    let mut next = [0; ARCS];
    let next = &mut next[..2 * rows.len()];
    fill_if_fits(LinkedGraph::new(rows, first, next), demands, out)
}
