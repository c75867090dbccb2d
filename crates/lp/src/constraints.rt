// The rows of the model, one for each node but the target and one for each item.
ghost use Rattle.std.specs.Prelude.{◌≡◌, ℕ, ◌+◌, ◌<◌, ◌≤◌, ◌++◌, length, codes, decimal};
ghost use Rattle.std.specs.List.{flat_map};
ghost use Rattle.graph.specs.Graph.{at};
ghost use Rattle.flow.specs.Arcs.{arcs_out, item_arcs};
ghost use Rattle.flow.specs.Model.{item_row, item_rows, node_row, node_rows, plus, supply};
ghost use Rattle.flow.specs.Text.{constraint, entries, term};
ghost use Rattle.lp.specs.Writing.{Begins, InOrder, NodesOf};

use crate::arcs::{Lead, line_break, write_arcs};
use crate::links::LinkedGraph;
use crate::sink::Sink;
use graph::{Row, head_of};
use std::ops::Range;

// What a row is about: its kind and its number.
fn write_label<S: Sink>(sink: &mut S, kind: &[u8], number: usize)
    ensures { S.took sink.old (kind.now ++ (decimal number ++ codes ":")) sink.new }
{
    sink.put(kind);
    sink.put_number(number);
    sink.put(b":");
}

// What leaves a node: its pass arc, then its take arc. Answers how many terms these are.
fn write_outgoing<S: Sink>(sink: &mut S, graph: LinkedGraph, node: usize) -> usize
    requires { node < length graph.rows.now }
    ensures took { S.took sink.old (entries term 0 (plus (arcs_out graph.entry.rows.now node))) sink.new }
    ensures count { result ≡ length (plus (arcs_out graph.entry.rows.now node)) }
    ensures at_most { result ≤ 2 }
{
    let rows = graph.rows;
    let arcs = (2 * node..2 * node + 2).filter(|arc| head_of(rows, *arc).is_some());
    write_arcs(sink, Lead::Added, 0, arcs)
}

// What comes into a node, after k other terms: at the source z, elsewhere its incoming arcs.
fn write_supply<S: Sink>(sink: &mut S, graph: LinkedGraph, node: usize, k: usize)
    requires there { node < length graph.rows.now }
    requires before { k ≤ 2 }
    ensures { S.took sink.old (entries term k (supply graph.entry.rows.now node)) sink.new }
{
    if node == 0 {
        sink.put(line_break(k));
        sink.put(b" - z");
    } else {
        write_arcs(sink, Lead::TakenOff, k, graph.incoming(node));
    }
}

fn write_node_row<S: Sink>(sink: &mut S, graph: LinkedGraph, node: usize)
    requires { node < length graph.rows.now }
    ensures { S.took sink.old (constraint (node_row graph.entry.rows.now node)) sink.new }
{
    write_label(sink, b" n", node);
    let k = write_outgoing(sink, graph, node);
    write_supply(sink, graph, node, k);
    sink.put(b" = 0\n");
}

// The number of a node is what is written, so the loop goes over the numbers. The target has no row.
pub(crate) fn write_node_rows<S: Sink>(sink: &mut S, graph: LinkedGraph)
    ensures { S.took sink.old (flat_map constraint (node_rows graph.entry.rows.now)) sink.new }
{
    for node in 0..graph.rows.len().saturating_sub(1) {
        write_node_row(sink, graph, node);
    }
}

// The nodes of an item, which stand together and begin at `start`.
fn nodes_of(rows: &[Row], item: usize, start: usize) -> Range<usize>
    requires order { InOrder rows.now }
    requires begin { Begins rows.now start item }
    ensures { NodesOf rows.now item result.start result.end }
{
    let len = rows[start..]
        .iter()
        .take_while(|row| row.item as usize == item)
        .count();
    start..start + len
}

// The take arcs of an item, whose nodes begin at `start`, as terms. Answers where its nodes end.
fn write_takes<S: Sink>(sink: &mut S, graph: LinkedGraph, item: usize, start: usize) -> usize
    requires { Begins graph.rows.now start item }
    ensures took { S.took sink.old (entries term 0 (plus (item_arcs graph.entry.rows.now item))) sink.new }
    ensures end { Begins graph.entry.rows.now result (item + 1) }
{
    let rows = graph.rows;
    let nodes = nodes_of(rows, item, start);
    let end = nodes.end;
    let arcs = nodes
        .map(|node| 2 * node + 1)
        .filter(|arc| head_of(rows, *arc).is_some());
    write_arcs(sink, Lead::Added, 0, arcs);
    end
}

// The row of an item, whose nodes begin at `start`. Answers where they end.
fn write_item_row<S: Sink>(
    sink: &mut S,
    graph: LinkedGraph,
    item: usize,
    start: usize,
    demand: usize,
) -> usize
    requires { Begins graph.rows.now start item }
    ensures took { S.took sink.old (constraint (item_row graph.entry.rows.now item demand)) sink.new }
    ensures end { Begins graph.entry.rows.now result (item + 1) }
{
    write_label(sink, b" d", item);
    let end = write_takes(sink, graph, item, start);
    sink.put(b" >= ");
    sink.put_number(demand);
    sink.put(b"\n");
    end
}

// The items are numbered from 1. Each row hands on where the next item's nodes begin, so that no row searches all nodes.
// One function for both kinds of rows would need a closure that borrows the sink.
pub(crate) fn write_item_rows<S: Sink>(sink: &mut S, graph: LinkedGraph, demands: &[u32])
    ensures { S.took sink.old (flat_map constraint (item_rows graph.entry.rows.now 1 demands.now)) sink.new }
{
    let mut start = 0;
    for (i, demand) in demands.iter().enumerate() {
        start = write_item_row(sink, graph, i + 1, start, *demand as usize);
    }
}
