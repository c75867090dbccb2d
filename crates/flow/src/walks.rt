// Walks from the source to the target, arc by arc, and what they write. They share their steps and no more: a closure for what
// one of them does at an arc would change what it captures, and a proof then knows nothing of it.
ghost use Rattle.std.specs.Prelude.{◌≡◌, ◌+◌, ◌-◌, ◌*◌, ◌/◌, ◌<◌, ◌≤◌, false, ◌++◌, length, drop, replicate, Ok};
ghost use Rattle.packing.specs.Problem.{entry};
ghost use Rattle.graph.specs.Graph.{at, head, walk, spelled};
ghost use Rattle.flow.specs.Flow.{least, pull, push, trail};
ghost use Rattle.flow.specs.Scans.{Fits};
ghost use Rattle.flow.specs.Walks.{Flowing, Placeable, Ready, arcs_along, carrier, choice, noted, verdict};

use crate::LIMIT;
use crate::flows::Flow;
use graph::{Row, head_of};
use refusal::Refusal;

// Sets the first cells to 0. Its clause tells the whole memory, which `fill` on a part of it does not.
pub fn wipe(cells: &mut [u32], arcs: usize)
    requires { arcs ≤ length cells.old }
    ensures { cells.new ≡ replicate arcs 0 ++ drop arcs cells.old }
{
    cells[..arcs].fill(0);
}

// Where an arc leads, if there is one of this number. The steps of walks take slices and no `Flow`, since some walks write the
// flow as they go.
pub fn target_of(rows: &[Row], arc: u32) -> Option<u32>
    ensures { result ≡ head rows.now arc }
{
    head_of(rows, arc as usize)
}

// The arc by which the next bin leaves a node: the take arc where it carries flow, else the pass arc.
pub fn carrying_arc(flow: &[u32], node: u32) -> u32
    requires there { 2 * node + 1 < length flow.now }
    requires few { length flow.now ≤ 131070 }
    ensures { result ≡ carrier flow.now node }
{
    let take = 2 * node + 1;
    if flow[take as usize] > 0 {
        take
    } else {
        2 * node
    }
}

// Takes the times of the next bin off each of its arcs.
pub fn take_off(rows: &[Row], flow: &mut [u32], times: u32)
    requires fits { Fits rows.now flow.old }
    requires ready { Ready rows.now flow.old times }
    ensures { flow.new ≡ pull flow.old (trail (length rows.now) rows.now flow.old 0) times }
{
    let mut arc = carrying_arc(flow, 0);
    while let Some(node) = target_of(rows, arc) {
        flow[arc as usize] -= times;
        arc = carrying_arc(flow, node);
    }
}

// Tells the count of an item where its pass arc is taken.
fn note_count(rows: &[Row], arc: u32, counts: &mut [u32])
    requires there { arc / 2 < length rows.now }
    requires some { 0 < (at rows.now (arc / 2)).item }
    requires room { (at rows.now (arc / 2)).item ≤ length counts.old }
    ensures { counts.new ≡ noted rows.now arc counts.old }
{
    if arc % 2 == 0 {
        let row = rows[(arc / 2) as usize];
        counts[row.item as usize - 1] = row.copies;
    }
}

// How many copies of an item, from 1, the counts ask for.
fn wanted(counts: &[u32], item: u32) -> u32
    ensures { result ≡ entry counts.now item }
{
    match item {
        0 => 0,
        _ => counts.get(item as usize - 1).copied().unwrap_or(0),
    }
}

// The arc by which the path that spells the counts leaves a node.
pub fn spelling_arc(rows: &[Row], counts: &[u32], node: u32) -> u32
    requires there { node < length rows.now }
    requires few { length rows.now ≤ 65535 }
    ensures { result ≡ choice rows.now counts.now node }
{
    let row = rows[node as usize];
    if row.copies < wanted(counts, row.item) {
        2 * node + 1
    } else {
        2 * node
    }
}

// Adds `times` to each arc of the path that spells the counts.
pub fn add_route(rows: &[Row], flow: &mut [u32], counts: &[u32], times: u32)
    requires fits { Fits rows.now flow.old }
    requires placeable { Placeable rows.now counts.now times }
    requires room { Ok tt ≡ verdict flow.old times false (walk rows.now counts.now 0) }
    ensures { flow.new ≡ push flow.old (arcs_along (walk rows.now counts.now 0)) times }
{
    let mut arc = spelling_arc(rows, counts, 0);
    while let Some(node) = target_of(rows, arc) {
        flow[arc as usize] += times;
        arc = spelling_arc(rows, counts, node);
    }
}

impl<'a> Flow<'a> {
    // Writes the counts of the next bin, one for each item, and answers its times.
    pub fn spell_next(&self, counts: &mut [u32]) -> u32
        requires { Flowing (length counts.old) self.now.rows.now self.now.arcs.now }
        ensures times { result ≡ least self.now.arcs.now (trail (length self.now.rows.now) self.now.rows.now self.now.arcs.now 0) }
        ensures counts { counts.new ≡ spelled (trail (length self.now.rows.now) self.now.rows.now self.now.arcs.now 0) }
    {
        let mut times = LIMIT;
        let mut arc = carrying_arc(self.arcs, 0);
        while let Some(node) = target_of(self.rows, arc) {
            note_count(self.rows, arc, counts);
            times = times.min(self.arcs[arc as usize]);
            arc = carrying_arc(self.arcs, node);
        }
        times
    }

    // Whether there is a path that spells the counts, and each of its arcs can carry `times` more. That there is no path is
    // known at its end only, and is told first.
    pub fn check_route(&self, counts: &[u32], times: u32) -> Result<(), Refusal>
        requires { Placeable self.now.rows.now counts.now times }
        ensures { result ≡ verdict self.now.arcs.now times false (walk self.now.rows.now counts.now 0) }
    {
        let last = self.rows.len() - 1;
        let mut node: u32 = 0;
        let mut answer = Ok(());
        while (node as usize) < last {
            let arc = spelling_arc(self.rows, counts, node);
            node = target_of(self.rows, arc).ok_or(Refusal::NoPattern)?;
            if self.arcs[arc as usize] > LIMIT - times {
                answer = Err(Refusal::ArcOverLimit);
            }
        }
        answer
    }
}
