// The whole way on two small instances: compile and reduce, put a flow on the arcs, accept it and hand out its bins.
#![tactic(auto)]

ghost use Rattle.std.specs.Prelude.{◌≡◌, [], ◌∷◌, length, IfOk};
ghost use Rattle.limits.specs.Colours.{colours_meaning};
ghost use Rattle.limits.specs.Numbers.{length_meaning};
ghost use Rattle.packing.specs.Given.{orders_of};
ghost use Rattle.flow.specs.Job.{answers};
ghost use Rattle.job.specs.View.{size, view, answered, worth};
ghost use Rattle.round_trip.specs.Calls.{carrying, outcome, placing};
ghost use Rattle.round_trip.specs.Lines.{line, part};

use graph::Row;
use job::job::Job;
use job::state::Acceptance;
use limits::colours::{ColourSet, Colours};
use limits::kind::Kind;
use limits::length::Length;
use packing::Item;
use refusal::Refusal;
use std::alloc::{AllocError, Global};
use std::io;
use std::io::Write;

// The most nodes of a graph.
const NODES: usize = 512;

// Two cells for each node.
const CELLS: usize = 2 * NODES;

// An item of one field.
fn make_item(name: &[u8], field: u32, demand: u32) -> Item<'_>
    ensures { result ≡ record { name = name.entry; line = 0; values = field ∷ 0 ∷ 0 ∷ 0 ∷ []; field_count = 1; demand = demand } }
{
    Item {
        name,
        line: 0,
        values: [field, 0, 0, 0],
        field_count: 1,
        demand,
    }
}

// Packs two items: a bin with one of each, and one with the second alone.
fn pack_boards(
    job: &mut Job<'_>,
    kind: &Length,
    items: &[Item<'_>],
    loads: &mut [u32],
) -> Result<Acceptance, Refusal>
    ensures { outcome (answers (size job.old) (view job.old) (placing (length_meaning kind.now.limit.value) (orders_of items.now) (length loads.old))) ≡ answered worth result }
{
    job.compile(kind, items, loads)?;
    job.reduce()?;
    job.place(&[1, 1], 1)?;
    job.place(&[0, 1], 1)?;
    job.accept()
}

// Packs inks into bins of one colour by the flow of each arc: two bins with a red one, and a bin with a blue one.
// It makes other calls than `pack_boards`, so one function for both kinds would only pass the calls.
fn pack_inks(
    job: &mut Job<'_>,
    kind: &Colours,
    items: &[Item<'_>],
    loads: &mut [ColourSet],
) -> Result<Acceptance, Refusal>
    ensures { outcome (answers (size job.old) (view job.old) (carrying (colours_meaning kind.now.limit.value) (orders_of items.now) (length loads.old))) ≡ answered worth result }
{
    job.compile(kind, items, loads)?;
    job.reduce()?;
    job.carry(0, 1)?;
    job.carry(1, 2)?;
    job.carry(2, 2)?;
    job.carry(7, 1)?;
    job.carry(8, 2)?;
    job.carry(10, 1)?;
    job.accept()
}

// An item in a bin: its name and its count, each after a space; nothing if the count is 0.
fn part_of(heap: Global, name: &[u8], count: u32) -> Result<Vec<u8>, AllocError>
    ensures { IfOk result (λ v. v.items ≡ part name.now count) }
{
    let mut part = Vec::new(heap);
    if count > 0 {
        part.push(b' ')?;
        part.extend_from_slice(name)?;
        part.extend_from_slice(format!(in heap; " {count}")?.as_bytes())?;
    }
    Ok(part)
}

// The line of a bin: its times, and the items that are in it.
fn bin_line(
    heap: Global,
    times: u32,
    items: &[Item<'_>],
    counts: &[u32],
) -> Result<Vec<u8>, AllocError>
    ensures { IfOk result (λ v. v.items ≡ line times items.now counts.now) }
{
    let mut line = format!(in heap; "{times}")?.into_bytes();
    for (item, count) in items.iter().zip(counts) {
        let part = part_of(heap, item.name, *count)?;
        line.extend_from_slice(&part)?;
    }
    line.push(b'\n')?;
    Ok(line)
}

// Hands out the bins until the job refuses, and prints a line for each. Each takes at least 1 off the value, which is `most`
// at first; a loop of so many turns needs no proof that it ends, which `while let` would.
fn print_bins(rt: HostRuntime, job: &mut Job<'_>, items: &[Item<'_>], most: u32) -> io::Result<()> {
    for _ in 0..=most {
        let mut counts = [0; 2];
        let Ok(times) = job.peel(&mut counts) else {
            break;
        };
        let line = bin_line(rt.alloc(), times, items, &counts)?;
        rt.stdout().write_all(&line)?;
    }
    Ok(())
}

// Prints the value with the number of arcs that carry flow, the bins, and the value left; or the line of the refusal.
fn print_packing(
    rt: HostRuntime,
    job: &mut Job<'_>,
    items: &[Item<'_>],
    accepted: Result<Acceptance, Refusal>,
) -> io::Result<()> {
    let Acceptance { value, arcs } = match accepted {
        Ok(acceptance) => acceptance,
        Err(refusal) => return println!(rt; "{refusal}"),
    };
    println!(rt; "z {value} arcs {arcs}")?;
    print_bins(rt, job, items, value)?;
    match job.value_left() {
        Ok(value) => println!(rt; "left {value}"),
        Err(refusal) => println!(rt; "{refusal}"),
    }
}

fn main(rt: HostRuntime) -> io::Result<()> {
    let heap = rt.alloc();
    let mut rows = vec![in heap; Row::new(0, 0); NODES]?;
    let mut cells = vec![in heap; 0; CELLS]?;
    let mut job = Job::new(&mut rows, &mut cells);

    // tried with `unwrap`: that the kind is there is not proved then
    let Some(length) = Length::new(5) else {
        unreachable()
    };
    let boards = [make_item(b"board", 3, 1), make_item(b"rail", 2, 2)];
    let mut lengths = vec![in heap; 0; NODES]?;
    let packed = pack_boards(&mut job, &length, &boards, &mut lengths);
    print_packing(rt, &mut job, &boards, packed)?;

    let Some(colours) = Colours::new(1) else {
        unreachable()
    };
    let inks = [make_item(b"red", 0, 2), make_item(b"blue", 1, 1)];
    let mut sets = vec![in heap; colours.empty(); NODES]?;
    let packed = pack_inks(&mut job, &colours, &inks, &mut sets);
    print_packing(rt, &mut job, &inks, packed)
}
