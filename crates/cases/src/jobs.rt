// The job at its edges: tables of calls, each with what it answers, on the graph of two items under a length.
use graph::Row;
use job::job::Job;
use job::state::State;
use limits::length::Length;
use packing::Item;
use refusal::{Numbers, Refusal};
use std::array;
use std::process::Abort;

// A row that no graph has.
pub(crate) const BLANK: Row = Row {
    item: 99,
    copies: 99,
    take: None,
    pass: None,
};

// The most that an arc, times or a value may come to.
const MOST: u32 = 1_000_000_000;

// One more.
const OVER: u32 = 1_000_000_001;

// A call of a job. `Open` compiles the first example, `Zeros` places so many counts of 0, `Peel` gives so many cells and
// `Text` so many bytes.
#[derive(Clone, Copy)]
enum Call {
    Open,
    Reduce,
    Carry(u32, u32),
    Place([u32; 2], u32),
    Zeros(usize),
    Accept,
    Peel(usize),
    Clear,
    Row(u32),
    Flow(u32),
    Value,
    Copies(u32),
    Text(usize),
}

// What is told of an answer that is no refusal: `Worth` by the value and the carrying arcs, `Bin` by its times and its counts.
#[derive(Clone, Copy, Debug, PartialEq, Eq)]
enum Told {
    Done,
    Number(u64),
    Worth(u32, u32),
    Bin(u32, [u32; 2]),
}

// A call, and what it answers; a refusal is told by its number and the first of its place.
type Turn = (Call, Result<Told, [usize; 2]>);

// The number of a refusal and the first of its place.
pub(crate) fn told_of(refusal: Refusal) -> [usize; 2] {
    let Numbers { number, a, .. } = refusal.numbers();
    [number, a]
}

// An item of one field.
pub(crate) fn item(field: u32, demand: u32) -> Item<'static> {
    Item {
        name: b"",
        line: 0,
        values: [field, 0, 0, 0],
        field_count: 1,
        demand,
    }
}

// The items of the first example.
pub(crate) fn boards_and_rails() -> [Item<'static>; 2] {
    [item(3, 1), item(2, 2)]
}

// Compiles the first example, with just the loads that it needs.
fn open(job: &mut Job<'_>) -> Result<usize, Refusal> {
    let kind = Length::new(5).unwrap();
    job.compile(&kind, &boards_and_rails(), &mut [0; 8])
}

// Peels into so many cells, at most 4.
fn peel(job: &mut Job<'_>, cells: usize) -> Result<Told, Refusal> {
    let mut counts = [77; 4];
    let times = job.peel(&mut counts[0..cells.min(4)])?;
    Ok(Told::Bin(times, [counts[0], counts[1]]))
}

// Makes the call. It goes by cases, since a table holds its calls as values and their arguments differ.
fn make(job: &mut Job<'_>, call: Call) -> Result<Told, Refusal> {
    match call {
        Call::Open => open(job).map(|nodes| Told::Number(nodes as u64)),
        Call::Reduce => job.reduce().map(|nodes| Told::Number(nodes as u64)),
        Call::Carry(arc, flow) => job.carry(arc, flow).map(|()| Told::Done),
        Call::Place(counts, times) => job.place(&counts, times).map(|()| Told::Done),
        Call::Zeros(n) => job.place(&[0; 4][0..n.min(4)], 1).map(|()| Told::Done),
        Call::Accept => job
            .accept()
            .map(|worth| Told::Worth(worth.value, worth.arcs)),
        Call::Peel(cells) => peel(job, cells),
        Call::Clear => job.clear().map(|()| Told::Done),
        Call::Row(node) => job.node_row(node).map(|row| Told::Number(row.item as u64)),
        Call::Flow(arc) => job.arc_flow(arc).map(|flow| Told::Number(flow as u64)),
        Call::Value => job.value_left().map(|value| Told::Number(value as u64)),
        Call::Copies(item) => job.copies_left(item).map(Told::Number),
        Call::Text(n) => {
            let length = job.model_text(&mut [0; 300][0..n.min(300)])?;
            Ok(Told::Number(length as u64))
        }
    }
}

// The flow of each arc that is there.
fn flows(job: &Job<'_>) -> [Option<u32>; 16] {
    array::from_fn(|arc| job.arc_flow(arc as u32).ok())
}

// Plays the calls one after another on a new job. A refused one leaves state and flow as they were.
fn play(rt: &impl Abort, turns: &[Turn]) {
    let mut rows = [BLANK; 8];
    let mut cells = [0; 16];
    let mut job = Job::new(&mut rows, &mut cells);
    for (call, told) in turns {
        let state = job.state();
        let before = flows(&job);
        let answer = make(&mut job, *call);
        if let Err(refusal) = answer {
            let Numbers { layer, b, .. } = refusal.numbers();
            assert_eq!(rt; [layer, b], [4, 0]);
            assert_eq!(rt; job.state(), state);
            assert_eq!(rt; flows(&job), before);
        }
        assert_eq!(rt; answer.map_err(told_of), *told);
    }
}

// A job without a graph refuses all calls but compile, whatever is asked.
const EMPTY: [Turn; 15] = [
    (Call::Reduce, Err([10, 0])),
    (Call::Carry(0, 0), Err([10, 0])),
    (Call::Carry(3, OVER), Err([10, 0])),
    (Call::Place([0, 0], 1), Err([10, 0])),
    (Call::Place([9, 9], 0), Err([10, 0])),
    (Call::Zeros(0), Err([10, 0])),
    (Call::Accept, Err([10, 0])),
    (Call::Peel(2), Err([10, 0])),
    (Call::Clear, Err([10, 0])),
    (Call::Row(0), Err([10, 0])),
    (Call::Flow(0), Err([10, 0])),
    (Call::Value, Err([10, 0])),
    (Call::Copies(0), Err([10, 0])),
    (Call::Text(0), Err([10, 0])),
    (Call::Text(300), Err([10, 0])),
];

// Open and accepted, and open again by clear and by compile.
const STATES: [Turn; 23] = [
    (Call::Open, Ok(Told::Number(8))),
    (Call::Peel(0), Err([10, 0])),
    (Call::Value, Err([10, 0])),
    (Call::Copies(0), Err([10, 0])),
    (Call::Place([1, 1], 2), Ok(Told::Done)),
    (Call::Accept, Ok(Told::Worth(2, 4))),
    (Call::Reduce, Err([10, 0])),
    (Call::Carry(3, OVER), Err([10, 0])),
    (Call::Place([9, 9], 0), Err([10, 0])),
    (Call::Accept, Err([10, 0])),
    (Call::Row(7), Ok(Told::Number(3))),
    (Call::Flow(1), Ok(Told::Number(2))),
    (Call::Text(256), Ok(Told::Number(256))),
    (Call::Clear, Ok(Told::Done)),
    (Call::Value, Err([10, 0])),
    (Call::Flow(1), Ok(Told::Number(0))),
    (Call::Reduce, Ok(Told::Number(8))),
    (Call::Place([1, 1], 2), Ok(Told::Done)),
    (Call::Accept, Ok(Told::Worth(2, 4))),
    (Call::Open, Ok(Told::Number(8))),
    (Call::Flow(1), Ok(Told::Number(0))),
    (Call::Peel(2), Err([10, 0])),
    (Call::Accept, Err([20, 1])),
];

#[test]
fn states(rt: HostRuntime) {
    play(&rt, &EMPTY);
    play(&rt, &STATES);
}

// Arcs, nodes and items that are not there; this comes before a flow above the limit.
const ABSENT: [Turn; 17] = [
    (Call::Open, Ok(Told::Number(8))),
    (Call::Carry(3, 1), Err([13, 3])),
    (Call::Carry(11, 0), Err([13, 11])),
    (Call::Carry(14, 1), Err([13, 14])),
    (Call::Carry(15, 1), Err([13, 15])),
    (Call::Carry(16, OVER), Err([13, 16])),
    (Call::Carry(u32::MAX, 1), Err([13, 4_294_967_295])),
    (Call::Flow(13), Err([13, 13])),
    (Call::Flow(14), Err([13, 14])),
    (Call::Flow(16), Err([13, 16])),
    (Call::Row(8), Err([13, 8])),
    (Call::Row(u32::MAX), Err([13, 4_294_967_295])),
    (Call::Place([1, 1], 2), Ok(Told::Done)),
    (Call::Accept, Ok(Told::Worth(2, 4))),
    (Call::Copies(0), Err([13, 0])),
    (Call::Copies(3), Err([13, 3])),
    (Call::Copies(2), Ok(Told::Number(2))),
];

// Flow and times above the limit, and times 0; this comes before counts that are no pattern.
const RANGES: [Turn; 9] = [
    (Call::Open, Ok(Told::Number(8))),
    (Call::Carry(0, OVER), Err([14, 0])),
    (Call::Carry(0, u32::MAX), Err([14, 0])),
    (Call::Carry(0, MOST), Ok(Told::Done)),
    (Call::Flow(0), Ok(Told::Number(1_000_000_000))),
    (Call::Place([1, 1], 0), Err([14, 0])),
    (Call::Place([1, 1], OVER), Err([14, 0])),
    (Call::Place([1, 2], u32::MAX), Err([14, 0])),
    (Call::Place([1, 1], MOST), Ok(Told::Done)),
];

// The model text has 256 bytes.
const TEXT: [Turn; 5] = [
    (Call::Open, Ok(Told::Number(8))),
    (Call::Text(0), Err([17, 0])),
    (Call::Text(255), Err([17, 0])),
    (Call::Text(256), Ok(Told::Number(256))),
    (Call::Text(300), Ok(Told::Number(256))),
];

#[test]
fn arguments(rt: HostRuntime) {
    play(&rt, &ABSENT);
    play(&rt, &RANGES);
    play(&rt, &TEXT);
}

// Counts that are no pattern, and the five patterns.
const PATTERNS: [Turn; 14] = [
    (Call::Open, Ok(Told::Number(8))),
    (Call::Place([1, 2], 1), Err([15, 0])),
    (Call::Place([2, 0], 1), Err([15, 0])),
    (Call::Place([0, 3], 1), Err([15, 0])),
    (Call::Place([u32::MAX, 0], 1), Err([15, 0])),
    (Call::Place([0, u32::MAX], 1), Err([15, 0])),
    (Call::Zeros(0), Err([15, 0])),
    (Call::Zeros(1), Err([15, 0])),
    (Call::Zeros(3), Err([15, 0])),
    (Call::Zeros(2), Ok(Told::Done)),
    (Call::Place([1, 0], 1), Ok(Told::Done)),
    (Call::Place([0, 1], 1), Ok(Told::Done)),
    (Call::Place([1, 1], 1), Ok(Told::Done)),
    (Call::Place([0, 2], 1), Ok(Told::Done)),
];

// An arc that is full; that counts are no pattern comes first. Then both arcs of the source are full.
const FULL: [Turn; 9] = [
    (Call::Open, Ok(Told::Number(8))),
    (Call::Place([0, 1], MOST), Ok(Told::Done)),
    (Call::Place([0, 1], 1), Err([16, 0])),
    (Call::Place([0, 0], 1), Err([16, 0])),
    (Call::Place([0, 2], MOST), Err([16, 0])),
    (Call::Place([0, 3], 1), Err([15, 0])),
    (Call::Place([1, 1], MOST), Ok(Told::Done)),
    (Call::Place([1, 0], 1), Err([16, 0])),
    (Call::Accept, Err([19, 0])),
];

#[test]
fn placing(rt: HostRuntime) {
    play(&rt, &PATTERNS);
    play(&rt, &FULL);
}

// The lowest node out of balance; this comes before the value and the demands.
const UNBALANCED: [Turn; 14] = [
    (Call::Open, Ok(Told::Number(8))),
    (Call::Carry(12, 1), Ok(Told::Done)),
    (Call::Accept, Err([18, 6])),
    (Call::Carry(8, 1), Ok(Told::Done)),
    (Call::Accept, Err([18, 4])),
    (Call::Carry(0, MOST), Ok(Told::Done)),
    (Call::Carry(1, MOST), Ok(Told::Done)),
    (Call::Accept, Err([18, 1])),
    (Call::Carry(2, MOST), Ok(Told::Done)),
    (Call::Carry(6, MOST), Ok(Told::Done)),
    (Call::Accept, Err([18, 2])),
    (Call::Carry(4, MOST), Ok(Told::Done)),
    (Call::Accept, Err([18, 4])),
    (Call::Text(300), Ok(Told::Number(256))),
];

// A value of 1,000,000,001 while no arc carries so much, and one of 1,000,000,000.
const VALUES: [Turn; 14] = [
    (Call::Open, Ok(Told::Number(8))),
    (Call::Place([1, 0], MOST), Ok(Told::Done)),
    (Call::Place([0, 0], 1), Ok(Told::Done)),
    (Call::Accept, Err([19, 0])),
    (Call::Carry(0, 0), Ok(Told::Done)),
    (Call::Carry(4, 0), Ok(Told::Done)),
    (Call::Accept, Err([20, 2])),
    (Call::Clear, Ok(Told::Done)),
    (Call::Place([1, 1], MOST), Ok(Told::Done)),
    (Call::Accept, Ok(Told::Worth(MOST, 4))),
    (Call::Value, Ok(Told::Number(1_000_000_000))),
    (Call::Copies(2), Ok(Told::Number(1_000_000_000))),
    (Call::Peel(2), Ok(Told::Bin(MOST, [1, 1]))),
    (Call::Copies(2), Ok(Told::Number(0))),
];

// The lowest item with too few copies.
const SHORT: [Turn; 8] = [
    (Call::Open, Ok(Told::Number(8))),
    (Call::Accept, Err([20, 1])),
    (Call::Place([0, 2], 3), Ok(Told::Done)),
    (Call::Accept, Err([20, 1])),
    (Call::Clear, Ok(Told::Done)),
    (Call::Place([1, 1], 1), Ok(Told::Done)),
    (Call::Place([1, 0], 5), Ok(Told::Done)),
    (Call::Accept, Err([20, 2])),
];

#[test]
fn accepting(rt: HostRuntime) {
    play(&rt, &UNBALANCED);
    play(&rt, &VALUES);
    play(&rt, &SHORT);
}

// Reduce names the lowest arc that carries flow.
const CARRYING: [Turn; 10] = [
    (Call::Open, Ok(Told::Number(8))),
    (Call::Carry(7, 1), Ok(Told::Done)),
    (Call::Reduce, Err([12, 7])),
    (Call::Carry(4, 1), Ok(Told::Done)),
    (Call::Reduce, Err([12, 4])),
    (Call::Carry(0, 1), Ok(Told::Done)),
    (Call::Reduce, Err([12, 0])),
    (Call::Clear, Ok(Told::Done)),
    (Call::Reduce, Ok(Told::Number(8))),
    (Call::Reduce, Ok(Told::Number(8))),
];

#[test]
fn reducing(rt: HostRuntime) {
    play(&rt, &CARRYING);
}

// One bin of a board and a rail, and one of a rail. That nothing is left comes before too little memory.
const TWO_BINS: [Turn; 26] = [
    (Call::Open, Ok(Told::Number(8))),
    (Call::Carry(0, 1), Ok(Told::Done)),
    (Call::Carry(1, 1), Ok(Told::Done)),
    (Call::Carry(2, 1), Ok(Told::Done)),
    (Call::Carry(5, 1), Ok(Told::Done)),
    (Call::Carry(7, 1), Ok(Told::Done)),
    (Call::Carry(8, 1), Ok(Told::Done)),
    (Call::Carry(10, 1), Ok(Told::Done)),
    (Call::Accept, Ok(Told::Worth(2, 7))),
    (Call::Value, Ok(Told::Number(2))),
    (Call::Copies(1), Ok(Told::Number(1))),
    (Call::Copies(2), Ok(Told::Number(2))),
    (Call::Peel(0), Err([17, 0])),
    (Call::Peel(1), Err([17, 0])),
    (Call::Peel(2), Ok(Told::Bin(1, [1, 1]))),
    (Call::Flow(0), Ok(Told::Number(1))),
    (Call::Flow(1), Ok(Told::Number(0))),
    (Call::Value, Ok(Told::Number(1))),
    (Call::Copies(1), Ok(Told::Number(0))),
    (Call::Copies(2), Ok(Told::Number(1))),
    (Call::Peel(4), Ok(Told::Bin(1, [0, 1]))),
    (Call::Peel(2), Err([21, 0])),
    (Call::Peel(0), Err([21, 0])),
    (Call::Value, Ok(Told::Number(0))),
    (Call::Copies(2), Ok(Told::Number(0))),
    (Call::Flow(0), Ok(Told::Number(0))),
];

// Equal bins are handed out together, also those without items.
const EQUAL_BINS: [Turn; 15] = [
    (Call::Open, Ok(Told::Number(8))),
    (Call::Place([0, 0], 3), Ok(Told::Done)),
    (Call::Place([0, 2], 1), Ok(Told::Done)),
    (Call::Place([1, 1], 1), Ok(Told::Done)),
    (Call::Place([1, 0], 1), Ok(Told::Done)),
    (Call::Place([1, 1], 1), Ok(Told::Done)),
    (Call::Accept, Ok(Told::Worth(7, 10))),
    (Call::Copies(1), Ok(Told::Number(3))),
    (Call::Copies(2), Ok(Told::Number(4))),
    (Call::Peel(2), Ok(Told::Bin(2, [1, 1]))),
    (Call::Copies(2), Ok(Told::Number(2))),
    (Call::Peel(2), Ok(Told::Bin(1, [1, 0]))),
    (Call::Peel(2), Ok(Told::Bin(1, [0, 2]))),
    (Call::Peel(2), Ok(Told::Bin(3, [0, 0]))),
    (Call::Peel(2), Err([21, 0])),
];

#[test]
fn peeling(rt: HostRuntime) {
    play(&rt, &TWO_BINS);
    play(&rt, &EQUAL_BINS);
}
