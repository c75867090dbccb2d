// Compile and reduce at their edges, under each kind, and the memory around the graph.
use crate::jobs::{BLANK, boards_and_rails, item, told_of};
use crate::kinds::Missing;
use graph::Row;
use job::job::Job;
use job::state::State;
use limits::colours::Colours;
use limits::counted::Counted;
use limits::kind::Kind;
use limits::length::Length;
use limits::vector::{Four, Vector};
use packing::Item;
use refusal::Refusal;
use std::alloc::AllocError;
use std::test::Fail;

// An item whose first field is the given one, before zeros.
fn with_fields(field_count: usize, field: u32, demand: u32) -> Item<'static> {
    Item {
        field_count,
        ..item(field, demand)
    }
}

// A node of a graph.
fn row(item: u32, copies: u32, take: Option<u32>, pass: Option<u32>) -> Row {
    Row {
        item,
        copies,
        take,
        pass,
    }
}

// The rows of the first example. The last is the target.
#[test]
fn rows(rt: HostRuntime) -> Result<(), Fail> {
    let kind = Length::new(5).ok_or(Missing)?;
    let mut rows = [BLANK; 8];
    let mut cells = [77; 16];
    let mut loads = [77; 8];
    let mut job = Job::new(&mut rows, &mut cells);
    assert_eq!(rt; job.compile(&kind, &boards_and_rails(), &mut loads), Ok(8));
    let expected = [
        row(1, 0, Some(1), Some(2)),
        row(1, 1, None, Some(3)),
        row(2, 0, Some(4), Some(7)),
        row(2, 0, Some(5), Some(7)),
        row(2, 1, Some(6), Some(7)),
        row(2, 1, None, Some(7)),
        row(2, 2, None, Some(7)),
        row(3, 0, None, None),
    ];
    for (node, expected) in expected.iter().enumerate() {
        assert_eq!(rt; job.node_row(node as u32), Ok(*expected));
    }
    assert_eq!(rt; loads, [0, 3, 0, 3, 2, 5, 4, 77]);
    assert_eq!(rt; cells, [0; 16]);
    Ok(())
}

// The nodes of the graph, and how many are left when it is reduced once and twice.
fn sizes<K: Kind>(
    kind: &K,
    items: &[Item<'_>],
    loads: &mut [K::Load],
) -> Result<[usize; 3], Refusal> {
    let mut rows = [BLANK; 16];
    let mut cells = [0; 32];
    let mut job = Job::new(&mut rows, &mut cells);
    let compiled = job.compile(kind, items, loads)?;
    let reduced = job.reduce()?;
    Ok([compiled, reduced, job.reduce()?])
}

// Lengths; one colour in a bin; one item in a bin; and a vector of which only the first number limits.
#[test]
fn node_counts(rt: HostRuntime) -> Result<(), Fail> {
    let items = boards_and_rails();
    let mut lengths = [0; 16];
    let two = Length::new(2).ok_or(Missing)?;
    assert_eq!(rt; sizes(&two, &[item(2, 1)], &mut lengths), Ok([3, 3, 3]));
    let seven = Length::new(7).ok_or(Missing)?;
    assert_eq!(rt; sizes(&seven, &items, &mut lengths), Ok([9, 6, 6]));
    let five = Length::new(5).ok_or(Missing)?;
    assert_eq!(rt; sizes(&five, &items, &mut lengths), Ok([8, 8, 8]));
    let counted = Counted::new(1, five).ok_or(Missing)?;
    assert_eq!(rt;
        sizes(&counted, &items, &mut [counted.empty(); 16]),
        Ok([6, 6, 6])
    );
    let colours = Colours::new(1).ok_or(Missing)?;
    let inks = [item(0, 2), item(1, 1)];
    assert_eq!(rt;
        sizes(&colours, &inks, &mut [colours.empty(); 16]),
        Ok([7, 7, 7])
    );
    let limits = Four {
        w: 5,
        x: 0,
        y: 0,
        z: 0,
    };
    let vector = Vector::new(limits).ok_or(Missing)?;
    let wide = [with_fields(4, 3, 1), with_fields(4, 2, 2)];
    assert_eq!(rt;
        sizes(&vector, &wide, &mut [vector.empty(); 16]),
        Ok([8, 8, 8])
    );
    Ok(())
}

// A graph that is reduced: its bins need not be those that were placed.
#[test]
fn joined(rt: HostRuntime) -> Result<(), Fail> {
    let seven = Length::new(7).ok_or(Missing)?;
    let mut rows = [BLANK; 9];
    let mut cells = [0; 18];
    let mut counts = [77; 3];
    let mut job = Job::new(&mut rows, &mut cells);
    job.compile(&seven, &boards_and_rails(), &mut [0; 9])?;
    assert_eq!(rt; job.reduce(), Ok(6));
    job.place(&[1, 0], 1)?;
    job.place(&[0, 2], 1)?;
    assert_eq!(rt; job.accept()?.value, 2);
    assert_eq!(rt; job.peel(&mut counts), Ok(1));
    assert_eq!(rt; counts, [1, 2, 77]);
    assert_eq!(rt; job.peel(&mut counts), Ok(1));
    assert_eq!(rt; counts, [0, 0, 77]);
    assert_eq!(rt; job.peel(&mut counts), Err(Refusal::NothingLeft));
    Ok(())
}

// Two items, each by its number of fields, its first field and its demand, with the lowest that is wrong.
type Wrong = ([(usize, u32, u32); 2], usize);

const WRONG_ITEMS: [Wrong; 10] = [
    ([(1, 3, 1), (1, 2, 0)], 2),
    ([(1, 3, 1), (1, 2, 4_096)], 2),
    ([(1, 3, u32::MAX), (1, 2, 0)], 1),
    ([(1, 6, 1), (1, 2, 1)], 1),
    ([(1, 5, 1), (1, 6, 1)], 2),
    ([(1, 3, 1), (1, u32::MAX, 1)], 2),
    ([(0, 3, 1), (1, 2, 1)], 1),
    ([(1, 3, 1), (2, 0, 1)], 2),
    ([(1, 3, 1), (4, 0, 1)], 2),
    ([(5, 0, 1), (1, 2, 0)], 1),
];

// A wrong item leaves the job and the loads as they were.
#[test]
fn wrong_items(rt: HostRuntime) -> Result<(), Fail> {
    let kind = Length::new(5).ok_or(Missing)?;
    let mut rows = [BLANK; 8];
    let mut cells = [0; 16];
    let mut job = Job::new(&mut rows, &mut cells);
    job.compile(&kind, &boards_and_rails(), &mut [0; 8])?;
    job.carry(0, 5)?;
    for (fields, lowest) in &WRONG_ITEMS {
        let mut loads = [77; 8];
        let [(m, v, b), (n, w, d)] = *fields;
        let items = [with_fields(m, v, b), with_fields(n, w, d)];
        let answer = job.compile(&kind, &items, &mut loads);
        assert_eq!(rt; answer.map_err(told_of), Err([7, *lowest]));
        assert_eq!(rt; job.arc_flow(0), Ok(5));
        assert_eq!(rt; loads, [77; 8]);
    }
    Ok(())
}

// 64 items can be packed, no items and 65 can't.
#[test]
fn item_counts(rt: HostRuntime) -> Result<(), Fail> {
    let kind = Length::new(1).ok_or(Missing)?;
    let mut rows = [BLANK; 129];
    let mut cells = [0; 258];
    let mut loads = [0; 129];
    let mut job = Job::new(&mut rows, &mut cells);
    let light = [item(0, 1); 65];
    let heavy = [item(2, 1); 65];
    assert_eq!(rt;
        job.compile(&kind, &light[0..0], &mut loads)
            .map_err(told_of),
        Err([7, 0])
    );
    assert_eq!(rt;
        job.compile(&kind, &light, &mut loads).map_err(told_of),
        Err([7, 0])
    );
    assert_eq!(rt;
        job.compile(&kind, &heavy, &mut loads).map_err(told_of),
        Err([7, 0])
    );
    assert_eq!(rt; job.state(), State::Empty);
    assert_eq!(rt; job.compile(&kind, &light[0..64], &mut loads), Ok(129));
    Ok(())
}

// The rows, the cells and the loads given, with the nodes of the first example if there is room for them.
const ROOMS: [([usize; 3], Option<usize>); 7] = [
    ([8, 16, 8], Some(8)),
    ([7, 16, 8], None),
    ([8, 15, 8], None),
    ([8, 16, 7], None),
    ([8, 17, 16], Some(8)),
    ([16, 32, 8], Some(8)),
    ([0, 0, 0], None),
];

#[test]
fn rooms(rt: HostRuntime) -> Result<(), Fail> {
    let kind = Length::new(5).ok_or(Missing)?;
    for (room, nodes) in &ROOMS {
        let mut rows = [BLANK; 16];
        let mut cells = [0; 32];
        let mut loads = [0; 16];
        let [r, c, l] = *room;
        let mut job = Job::new(&mut rows[0..r.min(16)], &mut cells[0..c.min(32)]);
        let answer = job.compile(&kind, &boards_and_rails(), &mut loads[0..l.min(16)]);
        assert_eq!(rt; answer, nodes.ok_or(Refusal::TooManyNodes));
        assert_eq!(rt; job.state() == State::Open, answer.is_ok());
    }
    Ok(())
}

// Too many nodes empty a job that was open. The largest demand is no wrong item.
#[test]
fn emptied(rt: HostRuntime) -> Result<(), Fail> {
    let kind = Length::new(5).ok_or(Missing)?;
    let mut rows = [BLANK; 8];
    let mut cells = [0; 16];
    let mut job = Job::new(&mut rows, &mut cells);
    job.compile(&kind, &boards_and_rails(), &mut [0; 8])?;
    let answer = job.compile(&kind, &[item(0, 4_095)], &mut [0; 8]);
    assert_eq!(rt; answer.map_err(told_of), Err([11, 0]));
    assert_eq!(rt; job.state(), State::Empty);
    assert_eq!(rt; job.arc_flow(0), Err(Refusal::WrongState));
    assert_eq!(rt; job.compile(&kind, &boards_and_rails(), &mut [0; 8]), Ok(8));
    Ok(())
}

// The size of a job over so many rows and cells.
fn size(rt: HostRuntime, rows: usize, cells: usize) -> Result<usize, AllocError> {
    let mut row_memory = vec![in rt.alloc(); BLANK; rows]?;
    let mut cell_memory = vec![in rt.alloc(); 0; cells]?;
    Ok(Job::new(&mut row_memory, &mut cell_memory).size())
}

#[test]
fn job_sizes(rt: HostRuntime) {
    assert_eq!(rt; size(rt, 0, 9), Ok(0));
    assert_eq!(rt; size(rt, 9, 1), Ok(0));
    assert_eq!(rt; size(rt, 9, 7), Ok(3));
    assert_eq!(rt; size(rt, 3, 9), Ok(3));
    assert_eq!(rt; size(rt, 65_535, 131_070), Ok(65_535));
    assert_eq!(rt; size(rt, 65_536, 131_072), Ok(65_535));
}

// What lies past the answers keeps its content.
#[test]
fn memory_past(rt: HostRuntime) -> Result<(), Fail> {
    let kind = Length::new(5).ok_or(Missing)?;
    let mut rows = [BLANK; 10];
    let mut cells = [77; 20];
    let mut loads = [77; 10];
    let mut counts = [77; 4];
    let mut bytes = [7; 258];
    let mut job = Job::new(&mut rows, &mut cells);
    job.compile(&kind, &boards_and_rails(), &mut loads)?;
    job.place(&[1, 1], 2)?;
    job.accept()?;
    assert_eq!(rt;
        job.model_text(&mut bytes[0..255]),
        Err(Refusal::TooLittleMemory)
    );
    assert_eq!(rt; [bytes[0], bytes[254]], [7, 7]);
    assert_eq!(rt; job.model_text(&mut bytes), Ok(256));
    assert_eq!(rt;
        [bytes[0], bytes[255], bytes[256], bytes[257]],
        [b'M', b'\n', 7, 7]
    );
    assert_eq!(rt; job.peel(&mut counts), Ok(2));
    assert_eq!(rt; counts, [1, 1, 77, 77]);
    assert_eq!(rt; job.peel(&mut counts), Err(Refusal::NothingLeft));
    assert_eq!(rt; counts, [1, 1, 77, 77]);
    job.clear()?;
    assert_eq!(rt; loads, [0, 3, 0, 3, 2, 5, 4, 77, 77, 77]);
    assert_eq!(rt;
        [cells[15], cells[16], cells[17], cells[18], cells[19]],
        [0, 77, 77, 77, 77]
    );
    assert_eq!(rt; [rows[7].item, rows[8].item, rows[9].item], [3, 99, 99]);
    Ok(())
}
