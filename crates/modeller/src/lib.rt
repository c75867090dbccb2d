// From the text of an instance to its model text: what the program `model` prints.
#![tactic(auto)]

ghost use Rattle.std.specs.Prelude.{◌≡◌, ◌/◌, ◌≤◌, min, length, IfOk, vec_len};
ghost use Rattle.refusal.specs.Refusals.{refused_line};
ghost use Rattle.packing.specs.Given.{orders_of};
ghost use Rattle.flow.specs.Job.{View, answers};
ghost use Rattle.texts.specs.Valid.{CountLimit, Limit};
ghost use Rattle.modeller.specs.Printed.{bytes_in, calls, limits_meaning, modelled, prints, shown, under_count};

use graph::Row;
use job::job::Job;
use limits::colours::Colours;
use limits::counted::Counted;
use limits::kind::Kind;
use limits::length::Length;
use limits::vector::{Four, Vector};
use packing::Item;
use refusal::Refusal;
use std::alloc::{AllocError, Global};
use texts::{Base, Instance, Limits, ReadError, read_instance};

// The most nodes of a graph of this program: another has its own.
const NODES: usize = 512;

// Two cells for each node.
const CELLS: usize = 2 * NODES;

// The bytes that are given for a model text.
const TEXT: usize = 65_536;

// Compiles, reduces and writes the model text on a new job.
fn write_model<K: Kind>(
    kind: &K,
    items: &[Item<'_>],
    rows: &mut [Row],
    cells: &mut [u32],
    loads: &mut [K::Load],
    out: &mut [u8],
) -> Result<usize, Refusal>
    ensures { shown (answers (min (min (length rows.old) (length cells.old / 2)) 65535) View.Empty (calls (K.meaning kind.now) (orders_of items.now) (length loads.old) (length out.old)))
        ≡ bytes_in out.new result }
{
    let mut job = Job::new(rows, cells);
    job.compile(kind, items, loads)?;
    job.reduce()?;
    job.model_text(out)
}

// The bytes of the line that tells of a refusal.
fn line_of(heap: Global, refusal: Refusal) -> Result<Vec<u8>, AllocError>
    ensures { IfOk result (λ v. v.items ≡ refused_line refusal) }
{
    Ok(refusal.line(heap)?.into_bytes())
}

// What is answered with `out` as memory, as bytes.
fn bytes_of(
    heap: Global,
    mut out: Vec<u8>,
    answer: Result<usize, Refusal>,
) -> Result<Vec<u8>, AllocError>
    ensures { IfOk result (λ v. v.items ≡ bytes_in out.items answer) }
{
    match answer {
        Ok(length) => {
            out.truncate(length);
            Ok(out)
        }
        Err(refusal) => line_of(heap, refusal),
    }
}

// The model text of the items under a kind, or the line of the refusal.
fn model_for<K: Kind>(heap: Global, kind: &K, items: &[Item<'_>]) -> Result<Vec<u8>, AllocError>
    ensures { IfOk result (λ v. v.items ≡ modelled (K.meaning kind.now) (orders_of items.now)) }
{
    let mut rows = vec![in heap; Row::new(0, 0); NODES]?;
    let mut cells = vec![in heap; 0; CELLS]?;
    let mut loads = vec![in heap; kind.empty(); NODES]?;
    let mut out = vec![in heap; 0; TEXT]?;
    let answer = write_model(kind, items, &mut rows, &mut cells, &mut loads, &mut out);
    bytes_of(heap, out, answer)
}

// The same with the number of items in a bin limited too, if it is.
fn model_under<K: Kind + Drop>(
    heap: Global,
    kind: K,
    count: Option<u32>,
    items: &[Item<'_>],
) -> Result<Vec<u8>, AllocError>
    requires { CountLimit count }
    ensures { IfOk result (λ v. v.items ≡ modelled (under_count count (K.meaning kind)) (orders_of items.now)) }
{
    let Some(most) = count else {
        return model_for(heap, &kind, items);
    };
    model_for(heap, &Counted::new(most, kind).unwrap(), items)
}

// The model text of items under limits, or the line of the refusal.
fn model_within(heap: Global, limits: Limits, items: &[Item<'_>]) -> Result<Vec<u8>, AllocError>
    requires base { Limit limits.base }
    requires count { CountLimit limits.count }
    ensures { IfOk result (λ v. v.items ≡ modelled (limits_meaning limits) (orders_of items.now)) }
{
    let count = limits.count;
    // by cases: each kind is a type of its own
    match limits.base {
        Base::Length(limit) => model_under(heap, Length::new(limit).unwrap(), count, items),
        Base::Vector(four) => {
            let [w, x, y, z] = four;
            let kind = Vector::new(Four { w, x, y, z }).unwrap();
            model_under(heap, kind, count, items)
        }
        Base::Colours(limit) => model_under(heap, Colours::new(limit).unwrap(), count, items),
    }
}

// What is printed for a text: the model of the instance that it spells, or the line of the refusal.
pub fn model_of(heap: Global, text: &[u8]) -> Result<Vec<u8>, AllocError>
    ensures { IfOk result (λ v. v.items ≡ prints text.now) }
{
    let mut instance = Instance::new(heap)?;
    match read_instance(text, &mut instance) {
        Ok(()) => model_within(heap, instance.limits, &instance.items),
        Err(ReadError::Refused(refusal)) => line_of(heap, refusal),
        // by hand, since the other error is printed
        Err(ReadError::OutOfMemory) => Err(AllocError),
    }
}
