// Why a text or a call is refused, and where.
#![tactic(auto)]

ghost use Rattle.std.specs.Prelude.{◌≡◌, IfOk, Some, string_bytes};
ghost use Rattle.refusal.specs.Refusals.{numbers_of, refused_line, refused_text};

use std::alloc::{AllocError, Global};
use std::error::Error;
use std::fmt;

// Lines, fields and items are counted from 1, nodes and arcs from 0.
#[derive(Clone, Copy, Debug, PartialEq, Eq)]
pub enum Refusal {
    // a byte of a line that is no printable ASCII
    BadByte { line: usize },
    // a field that is no decimal number
    NotANumber { line: usize, field: usize },
    // too few or too many fields, or an empty one
    WrongFieldCount { line: usize },
    // a limit line whose first field is no letter that may stand there
    UnknownLetter { line: usize, field: usize },
    // a count, a limit or a demand outside its range
    OutOfRange { line: usize, field: usize },
    // a name that is too long, begins with a digit or was there before
    BadName { line: usize, field: usize },
    // a text that is empty, too long or without its last line feed
    MalformedText,
    // a text that ends early or goes on too long
    WrongLineCount { line: usize },
    // the job is not in the state that the call asks for
    WrongState,
    // the lowest item at fault: its demand, its fields or its weight; 0 for the number of items
    BadItem { item: u32 },
    // the graph has more nodes than the job or the memory for loads holds
    TooManyNodes,
    // the lowest arc that carries flow
    CarriesFlow { arc: u32 },
    // there is no arc, node or item of this number
    Absent { number: u32 },
    // a flow above the limit, or times that are 0 or above it
    FlowOutOfRange,
    // the counts are no pattern
    NoPattern,
    // the flow of an arc would pass the limit
    ArcOverLimit,
    // the lowest node whose inflow is not its outflow
    Unbalanced { node: u32 },
    // the flow out of the source is above the limit
    ValueOverLimit,
    // the lowest item with fewer copies than its demand
    BelowDemand { item: u32 },
    // no value is left
    NothingLeft,
    // too little memory for the answer
    TooLittleMemory,
}

// What is told of a refusal: its number, its layer, and the two numbers of its place. In a text the place is a line and a
// field, 0 where it has none; elsewhere `b` is 0.
#[derive(Clone, Copy, Debug, PartialEq, Eq)]
pub struct Numbers {
    pub number: usize,
    pub layer: usize,
    pub a: usize,
    pub b: usize,
}

fn make_numbers(number: usize, layer: usize, a: usize, b: usize) -> Numbers
    ensures { result ≡ record { number = number; layer = layer; a = a; b = b } }
{
    Numbers {
        number,
        layer,
        a,
        b,
    }
}

impl Refusal {
    pub fn numbers(&self) -> Numbers
        ensures { result ≡ numbers_of self.now }
    {
        match *self {
            Refusal::BadByte { line } => make_numbers(1, 1, line, 0),
            Refusal::NotANumber { line, field } => make_numbers(2, 1, line, field),
            Refusal::WrongFieldCount { line } => make_numbers(3, 2, line, 0),
            Refusal::UnknownLetter { line, field } => make_numbers(4, 2, line, field),
            Refusal::OutOfRange { line, field } => make_numbers(5, 2, line, field),
            Refusal::BadName { line, field } => make_numbers(6, 2, line, field),
            Refusal::MalformedText => make_numbers(8, 3, 0, 0),
            Refusal::WrongLineCount { line } => make_numbers(9, 3, line, 0),
            Refusal::WrongState => make_numbers(10, 4, 0, 0),
            Refusal::BadItem { item } => make_numbers(7, 4, item as usize, 0),
            Refusal::TooManyNodes => make_numbers(11, 4, 0, 0),
            Refusal::CarriesFlow { arc } => make_numbers(12, 4, arc as usize, 0),
            Refusal::Absent { number } => make_numbers(13, 4, number as usize, 0),
            Refusal::FlowOutOfRange => make_numbers(14, 4, 0, 0),
            Refusal::NoPattern => make_numbers(15, 4, 0, 0),
            Refusal::ArcOverLimit => make_numbers(16, 4, 0, 0),
            Refusal::Unbalanced { node } => make_numbers(18, 4, node as usize, 0),
            Refusal::ValueOverLimit => make_numbers(19, 4, 0, 0),
            Refusal::BelowDemand { item } => make_numbers(20, 4, item as usize, 0),
            Refusal::NothingLeft => make_numbers(21, 4, 0, 0),
            Refusal::TooLittleMemory => make_numbers(17, 4, 0, 0),
        }
    }

    // The line that tells of the refusal by its four numbers.
    pub fn line(&self, heap: Global) -> Result<String, AllocError>
        ensures { IfOk result (λ s. string_bytes s ≡ refused_line self.now) }
    {
        format!(in heap; "{self}\n")
    }
}

impl fmt::Display for Refusal {
    ghost output = { λ r. Some (refused_text r) };

    fn fmt<W: fmt::Write>(&self, f: &mut fmt::Formatter<W>) -> fmt::Result {
        let Numbers {
            number,
            layer,
            a,
            b,
        } = self.numbers();
        write!(f, "refused {number} {layer} {a} {b}")
    }
}

impl Error for Refusal {}
