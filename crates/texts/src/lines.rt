// Lines of a text, each ended by a line feed, handed out one by one as parts of the text itself.
ghost use Rattle.std.specs.Prelude.{◌+◌, ◌^◌, ◌<◌, length};

pub mod reading;

// A line, without its line feed, and its number in the text, counted from 1.
#[derive(Clone, Copy)]
pub struct Line<'t> {
    pub bytes: &'t [u8],
    pub number: usize,
}

// A reader of the lines of a text.
#[derive(Clone, Copy)]
pub struct Lines<'t> {
    // what is yet to be read
    rest: &'t [u8],
    // how many lines were handed out
    number: usize,
    ghost counted: { number + length rest.now < 2 ^ 63 },
}
