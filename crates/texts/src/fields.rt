// The fields of a line, parted by single spaces, each a part of the line with its place.
ghost use Rattle.std.specs.Prelude.{◌+◌, ◌^◌, ◌<◌, length};
ghost use Rattle.std.specs.Option.{ForSome};

pub mod reading;

// A part of a text: its bytes, its line and its number in the line, both counted from 1.
#[derive(Clone, Copy)]
pub struct Part<'t> {
    pub bytes: &'t [u8],
    pub line: usize,
    pub number: usize,
}

// A field by its form: one letter, a decimal number, or any other word.
#[derive(Clone, Copy)]
pub enum Field {
    Word,
    Number(u32),
    Letter(char),
}

// A reader of the fields of one line.
#[derive(Clone, Copy)]
pub struct Fields<'t> {
    // what is yet to be read, unless the line has ended
    rest: Option<&'t [u8]>,
    // the number of the line
    line: usize,
    // how many fields were handed out
    number: usize,
    ghost counted: { ForSome rest (λ bytes. number + length bytes.now < 2 ^ 63) },
}
