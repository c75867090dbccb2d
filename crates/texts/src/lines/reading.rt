// Reading a text line by line.
ghost use Rattle.std.specs.Prelude.{◌≡◌, ◌+◌, IfOk, MatchOption, OnOk};
ghost use Rattle.texts.specs.Grammar.{prints_of, printable, line_at, end_at, well_formed, formed};
ghost use Rattle.texts.specs.Readers.{lines_left, AllLines, LineGiven, LinesEnded, LinesMoved, line_seen};

use super::{Line, Lines};
use crate::split::split_once;
use refusal::Refusal;

// The most bytes of a text.
pub const MAX_TEXT: usize = 65_536;

// Whether a byte is printable ASCII.
fn prints(b: u8) -> bool
    ensures { result ≡ prints_of b }
{
    (b' '..=b'~').contains(&b)
}

// Whether all bytes are printable ASCII. By itself, so that its loop has the registers to itself.
#[inline(never)]
fn is_printable(bytes: &[u8]) -> bool
    ensures { result ≡ printable bytes.now }
{
    bytes.iter().all(|b| prints(*b))
}

// Whether a text has 1 to `MAX_TEXT` bytes and ends with a line feed.
fn is_well_formed(text: &[u8]) -> bool
    ensures { result ≡ well_formed text.now }
{
    text.len() <= MAX_TEXT && text.ends_with(b"\n")
}

// Refuses a text that is empty, too long or without its last line feed.
pub(crate) fn check_text(text: &[u8]) -> Result<(), Refusal>
    ensures { result ≡ formed text.now }
{
    if is_well_formed(text) {
        Ok(())
    } else {
        Err(Refusal::MalformedText)
    }
}

impl<'t> Lines<'t> {
    // All lines of a text.
    pub(crate) fn new(text: &'t [u8]) -> Self
        ensures { AllLines text.now result }
    {
        Lines {
            rest: text,
            number: 0,
        }
    }

    // The next line, whatever its bytes. An empty rest is no line, while it is a field: so the readers of lines and of
    // fields are two, and share the cut alone.
    #[tactic(auto, using(crate::proofs::Splits::lines_none))]
    pub(crate) fn next(&mut self) -> Option<Line<'t>>
        ensures { MatchOption result (LinesEnded self.old self.new) (λ line. LineGiven self.old line self.new) }
    {
        if self.rest.is_empty() {
            return None;
        }
        let (bytes, rest) = split_once(self.rest, b'\n');
        self.rest = rest.unwrap_or(&[]);
        self.number += 1;
        Some(Line {
            bytes,
            number: self.number,
        })
    }

    // The next line, which has to be there and to be printable.
    pub(crate) fn line(&mut self) -> Result<Line<'t>, Refusal>
        ensures value { line_seen result ≡ line_at (self.old.number + 1) (lines_left self.old) }
        ensures number { IfOk result (λ line. line.number ≡ self.old.number + 1) }
        ensures moved { OnOk result (LinesMoved 1 self.old self.new) }
    {
        let line = self.next().ok_or(Refusal::WrongLineCount {
            line: self.number + 1,
        })?;
        if is_printable(line.bytes) {
            Ok(line)
        } else {
            Err(Refusal::BadByte { line: line.number })
        }
    }

    // Refuses if a line is left.
    pub(crate) fn end(mut self) -> Result<(), Refusal>
        ensures { result ≡ end_at (self.entry.number + 1) (lines_left self.entry) }
    {
        match self.next() {
            None => Ok(()),
            Some(line) => Err(Refusal::WrongLineCount { line: line.number }),
        }
    }
}
