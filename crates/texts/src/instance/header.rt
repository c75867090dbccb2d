// The lines with a count, and the limit lines.
ghost use Rattle.std.specs.Prelude.{◌≡◌, ◌+◌, ◌-◌, ◌≤◌, IfOk, OnOk};
ghost use Rattle.texts.specs.Grammar.{and_then, sole_number, count_at, base_of, base_at, count_limit_of, count_limit_at, second_at, items_section, sections};
ghost use Rattle.texts.specs.Readers.{lines_left, reading, LinesMoved};
ghost use Rattle.texts.specs.Split.{words};
ghost use Rattle.texts.specs.Valid.{Within};

use super::{Base, Limits};
use crate::fields::Fields;
use crate::lines::{Line, Lines};
use crate::words::MAX_NUMBER;
use limits::colours::COLOURS;
use limits::counted::MOST_ITEMS;
use packing::MAX_ITEMS;
use refusal::Refusal;

// The most colours in a bin.
pub const MAX_COLOURS: u32 = COLOURS;

// The highest limit on the items in a bin.
pub const MAX_COUNT: u32 = MOST_ITEMS;

// A line as one number from `low` to `high`.
fn count_of(line: Line, low: u32, high: u32) -> Result<u32, Refusal>
    ensures value { result ≡ sole_number low high line.entry.number 1 (words line.entry.bytes.now) }
    ensures range { IfOk result (Within low high) }
{
    Fields::new(line).sole_number(low, high)
}

// The next line as one number from `low` to `high`.
fn read_count(lines: &mut Lines, low: u32, high: u32) -> Result<u32, Refusal>
    ensures value { result ≡ count_at low high (lines.old.number + 1) (lines_left lines.old) }
    ensures range { IfOk result (Within low high) }
    ensures moved { OnOk result (LinesMoved 1 lines.old lines.new) }
{
    count_of(lines.line()?, low, high)
}

// The line with the number of items.
pub(crate) fn read_item_count(lines: &mut Lines) -> Result<u32, Refusal>
    ensures value { result ≡ count_at 1 64 (lines.old.number + 1) (lines_left lines.old) }
    ensures range { IfOk result (λ n. n ≤ 64) }
    ensures moved { OnOk result (LinesMoved 1 lines.old lines.new) }
{
    read_count(lines, 1, MAX_ITEMS as u32)
}

// A letter and the limits that it asks for.
fn base_of(line: Line) -> Result<Base, Refusal>
    ensures { result ≡ base_of line.entry.number (words line.entry.bytes.now) }
{
    let mut fields = Fields::new(line);
    match fields.letter() {
        Some('L') => fields.sole_number(1, MAX_NUMBER).map(Base::Length),
        Some('V') => fields.four_numbers().map(Base::Vector),
        Some('C') => fields.sole_number(0, MAX_COLOURS).map(Base::Colours),
        _ => Err(Refusal::UnknownLetter {
            line: line.number,
            field: 1,
        }),
    }
}

// The first limit line.
fn read_base(lines: &mut Lines) -> Result<Base, Refusal>
    ensures value { result ≡ base_at (lines.old.number + 1) (lines_left lines.old) }
    ensures moved { OnOk result (LinesMoved 1 lines.old lines.new) }
{
    base_of(lines.line()?)
}

// The letter N and the limit on the number of items.
fn count_limit_of(line: Line) -> Result<u32, Refusal>
    ensures { result ≡ count_limit_of line.entry.number (words line.entry.bytes.now) }
{
    let mut fields = Fields::new(line);
    match fields.letter() {
        Some('N') => fields.sole_number(1, MAX_COUNT),
        _ => Err(Refusal::UnknownLetter {
            line: line.number,
            field: 1,
        }),
    }
}

// The second limit line.
fn read_count_limit(lines: &mut Lines) -> Result<u32, Refusal>
    ensures value { result ≡ count_limit_at (lines.old.number + 1) (lines_left lines.old) }
    ensures moved { OnOk result (LinesMoved 1 lines.old lines.new) }
{
    count_limit_of(lines.line()?)
}

// The second limit line, if there are two.
fn read_second(lines: &mut Lines, limits: u32) -> Result<Option<u32>, Refusal>
    requires { limits ≤ 2 }
    ensures value { result ≡ second_at limits (lines.old.number + 1) (lines_left lines.old) }
    ensures moved { OnOk result (LinesMoved (limits - 1) lines.old lines.new) }
{
    if limits < 2 {
        Ok(None)
    } else {
        read_count_limit(lines).map(Some)
    }
}

// The section of limits.
#[tactic(auto, unfolding(crate::specs::Grammar::section))]
pub(crate) fn read_limits(lines: &mut Lines) -> Result<Limits, Refusal>
    ensures { reading sections lines.old
        ≡ and_then result (λ limits. reading (items_section limits.base limits.count) lines.new) }
{
    let limits = read_count(lines, 1, 2)?;
    let base = read_base(lines)?;
    let count = read_second(lines, limits)?;
    Ok(Limits { base, count })
}
