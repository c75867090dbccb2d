// The item lines, and the whole text.
ghost use Rattle.std.specs.Prelude.{◌≡◌, ◌+◌, ◌≤◌, [], Ok, vec_capacity, vec_len, OnErr, OnOk};
ghost use Rattle.texts.specs.Grammar.{and_then, known, good_name, name_at, field_count_of, item_of, item_at, items_at, spelled, items_section, reads};
ghost use Rattle.texts.specs.Entries.{names_in, entries_in, entry_seen, spelled_in, Answers};
ghost use Rattle.texts.specs.Valid.{Valid};
ghost use Rattle.texts.specs.Parts.{words_left, Moved};
ghost use Rattle.texts.specs.Readers.{lines_left, reading, LinesMoved, seen};
ghost use Rattle.texts.specs.Split.{words};

use super::header::{read_item_count, read_limits};
use super::{Base, Instance, Limits, ReadError};
use crate::fields::{Fields, Part};
use crate::lines::reading::check_text;
use crate::lines::{Line, Lines};
use packing::{Item, MAX_DEMAND, MAX_FIELDS, MAX_ITEMS};
use refusal::Refusal;

// The most bytes of a name.
pub const MAX_NAME: usize = 16;

// Whether an item has this name.
fn is_known(name: &[u8], items: &[Item]) -> bool
    ensures { result ≡ known name.now (names_in items.now) }
{
    items.iter().any(|item| item.name == name)
}

// Whether a field can be the name of the item after these.
fn is_good_name(name: &[u8], items: &[Item]) -> bool
    ensures { result ≡ good_name (names_in items.now) name.now }
{
    (1..=MAX_NAME).contains(&name.len()) && !name[0].is_ascii_digit() && !is_known(name, items)
}

// The next field as a name that no earlier item has.
fn name_of<'t>(fields: &mut Fields<'t>, items: &[Item]) -> Result<&'t [u8], Refusal>
    ensures value { seen result ≡ name_at fields.old.line (fields.old.number + 1) (names_in items.now) (words_left fields.old) }
    ensures moved { OnOk result (Moved 1 fields.old fields.new) }
{
    let Part {
        bytes,
        line,
        number: field,
    } = fields.part()?;
    if is_good_name(bytes, items) {
        Ok(bytes)
    } else {
        Err(Refusal::BadName { line, field })
    }
}

// A line as an item, under a limit.
fn item_of<'t>(line: Line<'t>, base: Base, items: &[Item]) -> Result<Item<'t>, Refusal>
    ensures { entry_seen result ≡ item_of (field_count_of base) line.entry.number (names_in items.now) (words line.entry.bytes.now) }
{
    let field_count = base.field_count();
    let mut fields = Fields::new(line);
    fields.expect(field_count + 2)?;
    let name = name_of(&mut fields, items)?;
    let mut values = [0; MAX_FIELDS];
    fields.numbers(&mut values[..field_count])?;
    let demand = fields.number(1, MAX_DEMAND)?;
    Ok(Item {
        name,
        line: line.number,
        values,
        field_count,
        demand,
    })
}

// The next line as an item, under a limit.
fn read_item<'t>(lines: &mut Lines<'t>, base: Base, items: &[Item]) -> Result<Item<'t>, Refusal>
    ensures value { entry_seen result ≡ item_at (field_count_of base) (lines.old.number + 1) (names_in items.now) (lines_left lines.old) }
    ensures moved { OnOk result (LinesMoved 1 lines.old lines.new) }
{
    item_of(lines.line()?, base, items)
}

// `n` items more, one to a line, into a table that has room for them.
#[tactic(auto, using(crate::proofs::Items::items_step), unfolding(crate::specs::Grammar::items_at))]
fn read_items<'t>(
    lines: &mut Lines<'t>,
    base: Base,
    n: usize,
    items: &mut Vec<Item<'t>>,
) -> Result<(), Refusal>
    requires { vec_len items.old + n ≤ vec_capacity items.old }
    ensures value { items_at (field_count_of base) (lines.old.number + 1) n (lines_left lines.old) (entries_in items.old.items)
        ≡ and_then result (λ _. Ok (entries_in items.new.items)) }
    ensures moved { OnOk result (LinesMoved n lines.old lines.new) }
{
    for _ in 0..n {
        let item = read_item(lines, base, items)?;
        items.push_reserved(item);
    }
    Ok(())
}

// The section of items, which ends the text, into a table that has room for them.
#[tactic(auto, unfolding(crate::specs::Grammar::section))]
fn read_items_section<'t>(
    lines: &mut Lines<'t>,
    limits: Limits,
    items: &mut Vec<Item<'t>>,
) -> Result<(), Refusal>
    requires { 64 ≤ vec_capacity items.old }
    ensures { reading (items_section limits.base limits.count) lines.old
        ≡ and_then result (λ _. Ok (record { limits = limits; items = entries_in items.new.items })) }
{
    let n = read_item_count(lines)?;
    items.clear();
    read_items(lines, limits.base, n as usize, items)?;
    lines.end()
}

// A text, whose items go into a table that has room for them.
#[tactic(auto, unfolding(crate::specs::Grammar::reads))]
fn read_text<'t>(text: &'t [u8], items: &mut Vec<Item<'t>>) -> Result<Limits, Refusal>
    requires { 64 ≤ vec_capacity items.old }
    ensures { reads text.now ≡ spelled result (entries_in items.new.items) }
{
    check_text(text)?;
    let mut lines = Lines::new(text);
    let limits = read_limits(&mut lines)?;
    read_items_section(&mut lines, limits, items)?;
    Ok(limits)
}

// The instance that a text spells. An error leaves an instance without items, and its limits as they were.
pub fn read_instance<'t>(text: &'t [u8], into: &mut Instance<'t>) -> Result<(), ReadError>
    ensures answer { Answers (vec_capacity into.old.items) text.now (spelled_in into.new) result }
    ensures valid { OnOk result (Valid (spelled_in into.new)) }
    ensures cleared { OnErr result (into.new.items.items ≡ []) }
    ensures kept { OnErr result (into.new.limits ≡ into.old.limits) }
{
    into.items.clear();
    into.items.reserve(MAX_ITEMS)?;
    // By cases: of a closure that clears the items, a proof would not know that it ran.
    match read_text(text, &mut into.items) {
        Ok(limits) => {
            into.limits = limits;
            Ok(())
        }
        Err(refusal) => {
            into.items.clear();
            Err(refusal.into())
        }
    }
}
