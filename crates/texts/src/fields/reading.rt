// Reading a line field by field.
ghost use Rattle.std.specs.Prelude.{◌≡◌, ◌+◌, ◌≤◌, [], length, Ok, IfOk, MatchOption, MatchResult, OnOk, OnSome};
ghost use Rattle.texts.specs.Valid.{Within};
ghost use Rattle.texts.specs.Words.{form};
ghost use Rattle.texts.specs.Parts.{words_left, PartGiven, PartMissing, FieldsEnded, AllFields, Moved};
ghost use Rattle.texts.specs.Grammar.{and_then, just, shape, number_at, numbers_at, first_letter, sole_number, four_numbers};

use super::{Field, Fields, Part};
use crate::lines::Line;
use crate::split::split_once;
use crate::words::{MAX_NUMBER, parse_decimal};
use packing::MAX_FIELDS;
use refusal::Refusal;

// A field by the form of its bytes.
pub(crate) fn classify(bytes: &[u8]) -> Field
    ensures { result ≡ form bytes.now }
{
    match bytes {
        [b] if b.is_ascii_alphabetic() => Field::Letter(*b as char),
        bytes => parse_decimal(bytes).map_or(Field::Word, Field::Number),
    }
}

impl<'t> Fields<'t> {
    // All fields of a line.
    pub(crate) fn new(line: Line<'t>) -> Self
        ensures { AllFields line.entry result }
    {
        Fields {
            rest: Some(line.bytes),
            line: line.number,
            number: 0,
        }
    }

    // The next field, whatever its form.
    #[tactic(auto, using(crate::proofs::Splits::words_cons))]
    pub(crate) fn next(&mut self) -> Option<Part<'t>>
        ensures { MatchOption result (FieldsEnded self.old self.new) (λ part. PartGiven self.old part self.new) }
    {
        let (bytes, rest) = split_once(self.rest?, b' ');
        self.rest = rest;
        self.number += 1;
        Some(Part {
            bytes,
            line: self.line,
            number: self.number,
        })
    }

    // The next field, where it is a letter.
    pub(crate) fn letter(&mut self) -> Option<char>
        ensures value { result ≡ first_letter (words_left self.old) }
        ensures moved { OnSome result (Moved 1 self.old self.new) }
    {
        match classify(self.next()?.bytes) {
            Field::Letter(letter) => Some(letter),
            _ => None,
        }
    }

    // The next field, which has to be there.
    pub(crate) fn part(&mut self) -> Result<Part<'t>, Refusal>
        ensures { MatchResult result (λ part. PartGiven self.old part self.new) (λ e. PartMissing self.old e self.new) }
    {
        self.next()
            .ok_or(Refusal::WrongFieldCount { line: self.line })
    }

    // Whether just `n` fields are left, none of them empty.
    fn has_just(mut self, n: usize) -> bool
        ensures { result ≡ just n (words_left self.entry) }
    {
        for _ in 0..n {
            if self.next().is_none_or(|part| part.bytes.is_empty()) {
                return false;
            }
        }
        self.next().is_none()
    }

    // Refuses unless just `n` fields are left, none of them empty.
    pub(crate) fn expect(&self, n: usize) -> Result<(), Refusal>
        ensures { result ≡ shape self.now.line n (words_left self.now) }
    {
        if self.has_just(n) {
            Ok(())
        } else {
            Err(Refusal::WrongFieldCount { line: self.line })
        }
    }

    // The next field as a number from `low` to `high`.
    pub(crate) fn number(&mut self, low: u32, high: u32) -> Result<u32, Refusal>
        ensures value { result ≡ number_at low high self.old.line (self.old.number + 1) (words_left self.old) }
        ensures range { IfOk result (Within low high) }
        ensures moved { OnOk result (Moved 1 self.old self.new) }
    {
        let Part {
            bytes,
            line,
            number: field,
        } = self.part()?;
        match classify(bytes) {
            Field::Number(n) if (low..=high).contains(&n) => Ok(n),
            Field::Number(_) => Err(Refusal::OutOfRange { line, field }),
            _ => Err(Refusal::NotANumber { line, field }),
        }
    }

    // The next fields as numbers, one for each of `values`.
    #[tactic(auto, using(crate::proofs::Counts::numbers_step), unfolding(crate::specs::Grammar::numbers_at))]
    pub(crate) fn numbers(&mut self, values: &mut [u32]) -> Result<(), Refusal>
        ensures value { numbers_at self.old.line (self.old.number + 1) (length values.old) (words_left self.old) []
            ≡ and_then result (λ _. Ok values.new) }
        ensures moved { OnOk result (Moved (length values.old) self.old self.new) }
    {
        for value in values.iter_mut() {
            *value = self.number(0, MAX_NUMBER)?;
        }
        Ok(())
    }

    // The one field that is left, as a number from `low` to `high`.
    pub(crate) fn sole_number(mut self, low: u32, high: u32) -> Result<u32, Refusal>
        ensures value { result ≡ sole_number low high self.entry.line (self.entry.number + 1) (words_left self.entry) }
        ensures range { IfOk result (Within low high) }
    {
        self.expect(1)?;
        self.number(low, high)
    }

    // The four fields that are left, as numbers.
    pub(crate) fn four_numbers(mut self) -> Result<[u32; MAX_FIELDS], Refusal>
        ensures { result ≡ four_numbers self.entry.line (self.entry.number + 1) (words_left self.entry) }
    {
        self.expect(MAX_FIELDS)?;
        let mut four = [0; MAX_FIELDS];
        self.numbers(&mut four)?;
        Ok(four)
    }
}
