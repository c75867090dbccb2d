// A packing instance as it is read from a text.
ghost use Rattle.std.specs.Prelude.{◌≡◌, ◌≤◌, [], IfOk, None, vec_capacity};
ghost use Rattle.texts.specs.Grammar.{field_count_of};
ghost use Rattle.texts.specs.declared.instance.Base.TheVariants.{Length};
ghost use Rattle.texts.specs.declared.instance.ReadError.TheVariants.{OutOfMemory, Refused};

use packing::{Item, MAX_FIELDS, MAX_ITEMS};
use refusal::Refusal;
use std::alloc::{AllocError, Global};

pub mod header;
pub mod reading;

// What limits a bin: a length, four resources, or a number of colours.
#[derive(Clone, Copy)]
pub enum Base {
    Length(u32),
    Vector([u32; MAX_FIELDS]),
    Colours(u32),
}

impl Base {
    // How many fields an item has.
    pub(crate) fn field_count(self) -> usize
        ensures value { result ≡ field_count_of self }
        ensures few { result ≤ 4 }
    {
        match self {
            Base::Length(_) | Base::Colours(_) => 1,
            Base::Vector(four) => four.len(),
        }
    }
}

// The limits of a bin; `count` is the most items in it, where that is limited too.
#[derive(Clone, Copy)]
pub struct Limits {
    pub base: Base,
    pub count: Option<u32>,
}

// Limits and items, whose names are parts of the text that they were read from.
#[derive(Drop)]
pub struct Instance<'t> {
    pub limits: Limits,
    pub items: Vec<Item<'t>>,
}

// Why no instance was read: the text is refused, or there is no memory for the items.
#[derive(Clone, Copy, Debug)]
pub enum ReadError {
    Refused(Refusal),
    OutOfMemory,
}

impl From<Refusal> for ReadError {
    ghost from_gives = { λ refusal e. e ≡ Refused refusal };

    fn from(refusal: Refusal) -> ReadError {
        ReadError::Refused(refusal)
    }
}

impl From<AllocError> for ReadError {
    ghost from_gives = { λ _ e. e ≡ OutOfMemory };

    fn from(_e: AllocError) -> ReadError {
        ReadError::OutOfMemory
    }
}

impl<'t> Instance<'t> {
    // An instance without items, with room for as many as a text may have.
    pub fn new(heap: Global) -> Result<Self, AllocError>
        ensures items { IfOk result (λ i. i.items.items ≡ []) }
        ensures room { IfOk result (λ i. 64 ≤ vec_capacity i.items) }
        ensures limits { IfOk result (λ i. i.limits ≡ record { base = Length 1; count = None }) }
    {
        let items = Vec::with_capacity(heap, MAX_ITEMS)?;
        Ok(Instance {
            limits: Limits {
                base: Base::Length(1),
                count: None,
            },
            items,
        })
    }
}
