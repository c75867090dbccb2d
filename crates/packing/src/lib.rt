// What is packed: items as they are given, and the definitions of pattern and packing in specs/.
#![tactic(auto)]

ghost use Rattle.std.specs.Prelude.{◌≡◌};
ghost use Rattle.packing.specs.Given.{fields_of};
ghost use Rattle.packing.specs.Laws.{FindsFlaws, ListsPatterns, OrdersPackable};

// The most items of an instance.
pub const MAX_ITEMS: usize = 64;

// The most copies of an item that can be asked for.
pub const MAX_DEMAND: u32 = 4_095;

// The most fields of an item.
pub const MAX_FIELDS: usize = 4;

// An item: its name, which is a part of the text that it was read from, with the line of that text; its fields, which are
// the first `field_count` of the values, since a vector can't be copied as an item is; and how many of it are to be packed.
#[derive(Clone, Copy)]
pub struct Item<'t> {
    pub name: &'t [u8],
    pub line: usize,
    pub values: [u32; MAX_FIELDS],
    pub field_count: usize,
    pub demand: u32,
}

impl<'t> Item<'t> {
    // The fields.
    pub fn fields(&self) -> &[u32]
        ensures { result.now ≡ fields_of self.now }
    {
        let n = self.field_count.min(MAX_FIELDS);
        &self.values[..n]
    }
}

// The list of all patterns has each pattern once, and nothing else.
pub fn patterns_listed()
    ensures { ListsPatterns }
{}

// What is wrong with items is found in order.
pub fn flaws_found()
    ensures { FindsFlaws }
{}

// Items with which nothing is wrong can be packed.
pub fn orders_packable()
    ensures { OrdersPackable }
{}
