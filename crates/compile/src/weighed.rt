// Items with their weights.
ghost use Rattle.std.specs.Prelude.{◌≤◌};

use limits::kind::Kind;
use packing::Item;

// An item by its number, from 1 on, a load of its weight, and the most copies of it.
#[derive(Drop)]
pub(crate) struct Weighed<L> {
    pub(crate) number: u32,
    pub(crate) weight: L,
    pub(crate) most: u32,
    ghost small: { number ≤ 64 },
}

impl<L: Copy> Weighed<L> {
    ghost use Rattle.std.specs.Prelude.{◌≡◌, MatchOption};
    ghost use Rattle.packing.specs.Given.{fields_of};
    ghost use Rattle.compile.specs.Items.{Weighs};

    // An item as it is given, with its number. None if its fields have no weight.
    pub(crate) fn new<K: Kind<Load = L>>(
        kind: &K,
        item: &Item<'_>,
        number: u32,
    ) -> Option<Weighed<L>>
        requires { number ≤ 64 }
        ensures { MatchOption result (None ≡ (K.meaning kind.now).weight (fields_of item.now)) (Weighs K.amount (K.meaning kind.now) item.now number) }
    {
        // No `map`: in its closure the ghost field is not proved.
        let weight = kind.weigh(item.fields())?;
        Some(Weighed {
            number,
            weight,
            most: item.demand,
        })
    }
}
