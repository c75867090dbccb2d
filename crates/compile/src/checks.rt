// What is wrong with items as they are given.
ghost use Rattle.std.specs.Prelude.{◌≡◌};
ghost use Rattle.packing.specs.Given.{fields_of, order_of, orders_of};
ghost use Rattle.packing.specs.Problem.{fits_alone, fair, flaw};
ghost use Rattle.compile.specs.Checks.{verdict};

use limits::kind::Kind;
use packing::{Item, MAX_DEMAND, MAX_ITEMS};
use refusal::Refusal;

// Whether the item has a weight that fits alone.
fn fits_alone<K: Kind>(kind: &K, item: &Item<'_>) -> bool
    ensures { result ≡ fits_alone (K.meaning kind.now) ((K.meaning kind.now).weight (fields_of item.now)) }
{
    kind.weigh(item.fields())
        .is_some_and(|weight| kind.put(&kind.empty(), &weight).is_some())
}

// Whether the item's demand is in its range, and its weight fits alone.
fn is_fair<K: Kind>(kind: &K, item: &Item<'_>) -> bool
    ensures { result ≡ fair (K.meaning kind.now) (order_of item.now) }
{
    (1..=MAX_DEMAND).contains(&item.demand) && fits_alone(kind, item)
}

// Refuses items with which something is wrong: none or too many of them, or else the lowest that is not fair.
pub fn check_items<K: Kind>(kind: &K, items: &[Item<'_>]) -> Result<(), Refusal>
    ensures { result ≡ verdict (flaw (K.meaning kind.now) (orders_of items.now)) }
{
    if items.is_empty() || items.len() > MAX_ITEMS {
        return Err(Refusal::BadItem { item: 0 });
    }
    match items.iter().position(|item| !is_fair(kind, item)) {
        Some(i) => Err(Refusal::BadItem { item: i as u32 + 1 }),
        None => Ok(()),
    }
}
