// The steps that a node's arcs stand for.
ghost use Rattle.std.specs.Prelude.{◌≡◌};
ghost use Rattle.std.specs.Option.{option_map};
ghost use Rattle.compile.specs.Steps.{stepped, putting};

use graph::Row;
use limits::kind::Kind;

// One copy more, of this weight, or on to the next item.
#[derive(Clone, Copy)]
pub(crate) enum Step<L> {
    Take(L),
    Pass,
}

impl<L: Copy> Step<L> {
    // The load to which the step leads, if that fits.
    pub(crate) fn next<K: Kind<Load = L>>(&self, kind: &K, load: &L) -> Option<L>
        ensures { option_map K.amount result ≡ stepped K.amount (K.meaning kind.now) self.now (K.amount load.now) }
    {
        match self {
            Step::Take(weight) => kind.put(load, weight),
            Step::Pass => Some(*load),
        }
    }

    // The row with the arc of the step led to node `to`.
    pub(crate) fn led(&self, row: Row, to: u32) -> Row
        ensures { result ≡ putting self.now to row }
    {
        match self {
            Step::Take(_) => Row {
                take: Some(to),
                ..row
            },
            Step::Pass => Row {
                pass: Some(to),
                ..row
            },
        }
    }
}
