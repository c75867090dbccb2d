// What takes bytes: memory that they fill, or a count of the room that they need.
ghost use Rattle.std.specs.Prelude.{ℕ, List, decimal};
ghost use Rattle.lp.specs.Sinks.{LetGo, Measured, TakesInTurn, Written};
ghost use Rattle.lp.specs.SinkLaws.{measured_in_turn, written_in_turn};

use itoa::Buffer;

// Not std's `fmt::Write`: a write there may fail for no reason that a contract knows, and a text that has room is never refused.
pub(crate) trait Sink {
    // holds of the sink before, the bytes that it took, and the sink after
    ghost took: { Self → List ℕ → Self → Type 0 };

    fn put(&mut self, bytes: &[u8])
        ensures { took self.old bytes.now self.new };

    // The decimal digits of n.
    final fn put_number(&mut self, n: usize)
        ensures { took self.old (decimal n) self.new }
    {
        self.put(Buffer::new().format(n).as_bytes());
    }

    // what is taken piece by piece is taken as one
    ghost in_turn: { TakesInTurn took };
}

// The room that is left, or None where there was too little.
#[derive(Clone, Copy)]
pub(crate) struct Room {
    pub(crate) left: Option<usize>,
}

impl Sink for Room {
    ghost took = { Measured };

    ghost in_turn = { measured_in_turn };

    fn put(&mut self, bytes: &[u8]) {
        self.left = self.left.and_then(|left| left.checked_sub(bytes.len()));
    }
}

// Lent memory that is filled from its start. Bytes that find no room are let go.
#[derive(Drop)]
pub(crate) struct Writer<'a> {
    pub(crate) out: &'a mut [u8],
    pub(crate) at: usize,
}

impl<'a> Sink for Writer<'a> {
    ghost took = { Written };

    ghost in_turn = { written_in_turn };

    fn put(&mut self, bytes: &[u8])
        ensures took { Written self.old bytes.now self.new }
        ensures no_room { LetGo self.old bytes.now self.new }
    {
        if self.at <= self.out.len() && bytes.len() <= self.out.len() - self.at {
            let end = self.at + bytes.len();
            self.out[self.at..end].copy_from_slice(bytes);
            self.at = end;
        }
    }
}
