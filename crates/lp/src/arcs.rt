// Arcs as entries of the text, one after another.
ghost use Rattle.std.specs.Prelude.{◌≡◌, ℕ, ◌+◌, ◌*◌, ◌≤◌, List, ◌++◌, map, length};
ghost use Rattle.std.specs.Iterator.{Drains, UpTo};
ghost use Rattle.flow.specs.Arcs.{all_arcs};
ghost use Rattle.flow.specs.Model.{Variable.X};
ghost use Rattle.flow.specs.Text.{break, entries, full, listed};
ghost use Rattle.lp.specs.Writing.{arc_entry, lead as leading};

use crate::links::LinkedGraph;
use crate::sink::Sink;
use graph::head_of;

// Entries to a line of the text.
const PER_LINE: usize = 8;

// What stands before a variable.
#[derive(Clone, Copy)]
pub(crate) enum Lead {
    Listed,
    Added,
    TakenOff,
}

impl Lead {
    // The text that stands before a variable after k others.
    fn text(self, k: usize) -> &'static [u8]
        ensures { result.now ≡ leading self k }
    {
        match self {
            Lead::Listed => b" ",
            Lead::Added if k == 0 => b" ",
            Lead::Added => b" + ",
            Lead::TakenOff => b" - ",
        }
    }
}

// Whether the line breaks before an entry that follows k others.
fn breaks(k: usize) -> bool
    ensures { result ≡ full k }
{
    k > 0 && k % PER_LINE == 0
}

// The line break before an entry that follows k others, if there is one.
pub(crate) fn line_break(k: usize) -> &'static [u8]
    ensures { result.now ≡ break k }
{
    if breaks(k) { b"\n" } else { b"" }
}

// One arc's variable after k other entries.
fn write_arc<S: Sink>(sink: &mut S, lead: Lead, k: usize, arc: usize)
    ensures { S.took sink.old (break k ++ arc_entry lead k arc) sink.new }
{
    sink.put(line_break(k));
    sink.put(lead.text(k));
    sink.put(b"x");
    sink.put_number(arc);
}

// The variables of arcs, after k other entries. Answers how many entries stand now.
// `k` stands beside the sink: a struct of both would borrow the sink, and each clause would also say that it is the same sink.
pub(crate) fn write_arcs<S: Sink, I: Iterator<Item = usize> + Drop>(
    sink: &mut S,
    lead: Lead,
    k: usize,
    arcs: I,
) -> usize
    requires can { I.can_next arcs }
    requires few { UpTo (I.remaining arcs) 131070 }
    requires before { k ≤ 2 }
    ensures took { (xs : List ℕ) × Drains I.next_gives arcs xs × S.took sink.old (entries (arc_entry lead) k xs) sink.new }
    ensures count { (xs : List ℕ) × Drains I.next_gives arcs xs × (result ≡ k + length xs) }
{
    // counted by hand, since the count is the answer
    let mut count = k;
    for arc in arcs {
        write_arc(sink, lead, count, arc);
        count += 1;
    }
    count
}

// The variables of all arcs, by rising number, after z.
pub(crate) fn write_variables<S: Sink>(sink: &mut S, graph: LinkedGraph)
    ensures { S.took sink.old (entries listed 1 (map X (all_arcs graph.entry.rows.now))) sink.new }
{
    let rows = graph.rows;
    let arcs = (0..2 * rows.len()).filter(|arc| head_of(rows, *arc).is_some());
    write_arcs(sink, Lead::Listed, 1, arcs);
}
