// The layered graph of a packing problem: its rows, and the theorems about its definitions in specs/.
#![tactic(auto)]

ghost use Rattle.std.specs.Prelude.{◌≡◌, None};
ghost use Rattle.graph.specs.Graph.{head, leads, row};
ghost use Rattle.graph.specs.Laws.{CompilesLayered, JoinsFix, PathsDetermined, Reduces, SpellsPatterns};
ghost use Rattle.graph.specs.Numbering.{CompiledStepped, NumberingFixed};

// The most nodes of a graph.
pub const MAX_NODES: usize = 65_535;

// One node of a graph: item i with `copies` of it taken, and the nodes to which its arcs lead.
// The pass arc goes on to the next item, the take arc takes one copy more. The target has neither. An arc is held as the
// number of the row to which it leads, since rows lie in lent memory and their numbers are promised.
#[derive(Clone, Copy, Debug, PartialEq, Eq)]
pub struct Row {
    pub item: u32,
    pub copies: u32,
    pub take: Option<u32>,
    pub pass: Option<u32>,
}

impl Row {
    // A node without arcs.
    pub fn new(item: u32, copies: u32) -> Row
        ensures { result ≡ row item copies None None }
    {
        Row {
            item,
            copies,
            take: None,
            pass: None,
        }
    }

    // Where an arc from this node leads, if it is there: a take arc has an odd number, a pass arc an even one.
    pub fn head(&self, arc: usize) -> Option<u32>
        ensures { result ≡ leads self.now arc }
    {
        if arc % 2 == 1 { self.take } else { self.pass }
    }
}

// Where an arc of a graph leads, if it is there. Its number tells the node from which it comes, and which arc of that node it is.
pub fn head_of(rows: &[Row], arc: usize) -> Option<u32>
    ensures { result ≡ head rows.now arc }
{
    rows.get(arc / 2)?.head(arc)
}

// A path is fixed by its counts, by which it can be found, and its counts by its arcs.
pub fn paths_determined()
    ensures { PathsDetermined }
{}

// The paths of a compiled graph spell exactly the patterns, each by one path, and reduction keeps that.
pub fn paths_spell_patterns()
    ensures { SpellsPatterns }
{}

// A compiled graph has the shape of a graph for its items.
pub fn compiled_is_layered()
    ensures { CompilesLayered }
{}

// The rule of numbering leaves just one graph, and that is the compiled one.
pub fn numbering_is_fixed()
    ensures compiled { CompiledStepped }
    ensures fixed { NumberingFixed }
{}

// Reduction joins the nodes with equal futures, and keeps the shape and the language of a graph.
pub fn reduction_keeps()
    ensures { Reduces }
{}

// The rule by which nodes are joined leaves just one graph.
pub fn joining_is_fixed()
    ensures { JoinsFix }
{}
