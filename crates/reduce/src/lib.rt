// Reduction of a layered graph in place.
#![tactic(auto)]

ghost use Rattle.std.specs.Prelude.{◌≡◌, ℕ, ◌+◌, ◌-◌, ◌*◌, ◌<◌, ◌≤◌, length, All, nat_eq, slice_index};
ghost use Rattle.lists.specs.Entries.{entries, spare, SameMemory};
ghost use Rattle.packing.specs.Distinct.{distinct};
ghost use Rattle.graph.specs.Reduced.{classes, led, reduced};
ghost use Rattle.reduce.specs.Reducing.{Labelled, Shaped, node_class, ranks, to, written};

use graph::Row;
use lists::list::List;

// The entry at `t`; past the end, `t` itself.
fn lead(ends: &[u32], t: u32) -> u32
    ensures { result ≡ to ends.now t }
{
    ends.get(t as usize).copied().unwrap_or(t)
}

// The row with its arcs led elsewhere.
fn lead_row(ends: &[u32], row: Row) -> Row
    ensures { result ≡ led (to ends.now) row }
{
    Row {
        take: row.take.map(|t| lead(ends, t)),
        pass: row.pass.map(|t| lead(ends, t)),
        ..row
    }
}

// The class of node `n`: that of the next later node of its station whose arcs lead to the same classes, or else its own.
// The labels of the later nodes are their classes. The nodes of a station stand together, so the search stops with the station.
fn find_class(rows: &[Row], labels: &[u32], n: usize) -> u32
    requires labelled { Labelled rows.now labels.now }
    requires there { n < length rows.now }
    ensures { result ≡ node_class labels.now rows.now n }
{
    let own = lead_row(labels, rows[n]);
    rows[n + 1..]
        .iter()
        .zip(&labels[n + 1..])
        .take_while(|(row, _)| row.item == own.item && row.copies == own.copies)
        .find(|(row, _)| own == lead_row(labels, **row))
        .map_or(n as u32, |(_, class)| *class)
}

// The class of each node, from the last one back. The nodes go by their index, since a class is found by the labels that
// were written before it.
fn find_classes(rows: &[Row], labels: &mut [u32])
    requires { Labelled rows.now labels.old }
    ensures { labels.new ≡ classes 0 rows.now }
{
    for n in (0..labels.len()).rev() {
        labels[n] = find_class(rows, labels, n);
    }
}

// Puts each value's rank in its place, and answers how many distinct values there are. The number of a value is 1 more than
// its rank. It is 0 before the value is seen, not `None`: the cells that the caller lends hold plain numbers.
fn rank(values: &mut [u32], numbers: &mut [u32]) -> usize
    requires within { All (λ v. v < length numbers.old) values.old }
    requires few { length values.old ≤ 65535 }
    requires clear { All (λ k. k ≡ 0) numbers.old }
    ensures ranks { values.new ≡ ranks values.old }
    ensures count { result ≡ length (distinct nat_eq values.old) }
{
    let mut count = 0;
    for value in values.iter_mut() {
        let number = &mut numbers[*value as usize];
        if *number == 0 {
            count += 1;
            *number = count;
        }
        *value = *number - 1;
    }
    count as usize
}

// Writes the row of each node at the node's new number, with its arcs led to new numbers. In rising order no row is lost:
// a new number is at most the old one.
fn write_rows(rows: &mut List<'_, Row>, numbers: &[u32])
    requires { length numbers.now ≡ length (entries rows.old) }
    ensures entries { entries rows.new ≡ written (length (entries rows.old)) numbers.now (entries rows.old) }
    ensures spare { spare rows.new ≡ spare rows.old }
    ensures memory { SameMemory rows.new rows.old }
{
    for (n, number) in numbers.iter().enumerate() {
        let row = lead_row(numbers, rows.as_slice()[n]);
        let _ = rows.set(*number as usize, row);
    }
}

// Joins the nodes of one station whose arcs lead to joined nodes, and answers how many nodes are left. The first 2 N cells
// of a graph of N nodes hold labels meanwhile; they are 0 before and after.
pub fn reduce(rows: &mut List<'_, Row>, cells: &mut [u32]) -> usize
    requires shaped { Shaped (entries rows.old) }
    requires few { length (entries rows.old) ≤ 65535 }
    requires room { 2 * length (entries rows.old) ≤ length cells.old }
    requires clear { (k : ℕ) → k < 2 * length (entries rows.old) → slice_index cells.old k ≡ 0 }
    ensures entries { entries rows.new ≡ reduced (entries rows.old) }
    ensures nodes { result ≡ length (reduced (entries rows.old)) }
    ensures capacity { length (entries rows.new) + length (spare rows.new) ≡ length (entries rows.old) + length (spare rows.old) }
    ensures memory { SameMemory rows.new rows.old }
    ensures cells { cells.new ≡ cells.old }
{
    let n = rows.len();
    let (labels, rest) = cells.split_at_mut(n);
    let (numbers, _) = rest.split_at_mut(n);
    find_classes(rows.as_slice(), labels);
    let count = rank(labels, numbers);
    write_rows(rows, labels);
    rows.truncate(count);
    labels.fill(0);
    numbers.fill(0);
    count
}
