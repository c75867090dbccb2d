// The calls of a list.
ghost use Rattle.std.specs.Prelude.{◌≡◌, ℕ, ◌+◌, ◌<◌, ◌≤◌, [], ◌∷◌, ◌++◌, length, take, drop, Decides, MatchOption, slice_index_or, slice_set};
ghost use Rattle.lists.specs.Entries.{entries, spare, SameMemory, Pushed, Full};

use super::List;

impl<'a, T: Copy> List<'a, T> {
    // An empty list over the cells.
    pub fn over(cells: &'a mut [T]) -> List<'a, T>
        ensures empty { entries result ≡ [] }
        ensures free { spare result ≡ cells.old }
        ensures lent { result.cells.ghost_name ≡ cells.entry.ghost_name }
    {
        List { cells, len: 0 }
    }

    // How many entries there are.
    pub fn len(&self) -> usize
        ensures { result ≡ length (entries self.now) }
    {
        self.len.min(self.cells.len())
    }

    // The most entries that the memory holds.
    pub fn capacity(&self) -> usize
        ensures { result ≡ length (entries self.now) + length (spare self.now) }
    {
        self.cells.len()
    }

    // The entries, in order.
    pub fn as_slice(&self) -> &[T]
        ensures { result.now ≡ entries self.now }
    {
        let n = self.len();
        &self.cells[..n]
    }

    // The entry at `i`, if there is one.
    pub fn get(&self, i: usize) -> Option<T>
        ensures { MatchOption result (length (entries self.now) ≤ i) (λ x. (i < length (entries self.now)) × (x ≡ slice_index_or (entries self.now) i x)) }
    {
        self.as_slice().get(i).copied()
    }

    // Puts `x` in place of the entry at `i` and answers true; false if there is no such entry. It is no `get_mut`: a
    // `&mut` that is handed out of a list gets no generated proof.
    pub fn set(&mut self, i: usize, x: T) -> bool
        ensures tells { Decides result (i < length (entries self.old)) }
        ensures entries { entries self.new ≡ slice_set (entries self.old) i x }
        ensures spare { spare self.new ≡ spare self.old }
        ensures memory { SameMemory self.new self.old }
    {
        if i < self.len && i < self.cells.len() {
            self.cells[i] = x;
            true
        } else {
            false
        }
    }

    // Adds `x` at the end and answers its place; none, with nothing changed, if the memory is full.
    pub fn push(&mut self, x: T) -> Option<usize>
        ensures cases { MatchOption result (Full self.old self.new) (Pushed self.old self.new x) }
        ensures memory { SameMemory self.new self.old }
    {
        let at = self.len;
        if at < self.cells.len() {
            self.cells[at] = x;
            self.len = at + 1;
            Some(at)
        } else {
            None
        }
    }

    // Keeps the first `len` entries; what they held stays in the memory.
    pub fn truncate(&mut self, len: usize)
        ensures entries { entries self.new ≡ take len (entries self.old) }
        ensures spare { spare self.new ≡ drop len (entries self.old) ++ spare self.old }
        ensures memory { SameMemory self.new self.old }
    {
        if len < self.len {
            self.len = len;
        }
    }
}
