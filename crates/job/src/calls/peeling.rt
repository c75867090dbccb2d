// Peeling bins off an accepted flow.
ghost use Rattle.std.specs.Prelude.{◌≡◌, ℕ, ◌-◌, ◌*◌, ◌<◌, ◌≤◌, false, length, take, drop, is_ok, slice_index, slice_index_or};
ghost use Rattle.flow.specs.Job.{Call};
ghost use Rattle.flow.specs.Scans.{no_item};
ghost use Rattle.job.specs.View.{count_of, answered, packed};
ghost use Rattle.job.specs.Contract.{Follows};
ghost use Rattle.job.specs.Changes.{LeftsSet};

use crate::job::Job;
use crate::state::State;
use flow::ItemRecord;
use flow::walks::take_off;
use refusal::Refusal;

// Takes the copies of a bin, so many times, off the copies left.
fn book(items: &mut [ItemRecord], counts: &[u32], times: u32)
    requires room { length items.old ≤ length counts.now }
    requires enough { (i : ℕ) → i < length items.old → times * slice_index counts.now i ≤ (slice_index_or items.old i no_item).left }
    ensures { LeftsSet items.old items.new (λ i. (slice_index_or items.old i no_item).left - times * slice_index counts.now i) }
{
    // numbered by place: with `zip` the proof lacks which record an item of the loop is
    for (place, item) in items.iter_mut().enumerate() {
        item.left -= u64::from(times) * u64::from(counts[place]);
    }
}

impl<'a> Job<'a> {
    // Takes the next bin off the flow: its times, with its counts in the first cells given, one for each item.
    pub fn peel(&mut self, counts: &mut [u32]) -> Result<u32, Refusal>
        ensures step { Follows self.old self.new (Call.Peel (length counts.old)) (answered (packed (take (count_of self.old) counts.new)) result) }
        ensures rest { drop (count_of self.old) counts.new ≡ drop (count_of self.old) counts.old }
        ensures refused { is_ok result ≡ false → counts.new ≡ counts.old }
    {
        self.expect(State::Accepted)?;
        if self.value() == 0 {
            return Err(Refusal::NothingLeft);
        }
        let count = self.items.len();
        if counts.len() < count {
            return Err(Refusal::TooLittleMemory);
        }
        let times = self.flow().spell_next(&mut counts[..count]);
        let rows = self.rows.as_slice();
        take_off(rows, &mut self.cells[..2 * rows.len()], times);
        book(self.items.as_mut_slice(), counts, times);
        Ok(times)
    }
}
