// Tables: lent slices that are filled from their front.

ghost use Rattle.std.specs.Prelude.{◌≡◌, ◌+◌, ◌<◌, ◌≤◌, min, cond, length, take, nat_le, slice_set, Ok, Err};
ghost use Rattle.jcode.specs.Tables.{full_by};

use super::refusal::Refusal;

// The first `count` records are the table's; after them stands what the slice held before.
#[derive(Drop)]
pub(super) struct Table<'a, T> {
    pub(super) records: &'a mut [T],
    pub(super) count: usize,
    ghost within: { count ≤ length records.now },
}

impl<'a, T: Copy> Table<'a, T> {
    pub(super) fn new(records: &'a mut [T]) -> Table<'a, T>
        ensures lent { result.records.ghost_name ≡ records.entry.ghost_name }
        ensures records { result.records.now ≡ records.old }
        ensures count { result.count ≡ 0 }
    {
        Table { records, count: 0 }
    }

    // One record more.
    pub(super) fn push(&mut self, entry: T)
        requires { self.old.count < length self.old.records.now }
        ensures lent { self.new.records.ghost_name ≡ self.old.records.ghost_name }
        ensures records { self.new.records.now ≡ slice_set self.old.records.now self.old.count entry }
        ensures count { self.new.count ≡ self.old.count + 1 }
    {
        self.records[self.count] = entry;
        self.count += 1;
    }

    // Room for one record more, or what refuses it: the limit, or that the slice is too short.
    pub(super) fn room(&self, limit: usize) -> Result<(), Refusal>
        ensures { result ≡ cond (nat_le (min (length self.now.records.now) limit) self.now.count) (Err (full_by (length self.now.records.now) limit)) (Ok tt) }
    {
        let length = self.records.len();
        if self.count < length.min(limit) {
            Ok(())
        } else if length < limit {
            Err(Refusal::Table)
        } else {
            Err(Refusal::Limit)
        }
    }

    pub(super) fn filled(&self) -> &[T]
        ensures { result.now ≡ take self.now.count self.now.records.now }
    {
        &self.records[..self.count]
    }
}
