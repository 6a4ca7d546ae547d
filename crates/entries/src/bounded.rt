//! A list of entries in lent slots.
ghost use Rattle.std.specs.Prelude.{◌≡◌, ◌≤◌, [], ◌∷◌, ◌++◌, length, slice_set};
ghost use Rattle.fault.specs.Faults.{refused_or, unless};

use fault::Fault;

/// Entries of any kind, as many as there are slots for.
// The slots are lent and of a fixed number, so no `Vec` stands for them and the length.
#[derive(Drop)]
pub struct BoundedList<'a, T> {
    slots: &'a mut [T],
    len: usize,
    ghost fits: { len ≤ length slots.now },
}

impl<'a, T: Copy> BoundedList<'a, T> {
    ghost use Rattle.entries.specs.Lists.{listed, capacity, push_fault, SameSlots};

    /// An empty list.
    pub fn new(slots: &'a mut [T]) -> BoundedList<'a, T>
        ensures empty { listed result ≡ [] }
        ensures room { capacity result ≡ length slots.old }
        ensures slots { result.slots.now ≡ slots.old }
        ensures named { result.slots.ghost_name ≡ slots.entry.ghost_name }
    {
        BoundedList { slots, len: 0 }
    }

    /// Adds an entry at the end. A list that is full stays as it is.
    pub fn push(&mut self, entry: T) -> Result<(), Fault>
        ensures value { result ≡ refused_or (push_fault self.old) tt }
        ensures items { listed self.new ≡ unless (push_fault self.old) (listed self.old ++ entry ∷ []) (listed self.old) }
        ensures slots { self.new.slots.now ≡ unless (push_fault self.old) (slice_set self.old.slots.now (length (listed self.old)) entry) self.old.slots.now }
        ensures kept { SameSlots self.old self.new }
    {
        if self.len == self.slots.len() {
            return Err(Fault::ListFull);
        }
        self.slots[self.len] = entry;
        self.len += 1;
        Ok(())
    }

    /// The entries, the first of them first.
    pub fn entries(&self) -> &[T]
        ensures { result.now ≡ listed self.now }
    {
        &self.slots[..self.len]
    }
}
