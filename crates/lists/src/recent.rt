// What every list does, worked out once: it runs from the oldest entry to the newest, and no entry stands twice.
ghost use Rattle.std.specs.Prelude.{◌≡◌, ◌-◌, ◌<◌, ◌≤◌, ⊤, true, false, [], ◌∷◌, ◌++◌, Decides, length, take, drop, if◌then◌else◌, nat_lt};
ghost use Rattle.std.specs.List.{ContainsAt as Has};
ghost use Rattle.lists.specs.Lists.{member, distinct, added, removed};
ghost use Rattle.lists.specs.Laws.{Adds, Removes};

use std::alloc::AllocError;
use std::marker::Model;
use vocabulary::Place;

// At most `N` places in the first `count` slots; contracts see the entries. Slots, since memory is fixed, and no `ArrayVec`,
// since a list is copied with its card.
#[derive(Copy)]
pub struct Recent<T: Place, const N: usize> {
    slots: [T; N],
    count: usize,
}

impl<T: Place, const N: usize> Model for Recent<T, N> {
    ghost use Rattle.std.specs.Prelude.{List, length, take};
    ghost use Rattle.lists.specs.Held.{Held, slots_of, slots_held, entries_held};

    ghost Value = { List T };

    ghost view = { λ list. take list.count list.slots };

    ghost invariant = { λ list. Held T.PartialEq.eq N T.unused list.slots list.count };

    ghost inverse = { λ xs. record { slots = slots_of N T.unused xs; count = length xs } };

    ghost inverse_ok = { λ list held k. record { slots = slots_held held k; count = entries_held held k } };
}

// By hand: a derived one clones slot by slot, and its proof did not close. As a derived one it gives the list itself, and
// cannot fail.
impl<T: Place, const N: usize> Clone for Recent<T, N> {
    ghost is_clone = { λ list copy. copy ≡ list };

    ghost is_infallible = { λ _. ⊤ };

    fn clone(&self) -> Result<Recent<T, N>, AllocError> {
        Ok(*self)
    }
}

// Makes the slot for a new entry free and tells it: the first free one, or where there is none the last, after the oldest
// entry has gone.
fn make_room<T>(slots: &mut [T], count: usize) -> usize
    requires room { 0 < length slots.old }
    ensures value { result ≡ (if nat_lt count (length slots.old) then count else count - 1) }
    ensures after { slots.new ≡ (if nat_lt count (length slots.old) then slots.old else drop 1 slots.old ++ take 1 slots.old) }
{
    if count < slots.len() {
        return count;
    }
    slots.rotate_left(1);
    count - 1
}

impl<T: Place, const N: usize> Recent<T, N> {
    pub fn empty() -> Recent<T, N>
        ensures value { result ≡ [] }
    {
        Recent {
            slots: [T::unused(); N],
            count: 0,
        }
    }

    // The entries from the oldest to the newest.
    pub fn entries(&self) -> &[T]
        ensures value { result.now ≡ self.now }
        ensures bound { length result.now ≤ N }
        ensures once { distinct T.PartialEq.eq result.now ≡ true }
    {
        &self.slots[..self.count]
    }

    pub fn contains(&self, x: &T) -> bool
        ensures value { result ≡ member T.PartialEq.eq x.now self.now }
        ensures law { Decides result (Has self.now x.now) }
    {
        self.entries().contains(x)
    }

    // An entry that is there stays where it is; a new one is the newest, for which a full list loses its oldest.
    pub fn add(&mut self, x: T)
        ensures after { self.new ≡ added T.PartialEq.eq N self.old x }
        ensures law { 0 < N → Adds N self.old x self.new }
    {
        if self.contains(&x) {
            return;
        }
        if self.slots.is_empty() {
            return;
        }
        let at = make_room(&mut self.slots, self.count);
        self.slots[at] = x;
        self.count = at + 1;
    }

    // An entry that is new becomes the newest where there is room, unless it is the one to remove.
    fn keep(&mut self, entry: T, x: &T)
        requires new { member T.PartialEq.eq entry self.old ≡ false }
        requires room { length self.old < N }
        ensures after { self.new ≡ (if T.PartialEq.eq entry x.now then self.old else self.old ++ entry ∷ []) }
    {
        if entry != *x {
            self.append(entry);
        }
    }

    // An entry that is new takes the first free slot.
    fn append(&mut self, x: T)
        requires new { member T.PartialEq.eq x self.old ≡ false }
        requires room { length self.old < N }
        ensures after { self.new ≡ self.old ++ x ∷ [] }
    {
        self.slots[self.count] = x;
        self.count += 1;
    }

    // An entry that is not there changes nothing.
    pub fn remove(&mut self, x: T)
        ensures after { self.new ≡ removed T.PartialEq.eq self.old x }
        ensures law { Removes self.old x self.new }
        ensures bound { length self.new ≤ N }
        ensures once { distinct T.PartialEq.eq self.new ≡ true }
    {
        let mut others = Recent::empty();
        for entry in self.entries() {
            others.keep(*entry, &x);
        }
        *self = others;
    }
}
