// A sparse board: an entry for each place that is not none.
ghost use Rattle.std.specs.Prelude.{◌≡◌, ◌<◌, ◌≤◌, ◌==◌, length, position, min};
ghost use Rattle.std.specs.List.{reduce};
ghost use Rattle.boards.specs.Meaning.{Made, Put};
ghost use Rattle.boards.specs.Entries.{blank_entry, Absent, EntriesKept, places_between};
ghost use Rattle.boards.specs.Propositions.{entries_kept_prop};

use crate::Board;
use labels::Label;
use terms::Refusal;

// A place and its label.
#[derive(Clone, Copy)]
pub struct Entry<L> {
    pub place: u32,
    pub label: L,
}

impl<L: Label> Entry<L> {
    // Place 0 and the label none: what an entry holds that is not used yet.
    pub fn blank() -> Entry<L>
        ensures { result ≡ blank_entry L.Label.kind.none }
    {
        Entry {
            place: 0,
            label: L::none(),
        }
    }
}

// Entries in memory that is lent, of which the first `used` are in use, for the places below `size`. No `Vec`: a board takes no heap.
// Places have 32 bits here and widen to the machine's size by `as`, since `std` has no `From` for it; a place below the size fits back.
#[derive(Drop)]
pub struct Sparse<'a, L: Label> {
    entries: &'a mut [Entry<L>],
    used: usize,
    size: u32,
    pub ghost sound: { EntriesKept L.Label.kind entries.now used size } by { entries_kept_prop L.Label.kind entries.now used size },
}

impl<'a, L: Label> Sparse<'a, L> {
    ghost use Rattle.boards.specs.Sparse.{used_entries, sparse_meaning};

    // A board of this size, with every place none, whatever the entries held.
    pub fn new(entries: &'a mut [Entry<L>], size: u32) -> Sparse<'a, L>
        ensures made { Made L.Label.kind size (length entries.old) (sparse_meaning L.Label.kind result) }
        ensures over_them { result.entries.ghost_name ≡ entries.entry.ghost_name }
    {
        Sparse {
            entries,
            used: 0,
            size,
        }
    }

    // The index of a place's entry, among those in use.
    fn find(&self, place: u32) -> Option<usize>
        ensures { result ≡ position (λ e. e.place == place) (used_entries self.now) }
    {
        self.entries[..self.used]
            .iter()
            .position(|entry| entry.place == place)
    }

    // The smallest place from `from` up to `to` that an entry in use has.
    fn smallest_place(&self, from: usize, to: usize) -> Option<usize>
        ensures { result ≡ reduce min (places_between from to (used_entries self.now)) }
    {
        // `to` stands for none yet. A loop, since a chain that ends in `min` takes half as long again.
        let mut smallest = to;
        for entry in &self.entries[..self.used] {
            let place = entry.place as usize;
            if from <= place && place < smallest {
                smallest = place;
            }
        }
        (smallest < to).then_some(smallest)
    }

    // Puts a label at a place that has no entry: none needs no entry, and any other label takes the next free one.
    fn append(&mut self, place: u32, added: L) -> Result<(), Refusal>
        requires inside { place < self.old.size }
        requires absent { Absent place (used_entries self.old) }
        ensures put { Put L.Label.kind (sparse_meaning L.Label.kind self.old) place added result (sparse_meaning L.Label.kind self.new) }
    {
        if added.number() == 0 {
            return Ok(());
        }
        if self.used >= self.entries.len() {
            return Err(Refusal::BoardFull);
        }
        self.entries[self.used] = Entry {
            place,
            label: added,
        };
        self.used += 1;
        Ok(())
    }
}

impl<'a, L: Label> Board<L> for Sparse<'a, L> {
    ghost use Rattle.boards.specs.Sparse.{sparse_meaning};

    ghost meaning = { λ b. sparse_meaning L.Label.kind b };

    fn size(&self) -> usize {
        self.size as usize
    }

    fn capacity(&self) -> usize {
        self.entries.len()
    }

    fn read(&self, place: usize) -> L {
        // A place at or past the size is none without a search.
        if place >= self.size as usize {
            return L::none();
        }
        match self.find(place as u32) {
            Some(at) => self.entries[at].label,
            None => L::none(),
        }
    }

    fn put(&mut self, place: usize, added: L) -> Result<(), Refusal> {
        if place >= self.size as usize {
            return Err(Refusal::OutOfRange);
        }
        match self.find(place as u32) {
            Some(at) => {
                self.entries[at].label = self.entries[at].label.either(added);
                Ok(())
            }
            None => self.append(place as u32, added),
        }
    }

    fn clear(&mut self) {
        self.used = 0;
    }

    fn next_some(&self, from: usize, to: usize) -> Option<usize> {
        self.smallest_place(from, to)
    }
}
