// A dense board: one cell for each place.
ghost use Rattle.std.specs.Prelude.{◌≡◌, ℕ, length, slice_index_or};
ghost use Rattle.boards.specs.Meaning.{Made};
ghost use Rattle.boards.specs.Dense.{dense_meaning};

use crate::Board;
use labels::Label;
use terms::Refusal;

// One cell for each place, in memory that is lent.
#[derive(Drop)]
pub struct Dense<'a, L> {
    cells: &'a mut [L],
}

impl<'a, L: Label> Dense<'a, L> {
    // A board of as many places as there are cells, with every place none, whatever the cells held.
    pub fn new(cells: &'a mut [L]) -> Dense<'a, L>
        ensures made { Made L.Label.kind (length cells.old) (length cells.old) (dense_meaning L.Label.kind result) }
        ensures over_them { result.cells.ghost_name ≡ cells.entry.ghost_name }
    {
        clear_cells(cells);
        Dense { cells }
    }
}

impl<'a, L: Label> Board<L> for Dense<'a, L> {
    ghost meaning = { λ b. dense_meaning L.Label.kind b };

    fn size(&self) -> usize {
        self.cells.len()
    }

    fn capacity(&self) -> usize {
        self.cells.len()
    }

    fn read(&self, place: usize) -> L {
        self.cells.get(place).copied().unwrap_or(L::none())
    }

    fn put(&mut self, place: usize, added: L) -> Result<(), Refusal> {
        if place >= self.cells.len() {
            return Err(Refusal::OutOfRange);
        }
        self.cells[place] = self.cells[place].either(added);
        Ok(())
    }

    fn clear(&mut self) {
        clear_cells(self.cells);
    }

    // A search of its own, since the trait's would go on past the last cell, up to any `to`.
    fn next_some(&self, from: usize, to: usize) -> Option<usize> {
        (from..to.min(self.cells.len())).find(|place| self.read(*place).number() != 0)
    }
}

// Makes every cell none.
fn clear_cells<L: Label>(cells: &mut [L])
    ensures { (place : ℕ) → slice_index_or cells.new place L.Label.kind.none ≡ L.Label.kind.none }
{
    cells.fill_with(|| L::none());
}
