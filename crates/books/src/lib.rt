// Books: made blank, sized, entered into, withdrawn from, settled and asked.
#![tactic(auto)]

ghost use Rattle.std.specs.Prelude.{◌≡◌, ◌≤◌, true, length, take};
ghost use Rattle.terms.specs.Sentences.{holdable};

use boards::Board;
use labels::Label;
use terms::{Concept, Node, Refusal, Sentence, Sizes};

// A book: the field's knowledge base. Its sentences lie one to a cell, in memory that is lent. No `Vec`: a book takes no heap.
// The sizes are within their limits, and the first `count` cells are sentences for them.
// Each call that takes a book by `&mut` says `SameCells`, since a caller knows the cells only while the book is over the same.
#[derive(Drop)]
pub struct Book<'a, L> {
    cells: &'a mut [Sentence<L>],
    count: usize,
    sizes: Sizes,
    settled: bool,
    ghost fits: { count ≤ length cells.now },
    ghost can_be: { holdable (length cells.now) sizes (take count cells.now) ≡ true },
}

// One concept, which is top, and no role and no unit.
const BLANK_SIZES: Sizes = Sizes {
    concepts: 1,
    roles: 0,
    individuals: 0,
};

impl<'a, L: Label> Book<'a, L> {
    ghost use Rattle.books.specs.Contents.{blank_book, Sized, Entered, Withdrawn};
    ghost use Rattle.books.specs.Held.{contents, SameCells};
    ghost use Rattle.books.specs.Settling.{SettlesBook, Labelled};

    // A blank book over the cells given.
    pub fn blank(cells: &'a mut [Sentence<L>]) -> Book<'a, L>
        ensures blank { contents result ≡ blank_book (length cells.old) }
        ensures over_them { result.cells.ghost_name ≡ cells.entry.ghost_name }
    {
        Book {
            cells,
            count: 0,
            sizes: BLANK_SIZES,
            settled: false,
        }
    }

    // Makes the book blank again.
    pub fn clear(&mut self)
        ensures same_cells { SameCells self.old self.new }
        ensures blank { contents self.new ≡ blank_book (contents self.old).cells }
    {
        self.count = 0;
        self.sizes = BLANK_SIZES;
        self.settled = false;
    }

    // Sets the sizes, and removes all sentences.
    pub fn size(&mut self, sizes: Sizes) -> Result<(), Refusal>
        ensures same_cells { SameCells self.old self.new }
        ensures sized { Sized (contents self.old) sizes result (contents self.new) }
    {
        sizes.check()?;
        self.clear();
        self.sizes = sizes;
        Ok(())
    }

    // Appends a sentence.
    pub fn enter(&mut self, sentence: Sentence<L>) -> Result<(), Refusal>
        ensures same_cells { SameCells self.old self.new }
        ensures entered { Entered (contents self.old) sentence result (contents self.new) }
    {
        sentence.check(self.sizes)?;
        if self.count >= self.cells.len() {
            return Err(Refusal::BookFull);
        }
        self.cells[self.count] = sentence;
        self.count += 1;
        self.settled = false;
        Ok(())
    }

    // Takes out the sentence of a number, counted from 0.
    pub fn withdraw(&mut self, number: usize) -> Result<(), Refusal>
        ensures same_cells { SameCells self.old self.new }
        ensures withdrawn { Withdrawn (contents self.old) number result (contents self.new) }
    {
        if number >= self.count {
            return Err(Refusal::OutOfRange);
        }
        self.cells.copy_within(number + 1..self.count, number);
        self.count -= 1;
        self.settled = false;
        Ok(())
    }

    // Brings the board to the least labels that satisfy the rules of the sentences.
    pub fn settle<B: Board<L>>(&mut self, board: &mut B) -> Result<(), Refusal>
        ensures same_cells { SameCells self.old self.new }
        ensures settles { SettlesBook L.Label.kind (contents self.old) (B.Board.meaning board.old) result (contents self.new) (B.Board.meaning board.new) }
    {
        let answer = settling::settle(self.sizes, self.sentences(), board);
        // A board with too few places is left as it was, and so is the book.
        if answer != Err(Refusal::TooFewPlaces) {
            self.settled = answer.is_ok();
        }
        answer
    }

    // The label of a node and a concept on the board given.
    pub fn label<B: Board<L>>(&self, board: &B, node: Node, concept: Concept) -> Result<L, Refusal>
        ensures { Labelled L.Label.kind (contents self.now) (B.Board.meaning board.now) node concept result }
    {
        if usize::from(node.0) >= self.sizes.nodes() || concept.0 >= self.sizes.concepts {
            return Err(Refusal::OutOfRange);
        }
        if !self.settled {
            return Err(Refusal::NotSettled);
        }
        Ok(board.read(self.sizes.member_place(node, concept)))
    }

    // The sizes.
    pub fn sizes(&self) -> Sizes
        ensures { result ≡ (contents self.now).sizes }
    {
        self.sizes
    }

    // Whether the book is settled.
    pub fn is_settled(&self) -> bool
        ensures { result ≡ (contents self.now).settled }
    {
        self.settled
    }

    // The sentences, in order.
    pub fn sentences(&self) -> &[Sentence<L>]
        ensures { result.now ≡ (contents self.now).sentences }
    {
        &self.cells[..self.count]
    }
}
