// Runs: any list of calls on a book and a board made now, and a log of what each gave. The contract of `perform` is the whole promise.
#![tactic(auto)]

ghost use Rattle.books.specs.Held.{contents, SameCells};
ghost use Rattle.runs.specs.Account.{account};
ghost use Rattle.runs.specs.Law.{Law, memory};
ghost use Rattle.runs.specs.Step.{Made};
ghost use Rattle.runs.specs.Determined.{Determined};

use boards::Board;
use books::Book;
use labels::Label;
use listings::list;
use std::alloc::{AllocError, Global};
use terms::{Concept, Node, Refusal, Sentence, Sizes};
use texts::Misread;
use texts::read::read_text;
use texts::write::write_text;

// One call: what it is given. Writing and listing are given fresh memory, of as many bytes as the number says, all 0.
#[derive(Drop)]
pub enum Request<'a, L> {
    Size(Sizes),
    Enter(Sentence<L>),
    Withdraw(usize),
    Read(&'a [u8]),
    Write(usize),
    Settle,
    Label(Node, Concept),
    List(usize),
}

// What one call gave: its answer, and the memory that it was given to write in.
#[derive(Drop)]
pub enum Outcome<L> {
    Done(Result<(), Refusal>),
    Read(Result<(), Misread>),
    Label(Result<L, Refusal>),
    // By hand, a count beside its memory: the log keeps the whole memory, past what was written too, and after a refusal.
    Bytes(Result<usize, Refusal>, Vec<u8>),
}

// Makes a blank book over the cells, clears the board, goes down the list of calls, and logs what each gave.
pub fn perform<L: Label, B: Board<L>>(
    cells: &mut [Sentence<L>],
    board: &mut B,
    requests: &[Request<'_, L>],
    heap: Global,
) -> Result<Vec<Outcome<L>>, AllocError>
    ensures law { Law L.Label.kind (memory cells.old (B.Board.meaning board.old)) requests.now result (memory cells.new (B.Board.meaning board.new)) }
{
    board.clear();
    let mut book = Book::blank(cells);
    let mut log = Vec::new(heap);
    // By hand: after a chain of iterators nothing is known of the book and the board that its closure changed.
    for request in requests {
        let outcome = perform_one(&mut book, board, request, heap)?;
        log.push(outcome)?;
    }
    Ok(log)
}

// Makes one call of the list.
fn perform_one<L: Label, B: Board<L>>(
    book: &mut Book<'_, L>,
    board: &mut B,
    request: &Request<'_, L>,
    heap: Global,
) -> Result<Outcome<L>, AllocError>
    ensures same_cells { SameCells book.old book.new }
    ensures step { Made L.Label.kind (account (contents book.old) (B.Board.meaning board.old)) request.now result (account (contents book.new) (B.Board.meaning board.new)) }
{
    match request {
        Request::Size(sizes) => Ok(Outcome::Done(book.size(*sizes))),
        Request::Enter(sentence) => Ok(Outcome::Done(book.enter(*sentence))),
        Request::Withdraw(number) => Ok(Outcome::Done(book.withdraw(*number))),
        Request::Read(text) => Ok(Outcome::Read(read_text(book, text))),
        // By hand here and at `List`: a closure that writes would need a clause of its own in each place.
        Request::Write(room) => {
            let mut out = vec![in heap; 0u8; *room]?;
            let answer = write_text(book, &mut out);
            Ok(Outcome::Bytes(answer, out))
        }
        Request::Settle => Ok(Outcome::Done(book.settle(board))),
        Request::Label(node, concept) => Ok(Outcome::Label(book.label(board, *node, *concept))),
        Request::List(room) => {
            let mut out = vec![in heap; 0u8; *room]?;
            let answer = list(book, board, &mut out);
            Ok(Outcome::Bytes(answer, out))
        }
    }
}

// Two runs of the same calls give the same answers and end alike, labels up to their number.
pub fn calls_determine_their_answers<L: Label>()
    ensures { Determined L.Label.kind }
{}
