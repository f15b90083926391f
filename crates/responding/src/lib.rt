// From the text of a book to the listing of its labels: every byte that the programs print.
#![tactic(auto)]

ghost use Rattle.std.specs.Prelude.{◌≡◌, ◌≤◌, length, take, IfOk, OnOk};
ghost use Rattle.books.specs.Held.{contents, SameCells};
ghost use Rattle.output.specs.Puts.{Puts};
ghost use Rattle.responding.specs.Once.{OneAnswer};
ghost use Rattle.responding.specs.Room.{ArraysFit};
ghost use Rattle.responding.specs.Reading.{Takes};
ghost use Rattle.responding.specs.Answers.{refusal_line, Written, holding, Tried, memory, Prints, PrintsRead, PrintsTo};

use boards::{Board, Entry, Sparse};
use books::Book;
use labels::Label;
use listings::list;
use output::Output;
use std::io;
use std::io::{Read, Write};
use terms::{Refusal, Sentence};
use texts::Misread;
use texts::read::read_text;

// The most bytes of input that are read.
pub const INPUT_ROOM: usize = 16_384;

// The bytes of output memory.
pub const OUTPUT_ROOM: usize = 16_384;

// The most sentences of a book.
pub const SENTENCES: usize = 512;

// The most labels other than none on its board.
pub const ENTRIES: usize = 2048;

// The largest number of places that a book's labels need.
pub const LARGEST_BOARD: u32 = 34_078_720;

// Answers a text in labels of this type from a stream: writes what is to be printed, and answers the number of bytes.
pub fn answer<L: Label, R: Read>(stream: &mut R, out: &mut [u8; OUTPUT_ROOM]) -> io::Result<usize>
    requires { ArraysFit L.row }
    ensures within { IfOk result (λ n. n ≤ 16384) }
    ensures printed { IfOk result (λ n. PrintsRead L.Label.kind (R.remaining stream.old) (R.remaining stream.new) out.old n out.new) }
{
    let mut input = [0; INPUT_ROOM + 1];
    let mut cells = [Sentence::<L>::blank(); SENTENCES];
    let mut entries = [Entry::<L>::blank(); ENTRIES];
    let mut board = Sparse::new(&mut entries, LARGEST_BOARD);
    let count = read_input(stream, &mut input)?;
    Ok(respond(&input[..count], &mut cells, &mut board, out))
}

// Answers a text in labels of this type from a stream: writes to the writer what is to be printed. Each function that sets arrays of labels aside asks
// `ArraysFit`: no law of `Label` bounds what a label takes in memory. Arrays with a number beside them, and no `Vec`: the programs take no heap.
pub fn print_answer<L: Label, R: Read, W: Write>(stream: &mut R, writer: &mut W) -> io::Result<()>
    requires { ArraysFit L.row }
    ensures { OnOk result (PrintsTo L.Label.kind (R.remaining stream.old) (R.remaining stream.new) (W.contents writer.old) (W.contents writer.new)) }
{
    let mut output = [0; OUTPUT_ROOM];
    let count = answer::<L, _>(stream, &mut output)?;
    writer.write_all(&output[..count])
}

// Reads the input into a book over the cells, settles it on the board, and writes what is to be printed: the listing, or the line of a
// refusal and nothing else. Answers the number of bytes.
pub fn respond<L: Label, B: Board<L>>(
    input: &[u8],
    cells: &mut [Sentence<L>],
    board: &mut B,
    out: &mut [u8; OUTPUT_ROOM],
) -> usize
    ensures within { result ≤ 16384 }
    ensures prints { Prints L.Label.kind input.now (memory cells.old (B.Board.meaning board.old) out.old) result (memory cells.new (B.Board.meaning board.new) out.new) }
{
    let mut book = Book::blank(cells);
    // By hand, and not by `unwrap_or_else`: where its closure is not called, a proof has no name for what `out` then holds.
    match list_text(input, &mut book, board, out) {
        Ok(count) => count,
        Err(misread) => put_refusal(misread, out),
    }
}

// Reads the input, settles the book, and writes the listing.
fn list_text<L: Label, B: Board<L>>(
    input: &[u8],
    book: &mut Book<'_, L>,
    board: &mut B,
    out: &mut [u8],
) -> Result<usize, Misread>
    ensures same_cells { SameCells book.old book.new }
    ensures tried { Tried L.Label.kind input.now (holding (contents book.old) (B.Board.meaning board.old) out.old) result (holding (contents book.new) (B.Board.meaning board.new) out.new) }
{
    if input.len() > INPUT_ROOM {
        return Err(Misread::from(Refusal::MemoryTooShort));
    }
    read_text(book, input)?;
    book.settle(board)?;
    Ok(list(book, board, out)?)
}

// Writes the line of a refusal over the start of the output. Answers its length.
fn put_refusal(misread: Misread, out: &mut [u8; OUTPUT_ROOM]) -> usize
    ensures { Written misread out.old result out.new }
{
    let mut output = Output::new(out);
    put_misread(&mut output, misread).unwrap();
    output.count()
}

// Puts the line of a refusal. By hand: `write!` says nothing of why it fails, and this must not fail where there is room. `std` has no `From` that
// widens a `usize`, so `as` does.
fn put_misread(output: &mut Output<'_, u8>, misread: Misread) -> Result<(), Refusal>
    ensures { Puts output.old (refusal_line misread) result output.new }
{
    output.put_bytes(b"refused ")?;
    output.put_number(u64::from(misread.refusal.number()))?;
    output.put_bytes(b" line ")?;
    output.put_field(misread.line as u64, b'\n')
}

// What is printed is determined by the input and by how much memory there is, not by what the memory held or where labels lie on the board.
pub fn printed_bytes_are_determined<L: Label>()
    ensures { OneAnswer L.Label.kind }
{}

// Fills memory from a stream, up to the end of either. Answers the number of bytes.
// By hand: no method of std fills lent memory from a stream that may end early (`read_to_end` needs the heap, `read_exact` refuses).
pub fn read_input<R: Read>(stream: &mut R, into: &mut [u8]) -> io::Result<usize>
    ensures within { IfOk result (λ n. n ≤ length into.new) }
    ensures taken { IfOk result (λ n. Takes (R.remaining stream.old) (take n into.new) (length into.new) (R.remaining stream.new)) }
{
    let mut count = 0;
    while count < into.len() {
        let got = stream.read(&mut into[count..])?;
        if got == 0 {
            break;
        }
        count += got;
    }
    Ok(count)
}
