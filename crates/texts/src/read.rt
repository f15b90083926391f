// Reading a text into a book.
ghost use Rattle.std.specs.Prelude.{◌≡◌, ◌<◌};
ghost use Rattle.books.specs.Held.{contents, SameCells};
ghost use Rattle.terms.specs.declared.Refusal.TheVariants.{MalformedLine};
ghost use Rattle.texts.specs.Fields.{Field, Line};
ghost use Rattle.texts.specs.Lines.{sizes_line, sizes_fit, sentence_line, sentence_fits};
ghost use Rattle.texts.specs.Once.{OneBadLine};
ghost use Rattle.texts.specs.Parts.{ReadsSizes, Enters, ReadsSentence, Loads};
ghost use Rattle.texts.specs.RoundTrip.{ReadsBack};
ghost use Rattle.texts.specs.Texts.{Reads};

use crate::Misread;
use books::Book;
use labels::Label;
use lines::number_at;
use terms::{Refusal, Sentence, Sizes};

// The number at the start of a text, with no leading zero, and the text after the byte that ends it.
fn field(text: &[u8], end: u8) -> Option<(u64, &[u8])>
    requires { end < 48 }
    ensures { Field 18446744073709551615 end text.now result }
{
    let (value, rest) = number_at(text, u64::MAX)?;
    let rest = rest.strip_prefix(&[end])?;
    Some((value, rest))
}

// The same for a number of 16 bits.
fn short_field(text: &[u8], end: u8) -> Option<(u16, &[u8])>
    requires { end < 48 }
    ensures { Field 65535 end text.now result }
{
    let (value, rest) = field(text, end)?;
    Some((u16::try_from(value).ok()?, rest))
}

// The sizes whose line begins a text, and the text after that line.
fn sizes_line(text: &[u8]) -> Option<(Sizes, &[u8])>
    ensures { Line sizes_fit sizes_line text.now result }
{
    let (concepts, text) = short_field(text, b' ')?;
    let (roles, text) = short_field(text, b' ')?;
    let (individuals, text) = short_field(text, b'\n')?;
    let sizes = Sizes {
        concepts,
        roles,
        individuals,
    };
    Some((sizes, text))
}

// The sentence, by its label's number, whose line begins a text, and the text after that line.
fn sentence_line(text: &[u8]) -> Option<(Sentence<u64>, &[u8])>
    ensures { Line sentence_fits sentence_line text.now result }
{
    let (form, text) = field(text, b' ')?;
    let form = u8::try_from(form).ok()?;
    let (first, text) = short_field(text, b' ')?;
    let (second, text) = short_field(text, b' ')?;
    let (role, text) = short_field(text, b' ')?;
    let (third, text) = short_field(text, b' ')?;
    let (label, text) = field(text, b'\n')?;
    let sentence = Sentence {
        form,
        first,
        second,
        role,
        third,
        label,
    };
    Some((sentence, text))
}

// The refusal of a line that is not what must stand there.
fn malformed(line: usize) -> Misread
    ensures refusal { result.refusal ≡ MalformedLine }
    ensures line { result.line ≡ line }
{
    Misread {
        refusal: Refusal::MalformedLine,
        line,
    }
}

// Reads the first three lines and sizes the book by them. The lines of the sentences are left.
fn read_sizes<'t, L: Label>(book: &mut Book<'_, L>, text: &'t [u8]) -> Result<&'t [u8], Misread>
    ensures same_cells { SameCells book.old book.new }
    ensures reads { ReadsSizes L.Label.kind (contents book.old) text.now result (contents book.new) }
{
    let text = text
        .strip_prefix(b"concepts roles units\n")
        .ok_or(malformed(1))?;
    let (sizes, text) = sizes_line(text).ok_or(malformed(2))?;
    book.size(sizes)
        .map_err(|refusal| Misread { refusal, line: 2 })?;
    text.strip_prefix(b"form first second role third label\n")
        .ok_or(malformed(3))
}

// Enters a sentence whose label is given by its number.
fn enter<L: Label>(book: &mut Book<'_, L>, sentence: Sentence<u64>) -> Result<(), Refusal>
    ensures same_cells { SameCells book.old book.new }
    ensures enters { Enters L.Label.kind (contents book.old) sentence result (contents book.new) }
{
    sentence.check(book.sizes())?;
    let label = L::from_number(sentence.label).ok_or(Refusal::NoSuchLabel)?;
    book.enter(sentence.with_label(label))
}

// Reads the line of a sentence and enters the sentence. The text after the line is left.
fn read_sentence<'t, L: Label>(book: &mut Book<'_, L>, text: &'t [u8]) -> Result<&'t [u8], Refusal>
    ensures same_cells { SameCells book.old book.new }
    ensures reads { ReadsSentence L.Label.kind (contents book.old) text.now result (contents book.new) }
{
    let (sentence, rest) = sentence_line(text).ok_or(Refusal::MalformedLine)?;
    enter(book, sentence)?;
    Ok(rest)
}

// Reads a text into the book up to its end or its first bad line.
fn load<L: Label>(book: &mut Book<'_, L>, text: &[u8]) -> Result<(), Misread>
    ensures same_cells { SameCells book.old book.new }
    ensures loads { Loads L.Label.kind (contents book.old) text.now result (contents book.new) }
{
    let mut rest = read_sizes(book, text)?;
    let mut line = 4;
    // By hand: `Loads` and `BadLine` speak of all the text that is left; lines cut out first would need both again for a line alone.
    while !rest.is_empty() {
        rest = read_sentence(book, rest).map_err(|refusal| Misread { refusal, line })?;
        line += 1;
    }
    Ok(())
}

// Replaces the book by the one whose text this is; a text that is no book's leaves it blank.
pub fn read_text<L: Label>(book: &mut Book<'_, L>, text: &[u8]) -> Result<(), Misread>
    ensures same_cells { SameCells book.old book.new }
    ensures reads { Reads L.Label.kind (contents book.old) text.now result (contents book.new) }
{
    let answer = load(book, text);
    if answer.is_err() {
        book.clear();
    }
    answer
}

// A text has one first bad line at most, with one refusal: both are determined by the text and the number of cells.
pub fn first_bad_line_is_determined<L: Label>()
    ensures { OneBadLine L.Label.kind }
{}

// Reading what was written gives the same book: its sizes and its sentences, labels by their number.
pub fn written_text_reads_back<L: Label>()
    ensures { ReadsBack L.Label.kind }
{}
