// Writing the text of a book.
ghost use Rattle.std.specs.Prelude.{◌++◌};
ghost use Rattle.std.specs.List.{flat_map};
ghost use Rattle.books.specs.Held.{contents};
ghost use Rattle.output.specs.Puts.{Puts};
ghost use Rattle.texts.specs.Lines.{values, sizes_header, sizes_line, sentences_header, sentence_line, numbered};
ghost use Rattle.texts.specs.Texts.{Writes};

use books::Book;
use labels::Label;
use output::Output;
use terms::{Refusal, Sentence, Sizes};

// Writes the book's text.
pub fn write_text<L: Label>(book: &Book<'_, L>, out: &mut [u8]) -> Result<usize, Refusal>
    ensures { Writes L.Label.kind (contents book.now) out.old result out.new }
{
    let mut output = Output::new(out);
    put_sizes(&mut output, book.sizes())?;
    put_sentences(&mut output, book.sentences())?;
    Ok(output.count())
}

// Puts the first two lines, on the sizes.
fn put_sizes(output: &mut Output<'_, u8>, sizes: Sizes) -> Result<(), Refusal>
    ensures { Puts output.old (sizes_header ++ sizes_line sizes) result output.new }
{
    output.put_bytes(b"concepts roles units\n")?;
    let others = [u64::from(sizes.roles), u64::from(sizes.individuals)];
    put_values(output, u64::from(sizes.concepts), &others)
}

// Puts the line that names the columns, and a line for each sentence.
fn put_sentences<L: Label>(
    output: &mut Output<'_, u8>,
    sentences: &[Sentence<L>],
) -> Result<(), Refusal>
    ensures { Puts output.old (sentences_header ++ flat_map (λ s. sentence_line (numbered L.Label.kind s)) sentences.now) result output.new }
{
    output.put_bytes(b"form first second role third label\n")?;
    for sentence in sentences {
        put_sentence(output, *sentence)?;
    }
    Ok(())
}

// Puts the line of a sentence, its label by its number.
fn put_sentence<L: Label>(output: &mut Output<'_, u8>, sentence: Sentence<L>) -> Result<(), Refusal>
    ensures { Puts output.old (sentence_line (numbered L.Label.kind sentence)) result output.new }
{
    let others = [
        u64::from(sentence.first),
        u64::from(sentence.second),
        u64::from(sentence.role),
        u64::from(sentence.third),
        sentence.label.number(),
    ];
    put_values(output, u64::from(sentence.form), &others)
}

// Puts a line of numbers parted by single spaces.
pub fn put_values(output: &mut Output<'_, u8>, first: u64, others: &[u64]) -> Result<(), Refusal>
    ensures { Puts output.old (values first others.now) result output.new }
{
    output.put_number(first)?;
    for other in others {
        output.put(b' ')?;
        output.put_number(*other)?;
    }
    output.put(b'\n')
}
