// Listings: the settled labels of a book as text.
#![tactic(auto)]

ghost use Rattle.std.specs.Prelude.{◌≡◌, false, [], ◌∷◌};
ghost use Rattle.terms.specs.Places.{outside_limits};
ghost use Rattle.books.specs.Held.{contents};
ghost use Rattle.output.specs.Puts.{Puts};
ghost use Rattle.texts.specs.Lines.{values};
ghost use Rattle.listings.specs.Listing.{node_lines, listing, Lists};

use boards::Board;
use books::Book;
use labels::Label;
use output::Output;
use terms::{Concept, Node, Refusal, Sizes};
use texts::write::put_values;

// Writes each label that is not none, by node and concept; concept 0 is left out.
pub fn list<L: Label, B: Board<L>>(
    book: &Book<'_, L>,
    board: &B,
    out: &mut [u8],
) -> Result<usize, Refusal>
    ensures { Lists L.Label.kind (contents book.now) (B.Board.meaning board.now) out.old result out.new }
{
    if !book.is_settled() {
        return Err(Refusal::NotSettled);
    }
    let mut output = Output::new(out);
    put_listing(&mut output, book.sizes(), board)?;
    Ok(output.count())
}

// Puts the line that names the columns, and the lines of each node, rising.
fn put_listing<L: Label, B: Board<L>>(
    output: &mut Output<'_, u8>,
    sizes: Sizes,
    board: &B,
) -> Result<(), Refusal>
    requires limits { outside_limits sizes ≡ false }
    ensures { Puts output.old (listing L.Label.kind sizes (B.Board.meaning board.now)) result output.new }
{
    output.put_bytes(b"node concept label\n")?;
    for number in 0..sizes.concepts + sizes.individuals {
        put_node(output, sizes, Node(number), board)?;
    }
    Ok(())
}

// Puts the lines of a node. It steps from label to label that is not none, past concept 0. By hand: a `for` over its concepts would search a sparse
// board once for each, and no other loop would share an iterator.
fn put_node<L: Label, B: Board<L>>(
    output: &mut Output<'_, u8>,
    sizes: Sizes,
    node: Node,
    board: &B,
) -> Result<(), Refusal>
    ensures { Puts output.old (node_lines L.Label.kind sizes (B.Board.meaning board.now) node.0) result output.new }
{
    let top = sizes.member_place(node, Concept(0));
    let end = top + usize::from(sizes.concepts);
    let mut from = top + 1;
    while let Some(place) = board.next_some(from, end) {
        // By hand: the number is proved to fit, where `try_from` would give an error.
        let concept = Concept((place - top) as u16);
        put_label(output, node, concept, board.read(place))?;
        from = place + 1;
    }
    Ok(())
}

// Puts the line of a label, by its number.
fn put_label<L: Label>(
    output: &mut Output<'_, u8>,
    node: Node,
    concept: Concept,
    label: L,
) -> Result<(), Refusal>
    ensures { Puts output.old (values node.0 (concept.0 ∷ (L.Label.kind.number label ∷ []))) result output.new }
{
    let others = [u64::from(concept.0), label.number()];
    put_values(output, u64::from(node.0), &others)
}
