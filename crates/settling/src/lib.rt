// Settling: the field's completion. One settling serves every kind of label and every board.
#![tactic(auto)]

ghost use Rattle.std.specs.Prelude.{◌≡◌, ℕ, ◌<◌, [], ◌∷◌, ◌≢◌};
ghost use Rattle.terms.specs.Lists.{each};
ghost use Rattle.terms.specs.Places.{nodes, member};
ghost use Rattle.terms.specs.Sentences.{well_formed};
ghost use Rattle.settling.specs.Settled.{Settles};
ghost use Rattle.settling.specs.Turn.{Ready, Gained, Applied, AppliedAt, AppliedThrough, AppliedAll, Seeds, Filled};

use boards::Board;
use labels::Label;
use terms::{Concept, Form, Node, Refusal, Role, Sentence, Sizes};

// Brings the board to the least labels that satisfy the rules of the sentences.
pub fn settle<L: Label, B: Board<L>>(
    sizes: Sizes,
    sentences: &[Sentence<L>],
    board: &mut B,
) -> Result<(), Refusal>
    ensures settles { Settles L.Label.kind sizes sentences.now (B.Board.meaning board.old) result (B.Board.meaning board.new) }
{
    sizes.check()?;
    if !all_well_formed(sizes, sentences) {
        return Err(Refusal::MalformedSentence);
    }
    if board.size() < sizes.places() {
        return Err(Refusal::TooFewPlaces);
    }
    board.clear();
    let filled = fill(sizes, sentences, board);
    if filled.is_err() {
        board.clear();
    }
    filled
}

// Whether every sentence is one for these sizes. By hand: `try_for_each` over `check` would refuse at once, but its proof would be longer than what it saves.
fn all_well_formed<L: Label>(sizes: Sizes, sentences: &[Sentence<L>]) -> bool
    ensures { result ≡ each (well_formed sizes) sentences.now }
{
    sentences
        .iter()
        .all(|sentence| sentence.is_well_formed(sizes))
}

// From a cleared board: tops, selves, then rounds until one brings nothing. Sizes, sentences and board are arguments of each part, and no struct.
// Of a struct each part would have to say as well that the sizes and the borrow of the board are as they were, beside `Ready`, which each part asks.
fn fill<L: Label, B: Board<L>>(
    sizes: Sizes,
    sentences: &[Sentence<L>],
    board: &mut B,
) -> Result<(), Refusal>
    requires ready { Ready sizes sentences.now (B.Board.meaning board.old) }
    requires none { (p : ℕ) → L.Label.kind.number ((B.Board.meaning board.old).label p) ≡ 0 }
    ensures filled { Filled L.Label.kind sizes sentences.now (B.Board.meaning board.old) result (B.Board.meaning board.new) }
{
    tops(sizes, board)?;
    selves(sizes, board)?;
    while round(sizes, sentences, board)? {}
    Ok(())
}

// Top: every node is in concept 0, in every view.
fn tops<L: Label, B: Board<L>>(sizes: Sizes, board: &mut B) -> Result<(), Refusal>
    requires ready { Ready sizes [] (B.Board.meaning board.old) }
    ensures seeds { Seeds L.Label.kind sizes (λ x. member x 0) (nodes sizes) (B.Board.meaning board.old) result (B.Board.meaning board.new) }
{
    for number in 0..sizes.concepts + sizes.individuals {
        gain(
            sizes.member_place(Node(number), Concept(0)),
            L::all(),
            board,
        )?;
    }
    Ok(())
}

// Self: every concept is in itself, in every view. By hand beside `tops`: one loop for both would take a closure, and its clause would be longer than this function.
fn selves<L: Label, B: Board<L>>(sizes: Sizes, board: &mut B) -> Result<(), Refusal>
    requires ready { Ready sizes [] (B.Board.meaning board.old) }
    ensures seeds { Seeds L.Label.kind sizes (λ x. member x x) sizes.concepts (B.Board.meaning board.old) result (B.Board.meaning board.new) }
{
    for concept in 0..sizes.concepts {
        gain(
            sizes.member_place(Node(concept), Concept(concept)),
            L::all(),
            board,
        )?;
    }
    Ok(())
}

// One round: each sentence once, in order; true where the board grew.
fn round<L: Label, B: Board<L>>(
    sizes: Sizes,
    sentences: &[Sentence<L>],
    board: &mut B,
) -> Result<bool, Refusal>
    requires ready { Ready sizes sentences.now (B.Board.meaning board.old) }
    ensures applied { AppliedAll L.Label.kind sizes sentences.now (B.Board.meaning board.old) result (B.Board.meaning board.new) }
{
    let mut grew = false;
    for sentence in sentences {
        grew |= apply(sizes, *sentence, board)?;
    }
    Ok(grew)
}

// One sentence, at each node that it speaks of; true where the board grew. Nodes are made by hand here and below: `individual_node` and
// `concept_node` would give errors that cannot come.
fn apply<L: Label, B: Board<L>>(
    sizes: Sizes,
    sentence: Sentence<L>,
    board: &mut B,
) -> Result<bool, Refusal>
    requires ready { Ready sizes (sentence ∷ []) (B.Board.meaning board.old) }
    ensures applied { Applied L.Label.kind sizes sentence (B.Board.meaning board.old) result (B.Board.meaning board.new) }
{
    match Form::try_from(sentence.form) {
        // Unit first is a third.
        Ok(Form::ConceptAssertion) => {
            let unit = Node(sizes.concepts + sentence.first);
            let third = sizes.member_place(unit, Concept(sentence.third));
            gain(third, sentence.label, board)
        }
        // Unit first has a role-link to unit third.
        Ok(Form::RoleAssertion) => {
            let unit = Node(sizes.concepts + sentence.first);
            let other = Node(sizes.concepts + sentence.third);
            let link = sizes.link_place(unit, Role(sentence.role), other);
            gain(link, sentence.label, board)
        }
        // Each other form speaks of every node. No `Err` comes here: a sentence for these sizes has a form.
        _ => at_nodes(sizes, sentence, board),
    }
}

// A sentence that speaks of every node, at the nodes rising. The form stands in the contracts by its number, as a sentence holds it.
fn at_nodes<L: Label, B: Board<L>>(
    sizes: Sizes,
    sentence: Sentence<L>,
    board: &mut B,
) -> Result<bool, Refusal>
    requires ready { Ready sizes (sentence ∷ []) (B.Board.meaning board.old) }
    requires of_nodes { (sentence.form ≢ 5) × (sentence.form ≢ 6) }
    ensures applied { Applied L.Label.kind sizes sentence (B.Board.meaning board.old) result (B.Board.meaning board.new) }
{
    let mut grew = false;
    for number in 0..sizes.concepts + sizes.individuals {
        grew |= at_node(sizes, sentence, Node(number), board)?;
    }
    Ok(grew)
}

// A sentence at one node, by its form. Here and below it is asked that the node is one: a type of such nodes would have to carry the sizes.
fn at_node<L: Label, B: Board<L>>(
    sizes: Sizes,
    sentence: Sentence<L>,
    node: Node,
    board: &mut B,
) -> Result<bool, Refusal>
    requires ready { Ready sizes (sentence ∷ []) (B.Board.meaning board.old) }
    requires node { node.0 < nodes sizes }
    ensures applied { AppliedAt L.Label.kind sizes sentence node.0 (B.Board.meaning board.old) result (B.Board.meaning board.new) }
{
    let first = sizes.member_place(node, Concept(sentence.first));
    let third = sizes.member_place(node, Concept(sentence.third));
    match Form::try_from(sentence.form) {
        // Every first is a third.
        Ok(Form::Inclusion) => {
            let first = board.read(first);
            gain(third, sentence.label.both(first), board)
        }
        // Whatever is a first and a second is a third.
        Ok(Form::Conjunction) => {
            let first = board.read(first);
            let second = board.read(sizes.member_place(node, Concept(sentence.second)));
            gain(third, sentence.label.both(first.both(second)), board)
        }
        // Every first has a role-link to some third.
        Ok(Form::ExistentialOnRight) => {
            let first = board.read(first);
            let link = sizes.link_place(node, Role(sentence.role), Node(sentence.third));
            gain(link, sentence.label.both(first), board)
        }
        // Whatever has a role-link to some first is a third.
        Ok(Form::ExistentialOnLeft) => existential_on_left(sizes, sentence, node, board),
        // The two assertions ask nothing of a node. No `Err` comes here: a sentence for these sizes has a form.
        _ => Ok(false),
    }
}

// Existential on the left: whatever has a role-link to some first is a third. It steps through the node's links along the role.
// By hand: a `for` over all nodes would search a sparse board once for each, and an iterator over links cannot hold a board that changes.
fn existential_on_left<L: Label, B: Board<L>>(
    sizes: Sizes,
    sentence: Sentence<L>,
    node: Node,
    board: &mut B,
) -> Result<bool, Refusal>
    requires ready { Ready sizes (sentence ∷ []) (B.Board.meaning board.old) }
    requires form { sentence.form ≡ 4 }
    requires node { node.0 < nodes sizes }
    ensures applied { AppliedAt L.Label.kind sizes sentence node.0 (B.Board.meaning board.old) result (B.Board.meaning board.new) }
{
    let start = sizes.link_place(node, Role(sentence.role), Node(0));
    let end = start + sizes.nodes();
    let mut grew = false;
    let mut from = start;
    while let Some(place) = board.next_some(from, end) {
        // By hand: the number is proved to fit, where `try_from` would give an error.
        let other = Node((place - start) as u16);
        grew |= through_link(sizes, sentence, node, other, board)?;
        from = place + 1;
    }
    Ok(grew)
}

// Existential on the left, through one link: a node that has a role-link to some first is a third.
fn through_link<L: Label, B: Board<L>>(
    sizes: Sizes,
    sentence: Sentence<L>,
    node: Node,
    other: Node,
    board: &mut B,
) -> Result<bool, Refusal>
    requires ready { Ready sizes (sentence ∷ []) (B.Board.meaning board.old) }
    requires form { sentence.form ≡ 4 }
    requires nodes { (node.0 < nodes sizes) × (other.0 < nodes sizes) }
    ensures applied { AppliedThrough L.Label.kind sizes sentence node.0 other.0 (B.Board.meaning board.old) result (B.Board.meaning board.new) }
{
    let linked = board.read(sizes.link_place(node, Role(sentence.role), other));
    let first = board.read(sizes.member_place(other, Concept(sentence.first)));
    let third = sizes.member_place(node, Concept(sentence.third));
    gain(third, sentence.label.both(linked.both(first)), board)
}

// Puts the label unless it brings nothing; true where the board grew.
fn gain<L: Label, B: Board<L>>(place: usize, added: L, board: &mut B) -> Result<bool, Refusal>
    ensures gained { Gained L.Label.kind (B.Board.meaning board.old) place added result (B.Board.meaning board.new) }
{
    let old = board.read(place);
    if old.either(added).number() == old.number() {
        return Ok(false);
    }
    board.put(place, added)?;
    Ok(true)
}
