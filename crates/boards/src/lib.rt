// A board: the store of labels, one for each place. Settling works on any.
#![tactic(auto)]

ghost use Rattle.std.specs.Prelude.{◌≡◌, ◌≤◌};
ghost use Rattle.boards.specs.Meaning.{Meaning, Put, Cleared, NextSome};

pub mod dense;
pub mod sparse;

pub use dense::Dense;
use labels::Label;
pub use sparse::{Entry, Sparse};
use terms::Refusal;

// Any store that shows what a board means.
pub trait Board<L: Label> {
    // The size, the capacity, and the label at each place.
    ghost meaning: { Self → Meaning L };

    fn size(&self) -> usize
        ensures { result ≡ (meaning self.now).size };

    fn capacity(&self) -> usize
        ensures { result ≡ (meaning self.now).capacity };

    // The label of a place, and none at or past the size.
    fn read(&self, place: usize) -> L
        ensures the_label { result ≡ (meaning self.now).label place }
        ensures none_past_the_size { (meaning self.now).size ≤ place → L.Label.kind.number result ≡ 0 };

    // Adds the views of a label to a place.
    fn put(&mut self, place: usize, added: L) -> Result<(), Refusal>
        ensures put { Put L.Label.kind (meaning self.old) place added result (meaning self.new) };

    // Makes every place none.
    fn clear(&mut self)
        ensures cleared { Cleared L.Label.kind (meaning self.old) (meaning self.new) };

    // The first place from `from` up to `to` that is not none. A board may write its own, for speed.
    fn next_some(&self, from: usize, to: usize) -> Option<usize>
        ensures { NextSome L.Label.kind (meaning self.now) from to result }
    {
        (from..to).find(|place| self.read(*place).number() != 0)
    }
}
