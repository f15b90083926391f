// What books, boards, sheets and descriptions are spoken of in: names, sizes, sentences, records and refusals.
// The field is description logic. A unit is what it calls an individual.
#![tactic(auto)]

ghost use Rattle.std.specs.Prelude.{◌≡◌};
ghost use Rattle.terms.specs.Refusals.{number_of};

use std::error::Error;
use std::fmt;

pub mod forms;
pub mod places;
pub mod sentences;

pub use forms::Form;

// A concept number: the field's concept name. Concept 0 is top, which every element is in.
#[derive(Clone, Copy, PartialEq, Eq)]
pub struct Concept(pub u16);

// A role number: the field's role name.
#[derive(Clone, Copy, PartialEq, Eq)]
pub struct Role(pub u16);

// A unit number: the field's individual name.
#[derive(Clone, Copy, PartialEq, Eq)]
pub struct Individual(pub u16);

// A node number: a concept, or a unit counted on from the concepts.
#[derive(Clone, Copy, PartialEq, Eq)]
pub struct Node(pub u16);

// How many concepts, roles and units there are.
#[derive(Clone, Copy, PartialEq, Eq)]
pub struct Sizes {
    pub concepts: u16,
    pub roles: u16,
    pub individuals: u16,
}

// A sentence: the field's axiom in normal form, with the label of the views that it holds in.
#[derive(Clone, Copy)]
pub struct Sentence<L> {
    // A number, since any may be handed over: one that is no form's is refused.
    pub form: u8,
    pub first: u16,
    pub second: u16,
    pub role: u16,
    pub third: u16,
    pub label: L,
}

// One line of a description: a concept name (kind 0) or some role (kind 1) at a depth.
#[derive(Clone, Copy, PartialEq, Eq)]
pub struct Record {
    pub depth: u8,
    // A number, since any may be handed over: a list of records with a kind that is neither 0 nor 1 is no description.
    pub kind: u8,
    pub number: u16,
}

// Why a call was refused, and the number by which it is told.
#[derive(Clone, Copy, Debug, PartialEq, Eq)]
pub enum Refusal {
    SizesOutsideLimits = 1,
    MalformedSentence = 2,
    NoSuchLabel = 3,
    BookFull = 4,
    OutOfRange = 5,
    NotSettled = 6,
    TooFewPlaces = 7,
    BoardFull = 8,
    MemoryTooShort = 9,
    MalformedDescription = 10,
    MalformedLine = 11,
}

impl Refusal {
    // The number by which a refusal is told. A method and no `From`: it is promised by this name.
    pub fn number(self) -> u8
        ensures { result ≡ number_of self }
    {
        self as u8
    }
}

// By hand, here and for each other error: what `thiserror` derives has no contract, and these bytes are promised.
impl fmt::Display for Refusal {
    ghost use Rattle.std.specs.Prelude.{Some};
    ghost use Rattle.terms.specs.Refusals.{refused_line};

    ghost output = { λ refusal. Some (refused_line refusal) };

    fn fmt<W: fmt::Write>(&self, f: &mut fmt::Formatter<W>) -> fmt::Result {
        write!(f, "refused {}", self.number())
    }
}

impl Error for Refusal {}
