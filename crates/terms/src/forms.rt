// The six forms of a sentence.
ghost use Rattle.terms.specs.Forms.{FormOf};

use crate::Refusal;

// What a sentence says, by the form of the field's axiom.
#[derive(Clone, Copy, Debug, PartialEq, Eq)]
pub enum Form {
    Inclusion,
    Conjunction,
    ExistentialOnRight,
    ExistentialOnLeft,
    ConceptAssertion,
    RoleAssertion,
}

impl TryFrom<u8> for Form {
    type Error = Refusal;

    ghost try_from_gives = { FormOf };

    fn try_from(number: u8) -> Result<Form, Refusal> {
        match number {
            1 => Ok(Form::Inclusion),
            2 => Ok(Form::Conjunction),
            3 => Ok(Form::ExistentialOnRight),
            4 => Ok(Form::ExistentialOnLeft),
            5 => Ok(Form::ConceptAssertion),
            6 => Ok(Form::RoleAssertion),
            _ => Err(Refusal::MalformedSentence),
        }
    }
}
