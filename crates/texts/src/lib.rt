// The text of a book, read and written.
#![tactic(auto)]

use std::error::Error;
use std::fmt;
use terms::Refusal;

pub mod read;
pub mod write;

// Why a text was refused, and the number of the line, from 1; 0 where the refusal comes from no line, and no Option, as `line 0` is what is told.
#[derive(Clone, Copy, Debug)]
pub struct Misread {
    pub refusal: Refusal,
    pub line: usize,
}

impl fmt::Display for Misread {
    ghost use Rattle.std.specs.Prelude.{Some};
    ghost use Rattle.texts.specs.Lines.{misread_line};

    ghost output = { λ misread. Some (misread_line misread) };

    fn fmt<W: fmt::Write>(&self, f: &mut fmt::Formatter<W>) -> fmt::Result {
        write!(f, "{} line {}", self.refusal, self.line)
    }
}

impl Error for Misread {}

// A refusal that comes from no line of a text.
impl From<Refusal> for Misread {
    ghost use Rattle.std.specs.Prelude.{◌≡◌};
    ghost use Rattle.texts.specs.Lines.{outside_reading};

    ghost from_gives = { λ refusal misread. misread ≡ outside_reading refusal };

    fn from(refusal: Refusal) -> Misread {
        Misread { refusal, line: 0 }
    }
}
