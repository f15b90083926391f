// A label means a set of views; a kind of label fixes how many views there are and how a set is kept.
#![tactic(auto)]

ghost use Rattle.std.specs.Prelude.{◌≡◌};
ghost use Rattle.labels.specs.Kind.{Kind, Lawful, held, LabelOfNumber};
ghost use Rattle.labels.specs.Kinds.{model_kind, grade_kind, whole_kind};
ghost use Rattle.labels.specs.KindLaws.{model_laws, grade_laws, whole_laws};

pub mod grade;

pub use grade::Grade;

// A model label: view v is held when bit v is 1.
#[derive(Clone, Copy)]
pub struct Model(pub u64);

// A whole label: its one view is held or not.
#[derive(Clone, Copy)]
pub struct Whole(pub bool);

// A kind of label: any type that shows these laws.
pub trait Label: Copy {
    // What the values mean.
    ghost kind: { Kind Self };

    // What every kind shows.
    ghost laws: { Lawful kind };

    // No view.
    fn none() -> Self
        ensures { result ≡ kind.none };

    // Every view.
    fn all() -> Self
        ensures { result ≡ kind.all };

    // The views in each of the two.
    fn both(self, other: Self) -> Self
        ensures { result ≡ kind.both self other };

    // The views in at least one of the two.
    fn either(self, other: Self) -> Self
        ensures { result ≡ kind.either self other };

    // Whether the view is held; a number that is no view is not.
    fn holds(self, view: u16) -> bool
        ensures { result ≡ held kind self view };

    // The number of views.
    fn views() -> u16
        ensures { result ≡ kind.views };

    // The label's number: equal for two labels exactly when their views are. Labels are compared by it and by no `PartialEq`, since two values may hold
    // the same views.
    fn number(self) -> u64
        ensures { result ≡ kind.number self };

    // The label that has the number, or that none has. A method, since no law ties a `TryFrom` to the number.
    fn from_number(number: u64) -> Option<Self>
        ensures { LabelOfNumber kind number result };
}

impl Label for Model {
    ghost kind = { model_kind };

    ghost laws = { model_laws };

    fn none() -> Model {
        Model(0)
    }

    fn all() -> Model {
        Model(u64::MAX)
    }

    fn both(self, other: Model) -> Model {
        Model(self.0 & other.0)
    }

    fn either(self, other: Model) -> Model {
        Model(self.0 | other.0)
    }

    fn holds(self, view: u16) -> bool {
        view < 64 && (self.0 >> view) % 2 == 1
    }

    fn views() -> u16 {
        64
    }

    fn number(self) -> u64 {
        self.0
    }

    fn from_number(number: u64) -> Option<Model> {
        Some(Model(number))
    }
}

impl Label for Grade {
    ghost kind = { grade_kind };

    ghost laws = { grade_laws };

    fn none() -> Grade {
        Grade { number: 0 }
    }

    fn all() -> Grade {
        Grade { number: 15 }
    }

    fn both(self, other: Grade) -> Grade {
        Grade {
            number: self.number.min(other.number),
        }
    }

    fn either(self, other: Grade) -> Grade {
        Grade {
            number: self.number.max(other.number),
        }
    }

    fn holds(self, view: u16) -> bool {
        view < u16::from(self.number)
    }

    fn views() -> u16 {
        15
    }

    fn number(self) -> u64 {
        u64::from(self.number)
    }

    fn from_number(number: u64) -> Option<Grade> {
        let number = u8::try_from(number).ok()?;
        if number > 15 {
            return None;
        }
        Some(Grade { number })
    }
}

impl Label for Whole {
    ghost kind = { whole_kind };

    ghost laws = { whole_laws };

    fn none() -> Whole {
        Whole(false)
    }

    fn all() -> Whole {
        Whole(true)
    }

    fn both(self, other: Whole) -> Whole {
        Whole(self.0 && other.0)
    }

    fn either(self, other: Whole) -> Whole {
        Whole(self.0 || other.0)
    }

    fn holds(self, view: u16) -> bool {
        view < 1 && self.0
    }

    fn views() -> u16 {
        1
    }

    fn number(self) -> u64 {
        u64::from(self.0)
    }

    fn from_number(number: u64) -> Option<Whole> {
        match number {
            0 => Some(Whole(false)),
            1 => Some(Whole(true)),
            _ => None,
        }
    }
}
