// Which sentences keep the rules.
ghost use Rattle.std.specs.Prelude.{◌≡◌, not, [], ◌∷◌};
ghost use Rattle.terms.specs.declared.Refusal.TheVariants.{MalformedSentence};
ghost use Rattle.terms.specs.Refusals.{Checked, Accepted};
ghost use Rattle.terms.specs.Sentences.{blank_sentence, relabelled, well_formed};

use crate::{Form, Refusal, Sentence, Sizes};
use labels::Label;

impl<L: Label> Sentence<L> {
    // All 0, with the label none: what a cell holds that is not used yet.
    pub fn blank() -> Sentence<L>
        ensures { result ≡ blank_sentence L.Label.kind.none }
    {
        Sentence {
            form: 0,
            first: 0,
            second: 0,
            role: 0,
            third: 0,
            label: L::none(),
        }
    }
}

impl<L: Copy> Sentence<L> {
    // The same sentence with another label. Field by field: a copy by `..self` cannot have another type of label.
    pub fn with_label<M>(self, label: M) -> Sentence<M>
        ensures { result ≡ relabelled self label }
    {
        Sentence {
            form: self.form,
            first: self.first,
            second: self.second,
            role: self.role,
            third: self.third,
            label,
        }
    }

    // Whether the form is one of the six, each name that it uses is in range, and each other is 0.
    pub fn is_well_formed(self, sizes: Sizes) -> bool
        ensures { result ≡ well_formed sizes self }
    {
        let first_is_concept = self.first < sizes.concepts;
        let first_is_unit = self.first < sizes.individuals;
        let second_is_concept = self.second < sizes.concepts;
        let no_second = self.second == 0;
        let role_is_known = self.role < sizes.roles;
        let no_role = self.role == 0;
        let third_is_concept = self.third < sizes.concepts;
        let third_is_unit = self.third < sizes.individuals;
        match Form::try_from(self.form) {
            Ok(Form::Inclusion) => first_is_concept && no_second && no_role && third_is_concept,
            Ok(Form::Conjunction) => {
                first_is_concept && second_is_concept && no_role && third_is_concept
            }
            Ok(Form::ExistentialOnRight | Form::ExistentialOnLeft) => {
                first_is_concept && no_second && role_is_known && third_is_concept
            }
            Ok(Form::ConceptAssertion) => {
                first_is_unit && no_second && no_role && third_is_concept
            }
            Ok(Form::RoleAssertion) => {
                first_is_unit && no_second && role_is_known && third_is_unit
            }
            Err(_) => false,
        }
    }

    // Refuses a sentence that is not for these sizes.
    pub fn check(self, sizes: Sizes) -> Result<(), Refusal>
        ensures { Checked ((not (well_formed sizes self), MalformedSentence) ∷ []) result (Unit {0}) (Accepted (λ u. Unit {0})) }
    {
        if !self.is_well_formed(sizes) {
            return Err(Refusal::MalformedSentence);
        }
        Ok(())
    }
}
