// How many nodes and places there are, and the place of each membership and link.
ghost use Rattle.std.specs.Prelude.{◌≡◌, ◌+◌, [], ◌∷◌, nat_le};
ghost use Rattle.terms.specs.declared.Refusal.TheVariants.{SizesOutsideLimits, OutOfRange};
ghost use Rattle.terms.specs.Refusals.{Checked, Accepted};
ghost use Rattle.terms.specs.Places.{outside_limits, nodes, places, place, member, link, word_count, EachPlaceIsOfOneFact};

use crate::{Concept, Individual, Node, Refusal, Role, Sizes};

impl Sizes {
    // Whether a size is outside its limits.
    pub fn is_outside_limits(self) -> bool
        ensures { result ≡ outside_limits self }
    {
        self.concepts == 0 || self.concepts > 512 || self.roles > 32 || self.individuals > 512
    }

    // Refuses sizes outside the limits.
    pub fn check(self) -> Result<(), Refusal>
        ensures { Checked ((outside_limits self, SizesOutsideLimits) ∷ []) result (Unit {0}) (Accepted (λ u. Unit {0})) }
    {
        if self.is_outside_limits() {
            return Err(Refusal::SizesOutsideLimits);
        }
        Ok(())
    }

    // How many nodes there are.
    pub fn nodes(self) -> usize
        ensures { result ≡ nodes self }
    {
        usize::from(self.concepts) + usize::from(self.individuals)
    }

    // How many places a board must have.
    pub fn places(self) -> usize
        ensures { result ≡ places self }
    {
        let nodes = self.nodes();
        nodes * (usize::from(self.concepts) + usize::from(self.roles) * nodes)
    }

    // How many words a sheet must have.
    pub fn word_count(self) -> usize
        ensures { result ≡ word_count self }
    {
        self.places().div_ceil(64)
    }

    // The place of the membership of a node in a concept.
    pub fn member_place(self, node: Node, concept: Concept) -> usize
        ensures { result ≡ place self (member node.0 concept.0) }
    {
        usize::from(node.0) * usize::from(self.concepts) + usize::from(concept.0)
    }

    // The place of the link from one node along a role to another.
    pub fn link_place(self, node: Node, role: Role, other: Node) -> usize
        ensures { result ≡ place self (link node.0 role.0 other.0) }
    {
        let nodes = self.nodes();
        let row = usize::from(node.0) * usize::from(self.roles) + usize::from(role.0);
        nodes * usize::from(self.concepts) + row * nodes + usize::from(other.0)
    }

    // The node of a concept.
    pub fn concept_node(self, concept: Concept) -> Result<Node, Refusal>
        ensures { Checked ((outside_limits self, SizesOutsideLimits) ∷ ((nat_le self.concepts concept.0, OutOfRange) ∷ [])) result (Unit {0}) (Accepted (λ x. x.0 ≡ concept.0)) }
    {
        self.check()?;
        if concept.0 >= self.concepts {
            return Err(Refusal::OutOfRange);
        }
        Ok(Node(concept.0))
    }

    // The node of a unit. By hand beside `concept_node`: one function for both would take the number, its bound and what is added to it.
    pub fn individual_node(self, individual: Individual) -> Result<Node, Refusal>
        ensures { Checked ((outside_limits self, SizesOutsideLimits) ∷ ((nat_le self.individuals individual.0, OutOfRange) ∷ [])) result (Unit {0}) (Accepted (λ x. x.0 ≡ self.concepts + individual.0)) }
    {
        self.check()?;
        if individual.0 >= self.individuals {
            return Err(Refusal::OutOfRange);
        }
        Ok(Node(self.concepts + individual.0))
    }
}

// Within the limits there are at most 34,078,720 places, and each is the place of just one fact.
pub fn each_place_is_of_one_fact()
    ensures { EachPlaceIsOfOneFact }
{}
