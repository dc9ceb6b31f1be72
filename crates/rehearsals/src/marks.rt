// A plan's marks and its twin's, compared.
ghost use Rattle.std.specs.Prelude.{◌≡◌, true, is_some, Ok};
ghost use Rattle.numbers.specs.First.{first_of};
ghost use Rattle.plan.specs.Plans.{model};
ghost use Rattle.renumbering.specs.Renumbering.{Replaces};
ghost use Rattle.rehearsals.specs.Twins.{has_both, replaced};

use crate::twins::Twins;
use cells::Mark;

impl Twins<'_> {
    // Whether an agent has one identity in the plan and the other in its twin.
    fn are_of_one_agent(&self, one: u16, other: u16) -> bool
        ensures value { result ≡ is_some (first_of (has_both (model self.now.plan) (model self.now.twin) one other) 1 (model self.now.plan).agents) }
    {
        (1..=self.plan.agents()).any(|k| self.plan.identity(k) == Some(one)
            && self.twin.identity(k) == Some(other))
    }

    // Whether the other mark is this one with identities replaced: an owner's mark of an agent of the plan becomes one of
    // the same agent of the twin, and every other mark stays.
    pub fn is_replaced(&self, mark: Mark, other: Mark) -> bool
        ensures value { result ≡ replaced (model self.now.plan) (model self.now.twin) mark other }
        ensures replaces { result ≡ true → Replaces (model self.now.plan) (model self.now.twin) (Ok mark) (Ok other) }
    {
        match (mark, other) {
            (Mark::Owner(one), Mark::Owner(two)) => self.are_of_one_agent(one, two),
            _ => mark == other,
        }
    }
}
