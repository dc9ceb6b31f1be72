// Rounds of a stand-off: one call for each of the agents that move together.
ghost use Rattle.std.specs.Prelude.{◌≡◌, ◌+◌, ◌≤◌, IfOk};
ghost use Rattle.model.specs.Meanings.{meaning_of};
ghost use Rattle.model.specs.Rigs.{moved, turned_away, after_check};
ghost use Rattle.model.specs.Rounds.{given, in_turn, moving, may_not, all_may, round_hearing, round_answer, after_round};
ghost use Rattle.model.specs.declared.Round.TheVariants.{Request, Step, Leave};
ghost use Rattle.rig.specs.Serving.{checked};
ghost use Rattle.rig.specs.Worlds.{world, rig_of};

use crate::calls::MOST_HEARD;
use crate::rig::Rig;
use crate::sections::check_section;
use cells::CellStore;
use model::Round;
use refusal::Refusal;
use rules::Rule;

impl<S: CellStore, R: Rule> Rig<S, R> {
    // How many agents move together, if the rig is a stand-off and has so many calls left to hear.
    fn together(&self) -> Result<usize, Refusal>
        ensures value { checked result ≡ round_hearing (rig_of self.now) self.now.standoff }
        ensures moving { IfOk result (λ l. l ≡ moving self.now.standoff) }
        ensures early { IfOk result (λ l. self.now.heard + l ≤ 1000000) }
    {
        let together = self.standoff.ok_or(Refusal::NoStandoff)?;
        // No `From` widens a `u32` to a `usize`.
        if together > (MOST_HEARD - self.heard) as usize {
            return Err(Refusal::HeardAll);
        }
        Ok(together)
    }

    // Whether an agent's section refuses what the round gives it.
    fn may_not(&self, round: Round, agent: usize) -> bool
        ensures value { result ≡ may_not round (rig_of self.now) agent }
    {
        check_section(round.event_for(agent), self.section_or_idle(agent)).is_err()
    }

    // Whether all the agents that move together may do what the round gives them.
    fn check_all(&self, round: Round, together: usize) -> Result<(), Refusal>
        ensures value { result ≡ all_may round (rig_of self.now) together }
    {
        if (1..=together).any(|agent| self.may_not(round, agent)) {
            return Err(round.refusal());
        }
        Ok(())
    }

    // A round is heard agent by agent, and each call has what the check of all said. Only while that many
    // calls are left to hear, since figures have no limit of their own.
    fn hear_all(&mut self, round: Round, together: usize, checked: Result<(), Refusal>)
        requires { self.old.heard + together ≤ 1000000 }
        ensures after { world S.marks self.new ≡ in_turn (λ v k. after_check checked (moved (meaning_of R.Rule) v (given round k)) (turned_away (meaning_of R.Rule) v (given round k))) (world S.marks self.old) together }
        ensures same { S.lender self.new.store ≡ S.lender self.old.store }
    {
        for agent in 1..=together {
            let _ = self.hear(round.event_for(agent), checked);
        }
    }

    // A request, a step or a leave of each of the agents that move together, or of none of them.
    pub fn round(&mut self, round: Round) -> Result<(), Refusal>
        ensures value { result ≡ round_answer (world S.marks self.old) round }
        ensures after { world S.marks self.new ≡ after_round (meaning_of R.Rule) (world S.marks self.old) round }
        ensures same { S.lender self.new.store ≡ S.lender self.old.store }
    {
        let together = self.together()?;
        let checked = self.check_all(round, together);
        self.hear_all(round, together, checked);
        checked
    }

    // Users ask for each kind of round by a name of its own too.

    // All agents that move together begin to ask.
    pub fn request_round(&mut self) -> Result<(), Refusal>
        ensures value { result ≡ round_answer (world S.marks self.old) Request }
        ensures after { world S.marks self.new ≡ after_round (meaning_of R.Rule) (world S.marks self.old) Request }
        ensures same { S.lender self.new.store ≡ S.lender self.old.store }
    {
        self.round(Round::Request)
    }

    // All agents that move together take one step.
    pub fn step_round(&mut self) -> Result<(), Refusal>
        ensures value { result ≡ round_answer (world S.marks self.old) Step }
        ensures after { world S.marks self.new ≡ after_round (meaning_of R.Rule) (world S.marks self.old) Step }
        ensures same { S.lender self.new.store ≡ S.lender self.old.store }
    {
        self.round(Round::Step)
    }

    // All agents that move together begin to leave.
    pub fn leave_round(&mut self) -> Result<(), Refusal>
        ensures value { result ≡ round_answer (world S.marks self.old) Leave }
        ensures after { world S.marks self.new ≡ after_round (meaning_of R.Rule) (world S.marks self.old) Leave }
        ensures same { S.lender self.new.store ≡ S.lender self.old.store }
    {
        self.round(Round::Leave)
    }
}
