// What a lawful rule shows.
ghost use Rattle.std.specs.Prelude.{◌≡◌, ℕ};
ghost use Rattle.rules.specs.declared.agent.Agent.{Agent};
ghost use Rattle.rules.specs.declared.want.Want.{Want};
ghost use Rattle.rules.specs.Records.{Reply, reply_of, loaded_agent};
ghost use Rattle.rules.specs.Lawful.{Sized, LawfulIdentity, Idles, Holds, Moves, Proper, Fits, NextSection, Permutes, replaced_agent, replaced_want, replaced_reply, AskingAs, LeavingAs};

use crate::agent::Agent;
use crate::answer::Answer;
use crate::want::Want;
use numbers::sizes::Sizes;

// The machine of one agent that knows the numbers of agents and cells. `reachable` holds of every record that calls can
// lead to: the laws say that loading, asking, leaving and every fitting answer keep it, and what the rule owes of such
// records.
pub trait Rule {
    const NUMBER: u8;

    ghost NUMBER: { ℕ };

    type Phase: Copy;

    ghost loaded: { Self.Phase };

    ghost asked: { ℕ → ℕ → Agent Self.Phase → Agent Self.Phase };

    ghost left: { ℕ → ℕ → Agent Self.Phase → Agent Self.Phase };

    ghost wants: { ℕ → ℕ → Agent Self.Phase → Want };

    ghost becomes: { ℕ → ℕ → Agent Self.Phase → Reply → Agent Self.Phase };

    ghost reachable: { ℕ → ℕ → Agent Self.Phase → Type 0 };

    fn loaded_phase() -> Self::Phase
        ensures value { result ≡ loaded };

    fn ask(sizes: Sizes, agent: &mut Agent<Self::Phase>)
        ensures after { agent.new ≡ asked sizes.agents sizes.cells agent.old };

    fn leave(sizes: Sizes, agent: &mut Agent<Self::Phase>)
        ensures after { agent.new ≡ left sizes.agents sizes.cells agent.old };

    fn want(sizes: Sizes, agent: &Agent<Self::Phase>) -> Want
        ensures value { result ≡ wants sizes.agents sizes.cells agent.now };

    fn step(sizes: Sizes, agent: &mut Agent<Self::Phase>, answer: Answer<'_>)
        ensures after { agent.new ≡ becomes sizes.agents sizes.cells agent.old (reply_of answer.entry) };

    ghost loads: { (n m i : ℕ) → Sized n m → LawfulIdentity i → reachable n m (loaded_agent loaded i) };

    ghost asks: { (n m : ℕ) (a : Agent Self.Phase) → Sized n m → reachable n m a → Idles a → reachable n m (asked n m a) };

    ghost leaves: { (n m : ℕ) (a : Agent Self.Phase) → Sized n m → reachable n m a → Holds a → reachable n m (left n m a) };

    ghost steps: { (n m : ℕ) (a : Agent Self.Phase) (r : Reply) → Sized n m → reachable n m a → Moves a → Fits m (wants n m a) r → reachable n m (becomes n m a r) };

    ghost proper: { (n m : ℕ) (a : Agent Self.Phase) → Sized n m → reachable n m a → Moves a → Proper m (wants n m a) };

    ghost sections: { (n m : ℕ) (a : Agent Self.Phase) (r : Reply) → Sized n m → reachable n m a → Moves a → Fits m (wants n m a) r → NextSection a (becomes n m a r) };

    ghost asking: { (n m : ℕ) (a : Agent Self.Phase) → AskingAs a (asked n m a) };

    ghost leaving: { (n m : ℕ) (a : Agent Self.Phase) → LeavingAs a (left n m a) };

    ghost identity: { (n m : ℕ) (a : Agent Self.Phase) (r : Reply) → (becomes n m a r).identity ≡ a.identity };

    ghost renamed: { (n m : ℕ) (a : Agent Self.Phase) (π : ℕ → ℕ) → Sized n m → reachable n m a → Permutes π → reachable n m (replaced_agent π a) };

    ghost renamedask: { (n m : ℕ) (a : Agent Self.Phase) (π : ℕ → ℕ) → Sized n m → reachable n m a → Permutes π → asked n m (replaced_agent π a) ≡ replaced_agent π (asked n m a) };

    ghost renamedleave: { (n m : ℕ) (a : Agent Self.Phase) (π : ℕ → ℕ) → Sized n m → reachable n m a → Permutes π → left n m (replaced_agent π a) ≡ replaced_agent π (left n m a) };

    ghost renamedwant: { (n m : ℕ) (a : Agent Self.Phase) (π : ℕ → ℕ) → Sized n m → reachable n m a → Moves a → Permutes π → wants n m (replaced_agent π a) ≡ replaced_want π (wants n m a) };

    ghost renamedstep: { (n m : ℕ) (a : Agent Self.Phase) (r : Reply) (π : ℕ → ℕ) → Sized n m → reachable n m a → Moves a → Fits m (wants n m a) r → Permutes π → becomes n m (replaced_agent π a) (replaced_reply π r) ≡ replaced_agent π (becomes n m a r) };
}
