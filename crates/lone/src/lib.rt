// How long one agent takes when only its calls are heard.

#![tactic(auto)]

ghost use Rattle.std.specs.Prelude.{◌≡◌};
ghost use Rattle.model.specs.Meanings.{read_and_write, by_majority, by_ladder};
ghost use Rattle.lone.specs.Lone.{HoldsAlone, register_steps, majority_steps, ladder_steps};

use model::LoneSteps;

// The steps after which an agent holds, by each rule, with so many agents over so many cells: from any accepted load of a
// plan, after its request, and not one step earlier, if only its calls are heard. It is the same for every agent, table and
// identity.
pub fn lone_steps(agents: u8, cells: u8) -> LoneSteps
    ensures registers { result.registers ≡ register_steps agents cells }
    ensures majority { result.majority ≡ majority_steps agents cells }
    ensures ladder { result.ladder ≡ ladder_steps agents cells }
    ensures by_registers { HoldsAlone read_and_write register_steps }
    ensures by_majority { HoldsAlone by_majority majority_steps }
    ensures by_ladder { HoldsAlone by_ladder ladder_steps }
{
    let agents = usize::from(agents);
    let cells = usize::from(cells);
    LoneSteps {
        registers: 2 * cells + 1,
        majority: 2 * cells,
        ladder: 2 * cells * agents,
    }
}
