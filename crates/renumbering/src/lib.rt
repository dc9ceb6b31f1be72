// Renumbering the cells and replacing the identities is invisible, under every lawful rule.

#![tactic(auto)]

ghost use Rattle.std.specs.Prelude.{replicate};
ghost use Rattle.cells.specs.declared.mark.Mark.TheVariants.{Empty};
ghost use Rattle.model.specs.Meanings.{meaning_of, read_and_write};
ghost use Rattle.renumbering.specs.Renumbering.{RenumberingInvisible, TwinFiles};

use rules::Rule;

// Two rigs whose plans differ by a renumbering of the cells and by their identities answer alike, whatever they hear.
// It answers `true` and not `()`, so that whoever tests the answer goes on as before; the theorem is the contract.
pub fn renumbering_unseen<R: Rule>() -> bool
    ensures invisible { RenumberingInvisible (meaning_of R.Rule) }
{
    true
}

// A plan and its twin: two agents over three cells, with no events.
pub struct PlanPair {
    pub plan: [u8; 22],
    pub twin: [u8; 22],
}

// Two plan files to which this applies: the second calls cell 1 what the first calls cell 3, cell 2 what it calls 1, and
// cell 3 what it calls 2, and has other identities.
pub fn twin_plans() -> PlanPair
    ensures twins { TwinFiles read_and_write (replicate 3 Empty) result.plan result.twin }
{
    PlanPair {
        plan: *b"\x01\x01\x02\x03\x00\x0c\x00\x10\x00\x16\x00\x00\x02\xbc\x00\x29\x01\x02\x03\x02\x03\x01",
        twin: *b"\x01\x01\x02\x03\x00\x0c\x00\x10\x00\x16\x00\x00\x00\x09\xff\xff\x02\x03\x01\x03\x01\x02",
    }
}
