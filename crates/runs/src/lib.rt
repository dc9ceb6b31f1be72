// What every run of a rig keeps, under every lawful rule.

#![tactic(auto)]

ghost use Rattle.model.specs.Meanings.{meaning_of};
ghost use Rattle.runs.specs.Serving.{AlwaysGranted};

use rules::Rule;

// From any accepted load and after any calls, what an asking or leaving agent wants next is never refused by the store.
// It answers `true` and not `()`, so that whoever tests the answer goes on as before; the theorem is the contract.
pub fn always_granted<R: Rule>() -> bool
    ensures always { AlwaysGranted (meaning_of R.Rule) }
{
    true
}
