// Reads the plan files that a list names, and prints the verdict on each.

#![tactic(auto)]

ghost use Rattle.std.specs.Prelude.{◌≡◌, IfOk, string_bytes};
ghost use Rattle.plan_vectors.specs.Verdicts.{verdict_line};

use plan::{Plan, rule_asked};
use std::alloc::{AllocError, Global};
use std::{fs, io};

// The line of the refusal, or `accepted`.
fn verdict(heap: Global, file: &[u8]) -> Result<String, AllocError>
    ensures made { IfOk result (λ s. string_bytes s ≡ verdict_line file.now) }
{
    match Plan::decode(file, u8::from(rule_asked(file))) {
        Ok(_) => String::from_str(heap, "accepted"),
        Err(refusal) => refusal.to_string(heap),
    }
}

fn main(rt: HostRuntime) -> io::Result<()> {
    let names = fs::read_to_string(&rt, "names.txt")?;
    for name in names.lines() {
        let path = format!(in rt.alloc(); "{name}.plan")?;
        let file = fs::read(&rt, path)?;
        let verdict = verdict(rt.alloc(), &file)?;
        println!(rt; "{name} {verdict}")?;
    }
    Ok(())
}
