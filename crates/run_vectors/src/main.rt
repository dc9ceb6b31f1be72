// Runs the plan files that a list names, and prints the report of each, or its refusal.

#![tactic(auto)]

use std::fs;
use std::io::Write;
use trials::{MAX_REPORT, show_trial};

fn main(rt: HostRuntime) -> anyhow::Result<()> {
    let names = fs::read_to_string(&rt, "names.txt")?;
    // A loop: each turn prints, and the first that fails ends the program.
    for name in names.lines() {
        let path = format!(in rt.alloc(); "{name}.plan")?;
        let file = fs::read(&rt, path)?;
        println!(rt; "{name}")?;
        let mut buffer = [0; MAX_REPORT];
        let length = show_trial(rt.alloc(), &file, &mut buffer)?;
        rt.stdout().write_all(&buffer[..length])?;
    }
    Ok(())
}
