// Runs the stand-offs that a list names, as the program `standoff` would, and prints each after its name.

#![tactic(auto)]

use standoffs::Standoff;
use std::fs;
use std::io::Write;

// The words of a file.
fn words(rt: &HostRuntime, name: &str) -> anyhow::Result<Vec<String>> {
    let path = format!(in rt.alloc(); "{name}.args")?;
    let text = fs::read_to_string(rt, path)?;
    let words = text
        .split_whitespace()
        .map(|word| String::from_str(rt.alloc(), word))
        .try_collect(rt.alloc())?;
    Ok(words)
}

fn tell(rt: &HostRuntime, name: &str) -> anyhow::Result<()> {
    let words = words(rt, name)?;
    let asked = Standoff::read_words(rt.alloc(), words.as_slice())?;
    let told = asked.told(rt.alloc())?;
    println!(rt; "{name}")?;
    rt.stdout().write_all(told.as_slice())?;
    Ok(())
}

fn run(rt: &HostRuntime) -> anyhow::Result<()> {
    let names = fs::read_to_string(rt, "names.txt")?;
    // A loop: each turn prints, and the first that fails ends the program.
    for name in names.lines() {
        tell(rt, name)?;
    }
    Ok(())
}

fn main(rt: HostRuntime) -> anyhow::Result<()> {
    run(&rt)
}
