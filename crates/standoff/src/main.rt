// Loads a stand-off, plays its rounds, and prints what each answered and the report, for whoever asks why a number of
// cells is refused.

#![tactic(auto)]

use standoffs::Standoff;
use std::env;
use std::io::Write;
use std::process::ExitCode;

const HELP: &str = "usage: standoff RULE N M [ROUNDS]

Loads a stand-off of N agents over M empty cells under the rule RULE (1, 2 or 3), plays ROUNDS, and prints `ok` or the
refusal of each round, and then the report. A refused load prints its refusal only.

ROUNDS is a word of letters, one for each round: r for a request, s for a step, l for a leave, of each of the agents
that move together. Left out or empty, it means none.

The exit status is 0, and 1 where the words are no such request; the message is then on standard error.";

const VERSION: &str = "standoff 1.0.0";

// The words behind the program's name.
fn words(rt: &HostRuntime) -> anyhow::Result<Vec<String>> {
    Ok(env::args(rt)?.skip(1).collect(rt.alloc())?)
}

fn run(rt: &HostRuntime) -> anyhow::Result<()> {
    let words = words(rt)?;
    match words.as_slice() {
        [option] if option.as_str() == "--help" => rt.println(HELP)?,
        [option] if option.as_str() == "--version" => rt.println(VERSION)?,
        words => {
            let asked = Standoff::read_words(rt.alloc(), words)?;
            let told = asked.told(rt.alloc())?;
            rt.stdout().write_all(told.as_slice())?;
        }
    }
    Ok(())
}

fn main(rt: HostRuntime) -> ExitCode {
    let Err(error) = run(&rt) else {
        return ExitCode::SUCCESS;
    };
    let _ = eprintln!(rt; "standoff: {error}");
    ExitCode::FAILURE
}
