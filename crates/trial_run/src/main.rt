// Runs the plan on standard input or in the named file, and prints the report, or the refusal.

#![tactic(auto)]

mod words;

use plan::MAX_FILE;
use std::env;
use std::fs::File;
use std::io::Read;
use std::process::ExitCode;
use trials::{MAX_REPORT, show_trial};
use words::{Asked, HELP, VERSION};

fn run_plan(rt: &HostRuntime, source: impl Read + Drop) -> anyhow::Result<()> {
    let mut file = Vec::new(rt.alloc());
    // One byte more than the longest plan file is enough to see that a file is too long.
    source.take(MAX_FILE as u64 + 1).read_to_end(&mut file)?;
    let mut buffer = [0; MAX_REPORT];
    let length = show_trial(rt.alloc(), &file, &mut buffer)?;
    rt.stdout().write_all(&buffer[..length])?;
    Ok(())
}

fn run(rt: &HostRuntime) -> anyhow::Result<()> {
    let mut words = env::args(rt)?;
    let _ = words.next();
    match Asked::by(rt.alloc(), &mut words)? {
        Asked::Help => rt.print(HELP)?,
        Asked::Version => rt.print(VERSION)?,
        Asked::Input => run_plan(rt, rt.stdin())?,
        Asked::File(name) => run_plan(rt, File::open(rt, name)?)?,
    }
    Ok(())
}

// `standoff` has the same lines; a shared function would need a crate of its own and be no shorter.
fn main(rt: HostRuntime) -> ExitCode {
    let Err(error) = run(&rt) else {
        return ExitCode::SUCCESS;
    };
    let _ = eprintln!(rt; "trial_run: {error}");
    ExitCode::FAILURE
}
