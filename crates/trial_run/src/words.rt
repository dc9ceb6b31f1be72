// What the words on the command line ask for.
use anyhow::anyhow;
use std::alloc::Global;
use std::env::Args;

pub const HELP: &str =
    "trial_run runs a plan of agents that share card cells under a locking rule, and prints the report or the refusal.

usage: trial_run [FILE]     the plan in FILE, or else on standard input
       trial_run --help     this text
       trial_run --version  the program's name and version
";

pub const VERSION: &str = "trial_run 1.0
";

// What is to be done.
#[derive(Drop)]
pub enum Asked {
    Help,
    Version,
    Input,
    File(String),
}

impl Asked {
    // One word at most: an option, or the name of a file; with no word, the plan is on standard input.
    pub fn by(heap: Global, words: &mut Args) -> anyhow::Result<Asked> {
        let Some(word) = words.next() else {
            return Ok(Asked::Input);
        };
        if words.next().is_some() {
            return Err(anyhow!("more than one word is given; try trial_run --help"));
        }
        match word.as_str() {
            "--help" => Ok(Asked::Help),
            "--version" => Ok(Asked::Version),
            option if option.starts_with('-') => {
                Err(anyhow!(format!(in heap; "unknown option {option}; try trial_run --help")?))
            }
            _ => Ok(Asked::File(word)),
        }
    }
}
