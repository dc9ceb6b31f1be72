// Reads a plan file on standard input and prints whether a rig would take it, or the refusal.

#![tactic(auto)]

mod record;

use plan::{MAX_FILE, Plan, rule_asked};
use record::Record;
use std::io;
use std::io::Read;

fn main(rt: HostRuntime) -> io::Result<()> {
    let mut input = Vec::new(rt.alloc());
    // One byte more than the longest plan file is enough to see that a file is too long.
    rt.stdin()
        .take(MAX_FILE as u64 + 1)
        .read_to_end(&mut input)?;
    let file = input.as_slice();
    match Plan::decode(file, u8::from(rule_asked(file))) {
        Ok(plan) => rt.println(Record { plan }),
        Err(refusal) => rt.println(refusal),
    }
}
