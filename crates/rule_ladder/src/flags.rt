// The flags of an agent.
ghost use Rattle.std.specs.Prelude.{◌≡◌};
ghost use Rattle.rule_ladder.specs.Flags.{next_flag};

use tally::lowest_flag_set;

// The lowest name above `name` whose flag is set.
pub fn next_flag_set(flags: &[bool], name: usize) -> Option<usize>
    ensures value { result ≡ next_flag flags.now name }
{
    let above = flags.get(name..)?;
    let next = lowest_flag_set(above)?;
    Some(name + next)
}
