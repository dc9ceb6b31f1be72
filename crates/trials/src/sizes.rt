// How many cells a trial is over.
ghost use Rattle.std.specs.Prelude.{◌≡◌};
ghost use Rattle.trials.specs.Trials.{cells_asked};

// The file's fourth byte, and 0 where that is missing: total, as its definition is. A file that short is refused.
pub fn cells_asked(file: &[u8]) -> usize
    ensures value { result ≡ cells_asked file.now }
{
    usize::from(file.get(3).copied().unwrap_or(0))
}
