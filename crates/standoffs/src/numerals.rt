// Numbers as a word has them.
ghost use Rattle.std.specs.Prelude.{◌≡◌};
ghost use Rattle.standoffs.specs.Numerals.{number_of};

// The number that a word of decimal digits writes, where it fits. A sign in front, which std would read over, is no digit.
pub fn number_of(word: &str) -> Option<usize>
    ensures value { result ≡ number_of word.now }
{
    if word.starts_with('+') {
        return None;
    }
    word.parse::<usize>().ok()
}
