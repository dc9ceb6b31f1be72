// A sheet for one report.
ghost use Rattle.std.specs.Prelude.{◌≡◌, ℕ, List, []};
ghost use Rattle.report.specs.Sheets.{Puts};

use arrayvec::ArrayString;
use itoa::{Buffer, Integer};
use std::marker::Model;

// No report is longer.
pub const MAX_REPORT: usize = 2336;

// The text that is written so far. What would go past the end of the sheet is left out, so nothing is asked of whoever
// writes; no report is that long.
#[derive(Drop)]
pub(crate) struct Sheet {
    text: ArrayString<MAX_REPORT>,
}

impl Model for Sheet {
    ghost Value = { List ℕ };

    ghost view = { λ s. s.text.bytes };
}

impl Sheet {
    // A sheet with nothing written.
    pub(crate) fn new() -> Sheet
        ensures value { result ≡ [] }
    {
        Sheet {
            text: ArrayString::new(),
        }
    }

    pub(crate) fn text(&mut self, text: &str)
        ensures after { Puts self.old text.now self.new }
    {
        let _ = self.text.try_push_str(text);
    }

    // A number in decimal digits.
    pub(crate) fn number<I: Integer>(&mut self, number: I)
        ensures after { Puts self.old (I.text number) self.new }
    {
        let mut digits = Buffer::new();
        self.text(digits.format(number));
    }

    // All that is written.
    pub(crate) fn as_bytes(&self) -> &[u8]
        ensures value { result.now ≡ self.now }
    {
        self.text.as_str().as_bytes()
    }
}
