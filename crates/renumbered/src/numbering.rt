// The names that the store below has for the names above.
ghost use Rattle.std.specs.Prelude.{◌≡◌, ℕ, ◌≤◌, length};
ghost use Rattle.numbers.specs.Rows.{Distinct};
ghost use Rattle.renumbered.specs.Renumberings.{entry, sigma};

use arrayvec::ArrayVec;
use numbers::names::is_name;
use numbers::rows::Row;
use std::marker::Model;

// For each of the names from 1 to their number one of these names, each once. A model says so and no ghost field: a store
// over bytes lent to be changed that holds this table is a type argument, and such an argument may hold a struct with a
// model, but none with a ghost field.
#[derive(Drop)]
pub struct Numbering {
    names: ArrayVec<u8, 64>,
}

impl Model for Numbering {
    ghost use Rattle.std.specs.Prelude.{◌≡◌, ℕ, List, length, true};
    ghost use Rattle.renumbered.specs.Renumberings.{arranged};

    ghost Value = { List ℕ };

    ghost view = { λ n. n.names.items };

    ghost invariant = { λ n. arranged n.names.items (length n.names.items) ≡ true };
}

impl Numbering {
    // The numbers that a row has at the places from 1 to `count`.
    pub fn from_row<R: Row>(row: &R, count: usize) -> Numbering
        requires small { count ≤ 64 }
        requires distinct { Distinct (R.numbers row.now) count count }
        ensures count { length result ≡ count }
        ensures names { (y : ℕ) → 1 ≤ y → y ≤ count → entry result y ≡ R.numbers row.now y }
    {
        let mut names = ArrayVec::new();
        // No number is cut: `count` is at most 64, and each number at most `count`.
        for name in 1..=count as u16 {
            names.push(row.number_at(name) as u8);
        }
        Numbering { names }
    }

    // The name below of a name above, over `cells` cells. A name that is none stays as it is, and so does every name if
    // the table is for another number of cells.
    pub fn below(&self, name: usize, cells: usize) -> usize
        ensures value { result ≡ sigma self.now (length self.now) cells name }
    {
        if self.names.len() == cells && is_name(name, cells) {
            usize::from(self.names[name - 1])
        } else {
            name
        }
    }
}
