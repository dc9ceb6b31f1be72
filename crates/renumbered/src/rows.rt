// The rows that a numbering is made from.
ghost use Rattle.renumbered.specs.Renumberings.{entry};

use numbers::rows::Row;

// Every name stands for itself.
#[derive(Clone, Copy)]
pub struct Same;

impl Row for Same {
    ghost numbers = { λ s y. y };

    fn number_at(&self, place: u16) -> usize {
        usize::from(place)
    }
}

// A caller's row.
#[derive(Clone, Copy)]
pub struct Given<'a> {
    pub row: &'a [usize],
}

impl Row for Given<'_> {
    ghost numbers = { λ s. entry s.row.now };

    fn number_at(&self, place: u16) -> usize {
        let before = usize::from(place.saturating_sub(1));
        // 0 past the row's end: total, as its definition is.
        self.row.get(before).copied().unwrap_or(0)
    }
}
