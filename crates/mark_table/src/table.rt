// The table.
ghost use Rattle.std.specs.Prelude.{◌≡◌, ◌≤◌, length};

use cells::Mark;

// Room for 64 marks, of which the first ones are cells. Memory is fixed, and the table is promised as `Copy`, which an
// `ArrayVec` is not.
#[derive(Clone, Copy)]
pub struct MarkTable {
    pub(crate) room: [Mark; 64],
    pub(crate) cells: usize,
    ghost few: { cells ≤ 64 },
    ghost full: { length room ≡ 64 },
}
