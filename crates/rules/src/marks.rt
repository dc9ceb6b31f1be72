// Small changes of the lists in a record, at any length.
ghost use Rattle.std.specs.Prelude.{◌≡◌, ◌-◌, take, slice_set};
ghost use Rattle.rules.specs.Records.{overlaid};

use cells::Mark;

// The first `count` elements, or all where there are fewer.
pub fn front<T>(list: &[T], count: usize) -> &[T]
    ensures value { result.now ≡ take count list.now }
{
    &list[..count.min(list.len())]
}

// Puts an element at a name, if there is one.
pub fn note<T: Copy>(list: &mut [T], name: usize, element: T)
    ensures after { list.new ≡ slice_set list.old (name - 1) element }
{
    let before = name.saturating_sub(1);
    // By index: of what is written through `get_mut` a proof knows the length alone.
    if before < list.len() {
        list[before] = element;
    }
}

// Puts marks at the front, as far as there is room.
pub fn note_all(list: &mut [Mark], marks: &[Mark])
    ensures after { list.new ≡ overlaid marks.now list.old }
{
    let room = marks.len().min(list.len());
    list[..room].copy_from_slice(&marks[..room]);
}
