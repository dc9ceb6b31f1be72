// An accepted plan: it borrows its file and answers in names, numbers and events.

use crate::draft::Draft;

// No ghost field says that its numbers are in range: the checker lets no value with one lie beside bytes lent to be changed,
// as in an `Option` of both. Nor has it an `impl Model`: what borrows and has one is not `Copy`.
#[derive(Clone, Copy)]
pub struct Plan<'a> {
    pub(crate) draft: Draft<'a>,
}
