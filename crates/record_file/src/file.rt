// The lent bytes.

// A card file's bytes, lent for as long as the store stands.
#[derive(Drop)]
pub struct RecordFile<'a> {
    pub(crate) file: &'a mut [u8],
}
