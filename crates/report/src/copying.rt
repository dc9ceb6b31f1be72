// A sheet copied to a caller's buffer.
ghost use Rattle.std.specs.Prelude.{◌≡◌};
ghost use Rattle.report.specs.Reports.{copy_answer, copy_after};

use crate::sheet::Sheet;
use refusal::Refusal;

impl Sheet {
    // Copies what is written to the front of the buffer, if it is long enough.
    pub(crate) fn copy_to(&self, buffer: &mut [u8]) -> Result<usize, Refusal>
        ensures value { result ≡ copy_answer self.now buffer.old }
        ensures after { buffer.new ≡ copy_after self.now buffer.old }
    {
        let text = self.as_bytes();
        if buffer.len() < text.len() {
            return Err(Refusal::BufferTooShort);
        }
        buffer[..text.len()].copy_from_slice(text);
        Ok(text.len())
    }
}
