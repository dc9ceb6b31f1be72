// Single bytes and two-byte numbers of a file.
ghost use Rattle.std.specs.Prelude.{◌≡◌, ◌^◌, ◌<◌};
ghost use Rattle.plan.specs.Bytes.{byte, word};

// The byte at `at`. Total, as its definition is: 0 past the end.
pub fn byte_at(file: &[u8], at: usize) -> u8
    ensures value { result ≡ byte file.now at }
{
    file.get(at).copied().unwrap_or(0)
}

// The two-byte number at `at`, high byte first.
pub fn word_at(file: &[u8], at: usize) -> u16
    requires { at < 2 ^ 32 }
    ensures value { result ≡ word file.now at }
{
    u16::from_be_bytes([byte_at(file, at), byte_at(file, at + 1)])
}
