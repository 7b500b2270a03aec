//! Kinds of bytes.
ghost use Rattle.std.specs.Prelude.{◌≡◌};
ghost use Rattle.text.specs.Bytes.{white};

pub fn is_white(byte: u8) -> bool
    ensures { result ≡ white byte }
{
    // four tests and no `matches!`, by which a search for white space takes three times as long
    byte == b'\t' || byte == b'\n' || byte == b'\r' || byte == b' '
}
