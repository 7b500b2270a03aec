//! The lines of a text that hold names.
ghost use Rattle.std.specs.Prelude.{◌≡◌};
ghost use Rattle.std.specs.Option.{option_map};
ghost use Rattle.text.specs.Lines.{told, names_of};

use crate::bytes::is_white;

// What a line `# KEY ..` holds behind the key.
fn held<'a>(line: &'a [u8], key: &[u8]) -> Option<&'a [u8]>
    ensures { option_map (λ x. x.now) result ≡ told key.now line.now }
{
    let rest = line.strip_prefix(b"# ")?.strip_prefix(key)?;
    let closed = rest.first().is_none_or(|b| is_white(*b));
    closed.then_some(rest)
}

/// What stands behind `# KEY` on the first line that begins so, and has white space or its end there.
// Inlined, since over empty lines it is slower as a call of its own.
#[inline(always)]
pub fn names<'a>(text: &'a [u8], key: &[u8]) -> Option<&'a [u8]>
    ensures { option_map (λ x. x.now) result ≡ names_of key.now text.now }
{
    text.split(|b| *b == b'\n').find_map(|line| held(line, key))
}
