//! The names on a line, with white space between them.
ghost use Rattle.std.specs.Prelude.{◌≡◌, length};
ghost use Rattle.std.specs.List.{slice_get};
ghost use Rattle.std.specs.Option.{option_map};
ghost use Rattle.text.specs.Tokens.{tokens};

use crate::bytes::is_white;

/// How many names the line has.
pub fn count_names(line: &[u8]) -> usize
    ensures { result ≡ length (tokens line.now) }
{
    // A loop and not the chain of `name`, by which it takes twice the time: that stops at each byte of white space.
    let mut count = 0;
    let mut inside = false;
    for byte in line {
        let black = !is_white(*byte);
        if black && !inside {
            count += 1;
        }
        inside = black;
    }
    count
}

/// The name number `i`, from 0.
pub fn name(line: &[u8], i: usize) -> Option<&[u8]>
    ensures { option_map (λ x. x.now) result ≡ slice_get (tokens line.now) i }
{
    line.split(|b| is_white(*b))
        .filter(|name| !name.is_empty())
        .nth(i)
}
