//! The reader of programs, in one pass over their words.
ghost use Rattle.std.specs.Prelude.{◌≡◌, suc, ◌+◌, ◌≤◌, length, IfOk, MatchResult};
ghost use Rattle.programs.specs.Reading.{StepSays, ReadPost, limits_of};
ghost use Rattle.programs.specs.Single.{WordSays, RangeSays, Part, Short, HeaderSays};

use crate::step::{Action, Fault, Header, Limits, Step, Wrong};
use std::ops::RangeBounds;

// Words, of which the first `at` are read.
#[derive(Drop)]
struct Reader<'a> {
    words: &'a [u32],
    at: usize,
    ghost within: { at ≤ length words.now },
}

impl<'a> Reader<'a> {
    ghost use Rattle.programs.specs.Reader.{HasRead};

    // The next word, if there is one.
    fn word(&mut self) -> Result<usize, Wrong>
        ensures says { WordSays self.old.words.now self.old.at result }
        ensures read { IfOk result (λ _. HasRead self.old self.new 1) }
    {
        let word = self.words.get(self.at).ok_or(Wrong {
            at: self.at,
            fault: Fault::Ends,
        })?;
        self.at += 1;
        Ok(*word as usize)
    }

    // The next word, if there is one and it is in the range.
    fn word_in<R: RangeBounds<usize>>(&mut self, range: R, fault: Fault) -> Result<usize, Wrong>
        requires { R.has_bounds range }
        ensures says { RangeSays self.old.words.now self.old.at (R.start_bound range) (R.end_bound range) fault result }
        ensures read { IfOk result (λ _. HasRead self.old self.new 1) }
    {
        let at = self.at;
        let word = self.word()?;
        if !range.contains(&word) {
            return Err(Wrong { at, fault });
        }
        Ok(word)
    }

    // The next `k + 1` words, if there are so many.
    fn numbers(&mut self, k: usize) -> Result<&'a [u32], Wrong>
        ensures says { MatchResult result (λ x. Part self.old.words.now self.old.at (suc k) x.now) (Short self.old.words.now self.old.at (suc k)) }
        ensures read { IfOk result (λ _. HasRead self.old self.new (suc k)) }
    {
        let numbers = self.words[self.at..].get(..=k).ok_or(Wrong {
            at: self.words.len(),
            fault: Fault::Ends,
        })?;
        self.at += numbers.len();
        Ok(numbers)
    }
}

/// The step that stands at the beginning of the words, in a program of `k` words and `points` points, and how many words it
/// takes; or the first word that no step has there.
pub fn read_step(words: &[u32], k: usize, points: usize) -> Result<(Step<'_>, usize), Wrong>
    ensures { StepSays k points words.now result }
{
    let mut reader = Reader { words, at: 0 };
    let from = reader.word_in(..points, Fault::Point)?;
    let to = reader.word_in(..points, Fault::Point)?;
    let action = match reader.word()? {
        0 => Action::Set(reader.word_in(..k, Fault::Word)?, reader.numbers(k)?),
        1 => Action::Any(reader.word_in(..k, Fault::Word)?),
        2 => Action::Skip,
        _ => return Err(Wrong {
            at: 2,
            fault: Fault::Kind,
        }),
    };
    Ok((Step { from, to, action }, reader.at))
}

// How many words, points and steps the program has, from its first three words.
fn read_header(limits: Limits, words: &[u32]) -> Result<Header, Wrong>
    ensures { HeaderSays (limits_of limits) words.now result }
{
    let mut reader = Reader { words, at: 0 };
    Ok(Header {
        words: reader.word_in(1..=limits.words, Fault::Words)?,
        points: reader.word_in(1..=limits.points, Fault::Points)?,
        steps: reader.word_in(..=limits.steps, Fault::Steps)?,
    })
}

/// The program that the words are, with where each of its steps begins; or the first word that no program has there.
// `starts` is lent memory: nothing is allocated here.
pub fn read_program(limits: Limits, words: &[u32], starts: &mut [usize]) -> Result<Header, Wrong>
    ensures { ReadPost (limits_of limits) words.now starts.old starts.new result }
{
    let header = read_header(limits, words)?;
    let mut at = 3;
    for i in 0..header.steps {
        let (_, n) = read_step(&words[at..], header.words, header.points).map_err(
            |wrong| wrong.behind(at),
        )?;
        // not by `get_mut`: behind it a proof knows only the length of `starts`
        if i < starts.len() {
            starts[i] = at;
        }
        at += n;
    }
    if at < words.len() {
        return Err(Wrong {
            at,
            fault: Fault::Longer,
        });
    }
    Ok(header)
}
