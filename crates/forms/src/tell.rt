//! The laws of the form of a table: the rows that come to 0 with all that it spans.
ghost use Rattle.std.specs.Prelude.{◌≡◌, ◌+◌, ◌-◌, ◌*◌, ◌<◌, ◌≤◌, length};
ghost use Rattle.algebra.specs.Tell.{tell as laws_of};
ghost use Rattle.forms.specs.Flat.{exponent_at, read};
ghost use Rattle.forms.specs.Laws.{law_to, Written, TellPost};

use crate::table::{Table, table_end};

/// The laws of the form of the table of `n` places that begins at the word `at` of the lent words: the rows that come to 0
/// with all that the form spans. They are written row by row from the beginning of `rows`, the number's place first; how
/// many. `None`, with nothing written, if the table does not fit in, or if `rows` has less room than n rows.
// `rows` is lent memory, as all of this crate is, so how many of its rows are written has to be said beside it.
pub fn tell(work: &[u32], at: usize, n: usize, rows: &mut [u32]) -> Option<usize>
    ensures { TellPost 32 at n work.now rows.old rows.new result }
{
    let end = table_end(work.len(), at, n)?;
    // as many words as the table has
    if rows.len() < end - at {
        return None;
    }
    let table = Table {
        words: &work[at..end],
        places: n,
    };
    Some(table.write_laws(rows))
}

impl Table<'_> {
    // The laws of the table, row by row from the beginning of `rows`: for each place whose pivot is not 1 the law that has its
    // lead there. How many.
    // The loops are nested and yield a place, which is the project's form for this (docs/DECISIONS.md).
    fn write_laws(&self, rows: &mut [u32]) -> usize
        requires { length self.now.words.now ≤ length rows.old }
        ensures { Written self.now.places (laws_of 32 (read 32 self.now.places self.now.places self.now.words.now)) rows.old rows.new result }
    {
        let n = self.places;
        let mut count = 0;
        let mut next = 0;
        'rows: loop {
            // the first place of those left whose pivot is not 1
            let q = 'find: {
                for q in next..n {
                    if self.exponent(q) > 0 {
                        break 'find q;
                    }
                }
                break 'rows;
            };
            let from = count * n;
            self.write_law(q, &mut rows[from..from + n]);
            count += 1;
            next = q + 1;
        }
        count
    }

    // The law that has its lead at place q: the least power of two that makes row q 0, and at each place behind it what makes
    // that place's row come to 0.
    fn write_law(&self, q: usize, law: &mut [u32])
        requires sized { length law.old ≡ self.now.places }
        requires place { q < self.now.places }
        requires some { 0 < exponent_at 32 self.now.places q self.now.words.now }
        ensures { law.new ≡ law_to 32 self.now.places self.now.words.now q (self.now.places - 1 - q) }
    {
        law[..q].fill(0);
        law[q] = 1 << (32 - self.exponent(q));
        for k in q + 1..self.places {
            self.extend(k, q, law);
        }
    }
}
