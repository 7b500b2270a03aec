//! A row inserted into the form of a table.
ghost use Rattle.std.specs.Prelude.{◌≡◌, ◌+◌, ◌*◌, ◌<◌, ◌≤◌, length};
ghost use Rattle.forms.specs.Insertion.{Inserted, InsertPost, InsertRowPost};

use crate::row::{Changes, PLACES, Row};
use crate::table::{insert_at, table_end};

/// A row inserted into the form of the table that begins at the word `at` of the lent words, with as many places as the row
/// has. It tells how many rows of the table changed, and writes their places into `changed`, going down. The row is used up.
/// `None`, with nothing changed, if the table does not fit in, or if `changed` has less room than places.
// `changed` is lent memory, as all of this crate is, so how many of its places are written has to be said beside it.
pub fn insert(work: &mut [u32], at: usize, row: &mut [u32], changed: &mut [usize]) -> Option<usize>
    ensures { InsertPost 32 at work.old work.new row.old row.new changed.old changed.new result }
{
    let n = row.len();
    let end = table_end(work.len(), at, n)?;
    if changed.len() < n {
        return None;
    }
    Some(pass(&mut work[at..end], row, changed))
}

/// The same for a row by value, of which the first `n` words count. `None`, with nothing changed, if it has fewer, or if
/// the table does not fit in.
pub fn insert_row(work: &mut [u32], at: usize, n: usize, row: Row) -> Option<Changes>
    ensures { InsertRowPost at n work.old work.new row result }
{
    if n > PLACES {
        return None;
    }
    let mut words = row.words;
    let mut places = [0; PLACES];
    let count = insert(work, at, &mut words[..n], &mut places[..])?;
    Some(Changes { count, places })
}

// One pass over the places, the last first, with the row that is left. The places of the rows that changed go into
// `changed`; how many.
// The loops are nested and yield a place, which is the project's form for rows added to one another (docs/DECISIONS.md).
// Not inlined: by itself it is compiled to faster code (bench/run: 5 to 9 percent).
#[inline(never)]
fn pass(table: &mut [u32], row: &mut [u32], changed: &mut [usize]) -> usize
    requires room { length table.old ≡ length row.old * length row.old }
    requires list { length row.old ≤ length changed.old }
    ensures { Inserted 32 (length row.old) table.old row.old table.new changed.old changed.new result }
{
    let mut count = 0;
    let mut done = row.len();
    'places: loop {
        // the last place of those left at which the row is not 0
        let k = 'find: {
            for k in (0..done).rev() {
                if row[k] != 0 {
                    break 'find k;
                }
            }
            break 'places;
        };
        if insert_at(table, k, row) {
            changed[count] = k;
            count += 1;
        }
        done = k;
    }
    count
}
