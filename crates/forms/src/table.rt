//! Tables, which hold Howell forms in lent words: the only code that knows how a form stands there.
ghost use Rattle.std.specs.Prelude.{◌≡◌, ◌+◌, ◌*◌, ◌<◌, ◌≤◌, length, take, replicate, slice_index, slice_set};
ghost use Rattle.algebra.specs.Tell.{extra};
ghost use Rattle.forms.specs.Flat.{RowIn, exponent_at, slot_at, EndSays};
ghost use Rattle.forms.specs.Insertion.{Turned};

use crate::rows::{add_multiple, dot, exchange};
use crate::words::{cancel, inverse};

// Where the table of n places that begins at the word `at` ends, if it ends within `len` words. The public functions take
// the words, `at` and `n` apart, as the exported C functions pass them, and ask nothing of them: a struct with an invariant
// would ask its maker.
pub(crate) fn table_end(len: usize, at: usize, n: usize) -> Option<usize>
    ensures { EndSays len at n result }
{
    let end = at.checked_add(n.checked_mul(n)?)?;
    (end <= len).then_some(end)
}

// A table lent to be read.
#[derive(Clone, Copy)]
pub(crate) struct Table<'a> {
    pub words: &'a [u32],
    pub places: usize,
    ghost square: { length words.now ≡ places * places },
}

// That k is a place is asked of each call: it comes from a loop over the places, and a type for it would carry their number
// along.
impl Table<'_> {
    // The exponent of the pivot of row k, 32 where the place has no row.
    pub fn exponent(&self, k: usize) -> u32
        requires { k < self.now.places }
        ensures is { result ≡ exponent_at 32 self.now.places k self.now.words.now }
        ensures most { result ≤ 32 }
    {
        self.words[k * self.places + k].trailing_zeros()
    }

    // The word at place k of a law, which is 0 before its lead: so much that row k comes to 0 with the law's first k + 1 words.
    pub fn extend(&self, k: usize, lead: usize, law: &mut [u32])
        requires sized { length law.old ≡ self.now.places }
        requires place { k < self.now.places }
        requires before { lead ≤ k }
        requires zeros { take lead law.old ≡ replicate lead 0 }
        ensures { law.new ≡ slice_set law.old k (extra 32 (slot_at 32 self.now.places k self.now.words.now) (take k law.old)) }
    {
        let e = self.exponent(k);
        let from = k * self.places;
        let sum = dot(&law[lead..k], &self.words[from + lead..from + k]);
        law[k] = cancel(sum, e);
    }
}

// A row inserted at its place k, at which it is not 0, and behind which it is not read: either the table's row k is taken
// from it so often that place k becomes 0; or it takes the place of that row, and goes on as what is left of that. Whether
// the table's row changed.
// The table is words and not a struct as `Table`: behind a `&mut` each call would have to promise that the struct keeps its
// number of places and the words that were lent to it, and the row tells that number anyway.
pub(crate) fn insert_at(table: &mut [u32], k: usize, row: &mut [u32]) -> bool
    requires room { RowIn (length row.old) k table.old }
    requires place { k < length row.old }
    requires some { 0 < slice_index row.old k }
    ensures { Turned 32 (length row.old) k table.old table.new row.old row.new result }
{
    let from = k * row.len();
    let pivot = from + k;
    let x = row[k];
    let old = table[pivot].trailing_zeros();
    let new = x.trailing_zeros();
    if new < old {
        let unit = inverse(x >> new);
        // old - new is at most 32, and 2^32 is 0 in words of 32 bits.
        let times = 1u32.checked_shl(old - new).unwrap_or(0);
        table[pivot] = 1 << new;
        exchange(
            &mut row[..k],
            &mut table[from..pivot],
            unit,
            times.wrapping_neg(),
        );
        true
    } else {
        add_multiple(
            &mut row[..k],
            (x >> old).wrapping_neg(),
            &table[from..pivot],
        );
        false
    }
}
