//! A table with no rows.
ghost use Rattle.std.specs.Prelude.{is_some};
ghost use Rattle.forms.specs.Clearing.{ClearPost};

use crate::table::table_end;

/// Makes the table of `n` places that begins at the word `at` of the lent words one with no rows: all its words 0. `None`,
/// with nothing changed, if the table does not fit in.
pub fn clear(work: &mut [u32], at: usize, n: usize) -> Option<()>
    ensures { ClearPost 32 at n work.old work.new (is_some result) }
{
    let end = table_end(work.len(), at, n)?;
    work[at..end].fill(0);
    Some(())
}
