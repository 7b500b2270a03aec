//! The calls of `forms` under C names, for the benchmark, which is written in Rust. A refusal is the largest number.

#![tactic(auto)]

ghost use Rattle.std.specs.Prelude.{◌≡◌, ◌<◌, Some, None};
ghost use Rattle.forms.specs.Clearing.{ClearPost};
ghost use Rattle.forms.specs.Insertion.{InsertPost};
ghost use Rattle.forms.specs.Laws.{TellPost};

use forms::clear::clear;
use forms::insert::insert;
use forms::tell::tell;

// C has no Option, and no count of places or laws is so large
const REFUSED: usize = usize::MAX;

// a bool, since C has no Option
#[unsafe(no_mangle)]
pub extern "C" fn forms_clear(work: &mut [u32], at: usize, n: usize) -> bool
    ensures { ClearPost 32 at n work.old work.new result }
{
    clear(work, at, n).is_some()
}

#[unsafe(no_mangle)]
pub extern "C" fn forms_insert(
    work: &mut [u32],
    at: usize,
    row: &mut [u32],
    changed: &mut [usize],
) -> usize
    ensures refused { result ≡ 18446744073709551615 → InsertPost 32 at work.old work.new row.old row.new changed.old changed.new None }
    ensures done { result < 18446744073709551615 → InsertPost 32 at work.old work.new row.old row.new changed.old changed.new (Some result) }
{
    insert(work, at, row, changed).unwrap_or(REFUSED)
}

#[unsafe(no_mangle)]
pub extern "C" fn forms_tell(work: &[u32], at: usize, n: usize, rows: &mut [u32]) -> usize
    ensures refused { result ≡ 18446744073709551615 → TellPost 32 at n work.now rows.old rows.new None }
    ensures done { result < 18446744073709551615 → TellPost 32 at n work.now rows.old rows.new (Some result) }
{
    tell(work, at, n, rows).unwrap_or(REFUSED)
}
