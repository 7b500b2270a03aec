//! Forms of a few rows, made in a table in the middle of other words, and their laws. The laws expected were found by hand.
use forms::clear::clear;
use forms::insert::insert;
use forms::tell::tell;
use std::alloc::{AllocError, Global};
use std::test::Fail;

// The rows of n words inserted into a table at the word 5 of the words, and how many laws are told of its form; they are
// written into `laws`.
fn laws_of(
    heap: Global,
    work: &mut [u32],
    n: usize,
    rows: &[u32],
    laws: &mut [u32],
) -> Result<Option<usize>, AllocError> {
    if n == 0 || clear(work, 5, n).is_none() {
        return Ok(None);
    }
    for words in rows.chunks_exact(n) {
        let mut row = words.to_vec(heap)?;
        let mut changed = vec![in heap; 0usize; n]?;
        if insert(work, 5, row.as_mut_slice(), changed.as_mut_slice()).is_none() {
            return Ok(None);
        }
    }
    Ok(tell(work, 5, n, laws))
}

#[test]
fn forms_of_rows(rt: HostRuntime) -> Result<(), Fail> {
    let cases: [(usize, &[u32], usize, &[u32]); 15] = [
        // one place: nothing, everything, even numbers, the number 2^31
        (1, &[], 1, &[1]),
        (1, &[0], 1, &[1]),
        (1, &[3], 0, &[]),
        (1, &[6], 1, &[2147483648]),
        (1, &[2147483648], 1, &[2]),
        // a point that nothing comes to
        (2, &[], 2, &[1, 0, 0, 1]),
        // a word that is 5: 5 times 858993459 is one less than a multiple of 2^32
        (2, &[1, 5], 1, &[1, 858993459]),
        // a word that is even, and one that is one more than a multiple of four
        (2, &[1, 0, 1, 2], 1, &[0, 2147483648]),
        (2, &[1, 1, 1, 5, 1, 21], 1, &[1073741824, 3221225472]),
        // 2 x = 6 does not make x = 3: x is 3 or 3 + 2^31
        (2, &[1, 3, 1, 2147483651], 1, &[2, 2863311530]),
        // any word
        (2, &[1, 0, 1, 1], 0, &[]),
        // 3 x = 2 y, with a power of two at its lead
        (3, &[1, 0, 0, 1, 2, 3], 1, &[0, 1, 2863311530]),
        // all rows even: twice (1, 2) and twice (2, 1), whose sums have no common law but multiples of 2^31
        (2, &[2, 4, 4, 2], 2, &[2147483648, 0, 0, 2147483648]),
        // places with no row before and behind one that has
        (3, &[0, 4, 0], 3, &[1, 0, 0, 0, 1073741824, 0, 0, 0, 1]),
        // the same row again and again changes nothing
        (2, &[1, 5, 1, 5, 3, 15], 1, &[1, 858993459]),
    ];
    for (n, rows, count, expected) in cases {
        let mut work = [9; 20];
        let mut laws = [7; 9];
        assert_eq!(rt;
            laws_of(rt.alloc(), &mut work[..], n, rows, &mut laws[..])?,
            Some(count)
        );
        let (told, rest) = laws
            .split_at_checked(expected.len())
            .ok_or("more laws expected than there is room for")?;
        assert_eq!(rt; told, expected);
        assert!(rt; rest.iter().all(|word| *word == 7));
    }
    Ok(())
}

// All unit rows but that of place 7: each changes the row of its own place only.
fn insert_units(heap: Global, work: &mut [u32], n: usize) -> Result<(), Fail> {
    for k in 0..n {
        if k == 7 {
            continue;
        }
        let mut row = vec![in heap; 0u32; n]?;
        let mut changed = vec![in heap; 99usize; n]?;
        row[k] = 1;
        let count = insert(work, 0, row.as_mut_slice(), changed.as_mut_slice());
        if count != Some(1) || changed.first() != Some(&k) {
            return Err(Fail::new("a unit row did not change the row of its place only"));
        }
    }
    Ok(())
}

#[test]
fn many_places(rt: HostRuntime) -> Result<(), Fail> {
    let mut work = vec![in rt.alloc(); 0u32; 4225]?;
    let mut laws = vec![in rt.alloc(); 5u32; 4225]?;
    insert_units(rt.alloc(), work.as_mut_slice(), 65)?;
    // the one law is that of place 7
    assert_eq!(rt; tell(work.as_slice(), 0, 65, laws.as_mut_slice()), Some(1));
    let mut law = [0; 65];
    law[7] = 1;
    let (told, rest) = laws.split_at(65);
    assert_eq!(rt; told, &law[..]);
    assert!(rt; rest.iter().all(|word| *word == 5));
    Ok(())
}
