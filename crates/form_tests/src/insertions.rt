//! What an insertion tells and leaves: the rows that changed, the words around the table, and refusals.
use forms::clear::clear;
use forms::insert::{insert, insert_row};
use forms::row::Row;
use forms::tell::tell;
use std::test::Fail;

// The words around the table, which is at the word 2, and behind the pivots stay; the rows are those that were found by hand.
#[test]
fn rows_that_change(rt: HostRuntime) {
    let mut work = [6; 13];
    let mut changed = [8; 4];
    assert_eq!(rt; clear(&mut work[..], 2, 3), Some(()));
    assert_eq!(rt; work, [6, 6, 0, 0, 0, 0, 0, 0, 0, 0, 0, 6, 6]);

    // 2863311531 times 3 is 1
    assert_eq!(rt;
        insert(&mut work[..], 2, &mut [1, 2, 3], &mut changed[..]),
        Some(1)
    );
    assert_eq!(rt; changed, [2, 8, 8, 8]);
    assert_eq!(rt;
        work,
        [6, 6, 0, 0, 0, 0, 0, 0, 2863311531, 1431655766, 1, 6, 6]
    );

    // a multiple of it
    assert_eq!(rt;
        insert(&mut work[..], 2, &mut [5, 10, 15], &mut changed[..]),
        Some(0)
    );
    assert_eq!(rt; changed, [2, 8, 8, 8]);

    // less twice the last row it is -2/3 (1, 2, 0). At place 1 that is 4 times (2^30 - 1) / 3, whose inverse is -3 (1 + 2^30),
    // so that (2 + 2^31, 4, 0) is the new row; 2^30 times that leaves (2^31, 0, 0)
    assert_eq!(rt;
        insert(&mut work[..], 2, &mut [0, 0, 2], &mut changed[..]),
        Some(2)
    );
    assert_eq!(rt; changed, [1, 0, 8, 8]);
    assert_eq!(rt;
        work,
        [
            6, 6, 2147483648, 0, 0, 2147483650, 4, 0, 2863311531, 1431655766, 1, 6, 6,
        ]
    );
}

#[test]
fn refused_where_it_does_not_fit(rt: HostRuntime) {
    let mut work = [3; 9];
    let mut changed = [4; 3];
    let mut row = [1, 2, 3];
    let mut laws = [5; 9];
    // a table one word too far to the right, or far behind the words
    assert_eq!(rt; clear(&mut work[..], 1, 3), None);
    assert_eq!(rt; clear(&mut work[..], usize::MAX, 3), None);
    assert_eq!(rt;
        insert(&mut work[..], 1, &mut row[..], &mut changed[..]),
        None
    );
    assert_eq!(rt; tell(&work[..], 1, 3, &mut laws[..]), None);
    // room for one place too few
    assert_eq!(rt;
        insert(&mut work[..], 0, &mut row[..], &mut changed[0..2]),
        None
    );
    assert_eq!(rt; tell(&work[..], 0, 3, &mut laws[0..8]), None);
    // more places than have a square
    assert_eq!(rt; clear(&mut work[..], 0, 4294967296), None);
    assert_eq!(rt; tell(&work[..], 0, 4294967296, &mut laws[..]), None);
    assert_eq!(rt; work, [3; 9]);
    assert_eq!(rt; changed, [4; 3]);
    assert_eq!(rt; row, [1, 2, 3]);
    assert_eq!(rt; laws, [5; 9]);
    // no places at all
    assert_eq!(rt;
        insert(&mut work[..], 9, &mut row[0..0], &mut changed[0..0]),
        Some(0)
    );
    assert_eq!(rt; tell(&work[..], 9, 0, &mut laws[0..0]), Some(0));
}

#[test]
fn rows_by_value(rt: HostRuntime) -> Result<(), Fail> {
    let mut work = [0; 324];
    let mut words = [0; 17];
    words[0] = 1;
    words[16] = 4;
    let row = Row { words };
    let changes = insert_row(&mut work[..], 30, 17, row).ok_or("refused")?;
    assert_eq!(rt; changes.count, 2);
    assert_eq!(rt; changes.places[0], 16);
    assert_eq!(rt; changes.places[1], 0);
    // 4 at the last place and 1 at the number's; 2^30 times that leaves 2^30
    assert_eq!(rt; work[30 + 16 * 17 + 16], 4);
    assert_eq!(rt; work[30 + 16 * 17], 1);
    assert_eq!(rt; work[30], 1073741824);
    // more places than a row by value has, and a table that does not fit in
    assert!(rt; insert_row(&mut work[..], 0, 18, row).is_none());
    assert!(rt; insert_row(&mut work[..], 36, 17, row).is_none());
    Ok(())
}
