//! Words that are no program: the first word that no program has there, and why.
use programs::reader::read_program;
use programs::step::{BASE, Fault, Wrong};

#[test]
fn damaged_headers(rt: HostRuntime) {
    let cases: [(&[u32], usize, Fault); 9] = [
        (&[], 0, Fault::Ends),
        (&[1], 1, Fault::Ends),
        (&[1, 1], 2, Fault::Ends),
        (&[0, 1, 0], 0, Fault::Words),
        (&[17, 1, 0], 0, Fault::Words),
        (&[16, 0, 0], 1, Fault::Points),
        (&[16, 257, 0], 1, Fault::Points),
        (&[1, 256, 1025], 2, Fault::Steps),
        (&[1, 1, 0, 0], 3, Fault::Longer),
    ];
    for (words, at, fault) in cases {
        assert_eq!(rt;
            read_program(BASE, words, &mut []),
            Err(Wrong { at, fault })
        );
    }
}

#[test]
fn damaged_steps(rt: HostRuntime) {
    // the program in which x becomes 5 + 3 x, and then anything, with one word changed, left out or put behind
    let cases: [(&[u32], usize, Fault); 10] = [
        (&[1, 2, 2, 2, 1, 0, 0, 5, 3, 1, 0, 1, 0], 3, Fault::Point),
        (&[1, 2, 2, 0, 2, 0, 0, 5, 3, 1, 0, 1, 0], 4, Fault::Point),
        (&[1, 2, 2, 0, 1, 3, 0, 5, 3, 1, 0, 1, 0], 5, Fault::Kind),
        (&[1, 2, 2, 0, 1, 0, 1, 5, 3, 1, 0, 1, 0], 6, Fault::Word),
        (
            &[1, 2, 2, 0, 1, 0, 0, 5, 3, 4294967295, 0, 1, 0],
            9,
            Fault::Point,
        ),
        (&[1, 2, 2, 0, 1, 0, 0, 5, 3, 1, 0, 1, 1], 12, Fault::Word),
        (&[1, 2, 2, 0, 1, 0, 0, 5], 8, Fault::Ends),
        (&[1, 2, 2, 0, 1, 0, 0, 5, 3], 9, Fault::Ends),
        (&[1, 2, 2, 0, 1, 0, 0, 5, 3, 1, 0, 1], 12, Fault::Ends),
        (
            &[1, 2, 2, 0, 1, 0, 0, 5, 3, 1, 0, 1, 0, 0],
            13,
            Fault::Longer,
        ),
    ];
    for (words, at, fault) in cases {
        assert_eq!(rt;
            read_program(BASE, words, &mut []),
            Err(Wrong { at, fault })
        );
    }
}
