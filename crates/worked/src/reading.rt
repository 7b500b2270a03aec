//! Words that are programs: how large they are, and where their steps begin as far as there is room to say so.
use programs::reader::read_program;
use programs::step::{BASE, Header};
use std::test::Fail;

#[test]
fn worked_programs(rt: HostRuntime) -> Result<(), Fail> {
    let cases: [(&[u32], Header, [usize; 3]); 7] = [
        // point 0 alone
        (
            &[1, 1, 0],
            Header {
                words: 1,
                points: 1,
                steps: 0,
            },
            [0, 0, 0],
        ),
        // x becomes anything
        (
            &[1, 2, 1, 0, 1, 1, 0],
            Header {
                words: 1,
                points: 2,
                steps: 1,
            },
            [3, 0, 0],
        ),
        // x becomes 5
        (
            &[1, 2, 1, 0, 1, 0, 0, 5, 0],
            Header {
                words: 1,
                points: 2,
                steps: 1,
            },
            [3, 0, 0],
        ),
        // x becomes 5 + 3 x, and then anything
        (
            &[1, 2, 2, 0, 1, 0, 0, 5, 3, 1, 0, 1, 0],
            Header {
                words: 1,
                points: 2,
                steps: 2,
            },
            [3, 9, 0],
        ),
        // x is doubled, and back
        (
            &[1, 2, 2, 0, 1, 0, 0, 0, 2, 1, 0, 2],
            Header {
                words: 1,
                points: 2,
                steps: 2,
            },
            [3, 9, 0],
        ),
        // x becomes 1, and then 4 x + 1 again and again; nothing comes to point 2
        (
            &[1, 3, 2, 0, 1, 0, 0, 1, 0, 1, 1, 0, 0, 1, 4],
            Header {
                words: 1,
                points: 3,
                steps: 2,
            },
            [3, 9, 0],
        ),
        // both words become 0, and then 2 and 3 more again and again
        (
            &[
                2, 4, 4, 0, 3, 0, 0, 0, 0, 0, 3, 1, 0, 1, 0, 0, 0, 1, 2, 0, 0, 2, 1, 0, 2, 1, 0, 1,
                3, 0, 1,
            ],
            Header {
                words: 2,
                points: 4,
                steps: 4,
            },
            [3, 10, 17],
        ),
    ];
    for (words, header, first) in cases {
        let mut starts = [0; 3];
        assert_eq!(rt; read_program(BASE, words, &mut starts)?, header);
        assert_eq!(rt; starts, first);
    }
    Ok(())
}
