//! Each test is a table of cases.
use crate::lines::names;
use crate::names::{count_names, name};
use crate::numbers::read_numbers;
use crate::places::{place, token};
use crate::types::{Flaw, Place, What};

#[test]
fn reads(rt: HostRuntime) {
    let cases: [(&[u8], usize, [u32; 3]); 6] = [
        (b"", 0, [9, 9, 9]),
        (b"1 2\n# 7 seven\n\t3", 3, [1, 2, 3]),
        (b"#only this", 0, [9, 9, 9]),
        (b"10\r\n#\r\n020\r\n", 2, [10, 20, 9]),
        (b"4294967295", 1, [4294967295, 9, 9]),
        (b"00000000000000000000 \n\n", 1, [0, 9, 9]),
    ];
    for (text, count, numbers) in cases {
        let mut out = [9; 3];
        assert_eq!(rt; read_numbers(text, &mut out), Ok(count));
        assert_eq!(rt; out, numbers);
    }
}

#[test]
fn refuses(rt: HostRuntime) {
    let cases: [(&[u8], usize, What); 8] = [
        (b"7 12a", 2, What::NoNumber),
        (b"-1", 0, What::NoNumber),
        (b"1 # 2", 2, What::NoNumber),
        (b" # 2", 1, What::NoNumber),
        (b"1\n4294967296", 2, What::TooLarge),
        (b"99999999999x", 0, What::TooLarge),
        (b"1 2 3 44", 6, What::TooMany),
        (b"1 2 3 4x", 6, What::NoNumber),
    ];
    for (text, at, what) in cases {
        let mut out = [9; 3];
        assert_eq!(rt; read_numbers(text, &mut out), Err(Flaw { at, what }));
    }
}

#[test]
fn places(rt: HostRuntime) {
    let text = b"ab\n\ncd e";
    let cases: [(usize, usize, usize, &[u8]); 7] = [
        (0, 1, 1, b"ab"),
        (1, 1, 2, b"b"),
        (2, 1, 3, b""),
        (3, 2, 1, b""),
        (4, 3, 1, b"cd"),
        (7, 3, 4, b"e"),
        (99, 3, 5, b""),
    ];
    for (at, line, column, word) in cases {
        assert_eq!(rt; place(text, at), Place { line, column });
        assert_eq!(rt; token(text, at), word);
    }
}

#[test]
fn finds_names(rt: HostRuntime) {
    let text = b"1 2\n# wordsy no\n#words no\n# words a bc\t d\r\n# words e\n# points";
    let cases: [(&[u8], Option<&[u8]>); 5] = [
        (b"words", Some(b" a bc\t d\r")),
        (b"points", Some(b"")),
        (b"wordsy", Some(b" no")),
        (b"word", None),
        (b"point s", None),
    ];
    for (key, line) in cases {
        assert_eq!(rt; names(text, key), line);
    }
}

#[test]
fn splits_names(rt: HostRuntime) {
    let cases: [(&[u8], usize, usize, Option<&[u8]>); 6] = [
        (b"", 0, 0, None),
        (b" \t\r", 0, 0, None),
        (b" a bc\t d\r", 3, 0, Some(b"a")),
        (b" a bc\t d\r", 3, 1, Some(b"bc")),
        (b" a bc\t d\r", 3, 2, Some(b"d")),
        (b" a bc\t d\r", 3, 3, None),
    ];
    for (line, count, i, word) in cases {
        assert_eq!(rt; count_names(line), count);
        assert_eq!(rt; name(line, i), word);
    }
}
