//! Texts that hold programs, and what is told of them.
use listing::report::tell_steps;

#[test]
fn steps(rt: HostRuntime) {
    let heap = rt.alloc();
    let cases: [(&[u8], &[u8]); 5] = [
        (b"1 1 0", b"p0\n  no steps\n"),
        (b"# points here\n1 1 1 0 0 2\n", b"here\n  -> here\n"),
        (
            b"1 2 2 0 1 0 0 5 3 1 0 1 0",
            b"p0\n  -> p1 : x0 := 3 x0 + 5\np1\n  -> p0 : x0 := ?\n",
        ),
        // a factor or number above 2^31 is shown as the negative number that it is modulo 2^32
        (
            b"# words x y\r\n2 1 1\r\n0 0 0 1 4294967256 4294967295 1\r\n",
            b"p0\n  -> p0 : y := -x + y - 40\n",
        ),
        (
            b"# words x y\n2 1 1 0 0 0 0 2147483648 0 2",
            b"p0\n  -> p0 : x := 2 y + 2147483648\n",
        ),
    ];
    for (text, told) in cases {
        let mut words = [0; 16];
        let mut out = Vec::new(heap);
        assert!(rt; tell_steps(text, &mut words, &mut out).is_ok());
        assert_eq!(rt; out.as_slice(), told);
    }
}

#[test]
fn names_that_do_not_fit(rt: HostRuntime) {
    let heap = rt.alloc();
    let texts: [&[u8]; 3] = [
        b"# words x y\n1 1 0",
        b"# words\n1 1 0",
        b"# points a b\n1 1 0",
    ];
    for text in texts {
        let mut words = [0; 16];
        let mut out = Vec::new(heap);
        assert!(rt; tell_steps(text, &mut words, &mut out).is_err());
        assert!(rt; out.is_empty());
    }
}
