//! Texts that hold no program, and what a person is told of them.
use listing::messages::push_refusal;
use listing::report::tell_steps;
use std::test::Fail;

#[test]
fn messages(rt: HostRuntime) -> Result<(), Fail> {
    let heap = rt.alloc();
    let cases: [(&[u8], &[u8]); 16] = [
        (b"1 1 0x", b"line 1, column 5: '0x' is no number\n"),
        (
            b"# words x\n1 1\n  -3",
            b"line 3, column 3: '-3' is no number\n",
        ),
        (
            b"1 1 4294967296",
            b"line 1, column 5: a number must be below 4294967296\n",
        ),
        (
            b"1 2 2 0 1 0 0 5 3 1 0 1 0 0 0 0 0",
            b"line 1, column 33: more numbers than any program has\n",
        ),
        (
            b"1 1\n",
            b"line 2, column 1: no program: the numbers end before the program does\n",
        ),
        (
            b"17 1 0",
            b"line 1, column 1: no program: a program has 1 to 16 words, not 17\n",
        ),
        (
            b"1 257 0",
            b"line 1, column 3: no program: a program has 1 to 256 points, not 257\n",
        ),
        (
            b"1 1 1025",
            b"line 1, column 5: no program: a program has at most 1024 steps, not 1025\n",
        ),
        (
            b"1 2 1\n0 2 2",
            b"line 2, column 3: no program: there is no point 2\n",
        ),
        (
            b"1 2 1\n0 1 3",
            b"line 2, column 5: no program: there is no kind of step 3\n",
        ),
        (
            b"1 2 1\n0 1 1 1",
            b"line 2, column 7: no program: there is no word 1\n",
        ),
        (
            b"1 1 0\n7",
            b"line 2, column 1: no program: the program ends before the number 7\n",
        ),
        (
            b"# words x y\n1 1 0",
            b"the line '# words' has 2 names, not 1\n",
        ),
        (
            b"1 1 0\n# points",
            b"the line '# points' has 0 names, not 1\n",
        ),
        // what a terminal would take for a command is not shown, nor is more than 40 bytes
        (b"\x1b[2J", b"line 1, column 1: '?[2J' is no number\n"),
        (
            b"nnnnnnnnnnnnnnnnnnnnnnnnnnnnnnnnnnnnnnnnnnnn",
            b"line 1, column 1: 'nnnnnnnnnnnnnnnnnnnnnnnnnnnnnnnnnnnnnnnn' is no number\n",
        ),
    ];
    for (text, message) in cases {
        let mut words = [0; 16];
        let mut out = Vec::new(heap);
        let refusal = tell_steps(text, &mut words, &mut out).err().ok_or("told")?;
        assert!(rt; out.is_empty());
        push_refusal(&mut out, text, &mut words, refusal)?;
        assert_eq!(rt; out.as_slice(), message);
    }
    Ok(())
}
