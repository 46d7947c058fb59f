//! Texts, lines and numbers with what POSIX and the DIMACS format read in them.
use md_text::{
    CHUNK_SIZE, Chunk, DIGITS, digits_piece, number, number_piece, one_field, piece_behind,
    push_number, skip_byte, small_number, split_field, split_line, split_number, three_fields,
    two_numbers, without_return,
};
use std::alloc::{AllocError, Global};
use std::process::Abort;
use std::test::Fail;

fn check_lines(rt: &impl Abort, text: &[u8], expected: &[&[u8]]) {
    let mut rest = text;
    for line in expected {
        assert!(rt; !rest.is_empty());
        let (first, behind) = split_line(rest);
        assert_eq!(rt; without_return(first), *line);
        rest = behind;
    }
    assert!(rt; rest.is_empty());
}

fn check_fields(rt: &impl Abort, line: &[u8], expected: &[&[u8]]) {
    let mut rest = line;
    for field in expected {
        let (first, behind) = split_field(rest).expect(rt, "a field");
        assert_eq!(rt; first, *field);
        rest = behind;
    }
    assert!(rt; split_field(rest).is_none());
}

fn check_number(rt: &impl Abort, alloc: Global, n: u64, digits: &[u8]) -> Result<(), AllocError> {
    let mut text = Vec::new(alloc);
    push_number(&mut text, n)?;
    assert_eq!(rt; text.as_slice(), digits);
    assert_eq!(rt;
        number(digits),
        if digits.len() <= DIGITS {
            Some(n)
        } else {
            None
        }
    );
    Ok(())
}

fn check_refused(rt: &impl Abort, fields: &[&[u8]]) {
    for field in fields {
        assert_eq!(rt; number(field), None);
    }
}

fn check_split_number(rt: &impl Abort, line: &[u8], n: Option<u64>, behind: &[u8]) {
    let (found, rest) = split_number(line).expect(rt, "a field");
    assert_eq!(rt; found, n);
    assert_eq!(rt; rest, behind);
}

// Texts, and the small number at the front of each with what stands behind it.
static FRONTS: [(&[u8], Option<(u32, &[u8])>); 9] = [
    (b"0", Some((0, b""))),
    (b"7,8", Some((7, b",8"))),
    (b"4096)", Some((4096, b")"))),
    (b"99999", Some((99999, b""))),
    (b"100000", None),
    (b"00", None),
    (b"07", None),
    (b"a1", None),
    (b"", None),
];

fn check_fronts(rt: &impl Abort) {
    for (text, want) in &FRONTS {
        assert!(rt; small_number(*text) == *want);
    }
    let (tail, other): (&[u8], &[u8]) = (b"1)", b"1)");
    assert!(rt; skip_byte(b"(1)", b'(') == Ok(tail));
    assert!(rt; skip_byte(b"1)", b'(') == Err(other));
}

fn check_counts(rt: &impl Abort) {
    let (one, two): (&[u8], &[u8]) = (b"1", b"2");
    assert_eq!(rt; one_field(b" 1 "), Some(one));
    assert_eq!(rt; one_field(b"1 2"), None);
    assert_eq!(rt; two_numbers(b" 1 -2"), Some((Some(1), None)));
    assert_eq!(rt; two_numbers(b"1 2 1"), None);
    assert_eq!(rt; three_fields(b"2 1 1"), Some((two, one, one)));
    assert_eq!(rt; three_fields(b"2 1"), None);
}

#[test]
fn chunks(rt: HostRuntime) -> Result<(), Fail> {
    let mut text = Vec::new(rt.alloc());
    text.push(b'+')?;
    let mut chunk = Chunk::new();
    chunk.put_both(
        piece_behind(b'e', digits_piece(7)),
        number_piece(99_999, b'\n'),
    );
    chunk.flush(&mut text)?;
    assert_eq!(rt; text.as_slice(), b"+e799999\n".as_slice());
    chunk.put_both(digits_piece(0), digits_piece(10));
    assert_eq!(rt; chunk.room(), CHUNK_SIZE - 3);
    let pieces = [digits_piece(5), digits_piece(67), digits_piece(8)];
    chunk.put_each(digits_piece(4), &pieces, &[0, 1, 2]);
    assert_eq!(rt; chunk.room(), CHUNK_SIZE - 10);
    chunk.flush(&mut text)?;
    assert_eq!(rt; text.as_slice(), b"+e799999\n0104546748".as_slice());
    assert_eq!(rt; chunk.room(), CHUNK_SIZE);
    Ok(())
}

// Numbers as they are written.
static NUMBERS: [(u64, &[u8]); 6] = [
    (0, b"0"),
    (10, b"10"),
    (4_095, b"4095"),
    (100_005, b"100005"),
    (999_999_999_999_999_999, b"999999999999999999"),
    (u64::MAX, b"18446744073709551615"),
];

#[test]
fn texts(rt: HostRuntime) -> Result<(), Fail> {
    check_lines(&rt, b"", &[]);
    check_lines(
        &rt,
        b"a\n\nb\r\nc\rd\r\r\n\r",
        &[b"a", b"", b"b", b"c\rd\r", b""],
    );
    check_lines(
        &rt,
        b"0123456789abcde\n0123456789abcdef\n",
        &[b"0123456789abcde", b"0123456789abcdef"],
    );
    check_fields(&rt, b" \t", &[]);
    check_fields(&rt, b"\te\t10  2\r ", &[b"e", b"10", b"2\r"]);
    check_counts(&rt);
    check_fronts(&rt);
    for (n, digits) in &NUMBERS {
        check_number(&rt, rt.alloc(), *n, *digits)?;
    }
    assert_eq!(rt; number(b"000000000000000001"), Some(1));
    check_refused(
        &rt,
        &[b"", b"+1", b"1a", b"1 ", b"/", b":", b"0000000000000000001"],
    );
    check_split_number(&rt, b"\t007 x", Some(7), b" x");
    check_split_number(&rt, b"0000000000000000001", None, b"");
    check_split_number(&rt, b"12a\t3", None, b"\t3");
    assert!(rt; split_number(b" ").is_none());
    Ok(())
}
