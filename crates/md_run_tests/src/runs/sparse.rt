//! Runs over sparse6 lines.
use super::expect;
use std::test::Fail;

#[test]
fn sparse_lines(rt: HostRuntime) -> Result<(), Fail> {
    let alloc = rt.alloc();
    static TABLE: [(&str, &[u8], &str); 8] = [
        (
            "tree g6 g",
            b":Fa@x^\n",
            "0|mdt tree\nt P(S(0,1,2),3,4,S(5,6))\nend\n|",
        ),
        (
            "tree g6 g",
            b">>sparse6<<:An\n:A\nA_\n",
            "0|mdt tree\nt S(0,1)\nt P(0,1)\nt S(0,1)\nend\n|",
        ),
        ("graph6 g6 g", b">>graph6<<:An\r\n:A", "0|A_\nA?\n|"),
        ("edges g6 g", b":AN\n", "3||mdt: graph Loop line 1\n"),
        ("edges g6 g", b":\n", "3||mdt: graph Truncated line 1\n"),
        (
            "edges g6 g",
            b":~C?@\n",
            "3||mdt: graph TooManyVertices line 1\n",
        ),
        (
            "compare g6 g",
            b":~@?@\n",
            "3||mdt: graph TooManyVertices line 1\n",
        ),
        (
            "edges g6 g",
            b";Fa@x^\n",
            "3||mdt: graph OtherFormat line 1\n",
        ),
    ];
    expect(&rt, alloc, &TABLE)
}
