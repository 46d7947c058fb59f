//! Lines and their texts, there and back, and texts of no line.
use md_bar::{Bar, BarKind, Class, ClassLine, read_class, write_class};
use md_report::LineFault;
use std::test::Fail;

// Whether both lines are the same head, or tell of the same bar in the same way.
fn are_same(line: &ClassLine, other: &ClassLine) -> bool {
    match (line, other) {
        (ClassLine::Head(class), ClassLine::Head(also)) => class == also,
        (ClassLine::First(bar), ClassLine::First(also)) => bar == also,
        (ClassLine::Refused(bar), ClassLine::Refused(also)) => bar == also,
        (ClassLine::GroupRefused(i, bar), ClassLine::GroupRefused(j, also)) => {
            i == j && bar == also
        }
        _ => false,
    }
}

fn bar(kind: BarKind, a: u32, b: u32, c: u32, d: u32) -> Bar {
    Bar { kind, a, b, c, d }
}

#[test]
fn lines_of_bars(rt: HostRuntime) -> Result<(), Fail> {
    let alloc = rt.alloc();
    let path = bar(BarKind::P4, 0, 10, 2, 16383);
    let cycle = bar(BarKind::C4, 0, 1, 3, 2);
    let edges = bar(BarKind::TwoK2, 0, 16383, 1, 2);
    let table = [
        (ClassLine::Head(Class::Trivial), "mdt trivial"),
        (ClassLine::Head(Class::Threshold), "mdt threshold"),
        (ClassLine::First(path), "p4 0 10 2 16383"),
        (ClassLine::First(cycle), "c4 0 1 3 2"),
        (ClassLine::First(edges), "2k2 0 16383 1 2"),
        (ClassLine::Refused(path), "no p4 0 10 2 16383"),
        (ClassLine::Refused(cycle), "no c4 0 1 3 2"),
        (ClassLine::Refused(edges), "no 2k2 0 16383 1 2"),
        (
            ClassLine::GroupRefused(1, path),
            "no edit 1 p4 0 10 2 16383",
        ),
        (ClassLine::GroupRefused(20, cycle), "no edit 20 c4 0 1 3 2"),
        (
            ClassLine::GroupRefused(200_000, edges),
            "no edit 200000 2k2 0 16383 1 2",
        ),
    ];
    for (line, expected) in &table {
        let read = read_class(alloc, expected.as_bytes())?;
        assert!(rt; are_same(&read, line), "{expected}");
        let text = write_class(alloc, &read)?;
        assert!(rt; text.as_slice() == expected.as_bytes(), "{expected}");
    }
    Ok(())
}

#[test]
fn lines_of_all_sessions(rt: HostRuntime) -> Result<(), Fail> {
    let alloc = rt.alloc();
    let table = [
        "t empty",
        "t S(P(0,1),2)",
        "ok P(0,1)",
        "no same",
        "no vertex 4095",
        "no edit 20 edge-there",
        "no undo",
        "end",
    ];
    for expected in &table {
        let read = read_class(alloc, expected.as_bytes())?;
        assert!(rt; matches!(read, ClassLine::Plain(_)), "{expected}");
        let text = write_class(alloc, &read)?;
        assert!(rt; text.as_slice() == expected.as_bytes(), "{expected}");
    }
    Ok(())
}

#[test]
fn texts_of_no_line(rt: HostRuntime) -> Result<(), Fail> {
    let alloc = rt.alloc();
    let table = [
        "",
        "mdt cograph",
        "mdt trivial ",
        "mdt Threshold",
        "ok",
        "yes",
        "no 2>1",
        "no g 2>1",
        "2K2 0 1 2 3",
        "2k2 1 0 2 3",
        "2k2 0 1 3 2",
        "2k2 2 3 0 1",
        "2k2 0 1 2 16384",
        "c4 0 3 2 1",
        "c4 1 0 2 3",
        "c4 0 1 1 2",
        "p4 3 1 2 0",
        "p4 0 1 2",
        "c40 1 2 3",
        "no c4 0 1 2 3 4",
        "no edit 0 c4 0 1 2 3",
        "no edit 200001 c4 0 1 2 3",
        "no edit c4 0 1 2 3",
    ];
    for text in &table {
        let read = read_class(alloc, text.as_bytes());
        assert!(rt; matches!(read, Err(LineFault::Syntax)), "{text}");
    }
    Ok(())
}
