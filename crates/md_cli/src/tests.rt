//! The exit codes of runs over files of the system.
use super::*;
use std::fs;
use std::test::Fail;

#[test]
fn ends_with_the_number_of_the_status(rt: HostRuntime) -> Result<(), Fail> {
    let alloc = rt.alloc();
    fs::write(&rt, "mdt_graph.g6", "DhO\n")?;
    fs::write(&rt, "mdt_report.txt", "mdt tree\nend\n")?;
    let table: [(&[&str], u8); 6] = [
        (&[], 2),
        (&["tree", "png", "mdt_graph.g6"], 2),
        (&["edges", "g6", "mdt_graph.g6"], 0),
        (
            &["check", "tree", "g6", "mdt_graph.g6", "mdt_report.txt"],
            1,
        ),
        (&["edges", "g6", "mdt_report.txt"], 3),
        (&["edges", "g6", "mdt_absent.g6"], 4),
    ];
    for (line, number) in table {
        let mut words = Vec::new(alloc);
        for word in line {
            words.push(String::from_str(alloc, word)?)?;
        }
        let code = end_over(&rt, &words);
        assert!(&rt; code == ExitCode::from(number), "{number}");
    }
    fs::remove_file(&rt, "mdt_graph.g6")?;
    fs::remove_file(&rt, "mdt_report.txt")?;
    Ok(())
}
