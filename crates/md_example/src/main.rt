//! An example over the public calls: reads graph6 from standard input, and prints of each graph its
//! tree of strong modules, and an induced P4 or that it is a cograph. Then it prints the trees of
//! the directed graphs of each file of digraph6 that its words name.
#![tactic(auto)]

mod directed;

ghost use Rattle.std.specs.Prelude.{◌↔◌, IsTrue};
ghost use Rattle.md_graph.specs.PlainGraph.{adjacent};
ghost use Rattle.md_modules.specs.InducedPaths.{HasInducedPath};

use crate::directed::tree_lines;
use md_decompose::decompose;
use md_digraph6::scan_directed;
use md_graph::{Graph, Memory, NAMES};
use md_graph6::{Lines, scan};
use md_modules::find_p4;
use md_tree::push_text;
use std::alloc::Global;
use std::io::{self, Read, Write};
use std::{env, fs};

fn main(rt: HostRuntime) -> io::Result<()> {
    let mut file = Vec::new(rt.alloc());
    rt.stdin().read_to_end(&mut file)?;
    print_graphs(&rt, file.as_slice())?;
    for name in env::args(&rt)?.skip(1) {
        let file = fs::read(&rt, &name)?;
        print_directed(&rt, file.as_slice())?;
    }
    Ok(())
}

// Prints the lines of the graphs of a file, or its first fault.
fn print_graphs(rt: &HostRuntime, bytes: &[u8]) -> io::Result<()> {
    let answer = match scan(bytes, NAMES) {
        Ok(count) => {
            let mut answer = Vec::new(rt.alloc());
            let mut lines = Lines::new(bytes);
            for _ in 0..count {
                let Ok(mut graph) = Graph::new(rt.alloc()) else {
                    return println!(rt; "out of memory");
                };
                lines.next(&mut graph);
                if describe(rt.alloc(), &graph, &mut answer).is_err() {
                    return println!(rt; "out of memory");
                }
            }
            answer
        }
        Err(fault) => return println!(rt; "line {}: {:?}", fault.line, fault.kind),
    };
    rt.stdout().write_all(&answer)
}

// Appends the line of a graph.
fn describe(alloc: Global, graph: &Graph, answer: &mut Vec<u8>) -> Result<(), Memory> {
    let tree = decompose(alloc, graph)?;
    push_text(alloc, answer, &tree)?;
    if is_cograph(graph) {
        answer.extend_from_slice(b" is a cograph\n")?;
    } else if let Some(p) = find_p4(graph) {
        let path = format!(in alloc; " has the P4 {} {} {} {}\n", p.a, p.b, p.c, p.d)?;
        answer.extend_from_slice(path.as_bytes())?;
    }
    Ok(())
}

// Whether a graph is a cograph: it has no induced path on four vertices.
fn is_cograph(graph: &Graph) -> bool
    ensures { IsTrue result ↔ (HasInducedPath (adjacent graph.now) graph.now.vertices → ⊥) }
{
    find_p4(graph).is_none()
}

// Prints the lines of the directed graphs of a file, or its first fault.
fn print_directed(rt: &HostRuntime, bytes: &[u8]) -> io::Result<()> {
    match scan_directed(bytes) {
        Ok(count) => match tree_lines(rt.alloc(), bytes, count) {
            Ok(lines) => rt.stdout().write_all(&lines),
            Err(_) => println!(rt; "out of memory"),
        },
        Err(fault) => println!(rt; "line {}: {:?}", fault.line, fault.kind),
    }
}
