//! A whole file: its header, and whether it is without fault.
ghost use Rattle.std.specs.Prelude.{◌≡◌, ◌≤◌, length, IfOk, IfErr, None, Some};
ghost use Rattle.md_graph6.specs.File.{without_header, first_fault, graphs_of};

use crate::fault::G6Fault;
use crate::file_line::line_fault;
use md_graph::NAMES;
use md_text::{split_line, without_return};

/// The number of graphs in a file, none of which may have more vertices than the limit. It refuses
/// exactly where the file has a fault, and names the first one: the first faulty line, and of its
/// faults the first in the order that `G6Kind` gives. Condition: the limit is at most the number of
/// names.
///
/// Source: B. McKay, "Description of graph6, sparse6 and digraph6 encodings".
pub fn scan(bytes: &[u8], limit: u32) -> Result<u64, G6Fault>
    requires { limit ≤ NAMES }
    ensures sound { IfOk result (λ _. first_fault limit bytes.now ≡ None) }
    ensures count { IfOk result (λ count. count ≡ length (graphs_of bytes.now)) }
    ensures fault { IfErr result (λ fault. first_fault limit bytes.now ≡ Some fault) }
{
    let mut rest = without_header(bytes);
    let mut count = 0;
    let mut number = 0;
    while !rest.is_empty() {
        let (line, more) = split_line(rest);
        let line = without_return(line);
        number += 1;
        if let Some(kind) = line_fault(limit, line) {
            return Err(G6Fault { kind, line: number });
        }
        count += u64::from(!line.is_empty());
        rest = more;
    }
    Ok(count)
}

// The file without its header, if it has one.
pub(crate) fn without_header(bytes: &[u8]) -> &[u8]
    ensures value { result.now ≡ without_header bytes.now }
    ensures shorter { length result.now ≤ length bytes.now }
{
    if let Some(rest) = bytes.strip_prefix(b">>graph6<<") {
        return rest;
    }
    bytes.strip_prefix(b">>sparse6<<").unwrap_or(bytes)
}
