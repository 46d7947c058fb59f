//! A whole file: its header, and whether it is without fault.
ghost use Rattle.std.specs.Prelude.{◌≡◌, ◌≤◌, length, IfOk, IfErr, None, Some};
ghost use Rattle.md_digraph6.specs.ArcFile.{without_arc_header, first_arc_fault, digraphs_of};

use crate::line::arc_line_fault;
use md_graph6::G6Fault;
use md_text::{split_line, without_return};

/// The number of directed graphs in a file. It refuses exactly where the file has a fault, and
/// names the first one: the first faulty line, and of its faults the first in this order: another
/// format, a bad byte, a size that isn't all there, a size that is spelt too long, too many
/// vertices, too few bytes, too many bytes, a loop, padding that isn't zero.
///
/// Source: B. McKay, "Description of graph6, sparse6 and digraph6 encodings".
pub fn scan_directed(bytes: &[u8]) -> Result<u64, G6Fault>
    ensures sound { IfOk result (λ _. first_arc_fault bytes.now ≡ None) }
    ensures count { IfOk result (λ count. count ≡ length (digraphs_of bytes.now)) }
    ensures fault { IfErr result (λ fault. first_arc_fault bytes.now ≡ Some fault) }
{
    let mut rest = without_arc_header(bytes);
    let mut count = 0;
    let mut number = 0;
    while !rest.is_empty() {
        let (line, more) = split_line(rest);
        let line = without_return(line);
        number += 1;
        if let Some(kind) = arc_line_fault(line) {
            return Err(G6Fault { kind, line: number });
        }
        count += u64::from(!line.is_empty());
        rest = more;
    }
    Ok(count)
}

// The file without its header, if it has one.
pub(crate) fn without_arc_header(bytes: &[u8]) -> &[u8]
    ensures value { result.now ≡ without_arc_header bytes.now }
    ensures shorter { length result.now ≤ length bytes.now }
{
    bytes.strip_prefix(b">>digraph6<<").unwrap_or(bytes)
}
