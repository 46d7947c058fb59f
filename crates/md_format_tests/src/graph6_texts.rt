//! Texts of graphs in graph6: outside vectors, and graphs whose columns cross words.
ghost use Rattle.std.specs.Prelude.{◌≡◌, ◌^◌, ◌<◌, None};
ghost use Rattle.md_graph.specs.PlainGraph.{empty_graph};
ghost use Rattle.md_graph6.specs.File.{first_fault};

use md_graph::{Graph, GraphOf, NAMES};
use md_graph6::{Lines, scan, write};
use std::alloc::Global;
use std::process::Abort;
use std::test::Fail;

// Takes in a vertex that isn't there yet.
fn take(graph: &mut Graph, v: u32) {
    if v < NAMES && !graph.has_vertex(v) {
        graph.add_vertex(v);
    }
}

// Takes in an edge between two vertices.
fn join(graph: &mut Graph, u: u32, v: u32) {
    if u != v && graph.has_vertex(u) && graph.has_vertex(v) && !graph.has_edge(u, v) {
        graph.add_edge(u, v);
    }
}

// The graph on these vertices with these edges is written so.
fn gives(
    rt: &impl Abort,
    alloc: Global,
    vertices: &[u32],
    edges: &[(u32, u32)],
    text: &[u8],
) -> Result<(), Fail> {
    let mut graph = Graph::new(alloc)?;
    for v in vertices {
        take(&mut graph, *v);
    }
    for (u, v) in edges {
        join(&mut graph, *u, *v);
    }
    let written = write(alloc, &graph)?;
    assert_eq!(rt; written.as_slice(), text);
    Ok(())
}

// Vertices, edges, and the text of their graph.
static TEXTS: [(&[u32], &[(u32, u32)], &[u8]); 8] = [
    (&[], &[], b"?\n"),
    (&[7], &[], b"@\n"),
    (&[0, 1], &[(0, 1)], b"A_\n"),
    (&[2, 5, 9], &[(2, 9)], b"BO\n"),
    (&[1, 2, 3], &[(1, 2), (2, 3)], b"Bg\n"),
    (&[0, 1, 2, 3], &[(0, 1), (1, 2), (2, 3)], b"Ch\n"),
    (
        &[0, 1, 2, 3, 4],
        &[(0, 2), (0, 4), (1, 3), (3, 4)],
        b"DQc\n",
    ),
    (
        &[0, 1, 2, 3, 4, 5],
        &[(0, 1), (1, 2), (2, 3), (3, 4), (4, 5), (0, 5)],
        b"EhEG\n",
    ),
];

#[test]
fn texts_are_written(rt: HostRuntime) -> Result<(), Fail> {
    for (vertices, edges, text) in &TEXTS {
        gives(&rt, rt.alloc(), *vertices, *edges, *text)?;
    }
    Ok(())
}

// The line of the graph on 63 vertices with the edges 0-1, 0-62 and 61-62.
fn line_of_63(alloc: Global) -> Result<Vec<u8>, Fail> {
    let mut text = Vec::new(alloc);
    text.extend_from_slice(b"~??~_")?;
    text.resize(319, b'?')?;
    text.push(b'O')?;
    text.resize(329, b'?')?;
    text.extend_from_slice(b"G\n")?;
    Ok(text)
}

// So is written that graph with its vertices numbered from `least` on.
fn gives_line_of_63(rt: &impl Abort, alloc: Global, least: u32) -> Result<(), Fail>
    requires { least < 2 ^ 31 }
{
    let mut graph = Graph::new(alloc)?;
    for v in 0..63 {
        take(&mut graph, least + v);
    }
    join(&mut graph, least, least + 1);
    join(&mut graph, least, least + 62);
    join(&mut graph, least + 61, least + 62);
    let written = write(alloc, &graph)?;
    assert_eq!(rt; written.as_slice(), line_of_63(alloc)?.as_slice());
    Ok(())
}

#[test]
fn four_bytes_of_size_are_written(rt: HostRuntime) -> Result<(), Fail> {
    gives_line_of_63(&rt, rt.alloc(), 0)?;
    gives_line_of_63(&rt, rt.alloc(), 1)?;
    gives_line_of_63(&rt, rt.alloc(), NAMES - 63)?;
    Ok(())
}

// An edge of the graphs on many vertices.
fn runs_between(i: u32, j: u32) -> bool {
    (i ^ j) % 2 == 1 || j % 7 == i % 5
}

// Takes in a vertex and the edges to those before it.
fn take_joined(graph: &mut Graph, j: u32) {
    take(graph, j);
    for i in 0..j {
        if runs_between(i, j) {
            join(graph, i, j);
        }
    }
}

// The graph has the edges of the rule between its first n vertices.
fn has_edges<const W: usize>(rt: &impl Abort, graph: &GraphOf<W>, n: u32) {
    assert_eq!(rt; graph.count(), n);
    for j in 0..n {
        for i in 0..j {
            assert_eq!(rt; graph.has_edge(i, j), runs_between(i, j));
        }
    }
}

// The text spells the graph of the rule on n vertices.
fn spells(rt: &impl Abort, graph: &mut Graph, text: &[u8], n: u32)
    requires empty { graph.old ≡ empty_graph }
    requires sound { first_fault NAMES text.now ≡ None }
{
    let mut lines = Lines::new(text);
    assert!(rt; lines.next(graph));
    has_edges(rt, graph, n);
}

#[test]
fn what_is_written_is_read(rt: HostRuntime) -> Result<(), Fail> {
    for n in [65, 130] {
        let mut graph = Graph::new(rt.alloc())?;
        for j in 0..n {
            take_joined(&mut graph, j);
        }
        let text = write(rt.alloc(), &graph)?;
        let mut other = Graph::new(rt.alloc())?;
        spells(&rt, &mut other, &text, n);
    }
    Ok(())
}

// Puts the line of the graph of the rule on n vertices behind the file.
fn push_line(alloc: Global, file: &mut Vec<u8>, n: u32) -> Result<(), Fail> {
    let mut graph = Graph::new(alloc)?;
    for j in 0..n {
        take_joined(&mut graph, j);
    }
    let line = write(alloc, &graph)?;
    file.extend_from_slice(line.as_slice())?;
    Ok(())
}

// The lines of the graphs of the rule on these numbers of vertices.
fn file_of(alloc: Global, sizes: &[u32]) -> Result<Vec<u8>, Fail> {
    let mut file = Vec::new(alloc);
    for n in sizes {
        push_line(alloc, &mut file, *n)?;
    }
    Ok(file)
}

// The graph is that of the rule on n vertices; its line is put behind the text.
fn copy<const W: usize>(
    rt: &impl Abort,
    alloc: Global,
    graph: &mut GraphOf<W>,
    n: u32,
    text: &mut Vec<u8>,
) -> Result<(), Fail>
    ensures { graph.new ≡ empty_graph }
{
    has_edges(rt, graph, n);
    let line = write(alloc, graph);
    graph.clear();
    text.extend_from_slice(line?.as_slice())?;
    Ok(())
}

// So is the next graph of the file.
fn copies(
    rt: &impl Abort,
    alloc: Global,
    lines: &mut Lines,
    graph: &mut Graph,
    n: u32,
    text: &mut Vec<u8>,
) -> Result<(), Fail>
    requires { graph.old ≡ empty_graph }
    ensures { graph.new ≡ empty_graph }
{
    assert!(rt; lines.next(graph));
    copy(rt, alloc, graph, n, text)
}

// The same, by a graph of one word where the next graph has room in it.
fn copies_by_size(
    rt: &impl Abort,
    alloc: Global,
    lines: &mut Lines,
    small: &mut GraphOf<1>,
    large: &mut Graph,
    n: u32,
    text: &mut Vec<u8>,
) -> Result<(), Fail>
    requires small { small.old ≡ empty_graph }
    requires large { large.old ≡ empty_graph }
    ensures small { small.new ≡ empty_graph }
    ensures large { large.new ≡ empty_graph }
{
    let bound = lines.next_bound();
    assert_eq!(rt; bound, n);
    if bound > 64 {
        return copies(rt, alloc, lines, large, n, text);
    }
    assert!(rt; lines.take_first(small));
    copy(rt, alloc, small, n, text)
}

// The file of these graphs is read and written back, all by one graph.
fn comes_back(rt: &impl Abort, alloc: Global, sizes: &[u32]) -> Result<(), Fail> {
    let file = file_of(alloc, sizes)?;
    let Ok(count) = scan(&file, NAMES) else {
        panic!(rt; "a fault");
    };
    assert_eq!(rt; count, sizes.len() as u64);
    let mut lines = Lines::new(&file);
    let mut graph = Graph::new(alloc)?;
    let mut text = Vec::new(alloc);
    for n in sizes {
        copies(rt, alloc, &mut lines, &mut graph, *n, &mut text)?;
    }
    assert_eq!(rt; text.as_slice(), file.as_slice());
    Ok(())
}

// The same, each small graph by one of one word.
fn comes_back_by_size(rt: &impl Abort, alloc: Global, sizes: &[u32]) -> Result<(), Fail> {
    let file = file_of(alloc, sizes)?;
    let Ok(count) = scan(&file, NAMES) else {
        panic!(rt; "a fault");
    };
    assert_eq!(rt; count, sizes.len() as u64);
    let mut lines = Lines::new(&file);
    let mut small: GraphOf<1> = GraphOf::new(alloc)?;
    let mut large = Graph::new(alloc)?;
    let mut text = Vec::new(alloc);
    for n in sizes {
        copies_by_size(rt, alloc, &mut lines, &mut small, &mut large, *n, &mut text)?;
    }
    let bound = lines.next_bound();
    assert_eq!(rt; bound, 0);
    if bound <= 64 {
        assert!(rt; !lines.take_first(&mut small));
    }
    assert_eq!(rt; text.as_slice(), file.as_slice());
    Ok(())
}

#[test]
fn small_lines_are_read_by_one_word(rt: HostRuntime) -> Result<(), Fail> {
    comes_back_by_size(&rt, rt.alloc(), &[0, 1, 58, 59, 62, 63, 64, 65])?;
    comes_back_by_size(&rt, rt.alloc(), &[65, 64, 63, 62, 59, 58, 1, 0])?;
    Ok(())
}

#[test]
fn short_and_long_lines_share_a_file(rt: HostRuntime) -> Result<(), Fail> {
    comes_back(&rt, rt.alloc(), &[0, 1, 24, 25, 58, 59, 62, 63, 64])?;
    comes_back(&rt, rt.alloc(), &[64, 63, 62, 59, 58, 25, 24, 1, 0])?;
    Ok(())
}
