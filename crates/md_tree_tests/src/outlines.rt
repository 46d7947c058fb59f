//! The outline of a tree, read off the tree.
use md_graph::{Graph, Memory, NAMES};
use md_outline::{OutlinePart, RowSpace, push_text_by_rows};
use md_tree::{Kind, Tree};
use std::alloc::Global;
use std::process::Abort;
use std::test::Fail;

// A node of a tree comes behind the parts so far, and its children wait, the first one at the end.
fn put_node<'a>(
    node: &'a Tree,
    parts: &mut Vec<OutlinePart<Kind>>,
    waiting: &mut Vec<&'a Tree>,
) -> Result<(), Memory> {
    match node {
        Tree::Leaf(name) => parts.push(OutlinePart::Name(*name))?,
        Tree::Node(kind, children, _) => {
            let count = u32::try_from(children.list.len()).unwrap_or(0);
            parts.push(OutlinePart::Node(*kind, count))?;
            for child in children.list.iter().rev() {
                waiting.push(child)?;
            }
        }
    }
    Ok(())
}

// The outline that a tree has.
pub(crate) fn outline_by_tree(
    alloc: Global,
    tree: &Option<Tree>,
) -> Result<Vec<OutlinePart<Kind>>, Memory> {
    let mut parts = Vec::new(alloc);
    let mut waiting = Vec::new(alloc);
    if let Some(root) = tree {
        waiting.push(root)?;
    }
    for _ in 0..8 * NAMES {
        let Some(node) = waiting.pop() else {
            return Ok(parts);
        };
        put_node(node, &mut parts, &mut waiting)?;
    }
    Ok(parts)
}

// The text where there is no tree.
fn check_empty(rt: &impl Abort, alloc: Global) -> Result<(), Memory> {
    let graph = Graph::new(alloc)?;
    let mut text = Vec::new(alloc);
    push_text_by_rows(&mut text, &[], &graph, &mut RowSpace::new(alloc))?;
    assert_eq!(rt; text.as_slice(), b"empty".as_slice());
    Ok(())
}

#[test]
fn spells_no_tree(rt: HostRuntime) -> Result<(), Fail> {
    assert!(&rt; check_empty(&rt, rt.alloc()).is_ok());
    Ok(())
}
