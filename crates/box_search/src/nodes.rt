//! The tree of judged boxes, as a list of nodes.

ghost use Rattle.std.specs.Prelude.{◌≡◌, ◌<◌, ◌≤◌, ◌+◌, ◌^◌, OnOk, length};
ghost use Rattle.box_search.specs.Nodes.{write_at};

use box_core::CertLine;
use std::alloc::AllocError;

/// The line of a box, too dear until the box is judged; and, for a box that is split, the index of
/// the node of its lower half, which that of its upper half follows.
#[derive(Clone, Copy, Debug, PartialEq, Eq)]
pub(crate) struct Node {
    pub line: CertLine,
    pub next: u32,
}

/// The node of a box that is not judged.
pub(crate) fn unjudged() -> Node
    ensures { result ≡ record { line = CertLine.Dear; next = 0 } }
{
    Node {
        line: CertLine::Dear,
        next: 0,
    }
}

/// Writes the line of a judged box into its node, and adds nodes for the halves of one that is
/// split.
pub(crate) fn write_node(
    nodes: &mut Vec<Node>,
    node: u32,
    line: CertLine,
    is_split: bool,
) -> Result<(), AllocError>
    requires there { node < length nodes.old.items }
    requires few { length nodes.old.items ≤ 2000001 }
    ensures { OnOk result (nodes.new.items ≡ write_at node line is_split nodes.old.items) }
{
    let next = nodes.len() as u32;
    if is_split {
        nodes.push(unjudged())?;
        nodes.push(unjudged())?;
    }
    nodes[node as usize] = Node { line, next };
    Ok(())
}
