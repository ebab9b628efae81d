//! Writing the lines of a tree.

ghost use Rattle.std.specs.Prelude.{◌≡◌, ◌<◌, ◌≤◌, ◌+◌, ◌*◌, ◌^◌, ◌++◌, IfOk, MatchOption, OnOk, length, true, [], ◌∷◌};
ghost use Rattle.box_specs.specs.Canonical.{canonical_lines, is_judged};
ghost use Rattle.box_specs.specs.Tree.{tree_of};
ghost use Rattle.box_search.specs.Nodes.{Shows, below, node_at};
ghost use Rattle.box_search.specs.Trees.{is_split_line};

use crate::nodes::Node;
use box_core::{CertLine, Landscape};
use std::alloc::{AllocError, Global};
use std::marker::Model;

/// The nodes whose trees are to be written, the next first, which is what contracts see. They are
/// stored in reverse.
#[derive(Drop)]
struct Stack {
    list: Vec<u32>,
}

impl Model for Stack {
    ghost use Rattle.std.specs.Prelude.{ℕ, List, reverse};

    ghost Value = { List ℕ };

    ghost view = { λ s. reverse s.list.items };
}

impl Stack {
    fn new(alloc: Global) -> Stack
        ensures { result ≡ [] }
    {
        Stack {
            list: Vec::new(alloc),
        }
    }

    /// Removes the first node.
    fn take(&mut self) -> Option<u32>
        ensures { MatchOption result ((self.old ≡ []) × (self.new ≡ []))
            (λ i. self.old ≡ i ∷ self.new) }
    {
        self.list.pop()
    }

    /// Puts a node before the others.
    fn put(&mut self, node: u32) -> Result<(), AllocError>
        ensures { IfOk result (λ _. self.new ≡ node ∷ self.old) }
    {
        self.list.push(node)?;
        Ok(())
    }

    /// Puts the nodes of both halves before the others.
    fn put_halves(&mut self, next: u32) -> Result<(), AllocError>
        requires { next < 2 ^ 31 }
        ensures { IfOk result (λ _. self.new ≡ next ∷ (next + 1) ∷ self.old) }
    {
        self.put(next + 1)?;
        self.put(next)?;
        Ok(())
    }
}

/// Whether a line splits its box.
fn is_split(line: CertLine) -> bool
    ensures { result ≡ is_split_line line }
{
    match line {
        CertLine::Split { .. } => true,
        _ => false,
    }
}

/// A node of the tree.
fn node_of(nodes: &[Node], i: u32) -> Node
    requires { i < length nodes.now }
    ensures { result ≡ node_at nodes.now i }
{
    nodes[i as usize]
}

/// Appends the line of a node to `out`, and puts the nodes of the halves of one that is split on
/// the stack.
fn write_next(
    nodes: &[Node],
    i: u32,
    stack: &mut Stack,
    out: &mut Vec<CertLine>,
) -> Result<(), AllocError>
    requires there { i < length nodes.now }
    requires few { length nodes.now ≤ 2000001 }
    requires halves { is_split_line (node_at nodes.now i).line ≡ true
        → (node_at nodes.now i).next < length nodes.now }
    ensures stack { OnOk result (stack.new ≡ below (node_at nodes.now i) stack.old) }
    ensures out { OnOk result (out.new.items
        ≡ out.old.items ++ (node_at nodes.now i).line ∷ []) }
{
    let node = node_of(nodes, i);
    out.push(node.line)?;
    if is_split(node.line) {
        stack.put_halves(node.next)?;
    }
    Ok(())
}

/// The lines of the tree that the first node shows: the line of each box, and after a split the
/// lines of its lower half and then those of its upper half.
pub(crate) fn emit<L: Landscape>(
    alloc: Global,
    land: &L,
    nodes: &[Node],
    boxes: u32,
) -> Result<Vec<CertLine>, AllocError>
    requires few { length nodes.now ≤ 2000001 }
    requires boxes { boxes ≤ 1000000 }
    requires shown { Shows (L.land land.now)
        nodes.now (is_judged (L.land land.now) boxes) 0 (tree_of (L.land land.now)) 0 }
    requires short { length (canonical_lines (L.land land.now) boxes) ≤ 2 * boxes + 1 }
    ensures { IfOk result (λ out. out.items ≡ canonical_lines (L.land land.now) boxes) }
{
    // For its clause that the landscape is lawful.
    let _top = land.top();
    let mut stack = Stack::new(alloc);
    stack.put(0)?;
    let mut out = Vec::new(alloc);
    for _turn in 0..2 * boxes + 1 {
        let Some(i) = stack.take() else {
            return Ok(out);
        };
        write_next(nodes, i, &mut stack, &mut out)?;
    }
    Ok(out)
}
