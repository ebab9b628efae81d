//! The piece of a broken line on which a number of units lies, by a guess and a test.

ghost use Rattle.std.specs.Prelude.{◌≡◌, ◌<◌, ◌≤◌, ℕ, pos, IfSome, map};
ghost use Rattle.ks_curves.specs.BrokenLine.{origin, value_from};
ghost use Rattle.ks_curves.specs.Piece.{IsPiece};
ghost use Rattle.ks_curves.specs.StoredNode.{AreNodes, node_of};

use crate::node::StoredNode;
use crate::reach::Place;

/// A piece of a broken line: between two nodes, or past the last one.
#[derive(Clone, Copy)]
pub(crate) enum Piece {
    Between(StoredNode, StoredNode),
    Past(StoredNode),
}

/// The piece on which `x` units lie, if it is the one that ends at the node of index `end`.
#[inline(always)]
fn piece_at(nodes: &[StoredNode], x: u32, end: usize) -> Option<Piece>
    requires { AreNodes (map node_of nodes.now) }
    ensures { IfSome result (λ piece. IsPiece (map node_of nodes.now) x piece) }
{
    let before = if end == 0 {
        StoredNode::default()
    } else {
        *nodes.get(end - 1)?
    };
    if x < before.units {
        return None;
    }
    match nodes.get(end) {
        Some(node) => {
            if x <= node.units {
                Some(Piece::Between(before, *node))
            } else {
                None
            }
        }
        None => Some(Piece::Past(before)),
    }
}

/// The lower end of the value at `x` units, if they lie on the piece that `place` guesses.
#[inline(always)]
pub(crate) fn low_at(nodes: &[StoredNode], x: u32, place: Place) -> Option<u128>
    requires { AreNodes (map node_of nodes.now) }
    ensures { IfSome result
        (λ low. pos low ≡ (value_from origin (map node_of nodes.now) x).lo) }
{
    if x == 0 {
        return Some(0);
    }
    match piece_at(nodes, x, place.node)? {
        Piece::Between(before, node) => Some(before.low_at(&node, x, place.inverse)),
        Piece::Past(last) => Some(last.low_past(x, place.inverse)),
    }
}

/// The upper end of the value at `x` units, if they lie on the piece that `place` guesses.
#[inline(always)]
pub(crate) fn high_at(nodes: &[StoredNode], x: u32, place: Place) -> Option<u128>
    requires { AreNodes (map node_of nodes.now) }
    ensures { IfSome result
        (λ high. pos high ≡ (value_from origin (map node_of nodes.now) x).hi) }
{
    if x == 0 {
        return Some(0);
    }
    match piece_at(nodes, x, place.node)? {
        Piece::Between(before, node) => Some(before.high_at(&node, x, place.inverse)),
        Piece::Past(last) => Some(last.high_past(x, place.inverse)),
    }
}
