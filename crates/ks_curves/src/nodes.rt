//! The nodes of a broken line at a wavelength.

ghost use Rattle.std.specs.Prelude.{◌≡◌, ◌+◌, ◌<◌, ◌≤◌, ◌↔◌, ℕ, pos, IfSome, IsTrue, None, length, map, option_map};
ghost use Rattle.interval_specs.specs.Operations.{hull_of};
ghost use Rattle.spectral_tables.specs.Spectrum.{ends_of};
ghost use Rattle.ks_curves.specs.BrokenLine.{broken_over, origin};
ghost use Rattle.ks_curves.specs.Order.{place_by, put_by};
ghost use Rattle.ks_curves.specs.StoredNode.{AreNodes, Climb, HasUnits, node_of};
ghost use Rattle.ks_curves.specs.Walk.{joined_ends, over_from};

use crate::near::near_inverse;
use crate::node::StoredNode;
use crate::piece::{high_at, low_at};
use crate::reach::{Place, Reach};
use arrayvec::ArrayVec;
use std::marker::Model;

/// Guesses at 2^64 over the distance of each node from the one before, and behind them over that
/// of the last node from the origin.
pub(crate) type Inverses = [u64; 9];

/// Nodes in rising order of their units. Where `rises` is set, neither end of their values falls.
#[derive(Drop)]
pub(crate) struct Nodes {
    list: ArrayVec<StoredNode, 8>,
    rises: bool,
}

impl Model for Nodes {
    ghost use Rattle.std.specs.Prelude.{IsTrue, List, map};
    ghost use Rattle.ks_curves.specs.BrokenLine.{Node, origin};
    ghost use Rattle.ks_curves.specs.StoredNode.{Climb, node_of};

    ghost Value = { List Node };

    ghost view = { λ n. map node_of n.list.items };

    ghost invariant = { λ n. IsTrue n.rises → Climb origin (map node_of n.list.items) };
}

/// No node.
impl Default for Nodes {
    ghost use Rattle.std.specs.Prelude.{[]};

    ghost is_default = { λ n. n ≡ [] };

    fn default() -> Nodes {
        Nodes {
            list: ArrayVec::new(),
            rises: true,
        }
    }
}

/// The ends of the least interval that holds both.
#[inline(always)]
fn hull(a: (u128, u128), b: (u128, u128)) -> (u128, u128)
    ensures { ends_of result ≡ hull_of (ends_of a) (ends_of b) }
{
    (a.0.min(b.0), a.1.max(b.1))
}

/// The ends of the least interval that holds `more` and what came before it.
#[inline(always)]
fn joined(before: Option<(u128, u128)>, more: (u128, u128)) -> (u128, u128)
    ensures { ends_of result ≡ joined_ends (option_map ends_of before) (ends_of more) }
{
    match before {
        Some(ends) => hull(ends, more),
        None => more,
    }
}

/// The guess of an index.
#[inline(always)]
fn inverse(inverses: &Inverses, i: usize) -> u64 {
    match inverses.as_slice().get(i) {
        Some(inverse) => *inverse,
        None => 0,
    }
}

/// The ends of the values over units from `x0` to `x1` on the line through nodes, piece by piece.
#[inline(never)]
fn value_over(nodes: &[StoredNode], x0: u32, x1: u32, inverses: &Inverses) -> (u128, u128)
    requires nodes { AreNodes (map node_of nodes.now) }
    requires ordered { x0 ≤ x1 }
    ensures { ends_of result ≡ over_from None origin (map node_of nodes.now) x0 x1 }
{
    let mut before = StoredNode::default();
    let mut ends = None;
    for (i, node) in nodes.iter().enumerate() {
        if x0 < node.units {
            let start = x0.max(before.units);
            let inverse = inverse(inverses, i);
            if x1 <= node.units {
                return joined(ends, before.between(node, start, x1, inverse));
            }
            ends = Some(joined(ends, before.between(node, start, node.units, inverse)));
        }
        before = *node;
    }
    let inverse = inverse(inverses, nodes.len());
    joined(ends, before.past(x0.max(before.units), x1, inverse))
}

/// How many nodes have fewer units.
fn place(nodes: &[StoredNode], units: u32) -> usize
    ensures is { result ≡ place_by (λ a. a.units) units (map node_of nodes.now) }
    ensures within { result ≤ length nodes.now }
{
    let mut place = 0;
    for node in nodes {
        if units <= node.units {
            return place;
        }
        place += 1;
    }
    place
}

/// The node of an index has these units.
fn is_at(nodes: &[StoredNode], i: usize, units: u32) -> bool
    ensures { IsTrue result ↔ HasUnits units i nodes.now }
{
    if i < nodes.len() {
        nodes[i].units == units
    } else {
        false
    }
}

/// Whether neither end of the values falls from node to node.
fn climb(nodes: &[StoredNode]) -> bool
    ensures { IsTrue result → Climb origin (map node_of nodes.now) }
{
    let mut before = StoredNode::default();
    for node in nodes {
        if node.low < before.low || node.high < before.high {
            return false;
        }
        before = *node;
    }
    true
}

impl Nodes {
    /// Puts a node among the others, if none has its units.
    pub(crate) fn put(&mut self, node: StoredNode)
        requires { length self.old < 8 }
        ensures is { self.new ≡ put_by (λ a. a.units) (node_of node) self.old }
        ensures count { length self.new ≤ length self.old + 1 }
    {
        let nodes = self.list.as_slice();
        let place = place(nodes, node.units);
        if !is_at(nodes, place, node.units) {
            self.list.insert(place, node);
            self.rises = climb(self.list.as_slice());
        }
    }

    /// Guesses at 2^64 over the distances of the nodes.
    pub(crate) fn inverses(&self) -> Inverses {
        let mut inverses = [0; 9];
        let mut before = 0;
        for (i, node) in self.list.as_slice().iter().enumerate() {
            if i < 8 {
                inverses[i] = near_inverse(node.units.saturating_sub(before));
                inverses[i + 1] = near_inverse(node.units);
            }
            before = node.units;
        }
        inverses
    }

    /// A guess at the piece on which these units lie.
    pub(crate) fn place(&self, units: u32, inverses: &Inverses) -> Place {
        let node = place(self.list.as_slice(), units);
        Place {
            node,
            inverse: inverse(inverses, node),
        }
    }

    /// The ends of the least interval that holds the values over units from `x0` to `x1`. `reach`
    /// is a guess at the pieces on which both lie.
    #[inline(always)]
    pub(crate) fn value_over(
        &self,
        x0: u32,
        x1: u32,
        reach: &Reach,
        inverses: &Inverses,
    ) -> (u128, u128)
        requires nodes { AreNodes self.now }
        requires ordered { x0 ≤ x1 }
        ensures { ends_of result ≡ broken_over self.now x0 x1 }
    {
        let nodes = self.list.as_slice();
        if self.rises || x0 == x1 {
            let low = low_at(nodes, x0, reach.first);
            let high = high_at(nodes, x1, reach.last);
            if let (Some(low), Some(high)) = (low, high) {
                return (low, high);
            }
        }
        value_over(nodes, x0, x1, inverses)
    }
}
