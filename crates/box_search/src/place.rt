//! The places of boxes in the order in which they are judged.

ghost use Rattle.std.specs.Prelude.{◌≡◌};
ghost use Rattle.box_specs.specs.Span.{IsInside};
ghost use Rattle.box_specs.specs.Tree.{spot_of};
ghost use Rattle.box_search.specs.Places.{place};

use box_core::{BoxR, Landscape, corner_key};
use price_grid::Key;

/// The place of a box: the key of its lower corner, and how deep it stands in the tree. Places are
/// ordered by key and then by depth.
#[derive(Debug, Drop, PartialEq, Eq, PartialOrd, Ord)]
pub(crate) struct Place {
    pub key: Key,
    pub depth: u64,
}

/// The place of a box at a depth.
pub(crate) fn place_of<L: Landscape>(land: &L, part: &BoxR, depth: u64) -> Place
    requires { IsInside part.now (L.land land.now).top }
    ensures { result ≡ place (spot_of (L.land land.now) depth part.now) }
{
    Place {
        key: corner_key(land, part),
        depth,
    }
}
