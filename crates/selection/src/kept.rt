// Whether the marks of a point's dependents keep one of them.
ghost use Rattle.std.specs.Prelude.{◌≡◌, ◌≤◌, false};
ghost use Rattle.grid.specs.Grid.{Inside, side, widest};
ghost use Rattle.grid.specs.Points.{near, in_line, crossing, crossed, beside, dependents};
ghost use Rattle.grid.specs.Inner.{Clear, Sited};
ghost use Rattle.selection.specs.Kept.{some};
ghost use Rattle.selection.specs.Inner.{kept_at};

use grid::marks::{Marks, keeps};
use grid::points::{Kind, Point};

// Marks, spacing and point are handed on one by one: each look is at another point, so a struct of the three would be made anew for each. That
// the point is inside ties it to these marks, and that the spacing is small bounds the sum: they stay a `requires`.
fn kept_at(marks: &Marks, p: Point) -> bool
    requires { Inside marks.now.grid.m p }
    ensures { result ≡ kept_at marks.now.grid.m marks.now.bytes.now p }
{
    keeps(marks.at(p))
}

// Of the points in the row of p that lie s before and s after it, those inside: is one kept?
fn kept_in_line(marks: &Marks, s: u32, p: Point) -> bool
    requires { Inside marks.now.grid.m p × (s ≤ widest) }
    ensures { result ≡ some (kept_at marks.now.grid.m marks.now.bytes.now) (in_line false p.y (near (side marks.now.grid.m) s p.x)) }
{
    (s <= p.x && kept_at(marks, Point { x: p.x - s, ..p }))
        || (p.x + s <= marks.grid.side && kept_at(marks, Point { x: p.x + s, ..p }))
}

// Of the points s away both ways, those inside: is one kept?
fn kept_crossing(marks: &Marks, s: u32, p: Point) -> bool
    requires { Inside marks.now.grid.m p × (s ≤ widest) }
    ensures { result ≡ some (kept_at marks.now.grid.m marks.now.bytes.now) (crossing (side marks.now.grid.m) s p.x p.y) }
{
    (s <= p.y && kept_in_line(marks, s, Point { y: p.y - s, ..p }))
        || (p.y + s <= marks.grid.side && kept_in_line(marks, s, Point { y: p.y + s, ..p }))
}

// Of an edge point's dependents.
fn kept_crossed(marks: &Marks, s: u32, p: Point) -> bool
    requires { Inside marks.now.grid.m p × (s ≤ widest) }
    ensures { result ≡ some (kept_at marks.now.grid.m marks.now.bytes.now) (crossed (side marks.now.grid.m) s p.x p.y) }
{
    s != 1 && kept_crossing(marks, s / 2, p)
}

// Of a centre's dependents.
fn kept_beside(marks: &Marks, s: u32, p: Point) -> bool
    requires { Clear marks.now.grid.m s p.x p.y }
    ensures { result ≡ some (kept_at marks.now.grid.m marks.now.bytes.now) (beside s p.x p.y) }
{
    kept_at(marks, Point { y: p.y - s, ..p })
        || kept_at(marks, Point { x: p.x - s, ..p })
        || kept_at(marks, Point { x: p.x + s, ..p })
        || kept_at(marks, Point { y: p.y + s, ..p })
}

// Of the dependents of a point of this kind and this spacing. Inlined, so that a run of edge points and one of centres each ask for theirs.
#[inline(always)]
pub(crate) fn kept_dependent(marks: &Marks, kind: Kind, s: u32, p: Point) -> bool
    requires { Sited marks.now.grid.m p kind s }
    ensures { result ≡ some (kept_at marks.now.grid.m marks.now.bytes.now) (dependents marks.now.grid.m p) }
{
    match kind {
        Kind::Corner => false,
        Kind::EastWest | Kind::NorthSouth => kept_crossed(marks, s, p),
        Kind::Rising | Kind::Falling => kept_beside(marks, s, p),
    }
}
