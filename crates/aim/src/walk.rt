// The walk down the cuts, by places and weights: from the marks alone, which midpoints are kept.
ghost use Rattle.std.specs.Prelude.{◌≡◌, false, ◌*◌, ◌≤◌, ◌<◌, leb, length, slice_index_or};
ghost use Rattle.grid.specs.Grid.{largest, in_quarters, at};
ghost use Rattle.grid.specs.Mark.{left_out};
ghost use Rattle.aim.specs.Walk.{start, under};
ghost use Rattle.aim.specs.Aimed.{fills};
ghost use Rattle.aim.specs.Inner.{placed, half_at, walk_from, Stands, Light, standing, share, void_in, Stored};

use grid::Grid;
use grid::marks::{filled, good, kept};
use grid::refusals::Refusal;

// A triangle's corner, and the point's weight at it.
#[derive(Clone, Copy)]
pub struct Corner {
    pub place: usize,
    pub weight: u32,
}

// The triangle (l, a, r) that a walk has come to, and the cuts left. These come first: in a result a refusal lies over
// the first field, and a place would be put together anew in each step (419 instructions a plane on a full grid, not 403).
#[derive(Clone, Copy)]
pub struct Reached {
    pub left: u32,
    pub l: Corner,
    pub a: Corner,
    pub r: Corner,
}

impl Corner {
    pub(crate) fn height(self, heights: &[i16]) -> i16
        requires { self.place < length heights.now }
        ensures { result ≡ standing heights.now self }
    {
        heights[self.place]
    }

    // What it adds to the height times 4N.
    pub(crate) fn share(self, heights: &[i16]) -> i32
        requires { (self.place < length heights.now) × (self.weight ≤ in_quarters largest) }
        ensures { result ≡ share heights.now self }
    {
        (self.weight as i32) * (self.height(heights) as i32)
    }

    // One that weighs nothing does not count.
    pub(crate) fn fills(self, marks: &[u8]) -> bool
        requires { self.place < length marks.now }
        ensures { result ≡ fills self.weight (slice_index_or marks.now self.place left_out) }
    {
        self.weight != 0 && filled(marks[self.place])
    }
}

// On the line between two halves, or between the starting triangles, where both are the same, the first.
fn goes_first(second: u32, first: u32) -> bool
    ensures { result ≡ leb second first }
{
    second <= first
}

impl Reached {
    // The half that the point goes to, of the triangle cut at c.
    #[tactic(auto, unfolding(crate::specs::Inner::half_at))]
    fn half(self, c: usize) -> Reached
        requires { Light self × (0 < self.left) }
        ensures { result ≡ half_at c self }
    {
        let left = self.left - 1;
        if goes_first(self.r.weight, self.l.weight) {
            return Reached {
                l: Corner {
                    place: self.l.place,
                    weight: self.l.weight - self.r.weight,
                },
                a: Corner {
                    place: c,
                    weight: 2 * self.r.weight,
                },
                r: self.a,
                left,
            };
        }
        Reached {
            l: self.a,
            a: Corner {
                place: c,
                weight: 2 * self.l.weight,
            },
            r: Corner {
                place: self.r.place,
                weight: self.r.weight - self.l.weight,
            },
            left,
        }
    }

    pub(crate) fn has_void(&self, heights: &[i16]) -> bool
        requires { Stands heights.now self.now }
        ensures is { result ≡ void_in heights.now self.now }
        ensures stored { result ≡ false → Stored heights.now self.now }
    {
        Grid::is_void(self.l.height(heights))
            || Grid::is_void(self.a.height(heights))
            || Grid::is_void(self.r.height(heights))
    }
}

// The starting triangle of a point. The mesh and the strip have both, each in its own type.
pub(crate) fn start(g: Grid, x: u32, y: u32) -> Reached
    requires { (x ≤ in_quarters g.m) × (y ≤ in_quarters g.m) }
    ensures { result ≡ placed g.m (under (start g.m (at x y)) (2 * g.m)) }
{
    let se = g.side as usize;
    let nw = se * (se + 1);
    let ne = nw + se;
    if goes_first(y, x) {
        return Reached {
            l: Corner {
                place: 0,
                weight: g.in_quarters() - x,
            },
            a: Corner {
                place: se,
                weight: x - y,
            },
            r: Corner {
                place: ne,
                weight: y,
            },
            left: 2 * g.m,
        };
    }
    Reached {
        l: Corner {
            place: ne,
            weight: x,
        },
        a: Corner {
            place: nw,
            weight: y - x,
        },
        r: Corner {
            place: 0,
            weight: g.in_quarters() - y,
        },
        left: 2 * g.m,
    }
}

// Each midpoint is looked at, the one that ends the walk too. Inlined, since the loop alone carries the corners'
// padding along (427 instructions a height on a full grid, and not 377).
#[inline(always)]
pub(crate) fn walk(marks: &[u8], from: Reached) -> Result<Reached, Refusal>
    requires { Stands marks.now from × Light from }
    ensures { result ≡ walk_from marks.now from.left from }
{
    let mut t = from;
    // Stays a `while`: the cuts left are part of where it ends, so a `for` would count them a second time.
    while 0 < t.left {
        let c = Grid::midpoint(t.l.place, t.r.place);
        let mark = marks[c];
        if !good(false, mark) {
            return Err(Refusal::BadMark);
        }
        if !kept(mark) {
            break;
        }
        t = t.half(c);
    }
    Ok(t)
}
