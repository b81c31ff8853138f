// Whether the set that the marks keep is closed.
ghost use Rattle.std.specs.Prelude.{◌≡◌, false, cond, ◌^◌, ◌<◌, MatchBool, Decides};
ghost use Rattle.grid.specs.Inner.{Power};
ghost use Rattle.mesh.specs.Triangles.{points};
ghost use Rattle.mesh.specs.Closed.{every, supported};
ghost use Rattle.mesh.specs.Kept.{kept_in};
ghost use Rattle.mesh.specs.Inner.{BackedAlong, Stride, Line, CentreRow, LineClosed, LinesClosed, SpacingClosed, unit};

use super::good::GoodMarks;
use grid::Grid;
use grid::marks::keeps;

// How many places on the next point along a line lies: an east-west one, or turned to a north-south one.
fn unit(g: Grid, turned: bool) -> usize
    ensures { result ≡ unit g.m turned }
{
    if turned { (g.side as usize) + 1 } else { 1 }
}

// A point outside is not looked at, but in its stead the sample itself, which is kept: it lies 0 places away.
fn reach(inside: bool, d: usize) -> usize
    ensures { result ≡ cond inside d 0 }
{
    if inside { d } else { 0 }
}

// That s is a power of two below N stays a `requires`: spacings are numbers here and in the rules, and a type for one would be taken apart at once.
impl GoodMarks<'_> {
    // With each kept sample of the places from, from + step, .. below to: are those so many places before and after it kept?
    // Stays a `while`: with `step_by` the look at the marks takes 13.4 instructions a sample, not 9.6.
    fn along(&self, from: usize, to: usize, step: usize, before: usize, after: usize) -> bool
        requires { Stride self.now.bytes.now from to step before after }
        ensures { Decides result (BackedAlong self.now.bytes.now from to step before after) }
    {
        let marks = self.bytes;
        let mut i = from;
        while i < to {
            if keeps(marks[i]) && !(keeps(marks[i - before]) && keeps(marks[i + after])) {
                return false;
            }
            i += step;
        }
        true
    }

    // The edge points of the line c, at odd numbers of s: each depends on those s beside the line.
    fn edge_line_closed(&self, turned: bool, s: usize, c: usize) -> bool
        requires { Power self.now.grid.m s × Line self.now.grid.m s 0 c }
        ensures { Decides result (LineClosed self.now.grid.m (kept_in self.now) s turned c) }
    {
        let n = self.grid.side as usize;
        let u = unit(self.grid, turned);
        let v = unit(self.grid, !turned);
        let at = c * v;
        let on = s * u;
        let beside = s * v;
        let before = reach(s <= c, beside);
        let after = reach(c + s <= n, beside);
        self.along(at + on, at + n * u, 2 * on, before, after)
    }

    // Within a line the first gap ends the look, but no gap skips a line: a way out of the whole would cost at every kept sample.
    fn edges_closed(&self, turned: bool, s: usize) -> bool
        requires { Power self.now.grid.m s }
        ensures { Decides result (LinesClosed self.now.grid.m (kept_in self.now) s turned 0) }
    {
        let n = self.grid.side as usize;
        let mut all = true;
        for c in (0..n + 1).step_by(2 * s) {
            all &= self.edge_line_closed(turned, s, c);
        }
        all
    }

    // The centres of row y: from one to the next their diagonals change.
    fn centre_row_closed(&self, s: usize, y: usize, d: usize) -> bool
        requires { Power self.now.grid.m s × CentreRow self.now.grid.m s y d }
        ensures { Decides result (LineClosed self.now.grid.m (kept_in self.now) s false y) }
    {
        let n = self.grid.side as usize;
        let row = n + 1;
        let at = y * row;
        let other = 2 * (s * row) - d;
        self.along(at + s, at + n, 4 * s, d, d)
            & self.along(at + 3 * s, at + n, 4 * s, other, other)
    }

    fn centres_closed(&self, s: usize) -> bool
        requires { Power self.now.grid.m s }
        ensures { Decides result (LinesClosed self.now.grid.m (kept_in self.now) s false 1) }
    {
        let n = self.grid.side as usize;
        let up = s * (n + 1);
        let mut d = up - s;
        let mut all = true;
        for y in (s..n + 1).step_by(2 * s) {
            all &= self.centre_row_closed(s, y, d);
            d = 2 * up - d;
        }
        all
    }

    // The points of spacing 2^k.
    fn spacing_closed(&self, k: u32) -> bool
        requires { k < self.now.grid.m }
        ensures { MatchBool result (SpacingClosed self.now.grid.m (kept_in self.now) (2 ^ k)) (¬ (SpacingClosed self.now.grid.m (kept_in self.now) (2 ^ k))) }
    {
        let s = 1 << k;
        self.edges_closed(false, s) & self.edges_closed(true, s) & self.centres_closed(s)
    }

    // Whether the set holds, with each point, all it depends on: by spacing, each point but the grid corners once.
    pub(crate) fn closed(&self) -> bool
        ensures { result ≡ every (supported self.now.grid.m (kept_in self.now)) (points self.now.grid.m) }
    {
        (0..self.grid.m).all(|k| self.spacing_closed(k))
    }
}
