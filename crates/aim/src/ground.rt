// Where a walk ended: the height at the point, the slopes there, and whether a corner that weighs was filled.
ghost use Rattle.std.specs.Prelude.{◌≡◌, ◌≤◌, ◌<◌};
ghost use Rattle.grid.specs.Grid.{widest, samples};
ghost use Rattle.aim.specs.Aimed.{tilt};
ghost use Rattle.aim.specs.Inner.{Footing, weighted_in, height_here, filled_in, ground_by, ground_at};

use super::GroundPlane;
use super::quotient::quotient;
use super::walk::{Corner, Reached};
use grid::Grid;

// The triangle in which a walk ended, over the samples of a grid: none of its corners is void.
#[derive(Clone, Copy)]
pub struct Landing<'a> {
    pub grid: Grid,
    pub marks: &'a [u8],
    pub heights: &'a [i16],
    pub end: Reached,
    pub ghost footing: { Footing grid.m marks.now heights.now end },
}

// How steeply the plane through three heights rises along one axis, by their places along the other, times the doubled area.
fn tilt(hp: i16, hq: i16, hw: i16, cp: u32, cq: u32, cw: u32) -> i32
    requires { (cp ≤ widest) × (cq ≤ widest) × (cw ≤ widest) }
    ensures { result ≡ tilt hp hq hw cp cq cw }
{
    let p = cp as i32;
    let q = cq as i32;
    let w = cw as i32;
    (hp as i32) * (q - w) + (hq as i32) * (w - p) + (hw as i32) * (p - q)
}

impl Landing<'_> {
    // The height times 4N: since no corner is void, a float holds it.
    fn weighted(&self) -> i32
        ensures { result ≡ weighted_in self.now.heights.now self.now.end }
    {
        let t = self.end;
        t.l.share(self.heights) + t.a.share(self.heights) + t.r.share(self.heights)
    }

    pub(crate) fn height(&self) -> f32
        ensures { result ≡ height_here self.now.grid.m self.now.heights.now self.now.end }
    {
        quotient(self.weighted(), self.grid.in_quarters())
    }

    pub(crate) fn filled(&self) -> bool
        ensures { result ≡ filled_in self.now.marks.now self.now.end }
    {
        let t = self.end;
        t.l.fills(self.marks) || t.a.fills(self.marks) || t.r.fills(self.marks)
    }

    // The corners p, q and w in counter-clockwise order; 2 to the cuts left is their triangle's doubled area.
    fn ground_by(&self, p: Corner, q: Corner, w: Corner) -> GroundPlane
        requires { (p.place < samples self.now.grid.m) × (q.place < samples self.now.grid.m) × (w.place < samples self.now.grid.m) }
        ensures { result ≡ ground_by self.now.grid.m self.now.heights.now self.now.end p q w }
    {
        let hp = p.height(self.heights);
        let hq = q.height(self.heights);
        let hw = w.height(self.heights);
        let first = self.grid.point(p.place);
        let second = self.grid.point(q.place);
        let third = self.grid.point(w.place);
        let area = 1u32 << self.end.left;
        GroundPlane {
            height: self.height(),
            east: quotient(tilt(hp, hq, hw, first.y, second.y, third.y), area),
            north: quotient(tilt(hw, hq, hp, third.x, second.x, first.x), area),
        }
    }

    // After an odd number of cuts (l, a, r) turns clockwise.
    pub(crate) fn ground(&self) -> GroundPlane
        ensures { result ≡ ground_at self.now.grid.m self.now.heights.now self.now.end }
    {
        let t = self.end;
        if t.left % 2 == 1 {
            self.ground_by(t.r, t.a, t.l)
        } else {
            self.ground_by(t.l, t.a, t.r)
        }
    }
}
