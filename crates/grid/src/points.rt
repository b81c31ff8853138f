// Points, what they are, and how far away their ends lie.
ghost use Rattle.std.specs.Prelude.{◌≡◌, ◌≤◌, ◌<◌};
ghost use Rattle.grid.specs.Grid.{Inside, side, widest, samples, point};
ghost use Rattle.grid.specs.Points.{units, outermost, is_corner, kind, spacing, site};
ghost use Rattle.grid.specs.Inner.{reach_by};

use super::Grid;

// x cells east and y cells north of the south-west corner.
#[derive(Clone, Copy)]
pub struct Point {
    pub x: u32,
    pub y: u32,
}

// A point counted in units of its spacing.
#[derive(Clone, Copy)]
pub struct Units {
    pub spacing: u32,
    pub across: u32,
    pub up: u32,
}

// A grid corner, or the line on which the two ends lie: an edge point's along an axis, a centre's along a diagonal.
#[derive(Clone, Copy)]
pub enum Kind {
    Corner,
    EastWest,
    NorthSouth,
    Rising,
    Falling,
}

#[derive(Clone, Copy)]
pub struct Site {
    pub kind: Kind,
    pub spacing: u32,
}

// That a point is inside stays a `requires`: it ties the point to the grid, and no field of either could say so.
fn units_of(g: Grid, p: Point) -> Units
    requires { Inside g.m p }
    ensures { result ≡ units g.m p }
{
    let mut s: u32 = 1;
    let mut a = p.x;
    let mut b = p.y;
    for _ in 0..g.m {
        if a % 2 == 1 || b % 2 == 1 {
            break;
        }
        a /= 2;
        b /= 2;
        s *= 2;
    }
    Units {
        spacing: s,
        across: a,
        up: b,
    }
}

// The first or the last column or row.
fn is_outermost(g: Grid, c: u32) -> bool
    ensures { result ≡ outermost g.m c }
{
    c == 0 || c == g.side
}

fn is_corner(g: Grid, p: Point) -> bool
    ensures { result ≡ is_corner g.m p }
{
    is_outermost(g, p.x) && is_outermost(g, p.y)
}

fn site_of(g: Grid, p: Point) -> Site
    requires { Inside g.m p }
    ensures { result ≡ site g.m p }
{
    let u = units_of(g, p);
    let s = u.spacing;
    if is_corner(g, p) {
        return Site {
            kind: Kind::Corner,
            spacing: s,
        };
    }
    if u.across % 2 == 0 {
        return Site {
            kind: Kind::NorthSouth,
            spacing: s,
        };
    }
    if u.up % 2 == 0 {
        return Site {
            kind: Kind::EastWest,
            spacing: s,
        };
    }
    if u.across / 2 % 2 == u.up / 2 % 2 {
        return Site {
            kind: Kind::Rising,
            spacing: s,
        };
    }
    Site {
        kind: Kind::Falling,
        spacing: s,
    }
}

// How many places before and behind a point its ends lie: a place is linear in its point.
pub fn reach_of(g: Grid, kind: Kind, s: u32) -> usize
    requires { s ≤ widest }
    ensures { result ≡ reach_by kind (side g.m) s }
{
    let east = s as usize;
    let north = east * ((g.side as usize) + 1);
    match kind {
        Kind::Corner => 0,
        Kind::EastWest => east,
        Kind::NorthSouth => north,
        Kind::Rising => north + east,
        Kind::Falling => north - east,
    }
}

// The same of the point at a place.
pub fn reach_at(g: Grid, i: usize) -> usize
    requires { i < samples g.m }
    ensures { result ≡ reach_by (kind g.m (point g.m i)) (side g.m) (spacing g.m (point g.m i)) }
{
    let t = site_of(g, g.point(i));
    let kind = t.kind;
    reach_of(g, kind, t.spacing)
}
