// The cutting, by places alone: the place of a midpoint is half the sum of the places.
ghost use Rattle.std.specs.Prelude.{◌≡◌, [], ◌∷◌, true, ◌+◌, ◌≤◌, ◌<◌, ◌%◌, length};
ghost use Rattle.grid.specs.Grid.{midplace};
ghost use Rattle.mesh.specs.Inner.{kept_place, is_cut, cut_places, Ends, Corners, Put};

use grid::Grid;
use grid::marks::keeps;

// Three places; answers the index behind them.
fn put(p: usize, q: usize, w: usize, at: usize, places: &mut [u16]) -> usize
    requires { (p ≤ 65535) × (q ≤ 65535) × (w ≤ 65535) × (at + 3 ≤ length places.old) }
    ensures { Put (p ∷ q ∷ w ∷ []) at places.old result places.new }
{
    places[at] = p as u16;
    places[at + 1] = q as u16;
    places[at + 2] = w as u16;
    at + 3
}

fn midpoint_kept(marks: &[u8], l: usize, r: usize) -> bool
    requires { Ends marks.now l r }
    ensures { result ≡ kept_place marks.now (midplace l r) }
{
    keeps(marks[Grid::midpoint(l, r)])
}

// Whether a triangle is cut: it has a cut left and its midpoint is kept.
pub fn is_cut(marks: &[u8], left: u32, l: usize, r: usize) -> bool
    requires { Ends marks.now l r }
    ensures { result ≡ is_cut (kept_place marks.now) left l r }
{
    left != 0 && midpoint_kept(marks, l, r)
}

// Parameters stay apart, and good marks a bare slice, as `is_cut` takes them, which the strip calls. The list takes 15.4 instructions a triangle; with a struct of the triangle it takes 17.2 by value and 24.2 by
// reference, and with a struct of the buffer and the index 21.6.

// A triangle with an even number of cuts left, cut or written as it stands.
pub(crate) fn at_centre(
    marks: &[u8],
    left: u32,
    l: usize,
    a: usize,
    r: usize,
    at: usize,
    places: &mut [u16],
) -> usize
    requires { Corners marks.now l a r × (left % 2 ≡ 0) × (at + length (cut_places (kept_place marks.now) left l a r) ≤ length places.old) }
    ensures { Put (cut_places (kept_place marks.now) left l a r) at places.old result places.new }
{
    if is_cut(marks, left, l, r) {
        cut_at_centre(marks, left, l, a, r, at, places)
    } else {
        put(l, a, r, at, places)
    }
}

// With an even number of cuts left the longest side is a diagonal: cut at a block centre c, into halves cut at edge midpoints, (l, c, a)
// and (a, c, r): each between a corner and the next. One call for both lets the compiler make one function of the two stages.
#[cycle(cutting)]
fn cut_at_centre(
    marks: &[u8],
    left: u32,
    l: usize,
    a: usize,
    r: usize,
    at: usize,
    places: &mut [u16],
) -> usize
    requires { Corners marks.now l a r × (is_cut (kept_place marks.now) left l r ≡ true) × (left % 2 ≡ 0) × (at + length (cut_places (kept_place marks.now) left l a r) ≤ length places.old) }
    ensures { Put (cut_places (kept_place marks.now) left l a r) at places.old result places.new }
{
    let centre = Grid::midpoint(l, r);
    let odd = left - 1;
    let mut next = at;
    for (p, q) in [(l, a), (a, r)] {
        if midpoint_kept(marks, p, q) {
            next = cut_at_edge(marks, odd, p, centre, q, next, places);
        } else {
            next = put(q, centre, p, next, places);
        }
    }
    next
}

// A triangle with one cut left, cut or written as it stands.
fn last_cut(marks: &[u8], l: usize, a: usize, r: usize, at: usize, places: &mut [u16]) -> usize
    requires { Corners marks.now l a r × (at + length (cut_places (kept_place marks.now) 1 l a r) ≤ length places.old) }
    ensures { Put (cut_places (kept_place marks.now) 1 l a r) at places.old result places.new }
{
    if midpoint_kept(marks, l, r) {
        let edge = Grid::midpoint(l, r);
        let next = put(l, edge, a, at, places);
        put(a, edge, r, next, places)
    } else {
        put(r, a, l, at, places)
    }
}

// With two cuts left, as most cut triangles have: these are made here, which saves their calls.
fn last_cuts(marks: &[u8], l: usize, a: usize, r: usize, at: usize, places: &mut [u16]) -> usize
    requires { Corners marks.now l a r × (is_cut (kept_place marks.now) 2 l r ≡ true) × (at + length (cut_places (kept_place marks.now) 2 l a r) ≤ length places.old) }
    ensures { Put (cut_places (kept_place marks.now) 2 l a r) at places.old result places.new }
{
    let middle = Grid::midpoint(l, r);
    let next = last_cut(marks, l, middle, a, at, places);
    last_cut(marks, a, middle, r, next, places)
}

// With an odd number the longest side lies along an axis: cut at an edge midpoint, likewise, into halves cut at block centres.
#[cycle(cutting)]
fn cut_at_edge(
    marks: &[u8],
    left: u32,
    l: usize,
    a: usize,
    r: usize,
    at: usize,
    places: &mut [u16],
) -> usize
    requires { Corners marks.now l a r × (is_cut (kept_place marks.now) left l r ≡ true) × (left % 2 ≡ 1) × (at + length (cut_places (kept_place marks.now) left l a r) ≤ length places.old) }
    ensures { Put (cut_places (kept_place marks.now) left l a r) at places.old result places.new }
{
    let edge = Grid::midpoint(l, r);
    let even = left - 1;
    let mut next = at;
    for (p, q) in [(l, a), (a, r)] {
        if is_cut(marks, even, p, q) {
            if even == 2 {
                next = last_cuts(marks, p, edge, q, next, places);
            } else {
                next = cut_at_centre(marks, even, p, edge, q, next, places);
            }
        } else {
            next = put(p, edge, q, next, places);
        }
    }
    next
}
