// The grid: sizes, places, points and what they lean on. Everything above this crate stands on it.
#![tactic(auto)]

pub mod marks;
pub mod points;
pub mod refusals;
pub mod sizes;

ghost use Rattle.std.specs.Prelude.{◌≡◌, ◌<◌, ◌≤◌};
ghost use Rattle.grid.specs.Grid.{Sound, Inside, largest, place, point, samples, midplace, in_quarters, corners, is_void, raise, lower};

use points::Point;

// A grid of one of the eight sizes, with N = 2^m cells a side.
#[derive(Clone, Copy)]
pub struct Grid {
    pub m: u32,
    pub side: u32,
    pub ghost sound: { Sound m side },
}

impl Grid {
    pub const VOID: i16 = -32768;

    pub const QUARTERS: u32 = 4;

    pub const LARGEST: u32 = 7;

    pub fn place(self, p: Point) -> usize
        requires { Inside self.m p }
        ensures { result ≡ place self.m p }
    {
        (p.y as usize) * ((self.side as usize) + 1) + (p.x as usize)
    }

    pub fn point(self, i: usize) -> Point
        requires { i < samples self.m }
        ensures { result ≡ point self.m i }
    {
        let row = self.side + 1;
        let at = i as u32;
        Point {
            x: at % row,
            y: at / row,
        }
    }

    // Of two places, and so of two points: a place is linear in its point.
    pub fn midpoint(i: usize, j: usize) -> usize
        requires { (i ≤ samples largest) × (j ≤ samples largest) }
        ensures { result ≡ midplace i j }
    {
        (i + j) / 2
    }

    // 4N: as far as a point in quarter cells may lie.
    pub fn in_quarters(self) -> u32
        ensures { result ≡ in_quarters self.m }
    {
        Grid::QUARTERS * self.side
    }

    pub fn corners(self) -> [Point; 4]
        ensures { result ≡ corners self.m }
    {
        let n = self.side;
        [
            Point { x: 0, y: 0 },
            Point { x: n, y: 0 },
            Point { x: 0, y: n },
            Point { x: n, y: n },
        ]
    }

    pub fn is_void(h: i16) -> bool
        ensures { result ≡ is_void h }
    {
        h == Grid::VOID
    }

    // Counted from the void mark, so that sums and means need no signs.
    pub fn raised(h: i16) -> u32
        ensures { result ≡ raise h }
    {
        ((h as i32) - (Grid::VOID as i32)) as u32
    }

    pub fn lowered(b: u32) -> i16
        requires { b < 65536 }
        ensures { result ≡ lower b }
    {
        ((b as i32) + (Grid::VOID as i32)) as i16
    }
}
