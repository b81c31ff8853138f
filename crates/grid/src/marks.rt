// What a mark may be, what it keeps, what it says of the sample.
ghost use Rattle.std.specs.Prelude.{◌≡◌};
ghost use Rattle.grid.specs.Mark.{good_mark, kept_mark, filled_mark};
ghost use Rattle.grid.specs.Inner.{keeps};
ghost use Rattle.std.specs.Prelude.{length, slice_index_or};
ghost use Rattle.grid.specs.Grid.{Inside, samples, place};
ghost use Rattle.grid.specs.Mark.{left_out};

use super::Grid;
use super::points::Point;

// One mark for each sample of a grid.
#[derive(Clone, Copy)]
pub struct Marks<'a> {
    pub grid: Grid,
    pub bytes: &'a [u8],
    pub ghost whole: { length bytes.now ≡ samples grid.m },
}

impl Marks<'_> {
    pub fn at(&self, p: Point) -> u8
        requires { Inside self.now.grid.m p }
        ensures { result ≡ slice_index_or self.now.bytes.now (place self.now.grid.m p) left_out }
    {
        self.bytes[self.grid.place(p)]
    }
}

// Left out or kept for dependence, a void has 4 more. Marks travel as the bytes of the lent buffer, which C reads; this names them.
#[derive(Clone, Copy)]
pub enum Mark {
    LeftOut = 0,
    ForError = 1,
    ForDependence = 2,
    ForCorner = 3,
    VoidOut = 4,
    VoidKept = 6,
}

impl Mark {
    pub const IF_VOID: u8 = 4;
}

// One test by where the mark stands, as the rule has it.
pub fn good(corner: bool, mark: u8) -> bool
    ensures { result ≡ good_mark corner mark }
{
    if corner {
        return mark == Mark::ForCorner as u8;
    }
    mark == Mark::LeftOut as u8
        || mark == Mark::ForError as u8
        || mark == Mark::ForDependence as u8
        || mark == Mark::VoidOut as u8
        || mark == Mark::VoidKept as u8
}

pub fn kept(mark: u8) -> bool
    ensures { result ≡ kept_mark mark }
{
    mark == Mark::ForError as u8
        || mark == Mark::ForDependence as u8
        || mark == Mark::ForCorner as u8
        || mark == Mark::VoidKept as u8
}

// Of a good mark the same, in one test: but for what a void adds, it is 0 just where its point is left out.
pub fn keeps(mark: u8) -> bool
    ensures { result ≡ keeps mark }
{
    mark % Mark::IF_VOID != 0
}

pub fn filled(mark: u8) -> bool
    ensures { result ≡ filled_mark mark }
{
    Mark::IF_VOID <= mark
}
