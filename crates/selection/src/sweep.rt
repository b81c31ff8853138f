// One spacing of the sweep over a survey: its edge points, then its centres, row by row.
ghost use Rattle.std.specs.Prelude.{◌≡◌};
ghost use Rattle.grid.specs.Inner.{next_kind};
ghost use Rattle.selection.specs.Inner.{Ready, Spacing};

use super::error::exceeds;
use super::kept::kept_dependent;
use grid::Grid;
use grid::marks::{Mark, Marks};
use grid::points::{Kind, Point, reach_of};

// A survey, its filled heights, the limit that an own doubled error must exceed, and the spacing of the points to be marked.
#[derive(Clone, Copy)]
pub struct Sweep<'a> {
    pub grid: Grid,
    pub survey: &'a [i16],
    pub heights: &'a [i16],
    pub limit: u32,
    pub spacing: u32,
    pub ghost ready: { Ready grid limit survey.now heights.now },
    pub ghost spaced: { Spacing grid.m spacing },
}

// The kind of the point two spacings on, east or north.
fn next(kind: Kind) -> Kind
    ensures { result ≡ next_kind kind }
{
    match kind {
        Kind::Rising => Kind::Falling,
        Kind::Falling => Kind::Rising,
        of_edge => of_edge,
    }
}

impl Sweep<'_> {
    ghost use Rattle.std.specs.Prelude.{suc, ◌<◌, ◌≤◌};
    ghost use Rattle.grid.specs.Grid.{at, is_void};
    ghost use Rattle.grid.specs.Points.{units};
    ghost use Rattle.grid.specs.Inner.{Sited, Spread, CentreKind};
    ghost use Rattle.survey.specs.Filled.{sample};
    ghost use Rattle.selection.specs.Error.{exceeding};
    ghost use Rattle.selection.specs.Marks.{mark_by};
    ghost use Rattle.selection.specs.Inner.{edge_rank, centre_rank, stride};
    ghost use Rattle.selection.specs.Sweep.{Settled, Before, Past, BeforeRun, PastRun};

    // The mark of a point, once it is known whether a dependent is kept.
    fn mark_of(&self, p: Point, reach: usize, kept: bool) -> u8
        requires { Spread self.now.grid.m p reach }
        ensures { result ≡ mark_by (is_void (sample self.now.grid.m self.now.survey.now p)) (exceeding self.now.grid.m self.now.survey.now self.now.limit p) kept }
    {
        let at = self.grid.place(p);
        let heights = self.heights;
        if Grid::is_void(self.survey[at]) {
            if kept {
                Mark::VoidKept as u8
            } else {
                Mark::VoidOut as u8
            }
        } else if exceeds(
            self.limit,
            heights[at],
            heights[at - reach],
            heights[at + reach],
        ) {
            Mark::ForError as u8
        } else if kept {
            Mark::ForDependence as u8
        } else {
            Mark::LeftOut as u8
        }
    }

    // The points of one kind in the row of p, from p on: they are STRIDE spacings apart, edge points 2 and centres 4, since a centre's ends
    // change their diagonal from one to the next.
    fn mark_run<const STRIDE: u32>(&self, kind: Kind, p: Point, marks: &mut [u8])
        requires { Sited self.now.grid.m p kind self.now.spacing × ((units self.now.grid.m p).across < stride kind) × BeforeRun self.now kind p marks.old × (STRIDE ≡ stride kind) }
        ensures { PastRun self.now kind p marks.new }
    {
        // A copy, which no mark that is written can change: its fields are read once.
        let sweep = *self;
        let grid = sweep.grid;
        let s = sweep.spacing;
        let reach = reach_of(grid, kind, s);
        let step = STRIDE * s;
        let mut x = p.x;
        // Stays a `while`: with `step_by`, which asks twice whether to go on, selection takes 34.3 instructions a sample, not 32.4.
        while x <= grid.side {
            let q = Point { x, ..p };
            let kept = kept_dependent(&Marks { grid, bytes: marks }, kind, s, q);
            marks[grid.place(q)] = sweep.mark_of(q, reach, kept);
            x += step;
        }
    }

    // The centres of row y in two runs. The largest spacing has a single centre.
    fn mark_centre_row(&self, first: Kind, y: u32, marks: &mut [u8])
        requires { Sited self.now.grid.m (at self.now.spacing y) first self.now.spacing × CentreKind first × ((units self.now.grid.m (at self.now.spacing y)).across ≤ 1) × Before self.now (at self.now.spacing y) marks.old }
        ensures { Past self.now (at self.now.spacing y) marks.new }
    {
        let s = self.spacing;
        self.mark_run::<4>(first, Point { x: s, y }, marks);
        if 3 * s <= self.grid.side {
            self.mark_run::<4>(next(first), Point { x: 3 * s, y }, marks);
        }
    }

    fn mark_edges(&self, marks: &mut [u8])
        requires { Settled self.now (edge_rank self.now.grid.m self.now.spacing) 0 marks.old }
        ensures { Settled self.now (centre_rank self.now.grid.m self.now.spacing) 0 marks.new }
    {
        let s = self.spacing;
        let n = self.grid.side;
        for y in (0..n).step_by((2 * s) as usize) {
            self.mark_run::<2>(Kind::EastWest, Point { x: s, y }, marks);
            self.mark_run::<2>(Kind::NorthSouth, Point { x: 0, y: y + s }, marks);
        }
        self.mark_run::<2>(Kind::EastWest, Point { x: s, y: n }, marks);
    }

    fn mark_centres(&self, marks: &mut [u8])
        requires { Settled self.now (centre_rank self.now.grid.m self.now.spacing) 0 marks.old }
        ensures { Settled self.now (suc (centre_rank self.now.grid.m self.now.spacing)) 0 marks.new }
    {
        let s = self.spacing;
        let mut kind = Kind::Rising;
        for y in (s..self.grid.side).step_by((2 * s) as usize) {
            self.mark_centre_row(kind, y, marks);
            kind = next(kind);
        }
    }

    // By rising rank: the edge points, then the centres, which they depend on.
    pub(crate) fn mark_spacing(&self, marks: &mut [u8])
        requires { Settled self.now (edge_rank self.now.grid.m self.now.spacing) 0 marks.old }
        ensures { Settled self.now (suc (centre_rank self.now.grid.m self.now.spacing)) 0 marks.new }
    {
        self.mark_edges(marks);
        self.mark_centres(marks);
    }
}
