// Filling by spacing: every void before the points that it is an end of.
ghost use Rattle.std.specs.Prelude.{◌<◌};
ghost use Rattle.survey.specs.Inner.{Ready};

use super::floor_mean;
use grid::Grid;
use grid::points::reach_at;

// A grid's heights, perhaps not yet filled.
#[derive(Drop)]
pub(crate) struct Filling<'a> {
    pub(crate) grid: Grid,
    pub(crate) heights: &'a mut [i16],
    ghost ready: { Ready grid.m heights.now },
}

// That s is a power of two below N stays a `requires`: spacings are numbers here and in the rules.
impl Filling<'_> {
    ghost use Rattle.grid.specs.Grid.{at, samples};
    ghost use Rattle.grid.specs.Inner.{Power, Spread};
    ghost use Rattle.survey.specs.Inner.{IsVoid, VoidAt, Stands, Run, RunFilled, Row, RowFilled, RowsFilled, NoVoid};
    ghost use Rattle.survey.specs.Left.{Leaves};

    // The height of a void, whose ends lie reach places before and behind it: recurses to an end that is void too. What was found is
    // kept in heights, so that no height is worked out twice.
    #[cycle(filling)]
    fn fill_void(&mut self, i: usize, reach: usize)
        requires { VoidAt self.old.grid.m self.old.heights.now i reach }
        ensures { Leaves self.old self.new (Stands self.new.heights.now i) }
    {
        let before = i - reach;
        let behind = i + reach;
        if Grid::is_void(self.heights[before]) {
            self.fill_end(before);
        }
        if Grid::is_void(self.heights[behind]) {
            self.fill_end(behind);
        }
        let mean = floor_mean(self.heights[before], self.heights[behind]);
        self.heights[i] = mean;
    }

    // A void end is a run of one place: by way of a run, so that the compiler can put a void's step into the loop.
    #[cycle(filling)]
    fn fill_end(&mut self, i: usize)
        requires { (i < samples self.old.grid.m) × IsVoid self.old.heights.now i }
        ensures { Leaves self.old self.new (Stands self.new.heights.now i) }
    {
        self.fill_run(i, i + 1, 1, reach_at(self.grid, i));
    }

    // The points at the places from, from + step, .. below to. Stays a loop: with `step_by` a grid of size 7, a tenth of it voids, is
    // filled in 13.5 instructions a sample, with this in 9.9.
    #[cycle(filling)]
    fn fill_run(&mut self, from: usize, to: usize, step: usize, reach: usize)
        requires { Run self.old.grid.m from to step reach }
        ensures { Leaves self.old self.new (RunFilled self.new.heights.now from to step) }
    {
        let mut i = from;
        while i < to {
            if Grid::is_void(self.heights[i]) {
                self.fill_void(i, reach);
            }
            i += step;
        }
    }

    // The rows at even numbers of spacings: edge points with ends to the west and east.
    fn fill_even_rows(&mut self, s: usize)
        requires { Power self.old.grid.m s }
        ensures { Leaves self.old self.new (RowsFilled self.old.grid.m self.new.heights.now s 0) }
    {
        let row = (self.grid.side as usize) + 1;
        for y in (0..row).step_by(2 * s) {
            let at = y * row;
            self.fill_run(at + s, at + row, 2 * s, s);
        }
    }

    // Edge points with ends to the south and north, and centres, whose diagonals change from one to the next.
    fn fill_odd_row(&mut self, s: usize, y: usize, reach: usize)
        requires { Power self.old.grid.m s × Row s 1 y × Spread self.old.grid.m (at s y) reach }
        ensures { Leaves self.old self.new (RowFilled self.old.grid.m self.new.heights.now s 1 y) }
    {
        let row = (self.grid.side as usize) + 1;
        let at = y * row;
        let up = s * row;
        self.fill_run(at, at + row, 2 * s, up);
        self.fill_run(at + s, at + row, 4 * s, reach);
        self.fill_run(at + 3 * s, at + row, 4 * s, 2 * up - reach);
    }

    // The diagonals of the first centres change, too, from row to row.
    fn fill_odd_rows(&mut self, s: usize)
        requires { Power self.old.grid.m s }
        ensures { Leaves self.old self.new (RowsFilled self.old.grid.m self.new.heights.now s 1) }
    {
        let row = (self.grid.side as usize) + 1;
        let up = s * row;
        let mut reach = up + s;
        for y in (s..row).step_by(2 * s) {
            self.fill_odd_row(s, y, reach);
            reach = 2 * up - reach;
        }
    }

    // From the coarsest spacing to the finest, so that the ends of every void are filled before it.
    pub(crate) fn fill_spacings(&mut self)
        ensures { Leaves self.old self.new (NoVoid self.new.heights.now) }
    {
        for k in (0..self.grid.m).rev() {
            let s = 1usize << k;
            self.fill_even_rows(s);
            self.fill_odd_rows(s);
        }
    }
}
