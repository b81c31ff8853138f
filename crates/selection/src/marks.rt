// The marks, by rising rank, and what is counted from them.
ghost use Rattle.std.specs.Prelude.{◌≡◌, ◌≤◌, true, length, take};
ghost use Rattle.grid.specs.Grid.{samples, largest};
ghost use Rattle.grid.specs.Mark.{for_corner};
ghost use Rattle.grid.specs.Points.{is_corner};
ghost use Rattle.selection.specs.Error.{exceeding};
ghost use Rattle.selection.specs.Marks.{marks_of, marked_dependence};
ghost use Rattle.selection.specs.Inner.{Ready, Final, counted, byteful, added, Room};

use super::Selected;
use super::sweep::Sweep;
use grid::Grid;
use grid::marks::{Mark, filled};
use grid::refusals::Refusal;

fn mark_corners(grid: Grid, marks: &mut [u8])
    requires { length marks.old ≡ samples grid.m }
    ensures { Final grid.m (λ p. for_corner) (λ p. is_corner grid.m p ≡ true) marks.new }
{
    for p in grid.corners() {
        marks[grid.place(p)] = Mark::ForCorner as u8;
    }
}

// From the finest spacing to the coarsest.
pub(crate) fn mark_all(grid: Grid, limit: u32, survey: &[i16], heights: &[i16], marks: &mut [u8])
    requires { Ready grid limit survey.now heights.now × (length marks.old ≡ samples grid.m) }
    ensures { marks.new ≡ marks_of grid.m survey.now (exceeding grid.m survey.now limit) }
{
    mark_corners(grid, marks);
    for k in 0..grid.m {
        let sweep = Sweep {
            grid,
            survey,
            heights,
            limit,
            spacing: 1 << k,
        };
        sweep.mark_spacing(marks);
    }
}

fn is_for_dependence(mark: u8) -> bool
    ensures { result ≡ marked_dependence mark }
{
    mark == Mark::ForDependence as u8 || mark == Mark::VoidKept as u8
}

// How many marks are counted at a time: their number fits in a byte, so that many are looked at at once.
const BYTEFUL: usize = 240;

// What was counted before, and what is counted of a few marks.
fn count_on(sum: Selected, few: &[u8]) -> Selected
    requires { Room sum few.now }
    ensures { result ≡ added sum (counted few.now) }
{
    let mut own: u8 = 0;
    let mut dependent: u8 = 0;
    let mut voids: u8 = 0;
    for mark in few {
        own += u8::from(*mark == Mark::ForError as u8);
        dependent += u8::from(is_for_dependence(*mark));
        voids += u8::from(filled(*mark));
    }
    Selected {
        refusal: sum.refusal,
        own: sum.own + u32::from(own),
        dependent: sum.dependent + u32::from(dependent),
        voids: sum.voids + u32::from(voids),
    }
}

pub(crate) fn count(marks: &[u8]) -> Selected
    requires { length marks.now ≤ samples largest }
    ensures { result ≡ counted marks.now }
{
    let mut sum = Selected {
        refusal: Refusal::ACCEPTED,
        own: 0,
        dependent: 0,
        voids: 0,
    };
    for few in marks.chunks(BYTEFUL) {
        sum = count_on(sum, few);
    }
    sum
}
