// Selection: the points kept within a tolerance, their marks, and the counts.
#![tactic(auto)]

mod error;
mod kept;
mod marks;
mod sweep;

ghost use Rattle.std.specs.Prelude.{◌≡◌, ◌&&◌, length, ◌==◌};
ghost use Rattle.grid.specs.Grid.{Inside, samples, is_void};
ghost use Rattle.survey.specs.Filled.{sample};
ghost use Rattle.selection.specs.Selected.{corner_void, handed, AnswersSelect};
ghost use Rattle.selection.specs.Inner.{Judged};

use grid::Grid;
use grid::points::Point;
use grid::refusals::Refusal;
use grid::sizes::{grid_of, size_of};
use marks::{count, mark_all};

// C gets this struct as it stands: the refusal stays a number, 0 for none, with the counts beside it.
#[repr(C)]
#[derive(Clone, Copy)]
pub struct Selected {
    pub refusal: u32,
    pub own: u32,
    pub dependent: u32,
    pub voids: u32,
}

impl From<Refusal> for Selected {
    ghost use Rattle.grid.specs.Refusal.{number};
    ghost use Rattle.selection.specs.Selected.{turned_down};

    ghost from_gives = { λ refusal r. r ≡ turned_down (number refusal) };

    fn from(refusal: Refusal) -> Selected {
        Selected {
            refusal: u32::from(refusal),
            own: 0,
            dependent: 0,
            voids: 0,
        }
    }
}

// The largest tolerance.
const HIGHEST_TOLERANCE: u32 = 65535;

// The two facts stay a `requires`: only the four looks at the grid corners ask for them, before the call is accepted.
#[tactic(auto, using(grid::proofs::OnGrid::room, survey::proofs::Reading::read))]
fn void_at(g: Grid, p: Point, survey: &[i16]) -> bool
    requires { Inside g.m p × (length survey.now ≡ samples g.m) }
    ensures { result ≡ is_void (sample g.m survey.now p) }
{
    Grid::is_void(survey[g.place(p)])
}

fn corner_void(g: Grid, survey: &[i16]) -> bool
    requires { length survey.now ≡ samples g.m }
    ensures { result ≡ corner_void g.m survey.now }
{
    g.corners().iter().any(|p| void_at(g, *p, survey))
}

fn right_lengths(samples: usize, survey: &[i16], marks: &[u8], heights: &[i16]) -> bool
    ensures { result ≡ (length survey.now == samples && (length marks.now == samples && length heights.now == samples)) }
{
    survey.len() == samples && marks.len() == samples && heights.len() == samples
}

// The grid to be thinned, or the first case that turns the call down.
fn grid_to_thin(
    survey: &[i16],
    m: u32,
    tolerance: u32,
    marks: &[u8],
    heights: &[i16],
) -> Result<Grid, Refusal>
    ensures { Judged (handed survey.now m tolerance marks.now heights.now) result }
{
    let size = size_of(m)?;
    if !right_lengths(size.samples as usize, survey, marks, heights) {
        return Err(Refusal::WrongLength);
    }
    if HIGHEST_TOLERANCE < tolerance {
        return Err(Refusal::ToleranceAbove);
    }
    let g = grid_of(m);
    if corner_void(g, survey) {
        return Err(Refusal::VoidCorner);
    }
    Ok(g)
}

pub fn select(
    survey: &[i16],
    m: u32,
    tolerance: u32,
    marks: &mut [u8],
    heights: &mut [i16],
) -> Selected
    ensures { AnswersSelect (handed survey.now m tolerance marks.old heights.old) result marks.new heights.new }
{
    match grid_to_thin(survey, m, tolerance, marks, heights) {
        Err(refusal) => Selected::from(refusal),
        Ok(grid) => {
            survey::fill(survey, grid, heights);
            mark_all(grid, 2 * tolerance, survey, heights, marks);
            count(marks)
        }
    }
}
