// Aim: the height and the ground plane at a point, by the triangle in which a walk down the cuts ends.
#![tactic(auto)]

mod ground;
mod quotient;
pub mod walk;

ghost use Rattle.std.specs.Prelude.{◌≡◌, Ok};
ghost use Rattle.aim.specs.Aimed.{handed, AnswersHeight, AnswersPlane};
ghost use Rattle.aim.specs.Found.{Found};
ghost use Rattle.aim.specs.Inner.{void_in, last_refusal, Stands, Stored};

use grid::refusals::Refusal;
use grid::sizes::{grid_of, size_of};
use ground::Landing;
use mesh::good::corners_good;
use walk::{Reached, start, walk};

// The rules name this form, with the refusal's number: so it stays, and is no `Result`.
#[derive(Clone, Copy)]
pub enum HeightAnswer {
    Surveyed(f32),
    Filled(f32),
    Refused(u32),
}

// In units, and units per cell.
#[repr(C)]
#[derive(Clone, Copy)]
pub struct GroundPlane {
    pub height: f32,
    pub east: f32,
    pub north: f32,
}

// The rules name this form, too, and C gets it as it stands.
#[repr(C)]
#[derive(Clone, Copy)]
pub struct PlaneAnswer {
    pub refusal: u32,
    pub ground: GroundPlane,
}

// A grid corner's mark that isn't good comes before a void corner of the final triangle.
fn last_refusal(good: bool, end: &Reached, heights: &[i16]) -> Result<(), Refusal>
    requires { Stands heights.now end.now }
    ensures is { result ≡ last_refusal good (void_in heights.now end.now) }
    ensures stored { result ≡ Ok tt → Stored heights.now end.now }
{
    if !good {
        return Err(Refusal::BadMark);
    }
    if end.has_void(heights) {
        return Err(Refusal::VoidCorner);
    }
    Ok(())
}

// Where the walk ends, or the first refusal: all that both calls are handed, from here on in one value.
// Inlined, since apart from its callers it takes 408 instructions a height on a full grid, and not 377.
#[inline(always)]
fn reach<'a>(
    marks: &'a [u8],
    heights: &'a [i16],
    m: u32,
    x: u32,
    y: u32,
) -> Result<Landing<'a>, Refusal>
    ensures { Found (handed marks.now heights.now m x y) result }
{
    let samples = size_of(m)?.samples as usize;
    if marks.len() != samples || heights.len() != samples {
        return Err(Refusal::WrongLength);
    }
    let grid = grid_of(m);
    let most = grid.in_quarters();
    if most < x || most < y {
        return Err(Refusal::PointBeyond);
    }
    // Looked at here and asked below: asked before the walk a height takes 423 instructions, and not 377, since the loop then spills.
    let good = corners_good(grid, marks);
    let end = walk(marks, start(grid, x, y))?;
    last_refusal(good, &end, heights)?;
    Ok(Landing {
        grid,
        marks,
        heights,
        end,
    })
}

pub fn height(marks: &[u8], heights: &[i16], m: u32, x: u32, y: u32) -> HeightAnswer
    ensures { AnswersHeight (handed marks.now heights.now m x y) result }
{
    match reach(marks, heights, m, x, y) {
        Ok(landing) => {
            let height = landing.height();
            if landing.filled() {
                HeightAnswer::Filled(height)
            } else {
                HeightAnswer::Surveyed(height)
            }
        }
        Err(refusal) => HeightAnswer::Refused(u32::from(refusal)),
    }
}

pub fn plane(marks: &[u8], heights: &[i16], m: u32, x: u32, y: u32) -> PlaneAnswer
    ensures { AnswersPlane (handed marks.now heights.now m x y) result }
{
    match reach(marks, heights, m, x, y) {
        Ok(landing) => PlaneAnswer {
            refusal: Refusal::ACCEPTED,
            ground: landing.ground(),
        },
        Err(refusal) => PlaneAnswer {
            refusal: u32::from(refusal),
            ground: GroundPlane {
                height: 0.0,
                east: 0.0,
                north: 0.0,
            },
        },
    }
}
