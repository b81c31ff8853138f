// The calls of C, which include/mosskirtle.h declares: each hands over to the call that it is named after, and makes its promise.
#![tactic(auto)]

ghost use Rattle.selection.specs.Selected.{AnswersSelect, handed as surveying};
ghost use Rattle.mesh.specs.Meshed.{Meshes, handed as drawing};
ghost use Rattle.strip.specs.Stripped.{Strips};
ghost use Rattle.aim.specs.Aimed.{AnswersPlane, handed as asking};
ghost use Rattle.head.specs.Crossing.{Crosses};

use aim::{HeightAnswer, PlaneAnswer};
use mesh::Meshed;
use selection::Selected;
use strip::Stripped;

// A height as it crosses to C, which has no enum with values: the number of its kind, and bits.
#[repr(C)]
#[derive(Clone, Copy)]
pub struct Crossed {
    pub kind: u32,
    pub bits: u32,
}

// A refusal, with its number as the bits, or a surveyed or a filled height, with the f32's bits.
enum Kind {
    Refused = 0,
    Surveyed = 1,
    Filled = 2,
}

#[unsafe(no_mangle)]
pub extern "C" fn mosskirtle_select(
    survey: &[i16],
    m: u32,
    tolerance: u32,
    marks: &mut [u8],
    heights: &mut [i16],
) -> Selected
    ensures { AnswersSelect (surveying survey.now m tolerance marks.old heights.old) result marks.new heights.new }
{
    selection::select(survey, m, tolerance, marks, heights)
}

#[unsafe(no_mangle)]
pub extern "C" fn mosskirtle_triangles(marks: &[u8], m: u32, places: &mut [u16]) -> Meshed
    ensures { Meshes (drawing marks.now m places.old) result places.new }
{
    mesh::triangles(marks, m, places)
}

#[unsafe(no_mangle)]
pub extern "C" fn mosskirtle_strip(marks: &[u8], m: u32, places: &mut [u16]) -> Stripped
    ensures { Strips (drawing marks.now m places.old) result places.new }
{
    strip::strip(marks, m, places)
}

#[unsafe(no_mangle)]
pub extern "C" fn mosskirtle_height(
    marks: &[u8],
    heights: &[i16],
    m: u32,
    x: u32,
    y: u32,
) -> Crossed
    ensures { Crosses (asking marks.now heights.now m x y) result }
{
    // Stays a match, no `From`: that may ask nothing of its caller, and a float that is a NaN has no bits.
    match aim::height(marks, heights, m, x, y) {
        HeightAnswer::Surveyed(height) => Crossed {
            kind: Kind::Surveyed as u32,
            bits: height.to_bits(),
        },
        HeightAnswer::Filled(height) => Crossed {
            kind: Kind::Filled as u32,
            bits: height.to_bits(),
        },
        HeightAnswer::Refused(number) => Crossed {
            kind: Kind::Refused as u32,
            bits: number,
        },
    }
}

#[unsafe(no_mangle)]
pub extern "C" fn mosskirtle_plane(
    marks: &[u8],
    heights: &[i16],
    m: u32,
    x: u32,
    y: u32,
) -> PlaneAnswer
    ensures { AnswersPlane (asking marks.now heights.now m x y) result }
{
    aim::plane(marks, heights, m, x, y)
}
