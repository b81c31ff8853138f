// The static library for C, which include/mosskirtle.h declares: each call hands over to head's call of its name, and makes its promise.
#![tactic(auto)]

ghost use Rattle.selection.specs.Selected.{AnswersSelect, handed as surveying};
ghost use Rattle.mesh.specs.Meshed.{Meshes, handed as drawing};
ghost use Rattle.strip.specs.Stripped.{Strips};
ghost use Rattle.aim.specs.Aimed.{AnswersPlane, handed as asking};
ghost use Rattle.head.specs.Crossing.{Crosses};

use aim::PlaneAnswer;
use head::Crossed;
use mesh::Meshed;
use selection::Selected;
use strip::Stripped;

// Each stays a call beside head's: a crate is a library or a static library, and what C links to must be exported here.

#[unsafe(no_mangle)]
pub extern "C" fn mosskirtle_select(
    survey: &[i16],
    m: u32,
    tolerance: u32,
    marks: &mut [u8],
    heights: &mut [i16],
) -> Selected
    ensures { AnswersSelect (surveying survey.now m tolerance marks.old heights.old) result marks.new heights.new }
{
    head::mosskirtle_select(survey, m, tolerance, marks, heights)
}

#[unsafe(no_mangle)]
pub extern "C" fn mosskirtle_triangles(marks: &[u8], m: u32, places: &mut [u16]) -> Meshed
    ensures { Meshes (drawing marks.now m places.old) result places.new }
{
    head::mosskirtle_triangles(marks, m, places)
}

#[unsafe(no_mangle)]
pub extern "C" fn mosskirtle_strip(marks: &[u8], m: u32, places: &mut [u16]) -> Stripped
    ensures { Strips (drawing marks.now m places.old) result places.new }
{
    head::mosskirtle_strip(marks, m, places)
}

#[unsafe(no_mangle)]
pub extern "C" fn mosskirtle_height(
    marks: &[u8],
    heights: &[i16],
    m: u32,
    x: u32,
    y: u32,
) -> Crossed
    ensures { Crosses (asking marks.now heights.now m x y) result }
{
    head::mosskirtle_height(marks, heights, m, x, y)
}

#[unsafe(no_mangle)]
pub extern "C" fn mosskirtle_plane(
    marks: &[u8],
    heights: &[i16],
    m: u32,
    x: u32,
    y: u32,
) -> PlaneAnswer
    ensures { AnswersPlane (asking marks.now heights.now m x y) result }
{
    head::mosskirtle_plane(marks, heights, m, x, y)
}
