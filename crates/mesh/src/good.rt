// Whether the marks are good.
ghost use Rattle.std.specs.Prelude.{◌≡◌, true, false, ◌&&◌, length, fold};
ghost use Rattle.grid.specs.Grid.{Inside, samples, corners};
ghost use Rattle.grid.specs.Mark.{good_mark};
ghost use Rattle.selection.specs.Marks.{mark_at};
ghost use Rattle.mesh.specs.Closed.{every, good_marks};
ghost use Rattle.mesh.specs.Inner.{Plain};

use grid::Grid;
use grid::marks::{Marks, good};
use grid::points::Point;

// A grid's marks, of each of which one test tells whether it keeps its point, as of good ones. It holds what `Marks` holds, and not that itself,
// so that clauses say grid and bytes in one step.
#[derive(Clone, Copy)]
pub(crate) struct GoodMarks<'a> {
    pub(crate) grid: Grid,
    pub(crate) bytes: &'a [u8],
    ghost whole: { length bytes.now ≡ samples grid.m },
    ghost plain: { Plain bytes.now },
}

fn corner_good(marks: &Marks, p: Point) -> bool
    requires { Inside marks.now.grid.m p }
    ensures { result ≡ good_mark true (mark_at marks.now.grid.m marks.now.bytes.now p) }
{
    good(true, marks.at(p))
}

pub fn corners_good(g: Grid, marks: &[u8]) -> bool
    requires { length marks.now ≡ samples g.m }
    ensures { result ≡ every (λ p. good_mark true (mark_at g.m marks.now p)) (corners g.m) }
{
    let marks = Marks {
        grid: g,
        bytes: marks,
    };
    g.corners().iter().all(|p| corner_good(&marks, *p))
}

// No early way out, so that the compiler can look at many marks at once.
fn inner_good(marks: &[u8]) -> bool
    ensures { result ≡ fold (λ all mark. all && good_mark false mark) true marks.now }
{
    marks
        .iter()
        .fold(true, |all, mark| all & good(false, *mark))
}

// Between the grid corners lie the south border, the rows between the borders, and the north border.
pub(crate) fn good_marks(g: Grid, marks: &[u8]) -> bool
    requires { length marks.now ≡ samples g.m }
    ensures { result ≡ good_marks g.m marks.now }
{
    let se = g.side as usize;
    let nw = se * (se + 1);
    corners_good(g, marks)
        && inner_good(&marks[1..se])
        && inner_good(&marks[se + 1..nw])
        && inner_good(&marks[nw + 1..nw + se])
}
