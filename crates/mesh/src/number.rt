// How many triangles a closed set has.
ghost use Rattle.std.specs.Prelude.{◌≡◌, cond, ◌+◌, ◌*◌, ◌≤◌, ◌<◌, length, count_by};
ghost use Rattle.grid.specs.Grid.{side, widest};
ghost use Rattle.grid.specs.Inner.{keeps};
ghost use Rattle.mesh.specs.Triangles.{number};
ghost use Rattle.mesh.specs.Kept.{kept_in};
ghost use Rattle.mesh.specs.Inner.{kept_once, kept_between_ends};

use super::good::GoodMarks;
use grid::marks::keeps;

fn one_if_kept(mark: u8) -> u8
    ensures { result ≡ cond (keeps mark) 1 0 }
{
    u8::from(keeps(mark))
}

// Of at most a row's marks, how many keep their point. Their number fits in a byte, so many are counted at once.
fn kept_of(marks: &[u8]) -> u8
    requires { length marks.now ≤ widest }
    ensures { result ≡ count_by keeps marks.now }
{
    marks.iter().map(|mark| one_if_kept(*mark)).sum()
}

impl GoodMarks<'_> {
    fn between_ends(&self, at: usize) -> u32
        requires { at + side self.now.grid.m < length self.now.bytes.now }
        ensures { result ≡ kept_between_ends self.now.bytes.now at (side self.now.grid.m) }
    {
        let n = self.grid.side as usize;
        u32::from(kept_of(&self.bytes[at + 1..at + n]))
    }

    // In a row that is not outermost the ends are border points. Counted with the west end their number is a power of two, which leaves no rest.
    fn inner_row(&self, at: usize) -> u32
        requires { at + side self.now.grid.m < length self.now.bytes.now }
        ensures { result ≡ kept_once self.now.bytes.now at + kept_once self.now.bytes.now (at + side self.now.grid.m) + 2 * kept_between_ends self.now.bytes.now at (side self.now.grid.m) }
    {
        let n = self.grid.side as usize;
        let west = u32::from(one_if_kept(self.bytes[at]));
        let east = u32::from(one_if_kept(self.bytes[at + n]));
        2 * u32::from(kept_of(&self.bytes[at..at + n])) + east - west
    }

    // Row by row: a kept point inside counts twice, a border point once, a grid corner not at all.
    pub(crate) fn number(&self) -> u32
        ensures { result ≡ number self.now.grid.m (kept_in self.now) }
    {
        let n = self.grid.side as usize;
        let row = n + 1;
        let north = n * row;
        let mut triangles = 2 + self.between_ends(0) + self.between_ends(north);
        for at in (row..north).step_by(row) {
            triangles += self.inner_row(at);
        }
        triangles
    }
}
