// The eight sizes and what each holds.
ghost use Rattle.std.specs.Prelude.{◌≡◌, ◌≤◌};
ghost use Rattle.grid.specs.Grid.{largest};
ghost use Rattle.grid.specs.Sizes.{size_answer};

use super::Grid;
use super::refusals::Refusal;

// N, the samples, and the most triangles.
#[derive(Clone, Copy)]
pub struct Size {
    pub side: u32,
    pub samples: u32,
    pub triangles: u32,
}

const SIZES: [Size; 8] = [
    Size {
        side: 1,
        samples: 4,
        triangles: 2,
    },
    Size {
        side: 2,
        samples: 9,
        triangles: 8,
    },
    Size {
        side: 4,
        samples: 25,
        triangles: 32,
    },
    Size {
        side: 8,
        samples: 81,
        triangles: 128,
    },
    Size {
        side: 16,
        samples: 289,
        triangles: 512,
    },
    Size {
        side: 32,
        samples: 1089,
        triangles: 2048,
    },
    Size {
        side: 64,
        samples: 4225,
        triangles: 8192,
    },
    Size {
        side: 128,
        samples: 16641,
        triangles: 32768,
    },
];

// What size m holds, or that it is above the largest.
pub fn size_of(m: u32) -> Result<Size, Refusal>
    ensures { result ≡ size_answer m }
{
    if m <= Grid::LARGEST {
        Ok(SIZES[m as usize])
    } else {
        Err(Refusal::SizeAbove)
    }
}

// The grid of one of the eight sizes.
pub fn grid_of(m: u32) -> Grid
    requires { m ≤ largest }
    ensures { result.m ≡ m }
{
    Grid { m, side: 1u32 << m }
}
