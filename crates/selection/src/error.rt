// The own doubled error of a point.
ghost use Rattle.std.specs.Prelude.{◌≡◌, ◌≤◌, nat_lt};
ghost use Rattle.selection.specs.Error.{doubled_error};
ghost use Rattle.selection.specs.Inner.{farthest};

use std::num::wrapping_sub_u32;

// No own doubled error lies farther from 0.
const FARTHEST: u32 = 131072;

// The own doubled error of a height h between its ends' heights a and b. Within the limit, error and limit together are from 0 to
// twice the limit, and below 0 they wrap to far more: so one test is enough.
pub(crate) fn exceeds(limit: u32, h: i16, a: i16, b: i16) -> bool
    requires { limit ≤ farthest }
    ensures { result ≡ nat_lt limit (doubled_error h a b) }
{
    let error = 2 * i32::from(h) - (i32::from(a) + i32::from(b));
    let raised = (error + (FARTHEST as i32)) as u32;
    let together = wrapping_sub_u32(raised, FARTHEST - limit);
    2 * limit < together
}
