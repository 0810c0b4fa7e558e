// Which poses bring the end of an arm to a position.
ghost use Rattle.std.specs.Prelude.{◌≡◌, ◌^◌, ◌<◌, pos, ◌*ℤ◌, unsigned_abs};
ghost use Rattle.sources.specs.Reach.{near, reaching_pose};

use crate::directions::{cosine_of, sine_of};
use job::{Arm, Position};

// The product of a link's length and a coordinate of its direction.
fn scaled(link: u16, part: i32) -> i64
    ensures value { result ≡ pos link *ℤ part }
    ensures bound { unsigned_abs result < 2 ^ 48 }
{
    i64::from(link) * i64::from(part)
}

// Whether one coordinate of the arm's end lies in the window around x, by those of its two links' directions.
fn is_near(arm: Arm, first: i32, second: i32, x: i16) -> bool
    ensures { result ≡ near arm first second x }
{
    let end = scaled(arm.first, first) + scaled(arm.second, second);
    end.abs_diff(10_000 * i64::from(x)) <= 10_000 * u64::from(arm.window)
}

// Whether shoulder s and elbow e bring the arm's end into the window around a position.
pub fn reaches(arm: Arm, at: Position, s: u8, e: u8) -> bool
    ensures { result ≡ reaching_pose arm at s e }
{
    let first = s as u16;
    let second = first + e as u16;
    is_near(arm, cosine_of(first), cosine_of(second), at.x)
        && is_near(arm, sine_of(first), sine_of(second), at.y)
}
