// A filter by how often the shoulder turns back.
ghost use Rattle.std.specs.Prelude.{◌≡◌, ◌+◌, ◌^◌, ◌<◌, nat_le};
ghost use Rattle.filters.specs.Turning.{opposite, turned_back};
ghost use Rattle.filters.specs.Tallies.{gone_on};

use crate::judging::Filter;
use ladder::poses::Step;

// Passes the steps with at most this many reversals of the shoulder.
#[derive(Clone, Copy, PartialEq, Eq, Debug)]
pub struct TurnCount {
    pub limit: u16,
}

// The shoulder's count, its last turn if it has turned, and the reversals so far.
#[derive(Clone, Copy)]
struct Tally {
    shoulder: i16,
    turn: Option<i32>,
    reversals: usize,
}

// Whether one of two turns goes up and the other down.
fn opposes(a: i32, b: i32) -> bool
    ensures { result ≡ opposite a b }
{
    (a > 0 && b < 0) || (a < 0 && b > 0)
}

impl Tally {
    // The shoulder goes on to another count. A turn of 0 is dropped, and any other counts if it is opposite to the last.
    fn go_on(&mut self, shoulder: i16)
        requires { self.old.reversals + 1 < 2 ^ 64 }
        ensures { self.new ≡ gone_on self.old shoulder }
    {
        let turn = i32::from(shoulder) - i32::from(self.shoulder);
        self.shoulder = shoulder;
        if turn == 0 {
            return;
        }
        if self.turn.is_some_and(|last| opposes(last, turn)) {
            self.reversals += 1;
        }
        self.turn = Some(turn);
    }
}

// How often the shoulder turns back over the steps.
fn reversals(steps: &[Step]) -> usize
    ensures { result ≡ turned_back steps.now }
{
    let [first, rest @ ..] = steps else {
        return 0;
    };
    let mut tally = Tally {
        shoulder: first.pose.shoulder,
        turn: None,
        reversals: 0,
    };
    for step in rest {
        tally.go_on(step.pose.shoulder);
    }
    tally.reversals
}

impl Filter for TurnCount {
    ghost passes = { λ c steps. nat_le (turned_back steps) c.limit };

    fn judge(&mut self, steps: &[Step]) -> bool {
        reversals(steps) <= usize::from(self.limit)
    }
}
