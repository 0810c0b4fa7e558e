// A call as a plain value, and what it answers.
ghost use Rattle.std.specs.Prelude.{◌≡◌};
ghost use Rattle.replay.specs.Calls.{places, told};
ghost use Rattle.resolver.specs.Answers.{count_answer};

use resolver::{Refusal, Taken};

// A call. It is plain data, as the promise of a run speaks of it, so sources and filters go by their numbers; a call for a track brings an output of its
// own with so many places.
#[derive(Clone, Copy, PartialEq, Eq, Debug)]
pub enum Call {
    Add { source: usize, waypoint: u16 },
    Close,
    Next { places: usize },
    Seek { filter: usize, places: usize },
}

impl Call {
    // How many output places the call brings.
    pub fn places(self) -> usize
        ensures { result ≡ places self }
    {
        match self {
            Call::Add { .. } | Call::Close => 0,
            Call::Next { places } | Call::Seek { places, .. } => places,
        }
    }
}

// What a call that was not refused answers: the rung count, or a track.
#[derive(Clone, Copy, PartialEq, Eq, Debug)]
pub enum Reply<C> {
    Counted(usize),
    Given(Taken<C>),
}

// What a call answers: its reply, or the question that got a no.
pub type Answer<C> = Result<Reply<C>, Refusal>;

// The answer of adding and closing. Not `map(Reply::Counted)`: the check takes no function whose result names a cost that its argument does not.
pub(crate) fn counted<C>(res: Result<usize, Refusal>) -> Answer<C>
    ensures { told result ≡ count_answer res }
{
    Ok(Reply::Counted(res?))
}
