// The lines of a listing, by the calls of `Text` and not by `write!`: what that promises, `Text` says.
ghost use Rattle.std.specs.Prelude.{◌≡◌};
ghost use Rattle.listing.specs.declared.lines.Ending.TheVariants.{Unread, Refused};

use crate::printing::Printed;
use crate::text::Text;
use job::Fault;
use ladder::poses::Step;
use resolver::{Refusal, Taken};

const NEWLINE: u8 = b'\n';

// Why a listing ends: the file is refused, or a call of the resolver is.
#[derive(Clone, Copy, PartialEq, Eq, Debug)]
pub(crate) enum Ending {
    Unread(Fault),
    Refused(Refusal),
}

impl From<Fault> for Ending {
    ghost from_gives = { λ f e. e ≡ Unread f };

    fn from(fault: Fault) -> Ending {
        Ending::Unread(fault)
    }
}

impl From<Refusal> for Ending {
    ghost from_gives = { λ r e. e ≡ Refused r };

    fn from(refusal: Refusal) -> Ending {
        Ending::Refused(refusal)
    }
}

// A space and a number.
fn spaced(text: &mut Text, n: u64) {
    text.byte(b' ');
    text.number(n);
}

// The first line of a listing: the cost's letter and the rung count.
pub(crate) fn head_line<C: Printed>(text: &mut Text, rungs: usize) {
    text.byte(b'L');
    text.byte(b' ');
    text.byte(C::LETTER);
    spaced(text, rungs as u64);
    text.byte(NEWLINE);
}

// The line of a track: its number, its cost and its pose numbers.
pub(crate) fn track_line<C: Printed>(text: &mut Text, taken: Taken<C>, steps: &[Step]) {
    text.number(taken.number as u64);
    text.byte(b' ');
    taken.cost.print(text);
    for step in steps {
        spaced(text, step.number.0 as u64);
    }
    text.byte(NEWLINE);
}

// The last line of a listing.
pub(crate) fn last_line(text: &mut Text, ending: Ending) {
    text.byte(b'R');
    match ending {
        Ending::Unread(fault) => {
            spaced(text, fault.question.number() as u64);
            spaced(text, fault.place as u64);
        }
        Ending::Refused(refusal) => spaced(text, refusal.number() as u64),
    }
    text.byte(NEWLINE);
}
