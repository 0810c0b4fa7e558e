// A filter by the counts that each joint may have.
ghost use Rattle.std.specs.Prelude.{◌≡◌, ◌≤ℤ◌};
ghost use Rattle.filters.specs.Envelopes.{within, both_within, keeps_within, refusal_number, made, due};

use crate::judging::Filter;
use ladder::poses::{Pose, Step};

// The lowest and the highest count that a joint may have, both counted in.
#[derive(Clone, Copy, PartialEq, Eq, Debug)]
pub struct Span {
    pub low: i16,
    pub high: i16,
}

impl Span {
    // Whether a count lies within the span.
    pub fn holds(self, count: i16) -> bool
        ensures { result ≡ within self count }
    {
        (self.low..=self.high).contains(&count)
    }
}

// Why an envelope is not made: a low end lies above its high end.
#[derive(Clone, Copy, PartialEq, Eq, Debug)]
pub enum Refusal {
    LowAboveHigh = 16,
}

impl Refusal {
    // The number by which a refusal is reported. Each crate numbers its own; a trait for one cast would be no plainer.
    pub fn number(self) -> u8
        ensures { result ≡ refusal_number self }
    {
        self as u8
    }
}

// Passes the steps whose shoulders and elbows all lie within their spans. No span runs backward.
#[derive(Clone, Copy, PartialEq, Eq, Debug)]
pub struct Envelope {
    shoulder: Span,
    elbow: Span,
    ghost shoulder_forward: { shoulder.low ≤ℤ shoulder.high },
    ghost elbow_forward: { elbow.low ≤ℤ elbow.high },
}

impl Envelope {
    // The envelope of two spans, or a refusal where one runs backward.
    pub fn new(shoulder: Span, elbow: Span) -> Result<Envelope, Refusal>
        ensures { made (λ e. (e.shoulder, e.elbow)) result ≡ due shoulder elbow }
    {
        if shoulder.low > shoulder.high || elbow.low > elbow.high {
            return Err(Refusal::LowAboveHigh);
        }
        Ok(Envelope { shoulder, elbow })
    }

    // Whether both joints of a pose lie within their spans.
    pub fn holds(&self, pose: Pose) -> bool
        ensures { result ≡ both_within self.now.shoulder self.now.elbow pose }
    {
        self.shoulder.holds(pose.shoulder) && self.elbow.holds(pose.elbow)
    }
}

// Whether the poses of all steps lie within an envelope.
fn all_within(envelope: &Envelope, steps: &[Step]) -> bool
    ensures { result ≡ keeps_within envelope.now.shoulder envelope.now.elbow steps.now }
{
    steps.iter().all(|step| envelope.holds(step.pose))
}

impl Filter for Envelope {
    ghost passes = { λ e. keeps_within e.shoulder e.elbow };

    fn judge(&mut self, steps: &[Step]) -> bool {
        all_within(self, steps)
    }
}
