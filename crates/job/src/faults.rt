ghost use Rattle.std.specs.Prelude.{◌≡◌};
ghost use Rattle.job.specs.Questions.{number};

// What the reader asks of a file; a no refuses the file.
#[derive(Clone, Copy, PartialEq, Eq, Debug)]
pub enum Question {
    // Does the file start with its letters?
    Letters = 11,
    // Has a map no bit above its highest named one?
    Map = 12,
    // Is the whole field there?
    Whole = 13,
    // Is the value in range?
    Range = 14,
    // Does the file end after the last record?
    End = 15,
}

impl Question {
    // The number by which a refusal is reported. Each crate numbers its own; a trait for one cast would be no plainer.
    pub fn number(self) -> u8
        ensures { result ≡ number self }
    {
        self as u8
    }
}

// A refusal: the question that got a no, and the place in the file at which it was put.
#[derive(Clone, Copy, PartialEq, Eq, Debug)]
pub struct Fault {
    pub question: Question,
    pub place: usize,
}
