// Costs that can be printed.
ghost use Rattle.std.specs.Prelude.{◌≡◌, ℕ, List, decimal};
ghost use Rattle.listing.specs.Text.{Wrote};

use crate::text::Text;
use ladder::costs::Travel;
use ladder::rules::Cost;

// A cost with a text of its own; a lawful cost owes none. Not `Display`, whose writing may fail: see `Text`.
pub trait Printed: Cost {
    ghost shown: { Self → List ℕ };

    // Writes the text of the cost.
    fn print(self, text: &mut Text)
        ensures { Wrote (shown self) text.old text.new };
}

impl Printed for Travel {
    ghost shown = { λ c. decimal c.total };

    fn print(self, text: &mut Text) {
        text.number(self.total as u64);
    }
}
