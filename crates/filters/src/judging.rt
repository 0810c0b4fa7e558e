// What a filter owes.
ghost use Rattle.std.specs.Prelude.{◌≡◌, Bool, List};
ghost use Rattle.ladder.specs.declared.poses.Step.{Step};

use ladder::poses::Step;

// A filter means a yes or no for each list of steps. Judging answers it, and leaves the meaning as it was.
pub trait Filter {
    ghost passes: { Self → List Step → Bool };

    fn judge(&mut self, steps: &[Step]) -> bool
        ensures value { result ≡ passes self.old steps.now }
        ensures same { passes self.new ≡ passes self.old };
}
