// The sizes call and opening.
ghost use Rattle.std.specs.Prelude.{◌≡◌, ℕ};
ghost use Rattle.book.specs.Book.{sizing, new_book};
ghost use Rattle.resolver.specs.Answers.{size_answer};
ghost use Rattle.resolver.specs.Calls.{KeepsPromise};
ghost use Rattle.resolver.specs.Opening.{Roomy, opened_over};
ghost use Rattle.resolver.specs.Sound.{Sound};
ghost use Rattle.resolver.specs.Standing.{book};

use crate::answers::Refusal;
use crate::held::Resolver;
use crate::tables::Core;
use enumeration::{Candidate, Extent, Ranked, Station};
use ladder::poses::Limits;
use ladder::rules::Cost;

// What a resolver is opened with: the step limits, how many rungs it allows, and how many tracks may be taken.
#[derive(Clone, Copy, PartialEq, Eq, Debug)]
pub struct Setup {
    pub limits: Limits,
    pub rung_limit: usize,
    pub ration: usize,
}

// The three tables that a resolver is lent, flat: a host lends plain slices.
#[derive(Drop)]
pub struct LentTables<'t, C> {
    pub stations: &'t mut [Station],
    pub ranked: &'t mut [Ranked<C>],
    pub candidates: &'t mut [Candidate<C>],
}

// Whether a resolver can be opened for `rung_limit` rungs and `ration` tracks over tables of these lengths. It takes plain numbers: a host asks
// before it has tables to lend.
pub fn sizes(
    rung_limit: usize,
    ration: usize,
    stations: usize,
    ranked: usize,
    candidates: usize,
) -> Result<(), Refusal>
    ensures { size_answer {V = ℕ} result ≡ sizing rung_limit ration stations ranked candidates }
{
    if !(1..=128).contains(&rung_limit) || !(1..=4096).contains(&ration) {
        return Err(Refusal::OutOfRange);
    }
    if stations < 16 * rung_limit
        || ranked < 16 * rung_limit + ration * rung_limit
        || candidates < 256 * rung_limit
    {
        return Err(Refusal::ShortTable);
    }
    Ok(())
}

impl Setup {
    // What a resolver over these tables works with: the setup itself, or a rung limit of 0 and a ration of 1 where the sizes call refuses it.
    fn fitted<C>(self, tables: &LentTables<C>) -> Setup
        ensures roomy { Roomy result tables.now }
        ensures opens { opened_over self tables.now ≡ new_book result.limits result.rung_limit result.ration }
    {
        match sizes(
            self.rung_limit,
            self.ration,
            tables.stations.len(),
            tables.ranked.len(),
            tables.candidates.len(),
        ) {
            Ok(()) => self,
            Err(_) => Setup {
                rung_limit: 0,
                ration: 1,
                ..self
            },
        }
    }
}

impl<'t, C: Cost> Resolver<'t, C> {
    // A new resolver over tables that are its own from now on: no rung, open, nothing taken. Numbers and tables that the sizes call refuses
    // give one that allows no rung. Whatever calls are then made on it, in any order, keep what is promised of a run from that book.
    pub fn open(setup: Setup, tables: LentTables<'t, C>) -> Resolver<'t, C>
        ensures sound { Sound C.Cost.rules result.core }
        ensures opens { book result.core ≡ opened_over setup tables.entry }
        ensures promise { KeepsPromise C.Cost.rules (opened_over setup tables.entry) result.core }
    {
        let setup = setup.fitted(&tables);
        let core = Core {
            stations: tables.stations,
            ranked: tables.ranked,
            candidates: tables.candidates,
            extents: [Extent::default(); 128],
            limits: setup.limits,
            rung_limit: setup.rung_limit,
            ration: setup.ration,
            rungs: 0,
            closed: false,
            taken: 0,
            counts: [0; 16],
            recent: None,
        };
        Resolver { core }
    }
}
