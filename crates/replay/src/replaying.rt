// All calls.
ghost use Rattle.std.specs.Prelude.{◌≡◌, ◌<◌, map, length, take, drop, slice_set};
ghost use Rattle.book.specs.Runs.{Promised};
ghost use Rattle.replay.specs.Calls.{events, all_places};
ghost use Rattle.resolver.specs.Opening.{opened_over};

use crate::calls::{Answer, Call};
use crate::making::make;
use filters::Filter;
use ladder::poses::Step;
use ladder::rules::Cost;
use resolver::{LentTables, Resolver, Setup};
use sources::Source;

// Puts an element in its place. A function of its own, since the size of an answer depends on the cost: tried by index and by `iter_mut` in `replay`
// itself, and the proof did not close that the place in memory is in range.
fn put<T: Drop>(xs: &mut [T], i: usize, x: T)
    requires { i < length xs.old }
    ensures { xs.new ≡ slice_set xs.old i x }
{
    xs[i] = x;
}

// Makes the calls one after another on a new resolver, and answers how many were made: all, or those before the first that names a source or a
// filter that is not there, or for whose answer or output the record has no place left. The answers stand in `answers`, and the outputs, as each
// call left its own, one after another in `outputs`.
pub fn replay<'t, C: Cost, S: Source, F: Filter>(
    setup: Setup,
    tables: LentTables<'t, C>,
    calls: &[Call],
    sources: &mut [S],
    filters: &mut [F],
    answers: &mut [Answer<C>],
    outputs: &mut [Step],
) -> usize
    ensures made { result ≡ length
        (events (map S.Source.meaning sources.old) (map F.Filter.passes filters.old) calls.now answers.new outputs.old outputs.new) }
    ensures promise { Promised C.Cost.rules (opened_over setup tables.entry)
        (events (map S.Source.meaning sources.old) (map F.Filter.passes filters.old) calls.now answers.new outputs.old outputs.new) }
    ensures spared { (drop result answers.new ≡ drop result answers.old)
        × (drop (all_places (take result calls.now)) outputs.new ≡ drop (all_places (take result calls.now)) outputs.old) }
    ensures sources { map S.Source.meaning sources.new ≡ map S.Source.meaning sources.old }
    ensures filters { map F.Filter.passes filters.new ≡ map F.Filter.passes filters.old }
{
    let mut resolver = Resolver::open(setup, tables);
    // the places that calls before took; with the outputs split at each call the loop has a line more, and a slice to move on
    let mut used = 0;
    // answers go by number and not by `zip`: nothing is known of what is written through an adapter of `iter_mut`
    for (k, call) in calls.iter().enumerate() {
        if k >= answers.len() {
            return k;
        }
        let Some(answer) = make(&mut resolver, *call, sources, filters, &mut outputs[used..]) else {
            return k;
        };
        put(answers, k, answer);
        used += call.places();
    }
    calls.len()
}
