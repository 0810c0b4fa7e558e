// The listing of a job.
use crate::lines::{Ending, head_line, last_line, track_line};
use crate::printing::Printed;
use crate::text::Text;
use enumeration::{Candidate, Ranked, Station};
use ladder::costs::Travel;
use ladder::poses::Step;
use ladder::rules::Cost;
use resolver::{LentTables, Refusal, Resolver, Setup};
use sources::{Armed, Source, Tabled};
use std::convert::Infallible;

// How many rungs and how many tracks a listing has at most.
const RUNGS: usize = 8;

const TRACKS: u16 = 64;

// How many places the tables have: 16 stations for a rung, 16 + 64 ranked places, and 256 candidates.
const STATIONS: usize = 16 * RUNGS;

const RANKED: usize = (16 + TRACKS as usize) * RUNGS;

const CANDIDATES: usize = 256 * RUNGS;

// Adds the waypoints 0 to n - 1.
fn add_all<C: Printed, S: Source>(
    resolver: &mut Resolver<C>,
    source: &mut S,
    n: u16,
) -> Result<(), Refusal> {
    for w in 0..n {
        resolver.add(source, w)?;
    }
    Ok(())
}

// Adds them with the poses by which the file's arm reaches. A function for each source, so that a listing makes place for the one that it asks alone.
fn add_reached<C: Printed>(resolver: &mut Resolver<C>, file: &[u8], n: u16) -> Result<(), Refusal> {
    add_all(resolver, &mut Armed::new(file), n)
}

// Adds them with the file's pose lists.
fn add_listed<C: Printed>(resolver: &mut Resolver<C>, file: &[u8], n: u16) -> Result<(), Refusal> {
    add_all(resolver, &mut Tabled::new(file), n)
}

// A line for each track of the list, up to the refusal that ends it; `steps` has a place for each rung.
fn list_tracks<C: Printed>(
    resolver: &mut Resolver<C>,
    steps: &mut [Step],
    text: &mut Text,
) -> Result<Infallible, Refusal> {
    loop {
        let taken = resolver.next(steps)?;
        track_line(text, taken, steps);
    }
}

// The listing of a resolver whose waypoints are added, up to the refusal that ends it. A resolver and a text go together here and in `list_tracks`
// alone: a struct of the two would be a type more, with no fact of its own.
fn list_closed<C: Printed>(
    resolver: &mut Resolver<C>,
    text: &mut Text,
) -> Result<Infallible, Refusal> {
    let rungs = resolver.close()?;
    head_line::<C>(text, rungs);
    let mut steps = [Step::default(); RUNGS];
    list_tracks(resolver, &mut steps[..rungs.min(RUNGS)], text)
}

// The listing of a job file, up to what ends it.
fn list_file<C: Printed>(
    file: &[u8],
    tables: LentTables<C>,
    text: &mut Text,
) -> Result<Infallible, Ending> {
    // not `?`, which makes place for a second job
    let job = match job::read(file) {
        Ok(job) => job,
        Err(fault) => return Err(Ending::from(fault)),
    };
    let setup = Setup {
        limits: job.limits(),
        rung_limit: RUNGS,
        ration: job.ration().min(TRACKS) as usize,
    };
    let mut resolver = Resolver::open(setup, tables);
    if job.arm().is_some() {
        add_reached(&mut resolver, file, job.len())?;
    } else {
        add_listed(&mut resolver, file, job.len())?;
    }
    Ok(list_closed(&mut resolver, text)?)
}

// Writes the listing of a job file under any cost, over tables for 8 rungs and 64 tracks; answers how many bytes it has. What does not fit
// into `out` is left out.
pub fn write_listing<C: Printed>(file: &[u8], tables: LentTables<C>, out: &mut [u8]) -> usize {
    let mut text = Text::over(out);
    let Err(ending) = list_file(file, tables, &mut text);
    last_line(&mut text, ending);
    text.len()
}

// Writes the listing of a job file under travel into the first places of `out`, for which 2,500 are enough; answers how many bytes it has.
pub fn list(file: &[u8], out: &mut [u8; 2500]) -> usize {
    // arrays on the stack: nothing here allocates
    let mut stations = [Station::blank(); STATIONS];
    let mut ranked = [Ranked::blank(Travel::zero()); RANKED];
    let mut candidates = [Candidate::blank(Travel::zero()); CANDIDATES];
    let tables = LentTables {
        stations: &mut stations,
        ranked: &mut ranked,
        candidates: &mut candidates,
    };
    write_listing(file, tables, out)
}
