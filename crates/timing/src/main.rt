// Takes all tracks of the job on standard input, up to its ration, under travel, and prints how many there are and what the last one costs: a
// program to measure the resolver with.
#![tactic(auto)]

use anyhow::bail;
use enumeration::{Candidate, Ranked, Station};
use job::{Job, read};
use ladder::costs::Travel;
use ladder::poses::Step;
use ladder::rules::Cost;
use resolver::{LentTables, Resolver, Setup};
use sources::Tabled;
use std::io::Read;

// How many rungs a ladder has at most.
const RUNGS: usize = 128;

// One byte more than the longest lawful job has.
const MOST: u64 = 41748;

// Takes tracks until one is refused; answers how many were taken, and the total of the last.
fn take_all(resolver: &mut Resolver<Travel>, rungs: usize) -> (usize, u32) {
    let mut steps = [Step::default(); RUNGS];
    let mut count = 0;
    let mut last = 0;
    while let Ok(taken) = resolver.next(&mut steps[..rungs.min(RUNGS)]) {
        count = taken.number;
        last = taken.cost.total;
    }
    (count, last)
}

// Adds the waypoints of the job whose file this is, closes, and takes all tracks.
fn list(file: &[u8], job: &Job, tables: LentTables<Travel>) -> anyhow::Result<(usize, u32)> {
    let setup = Setup {
        limits: job.limits(),
        rung_limit: RUNGS,
        ration: job.ration() as usize,
    };
    let mut resolver = Resolver::open(setup, tables);
    let mut source = Tabled::new(file);
    for w in 0..job.len() {
        if let Err(refusal) = resolver.add(&mut source, w) {
            bail!("waypoint {w} is refused: {}", refusal.number());
        }
    }
    let Ok(rungs) = resolver.close() else {
        bail!("the ladder is closed already");
    };
    Ok(take_all(&mut resolver, rungs))
}

fn run(rt: &HostRuntime) -> anyhow::Result<()> {
    let alloc = rt.alloc();
    let mut file = Vec::new(alloc);
    rt.stdin().take(MOST).read_to_end(&mut file)?;
    let Ok(job) = read(file.as_slice()) else {
        bail!("no job");
    };
    let ration = job.ration() as usize;
    let mut stations = vec![in alloc; Station::blank(); 16 * RUNGS]?;
    let mut ranked = vec![in alloc; Ranked::blank(Travel::zero()); (16 + ration) * RUNGS]?;
    let mut candidates = vec![in alloc; Candidate::blank(Travel::zero()); 256 * RUNGS]?;
    let tables = LentTables {
        stations: &mut stations,
        ranked: &mut ranked,
        candidates: &mut candidates,
    };
    let (count, last) = list(file.as_slice(), &job, tables)?;
    println!(rt; "{count} {last}")?;
    Ok(())
}

fn main(rt: HostRuntime) -> anyhow::Result<()> {
    run(&rt)
}
