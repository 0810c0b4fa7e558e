// Reads a job file from standard input and prints its tracks, cheapest first.
#![tactic(auto)]

use listing::list;
use std::io::Read;

// One byte more than the longest lawful job has: what follows is refused as left over, so it need not be read.
const MOST: u64 = 41748;

fn run(rt: &HostRuntime) -> anyhow::Result<()> {
    let mut job = Vec::new(rt.alloc());
    rt.stdin().take(MOST).read_to_end(&mut job)?;
    let mut text = [0; 2500];
    let n = list(job.as_slice(), &mut text);
    rt.write_all(&text[..n.min(2500)])?;
    Ok(())
}

fn main(rt: HostRuntime) -> anyhow::Result<()> {
    run(&rt)
}
