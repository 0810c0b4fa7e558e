// Lists one job after another: each is preceded by its length in two bytes, the low one first.
#![tactic(auto)]

use anyhow::bail;
use listing::list;
use std::io::Read;

// Prints the listing of one job, in the three lines that `tracks` has too: a function for both would be public, and no contract could say what it prints.
fn list_one(rt: &HostRuntime, job: &[u8]) -> anyhow::Result<()> {
    let mut text = [0; 2500];
    let n = list(job, &mut text);
    rt.write_all(&text[..n.min(2500)])?;
    Ok(())
}

fn run(rt: &HostRuntime) -> anyhow::Result<()> {
    let mut input = Vec::new(rt.alloc());
    rt.stdin().read_to_end(&mut input)?;
    let mut rest = input.as_slice();
    while let [low, high, jobs @ ..] = rest {
        let size = u16::from_le_bytes([*low, *high]) as usize;
        let Some((job, later)) = jobs.split_at_checked(size) else {
            bail!("a job is cut short");
        };
        list_one(rt, job)?;
        rest = later;
    }
    Ok(())
}

fn main(rt: HostRuntime) -> anyhow::Result<()> {
    run(&rt)
}
