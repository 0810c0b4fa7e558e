// Reads scripts of calls from standard input, makes the calls of each on a new resolver, and prints what they answer and write.
#![tactic(auto)]

mod kinds;
mod parsing;
mod running;

use anyhow::bail;
use parsing::Script;
use running::run_script;
use std::io::Read;

fn run(rt: &HostRuntime) -> anyhow::Result<()> {
    let alloc = rt.alloc();
    let mut input = Vec::new(alloc);
    rt.stdin().read_to_end(&mut input)?;
    let Ok(text) = std::str::from_utf8(input.as_slice()) else {
        bail!("the script is no text");
    };
    let mut script = Script::new(alloc);
    let mut ended = true;
    for line in text.lines() {
        ended = script.read_line(alloc, line)?;
        if ended {
            run_script(rt, alloc, &mut script)?;
            script = Script::new(alloc);
        }
    }
    if !ended {
        bail!("the last script has no end");
    }
    Ok(())
}

fn main(rt: HostRuntime) -> anyhow::Result<()> {
    run(&rt)
}
