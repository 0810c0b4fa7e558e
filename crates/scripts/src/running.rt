// Runs a script and prints what its calls answer and write.
use crate::kinds::{Kind, Offers};
use crate::parsing::Script;
use enumeration::{Candidate, Ranked, Station};
use ladder::costs::{Pair, Travel, Worst};
use ladder::poses::{Pose, PoseNumber, Step};
use ladder::rules::Cost;
use replay::{Answer, Reply, replay};
use resolver::{LentTables, Refusal};
use std::alloc::Global;
use std::io;

// What every output place holds before a call.
const SPARE: Step = Step {
    number: PoseNumber(7),
    pose: Pose {
        shoulder: 99,
        elbow: -99,
    },
};

// A cost that a script can print, by one number or two.
trait Told: Cost {
    fn print(self, rt: &impl Print) -> io::Result<()>;
}

impl Told for Travel {
    fn print(self, rt: &impl Print) -> io::Result<()> {
        print!(rt; "{}", self.total)
    }
}

impl Told for Worst {
    fn print(self, rt: &impl Print) -> io::Result<()> {
        print!(rt; "{}", self.turn)
    }
}

impl Told for Pair<Travel, Worst> {
    fn print(self, rt: &impl Print) -> io::Result<()> {
        print!(rt; "{},{}", self.first.total, self.second.turn)
    }
}

fn print_answer<C: Told>(rt: &impl Print, answer: Answer<C>) -> io::Result<()> {
    match answer {
        Ok(Reply::Counted(n)) => print!(rt; "counted {n}"),
        Ok(Reply::Given(taken)) => {
            print!(rt; "given {} ", taken.number)?;
            taken.cost.print(rt)
        }
        Err(refusal) => print!(rt; "refused {}", refusal.number()),
    }
}

// Makes the calls of a script under the cost C.
fn run_under<C: Told>(rt: &impl Print, alloc: Global, script: &mut Script) -> anyhow::Result<()> {
    let mut stations = vec![in alloc; Station::blank(); script.stations]?;
    let mut ranked = vec![in alloc; Ranked::blank(C::zero()); script.ranked]?;
    let mut candidates = vec![in alloc; Candidate::blank(C::zero()); script.candidates]?;
    let mut outputs = Vec::new(alloc);
    let mut answers: Vec<Answer<C>> = Vec::new(alloc);
    for call in &script.calls {
        answers.push(Err(Refusal::OutOfRange))?;
        for _ in 0..call.places() {
            outputs.push(SPARE)?;
        }
    }
    let job = script.job.as_slice();
    let mut sources = [
        Offers::new(Kind::Listed, job),
        Offers::new(Kind::Reached, job),
    ];
    let tables = LentTables {
        stations: stations.as_mut_slice(),
        ranked: ranked.as_mut_slice(),
        candidates: candidates.as_mut_slice(),
    };
    let made = replay(
        script.setup,
        tables,
        script.calls.as_slice(),
        &mut sources,
        script.judges.as_mut_slice(),
        answers.as_mut_slice(),
        outputs.as_mut_slice(),
    );
    let mut rest = outputs.as_slice();
    for (call, answer) in script.calls.iter().zip(answers.iter()).take(made) {
        print_answer(rt, *answer)?;
        let Some((own, later)) = rest.split_at_checked(call.places()) else {
            break;
        };
        for step in own {
            print!(rt;
                " : {} {} {}",
                step.number.0, step.pose.shoulder, step.pose.elbow
            )?;
        }
        println!(rt; "")?;
        rest = later;
    }
    println!(rt; "end")?;
    Ok(())
}

// Makes the calls of a script under the cost of its letter.
pub(crate) fn run_script(
    rt: &impl Print,
    alloc: Global,
    script: &mut Script,
) -> anyhow::Result<()> {
    match script.letter {
        b'T' => run_under::<Travel>(rt, alloc, script),
        b'W' => run_under::<Worst>(rt, alloc, script),
        b'P' => run_under::<Pair<Travel, Worst>>(rt, alloc, script),
        letter => anyhow::bail!("no cost has the letter of byte {letter}"),
    }
}
