// A script of calls, read line by line.
use crate::kinds::Judge;
use anyhow::{anyhow, bail};
use filters::{Envelope, Span, TurnCount};
use ladder::poses::Limits;
use replay::Call;
use resolver::Setup;
use std::alloc::Global;

// What a script says: the cost, what the resolver is opened with, how long its tables are, the job file, the filters and the calls.
#[derive(Drop)]
pub struct Script {
    pub letter: u8,
    pub setup: Setup,
    pub stations: usize,
    pub ranked: usize,
    pub candidates: usize,
    pub job: Vec<u8>,
    pub judges: Vec<Judge>,
    pub calls: Vec<Call>,
}

// The value of a digit in hexadecimal.
fn digit(b: u8) -> Option<u8> {
    match b {
        b'0'..=b'9' => Some(b - b'0'),
        b'a'..=b'f' => Some(b - b'a' + 10),
        _ => None,
    }
}

// Puts the bytes that a word writes in hexadecimal behind the others.
fn push_hex(job: &mut Vec<u8>, word: &str) -> anyhow::Result<()> {
    for pair in word.as_bytes().chunks(2) {
        let [high, low] = pair else {
            bail!("a digit is missing");
        };
        let (Some(high), Some(low)) = (digit(*high), digit(*low)) else {
            bail!("no hexadecimal digit");
        };
        job.push((high << 4) | low)?;
    }
    Ok(())
}

impl Script {
    // A script of which nothing is read.
    pub(crate) fn new(alloc: Global) -> Script {
        Script {
            letter: b'T',
            setup: Setup {
                limits: Limits {
                    shoulder: 0,
                    elbow: 0,
                },
                rung_limit: 0,
                ration: 0,
            },
            stations: 0,
            ranked: 0,
            candidates: 0,
            job: Vec::new(alloc),
            judges: Vec::new(alloc),
            calls: Vec::new(alloc),
        }
    }

    // Takes up a line; answers whether it is the last of the script.
    pub(crate) fn read_line(&mut self, alloc: Global, line: &str) -> anyhow::Result<bool> {
        let mut words = Vec::new(alloc);
        for word in line.split(' ') {
            words.push(word)?;
        }
        match words.as_slice() {
            ["open", letter, shoulder, elbow, rungs, ration, a, b, c] => {
                self.letter = *letter.as_bytes().first().ok_or(anyhow!("no letter"))?;
                self.setup = Setup {
                    limits: Limits {
                        shoulder: shoulder.parse()?,
                        elbow: elbow.parse()?,
                    },
                    rung_limit: rungs.parse()?,
                    ration: ration.parse()?,
                };
                self.stations = a.parse()?;
                self.ranked = b.parse()?;
                self.candidates = c.parse()?;
            }
            ["job", "-"] => {}
            ["job", word] => push_hex(&mut self.job, word)?,
            ["envelope", a, b, c, d] => {
                let shoulder = Span {
                    low: a.parse()?,
                    high: b.parse()?,
                };
                let elbow = Span {
                    low: c.parse()?,
                    high: d.parse()?,
                };
                match Envelope::new(shoulder, elbow) {
                    Ok(envelope) => self.judges.push(Judge::Within(envelope))?,
                    Err(refusal) => bail!("the envelope is refused: {}", refusal.number()),
                }
            }
            ["turns", n] => self
                .judges
                .push(Judge::Turns(TurnCount { limit: n.parse()? }))?,
            ["add", "tabled", w] => self.calls.push(Call::Add {
                source: 0,
                waypoint: w.parse()?,
            })?,
            ["add", "arm", w] => self.calls.push(Call::Add {
                source: 1,
                waypoint: w.parse()?,
            })?,
            ["close"] => self.calls.push(Call::Close)?,
            ["next", p] => self.calls.push(Call::Next { places: p.parse()? })?,
            ["seek", f, p] => self.calls.push(Call::Seek {
                filter: f.parse()?,
                places: p.parse()?,
            })?,
            ["end"] => return Ok(true),
            _ => bail!("no line of a script: {line}"),
        }
        Ok(false)
    }
}
