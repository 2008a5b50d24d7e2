// What programs share that try cases with known answers, one to a line.
#![tactic(auto)]

ghost use Rattle.std.specs.Prelude.{◌≡◌, Some};
ghost use Rattle.trials.specs.Scores.{scored, score_text};

use std::alloc::{AllocError, Global};
use std::{fmt, fs};

// How many cases came out as they say, and how many did not.
#[derive(Clone, Copy, PartialEq, Eq, Debug)]
pub struct Score {
    pub right: u32,
    pub wrong: u32,
}

impl Score {
    // The score with one case more; a count stays at the largest that there is.
    pub fn with(self, holds: bool) -> Score
        ensures { result ≡ scored self holds }
    {
        let Score { right, wrong } = self;
        if holds {
            Score {
                right: right.saturating_add(1),
                wrong,
            }
        } else {
            Score {
                right,
                wrong: wrong.saturating_add(1),
            }
        }
    }
}

impl fmt::Display for Score {
    ghost output = { λ s. Some (score_text s) };

    fn fmt<W: fmt::Write>(&self, f: &mut fmt::Formatter<W>) -> fmt::Result {
        let Score { right, wrong } = *self;
        write!(f, "{right} cases right, {wrong} wrong")
    }
}

// Tries the cases of a file, and prints those that do not hold, and the score.
pub fn try_cases<F: Fn(Global, &str) -> Result<bool, AllocError>>(
    rt: &HostRuntime,
    name: &str,
    holds: F,
) -> anyhow::Result<()>
    requires { F.IsAlwaysCallable holds }
{
    let text = fs::read_to_string(rt, name)?;
    let mut score = Score { right: 0, wrong: 0 };
    for line in text.lines() {
        let right = holds(rt.alloc(), line)?;
        score = score.with(right);
        if !right {
            println!(rt; "wrong: {line}")?;
        }
    }
    println!(rt; "{score}")?;
    Ok(())
}
