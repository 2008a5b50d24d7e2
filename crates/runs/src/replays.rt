// Whole scripts.
ghost use Rattle.std.specs.Prelude.{◌≡◌, ◌+◌, ◌≤◌, ◌++◌, map, length, Ok, Err, vec_len, vec_capacity};
ghost use Rattle.runs.specs.declared.replays.Unplayed.TheVariants.{Refused, Memory};
ghost use Rattle.runs.specs.Law.{LawBesideAnySpare};
ghost use Rattle.runs.specs.Worlds.{run};
ghost use Rattle.runs.specs.Scripts.{said_by, events_of, answers_of};
ghost use Rattle.runs.specs.Rigs.{banks_of, Fits};
ghost use Rattle.runs.specs.Replays.{world_at, Replayed, unplayed};

use crate::rigs::Rig;
use crate::scripts::{Answer, Call};
use cells::banks::Bank;
use cells::causes::Cause;
use cells::leaves::LeafKind;
use std::alloc::{AllocError, Global};

// Makes the calls of a script one after the other, and adds their answers to those that are there.
fn play<V: LeafKind, A: Bank<V>, B: Bank<V>>(
    rig: &mut Rig<A, B>,
    script: &[Call<V>],
    answers: &mut Vec<Result<Answer<V>, Cause>>,
)
    requires { vec_len answers.old + length script.now ≤ vec_capacity answers.old }
    ensures answers { map said_by answers.new.items ≡ map said_by answers.old.items ++ answers_of V.tidied (world_at (banks_of A.cells B.cells rig.old)) script.now }
    ensures after { banks_of A.cells B.cells rig.new ≡ (run V.tidied (world_at (banks_of A.cells B.cells rig.old)) (events_of V.tidied (world_at (banks_of A.cells B.cells rig.old)) script.now)).banks }
    ensures fits { Fits (banks_of A.cells B.cells rig.old) → Fits (banks_of A.cells B.cells rig.new) }
{
    for call in script {
        let answer = rig.call(*call);
        answers.push_reserved(answer);
    }
}

// Why a script was not replayed: there is no store of that size, or no memory for the answers. Nothing was done then.
#[derive(PartialEq, Eq, Debug, Drop)]
pub enum Unplayed {
    Refused(Cause),
    Memory,
}

impl From<Cause> for Unplayed {
    ghost from_gives = { λ cause why. why ≡ Refused cause };

    fn from(cause: Cause) -> Unplayed {
        Unplayed::Refused(cause)
    }
}

impl From<AllocError> for Unplayed {
    ghost from_gives = { λ _ why. why ≡ Memory };

    fn from(_e: AllocError) -> Unplayed {
        Unplayed::Memory
    }
}

// Makes a whole script on a new store over the first bank, with the second beside it, and hands the store over with the answers.
pub fn replay<V: LeafKind, A: Bank<V> + Drop, B: Bank<V> + Drop>(
    heap: Global,
    first: A,
    second: B,
    script: &[Call<V>],
) -> Result<(Rig<A, B>, Vec<Result<Answer<V>, Cause>>), Unplayed>
    ensures replayed { elim result [ Ok p ↦ Replayed V.tidied (A.cells first) (B.cells second) script.now p.1.items (banks_of A.cells B.cells p.0) | Err e ↦ unplayed (length (A.cells first)) e ] }
    ensures fits { elim result [ Ok p ↦ Fits (banks_of A.cells B.cells p.0) | Err e ↦ Unit {0} ] }
    ensures law { LawBesideAnySpare V.tidied V.alike }
{
    let mut answers = Vec::with_capacity(heap, script.len())?;
    let mut rig = Rig::new(first, second)?;
    play(&mut rig, script, &mut answers);
    Ok((rig, answers))
}
