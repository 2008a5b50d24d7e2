// The commands of the program.
#![tactic(auto)]

ghost use Rattle.std.specs.Prelude.{◌≡◌};
ghost use Rattle.commands.specs.declared.Ended.TheVariants.{Wrong};

mod compare;
mod drawing;
mod dump;
mod files;
mod inspect;
mod leaves;

use cells::causes::Cause;
use kinds::instructions::Instruction;
use kinds::points::Point;
use reports::requests::{Kind, Request, Task, asked_for};
use std::alloc::AllocError;
use texts::typed::TypedLeaf;

const USAGE: &str = "usage: cellstore COMMAND KIND FILE..    (KIND is point or instruction)
  leaves KIND FILE [FILE]  the leaf values of a list, with their words; with two lists, whether they hold the same values
  dump KIND FILE           the cells of a packed bank, and how many there are of each kind
  check KIND IMAGE         what an image holds, or the first rule that its bytes break
  compare KIND IMAGE IMAGE whether two images are the same, or where they first differ
  show KIND IMAGE [--dot]  the hands and cells of an image; with --dot as a drawing for Graphviz";

// Why the program ends with status 1. What there is to say was said before.
#[derive(Clone, Copy, PartialEq, Eq, Debug)]
pub enum Ended {
    Wrong,
    Different,
}

impl From<AllocError> for Ended {
    ghost from_gives = { λ _ ended. ended ≡ Wrong };

    fn from(_e: AllocError) -> Ended {
        Ended::Wrong
    }
}

impl From<Cause> for Ended {
    ghost from_gives = { λ _ ended. ended ≡ Wrong };

    fn from(_cause: Cause) -> Ended {
        Ended::Wrong
    }
}

fn usage(rt: &HostRuntime) -> Ended {
    let _ = rt.eprintln(USAGE);
    Ended::Wrong
}

// A word of the command, empty past the last.
fn word(args: &[String], i: usize) -> &str {
    args.get(i).map_or("", |word| word.as_str())
}

// One task on files of one leaf kind.
fn run_at<V: TypedLeaf>(rt: &HostRuntime, task: Task, one: &str, two: &str) -> Result<(), Ended> {
    match task {
        Task::Leaves => leaves::list::<V>(rt, one),
        Task::SameLeaves => leaves::compare::<V>(rt, one, two),
        Task::Dump => dump::report::<V>(rt, one),
        Task::Check => inspect::check::<V>(rt, one),
        Task::Compare => compare::report::<V>(rt, one, two),
        Task::Show => inspect::show::<V>(rt, one),
        Task::Draw => drawing::show::<V>(rt, one),
    }
}

// Makes the command that the words say, the program's name being the first.
pub fn run(rt: &HostRuntime, args: &[String]) -> Result<(), Ended> {
    let Some(Request { kind, task }) = asked_for(args) else {
        return Err(usage(rt));
    };
    let one = word(args, 3);
    let two = word(args, 4);
    match kind {
        Kind::Point => run_at::<Point>(rt, task, one, two),
        Kind::Instruction => run_at::<Instruction>(rt, task, one, two),
    }
}
