// How a leaf value is typed, and how it is shown.
ghost use Rattle.std.specs.Prelude.{◌≡◌, ℕ, List, IfOk, string_bytes, Option, Result as Answer};
ghost use Rattle.kinds.specs.InstructionKind.{instruction_text};
ghost use Rattle.cells.specs.declared.causes.Cause.{Cause as Refusal};
ghost use Rattle.texts.specs.Typed.{word_bytes, ReadsPoint, PointWords, ReadsWhole, ReadsInstruction, InstructionWords, instruction_of};

use cells::causes::Cause;
use cells::leaves::LeafKind;
use kinds::instructions::Instruction;
use kinds::points::Point;
use std::alloc::{AllocError, Global};

// A leaf kind whose values people type and read.
pub trait TypedLeaf: LeafKind {
    // what words are read as: none where they are no numbers, and a refusal where the numbers are no raw value
    ghost reads: { List (List ℕ) → Option (Answer Self Refusal) → Type 0 };

    // what a value is shown as
    ghost shows: { Self → List ℕ → Type 0 };

    // What has to be typed, for messages.
    fn wanted() -> &'static str;

    fn of_words(words: &[&str]) -> Option<Result<Self, Cause>>
        ensures { reads (word_bytes words.now) result };

    // The value as it is typed.
    fn show(&self, heap: Global) -> Result<String, AllocError>
        ensures { IfOk result (λ s. shows self.now (string_bytes s)) };
}

fn read_point(load: &str, reading: &str) -> Option<Point>
    ensures { ReadsPoint load.now reading.now result }
{
    let load = load.parse::<f32>().ok()?;
    let reading = reading.parse::<f32>().ok()?;
    Some(Point { load, reading })
}

impl TypedLeaf for Point {
    ghost reads = { PointWords };

    // no contract says how a float is written
    ghost shows = { λ _ _. Unit {0} };

    fn wanted() -> &'static str {
        "two decimal numbers, load and reading"
    }

    fn of_words(words: &[&str]) -> Option<Result<Point, Cause>> {
        let [load, reading] = words else {
            return None;
        };
        read_point(load, reading).map(Ok)
    }

    fn show(&self, heap: Global) -> Result<String, AllocError> {
        self.to_string(heap)
    }
}

// One whole number of an instruction.
fn read_whole(text: &str) -> Option<i64>
    ensures { ReadsWhole text.now result }
{
    text.parse::<i64>().ok()
}

// A number that is too large for its part is none that the leaf kind accepts.
fn fit(operation: i64, channel: i64, argument: i64) -> Result<Instruction, Cause>
    ensures { result ≡ instruction_of operation channel argument }
{
    Ok(Instruction {
        operation: u8::try_from(operation).map_err(|_| Cause::ValueRefused)?,
        channel: u8::try_from(channel).map_err(|_| Cause::ValueRefused)?,
        argument: i32::try_from(argument).map_err(|_| Cause::ValueRefused)?,
    })
}

fn read_instruction(
    operation: &str,
    channel: &str,
    argument: &str,
) -> Option<Result<Instruction, Cause>>
    ensures { ReadsInstruction operation.now channel.now argument.now result }
{
    let operation = read_whole(operation)?;
    let channel = read_whole(channel)?;
    let argument = read_whole(argument)?;
    Some(fit(operation, channel, argument))
}

impl TypedLeaf for Instruction {
    ghost reads = { InstructionWords };

    ghost shows = { λ i bs. bs ≡ instruction_text i };

    fn wanted() -> &'static str {
        "three whole numbers, operation, channel and argument"
    }

    fn of_words(words: &[&str]) -> Option<Result<Instruction, Cause>> {
        let [operation, channel, argument] = words else {
            return None;
        };
        read_instruction(operation, channel, argument)
    }

    fn show(&self, heap: Global) -> Result<String, AllocError> {
        self.to_string(heap)
    }
}
