// An instruction of a test sequence.
ghost use Rattle.std.specs.Prelude.{◌≡◌, Some};
ghost use Rattle.kinds.specs.InstructionKind.{lawful_instruction, tidied_instruction, word_instruction, taken_instruction, alike_instruction, instruction_text};
ghost use Rattle.kinds.specs.InstructionLaws.{instruction_laws};

use cells::causes::Cause;
use cells::leaves::LeafKind;
use std::fmt;

// Which operation, on which channel, with which argument, whatever the numbers are.
#[derive(Clone, Copy, PartialEq, Eq, Debug)]
pub struct Instruction {
    pub operation: u8,
    pub channel: u8,
    pub argument: i32,
}

impl Instruction {
    // Whether a cell may hold it.
    pub fn is_lawful(self) -> bool
        ensures { result ≡ lawful_instruction self }
    {
        self.operation < 32 && self.channel < 8
    }
}

impl LeafKind for Instruction {
    ghost number = { 2 };

    ghost lawful = { lawful_instruction };

    ghost tidied = { tidied_instruction };

    ghost word = { word_instruction };

    ghost taken = { taken_instruction };

    ghost alike = { alike_instruction };

    ghost laws = { instruction_laws };

    fn kind_number() -> u16 {
        2
    }

    fn tidy(self) -> Result<Instruction, Cause> {
        if self.is_lawful() {
            Ok(self)
        } else {
            Err(Cause::ValueRefused)
        }
    }

    fn to_word(self) -> Option<u64> {
        if !self.is_lawful() {
            return None;
        }
        let [a, b, c, d] = self.argument.cast_unsigned().to_be_bytes();
        Some(u64::from_be_bytes([self.operation, self.channel, 0, 0, a, b, c, d]))
    }

    fn from_word(w: u64) -> Option<Instruction> {
        let [operation, channel, 0, 0, a, b, c, d] = w.to_be_bytes() else {
            return None;
        };
        let i = Instruction {
            operation,
            channel,
            argument: u32::from_be_bytes([a, b, c, d]).cast_signed(),
        };
        if i.is_lawful() { Some(i) } else { None }
    }
}

impl fmt::Display for Instruction {
    ghost output = { λ i. Some (instruction_text i) };

    fn fmt<W: fmt::Write>(&self, f: &mut fmt::Formatter<W>) -> fmt::Result {
        let Instruction {
            operation,
            channel,
            argument,
        } = *self;
        write!(f, "{operation} {channel} {argument}")
    }
}
