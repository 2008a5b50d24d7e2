// What a leaf kind promises. Banks, store, collector and images know a leaf by this trait alone.
ghost use Rattle.std.specs.Prelude.{◌≡◌, ℕ, Bool, Option};
ghost use Rattle.std.specs.Option.{ok_or};
ghost use Rattle.cells.specs.declared.causes.Cause.TheVariants.{ValueRefused};
ghost use Rattle.cells.specs.Leaves.{Laws, word_if, comparison};

use crate::causes::Cause;

pub trait LeafKind: Copy {
    // the number by which images name the kind
    ghost number: { ℕ };

    // the values that a cell may hold
    ghost lawful: { Self → Bool };

    // the lawful value that stands for a raw one, or none where the raw value is refused
    ghost tidied: { Self → Option Self };

    // the 64-bit word of a lawful value
    ghost word: { Self → ℕ };

    // the lawful value that has a word, or none
    ghost taken: { ℕ → Option Self };

    // whether two raw values mean the same
    ghost alike: { Self → Self → Bool };

    fn kind_number() -> u16
        ensures { result ≡ number };

    fn tidy(self) -> Result<Self, Cause>
        ensures { result ≡ ok_or (tidied self) ValueRefused };

    // The word of a lawful value, and none of any other.
    fn to_word(self) -> Option<u64>
        ensures { result ≡ word_if (lawful self) (word self) };

    fn from_word(w: u64) -> Option<Self>
        ensures { result ≡ taken w };

    ghost laws: { Laws lawful tidied word taken alike };
}

// Whether two raw values mean the same, or the refusal of the first that its kind does not accept.
pub fn compare<V: LeafKind>(a: V, b: V) -> Result<bool, Cause>
    ensures { result ≡ comparison (V.tidied a) (V.tidied b) (V.alike a b) }
{
    let x = a.tidy()?;
    let y = b.tidy()?;
    Ok(x.to_word() == y.to_word())
}
