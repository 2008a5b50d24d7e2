// The sixteen hands of a store.
ghost use Rattle.std.specs.Prelude.{◌≡◌, length, replicate, slice_index_or, slice_set};
ghost use Rattle.cells.specs.declared.Field.TheVariants.{Nil};

use cells::Field;

#[derive(Clone, Copy, PartialEq, Eq, Debug)]
pub struct Hands {
    fields: [Field; 16],
}

impl Hands {
    // Every hand is nil at first.
    pub fn new() -> Self
        ensures { result.fields ≡ replicate 16 Nil }
    {
        Hands {
            fields: [Field::Nil; 16],
        }
    }

    // Hands that hold these fields.
    pub fn of(fields: [Field; 16]) -> Self
        ensures { result.fields ≡ fields }
    {
        Hands { fields }
    }

    // What a hand holds. There is nothing in a hand past the last.
    pub fn get(&self, h: usize) -> Field
        ensures { result ≡ slice_index_or self.now.fields h Nil }
    {
        self.fields.get(h).copied().unwrap_or(Field::Nil)
    }

    // Puts a field into one hand. A hand past the last takes nothing.
    pub fn set(&mut self, h: usize, field: Field)
        ensures { self.new.fields ≡ slice_set self.old.fields h field }
    {
        // By index: what `get_mut` of a slice ensures does not say what a write through it leaves.
        if h < self.fields.len() {
            self.fields[h] = field;
        }
    }

    // All of them, in order.
    pub fn all(&self) -> [Field; 16]
        ensures held { result ≡ self.now.fields }
        ensures sixteen { length result ≡ 16 }
    {
        self.fields
    }
}
