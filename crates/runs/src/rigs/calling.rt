// The calls on a store over two banks.
ghost use Rattle.std.specs.Prelude.{◌≡◌, length};
ghost use Rattle.store.specs.Record.{view};
ghost use Rattle.collector.specs.Visits.{banks_at};
ghost use Rattle.runs.specs.Law.{LawBesideAnySpare};
ghost use Rattle.runs.specs.Scripts.{Made, exchanges, exchanged_if};
ghost use Rattle.cells.specs.Banks.{cell_at};
ghost use Rattle.images.specs.Opening.{Opened};
ghost use Rattle.images.specs.Writing.{write_answer, bytes_after};
ghost use Rattle.runs.specs.Rigs.{other, banks_of, Fits, Started, Replaced};

use crate::keepers::Keeper;
use crate::rigs::{InUse, Rig};
use crate::scripts::{Answer, Call};
use cells::Cell;
use cells::banks::Bank;
use cells::causes::Cause;
use cells::leaves::LeafKind;
use store::record::Record;

// Whether a call exchanged the banks: Finish does, where it is accepted.
fn has_exchanged<V: LeafKind>(call: &Call<V>, answer: &Result<Answer<V>, Cause>) -> bool
    ensures { result ≡ exchanges call.now answer.now }
{
    matches!((call, answer), (Call::Finish, Ok(_)))
}

// Makes a call, with the working or old bank and the other one told apart. `made` calls it in two places, and without the hint, here
// and at the two functions called `edit`, a call is made a quarter slower.
#[inline(always)]
fn make<V: LeafKind, O: Bank<V>, N: Bank<V>>(
    keeper: &mut Keeper,
    old: &mut O,
    new: &mut N,
    call: Call<V>,
) -> Result<Answer<V>, Cause>
    ensures made { Made V.tidied call (banks_at (view keeper.old.store) (O.cells old.old) (N.cells new.old)) result (exchanged_if (exchanges call result) (view keeper.new.store) (O.cells old.new) (N.cells new.new)) }
    ensures old_rooted { O.root old.new ≡ O.root old.old }
    ensures new_rooted { N.root new.new ≡ N.root new.old }
{
    match call {
        Call::Edit(edit) => keeper.edit(old, edit),
        Call::Begin => keeper.begin(old, new),
        Call::Slice(budget) => keeper.slice(old, new, budget),
        Call::Finish => keeper.finish(old, new),
        Call::Abandon => keeper.abandon(old),
    }
}

impl InUse {
    fn other(self) -> InUse
        ensures { result ≡ other self }
    {
        match self {
            InUse::First => InUse::Second,
            InUse::Second => InUse::First,
        }
    }
}

impl<A, B> Rig<A, B> {
    // A new store on the first bank, or the refusal of its size.
    pub fn new<V: LeafKind>(first: A, second: B) -> Result<Rig<A, B>, Cause>
    where
        A: Bank<V> + Drop,
        B: Bank<V> + Drop,
        ensures { Started A.cells B.cells first second result }
    {
        let keeper = Keeper::new(first.size())?;
        Ok(Rig {
            keeper,
            first,
            second,
            in_use: InUse::First,
        })
    }

    // Makes one call of a script on the store and its banks as they stand. What it answers and leaves is what a run does that stands
    // there, and of all runs the law holds.
    pub fn call<V: LeafKind>(&mut self, call: Call<V>) -> Result<Answer<V>, Cause>
    where
        A: Bank<V>,
        B: Bank<V>,
        ensures made { Made V.tidied call (banks_of A.cells B.cells self.old) result (banks_of A.cells B.cells self.new) }
        ensures fits { Fits (banks_of A.cells B.cells self.old) → Fits (banks_of A.cells B.cells self.new) }
        ensures law { LawBesideAnySpare V.tidied V.alike }
    {
        self.made(call)
    }

    fn made<V: LeafKind>(&mut self, call: Call<V>) -> Result<Answer<V>, Cause>
    where
        A: Bank<V>,
        B: Bank<V>,
        ensures made { Made V.tidied call (banks_of A.cells B.cells self.old) result (banks_of A.cells B.cells self.new) }
    {
        let answer = match self.in_use {
            InUse::First => make(&mut self.keeper, &mut self.first, &mut self.second, call),
            InUse::Second => make(&mut self.keeper, &mut self.second, &mut self.first, call),
        };
        if has_exchanged(&call, &answer) {
            self.in_use = self.in_use.other();
        }
        answer
    }

    // Replaces a store that does not collect by the one of an image, in the working bank.
    pub fn open<V: LeafKind>(&mut self, image: &[u8]) -> Result<(), Cause>
    where
        A: Bank<V>,
        B: Bank<V>,
        ensures replaced { Replaced (Opened V.lawful V.word V.taken V.number image.now) (banks_of A.cells B.cells self.old) result (banks_of A.cells B.cells self.new) }
        ensures fits { Fits (banks_of A.cells B.cells self.old) → Fits (banks_of A.cells B.cells self.new) }
    {
        self.opened(image)
    }

    fn opened<V: LeafKind>(&mut self, image: &[u8]) -> Result<(), Cause>
    where
        A: Bank<V>,
        B: Bank<V>,
        ensures { Replaced (Opened V.lawful V.word V.taken V.number image.now) (banks_of A.cells B.cells self.old) result (banks_of A.cells B.cells self.new) }
    {
        match self.in_use {
            InUse::First => self.keeper.open(&mut self.first, image),
            InUse::Second => self.keeper.open(&mut self.second, image),
        }
    }

    // Writes the image of the store to the front of the bytes, and answers its length.
    pub fn write<V: LeafKind>(&self, bytes: &mut [u8]) -> Result<usize, Cause>
    where
        A: Bank<V>,
        B: Bank<V>,
        ensures answer { result ≡ write_answer (banks_of A.cells B.cells self.now).model (banks_of A.cells B.cells self.now).cells (length bytes.old) }
        ensures after { bytes.new ≡ bytes_after V.lawful V.word V.number (banks_of A.cells B.cells self.now).model (banks_of A.cells B.cells self.now).cells bytes.old }
    {
        match self.in_use {
            InUse::First => self.keeper.write(&self.first, bytes),
            InUse::Second => self.keeper.write(&self.second, bytes),
        }
    }

    pub fn store(&self) -> &Record
        ensures { result.now ≡ self.now.keeper.store }
    {
        self.keeper.store()
    }

    // The cell at an address of the working or old bank, none at or past its size.
    pub fn working_cell<V: LeafKind>(&self, at: u16) -> Option<Cell<V>>
    where
        A: Bank<V>,
        B: Bank<V>,
        ensures { result ≡ cell_at (banks_of A.cells B.cells self.now).cells at }
    {
        match self.in_use {
            InUse::First => self.first.read(at),
            InUse::Second => self.second.read(at),
        }
    }

    // The same of the other bank, which is the new one while the store collects.
    pub fn new_cell<V: LeafKind>(&self, at: u16) -> Option<Cell<V>>
    where
        A: Bank<V>,
        B: Bank<V>,
        ensures { result ≡ cell_at (banks_of A.cells B.cells self.now).fresh at }
    {
        match self.in_use {
            InUse::First => self.second.read(at),
            InUse::Second => self.first.read(at),
        }
    }

    // Gives the store up; a collection that is under way is abandoned.
    pub fn end<V: LeafKind>(self)
    where
        A: Bank<V> + Drop,
        B: Bank<V> + Drop,
        requires { Fits (banks_of A.cells B.cells self) }
    {
        let Rig {
            keeper,
            first,
            second,
            in_use,
        } = self;
        match in_use {
            InUse::First => keeper.end(&first),
            InUse::Second => keeper.end(&second),
        }
    }
}
