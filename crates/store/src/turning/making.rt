// Making a record whose counts come from outside.
ghost use Rattle.std.specs.Prelude.{◌≡◌};
ghost use Rattle.store.specs.Record.{made};
ghost use Rattle.store.specs.Turns.{viewed};

use crate::Mode;
use crate::free::FreeList;
use crate::hands::Hands;
use crate::turning::Record;
use cells::causes::Cause;

impl Record {
    // A record over a bank of that size, or the refusal of a size that no store has.
    pub fn new(size: usize) -> Result<Record, Cause>
        ensures { viewed result ≡ made size }
    {
        if size == 0 || size > 32768 {
            return Err(Cause::SizeOutOfRange);
        }
        Ok(Record {
            size: size as u16,
            mark: 0,
            hands: Hands::new(),
            free: FreeList::new(),
            mode: Mode::Settled,
        })
    }
}
