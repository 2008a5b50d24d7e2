// A store's record and, while it collects, the ticket.
ghost use Rattle.std.specs.Prelude.{◌≡◌, is_some};
ghost use Rattle.store.specs.Record.{view};
ghost use Rattle.store.specs.Model.{is_collecting};

use collector::tickets::Ticket;
use store::record::Record;

mod acting;

pub struct Keeper {
    store: Record,
    ticket: Option<Ticket>,
    ghost held: { is_some ticket ≡ is_collecting (view store).mode },
}
