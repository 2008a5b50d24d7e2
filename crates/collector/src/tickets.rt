// The ticket of a collection. It can be neither copied nor let fall: Begin gives it, Finish and Abandon take it back.
ghost use Rattle.std.specs.Prelude.{◌≡◌};
ghost use Rattle.collector.specs.Tickets.{spent_on};

use cells::causes::Cause;

pub struct Ticket {
    begun: (),
}

impl Ticket {
    pub(crate) fn new() -> Ticket {
        Ticket { begun: () }
    }

    // Takes the ticket out of the world where a call is done, or hands it back with the refusal.
    pub(crate) fn spend_on<T>(self, outcome: Result<T, Cause>) -> Result<T, (Cause, Ticket)>
        ensures { result ≡ spent_on self outcome }
    {
        match outcome {
            Ok(value) => {
                let Ticket { begun: () } = self;
                Ok(value)
            }
            Err(cause) => Err((cause, self)),
        }
    }
}

// A guard: were a ticket `Copy` or `Drop`, the two blocks below would both fit it, which is an error.
trait Unspent {}

impl<T: Drop> Unspent for T {}

impl Unspent for Ticket {}
