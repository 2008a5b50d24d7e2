// The calls from Pair to Look, as a script names them.
ghost use Rattle.std.specs.Prelude.{◌≡◌};
ghost use Rattle.store.specs.Record.{view};
ghost use Rattle.store.specs.Called.{told, seen};
ghost use Rattle.runs.specs.Worlds.{saying, answered};
ghost use Rattle.runs.specs.Scripts.{said_by, call_of, Edited};

use crate::scripts::{Answer, Edit};
use cells::banks::Bank;
use cells::causes::Cause;
use cells::leaves::LeafKind;
use store::record::Record;

// Makes a call on the store and its working bank.
#[inline(always)]
pub fn edit<V: LeafKind, W: Bank<V>>(
    store: &mut Record,
    working: &mut W,
    call: Edit<V>,
) -> Result<Answer<V>, Cause>
    ensures edited { Edited V.tidied call (view store.old) (W.cells working.old) result (view store.new) (W.cells working.new) }
    ensures rooted { W.root working.new ≡ W.root working.old }
{
    match call {
        Edit::Pair { h } => store.pair(working, h)?,
        Edit::Leaf { h, value } => store.leaf(working, h, value)?,
        Edit::Copy { h, g } => store.copy(working, h, g)?,
        Edit::Load { h, g, side } => store.load(working, h, g, side)?,
        Edit::Store { g, side, h } => store.store(working, g, side, h)?,
        Edit::Swap { g, side, h } => store.swap(working, g, side, h)?,
        Edit::Clear { h } => store.clear(working, h)?,
        Edit::Look { h } => return Ok(Answer::Seen(store.look(working, h)?)),
    }
    Ok(Answer::Done)
}
