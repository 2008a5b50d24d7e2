// Several steps in a row.
ghost use Rattle.std.specs.Prelude.{◌≡◌, true, if◌then◌else◌, Ok, Err};
ghost use Rattle.cells.specs.declared.causes.Cause.TheVariants.{Spoiled};
ghost use Rattle.store.specs.Model.{is_collecting};
ghost use Rattle.store.specs.Record.{view};
ghost use Rattle.collector.specs.Steps.{march};
ghost use Rattle.collector.specs.Collections.{tour_of, standing};
ghost use Rattle.collector.specs.Visits.{banks_at};

use crate::places::next_place;
use crate::steps::step;
use cells::banks::Bank;
use cells::causes::Cause;
use cells::leaves::LeafKind;
use store::record::Record;

// Makes as many steps as are allowed and as are left, up to one that is spoiled. The loop counts steps, and indexes nothing.
pub fn make_steps<V: LeafKind, O: Bank<V>, N: Bank<V>>(
    store: &mut Record,
    old: &mut O,
    new: &mut N,
    most: u32,
) -> Result<(), Cause>
    requires { is_collecting (view store.old).mode ≡ true }
    ensures answer { result ≡ (if (march most (tour_of (banks_at (view store.old) (O.cells old.old) (N.cells new.old)))).broken then Err Spoiled else Ok tt) }
    ensures after { banks_at (view store.new) (O.cells old.new) (N.cells new.new) ≡ standing (view store.old).free (march most (tour_of (banks_at (view store.old) (O.cells old.old) (N.cells new.old)))).tour }
    ensures old_rooted { O.root old.new ≡ O.root old.old }
    ensures new_rooted { N.root new.new ≡ N.root new.old }
{
    for made in 0..most {
        let Some(at) = next_place(store) else {
            return Ok(());
        };
        step(store, old, new, at)?;
    }
    Ok(())
}
