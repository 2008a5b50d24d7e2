// The calls of a store; each is read beside its own definition. Each is handed the working bank; the first cause that applies refuses it, and then nothing changes.
ghost use Rattle.std.specs.Prelude.{◌≡◌};
ghost use Rattle.store.specs.Calls.{pair, leaf, copy, load, store, swap, clear, look};
ghost use Rattle.store.specs.Called.{Called, told, seen};
ghost use Rattle.store.specs.Record.{view};

use crate::record::Record;
use crate::record::placing::made_sticky;
use crate::{Mode, Sight};
use cells::banks::{Bank, cell_at};
use cells::causes::Cause;
use cells::leaves::LeafKind;
use cells::{Cell, Field, Side};

impl Record {
    // A new pair with two nil sides in hand h.
    #[tactic(auto, unfolding(crate::specs::Calls::cause_of, crate::specs::Calls::effect))]
    pub fn pair<V: LeafKind, B: Bank<V>>(&mut self, bank: &mut B, h: u16) -> Result<(), Cause>
        ensures called { Called V.tidied (pair h) (view self.old) (B.cells bank.old) (told result) (view self.new) (B.cells bank.new) }
        ensures rooted { B.root bank.new ≡ B.root bank.old }
    {
        self.admit(bank.size(), h, h)?;
        self.place(
            bank,
            h,
            &Cell::Pair {
                left: Field::Nil,
                right: Field::Nil,
            },
        )?;
        Ok(())
    }

    // A new leaf with the tidied value in hand h.
    #[tactic(auto, unfolding(crate::specs::Calls::cause_of, crate::specs::Calls::effect))]
    pub fn leaf<V: LeafKind, B: Bank<V>>(
        &mut self,
        bank: &mut B,
        h: u16,
        value: V,
    ) -> Result<(), Cause>
        ensures called { Called V.tidied (leaf h value) (view self.old) (B.cells bank.old) (told result) (view self.new) (B.cells bank.new) }
        ensures rooted { B.root bank.new ≡ B.root bank.old }
    {
        self.admit(bank.size(), h, h)?;
        let tidy = value.tidy()?;
        self.place(bank, h, &Cell::Leaf(tidy))?;
        Ok(())
    }

    // Hand h gets what hand g holds, and both are STICKY then.
    #[tactic(auto, unfolding(crate::specs::Calls::cause_of, crate::specs::Calls::effect))]
    pub fn copy<V: LeafKind, B: Bank<V>>(&mut self, bank: &B, h: u16, g: u16) -> Result<(), Cause>
        ensures called { Called V.tidied (copy h g) (view self.old) (B.cells bank.now) (told result) (view self.new) (B.cells bank.now) }
    {
        self.admit(bank.size(), h, g)?;
        if h == g {
            self.mode = Mode::Working;
            return Ok(());
        }
        let field = made_sticky(self.hand(g));
        self.change(g, field);
        self.replace(h, field);
        Ok(())
    }

    // Hand h gets the field on a side of the pair that g refers to, and both are STICKY then.
    #[tactic(auto, unfolding(crate::specs::Calls::cause_of, crate::specs::Calls::effect))]
    pub fn load<V: LeafKind, B: Bank<V>>(
        &mut self,
        bank: &mut B,
        h: u16,
        g: u16,
        side: Side,
    ) -> Result<(), Cause>
        ensures called { Called V.tidied (load h g side) (view self.old) (B.cells bank.old) (told result) (view self.new) (B.cells bank.new) }
        ensures rooted { B.root bank.new ≡ B.root bank.old }
    {
        self.admit(bank.size(), h, g)?;
        let target = self.target(bank, g)?;
        let field = target.sound(side, self.mark)?;
        let field = made_sticky(field);
        target.put(bank, side, field);
        self.replace(h, field);
        Ok(())
    }

    // The side of the pair that g refers to gets what hand h holds, and both are STICKY then.
    #[tactic(auto, unfolding(crate::specs::Calls::cause_of, crate::specs::Calls::effect))]
    pub fn store<V: LeafKind, B: Bank<V>>(
        &mut self,
        bank: &mut B,
        g: u16,
        side: Side,
        h: u16,
    ) -> Result<(), Cause>
        ensures called { Called V.tidied (store g side h) (view self.old) (B.cells bank.old) (told result) (view self.new) (B.cells bank.new) }
        ensures rooted { B.root bank.new ≡ B.root bank.old }
    {
        self.admit(bank.size(), h, g)?;
        let target = self.target(bank, g)?;
        let field = made_sticky(self.hand(h));
        self.let_go(target.side(side));
        target.put(bank, side, field);
        self.change(h, field);
        Ok(())
    }

    // Hand h and the side of the pair that g refers to are exchanged, tags and all.
    #[tactic(auto, unfolding(crate::specs::Calls::cause_of, crate::specs::Calls::effect))]
    pub fn swap<V: LeafKind, B: Bank<V>>(
        &mut self,
        bank: &mut B,
        g: u16,
        side: Side,
        h: u16,
    ) -> Result<(), Cause>
        ensures called { Called V.tidied (swap g side h) (view self.old) (B.cells bank.old) (told result) (view self.new) (B.cells bank.new) }
        ensures rooted { B.root bank.new ≡ B.root bank.old }
    {
        self.admit(bank.size(), h, g)?;
        let target = self.target(bank, g)?;
        let field = target.sound(side, self.mark)?;
        let held = self.hand(h);
        target.put(bank, side, held);
        self.change(h, field);
        Ok(())
    }

    // Hand h becomes nil.
    #[tactic(auto, unfolding(crate::specs::Calls::cause_of, crate::specs::Calls::effect))]
    pub fn clear<V: LeafKind, B: Bank<V>>(&mut self, bank: &B, h: u16) -> Result<(), Cause>
        ensures called { Called V.tidied (clear h) (view self.old) (B.cells bank.now) (told result) (view self.new) (B.cells bank.now) }
    {
        self.admit(bank.size(), h, h)?;
        self.replace(h, Field::Nil);
        Ok(())
    }

    // What hand h shows.
    #[tactic(auto, unfolding(crate::specs::Calls::cause_of, crate::specs::Calls::effect))]
    pub fn look<V: LeafKind, B: Bank<V>>(&self, bank: &B, h: u16) -> Result<Sight<V>, Cause>
        ensures called { Called V.tidied (look h) (view self.now) (B.cells bank.now) (seen result) (view self.now) (B.cells bank.now) }
    {
        self.admit(bank.size(), h, h)?;
        let Field::To(r) = self.hand(h) else {
            return Ok(Sight::Nothing);
        };
        if r.address >= self.mark {
            return Err(Cause::Spoiled);
        }
        match cell_at(bank, r.address) {
            Cell::Pair { left, right } => Ok(Sight::APair {
                left_nil: left == Field::Nil,
                right_nil: right == Field::Nil,
            }),
            Cell::Leaf(v) => Ok(Sight::ALeaf(v)),
            Cell::Blank | Cell::Moved { .. } => Err(Cause::Spoiled),
        }
    }
}
