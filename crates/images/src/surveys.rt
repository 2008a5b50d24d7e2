// One pass over the places reads every field in visiting order, and counts references; another compares tags with the counts.
ghost use Rattle.std.specs.Prelude.{◌≡◌, ℕ, ◌+◌, ◌*◌, ◌<◌, ◌≤◌, List, MatchResult, OnOk, Option};
ghost use Rattle.std.specs.Result.{result_err};
ghost use Rattle.cells.specs.declared.Reference.{Reference as Referred};
ghost use Rattle.cells.specs.declared.Field.TheVariants.{To as Refers};
ghost use Rattle.graph.specs.Places.{meeting};
ghost use Rattle.images.specs.declared.faults.Flaw.{Flaw as Flawed};
ghost use Rattle.images.specs.Layout.{held};
ghost use Rattle.images.specs.Faults.{Broken};
ghost use Rattle.images.specs.First.{or_else, first, misstep, too_early, hand_flaw, cell_flaw, hand_tag, cell_tags, first_flaw};
ghost use Rattle.images.specs.Surveys.{Surveyed, noted, mistag, Kept, Tagged, Surveys};

use crate::faults::{Flaw, Place};
use crate::reading::Body;
use cells::leaves::LeafKind;
use cells::{Cell, Field, Side, Tag};

// What is known of the places read so far: how many addresses they met, and for each address how many of them refer to
// it, counted up to 2, since a tag says no more than whether there is another. An array by address, since a check uses no heap.
#[derive(Drop)]
pub struct Survey {
    met: u16,
    references: [u8; 32768],
}

impl Survey {
    // Reads the field of one more place.
    fn visit(&mut self, place: Place, field: Field, count: u16) -> Result<(), Flaw>
        requires { count ≤ 32768 }
        ensures flaw { result_err result ≡ misstep place field count self.old.met }
        ensures meets { OnOk result (self.new.met ≡ meeting self.old.met field) }
        ensures tally { OnOk result (self.new.references ≡ noted self.old.references field) }
    {
        let Field::To(r) = field else {
            return Ok(());
        };
        if r.address >= count {
            return Err(Flaw::Outside(place, r.address));
        }
        if r.address > self.met {
            return Err(Flaw::OutOfOrder(place, r.address, self.met));
        }
        if r.address == self.met {
            self.met += 1;
        }
        let a = r.address as usize;
        if self.references[a] < 2 {
            self.references[a] += 1;
        }
        Ok(())
    }

    // Refuses a cell that is not met, when its own fields are to be read.
    fn check_met(&self, j: u16) -> Result<(), Flaw>
        ensures { result_err result ≡ too_early j self.now.met }
    {
        if self.met > j {
            Ok(())
        } else {
            Err(Flaw::Unmet(j))
        }
    }

    // Refuses a tag that is wrong, once all places are read.
    fn check_tag(&self, place: Place, field: Field) -> Result<(), Flaw>
        requires { (x : Referred) → field ≡ Refers x → x.address < 32768 }
        ensures { result_err result ≡ mistag place field self.now.references }
    {
        let Field::To(r) = field else {
            return Ok(());
        };
        let shared = self.references[r.address as usize] >= 2;
        let right = match r.tag {
            Tag::Unique => !shared,
            Tag::Sticky => shared,
        };
        if right {
            Ok(())
        } else {
            Err(Flaw::WrongTag(place, r))
        }
    }
}

// A pass over the hands and cells of an image, in visiting order.
trait Pass<V: LeafKind> {
    // what holds once it is past the places below a number
    ghost past: { Self → List ℕ → ℕ → ℕ → Type 0 };

    // the flaw of a hand, and of a cell
    ghost hand_flaw: { List ℕ → ℕ → ℕ → Option Flawed };

    ghost cell_flaw: { List ℕ → ℕ → ℕ → Option Flawed };

    fn at_hand(&mut self, body: &Body, i: u8) -> Result<(), Flaw>
        requires within { i < 16 }
        requires before { past self.old body.now.bytes.now body.now.count i }
        ensures kept { MatchResult result (λ _. past self.new body.now.bytes.now body.now.count (i + 1)) (Broken V.taken body.now.bytes.now body.now.count) }
        ensures flaw { result_err result ≡ hand_flaw body.now.bytes.now body.now.count i };

    fn at_cell(&mut self, body: &Body, j: u16) -> Result<(), Flaw>
        requires within { j < body.now.count }
        requires before { past self.old body.now.bytes.now body.now.count (16 + 2 * j) }
        ensures kept { MatchResult result (λ _. past self.new body.now.bytes.now body.now.count (18 + 2 * j)) (Broken V.taken body.now.bytes.now body.now.count) }
        ensures flaw { result_err result ≡ cell_flaw body.now.bytes.now body.now.count j };
}

// A loop goes by index, since a flaw names its place by one.
fn run<V: LeafKind, P: Pass<V>>(pass: &mut P, body: &Body) -> Result<(), Flaw>
    requires { P.past pass.old body.now.bytes.now body.now.count 0 }
    ensures kept { MatchResult result (λ _. P.past pass.new body.now.bytes.now body.now.count (16 + 2 * body.now.count)) (Broken V.taken body.now.bytes.now body.now.count) }
    ensures flaw { result_err result ≡ or_else (first (P.hand_flaw body.now.bytes.now body.now.count) 16) (first (P.cell_flaw body.now.bytes.now body.now.count) body.now.count) }
{
    for i in 0..16 {
        pass.at_hand(body, i)?;
    }
    for j in 0..body.count {
        pass.at_cell(body, j)?;
    }
    Ok(())
}

// The first pass. That all cells are met is no test of its own: the last is met before it is read.
impl<V: LeafKind> Pass<V> for Survey {
    ghost past = { λ survey rest r p. Kept V.taken rest r p × Surveyed (held V.taken rest r) p survey };

    ghost hand_flaw = { hand_flaw V.taken };

    ghost cell_flaw = { cell_flaw V.taken };

    fn at_hand(&mut self, body: &Body, i: u8) -> Result<(), Flaw> {
        let field = body.hand(i).ok_or(Flaw::BadHand(i))?;
        self.visit(Place::Hand(i), field, body.count)
    }

    fn at_cell(&mut self, body: &Body, j: u16) -> Result<(), Flaw> {
        self.check_met(j)?;
        match body.cell::<V>(j) {
            Cell::Pair { left, right } => {
                self.visit(Place::Cell(Side::Left, j), left, body.count)?;
                self.visit(Place::Cell(Side::Right, j), right, body.count)
            }
            Cell::Leaf(_) => Ok(()),
            Cell::Blank | Cell::Moved { .. } => Err(Flaw::BadCell(j)),
        }
    }
}

// The second pass, with the survey that the first one left.
#[derive(Drop)]
struct Tags<'a> {
    survey: &'a Survey,
}

impl<V: LeafKind> Pass<V> for Tags<'_> {
    ghost past = { λ tags rest r p. Kept V.taken rest r (16 + 2 * r) × Surveyed (held V.taken rest r) (16 + 2 * r) tags.survey.now × Tagged (held V.taken rest r) p };

    ghost hand_flaw = { hand_tag V.taken };

    ghost cell_flaw = { cell_tags V.taken };

    fn at_hand(&mut self, body: &Body, i: u8) -> Result<(), Flaw> {
        match body.hand(i) {
            Some(field) => self.survey.check_tag(Place::Hand(i), field),
            None => Ok(()),
        }
    }

    fn at_cell(&mut self, body: &Body, j: u16) -> Result<(), Flaw> {
        let Cell::Pair { left, right } = body.cell::<V>(j) else {
            return Ok(());
        };
        self.survey.check_tag(Place::Cell(Side::Left, j), left)?;
        self.survey.check_tag(Place::Cell(Side::Right, j), right)
    }
}

// Both passes: the first flaw of the hands and cells, where they break a rule.
pub fn check_body<V: LeafKind>(body: &Body) -> Result<(), Flaw>
    ensures kept { Surveys V.taken body.now.bytes.now body.now.count (result_err result) }
    ensures flaw { result_err result ≡ first_flaw V.taken body.now.bytes.now body.now.count }
{
    let mut survey = Survey {
        met: 0,
        references: [0; 32768],
    };
    run::<V, Survey>(&mut survey, body)?;
    run::<V, Tags>(&mut Tags { survey: &survey }, body)
}
