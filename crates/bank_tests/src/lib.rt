// The same tests on both kinds of bank, at both leaf kinds.
#![tactic(auto)]

#[cfg(test)]
mod tests {
    use banks::open::OpenBank;
    use banks::packed::PackedBank;
    use cells::banks::Bank;
    use cells::leaves::LeafKind;
    use cells::{Cell, Field, Reference, Side, Source, Tag};
    use kinds::instructions::Instruction;
    use kinds::points::Point;
    use std::fmt::Debug;
    use std::process::Abort;

    const POINT: Point = Point {
        load: 2.5,
        reading: -0.125,
    };

    const NO_POINT: Point = Point {
        load: 1.0,
        reading: -0.0,
    };

    const INSTRUCTION: Instruction = Instruction {
        operation: 31,
        channel: 7,
        argument: -9,
    };

    const NO_INSTRUCTION: Instruction = Instruction {
        operation: 32,
        channel: 0,
        argument: 0,
    };

    fn pair<V>() -> Cell<V> {
        let right = Reference {
            tag: Tag::Sticky,
            address: 40_000,
        };
        Cell::Pair {
            left: Field::Nil,
            right: Field::To(right),
        }
    }

    fn moved<V>() -> Cell<V> {
        let forward = Reference {
            tag: Tag::Unique,
            address: 1,
        };
        Cell::Moved {
            forward,
            source: Source::Cell(2, Side::Right),
        }
    }

    // A blank bank of four cells.
    fn behaves<V: LeafKind + PartialEq + Debug, B: Bank<V>>(
        rt: &impl Abort,
        bank: &mut B,
        good: V,
        bad: V,
    ) {
        assert_eq!(rt; bank.size(), 4);
        assert_eq!(rt; bank.read(0), Some(Cell::Blank));
        assert!(rt; bank.put(0, &pair()));
        assert!(rt; bank.put(1, &moved()));
        assert!(rt; bank.put(3, &Cell::Leaf(good)));
        assert_eq!(rt; bank.read(0), Some(pair()));
        assert_eq!(rt; bank.read(1), Some(moved()));
        assert_eq!(rt; bank.read(2), Some(Cell::Blank));
        assert_eq!(rt; bank.read(3), Some(Cell::Leaf(good)));
        refuses(rt, bank, bad);
        assert_eq!(rt; bank.read(3), Some(Cell::Leaf(good)));
    }

    // What is refused alters nothing.
    fn refuses<V: LeafKind + PartialEq + Debug, B: Bank<V>>(rt: &impl Abort, bank: &mut B, bad: V) {
        assert!(rt; !bank.put(4, &pair()));
        assert!(rt; !bank.put(65_535, &pair()));
        assert!(rt; !bank.put(0, &Cell::Blank));
        assert!(rt; !bank.put(3, &Cell::Leaf(bad)));
        assert_eq!(rt; bank.read(0), Some(pair()));
        assert!(rt; bank.read(4).is_none());
        assert!(rt; bank.read(65_535).is_none());
    }

    #[test]
    fn open_points(rt: HostRuntime) {
        let mut lent = [Cell::Blank; 4];
        behaves(&rt, &mut OpenBank::new(&mut lent), POINT, NO_POINT);
    }

    #[test]
    fn open_instructions(rt: HostRuntime) {
        let mut lent = [Cell::Blank; 4];
        behaves(
            &rt,
            &mut OpenBank::new(&mut lent),
            INSTRUCTION,
            NO_INSTRUCTION,
        );
    }

    #[test]
    fn packed_points(rt: HostRuntime) {
        let mut bytes = [0u8; 39];
        behaves(&rt, &mut PackedBank::new(&mut bytes), POINT, NO_POINT);
    }

    #[test]
    fn packed_instructions(rt: HostRuntime) {
        let mut bytes = [0xFFu8; 44];
        behaves(
            &rt,
            &mut PackedBank::new(&mut bytes),
            INSTRUCTION,
            NO_INSTRUCTION,
        );
        assert!(rt; bytes[36..44] == [0xFFu8; 8]);
    }

    #[test]
    fn unlawful_lent_leaf_is_blank(rt: HostRuntime) {
        let mut lent = [Cell::Leaf(NO_POINT), Cell::Leaf(POINT)];
        let bank = OpenBank::new(&mut lent);
        assert_eq!(rt; bank.read(0), Some(Cell::Blank));
        assert_eq!(rt; bank.read(1), Some(Cell::Leaf(POINT)));
    }

    #[test]
    fn too_few_bytes_hold_no_cell(rt: HostRuntime) {
        let mut bytes = [0x40u8; 8];
        let mut bank = PackedBank::new(&mut bytes);
        assert!(rt; !bank.put(0, &Cell::Leaf(POINT)));
        assert!(rt; bytes == [0x40u8; 8]);
    }
}
