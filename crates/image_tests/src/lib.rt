// Write and Open on both kinds of bank, at both leaf kinds.
#![tactic(auto)]

#[cfg(test)]
mod tests {
    use banks::open::OpenBank;
    use banks::packed::PackedBank;
    use cells::banks::Bank;
    use cells::causes::Cause;
    use cells::leaves::LeafKind;
    use cells::{Cell, Field, Reference, Source, Tag};
    use images::opening::open;
    use images::writing::write;
    use kinds::instructions::Instruction;
    use kinds::points::Point;
    use std::fmt::Debug;
    use std::process::Abort;
    use std::test::Fail;
    use store::turns::Happening;

    // A pair in hand 1 that holds the leaf with word 0 on its left.
    fn sample(kind: u8) -> [u8; 86] {
        let mut image = [0u8; 86];
        image[1] = kind;
        image[3] = 2;
        image[8] = 0x80;
        image[68] = 0x40;
        image[69] = 0x80;
        image[72] = 1;
        image[77] = 0x80;
        image
    }

    fn bare_pair<V>() -> Cell<V> {
        Cell::Pair {
            left: Field::Nil,
            right: Field::Nil,
        }
    }

    fn moved<V>() -> Cell<V> {
        let forward = Reference {
            tag: Tag::Unique,
            address: 0,
        };
        Cell::Moved {
            forward,
            source: Source::Hand(0),
        }
    }

    // A bank of three cells: the image takes two, and the third is kept. What is opened is written as it was.
    fn comes_back<V: LeafKind + PartialEq + Debug, B: Bank<V>>(
        rt: &impl Abort,
        bank: &mut B,
        image: &[u8; 86],
    ) -> Result<(), Fail> {
        assert!(rt; bank.put(2, &bare_pair()));
        let record = open::<V, B>(bank, image)?;
        assert!(rt; record.size() == 3 && record.mark() == 2);
        assert_eq!(rt; bank.read(2), Some(bare_pair()));
        let mut bytes = [0xEEu8; 90];
        assert_eq!(rt; write::<V, B>(&record, bank, &mut bytes)?, 86);
        assert!(rt; bytes[0..86] == image[0..86]);
        assert!(rt; bytes[86..90] == [0xEEu8; 4]);
        Ok(())
    }

    // Each later refusal comes before the one above it, and none writes a byte.
    fn write_refuses<V: LeafKind + PartialEq + Debug, B: Bank<V>>(
        rt: &impl Abort,
        bank: &mut B,
        image: &[u8; 86],
    ) -> Result<(), Fail> {
        let mut record = open::<V, B>(bank, image)?;
        let mut short = [0xEEu8; 85];
        assert_eq!(rt;
            write::<V, B>(&record, bank, &mut short),
            Err(Cause::TooFewBytes)
        );
        record.advance(Happening::Edited)?;
        assert_eq!(rt;
            write::<V, B>(&record, bank, &mut short),
            Err(Cause::NotSettled)
        );
        assert!(rt; bank.put(1, &moved()));
        assert_eq!(rt;
            write::<V, B>(&record, bank, &mut short),
            Err(Cause::Spoiled)
        );
        record.advance(Happening::Begun)?;
        assert_eq!(rt;
            write::<V, B>(&record, bank, &mut short),
            Err(Cause::Collecting)
        );
        assert!(rt; short == [0xEEu8; 85]);
        Ok(())
    }

    // A bank of one cell, which stays as it was.
    fn open_refuses<V: LeafKind + PartialEq + Debug, B: Bank<V>>(
        rt: &impl Abort,
        bank: &mut B,
        image: &[u8; 86],
        other: &[u8; 86],
    ) {
        assert!(rt; bank.put(0, &bare_pair()));
        assert_eq!(rt; open::<V, B>(bank, image).err(), Some(Cause::NoRoom));
        assert_eq!(rt; open::<V, B>(bank, other).err(), Some(Cause::NotAnImage));
        assert_eq!(rt;
            open::<V, B>(bank, &image[0..85]).err(),
            Some(Cause::NotAnImage)
        );
        assert_eq!(rt;
            open::<V, B>(bank, &image[0..3]).err(),
            Some(Cause::NotAnImage)
        );
        assert_eq!(rt; bank.read(0), Some(bare_pair()));
    }

    #[test]
    fn open_points(rt: HostRuntime) -> Result<(), Fail> {
        let mut lent: [Cell<Point>; 3] = [Cell::Blank; 3];
        comes_back(&rt, &mut OpenBank::new(&mut lent), &sample(1))?;
        write_refuses(&rt, &mut OpenBank::new(&mut lent), &sample(1))?;
        open_refuses(
            &rt,
            &mut OpenBank::new(&mut lent[0..1]),
            &sample(1),
            &sample(2),
        );
        Ok(())
    }

    #[test]
    fn open_instructions(rt: HostRuntime) -> Result<(), Fail> {
        let mut lent: [Cell<Instruction>; 3] = [Cell::Blank; 3];
        comes_back(&rt, &mut OpenBank::new(&mut lent), &sample(2))?;
        write_refuses(&rt, &mut OpenBank::new(&mut lent), &sample(2))?;
        open_refuses(
            &rt,
            &mut OpenBank::new(&mut lent[0..1]),
            &sample(2),
            &sample(1),
        );
        Ok(())
    }

    #[test]
    fn packed_points(rt: HostRuntime) -> Result<(), Fail> {
        let mut bytes = [0u8; 30];
        comes_back::<Point, PackedBank>(&rt, &mut PackedBank::new(&mut bytes), &sample(1))?;
        write_refuses::<Point, PackedBank>(&rt, &mut PackedBank::new(&mut bytes), &sample(1))?;
        open_refuses::<Point, PackedBank>(
            &rt,
            &mut PackedBank::new(&mut bytes[0..9]),
            &sample(1),
            &sample(2),
        );
        Ok(())
    }

    #[test]
    fn packed_instructions(rt: HostRuntime) -> Result<(), Fail> {
        let mut bytes = [0u8; 27];
        comes_back::<Instruction, PackedBank>(&rt, &mut PackedBank::new(&mut bytes), &sample(2))?;
        write_refuses::<Instruction, PackedBank>(
            &rt,
            &mut PackedBank::new(&mut bytes),
            &sample(2),
        )?;
        open_refuses::<Instruction, PackedBank>(
            &rt,
            &mut PackedBank::new(&mut bytes[0..9]),
            &sample(2),
            &sample(1),
        );
        Ok(())
    }

    #[test]
    fn banks_of_other_sizes(rt: HostRuntime) -> Result<(), Fail> {
        let mut lent: [Cell<Point>; 2] = [Cell::Blank; 2];
        let record = open(&mut OpenBank::new(&mut lent), &sample(1))?;
        let mut more: [Cell<Point>; 3] = [Cell::Blank; 3];
        let mut bytes = [0u8; 0];
        assert_eq!(rt;
            write(&record, &OpenBank::new(&mut more), &mut bytes),
            Err(Cause::OtherSize)
        );
        Ok(())
    }

    #[test]
    fn sizes_that_no_store_has(rt: HostRuntime) {
        let mut few = [0u8; 8];
        assert_eq!(rt;
            open::<Point, PackedBank>(&mut PackedBank::new(&mut few), &sample(2)).err(),
            Some(Cause::SizeOutOfRange)
        );
        let mut many = [0u8; 294_921];
        assert_eq!(rt;
            open::<Point, PackedBank>(&mut PackedBank::new(&mut many), &sample(1)).err(),
            Some(Cause::SizeOutOfRange)
        );
    }
}
