// Examples of the two leaf kinds.
#![tactic(auto)]

#[cfg(test)]
mod tests {
    use cells::causes::Cause;
    use cells::leaves::{LeafKind, compare};
    use kinds::instructions::Instruction;
    use kinds::points::Point;

    // The word of what a raw value is tidied to.
    fn tidied_word<V: LeafKind>(raw: V) -> Result<u64, Cause> {
        raw.tidy()?.to_word().ok_or(Cause::ValueRefused)
    }

    // The word that a pattern has when it is taken back.
    fn again<V: LeafKind>(pattern: u64) -> Option<u64> {
        V::from_word(pattern)?.to_word()
    }

    fn point(load: f32, reading: f32) -> Point {
        Point { load, reading }
    }

    fn instruction(operation: u8, channel: u8, argument: i32) -> Instruction {
        Instruction {
            operation,
            channel,
            argument,
        }
    }

    #[test]
    fn points_have_the_patterns_of_their_numbers(rt: HostRuntime) {
        assert_eq!(rt; tidied_word(point(1.0, -2.0)), Ok(0x3f80_0000_c000_0000));
        assert_eq!(rt; tidied_word(point(0.1, 12.25)), Ok(0x3dcc_cccd_4144_0000));
        assert_eq!(rt;
            tidied_word(point(1e-45, 3.4028235e38)),
            Ok(0x0000_0001_7f7f_ffff)
        );
        assert_eq!(rt;
            tidied_word(point(-1e-45, -3.4028235e38)),
            Ok(0x8000_0001_ff7f_ffff)
        );
    }

    #[test]
    fn both_zeros_are_one(rt: HostRuntime) {
        assert_eq!(rt; tidied_word(point(-0.0, 0.0)), Ok(0));
        assert_eq!(rt; tidied_word(point(0.0, -0.0)), Ok(0));
        assert_eq!(rt; compare(point(-0.0, 5.0), point(0.0, 5.0)), Ok(true));
        assert_eq!(rt; compare(point(-0.0, 5.0), point(0.0, -5.0)), Ok(false));
        assert_eq!(rt; point(-0.0, 1.0).to_word(), None);
    }

    #[test]
    fn points_that_are_no_numbers_are_refused(rt: HostRuntime) {
        let inf = 1.0 / 0.0;
        let nan = inf - inf;
        assert_eq!(rt; tidied_word(point(inf, 0.0)), Err(Cause::ValueRefused));
        assert_eq!(rt; tidied_word(point(0.0, -inf)), Err(Cause::ValueRefused));
        assert_eq!(rt; tidied_word(point(nan, 0.0)), Err(Cause::ValueRefused));
        assert_eq!(rt;
            compare(point(nan, 0.0), point(nan, 0.0)),
            Err(Cause::ValueRefused)
        );
        assert_eq!(rt; point(0.0, nan).to_word(), None);
    }

    #[test]
    fn patterns_are_taken_back(rt: HostRuntime) {
        assert_eq!(rt; again::<Point>(0), Some(0));
        assert_eq!(rt;
            again::<Point>(0x0000_0001_7f7f_ffff),
            Some(0x0000_0001_7f7f_ffff)
        );
        assert_eq!(rt;
            again::<Point>(0x807f_ffff_ff7f_ffff),
            Some(0x807f_ffff_ff7f_ffff)
        );
        assert_eq!(rt;
            again::<Instruction>(0x1f07_0000_ffff_ffff),
            Some(0x1f07_0000_ffff_ffff)
        );
    }

    #[test]
    fn other_patterns_are_no_points(rt: HostRuntime) {
        // a negative zero, both infinities, a quiet and a signalling not-a-number, in either half
        for pattern in [
            0x8000_0000u64,
            0x7f80_0000,
            0xff80_0000,
            0x7fc0_0000,
            0x7f80_0001,
        ] {
            assert_eq!(rt; again::<Point>(pattern), None);
            assert_eq!(rt; again::<Point>(pattern.wrapping_mul(0x1_0000_0000)), None);
        }
    }

    #[test]
    fn instructions_at_their_limits(rt: HostRuntime) {
        assert_eq!(rt;
            tidied_word(instruction(31, 7, -1)),
            Ok(0x1f07_0000_ffff_ffff)
        );
        assert_eq!(rt; tidied_word(instruction(0, 0, i32::MIN)), Ok(0x8000_0000));
        assert_eq!(rt;
            tidied_word(instruction(7, 3, i32::MAX)),
            Ok(0x0703_0000_7fff_ffff)
        );
        assert_eq!(rt;
            tidied_word(instruction(32, 0, 0)),
            Err(Cause::ValueRefused)
        );
        assert_eq!(rt; tidied_word(instruction(0, 8, 0)), Err(Cause::ValueRefused));
        assert_eq!(rt;
            tidied_word(instruction(255, 255, 1)),
            Err(Cause::ValueRefused)
        );
    }

    #[test]
    fn other_patterns_are_no_instructions(rt: HostRuntime) {
        for pattern in [
            0x2000_0000_0000_0000u64,
            0x0008_0000_0000_0000,
            0x0000_0001_0000_0000,
            0x0000_8000_0000_0000,
        ] {
            assert_eq!(rt; again::<Instruction>(pattern), None);
        }
    }

    #[test]
    fn instructions_are_alike_when_all_agree(rt: HostRuntime) {
        assert_eq!(rt;
            compare(instruction(1, 2, -3), instruction(1, 2, -3)),
            Ok(true)
        );
        assert_eq!(rt;
            compare(instruction(1, 2, -3), instruction(1, 2, 3)),
            Ok(false)
        );
        assert_eq!(rt;
            compare(instruction(1, 2, -3), instruction(2, 1, -3)),
            Ok(false)
        );
        assert_eq!(rt;
            compare(instruction(1, 2, -3), instruction(1, 9, -3)),
            Err(Cause::ValueRefused)
        );
    }

    #[test]
    fn kinds_and_causes_have_their_numbers(rt: HostRuntime) {
        assert_eq!(rt; Point::kind_number(), 1);
        assert_eq!(rt; Instruction::kind_number(), 2);
        assert_eq!(rt; Cause::SizeOutOfRange.number(), 1);
        assert_eq!(rt; Cause::ValueRefused.number(), 6);
        assert_eq!(rt; Cause::TooFewBytes.number(), 13);
    }
}
