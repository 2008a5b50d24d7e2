// A point of a calibration set.
ghost use Rattle.kinds.specs.PointKind.{lawful_point, tidied_point, word_point, taken_point, alike_point};
ghost use Rattle.kinds.specs.PointLaws.{point_laws};

use crate::numbers::{from_pattern, tidy_number, to_pattern};
use cells::causes::Cause;
use cells::leaves::LeafKind;
use std::fmt;

// The load in newtons and the reading in millivolts, whatever the two numbers are.
#[derive(Clone, Copy, PartialEq, Debug)]
pub struct Point {
    pub load: f32,
    pub reading: f32,
}

impl LeafKind for Point {
    ghost number = { 1 };

    ghost lawful = { lawful_point };

    ghost tidied = { tidied_point };

    ghost word = { word_point };

    ghost taken = { taken_point };

    ghost alike = { alike_point };

    ghost laws = { point_laws };

    fn kind_number() -> u16 {
        1
    }

    fn tidy(self) -> Result<Point, Cause> {
        let load = tidy_number(self.load).ok_or(Cause::ValueRefused)?;
        let reading = tidy_number(self.reading).ok_or(Cause::ValueRefused)?;
        Ok(Point { load, reading })
    }

    fn to_word(self) -> Option<u64> {
        let load = to_pattern(self.load)?;
        let reading = to_pattern(self.reading)?;
        Some(load as u64 * 0x1_0000_0000 + reading as u64)
    }

    fn from_word(w: u64) -> Option<Point> {
        let load = from_pattern((w / 0x1_0000_0000) as u32)?;
        let reading = from_pattern((w % 0x1_0000_0000) as u32)?;
        Some(Point { load, reading })
    }
}

impl fmt::Display for Point {
    fn fmt<W: fmt::Write>(&self, f: &mut fmt::Formatter<W>) -> fmt::Result {
        let Point { load, reading } = *self;
        write!(f, "{load} {reading}")
    }
}
