ghost use Rattle.std.specs.Prelude.{◌≡◌, Ok, slice_index};
ghost use Rattle.std.proofs.Common.{rules};
ghost use Rattle.std.specs.Cmp.{partial_order_from_own_ties};
ghost use Rattle.std.specs.Cmp.Rules.{comparing};
ghost use Rattle.std.specs.Ordering.{as_partial_cmp};
ghost use Rattle.values.specs.Limits.{Limits};
ghost use Rattle.values.specs.PointKind.{point_kind, point_key, point_cmp, new_point};
ghost use Rattle.values.specs.PointLaw.{points_lawful, point_less, point_total, point_ties};

use crate::point::Point;
use protocol::{OrderedValue, Refusal, Value};
use std::cmp::Ordering;

impl Point {
    /// The point of a pressure in tenths of a bar and a speed in rpm, negative for anticlockwise.
    pub fn new(pressure: u64, speed: i64) -> Result<Point, Refusal>
        ensures { result ≡ new_point pressure speed }
    {
        if pressure > 7000 {
            return Err(Refusal::Pressure);
        }
        if speed < -6000 || speed > 6000 {
            return Err(Refusal::Speed);
        }
        Ok(Point::within(pressure as u16, speed as i16))
    }

    /// The pressure in tenths of a bar.
    pub fn pressure(self) -> u16
        ensures { result ≡ self.pressure }
    {
        self.pressure
    }

    /// The speed in rpm, negative for anticlockwise.
    pub fn speed(self) -> i16
        ensures { result ≡ self.speed }
    {
        self.speed
    }

    // The point of numbers that are known to lie within the limits.
    fn within(pressure: u16, speed: i16) -> Point
        requires { Limits pressure speed }
        ensures { new_point pressure speed ≡ Ok result }
    {
        Point { pressure, speed }
    }

    // What decides which of two points is less, in this order: the load, the pressure, the speed without its sign, and
    // at last the sign, the negative one being less. A tuple: an array is compared as a slice of any length, in twice
    // the time.
    fn key(self) -> (u32, u32, u32, u32)
        ensures { let key = point_key self in
            result ≡ (slice_index key 0, slice_index key 1, slice_index key 2, slice_index key 3) }
    {
        let (pressure, size) = (
            u32::from(self.pressure),
            u32::from(i16::unsigned_abs(self.speed)),
        );
        (pressure * size, pressure, size, u32::from(self.speed >= 0))
    }
}

impl Ord for Point {
    ghost cmp = { point_cmp };

    ghost total = { point_total };

    ghost matches_partial_cmp = { Prim.search (comparing, rules) };

    ghost matches_eq = { point_ties };

    fn cmp(&self, other: &Point) -> Ordering {
        self.key().cmp(&other.key())
    }
}

impl PartialOrd for Point {
    ghost partial_cmp = { as_partial_cmp point_cmp };

    ghost laws = { partial_order_from_own_ties (Prim.search (comparing, rules)) (Prim.search (comparing, rules)) };

    fn partial_cmp(&self, other: &Point) -> Option<Ordering> {
        Some(self.cmp(other))
    }
}

impl Value for Point {
    ghost kind = { point_kind };

    ghost lawful = { points_lawful };

    fn word(self) -> u64 {
        u64::from(self.pressure) * 65536 + (self.speed as i32 + 6000) as u64
    }

    // not by `new`: a must-fail edit lets this one read past a limit
    fn read(word: u64) -> Option<Point> {
        let pressure = word / 65536;
        let offset = word % 65536;
        if pressure > 7000 || offset > 12000 {
            return None;
        }
        Some(Point::within(pressure as u16, offset as i16 - 6000))
    }

    // in each kind that has `Ord`: by the rules `Value` cannot ask for it
    fn less(self, other: Point) -> bool {
        self < other
    }

    fn rest() -> Point {
        Point::within(0, 0)
    }
}

impl OrderedValue for Point {
    ghost ordered = { point_less };
}

#[cfg(test)]
mod tests {
    use super::*;
    use protocol::SILENT;
    use std::test::Fail;

    // The number by which a point is refused, if it is.
    fn refusal(pressure: u64, speed: i64) -> Option<u8> {
        Some(Point::new(pressure, speed).err()?.number())
    }

    #[test]
    fn points_at_their_limits(rt: HostRuntime) {
        assert_eq!(rt; refusal(7000, 6000), None);
        assert_eq!(rt; refusal(7000, -6000), None);
        assert_eq!(rt; refusal(7001, 0), Some(6));
        assert_eq!(rt; refusal(0, 6001), Some(7));
        assert_eq!(rt; refusal(0, -6001), Some(7));
        assert_eq!(rt;
            refusal(7001, -6001),
            Some(6),
            "the lowest number that applies"
        );
        assert_eq!(rt; refusal(u64::MAX, i64::MIN), Some(6));
        assert_eq!(rt; refusal(0, i64::MIN), Some(7));
    }

    #[test]
    fn words_that_read_as_none(rt: HostRuntime) -> Result<(), Fail> {
        assert_eq!(rt; Point::read(SILENT), None);
        assert_eq!(rt; Point::read(458764001), None);
        assert_eq!(rt; Point::read(12001), None, "no speed has this offset");
        assert_eq!(rt; Point::read(7001 * 65536), None, "the pressure is too high");
        assert_eq!(rt; Point::read(0), Some(Point::new(0, -6000)?));
        Ok(())
    }

    // Each is less than the next: by load, then pressure, then size of the speed, then the sign.
    #[test]
    fn points_in_order(rt: HostRuntime) -> Result<(), Fail> {
        let ascending = [
            Point::new(0, 0)?,
            Point::new(0, -1)?,
            Point::new(0, 1)?,
            Point::new(0, -6000)?,
            Point::new(1, 0)?,
            Point::new(7000, 0)?,
            Point::new(1, -1)?,
            Point::new(1, 1)?,
            Point::new(1, -6)?,
            Point::new(2, 3)?,
            Point::new(3, -2)?,
            Point::new(7000, 6000)?,
        ];
        for (i, a) in ascending.iter().enumerate() {
            for (j, b) in ascending.iter().enumerate() {
                assert_eq!(rt; a.less(*b), i < j);
            }
        }
        Ok(())
    }
}
