ghost use Rattle.values.specs.Limits.{Limits};

pub mod value;

/// An operating point. Its limits belong to the type: no point outside them exists.
#[derive(Clone, Copy, PartialEq, Eq, Debug)]
pub struct Point {
    // tenths of a bar
    pressure: u16,
    // rpm, negative for anticlockwise
    speed: i16,
    ghost limits: { Limits pressure speed },
}
