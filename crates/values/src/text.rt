ghost use Rattle.std.specs.Prelude.{Some};
ghost use Rattle.values.specs.Text.{point_text, switch_text};

use crate::point::Point;
use crate::switch::Switch;
use protocol::Value;
use std::fmt;

impl fmt::Display for Switch {
    ghost output = { λ switch. Some (switch_text switch) };

    fn fmt<W: fmt::Write>(&self, f: &mut fmt::Formatter<W>) -> fmt::Result {
        f.write_str(match self {
            Switch::Hold => "hold",
            Switch::Go => "go",
        })
    }
}

impl fmt::Display for Point {
    ghost output = { λ point. Some (point_text point) };

    fn fmt<W: fmt::Write>(&self, f: &mut fmt::Formatter<W>) -> fmt::Result {
        if *self == Point::rest() {
            return f.write_str("rest");
        }
        let (bar, tenths) = (self.pressure() / 10, self.pressure() % 10);
        let speed = self.speed().unsigned_abs();
        let way = if self.speed() < 0 {
            "anticlockwise"
        } else {
            "clockwise"
        };
        write!(f, "{bar}.{tenths} bar at {speed} rpm {way}")
    }
}
