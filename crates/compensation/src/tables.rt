// The figures' tables, interpolated (steps 2 and 4).
ghost use Rattle.std.specs.Prelude.{◌≡◌};
ghost use Rattle.arithmetic.specs.Table.{interpolated};
ghost use Rattle.arithmetic.specs.Two.{interpolated_two};
ghost use Rattle.figures.specs.Acceptable.{TemperatureAcceptable, LinearityAcceptable};
ghost use Rattle.figures.specs.Rows.{linearities, temperatures};

use arithmetic::{interpolate_one, interpolate_two};
use figures::{Linearity, Temperature};

// What a temperature asks for: o is taken off ELEC, and g is added to 1 as a gain.
#[derive(Clone, Copy)]
pub struct Adjustment {
    pub o: i64,
    pub g: i64,
}

// o and g at TEMP.
pub fn adjustments(table: Temperature, temp: i64) -> Adjustment
    requires { TemperatureAcceptable table }
    ensures { record { first = result.o; second = result.g } ≡ interpolated_two (temperatures table) temp }
{
    let values = interpolate_two(&table.points, table.ctn as usize, temp);
    Adjustment {
        o: values.first,
        g: values.second,
    }
}

// CLK at CRAW.
pub fn correction(table: Linearity, craw: i64) -> i64
    requires { LinearityAcceptable table }
    ensures { result ≡ interpolated 1 (linearities table) craw }
{
    interpolate_one(&table.points, table.cln as usize, craw)
}
