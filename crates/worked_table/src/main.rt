// Prints 001's worked temperature table (its chapter 6), interpolated: for some temperatures in °C the offset o, in steps, and
// the gain adjustment g, in 1/2^28.
#![tactic(auto)]

use compensation::input_at;
use figures::{Temperature, TemperaturePoint};
use std::io;

// CT, CTO and CTG of the four points measured there, in steps and in 1/2^28; the fifth is not used.
const MEASURED: Temperature = Temperature {
    ctn: 4,
    points: [
        TemperaturePoint {
            ct: -1_002_701,
            cto: 187,
            ctg: 1_227_162,
        },
        TemperaturePoint {
            ct: 1_356_595,
            cto: 0,
            ctg: 0,
        },
        TemperaturePoint {
            ct: 2_306_867,
            cto: -844,
            ctg: -1_951_798,
        },
        TemperaturePoint {
            ct: 3_401_318,
            cto: -2_742,
            ctg: -2_232_931,
        },
        TemperaturePoint {
            ct: 0,
            cto: 0,
            ctg: 0,
        },
    ],
};

fn main(rt: HostRuntime) -> io::Result<()> {
    println!(rt; "TEMP o g")?;
    for degrees in [-25_i16, -15, 0, 20, 25, 40, 60] {
        let input = input_at(MEASURED, 0, i64::from(degrees) * 65_536);
        println!(rt; "{degrees} {} {}", input.o, input.g)?;
    }
    Ok(())
}
