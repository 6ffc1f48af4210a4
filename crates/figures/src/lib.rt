// The calibration figures (01, "The calibration sheet"), by the manuals' names.
#![tactic(auto)]

ghost use Rattle.std.specs.Prelude.{◌≡◌};
ghost use Rattle.figures.specs.Default.{default_sheet};
ghost use Rattle.figures.specs.Rows.{linearity_row, temperature_row};
ghost use Rattle.figures.specs.Unused.{no_linearity, no_temperature};

use arithmetic::Placed;

// A point of one of the two tables.
pub trait Point: Copy {
    ghost unused: { Self };

    // What stands past the count: 0 in each figure.
    fn unused() -> Self
        ensures { result ≡ unused };
}

#[repr(C)]
#[derive(Clone, Copy)]
pub struct Cell {
    pub cofs: i64,
    pub cgai: i64,
    pub cmin: i64,
    pub cmax: i64,
}

#[repr(C)]
#[derive(Clone, Copy)]
pub struct TemperaturePoint {
    pub ct: i64,
    pub cto: i64,
    pub ctg: i64,
}

impl Point for TemperaturePoint {
    ghost unused = { no_temperature };

    fn unused() -> TemperaturePoint {
        TemperaturePoint {
            ct: 0,
            cto: 0,
            ctg: 0,
        }
    }
}

impl Placed for TemperaturePoint {
    ghost point = { temperature_row };

    fn place(self) -> i64 {
        self.ct
    }

    fn value(self, j: usize) -> i64 {
        match j {
            0 => self.ct,
            1 => self.cto,
            2 => self.ctg,
            _ => 0,
        }
    }
}

// The first ctn points are figures; what stands in the others is not looked at.
#[repr(C)]
#[derive(Clone, Copy)]
pub struct Temperature {
    pub ctn: u8,
    pub points: [TemperaturePoint; 5],
}

#[repr(C)]
#[derive(Clone, Copy)]
pub struct LinearityPoint {
    pub clx: i64,
    pub clk: i64,
}

impl Point for LinearityPoint {
    ghost unused = { no_linearity };

    fn unused() -> LinearityPoint {
        LinearityPoint { clx: 0, clk: 0 }
    }
}

impl Placed for LinearityPoint {
    ghost point = { linearity_row };

    fn place(self) -> i64 {
        self.clx
    }

    fn value(self, j: usize) -> i64 {
        match j {
            0 => self.clx,
            1 => self.clk,
            _ => 0,
        }
    }
}

// The first cln points are figures; what stands in the others is not looked at.
#[repr(C)]
#[derive(Clone, Copy)]
pub struct Linearity {
    pub cln: u8,
    pub points: [LinearityPoint; 7],
}

#[repr(C)]
#[derive(Clone, Copy)]
pub struct System {
    pub sofs: i64,
    pub sgai: i64,
    pub smin: i64,
    pub smax: i64,
    pub sz: i64,
}

#[repr(C)]
#[derive(Clone, Copy)]
pub struct Filter {
    pub fflv: i64,
    pub ffst: i64,
}

#[repr(C)]
#[derive(Clone, Copy)]
pub struct Calibration {
    pub cell: Cell,
    pub temperature: Temperature,
    pub linearity: Linearity,
    pub system: System,
    pub filter: Filter,
}

impl Calibration {
    // 1 as a gain: gains and gain adjustments count in 1/2^28.
    pub const UNIT: i64 = 268_435_456;
    // 100 percent, force or engineering units, in steps.
    pub const FULL_SCALE: i64 = 6_553_600;
    // 25 °C, in steps.
    pub const ROOM: i64 = 1_638_400;
    // The default ranges are ±150.
    pub const RANGE: i64 = 9_830_400;

    // The largest magnitude of each figure.
    pub const COFS_MOST: i64 = 19_660_800;

    pub const CGAI_MOST: i64 = 17_179_869_184;

    pub const CMIN_CMAX_MOST: i64 = 2_097_152_000;

    pub const CT_MOST: i64 = 13_107_200;

    pub const CTO_MOST: i64 = 1_310_720;

    pub const CTG_MOST: i64 = 26_843_545;

    pub const CLX_MOST: i64 = 2_097_152_000;

    pub const CLK_MOST: i64 = 65_536_000;

    pub const SOFS_MOST: i64 = 2_097_152_000;

    pub const SGAI_MOST: i64 = 2_147_483_648;

    pub const SMIN_SMAX_MOST: i64 = 2_097_152_000;

    pub const SZ_MOST: i64 = 2_097_152_000;

    pub const FFLV_MOST: i64 = 39_321_600;

    pub const FFST_MOST: i64 = 1_000;

    // "The default sheet is 001's: offsets and adjustments 0, gains 1, CT 0 and 25 °C, CLX 0 and 100, both ranges ±150,
    // SZ 0, filter 0 and 0."
    pub fn new() -> Self
        ensures { result ≡ default_sheet }
    {
        let ct_0 = TemperaturePoint::unused();
        let ct_25 = TemperaturePoint {
            ct: Calibration::ROOM,
            cto: 0,
            ctg: 0,
        };
        let clx_0 = LinearityPoint::unused();
        let clx_100 = LinearityPoint {
            clx: Calibration::FULL_SCALE,
            clk: 0,
        };
        Calibration {
            cell: Cell {
                cofs: 0,
                cgai: Calibration::UNIT,
                cmin: -Calibration::RANGE,
                cmax: Calibration::RANGE,
            },
            temperature: Temperature {
                ctn: 2,
                points: [ct_0, ct_25, ct_0, ct_0, ct_0],
            },
            linearity: Linearity {
                cln: 2,
                points: [clx_0, clx_100, clx_0, clx_0, clx_0, clx_0, clx_0],
            },
            system: System {
                sofs: 0,
                sgai: Calibration::UNIT,
                smin: -Calibration::RANGE,
                smax: Calibration::RANGE,
                sz: 0,
            },
            filter: Filter { fflv: 0, ffst: 0 },
        }
    }
}
