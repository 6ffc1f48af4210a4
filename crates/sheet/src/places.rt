// Where each section of a sheet starts (01, "The calibration sheet"), by the counts of points in its tables. The cell section starts
// at 0.
ghost use Rattle.std.specs.Prelude.{◌≡◌, ◌^◌, ◌<◌};
ghost use Rattle.sheet.specs.Places.{linearity_start, system_start, filter_start, sheet_end};

// How many bytes: a count and four figures.
pub const CELL_SIZE: usize = 1 + 4 * 8;

// A count and five.
pub const SYSTEM_SIZE: usize = 1 + 5 * 8;

// A count and two.
pub const FILTER_SIZE: usize = 1 + 2 * 8;

// The section in front of the new form's five (02, Change 6): a count and two.
pub const IDENTITY_SIZE: usize = 1 + 2 * 8;

// CT, CTO and CTG.
pub const TEMPERATURE_POINT_SIZE: usize = 3 * 8;

// CLX and CLK.
pub const LINEARITY_POINT_SIZE: usize = 2 * 8;

// Each section starts where the one before ends; a table is its count and its points.
pub const TEMPERATURE_START: usize = CELL_SIZE;

pub fn linearity_start(ctn: u8) -> usize
    ensures { (result ≡ linearity_start ctn) × (result < 2 ^ 13) }
{
    TEMPERATURE_START + 1 + TEMPERATURE_POINT_SIZE * (ctn as usize)
}

pub fn system_start(ctn: u8, cln: u8) -> usize
    ensures { (result ≡ system_start ctn cln) × (result < 2 ^ 14) }
{
    linearity_start(ctn) + 1 + LINEARITY_POINT_SIZE * (cln as usize)
}

pub fn filter_start(ctn: u8, cln: u8) -> usize
    ensures { (result ≡ filter_start ctn cln) × (result < 2 ^ 14) }
{
    system_start(ctn, cln) + SYSTEM_SIZE
}

// Past the last section.
pub fn sheet_end(ctn: u8, cln: u8) -> usize
    ensures { (result ≡ sheet_end ctn cln) × (result < 2 ^ 14) }
{
    filter_start(ctn, cln) + FILTER_SIZE
}
