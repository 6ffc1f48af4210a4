// The registers on the bus, by 004's decimal numbers (01, "The bus"; Change 1).
#![tactic(auto)]

ghost use Rattle.std.specs.Prelude.{◌≡◌, pos, ◌≤ℤ◌};
ghost use Rattle.register.specs.Register.{range, symmetric as symmetric_in, listed, access_of, range_of};

use binary32::received::Range;
use figures::Calibration;

// 004's decimal numbers; of a table's column the first point's and the last's.
pub const STAT: u32 = 6;

pub const SOUT: u32 = 9;

pub const SYS: u32 = 10;

pub const TEMP: u32 = 11;

pub const SRAW: u32 = 12;

pub const CELL: u32 = 13;

pub const FLAG: u32 = 14;

pub const CRAW: u32 = 15;

pub const ELEC: u32 = 16;

pub const SZ: u32 = 22;

pub const SYSN: u32 = 23;

pub const PEAK: u32 = 24;

pub const TROF: u32 = 25;

pub const CGAI: u32 = 40;

pub const COFS: u32 = 41;

pub const CMIN: u32 = 44;

pub const CMAX: u32 = 45;

pub const CLN: u32 = 50;

pub const CLX: u32 = 51;

pub const CLX_LAST: u32 = CLX + 6;

pub const CLK: u32 = 61;

pub const CLK_LAST: u32 = CLK + 6;

pub const SGAI: u32 = 70;

pub const SOFS: u32 = 71;

pub const SMIN: u32 = 74;

pub const SMAX: u32 = 75;

pub const FFLV: u32 = 92;

pub const FFST: u32 = 93;

pub const APPLY: u32 = 99;

pub const RST: u32 = 100;

pub const SNAP: u32 = 103;

pub const PEAK_RESET: u32 = 104;

pub const CTN: u32 = 110;

pub const CT: u32 = 111;

pub const CT_LAST: u32 = CT + 4;

pub const CTG: u32 = 116;

pub const CTG_LAST: u32 = CTG + 4;

pub const CTO: u32 = 121;

pub const CTO_LAST: u32 = CTO + 4;

// Steps of 1/65,536, and parts of 1/2^28.
const STEPS: u32 = 16;

const PARTS: u32 = 28;

// What a frame may do with a register.
#[derive(Clone, Copy)]
pub enum Access {
    Unlisted,
    ReadOnly,
    Takes(Range),
    Action,
}

// What takes as much below 0 as above, and what takes whole numbers alone.
fn symmetric(shift: u32, most: i64) -> Access
    requires { pos 0 ≤ℤ most }
    ensures { result ≡ symmetric_in shift most }
{
    Access::Takes(Range {
        shift,
        least: -most,
        most,
    })
}

fn whole(least: i64, most: i64) -> Access
    ensures { result ≡ range 0 least most }
{
    Access::Takes(Range {
        shift: 0,
        least,
        most,
    })
}

// What a frame may do with a register, and the range of what it takes: "its range in 01's sheet table" (Change 1).
#[tactic(auto, unfolding(crate::specs::Register::access_of))]
pub fn access_to(register: u32) -> Access
    ensures { result ≡ access_of register }
{
    match register {
        STAT | SOUT..=CELL | CRAW..=ELEC | SYSN..=TROF => Access::ReadOnly,
        FLAG => whole(0, 65_535),
        SZ => symmetric(STEPS, Calibration::SZ_MOST),
        CGAI => symmetric(PARTS, Calibration::CGAI_MOST),
        COFS => symmetric(STEPS, Calibration::COFS_MOST),
        CMIN..=CMAX => symmetric(STEPS, Calibration::CMIN_CMAX_MOST),
        CLN => whole(2, 7),
        CLX..=CLX_LAST => symmetric(STEPS, Calibration::CLX_MOST),
        CLK..=CLK_LAST => symmetric(STEPS, Calibration::CLK_MOST),
        SGAI => symmetric(PARTS, Calibration::SGAI_MOST),
        SOFS => symmetric(STEPS, Calibration::SOFS_MOST),
        SMIN..=SMAX => symmetric(STEPS, Calibration::SMIN_SMAX_MOST),
        FFLV => Access::Takes(Range {
            shift: STEPS,
            least: 0,
            most: Calibration::FFLV_MOST,
        }),
        FFST => whole(0, Calibration::FFST_MOST),
        APPLY..=RST | SNAP..=PEAK_RESET => Access::Action,
        CTN => whole(2, 5),
        CT..=CT_LAST => symmetric(STEPS, Calibration::CT_MOST),
        CTG..=CTG_LAST => symmetric(PARTS, Calibration::CTG_MOST),
        CTO..=CTO_LAST => symmetric(STEPS, Calibration::CTO_MOST),
        _ => Access::Unlisted,
    }
}

// What a write to a register takes; of one that takes none it is never used.
// Kept: no Option. The definition gives each number a range, of which two wrong programs are refused (range_none,
// range_in_parts).
#[tactic(auto, unfolding(crate::specs::Register::range_of))]
pub fn range_of(register: u32) -> Range
    ensures { result ≡ range_of register }
{
    match access_to(register) {
        Access::Takes(range) => range,
        _ => Range {
            shift: 16,
            least: 0,
            most: 0,
        },
    }
}

// Is a register listed? (A read asks no more, and takes no range along.)
// Kept: a table of its own. By `access_to` a read takes 38 instructions more (docs/DECISIONS.md, 40).
#[tactic(auto, unfolding(crate::specs::Register::access_of))]
pub fn is_listed(register: u32) -> bool
    ensures { result ≡ listed (access_of register) }
{
    matches!(
        register,
        STAT | SOUT..=ELEC
            | SZ..=TROF
            | CGAI..=COFS
            | CMIN..=CMAX
            | CLN..=CLX_LAST
            | CLK..=CLK_LAST
            | SGAI..=SOFS
            | SMIN..=SMAX
            | FFLV..=FFST
            | APPLY..=RST
            | SNAP..=PEAK_RESET
            | CTN..=CTO_LAST
    )
}
