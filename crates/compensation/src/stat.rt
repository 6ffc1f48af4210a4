// The STAT bits (01, "The reading").
ghost use Rattle.std.specs.Prelude.{◌≡◌, ◌&&◌};
ghost use Rattle.std.specs.Int.Signed.{le_z};
ghost use Rattle.compensation.specs.Stat.{weigh, range};
ghost use Rattle.compensation.specs.ForCode.{input_bits, HeldBits, HeldStat};

use std::cmp::Ordering;

pub const TEMPUR: u16 = 4;

pub const TEMPOR: u16 = 8;

pub const ECOMUR: u16 = 16;

pub const ECOMOR: u16 = 32;

pub const CRAWUR: u16 = 64;

pub const CRAWOR: u16 = 128;

pub const SYSUR: u16 = 256;

pub const SYSOR: u16 = 512;

pub const LCINTEG: u16 = 2048;

fn weight_if(test: bool, weight: u16) -> u16
    ensures { result ≡ weigh test weight }
{
    if test { weight } else { 0 }
}

// A value beyond its limits; equal to a limit raises nothing.
fn range_bits(lo: i64, hi: i64, x: i64, under: u16, over: u16) -> u16
    ensures { result ≡ range lo hi x under over }
{
    weight_if(x < lo, under) | weight_if(hi < x, over)
}

// Kept: `contains` of a range says the same, and takes a reading 5 instructions more (165 for 160), 3 by full tables.
fn is_within(lo: i64, hi: i64, x: i64) -> bool
    ensures { result ≡ (le_z lo x && le_z x hi) }
{
    lo <= x && x <= hi
}

// The bits of ELEC, TEMP and the integrity byte. Nearly every reading has none of them, and leaves after three tests.
fn input_bits(elec: i64, temp: i64, integrity: u8) -> u16
    ensures { result ≡ input_bits elec temp integrity }
{
    if is_within(-3_276_800, 5_898_240, temp)
        && is_within(-7_864_320, 7_864_320, elec)
        && integrity == 0
    {
        return 0;
    }
    let of_temp = range_bits(-3_276_800, 5_898_240, temp, TEMPUR, TEMPOR);
    let of_elec = range_bits(-7_864_320, 7_864_320, elec, ECOMUR, ECOMOR);
    of_temp | (of_elec | weight_if(integrity == 1, LCINTEG))
}

// The bits of a raw value, from what it was held at: it was moved exactly where it is beyond a limit, upwards where it is below.
fn held_bits(raw: i64, held: i64, under: u16, over: u16) -> u16
    ensures { HeldBits raw held under over result }
{
    match raw.cmp(&held) {
        Ordering::Less => under,
        Ordering::Equal => 0,
        Ordering::Greater => over,
    }
}

// The bits of a reading, of which `cell` and `system` are the raw values, held at `craw` and `sraw`. Nearly every reading is held
// nowhere, and has those of its inputs alone.
// Kept: ELEC is the filter's and no sample's, so that elec, temp and integrity are no `Sample` of a corner.
pub fn stat_bits(
    elec: i64,
    temp: i64,
    integrity: u8,
    cell: i64,
    craw: i64,
    system: i64,
    sraw: i64,
) -> u16
    ensures { HeldStat elec temp integrity cell craw system sraw result }
{
    if cell == craw && system == sraw {
        return input_bits(elec, temp, integrity);
    }
    let of_input = input_bits(elec, temp, integrity);
    let of_cell = held_bits(cell, craw, CRAWUR, CRAWOR);
    let of_system = held_bits(system, sraw, SYSUR, SYSOR);
    of_input | (of_cell | of_system)
}
