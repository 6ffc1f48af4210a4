// The sections of a sheet, read by its cursor: a line for each, with its number, its count and its figures.
ghost use Rattle.std.specs.Prelude.{◌≡◌};
ghost use Rattle.sheet.specs.Step.{moved};
ghost use Rattle.tour.specs.Contents.{figures_end, points_end, section_end};

use crate::contents;
use figures::Cell;
use refusal::{Refusal, number_of};
use sheet::{Cursor, places};

// "Five sections in this order": behind the cell section each starts where the one before ends.
pub(crate) fn print_sheet(rt: &impl Print, sheet: &[u8]) {
    print_cell(rt, "cell", sheet);
    let mut cursor = Cursor {
        sheet,
        at: places::TEMPERATURE_START,
    };
    print_section(rt, "temperature", &mut cursor, 3);
    print_section(rt, "linearity", &mut cursor, 2);
    print_section(rt, "system", &mut cursor, 1);
    print_section(rt, "filter", &mut cursor, 1);
}

pub(crate) fn print_cell(rt: &impl Print, what: &str, sheet: &[u8]) {
    let section = contents::cell_section(sheet);
    let number = number_of(&section.read);
    let count = section.count;
    let Cell {
        cofs,
        cgai,
        cmin,
        cmax,
    } = section.cell;
    let _ = println!(rt; "cursor {what}: {number}, {count}: {cofs} {cgai} {cmin} {cmax}");
}

// A section from where the cursor is: its count, and so many figures to each that it counts.
fn print_section(rt: &impl Print, what: &str, cursor: &mut Cursor, each: u8)
    ensures { cursor.new ≡ moved cursor.old (section_end cursor.old.sheet.now cursor.old.at each) }
{
    let counted = cursor.count();
    let number = number_of(&counted);
    let count = counted.unwrap_or(0);
    let _ = print!(rt; "cursor {what}: {number}, {count}:");
    print_points(rt, cursor, count, each);
    let _ = println!(rt);
}

fn print_points(rt: &impl Print, cursor: &mut Cursor, count: u8, each: u8)
    ensures { cursor.new ≡ moved cursor.old (points_end cursor.old.sheet.now cursor.old.at each count) }
{
    for _ in 0..count {
        print_figures(rt, cursor, each);
    }
}

fn print_figures(rt: &impl Print, cursor: &mut Cursor, count: u8)
    ensures { cursor.new ≡ moved cursor.old (figures_end cursor.old.sheet.now cursor.old.at count) }
{
    for _ in 0..count {
        print_figure(rt, cursor.figure());
    }
}

// As it stands; or the number of the refusal in its place.
fn print_figure(rt: &impl Print, figure: Result<i64, Refusal>) {
    let _ = match figure {
        Ok(value) => print!(rt; " {value}"),
        Err(refusal) => {
            let number = refusal.number();
            print!(rt; " refused {number}")
        }
    };
}
