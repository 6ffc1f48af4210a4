// The cell section of a sheet, read by its cursor: the count and figures that stand in it, as they stand.
ghost use Rattle.std.specs.Prelude.{◌≡◌};
ghost use Rattle.refusal.specs.Refusal.{number_of};
ghost use Rattle.tour.specs.Contents.{cell_section};

use figures::Cell;
use refusal::Refusal;
use sheet::Cursor;

// What is there, 0 for what is missing, and whether all of it is.
#[derive(Clone, Copy)]
pub(crate) struct CellSection {
    pub read: Result<(), Refusal>,
    pub count: u8,
    pub cell: Cell,
}

// From the sheet's first byte: a count, and four figures. A refused step leaves the cursor where it is, so that the steps after it are
// refused too: the last one's answer is that of all.
pub(crate) fn cell_section(sheet: &[u8]) -> CellSection
    ensures { record { number = number_of result.read; count = result.count; cell = result.cell } ≡ cell_section sheet.now }
{
    let mut cursor = Cursor::start(sheet);
    let count = cursor.count();
    let cofs = cursor.figure();
    let cgai = cursor.figure();
    let cmin = cursor.figure();
    let cmax = cursor.figure();
    CellSection {
        read: cmax.and(Ok(())),
        count: count.unwrap_or(0),
        cell: Cell {
            cofs: cofs.unwrap_or(0),
            cgai: cgai.unwrap_or(0),
            cmin: cmin.unwrap_or(0),
            cmax: cmax.unwrap_or(0),
        },
    }
}
