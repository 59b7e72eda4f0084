// The cells of a workbook, converted to amounts.
#![tactic(auto)]

ghost use Rattle.std.specs.Prelude.{◌≡◌, map, length};
ghost use Rattle.workbook.specs.Cells.{workbook_cell};
ghost use Rattle.workbook.specs.Workbook.{amounts_of};
ghost use Rattle.workbook_cells.specs.Conversion.{cell_told, amount_told, stored, all_convertible};

pub mod lent_workbook;

use floats::{NotExact, whole_number};
use lent_workbook::WorkbookCells;
use verdicts::limits::GREATEST_AMOUNT;

// A cell is blank or carries its number. Kept as no Option: document 01 names this enum for it.
#[derive(Clone, Copy)]
pub enum Cell {
    Blank,
    Number(f64),
}

// Converts the cells of a list, and says whether all could be: whether every kind byte is 0 or 1 and every number whole.
// A number that is not whole has the amount 0, which no answer rests on.
pub fn convert(cells: WorkbookCells<'_>, amounts: &mut [i64]) -> bool
    requires { (length cells.kinds.now ≡ length cells.numbers.now) × (length amounts.old ≡ length cells.numbers.now) }
    ensures value { result ≡ all_convertible (length cells.entry.numbers.now) cells.entry.kinds.now cells.entry.numbers.now }
    ensures amounts_after { amounts.new ≡ map stored (amounts_of cells.entry.kinds.now cells.entry.numbers.now) }
{
    let WorkbookCells { kinds, numbers } = cells;
    let mut all = true;
    // By places: a zip of the amounts with the cells was tried, and its proof did not close, since nothing is known of what they hold after it.
    for (j, amount) in amounts.iter_mut().enumerate() {
        let kind = kinds[j];
        let whole = amount_of(cell_of(kind, numbers[j]));
        *amount = whole.unwrap_or(0);
        all &= (kind <= 1) & whole.is_some();
    }
    all
}

// The cell of a kind byte, 0 for blank, and of the float beside it.
pub fn cell_of(kind: u8, number: f64) -> Cell
    ensures { cell_told result ≡ workbook_cell kind number }
{
    if kind == 0 {
        Cell::Blank
    } else {
        Cell::Number(number)
    }
}

// The amount that a cell stands for, 0 where it is blank; `None` where its number is not whole.
// A number beyond 2^53 is left to question 5, which refuses what stands for it here.
pub fn amount_of(cell: Cell) -> Option<i64>
    ensures { result ≡ amount_told (cell_told cell) }
{
    let Cell::Number(number) = cell else {
        return Some(0);
    };
    match whole_number(number) {
        Ok(amount) => Some(amount),
        Err(NotExact::Larger) => Some(GREATEST_AMOUNT + 1),
        Err(NotExact::NotWhole) => None,
    }
}
