// What a call with a workbook's cells lends to be read, as it stands: nothing is known of it yet.

// The cells of a list: a kind byte each, 0 for blank, and the float beside it. Bytes and floats may be any, and the lists of any length.
// Two lists and none of cells: the C interface lends them so, and their lengths are compared before either may be read.
#[derive(Clone, Copy)]
pub struct WorkbookCells<'a> {
    pub kinds: &'a [u8],
    pub numbers: &'a [f64],
}

// A workbook: n, the cut and every number may be any i64, and the lists of any length.
#[derive(Clone, Copy)]
pub struct Workbook<'a> {
    pub years: i64,
    pub cut: i64,
    pub payments: WorkbookCells<'a>,
    pub adjustments: WorkbookCells<'a>,
    pub weights: &'a [i64],
    pub openings: &'a [i64],
}
