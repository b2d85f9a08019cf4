// The chip: how many banks, rows a bank and columns a row it has, each counted from 0.
ghost use Rattle.std.specs.Prelude.{◌≡◌, ◌≤◌};
ghost use Rattle.sheet.specs.Inside.{inside};

// Made by `Chip::new`; the limits of its sizes hold for good.
#[derive(Clone, Copy, Debug, PartialEq, Eq)]
pub struct Chip {
    pub banks: u32,
    pub rows: u32,
    pub columns: u32,
    ghost banks_in: { (1 ≤ banks) × (banks ≤ 16) },
    ghost rows_in: { (1 ≤ rows) × (rows ≤ 65536) },
    ghost columns_in: { (1 ≤ columns) × (columns ≤ 1024) },
}

impl Chip {
    // Whether the chip has this place: a bank, a row of it and a column of that.
    pub fn holds(&self, bank: u8, row: u16, column: u16) -> bool
        ensures { result ≡ inside self.now.banks self.now.rows self.now.columns bank row column }
    {
        u32::from(bank) < self.banks
            && u32::from(row) < self.rows
            && u32::from(column) < self.columns
    }
}
