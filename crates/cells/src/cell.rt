// A cell as the library holds it.

// The first entries of each table, as many as there are goods, say the cell: the levels of its base, an order of the levels, and a direction
// for each level (true: up). The entries past them never matter. Any numbers may stand in a record; only some records are cells.
#[derive(Clone, Copy)]
pub struct Cell {
    pub base: [u32; 8],
    pub order: [u8; 8],
    pub ups: [bool; 8],
}
