// The fields of a market file.

mod read;

pub(crate) use read::bytes_from;
pub use read::next_field;

// A field: its body, which is a part of the file, and the place of its tag byte.
#[derive(Clone, Copy)]
pub enum Field<'f> {
    Goods(&'f [u8], usize),
    Name(&'f [u8], usize),
    Sum(&'f [u8], usize),
    Trader(&'f [u8], usize),
}

// The field that is due, where one is. A trader's is known by the number of goods and the weight sum.
#[derive(Clone, Copy)]
pub enum Due {
    Goods,
    Name,
    Sum,
    Trader { goods: u8, sum: u32 },
}
