// The numbers of a market, as the fields of its file say them.

mod add;

// A trader: how much it owns of each good, and how it weighs each. The entries past the goods never matter.
#[derive(Clone, Copy)]
pub(crate) struct Trader {
    pub(crate) owns: [u16; 8],
    pub(crate) weighs: [u16; 8],
}

// A part of a file.
#[derive(Clone, Copy)]
pub(crate) struct Span {
    pub(crate) at: usize,
    pub(crate) len: usize,
}

// What the fields so far have said: no goods, or no sum, is 0. So many rows of the table of traders are filled.
#[derive(Clone, Copy)]
pub(crate) struct Numbers {
    pub(crate) goods: usize,
    pub(crate) named: usize,
    pub(crate) names: [Span; 8],
    pub(crate) sum: u32,
    pub(crate) filled: usize,
    pub(crate) traders: [Trader; 16],
}
