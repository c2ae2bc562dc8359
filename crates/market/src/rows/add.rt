// Adding what one field says.
ghost use Rattle.std.specs.Prelude.{◌≡◌, ℕ, ◌+◌, ◌*◌, ◌<◌, ◌≤◌, length, take, sum, ◌==◌, slice_index, slice_index_or, []};
ghost use Rattle.market.specs.Fields.{due_of};
ghost use Rattle.market.specs.Rows.{cut};
ghost use Rattle.market.specs.Adding.{Written, unsaid, due_in, with_goods, with_name, with_sum, with_trader};

use super::{Numbers, Span, Trader};
use crate::field::{Due, bytes_from};
use std::array;

// The number of one of some pairs of bytes; 0 past the last.
fn amount_at(pairs: &[[u8; 2]], place: usize) -> u16
    ensures { result ≡ 256 * slice_index (slice_index_or pairs.now place []) 0 + slice_index (slice_index_or pairs.now place []) 1 }
{
    pairs.get(place).map_or(0, |pair| u16::from_be_bytes(*pair))
}

// The numbers of some pairs of bytes; 0 past the last.
fn amounts(pairs: &[[u8; 2]]) -> [u16; 8]
    ensures { (length result ≡ 8) × ((k : ℕ) → k < 8 → slice_index result k ≡ 256 * slice_index (slice_index_or pairs.now k []) 0 + slice_index (slice_index_or pairs.now k []) 1) }
{
    array::from_fn(|good| amount_at(pairs, good))
}

// The first bytes, so many of them or all.
fn first_bytes<'f>(bytes: &'f [u8], len: usize) -> &'f [u8]
    ensures { result.now ≡ take len bytes.now }
{
    bytes.get(..len).unwrap_or(bytes)
}

impl Span {
    // The part of a file that the span marks, as far as the file goes.
    pub(crate) fn of<'f>(&self, file: &'f [u8]) -> &'f [u8]
        ensures { result.now ≡ cut file.now self.now }
    {
        first_bytes(bytes_from(file, self.at), self.len)
    }
}

// The sum of some numbers of two bytes.
fn total(amounts: &[u16]) -> u32
    requires { length amounts.now ≤ 8 }
    ensures { result ≡ sum amounts.now }
{
    amounts.iter().map(|n| u32::from(*n)).sum()
}

impl Trader {
    // The trader of a body: first what it owns of each good, then how it weighs each.
    pub(crate) fn of(body: &[u8], goods: usize) -> Trader
        requires { (goods ≤ 8) × (length body.now ≡ 4 * goods) }
        ensures { Written body.now goods result }
    {
        let (pairs, _) = body.as_chunks::<2>();
        let (owned, weighed) = pairs.split_at(goods);
        Trader {
            owns: amounts(owned),
            weighs: amounts(weighed),
        }
    }

    // The weights of the goods add up to that.
    pub(crate) fn adds_up_to(&self, goods: usize, whole: u32) -> bool
        requires { (goods ≤ 8) × (length self.now.weighs ≡ 8) }
        ensures { result ≡ (sum (take goods self.now.weighs) == whole) }
    {
        total(&self.weighs[..goods]) == whole
    }
}

impl Numbers {
    pub(crate) fn unsaid() -> Numbers
        ensures { result ≡ unsaid }
    {
        let none = Trader {
            owns: [0; 8],
            weighs: [0; 8],
        };
        Numbers {
            goods: 0,
            named: 0,
            names: [Span { at: 0, len: 0 }; 8],
            sum: 0,
            filled: 0,
            traders: [none; 16],
        }
    }

    // First the goods, then their names, then the sum, then up to 16 traders.
    pub(crate) fn due(&self) -> Option<Due>
        requires { self.now.goods ≤ 8 }
        ensures { due_of result ≡ due_in self.now }
    {
        if self.goods == 0 {
            Some(Due::Goods)
        } else if self.named < self.goods {
            Some(Due::Name)
        } else if self.sum == 0 {
            Some(Due::Sum)
        } else if self.filled < 16 {
            Some(Due::Trader {
                goods: self.goods as u8,
                sum: self.sum,
            })
        } else {
            None
        }
    }

    pub(crate) fn add_goods(&mut self, body: &[u8])
        requires { length body.now ≡ 1 }
        ensures { self.new ≡ with_goods self.old (slice_index body.now 0) }
    {
        self.goods = usize::from(body[0]);
    }

    // The name stands after the three bytes of its field's head.
    pub(crate) fn add_name(&mut self, place: usize, body: &[u8])
        requires { (self.old.named < 8) × (place + 3 < 18446744073709551616) }
        ensures { self.new ≡ with_name self.old (record { at = place + 3; len = length body.now }) }
    {
        let good = self.named;
        self.names[good] = Span {
            at: place + 3,
            len: body.len(),
        };
        self.named = good + 1;
    }

    pub(crate) fn add_sum(&mut self, body: &[u8])
        requires { length body.now ≡ 2 }
        ensures { self.new ≡ with_sum self.old (256 * slice_index body.now 0 + slice_index body.now 1) }
    {
        self.sum = u32::from(u16::from_be_bytes([body[0], body[1]]));
    }

    pub(crate) fn add_trader(&mut self, trader: Trader)
        requires { self.old.filled < 16 }
        ensures { self.new ≡ with_trader self.old trader }
    {
        let row = self.filled;
        self.traders[row] = trader;
        self.filled = row + 1;
    }
}
