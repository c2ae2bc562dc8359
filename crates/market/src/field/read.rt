// Reading one field.
ghost use Rattle.std.specs.Prelude.{◌≡◌, true, length, Some, ◌+◌, ◌*◌, ◌<◌, drop, slice_index};
ghost use Rattle.std.specs.List.{list_all};
ghost use Rattle.layout.specs.Faults.{tag_due, length_fits, value_fits};
ghost use Rattle.layout.specs.Layout.{printing};
ghost use Rattle.mesh.specs.Refusals.{answered};
ghost use Rattle.market.specs.Fields.{due_of, field_of, field_for};

use super::{Due, Field};
use mesh::refusal::Refusal;

// The bytes from a place on; none past the end.
pub(crate) fn bytes_from<'f>(bytes: &'f [u8], at: usize) -> &'f [u8]
    ensures { result.now ≡ drop at bytes.now }
{
    bytes.get(at..).unwrap_or(&[])
}

// A printing character of ASCII, or a blank.
fn is_printing(b: u8) -> bool
    ensures { result ≡ printing b }
{
    (0x20..=0x7E).contains(&b)
}

// Every byte is a printing character.
fn prints(bytes: &[u8]) -> bool
    ensures { result ≡ list_all printing bytes.now }
{
    bytes.iter().all(|b| is_printing(*b))
}

impl Due {
    fn takes_tag(&self, tag: u8) -> bool
        ensures { result ≡ tag_due (due_of (Some self.now)) tag }
    {
        match self {
            Due::Goods => tag == 1,
            Due::Name => tag == 2,
            Due::Sum => tag == 3,
            Due::Trader { .. } => tag == 4,
        }
    }

    fn takes_length(&self, len: usize) -> bool
        ensures { result ≡ length_fits (due_of (Some self.now)) len }
    {
        match self {
            Due::Goods => len == 1,
            Due::Name => (1..=32).contains(&len),
            Due::Sum => len == 2,
            Due::Trader { goods, .. } => len == 4 * usize::from(*goods),
        }
    }

    // Of a body whose length fits.
    #[tactic(auto, using(crate::proofs::FieldChecks::every_prints))]
    fn takes_value(&self, body: &[u8]) -> bool
        requires { length_fits (due_of (Some self.now)) (length body.now) ≡ true }
        ensures { result ≡ value_fits (due_of (Some self.now)) body.now }
    {
        match self {
            Due::Goods => matches!(body, [2..=8, ..]),
            Due::Name => prints(body),
            Due::Sum => {
                matches!(body, [high, low] if (1..=1000).contains(&u16::from_be_bytes([*high, *low])))
            }
            Due::Trader { .. } => true,
        }
    }
}

impl<'f> Field<'f> {
    // The body: a part of the file.
    pub fn body(&self) -> &'f [u8]
        ensures { result.now ≡ (field_of self.now).1 }
    {
        match self {
            Field::Goods(body, _)
            | Field::Name(body, _)
            | Field::Sum(body, _)
            | Field::Trader(body, _) => body,
        }
    }

    // The place of the tag byte.
    pub fn place(&self) -> usize
        ensures { result ≡ (field_of self.now).2 }
    {
        match self {
            Field::Goods(_, place)
            | Field::Name(_, place)
            | Field::Sum(_, place)
            | Field::Trader(_, place) => *place,
        }
    }
}

// The field at the head of these bytes, which stand at a place of the file.
#[tactic(auto, using(crate::proofs::FieldChecks::passed, crate::proofs::FieldChecks::failed))]
fn field_in<'f>(bytes: &'f [u8], at: usize, due: Option<Due>) -> Result<Field<'f>, Refusal>
    ensures { answered field_of result ≡ field_for (due_of due) bytes.now at }
{
    let [tag, high, low, rest @ ..] = bytes else {
        return Err(Refusal::Truncated(at));
    };
    let Some(due) = due.filter(|due| due.takes_tag(*tag)) else {
        return Err(Refusal::TagNotDue(at));
    };
    let len = usize::from(u16::from_be_bytes([*high, *low]));
    if !due.takes_length(len) {
        return Err(Refusal::LengthWrong(at));
    }
    let Some(body) = rest.get(..len) else {
        return Err(Refusal::Truncated(at));
    };
    if !due.takes_value(body) {
        return Err(Refusal::ValueOutOfRange(at));
    }
    match due {
        Due::Goods => Ok(Field::Goods(body, at)),
        Due::Name => Ok(Field::Name(body, at)),
        Due::Sum => Ok(Field::Sum(body, at)),
        Due::Trader { .. } => Ok(Field::Trader(body, at)),
    }
}

// The field at a place of the file. Checks in this order: a whole head, a tag that is due, a length that fits it, a whole body, a value in range.
pub fn next_field<'f>(file: &'f [u8], at: usize, due: Option<Due>) -> Result<Field<'f>, Refusal>
    ensures { answered field_of result ≡ field_for (due_of due) (drop at file.now) at }
{
    field_in(bytes_from(file, at), at, due)
}
