// Bytes that are written as pairs of hexadecimal digits.
ghost use Rattle.std.specs.Prelude.{◌≡◌, ◌≤◌, take, length};
ghost use Rattle.input.specs.Hexadecimal.{digit, byte_of, decoded};

// The value of a digit; 0 for any other character.
fn digit(c: u8) -> u8
    ensures { result ≡ digit c }
{
    match c {
        b'0'..=b'9' => c - b'0',
        b'a'..=b'f' => c - b'a' + 10,
        _ => 0,
    }
}

// The byte of two digits.
fn byte_of(pair: &[u8; 2]) -> u8
    ensures { result ≡ byte_of pair.now }
{
    let [high, low] = *pair;
    digit(high) * 16 + digit(low)
}

// Writes the bytes that the digits stand for, as many as there is room for, and answers them.
pub fn decode<'r>(digits: &[u8], room: &'r mut [u8]) -> &'r [u8]
    ensures bytes { result.now ≡ take (length room.old) (decoded digits.now) }
    ensures fits { length result.now ≤ length room.old }
{
    let (pairs, _) = digits.as_chunks::<2>();
    let count = pairs.len().min(room.len());
    for (i, pair) in pairs[..count].iter().enumerate() {
        room[i] = byte_of(pair);
    }
    &room[..count]
}
