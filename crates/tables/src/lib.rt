// Tables of a fixed size.
#![tactic(auto)]

ghost use Rattle.std.specs.Prelude.{◌≡◌, ◌-◌, ◌≤◌, ◌++◌, length, take, replicate};

// The items in a table of their own, with blanks after them. Items for which there is no room are left out.
pub fn table_of<T: Copy, const N: usize>(items: &[T], blank: T) -> [T; N]
    ensures value { result ≡ take N items.now ++ replicate (N - length items.now) blank }
    ensures size { length result ≡ N }
    ensures kept { length items.now ≤ N → take (length items.now) result ≡ items.now }
{
    let mut table = [blank; N];
    let count = N.min(items.len());
    table[..count].copy_from_slice(&items[..count]);
    table
}
