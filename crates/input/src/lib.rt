// Reading standard input, and bytes that are written as hexadecimal digits.
#![tactic(auto)]

ghost use Rattle.std.specs.Prelude.{◌≡◌, ◌≤◌, IfOk, IfSome, length, take, vec_len};

pub use hexadecimal::decode;
use std::alloc::Global;
use std::io;
use std::io::Read;

mod hexadecimal;

// Reads until the input ends or the buffer is full, and answers how many bytes were read: of an input whose bytes are known the first ones. Needs no memory but the buffer.
pub fn fill<R: Read>(input: &mut R, buf: &mut [u8]) -> io::Result<usize>
    ensures fits { IfOk result (λ n. n ≤ length buf.new) }
    ensures first { IfOk result (λ n. IfSome (R.remaining input.old) (λ xs. take n buf.new ≡ take (length buf.old) xs)) }
{
    let mut len = 0;
    for _ in 0..=buf.len() {
        let got = input.read(&mut buf[len..])?;
        if got == 0 {
            break;
        }
        len += got;
    }
    Ok(len)
}

// The first bytes of an input, at most so many. Of an input whose bytes are known it is these.
pub fn first_bytes<R: Read + Drop>(heap: Global, input: R, most: usize) -> io::Result<Vec<u8>>
    ensures at_most { IfOk result (λ bytes. vec_len bytes ≤ most) }
    ensures first { IfOk result (λ bytes. IfSome (R.remaining input) (λ xs. bytes.items ≡ take most xs)) }
{
    input.bytes().take(most).try_collect(heap)
}

#[cfg(test)]
mod tests {
    use super::{fill, first_bytes};
    use std::test::Fail;

    #[test]
    fn a_buffer_is_filled(rt: HostRuntime) -> Result<(), Fail> {
        let mut room = [0u8; 4];
        assert_eq!(rt; fill(&mut b"market".as_slice(), &mut room)?, 4);
        assert!(rt; room.as_slice() == b"mark".as_slice());
        assert_eq!(rt; fill(&mut b"ab".as_slice(), &mut room)?, 2);
        assert!(rt; room.as_slice() == b"abrk".as_slice());
        Ok(())
    }

    #[test]
    fn first_bytes_are_read(rt: HostRuntime) -> Result<(), Fail> {
        let bytes = first_bytes(rt.alloc(), b"market".as_slice(), 4)?;
        assert!(rt; bytes.as_slice() == b"mark".as_slice());
        let few = first_bytes(rt.alloc(), b"ab".as_slice(), 4)?;
        assert!(rt; few.as_slice() == b"ab".as_slice());
        Ok(())
    }
}
