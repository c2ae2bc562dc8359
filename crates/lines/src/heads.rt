// The lines of a market file: its fault, or its goods and its traders.
ghost use Rattle.std.specs.Prelude.{◌≡◌, IfOk, Some, string_bytes, IsAscii};
ghost use Rattle.std.proofs.Math.Utf8.{encodes};
ghost use Rattle.mesh.specs.Refusals.{told};
ghost use Rattle.lines.specs.Lines.{place_in, fault_text, good_text, traders_text};

use mesh::refusal::Refusal;
use std::alloc::{AllocError, Global};
use std::fmt;

// The number of a refusal, and the place or the good that it carries; 0 where it carries nothing.
pub fn fault_line(heap: Global, refusal: Refusal) -> Result<String, AllocError>
    ensures { IfOk result (λ s. string_bytes s ≡ fault_text (told refusal).0 (place_in (told refusal))) }
{
    let number = refusal.number();
    let place = refusal.carried().unwrap_or(0);
    format!(in heap; "fault {number} at {place}")
}

// A name: a character for each byte.
#[derive(Clone, Copy)]
pub struct Letters<'n>(pub &'n [u8]);

impl fmt::Display for Letters<'_> {
    ghost output = { λ n. Some (encodes n.0.now) };

    fn fmt<W: fmt::Write>(&self, f: &mut fmt::Formatter<W>) -> fmt::Result {
        for b in self.0 {
            write!(f, "{}", char::from(*b))?;
        }
        Ok(())
    }
}

// A good, its name, and what is owned of it in all. The bytes of the name are characters: below 128 each is itself.
pub fn good_line(heap: Global, good: usize, name: &[u8], owned: u32) -> Result<String, AllocError>
    ensures text { IfOk result (λ s. string_bytes s ≡ good_text good (encodes name.now) owned) }
    ensures ascii { IsAscii name.now → IfOk result (λ s. string_bytes s ≡ good_text good name.now owned) }
{
    let name = Letters(name);
    format!(in heap; "good {good}: {name}, {owned} owned")
}

// How many traders there are, and what each one's weights add up to.
pub fn traders_line(heap: Global, traders: usize, sum: u32) -> Result<String, AllocError>
    ensures { IfOk result (λ s. string_bytes s ≡ traders_text traders sum) }
{
    format!(in heap; "{traders} traders, weight sum {sum}")
}
