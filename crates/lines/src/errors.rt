// Why there is no line.
ghost use Rattle.std.specs.Prelude.{◌≡◌};
ghost use Rattle.std.specs.IoError.{error_kind};
ghost use Rattle.lines.specs.Lines.{kind_of};
ghost use Rattle.lines.specs.declared.errors.LineError.TheVariants.{Memory, Refused};

use mesh::refusal::Refusal;
use std::alloc::AllocError;
use std::io;
use std::io::ErrorKind;

#[derive(Clone, Copy, Debug, PartialEq, Eq)]
pub enum LineError {
    Memory,
    Refused(Refusal),
}

impl From<AllocError> for LineError {
    ghost from_gives = { λ _ e. e ≡ Memory };

    fn from(_: AllocError) -> LineError {
        LineError::Memory
    }
}

impl From<Refusal> for LineError {
    ghost from_gives = { λ refusal e. e ≡ Refused refusal };

    fn from(refusal: Refusal) -> LineError {
        LineError::Refused(refusal)
    }
}

// For a program that prints lines.
impl From<LineError> for io::Error {
    ghost from_gives = { λ line e. error_kind e ≡ kind_of line };

    fn from(error: LineError) -> io::Error {
        match error {
            LineError::Memory => io::Error::from(ErrorKind::OutOfMemory),
            LineError::Refused(_) => io::Error::from(ErrorKind::InvalidInput),
        }
    }
}
