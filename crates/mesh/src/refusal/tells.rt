// What a refusal tells.
ghost use Rattle.std.specs.Prelude.{◌≡◌};
ghost use Rattle.mesh.specs.Refusals.{told, carried_by};

use super::Refusal;

impl Refusal {
    // The number that documents and printed lines give a refusal.
    pub fn number(&self) -> u32
        ensures { result ≡ (told self.now).0 }
    {
        match self {
            Refusal::GoodsOutOfRange => 1,
            Refusal::MeshOutOfRange => 2,
            Refusal::NotAPricePoint => 3,
            Refusal::NotAdmitted => 4,
            Refusal::TicketNotAccepted => 5,
            Refusal::FactorOutOfRange => 6,
            Refusal::FinerThanFinest => 7,
            Refusal::NotWalking => 8,
            Refusal::NotArrived => 9,
            Refusal::WayBlocked => 10,
            Refusal::NoSuchGood => 11,
            Refusal::NoSuchPlace => 12,
            Refusal::SheetMeshOutOfRange => 15,
            Refusal::SheetLength => 16,
            Refusal::Truncated(_) => 21,
            Refusal::TagNotDue(_) => 22,
            Refusal::LengthWrong(_) => 23,
            Refusal::ValueOutOfRange(_) => 24,
            Refusal::WeightsOffSum(_) => 25,
            Refusal::GoodUnowned(_) => 26,
        }
    }

    // The place or the good that it carries, where it carries one.
    pub fn carried(&self) -> Option<usize>
        ensures { result ≡ carried_by (told self.now) }
    {
        match self {
            Refusal::Truncated(value)
            | Refusal::TagNotDue(value)
            | Refusal::LengthWrong(value)
            | Refusal::ValueOutOfRange(value)
            | Refusal::WeightsOffSum(value)
            | Refusal::GoodUnowned(value) => Some(*value),
            _ => None,
        }
    }
}
