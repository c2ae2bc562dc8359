// Why a call was refused. Every call of the library that can refuse answers with one of these.
mod tells;

#[derive(Clone, Copy, Debug, PartialEq, Eq)]
pub enum Refusal {
    GoodsOutOfRange,
    MeshOutOfRange,
    NotAPricePoint,
    NotAdmitted,
    TicketNotAccepted,
    FactorOutOfRange,
    FinerThanFinest,
    NotWalking,
    NotArrived,
    WayBlocked,
    NoSuchGood,
    NoSuchPlace,
    SheetMeshOutOfRange,
    SheetLength,
    // the reader's refusals hold the place of the field's tag byte
    Truncated(usize),
    TagNotDue(usize),
    LengthWrong(usize),
    ValueOutOfRange(usize),
    WeightsOffSum(usize),
    // the smallest good that nobody owns
    GoodUnowned(usize),
}
