// The laws of exchange that the label of a market rests on. Theory only: each function's contract is a theorem.
#![tactic(auto)]

ghost use Rattle.trade.specs.Trade.{ExcessesCancel, FreeGoodsNotInSurplus, LabelExists, LabelDetermined};

// The excesses of all goods add up to nought.
pub fn excesses_cancel() -> bool
    ensures { ExcessesCancel }
{
    true
}

// A good without a price is never in surplus.
pub fn free_goods_not_in_surplus() -> bool
    ensures { FreeGoodsNotInSurplus }
{
    true
}

// A price point has exactly one label.
pub fn label_exists() -> bool
    ensures exists { LabelExists }
    ensures determined { LabelDetermined }
{
    true
}
