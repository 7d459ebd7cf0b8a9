// What the contracts of stores come to, on one contract.
ghost use Rattle.stores.specs.Laws.{SlotLaws};

// That a refusal changes nothing, and that what was loaded or written is what is answered; the answer itself says nothing.
pub fn slot_laws_hold() -> bool
    ensures laws { SlotLaws }
{
    true
}
