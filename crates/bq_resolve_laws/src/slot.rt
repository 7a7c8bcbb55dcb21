//! What holds of the slots of functions. The function does nothing: its contract is the law.

ghost use Rattle.bq_resolve_laws.specs.Slots.Sharing.{SlotsAreShared};

/// In each function of a file that resolves, two uses share a slot exactly where they share name and block.
pub fn slots_are_shared_by_name_and_block()
    ensures { SlotsAreShared }
{}
