//! What holds of scopes. The functions do nothing: their contracts are the laws.

ghost use Rattle.bq_resolve_scope.specs.Laws.{EachUseStandsForOne, HeldNamesAreLocal, NamesHaveSlots, BlocksHaveSlots};
ghost use Rattle.bq_resolve_scope.specs.Examples.{Examples};

/// A use stands for one thing, that of the innermost block whose set holds its name.
pub fn each_use_stands_for_one()
    ensures { EachUseStandsForOne }
{}

/// A name that the innermost block holds is a slot of the frame.
pub fn held_names_are_local()
    ensures { HeldNamesAreLocal }
{}

/// Names of one block that share a slot are one name.
pub fn names_have_slots_of_their_own()
    ensures { NamesHaveSlots }
{}

/// Names of two blocks of a frame share no slot.
pub fn blocks_have_slots_of_their_own()
    ensures { BlocksHaveSlots }
{}

/// Some files, resolved by hand.
pub fn files_resolve_by_hand()
    ensures { Examples }
{}
