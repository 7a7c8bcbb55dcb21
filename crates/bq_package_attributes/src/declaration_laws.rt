//! Laws of the definitions: each is the contract of a function that does nothing.

ghost use Rattle.bq_package_attributes.specs.DeclarationLaws.{CallsDeclareOwnTargets, KeywordsKeepTheirOrder, TheFirstFaultyArgumentDecides, MandatoryAttributesAreGiven, DefaultsAreGiven};

/// The target that a call declares is of the package of its BUILD file, and so are the files that the rule makes.
#[tactic(auto, using(crate::proofs::Declared::declared_own))]
pub fn calls_declare_targets_of_their_package()
    ensures { CallsDeclareOwnTargets }
{}

/// The keyword arguments of a call are its named arguments, in the order in which they are written.
#[tactic(auto, using(crate::proofs::GivenKeywords::keywords_keep_their_order))]
pub fn keywords_keep_their_order()
    ensures { KeywordsKeepTheirOrder }
{}

/// Arguments are refused for the fault of the first faulty one of them, once those before it are read.
#[tactic(auto, using(crate::proofs::GivenKeywords::the_first_faulty_argument_decides))]
pub fn the_first_faulty_argument_decides()
    ensures { TheFirstFaultyArgumentDecides }
{}

/// A target has each attribute that its rule has to be given.
#[tactic(auto, using(crate::proofs::Mandatory::mandatory_attributes_are_given))]
pub fn mandatory_attributes_are_given()
    ensures { MandatoryAttributesAreGiven }
{}

/// A target has the default of each attribute that its call doesn't give.
#[tactic(auto, using(crate::proofs::Mandatory::defaults_are_given))]
pub fn defaults_are_given()
    ensures { DefaultsAreGiven }
{}
