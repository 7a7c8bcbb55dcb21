//! What a reader finds in a string: each law is the contract of a function that does nothing.

ghost use Rattle.std.specs.Prelude.{◌≡◌, ◌≤◌, ◌++◌, ℕ, List, map, Some, EachIndex, slice_index};
ghost use Rattle.std.specs.Str.{IsUtf8};
ghost use Rattle.bq_package_values.specs.CodePoints.{AreBytes};
ghost use Rattle.bq_package_values.specs.JsonExamples.{Examples};
ghost use Rattle.bq_package_values.specs.JsonGrammar.{EndsNumber, IsWritable, Reads};
ghost use Rattle.bq_package_values.specs.JsonValue.{Json, Named, fields_of, member_of, object, value_text};
ghost use Rattle.bq_package_values.specs.JsonString.{json_string};
ghost use Rattle.bq_package_values.specs.JsonReading.{reads_string};
ghost use Rattle.bq_package_values.specs.JsonParts.{json_object};

/// The text of a string reads as the bytes that were written, whatever they are.
#[tactic(auto, using(crate::proofs::ReadsBack::string_reads_back))]
pub fn string_reads_back()
    ensures { (bs : List ℕ) → AreBytes bs → reads_string (json_string bs) ≡ Some bs }
{}

/// The text of a string is UTF-8.
#[tactic(auto, using(crate::proofs::ReadsBack::string_is_utf8))]
pub fn string_is_utf8()
    ensures { (bs : List ℕ) → AreBytes bs → IsUtf8 (json_string bs) }
{}

/// The text of a string has no control character, so it is in one line.
#[tactic(auto, using(crate::proofs::ReadsBack::string_is_one_line))]
pub fn string_is_one_line()
    ensures { (bs : List ℕ) → AreBytes bs → EachIndex (json_string bs) (λ i. 0x20 ≤ slice_index (json_string bs) i) }
{}

/// The texts of some strings are those that Python writes.
#[tactic(auto, using(crate::proofs::AsPython::examples))]
pub fn examples()
    ensures { Examples }
{}

/// A text reads as one value at most, and leaves one rest.
#[tactic(auto, using(crate::proofs::OneReading::one_reading))]
pub fn one_reading()
    ensures { (text r s : List ℕ) (v w : Json) → Reads v text r → Reads w text s → (v ≡ w) × (r ≡ s) }
{}

/// The text of a value reads as that value, whatever comes after it, unless that goes on with a number.
#[tactic(auto, using(crate::proofs::ValuesReadBack::reads_back))]
pub fn values_read_back()
    ensures { (v : Json) (rest : List ℕ) → IsWritable v → EndsNumber rest → Reads v (value_text v ++ rest) rest }
{}

/// The text of an object with these members is that of the value.
#[tactic(auto, using(crate::proofs::JsonTexts::object_text))]
pub fn objects_are_texts()
    ensures { (ns : List Named) → json_object (map member_of ns) ≡ value_text (object (fields_of ns)) }
{}
