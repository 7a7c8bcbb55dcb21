//! String literals and their faults, in words of their items.

ghost use Rattle.std.specs.Prelude.{◌≡◌, ◌++◌, List, Some, None, ℕ, length};
ghost use Rattle.bq_source.specs.StringLiteral.{IsOpenLiteral, scan_string};
ghost use Rattle.bq_source.specs.Spelling.{IsMisspelled};
ghost use Rattle.bq_base.specs.declared.fault.TokenFault.TheVariants as f;
ghost use Rattle.bq_source_lexer.specs.Strings.{IsString, HasBadEscape};

/// A string token is a literal each item of which stands for something. A string without end (F4) is an opening and items that
/// neither an item nor the closing quotes follow, whatever escapes are among them. A bad escape (F5) is the first item of a
/// literal, which ends, that stands for nothing.
pub fn strings_in_words()
    ensures string { (bytes rest : List ℕ) → scan_string (bytes ++ rest) ≡ Some (record { len = length bytes; bad_escape = None }) → IsString bytes rest }
    ensures strings { (bytes rest : List ℕ) → IsString bytes rest → scan_string (bytes ++ rest) ≡ Some (record { len = length bytes; bad_escape = None }) }
    ensures unended { (text : List ℕ) (lines : ℕ) → IsMisspelled text f.OpenString lines → IsOpenLiteral text × (lines ≡ 0) }
    ensures open_string { (text : List ℕ) → IsOpenLiteral text → IsMisspelled text f.OpenString 0 }
    ensures escape { (text : List ℕ) (lines : ℕ) → IsMisspelled text f.Escape lines → HasBadEscape text lines }
    ensures escapes { (text : List ℕ) (lines : ℕ) → HasBadEscape text lines → IsMisspelled text f.Escape lines }
{}
