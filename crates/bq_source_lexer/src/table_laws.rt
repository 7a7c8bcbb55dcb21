//! Keywords, reserved words, operators, escapes and the bytes of words are those that the specification lists, and no others.

ghost use Rattle.std.specs.Prelude.{◌≡◌, ◌≢◌, ◌⊎◌, ◌∷◌, [], Bool, true, None, List, Ok, Some, ℕ, length};
ghost use Rattle.std.specs.List.{AllByRecursion};
ghost use Rattle.bq_source_lexer.specs.Reading.{Lexes, max_file_bytes};
ghost use Rattle.bq_source.specs.Lexis.{is_letter, is_digit, word_kind};
ghost use Rattle.bq_source.specs.Operators.{operators, kind_of};
ghost use Rattle.bq_source.specs.Spelling.{IsListed};
ghost use Rattle.bq_source.specs.Number.{begins_number, is_number_byte, max_int};
ghost use Rattle.bq_source.specs.StringLiteral.{scan_string, string_value};
ghost use Rattle.bq_base.specs.Fault.{fault_number, fault_name, kind_of_token};
ghost use Rattle.bq_source.specs.declared.operators.Lexeme.{Lexeme};
ghost use Rattle.bq_source.specs.declared.token.TokenKind.{TokenKind};
ghost use Rattle.bq_source.specs.declared.token.TokenKind.TheVariants as k;
ghost use Rattle.bq_source_lexer.specs.Tables.{IsRow, IsIn, IsWordOf, IsMarkOf, BeginsNumber, keyword_table, reserved_table, mark_table, escape_table, escape_alone, letters, digits, alone, fault_table};

/// A word is a keyword, a reserved word or an identifier, as the lists of the specification say.
pub fn words_have_their_kinds()
    ensures found { (word : List ℕ) → IsWordOf word (word_kind word) }
    ensures only { (word : List ℕ) (kind : TokenKind) → IsWordOf word kind → word_kind word ≡ kind }
{}

/// The operators, brackets and other marks are those of the specification, each of its kind.
pub fn marks_have_their_kinds()
    ensures found { (lexeme : Lexeme) (bytes : List ℕ) → IsListed lexeme bytes operators → IsMarkOf bytes (kind_of lexeme) }
    ensures complete { (kind : TokenKind) (bytes : List ℕ) → IsMarkOf bytes kind → (lexeme : Lexeme) × IsListed lexeme bytes operators × (kind_of lexeme ≡ kind) }
{}

/// Each keyword, reserved word and mark, as a text, reads as one token of its kind, and a newline token; a bracket is a fault
/// there, or is never closed.
pub fn words_and_marks_read_alone()
    ensures keywords { AllByRecursion (λ row. Lexes row.0 (Ok (alone row.0 row.1))) keyword_table }
    ensures reserved { AllByRecursion (λ word. Lexes word (Ok (alone word k.Reserved))) reserved_table }
    ensures marks { AllByRecursion (λ row. Lexes row.0 (Ok (alone row.0 row.1))) mark_table }
{}

/// Each escape of the table stands for its byte; a backslash before another byte than those and a newline is a bad escape.
pub fn escapes_are_those_of_the_table()
    ensures found { (c b : ℕ) → IsRow c b escape_table → string_value (escape_alone c) ≡ Some (b ∷ []) }
    ensures others { (c : ℕ) → ((b : ℕ) → IsRow c b escape_table → ⊥) → c ≢ 10 → scan_string (escape_alone c) ≡ Some (record { len = 4; bad_escape = Some 1 }) }
{}

/// Words begin with letters and `_`, and go on with them and with digits; numbers begin with a digit or with a dot before one,
/// and go on with what words are made of and dots.
pub fn bytes_of_words_and_numbers()
    ensures letter { (b : ℕ) → is_letter b ≡ true → IsIn b letters }
    ensures letters { (b : ℕ) → IsIn b letters → is_letter b ≡ true }
    ensures digit { (b : ℕ) → is_digit b ≡ true → IsIn b digits }
    ensures digits { (b : ℕ) → IsIn b digits → is_digit b ≡ true }
    ensures number { (b : ℕ) → is_number_byte b ≡ true → IsIn b letters ⊎ IsIn b digits ⊎ (b ≡ 46) }
    ensures numbers { (b : ℕ) → IsIn b letters ⊎ IsIn b digits ⊎ (b ≡ 46) → is_number_byte b ≡ true }
    ensures begun { (text : List ℕ) → begins_number text ≡ true → BeginsNumber text }
    ensures begins { (text : List ℕ) → BeginsNumber text → begins_number text ≡ true }
{}

/// A file has at most 1,048,576 bytes, and an integer is at most 2^63 - 1.
pub fn limits_of_the_lexis()
    ensures bytes { max_file_bytes ≡ 1048576 }
    ensures integer { max_int ≡ 9223372036854775807 }
{}

/// The faults of the lexis have the numbers F1 to F8, and their names.
pub fn faults_have_their_numbers()
    ensures { AllByRecursion (λ row. (fault_number (kind_of_token row.0) ≡ row.1) × (fault_name (kind_of_token row.0) ≡ row.2)) fault_table }
{}
