//! Laws of the definitions. The gate proves what a contract names, so each law is the contract of a function that does
//! nothing.

ghost use Rattle.std.specs.Prelude.{◌≡◌, ◌≤◌, List, ℕ, length};
ghost use Rattle.std.specs.List.{concat, All};
ghost use Rattle.bq_builtin_strings.specs.Word.{words, rwords, AreWords};
ghost use Rattle.bq_builtin_strings.specs.Line.{lines};

/// Where enough cuts are allowed, the words are the longest runs of bytes that are not space, in their order.
pub fn the_words()
    ensures { (text : List ℕ) (most : ℕ) → length text ≤ most → AreWords text (words most text) }
{}

/// Where enough cuts are allowed, the words from the right are the words.
pub fn the_words_from_the_right()
    ensures { (text : List ℕ) (most : ℕ) → length text ≤ most → rwords most text ≡ words most text }
{}

/// The lines of a text, one after another, are the text.
pub fn the_lines_are_the_text()
    ensures { (text : List ℕ) → concat (lines text) ≡ text }
{}
