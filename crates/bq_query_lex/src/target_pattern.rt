//! Target patterns: which form a word has (Bazel, "Target patterns").
ghost use Rattle.std.specs.Prelude.{◌≡◌};
ghost use Rattle.bq_query_lex.specs.TargetPatterns.{begins_pattern, word_form};

/// Which targets a word names.
#[derive(Clone, Copy)]
pub enum PatternForm {
    /// `//p:n`: one target.
    Target,
    /// `//p:all`: the rules of a package.
    Rules,
    /// `//p:*`, `//p:all-targets`: all targets of a package.
    All,
    /// `//p/...`, `//p/...:all`: the rules of a package and of those beneath it.
    RulesBeneath,
    /// `//p/...:*`, `//p/...:all-targets`: all targets of a package and of those beneath it.
    AllBeneath,
}

/// A word's form, and the part of it that names the target or the package: `//p` of `//p/...`, `//` of `//...`.
#[derive(Clone, Copy)]
pub struct WordForm<'a> {
    pub form: PatternForm,
    pub named: &'a [u8],
}

/// How the words of a form end, and how many bytes of that end aren't in the part that names. The first that fits
/// counts, if that part names a package.
const ENDINGS: [(&[u8], usize, PatternForm); 11] = [
    (b"//...", 3, PatternForm::RulesBeneath),
    (b"/...", 4, PatternForm::RulesBeneath),
    (b"//...:all", 7, PatternForm::RulesBeneath),
    (b"/...:all", 8, PatternForm::RulesBeneath),
    (b"//...:*", 5, PatternForm::AllBeneath),
    (b"/...:*", 6, PatternForm::AllBeneath),
    (b"//...:all-targets", 15, PatternForm::AllBeneath),
    (b"/...:all-targets", 16, PatternForm::AllBeneath),
    (b":all", 4, PatternForm::Rules),
    (b":*", 2, PatternForm::All),
    (b":all-targets", 12, PatternForm::All),
];

/// Returns the form of a word, read from the word as it is written: those with `...` first, `//p:n` last. So `//p:all`
/// never means a target named `all`; and `//a:b/...` is `//p:n`, since no package is named `a:b`.
pub fn word_form(word: &[u8]) -> WordForm<'_>
    ensures form { result.form ≡ (word_form word.now).0 }
    ensures named { result.named.now ≡ (word_form word.now).1 }
{
    let mut table: &[(&[u8], usize, PatternForm)] = &ENDINGS;
    while let [entry, rest @ ..] = table {
        table = rest;
        if !word.ends_with(entry.0) {
            continue;
        }
        let named = &word[..word.len().saturating_sub(entry.1)];
        // No package has a `:` in its name.
        if named.iter().any(|byte| *byte == b':') {
            continue;
        }
        let form = entry.2;
        return WordForm { form, named };
    }
    WordForm {
        form: PatternForm::Target,
        named: word,
    }
}

/// Returns whether a word begins as the target patterns do that can be answered: with `//`, or with `@` but not `@@`.
/// Any other one is left out (Q3).
pub fn begins_pattern(word: &[u8]) -> bool
    ensures { result ≡ begins_pattern word.now }
{
    match word {
        [b'/', b'/', ..] => true,
        [b'@', b'@', ..] => false,
        [b'@', ..] => true,
        _ => false,
    }
}
