//! Which words are patterns. The functions do nothing: their contracts are the laws.

ghost use Rattle.bq_query_lex.specs.DotPatterns.{DotsFollowAPackage};
ghost use Rattle.bq_query_lex.specs.PatternReading.{PatternsReadAsLabels};

/// A word with `...` is a pattern over all that is beneath a package exactly if what is before the dots is that
/// package.
pub fn dots_follow_a_package()
    ensures { DotsFollowAPackage }
{}

/// A word that begins as a pattern is one exactly if it reads as a label: `//p:*` does, with the name `*`, and `//p/...`
/// with the package `p/...`.
pub fn patterns_read_as_labels()
    ensures { PatternsReadAsLabels }
{}
