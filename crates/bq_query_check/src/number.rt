//! Numbers of edges.

ghost use Rattle.std.specs.Prelude.{◌≡◌};
ghost use Rattle.bq_query_check.specs.FormulaOf.{number};

/// More than any number of targets.
const MAX_NUMBER: usize = 0x1_0000_0000;

/// Returns the number that digits write, up to the most that is distinguished.
#[tactic(auto, unfolding(crate::specs::FormulaOf::number))]
pub fn number(word: &[u8]) -> usize
    ensures { result ≡ number word.now }
{
    let mut n = 0;
    for digit in word {
        n = (n * 10 + usize::from(digit.saturating_sub(b'0'))).min(MAX_NUMBER);
    }
    n
}
