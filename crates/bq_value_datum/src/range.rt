//! Ranges (Starlark, "range").

ghost use Rattle.std.specs.Prelude.{◌≡◌, ◌≢◌, pos};
ghost use Rattle.bq_value_datum.specs.Range.{steps_between, range_count, ranges_same};

/// The integers from `start`, by `step`, before `stop`.
#[derive(Clone, Copy)]
pub struct Range {
    pub start: i64,
    pub stop: i64,
    pub step: i64,
}

impl Range {
    /// Returns the number of elements. A range of step 0, which no program makes, has none.
    #[tactic(auto, unfolding(crate::specs::Range::range_count))]
    pub fn count(self) -> u64
        ensures { result ≡ range_count self.start self.stop self.step }
    {
        if 0 < self.step {
            steps(self.start, self.stop, self.step)
        } else if self.step < 0 {
            steps(self.stop, self.start, self.step)
        } else {
            0
        }
    }

    /// Returns whether two ranges have the same elements (Starlark, "Comparisons").
    #[tactic(auto, unfolding(crate::specs::Range::ranges_same))]
    pub fn equals(self, other: Range) -> bool
        ensures { result ≡ ranges_same self.start self.stop self.step other.start other.stop other.step }
    {
        let count = self.count();
        count == other.count()
            && (count == 0
                || (self.start == other.start && (count == 1 || self.step == other.step)))
    }
}

/// Returns how many steps of size `step` lead from `low` up to below `high`.
#[tactic(auto, unfolding(crate::specs::Range::steps_between))]
fn steps(low: i64, high: i64, step: i64) -> u64
    requires { step ≢ pos 0 }
    ensures { result ≡ steps_between low high step }
{
    if low < high {
        (high.abs_diff(low) - 1) / step.unsigned_abs() + 1
    } else {
        0
    }
}
