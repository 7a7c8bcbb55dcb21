//! A walk over a range, which takes no memory for its elements.

ghost use Rattle.std.specs.Prelude.{◌≡◌, length};
ghost use Rattle.bq_builtin_machine.specs.Iteration.{range_integers, IsNext};

use bq_value::Range;
use std::marker::Model;

/// The integers of a range that are still to come. Contracts see their list.
#[derive(Drop)]
pub(crate) struct RangeWalk {
    next: i64,
    step: i64,
    left: u64,
}

impl Model for RangeWalk {
    ghost use Rattle.std.specs.Prelude.{List, ℤ};
    ghost use Rattle.std.specs.Coded.{coded_ℤ, coded_list};

    ghost Value = { List ℤ };

    ghost coded = { coded_list coded_ℤ };

    ghost use Rattle.bq_builtin_machine.specs.Iteration.{integers};

    ghost view = { λ w. integers w.next w.step w.left };

    ghost use Rattle.bq_builtin_machine.specs.Fitting.{RestFits};

    ghost invariant = { RestFits };
}

impl RangeWalk {
    /// Begins a walk over all of a range.
    pub(crate) fn over(range: Range) -> RangeWalk
        ensures { result ≡ range_integers range.start range.stop range.step }
    {
        RangeWalk {
            next: range.start,
            step: range.step,
            left: range.count(),
        }
    }

    /// Returns how many are to come.
    pub(crate) fn len(&self) -> usize
        ensures { result ≡ length self.now }
    {
        self.left as usize
    }

    /// Takes the next one.
    pub(crate) fn next(&mut self) -> Option<i64>
        ensures { IsNext result self.old self.new }
    {
        if self.left == 0 {
            return None;
        }
        let element = self.next;
        self.left -= 1;
        if self.left > 0 {
            self.next = element + self.step;
        }
        Some(element)
    }
}
