//! Counts of evaluations.
ghost use Rattle.std.specs.Prelude.{◌≡◌, ◌<◌, ◌+◌, ◌^◌, if◌then◌else◌};

/// How many evaluations of a script pass, and how many fail.
#[derive(Clone, Copy, Debug, PartialEq, Eq)]
pub struct Totals {
    pub passed: u32,
    pub failed: u32,
}

impl Totals {
    /// Those of no evaluation.
    pub(crate) const NONE: Totals = Totals {
        passed: 0,
        failed: 0,
    };

    /// Those of one evaluation.
    pub(crate) fn of_one(passed: bool) -> Totals
        ensures passed { result.passed ≡ (if passed then 1 else 0) }
        ensures failed { result.failed ≡ (if passed then 0 else 1) }
    {
        if passed {
            Totals {
                passed: 1,
                failed: 0,
            }
        } else {
            Totals {
                passed: 0,
                failed: 1,
            }
        }
    }

    /// These and others.
    pub(crate) fn plus(self, more: Totals) -> Totals
        requires passed { self.passed + more.passed < 2 ^ 32 }
        requires failed { self.failed + more.failed < 2 ^ 32 }
        ensures passed { result.passed ≡ self.passed + more.passed }
        ensures failed { result.failed ≡ self.failed + more.failed }
    {
        Totals {
            passed: self.passed + more.passed,
            failed: self.failed + more.failed,
        }
    }
}
