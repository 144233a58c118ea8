//! Why a file, or a line of it, isn't taken.
ghost use Rattle.script_read.specs.Refusals.{fault_at};
ghost use Rattle.std.specs.Prelude.{◌≡◌};

use crate::script::ScriptRefusal;
use label_set::LabelRefusal;
use match_rule::PatternRefusal;
use std::alloc::{AllocError, AllocFailed};
use thiserror::Error;

/// Why there is no script: the file is refused, or memory ran out.
#[derive(Clone, Copy, Debug, PartialEq, Eq, Error)]
pub enum ReadFault {
    #[error("the script is refused")]
    Refused(ScriptRefusal),
    #[error("out of memory")]
    Memory,
}

impl From<AllocError> for ReadFault {
    ghost use Rattle.script_read.specs.declared.fault.ReadFault.TheVariants.{Memory};
    ghost use Rattle.std.specs.Prelude.{◌≡◌};

    ghost from_gives = { λ _ e. e ≡ Memory };

    fn from(_: AllocError) -> ReadFault {
        ReadFault::Memory
    }
}

impl<T: Drop> From<AllocFailed<T>> for ReadFault {
    ghost use Rattle.script_read.specs.declared.fault.ReadFault.TheVariants.{Memory};
    ghost use Rattle.std.specs.Prelude.{◌≡◌};

    ghost from_gives = { λ _ e. e ≡ Memory };

    fn from(_: AllocFailed<T>) -> ReadFault {
        ReadFault::Memory
    }
}

/// Why a part of a line isn't taken: the line's refusal, or want of memory.
#[derive(Clone, Copy, Debug, PartialEq, Eq)]
pub enum LineFault {
    /// It has no form that is taken at its place.
    Malformed,
    /// It is, or holds, a native histogram.
    NativeHistogram,
    /// A number of it is outside the limits.
    NumberRange,
    /// Its pattern is refused, or is the 33rd.
    BadPattern,
    /// A label of it is refused.
    BadLabels,
    /// Memory ran out.
    Memory,
}

impl LineFault {
    /// What this fault of a line is to the file.
    pub fn at(self, line: u32) -> ReadFault
        ensures { result ≡ fault_at line self }
    {
        match self {
            LineFault::Malformed => ReadFault::Refused(ScriptRefusal::Malformed(line)),
            LineFault::NativeHistogram => ReadFault::Refused(ScriptRefusal::NativeHistogram(line)),
            LineFault::NumberRange => ReadFault::Refused(ScriptRefusal::NumberRange(line)),
            LineFault::BadPattern => ReadFault::Refused(ScriptRefusal::BadPattern(line)),
            LineFault::BadLabels => ReadFault::Refused(ScriptRefusal::BadLabels(line)),
            LineFault::Memory => ReadFault::Memory,
        }
    }
}

impl From<AllocError> for LineFault {
    ghost use Rattle.script_read.specs.declared.fault.LineFault.TheVariants.{Memory};
    ghost use Rattle.std.specs.Prelude.{◌≡◌};

    ghost from_gives = { λ _ e. e ≡ Memory };

    fn from(_: AllocError) -> LineFault {
        LineFault::Memory
    }
}

impl<T: Drop> From<AllocFailed<T>> for LineFault {
    ghost use Rattle.script_read.specs.declared.fault.LineFault.TheVariants.{Memory};
    ghost use Rattle.std.specs.Prelude.{◌≡◌};

    ghost from_gives = { λ _ e. e ≡ Memory };

    fn from(_: AllocFailed<T>) -> LineFault {
        LineFault::Memory
    }
}

/// A pair that labels refuse is BadLabels; want of memory stays what it is.
impl From<LabelRefusal> for LineFault {
    ghost use Rattle.script_read.specs.Refusals.{label_fault};
    ghost use Rattle.std.specs.Prelude.{◌≡◌};

    ghost from_gives = { λ refusal e. e ≡ label_fault refusal };

    fn from(refusal: LabelRefusal) -> LineFault {
        match refusal {
            LabelRefusal::Memory => LineFault::Memory,
            _ => LineFault::BadLabels,
        }
    }
}

/// A refused pattern is BadPattern, and so is the 33rd; want of memory stays what it is.
impl From<PatternRefusal> for LineFault {
    ghost use Rattle.script_read.specs.Refusals.{pattern_fault};
    ghost use Rattle.std.specs.Prelude.{◌≡◌};

    ghost from_gives = { λ refusal e. e ≡ pattern_fault refusal };

    fn from(refusal: PatternRefusal) -> LineFault {
        match refusal {
            PatternRefusal::Memory => LineFault::Memory,
            _ => LineFault::BadPattern,
        }
    }
}
