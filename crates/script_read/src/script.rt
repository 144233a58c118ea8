//! A script as data: its commands in the order of their lines.
ghost use Rattle.script_read.specs.Refusals.{line_of, name_of};
ghost use Rattle.std.specs.Prelude.{◌≡◌, IfOk};

use label_set::{Items, Labels, PatternId, Text};
use promql_meaning::ResultSeries;
use std::alloc::AllocError;
use thiserror::Error;
use ticks::{Grid, Ms};
use xfrac::XFrac;

/// Why a file is refused, with the first refused line, counted from 1.
#[derive(Clone, Copy, Debug, PartialEq, Eq, Error)]
pub enum ScriptRefusal {
    /// The line has no form that is taken at its place.
    #[error("line {0} is malformed")]
    Malformed(u32),
    /// The line loads a native histogram, which is not taken.
    #[error("line {0} has a native histogram")]
    NativeHistogram(u32),
    /// The line has the first byte that breaks the encoding UTF-8.
    #[error("line {0} isn't UTF-8")]
    NotUtf8(u32),
    /// The file has more than 4,194,304 bytes.
    #[error("the file is too large")]
    TooLarge,
    /// A number of the line is outside the limits.
    #[error("line {0} has a number outside the limits")]
    NumberRange(u32),
    /// The search pattern of the line is no regular expression that can be built, or is the 33rd distinct one.
    #[error("line {0} has a pattern that is refused")]
    BadPattern(u32),
    /// The labels of the line are refused.
    #[error("line {0} has labels that are refused")]
    BadLabels(u32),
}

impl ScriptRefusal {
    /// The refused line, counted from 1, or 0 where it is the whole file.
    pub fn line(&self) -> u32
        ensures { result ≡ line_of self.now }
    {
        match self {
            ScriptRefusal::TooLarge => 0,
            ScriptRefusal::Malformed(line) => *line,
            ScriptRefusal::NativeHistogram(line) => *line,
            ScriptRefusal::NotUtf8(line) => *line,
            ScriptRefusal::NumberRange(line) => *line,
            ScriptRefusal::BadPattern(line) => *line,
            ScriptRefusal::BadLabels(line) => *line,
        }
    }

    /// The name of the refusal.
    pub fn name(&self) -> &'static str
        ensures { result.now ≡ name_of self.now }
    {
        match self {
            ScriptRefusal::TooLarge => "TooLarge",
            ScriptRefusal::Malformed(_) => "Malformed",
            ScriptRefusal::NativeHistogram(_) => "NativeHistogram",
            ScriptRefusal::NotUtf8(_) => "NotUtf8",
            ScriptRefusal::NumberRange(_) => "NumberRange",
            ScriptRefusal::BadPattern(_) => "BadPattern",
            ScriptRefusal::BadLabels(_) => "BadLabels",
        }
    }
}

/// A script: its commands in the order of their lines.
#[derive(Debug, Drop, PartialEq, Eq)]
pub struct Script {
    pub commands: Items<Command>,
}

impl Script {
    /// An equal script, on the allocators of this one. The only error is want of memory.
    pub fn copy(&self) -> Result<Script, AllocError>
        ensures { IfOk result (λ s. s ≡ self.now) }
    {
        Ok(Script {
            commands: self.commands.copy()?,
        })
    }
}

/// A command and the number of its line, counted from 1.
#[derive(Debug, Drop, PartialEq, Eq)]
pub struct Command {
    pub line: u32,
    pub what: What,
}

impl Command {
    /// An equal command, on the allocators of this one. The only error is want of memory.
    pub fn copy(&self) -> Result<Command, AllocError>
        ensures { IfOk result (λ c. c ≡ self.now) }
    {
        Ok(Command {
            line: self.line,
            what: self.what.copy()?,
        })
    }
}

impl Clone for Command {
    ghost is_clone = { λ s t. t ≡ s };

    fn clone(&self) -> Result<Command, AllocError> {
        self.copy()
    }
}

/// What a command does.
#[derive(Debug, Drop, PartialEq, Eq)]
pub enum What {
    /// Takes all samples out of the store.
    Clear,
    /// Puts samples into series: what stands at place `i` of a series, counted from 0, has the time `i` times the interval.
    Load {
        interval: Ms,
        lines: Items<SeriesLine>,
    },
    /// Evaluates a text at the instants of a grid, of which there is one where `instant` is true, and says what is expected.
    Eval {
        grid: Grid,
        instant: bool,
        text: Text,
        expected: Expectations,
    },
}

impl What {
    /// An equal value, on the allocators of this one. The only error is want of memory.
    pub fn copy(&self) -> Result<What, AllocError>
        ensures { IfOk result (λ w. w ≡ self.now) }
    {
        match self {
            What::Clear => Ok(What::Clear),
            What::Load { interval, lines } => Ok(What::Load {
                interval: *interval,
                lines: lines.copy()?,
            }),
            What::Eval {
                grid,
                instant,
                text,
                expected,
            } => Ok(What::Eval {
                grid: *grid,
                instant: *instant,
                text: text.copy()?,
                expected: expected.copy()?,
            }),
        }
    }
}

/// A series of a load: the number of its line, its labels and its items.
#[derive(Debug, Drop, PartialEq, Eq)]
pub struct SeriesLine {
    pub line: u32,
    pub labels: Labels,
    pub items: Items<SeriesItem>,
}

impl SeriesLine {
    /// An equal value, on the allocators of this one. The only error is want of memory.
    pub fn copy(&self) -> Result<SeriesLine, AllocError>
        ensures { IfOk result (λ s. s ≡ self.now) }
    {
        Ok(SeriesLine {
            line: self.line,
            labels: self.labels.copy()?,
            items: self.items.copy()?,
        })
    }
}

impl Clone for SeriesLine {
    ghost is_clone = { λ s t. t ≡ s };

    fn clone(&self) -> Result<SeriesLine, AllocError> {
        self.copy()
    }
}

/// An item of a series: what stands at one place or more.
#[derive(Clone, Copy, Debug, PartialEq, Eq, Drop)]
pub enum SeriesItem {
    /// So many places without a sample.
    Gap(u32),
    /// One marker of staleness.
    Stale,
    /// A value, and so many more, each the step more than the one before it.
    Run { first: XFrac, by: XFrac, more: u32 },
}

/// What a failure, a warning or an info note has to be.
#[derive(Debug, Drop, PartialEq, Eq)]
pub enum Wanted {
    /// Anything.
    Any,
    /// This text.
    Msg(Text),
    /// A text in which this search pattern is found.
    Regex(PatternId),
}

impl Wanted {
    /// An equal value, on the allocators of this one. The only error is want of memory.
    pub fn copy(&self) -> Result<Wanted, AllocError>
        ensures { IfOk result (λ w. w ≡ self.now) }
    {
        match self {
            Wanted::Any => Ok(Wanted::Any),
            Wanted::Msg(text) => Ok(Wanted::Msg(text.copy()?)),
            Wanted::Regex(id) => Ok(Wanted::Regex(*id)),
        }
    }
}

impl Clone for Wanted {
    ghost is_clone = { λ s t. t ≡ s };

    fn clone(&self) -> Result<Wanted, AllocError> {
        self.copy()
    }
}

/// The result that is expected.
#[derive(Debug, Drop, PartialEq, Eq)]
pub enum Expected {
    /// A scalar.
    Scalar(XFrac),
    /// A vector, or a matrix: its series in the order of their lines.
    Rows(Items<ResultSeries>),
}

impl Expected {
    /// An equal value, on the allocators of this one. The only error is want of memory.
    pub fn copy(&self) -> Result<Expected, AllocError>
        ensures { IfOk result (λ e. e ≡ self.now) }
    {
        match self {
            Expected::Scalar(value) => Ok(Expected::Scalar(*value)),
            Expected::Rows(rows) => Ok(Expected::Rows(rows.copy()?)),
        }
    }
}

/// What is expected of an evaluation. Each list has what its lines want, in their order; it is empty where no line says so.
#[derive(Debug, Drop, PartialEq, Eq)]
pub struct Expectations {
    pub fail: Items<Wanted>,
    pub warn: Items<Wanted>,
    pub no_warn: bool,
    pub info: Items<Wanted>,
    pub no_info: bool,
    pub ordered: bool,
    pub result: Expected,
}

impl Expectations {
    /// An equal value, on the allocators of this one. The only error is want of memory.
    pub fn copy(&self) -> Result<Expectations, AllocError>
        ensures { IfOk result (λ e. e ≡ self.now) }
    {
        Ok(Expectations {
            fail: self.fail.copy()?,
            warn: self.warn.copy()?,
            no_warn: self.no_warn,
            info: self.info.copy()?,
            no_info: self.no_info,
            ordered: self.ordered,
            result: self.result.copy()?,
        })
    }
}
