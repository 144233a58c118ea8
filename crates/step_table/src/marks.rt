ghost use Rattle.std.specs.Prelude.{◌≡◌, ◌↔◌, IfOk, IsTrue};

use label_set::{Items, Labels, Text};
use std::alloc::AllocError;
use xfrac::XFrac;

/// Why a step has failed. Marks are ordered as they are listed here, and then by their labels.
#[derive(Debug, Drop)]
pub enum Mark {
    /// A number passed the limits of numbers, or labels those of labels.
    Overflow,
    /// A power had an exponent that isn't whole.
    Irrational,
    /// Rows of one vector came to share these labels.
    SameLabelset(Labels),
    /// Rows of the one side share this signature.
    DuplicateOneSide(Labels),
    /// Several pairs have this signature, and the operator has no group word.
    ImplicitManyToOne(Labels),
    /// Pairs of an operator with a group word came to share these labels.
    DuplicateResult(Labels),
    /// A calendar function got an infinity, NaN or a time outside the years 1 to 9999.
    OutOfCalendar,
}

impl Mark {
    /// Whether the two are the same mark.
    pub fn is_same(&self, other: &Mark) -> bool
        ensures { IsTrue result ↔ (self.now ≡ other.now) }
    {
        self == other
    }

    /// An equal value, on the allocators of this one. The only error is want of memory.
    pub fn copy(&self) -> Result<Mark, AllocError>
        ensures { IfOk result (λ m. m ≡ self.now) }
    {
        match self {
            Mark::Overflow => Ok(Mark::Overflow),
            Mark::Irrational => Ok(Mark::Irrational),
            Mark::SameLabelset(labels) => Ok(Mark::SameLabelset(labels.copy()?)),
            Mark::DuplicateOneSide(labels) => Ok(Mark::DuplicateOneSide(labels.copy()?)),
            Mark::ImplicitManyToOne(labels) => Ok(Mark::ImplicitManyToOne(labels.copy()?)),
            Mark::DuplicateResult(labels) => Ok(Mark::DuplicateResult(labels.copy()?)),
            Mark::OutOfCalendar => Ok(Mark::OutOfCalendar),
        }
    }
}

impl Clone for Mark {
    ghost is_clone = { λ s t. t ≡ s };

    fn clone(&self) -> Result<Mark, AllocError> {
        self.copy()
    }
}

/// What is worth telling of a step. Notes are ordered as they are listed here, and then by what they hold.
#[derive(Debug, Drop)]
pub enum Note {
    /// A quantile outside 0 to 1 was asked for.
    QuantileRange(XFrac),
    /// A bucket's bound is missing or no number.
    BadBucket(Text),
    /// A rate was asked of a metric whose name is not that of a counter.
    NotCounter(Text),
    /// The counts of a histogram's buckets did not rise.
    FixedBuckets,
}

impl Note {
    /// Whether the two are the same note.
    pub fn is_same(&self, other: &Note) -> bool
        ensures { IsTrue result ↔ (self.now ≡ other.now) }
    {
        self == other
    }

    /// An equal value, on the allocators of this one. The only error is want of memory.
    pub fn copy(&self) -> Result<Note, AllocError>
        ensures { IfOk result (λ m. m ≡ self.now) }
    {
        match self {
            Note::QuantileRange(number) => Ok(Note::QuantileRange(*number)),
            Note::BadBucket(text) => Ok(Note::BadBucket(text.copy()?)),
            Note::NotCounter(text) => Ok(Note::NotCounter(text.copy()?)),
            Note::FixedBuckets => Ok(Note::FixedBuckets),
        }
    }
}

impl Clone for Note {
    ghost is_clone = { λ s t. t ≡ s };

    fn clone(&self) -> Result<Note, AllocError> {
        self.copy()
    }
}

/// Marks and notes, each in order and once.
#[derive(Debug, Drop, PartialEq, Eq)]
pub struct Marks {
    pub fatal: Items<Mark>,
    pub notes: Items<Note>,
}

impl Marks {
    /// Whether the two have the same marks and notes, listed alike. It takes no memory.
    pub fn is_same(&self, other: &Marks) -> bool
        ensures { IsTrue result ↔ (self.now ≡ other.now) }
    {
        are_same_marks(&self.fatal, &other.fatal) && are_same_notes(&self.notes, &other.notes)
    }

    /// An equal value, on the allocators of this one. The only error is want of memory.
    pub fn copy(&self) -> Result<Marks, AllocError>
        ensures { IfOk result (λ m. m ≡ self.now) }
    {
        Ok(Marks {
            fatal: self.fatal.copy()?,
            notes: self.notes.copy()?,
        })
    }
}

impl Clone for Marks {
    ghost is_clone = { λ s t. t ≡ s };

    fn clone(&self) -> Result<Marks, AllocError> {
        self.copy()
    }
}

fn are_same_marks(a: &Items<Mark>, b: &Items<Mark>) -> bool
    ensures { IsTrue result ↔ (a.now ≡ b.now) }
{
    a == b
}

fn are_same_notes(a: &Items<Note>, b: &Items<Note>) -> bool
    ensures { IsTrue result ↔ (a.now ≡ b.now) }
{
    a == b
}
