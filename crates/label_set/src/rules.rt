ghost use Rattle.std.specs.Prelude.{◌≡◌, ◌↔◌, IfOk, IsTrue};

use holders::{Items, Text};
use std::alloc::AllocError;

/// A pattern by its number among the patterns of a query or a script, counted from 0. Its text is kept there.
#[derive(Clone, Copy, Debug, PartialEq, Eq)]
pub struct PatternId(pub u32);

/// What a label's value has to be: equal to a text or not, passed by a pattern or not.
#[derive(Debug, Drop, PartialEq, Eq)]
pub enum RuleKind {
    /// `=`
    Eq(Text),
    /// `!=`
    Ne(Text),
    /// `=~`
    Re(PatternId),
    /// `!~`
    Nre(PatternId),
}

impl RuleKind {
    /// Whether the two are the same test.
    pub fn is_same(&self, other: &RuleKind) -> bool
        ensures { IsTrue result ↔ (self.now ≡ other.now) }
    {
        self == other
    }

    /// An equal value, on the allocators of this one. The only error is want of memory.
    pub fn copy(&self) -> Result<RuleKind, AllocError>
        ensures { IfOk result (λ r. r ≡ self.now) }
    {
        match self {
            RuleKind::Eq(text) => Ok(RuleKind::Eq(text.copy()?)),
            RuleKind::Ne(text) => Ok(RuleKind::Ne(text.copy()?)),
            RuleKind::Re(id) => Ok(RuleKind::Re(*id)),
            RuleKind::Nre(id) => Ok(RuleKind::Nre(*id)),
        }
    }
}

impl Clone for RuleKind {
    ghost is_clone = { λ s t. t ≡ s };

    fn clone(&self) -> Result<RuleKind, AllocError> {
        self.copy()
    }
}

/// A test of one label; a label that is missing counts as the empty text.
#[derive(Debug, Drop, PartialEq, Eq)]
pub struct Rule {
    pub label: Text,
    pub kind: RuleKind,
}

impl Rule {
    /// Whether the two are the same test of the same label.
    pub fn is_same(&self, other: &Rule) -> bool
        ensures { IsTrue result ↔ (self.now ≡ other.now) }
    {
        self == other
    }

    /// An equal value, on the allocators of this one. The only error is want of memory.
    pub fn copy(&self) -> Result<Rule, AllocError>
        ensures { IfOk result (λ r. r ≡ self.now) }
    {
        Ok(Rule {
            label: self.label.copy()?,
            kind: self.kind.copy()?,
        })
    }
}

impl Clone for Rule {
    ghost is_clone = { λ s t. t ≡ s };

    fn clone(&self) -> Result<Rule, AllocError> {
        self.copy()
    }
}

/// How an aggregation groups: `by` the names, or `without` them.
#[derive(Debug, Drop, PartialEq, Eq)]
pub struct Grouping {
    pub without: bool,
    pub names: Items<Text>,
}

impl Grouping {
    /// Whether the two are the same grouping: the names are listed alike.
    pub fn is_same(&self, other: &Grouping) -> bool
        ensures { IsTrue result ↔ (self.now ≡ other.now) }
    {
        self == other
    }

    /// An equal value, on the allocators of this one. The only error is want of memory.
    pub fn copy(&self) -> Result<Grouping, AllocError>
        ensures { IfOk result (λ g. g ≡ self.now) }
    {
        Ok(Grouping {
            without: self.without,
            names: self.names.copy()?,
        })
    }
}

impl Clone for Grouping {
    ghost is_clone = { λ s t. t ≡ s };

    fn clone(&self) -> Result<Grouping, AllocError> {
        self.copy()
    }
}

/// How many rows of each side may match: one and one, or many of the left or of the right.
#[derive(Clone, Copy, Debug, PartialEq, Eq)]
pub enum Card {
    OneToOne,
    GroupLeft,
    GroupRight,
}

impl Card {
    /// Whether the two are the same.
    pub fn is_same(self, other: Card) -> bool
        ensures { IsTrue result ↔ (self ≡ other) }
    {
        other == self
    }
}

/// How two vectors are matched: `on` the names or ignoring them, and which labels of the one side are taken over.
#[derive(Debug, Drop, PartialEq, Eq)]
pub struct Pairing {
    pub on: bool,
    pub names: Items<Text>,
    pub card: Card,
    pub extra: Items<Text>,
}

impl Pairing {
    /// Whether the two are the same matching: the names are listed alike.
    pub fn is_same(&self, other: &Pairing) -> bool
        ensures { IsTrue result ↔ (self.now ≡ other.now) }
    {
        self == other
    }

    /// An equal value, on the allocators of this one. The only error is want of memory.
    pub fn copy(&self) -> Result<Pairing, AllocError>
        ensures { IfOk result (λ p. p ≡ self.now) }
    {
        Ok(Pairing {
            on: self.on,
            names: self.names.copy()?,
            card: self.card,
            extra: self.extra.copy()?,
        })
    }
}

impl Clone for Pairing {
    ghost is_clone = { λ s t. t ≡ s };

    fn clone(&self) -> Result<Pairing, AllocError> {
        self.copy()
    }
}

/// A change of labels: `label_replace`, `label_join`, or the rows whose labels pass all rules.
#[derive(Debug, Drop, PartialEq, Eq)]
pub enum Relabel {
    Replace {
        target: Text,
        template: Text,
        source: Text,
        pattern: PatternId,
    },
    Join {
        target: Text,
        separator: Text,
        sources: Items<Text>,
    },
    Filter(Items<Rule>),
}

impl Relabel {
    /// An equal value, on the allocators of this one. The only error is want of memory.
    pub fn copy(&self) -> Result<Relabel, AllocError>
        ensures { IfOk result (λ r. r ≡ self.now) }
    {
        match self {
            Relabel::Replace {
                target,
                template,
                source,
                pattern,
            } => Ok(Relabel::Replace {
                target: target.copy()?,
                template: template.copy()?,
                source: source.copy()?,
                pattern: *pattern,
            }),
            Relabel::Join {
                target,
                separator,
                sources,
            } => Ok(Relabel::Join {
                target: target.copy()?,
                separator: separator.copy()?,
                sources: sources.copy()?,
            }),
            Relabel::Filter(rules) => Ok(Relabel::Filter(rules.copy()?)),
        }
    }
}

impl Clone for Relabel {
    ghost is_clone = { λ s t. t ≡ s };

    fn clone(&self) -> Result<Relabel, AllocError> {
        self.copy()
    }
}
