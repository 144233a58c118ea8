ghost use Rattle.match_rule.specs.Patterns.{AreCutFrom, IsRefused, IsWholeId, MayBeKept, MayRefuse, groups_at, is_kept, is_pattern, is_plain, is_readable, number_of, passes_at, regex_text, with_pattern};
ghost use Rattle.std.specs.Option.{option_map};
ghost use Rattle.std.specs.Prelude.{◌≡◌, ◌<◌, ◌≤◌, ℕ, true, false, [], Some, MatchOption, length, position, slice_get, IfOk, IfErr, IfNone, IfSome, OnOk, OnErr, IsOk};

use crate::kept::{Kept, built_of};
use crate::room::{MOST_PATTERNS, PatternRoom};
use crate::spans::Spans;
use label_set::PatternId;
use std::alloc::{AllocError, AllocFailed, Global};
use std::marker::Model;
use thiserror::Error;

/// Why a pattern was not kept.
#[derive(Clone, Copy, Debug, PartialEq, Eq, Error)]
pub enum PatternRefusal {
    /// The text is no regular expression that can be built.
    #[error("not a pattern")]
    BadPattern = 1,
    /// There would be more than 32 patterns.
    #[error("more than 32 patterns")]
    TooManyPatterns = 2,
    /// Memory ran out.
    #[error("out of memory")]
    Memory,
}

impl From<AllocError> for PatternRefusal {
    ghost use Rattle.match_rule.specs.declared.patterns.PatternRefusal.TheVariants.{Memory};
    ghost use Rattle.std.specs.Prelude.{◌≡◌};

    ghost from_gives = { λ _ e. e ≡ Memory };

    fn from(_: AllocError) -> PatternRefusal {
        PatternRefusal::Memory
    }
}

impl<T: Drop> From<AllocFailed<T>> for PatternRefusal {
    ghost use Rattle.match_rule.specs.declared.patterns.PatternRefusal.TheVariants.{Memory};
    ghost use Rattle.std.specs.Prelude.{◌≡◌};

    ghost from_gives = { λ _ e. e ≡ Memory };

    fn from(_: AllocFailed<T>) -> PatternRefusal {
        PatternRefusal::Memory
    }
}

/// Patterns under numbers from 0 on, each built once, with what searches for it, which is made once too. Contracts see the
/// list of them, each with the flag whether it has to match a whole value, and its text. They are never taken out, so that a
/// number keeps its meaning.
#[derive(Drop)]
pub struct Patterns<'r> {
    room: &'r PatternRoom,
    kept: Vec<Kept<'r>>,
}

impl<'r> Model for Patterns<'r> {
    ghost use Rattle.match_rule.specs.Patterns.{MayBeKept};
    ghost use Rattle.std.specs.Prelude.{ℕ, Bool, List};

    ghost Value = { List (Bool × List ℕ) };

    ghost view = { λ p. p.kept.items };

    ghost invariant = { λ p. MayBeKept p.kept.items };
}

impl<'r> Patterns<'r> {
    /// No patterns, and a room for what is built of them, which is emptied. It takes no memory.
    pub fn new(alloc: Global, room: &'r mut PatternRoom) -> Patterns<'r>
        ensures { result ≡ [] }
    {
        room.clear();
        Patterns {
            room: &*room,
            kept: Vec::new(alloc),
        }
    }

    /// The number of patterns. They are 32 at most, and each is plain or read by the grammar of `regex`.
    pub fn len(&self) -> usize
        ensures length { result ≡ length self.now }
        ensures kept { MayBeKept self.now }
    {
        self.kept.len()
    }

    /// The text under a number, as it was given.
    pub fn text(&self, id: PatternId) -> &str
        requires { id.0 < length self.now }
        ensures { option_map (λ p. p.1) (slice_get self.now id.0) ≡ Some result.now }
    {
        self.kept[id.0 as usize].text()
    }

    /// Whether the pattern under a number has to match a whole value.
    pub fn is_whole(&self, id: PatternId) -> bool
        requires { id.0 < length self.now }
        ensures { option_map (λ p. p.0) (slice_get self.now id.0) ≡ Some result }
    {
        self.kept[id.0 as usize].is_whole()
    }

    /// The number of a pattern, if it is kept. It takes no memory.
    pub fn find(&self, whole: bool, text: &str) -> Option<PatternId>
        ensures there { IfSome result (λ id. slice_get self.now id.0 ≡ Some (whole, text.now)) }
        ensures none { IfNone result ((k : ℕ) → slice_get self.now k ≡ Some (whole, text.now) → ⊥) }
    {
        let place = number_of(self.kept.as_slice(), whole, text);
        if place < self.kept.len() {
            return Some(PatternId(place as u32));
        }
        None
    }

    /// Keeps a pattern that has to match the whole value, and answers its number; an equal one is kept once. It refuses
    /// with BadPattern a text that isn't plain and that `regex` refuses, and with TooManyPatterns a 33rd pattern. After an
    /// error the patterns are as they were.
    pub fn whole(&mut self, text: &str) -> Result<PatternId, PatternRefusal>
        ensures number { IfOk result (λ id. id.0 ≡ number_of (true, text.now) self.old) }
        ensures there { IfOk result (λ id. slice_get self.new id.0 ≡ Some (true, text.now)) }
        ensures ok { OnOk result (self.new ≡ with_pattern (true, text.now) self.old) }
        ensures err { OnErr result (self.new ≡ self.old) }
        ensures refused { IfErr result (MayRefuse ((is_plain text.now ≡ false) × IsRefused (regex_text true text.now)) ((is_readable true text.now ≡ true) × (is_kept (true, text.now) self.old ≡ false) × (length self.old ≡ 32))) }
        ensures fresh { IfErr result (λ _. is_kept (true, text.now) self.old ≡ false) }
        ensures readable { OnOk result (is_readable true text.now ≡ true) }
        ensures within { IfOk result (λ id. id.0 < length self.new) }
        ensures earlier { (k : ℕ) → k < length self.old → slice_get self.new k ≡ slice_get self.old k }
        ensures more { length self.old ≤ length self.new }
        ensures most { length self.new ≤ 32 }
    {
        self.keep(true, text)
    }

    /// The same for a pattern that is enough in a part of the value.
    pub fn search(&mut self, text: &str) -> Result<PatternId, PatternRefusal>
        ensures number { IfOk result (λ id. id.0 ≡ number_of (false, text.now) self.old) }
        ensures there { IfOk result (λ id. slice_get self.new id.0 ≡ Some (false, text.now)) }
        ensures ok { OnOk result (self.new ≡ with_pattern (false, text.now) self.old) }
        ensures err { OnErr result (self.new ≡ self.old) }
        ensures refused { IfErr result (MayRefuse ((is_plain text.now ≡ false) × IsRefused (regex_text false text.now)) ((is_readable false text.now ≡ true) × (is_kept (false, text.now) self.old ≡ false) × (length self.old ≡ 32))) }
        ensures fresh { IfErr result (λ _. is_kept (false, text.now) self.old ≡ false) }
        ensures readable { OnOk result (is_readable false text.now ≡ true) }
        ensures within { IfOk result (λ id. id.0 < length self.new) }
        ensures earlier { (k : ℕ) → k < length self.old → slice_get self.new k ≡ slice_get self.old k }
        ensures more { length self.old ≤ length self.new }
        ensures most { length self.new ≤ 32 }
    {
        self.keep(false, text)
    }

    fn keep(&mut self, whole: bool, text: &str) -> Result<PatternId, PatternRefusal>
        ensures number { IfOk result (λ id. id.0 ≡ number_of (whole, text.now) self.old) }
        ensures there { IfOk result (λ id. slice_get self.new id.0 ≡ Some (whole, text.now)) }
        ensures ok { OnOk result (self.new ≡ with_pattern (whole, text.now) self.old) }
        ensures err { OnErr result (self.new ≡ self.old) }
        ensures refused { IfErr result (MayRefuse ((is_plain text.now ≡ false) × IsRefused (regex_text whole text.now)) ((is_readable whole text.now ≡ true) × (is_kept (whole, text.now) self.old ≡ false) × (length self.old ≡ 32))) }
        ensures fresh { IfErr result (λ _. is_kept (whole, text.now) self.old ≡ false) }
        ensures readable { OnOk result (is_readable whole text.now ≡ true) }
        ensures within { IfOk result (λ id. id.0 < length self.new) }
        ensures earlier { (k : ℕ) → k < length self.old → slice_get self.new k ≡ slice_get self.old k }
        ensures more { length self.old ≤ length self.new }
        ensures most { length self.new ≤ 32 }
    {
        let place = number_of(self.kept.as_slice(), whole, text);
        if place < self.kept.len() {
            return Ok(PatternId(place as u32));
        }
        let alloc = *self.kept.allocator();
        let built = built_of(alloc, whole, text)?;
        if self.kept.len() >= MOST_PATTERNS {
            return Err(PatternRefusal::TooManyPatterns);
        }
        let kept = Kept::of(alloc, whole, text, built, self.room)?;
        self.kept.push(kept)?;
        Ok(PatternId(place as u32))
    }

    /// Whether the pattern under a number passes a value. It answers no error: where memory is short the search does without.
    pub fn matches(&mut self, id: PatternId, value: &str) -> Result<bool, AllocError>
        requires { id.0 < length self.old }
        ensures answer { IfOk result (λ b. b ≡ passes_at self.old id.0 value.now) }
        ensures always { IsOk result }
        ensures same { self.new ≡ self.old }
    {
        let kept = &mut self.kept[id.0 as usize];
        Ok(kept.passes(value))
    }

    /// Whether the pattern under a number passes a value, and what its groups span there: group 0, the whole value, first.
    /// Where it doesn't pass there are no spans. A group that took part spans bytes of the value, cut between characters.
    /// The pattern must be one of `whole`; a plain text has group 0 alone. The only error is want of memory; then the spans
    /// are as they were.
    pub fn groups(
        &mut self,
        id: PatternId,
        value: &str,
        into: &mut Spans,
    ) -> Result<bool, AllocError>
        requires { IsWholeId self.old id.0 }
        ensures answer { IfOk result (λ b. MatchOption (groups_at self.old id.0 value.now) ((b ≡ false) × (into.new ≡ [])) (λ spans. (b ≡ true) × (into.new ≡ spans))) }
        ensures cut { OnOk result (AreCutFrom value.now into.new) }
        ensures err { OnErr result (into.new ≡ into.old) }
        ensures same { self.new ≡ self.old }
    {
        let alloc = *self.kept.allocator();
        let kept = &mut self.kept[id.0 as usize];
        match kept.spans(alloc, value)? {
            Some(spans) => {
                into.replace(spans);
                Ok(true)
            }
            None => {
                into.replace(Vec::new(alloc));
                Ok(false)
            }
        }
    }
}

/// The number of a pattern among the kept ones, or how many they are where it is none of them.
fn number_of(kept: &[Kept<'_>], whole: bool, text: &str) -> usize
    ensures { result ≡ number_of (whole, text.now) kept.now }
{
    place_of(kept, whole, text).unwrap_or(kept.len())
}

fn place_of(kept: &[Kept<'_>], whole: bool, text: &str) -> Option<usize>
    ensures { result ≡ position (is_pattern (whole, text.now)) kept.now }
{
    kept.iter().position(|pattern| pattern.is(whole, text))
}
