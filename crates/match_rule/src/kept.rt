//! A pattern that is kept, with what searches for it.
ghost use Rattle.match_rule.specs.Building.{IsBuiltFor, IsSearchedBy};
ghost use Rattle.match_rule.specs.Patterns.{AreCutFrom, FindsAs, is_pattern, is_plain, is_readable, pattern_groups, pattern_passes, plain_passes, IsRefused, MayRefuse, regex_text};
ghost use Rattle.regex.specs.Strings.{matcher_names, matcher_pattern};
ghost use Rattle.std.specs.Option.{option_map};
ghost use Rattle.std.specs.Prelude.{◌≡◌, false, true, [], ◌∷◌, None, Some, if◌then◌else◌, length, IfErr, IfOk, IfSome, OnOk};

use crate::built::{Built, build, matcher_in, spans_in};
use crate::patterns::PatternRefusal;
use crate::plain::{is_plain, plain_passes};
use crate::room::PatternRoom;
use label_set::Text;
use regex::Matcher;
use std::alloc::{AllocError, Global};
use std::marker::Model;

/// A pattern: its text, whether it has to match the whole value, whether it passes the empty text and, where the text isn't
/// plain, what searches for it, which is made once. Contracts see the first flag and the text.
#[derive(Drop)]
pub(crate) struct Kept<'r> {
    whole: bool,
    text: Text,
    empty: bool,
    matcher: Option<Matcher<'r>>,
}

impl<'r> Model for Kept<'r> {
    ghost use Rattle.match_rule.specs.Building.{IsSearchedBy};
    ghost use Rattle.match_rule.specs.Patterns.{pattern_passes};
    ghost use Rattle.std.specs.Prelude.{◌≡◌, ℕ, Bool, List, []};

    ghost Value = { Bool × List ℕ };

    ghost view = { λ k. (k.whole, k.text) };

    ghost invariant = { λ k. IsSearchedBy k.whole k.text k.matcher × (k.empty ≡ pattern_passes (k.whole, k.text) []) };
}

impl<'r> Kept<'r> {
    /// A pattern with what was built of it, which goes to the room. The only error is want of memory.
    pub(crate) fn of(
        alloc: Global,
        whole: bool,
        text: &str,
        built: Option<Built>,
        room: &'r PatternRoom,
    ) -> Result<Kept<'r>, AllocError>
        requires { IsBuiltFor whole text.now built }
        ensures { IfOk result (λ k. k ≡ (whole, text.now)) }
    {
        let text = Text::of(alloc, text)?;
        match built {
            None => Ok(Kept::with(whole, text, None)),
            Some(built) => {
                let matcher = placed(alloc, room, built)?;
                Ok(Kept::with(whole, text, Some(matcher)))
            }
        }
    }

    /// A pattern with what searches for it.
    fn with(whole: bool, text: Text, mut matcher: Option<Matcher<'r>>) -> Kept<'r>
        requires { IsSearchedBy whole text matcher }
        ensures { result ≡ (whole, text) }
    {
        let empty = is_passed(whole, text.as_str(), &mut matcher, "");
        Kept {
            whole,
            text,
            empty,
            matcher,
        }
    }

    /// The text, as it was given.
    pub(crate) fn text(&self) -> &str
        ensures { result.now ≡ self.now.1 }
    {
        self.text.as_str()
    }

    /// Whether it has to match a whole value.
    pub(crate) fn is_whole(&self) -> bool
        ensures { result ≡ self.now.0 }
    {
        self.whole
    }

    /// Whether it is the pattern of a text.
    pub(crate) fn is(&self, whole: bool, text: &str) -> bool
        ensures { result ≡ is_pattern (whole, text.now) self.now }
    {
        let same_form = if whole { self.whole } else { !self.whole };
        same_form && text == self.text.as_str()
    }

    /// Whether the pattern passes a value.
    pub(crate) fn passes(&mut self, value: &str) -> bool
        ensures answer { result ≡ pattern_passes self.old value.now }
        ensures same { self.new ≡ self.old }
    {
        if value.is_empty() {
            return self.empty;
        }
        is_passed(self.whole, self.text.as_str(), &mut self.matcher, value)
    }

    /// What the groups of the pattern span in a value that it passes. The only error is want of memory.
    pub(crate) fn spans(
        &mut self,
        alloc: Global,
        value: &str,
    ) -> Result<Option<Vec<Option<(usize, usize)>>>, AllocError>
        requires { self.old.0 ≡ true }
        ensures spans { IfOk result (λ o. option_map (λ v. v.items) o ≡ pattern_groups self.old.1 value.now) }
        ensures cut { IfOk result (λ o. IfSome o (λ v. AreCutFrom value.now v.items)) }
        ensures same { self.new ≡ self.old }
    {
        match &mut self.matcher {
            None => plain_spans(alloc, self.text.as_str(), value),
            Some(matcher) => spans_in(alloc, matcher, value),
        }
    }
}

/// Whether a pattern passes a value. Where memory is short the search does without.
fn is_passed(whole: bool, text: &str, matcher: &mut Option<Matcher<'_>>, value: &str) -> bool
    requires { IsSearchedBy whole text.now matcher.old }
    ensures answer { result ≡ pattern_passes (whole, text.now) value.now }
    ensures same { IsSearchedBy whole text.now matcher.new }
{
    match matcher {
        None => plain_passes(whole, text, value),
        Some(matcher) => matcher.is_match(value),
    }
}

/// What searches for a built pattern, which goes to the room.
fn placed<'r>(alloc: Global, room: &'r PatternRoom, built: Built) -> Result<Matcher<'r>, AllocError>
    ensures { IfOk result (λ m. FindsAs (matcher_pattern m) (matcher_names m) built.source) }
{
    match room.free() {
        Some(place) => matcher_in(alloc, place, built),
        None => Err(AllocError),
    }
}

/// Builds a text that isn't plain.
pub(crate) fn built_of(
    alloc: Global,
    whole: bool,
    text: &str,
) -> Result<Option<Built>, PatternRefusal>
    ensures built { IfOk result (IsBuiltFor whole text.now) }
    ensures readable { OnOk result (is_readable whole text.now ≡ true) }
    ensures refused { IfErr result (MayRefuse ((is_plain text.now ≡ false) × IsRefused (regex_text whole text.now)) ⊥) }
{
    if is_plain(text) {
        return Ok(None);
    }
    Ok(Some(build(alloc, whole, text)?))
}

#[tactic(auto, using(crate::proofs::Cuts::whole_cut))]
fn plain_spans(
    alloc: Global,
    text: &str,
    value: &str,
) -> Result<Option<Vec<Option<(usize, usize)>>>, AllocError>
    ensures spans { IfOk result (λ o. option_map (λ v. v.items) o ≡ (if plain_passes true text.now value.now then Some (Some (0, length value.now) ∷ []) else None)) }
    ensures cut { IfOk result (λ o. IfSome o (λ v. AreCutFrom value.now v.items)) }
{
    if !plain_passes(true, text, value) {
        return Ok(None);
    }
    let mut spans = Vec::new(alloc);
    spans.push(Some((0, value.len())))?;
    Ok(Some(spans))
}
