//! What `regex` builds from a text, and what searches for it.
ghost use Rattle.match_rule.specs.Patterns.{AreCutFrom, FindsAs, IsCutFrom, IsFinder, IsRefused, MayRefuse, first_spans, group_spans, regex_text};
ghost use Rattle.regex.specs.Patterns.{find_str};
ghost use Rattle.regex.specs.Strings.{captures_haystack, captures_names, captures_span, matcher_names, matcher_pattern};
ghost use Rattle.std.specs.Option.{option_map};
ghost use Rattle.std.specs.Prelude.{◌≡◌, true, length, string_bytes, IfOk, IfErr, IfSome};

use crate::patterns::PatternRefusal;
use label_set::Text;
use regex::{Captures, Matcher, Regex};
use std::alloc::{AllocError, Global};
use std::cell::OnceCell;

/// A text that `regex` was given, and what it built.
#[derive(Drop)]
pub(crate) struct Built {
    source: Text,
    regex: Regex,
    ghost is_finder: { IsFinder regex source },
}

/// Has `regex` build a pattern, wrapped where it has to match the whole value.
pub(crate) fn build(alloc: Global, whole: bool, text: &str) -> Result<Built, PatternRefusal>
    ensures source { IfOk result (λ b. b.source ≡ regex_text whole text.now) }
    ensures refused { IfErr result (MayRefuse (IsRefused (regex_text whole text.now)) ⊥) }
{
    if !whole {
        return build_text(alloc, text);
    }
    let wrapped = wrapped(alloc, text)?;
    build_text(alloc, wrapped.as_str())
}

fn wrapped(alloc: Global, text: &str) -> Result<String, AllocError>
    ensures { IfOk result (λ t. string_bytes t ≡ regex_text true text.now) }
{
    format!(in alloc; "^(?s:{text})$")
}

fn build_text(alloc: Global, text: &str) -> Result<Built, PatternRefusal>
    ensures source { IfOk result (λ b. b.source ≡ text.now) }
    ensures refused { IfErr result (MayRefuse (IsRefused text.now) ⊥) }
{
    match Regex::new(alloc, text) {
        Ok(regex) => {
            let source = Text::of(alloc, text)?;
            Ok(Built { source, regex })
        }
        Err(regex::Error::OutOfMemory) => Err(PatternRefusal::Memory),
        Err(_) => Err(PatternRefusal::BadPattern),
    }
}

/// What searches for a pattern that is put in an empty place. The only error is want of memory, also where the place isn't
/// empty.
pub(crate) fn matcher_in<'r>(
    alloc: Global,
    place: &'r OnceCell<Box<Built>>,
    built: Built,
) -> Result<Matcher<'r>, AllocError>
    ensures { IfOk result (λ m. FindsAs (matcher_pattern m) (matcher_names m) built.source) }
{
    let source = built.source.copy()?;
    if place.set(Box::new(alloc, built)?).is_err() {
        return Err(AllocError);
    }
    match place.get() {
        Some(built) => matcher_of(alloc, built, source.as_str()),
        None => Err(AllocError),
    }
}

/// A place tells nothing of what was put in it, so its text is looked at.
fn matcher_of<'r>(alloc: Global, built: &'r Built, source: &str) -> Result<Matcher<'r>, AllocError>
    ensures { IfOk result (λ m. FindsAs (matcher_pattern m) (matcher_names m) source.now) }
{
    if built.source.as_str() != source {
        return Err(AllocError);
    }
    built.regex.matcher(alloc)
}

/// What the groups of the leftmost match span, if there is one. The only error is want of memory.
pub(crate) fn spans_in(
    alloc: Global,
    matcher: &mut Matcher<'_>,
    value: &str,
) -> Result<Option<Vec<Option<(usize, usize)>>>, AllocError>
    ensures spans { IfOk result (λ o. option_map (λ v. v.items) o ≡ option_map (group_spans (length (matcher_names matcher.old))) (find_str (matcher_pattern matcher.old) value.now 0)) }
    ensures cut { IfOk result (λ o. IfSome o (λ v. AreCutFrom value.now v.items)) }
    ensures pattern { matcher_pattern matcher.new ≡ matcher_pattern matcher.old }
    ensures names { matcher_names matcher.new ≡ matcher_names matcher.old }
{
    match matcher.captures(value) {
        None => Ok(None),
        Some(captures) => Ok(Some(copied(alloc, &captures)?)),
    }
}

#[tactic(auto, using(crate::proofs::Cuts::none_cut))]
fn copied(
    alloc: Global,
    captures: &Captures<'_, '_>,
) -> Result<Vec<Option<(usize, usize)>>, AllocError>
    ensures spans { IfOk result (λ v. v.items ≡ first_spans captures.now (length (captures_names captures.now))) }
    ensures cut { IfOk result (λ v. AreCutFrom (captures_haystack captures.now) v.items) }
{
    let mut spans = Vec::new(alloc);
    for i in 0..captures.len() {
        spans.push(span_at(captures, i))?;
    }
    Ok(spans)
}

#[tactic(auto, using(crate::proofs::Cuts::match_cut))]
fn span_at(captures: &Captures<'_, '_>, i: usize) -> Option<(usize, usize)>
    ensures span { result ≡ captures_span captures.now i }
    ensures cut { IfSome result (IsCutFrom (captures_haystack captures.now)) }
{
    let group = captures.get(i)?;
    Some((group.start(), group.end()))
}
