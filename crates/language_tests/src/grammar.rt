mod printing;
mod texts;

use crate::grammar::printing::{push_text, push_tree};
use crate::grammar::texts::{BUILT, TEXTS};
use crate::rows::rows_hold;
use match_rule::{PatternRoom, Patterns};
use promql_lex::LexFault;
use promql_parse::parse;
use std::alloc::Global;
use std::test::Fail;

/// The tree of a text, or only that there is one; or its refusal.
fn answer(alloc: Global, text: &str, whole: bool) -> Result<String, Fail> {
    let mut out = String::new(alloc);
    let mut room = PatternRoom::new(alloc)?;
    match parse(alloc, text, &mut Patterns::new(alloc, &mut room)) {
        Ok(e) if whole => push_tree(&mut out, alloc, &e)?,
        Ok(_) => out.push_str("ok")?,
        Err(LexFault::Refused(refusal)) => push_text(&mut out, format!(in alloc; "!{refusal:?}"))?,
        Err(LexFault::Memory) => out.push_str("memory")?,
    }
    Ok(out)
}

fn has_tree(alloc: Global, row: &str) -> Result<bool, Fail> {
    let (text, wanted) = row.split_once(" => ").ok_or("a row without its answer")?;
    Ok(answer(alloc, text, true)?.as_str() == wanted)
}

#[test]
fn texts_have_their_trees(rt: HostRuntime) -> Result<(), Fail> {
    rows_hold(rt.alloc(), TEXTS, 71, has_tree)
}

fn push_times(out: &mut String, count: &str, part: &str) -> Result<(), Fail> {
    for _ in 0..count.parse::<u32>()? {
        push_part(out, part)?;
    }
    Ok(())
}

fn push_part(out: &mut String, part: &str) -> Result<(), Fail> {
    for letter in part.chars() {
        match letter {
            '_' => {}
            '~' => out.push(' ')?,
            other => out.push(other)?,
        }
    }
    Ok(())
}

/// A text of a head, a part so many times, a middle, and another part so many times.
fn built(alloc: Global, parts: &str) -> Result<String, Fail> {
    let mut words = parts.split(' ');
    let mut text = String::new(alloc);
    push_part(&mut text, words.next().ok_or("no head")?)?;
    let count = words.next().ok_or("no count")?;
    push_times(&mut text, count, words.next().ok_or("no part")?)?;
    push_part(&mut text, words.next().ok_or("no middle")?)?;
    let count = words.next().ok_or("no last count")?;
    push_times(&mut text, count, words.next().ok_or("no last part")?)?;
    Ok(text)
}

fn has_answer(alloc: Global, row: &str) -> Result<bool, Fail> {
    let (parts, wanted) = row.split_once(" => ").ok_or("a row without its answer")?;
    let text = built(alloc, parts)?;
    Ok(answer(alloc, text.as_str(), false)?.as_str() == wanted)
}

#[test]
fn long_texts_have_their_answers(rt: HostRuntime) -> Result<(), Fail> {
    rows_hold(rt.alloc(), BUILT, 9, has_answer)
}
