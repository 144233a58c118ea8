//! Lists that declare engines.
use crate::rows::rows_hold;
use holders::Items;
use label_set::Labels;
use std::alloc::{AllocError, Global};
use std::test::Fail;
use tool_words::engines_by;

// Each line is what a list declares, set by set and each with a semicolon, or `refused`, or `taken`, and behind a `|` the list, or
// words that stand for a long one. There are four boxes.
const LISTS: &str = r##"
{region="eu"};|region=eu
{region="eu"};{region="us"};|region=eu;region=us
{region="us"};{region="eu"};|region=us;region=eu
{a="1",b="2"};{a="1",b="3"};|b=2,a=1;a=1,b=3
{a="1",b="1"};{a="2",b="1"};{a="1",b="2"};{a="2",b="2"};|a=1,b=1;b=1,a=2;a=1,b=2;b=2,a=2
{a="1"};{a="01"};|a=1;a=01
{a="x=y"};|a=x=y
{a="="};|a==
{a="--"};|a=--
{"a "=" 1"};|a = 1
{"größe"="日"};|größe=日
{a="\"\\"};|a="\
{__name="x"};|__name=x
refused|
refused|;
refused|a=1;
refused|;a=1
refused|a=1,
refused|,a=1
refused|a=1,,b=2
refused|a
refused|a=
refused|a=,b=1
refused|=
refused|=1
refused|a=1,a=2
refused|a=1,a=1
refused|a=1;a=1
refused|a=1,b=2;b=2,a=1
refused|a=1;a=2;a=1
refused|a=1;a=2;a=3;a=4;a=5
refused|a=1;a=1;a=1;a=1;a=1
refused|a=1;b=1
refused|a=1;a=2,b=1
refused|a=1,b=1;a=2
refused|__name__=x
refused|a=1,__name__=x
refused|__name__=x;__name__=y
taken|64 pairs
refused|65 pairs
taken|a name of 4096 and a value of 4096
refused|a name of 4097 and a value of 1
refused|a name of 1 and a value of 4097"##;

/// So many pairs, under names of their own.
fn pairs(alloc: Global, count: u32) -> Result<String, AllocError> {
    let mut list = String::new(alloc);
    for i in 0..count {
        let comma = if i == 0 { "" } else { "," };
        let pair = format!(in alloc; "{comma}l{i}=v")?;
        list.push_str(pair.as_str())?;
    }
    Ok(list)
}

/// A pair whose name and value have so many letters.
fn long_pair(alloc: Global, name: usize, value: usize) -> Result<String, AllocError> {
    let name = "n".repeat(alloc, name)?;
    let value = "v".repeat(alloc, value)?;
    let (name, value) = (name.as_str(), value.as_str());
    format!(in alloc; "{name}={value}")
}

/// The list that words stand for.
fn list_of(alloc: Global, words: &str) -> Result<String, AllocError> {
    match words {
        "64 pairs" => pairs(alloc, 64),
        "65 pairs" => pairs(alloc, 65),
        "a name of 4096 and a value of 4096" => long_pair(alloc, 4096, 4096),
        "a name of 4097 and a value of 1" => long_pair(alloc, 4097, 1),
        "a name of 1 and a value of 4097" => long_pair(alloc, 1, 4097),
        list => String::from_str(alloc, list),
    }
}

/// The labels of each set, as series are printed.
fn told(alloc: Global, engines: Option<Items<Labels>>) -> Result<Vec<u8>, AllocError> {
    let mut text = Vec::new(alloc);
    match engines {
        None => text.extend_from_slice(b"refused")?,
        Some(engines) => {
            for labels in engines.as_slice() {
                labels.write(&mut text)?;
                text.push(b';')?;
            }
        }
    }
    Ok(text)
}

fn declares(alloc: Global, row: &str) -> Result<bool, Fail> {
    let (wanted, words) = row.split_once('|').ok_or("a row without a list")?;
    let list = list_of(alloc, words)?;
    let text = told(alloc, engines_by(alloc, list.as_str(), 4)?)?;
    let is_refused = text.as_slice() == "refused".as_bytes();
    Ok(if wanted == "taken" {
        !is_refused
    } else {
        text.as_slice() == wanted.as_bytes()
    })
}

#[test]
fn lists_declare_engines(rt: HostRuntime) -> Result<(), Fail> {
    rows_hold(rt.alloc(), LISTS, 43, declares)
}
