use crate::rows::rows_hold;
use frac_text::write_number;
use label_set::Items;
use match_rule::{PatternRoom, Patterns};
use script_read::{Command, Expectations, Expected, ReadFault, Script, Wanted, What, read};
use std::alloc::{AllocError, Global};
use std::test::Fail;
use ticks::Ms;

/// What scripts say that no report shows. Each row is that, as `push_command` writes it, or a refusal, and behind a `§` the script,
/// with `¶` for a line feed, `→` for a tab and `⏎` for a carriage return.
const SAID: &str = r##"clear;§  clear →⏎
load 60000 of 0;§→load  → 1m →
load 1500 of 0;§load 1.5
load 300000 of 2;§load 5m⏎¶  x 1⏎¶→y 2⏎¶⏎¶
eval 0 0 i x =;§eval instant at 0 x
eval 60000 60000 i sum (x) =;§eval → instant at  1m   sum (x)  
eval -60000 -60000 i x # y =;§eval instant at -1m x # y
eval 1500 1500 i 1 +"" =;§eval instant at 1.5 1 +""
eval 0 0 i x ordered =;§eval_ordered instant at 0 x
eval 0 0 i x fail:any =;§eval_fail instant at 0 x
eval 0 0 i x warn:any =;§eval_warn instant at 0 x
eval 0 0 i x info:any =;§eval_info instant at 0 x
eval 0 120000 60000 x =;§eval range from 0 to 2m step 1m x
eval 0 0 1000 x fail:any =;§eval_fail range from 0 to 0 step 1 x
eval 0 0 1000 x warn:any =;§eval_warn range from 0 to 0 step 1s x
eval 0 0 1000 x info:any =;§eval_info range from 0 to 0 step 1s x
eval 0 10999000 1000 x =;§eval range from 0 to 10999 step 1 x
eval 0 0 i x ordered =;§eval instant at 0 x¶expect ordered
eval 0 0 i x fail:any =;§eval instant at 0 x¶  expect → fail
eval 0 0 i x fail:msg a  b =;§eval instant at 0 x¶expect fail msg: a  b
eval 0 0 i x fail:msg foo =;§eval instant at 0 x¶expect fail msg:foo
eval 0 0 i x fail:regex 0 =;§eval instant at 0 x¶expect fail regex: a.*b
eval 0 0 i x fail:msg m fail:regex 0 =;§eval instant at 0 x¶expected_fail_message m¶expected_fail_regexp r
eval 0 0 i x warn:any warn:msg m warn:regex 0 =;§eval instant at 0 x¶expect warn¶expect warn msg: m¶expect warn regex: m
eval 0 0 i x info:any info:msg m info:regex 0 =;§eval instant at 0 x¶expect info¶expect info msg: m¶expect info regex: m
eval 0 0 i x no_warn no_info =;§eval instant at 0 x¶expect no_warn¶expect no_info¶expect no_warn
eval 0 0 i x warn:any no_info =x 1@0;§eval_warn instant at 0 x¶x 1¶expect no_info
eval 0 0 i x warn:regex 0 warn:regex 1 info:regex 0 =;§eval instant at 0 x¶expect warn regex: a¶expect info regex: a¶expect warn regex: b
eval 0 0 i x =5;§eval instant at 0 x¶5
eval 0 0 i x =NaN;§eval instant at 0 x¶nan
eval 0 0 i x =-0.5;§eval instant at 0 x¶-.5
eval 0 0 i x no_warn =5;§eval instant at 0 x¶5¶expect no_warn
eval 0 0 i x ={} 3@0;§eval instant at 0 x¶{} 3
eval 0 0 i x ={a="b"} 3@0 x 2@0;§eval instant at 0 x¶{a="b"} 3¶x{} 2
eval 60000 60000 i x =infinite 1@60000;§eval instant at 1m x¶infinite 1
eval 0 0 i x =expect 1@0;§eval instant at 0 x¶expect{} 1
eval 0 120000 60000 x =x 1@0 2@60000 3@120000;§eval range from 0 to 2m step 1m x¶x 1+1x2
eval 0 120000 60000 x =x 1@0 1@120000;§eval range from 0 to 2m step 1m x¶x 1 _ 1
eval 0 120000 60000 x =x;§eval range from 0 to 2m step 1m x¶x _x3
eval 0 120000 60000 x =x 1@0 {a="b"} 7@60000;§eval range from 0 to 2m step 1m x¶x 1¶{a="b"} _ 7
eval 0 0 i x =;eval 0 0 i y =;§eval instant at 0 x¶¶eval instant at 0 y
Malformed(1)§eval⏎instant at 0 x
Malformed(2)§load 5m¶x⏎1
Malformed(3)§clear⏎¶⏎¶x⏎¶
"##;

fn push(out: &mut Vec<u8>, text: &str) -> Result<(), AllocError> {
    out.extend_from_slice(text.as_bytes())
}

fn push_time(out: &mut Vec<u8>, alloc: Global, time: i64) -> Result<(), AllocError> {
    let text = format!(in alloc; "{time}")?;
    push(out, text.as_str())
}

/// The interval of a load, and how many lines it has.
fn push_load(
    out: &mut Vec<u8>,
    alloc: Global,
    interval: Ms,
    lines: usize,
) -> Result<(), AllocError> {
    let milliseconds = interval.0;
    push(
        out,
        format!(in alloc; "load {milliseconds} of {lines};")?.as_str(),
    )
}

fn push_wishes(
    out: &mut Vec<u8>,
    alloc: Global,
    name: &str,
    wishes: &[Wanted],
) -> Result<(), AllocError> {
    for wish in wishes {
        push(out, name)?;
        match wish {
            Wanted::Any => push(out, "any")?,
            Wanted::Msg(text) => {
                push(out, "msg ")?;
                push(out, text.as_str())?;
            }
            Wanted::Regex(id) => {
                push(out, "regex ")?;
                push_time(out, alloc, i64::from(id.0))?;
            }
        }
    }
    Ok(())
}

fn push_result(out: &mut Vec<u8>, alloc: Global, expected: &Expected) -> Result<(), AllocError> {
    push(out, " =")?;
    match expected {
        Expected::Scalar(value) => write_number(value, out),
        Expected::Rows(rows) => {
            for (place, row) in rows.as_slice().iter().enumerate() {
                push(out, if place == 0 { "" } else { " " })?;
                row.labels.write(out)?;
                for point in row.points.as_slice() {
                    push(out, " ")?;
                    write_number(&point.value, out)?;
                    push(out, "@")?;
                    push_time(out, alloc, point.at.0)?;
                }
            }
            Ok(())
        }
    }
}

fn push_expected(out: &mut Vec<u8>, alloc: Global, e: &Expectations) -> Result<(), AllocError> {
    push_wishes(out, alloc, " fail:", e.fail.as_slice())?;
    push_wishes(out, alloc, " warn:", e.warn.as_slice())?;
    push(out, if e.no_warn { " no_warn" } else { "" })?;
    push_wishes(out, alloc, " info:", e.info.as_slice())?;
    push(out, if e.no_info { " no_info" } else { "" })?;
    push(out, if e.ordered { " ordered" } else { "" })?;
    push_result(out, alloc, &e.result)?;
    push(out, ";")
}

fn push_command(out: &mut Vec<u8>, alloc: Global, command: &Command) -> Result<(), AllocError> {
    match &command.what {
        What::Clear => push(out, "clear;"),
        What::Load { interval, lines } => push_load(out, alloc, *interval, lines.as_slice().len()),
        What::Eval {
            grid,
            instant,
            text,
            expected,
        } => {
            push(out, "eval ")?;
            push_time(out, alloc, grid.start.0)?;
            push(out, " ")?;
            push_time(out, alloc, grid.end.0)?;
            push(out, " ")?;
            if *instant {
                push(out, "i")?;
            } else {
                push_time(out, alloc, grid.step.0)?;
            }
            push(out, " ")?;
            push(out, text.as_str())?;
            push_expected(out, alloc, expected)
        }
    }
}

fn push_script(out: &mut Vec<u8>, alloc: Global, script: &Script) -> Result<(), AllocError> {
    for command in script.commands.as_slice() {
        push_command(out, alloc, command)?;
    }
    Ok(())
}

/// What a file says, as the tables write it.
fn told(alloc: Global, bytes: &[u8]) -> Result<Vec<u8>, AllocError> {
    let mut room = PatternRoom::new(alloc)?;
    let mut searches = Patterns::new(alloc, &mut room);
    let mut out = Vec::new(alloc);
    match read(alloc, bytes, &mut searches) {
        Ok(script) => push_script(&mut out, alloc, &script)?,
        Err(ReadFault::Refused(refusal)) => push(
            &mut out,
            format!(in alloc; "{refusal:?}")?.as_str(),
        )?,
        Err(ReadFault::Memory) => return Err(AllocError),
    }
    Ok(out)
}

/// The text of a row's script.
fn unmarked(alloc: Global, text: &str) -> Result<String, AllocError> {
    let lines = text.replace(alloc, "¶", "\n")?;
    let tabs = lines.as_str().replace(alloc, "→", "\t")?;
    tabs.as_str().replace(alloc, "⏎", "\r")
}

/// Whether a script says what its row tells.
fn is_said(alloc: Global, row: &str) -> Result<bool, Fail> {
    let (wanted, text) = row.split_once("§").ok_or("no script")?;
    let text = unmarked(alloc, text)?;
    let got = told(alloc, text.as_str().as_bytes())?;
    Ok(got.as_slice() == wanted.as_bytes())
}

#[test]
fn scripts_say(rt: HostRuntime) -> Result<(), Fail> {
    rows_hold(rt.alloc(), SAID, 44, is_said)
}

fn says(alloc: Global, bytes: &[u8], wanted: &str) -> Result<bool, AllocError> {
    Ok(told(alloc, bytes)?.as_slice() == wanted.as_bytes())
}

/// A text of so many bytes, equal ones behind a front.
fn many(alloc: Global, front: &str, byte: u8, count: usize) -> Result<Vec<u8>, AllocError> {
    let mut bytes = Vec::new(alloc);
    push(&mut bytes, front)?;
    bytes.resize(count, byte)?;
    Ok(bytes)
}

fn is_blank_taken(alloc: Global) -> Result<bool, AllocError> {
    says(alloc, &many(alloc, "", b' ', 4_194_304)?, "")
}

fn is_more_refused(alloc: Global, front: &str, byte: u8) -> Result<bool, AllocError> {
    says(alloc, &many(alloc, front, byte, 4_194_305)?, "TooLarge")
}

#[test]
fn takes_4194304_bytes(rt: HostRuntime) -> Result<(), Fail> {
    let alloc = rt.alloc();
    let are_refused = is_more_refused(alloc, "", b' ')? && is_more_refused(alloc, "\n\n", 0xff)?;
    assert!(rt; is_blank_taken(alloc)? && are_refused);
    Ok(())
}

#[test]
fn tells_what_is_no_text(rt: HostRuntime) -> Result<(), Fail> {
    let alloc = rt.alloc();
    let third = says(alloc, b"clear\n\nx\xff", "NotUtf8(3)")?;
    let cut = says(alloc, b"x\n\xc3", "NotUtf8(2)")?;
    let split = says(alloc, b"\xc3\n\xa9", "NotUtf8(1)")?;
    assert!(rt; third && cut && split);
    Ok(())
}

/// Whether an evaluation with so many distinct patterns, the first one once more behind them, and then another, is refused so.
fn says_of_patterns(alloc: Global, count: u32, wanted: &str) -> Result<bool, AllocError> {
    let mut text = Vec::new(alloc);
    push(&mut text, "eval instant at 0 x\n")?;
    for k in 0..count {
        let line = format!(in alloc; "expect fail regex: p{k}\n")?;
        push(&mut text, line.as_str())?;
    }
    push(&mut text, "expect fail regex: p0\nexpect fail regex: q\n")?;
    says(alloc, text.as_slice(), wanted)
}

#[test]
fn keeps_32_patterns(rt: HostRuntime) -> Result<(), Fail> {
    let alloc = rt.alloc();
    let is_full = says_of_patterns(alloc, 32, "BadPattern(35)")?;
    assert!(rt; is_full && says_of_patterns(alloc, 33, "BadPattern(34)")?);
    Ok(())
}

/// What each front of a script says, one letter each: `m` malformed at line 1, `n` at line 2, `-` taken.
fn cuts(alloc: Global, text: &[u8]) -> Result<Vec<u8>, AllocError> {
    let mut out = Vec::new(alloc);
    for size in 0..text.len() + 1 {
        let got = told(alloc, text.split_at(size).0)?;
        let letter = if got.as_slice() == b"Malformed(1)".as_slice() {
            b'm'
        } else if got.as_slice() == b"Malformed(2)".as_slice() {
            b'n'
        } else {
            b'-'
        };
        out.push(letter)?;
    }
    Ok(out)
}

#[test]
fn reads_cut_scripts(rt: HostRuntime) -> Result<(), Fail> {
    let got = cuts(rt.alloc(), b"load 1m\n  x{a=\"b\"} 1\n".as_slice())?;
    assert_eq!(rt; got.as_slice(), b"-mmmmm-----nnnnnnnnn--".as_slice());
    Ok(())
}
