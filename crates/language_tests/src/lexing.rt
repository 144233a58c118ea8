use crate::rows::rows_hold;
use frac_text::write_number;
use promql_ast::QueryRefusal;
use promql_lex::{
    LexFault, Token, TokenKind, kinds_are_of_spellings, refused_spellings_are_last,
    spans_lie_in_order, tokens,
};
use std::alloc::{AllocError, Global};
use std::test::Fail;
use ticks::Ms;

// Each line is a text and its tokens, found by hand: their first bytes and the bytes behind their last. `n` is a name, `w` a
// word, `s` a sign, `f` a number with its value, `d` a duration in milliseconds, `q` a string with what it stands for, and
// `!` a refused spelling with its refusal and place; `-` is no token. `$` and a letter stand for the bytes of ESCAPES.
const TEXTS: &str = " => -
$s$t$r$n => -
# only a comment => -
up => n0-2
$sup$s => n1-3
a$tb$rc$nd => n0-1 n2-3 n4-5 n6-7
a#b\"c$nd => n0-1 n6-7
#'$n#\"$nx => n6-7
x#$ny# => n0-1 n3-4
\"#\"#\" => q0-3=#
#é`$nx => n5-6
and aNd => w0-3 w4-7
or oR => w0-2 w3-5
unless uNlEsS => w0-6 w7-13
by bY => w0-2 w3-5
without wItHoUt => w0-7 w8-15
on oN => w0-2 w3-5
ignoring iGnOrInG => w0-8 w9-17
group_left gRoUp_lEfT => w0-10 w11-21
group_right gRoUp_rIgHt => w0-11 w12-23
bool bOoL => w0-4 w5-9
offset oFfSeT => w0-6 w7-13
start sTaRt => w0-5 w6-11
end eNd => w0-3 w4-7
atan2 aTaN2 => w0-5 w6-11
sum sUm => w0-3 w4-7
avg aVg => w0-3 w4-7
min mIn => w0-3 w4-7
max mAx => w0-3 w4-7
count cOuNt => w0-5 w6-11
group gRoUp => w0-5 w6-11
stdvar sTdVaR => w0-6 w7-13
topk tOpK => w0-4 w5-9
bottomk bOtToMk => w0-7 w8-15
quantile qUaNtIlE => w0-8 w9-17
count_values cOuNt_vAlUeS => w0-12 w13-25
GROUP_LEFT Offset ATAN2 => w0-10 w11-17 w18-23
stddev LIMITK limit_ratio => n0-6 n7-13 n14-25
sums su summ => n0-4 n5-7 n8-12
and_ _and an => n0-4 n5-9 n10-12
by:x => n0-4
_a1:B9_ => n0-7
a:b => n0-3
: => n0-1
::a => n0-3
a :b => n0-1 n2-4
a:5 => n0-3
5:a => f0-1=5 n1-3
inF INF => f0-3=+Inf f4-7=+Inf
nan NAN => f0-3=NaN f4-7=NaN
infx => n0-4
Infinity => n0-8
inf:x => n0-5
nan_ => n0-4
inf5m => n0-5
+inf => s0-1 f1-4=+Inf
_inf 1 => n0-4 f5-6=1
1.2.3 => f0-3=1.2 f3-5=0.3
1..2 => f0-2=1 f2-4=0.2
1e+5.5 => f0-4=100000 f4-6=0.5
1+5 => f0-1=1 s1-2 f2-3=5
0x1e+5 => f0-4=30 s4-5 f5-6=5
0x1.5 => f0-3=1 f3-5=0.5
_1 => n0-2
10ms 1d 1w 1y => d0-4=10 d5-7=86400000 d8-10=604800000 d11-13=31536000000
5m.5 => d0-2=300000 f2-4=0.5
5m-3 => d0-2=300000 s2-3 f3-4=3
5m: => d0-2=300000 n2-3
\"\" => q0-2=
'' => q0-2=
`` => q0-2=
\"a b\" => q0-5=a$sb
'a\"b' => q0-5=a\"b
\"a'b\" => q0-5=a'b
`a\"'\\n` => q0-7=a\"'\\n
\"\\a\\b\\f\\n\\r\\t\\v\\\\\" => q0-18=$a$b$f$n$r$t$v\\
\"\\\"\" => q0-4=\"
'\\'' => q0-4='
\"\\101\\000\\177\" => q0-14=A$0$d
\"\\1234\" => q0-7=S4
\"\\x41\\x00\\x7F\" => q0-14=A$0$d
\"\\u0041\\u00e9\\uFFFF\" => q0-20=Aé￿
\"\\ud7ff\\ue000\" => q0-14=퟿
\"\\U0001F600\\U0010ffff\" => q0-22=😀􏿿
\"é\" => q0-4=é
'日本' => q0-8=日本
`é`x => q0-4=é n4-5
`a$nb => !0-4=Unterminated(0)
`a$nb` => q0-5=a$nb
\"a$nb\" => !0-5=Unterminated(0)
\"a\\$nb\" => !0-6=Unterminated(0)
\"\\\\\"x => q0-4=\\ n4-5
\"a\" \"b\" 'c => q0-3=a q4-7=b !8-10=Unterminated(8)
\"a$tb$rc\" => q0-7=a$tb$rc
( ) { } [ ] , + - * / % ^ = < > @ => s0-1 s2-3 s4-5 s6-7 s8-9 s10-11 s12-13 s14-15 s16-17 s18-19 s20-21 s22-23 s24-25 s26-27 s28-29 s30-31 s32-33
== => s0-2
!= => s0-2
=~ => s0-2
!~ => s0-2
<= => s0-2
>= => s0-2
=== => s0-2 s2-3
=!= => s0-1 s1-3
<> => s0-1 s1-2
=> => s0-1 s1-2
=< => s0-1 s1-2
<== => s0-2 s2-3
!==~ => s0-2 s2-4
= = => s0-1 s2-3
$0 => !0-1=BadToken(0)
$da => !0-1=BadToken(0)
$v => !0-1=BadToken(0)
x[5m:] => n0-1 s1-2 d2-4=300000 s4-5 s5-6
x[5m:1m] => n0-1 s1-2 d2-4=300000 s4-5 d5-7=60000 s7-8
x[a:b] => n0-1 s1-2 n2-3 s3-4 n4-5 s5-6
[::]:: => s0-1 s1-2 s2-3 s3-4 n4-6
[a:[b:c]d:e => s0-1 n1-2 s2-3 s3-4 n4-5 s5-6 n6-7 s7-8 n8-11
[inf: => s0-1 f1-4=+Inf s4-5
[by:on => s0-1 w1-3 s3-4 w4-6
[\"]\":a => s0-1 q1-4=] s4-5 n5-6
[#]$n:a => s0-1 s4-5 n5-6
\"[\":a => q0-3=[ n3-5
#[$n:a => n3-5
]:a => s0-1 n1-3
[5m:5]:x => s0-1 d1-3=300000 s3-4 f4-5=5 s5-6 n6-8
sum by (a) (rate(x{b=~\"c\"}[5m])) > bool 1e3 => w0-3 w4-6 s7-8 n8-9 s9-10 s11-12 n12-16 s16-17 n17-18 s18-19 n19-20 s20-22 q22-25=c s25-26 s26-27 d27-29=300000 s29-30 s30-31 s31-32 s33-34 w35-39 f40-43=1000
x offset -5m @ end() => n0-1 w2-8 s9-10 d10-12=300000 s13-14 w15-18 s18-19 s19-20";

const ESCAPES: [(char, char); 11] = [
    ('\n', 'n'),
    ('\t', 't'),
    ('\r', 'r'),
    (' ', 's'),
    ('$', '$'),
    ('\x07', 'a'),
    ('\x08', 'b'),
    ('\x0c', 'f'),
    ('\x0b', 'v'),
    ('\0', '0'),
    ('\x7f', 'd'),
];

fn byte_behind(letter: char) -> char {
    for (byte, name) in ESCAPES {
        if name == letter {
            return byte;
        }
    }
    letter
}

fn letter_of(byte: char) -> Option<char> {
    for (other, name) in ESCAPES {
        if other == byte {
            return Some(name);
        }
    }
    None
}

fn unescaped(alloc: Global, text: &str) -> Result<String, AllocError> {
    let mut out = String::new(alloc);
    let mut behind = false;
    for letter in text.chars() {
        if behind {
            out.push(byte_behind(letter))?;
            behind = false;
        } else if letter == '$' {
            behind = true;
        } else {
            out.push(letter)?;
        }
    }
    Ok(out)
}

fn push_escaped(out: &mut String, text: &str) -> Result<(), AllocError> {
    for byte in text.chars() {
        match letter_of(byte) {
            Some(letter) => {
                out.push('$')?;
                out.push(letter)?;
            }
            None => out.push(byte)?,
        }
    }
    Ok(())
}

fn push_value(alloc: Global, out: &mut String, kind: &TokenKind) -> Result<(), Fail> {
    match kind {
        TokenKind::Number(value) => {
            let mut number = Vec::new(alloc);
            write_number(value, &mut number)?;
            out.push('=')?;
            out.push_str(std::str::from_utf8(number.as_slice())?)?;
        }
        TokenKind::Duration(Ms(milliseconds)) => {
            let duration = format!(in alloc; "={milliseconds}")?;
            out.push_str(duration.as_str())?;
        }
        TokenKind::Quoted(text) => {
            out.push('=')?;
            push_escaped(out, text.as_str())?;
        }
        TokenKind::Bad(refusal) => {
            let bad = format!(in alloc; "={refusal:?}")?;
            out.push_str(bad.as_str())?;
        }
        _ => {}
    }
    Ok(())
}

fn letter_of_kind(kind: &TokenKind) -> char {
    match kind {
        TokenKind::Name => 'n',
        TokenKind::Word => 'w',
        TokenKind::Sign => 's',
        TokenKind::Number(_) => 'f',
        TokenKind::Duration(_) => 'd',
        TokenKind::Quoted(_) => 'q',
        TokenKind::Bad(_) => '!',
    }
}

fn described(alloc: Global, tokens: &[Token]) -> Result<String, Fail> {
    let mut out = String::new(alloc);
    for token in tokens {
        if !out.is_empty() {
            out.push(' ')?;
        }
        out.push(letter_of_kind(&token.kind))?;
        let at = token.at;
        let end = token.end;
        let span = format!(in alloc; "{at}-{end}")?;
        out.push_str(span.as_str())?;
        push_value(alloc, &mut out, &token.kind)?;
    }
    if out.is_empty() {
        out.push('-')?;
    }
    Ok(out)
}

/// Whether a text has the tokens of its row, and a copy of them too.
fn has_tokens(alloc: Global, row: &str) -> Result<bool, Fail> {
    let (text, wanted) = row.split_once(" => ").ok_or("a row without its tokens")?;
    let text = unescaped(alloc, text)?;
    if text.len() > 65_536 {
        return Ok(false);
    }
    let found = tokens(alloc, text.as_str())?;
    let copy = found.copy()?;
    Ok(described(alloc, copy.as_slice())?.as_str() == wanted)
}

#[test]
fn texts_have_their_tokens(rt: HostRuntime) -> Result<(), Fail> {
    rows_hold(rt.alloc(), TEXTS, 127, has_tokens)
}

#[test]
fn tokens_have_laws(_rt: HostRuntime) -> Result<(), Fail> {
    kinds_are_of_spellings();
    refused_spellings_are_last();
    spans_lie_in_order();
    Ok(())
}

#[test]
fn faults_are_copied(_rt: HostRuntime) -> Result<(), Fail> {
    let fault = LexFault::Refused(QueryRefusal::Expected(3));
    if fault.copy()? == fault {
        Ok(())
    } else {
        Err(Fail::from("another fault"))
    }
}
