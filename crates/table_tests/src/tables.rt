use crate::written::{is_wanted, names, vector};
use func_table::SetOp;
use label_set::{Card, Items, Pairing};
use std::alloc::Global;
use std::test::Fail;
use step_table::{Step, combine, pair};
use xfrac::{ArithOp, CompareOp, PairOp};

// Each line is a left vector, an operator with its modifiers, a right vector, and the rows and the marks that come,
// worked by hand. A row is its metric's name and its labels, and a value behind a colon; `#N` is N labels from `l0` on,
// and `big` is 10^30. A mark is the letter of its kind and its labels; one of an operand stands behind `!`.
const ROWS: &str = "a:1 + b:2 :3 -
a:5 - b:2 :3 -
a:5 * b:2 :10 -
a:1 / b:4 :1/4 -
a:7 % b:4 :3 -
a:2 ^ b:3 :8 -
a,x=1:1;a,x=2:2 + b,x=1:10;b,x=2:20 ,x=1:11;,x=2:22 -
a,x=1:1;a,x=2:2 + b,x=2:20;b,x=3:30 ,x=2:22 -
a,x=1:1 + b,x=2:2 - -
a,x=1:1 + b:2 - -
a,x=1,y=1:1 +;on=x b,x=1,z=9:2 ,x=1:3 -
a,x=1,y=1:1 +;ign=y,z b,x=1,z=9:2 ,x=1:3 -
a,x=1,y=1:1 +;ign=y b,x=1:2 ,x=1:3 -
a,x=1:1 +;on= b,y=2:2 :3 -
a,x=1:1 +;ign= b,x=1:2 ,x=1:3 -
a,x=1:1 +;ign=x b,x=2:2 :3 -
a,x=1:1 +;on=__name__ b,x=1:2 - -
a,x=1:1 +;on=__name__ a,y=1:2 :3 -
a,x=1:3 >;on=__name__ a,y=1:2 a:3 -
a,x=1:3 > b,x=1:2 a,x=1:3 -
a:1 > b:2 - -
a,x=1,y=1:3 >;on=x b,x=1:2 ,x=1:3 -
a,x=1,y=1:3 >;ign=y b,x=1:2 a,x=1:3 -
a,x=1:3 >;ign=__name__ b,x=1:2 ,x=1:3 -
a:3 >b b:2 :1 -
a:1 >b b:2 :0 -
a:1 == b:1 a:1 -
a:1 != b:1 - -
a:nan == b:nan - -
a:nan != b:nan a:nan -
a:nan ==b b:nan :0 -
a:nan !=b b:nan :1 -
a:1 < b:2 a:1 -
a:2 <= b:2 a:2 -
a:2 >= b:3 - -
a,i=1:1;a,i=2:2 *;on= b:1 - M
a,i=1:1;a,i=2:2 *;on=;left= b:1 ,i=1:1;,i=2:2 -
b:1 *;on= a,i=1:1;a,i=2:2 - D
b:1 *;on=;right= a,i=1:1;a,i=2:2 ,i=1:1;,i=2:2 -
a,i=1:1;a,i=2:5 >;on= b:3 :5 -
a,i=1:4;a,i=2:5 >;on= b:3 - M
a,i=1:1;a,i=2:2 >;on= b:3 - -
a,i=1:1;a,i=2:5 >b;on= b:3 - M
a,i=1:2;a,i=2:inf ^;on= b:1/2 :inf I
a,i=1:big;a,i=2:1 *;on= b:2 :2 O
a,x=1:1 +;on=x b,x=1,y=1:1;b,x=1,y=2:2 - D,x=1
a,x=2:1 +;on=x b,x=1,y=1:1;b,x=1,y=2:2;b,x=2:5 ,x=2:6 D,x=1
a,x=1:1 + b,x=1:1;c,x=1:2 - D,x=1
c,x=1:2 * a,x=1:1;a,x=2:1;b,x=2:1 ,x=1:2 D,x=2
a,x=1:1;b,x=1:2 + c,x=1:5 - M,x=1
a,x=1:1;b,x=1:2 + c,x=1:5;d,x=1:6 - D,x=1
a,i=1,x=1:1;a,i=2,x=1:2 +;on=x b,x=1:5;b,x=2,y=1:1;b,x=2,y=2:2 - D,x=2;M,x=1
a:1 +;on=x b,x=1,y=1:1;b,x=1,y=2:1;b,x=2,y=1:1;b,x=2,y=2:1 - D,x=1;D,x=2
- +;on=x b,x=1,y=1:1;b,x=1,y=2:2 - -
a,x=1,y=1:1;a,x=1,y=2:2 *;on=x;right= - - -
a:1 + - - -
- + - - -
a:1;!O + - - O
a:1;!S,x=1 + b:2;!O :3 O;S,x=1
a:1;!O;!I + b:2;!O :3 O;I
a,i=1:1;a,i=2:2;!R,z=1 *;on= b:1;!O - O;M;R,z=1
a,i=1,x=1:2 *;on=x;left= b,x=1,z=9:3 ,i=1,x=1:6 -
a,i=1,x=1:2 *;on=x;left=z b,x=1,z=9:3 ,i=1,x=1,z=9:6 -
a,i=1,x=1,z=7:2 *;on=x;left=z b,x=1:3 ,i=1,x=1:6 -
a,i=1,x=1,z=7:2 *;on=x;left=z b,x=1,z=9:3 ,i=1,x=1,z=9:6 -
a,x=1:2 *;on=x;left=q b,x=1:3 ,x=1:6 -
a,x=1,y=5:2 *;on=x;left=y,z b,x=1,z=9:3 ,x=1,z=9:6 -
a,x=1:2 *;on=x;left=__name__ b,x=1:3 b,x=1:6 -
b,x=1:10 -;on=x;right= a,i=1,x=1:3;a,i=2,x=1:4 ,i=1,x=1:7;,i=2,x=1:6 -
b,x=1,z=9:10 -;on=x;right=z a,i=1,x=1:3 ,i=1,x=1,z=9:7 -
b,x=1:10 >;on=x;right= a,i=1,x=1:3 a,i=1,x=1:10 -
a,i=1,x=1:3;a,i=2,x=1:30 >;on=x;left= b,x=1:10 a,i=2,x=1:30 -
a,i=1,x=1:3 *;on=x;left= b,x=1,y=1:1;b,x=1,y=2:2 - D,x=1
b,x=1,y=1:1;b,x=1,y=2:2 *;on=x;right= a,i=1,x=1:3 - D,x=1
a,i=1,x=1:2;a,i=2,x=1:3 *;ign=i;left= b,x=1:5 ,i=1,x=1:10;,i=2,x=1:15 -
a,i=1:1;b,i=1:2 *;ign=i;left= c:5 - R,i=1
a,i=1:1;a,i=2:2 *;on=;left=i b,i=9:3 - R,i=9
a:1;b:2 +;on=__name__ a,x=1:1;b,x=1:2 - S
a,x=1:1;b,x=1:2 +;on=__name__,x a,x=1:5;b,x=1:6 - S,x=1
a,x=1:1;b,x=1:2 <;on=__name__,x a,x=1:5;b,x=1:6 a,x=1:1;b,x=1:2 -
a,x=1:1;b,x=1:2 <b;on=__name__,x a,x=1:5;b,x=1:6 - S,x=1
a,x=1:1;b,x=1:2 < c,x=1:5 - M,x=1
a,#63:1 + b,#63:2 ,#63:3 -
a,#63:1 *;on=l0;left=z b,l0=v,z=9:2 ,#63,z=9:2 -
a,#63:3 >;on=l0;left=z b,l0=v,z=9:2 - O
,#64:1 *;on=l0;left=z b,l0=v,z=9:2 - O
,#64:1 *;on=l0;left=l1 b,l0=v,l1=w:2 ,#64,l1=w:2 -
,#64:1 *;on=l0;left=z,l1 b,l0=v,z=9:2 ,#64,l1=,z=9:2 -
,l0=v:5;,#64:1 *;on=l0;left=z b,l0=v,z=9:2 ,l0=v,z=9:10 O
,#64:1 >;on=l0;left=z b,l0=v,z=9:2 - -
a,i=1:big;a,i=2:2;a,i=3:2 *;on= b:2 - O;M
a,i=1:2;a,i=2:3 ^;on=;left= b:1/2 - I
a,x=1:2;a,x=2:big ^;on=x b,x=1:1/2;b,x=2:2 - O;I
x,i=1:1 and x,i=1:1 x,i=1:1 -
x,i=1:1 unless x,i=1:1 - -
x,i=1:1 or :9 :9;x,i=1:1 -
x,i=1:1 or;on= :9 x,i=1:1 -
x,i=1:1 and;on= :9 x,i=1:1 -
y:1 or :9 y:1 -
x,i=1:1;x,i=2:2 and y,i=2:5 x,i=2:2 -
x,i=1:1;x,i=2:2 unless y,i=2:5 x,i=1:1 -
x,i=1:1;x,i=2:2 and;on= y:5 x,i=1:1;x,i=2:2 -
x,i=1:1;x,i=2:2 unless;on= y:5 - -
x,i=1:1 and - - -
x,i=1:1 unless - x,i=1:1 -
- or y:2 y:2 -
x:1 or - x:1 -
x,i=1,j=1:1 and;on=i y,i=1,k=3:5 x,i=1,j=1:1 -
x,i=1,j=1:1 unless;ign=j y,i=1,j=2:5 - -
x,i=1:1 or;on=i y,i=1:2;y,i=2:3 x,i=1:1;y,i=2:3 -
x,i=1:1 or;on=i y,i=2,j=1:2;y,i=2,j=2:3 x,i=1:1;y,i=2,j=1:2;y,i=2,j=2:3 -
x:1;!O or y,i=1:2;!S,a=1 x:1;y,i=1:2 O;S,a=1
x:1;y:2 and;on=__name__ y:7 y:2 -
x:1;x:2 or - - S,x
x,i=1:nan and y,i=1:0 x,i=1:nan -";

fn comparison(word: &str) -> CompareOp {
    match word {
        "==" => CompareOp::Eq,
        "!=" => CompareOp::Ne,
        "<" => CompareOp::Lt,
        "<=" => CompareOp::Le,
        ">" => CompareOp::Gt,
        _ => CompareOp::Ge,
    }
}

fn pair_operator(word: &str) -> PairOp {
    match word {
        "+" => PairOp::Arith(ArithOp::Add),
        "-" => PairOp::Arith(ArithOp::Sub),
        "*" => PairOp::Arith(ArithOp::Mul),
        "/" => PairOp::Arith(ArithOp::Div),
        "%" => PairOp::Arith(ArithOp::Rem),
        "^" => PairOp::Arith(ArithOp::Pow),
        _ => match word.strip_suffix('b') {
            Some(word) => PairOp::Flag(comparison(word)),
            None => PairOp::Filter(comparison(word)),
        },
    }
}

fn set_operator(word: &str) -> Option<SetOp> {
    match word {
        "and" => Some(SetOp::And),
        "unless" => Some(SetOp::Unless),
        "or" => Some(SetOp::Or),
        _ => None,
    }
}

fn set_modifier(alloc: Global, p: &mut Pairing, word: &str) -> Result<(), Fail> {
    let (kind, list) = word.split_once('=').ok_or("no modifier")?;
    let list = names(alloc, list)?;
    if kind == "on" || kind == "ign" {
        p.on = kind == "on";
        p.names = list;
        return Ok(());
    }
    p.card = if kind == "left" {
        Card::GroupLeft
    } else {
        Card::GroupRight
    };
    p.extra = list;
    Ok(())
}

fn pairing(alloc: Global, modifiers: &str) -> Result<Pairing, Fail> {
    let mut p = Pairing {
        on: false,
        names: Items::new(alloc),
        card: Card::OneToOne,
        extra: Items::new(alloc),
    };
    for word in modifiers.split(';') {
        if word != "" {
            set_modifier(alloc, &mut p, word)?;
        }
    }
    Ok(p)
}

/// The step of an operator with its modifiers.
fn operated(alloc: Global, l: &Step, text: &str, r: &Step) -> Result<Step, Fail> {
    let (word, modifiers) = text.split_once(';').unwrap_or((text, ""));
    let p = pairing(alloc, modifiers)?;
    match set_operator(word) {
        Some(op) => Ok(combine(alloc, l, r, op, &p)?),
        None => Ok(pair(alloc, l, r, pair_operator(word), &p)?),
    }
}

/// Whether the rows and the marks of a line come.
fn line_holds(alloc: Global, line: &str) -> Result<bool, Fail> {
    let (left, rest) = line.split_once(' ').ok_or("no operator")?;
    let (op, rest) = rest.split_once(' ').ok_or("no right vector")?;
    let (right, texts) = rest.split_once(' ').ok_or("no rows")?;
    let left = vector(alloc, left)?;
    let right = vector(alloc, right)?;
    let answer = operated(alloc, &left, op, &right)?;
    is_wanted(alloc, &answer, texts)
}

/// The first line that doesn't hold.
fn first_wrong(alloc: Global) -> Result<&'static str, Fail> {
    for line in ROWS.lines() {
        if !line_holds(alloc, line)? {
            return Ok(line);
        }
    }
    Ok("none")
}

#[test]
fn rows_between_two_vectors(rt: HostRuntime) -> Result<(), Fail> {
    let wrong = first_wrong(rt.alloc())?;
    assert_eq!(rt; wrong, "none");
    assert_eq!(rt; ROWS.lines().count(), 115);
    Ok(())
}
