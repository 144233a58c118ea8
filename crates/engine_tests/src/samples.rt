//! The series of two engines: each has the label `e` of its engine. All times are milliseconds.

pub const FIRST: &str = "a,e=0,x=1 0=1 10=2 20=3
a,e=0,x=2 0=4 10=5 20=stale
c,e=0,x=1 0=big 20=1
c,e=0,x=2 0=big 10=0 20=2";

pub const SECOND: &str = "a,e=1,x=1 5=1/2 15=7
a,e=1,x=3 10=6
c,e=1,x=1 10=big 20=3";
