//! The scripts of workloads.
use promql_tool::{loaded_line, workload_text};
use std::alloc::{AllocError, Global};
use std::test::Fail;

const ONE: &str = r#"load 1m
  w_total{s="0",g="0"} 0+60x60

eval range from 5m to 60m step 5m sum(rate(w_total[5m]))
  {} 1x11

eval instant at 60m count by (g) (w_total)
  {g="0"} 1

eval instant at 60m topk(1, w_total)
  w_total{s="0",g="0"} 3600
"#;

const FOUR: &str = r#"load 1m
  w_total{s="0",g="0"} 0+60x60
  w_total{s="1",g="1"} 0+120x60
  w_total{s="2",g="2"} 0+180x60
  w_total{s="3",g="3"} 0+240x60

eval range from 5m to 60m step 5m sum(rate(w_total[5m]))
  {} 10x11

eval instant at 60m count by (g) (w_total)
  {g="0"} 1
  {g="1"} 1
  {g="2"} 1
  {g="3"} 1

eval instant at 60m topk(1, w_total)
  w_total{s="3",g="3"} 14400
"#;

const FIVE: &str = r#"load 1m
  w_total{s="0",g="0"} 0+60x60
  w_total{s="1",g="1"} 0+120x60
  w_total{s="2",g="2"} 0+180x60
  w_total{s="3",g="3"} 0+240x60
  w_total{s="4",g="0"} 0+300x60

eval range from 5m to 60m step 5m sum(rate(w_total[5m]))
  {} 15x11

eval instant at 60m count by (g) (w_total)
  {g="0"} 2
  {g="1"} 1
  {g="2"} 1
  {g="3"} 1

eval instant at 60m topk(1, w_total)
  w_total{s="4",g="0"} 18000
"#;

const END_OF_HUNDRED: &str = r#"
  {g="3"} 25

eval instant at 60m topk(1, w_total)
  w_total{s="99",g="3"} 360000
"#;

/// Whether the text of a workload has this length and this end.
fn ends_so(alloc: Global, series: u32, length: usize, end: &str) -> Result<bool, AllocError> {
    if series < 1 || series > 20000 {
        return Ok(false);
    }
    let text = workload_text(alloc, series)?;
    Ok(text.len() == length && text.ends_with(end.as_bytes()))
}

fn are_small(alloc: Global) -> Result<bool, AllocError> {
    let one = ends_so(alloc, 1, ONE.len(), ONE)?;
    let four = ends_so(alloc, 4, FOUR.len(), FOUR)?;
    let five = ends_so(alloc, 5, FIVE.len(), FIVE)?;
    Ok(one && four && five)
}

#[test]
fn texts(rt: HostRuntime) -> Result<(), Fail> {
    let alloc = rt.alloc();
    assert!(rt; are_small(alloc)? && ends_so(alloc, 100, 3617, END_OF_HUNDRED)?);
    Ok(())
}

#[test]
fn samples(rt: HostRuntime) -> Result<(), Fail> {
    let line = loaded_line(rt.alloc(), 100)?;
    assert_eq!(rt; line.as_str(), "series 100 samples 6100\n");
    Ok(())
}
