//! The text of a workload: a script of so many counters, and what comes of them.
ghost use Rattle.promql_tool.specs.Workload.{counter_line, group_line, group_part, group_size, counters, load_part, rate_part, loaded_text, top_part, workload_text};
ghost use Rattle.std.specs.Prelude.{◌≡◌, ◌*◌, ◌<◌, ◌≤◌, ◌++◌, codes, flat_map, min, string_bytes, IfOk, OnOk};

use std::alloc::{AllocError, Global};

/// How many groups the counters are in.
const GROUPS: u32 = 4;

fn counter_line(alloc: Global, counter: u32) -> Result<String, AllocError>
    requires few { counter < 20000 }
    ensures { IfOk result (λ line. string_bytes line ≡ counter_line counter) }
{
    let group = counter % GROUPS;
    let growth = 60 * (counter + 1);
    format!(in alloc; "  w_total{{s=\"{counter}\",g=\"{group}\"}} 0+{growth}x60\n")
}

fn append_counter(alloc: Global, counter: u32, into: &mut Vec<u8>) -> Result<(), AllocError>
    requires few { counter < 20000 }
    ensures { OnOk result (into.new.items ≡ into.old.items ++ counter_line counter) }
{
    let line = counter_line(alloc, counter)?;
    into.extend_from_slice(line.as_bytes())
}

fn append_counters(alloc: Global, series: u32, into: &mut Vec<u8>) -> Result<(), AllocError>
    requires few { series ≤ 20000 }
    ensures { OnOk result (into.new.items ≡ into.old.items ++ flat_map counter_line (counters series)) }
{
    for counter in 0..series {
        append_counter(alloc, counter, into)?;
    }
    Ok(())
}

fn append_load(alloc: Global, series: u32, into: &mut Vec<u8>) -> Result<(), AllocError>
    requires few { series ≤ 20000 }
    ensures { OnOk result (into.new.items ≡ into.old.items ++ load_part series) }
{
    into.extend_from_slice(b"load 1m\n")?;
    append_counters(alloc, series, into)
}

fn rate_text(alloc: Global, series: u32) -> Result<String, AllocError>
    requires few { series ≤ 20000 }
    ensures { IfOk result (λ text. string_bytes text ≡ rate_part series) }
{
    let total = series * (series + 1) / 2;
    format!(in alloc;
        "\neval range from 5m to 60m step 5m sum(rate(w_total[5m]))\n  {{}} {total}x11\n"
    )
}

fn append_rates(alloc: Global, series: u32, into: &mut Vec<u8>) -> Result<(), AllocError>
    requires few { series ≤ 20000 }
    ensures { OnOk result (into.new.items ≡ into.old.items ++ rate_part series) }
{
    let text = rate_text(alloc, series)?;
    into.extend_from_slice(text.as_bytes())
}

fn group_size(series: u32, group: u32) -> u32
    ensures { result ≡ group_size series group }
{
    let mut size = 0;
    for counter in 0..series {
        if counter % GROUPS == group {
            size += 1;
        }
    }
    size
}

fn group_line(alloc: Global, series: u32, group: u32) -> Result<String, AllocError>
    ensures { IfOk result (λ line. string_bytes line ≡ group_line series group) }
{
    let size = group_size(series, group);
    format!(in alloc; "  {{g=\"{group}\"}} {size}\n")
}

fn append_group(
    alloc: Global,
    series: u32,
    group: u32,
    into: &mut Vec<u8>,
) -> Result<(), AllocError>
    ensures { OnOk result (into.new.items ≡ into.old.items ++ group_line series group) }
{
    let line = group_line(alloc, series, group)?;
    into.extend_from_slice(line.as_bytes())
}

fn append_group_lines(alloc: Global, series: u32, into: &mut Vec<u8>) -> Result<(), AllocError>
    ensures { OnOk result (into.new.items ≡ into.old.items ++ flat_map (group_line series) (counters (min 4 series))) }
{
    for group in 0..GROUPS.min(series) {
        append_group(alloc, series, group, into)?;
    }
    Ok(())
}

fn append_groups(alloc: Global, series: u32, into: &mut Vec<u8>) -> Result<(), AllocError>
    ensures { OnOk result (into.new.items ≡ into.old.items ++ group_part series) }
{
    into.extend_from_slice(b"\neval instant at 60m count by (g) (w_total)\n")?;
    append_group_lines(alloc, series, into)
}

fn top_text(alloc: Global, series: u32) -> Result<String, AllocError>
    requires some { 1 ≤ series }
    requires few { series ≤ 20000 }
    ensures { IfOk result (λ text. string_bytes text ≡ top_part series) }
{
    let counter = series - 1;
    let group = counter % GROUPS;
    let grown = 3600 * series;
    format!(in alloc;
        "\neval instant at 60m topk(1, w_total)\n  w_total{{s=\"{counter}\",g=\"{group}\"}} {grown}\n"
    )
}

fn append_top(alloc: Global, series: u32, into: &mut Vec<u8>) -> Result<(), AllocError>
    requires some { 1 ≤ series }
    requires few { series ≤ 20000 }
    ensures { OnOk result (into.new.items ≡ into.old.items ++ top_part series) }
{
    let text = top_text(alloc, series)?;
    into.extend_from_slice(text.as_bytes())
}

/// The script of so many counters, which grow for an hour, and of three evaluations of them. An error is want of memory.
pub fn workload_text(alloc: Global, series: u32) -> Result<Vec<u8>, AllocError>
    requires some { 1 ≤ series }
    requires few { series ≤ 20000 }
    ensures { IfOk result (λ text. text.items ≡ workload_text series) }
{
    let mut text = Vec::new(alloc);
    append_load(alloc, series, &mut text)?;
    append_rates(alloc, series, &mut text)?;
    append_groups(alloc, series, &mut text)?;
    append_top(alloc, series, &mut text)?;
    Ok(text)
}

/// How many samples a workload of so many counters has: one at the start, and one a minute for an hour.
pub fn samples_of(series: u32) -> u32
    requires few { series ≤ 20000 }
    ensures { result ≡ 61 * series }
{
    61 * series
}

/// The line of how many counters and samples are loaded. An error is want of memory.
pub fn loaded_line(alloc: Global, series: u32) -> Result<String, AllocError>
    requires few { series ≤ 20000 }
    ensures { IfOk result (λ line. string_bytes line ≡ loaded_text series) }
{
    let samples = samples_of(series);
    format!(in alloc; "series {series} samples {samples}\n")
}
