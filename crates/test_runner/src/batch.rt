//! How many instants an evaluation computes at once.
ghost use Rattle.query_engine.specs.Batches.{IsBatch};
ghost use Rattle.std.specs.Prelude.{◌≡◌, ◌/◌, length, max, min};

use query_engine::Options;
use sample_store::Store;

/// A batch is to have no more rows than this, where each series has a row at each instant.
const MOST_ROWS: u32 = 1_000_000;

/// The batch over so many series: lowered so that it has at most a million rows, if one instant doesn't have more.
fn lowered_batch(batch: u32, series: u32) -> u32
    requires { IsBatch batch }
    ensures is { result ≡ max 1 (min batch (1000000 / max 1 series)) }
    ensures fits { IsBatch result }
{
    batch.min(MOST_ROWS / series.max(1)).max(1)
}

/// The options with the batch that is lowered for the series of a store.
pub fn options_over(options: &Options, store: &Store) -> Options
    requires { IsBatch options.now.batch }
    ensures is { result ≡ record options.now { batch = max 1 (min options.now.batch (1000000 / max 1 (length store.now))) } }
    ensures fits { IsBatch result.batch }
{
    Options {
        batch: lowered_batch(options.batch, store.series()),
        ..*options
    }
}
