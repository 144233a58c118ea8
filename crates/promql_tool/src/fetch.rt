//! Fetching a file and reading its script.
ghost use Rattle.edge_io.specs.Causes.{Rose};
ghost use Rattle.promql_tool.specs.Chosen.{Terms};
ghost use Rattle.promql_tool.specs.Found.{IsFound};
ghost use Rattle.promql_tool.specs.Reading.{IsReadAs};
ghost use Rattle.promql_tool.specs.Runs.{GivesFile, IsFile};
ghost use Rattle.promql_tool.specs.declared.fault.Stop.TheVariants.{Gone};
ghost use Rattle.promql_tool.specs.declared.fetch.File.TheVariants.{Stopped};
ghost use Rattle.script_check.specs.Verdicts.{KeepsPatterns};
ghost use Rattle.std.specs.Prelude.{◌≡◌, ◌≤◌, ◌<◌, ◌^◌, [], length, IfOk};

use crate::fault::{Refusal, Stop};
use edge_io::{Fetch, Fetched, Library};
use holders::Items;
use match_rule::Patterns;
use script_check::scripts_keep_their_patterns;
use script_read::{FILE_LIMIT, ReadFault, Script, ScriptRefusal};
use std::alloc::{AllocError, Global};

/// What a fetch of a file found.
#[derive(Drop)]
pub enum File {
    /// Its bytes.
    Bytes(Items<u8>),
    /// None, or more than are taken.
    Stopped(Stop),
}

/// Fetches a file. The only error is want of memory.
pub fn fetch_file<L: Library>(
    alloc: Global,
    path: &str,
    library: &mut L,
) -> Result<File, AllocError>
    ensures fetched { L.fetches library.old path.now library.new }
    ensures told { L.told library.new ≡ L.told library.old }
    ensures sound { L.sound library.old → L.sound library.new }
    ensures later { L.faults library.old ≤ L.faults library.new }
    ensures file { (terms : Terms) → IfOk result (IsFile terms (IsFound (L.told library.old) (L.sound library.old)) path.now) }
    ensures gone { IfOk result (λ file. file ≡ Stopped Gone → Rose (L.faults library.old) (L.faults library.new)) }
{
    let mut bytes = Vec::new(alloc);
    match library.fetch(path, FILE_LIMIT, &mut bytes) {
        Ok(Fetched::Whole) => Ok(File::Bytes(Items::from_vec(bytes))),
        Ok(Fetched::PastLimit) => {
            let refusal = Refusal::Script(ScriptRefusal::TooLarge);
            Ok(File::Stopped(Stop::Refused(refusal)))
        }
        Err(Fetch::Failed) => Ok(File::Stopped(Stop::Gone)),
        Err(Fetch::Memory) => Err(AllocError),
    }
}

/// The script that bytes hold; its search patterns are kept in `searches`. `Refused` comes where they hold none; the only
/// other error is want of memory.
pub fn read_script(
    alloc: Global,
    bytes: &[u8],
    searches: &mut Patterns,
) -> Result<Script, ReadFault>
    requires { searches.old ≡ [] }
    ensures said { GivesFile result (IsReadAs searches.new bytes.now) }
    ensures kept { IfOk result (KeepsPatterns searches.new) }
    ensures few { IfOk result (λ script. length script.commands < 2 ^ 32) }
{
    let script = script_read::read(alloc, bytes, searches);
    scripts_keep_their_patterns();
    script
}
