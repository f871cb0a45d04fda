//! Cases of three kinds, as a text (`stdin`): plays each, and tells what comes, which the gate compares (`stdout`). Rows of these
//! cost no proof. A line `== KIND` between two empty ones begins the cases of a kind: `ends` of a server, of a client and of batches
//! of calls, `runs` of whole runs of the program over memory, `facade` of both ends as a program has them that imports `kifzaro`
//! alone. A case begins with its title and ends with an empty line; what its other lines may be stands with its kind.
#![tactic(auto)]

mod ends;
mod facade;
mod runs;

use std::alloc::Global;
use std::io::Read;
use std::test::Fail;

/// What is told of a case of a kind.
fn played(alloc: Global, kind: &str, case: &str) -> Result<String, Fail> {
    match kind {
        "ends" => ends::played(alloc, case),
        "runs" => runs::played(alloc, case),
        "facade" => facade::played(alloc, case),
        _ => Err(Fail::new("no kind")),
    }
}

fn main(rt: HostRuntime) -> Result<(), Fail> {
    let mut text = String::new(rt.alloc());
    rt.reader().read_to_string(&mut text)?;
    for section in text.as_str().split("\n\n== ") {
        if let Some((kind, cases)) = section.split_once("\n\n") {
            for case in cases.split("\n\n") {
                let told = played(rt.alloc(), kind, case)?;
                print!(rt; "{told}")?;
            }
        }
    }
    Ok(())
}
