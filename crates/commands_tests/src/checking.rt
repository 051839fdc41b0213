//! Inputs in memory. The faults are found by hand from the rules of both formats.

use commands::{Stop, read_pair};
use edge_io::{List, MemorySource};
use report_text::ReportFault;
use std::alloc::Global;
use std::test::Fail;
use trace_reader::TraceFault;

const TRACE: &str = "goheap 1\nheap 1 procs 1 rate 0 seed 1 goal 512\na 0 24 s 1\nend\n";

// Why the input is no trace with a report behind it, if it is none.
fn stop_of(alloc: Global, input: &str) -> Result<Option<Stop>, Fail> {
    let bytes = List::from_vec(input.as_bytes().to_vec(alloc)?);
    let mut source = MemorySource::new(bytes, List::new(alloc));
    Ok(read_pair(alloc, &mut source).err())
}

#[test]
fn reports_behind_a_trace(rt: HostRuntime) -> Result<(), Fail> {
    let alloc = rt.alloc();
    let rows = [
        ("o 0 0xc000000000\nj 0 0 take 0 1 6\nt 3 1 0\nend\n", None),
        (
            "j 0 0 take 0 1 6\no 0 0xc000000000\nt 3 1 0\nend\n",
            Some(Stop::Report(ReportFault::Malformed(2))),
        ),
        ("", Some(Stop::Report(ReportFault::Truncated(1)))),
        ("end\nx", Some(Stop::Report(ReportFault::Malformed(2)))),
    ];
    for (report, stop) in rows {
        let input = format!(in alloc; "{TRACE}{report}")?;
        assert_eq!(rt; stop_of(alloc, input.as_str())?, stop, "at {report}");
    }
    let stop = stop_of(alloc, "goheap 1\nend\nend\n")?;
    assert_eq!(rt; stop, Some(Stop::Trace(TraceFault::Malformed(2))));
    Ok(())
}
