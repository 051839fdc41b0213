//! Heap texts in memory. The expected ones are counted by hand from the rules of `docs/profile.md`.

use commands::show_heap;
use edge_io::{Lines, List, MemorySink, MemorySource};
use heap_text::{HeapLine, read_heap};
use report_text::ReportFault;
use std::alloc::Global;
use std::test::Fail;

/// The most bytes of a heap text that is read.
const MOST: u64 = 4_294_967_296;

// Three objects of 24 bytes of stack 7, of which the mark end marks the first, with their report.
const SAMPLED: &str =
    "goheap 1\nheap 1 procs 1 rate 1 seed 1 goal 512\na 0 24 s 7\na 0 24 s 7\na 0 24 s 7\ngc 1\nm 0 0\nend\no 0 0xc000000000\no 1 0xc000000018\no 2 0xc000000030\nj 0 0 take 0 1 6\ns 1 0 1 2\nt 3 3 2\np 1 7 24 3 2\nend\n";

const ONE: &str = "heap profile: 1: 24 [3: 72] @ heap/2\n1: 24 [3: 72] @ 0x7\n";

// An object at rate 0, where nothing is sampled, with its report.
const UNSAMPLED: &str =
    "goheap 1\nheap 1 procs 1 rate 0 seed 1 goal 512\na 0 24 s 1\nend\no 0 0xc000000000\nj 0 0 take 0 1 6\nt 3 1 0\nend\n";

// Inputs, the status of `heap`, what it writes and what it tells.
const SHOWN: &[(&str, u8, &str, &str)] = &[
    (SAMPLED, 0, ONE, ""),
    (UNSAMPLED, 0, "heap profile: 0: 0 [0: 0] @ heap/0\n", ""),
    ("", 3, "", "goheap: trace line 1: ends early\n"),
    (
        "goheap 1\nheap 1 procs 1 rate 0 seed 1 goal 512\nend\n",
        4,
        "",
        "goheap: report line 1: ends early\n",
    ),
    // rule 1: an object has no answer
    (
        "goheap 1\nheap 1 procs 1 rate 1 seed 1 goal 512\na 0 24 s 7\nend\nend\n",
        4,
        "",
        "goheap: report line 1: rule 1\n",
    ),
    // rule 9: a bucket is counted that nothing was sampled for
    (
        "goheap 1\nheap 1 procs 1 rate 0 seed 1 goal 512\nend\np 1 1 8 1 0\nend\n",
        4,
        "",
        "goheap: report line 1: rule 9\n",
    ),
];

// The heap text of a trace with its report behind it.
#[test]
fn profiles_are_written(rt: HostRuntime) -> Result<(), Fail> {
    let alloc = rt.alloc();
    for &(input, status, written, told) in SHOWN {
        let bytes = List::from_vec(input.as_bytes().to_vec(alloc)?);
        let mut source = MemorySource::new(bytes, List::new(alloc));
        let mut output = MemorySink::new(alloc, List::new(alloc));
        let mut errors = MemorySink::new(alloc, List::new(alloc));
        let answer = show_heap(alloc, &mut source, &mut output, &mut errors);
        assert_eq!(rt; answer, status, "at {input}");
        assert_eq!(rt; output.held(), written.as_bytes(), "at {input}");
        assert_eq!(rt; errors.held(), told.as_bytes(), "at {input}");
    }
    Ok(())
}

// What is read of one: the line of the first is that of the three objects.
#[test]
fn a_profile_is_read(rt: HostRuntime) -> Result<(), Fail> {
    let alloc = rt.alloc();
    let bytes = List::from_vec(ONE.as_bytes().to_vec(alloc)?);
    let mut source = MemorySource::new(bytes, List::new(alloc));
    let mut lines = Lines::new(&mut source, MOST);
    let heap = read_heap(alloc, &mut lines)?;
    let line = HeapLine {
        objects: 1,
        bytes: 24,
        all_objects: 3,
        all_bytes: 72,
        stack: 7,
    };
    assert_eq!(rt; heap.twice, 2);
    assert_eq!(rt; heap.lines.as_slice(), [line].as_slice());
    Ok(())
}

// Why a text is none.
fn fault_of(alloc: Global, text: &str) -> Result<Option<ReportFault>, Fail> {
    let bytes = List::from_vec(text.as_bytes().to_vec(alloc)?);
    let mut source = MemorySource::new(bytes, List::new(alloc));
    let mut lines = Lines::new(&mut source, MOST);
    Ok(read_heap(alloc, &mut lines).err())
}

// Texts that are none, and the line that is told.
const REFUSED: &[(&str, ReportFault)] = &[
    ("", ReportFault::Truncated(1)),
    (
        "heap profile: 0: 0 [0: 0] @ heap/0",
        ReportFault::Truncated(1),
    ),
    ("x\n", ReportFault::Malformed(1)),
    // an odd number is not twice a rate
    (
        "heap profile: 0: 0 [0: 0] @ heap/1\n",
        ReportFault::Malformed(1),
    ),
    // twice a rate past 2^30
    (
        "heap profile: 0: 0 [0: 0] @ heap/2147483650\n",
        ReportFault::Malformed(1),
    ),
    // other sums than those of the lines
    (
        "heap profile: 1: 24 [3: 73] @ heap/2\n1: 24 [3: 72] @ 0x7\n",
        ReportFault::Malformed(1),
    ),
    // more objects in use than there are
    (
        "heap profile: 4: 96 [3: 72] @ heap/2\n4: 96 [3: 72] @ 0x7\n",
        ReportFault::Malformed(2),
    ),
    // bytes that are no multiple of the objects
    (
        "heap profile: 1: 25 [3: 72] @ heap/2\n1: 25 [3: 72] @ 0x7\n",
        ReportFault::Malformed(2),
    ),
    // a bucket without allocations
    (
        "heap profile: 0: 0 [0: 0] @ heap/2\n0: 0 [0: 0] @ 0x7\n",
        ReportFault::Malformed(2),
    ),
    // more bytes behind fewer, which stands before the sums
    (
        "heap profile: 0: 0 [0: 0] @ heap/2\n1: 8 [1: 8] @ 0x1\n1: 16 [1: 16] @ 0x2\n",
        ReportFault::Malformed(3),
    ),
    // a stack with a leading zero
    (
        "heap profile: 1: 8 [1: 8] @ heap/2\n1: 8 [1: 8] @ 0x01\n",
        ReportFault::Malformed(2),
    ),
    (
        "heap profile: 1: 8 [1: 8] @ heap/2\n1: 8 [1: 8] @ 0x1",
        ReportFault::Truncated(2),
    ),
];

#[test]
fn texts_are_refused(rt: HostRuntime) -> Result<(), Fail> {
    for &(text, fault) in REFUSED {
        assert_eq!(rt; fault_of(rt.alloc(), text)?, Some(fault), "at {text}");
    }
    Ok(())
}
