//! Reads and writes that fail.

use super::*;

const ENDED: &str = "goheap 1\nheap 1 procs 1 rate 0 seed 1 goal 512\nend\n";

// What stands before the last piece of the input, that piece, the status and what is told.
const READS: &[(&str, &str, u8, &str)] = &[
    ("", "x\n", 3, "goheap: trace line 1: malformed\n"),
    ("", "x", 5, "goheap: read fault\n"),
    (
        HEAD,
        "a 1 24 s 1\n",
        3,
        "goheap: trace line 3: limit proc\n",
    ),
    (HEAD, "a 1 24 s 1", 5, "goheap: read fault\n"),
    (ENDED, "", 5, "goheap: read fault\n"),
    (ENDED, "x\n", 3, "goheap: trace line 4: malformed\n"),
    (ENDED, "x", 5, "goheap: read fault\n"),
];

// Wants this where the second read fails.
fn expect_read_once<R: Threads + Wait + Sync + AllocGlobal + Abort>(
    rt: &R,
    front: &str,
    last: &str,
    wanted: Wanted<'_>,
) -> Result<(), Fail> {
    let input = format!(in rt.alloc(); "{front}{last}")?;
    expect(
        rt,
        last,
        &["run"],
        input.as_bytes(),
        failing(&[1], &[]),
        wanted,
    )
}

// The first read gives all bytes, and the second fails. A faulty line that was read whole is refused all the same.
#[test]
fn faults_before_a_failed_read(rt: HostRuntime) -> Result<(), Fail> {
    for &(front, last, status, told) in READS {
        expect_read_once(&rt, front, last, refused(status, told))?;
    }
    Ok(())
}

// Which reads and which writes fail, the status, how many bytes are written, and what is told.
const BLOCKS: &[(&[u64], &[u64], u8, usize, &str)] = &[
    (&[0], &[], 5, 0, "goheap: read fault\n"),
    (&[1], &[], 5, 0, "goheap: read fault\n"),
    (&[2], &[], 5, 0, "goheap: read fault\n"),
    (&[3], &[], 5, 0, "goheap: read fault\n"),
    (&[4], &[], 0, 159189, ""),
    (&[], &[0], 6, 0, "goheap: write fault\n"),
    (&[], &[1], 6, 32750, "goheap: write fault\n"),
    (&[], &[2], 6, 65510, "goheap: write fault\n"),
    (&[], &[3], 6, 98270, "goheap: write fault\n"),
    (&[], &[4], 6, 131030, "goheap: write fault\n"),
    (&[], &[5], 0, 159189, ""),
];

// The lines of the journal of 16 pages of one span each, and the last lines of the report.
fn pages(alloc: Global) -> Result<String, Fail> {
    let mut text = String::new(alloc);
    for page in 0..16u32 {
        let line = format!(in alloc; "j {page} 0 take {page} 1 5\n")?;
        text.push_str(line.as_str())?;
    }
    text.push_str("t 2 8000 0\nend\n")?;
    Ok(text)
}

// The report of 8000 objects of 16 bytes.
fn blocks(alloc: Global) -> Result<String, Fail> {
    let behind = pages(alloc)?;
    placed(alloc, 8000, 16, behind.as_str())
}

// Wants of a trace and its report what the rows say.
fn expect_blocks<R: Threads + Wait + Sync + AllocGlobal + Abort>(
    rt: &R,
    input: &[u8],
    report: &[u8],
) -> Result<(), Fail> {
    assert_eq!(rt; report.len(), 159189);
    for &(reads, writes, status, held, told) in BLOCKS {
        let front = report.get(..held).ok_or("no such front")?;
        let wanted = Wanted {
            status,
            written: Text::Is(front),
            told,
        };
        expect(rt, told, &["run"], input, failing(reads, writes), wanted)?;
    }
    Ok(())
}

// A trace of three blocks, over streams that give and take whole blocks: 8000 events of 11 bytes. The report has lines of 17 to 20
// bytes, and a block of it is as many whole lines as 32768 bytes hold.
#[test]
fn each_block_fails(rt: HostRuntime) -> Result<(), Fail> {
    let input = repeated(rt.alloc(), SMALL, "a 0 16 n 2\n", 8000)?;
    let report = blocks(rt.alloc())?;
    expect_blocks(&rt, input.as_bytes(), report.as_bytes())
}
