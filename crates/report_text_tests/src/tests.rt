//! Reports over a sink in memory. The expected texts are written by hand from the format.

mod order;
mod reading;

use cycle_history::{Answer, Prof, Report, Total};
use edge_io::{Lines, List, MemorySink, MemorySource};
use order::rises;
use page_bitmap::Line;
use report_text::{read_report, write_report};
use span_state::SweepNote;
use std::alloc::Global;
use std::process::Abort;
use std::test::Fail;

const MAX: u32 = 4294967295;

const LONG_MAX: u64 = 18446744073709551615;

const NOTHING: Row<'static> = Row {
    answers: &[],
    journal: &[],
    sweeps: &[],
    totals: &[],
    profile: &[],
    text: "end\n",
};

// The lists of a report, and its text.
#[derive(Clone, Copy)]
struct Row<'a> {
    answers: &'a [Answer],
    journal: &'a [Line],
    sweeps: &'a [SweepNote],
    totals: &'a [Total],
    profile: &'a [Prof],
    text: &'a str,
}

fn take(cycle: u32, page: u32, pages: u32, class: u8) -> Line {
    Line::Take {
        cycle,
        page,
        pages,
        class,
    }
}

fn miss(cycle: u32, pages: u32, class: u8) -> Line {
    Line::Miss {
        cycle,
        pages,
        class,
    }
}

fn give(cycle: u32, page: u32, pages: u32) -> Line {
    Line::Give { cycle, page, pages }
}

fn scav(cycle: u32, page: u32, pages: u32) -> Line {
    Line::Scav { cycle, page, pages }
}

fn pull(cycle: u32, proc: u32, page: u32, pages: u32) -> Line {
    Line::Pull {
        cycle,
        proc,
        page,
        pages,
    }
}

fn cut(cycle: u32, proc: u32, page: u32, pages: u32, class: u8) -> Line {
    Line::Cut {
        cycle,
        proc,
        page,
        pages,
        class,
    }
}

fn drop_block(cycle: u32, proc: u32, page: u32, pages: u32) -> Line {
    Line::Drop {
        cycle,
        proc,
        page,
        pages,
    }
}

fn sweep(cycle: u32, page: u32, kept: u32, freed: u32) -> SweepNote {
    SweepNote {
        cycle,
        page,
        kept,
        freed,
    }
}

fn total(class: u8, mallocs: u64, frees: u64) -> Total {
    Total {
        class,
        mallocs,
        frees,
    }
}

fn bucket(mark: u32, stack: u32, size: u64, allocs: u64, frees: u64) -> Prof {
    Prof {
        mark,
        stack,
        size,
        allocs,
        frees,
    }
}

/// The first lists of a report.
type Front = (List<Answer>, List<Line>);

fn front_of(alloc: Global, row: Row<'_>) -> Result<Front, Fail> {
    let answers = row.answers.to_vec(alloc)?;
    let journal = row.journal.to_vec(alloc)?;
    Ok((List::from_vec(answers), List::from_vec(journal)))
}

/// The last lists of a report.
type Tail = (List<SweepNote>, List<Total>, List<Prof>);

fn tail_of(alloc: Global, row: Row<'_>) -> Result<Tail, Fail> {
    let sweeps = row.sweeps.to_vec(alloc)?;
    let totals = row.totals.to_vec(alloc)?;
    let profile = row.profile.to_vec(alloc)?;
    Ok((
        List::from_vec(sweeps),
        List::from_vec(totals),
        List::from_vec(profile),
    ))
}

// The report of a row.
fn report_of(alloc: Global, row: Row<'_>) -> Result<Report, Fail> {
    let (answers, journal) = front_of(alloc, row)?;
    let (sweeps, totals, profile) = tail_of(alloc, row)?;
    Ok(Report {
        answers,
        journal,
        sweeps,
        totals,
        profile,
    })
}

// Whether the lists of the report rise, and it is written whole.
fn is_written(report: &Report, sink: &mut MemorySink) -> bool {
    let rising = rises(report.sweeps.as_slice())
        && rises(report.totals.as_slice())
        && rises(report.profile.as_slice());
    rising && write_report(sink, report).is_ok()
}

// Whether reading the text gives a report that is written as it.
fn is_read_back(alloc: Global, text: &[u8]) -> Result<bool, Fail> {
    let bytes = List::from_vec(text.to_vec(alloc)?);
    let mut source = MemorySource::new(bytes, List::new(alloc));
    let mut lines = Lines::new(&mut source, 4_294_967_296);
    let Ok(report) = read_report(alloc, &mut lines) else {
        return Ok(false);
    };
    let mut sink = MemorySink::new(alloc, List::new(alloc));
    let whole = write_report(&mut sink, &report).is_ok();
    Ok(whole && sink.held() == text)
}

// Whether the row's report is written as the row's text.
fn is_written_so(alloc: Global, row: Row<'_>) -> Result<bool, Fail> {
    let report = report_of(alloc, row)?;
    let mut sink = MemorySink::new(alloc, List::new(alloc));
    let whole = is_written(&report, &mut sink);
    Ok(whole && sink.held() == row.text.as_bytes())
}

// Wants that the row's report is written as the row's text, and that this is read back.
fn expect_text<R: AllocGlobal + Abort>(rt: &R, row: Row<'_>) -> Result<(), Fail> {
    let text = row.text;
    assert!(rt; is_written_so(rt.alloc(), row)?, "writing {text}");
    assert!(rt;
        is_read_back(rt.alloc(), text.as_bytes())?,
        "reading {text}"
    );
    Ok(())
}

const FIRST: Answer = Answer::Placed(0xc0_0000_0000);

#[test]
fn an_empty_report_is_written(rt: HostRuntime) -> Result<(), Fail> {
    expect_text(&rt, NOTHING)
}

#[test]
fn one_object_is_written(rt: HostRuntime) -> Result<(), Fail> {
    let row = Row {
        answers: &[FIRST],
        journal: &[take(0, 0, 1, 6)],
        totals: &[total(3, 1, 0)],
        text: "o 0 0xc000000000\nj 0 0 take 0 1 6\nt 3 1 0\nend\n",
        ..NOTHING
    };
    expect_text(&rt, row)
}

#[test]
fn a_page_cache_is_written(rt: HostRuntime) -> Result<(), Fail> {
    let row = Row {
        answers: &[FIRST],
        journal: &[
            pull(0, 0, 0, 64),
            cut(0, 0, 0, 1, 6),
            drop_block(0, 0, 0, 63),
        ],
        totals: &[total(3, 1, 0)],
        text: "o 0 0xc000000000\nj 0 0 pull 0 0 64\nj 1 0 cut 0 0 1 6\nj 2 0 drop 0 0 63\nt 3 1 0\nend\n",
        ..NOTHING
    };
    expect_text(&rt, row)
}

#[test]
fn a_place_that_is_used_again_is_written(rt: HostRuntime) -> Result<(), Fail> {
    let row = Row {
        answers: &[FIRST, Answer::Placed(0xc0_0000_0018), FIRST],
        journal: &[take(0, 0, 1, 6)],
        sweeps: &[sweep(1, 0, 1, 1)],
        totals: &[total(3, 3, 1)],
        text: "o 0 0xc000000000\no 1 0xc000000018\no 2 0xc000000000\nj 0 0 take 0 1 6\ns 1 0 1 1\nt 3 3 1\nend\n",
        ..NOTHING
    };
    expect_text(&rt, row)
}

#[test]
fn a_span_that_is_given_back_is_written(rt: HostRuntime) -> Result<(), Fail> {
    let row = Row {
        answers: &[FIRST, FIRST],
        journal: &[take(0, 0, 1, 6), give(1, 0, 1), take(1, 0, 1, 6)],
        sweeps: &[sweep(1, 0, 0, 1)],
        totals: &[total(3, 2, 1)],
        text: "o 0 0xc000000000\no 1 0xc000000000\nj 0 0 take 0 1 6\nj 1 1 give 0 1\nj 2 1 take 0 1 6\ns 1 0 0 1\nt 3 2 1\nend\n",
        ..NOTHING
    };
    expect_text(&rt, row)
}

#[test]
fn a_large_object_is_written(rt: HostRuntime) -> Result<(), Fail> {
    let row = Row {
        answers: &[FIRST, Answer::Placed(0xc0_0000_8000)],
        journal: &[take(0, 0, 4, 134), take(0, 4, 5, 0)],
        totals: &[total(0, 1, 0), total(67, 1, 0)],
        text: "o 0 0xc000000000\no 1 0xc000008000\nj 0 0 take 0 4 134\nj 1 0 take 4 5 0\nt 0 1 0\nt 67 1 0\nend\n",
        ..NOTHING
    };
    expect_text(&rt, row)
}

#[test]
fn scavenged_pages_are_written(rt: HostRuntime) -> Result<(), Fail> {
    let row = Row {
        answers: &[FIRST],
        journal: &[
            take(0, 0, 128, 1),
            give(1, 0, 128),
            scav(1, 64, 64),
            scav(1, 0, 64),
        ],
        sweeps: &[sweep(1, 0, 0, 1)],
        totals: &[total(0, 1, 1)],
        text: "o 0 0xc000000000\nj 0 0 take 0 128 1\nj 1 1 give 0 128\nj 2 1 scav 64 64\nj 3 1 scav 0 64\ns 1 0 0 1\nt 0 1 1\nend\n",
        ..NOTHING
    };
    expect_text(&rt, row)
}

#[test]
fn a_report_of_a_full_region_is_written(rt: HostRuntime) -> Result<(), Fail> {
    let [first, second, third, fourth] = [
        Answer::Placed(0xc0_0000_0000),
        Answer::Placed(0xc0_0010_0000),
        Answer::Placed(0xc0_0020_0000),
        Answer::Placed(0xc0_0030_0000),
    ];
    let full_region = Row {
        answers: &[first, second, third, fourth, Answer::Missed(6)],
        journal: &[
            take(0, 0, 128, 1),
            take(0, 128, 128, 1),
            take(0, 256, 128, 1),
            take(0, 384, 128, 1),
            give(1, 0, 128),
            give(1, 256, 128),
            miss(1, 129, 1),
        ],
        sweeps: &[
            sweep(1, 0, 0, 1),
            sweep(1, 128, 1, 0),
            sweep(1, 256, 0, 1),
            sweep(1, 384, 1, 0),
        ],
        totals: &[total(0, 4, 2)],
        text: "o 0 0xc000000000\no 1 0xc000100000\no 2 0xc000200000\no 3 0xc000300000\no 4 miss 6\nj 0 0 take 0 128 1\nj 1 0 take 128 128 1\nj 2 0 take 256 128 1\nj 3 0 take 384 128 1\nj 4 1 give 0 128\nj 5 1 give 256 128\nj 6 1 miss 129 1\ns 1 0 0 1\ns 1 128 1 0\ns 1 256 0 1\ns 1 384 1 0\nt 0 4 2\nend\n",
        ..NOTHING
    };
    expect_text(&rt, full_region)
}

const SECOND: Answer = Answer::Placed(0xc0_0000_0018);

const THIRD: Answer = Answer::Placed(0xc0_0000_0030);

#[test]
fn a_profile_is_written(rt: HostRuntime) -> Result<(), Fail> {
    let row = Row {
        answers: &[FIRST, SECOND, THIRD],
        journal: &[take(0, 0, 1, 6)],
        sweeps: &[sweep(1, 0, 1, 2)],
        totals: &[total(3, 3, 2)],
        profile: &[bucket(1, 7, 24, 3, 2)],
        text: "o 0 0xc000000000\no 1 0xc000000018\no 2 0xc000000030\nj 0 0 take 0 1 6\ns 1 0 1 2\nt 3 3 2\np 1 7 24 3 2\nend\n",
    };
    expect_text(&rt, row)
}

#[test]
fn profiles_of_two_mark_ends_are_written(rt: HostRuntime) -> Result<(), Fail> {
    let each = Row {
        answers: &[FIRST, SECOND, THIRD, SECOND],
        journal: &[take(0, 0, 1, 6)],
        sweeps: &[sweep(1, 0, 1, 2), sweep(2, 0, 1, 1)],
        totals: &[total(3, 4, 3)],
        profile: &[bucket(1, 7, 24, 3, 2), bucket(2, 7, 24, 4, 3)],
        text: "o 0 0xc000000000\no 1 0xc000000018\no 2 0xc000000030\no 3 0xc000000018\nj 0 0 take 0 1 6\ns 1 0 1 2\ns 2 0 1 1\nt 3 4 3\np 1 7 24 3 2\np 2 7 24 4 3\nend\n",
    };
    expect_text(&rt, each)?;
    let last = Row {
        profile: &[bucket(2, 7, 24, 4, 3)],
        text: "o 0 0xc000000000\no 1 0xc000000018\no 2 0xc000000030\no 3 0xc000000018\nj 0 0 take 0 1 6\ns 1 0 1 2\ns 2 0 1 1\nt 3 4 3\np 2 7 24 4 3\nend\n",
        ..each
    };
    expect_text(&rt, last)
}

#[test]
fn numbers_of_all_lengths_are_written(rt: HostRuntime) -> Result<(), Fail> {
    let row = Row {
        answers: &[
            Answer::Placed(0),
            Answer::Placed(LONG_MAX),
            Answer::Placed(0xabcd_ef98_7654_3210),
            Answer::Zero,
            Answer::Missed(0),
            Answer::Missed(LONG_MAX),
        ],
        journal: &[
            take(0, 0, 0, 0),
            take(MAX, MAX, MAX, 255),
            miss(3, 134217728, 1),
            miss(MAX, MAX, 255),
            give(MAX, MAX, MAX),
            scav(MAX, MAX, MAX),
            pull(1, 2, 3, 4),
            cut(5, 6, 7, 8, 9),
            drop_block(10, 11, 12, 0),
            pull(MAX, MAX, MAX, MAX),
            cut(MAX, MAX, MAX, MAX, 255),
            drop_block(MAX, MAX, MAX, MAX),
        ],
        sweeps: &[
            sweep(0, 0, 0, 0),
            sweep(1, 2, 3, 4),
            sweep(MAX, MAX, MAX, MAX),
        ],
        totals: &[total(0, 0, 0), total(255, LONG_MAX, LONG_MAX)],
        profile: &[
            bucket(0, 0, 0, 0, 0),
            bucket(1, 2, 3, 4, 5),
            bucket(1, 2, 4, 0, 0),
            bucket(1, 3, 0, 0, 0),
            bucket(MAX, MAX, LONG_MAX, LONG_MAX, LONG_MAX),
        ],
        text: "o 0 0x0\no 1 0xffffffffffffffff\no 2 0xabcdef9876543210\no 3 zero\no 4 miss 0\no 5 miss 18446744073709551615\nj 0 0 take 0 0 0\nj 1 4294967295 take 4294967295 4294967295 255\nj 2 3 miss 134217728 1\nj 3 4294967295 miss 4294967295 255\nj 4 4294967295 give 4294967295 4294967295\nj 5 4294967295 scav 4294967295 4294967295\nj 6 1 pull 2 3 4\nj 7 5 cut 6 7 8 9\nj 8 10 drop 11 12 0\nj 9 4294967295 pull 4294967295 4294967295 4294967295\nj 10 4294967295 cut 4294967295 4294967295 4294967295 255\nj 11 4294967295 drop 4294967295 4294967295 4294967295\ns 0 0 0 0\ns 1 2 3 4\ns 4294967295 4294967295 4294967295 4294967295\nt 0 0 0\nt 255 18446744073709551615 18446744073709551615\np 0 0 0 0 0\np 1 2 3 4 5\np 1 2 4 0 0\np 1 3 0 0 0\np 4294967295 4294967295 18446744073709551615 18446744073709551615 18446744073709551615\nend\n",
    };
    expect_text(&rt, row)
}

// Whether of a report, where these writes fail, so many bytes are held, which begin and end with these, and whether it is said that it is
// written whole.
fn leaves(
    alloc: Global,
    report: &Report,
    failing: &[u64],
    wanted: (bool, usize, &[u8], &[u8]),
) -> Result<bool, Fail> {
    let mut sink = MemorySink::new(alloc, List::from_vec(failing.to_vec(alloc)?));
    let whole = is_written(report, &mut sink);
    let held = sink.held();
    let (is_whole, length, front, tail) = wanted;
    Ok(whole == is_whole && held.len() == length && held.starts_with(front) && held.ends_with(tail))
}

// 990 bytes of the objects 0 to 99, 11 bytes of each one up to 999 and 12 of each later one: of 32768, 32766 are those of the
// first 2823
#[test]
fn a_failed_write_leaves_a_front(rt: HostRuntime) -> Result<(), Fail> {
    let long = Row {
        answers: &[Answer::Zero; 4000],
        ..NOTHING
    };
    let report = report_of(rt.alloc(), long)?;
    let begin = b"o 0 zero\no 1 zero\n".as_slice();
    let none = leaves(rt.alloc(), &report, &[0], (false, 0, b"", b""))?;
    let tail = b"o 2821 zero\no 2822 zero\n".as_slice();
    let front = leaves(rt.alloc(), &report, &[1], (false, 32766, begin, tail))?;
    let tail = b"o 3999 zero\nend\n".as_slice();
    let all = leaves(rt.alloc(), &report, &[], (true, 46894, begin, tail))?;
    assert_eq!(rt; (none, front, all), (true, true, true));
    Ok(())
}
