//! The words `watch N`. Which profiles a watcher sees depends on who comes first, but for the last one.

use super::*;

// A trace without a line, and what one watcher of its run sees: the empty profile, which is the last one.
const EMPTY: &str = "goheap 1\nheap 1 procs 1 rate 0 seed 1 goal 512\nend\n";

// Three objects of which two die at the only mark end, and their report. One watcher may see the empty profile, and at last sees three samples, of
// which two are freed.
const DYING: &str =
    "goheap 1\nheap 1 procs 1 rate 1 seed 1 goal 512\na 0 24 s 7\na 0 24 s 7\na 0 24 s 7\ngc 1\nm 0 0\nend\n";

const REPORT: &str =
    "o 0 0xc000000000\no 1 0xc000000018\no 2 0xc000000030\nj 0 0 take 0 1 6\ns 1 0 1 2\nt 3 3 2\np 1 7 24 3 2\nend\n";

// How often the run is watched whose lines depend on who comes first.
const RUNS: u32 = 20;

#[test]
fn lines_of_watchers_stand_behind_the_report(rt: HostRuntime) -> Result<(), Fail> {
    let none = answered("end\nw 0 0 0 0\n");
    expect(
        &rt,
        "",
        &["watch", "1"],
        EMPTY.as_bytes(),
        failing(&[], &[]),
        none,
    )?;
    let four = answered("end\nw 0 0 0 0\nw 1 0 0 0\nw 2 0 0 0\nw 3 0 0 0\n");
    expect(
        &rt,
        "",
        &["watch", "4"],
        EMPTY.as_bytes(),
        failing(&[], &[]),
        four,
    )?;
    let late = format!(in rt.alloc(); "{REPORT}w 0 1 3 2\n")?;
    let early = format!(in rt.alloc(); "{REPORT}w 0 0 0 0\nw 0 1 3 2\n")?;
    let wanted = Wanted {
        status: 0,
        written: Text::Either(late.as_bytes(), early.as_bytes()),
        told: "",
    };
    for _ in 0..RUNS {
        expect(
            &rt,
            "",
            &["watch", "1"],
            DYING.as_bytes(),
            failing(&[], &[]),
            wanted,
        )?;
    }
    Ok(())
}

// A trace of version 4 is refused, as `run` refuses it, and so is one that breaks off; a write that fails in the lines is a write fault behind a front.
#[test]
fn watching_stops_as_running_does(rt: HostRuntime) -> Result<(), Fail> {
    let script = failing(&[], &[]);
    for input in [
        "goheap 4\nheap 1 procs 1 rate 0 seed 1 goal 512\nend\n",
        "goheap 0\n",
    ] {
        let wanted = refused(3, "goheap: trace line 1: malformed\n");
        expect(&rt, "", &["watch", "1"], input.as_bytes(), script, wanted)?;
        expect(&rt, "", &["run"], input.as_bytes(), script, wanted)?;
    }
    let wanted = refused(3, "goheap: trace line 2: ends early\n");
    expect(&rt, "", &["watch", "1"], b"goheap 1\n", script, wanted)?;
    let wanted = refused(5, "goheap: read fault\n");
    expect(
        &rt,
        "",
        &["watch", "1"],
        EMPTY.as_bytes(),
        failing(&[0], &[]),
        wanted,
    )?;
    let wanted = Wanted {
        status: 6,
        written: Text::Is(b"end\n"),
        told: "goheap: write fault\n",
    };
    expect(
        &rt,
        "",
        &["watch", "1"],
        EMPTY.as_bytes(),
        failing(&[], &[1]),
        wanted,
    )
}
