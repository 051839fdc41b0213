//! Words that are those of `run` and words that are not.

use commands::{RunOptions, are_of_run, read_options};
use std::alloc::Global;
use std::test::Fail;

// The words behind `run`, apart by spaces, and the background sweepers and the form of the profile that they ask for.
const ROWS: [(&str, Option<(u32, bool)>); 20] = [
    ("", Some((1, false))),
    ("--each", Some((1, true))),
    ("--background=0", Some((0, false))),
    ("--background 4", Some((4, false))),
    ("--each --background=2", Some((2, true))),
    ("--background=3 --each", Some((3, true))),
    ("--each --background 0", Some((0, true))),
    ("--background 1 --each", Some((1, true))),
    ("--each --each", None),
    ("--background=1 --background=1", None),
    ("--background 1 --background=1", None),
    ("--background=", None),
    ("--background=5", None),
    ("--background=05", None),
    ("--background", None),
    ("--background --each 1", None),
    ("--each=1", None),
    ("-b 1", None),
    ("--", None),
    ("--help", None),
];

#[test]
fn options_are_read(rt: HostRuntime) -> Result<(), Fail> {
    let alloc: Global = rt.alloc();
    for (row, asked) in ROWS {
        let mut words = Vec::new(alloc);
        words.push(String::from_str(alloc, "run")?)?;
        for word in row.split_whitespace() {
            words.push(String::from_str(alloc, word)?)?;
        }
        assert_eq!(rt; are_of_run(&words), asked.is_some(), "at {row}");
        if let Some((background, each)) = asked {
            let options = read_options(alloc, &words);
            assert_eq!(rt; options, Ok(RunOptions { background, each }), "at {row}");
        }
    }
    Ok(())
}
