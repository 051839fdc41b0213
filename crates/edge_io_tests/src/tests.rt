ghost use Rattle.std.specs.Prelude.{◌<◌};

use edge_io::{
    Lines, List, MemorySink, MemorySource, NoMemory, Output, Seen, StdSink, StdSource, write_all,
};
use std::alloc::Global;
use std::io;
use std::io::{Read, Write};
use std::test::Fail;

// A reader that gives its bytes one by one, and answers an error once it has given `until` of them.
#[derive(Drop)]
struct Broken<'a> {
    bytes: &'a [u8],
    at: usize,
    until: usize,
}

impl<'a> Read for Broken<'a> {
    fn read(&mut self, buf: &mut [u8]) -> io::Result<usize> {
        if self.at == self.until {
            self.until = usize::MAX;
            return Err(io::Error::from(io::ErrorKind::BrokenPipe));
        }
        match (self.bytes.get(self.at), buf.first_mut()) {
            (Some(byte), Some(place)) => {
                *place = *byte;
                self.at = self.at.saturating_add(1);
                Ok(1)
            }
            _ => Ok(0),
        }
    }
}

// A writer that takes at most three bytes at once, errs once it holds `until` bytes, and takes nothing behind `full`.
#[derive(Drop)]
struct Narrow<'a> {
    got: &'a mut Vec<u8>,
    until: usize,
    full: usize,
}

impl<'a> Write for Narrow<'a> {
    fn write(&mut self, buf: &[u8]) -> io::Result<usize> {
        let held = self.got.len();
        if held >= self.until {
            return Err(io::Error::from(io::ErrorKind::BrokenPipe));
        }
        let most = buf.len().min(3).min(self.full.saturating_sub(held));
        self.got.extend_from_slice(&buf[..most])?;
        Ok(most)
    }

    fn flush(&mut self) -> io::Result<()> {
        Ok(())
    }
}

// What each of four calls for a line sees over a reader that breaks after so many bytes.
fn seen_until(until: usize) -> [Option<Seen>; 4] {
    let broken = Broken {
        bytes: b"ab\ncde",
        at: 0,
        until,
    };
    let mut source = StdSource::new(broken);
    let mut lines = Lines::new(&mut source, 100);
    let first = lines.next_line().ok();
    let second = lines.next_line().ok();
    let third = lines.next_line().ok();
    [first, second, third, lines.next_line().ok()]
}

// How many bytes a writer holds after a text of ten, and whether all were taken.
fn held_of(alloc: Global, until: usize, full: usize) -> (bool, usize) {
    let mut got = Vec::new(alloc);
    let mut sink = StdSink::new(Narrow {
        got: &mut got,
        until,
        full,
    });
    let whole = write_all(&mut sink, b"0123456789").is_ok();
    (whole, got.len())
}

#[test]
fn adapters_hand_on_faults_in_mid_stream(rt: HostRuntime) {
    let (line, cut, finished) = (Some(Seen::Line), Some(Seen::Cut), Some(Seen::Finished));
    assert_eq!(rt; seen_until(100), [line, cut, finished, finished]);
    assert_eq!(rt; seen_until(0), [None, line, cut, finished]);
    assert_eq!(rt; seen_until(4), [line, None, cut, finished]);
    assert_eq!(rt; seen_until(6), [line, None, finished, finished]);
    let alloc = rt.alloc();
    assert_eq!(rt; held_of(alloc, 100, 100), (true, 10));
    assert_eq!(rt; held_of(alloc, 0, 100), (false, 0));
    assert_eq!(rt; held_of(alloc, 6, 100), (false, 6));
    assert_eq!(rt; held_of(alloc, 100, 7), (false, 7));
}

// What three calls for a line see of "ab\ncd", read in pieces of at most so many bytes, of which the listed reads fail.
fn seen_in_pieces(alloc: Global, most: u64, failing: &[u64]) -> Result<[Option<Seen>; 3], NoMemory>
    requires { 0 < most }
{
    let mut source = MemorySource::in_pieces(
        listed(alloc, b"ab\ncd")?,
        most,
        listed(alloc, failing)?,
    );
    let mut lines = Lines::new(&mut source, 100);
    let first = lines.next_line().ok();
    let second = lines.next_line().ok();
    Ok([first, second, lines.next_line().ok()])
}

// Whether a sink that takes at most so many bytes at once, of which the listed writes fail, takes a text of ten whole, and whether it
// then holds just so many of its bytes.
fn holds_in_pieces(
    alloc: Global,
    most: u64,
    failing: &[u64],
    expected: &[u8],
) -> Result<(bool, bool), NoMemory>
    requires { 0 < most }
{
    let mut sink = MemorySink::in_pieces(alloc, most, listed(alloc, failing)?);
    let whole = write_all(&mut sink, b"0123456789").is_ok();
    Ok((whole, sink.held() == expected))
}

// A list of these items.
fn listed<T: Copy>(alloc: Global, items: &[T]) -> Result<List<T>, NoMemory> {
    let mut list = List::new(alloc);
    for item in items {
        list.push(*item)?;
    }
    Ok(list)
}

#[test]
fn a_source_in_pieces_gives_the_same_lines(rt: HostRuntime) {
    let alloc = rt.alloc();
    let (line, cut, finished) = (Some(Seen::Line), Some(Seen::Cut), Some(Seen::Finished));
    let all = Some([line, cut, finished]);
    assert_eq!(rt; seen_in_pieces(alloc, 1, &[]).ok(), all);
    assert_eq!(rt; seen_in_pieces(alloc, 2, &[]).ok(), all);
    assert_eq!(rt; seen_in_pieces(alloc, 5, &[]).ok(), all);
    assert_eq!(rt; seen_in_pieces(alloc, u64::MAX, &[]).ok(), all);
    // A byte a read: the reads 0 to 4 give the bytes, and read 5 finds nothing left.
    assert_eq!(rt;
        seen_in_pieces(alloc, 1, &[2]).ok(),
        Some([None, line, cut])
    );
    assert_eq!(rt;
        seen_in_pieces(alloc, 1, &[4]).ok(),
        Some([line, None, cut])
    );
    assert_eq!(rt;
        seen_in_pieces(alloc, 1, &[5]).ok(),
        Some([line, None, finished])
    );
    assert_eq!(rt; seen_in_pieces(alloc, 1, &[6]).ok(), all);
}

#[test]
fn a_sink_in_pieces_holds_what_it_took(rt: HostRuntime) {
    let alloc = rt.alloc();
    assert_eq!(rt;
        holds_in_pieces(alloc, 1, &[], b"0123456789").ok(),
        Some((true, true))
    );
    assert_eq!(rt;
        holds_in_pieces(alloc, 3, &[], b"0123456789").ok(),
        Some((true, true))
    );
    assert_eq!(rt;
        holds_in_pieces(alloc, u64::MAX, &[], b"0123456789").ok(),
        Some((true, true))
    );
    // Three bytes a write: write k begins at byte 3k.
    assert_eq!(rt;
        holds_in_pieces(alloc, 3, &[0], b"").ok(),
        Some((false, true))
    );
    assert_eq!(rt;
        holds_in_pieces(alloc, 3, &[1], b"012").ok(),
        Some((false, true))
    );
    assert_eq!(rt;
        holds_in_pieces(alloc, 3, &[3], b"012345678").ok(),
        Some((false, true))
    );
    assert_eq!(rt;
        holds_in_pieces(alloc, 3, &[4], b"0123456789").ok(),
        Some((true, true))
    );
}

// What waits goes on behind a failed write, and nothing is sent twice.
#[test]
fn what_waits_is_sent_in_pieces(rt: HostRuntime) -> Result<(), Fail> {
    let alloc = rt.alloc();
    let mut sink = MemorySink::in_pieces(alloc, 2, listed(alloc, &[1, 4])?);
    let mut out = Output::new(&mut sink);
    let put = out.put(b"abcde").is_ok() && out.put(b"fg").is_ok();
    let first = out.flush().is_ok();
    let second = out.flush().is_ok();
    let third = out.flush().is_ok();
    assert_eq!(rt; (put, first, second, third), (true, false, false, true));
    assert_eq!(rt; sink.held(), b"abcdefg".as_slice());
    Ok(())
}
