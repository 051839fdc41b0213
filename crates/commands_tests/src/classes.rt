//! The lines over a sink in memory. They are those of the table of Go's `sizeclasses.go`.

use commands::write_classes;
use edge_io::{List, MemorySink};
use std::test::Fail;

const TEXT: &str =
    "c 1 8 1 1024\nc 2 16 1 512\nc 3 24 1 341\nc 4 32 1 256\nc 5 48 1 170\nc 6 64 1 128\nc 7 80 1 102\nc 8 96 1 85\nc 9 112 1 73\nc 10 128 1 64\nc 11 144 1 56\nc 12 160 1 51\nc 13 176 1 46\nc 14 192 1 42\nc 15 208 1 39\nc 16 224 1 36\nc 17 240 1 34\nc 18 256 1 32\nc 19 288 1 28\nc 20 320 1 25\nc 21 352 1 23\nc 22 384 1 21\nc 23 416 1 19\nc 24 448 1 18\nc 25 480 1 17\nc 26 512 1 16\nc 27 576 1 14\nc 28 640 1 12\nc 29 704 1 11\nc 30 768 1 10\nc 31 896 1 9\nc 32 1024 1 8\nc 33 1152 1 7\nc 34 1280 1 6\nc 35 1408 2 11\nc 36 1536 1 5\nc 37 1792 2 9\nc 38 2048 1 4\nc 39 2304 2 7\nc 40 2688 1 3\nc 41 3072 3 8\nc 42 3200 2 5\nc 43 3456 3 7\nc 44 4096 1 2\nc 45 4864 3 5\nc 46 5376 2 3\nc 47 6144 3 4\nc 48 6528 4 5\nc 49 6784 5 6\nc 50 6912 6 7\nc 51 8192 1 1\nc 52 9472 7 6\nc 53 9728 6 5\nc 54 10240 5 4\nc 55 10880 4 3\nc 56 12288 3 2\nc 57 13568 5 3\nc 58 14336 7 4\nc 59 16384 2 1\nc 60 18432 9 4\nc 61 19072 7 3\nc 62 20480 5 2\nc 63 21760 8 3\nc 64 24576 3 1\nc 65 27264 10 3\nc 66 28672 7 2\nc 67 32768 4 1\n";

#[test]
fn all_classes_are_written(rt: HostRuntime) -> Result<(), Fail> {
    let alloc = rt.alloc();
    let mut sink = MemorySink::new(alloc, List::new(alloc));
    assert!(rt; write_classes(&mut sink).is_ok());
    assert_eq!(rt; sink.held(), TEXT.as_bytes());
    Ok(())
}
