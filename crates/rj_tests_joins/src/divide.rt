//! A text with semicolons divided by hand, in blocks of several sizes, and where one can be cut.

ghost use Rattle.std.specs.Prelude.{◌<◌, length, slice_index_or, if◌then◌else◌};
ghost use Rattle.rj_columns.specs.Compare.{is_null};
ghost use Rattle.rj_columns.specs.Contents.{nothing};

use rj_columns::{ColumnType, Table};
use rj_csv_io::strict::Delimiter;
use rj_csv_io::{Failed, Header, Input, Output, is_lawful_null};
use rj_shards::division::{DivideRefused, Division, Reading, Route, divide, find_cuts};
use std::alloc::Global;

const TYPES: [ColumnType; 2] = [ColumnType::Int, ColumnType::Text];

// Routes a row by its first cell: to part 1 where that is NULL, and to part 0 otherwise.
struct ByNull;

impl Route for ByNull {
    ghost part = { λ _ row. if is_null (slice_index_or row 0 nothing) then 1 else 0 };

    ghost count = { λ _. 2 };

    ghost fits = { λ _ types. 0 < length types };

    fn parts(&self) -> u32 {
        2
    }

    fn part_of(&self, table: &Table, row: u32) -> u32 {
        if table.cell(u64::from(row), 0).is_null() {
            1
        } else {
            0
        }
    }
}

// A device that gives at most this many bytes at once.
#[derive(Drop)]
struct Source<'a> {
    bytes: &'a [u8],
    step: usize,
}

impl<'a> Input for Source<'a> {
    ghost count = { λ _. 0 };

    fn get(&mut self, buffer: &mut [u8]) -> Result<usize, Failed> {
        let count = self.step.min(self.bytes.len()).min(buffer.len());
        for i in 0..count {
            buffer[i] = self.bytes[i];
        }
        self.bytes = &self.bytes[count..];
        Ok(count)
    }

    fn failures(&self) -> u64 {
        0
    }
}

// A device that takes bytes, and counts the calls in which it gets some.
#[derive(Drop)]
struct Sink {
    bytes: Vec<u8>,
    puts: u64,
}

impl Output for Sink {
    ghost count = { λ _. 0 };

    fn put(&mut self, bytes: &[u8]) -> Result<(), Failed> {
        // (when memory runs out it has other bytes than are wanted)
        let _ = self.bytes.extend_from_slice(bytes);
        self.puts = self.puts.saturating_add(1);
        Ok(())
    }

    fn failures(&self) -> u64 {
        0
    }
}

impl Sink {
    fn new(alloc: Global) -> Sink {
        Sink {
            bytes: Vec::new(alloc),
            puts: 0,
        }
    }

    // Whether it got these bytes in this many calls.
    fn has(&self, bytes: &[u8], puts: u64) -> bool {
        self.bytes.as_slice() == bytes && self.puts == puts
    }
}

const TEXT: &[u8] = b"k;v\n1;a\n;b\n\n2;\"x\ny\"\r\n;\"q\"\"\"\n-7;,";

const FIRST: &[u8] = b"1,a,100\n2,\"x\ny\",102\n-7,\",\",104\n";

const SECOND: &[u8] = b",b,101\n,\"q\"\"\",103\n";

// Divides the text among two outputs. Returns how many rows it has. Its first row has the place
// 100.
fn divided(
    alloc: Global,
    block: usize,
    step: usize,
    outputs: &mut [Sink],
) -> Result<u64, DivideRefused> {
    let Some(delimiter) = Delimiter::of(b';') else {
        return Err(DivideRefused::Memory);
    };
    let Ok(Some(header)) = Header::of(alloc, b"k;v\n", delimiter) else {
        return Err(DivideRefused::Memory);
    };
    let division = Division {
        delimiter,
        header: &header,
        types: &TYPES,
        nulls: &[""],
        route: &ByNull,
        first: 100,
    };
    if !is_lawful_null("") || outputs.len() != 2 {
        return Err(DivideRefused::Memory);
    }
    let mut source = Source { bytes: TEXT, step };
    divide(
        alloc,
        &mut source,
        &division,
        Reading::Lenient(true),
        block,
        outputs,
    )
}

// Whether the text gives five rows and these outputs, in this many calls each.
fn is_divided(alloc: Global, block: usize, step: usize, puts: (u64, u64)) -> bool {
    let mut outputs = [Sink::new(alloc), Sink::new(alloc)];
    let rows = divided(alloc, block, step, &mut outputs);
    rows == Ok(5) && outputs[0].has(FIRST, puts.0) && outputs[1].has(SECOND, puts.1)
}

// Sizes of blocks, how many bytes are given at once, and in how many calls each output gets its rows: in one for each block that
// has rows for it.
const BLOCKS: [(usize, usize, (u64, u64)); 6] = [
    (0, 1, (3, 2)),
    (1, 1, (3, 2)),
    (8, 1, (3, 2)),
    (21, 1, (2, 2)),
    (33, 1, (1, 1)),
    (64, 64, (1, 1)),
];

#[test]
fn blocks_of_any_size(rt: HostRuntime) {
    for (block, step, puts) in BLOCKS {
        assert!(rt;
            is_divided(rt.alloc(), block, step, puts),
            "blocks of {block}"
        );
    }
}

// Whether these are the places where a text can be cut, each this many bytes after the one before,
// read byte by byte in blocks of one.
fn are_cuts(alloc: Global, size: u64, wanted: &[u64]) -> bool {
    let Some(delimiter) = Delimiter::of(b';') else {
        return false;
    };
    let mut source = Source {
        bytes: b"k;v\n1;a\n2;\"x\ny\"\n3;c\n4".as_slice(),
        step: 1,
    };
    match find_cuts(alloc, &mut source, delimiter, size, 1) {
        Ok(cuts) => cuts.as_slice() == wanted,
        Err(_) => false,
    }
}

#[test]
fn cuts(rt: HostRuntime) {
    assert!(rt; are_cuts(rt.alloc(), 1, &[4, 8, 16, 20]) && are_cuts(rt.alloc(), 5, &[8, 16]));
}
