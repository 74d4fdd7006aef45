//! Devices that fail, that give or take a byte at a time, or that signals interrupt.

use crate::csv_io::{INT, by_comma, with_comma};
use rj_columns::Table;
use rj_csv_io::{
    CountedReader, CountedWriter, Failed, Input, Output, ReadRefused, WriteRefused, read_all,
    read_table, read_up_to, write_rows,
};
use std::alloc::Global;
use std::io;
use std::io::{Read, Write};
use std::test::Fail;

// A writer of std that takes a byte at a time, and fails after this many calls.
#[derive(Drop)]
struct Tires {
    left: u64,
}

impl Tires {
    fn call(&mut self) -> io::Result<()> {
        if self.left == 0 {
            return Err(io::Error::from(io::ErrorKind::BrokenPipe));
        }
        self.left -= 1;
        Ok(())
    }
}

impl Write for Tires {
    fn write(&mut self, bytes: &[u8]) -> io::Result<usize> {
        self.call()?;
        Ok(bytes.len().min(1))
    }

    fn flush(&mut self) -> io::Result<()> {
        self.call()
    }
}

// Whether rows that take four writes and a flush are written, or refused with one failure counted.
fn is_told(alloc: Global, table: &Table, left: u64) -> bool {
    if table.columns() != 1 {
        return false;
    }
    let mut device = CountedWriter::new(Tires { left });
    match write_rows(alloc, &mut device, &["a"], table, &with_comma()) {
        Ok(()) => left >= 5 && device.failures() == 0,
        Err(e) => left < 5 && e == WriteRefused::WriteDevice && device.failures() == 1,
    }
}

fn is_row_told(alloc: Global, left: u64) -> bool {
    match read_table(alloc, b"a\n1\n", &[INT], &by_comma(&[""])) {
        Ok(table) => is_told(alloc, &table, left),
        Err(_) => false,
    }
}

#[test]
fn tiring_writer_sweep(rt: HostRuntime) {
    for left in 0..8 {
        assert!(rt; is_row_told(rt.alloc(), left), "at {left}");
    }
}

// A writer of std that takes everything, and whose flush fails if it holds something back.
#[derive(Drop)]
struct HoldsBack {
    holds: bool,
}

impl Write for HoldsBack {
    fn write(&mut self, bytes: &[u8]) -> io::Result<usize> {
        self.holds = self.holds || !bytes.is_empty();
        Ok(bytes.len())
    }

    fn flush(&mut self) -> io::Result<()> {
        if self.holds {
            return Err(io::Error::from(io::ErrorKind::BrokenPipe));
        }
        Ok(())
    }
}

#[test]
fn writes_that_are_held_back_and_lost(rt: HostRuntime) {
    let mut device = CountedWriter::new(HoldsBack { holds: false });
    let put = [device.put(b""), device.put(b"a")];
    assert!(rt; put == [Ok(()), Err(Failed)] && device.failures() == 1);
}

// A reader of std that gives a byte at a time, this many in all, and fails once, after this many
// reads.
#[derive(Drop)]
struct Trickle {
    bytes: u64,
    left: u64,
    failed: bool,
}

impl Read for Trickle {
    fn read(&mut self, buffer: &mut [u8]) -> io::Result<usize> {
        if self.left == 0 && !self.failed {
            self.failed = true;
            return Err(io::Error::from(io::ErrorKind::Other));
        }
        self.left = self.left.saturating_sub(1);
        if self.bytes == 0 || buffer.is_empty() {
            return Ok(0);
        }
        self.bytes -= 1;
        buffer[0] = b'a';
        Ok(1)
    }
}

// Whether the reader is read to its end, or refused with one failure counted, and the rest by another call.
fn is_read(alloc: Global, left: u64) -> bool {
    let mut device = CountedReader::new(Trickle {
        bytes: 3,
        left,
        failed: false,
    });
    match read_all(alloc, &mut device) {
        Ok(bytes) => left >= 4 && bytes.as_slice() == b"aaa".as_slice() && device.failures() == 0,
        Err(e) => {
            if left >= 4 || e != ReadRefused::ReadDevice || device.failures() != 1 {
                return false;
            }
            read_all(alloc, &mut device).is_ok() && device.failures() == 1
        }
    }
}

#[test]
fn trickling_reader_sweep(rt: HostRuntime) {
    for left in 0..6 {
        assert!(rt; is_read(rt.alloc(), left), "at {left}");
    }
}

// A device of std that signals interrupt, and that then gives two bytes, or takes one and flushes,
// or fails.
#[derive(Drop)]
struct Interrupted {
    signals: u64,
    fails: bool,
}

impl Read for Interrupted {
    fn read(&mut self, buffer: &mut [u8]) -> io::Result<usize> {
        if self.signals > 0 {
            self.signals -= 1;
            return Err(io::Error::from(io::ErrorKind::Interrupted));
        }
        if self.fails || buffer.len() < 2 {
            return Err(io::Error::from(io::ErrorKind::Other));
        }
        buffer[0] = b'o';
        buffer[1] = b'k';
        Ok(2)
    }
}

impl Write for Interrupted {
    fn write(&mut self, bytes: &[u8]) -> io::Result<usize> {
        let mut buffer = [0; 2];
        self.read(&mut buffer)?;
        Ok(bytes.len().min(1))
    }

    fn flush(&mut self) -> io::Result<()> {
        let mut buffer = [0; 2];
        self.read(&mut buffer)?;
        Ok(())
    }
}

#[test]
fn interrupted_writers(rt: HostRuntime) {
    for fails in [false, true] {
        let mut device = CountedWriter::new(Interrupted {
            signals: 500,
            fails,
        });
        let done = device.put(b"ok");
        assert!(rt; done.is_err() == fails && device.failures() == u64::from(fails));
    }
}

// Whether two bytes are read after the signals, or a failure is reported and counted.
fn is_read_behind_signals(fails: bool) -> bool {
    let mut device = CountedReader::new(Interrupted {
        signals: 500,
        fails,
    });
    let mut buffer = [0; 4];
    let got = device.get(&mut buffer);
    if fails {
        return got == Err(Failed) && device.failures() == 1;
    }
    got == Ok(2) && &buffer[..2] == b"ok".as_slice() && device.failures() == 0
}

#[test]
fn interrupted_readers(rt: HostRuntime) {
    for fails in [false, true] {
        assert!(rt; is_read_behind_signals(fails), "at {fails}");
    }
}

// Whether a text is read by a call, and by one that asks for no more than its first half at least.
fn is_whole(alloc: Global, text: &[u8]) -> Result<bool, ReadRefused> {
    let mut some = Vec::new(alloc);
    read_up_to(&mut CountedReader::new(text), &mut some, text.len() / 2)?;
    let bytes = read_all(alloc, &mut CountedReader::new(text))?;
    Ok(bytes.as_slice() == text && some.len() >= text.len() / 2)
}

#[test]
fn whole_readers(rt: HostRuntime) -> Result<(), Fail> {
    for size in [0, 1, 65_536, 200_000] {
        let text = vec![in rt.alloc(); b'x'; size]?;
        assert!(rt; is_whole(rt.alloc(), &text) == Ok(true), "at {size}");
    }
    Ok(())
}
