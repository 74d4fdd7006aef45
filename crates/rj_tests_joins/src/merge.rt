//! Texts of placed rows, merged by readers that signals interrupt, and that fail.

use rj_csv_io::strict::Delimiter;
use rj_csv_io::{CountedWriter, RetryingReader};
use rj_shards::merge::{
    Copies, MergeInput, MergeOptions, MergeRefused, MergeTextsRefused, RowOrder, merge_texts,
};
use std::alloc::Global;
use std::io;
use std::io::Read;
use std::test::Fail;

// A reader that a signal interrupts before each byte, and that may fail after its text.
#[derive(Drop)]
struct Halting<'t> {
    text: &'t [u8],
    at: usize,
    broken: bool,
    fails: bool,
}

impl<'t> Read for Halting<'t> {
    fn read(&mut self, buffer: &mut [u8]) -> io::Result<usize> {
        if !self.broken {
            self.broken = true;
            return Err(io::Error::from(io::ErrorKind::Interrupted));
        }
        self.broken = false;
        match (self.text.get(self.at), buffer.first_mut()) {
            (Some(byte), Some(place)) => {
                *place = *byte;
                self.at = self.at.saturating_add(1);
                Ok(1)
            }
            _ => {
                if self.fails {
                    return Err(io::Error::from(io::ErrorKind::Other));
                }
                Ok(0)
            }
        }
    }
}

// An input with a reader of such a text that repeats interrupted reads. Its rows are in no other
// input.
fn input_of(text: &str, fails: bool) -> MergeInput<RetryingReader<Halting<'_>>> {
    let reader = RetryingReader::new(Halting {
        text: text.as_bytes(),
        at: 0,
        broken: false,
        fails,
    });
    MergeInput {
        reader,
        copies: Copies::single(),
    }
}

const FIRST: &str = "left_place,k,right_place,v\n0,\"a,b\",3,1\n2,x,1,\n5,lone;,,7\n";

const SECOND: &str =
    "left_place,k,right_place,v\n0,y,5,\"line\nbreak\"\n,only right,4,\"say \"\"hi\"\"\"\n";

const BOTH: &str =
    "k;v\na,b;1\ny;\"line\nbreak\"\nx;\n\"lone;\";7\nonly right;\"say \"\"hi\"\"\"\n";

// The merge of two texts, written with semicolons. The second one may fail after its text.
fn merged(alloc: Global, fails: bool) -> Result<Vec<u8>, MergeTextsRefused> {
    let Ok(inputs) = vec![in alloc; input_of(SECOND, false), input_of(FIRST, fails)] else {
        return Err(MergeTextsRefused::Merge(MergeRefused::Memory));
    };
    let Some(delimiter) = Delimiter::of(b';') else {
        return Err(MergeTextsRefused::Merge(MergeRefused::Memory));
    };
    let how = MergeOptions {
        delimiter,
        null: b"".as_slice(),
        order: RowOrder::PairsFirst,
        from: None,
        to: None,
    };
    let mut output = CountedWriter::new(Vec::new(alloc));
    match merge_texts(alloc, inputs, &how, &mut output) {
        Ok(()) => Ok(output.into_inner()),
        Err(refused) => Err(refused),
    }
}

#[test]
fn retrying_readers(rt: HostRuntime) -> Result<(), Fail> {
    let whole = merged(rt.alloc(), false)?;
    assert!(rt; whole.as_slice() == BOTH.as_bytes());
    let refused = merged(rt.alloc(), true).map(|_| ());
    let device = MergeTextsRefused::Merge(MergeRefused::ReadDevice(2));
    assert_eq!(rt; refused, Err(device));
    Ok(())
}
