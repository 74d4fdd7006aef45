//! What stands for a text whose header is completed, and how many names that gives.

use rj_csv_io::names::complete_header;
use rj_csv_io::strict::Delimiter;
use std::alloc::{AllocError, Global};
use std::test::Fail;

// A text, whether it is read strictly, what stands for it, and how many names are given.
type HeaderCase<'a> = (&'a [u8], bool, &'a [u8], usize);

const HEADERS: [HeaderCase<'static>; 14] = [
    (b"", true, b"", 0),
    (b"a,b\n1,2\n", true, b"a,b\n1,2\n", 0),
    (b"\xEF\xBB\xBFa,b", false, b"\xEF\xBB\xBFa,b", 0),
    (
        b",a,A\n1,2,3\n",
        true,
        b"\xEF\xBB\xBFcolumn_1,a,A_2\n1,2,3\n",
        2,
    ),
    (
        b"\xEF\xBB\xBF,b\r\n1,2\r\n",
        true,
        b"\xEF\xBB\xBFcolumn_1,b\r\n1,2\r\n",
        1,
    ),
    (b"a,", false, b"\xEF\xBB\xBFa,column_2", 1),
    (b"a,\r1,2\r", false, b"\xEF\xBB\xBFa,column_2\r1,2\r", 1),
    (
        b"column_3,a_2,,A,a,column_3_2\n",
        true,
        b"\xEF\xBB\xBFcolumn_3,a_2,column_3_3,A,a_3,column_3_2\n",
        2,
    ),
    (
        b"\"x,\n\"\"\",\"\"\n1,2\n",
        true,
        b"\xEF\xBB\xBF\"x,\n\"\"\",column_2\n1,2\n",
        1,
    ),
    (
        b"\n\na,\n\n1,2\n",
        false,
        b"\xEF\xBB\xBFa,column_2\n\n1,2\n",
        1,
    ),
    (b"\na,\n1,2\n", true, b"\na,\n1,2\n", 0),
    (b"a,,b\"c\n1,2,3\n", true, b"a,,b\"c\n1,2,3\n", 0),
    (
        b"a,,b\"c\n1,2,3\n",
        false,
        b"\xEF\xBB\xBFa,column_2,\"b\"\"c\"\n1,2,3\n",
        1,
    ),
    (b"a,,\"b\n1,2,3\n", true, b"a,,\"b\n1,2,3\n", 0),
];

// Whether this stands for a text, and so many names are given.
fn is_completed(alloc: Global, case: &HeaderCase<'_>) -> Result<bool, AllocError> {
    let (text, strict, want, names) = *case;
    let mut bytes = Vec::new(alloc);
    bytes.extend_from_slice(text)?;
    let completed = complete_header(alloc, bytes, Delimiter::comma(), strict)?;
    Ok(completed.bytes.as_slice() == want && completed.given.len() == names)
}

// The place of the first case for which something else stands.
fn wrong_header(alloc: Global, cases: &[HeaderCase<'_>]) -> Result<Option<usize>, AllocError> {
    for i in 0..cases.len() {
        if !is_completed(alloc, &cases[i])? {
            return Ok(Some(i));
        }
    }
    Ok(None)
}

#[test]
fn headers(rt: HostRuntime) -> Result<(), Fail> {
    assert_eq!(rt; wrong_header(rt.alloc(), HEADERS.as_slice())?, None);
    Ok(())
}

// The numbers of the columns of a text that were given names, and those names, each with a blank.
fn told(alloc: Global, text: &[u8]) -> Result<String, AllocError> {
    let mut bytes = Vec::new(alloc);
    bytes.extend_from_slice(text)?;
    let completed = complete_header(alloc, bytes, Delimiter::comma(), true)?;
    let mut all = String::new(alloc);
    for given in &completed.given {
        let (column, name) = (given.column, given.name.as_str());
        let line = format!(in alloc; "{column} {name} ")?;
        all.push_str(line.as_str())?;
    }
    Ok(all)
}

#[test]
fn given_names(rt: HostRuntime) -> Result<(), Fail> {
    let all = told(rt.alloc(), b"id,,name,NAME,\n")?;
    assert!(rt; all.as_str() == "2 column_2 4 NAME_2 5 column_5 ");
    Ok(())
}
