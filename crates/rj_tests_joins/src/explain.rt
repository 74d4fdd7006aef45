//! The lines that explain an error.

use crate::command::words_of;
use rj_command::{Fault, Side, read_line};
use rj_explain::{Inputs, explain};
use std::alloc::Global;

// Row 1 has a cell of two lines; the empty line below it is no row.
const NOTES: &[u8] = b"id,note\n1,\"two\nlines\"\n\n2,x\n";

// Whether these lines explain an error of a join of the notes with themselves.
fn is_explained(alloc: Global, fault: &Fault, wanted: &str) -> bool {
    let words = words_of("JOIN USING (id)", "--hash=plain");
    let Ok(line) = read_line(alloc, words.as_slice(), 1) else {
        return false;
    };
    let inputs = Inputs {
        left: NOTES,
        right: NOTES,
        request: &line.request,
    };
    match explain(alloc, fault, &inputs) {
        Ok(lines) => lines.as_str() == wanted,
        Err(_) => false,
    }
}

// The number of the first error that other lines explain.
fn first_explained_otherwise(alloc: Global, cases: &[(Fault, &str)]) -> Option<usize> {
    for number in 0..cases.len() {
        let case = &cases[number];
        if !is_explained(alloc, &case.0, case.1) {
            return Some(number);
        }
    }
    None
}

const FAULTS: [(Fault, &str); 3] = [
    (
        Fault::BadInteger(Side::Left, 2, 1),
        "  line 5 of the file, column \"id\": \"2\" is no int\n",
    ),
    (
        Fault::BadText(Side::Right, 1, 2),
        "  line 2 of the file, column \"note\": \"two\\x0Alines\" is no UTF-8\n",
    ),
    (Fault::WriteDevice, ""),
];

#[test]
fn faults_are_explained(rt: HostRuntime) {
    assert_eq!(rt;
        first_explained_otherwise(rt.alloc(), FAULTS.as_slice()),
        None
    );
}
