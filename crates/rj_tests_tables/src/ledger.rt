//! Worked examples: rows that are cut into parcels, and a stripe that was interrupted.

use rj_exchange::ledger::{Answer, Body, Parcel, Reason, cut, replay};
use std::test::Fail;

// Rows, and the blocks of at most four of them into which they are cut.
const CUTS: [(&[u32], &[&[u32]]); 3] = [
    (&[1, 2, 3, 4, 5, 7], &[&[1, 2, 3, 4], &[5, 7]]),
    (&[], &[]),
    (&[1, 2, 3, 4], &[&[1, 2, 3, 4]]),
];

// Whether it is the parcel of this number: a block, or after all blocks the close.
fn is_cut(parcel: &Parcel, number: usize, blocks: &[&[u32]]) -> bool {
    let is_body = match &parcel.body {
        Body::Rows(block) => match blocks.get(number) {
            Some(rows) => block.rows() == *rows,
            None => false,
        },
        Body::Close => number == blocks.len(),
    };
    is_body && parcel.number == number as u64
}

#[test]
fn parcel_cuts(rt: HostRuntime) -> Result<(), Fail> {
    for (rows, blocks) in CUTS {
        let parcels = cut(rt.alloc(), rows, 0, 0, 4)?;
        let mut numbered = parcels.iter().enumerate();
        let are_cut = numbered.all(|(number, parcel)| is_cut(parcel, number, blocks));
        assert!(rt; are_cut && parcels.len() > blocks.len());
    }
    Ok(())
}

// A stripe that was interrupted after its first parcel is sent once more from its beginning.
#[test]
fn broken_off_stripe(rt: HostRuntime) -> Result<(), Fail> {
    let mut parcels = cut(rt.alloc(), &[3, 8, 9], 0, 0, 2)?;
    parcels.truncate(1);
    let mut again = cut(rt.alloc(), &[3, 8, 9], 0, 0, 2)?;
    parcels.append(&mut again)?;
    let (answers, _ledger) = replay(rt.alloc(), 0, 1, 2, parcels)?;
    let wanted = [
        Answer::Accepted(1),
        Answer::Refused(Reason::Repeat),
        Answer::Accepted(1),
        Answer::Accepted(1),
    ];
    assert!(rt; answers.as_slice() == wanted.as_slice());
    Ok(())
}
