//! The stack of the program.

/// The bytes of a page of the stack.
const PAGE: usize = 4096;

/// The pages of the stack that are taken: as many as a run with 64 workers needs, and some more.
pub(crate) const PAGES: usize = 150;

// How many pages begin with the mark.
#[inline(never)]
fn count_marked(bytes: &[u8], mark: u8) -> usize {
    bytes
        .iter()
        .step_by(PAGE)
        .filter(|byte| **byte == mark)
        .count()
}

/// Takes these pages of the stack, and returns how many of them hold the mark: all. The system
/// gives a program a further page of the stack when it is first used. Where memory is limited
/// (`ulimit -v`) it may refuse one, and ends the program by a signal then. A page that was used
/// stays. So they are used before memory is short, and the function isn't inlined, so that they are
/// free again for the calls that follow.
#[inline(never)]
pub(crate) fn take_stack(mark: u8) -> usize {
    let mut bytes = [0u8; PAGES * PAGE];
    for page in 0..PAGES {
        bytes[page * PAGE] = mark;
    }
    count_marked(&bytes, mark)
}
