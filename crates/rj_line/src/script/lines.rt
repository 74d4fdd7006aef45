//! The lines of a script and the words of a line.

ghost use Rattle.std.specs.Prelude.{◌≡◌, ◌==◌, ◌<◌, ◌∷◌, [], length, IfSome, IfNone};
ghost use Rattle.std.specs.List.{slice_split};
ghost use Rattle.std.specs.Str.Lines.{lines, strip_carriage_return};

// What is before the first such byte and what follows it, if there is one.
pub(crate) fn split_once(rest: &[u8], byte: u8) -> Option<(&[u8], &[u8])>
    ensures cut { IfSome result (λ p. slice_split (λ b. b == byte) rest.now ≡ p.0.now ∷ slice_split (λ b. b == byte) p.1.now) }
    ensures shorter { IfSome result (λ p. length p.1.now < length rest.now) }
    ensures whole { IfNone result (slice_split (λ b. b == byte) rest.now ≡ rest.now ∷ []) }
{
    for at in 0..rest.len() {
        if rest[at] == byte {
            return Some((&rest[..at], &rest[at + 1..]));
        }
    }
    None
}

fn without_carriage_return(line: &[u8]) -> &[u8]
    ensures { result.now ≡ strip_carriage_return line.now }
{
    match line.split_last() {
        Some((last, before)) if *last == b'\r' => before,
        _ => line,
    }
}

// The first line, and what follows it.
pub(crate) fn first_line(rest: &[u8]) -> (&[u8], &[u8])
    requires { 0 < length rest.now }
    ensures lines { lines rest.now ≡ result.0.now ∷ lines result.1.now }
    ensures shorter { length result.1.now < length rest.now }
{
    match split_once(rest, b'\n') {
        Some((line, more)) => (without_carriage_return(line), more),
        None => (rest, &rest[rest.len()..]),
    }
}
