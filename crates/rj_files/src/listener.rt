//! Who is told why there is no output, and what is printed for it.

ghost use Rattle.std.specs.Prelude.{◌≡◌, ℕ, IfOk, IfSome, List, None, Option, option_map, string_bytes, ⊤};
ghost use Rattle.rj_line.specs.declared.fault.Fault.{Fault};
ghost use Rattle.rj_files.specs.Told.{told_text, without_side};

use rj_line::fault::Fault;
use std::alloc::{AllocError, Global};
use std::fmt::{self, Display};

/// What is told of an error: its own text, the name of its file behind it, if that is told, and the
/// lines that explain it.
#[derive(Drop)]
pub struct Told<'a, T> {
    pub(crate) reason: &'a T,
    pub(crate) file: Option<&'a str>,
    pub(crate) lines: &'a str,
}

impl<T: Display> Display for Told<'_, T> {
    ghost output = { λ t. told_text (T.output t.reason.now) (option_map (λ name. name.now) t.file) t.lines.now };

    fn fmt<W: fmt::Write>(&self, f: &mut fmt::Formatter<W>) -> fmt::Result {
        let (reason, lines) = (self.reason, self.lines);
        match self.file {
            Some(file) => write!(f, "{reason} {file}\n{lines}"),
            None => write!(f, "{reason}\n{lines}"),
        }
    }
}

/// Who is told why there is no output. For a program that is whoever reads standard error.
pub trait Listener {
    // It hears an error, with the file behind it that is told, and its lines.
    ghost hears: { Self → Fault → Option (List ℕ) → List ℕ → Self → Type 0 } = { λ _ _ _ _ _. ⊤ };

    // It hears an error of an only file, whose side isn't told, with its lines.
    ghost hears_alone: { Self → Fault → List ℕ → Self → Type 0 } = { λ _ _ _ _. ⊤ };

    /// Tells an error.
    fn hear(&mut self, told: &Told<'_, Fault>)
        ensures { hears self.old told.now.reason.now (option_map (λ name. name.now) told.now.file) told.now.lines.now self.new };

    /// Tells an error of an only file, without the side in its text. The file's name isn't told.
    fn hear_alone(&mut self, told: &Told<'_, Fault>)
        ensures { hears_alone self.old told.now.reason.now told.now.lines.now self.new };
}

impl<R: AllocGlobal + Eprint> Listener for &R {
    fn hear(&mut self, told: &Told<'_, Fault>) {
        print(*self, told);
    }

    fn hear_alone(&mut self, told: &Told<'_, Fault>) {
        print_alone(*self, told);
    }
}

// Prints on standard error what is told.
fn print<R: Eprint, T: Display>(rt: &R, told: &Told<'_, T>) {
    let _ = eprint!(rt; "{told}");
}

// The same without the first side in the error's own text, or with it if memory runs out.
fn print_alone<R: AllocGlobal + Eprint, T: Display>(rt: &R, told: &Told<'_, T>) {
    match line_alone(rt.alloc(), told.reason) {
        Ok(line) => print(rt, &told_alone(&line, told.lines)),
        Err(_) => print(rt, told),
    }
}

// The text of an error without its first side.
fn line_alone<T: Display>(alloc: Global, reason: &T) -> Result<String, AllocError>
    ensures { IfOk result (λ s. IfSome (T.output reason.now) (λ own. string_bytes s ≡ without_side own)) }
{
    let line = format!(in alloc; "{reason}")?;
    without_side(alloc, line.as_str())
}

// A text without its first ` left`.
fn without_side(alloc: Global, line: &str) -> Result<String, AllocError>
    ensures { IfOk result (λ s. string_bytes s ≡ without_side line.now) }
{
    line.replacen(alloc, " left", "", 1)
}

// What is printed of an error of the only file with this text of its own.
fn told_alone<'a>(line: &'a String, lines: &'a str) -> Told<'a, String>
    ensures line { result.reason.now ≡ line.entry.now }
    ensures file { option_map (λ name. name.now) result.file ≡ None }
    ensures lines { result.lines.now ≡ lines.entry.now }
{
    Told {
        reason: line,
        file: None,
        lines,
    }
}
