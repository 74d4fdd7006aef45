//! How deep parentheses and NOTs are nested.

ghost use Rattle.std.specs.Prelude.{◌≡◌, ◌<◌, ◌≤◌, ◌+◌, ◌^◌, [], ◌∷◌, IfOk, OnOk, sum, length};
ghost use Rattle.rj_condition.specs.Nesting.{runs_after, depth, is_deep};

use crate::token::{Keyword, Sign, Token};
use std::alloc::{AllocError, Global};

const MOST: usize = 64;

/// Whether parentheses and NOTs are nested over 64 deep after some token.
///
/// # Errors
///
/// It fails only when memory runs out.
pub fn too_deep(alloc: Global, tokens: &[Token]) -> Result<bool, AllocError>
    ensures { IfOk result (λ yes. yes ≡ is_deep tokens.now) }
{
    let mut runs = Vec::new(alloc);
    runs.push(0)?;
    for token in tokens {
        step(&mut runs, token)?;
        if runs.len() - 1 + total(&runs) > MOST {
            return Ok(true);
        }
    }
    Ok(false)
}

fn total(runs: &[usize]) -> usize
    requires { sum runs.now < 2 ^ 64 }
    ensures { result ≡ sum runs.now }
{
    runs.iter().sum()
}

// The NOTs in a row after one more token, the innermost first.
fn step(runs: &mut Vec<usize>, token: &Token) -> Result<(), AllocError>
    requires some { 0 < length runs.old.items }
    requires low { length runs.old.items + sum runs.old.items ≤ 65 }
    ensures after { OnOk result (runs.new.items ≡ runs_after token.now runs.old.items) }
    ensures some { OnOk result (0 < length runs.new.items) }
    ensures low { OnOk result (length runs.new.items + sum runs.new.items ≤ 66) }
{
    match token {
        Token::Keyword(Keyword::Not) => runs[0] += 1,
        Token::Sign(Sign::Open) => runs.insert(0, 0)?,
        Token::Sign(Sign::Close) => {
            if runs.len() > 1 {
                runs.remove(0);
            }
            runs[0] = 0;
        }
        _ => runs[0] = 0,
    }
    Ok(())
}
