//! The arguments of a command line.
ghost use Rattle.std.specs.Prelude.{◌≡◌, IfErr, IfOk};
ghost use Rattle.command_line.specs.Line.{Asked, IsAsked, IsWithinLimits, asked_of, texts};
ghost use Rattle.command_line.specs.declared.fault.WordsFault.TheVariants.{NoLine};

use command_line::{Request, WordsFault, read_words};
use std::alloc::Global;

/// What the arguments of a command line ask for, where they are a line.
pub fn read_line(alloc: Global, words: &[String]) -> Result<Request<'_>, WordsFault>
    ensures ok { IfOk result (λ r. IsAsked (texts words.now) (asked_of r)) }
    ensures none { IfErr result (λ e. e ≡ NoLine → (asked : Asked) →
        IsAsked (texts words.now) asked → ⊥) }
    ensures only { (asked : Asked) → IsAsked (texts words.now) asked →
        IfOk result (λ r. asked_of r ≡ asked) }
    ensures within { IfOk result (λ r. IsWithinLimits (asked_of r)) }
{
    read_words(alloc, words)
}
