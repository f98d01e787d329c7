// Reading the Ringmaster and the troupes from a token of a text on.
ghost use Rattle.std.specs.Prelude.{ℕ, ◌≤◌, length, All, IfOk};
ghost use Rattle.circus_text.specs.Form.{longest_text};
ghost use Rattle.circus_text.specs.Token.{IsTokenIn};
ghost use Rattle.circus_troupe.specs.ReadAt.{Answers};

use crate::DeploymentText;
use crate::deployment_reading::deployment;
use circus_syntax::{Reader, Stop};
use circus_text::TokenList;
use circus_value::NoMemory;
use std::alloc::Global;

/// What was read at some tokens.
#[derive(Debug, Drop)]
pub struct ReadDeployment {
    /// The Ringmaster and the troupes. What a stop cut is filled in with the names `x`, the numbers 0 and the kind FIRST,
    /// whose places are that of the stop.
    pub deployment: DeploymentText,
    /// The number of the first token that wasn't read.
    pub next: usize,
    /// Where reading stopped, or `None` where all tokens were read. Its cause is `Unexpected`.
    pub stop: Option<Stop>,
}

/// Reads the Ringmaster and the troupes from the token `at` of a text up to its last one (docs/LANGUAGE.md,
/// "Deployments"). Reading stops at the first token with which no deployment goes on, or at the end of the text where the
/// tokens are none; what was read is there too. `NoMemory` is the only fault.
pub fn read_deployment_text(
    alloc: Global,
    text: &[u8],
    tokens: &TokenList,
    at: usize,
) -> Result<ReadDeployment, NoMemory>
    requires of_text { All (IsTokenIn text.now) tokens.now }
    requires inside { at ≤ length tokens.now }
    requires short { length text.now ≤ longest_text }
    ensures { IfOk result (λ read. Answers text.now tokens.now at read) }
{
    let mut reader = Reader::from_token(alloc, text, tokens, at);
    let deployment = deployment(&mut reader)?;
    Ok(ReadDeployment {
        deployment,
        next: tokens.len() - reader.tokens_left(),
        stop: reader.stop(),
    })
}
