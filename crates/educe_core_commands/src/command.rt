//! What a command is.
ghost use Rattle.std.specs.Prelude.{◌≡◌, ◌≢◌, ◌≤◌, length, string_bytes, IfOk, IfErr, IsCharBoundary};
ghost use Rattle.std.specs.Option.{option_map};
ghost use Rattle.educe_tokens.specs.Message.{HasWords};
ghost use Rattle.educe_core_commands.specs.Commands.{Meaning, IsGiven};

use educe_tokens::{EduceError, Kind};
use std::alloc::{AllocError, Global};

/// A command of the program. Its meaning says where its input comes from, what it writes for an
/// input, why it rejects one, and which are valid.
pub trait Command {
    ghost meaning: { Self → Meaning };

    /// The input, if the words have it. `None` means that it is read from the source.
    fn given(&self, alloc: Global) -> Result<Option<String>, AllocError>
        ensures { IfOk result (λ found. IsGiven (meaning self.now).origin (option_map string_bytes found)) };

    /// What is written for an input, or why it is rejected.
    fn output(&self, alloc: Global, input: &str) -> Result<String, EduceError>
        requires { length input.now ≤ 131_072 }
        ensures done { IfOk result (λ text. (meaning self.now).IsOutput input.now (string_bytes text)) }
        ensures cause { IfErr result ((meaning self.now).IsCause input.now) }
        // A valid input has an output, or memory fails; an input with a cause has none.
        ensures valid { (meaning self.now).IsValid input.now → IfErr result (λ e. e.kind ≡ Kind.Alloc) }
        ensures invalid { IfOk result (λ _. (e : EduceError) → e.kind ≢ Kind.Alloc →
            (meaning self.now).IsCause input.now e → ⊥) }
        // Its rejection can be shown.
        ensures words { IfErr result (λ e. HasWords e.kind e.words) }
        ensures placed { IfErr result (λ e. IsCharBoundary input.now e.span.start) };
}
