//! Why a command has no answer.
ghost use Rattle.std.specs.Prelude.{◌≡◌};
ghost use Rattle.rel_session.specs.declared.unanswered.Unanswered.TheVariants.{NoMemory};

use node_command::HandlerError;
use std::alloc::AllocError;

/// Why a command has no answer of its own.
#[derive(Drop)]
pub enum Unanswered {
    /// The node refuses it. This is reported; of out of memory too, since nothing has changed then.
    Refused(HandlerError),
    /// Memory was refused to the text of its answer. The session ends then.
    NoMemory,
}

impl From<AllocError> for Unanswered {
    ghost from_gives = { λ _ e. e ≡ NoMemory };

    fn from(_: AllocError) -> Unanswered {
        Unanswered::NoMemory
    }
}
