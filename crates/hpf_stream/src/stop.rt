//! Why a flow stopped before its end.

ghost use Rattle.std.specs.Prelude.{◌≡◌};
ghost use Rattle.hpf_stream.specs.declared.stop.Stop.TheVariants.{Input, Output};

use hpf_frame::InputError;
use hpf_io::Failed;

/// Why a flow stopped before its end.
#[derive(Clone, Copy, Debug, PartialEq, Eq)]
pub enum Stop {
    /// The input was refused, or the source failed.
    Input(InputError),
    /// A sink failed: the one for what is given, or the one for notes.
    Output,
}

impl From<InputError> for Stop {
    ghost from_gives = { λ e stop. stop ≡ Input e };

    fn from(e: InputError) -> Stop {
        Stop::Input(e)
    }
}

impl From<Failed> for Stop {
    ghost from_gives = { λ _ stop. stop ≡ Output };

    fn from(_failed: Failed) -> Stop {
        Stop::Output
    }
}
