//! The end of a flow, or of a sink, as a status.

ghost use Rattle.std.specs.Prelude.{◌≡◌};
ghost use Rattle.hpf_cmd.specs.Ended.{end_status, IsOfDeed};

use hpf_frame::InputError;
use hpf_status::Status;
use hpf_stream::Stop;

/// The status that tells how a flow ended.
pub(crate) fn ended(end: Result<(), Stop>) -> Status
    ensures is { result ≡ end_status end }
    ensures kinds { IsOfDeed result }
{
    match end {
        Ok(()) => Status::Ok,
        Err(Stop::Input(InputError::Refused { code, offset })) => Status::InputRefused {
            code,
            offset,
        },
        Err(Stop::Input(InputError::ReadFault)) => Status::ReadFault,
        Err(Stop::Output) => Status::WriteFault,
    }
}
