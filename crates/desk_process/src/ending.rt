ghost use Rattle.std.specs.Prelude.{◌≡◌};
ghost use Rattle.std.specs.Process.{exit_status};
ghost use Rattle.desk_process.specs.Running.{exit_number};

use dep_model::OutOfMemory;
use desk_responses::Status;
use std::process::ExitCode;

/// What the program ends with after a call that ended so.
pub fn exit_code(ended: Result<Status, OutOfMemory>) -> ExitCode
    ensures number { exit_status result ≡ exit_number ended }
{
    let number = match ended {
        Ok(Status::Yes) => 0,
        Ok(Status::No) => 1,
        Ok(Status::Refused) => 2,
        Ok(Status::CannotRead) => 3,
        Ok(Status::CannotWrite) => 4,
        Ok(Status::DestinationFailed) => 5,
        Err(OutOfMemory) => 6,
    };
    ExitCode::from(number)
}
