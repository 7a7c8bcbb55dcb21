//! How a session ends.

ghost use Rattle.std.specs.Prelude.{◌≡◌};
ghost use Rattle.bq_run_session.specs.Outcome.{session_code, session_status};

use bq_run::{ANSWERED, REFUSED, Status, WITH_FAULTS};

/// How a session ends whose queries were all read.
#[derive(Clone, Copy, Debug, PartialEq, Eq)]
pub enum SessionStatus {
    /// Each query was answered, and no file has a fault.
    Answered,
    /// Each query was answered, and a file has a fault.
    WithFaults,
    /// A query was refused; the others were answered.
    Refused,
}

/// Returns how a session ends whose workspace has this status.
pub(crate) fn session_status(status: Status, refused: bool) -> SessionStatus
    ensures { result ≡ session_status status refused }
{
    if refused {
        return SessionStatus::Refused;
    }
    match status {
        Status::Answered => SessionStatus::Answered,
        Status::WithFaults => SessionStatus::WithFaults,
    }
}

/// Returns the exit status of a session.
pub fn session_code(status: SessionStatus) -> u8
    ensures { result ≡ session_code status }
{
    match status {
        SessionStatus::Answered => ANSWERED,
        SessionStatus::WithFaults => WITH_FAULTS,
        SessionStatus::Refused => REFUSED,
    }
}
