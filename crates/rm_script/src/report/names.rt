//! The words of a report.
ghost use Rattle.std.specs.Prelude.{◌≡◌};
ghost use Rattle.rm_script.specs.Report.Report.{reason_text, out_phase, in_phase, behaviour_text};

use crate::report::line::Reason;
use rm_base::Behaviour;
use rm_sides::destination::InPhase;
use rm_sides::source::OutPhase;

pub(crate) fn reason_name(reason: Reason) -> &'static [u8]
    ensures { result.now ≡ reason_text reason }
{
    match reason {
        Reason::UnknownSequence => b"UnknownSequence",
        Reason::WrongSide => b"WrongSide",
        Reason::PayloadTooLong => b"PayloadTooLong",
        Reason::BadPayload => b"BadPayload",
        Reason::NotOpen => b"NotOpen",
        Reason::WindowFull => b"WindowFull",
        Reason::NodeFull => b"NodeFull",
        Reason::Rollover => b"Rollover",
        Reason::TooManySequences => b"TooManySequences",
        Reason::StoreFull => b"StoreFull",
        Reason::PastInbox => b"PastInbox",
    }
}

pub(crate) fn out_phase_name(phase: OutPhase) -> &'static [u8]
    ensures { result.now ≡ out_phase phase }
{
    match phase {
        OutPhase::Creating => b"creating",
        OutPhase::Open => b"open",
        OutPhase::Closing => b"closing",
        OutPhase::Closed => b"closed",
        OutPhase::Ending => b"ending",
        OutPhase::Ended => b"ended",
        OutPhase::Failed => b"failed",
    }
}

pub(crate) fn in_phase_name(phase: InPhase) -> &'static [u8]
    ensures { result.now ≡ in_phase phase }
{
    match phase {
        InPhase::Open => b"open",
        InPhase::Closed => b"closed",
        InPhase::Ended => b"ended",
    }
}

pub(crate) fn behaviour_name(behaviour: Behaviour) -> &'static [u8]
    ensures { result.now ≡ behaviour_text behaviour }
{
    match behaviour {
        Behaviour::NoDiscard => b"loose",
        Behaviour::EntireSequence => b"des",
        Behaviour::FollowingFirstGap => b"dfg",
    }
}
