//! The words of a refusal.

ghost use Rattle.std.specs.Prelude.{◌≡◌};
ghost use Rattle.session_core.specs.SessionText.{error_text};

use crate::errors::SessionError;
use clause_core::ReplayWhy;

/// The words for the reason why a command isn't carried out.
pub fn reason(why: SessionError) -> &'static [u8]
    ensures { result.now ≡ error_text why }
{
    match why {
        SessionError::GoalUnderWork => b"goal under work",
        SessionError::UnknownGoal => b"unknown goal",
        SessionError::GoalTwice => b"goal twice",
        SessionError::NoGoal => b"no goal",
        SessionError::Step(why) => reply_lines::reason(ReplayWhy::Step(why)),
        SessionError::NotSmaller => b"not smaller",
        SessionError::Limit => b"limit",
        SessionError::OutOfMemory => b"out of memory",
    }
}
