//! Laws of sessions, proved for all inputs.

ghost use Rattle.pyc_session.specs.Session.{CommandsComeFirst};

/// What the first commands of a session wrote comes first in what the session writes, whatever comes after them.
pub fn commands_come_first()
    ensures { CommandsComeFirst }
{}
