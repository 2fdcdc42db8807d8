// How a session begins, as the contract of a call that does nothing.
ghost use Rattle.client_lines.specs.Beginning.{NewSessionsAreInStep};

/// A new client begins in step with its world.
pub fn new_sessions_are_in_step()
    ensures { NewSessionsAreInStep }
{}
