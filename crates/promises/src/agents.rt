//! What holds of one agent's step, by the rules alone.
ghost use Rattle.promises.specs.Claims.{CountsUnread, OutdatedAnswered};

/// A Back of the agent's own value that does not hold is answered with an Info of that value.
pub fn outdated()
    ensures answered { OutdatedAnswered }
{}

/// No rule reads or changes a count: with other counts the step is the same.
pub fn counts()
    ensures unread { CountsUnread }
{}
