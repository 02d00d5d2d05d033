//! Laws of lines and of what they say. Each is the contract of a function that does nothing.
ghost use Rattle.trace_text.specs.Given.{EventReadBack, EventsAreRight, GivenAreCut, GivenArePrintable, GivenAreRight, GivenPlacesAreWithin, GivenReadBack, LinesAreCut, LinesArePrintable, PlacesAreWithin, StatesItsSplit, StatesJustSplits};
ghost use Rattle.trace_text.specs.Live.{LiveAreRight, LivePlacesAreWithin, LiveReadBack, LiveSaysJust};

/// A law: what is written of an event that a line can say, behind a grant, is read back as that grant and that event, and
/// alone as the event, where sessions are live too if it is a session's or a declaration; a declaration only where no other
/// event has come.
pub fn given_lines_are_read_back()
    ensures given { GivenReadBack }
    ensures event { EventReadBack }
    ensures live { LiveReadBack }
{}

/// A law: what a line says, with a grant or without, is an event that a line can say. So it can be printed and read again.
pub fn read_events_are_right()
    ensures given { GivenAreRight }
    ensures event { EventsAreRight }
    ensures live { LiveAreRight }
{}

/// A law: where sessions are live a line says an event just where it says it in a trace, and it is a session's or a
/// declaration.
pub fn live_lines_say_what_trace_lines_say()
    ensures { LiveSaysJust }
{}

/// Laws: a line that says a grant and an event is the text of that grant, a space and a rest that says that event; and a
/// line states a grant just where it is so split.
pub fn given_lines_state_their_splits()
    ensures event { StatesItsSplit }
    ensures grant { StatesJustSplits }
{}

/// A law: the place of a bad word lies in its line, or at its end.
pub fn places_are_within_lines()
    ensures given { GivenPlacesAreWithin }
    ensures event { PlacesAreWithin }
    ensures live { LivePlacesAreWithin }
{}

/// Laws: what is written of an event that a line can say, with a grant or without, is of printable bytes; so it has no
/// newline, and a text of such lines is cut just where they were put together.
pub fn printed_events_are_lines()
    ensures given { GivenArePrintable }
    ensures event { LinesArePrintable }
    ensures given_cut { GivenAreCut }
    ensures event_cut { LinesAreCut }
{}
