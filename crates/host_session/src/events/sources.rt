//! The sources of a run's events.
ghost use Rattle.std.specs.Prelude.{◌≡◌, Some, option_map};
ghost use Rattle.host_session.specs.events.Asking.{IsNext, Source, last_taken, of_events, of_script};
ghost use Rattle.host_session.specs.events.Events.{message_in};
ghost use Rattle.host_session.specs.events.Instants.{instant_of};
ghost use Rattle.line_text.specs.scripts.Resets.{Line, line_of};

use d64_image::Sectors;
use line_text::{Cut, Event, event_at, next_line};

/// The result of asking for the next event.
#[derive(Clone, Copy, Debug, PartialEq, Eq)]
pub enum Next {
    /// An event was taken.
    Event,
    /// None is left.
    End,
    /// The input failed.
    Failed,
}

/// A source of a run's events, one by one. Each is asked for with the disk that the one before it left.
pub trait EventSource<D: Sectors> {
    /// What is known of the messages that this source gives.
    ghost source: { Source Self };

    /// Takes the next event. `disk` is the disk as it is then.
    fn next(&mut self, disk: &D) -> Next
        ensures { IsNext source self.old self.new (instant_of D.history disk.now) result };

    /// The message of the event that was taken last.
    fn message(&self) -> &[u8]
        ensures { result.now ≡ (source.here self.now).bytes };

    /// The reset in it, if there is one.
    fn cut(&self) -> Option<&Cut>
        ensures { option_map (λ c. c.now.after) result ≡ (source.here self.now).cut_after };
}

/// The lines of a script, none of which is bad.
#[derive(Drop)]
pub struct ScriptEvents<'a> {
    left: &'a [u8],
    message: &'a [u8],
    cut: Option<Cut>,
}

/// A list of events.
#[derive(Drop)]
pub struct EventList<'a, 'b> {
    events: &'a [Event<'b>],
    /// How many were taken.
    taken: usize,
}

impl<'a> ScriptEvents<'a> {
    /// All lines of this script.
    pub fn new(script: &'a [u8]) -> ScriptEvents<'a>
        ensures { result.left.now ≡ script.now }
    {
        ScriptEvents {
            left: script,
            message: script,
            cut: None,
        }
    }
}

impl<'a, 'b> EventList<'a, 'b> {
    /// All of these events.
    pub fn new(events: &'a [Event<'b>]) -> EventList<'a, 'b>
        ensures events { result.events.now ≡ events.now }
        ensures none { result.taken ≡ 0 }
    {
        EventList { events, taken: 0 }
    }

    /// The event that was taken last.
    fn here(&self) -> Option<&Event<'b>>
        ensures { option_map (λ e. e.now) result ≡ last_taken self.now.taken self.now.events.now }
    {
        if self.taken == 0 {
            return None;
        }
        self.events.get(self.taken - 1)
    }
}

/// The event of a line that begins with @, which isn't bad.
// Out of line: for a line without a reset this isn't called.
#[inline(never)]
fn reset_of(line: &[u8]) -> (&[u8], Option<Cut>)
    ensures { (l : Line) → line_of line.now ≡ Some l
        → message_in l ≡ record { bytes = result.0.now; cut_after = option_map (λ c. c.after) result.1 } }
{
    match event_at(line) {
        Some(Event { message, cut }) => (message, cut),
        None => (line, None),
    }
}

impl<'a, D: Sectors> EventSource<D> for ScriptEvents<'a> {
    ghost source = { of_script };

    fn next(&mut self, _disk: &D) -> Next {
        let Some((line, more)) = next_line(self.left) else {
            return Next::End;
        };
        self.left = more;
        self.message = line;
        if let Some(b'@') = line.first() {
            let (message, cut) = reset_of(line);
            self.message = message;
            self.cut = cut;
        } else if self.cut.is_some() {
            self.cut = None;
        }
        Next::Event
    }

    fn message(&self) -> &[u8] {
        self.message
    }

    fn cut(&self) -> Option<&Cut> {
        self.cut.as_ref()
    }
}

impl<'a, 'b, D: Sectors> EventSource<D> for EventList<'a, 'b> {
    ghost source = { of_events };

    fn next(&mut self, _disk: &D) -> Next {
        if self.taken >= self.events.len() {
            return Next::End;
        }
        self.taken += 1;
        Next::Event
    }

    fn message(&self) -> &[u8] {
        match self.here() {
            Some(event) => event.message,
            None => &[],
        }
    }

    fn cut(&self) -> Option<&Cut> {
        match self.here() {
            Some(event) => event.cut.as_ref(),
            None => None,
        }
    }
}
