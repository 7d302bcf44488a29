// Reading the words of an event.
ghost use Rattle.std.specs.Prelude.{◌≡◌};
ghost use Rattle.ule_trace.specs.Parts.{taken, Takes};
ghost use Rattle.ule_trace.specs.EventForm.{thread_event_named, event_named, event_behind, event_form};

use crate::parts::Parts;
use ule_types::Event;

/// The name of an event.
#[derive(Clone, Copy)]
pub enum EventName {
    Tick,
    Switch,
    Drop,
    Bed,
    Wake,
    Look,
    Land,
    Move,
    Lend,
    Unlend,
    Renice,
    Hatch,
    Fork,
    Return,
    Exit,
    Bury,
    Inherit,
}

/// The name of an event whose first word is a thread.
fn thread_event_named(word: &[u8]) -> Option<EventName>
    ensures { result ≡ thread_event_named word.now }
{
    if word == b"bed".as_slice() {
        return Some(EventName::Bed);
    }
    if word == b"wake".as_slice() {
        return Some(EventName::Wake);
    }
    if word == b"land".as_slice() {
        return Some(EventName::Land);
    }
    if word == b"lend".as_slice() {
        return Some(EventName::Lend);
    }
    if word == b"unlend".as_slice() {
        return Some(EventName::Unlend);
    }
    if word == b"renice".as_slice() {
        return Some(EventName::Renice);
    }
    if word == b"hatch".as_slice() {
        return Some(EventName::Hatch);
    }
    if word == b"return".as_slice() {
        return Some(EventName::Return);
    }
    if word == b"bury".as_slice() {
        return Some(EventName::Bury);
    }
    if word == b"inherit".as_slice() {
        return Some(EventName::Inherit);
    }
    None
}

/// The name that a word is.
fn event_named(word: &[u8]) -> Option<EventName>
    ensures { result ≡ event_named word.now }
{
    if word == b"tick".as_slice() {
        return Some(EventName::Tick);
    }
    if word == b"switch".as_slice() {
        return Some(EventName::Switch);
    }
    if word == b"drop".as_slice() {
        return Some(EventName::Drop);
    }
    if word == b"look".as_slice() {
        return Some(EventName::Look);
    }
    if word == b"move".as_slice() {
        return Some(EventName::Move);
    }
    if word == b"fork".as_slice() {
        return Some(EventName::Fork);
    }
    if word == b"exit".as_slice() {
        return Some(EventName::Exit);
    }
    thread_event_named(word)
}

impl<'a> Parts<'a> {
    /// The words behind a name.
    fn event_behind(&mut self, name: EventName) -> Option<Event>
        ensures { Takes (event_behind name self.old) result self.new }
    {
        let event = match name {
            EventName::Tick => Event::Tick(self.cpu()?),
            EventName::Switch => Event::Switch(self.cpu()?, self.why()?),
            EventName::Drop => Event::Drop(self.cpu()?, self.channel()?),
            EventName::Bed => Event::Bed(self.thread()?, self.channel()?),
            EventName::Wake => Event::Wake(self.thread()?),
            EventName::Look => Event::Look(self.cpu()?),
            EventName::Land => Event::Land(self.thread()?, self.cpu()?),
            EventName::Move => Event::Move(self.cpu()?, self.cpu()?, self.move_why()?),
            EventName::Lend => Event::Lend(self.thread()?, self.priority()?),
            EventName::Unlend => Event::Unlend(self.thread()?),
            EventName::Renice => Event::Renice(self.thread()?, self.nice()?),
            EventName::Hatch => Event::Hatch(self.thread()?),
            EventName::Fork => Event::Fork(self.cpu()?, self.thread()?),
            EventName::Return => Event::Return(self.thread()?),
            EventName::Exit => Event::Exit(self.cpu()?),
            EventName::Bury => Event::Bury(self.thread()?),
            EventName::Inherit => Event::Inherit(self.thread()?, self.amount()?),
        };
        Some(event)
    }

    /// The words of an event.
    pub fn event(&mut self) -> Option<Event>
        ensures { Takes (event_form self.old) result self.new }
    {
        let name = event_named(self.next()?)?;
        self.event_behind(name)
    }
}
