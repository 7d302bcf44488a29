// Reading the words of a reply.
ghost use Rattle.std.specs.Prelude.{◌≡◌};
ghost use Rattle.ule_trace.specs.Parts.{taken, Takes};
ghost use Rattle.ule_trace.specs.ReplyForm.{thread_reply_named, reply_named, reply_behind, reply_form};

use crate::parts::Parts;
use ule_types::Reply;

/// The name of a reply.
#[derive(Clone, Copy)]
pub enum ReplyName {
    Ticked,
    Unmarked,
    Nothing,
    Switched,
    Dropped,
    Bedded,
    NotAsleep,
    Woken,
    Seen,
    Landed,
    Moved,
    NoneMovable,
    Changed,
    NotAllowed,
    Hatched,
    Forked,
    Returned,
    Exited,
    Buried,
    ParentGone,
}

/// The name of a reply to an event whose first word is a thread.
fn thread_reply_named(word: &[u8]) -> Option<ReplyName>
    ensures { result ≡ thread_reply_named word.now }
{
    if word == b"bedded".as_slice() {
        return Some(ReplyName::Bedded);
    }
    if word == b"notasleep".as_slice() {
        return Some(ReplyName::NotAsleep);
    }
    if word == b"woken".as_slice() {
        return Some(ReplyName::Woken);
    }
    if word == b"landed".as_slice() {
        return Some(ReplyName::Landed);
    }
    if word == b"changed".as_slice() {
        return Some(ReplyName::Changed);
    }
    if word == b"notallowed".as_slice() {
        return Some(ReplyName::NotAllowed);
    }
    if word == b"hatched".as_slice() {
        return Some(ReplyName::Hatched);
    }
    if word == b"returned".as_slice() {
        return Some(ReplyName::Returned);
    }
    if word == b"buried".as_slice() {
        return Some(ReplyName::Buried);
    }
    if word == b"parentgone".as_slice() {
        return Some(ReplyName::ParentGone);
    }
    None
}

/// The name that a word is.
fn reply_named(word: &[u8]) -> Option<ReplyName>
    ensures { result ≡ reply_named word.now }
{
    if word == b"ticked".as_slice() {
        return Some(ReplyName::Ticked);
    }
    if word == b"unmarked".as_slice() {
        return Some(ReplyName::Unmarked);
    }
    if word == b"nothing".as_slice() {
        return Some(ReplyName::Nothing);
    }
    if word == b"switched".as_slice() {
        return Some(ReplyName::Switched);
    }
    if word == b"dropped".as_slice() {
        return Some(ReplyName::Dropped);
    }
    if word == b"seen".as_slice() {
        return Some(ReplyName::Seen);
    }
    if word == b"moved".as_slice() {
        return Some(ReplyName::Moved);
    }
    if word == b"nonemovable".as_slice() {
        return Some(ReplyName::NoneMovable);
    }
    if word == b"forked".as_slice() {
        return Some(ReplyName::Forked);
    }
    if word == b"exited".as_slice() {
        return Some(ReplyName::Exited);
    }
    thread_reply_named(word)
}

impl<'a> Parts<'a> {
    /// The words behind a name.
    fn reply_behind(&mut self, name: ReplyName) -> Option<Reply>
        ensures { Takes (reply_behind name self.old) result self.new }
    {
        let reply = match name {
            ReplyName::Ticked => Reply::Ticked(self.maybe_thread()?, self.flag()?, self.flag()?),
            ReplyName::Unmarked => Reply::Unmarked,
            ReplyName::Nothing => Reply::Nothing,
            ReplyName::Switched => Reply::Switched(
                self.maybe_thread()?,
                self.maybe_thread()?,
                self.flag()?,
            ),
            ReplyName::Dropped => Reply::Dropped(self.thread()?, self.maybe_thread()?),
            ReplyName::Bedded => Reply::Bedded,
            ReplyName::NotAsleep => Reply::NotAsleep(self.place()?),
            ReplyName::Woken => Reply::Woken(
                self.priority()?,
                self.maybe_cpu()?,
                self.cpu()?,
                self.amount()?,
            ),
            ReplyName::Seen => Reply::Seen(self.amount()?, self.amount()?, self.priority()?),
            ReplyName::Landed => Reply::Landed(self.kind()?, self.bucket()?, self.flag()?),
            ReplyName::Moved => Reply::Moved(
                self.thread()?,
                self.kind()?,
                self.bucket()?,
                self.flag()?,
            ),
            ReplyName::NoneMovable => Reply::NoneMovable(
                self.amount()?,
                self.amount()?,
                self.amount()?,
            ),
            ReplyName::Changed => Reply::Changed(self.priority()?, self.flag()?, self.flag()?),
            ReplyName::NotAllowed => Reply::NotAllowed(self.place()?),
            ReplyName::Hatched => Reply::Hatched,
            ReplyName::Forked => Reply::Forked(self.thread()?, self.priority()?),
            ReplyName::Returned => Reply::Returned,
            ReplyName::Exited => Reply::Exited(
                self.thread()?,
                self.maybe_thread()?,
                self.maybe_thread()?,
                self.amount()?,
            ),
            ReplyName::Buried => Reply::Buried,
            ReplyName::ParentGone => Reply::ParentGone,
        };
        Some(reply)
    }

    /// The words of a reply.
    pub fn reply(&mut self) -> Option<Reply>
        ensures { Takes (reply_form self.old) result self.new }
    {
        let name = reply_named(self.next()?)?;
        self.reply_behind(name)
    }
}
