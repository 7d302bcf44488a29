// Reading the word of a place.
ghost use Rattle.std.specs.Prelude.{◌≡◌, ℕ, List};
ghost use Rattle.ule_trace.specs.Parts.{parts_at, taken, Takes, whole, form3, form4};
ghost use Rattle.ule_trace.specs.PlaceForm.{queued, queued_at_end, bare_place, other_place, place, final_place};

use crate::field::{channel, cpu, number};
use crate::parts::Parts;
use ule_score::Place;

/// A place at the end, with a queued thread's position in its bucket, and 0 of another thread.
#[derive(Clone, Copy)]
pub struct Standing {
    pub place: Place,
    pub position: u8,
}

/// A queue's place, by the parts of its word.
fn queued(mut parts: Parts<'_>) -> Option<Place>
    ensures { result ≡ queued parts.entry }
{
    let place = Place::Queued {
        cpu: parts.cpu()?,
        kind: parts.kind()?,
        bucket: parts.bucket()?,
    };
    if parts.is_at_end() { Some(place) } else { None }
}

/// A queue's place at the end, by the parts of its word.
fn queued_at_end(mut parts: Parts<'_>) -> Option<Standing>
    ensures { result ≡ queued_at_end parts.entry }
{
    let place = Place::Queued {
        cpu: parts.cpu()?,
        kind: parts.kind()?,
        bucket: parts.bucket()?,
    };
    let position = parts.number(255)? as u8;
    if parts.is_at_end() {
        Some(Standing { place, position })
    } else {
        None
    }
}

/// A place without a number, by its letter and what follows.
fn bare_place(letter: u8, rest: &[u8]) -> Option<Place>
    ensures { result ≡ bare_place letter rest.now }
{
    if !rest.is_empty() {
        return None;
    }
    if letter == b'u' {
        return Some(Place::Unborn);
    }
    if letter == b'g' {
        Some(Place::Gone)
    } else {
        None
    }
}

/// A place outside the queues, by its letter and what follows.
fn other_place(letter: u8, rest: &[u8]) -> Option<Place>
    ensures { result ≡ other_place letter rest.now }
{
    if letter == b'r' {
        let c = cpu(rest)?;
        return Some(Place::Running(c));
    }
    if letter == b's' {
        let k = channel(rest)?;
        return Some(Place::Asleep(k));
    }
    if letter == b'h' {
        let w = number(rest, 15)?;
        return Some(Place::Hand(w as u8));
    }
    bare_place(letter, rest)
}

/// The place that a word spells.
fn place(word: &[u8]) -> Option<Place>
    ensures { result ≡ place word.now }
{
    if word.is_empty() {
        return None;
    }
    let letter = word[0];
    let rest = word.split_at(1).1;
    if letter == b'q' {
        queued(Parts::of(rest, b'.'))
    } else {
        other_place(letter, rest)
    }
}

/// The place at the end that a word spells.
fn final_place(word: &[u8]) -> Option<Standing>
    ensures { result ≡ final_place word.now }
{
    if word.is_empty() {
        return None;
    }
    let letter = word[0];
    let rest = word.split_at(1).1;
    if letter == b'q' {
        return queued_at_end(Parts::of(rest, b'.'));
    }
    let place = other_place(letter, rest)?;
    Some(Standing { place, position: 0 })
}

impl<'a> Parts<'a> {
    /// The next part as a place.
    pub fn place(&mut self) -> Option<Place>
        ensures { Takes (taken place self.old) result self.new }
    {
        place(self.next()?)
    }

    /// As a place at the end.
    pub fn final_place(&mut self) -> Option<Standing>
        ensures { Takes (taken final_place self.old) result self.new }
    {
        final_place(self.next()?)
    }
}
