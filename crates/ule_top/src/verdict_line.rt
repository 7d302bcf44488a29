// The line of a verdict on a trace.
ghost use Rattle.std.specs.Fmt.{decimal};
ghost use Rattle.std.specs.Prelude.{◌≡◌, ◌≤◌, ◌∷◌, ◌++◌, [], length};
ghost use Rattle.ule_io.specs.Sink.{WroteWhole};
ghost use Rattle.ule_top.specs.VerdictLine.{bad_text, fault_front, fault_text, found_text, verdict_text};
ghost use Rattle.ule_trace.specs.EventText.{event_text};
ghost use Rattle.ule_trace.specs.Line.{joined, line_text};
ghost use Rattle.ule_trace.specs.ReplyText.{reply_text};

use ule_check::{Fault, FinalName, Verdict};
use ule_io::{Sink, WriteFault, write_all};
use ule_text::LineText;
use ule_trace::{write_event, write_reply};
use ule_types::{Event, Reply};

/// The first words of the line of a fault, up to the one that names the fault.
fn front_of(k: u32, name: &str) -> LineText
    requires { length name.now ≤ 10 }
    ensures text { result ≡ joined (fault_front k name.now) }
    ensures short { length result ≤ 50 }
{
    let mut text = LineText::none();
    text.text("illegal ");
    text.number(u64::from(k));
    text.byte(b' ');
    text.text(name);
    text
}

/// Writes the line of a fault of one word.
fn write_word<K: Sink>(k: u32, name: &str, out: &mut K) -> Result<(), WriteFault>
    requires { length name.now ≤ 10 }
    ensures { WroteWhole (K.state out.old) (K.state out.new) (line_text (fault_front k name.now)) result }
{
    let mut text = front_of(k, name);
    text.byte(b'\n');
    write_all(out, text.as_slice())
}

/// Writes the line of a fault of a word and a number.
fn write_number<K: Sink>(k: u32, name: &str, n: u8, out: &mut K) -> Result<(), WriteFault>
    requires { length name.now ≤ 10 }
    ensures { WroteWhole (K.state out.old) (K.state out.new) (line_text (fault_front k name.now ++ decimal n ∷ [])) result }
{
    let mut text = front_of(k, name);
    text.byte(b' ');
    text.number(u64::from(n));
    text.byte(b'\n');
    write_all(out, text.as_slice())
}

/// The first words of the line of a fault, up to the one that names the fault, and a space.
fn spaced_front(k: u32, name: &str) -> LineText
    requires { length name.now ≤ 10 }
    ensures { result ≡ joined (fault_front k name.now) ++ 32 ∷ [] }
{
    let mut text = front_of(k, name);
    text.byte(b' ');
    text
}

/// Writes the text of an event and the end of its line.
fn end_event<K: Sink>(event: &Event, out: &mut K) -> Result<(), WriteFault>
    ensures { WroteWhole (K.state out.old) (K.state out.new) (event_text event.now ++ 10 ∷ []) result }
{
    match write_event(event, out) {
        Ok(()) => write_all(out, b"\n"),
        Err(fault) => Err(fault),
    }
}

/// Writes the line of an event that was expected.
fn write_expected<K: Sink>(k: u32, event: &Event, out: &mut K) -> Result<(), WriteFault>
    ensures { WroteWhole (K.state out.old) (K.state out.new) (fault_text k (Fault.Event event.now)) result }
{
    let text = spaced_front(k, "event");
    match write_all(out, text.as_slice()) {
        Ok(()) => end_event(event, out),
        Err(fault) => Err(fault),
    }
}

/// Writes the text of a reply and the end of its line.
fn end_reply<K: Sink>(reply: &Reply, out: &mut K) -> Result<(), WriteFault>
    ensures { WroteWhole (K.state out.old) (K.state out.new) (reply_text reply.now ++ 10 ∷ []) result }
{
    match write_reply(reply, out) {
        Ok(()) => write_all(out, b"\n"),
        Err(fault) => Err(fault),
    }
}

/// Writes a bar, and the reply that was found behind it.
fn write_found<K: Sink>(found: &Reply, out: &mut K) -> Result<(), WriteFault>
    ensures { WroteWhole (K.state out.old) (K.state out.new) (found_text found.now) result }
{
    match write_all(out, b" | ") {
        Ok(()) => end_reply(found, out),
        Err(fault) => Err(fault),
    }
}

/// Writes the reply that was expected, and the one that was found.
fn write_pair<K: Sink>(expected: &Reply, found: &Reply, out: &mut K) -> Result<(), WriteFault>
    ensures { WroteWhole (K.state out.old) (K.state out.new) (reply_text expected.now ++ found_text found.now) result }
{
    match write_reply(expected, out) {
        Ok(()) => write_found(found, out),
        Err(fault) => Err(fault),
    }
}

/// Writes the line of a reply that was expected, and of the one that was found.
fn write_replies<K: Sink>(
    k: u32,
    expected: &Reply,
    found: &Reply,
    out: &mut K,
) -> Result<(), WriteFault>
    ensures { WroteWhole (K.state out.old) (K.state out.new) (fault_text k (Fault.Reply expected.now found.now)) result }
{
    let text = spaced_front(k, "reply");
    match write_all(out, text.as_slice()) {
        Ok(()) => write_pair(expected, found, out),
        Err(fault) => Err(fault),
    }
}

/// Writes the line of a final line that differs.
fn write_final<K: Sink>(k: u32, name: FinalName, out: &mut K) -> Result<(), WriteFault>
    ensures { WroteWhole (K.state out.old) (K.state out.new) (fault_text k (Fault.Final name)) result }
{
    let mut text = front_of(k, "final");
    match name {
        FinalName::Thread(t) => {
            text.text(" t ");
            text.number(u64::from(t.0));
        }
        FinalName::Cpu(c) => {
            text.text(" c ");
            text.number(u64::from(c.0));
        }
        FinalName::Now => text.text(" now"),
    }
    text.byte(b'\n');
    write_all(out, text.as_slice())
}

/// Writes the line of a fault of entry k.
fn write_fault<K: Sink>(k: u32, why: Fault, out: &mut K) -> Result<(), WriteFault>
    ensures { WroteWhole (K.state out.old) (K.state out.new) (fault_text k why) result }
{
    match why {
        Fault::Worker => write_word(k, "worker", out),
        Fault::Event(event) => write_expected(k, &event, out),
        Fault::Hand(w) => write_number(k, "hand", w, out),
        Fault::Now => write_word(k, "now", out),
        Fault::Reply(expected, found) => write_replies(k, &expected, &found, out),
        Fault::Missing(w) => write_number(k, "missing", w, out),
        Fault::Final(name) => write_final(k, name, out),
    }
}

/// Writes the line of a word and a number.
fn write_count<K: Sink>(name: &str, n: u32, out: &mut K) -> Result<(), WriteFault>
    requires { length name.now ≤ 10 }
    ensures { WroteWhole (K.state out.old) (K.state out.new) (line_text (name.now ∷ decimal n ∷ [])) result }
{
    let mut text = LineText::none();
    text.text(name);
    text.byte(b' ');
    text.number(u64::from(n));
    text.byte(b'\n');
    write_all(out, text.as_slice())
}

/// Writes the line of a verdict on a trace with so many entries: `legal COUNT`, or `illegal K` with
/// the words of the fault. Nothing is flushed.
pub fn write_verdict<K: Sink>(count: u32, verdict: &Verdict, out: &mut K) -> Result<(), WriteFault>
    ensures { WroteWhole (K.state out.old) (K.state out.new) (verdict_text count verdict.now) result }
{
    match *verdict {
        Verdict::Legal => write_count("legal", count, out),
        Verdict::Illegal { entry, why } => write_fault(entry, why, out),
    }
}

/// Writes the line of a text that is no trace, `bad LINE`. Nothing is flushed.
pub fn write_bad<K: Sink>(line: u32, out: &mut K) -> Result<(), WriteFault>
    ensures { WroteWhole (K.state out.old) (K.state out.new) (bad_text line) result }
{
    write_count("bad", line, out)
}
