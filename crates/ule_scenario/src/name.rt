ghost use Rattle.std.specs.Prelude.{◌≡◌};
ghost use Rattle.ule_scenario.specs.Names.{any_name, command_name, inner_name};

use crate::same::is_text;

/// A word of the grammar, or another one.
#[derive(Clone, Copy, PartialEq, Eq)]
pub enum Name {
    Other,
    Header,
    Set,
    Jitter,
    Cpus,
    Group,
    Thread,
    Unborn,
    Script,
    Weave,
    Turns,
    End,
    Tick,
    Time,
    Yield,
    Resched,
    Sleep,
    Wake,
    Lend,
    Unlend,
    Renice,
    Fork,
    Exit,
    Idle,
    Balance,
    Look,
    Ts,
    Ithd,
    Rt,
    Fifo,
    Bound,
    Dash,
    Interact,
    Slice,
    Preempt,
    Steal,
}

/// The name of a word that stands behind a first one.
fn inner_name(word: &[u8]) -> Name
    ensures { result ≡ inner_name word.now }
{
    if is_text(word, b"ts") {
        return Name::Ts;
    }
    if is_text(word, b"ithd") {
        return Name::Ithd;
    }
    if is_text(word, b"rt") {
        return Name::Rt;
    }
    if is_text(word, b"fifo") {
        return Name::Fifo;
    }
    if is_text(word, b"bound") {
        return Name::Bound;
    }
    if is_text(word, b"-") {
        return Name::Dash;
    }
    if is_text(word, b"interact") {
        return Name::Interact;
    }
    if is_text(word, b"slice") {
        return Name::Slice;
    }
    if is_text(word, b"preempt") {
        return Name::Preempt;
    }
    if is_text(word, b"steal") {
        return Name::Steal;
    }
    Name::Other
}

/// The name of a word of a command, or of one that stands behind a first one.
fn command_name(word: &[u8]) -> Name
    ensures { result ≡ command_name word.now }
{
    if is_text(word, b"tick") {
        return Name::Tick;
    }
    if is_text(word, b"time") {
        return Name::Time;
    }
    if is_text(word, b"yield") {
        return Name::Yield;
    }
    if is_text(word, b"resched") {
        return Name::Resched;
    }
    if is_text(word, b"sleep") {
        return Name::Sleep;
    }
    if is_text(word, b"wake") {
        return Name::Wake;
    }
    if is_text(word, b"lend") {
        return Name::Lend;
    }
    if is_text(word, b"unlend") {
        return Name::Unlend;
    }
    if is_text(word, b"renice") {
        return Name::Renice;
    }
    if is_text(word, b"fork") {
        return Name::Fork;
    }
    if is_text(word, b"exit") {
        return Name::Exit;
    }
    if is_text(word, b"idle") {
        return Name::Idle;
    }
    if is_text(word, b"balance") {
        return Name::Balance;
    }
    if is_text(word, b"look") {
        return Name::Look;
    }
    inner_name(word)
}

/// The name that a word is.
pub(crate) fn any_name(word: &[u8]) -> Name
    ensures { result ≡ any_name word.now }
{
    if is_text(word, b"ule-scenario") {
        return Name::Header;
    }
    if is_text(word, b"set") {
        return Name::Set;
    }
    if is_text(word, b"jitter") {
        return Name::Jitter;
    }
    if is_text(word, b"cpus") {
        return Name::Cpus;
    }
    if is_text(word, b"group") {
        return Name::Group;
    }
    if is_text(word, b"thread") {
        return Name::Thread;
    }
    if is_text(word, b"unborn") {
        return Name::Unborn;
    }
    if is_text(word, b"script") {
        return Name::Script;
    }
    if is_text(word, b"weave") {
        return Name::Weave;
    }
    if is_text(word, b"turns") {
        return Name::Turns;
    }
    if is_text(word, b"end") {
        return Name::End;
    }
    command_name(word)
}
