ghost use Rattle.std.specs.Prelude.{◌≡◌, ◌+◌, ◌≤◌, [], ◌∷◌, ◌++◌, length, map};
ghost use Rattle.std.specs.Fmt.{decimal};
ghost use Rattle.ule_plain.specs.Lines.{cpus_of_mask, group_words, form_words, cpu_words, thread_words, unborn_words, script_words, turns_words, setting_words};
ghost use Rattle.ule_plain.specs.Text.{setting_lines, opening_lines};
ghost use Rattle.ule_trace.specs.Line.{line_text, lines_text, optional_word, spaced};

use ule_prio::{Cpu, ThreadId};
use ule_score::Settings;
use ule_topo::{GroupLine, has_cpu};
use ule_trace::held::{CAPACITY, Held, LINE};
use ule_types::{Form, ThreadSpec};

// Appends the line of a setting.
fn spell_setting(held: &mut Held, name: &str, n: u64)
    requires short { length name.now ≤ 24 }
    requires room { length held.old + 60 ≤ CAPACITY }
    ensures text { held.new ≡ held.old ++ line_text (setting_words name.now n) }
    ensures growth { length held.new ≤ length held.old + 60 }
{
    held.text("set");
    held.keyword(name);
    held.spaced_number(n);
    held.byte(b'\n');
}

// Appends the lines of the settings.
fn spell_settings(held: &mut Held, s: &Settings)
    requires { length held.old + 240 ≤ CAPACITY }
    ensures text { held.new ≡ held.old ++ lines_text (setting_lines s.now) }
    ensures growth { length held.new ≤ length held.old + 240 }
{
    spell_setting(held, "interact", u64::from(s.interact));
    spell_setting(held, "slice", u64::from(s.slice));
    spell_setting(held, "preempt", u64::from(s.preempt));
    spell_setting(held, "steal", u64::from(s.steal));
}

// Appends the line of a keyword and a number.
fn spell_counted(held: &mut Held, name: &str, n: u64)
    requires short { length name.now ≤ 24 }
    requires room { length held.old + 60 ≤ CAPACITY }
    ensures text { held.new ≡ held.old ++ line_text (name.now ∷ decimal n ∷ []) }
    ensures growth { length held.new ≤ length held.old + 60 }
{
    held.text(name);
    held.spaced_number(n);
    held.byte(b'\n');
}

/// Appends the lines up to the number of CPUs.
pub fn spell_opening(held: &mut Held, settings: &Settings, jitter: u32, cpus: u8)
    requires { length held.old + LINE ≤ CAPACITY }
    ensures { held.new ≡ held.old ++ lines_text (opening_lines settings.now jitter cpus) }
{
    held.text("ule-scenario 1\n");
    spell_settings(held, settings);
    spell_counted(held, "jitter", u64::from(jitter));
    spell_counted(held, "cpus", u64::from(cpus));
}

// Appends a group's parent, behind a space.
fn spell_parent(held: &mut Held, parent: Option<u8>)
    requires { length held.old + 25 ≤ CAPACITY }
    ensures text { held.new ≡ held.old ++ 32 ∷ optional_word parent }
    ensures growth { length held.new ≤ length held.old + 25 }
{
    match parent {
        Some(id) => held.small(id),
        None => held.keyword("-"),
    }
}

// Appends the CPUs of a mask, each behind a space.
fn spell_cpus(held: &mut Held, mask: u16)
    requires { length held.old + 89 ≤ CAPACITY }
    ensures text { held.new ≡ held.old ++ spaced (map decimal (cpus_of_mask mask)) }
    ensures growth { length held.new ≤ length held.old + 64 }
{
    for c in 0..16u8 {
        if has_cpu(mask, Cpu(c)) {
            held.small(c);
        }
    }
}

/// Appends the line of a group.
pub fn spell_group(held: &mut Held, g: &GroupLine)
    requires { length held.old + LINE ≤ CAPACITY }
    ensures { held.new ≡ held.old ++ line_text (group_words g.now) }
{
    held.text("group");
    held.small(g.id);
    spell_parent(held, g.parent);
    spell_cpus(held, g.cpus);
    held.byte(b'\n');
}

// Appends a thread's class with its nice value or its base priority, each behind a space.
fn spell_form(held: &mut Held, form: Form)
    requires { length held.old + 50 ≤ CAPACITY }
    ensures text { held.new ≡ held.old ++ spaced (form_words form) }
    ensures growth { length held.new ≤ length held.old + 50 }
{
    match form {
        Form::Ts(n) => {
            held.keyword("ts");
            held.nice(n);
        }
        Form::Ithd(p) => held.named("ithd", p.0),
        Form::Rt(p) => held.named("rt", p.0),
        Form::Fifo(p) => held.named("fifo", p.0),
        Form::Idle(p) => held.named("idle", p.0),
    }
}

// Appends a thread's CPU, and whether it is bound to it.
fn spell_cpu(held: &mut Held, c: Cpu, bound: bool)
    requires { length held.old + 50 ≤ CAPACITY }
    ensures text { held.new ≡ held.old ++ spaced (cpu_words c bound) }
    ensures growth { length held.new ≤ length held.old + 50 }
{
    held.small(c.0);
    if bound {
        held.keyword("bound");
    }
}

/// Appends the line of a thread that is queued at the start.
pub fn spell_thread(held: &mut Held, t: &ThreadSpec)
    requires { length held.old + LINE ≤ CAPACITY }
    ensures { held.new ≡ held.old ++ line_text (thread_words t.now) }
{
    held.text("thread");
    held.small(t.id.0);
    spell_form(held, t.form);
    spell_cpu(held, t.cpu, t.bound);
    held.byte(b'\n');
}

/// Appends the line of a thread that is unborn at the start.
pub fn spell_unborn(held: &mut Held, t: ThreadId)
    requires { length held.old + LINE ≤ CAPACITY }
    ensures { held.new ≡ held.old ++ line_text (unborn_words t) }
{
    held.text("unborn");
    held.small(t.0);
    held.byte(b'\n');
}

/// Appends the line above a worker's commands.
pub fn spell_script(held: &mut Held, worker: u8)
    requires { length held.old + LINE ≤ CAPACITY }
    ensures { held.new ≡ held.old ++ line_text (script_words worker) }
{
    held.text("script");
    held.small(worker);
    held.byte(b'\n');
}

/// Appends a line of turns.
pub fn spell_turns(held: &mut Held, turns: &[u8])
    requires few { length turns.now ≤ 64 }
    requires room { length held.old + LINE ≤ CAPACITY }
    ensures { held.new ≡ held.old ++ line_text (turns_words turns.now) }
{
    held.text("turns");
    for w in turns {
        held.small(*w);
    }
    held.byte(b'\n');
}
