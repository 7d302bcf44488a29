// What a line gives that nothing refuses.
ghost use Rattle.std.specs.Prelude.{◌≡◌, ◌<◌, ℕ, max, Option, None, List, [], OnOk, unwrap_or};
ghost use Rattle.ule_types.specs.declared.setup.Form.{Form};
ghost use Rattle.ule_scenario.specs.WordsKept.{seen};
ghost use Rattle.ule_scenario.specs.Given.{spec_of};
ghost use Rattle.ule_scenario.specs.declared.token.Token.{Token};
ghost use Rattle.ule_scenario.specs.Forms.{name, word, number, first_fault, number_faults, setting_fault, class_fault, parent_fault};
ghost use Rattle.ule_scenario.specs.Effects.{form_in, spec_in, with_setting, with_line, with_command, command_in, parent_in, group_in_line};
ghost use Rattle.ule_scenario.specs.Reading.{last_worker};

use crate::command::command_in;
use crate::draft::{Draft, Given};
use crate::name::Name;
use crate::number::{byte, cpu, id, nice, priority, word};
use crate::rows::setting_place;
use crate::token::Token;
use crate::words::Words;
use ule_io::Memory;
use ule_score::Settings;
use ule_topo::GroupLine;
use ule_types::Form;

/// The settings with one more that is given.
fn with_setting(settings: Settings, name: Name, t: &Token) -> Settings
    ensures { setting_fault name t.now ≡ None → result ≡ with_setting settings name (unwrap_or (number t.now) 0) }
{
    match name {
        Name::Interact => Settings {
            interact: byte(t, 100),
            ..settings
        },
        Name::Slice => Settings {
            slice: word(t, 1000) as u16,
            ..settings
        },
        Name::Preempt => Settings {
            preempt: byte(t, 255),
            ..settings
        },
        Name::Steal => Settings {
            steal: byte(t, 64),
            ..settings
        },
        _ => settings,
    }
}

/// The form of a thread by its class.
fn form_in(class: Name, t: &Token) -> Form
    ensures { (line : List Token) → t.now ≡ word line 3 → class_fault class t.now ≡ None → result ≡ form_in line class }
{
    match class {
        Name::Ithd => Form::Ithd(priority(t)),
        Name::Rt => Form::Rt(priority(t)),
        Name::Fifo => Form::Fifo(priority(t)),
        Name::Idle => Form::Idle(priority(t)),
        _ => Form::Ts(nice(t)),
    }
}

/// The thread that a line declares.
#[tactic(auto, using(crate::proofs::Faults::first_of_more, crate::proofs::Faults::second_of_more, crate::proofs::Faults::third_of_three))]
fn given_in(words: &Words) -> Given
    ensures { (line : List Token) → words.now ≡ seen line → first_fault (number_faults line Name.Thread) ≡ None → spec_of result ≡ spec_in line }
{
    let id = id(&words.word(1));
    let form = form_in(words.word(2).name, &words.word(3));
    let cpu = cpu(&words.word(4));
    let bound = words.has(5);
    Given {
        id,
        form,
        cpu,
        bound,
    }
}

/// The parent that a word names.
#[tactic(auto, using(crate::proofs::Faults::number_within))]
fn parent_in(t: &Token) -> Option<u8>
    ensures { parent_fault t.now ≡ None → result ≡ parent_in t.now }
{
    if t.is_dash() {
        return None;
    }
    match t.number() {
        Some(n) => Some(n.min(14) as u8),
        None => None,
    }
}

/// The group of a line.
#[tactic(auto, using(crate::proofs::Faults::first_of_more, crate::proofs::Faults::second_of_more, crate::proofs::Faults::rest_of_more))]
pub(crate) fn group_in(words: &Words) -> GroupLine
    ensures { (line : List Token) → words.now ≡ seen line → first_fault (number_faults line Name.Group) ≡ None → result ≡ group_in_line line }
{
    let id = byte(&words.word(1), 14);
    let parent = parent_in(&words.word(2));
    let cpus = words.cpus.bits();
    GroupLine { id, parent, cpus }
}

impl Draft {
    /// Takes a line whose numbers are in their ranges.
    pub fn accept(&mut self, words: &Words, first: Name) -> Result<(), Memory>
        ensures { (line : List Token) → words.now ≡ seen line → first_fault (number_faults line first) ≡ None → OnOk result (self.new ≡ with_line self.old line first) }
    {
        let one = words.word(1);
        match first {
            Name::Header => {
                self.go_on(1);
                Ok(())
            }
            Name::Set => {
                let settings = with_setting(self.settings, words.word(1).name, &words.word(2));
                self.give_settings(settings, setting_place(words.word(1).name));
                Ok(())
            }
            Name::Jitter => {
                self.give_jitter(word(&one, 4_294_967_295));
                Ok(())
            }
            Name::Cpus => self.give_cpus(byte(&one, 16)),
            Name::Group => self.declare_group(group_in(words)),
            Name::Thread => self.declare(given_in(words)),
            Name::Unborn => self.declare_unborn(id(&one)),
            Name::Script => {
                self.begin_script(cpu(&one));
                Ok(())
            }
            Name::Weave => {
                self.go_on(8);
                Ok(())
            }
            Name::Turns => self.append_turns(words),
            Name::End => {
                self.go_on(9);
                Ok(())
            }
            _ => self.accept_command(words, first),
        }
    }

    /// Takes a line of a command.
    fn accept_command(&mut self, words: &Words, first: Name) -> Result<(), Memory>
        ensures { (line : List Token) → words.now ≡ seen line → first_fault (number_faults line first) ≡ None
            → OnOk result (self.new ≡ record self.old { place = max self.old.place 7; scripts = with_command self.old.scripts (last_worker self.old) (command_in line first) }) }
    {
        match command_in(words, first) {
            Some(c) => self.command(c),
            None => {
                self.go_on(7);
                Ok(())
            }
        }
    }
}
