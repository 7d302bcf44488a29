// What a line is refused for after the lines before it.
ghost use Rattle.std.specs.Prelude.{◌≡◌, ◌≢◌, ◌<◌, ◌≤◌, ℕ, max, Bool, nat_lt, nat_le, ◌||◌, length, Option, Some, None, is_some, unwrap_or, ◌&&◌, ◌+◌, List, [], ◌∷◌, OnOk, IfOk};
ghost use Rattle.std.specs.List.{list_any};
ghost use Rattle.ule_types.specs.declared.command.Command.{Command};
ghost use Rattle.ule_scenario.specs.Reading.{Reading, spent_items};
ghost use Rattle.ule_scenario.specs.WordsKept.{seen};
ghost use Rattle.ule_scenario.specs.declared.token.Token.{Token};
ghost use Rattle.ule_scenario.specs.Forms.{name, first_fault, number_faults, number};
ghost use Rattle.ule_scenario.specs.Effects.{command_in, turns_in};
ghost use Rattle.ule_scenario.specs.Reasons.{is_misplaced, place_reason, word_reason, meaning_reason, reason_behind, when, told, over_budget, charge, named_cpus, is_repeated, is_undeclared, is_no_fork, reason_of, topology_fault, of_topology};

use crate::accept::group_in;
use crate::command::command_in;
use crate::draft::Draft;
use crate::name::Name;
use crate::reason::Reason;
use crate::rows::{
    fault_of, has_no_base, has_unknown_word, is_bad_count, is_header, least_words, place_of_line,
    setting_place,
};
use crate::words::Words;
use ule_types::{Command, greatest};

/// A reason without a detail.
fn reason(reason: u8) -> Option<Reason>
    ensures { result ≡ told (Some reason) }
{
    Some(Reason { reason, detail: 0 })
}

/// The reason of a fault of a number.
fn told(fault: Option<u8>) -> Option<Reason>
    ensures { result ≡ told fault }
{
    match fault {
        Some(n) => Some(Reason {
            reason: n,
            detail: 0,
        }),
        None => None,
    }
}

/// The first reason of a line's words alone.
#[tactic(auto, unfolding(crate::specs::Reasons::word_reason))]
fn word_reason(words: &Words, first: Name) -> Option<Reason>
    ensures { (line : List Token) → words.now ≡ seen line → result ≡ word_reason line first }
{
    if words.is_below(least_words(first)) {
        return reason(18);
    }
    if has_unknown_word(words, first) {
        return reason(2);
    }
    told(fault_of(words, first))
}

impl Draft {
    /// Whether a line may not stand here by the order of sections.
    fn is_misplaced(&self, words: &Words, first: Name) -> bool
        ensures { (line : List Token) → words.now ≡ seen line → result ≡ is_misplaced self.now line first }
    {
        match first {
            Name::Header => true,
            Name::Set => self.place > 2 || setting_place(words.word(1).name) < self.settings_from,
            Name::Jitter => self.place >= 3,
            Name::Cpus => self.place >= 4,
            Name::Group => self.place > 5 || self.groups.len() >= 15,
            Name::Thread | Name::Unborn => self.place > 6,
            Name::Script => self.place > 7 || words.word(1).is_below(self.script_from),
            Name::Weave => self.place >= 8,
            Name::Turns => self.place != 8,
            Name::End => self.place >= 9,
            _ => self.place != 7,
        }
    }

    /// The first reason of a line's place.
    #[tactic(auto, unfolding(crate::specs::Reasons::place_reason))]
    fn place_reason(&self, words: &Words, first: Name) -> Option<Reason>
        ensures { (line : List Token) → words.now ≡ seen line → result ≡ place_reason self.now line first }
    {
        let place = place_of_line(first);
        if place == 0 {
            return reason(2);
        }
        if self.is_misplaced(words, first) {
            return reason(6);
        }
        if 4 <= place && self.place < 3 {
            return reason(14);
        }
        let early = 5 <= place && self.place < 4;
        if early || is_bad_count(words, first) {
            return reason(7);
        }
        None
    }

    /// Whether a line names a CPU that isn't there.
    fn names_no_cpu(&self, words: &Words, first: Name) -> bool
        ensures { (line : List Token) → words.now ≡ seen line → result ≡ list_any (λ c. nat_le self.now.cpus c) (named_cpus line first) }
    {
        let cpus = u64::from(self.cpus);
        match first {
            Name::Group => words.cpus.reaches(self.cpus),
            Name::Thread => cpus <= words.word(4).value(),
            Name::Script | Name::Look => cpus <= words.word(1).value(),
            _ => false,
        }
    }

    /// Whether a line declares a thread again.
    fn is_repeated(&self, words: &Words, first: Name) -> bool
        ensures { (line : List Token) → words.now ≡ seen line → result ≡ is_repeated self.now line first }
    {
        match first {
            Name::Thread | Name::Unborn => self.is_known_thread(words.word(1).value()),
            _ => false,
        }
    }

    /// Whether a command names a thread that isn't declared.
    fn is_undeclared(&self, words: &Words, first: Name) -> bool
        ensures { (line : List Token) → words.now ≡ seen line → result ≡ is_undeclared self.now line first }
    {
        match first {
            Name::Wake | Name::Lend | Name::Unlend | Name::Renice | Name::Fork =>
                !self.is_known_thread(words.word(1).value()),
            _ => false,
        }
    }

    /// Whether a line forks a thread that isn't unborn, or was forked before.
    fn is_no_fork(&self, words: &Words, first: Name) -> bool
        ensures { (line : List Token) → words.now ≡ seen line → result ≡ is_no_fork self.now line first }
    {
        match first {
            Name::Fork => !self.is_waiting(words.word(1).value())
                || self.is_forked(words.word(1).value()),
            _ => false,
        }
    }

    /// The number of the topology's fault at a line, behind the groups before it.
    #[tactic(auto, using(crate::proofs::Passing::few_groups))]
    fn topology_fault(&self, words: &Words, first: Name) -> Option<u8>
        ensures { (line : List Token) → words.now ≡ seen line → place_reason self.now line first ≡ None → first_fault (number_faults line first) ≡ None
            → result ≡ topology_fault self.now line first }
    {
        match first {
            Name::Group => self.fault_of_group(group_in(words)),
            _ => None,
        }
    }

    /// Whether a turn is of a worker that isn't there.
    fn names_no_worker(&self, words: &Words, first: Name) -> bool
        ensures { (line : List Token) → words.now ≡ seen line → result ≡ list_any (λ w. nat_le self.now.cpus w) (turns_in line first) }
    {
        match first {
            Name::Turns => words.turns.reaches(self.cpus),
            _ => false,
        }
    }

    /// Whether there are more than 4,096 turns with a line's.
    #[tactic(auto, using(crate::proofs::Tails::many_turns))]
    fn has_many_turns(&self, words: &Words, first: Name) -> bool
        ensures { (line : List Token) → words.now ≡ seen line → result ≡ nat_lt 4096 (length self.now.turns + length (turns_in line first)) }
    {
        let turns = self.turns.len() as usize;
        match first {
            Name::Turns => turns + words.turns.as_slice().len() > 4096,
            _ => turns > 4096,
        }
    }

    /// The items of a command, at most.
    fn charge(&self, c: &Option<Command>) -> u32
        ensures value { result ≡ charge self.now c.now }
        ensures bound { result ≤ 1000000 }
    {
        match *c {
            Some(c) => greatest(&c, self.script_from.saturating_sub(1), self.cpus),
            None => 0,
        }
    }

    /// The reason that a command passes the budget, if it does.
    pub(crate) fn over_budget(&self, c: &Option<Command>) -> Option<Reason>
        ensures { result ≡ over_budget (spent_items self.now + charge self.now c.now) }
    {
        let total = self.spent() + self.charge(c);
        if total > 65_536 {
            Some(Reason {
                reason: 15,
                detail: total,
            })
        } else {
            None
        }
    }

    /// The first reason of what a line says.
    #[tactic(auto, unfolding(crate::specs::Reasons::meaning_reason))]
    fn meaning_reason(&self, words: &Words, first: Name) -> Option<Reason>
        ensures { (line : List Token) → words.now ≡ seen line → place_reason self.now line first ≡ None → first_fault (number_faults line first) ≡ None
            → result ≡ meaning_reason self.now line first }
    {
        if self.names_no_cpu(words, first) {
            return reason(10);
        }
        if self.is_repeated(words, first) {
            return reason(8);
        }
        if has_no_base(words, first) {
            return reason(12);
        }
        if self.is_undeclared(words, first) {
            return reason(9);
        }
        if self.is_no_fork(words, first) {
            return reason(13);
        }
        if let Some(fault) = self.topology_fault(words, first) {
            return Some(Reason {
                reason: 11,
                detail: u32::from(fault),
            });
        }
        if self.names_no_worker(words, first) {
            return reason(16);
        }
        if self.has_many_turns(words, first) {
            return reason(19);
        }
        self.over_budget(&command_in(words, first))
    }
}

impl Draft {
    /// The first reason against a line behind the header.
    #[tactic(auto, using(crate::proofs::Meaning::numbers_pass))]
    fn reason_behind(&self, words: &Words, first: Name) -> Option<Reason>
        ensures { (line : List Token) → words.now ≡ seen line → result ≡ reason_behind self.now line first }
    {
        if let Some(x) = self.place_reason(words, first) {
            return Some(x);
        }
        if let Some(x) = word_reason(words, first) {
            return Some(x);
        }
        self.meaning_reason(words, first)
    }

    /// The first reason against a line that isn't blank and no comment.
    pub fn reason_against(&self, words: &Words, first: Name) -> Option<Reason>
        ensures { (line : List Token) → words.now ≡ seen line → first ≡ name line 0 → result ≡ reason_of self.now line }
    {
        if self.place == 0 {
            if is_header(words) { None } else { reason(1) }
        } else {
            self.reason_behind(words, first)
        }
    }
}
