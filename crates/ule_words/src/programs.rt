//! A worker's program: the commands that its pass begins, and their items.
ghost use Rattle.std.specs.Prelude.{◌≡◌, ◌≤◌, ℕ, List, ◌∷◌, Some, None};
ghost use Rattle.ule_micro.specs.Standings.{asks, rests, standing_with};
ghost use Rattle.ule_micro.specs.declared.todo.Todo.TheVariants.{Advance, Event};
ghost use Rattle.ule_words.specs.Programs.{StandsAt};
ghost use Rattle.ule_words.specs.Workers.{entries_in};

use crate::locks::Locks;
use crate::pass::Pass;
use ule_micro::{Parts, Todo};

impl<P: Parts> Locks<P> {
    /// Begins a command that is valid behind those that the pass was given before, of which the last
    /// has no further item. It makes no step, and leaves all but the own part.
    pub fn begin(&self, p: &mut Pass<P::Own>, c: &P::Order)
        requires { (given : List P.Order) × StandsAt (P.means self.now.parts) given p.old rests × (P.means self.now.parts).valid ((P.means self.now.parts).number p.old.own) given c.now }
        ensures own { p.new ≡ record p.old { own = (P.means self.now.parts).begin p.old.own c.now } }
        ensures stands { (given : List P.Order) → StandsAt (P.means self.now.parts) given p.old rests → (P.means self.now.parts).valid ((P.means self.now.parts).number p.old.own) given c.now → StandsAt (P.means self.now.parts) (c.now ∷ given) p.new (asks None) }
        ensures left { (P.means self.now.parts).left p.new.own (asks None) ≤ (P.means self.now.parts).charge ((P.means self.now.parts).number p.old.own) c.now }
    {
        self.parts.begin(&mut p.own, c);
    }

    /// The next item of the command begun last; none exactly where it has no further item. `last` is
    /// the reply and the time of the item before, if it was an event of this command. It makes no
    /// step, and leaves all but the own part. An event is one that the worker asks for, and an advance
    /// is by 1 to 1,000,000.
    pub fn next(
        &self,
        p: &mut Pass<P::Own>,
        last: Option<(P::Reply, u64)>,
    ) -> Option<Todo<P::Event>>
        requires { (given : List P.Order) × StandsAt (P.means self.now.parts) given p.old (asks last) }
        ensures item { result ≡ ((P.means self.now.parts).next p.old.own last).0 }
        ensures own { p.new ≡ record p.old { own = ((P.means self.now.parts).next p.old.own last).1 } }
        ensures stands { (given : List P.Order) → StandsAt (P.means self.now.parts) given p.old (asks last) → StandsAt (P.means self.now.parts) given p.new (standing_with result) }
        ensures event { (e : P.Event) → result ≡ Some (Event e) → (P.means self.now.parts).asks p.new.worker.number (entries_in p.new.worker.mine) p.new.worker.hand e }
        ensures advance { (k : ℕ) → result ≡ Some (Advance k) → (1 ≤ k) × (k ≤ 1000000) }
        ensures left { (P.means self.now.parts).left p.new.own (standing_with result) ≤ (P.means self.now.parts).left p.old.own (asks last) }
    {
        self.parts.next(&mut p.own, last)
    }
}
