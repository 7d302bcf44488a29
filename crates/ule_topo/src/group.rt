use std::marker::Model;

/// A group line of a scenario.
#[derive(Clone, Copy)]
pub struct GroupLine {
    /// The group's number, 0..=14.
    pub id: u8,
    /// The number of the group that it lies in; none for the root.
    pub parent: Option<u8>,
    /// Its CPUs: bit c for CPU c.
    pub cpus: u16,
}

/// A group of a topology by its place: the place of its line, 0 for the root.
#[derive(Clone, Copy, Debug, PartialEq, Eq)]
pub struct GroupIx(pub u8);

impl Model for GroupIx {
    ghost use Rattle.std.specs.Prelude.{ℕ};

    ghost Value = { ℕ };

    ghost view = { λ g. g.0 };

    ghost inverse = { λ n. record { 0 = n } };
}

/// A group of CPUs of a topology, after `struct cpu_group`.
#[derive(Clone, Copy)]
pub struct Group {
    /// The number that its line gave it.
    pub id: u8,
    /// The group that it lies in; none for the root.
    pub parent: Option<GroupIx>,
    /// Its CPUs: bit c for CPU c.
    pub cpus: u16,
    /// How many groups it lies in, itself among them: 1 for the root, 4 at most.
    pub depth: u8,
}
