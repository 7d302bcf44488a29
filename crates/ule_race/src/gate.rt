// Calls round each command of a race.
use ule_smp::SmpPass;

/// What is called round each command, on the thread that runs it, with the worker's number, the
/// command's number in its script, from 1, and the pass that runs it.
pub trait Gate {
    /// Called before the command begins. It may wait.
    fn before(&self, worker: u8, command: u32, p: &SmpPass);

    /// Called behind the command's last item.
    fn after(&self, worker: u8, command: u32, p: &SmpPass);
}

/// The gate that does nothing.
#[derive(Drop)]
pub struct Open;

impl Gate for Open {
    fn before(&self, _worker: u8, _command: u32, _p: &SmpPass) {}

    fn after(&self, _worker: u8, _command: u32, _p: &SmpPass) {}
}
