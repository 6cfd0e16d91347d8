ghost use Rattle.std.specs.Prelude.{◌≡◌, ◌&&◌};
ghost use Rattle.tables.specs.Entry as Entries;
ghost use Rattle.tables.specs.Operand.{is_ready};

use crate::{Entry, PLACES, State, table};
use execution::Stop;

impl Entry {
    // Its operands on this name are ready with this register. Inner: the calls use it.
    pub fn wake(&mut self, name: u8, register: u8)
        ensures { self.new ≡ Entries.wake_entry name register self.old }
    {
        self.left.wake(name, register);
        self.right.wake(name, register);
    }

    // Its operands on this name are waiting again. Inner: the calls use it.
    pub fn sleep(&mut self, name: u8)
        ensures { self.new ≡ Entries.sleep_entry name self.old }
    {
        self.left.sleep(name);
        self.right.sleep(name);
    }

    // Issued, with the values that it read. Inner: the calls use it.
    pub fn issue(&mut self, first: u32, second: u32)
        ensures { self.new ≡ Entries.issued_entry first second self.old }
    {
        self.state = State::Issued;
        self.first = first;
        self.second = second;
    }

    // Completed with a cause: nothing else changes. Inner: the calls use it.
    pub fn end(&mut self, stop: Stop)
        ensures { self.new ≡ Entries.stopped_entry stop self.old }
    {
        self.state = State::Completed;
        self.stop = stop;
    }

    // Inner: the calls use it.
    pub fn complete(&mut self, value: u32)
        ensures { self.new ≡ Entries.completed_entry value self.old }
    {
        self.state = State::Completed;
        self.result = value;
    }

    // Robbed: it waits again, with zero values and result. Inner: the calls use it.
    pub fn wait(&mut self)
        ensures { self.new ≡ Entries.waiting_entry self.old }
    {
        self.state = State::Waits;
        self.first = 0;
        self.second = 0;
        self.result = 0;
        self.stop = Stop::default();
    }

    // Whether both operands are ready. Inner: the calls use it.
    pub fn is_ready(&self) -> bool
        ensures { result ≡ (is_ready self.now.left && is_ready self.now.right) }
    {
        self.left.is_ready() && self.right.is_ready()
    }

    // The register that it holds, or 0. Inner: the calls use it.
    pub fn held(&self, physical: &[u8; PLACES]) -> u8
        ensures { result ≡ Entries.held physical.now self.now }
    {
        match self.state {
            State::Waits | State::Issued => 0,
            State::Completed => table::look_under(0, physical, self.name),
        }
    }
}
