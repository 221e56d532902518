use crate::loaded::Loaded;
use crate::seating::Seats;
use directory::Directory;
use network::Net;
use std::marker::Model;

/// Harts with caches of SETS sets of WAYS lines, a directory with memory, and the messages in flight between them.
#[derive(Drop)]
pub struct Machine<const SETS: usize, const WAYS: usize> {
    pub(crate) program: Loaded,
    pub(crate) seats: Seats<SETS, WAYS>,
    pub(crate) directory: Directory,
    pub(crate) net: Net,
    pub(crate) stamps: u64,
}

impl<const SETS: usize, const WAYS: usize> Model for Machine<SETS, WAYS> {
    ghost use Rattle.machine.specs.States.{State, IsSound};

    ghost Value = { State };

    ghost view = { λ m. record {
      program = m.program;
      seats = m.seats.items;
      directory = m.directory;
      flights = m.net.flights;
      sent = m.net.next;
      stamps = m.stamps;
    } };

    ghost invariant = { λ m. IsSound SETS WAYS (record {
      program = m.program;
      seats = m.seats.items;
      directory = m.directory;
      flights = m.net.flights;
      sent = m.net.next;
      stamps = m.stamps;
    }) };
}
