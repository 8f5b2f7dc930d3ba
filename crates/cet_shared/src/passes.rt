//! A seat at the table, with its guest thread.

ghost use Rattle.std.specs.Prelude.{◌≡◌, []};
ghost use Rattle.cet_cpu.specs.Cpu.{IsCpu};
ghost use Rattle.cet_shared.specs.Held.{own};

use crate::rules::View;
use atomic_table::Seat;
use cet_cpu::Cpu;
use std::marker::Model;

/// A seat with its guest thread. Contracts see the table that it is of, and its view: the job, its own
/// thread with its records, the threads gathered behind it, and children that have no pass yet.
#[derive(Drop)]
pub struct Pass {
    pub(crate) seat: Seat<(), View>,
    pub(crate) cpu: Cpu,
}

impl Model for Pass {
    ghost use Rattle.std.specs.Prelude.{◌≡◌, []};
    ghost use Rattle.cet_cpu.specs.Cpu.{IsCpu};
    ghost use Rattle.cet_shared.specs.Held.{Standing, OwnIs};

    ghost Value = { Standing };

    ghost view = { λ p. record { table_id = p.seat.table_id; view = p.seat.me.0 } };

    ghost invariant = { λ p. (p.seat.me.1 ≡ []) × OwnIs p.cpu.core p.seat.me.0.threads × IsCpu p.seat.me.0.job p.cpu };
}

impl Pass {
    /// The guest thread.
    pub fn cpu(&self) -> &Cpu
        ensures own { result.now.core ≡ (own self.now.view).core }
        ensures state { IsCpu self.now.view.job result.now }
    {
        &self.cpu
    }
}
