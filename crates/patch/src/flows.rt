ghost use Rattle.patch.specs.Flows.{feeders_kind, lateness_kind};
ghost use Rattle.patch.specs.JoinLaws.{max_laws, or_laws};

use crate::sweeps::Flow;

// How late each node is, where `units` has how late each node's unit is.
#[derive(Drop)]
pub(crate) struct Latenesses {
    pub units: [u8; 16],
}

impl Flow for Latenesses {
    type Value = u16;

    ghost kind = { λ s. lateness_kind s.units };

    ghost laws = { λ _. max_laws };

    fn start(&self) -> u16 {
        0
    }

    fn join(&self, a: u16, b: u16) -> u16 {
        a.max(b)
    }

    fn step(&self, v: u8, x: u16) -> u16 {
        x.saturating_add(u16::from(self.units[usize::from(v)]))
    }
}

// Which nodes feed each node: bit `v` for node `v`.
#[derive(Drop)]
pub(crate) struct Feeders;

impl Flow for Feeders {
    type Value = u16;

    ghost kind = { λ _. feeders_kind };

    ghost laws = { λ _. or_laws };

    fn start(&self) -> u16 {
        0
    }

    fn join(&self, a: u16, b: u16) -> u16 {
        a | b
    }

    fn step(&self, v: u8, x: u16) -> u16 {
        x | (1 << v)
    }
}
