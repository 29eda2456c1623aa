ghost use Rattle.std.specs.Prelude.{Some};
ghost use Rattle.core_views.specs.Text.{actor_name};

use std::fmt;

/// Who makes a line's steps: a virtual processor (0 to 15), a host thread that
/// owns host pages (0 to 3), the one manager (the process that holds the VM's
/// file descriptor), or a worker of the hypervisor (0 to 3).
#[derive(Clone, Copy, PartialEq, Eq, Drop)]
pub enum Actor {
    Vcpu(u8),
    Host(u8),
    Manager,
    Worker(u8),
}

/// The name in a trace: `v0`, `h0`, `vm`, `w0`.
impl fmt::Display for Actor {
    ghost output = { λ actor. Some (actor_name actor) };

    fn fmt<W: fmt::Write>(&self, f: &mut fmt::Formatter<W>) -> fmt::Result {
        match self {
            Actor::Vcpu(n) => write!(f, "v{n}"),
            Actor::Host(n) => write!(f, "h{n}"),
            Actor::Manager => write!(f, "vm"),
            Actor::Worker(n) => write!(f, "w{n}"),
        }
    }
}
