// What the system is asked by. `main` gives its runtime away in it, and no other crate can take that out again.
ghost use Rattle.std.specs.Prelude.{◌≡◌};

use std::rt::HostRuntime;

#[derive(Clone, Copy)]
pub struct Handle {
    pub(crate) rt: HostRuntime,
}

impl Handle {
    pub fn new(rt: HostRuntime) -> Handle
        ensures { result ≡ record { rt = rt } }
    {
        Handle { rt }
    }
}
