// The state of a project. The memory that the project works in is lent to each call beside it.
ghost use Rattle.std.specs.Prelude.{◌≡◌};

// An open project: it takes units and gives them up. It is moved, never copied, and never let go silently.
pub struct Open {
    // how many units the store held when the project last changed it
    pub(crate) units: usize,
}

impl Open {
    // How many units the store held when the project last changed it. Constant time.
    pub fn units(&self) -> usize
        ensures { result ≡ self.now.units }
    {
        self.units
    }

    // Ends the project and tells how many units it had. The memory stays as it is. Constant time.
    pub fn close(self) -> usize
        ensures { result ≡ self.units }
    {
        let Open { units } = self;
        units
    }
}
