// How often an object in memory was called, and how often it failed.
ghost use Rattle.std.specs.Prelude.{◌≡◌, ◌≤◌};
ghost use Rattle.outside.specs.Outside.{raised};
ghost use Rattle.outside.specs.Memory.{one_more};

/// The calls that were made of an object in memory, and its faults. Each count stands still at its type's end.
#[derive(Clone, Copy)]
pub(crate) struct Calls {
    pub(crate) made: u64,
    pub(crate) faults: u64,
}

impl Calls {
    /// No calls.
    pub(crate) fn new() -> Calls
        ensures { result ≡ record { made = 0; faults = 0 } }
    {
        Calls { made: 0, faults: 0 }
    }

    /// Counts a call, and gives its number, counted from 0.
    pub(crate) fn count(&mut self) -> u64
        ensures number { result ≡ self.old.made }
        ensures counted { self.new ≡ record self.old { made = one_more self.old.made } }
    {
        let call = self.made;
        self.made = call.saturating_add(1);
        call
    }

    /// Counts a fault.
    pub(crate) fn fail(&mut self)
        ensures counted { self.new ≡ record self.old { faults = one_more self.old.faults } }
        ensures later { self.old.faults ≤ self.new.faults }
        ensures raised { self.new.faults ≡ raised 1 self.old.faults }
    {
        self.faults = self.faults.saturating_add(1);
    }
}
