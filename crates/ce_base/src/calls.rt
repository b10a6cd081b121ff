// Calls of which some fail: those whose numbers are listed.
ghost use Rattle.std.specs.Prelude.{◌≡◌, ◌≤◌, ◌↔◌, IsTrue, MatchBool, Contains};
ghost use Rattle.ce_base.specs.Faults.{next_count};

// The calls that fail, how many calls there were, and how many of those failed.
#[derive(Drop)]
pub(crate) struct Calls {
    pub(crate) fails: Vec<u64>,
    pub(crate) made: u64,
    pub(crate) failures: u64,
}

impl Calls {
    pub(crate) fn make(fails: Vec<u64>) -> Calls
        ensures { result ≡ record { fails = fails; made = 0; failures = 0 } }
    {
        Calls {
            fails,
            made: 0,
            failures: 0,
        }
    }

    // Counts one more call, and says whether it fails.
    pub(crate) fn next_fails(&mut self) -> bool
        ensures number { self.new.made ≡ next_count self.old.made }
        ensures fails { IsTrue result ↔ Contains self.old.fails.items self.new.made }
        ensures count { MatchBool result (self.new.failures ≡ next_count self.old.failures) (self.new.failures ≡ self.old.failures) }
        ensures later { self.old.failures ≤ self.new.failures }
        ensures list { self.new.fails ≡ self.old.fails }
    {
        self.made = self.made.saturating_add(1);
        let fails = self.fails.contains(&self.made);
        if fails {
            self.failures = self.failures.saturating_add(1);
        }
        fails
    }
}
