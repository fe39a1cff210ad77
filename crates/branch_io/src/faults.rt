// The calls of a thing over memory, of which listed ones fail.
ghost use Rattle.std.specs.Prelude.{◌≡◌, ◌↔◌, ◌+◌, ◌≤◌, IsTrue, MatchBool};
ghost use Rattle.branch_io.specs.Causes.{Rose};
ghost use Rattle.branch_io.specs.Counts.{fault_count, capped, IsNew, IsNextListed, OneMore};

/// The numbers of the calls that fail, how many calls were made, and how many of them there was no room for.
#[derive(Drop)]
pub struct Faults {
    failing: Vec<u64>,
    made: u64,
    refused: u64,
}

impl Faults {
    /// No call was made yet. Those of these numbers fail, from 1 on.
    pub fn new(failing: Vec<u64>) -> Faults
        ensures { IsNew failing.items result }
    {
        Faults {
            failing,
            made: 0,
            refused: 0,
        }
    }

    /// Counts a call, and says whether it is a listed one. Behind the last number none is.
    #[tactic(auto, using(crate::proofs::Calls::failed_calls_listed, crate::proofs::Calls::failed_calls_other))]
    pub fn fails(&mut self) -> bool
        ensures one_more { OneMore self.old self.new }
        ensures exactly { IsTrue result ↔ IsNextListed self.old }
        ensures refused { self.new.refused ≡ self.old.refused }
        ensures counted { MatchBool result (fault_count self.old + 1 ≤ fault_count self.new)
            (fault_count self.new ≡ fault_count self.old) }
    {
        if self.made == u64::MAX {
            return false;
        }
        self.made += 1;
        self.failing.contains(&self.made)
    }

    /// Counts that there was no room for a call that was counted.
    pub fn refuse(&mut self)
        ensures refused { self.new.refused ≡ capped (self.old.refused + 1) }
        ensures made { self.new.made ≡ self.old.made }
        ensures listed { self.new.failing.items ≡ self.old.failing.items }
        ensures cause { Rose (fault_count self.old) (fault_count self.new) }
        ensures later { fault_count self.old ≤ fault_count self.new }
    {
        self.refused = self.refused.saturating_add(1);
    }
}
