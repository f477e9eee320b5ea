//! How tables are made.

ghost use Rattle.std.specs.Prelude.{◌<◌};
ghost use Rattle.farm.specs.Ranges.{AreThreads, IsBatch};
ghost use Rattle.lease_book.specs.Books.{AreTries};

/// How many solvers there are at most, and how many checkers.
pub const MOST_THREADS: usize = 64;

/// How often an entry is leased at most.
pub const MOST_TRIES: u32 = 1000;

/// How many entries are leased at a time at most.
pub const MOST_ENTRIES: usize = 20;

/// How tables are made. What it holds is within its bounds.
#[derive(Clone, Copy, Debug, PartialEq, Eq)]
pub struct Settings {
    /// How many threads look for answers.
    pub solvers: usize,
    /// How many threads check them.
    pub checkers: usize,
    /// How long a lease lasts, in the unit of the clock's moments.
    pub term: u64,
    /// How often an entry is leased at most.
    pub tries: u32,
    /// How many steps of its own a solver has for an entry, at least 1.
    pub budget: u64,
    /// How many entries are lent at a time.
    pub batch: usize,
    pub ghost solvers_are: { AreThreads solvers },
    pub ghost checkers_are: { AreThreads checkers },
    pub ghost tries_are: { AreTries tries },
    pub ghost budget_is: { 0 < budget },
    pub ghost batch_is: { IsBatch batch },
}

impl Settings {
    ghost use Rattle.std.specs.Prelude.{◌≡◌};
    ghost use Rattle.farm.specs.Settings.{Sets, defaults, numbers_in};

    /// Two solvers and two checkers, a term of 600, three tries, a budget of 10,000,000 and twenty entries at a time.
    pub fn new() -> Settings
        ensures { numbers_in result ≡ defaults }
    {
        Settings {
            solvers: 2,
            checkers: 2,
            term: 600,
            tries: 3,
            budget: 10_000_000,
            batch: 20,
        }
    }

    /// The settings with so many solvers.
    pub fn with_solvers(mut self, solvers: usize) -> Result<Settings, SettingsFault>
        ensures { Sets (AreThreads solvers) (record (numbers_in self) { solvers = solvers })
            SettingsFault.Solvers result }
    {
        if solvers < 1 || MOST_THREADS < solvers {
            return Err(SettingsFault::Solvers);
        }
        self.solvers = solvers;
        Ok(self)
    }

    /// The settings with so many checkers.
    pub fn with_checkers(mut self, checkers: usize) -> Result<Settings, SettingsFault>
        ensures { Sets (AreThreads checkers) (record (numbers_in self) { checkers = checkers })
            SettingsFault.Checkers result }
    {
        if checkers < 1 || MOST_THREADS < checkers {
            return Err(SettingsFault::Checkers);
        }
        self.checkers = checkers;
        Ok(self)
    }

    /// The settings with this term.
    pub fn with_term(mut self, term: u64) -> Settings
        ensures { numbers_in result ≡ record (numbers_in self) { term = term } }
    {
        self.term = term;
        self
    }

    /// The settings with so many tries.
    pub fn with_tries(mut self, tries: u32) -> Result<Settings, SettingsFault>
        ensures { Sets (AreTries tries) (record (numbers_in self) { tries = tries })
            SettingsFault.Tries result }
    {
        if tries < 1 || MOST_TRIES < tries {
            return Err(SettingsFault::Tries);
        }
        self.tries = tries;
        Ok(self)
    }

    /// The settings with this budget.
    pub fn with_budget(mut self, budget: u64) -> Result<Settings, SettingsFault>
        ensures { Sets (0 < budget) (record (numbers_in self) { budget = budget }) SettingsFault.Budget result }
    {
        if budget == 0 {
            return Err(SettingsFault::Budget);
        }
        self.budget = budget;
        Ok(self)
    }

    /// The settings with so many entries leased at a time.
    pub fn with_batch(mut self, batch: usize) -> Result<Settings, SettingsFault>
        ensures { Sets (IsBatch batch) (record (numbers_in self) { batch = batch })
            SettingsFault.Batch result }
    {
        if batch < 1 || MOST_ENTRIES < batch {
            return Err(SettingsFault::Batch);
        }
        self.batch = batch;
        Ok(self)
    }
}

/// Which number is out of its range.
#[derive(Clone, Copy, Debug, PartialEq, Eq)]
pub enum SettingsFault {
    /// How many threads search.
    Solvers,
    /// How many threads check.
    Checkers,
    /// How often an entry is tried.
    Tries,
    /// The budget is 0.
    Budget,
    /// The entries leased at a time.
    Batch,
}
