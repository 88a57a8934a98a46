//! A list of calls that are to fail.
ghost use Rattle.std.specs.Prelude.{◌≡◌, IsTrue, ◌↔◌, ◌<◌};
ghost use Rattle.pg_io.specs.Failing.{FailsNext, CountsOne};

/// The calls of one object that are to fail, by their numbers from 0, and how many were made.
#[derive(Debug, Drop)]
pub struct Failing {
    numbers: Vec<u64>,
    made: u64,
}

impl Failing {
    /// The calls with these numbers are to fail; none was made yet.
    pub fn new(numbers: Vec<u64>) -> Failing
        ensures numbers { result.numbers.items ≡ numbers.items }
        ensures made { result.made ≡ 0 }
    {
        Failing { numbers, made: 0 }
    }

    /// Counts a call, and says whether it is to fail.
    pub fn is_next(&mut self) -> bool
        ensures listed { IsTrue result ↔ FailsNext self.old }
        ensures counted { CountsOne self.old self.new }
    {
        let call = self.made;
        self.made = self.made.saturating_add(1);
        self.numbers.contains(&call)
    }
}
