// What is wrong with a job, and how its reading ends.
ghost use Rattle.std.specs.Prelude.{◌≡◌};
ghost use Rattle.job.specs.Fault.{number_of};

#[derive(Clone, Copy, PartialEq, Eq, Debug)]
pub enum Fault {
    Long,
    Cut,
    Tag,
    Group,
    Limit,
    Undeclared,
    Length,
    Range,
    Unbound,
    Unsafe,
    Empty,
}

// A fault, and where in the job it is.
#[derive(Clone, Copy, PartialEq, Eq, Debug)]
pub struct Refusal {
    pub fault: Fault,
    pub place: usize,
}

// The number of document 01's table.
impl From<Fault> for usize {
    ghost from_gives = { λ fault n. n ≡ number_of fault };

    fn from(fault: Fault) -> usize {
        match fault {
            Fault::Long => 1,
            Fault::Cut => 2,
            Fault::Tag => 3,
            Fault::Group => 4,
            Fault::Limit => 5,
            Fault::Undeclared => 6,
            Fault::Length => 7,
            Fault::Range => 8,
            Fault::Unbound => 9,
            Fault::Unsafe => 10,
            Fault::Empty => 11,
        }
    }
}
