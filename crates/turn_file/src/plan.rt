//! What a turn file says: the stack of locks, each worker's script, and the order in which the workers ran.
ghost use Rattle.std.specs.Prelude.{◌≡◌, Some, take};
ghost use Rattle.turn_file.specs.Algorithm.{algorithm_number, algorithm_from};
ghost use Rattle.turn_file.specs.Algorithm.{algorithm_text, unknown_algorithm_text};
ghost use Rattle.turn_file.specs.Plan.{plan_numbers, blank_plan, lanes_below, used_levels, workers_of, used_scripts};

use std::error::Error;
use std::fmt;

/// How the locks of a level work.
#[derive(Clone, Copy, PartialEq, Eq, Debug, Default)]
pub enum Algorithm {
    #[default]
    Ticket,
    Mcs,
}

impl fmt::Display for Algorithm {
    ghost output = { λ algorithm. Some (algorithm_text algorithm) };

    fn fmt<W: fmt::Write>(&self, f: &mut fmt::Formatter<W>) -> fmt::Result {
        f.write_str(match self {
            Algorithm::Ticket => "ticket",
            Algorithm::Mcs => "mcs",
        })
    }
}

/// A number that stands for no algorithm.
#[derive(Clone, Copy, PartialEq, Eq, Debug)]
pub struct UnknownAlgorithm {
    pub number: u32,
}

impl fmt::Display for UnknownAlgorithm {
    ghost output = { λ unknown. Some (unknown_algorithm_text unknown.number) };

    fn fmt<W: fmt::Write>(&self, f: &mut fmt::Formatter<W>) -> fmt::Result {
        write!(f, "{} is no algorithm", self.number)
    }
}

impl Error for UnknownAlgorithm {}

impl From<Algorithm> for u32 {
    ghost from_gives = { λ algorithm n. n ≡ algorithm_number algorithm };

    fn from(algorithm: Algorithm) -> u32 {
        match algorithm {
            Algorithm::Ticket => 1,
            Algorithm::Mcs => 2,
        }
    }
}

impl TryFrom<u32> for Algorithm {
    type Error = UnknownAlgorithm;

    ghost try_from_gives = { λ n r. r ≡ algorithm_from n };

    fn try_from(number: u32) -> Result<Algorithm, UnknownAlgorithm> {
        match number {
            1 => Ok(Algorithm::Ticket),
            2 => Ok(Algorithm::Mcs),
            _ => Err(UnknownAlgorithm { number }),
        }
    }
}

/// A level of the stack. Each party of the level above has a lane here, and each lane `fan_out` members.
/// After `handoff_limit` turns in a row a lane gives the upper lock back.
/// The top level has no limit, and 0 in its place.
#[derive(Clone, Copy, PartialEq, Eq, Debug, Default)]
pub struct Level {
    pub algorithm: Algorithm,
    pub fan_out: u32,
    pub handoff_limit: u32,
}

/// What a worker does: so many turns, with so many plays of rest before each,
/// and so many of work while it holds the lock.
#[derive(Clone, Copy, PartialEq, Eq, Debug, Default)]
pub struct Script {
    pub turns: u32,
    pub rest: u32,
    pub hold: u32,
}

/// A whole turn file. Of the tables the first `level_count` levels are used, and a script for each worker;
/// the workers are as many as the product of the used levels' fan-outs.
/// The schedule has an entry, a worker, for each play.
#[derive(Clone, Copy, Debug)]
pub struct Plan<'a> {
    pub level_count: u32,
    pub levels: [Level; 4],
    pub scripts: [Script; 64],
    pub schedule: &'a [u8],
}

impl Level {
    /// The lanes of the level below, where this one has so many lanes; at most what 32 bits hold.
    pub fn lanes_below(&self, lanes: u32) -> u32
        ensures { result ≡ lanes_below lanes self.now }
    {
        lanes.saturating_mul(self.fan_out)
    }
}

impl<'a> Plan<'a> {
    /// A plan that uses nothing.
    pub fn blank() -> Plan<'a>
        ensures { plan_numbers result ≡ blank_plan }
    {
        Plan {
            level_count: 0,
            levels: [Level::default(); 4],
            scripts: [Script::default(); 64],
            schedule: &[],
        }
    }

    /// The levels that the plan uses, the top level first.
    pub fn used_levels(&self) -> &[Level]
        ensures { result.now ≡ used_levels (plan_numbers self.now) }
    {
        front(&self.levels, self.level_count as usize)
    }

    /// How many workers there are: as many as the level below the last would have lanes.
    pub fn workers(&self) -> u32
        ensures { result ≡ workers_of (plan_numbers self.now) }
    {
        self.used_levels()
            .iter()
            .fold(1, |lanes, level| level.lanes_below(lanes))
    }

    /// The workers' scripts.
    pub fn used_scripts(&self) -> &[Script]
        ensures { result.now ≡ used_scripts (plan_numbers self.now) }
    {
        front(&self.scripts, self.workers() as usize)
    }
}

// As much of a table as is used, and no more than there is.
fn front<T>(table: &[T], used: usize) -> &[T]
    ensures { result.now ≡ take used table.now }
{
    &table[..table.len().min(used)]
}
