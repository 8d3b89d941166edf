//! Why a turn file is refused: a fault of a number, of the record that holds the number,
//! or of the file that holds the record.
ghost use Rattle.std.specs.Prelude.{◌≡◌, Some};
ghost use Rattle.turn_file.specs.Fault.{in_record, in_file, fault_numbers, fault_line};
ghost use Rattle.turn_file.specs.Fault.{number_cause, record_cause, cause_number};
ghost use Rattle.turn_file.specs.Fault.{number_place, record_place, fault_place};
ghost use Rattle.turn_file.specs.Fault.{kind_number, record_kind, fault_record_kind};
ghost use Rattle.turn_file.specs.Fault.{layer_number, record_layer, fault_layer};

use crate::limits::LONGEST_FILE;
use std::error::Error;
use std::fmt;

/// The kinds of record that a turn file is made of.
#[derive(Clone, Copy, PartialEq, Eq, Debug)]
pub enum RecordKind {
    Levels,
    Level,
    Script,
    Schedule,
}

// What a fault lies in.
#[derive(Clone, Copy)]
enum Layer {
    Number,
    Record,
    File,
}

/// A number that is not complete, not shortest, or above 32 bits. The place is that of its first byte.
#[derive(Clone, Copy, PartialEq, Eq, Debug)]
pub enum NumberFault {
    Ends { place: usize },
    Padded { place: usize },
    TooLarge { place: usize },
}

/// A faulty number of a record, or a sound number whose value does not fit the record.
#[derive(Clone, Copy, PartialEq, Eq, Debug)]
pub enum RecordFault {
    Number {
        kind: RecordKind,
        fault: NumberFault,
    },
    LevelCount {
        place: usize,
    },
    Algorithm {
        place: usize,
    },
    FanOut {
        place: usize,
    },
    HandoffLimit {
        place: usize,
    },
    ScriptNumber {
        place: usize,
    },
    Entry {
        place: usize,
    },
}

/// A faulty record, or a file or an output of the wrong length.
#[derive(Clone, Copy, PartialEq, Eq, Debug)]
pub enum FileFault {
    Record { fault: RecordFault },
    TrailingByte { place: usize },
    TooLong,
    OutputTooShort,
}

/// A fault as it is printed.
#[derive(Clone, Copy, PartialEq, Eq, Debug)]
pub struct FaultNumbers {
    pub cause: u8,
    pub place: usize,
    pub kind: u8,
    pub layer: u8,
}

// The line that a program prints for a refused file.
impl fmt::Display for FaultNumbers {
    ghost output = { λ n. Some (fault_line n) };

    fn fmt<W: fmt::Write>(&self, f: &mut fmt::Formatter<W>) -> fmt::Result {
        let FaultNumbers {
            cause,
            place,
            kind,
            layer,
        } = self;
        write!(f, "fault {cause} {place} {kind} {layer}")
    }
}

impl fmt::Display for FileFault {
    ghost output = { λ fault. Some (fault_line (fault_numbers fault)) };

    fn fmt<W: fmt::Write>(&self, f: &mut fmt::Formatter<W>) -> fmt::Result {
        write!(f, "{}", self.numbers())
    }
}

impl Error for FileFault {}

// A number's fault is raised with the kind of the record that the number is of.
impl From<(RecordKind, NumberFault)> for RecordFault {
    ghost from_gives = { λ n r. r ≡ in_record n.0 n.1 };

    fn from((kind, fault): (RecordKind, NumberFault)) -> RecordFault {
        RecordFault::Number { kind, fault }
    }
}

impl From<RecordFault> for FileFault {
    ghost from_gives = { λ f r. r ≡ in_file f };

    fn from(fault: RecordFault) -> FileFault {
        FileFault::Record { fault }
    }
}

impl From<RecordKind> for u8 {
    ghost from_gives = { λ kind n. n ≡ kind_number kind };

    fn from(kind: RecordKind) -> u8 {
        match kind {
            RecordKind::Levels => 1,
            RecordKind::Level => 2,
            RecordKind::Script => 3,
            RecordKind::Schedule => 4,
        }
    }
}

impl From<Layer> for u8 {
    ghost from_gives = { λ layer n. n ≡ layer_number layer };

    fn from(layer: Layer) -> u8 {
        match layer {
            Layer::Number => 1,
            Layer::Record => 2,
            Layer::File => 3,
        }
    }
}

impl NumberFault {
    fn cause(self) -> u8
        ensures { result ≡ number_cause self }
    {
        match self {
            NumberFault::Ends { .. } => 1,
            NumberFault::Padded { .. } => 2,
            NumberFault::TooLarge { .. } => 3,
        }
    }

    fn place(self) -> usize
        ensures { result ≡ number_place self }
    {
        match self {
            NumberFault::Ends { place }
            | NumberFault::Padded { place }
            | NumberFault::TooLarge { place } => place,
        }
    }
}

impl RecordFault {
    fn cause(self) -> u8
        ensures { result ≡ record_cause self }
    {
        match self {
            RecordFault::Number { fault, .. } => fault.cause(),
            RecordFault::LevelCount { .. } => 4,
            RecordFault::Algorithm { .. } => 5,
            RecordFault::FanOut { .. } => 6,
            RecordFault::HandoffLimit { .. } => 7,
            RecordFault::ScriptNumber { .. } => 8,
            RecordFault::Entry { .. } => 9,
        }
    }

    fn place(self) -> usize
        ensures { result ≡ record_place self }
    {
        match self {
            RecordFault::Number { fault, .. } => fault.place(),
            RecordFault::LevelCount { place }
            | RecordFault::Algorithm { place }
            | RecordFault::FanOut { place }
            | RecordFault::HandoffLimit { place }
            | RecordFault::ScriptNumber { place }
            | RecordFault::Entry { place } => place,
        }
    }

    fn kind(self) -> RecordKind
        ensures { result ≡ record_kind self }
    {
        match self {
            RecordFault::Number { kind, .. } => kind,
            RecordFault::LevelCount { .. } => RecordKind::Levels,
            RecordFault::Algorithm { .. }
            | RecordFault::FanOut { .. }
            | RecordFault::HandoffLimit { .. } => RecordKind::Level,
            RecordFault::ScriptNumber { .. } => RecordKind::Script,
            RecordFault::Entry { .. } => RecordKind::Schedule,
        }
    }

    fn layer(self) -> Layer
        ensures { result ≡ record_layer self }
    {
        match self {
            RecordFault::Number { .. } => Layer::Number,
            _ => Layer::Record,
        }
    }
}

impl FileFault {
    fn cause(self) -> u8
        ensures { result ≡ cause_number self }
    {
        match self {
            FileFault::Record { fault } => fault.cause(),
            FileFault::TrailingByte { .. } => 10,
            FileFault::TooLong => 11,
            FileFault::OutputTooShort => 12,
        }
    }

    fn place(self) -> usize
        ensures { result ≡ fault_place self }
    {
        match self {
            FileFault::Record { fault } => fault.place(),
            FileFault::TrailingByte { place } => place,
            FileFault::TooLong => LONGEST_FILE,
            FileFault::OutputTooShort => 0,
        }
    }

    // The kind of the record that the fault lies in, if it lies in one.
    fn kind(self) -> Option<RecordKind>
        ensures { result ≡ fault_record_kind self }
    {
        match self {
            FileFault::Record { fault } => Some(fault.kind()),
            _ => None,
        }
    }

    fn layer(self) -> Layer
        ensures { result ≡ fault_layer self }
    {
        match self {
            FileFault::Record { fault } => fault.layer(),
            _ => Layer::File,
        }
    }

    /// The fault as it is printed.
    pub fn numbers(self) -> FaultNumbers
        ensures { result ≡ fault_numbers self }
    {
        FaultNumbers {
            cause: self.cause(),
            place: self.place(),
            kind: self.kind().map_or(0, u8::from),
            layer: u8::from(self.layer()),
        }
    }
}
