//! Hands out the records of a turn file, one at a time.
ghost use Rattle.std.specs.Prelude.{◌≡◌};
ghost use Rattle.turn_file.specs.Reading.{opened, open_file, seen_answer, handed_out, next_from, cursor_of, moved};

use crate::fault::FileFault;
use crate::limits::LONGEST_FILE;
use crate::record::Record;
use crate::scan::Scan;
use crate::step::Stage;

/// Where a file is read, and which record comes next.
#[derive(Drop)]
pub struct Reader<'a> {
    scan: Scan<'a>,
    stage: Stage,
}

impl<'a> Reader<'a> {
    /// A reader at the beginning of the file, which must not be too long.
    pub fn new(file: &'a [u8]) -> Result<Reader<'a>, FileFault>
        ensures { opened result ≡ open_file file.now }
    {
        if file.len() > LONGEST_FILE {
            return Err(FileFault::TooLong);
        }
        Ok(Reader {
            scan: Scan { file, place: 0 },
            stage: Stage::Levels,
        })
    }

    /// The next record, or none once the file has ended as it should. A fault leaves the reader where it is.
    pub fn next_record(&mut self) -> Result<Option<Record<'a>>, FileFault>
        ensures answer { seen_answer result ≡ handed_out (next_from (cursor_of self.old)) }
        ensures after { cursor_of self.new ≡ moved (cursor_of self.old) }
    {
        let Some(step) = self.scan.step(self.stage)? else {
            return Ok(None);
        };
        self.scan.place = step.next;
        self.stage = step.stage;
        Ok(Some(step.record))
    }
}
