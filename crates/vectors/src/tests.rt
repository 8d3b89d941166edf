//! What is known of numbers, of a few files and of a plan that is written.
use std::test::Fail;
use turn_file::fault::{FileFault, NumberFault, RecordFault};
use turn_file::number::read_number;
use turn_file::plan::{Algorithm, Level, Plan, Script};
use turn_file::plan_reader::read_plan;
use turn_file::reader::Reader;
use turn_file::record::Record;
use turn_writer::plan_writer::write_plan;

// Two levels, two workers and 17 entries.
const HANDOFF: [u8; 30] = [
    2, 1, 1, 1, 2, 2, 1, 0, 0, 1, 0, 0, 17, 0, 0, 0, 0, 0, 0, 1, 1, 0, 0, 0, 1, 1, 1, 1, 1, 1,
];

#[test]
fn numbers(rt: HostRuntime) {
    assert_eq!(rt;
        read_number(&[0xff, 0xff, 0xff, 0xff, 0x0f], 0),
        Ok((4_294_967_295, 5))
    );
    assert_eq!(rt;
        read_number(&[0xff, 0xff, 0xff, 0xff, 0x10], 0),
        Err(NumberFault::TooLarge { place: 0 })
    );
    assert_eq!(rt;
        read_number(&[0x80, 0x00], 0),
        Err(NumberFault::Padded { place: 0 })
    );
    assert_eq!(rt;
        read_number(&[1, 0x80], 1),
        Err(NumberFault::Ends { place: 1 })
    );
}

// Eight lanes of eight workers, each with a script of zeros, and no entry.
#[test]
fn sixty_four_workers(rt: HostRuntime) {
    let mut file = [0; 199];
    file[..6].copy_from_slice(&[2, 1, 8, 1, 8, 1]);
    let mut plan = Plan::blank();
    assert_eq!(rt; read_plan(&file, &mut plan), Ok(()));
    let second = plan.levels[1];
    assert_eq!(rt;
        second,
        Level {
            algorithm: Algorithm::Ticket,
            fan_out: 8,
            handoff_limit: 1,
        }
    );
}

#[test]
fn seventy_two_workers(rt: HostRuntime) {
    let mut plan = Plan::blank();
    let fault = FileFault::Record {
        fault: RecordFault::FanOut { place: 4 },
    };
    assert_eq!(rt; read_plan(&[2, 1, 8, 1, 9, 1], &mut plan), Err(fault));
    assert_eq!(rt; plan.level_count, 0, "a refusal leaves the plan as it was");
}

#[test]
fn handoff(rt: HostRuntime) -> Result<(), Fail> {
    let mut plan = Plan::blank();
    read_plan(&HANDOFF, &mut plan)?;
    assert_eq!(rt; plan.level_count, 2);
    let top = plan.levels[0];
    assert_eq!(rt;
        top,
        Level {
            algorithm: Algorithm::Ticket,
            fan_out: 1,
            handoff_limit: 0,
        }
    );
    let second = plan.levels[1];
    assert_eq!(rt;
        second,
        Level {
            algorithm: Algorithm::Ticket,
            fan_out: 2,
            handoff_limit: 2,
        }
    );
    for script in plan.scripts.iter().take(2) {
        assert_eq!(rt;
            *script,
            Script {
                turns: 1,
                rest: 0,
                hold: 0,
            }
        );
    }
    assert_eq!(rt; plan.schedule, &HANDOFF[13..30]);
    Ok(())
}

fn place(record: &Record<'_>) -> usize {
    match record {
        Record::Levels { part, .. }
        | Record::Level { part, .. }
        | Record::Script { part, .. }
        | Record::Schedule { part } => part.place,
    }
}

#[test]
fn records_in_order(rt: HostRuntime) -> Result<(), Fail> {
    let mut reader = Reader::new(&HANDOFF)?;
    for expected in [0, 1, 3, 6, 9, 13] {
        let record = reader.next_record()?.ok_or("the records end early")?;
        assert_eq!(rt; place(&record), expected);
    }
    assert!(rt; reader.next_record()?.is_none());
    Ok(())
}

#[test]
fn handoff_written_back(rt: HostRuntime) -> Result<(), Fail> {
    let mut plan = Plan::blank();
    read_plan(&HANDOFF, &mut plan)?;
    let mut out = [0xaa; 32];
    assert_eq!(rt; write_plan(&plan, &mut out), Ok(30));
    assert_eq!(rt; &out[0..30], &HANDOFF[0..30]);
    assert_eq!(rt;
        &out[30..32],
        [0xaa, 0xaa].as_slice(),
        "what is behind the file stays as it was"
    );
    Ok(())
}

#[test]
fn refused_plan(rt: HostRuntime) -> Result<(), Fail> {
    let mut plan = Plan::blank();
    read_plan(&HANDOFF, &mut plan)?;
    let mut out = [0xaa; 29];
    assert_eq!(rt; write_plan(&plan, &mut out), Err(FileFault::OutputTooShort));
    plan.scripts[1].hold = 65_536;
    let fault = FileFault::Record {
        fault: RecordFault::ScriptNumber { place: 11 },
    };
    assert_eq!(rt; write_plan(&plan, &mut out), Err(fault));
    assert_eq!(rt; out, [0xaa; 29], "a refusal leaves the output as it was");
    Ok(())
}
