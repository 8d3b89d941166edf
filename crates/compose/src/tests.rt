//! What is read of a few texts.
use crate::composition::Composition;
use std::alloc::Global;
use std::test::Fail;
use turn_file::plan::{Algorithm, Level, Script};

const EDITED: &[u8] = b"# by hand, in any bytes: \xff\xfe

levels\t002 # a stack
  level 1 mcs fan-out 1\r
level 2 ticket fan-out 0002 handoff-limit 70000# too many
\t
script 0 turns 1 rest 2 hold 3
script 1 turns 0 rest 0 hold 4294967295
schedule 0 01
schedule # nobody

schedule 255 256 4294967295";

#[test]
fn edited(rt: HostRuntime) -> Result<(), Fail> {
    let composition = Composition::read(rt.alloc(), EDITED)?;
    let plan = composition.plan();
    assert_eq!(rt; plan.level_count, 2);
    let top = plan.levels[0];
    assert_eq!(rt;
        top,
        Level {
            algorithm: Algorithm::Mcs,
            fan_out: 1,
            handoff_limit: 0,
        }
    );
    let second = plan.levels[1];
    assert_eq!(rt;
        second,
        Level {
            algorithm: Algorithm::Ticket,
            fan_out: 2,
            handoff_limit: 70_000,
        }
    );
    let script = plan.scripts[0];
    assert_eq!(rt;
        script,
        Script {
            turns: 1,
            rest: 2,
            hold: 3,
        }
    );
    let last = plan.scripts[1];
    assert_eq!(rt; last.hold, 4_294_967_295);
    assert_eq!(rt; plan.schedule, [0, 1, 255, 255, 255].as_slice());
    Ok(())
}

// The rest of a text is not read where the levels or the workers are too many or none.
#[test]
fn impossible(rt: HostRuntime) -> Result<(), Fail> {
    let levels = Composition::read(rt.alloc(), b"levels 5 ..")?;
    assert_eq!(rt; levels.plan().level_count, 5);
    let text = b"levels 1\nlevel 1 mcs fan-out 65\n..";
    let workers = Composition::read(rt.alloc(), text)?;
    assert_eq!(rt; workers.plan().workers(), 65);
    Ok(())
}

fn failure_of(heap: Global, text: &str) -> Result<String, Fail> {
    let failure = Composition::read(heap, text.as_bytes())
        .err()
        .ok_or("the text is read")?;
    Ok(failure.to_string(heap)?)
}

#[test]
fn unreadable(rt: HostRuntime) -> Result<(), Fail> {
    for (text, failure) in [
        ("\n# nothing\n", "line 3: expected levels"),
        (
            "levels 4294967296",
            "line 1: expected a number up to 4294967295",
        ),
        ("levels 1\nlevel 1 clh", "line 2: expected ticket or mcs"),
        ("levels 1\n\nlevel 2", "line 3: expected level 1"),
        (
            "levels 1\nlevel 1 mcs fan-out 1 handoff-limit 1",
            "line 2: expected the end of the line",
        ),
        (
            "levels 1\nlevel 1 mcs fan-out 1\nscript 0 turns 1 hold 0",
            "line 3: expected rest",
        ),
    ] {
        assert_eq!(rt; failure_of(rt.alloc(), text)?.as_str(), failure);
    }
    Ok(())
}
