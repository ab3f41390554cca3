use super::*;
use std::test::Fail;
use type30::clock::Clock;

fn fault_of(heap: Global, text: &str) -> Option<TextFault> {
    parse(heap, text).err()
}

#[test]
fn a_good_text(rt: HostRuntime) -> Result<(), Fail> {
    let text =
        "# a clock\nsecond 604799\n\nclock.a0 -7 # -4e-10 s\n clock.t_oc   2015\nclock.a2 0\r\nclock.a1 12#\n  # done";
    let mut entries = parse(rt.alloc(), text)?;
    assert_eq!(rt; entries.take("second")?, 604799);
    assert_eq!(rt; entries.finish(), Err(TextFault::Unknown { line: 4 }));
    let clock = entries.record::<Clock>()?;
    assert_eq!(rt; clock.t_oc, 2015);
    assert_eq!(rt; clock.a0, -7);
    assert_eq!(rt; clock.a1, 12);
    assert_eq!(rt; clock.a2, 0);
    assert_eq!(rt; entries.finish(), Ok(()));
    Ok(())
}

#[test]
fn lines_that_are_refused(rt: HostRuntime) {
    let heap = rt.alloc();
    assert_eq!(rt;
        fault_of(heap, "\ntype"),
        Some(TextFault::NoNumber { line: 2 })
    );
    assert_eq!(rt;
        fault_of(heap, "type # 30"),
        Some(TextFault::NoNumber { line: 1 })
    );
    assert_eq!(rt;
        fault_of(heap, "type 3x"),
        Some(TextFault::BadNumber { line: 1 })
    );
    assert_eq!(rt;
        fault_of(heap, "a 9223372036854775808"),
        Some(TextFault::BadNumber { line: 1 })
    );
    assert_eq!(rt;
        fault_of(heap, "type 30 40"),
        Some(TextFault::TooLong { line: 1 })
    );
    assert_eq!(rt;
        fault_of(heap, "type 30\nsecond 1\n\ntype 30"),
        Some(TextFault::Doubled { line: 4 })
    );
}

#[test]
fn a_name_that_is_missing(rt: HostRuntime) -> Result<(), Fail> {
    let heap = rt.alloc();
    let mut entries = parse(
        heap,
        "clock.t_oc 1\nclock.a0 2\nclock.a2 3\nclock..a1 4\nclocka1 5",
    )?;
    let Err(fault) = entries.record::<Clock>() else {
        return Err(Fail::new("a1 was found"));
    };
    assert_eq!(rt; fault, TextFault::Missing(Name::Field("clock", "a1")));
    let words = format!(in heap; "{fault}")?;
    assert_eq!(rt; words.as_str(), "clock.a1 is missing");
    assert_eq!(rt;
        entries.take("type"),
        Err(TextFault::Missing(Name::Plain("type")))
    );
    Ok(())
}
