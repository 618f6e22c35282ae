// Lines that are no message.
use crate::input::{answer, read};
use std::io;
use std::test::Fail;

const SKIPPED: [&str; 4] = ["", " \t", "# 01 02", "  # -"];

const FAULTS: [(&str, &str); 7] = [
    ("01 0g", "column 5: not a hex digit"),
    ("01 ü", "column 4: not a hex digit"),
    (":01", "column 1: not a hex digit"),
    ("0 1", "column 1: one hex digit, where an octet has two"),
    ("01:2", "column 4: one hex digit, where an octet has two"),
    ("2# 3", "column 1: one hex digit, where an octet has two"),
    ("- 0", "column 3: more text behind the dash"),
];

#[test]
fn skipped(rt: HostRuntime) {
    for line in SKIPPED {
        assert!(rt; matches!(answer(rt.alloc(), line), Ok(None)), "{}", line);
    }
}

#[test]
fn faults(rt: HostRuntime) -> Result<(), Fail> {
    let heap = rt.alloc();
    for (line, says) in FAULTS {
        let Ok(Err(fault)) = read(heap, Ok(line.to_string(heap)?)) else {
            return Err(Fail::new(line));
        };
        assert_eq!(rt; fault.to_string(heap)?.as_str(), says, "{}", line);
    }
    Ok(())
}

// A line that is not UTF-8, as the lines of a reader give it, is a fault of the line and no failure.
#[test]
fn not_utf_8(rt: HostRuntime) -> Result<(), Fail> {
    let heap = rt.alloc();
    let line = Err(io::Error::from(io::ErrorKind::InvalidData));
    let Ok(Err(fault)) = read(heap, line) else {
        return Err(Fail::new("not UTF-8"));
    };
    assert_eq!(rt; fault.to_string(heap)?.as_str(), "not UTF-8 text");
    Ok(())
}
