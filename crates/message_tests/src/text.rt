// Text that is no message: what its fault says.
use hex_text::text::HexFault;
use notation::description::describe;
use std::test::Fail;

const BLANK: [&str; 3] = ["", " \t", " \r"];

const FAULTS: [(&str, &str); 6] = [
    ("01 0g", "column 5: not a hex digit"),
    ("01 ü", "column 4: not a hex digit"),
    (":01", "column 1: not a hex digit"),
    ("0 1", "column 1: one hex digit, where an octet has two"),
    ("01:2", "column 4: one hex digit, where an octet has two"),
    ("- 0", "column 3: more text behind the dash"),
];

#[test]
fn blank(rt: HostRuntime) {
    for text in BLANK {
        assert!(rt;
            matches!(describe(rt.alloc(), text), Err(HexFault::Nothing)),
            "{}",
            text
        );
    }
}

#[test]
fn faults(rt: HostRuntime) -> Result<(), Fail> {
    let heap = rt.alloc();
    for (text, says) in FAULTS {
        let Err(fault) = describe(heap, text) else {
            return Err(Fail::new(text));
        };
        assert_eq!(rt; fault.to_string(heap)?.as_str(), says, "{}", text);
    }
    Ok(())
}
