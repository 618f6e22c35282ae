// A message to show and to try.
ghost use Rattle.std.specs.Prelude.{◌≡◌};
ghost use Rattle.writer.specs.Examples.{request, WorkedExamples};

// The octets of a connection request: source 5, class 3, subsystem 254, credit 4.
#[tactic(auto, using(crate::proofs::Examples::worked_examples))]
pub fn example_request() -> [u8; 14]
    ensures octets { result ≡ request }
    ensures examples { WorkedExamples }
{
    [
        0x01, 0x05, 0x00, 0x00, 0x03, 0x02, 0x04, 0x02, 0x42, 0xfe, 0x09, 0x01, 0x04, 0x00,
    ]
}
