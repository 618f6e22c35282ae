// Calls with what they must answer, on any empty bench route with room for three messages toward each end.
use message::fault::{Fault, Refusal};
use route::BenchRoute;
use std::process::Abort;

// A call, and behind what it is given its answer.
#[derive(Clone, Copy)]
enum Step {
    Put(u32, &'static [u8], Result<(), Fault>),
    Take(u32, Result<&'static [u8], Fault>),
    Lose(u32, u32, Result<(), Fault>),
    Count(u32, Result<u32, Fault>),
    Room(u32, Result<u32, Fault>),
}

const NO_SUCH_END: Fault = Fault {
    refusal: Refusal::NoSuchEnd,
    place: 0,
};

const NO_MESSAGE: Fault = Fault {
    refusal: Refusal::NoMessage,
    place: 0,
};

const MESSAGE_LENGTH: Fault = Fault {
    refusal: Refusal::MessageLength,
    place: 0,
};

const WAY_FULL: Fault = Fault {
    refusal: Refusal::WayFull,
    place: 0,
};

// The longest message, and one octet too many.
const LONGEST: [u8; 268] = [9; 268];

const LONG: [u8; 269] = [7; 269];

const TABLE: [Step; 37] = [
    // nothing there yet
    Step::Count(0, Ok(0)),
    Step::Room(0, Ok(3)),
    Step::Take(0, Err(NO_MESSAGE)),
    Step::Lose(0, 0, Err(NO_MESSAGE)),
    // there are two ends
    Step::Put(2, &[], Err(NO_SUCH_END)),
    Step::Take(2, Err(NO_SUCH_END)),
    Step::Lose(2, 0, Err(NO_SUCH_END)),
    Step::Count(4_294_967_295, Err(NO_SUCH_END)),
    Step::Room(2, Err(NO_SUCH_END)),
    // a message has 1 to 268 octets
    Step::Put(0, &[], Err(MESSAGE_LENGTH)),
    Step::Put(0, &LONG, Err(MESSAGE_LENGTH)),
    Step::Put(0, &LONGEST, Ok(())),
    // three fit, and the length is checked before the room
    Step::Put(0, &[1], Ok(())),
    Step::Put(0, &[2, 2], Ok(())),
    Step::Put(0, &[3], Err(WAY_FULL)),
    Step::Put(0, &[], Err(MESSAGE_LENGTH)),
    Step::Count(0, Ok(3)),
    Step::Room(0, Ok(0)),
    // the other end has a list of its own
    Step::Count(1, Ok(0)),
    Step::Put(1, &[11], Ok(())),
    // the oldest comes first
    Step::Take(0, Ok(&LONGEST)),
    Step::Take(0, Ok(&[1])),
    Step::Room(0, Ok(2)),
    // past the last slot of a ring, and into records that were used before
    Step::Put(0, &[4], Ok(())),
    Step::Put(0, &[5], Ok(())),
    // one is lost in the middle
    Step::Lose(0, 3, Err(NO_MESSAGE)),
    Step::Lose(0, 1, Ok(())),
    Step::Count(0, Ok(2)),
    Step::Take(0, Ok(&[2, 2])),
    Step::Take(0, Ok(&[5])),
    Step::Take(0, Err(NO_MESSAGE)),
    // the oldest is lost, and the newest
    Step::Put(1, &[12], Ok(())),
    Step::Put(1, &[13], Ok(())),
    Step::Lose(1, 0, Ok(())),
    Step::Lose(1, 1, Ok(())),
    Step::Take(1, Ok(&[12])),
    Step::Room(1, Ok(3)),
];

// Makes each call of the table in turn, and compares its answer.
pub(crate) fn drive<R: BenchRoute>(rt: &impl Abort, route: &mut R) {
    for step in TABLE {
        make(rt, route, step);
    }
}

fn make<R: BenchRoute>(rt: &impl Abort, route: &mut R, step: Step) {
    match step {
        Step::Put(end, message, answer) => assert_eq!(rt; route.put(end, message), answer),
        Step::Take(end, answer) => take(rt, route, end, answer),
        Step::Lose(end, position, answer) => assert_eq!(rt; route.lose(end, position), answer),
        Step::Count(end, answer) => assert_eq!(rt; route.count(end), answer),
        Step::Room(end, answer) => assert_eq!(rt; route.room(end), answer),
    }
}

// Takes into a buffer of 300 octets, which keeps what stands behind the message.
fn take<R: BenchRoute>(
    rt: &impl Abort,
    route: &mut R,
    end: u32,
    answer: Result<&'static [u8], Fault>,
) {
    let mut buffer = [0xeeu8; 300];
    let taken = route.take(end, &mut buffer);
    match answer {
        Ok(message) => {
            assert_eq!(rt; taken, Ok(message.len()));
            assert!(rt; message.len() <= 268);
            assert_eq!(rt; &buffer[0..message.len()], message);
            assert!(rt; buffer[message.len()] == 0xee);
        }
        Err(fault) => {
            assert_eq!(rt; taken, Err(fault));
            assert!(rt; buffer[0] == 0xee);
        }
    }
}
