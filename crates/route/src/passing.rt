// What can be said over any route: by its lists alone.
ghost use Rattle.std.specs.Prelude.{◌≡◌, [], IfOk, IsTrue};
ghost use Rattle.route.specs.Ways.{toward};
ghost use Rattle.route.specs.Passing.{PassAnswer, pass_after};
ghost use Rattle.route.specs.Laws.{Laws};

use crate::BenchRoute;
use message::fault::Fault;
use message::kind;

// Puts a message toward an end, takes the oldest one there, and says whether the two are the same: on an empty way they are.
#[tactic(auto, using(crate::proofs::Through::put_then_taken, crate::proofs::Through::put_then_refused))]
pub fn pass<R: BenchRoute>(route: &mut R, end: u32, message: &[u8]) -> Result<bool, Fault>
    ensures answer { PassAnswer end message.now (R.Route.ways route.old) result }
    ensures through { toward end (R.Route.ways route.old) ≡ [] → IfOk result (λ same. IsTrue same) }
    ensures after { R.Route.ways route.new ≡ pass_after end message.now (R.Route.ways route.old) }
    ensures laws { Laws }
{
    route.put(end, message)?;
    let mut buffer = [0u8; kind::LARGEST_MESSAGE];
    let size = route.take(end, &mut buffer)?;
    Ok(&buffer[0..size] == message)
}
