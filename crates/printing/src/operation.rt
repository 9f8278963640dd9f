// The operations that write a text for a job.
ghost use Rattle.std.specs.Prelude.{◌≡◌, ◌≤◌, ℕ, List, length, refl};
ghost use Rattle.board.specs.Job.{Job};
ghost use Rattle.board.specs.Accepted.{AcceptedJob};
ghost use Rattle.jobfile.specs.Read.{read_job};
ghost use Rattle.routing.specs.Route.{route_text};
ghost use Rattle.house.specs.HouseText.{house_text};
ghost use Rattle.answers.specs.Answers.{text_answer, buffer_after};
ghost use Rattle.printing.specs.Promised.{RoutePromised, HousePromised};
ghost use Rattle.routing.proofs.RouteUnbeaten.{route_length, route_demanded};
ghost use Rattle.house.proofs.HouseRead.{house_short};
ghost use Rattle.house.proofs.Promised.{house_back, house_one, house_again};

use answers::TextRefusal;

// An operation that writes a text for a job into a lent buffer: the text, and what is promised of it.
pub trait Operation {
    ghost text: { Job → List ℕ };

    ghost Promised: { Job → List ℕ → Type 0 };

    fn put(job: &[u8], out: &mut [u8]) -> Result<usize, TextRefusal>
        ensures answer { result ≡ text_answer text (read_job job.now) (length out.old) }
        ensures buffer { out.new ≡ buffer_after text (read_job job.now) out.old };

    // Every text fits, and is as promised.
    ghost fits: { (j : Job) → AcceptedJob j → length (text j) ≤ 64000 };

    ghost kept: { (j : Job) → AcceptedJob j → Promised j (text j) };
}

// Writes the layout.
pub struct Route;

impl Operation for Route {
    ghost text = { route_text };

    ghost Promised = { RoutePromised };

    ghost fits = { route_length };

    ghost kept = { λ j a. let d = route_demanded j a (route_text j) refl in record { shortest = d.0; sound = d.1.0; unbeaten = d.1.1 } };

    fn put(job: &[u8], out: &mut [u8]) -> Result<usize, TextRefusal> {
        router::route(job, out)
    }
}

// Writes the fixed text.
pub struct House;

impl Operation for House {
    ghost text = { house_text };

    ghost Promised = { HousePromised };

    ghost fits = { house_short };

    ghost kept = { λ j a. record { fixed = refl; read_back = house_back j a; one_text = house_one j a; again = house_again j a } };

    fn put(job: &[u8], out: &mut [u8]) -> Result<usize, TextRefusal> {
        housestyle::house(job, out)
    }
}
