// Route: a job file becomes the text of a layout in a lent buffer, or one numbered refusal.
#![tactic(auto)]

ghost use Rattle.std.specs.Prelude.{◌≡◌, length};
ghost use Rattle.board.specs.Accepted.{AcceptedJob};
ghost use Rattle.jobfile.specs.Read.{read_job};
ghost use Rattle.planning.specs.Plan.{plan_of};
ghost use Rattle.sound.specs.Sound.{Sound};
ghost use Rattle.routing.specs.Promises.{ShortestText, UnbeatenText};
ghost use Rattle.routing.specs.Route.{route_text};
ghost use Rattle.answers.specs.Answers.{answer_values, answer_for, buffer_for, document_values, text_answer, RightFor, buffer_after, OfWritten};
ghost use Rattle.router.specs.LayoutLength.{LayoutLength};

use answers::TextRefusal;
use board::Job;

// Draws the layout of a job into a buffer of its own, which every layout fits, so that its length is known before a byte of the lent one is
// written; then its text is copied there.
fn put_layout(job: &Job, out: &mut [u8]) -> Result<usize, TextRefusal>
    requires { AcceptedJob job.now }
    ensures answer { result ≡ answer_for (route_text job.now) (length out.old) }
    ensures buffer { out.new ≡ buffer_for (route_text job.now) out.old }
{
    let plan = planner::plan_job(job);
    let mut drawn = [0u8; 64000];
    let needed = drawer::draw(job, &plan, &mut drawn);
    answers::put_answer(&drawn[..needed], out)
}

// Routes a job into a buffer.
pub fn route(job: &[u8], out: &mut [u8]) -> Result<usize, TextRefusal>
    ensures answer { result ≡ text_answer route_text (read_job job.now) (length out.old) }
    ensures values { answer_values result ≡ document_values route_text (read_job job.now) (length out.old) }
    ensures right { RightFor LayoutLength job.now (length out.old) result }
    ensures buffer { out.new ≡ buffer_after route_text (read_job job.now) out.old }
    ensures shortest { OfWritten (λ j text. ShortestText j (plan_of j) text) (read_job job.now) result out.new }
    ensures sound { OfWritten (λ j text. Sound j text) (read_job job.now) result out.new }
    ensures unbeaten { OfWritten (λ j text. UnbeatenText j text) (read_job job.now) result out.new }
{
    let accepted = reader::accept(job)?;
    put_layout(&accepted, out)
}
