// House: a job file becomes the one fixed text of its job in a lent buffer, or one numbered refusal.
#![tactic(auto)]

ghost use Rattle.std.specs.Prelude.{◌≡◌, length};
ghost use Rattle.jobfile.specs.Read.{read_job};
ghost use Rattle.house.specs.HouseText.{house_text};
ghost use Rattle.house.specs.Promises.{IsFixed, FixedLength, ReadsBack, OneText, FixedAgain};
ghost use Rattle.answers.specs.Answers.{answer_values, document_values, text_answer, RightFor, buffer_after, OfWritten};

use answers::TextRefusal;

// Writes the fixed text of a job into a buffer. It is written into a buffer of its own first, which every fixed text fits, so that its
// length is known before a byte of the lent one is written; then it is copied there.
pub fn house(job: &[u8], out: &mut [u8]) -> Result<usize, TextRefusal>
    ensures answer { result ≡ text_answer house_text (read_job job.now) (length out.old) }
    ensures values { answer_values result ≡ document_values house_text (read_job job.now) (length out.old) }
    ensures right { RightFor FixedLength job.now (length out.old) result }
    ensures buffer { out.new ≡ buffer_after house_text (read_job job.now) out.old }
    ensures fixed { OfWritten IsFixed (read_job job.now) result out.new }
    ensures read_back { OfWritten ReadsBack (read_job job.now) result out.new }
    ensures one_text { OfWritten OneText (read_job job.now) result out.new }
    ensures again { OfWritten (λ j text. FixedAgain text) (read_job job.now) result out.new }
{
    let accepted = reader::accept(job)?;
    let mut fixed = [0u8; 28564];
    let needed = housewriter::write_house(&accepted, &mut fixed);
    answers::put_answer(&fixed[..needed], out)
}
