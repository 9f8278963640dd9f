// The step over a line of a layout text: the line is read at its place, its net is looked up, and what it leads to is worked out.
#![tactic(auto)]

mod tables;

ghost use Rattle.std.specs.Prelude.{◌≡◌, ◌≤◌, length, max, Option, IfOk, IfSome, Some};
ghost use Rattle.board.specs.Job.{Job};
ghost use Rattle.board.specs.Accepted.{AcceptedJob};
ghost use Rattle.layout.specs.Tree.{Wire, Line, wire};
ghost use Rattle.layout.specs.ReadBack.{read_line};
ghost use Rattle.drc.specs.Pass.{PassState, pass_line, pass_step};
ghost use Rattle.judging.specs.Judged.{KeepsState, KeepsStep};
ghost use Rattle.judging.specs.Values.{track_of, MapOf};
ghost use Rattle.layoutsteps.specs.LayoutSteps.{layout_step, form_number, LineIs};
ghost use Rattle.layoutsteps.specs.Found.{LineOfWire, LineOfForm, FoundFor};

use board::{Board, Track};
use judging::{LinesJudged, NetFound, WireDrawn};
use layoutforms::LayoutForm;
use lines::Place;
pub use tables::{NetSlot, NetTables, find_slot};

// A line of a text: its form, if it is one of a layout; its first byte and the one after its last; and the place behind it.
#[derive(Clone, Copy)]
pub struct LayoutLine {
    pub form: Option<LayoutForm>,
    pub from: usize,
    pub to: usize,
    pub next: Place,
}

// Reads the line at a place, if one is left; a last line without byte 10 is not of the form.
#[tactic(auto, unfolding(layoutforms::specs::LayoutForms::layout_form_of, crate::specs::LayoutSteps::line_read, crate::specs::LayoutSteps::layout_on, crate::specs::LayoutSteps::layout_step))]
pub fn line_at(place: Place, s: &[u8]) -> Option<LayoutLine>
    requires { place.passed ≤ place.at }
    ensures { result ≡ layout_step s.now place }
{
    let line = place.next_line(s)?;
    let form = if line.next.at == line.to {
        None
    } else {
        layoutforms::read_layout_line(&s[line.from..line.to])
    };
    Some(LayoutLine {
        form,
        from: line.from,
        to: line.to,
        next: line.next,
    })
}

// The number of the net that a line is of, if it is of one.
fn form_number(form: Option<LayoutForm>) -> Option<usize>
    ensures { result ≡ form_number form }
{
    match form {
        Some(LayoutForm::Wire { number }) => Some(number),
        Some(LayoutForm::Loose { number }) => Some(number),
        _ => None,
    }
}

// What a wire line leads to, where `found` is the net of its number, if a net has it.
fn take_wire(
    board: Board,
    found: Option<NetFound>,
    words: &[u64; 16],
    stands: &mut [Option<Track>; 512],
    m: LinesJudged,
    line: usize,
    s: &[u8],
) -> Result<LinesJudged, usize>
    requires found_on_board { IfSome found (λ n. n.net.board ≡ board) }
    requires line_of_wire { LineOfWire found s.now }
    ensures keeps_step { (job : Job) (st : PassState) (w : Wire) → AcceptedJob job → job.board ≡ board → FoundFor job w.number found → read_line s.now ≡ Some (wire w) → MapOf job (track_of m).0 words.now → KeepsState job st m stands.old → KeepsStep job (pass_line job line st (wire w)) result stands.new }
    ensures track { IfOk result (λ n. track_of n ≡ track_of m) }
{
    let LinesJudged::Running(above) = m else {
        return Err(line);
    };
    if !above.is_wire_turn(board.tracks) {
        return Err(above.closed(line));
    }
    let Some(found) = found else {
        return Ok(LinesJudged::Running(above.add_undrawn(line, 0)));
    };
    let behind = match drawnwires::drawn_place(found.net, above.track, s) {
        Some(wired) => above.add_drawn(WireDrawn { found, wired }, words, stands, line),
        None => above.add_undrawn(line, found.net.net.weight),
    };
    Ok(LinesJudged::Running(behind))
}

// What a line leads to, where the job has `count` nets and s is the line, without its byte 10.
pub fn take_line(
    board: Board,
    count: usize,
    found: Option<NetFound>,
    words: &[u64; 16],
    stands: &mut [Option<Track>; 512],
    m: LinesJudged,
    line: usize,
    form: Option<LayoutForm>,
    s: &[u8],
) -> Result<LinesJudged, usize>
    requires count_bound { count ≤ 512 }
    requires found_on_board { IfSome found (λ n. n.net.board ≡ board) }
    requires line_of_form { LineOfForm found form s.now }
    ensures keeps_step { (job : Job) (st : PassState) (x : Option Line) → AcceptedJob job → job.board ≡ board → length job.nets ≡ count → IfSome (form_number form) (λ k. FoundFor job k found) → LineIs s.now x form → MapOf job (track_of m).0 words.now → KeepsState job st m stands.old → KeepsStep job (pass_step job line st x) result stands.new }
    ensures track { IfOk result (λ n. (track_of n).0 ≤ max board.tracks (track_of m).0) }
{
    let Some(form) = form else {
        return Err(m.closed(line));
    };
    match form {
        LayoutForm::Opening => m.take_opening(line),
        LayoutForm::Track { track, sum } => m.take_track(board.tracks, line, Track(track), sum),
        LayoutForm::Wire { number: _ } => take_wire(board, found, words, stands, m, line, s),
        LayoutForm::Loose { number } => {
            let index = found.map(|net| net.index);
            m.take_loose(board.tracks, line, number, index, stands)
        }
        LayoutForm::Closing => m.take_closing(board.tracks, line, stands, count),
    }
}
