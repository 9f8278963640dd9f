// The lines of a layout judged one by one: what the check keeps of the lines above, by value, and what each line leads to.
#![tactic(auto)]

mod found;
pub mod nets;
pub mod wires;

ghost use Rattle.std.specs.Prelude.{◌≡◌, ◌↔◌, IsTrue, Option, is_some, get_or, List, ℕ, ◌≤◌, ◌<◌, eqb, ltb, length, unwrap_or, true, None, IfOk, IfErr, IfSome, MatchResult, Err};
ghost use Rattle.board.specs.Job.{Job};
ghost use Rattle.board.specs.Accepted.{AcceptedJob};
ghost use Rattle.board.specs.declared.Track as B;
ghost use Rattle.candidates.specs.Placed.{none_or};
ghost use Rattle.layout.specs.Tree as Tree;
ghost use Rattle.layout.specs.Tree.{Line, opens, loose, closes};
ghost use Rattle.drc.specs.Pass.{PassState, pass_line};
ghost use Rattle.judging.specs.declared.LinesJudged.TheVariants.{Running};
ghost use Rattle.judging.specs.Judged.{KeepsState, KeepsStep};
ghost use Rattle.judging.specs.Values.{position_numbered, track_of, closed_of, broken_track, is_track_turn, is_wire_turn, is_end_line};

use board::{Row, Track};
pub use found::{NetFound, WireDrawn};

// What is kept of the lines above, where `(layout` stands above and `)` does not: the last track line, its track, its line, and what remains
// of the sum that it prints, if its wires so far don't add up to more; the lowest row of the last wire drawn on the track; the number of the
// last loose line, if one stands above; and the line of the first broken wire of the track. The track and the row are 0 where there is none,
// which is below each that can follow.
#[derive(Clone, Copy)]
pub struct LinesAbove {
    pub track: Track,
    pub line: usize,
    pub remaining: Option<usize>,
    pub lowest: Row,
    pub last: Option<usize>,
    pub breach: Option<usize>,
}

// How far the lines above go, and what is kept of them.
#[derive(Clone, Copy)]
pub enum LinesJudged {
    // nothing stands above
    Unbegun,
    // `(layout` stands above, and `)` does not
    Running(LinesAbove),
    // `)` stands above
    Finished,
}

// Whether each of the first `count` nets has a line above.
pub fn all_lined(stands: &[Option<Track>; 512], count: usize) -> bool
    requires { count ≤ 512 }
    ensures { IsTrue result ↔ ((k : ℕ) → k < count → is_some (get_or stands.now k None) ≡ true) }
{
    stands[..count].iter().all(|track| track.is_some())
}

impl LinesAbove {
    // The line at which the layout is broken where the judging closes at a line that cannot stand there: that of the first broken wire of
    // the track above, or that line.
    pub fn closed(self, line: usize) -> usize
        ensures { result ≡ unwrap_or self.breach line }
    {
        self.breach.unwrap_or(line)
    }

    // The wires of a track end: its sum is judged, at its track line, then its wires. The error is the line at which it is broken.
    fn settled(self) -> Result<(), usize>
        ensures { MatchResult result (λ _. broken_track self ≡ None) (λ l. broken_track self ≡ Some l) }
    {
        let Some(0) = self.remaining else {
            return Err(self.line);
        };
        match self.breach {
            Some(line) => Err(line),
            None => Ok(()),
        }
    }

    // Whether the line of a track comes in turn, on a board with so many tracks.
    fn is_track_turn(self, tracks: usize, track: Track) -> bool
        ensures { result ≡ is_track_turn tracks self track.0 }
    {
        self.last.is_none() && self.track.0 < tracks && track.0 == self.track.0 + 1
    }

    // Whether a wire can stand behind the lines above, on a board with so many tracks.
    pub fn is_wire_turn(self, tracks: usize) -> bool
        ensures { result ≡ is_wire_turn tracks self }
    {
        self.last.is_none() && 1 <= self.track.0 && self.track.0 <= tracks
    }

    // Whether the number of a loose line is above that of the last one, if one stands above.
    fn is_above_last(self, number: usize) -> bool
        ensures { result ≡ none_or (λ l. ltb l number) self.last }
    {
        self.last.is_none_or(|last| last < number)
    }

    // Whether a loose line or the closing line can stand behind the lines above, on a board with so many tracks.
    fn is_end_turn(self, tracks: usize) -> bool
        ensures { result ≡ eqb self.track.0 tracks }
    {
        self.track.0 == tracks
    }
}

// What a line leads to: what is kept behind it or, as an error, the line at which the layout is broken.
impl LinesJudged {
    // The track of the last track line; track 0, which has no blocks, where no track is judged.
    pub fn track(self) -> Track
        ensures { result ≡ track_of self }
    {
        match self {
            LinesJudged::Running(above) => above.track,
            LinesJudged::Unbegun | LinesJudged::Finished => Track(0),
        }
    }

    // The line at which the layout is broken where the judging closes at a line that is not of the form or cannot stand there.
    pub fn closed(self, line: usize) -> usize
        ensures { result ≡ closed_of self line }
    {
        match self {
            LinesJudged::Running(above) => above.closed(line),
            LinesJudged::Unbegun | LinesJudged::Finished => line,
        }
    }

    // What the opening line leads to.
    pub fn take_opening(self, line: usize) -> Result<LinesJudged, usize>
        ensures keeps_step { (job : Job) (st : PassState) (stands : List (Option B.Track)) → KeepsState job st self stands → KeepsStep job (pass_line job line st opens) result stands }
        ensures track { IfOk result (λ m. (track_of m).0 ≡ 0) }
    {
        match self {
            LinesJudged::Unbegun => Ok(LinesJudged::Running(LinesAbove {
                track: Track(0),
                line: 0,
                remaining: Some(0),
                lowest: Row(0),
                last: None,
                breach: None,
            })),
            LinesJudged::Running(above) => Err(above.closed(line)),
            LinesJudged::Finished => Err(line),
        }
    }

    // What a track line leads to, on a board with so many tracks.
    pub fn take_track(
        self,
        tracks: usize,
        line: usize,
        track: Track,
        printed: usize,
    ) -> Result<LinesJudged, usize>
        ensures keeps_step { (job : Job) (st : PassState) (stands : List (Option B.Track)) → job.board.tracks ≡ tracks → KeepsState job st self stands → KeepsStep job (pass_line job line st (Tree.track track.0 printed)) result stands }
        ensures track { IfOk result (λ m. ((track_of m).0 ≡ track.0) × (track.0 ≤ tracks)) }
    {
        let LinesJudged::Running(above) = self else {
            return Err(line);
        };
        if !above.is_track_turn(tracks, track) {
            return Err(above.closed(line));
        }
        above.settled()?;
        Ok(LinesJudged::Running(LinesAbove {
            track,
            line,
            remaining: Some(printed),
            lowest: Row(0),
            last: above.last,
            breach: None,
        }))
    }

    // What is kept of the lines above, where a loose line or the closing line can stand below them and the last track is not broken.
    fn ended(self, tracks: usize, line: usize) -> Result<LinesAbove, usize>
        ensures running { IfOk result (λ j. (self ≡ Running j) × (eqb j.track.0 tracks ≡ true) × (broken_track j ≡ None)) }
        ensures keeps_step { IfErr result (λ l. (job : Job) (st : PassState) (x : Line) (stands : List (Option B.Track)) → is_end_line x ≡ true → job.board.tracks ≡ tracks → KeepsState job st self stands → KeepsStep job (pass_line job line st x) (Err l) stands) }
    {
        let LinesJudged::Running(above) = self else {
            return Err(line);
        };
        if !above.is_end_turn(tracks) {
            return Err(above.closed(line));
        }
        above.settled()?;
        Ok(above)
    }

    // What a loose line leads to, where `index` is the index of the net with its number, if a net has it.
    pub fn take_loose(
        self,
        tracks: usize,
        line: usize,
        number: usize,
        index: Option<usize>,
        stands: &mut [Option<Track>; 512],
    ) -> Result<LinesJudged, usize>
        requires { IfSome index (λ i. i < 512) }
        ensures keeps_step { (job : Job) (st : PassState) → AcceptedJob job → job.board.tracks ≡ tracks → index ≡ position_numbered number job.nets → KeepsState job st self stands.old → KeepsStep job (pass_line job line st (loose number)) result stands.new }
        ensures track { IfOk result (λ m. track_of m ≡ track_of self) }
    {
        let above = self.ended(tracks, line)?;
        let Some(index) = index else {
            return Err(line);
        };
        if stands[index].is_some() || !above.is_above_last(number) {
            return Err(line);
        }
        stands[index] = Some(above.track);
        Ok(LinesJudged::Running(LinesAbove {
            last: Some(number),
            ..above
        }))
    }

    // What the closing line leads to, where the job has `count` nets.
    pub fn take_closing(
        self,
        tracks: usize,
        line: usize,
        stands: &[Option<Track>; 512],
        count: usize,
    ) -> Result<LinesJudged, usize>
        requires { count ≤ 512 }
        ensures keeps_step { (job : Job) (st : PassState) → AcceptedJob job → job.board.tracks ≡ tracks → length job.nets ≡ count → KeepsState job st self stands.now → KeepsStep job (pass_line job line st closes) result stands.now }
        ensures track { IfOk result (λ m. (track_of m).0 ≡ 0) }
    {
        let above = self.ended(tracks, line)?;
        if !all_lined(stands, count) {
            return Err(line);
        }
        Ok(LinesJudged::Finished)
    }
}
