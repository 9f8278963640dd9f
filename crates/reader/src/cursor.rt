// The reading place of a job: a cursor by value.
ghost use Rattle.std.specs.Prelude.{◌≡◌, ◌≤◌};
ghost use Rattle.reader.specs.Cursors.{form_step};

use jobfile::Form;
use lines::Place;

// The reading place: it moves on by a whole line, never back.
#[derive(Clone, Copy)]
pub struct Cursor {
    pub place: Place,
}

impl Cursor {
    // The start of a text.
    pub fn start() -> Self
        ensures { (result.place.at ≡ 0) × (result.place.passed ≡ 0) }
    {
        let place = Place::start();
        Self { place }
    }

    // Reads the form of the line here, and moves on by that line; None at the end of the text.
    pub fn next(self, s: &[u8]) -> Option<(Form, Cursor)>
        requires { self.place.passed ≤ self.place.at }
        ensures { result ≡ form_step s.now self }
    {
        let line = self.place.next_line(s)?;
        let form = forms::read_form(&s[line.from..line.to]);
        Some((form, Cursor { place: line.next }))
    }
}
