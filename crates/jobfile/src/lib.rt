// Reading a job: each line of a text is a form, and the text becomes a job by value or a refusal that names its line.
#![tactic(auto)]

ghost use Rattle.std.specs.Prelude.{◌≡◌};
ghost use Rattle.jobfile.specs.Answers.{number_of, line_of};

// What a line of a job is: blank, one of the five forms with its numbers in the order of the line, the closing bracket, or none of these. The last
// number of a net, its weight, may be left out.
#[derive(Clone, Copy)]
pub enum Form {
    Blank,
    Board,
    Rows(usize),
    Tracks(usize),
    Net(usize, usize, usize, usize, usize, Option<usize>),
    Block(usize, usize, usize),
    Close,
    Other,
}

// Why read refuses a text; all but one name the faulty line.
#[derive(Clone, Copy)]
pub enum Refusal {
    // above 64,000 bytes
    TooLong,
    // not of the form, or the text ends early
    NotOfForm(usize),
    // a number outside its range
    OutOfRange(usize),
    // a 513th net or 257th block
    TooMany(usize),
    // a net number not above that of the net before
    NumberNotAbove(usize),
    // L or R already used on its side
    PinUsed(usize),
    // L = R
    SameRow(usize),
    // no allowed length
    NoLength(usize),
    // the needed rows are more than the board has
    TooFewRows(usize),
}

impl Refusal {
    // The document's number.
    pub fn number(self) -> usize
        ensures { result ≡ number_of self }
    {
        match self {
            Refusal::TooLong => 1,
            Refusal::NotOfForm(_) => 2,
            Refusal::OutOfRange(_) => 3,
            Refusal::TooMany(_) => 4,
            Refusal::NumberNotAbove(_) => 5,
            Refusal::PinUsed(_) => 6,
            Refusal::SameRow(_) => 7,
            Refusal::NoLength(_) => 8,
            Refusal::TooFewRows(_) => 9,
        }
    }

    // The line that it names, 0 where it names none.
    pub fn line(self) -> usize
        ensures { result ≡ line_of self }
    {
        match self {
            Refusal::TooLong => 0,
            Refusal::NotOfForm(line)
            | Refusal::OutOfRange(line)
            | Refusal::TooMany(line)
            | Refusal::NumberNotAbove(line)
            | Refusal::PinUsed(line)
            | Refusal::SameRow(line)
            | Refusal::NoLength(line)
            | Refusal::TooFewRows(line) => line,
        }
    }
}
