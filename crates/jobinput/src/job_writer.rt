// The ways to write what is printed for a job: those of the two programs, and that of any operation.
ghost use Rattle.std.specs.Prelude.{ℕ, List, OnOk};
ghost use Rattle.std.specs.Io.KnownBytes.{Appends};
ghost use Rattle.board.specs.Job.{Job};
ghost use Rattle.jobfile.specs.Read.{read_job};
ghost use Rattle.routing.specs.Route.{route_text};
ghost use Rattle.house.specs.HouseText.{house_text};
ghost use Rattle.printing.specs.Printed.{printed_text};

use printing::Operation;
use std::io::{self, Write};
use std::marker::PhantomData;

// Writes the text of a job, or the line of its refusal.
pub trait JobWriter {
    ghost text: { Job → List ℕ };

    fn write<W: Write>(out: &mut W, job: &[u8]) -> io::Result<()>
        ensures { OnOk result (Appends (W.contents out.old) (W.contents out.new) (printed_text text (read_job job.now))) };
}

// Writes layouts.
pub struct Layouts;

impl JobWriter for Layouts {
    ghost text = { route_text };

    fn write<W: Write>(out: &mut W, job: &[u8]) -> io::Result<()> {
        out.write_all(printing::print_route(job).text())
    }
}

// Writes fixed texts.
pub struct FixedTexts;

impl JobWriter for FixedTexts {
    ghost text = { house_text };

    fn write<W: Write>(out: &mut W, job: &[u8]) -> io::Result<()> {
        out.write_all(printing::print_house(job).text())
    }
}

// Writes the texts of an operation.
pub struct TextsOf<T> {
    of: PhantomData<T>,
}

impl<T: Operation> JobWriter for TextsOf<T> {
    ghost text = { T.text };

    fn write<W: Write>(out: &mut W, job: &[u8]) -> io::Result<()> {
        out.write_all(printing::print_text::<T>(job).text())
    }
}
