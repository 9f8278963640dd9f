// The check of the files board.job and board.lay of the current folder.
#![tactic(auto)]

ghost use Rattle.files.specs.FileTexts.{ReadText};
ghost use Rattle.checkfiles.specs.LineOfFiles.{LineOfFiles};

use files::FileText;
use std::rt::Files;
use verdicts::PrintedLine;

// Two files as they were read, and the line that is printed for them.
#[derive(Clone, Copy)]
pub struct CheckedFiles {
    pub job: FileText,
    pub layout: FileText,
    pub line: PrintedLine,
}

// Checks the layout of one file for the job of another. The texts come back with the line, so that the contract can say whose verdict it is.
pub fn checked_files(rt: &impl Files, job_path: &[u8], layout_path: &[u8]) -> CheckedFiles
    ensures job { ReadText result.job }
    ensures layout { ReadText result.layout }
    ensures line { LineOfFiles result }
{
    let job = files::file_text(rt, job_path);
    let layout = files::file_text(rt, layout_path);
    let line = verdicts::print_check(job.text(), layout.text());
    CheckedFiles { job, layout, line }
}

// Checks board.lay for board.job, and prints the verdict. A failure to print is passed over.
pub fn check_files(rt: &(impl Files + Print)) {
    let checked = checked_files(rt, b"board.job", b"board.lay");
    let _ = rt.write_all(checked.line.text());
}
