// What is worked out of a job once, and the net of a line looked up in it.
ghost use Rattle.std.specs.Prelude.{◌≡◌, ◌≤◌, length, map};
ghost use Rattle.candidates.specs.Placed.{padded, preceding_of};
ghost use Rattle.layoutsteps.specs.LayoutSteps.{form_number};
ghost use Rattle.layoutsteps.specs.Found.{IsNetOf, SlotFor};

use board::Job;
use judging::NetFound;
use layoutforms::LayoutForm;

// Where the net of a line is found: its index, and the index of the net that precedes it.
#[derive(Clone, Copy)]
pub struct NetSlot {
    pub index: usize,
    pub before: Option<usize>,
}

// Looks up the net of a line of a form, by its number: among the numbers of `count` nets, and in the indexes of the nets that precede them.
pub fn find_slot(
    numbers: &[usize; 512],
    before: &[Option<usize>; 512],
    count: usize,
    form: Option<LayoutForm>,
) -> Option<NetSlot>
    requires { count ≤ 512 }
    ensures { SlotFor numbers.now before.now count (form_number form) result }
{
    let number = crate::form_number(form)?;
    let index = judging::nets::net_index(numbers, count, number)?;
    Some(NetSlot {
        index,
        before: before[index],
    })
}

// A job with what is worked out of it once, by the index of its nets: their numbers, and the index of the net that precedes each.
#[derive(Clone, Copy)]
pub struct NetTables<'a> {
    pub job: &'a Job,
    pub numbers: &'a [usize; 512],
    pub before: &'a [Option<usize>; 512],
    pub ghost nets_count: { length job.now.nets ≤ 512 },
    pub ghost numbers_are: { numbers.now ≡ padded 0 (map (λ n. n.number) job.now.nets) },
    pub ghost before_are: { before.now ≡ preceding_of job.now },
}

impl<'a> NetTables<'a> {
    // Looks up the net of a line of a form among the job's nets, by its number.
    pub fn find_net(self, form: Option<LayoutForm>) -> Option<NetFound>
        ensures { IsNetOf self.entry.job.now (form_number form) result }
    {
        let job = self.job;
        let at = find_slot(self.numbers, self.before, job.nets().len(), form)?;
        Some(NetFound {
            index: at.index,
            net: job.net(at.index),
            before: at.before,
        })
    }
}
