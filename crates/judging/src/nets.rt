// The nets of a job by their numbers.
ghost use Rattle.std.specs.Prelude.{◌≡◌, ◌==◌, map, ◌≤◌, ◌<◌, take, position, IfSome};
ghost use Rattle.candidates.specs.Placed.{padded};

use board::Job;

// The numbers of the job's nets, by index.
pub fn numbers_of(job: &Job) -> [usize; 512]
    ensures { result ≡ padded 0 (map (λ n. n.number) job.now.nets) }
{
    let mut numbers = [0usize; 512];
    for (i, net) in job.nets().iter().enumerate() {
        numbers[i] = net.number;
    }
    numbers
}

// The index of the net with a number, if a net has it. Not inlined: its loop would count up a place in each table that the index is used for.
#[inline(never)]
pub fn net_index(numbers: &[usize; 512], count: usize, number: usize) -> Option<usize>
    requires { count ≤ 512 }
    ensures first { result ≡ position (λ n. n == number) (take count numbers.now) }
    ensures below { IfSome result (λ i. i < count) }
{
    numbers[..count].iter().position(|known| *known == number)
}
