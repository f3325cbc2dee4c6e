// Either job under either edition, on a plan text and on a flat table: what is answered goes into a lent list
// of numbers, in the order of the crate told and with the round count beside, and the records into another.
#![tactic(auto)]

ghost use Rattle.std.specs.Prelude.{◌≤◌};
ghost use Rattle.edition_jobs.specs.Jobs.{HeardIn, PlanToldIn, TasksToldIn};

use asked_in::AskedIn;
use editions::Edition;
use planner::Job;

// What is answered and its rounds, into the lent list; 1 for a yes.
fn tell(answer: &mut [u32], asked: AskedIn) -> u32
    requires { asked.asked.count ≤ 32 }
    ensures { HeardIn asked answer.old result answer.new }
{
    let AskedIn { asked, rounds } = asked;
    let mut told = told::told_of(asked.answer, asked.count as u32, asked.word);
    told[6] = rounds;
    told::put_told(answer, told);
    told[2]
}

// The job on a plan text.
pub fn job_plan_in(
    edition: Edition,
    job: Job,
    text: &[u8],
    records: &mut [u32],
    answer: &mut [u32],
) -> u32
    ensures { PlanToldIn edition job text.now records.old
        answer.old result records.new answer.new }
{
    let asked = asked_in::plan_asked_in(edition, job, text, records);
    tell(answer, asked)
}

// The job on cores, policy and a flat table: five numbers to a task where the levels are given, else four.
pub fn job_tasks_in(
    edition: Edition,
    job: Job,
    cores: u32,
    policy: u32,
    levels: bool,
    tasks: &[u32],
    records: &mut [u32],
    answer: &mut [u32],
) -> u32
    ensures { TasksToldIn levels edition job cores policy tasks.now records.old
        answer.old result records.new answer.new }
{
    let asked = asked_in::tasks_asked_in(edition, job, cores, policy, levels, tasks, records);
    tell(answer, asked)
}
