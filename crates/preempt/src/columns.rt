// What was read of the tasks, in columns by their places.
ghost use Rattle.std.specs.Prelude.{◌≡◌, ◌<◌};
ghost use Rattle.preempt.specs.Tasks.{no_columns, with_task, task_read, period_read};

use rules::Task;

// A column of 64 numbers for each field, and one for the periods of the tasks' transactions; 0 beyond the tasks.
#[derive(Clone, Copy)]
pub struct Columns {
    pub ids: [u32; 64],
    pub transactions: [u32; 64],
    pub priorities: [u32; 64],
    pub offsets: [u32; 64],
    pub jitters: [u32; 64],
    pub responses: [u32; 64],
    pub sizes: [u32; 64],
    pub thresholds: [u32; 64],
    pub periods: [u32; 64],
}

impl Columns {
    // The columns of no task.
    pub fn none() -> Columns
        ensures { result ≡ no_columns }
    {
        Columns {
            ids: [0; 64],
            transactions: [0; 64],
            priorities: [0; 64],
            offsets: [0; 64],
            jitters: [0; 64],
            responses: [0; 64],
            sizes: [0; 64],
            thresholds: [0; 64],
            periods: [0; 64],
        }
    }

    // Puts a task at a place, and the period of its transaction.
    pub fn put(&mut self, i: usize, task: Task, period: u32)
        requires { i < 64 }
        ensures { self.new ≡ with_task self.old i task period }
    {
        self.ids[i] = task.id;
        self.transactions[i] = task.transaction;
        self.priorities[i] = task.priority;
        self.offsets[i] = task.offset;
        self.jitters[i] = task.jitter;
        self.responses[i] = task.response;
        self.sizes[i] = task.size;
        self.thresholds[i] = task.threshold;
        self.periods[i] = period;
    }

    // The task at a place, as it was read.
    pub fn task_read(&self, i: usize) -> Task
        requires { i < 64 }
        ensures { result ≡ task_read self.now i }
    {
        Task {
            id: self.ids[i],
            transaction: self.transactions[i],
            priority: self.priorities[i],
            offset: self.offsets[i],
            jitter: self.jitters[i],
            response: self.responses[i],
            size: self.sizes[i],
            threshold: self.thresholds[i],
        }
    }

    // The period of its transaction, as it was read.
    pub fn period_read(&self, i: usize) -> u32
        requires { i < 64 }
        ensures { result ≡ period_read self.now i }
    {
        self.periods[i]
    }
}
