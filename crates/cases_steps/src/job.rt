// Runs, and what is printed of them.
use cases::{Line, Listed};
use cases_answers::Ended;
use run::{Ran, RunAnswer};
use std::io;

// How many entries a schedule has; none where it is malformed.
pub fn entries(schedule: &[u8]) -> usize {
    schedule::count(schedule).unwrap_or(0)
}

// The position behind the entry at a position, and the same position where none stands there.
pub fn after_entry(schedule: &[u8], at: usize) -> usize {
    match schedule::read(schedule, at) {
        Ok(Some((_, after))) => after,
        Ok(None) | Err(_) => at,
    }
}

// What a run is given.
#[derive(Drop)]
pub struct Job {
    image: Vec<u8>,
    cores: u8,
    arguments: Vec<u32>,
    allowance: u32,
    pub schedule: Vec<u8>,
}

impl Job {
    pub fn read(
        rt: &(impl Print + AllocGlobal),
        line: Line<'_>,
        image: Line<'_>,
        schedule: Line<'_>,
    ) -> io::Result<Self> {
        Ok(Job {
            image: image.bytes(rt, 1, 4096)?,
            schedule: schedule.bytes(rt, 1, 4096)?,
            cores: line.number(rt, 1, 255)? as u8,
            allowance: line.number(rt, 2, 4_294_967_295)? as u32,
            arguments: line.numbers(rt, 3)?,
        })
    }

    // A run by a schedule, on parameter words that are zero but for the last.
    pub fn run(&self, schedule: &[u8], memory: &mut [u32], log: &mut [u8]) -> Ran {
        let mut parameters = [0; 32];
        parameters[31] = 131;
        run::run(
            &self.image,
            self.cores,
            &self.arguments,
            &parameters,
            memory,
            self.allowance,
            schedule,
            log,
        )
    }

    // The run by the job's own schedule. A refused run has no log.
    fn print_ran(&self, rt: &impl Print) -> io::Result<Ran> {
        let mut memory = [0; 992];
        let mut log = [0; 128];
        let ran = self.run(&self.schedule, &mut memory, &mut log);
        let logged = match ran.shown.answer {
            RunAnswer::Refused(_) => 0,
            _ => entries(&self.schedule),
        };
        println!(rt; "log{}", Listed(log.get(..logged).unwrap_or(&[])))?;
        println!(rt; "memory{}", Listed(&memory[..4]))?;
        println!(rt; "{}", Ended(ran.shown.answer))?;
        Ok(ran)
    }

    pub fn print_run(&self, rt: &impl Print) -> io::Result<()> {
        self.print_ran(rt)?;
        Ok(())
    }

    pub fn print_count(&self, rt: &impl Print) -> io::Result<()> {
        let counts = self.print_ran(rt)?.shown.counts;
        println!(rt;
            "records {} {} {} {} {} {}",
            counts.free, counts.running, counts.ready, counts.suspended, counts.waiting, counts.lent
        )
    }
}
