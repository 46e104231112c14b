// A job by each kind of run.
use cases::Line;
use cases_answers::{Ended, SerialEnded};
use run::RunAnswer;
use serial::answer::SerialAnswer;
use std::io;

const ALLOWANCE: u32 = 4000;

#[derive(Drop)]
pub struct Job {
    image: Vec<u8>,
    cores: u8,
    arguments: Vec<u32>,
}

impl Job {
    pub fn read(
        rt: &(impl Print + AllocGlobal),
        line: Line<'_>,
        image: Line<'_>,
    ) -> io::Result<Self> {
        Ok(Job {
            image: image.bytes(rt, 1, 4096)?,
            cores: line.number(rt, 1, 255)? as u8,
            arguments: line.numbers(rt, 2)?,
        })
    }

    fn serial(&self, memory: &mut [u32; 992]) -> SerialAnswer {
        serial::serial(&self.image, &self.arguments, &[0; 32], memory, ALLOWANCE)
    }

    pub fn print_serial(&self, rt: &impl Print) -> io::Result<()> {
        let answer = self.serial(&mut [0; 992]);
        println!(rt; "\nserial: {}", SerialEnded(answer))
    }

    fn print_ended(
        &self,
        rt: &impl Print,
        answer: RunAnswer,
        memory: &[u32; 992],
    ) -> io::Result<()> {
        let mut serial = [0; 992];
        let _ = self.serial(&mut serial);
        let compared = if *memory == serial {
            "memory as in the serial run"
        } else {
            "another memory"
        };
        println!(rt; ": {}, {compared}", Ended(answer))
    }

    pub fn print_run(&self, rt: &impl Print, schedule: &[u8]) -> io::Result<()> {
        let mut memory = [0; 992];
        let ran = run::run(
            &self.image,
            self.cores,
            &self.arguments,
            &[0; 32],
            &mut memory,
            ALLOWANCE,
            schedule,
            &mut [0; 16384],
        );
        self.print_ended(rt, ran.shown.answer, &memory)
    }

    pub fn print_built_in(&self, rt: &impl Print) -> io::Result<()> {
        let mut memory = [0; 992];
        let mut buffer = [0; 32768];
        let ran = scheduler::run(
            &self.image,
            self.cores,
            &self.arguments,
            &[0; 32],
            &mut memory,
            ALLOWANCE,
            &mut buffer,
        );
        self.print_ended(rt, ran.ran.shown.answer, &memory)?;
        print!(rt; "its entries")?;
        self.print_run(rt, &buffer[..ran.used.min(32768)])
    }
}
