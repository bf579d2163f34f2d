//! A queue, and a batch of lines for it.
ghost use Rattle.std.specs.Prelude.{◌≡◌};

use crate::fields::{Answer, Fault, Fields, escaped, not_allowed, said, shown};
use aprs_base::{Line, Memory};
use link_queue::{Batch, Queue};
use row_texts::read_bytes;
use std::alloc::Global;
use std::sync::Arc;

/// The queue and the batch that rows speak of.
#[derive(Drop)]
pub struct Queues {
    alloc: Global,
    queue: Queue,
    batch: Arc<Batch>,
}

/// Takes all that is pending, at most so many bytes at a time.
fn drained(alloc: Global, queue: &mut Queue, most: usize) -> Result<Vec<u8>, Memory> {
    let mut all = Vec::new(alloc);
    let mut out = [0; 100];
    for _ in 0..100 {
        let count = queue.front_bytes(&mut out[..most.min(100)]);
        all.extend_from_slice(&out[..count])?;
        queue.taken(count.min(queue.pending()));
    }
    Ok(all)
}

/// Adds a line to a batch so many times, as far as it takes a thousand.
fn add(batch: &mut Batch, count: usize, text: &[u8]) -> Result<(), Fault> {
    let line = Line::new(text).ok_or(Fault::Unknown)?;
    for _ in 0..count {
        if batch.len() < 1000 {
            batch.push(&line)?;
        }
    }
    Ok(())
}

/// A batch of each of these lines so many times.
fn batch_of(alloc: Global, count: usize, texts: &str) -> Result<Batch, Fault> {
    let mut batch = Batch::new(alloc);
    for text in texts.split(' ') {
        add(&mut batch, count, read_bytes(alloc, text)?.as_slice())?;
    }
    Ok(batch)
}

impl Queues {
    pub fn new(alloc: Global) -> Result<Queues, Fault> {
        Ok(Queues {
            alloc,
            queue: Queue::with_limit(alloc, 1)?,
            batch: Arc::new(alloc, Batch::new(alloc))?,
        })
    }

    fn begin(&mut self, limit: usize) -> Answer {
        if limit < 1 || limit > 1000 {
            return not_allowed(self.alloc);
        }
        self.queue = Queue::with_limit(self.alloc, limit)?;
        said(self.alloc, "done")
    }

    /// Adds a line so many times, and says how often there was room for it.
    fn push(&mut self, count: usize, fields: &Fields) -> Answer {
        let line = fields.shared_line()?;
        let mut taken = 0usize;
        for _ in 0..count {
            if self.queue.push(line.clone()?).is_ok() {
                taken = taken.saturating_add(1);
            }
        }
        shown(self.alloc, taken)
    }

    /// Adds lines of the batch, as far as there are so many.
    fn push_run(&mut self, from: usize, to: usize) -> Answer {
        if from > to || to > self.batch.len() {
            return not_allowed(self.alloc);
        }
        shown(self.alloc, self.queue.push_run(&self.batch, from, to)?)
    }

    /// Takes off bytes, and says how many are left.
    fn take(&mut self, count: usize) -> Answer {
        if count > self.queue.pending() {
            return not_allowed(self.alloc);
        }
        self.queue.taken(count);
        shown(self.alloc, self.queue.pending())
    }

    /// The next bytes, as many as a buffer of that size takes.
    fn front(&self, size: usize) -> Answer {
        let mut out = [b'.'; 100];
        let count = self.queue.front_bytes(&mut out[..size.min(100)]);
        escaped(self.alloc, &out[..count])
    }

    fn shared(&self) -> Answer {
        match self.queue.shared_front() {
            Some(bytes) => escaped(self.alloc, bytes),
            None => said(self.alloc, "none"),
        }
    }

    fn fill(&mut self, count: usize, texts: &str) -> Answer {
        self.batch = Arc::new(self.alloc, batch_of(self.alloc, count, texts)?)?;
        shown(self.alloc, self.batch.len())
    }

    fn drain(&mut self, most: usize) -> Answer {
        let all = drained(self.alloc, &mut self.queue, most)?;
        escaped(self.alloc, all.as_slice())
    }

    pub fn answer(&mut self, fields: &mut Fields) -> Answer {
        let word = fields.word();
        let count = fields.perhaps().unwrap_or(0);
        match word {
            "new" => self.begin(count),
            "push" => self.push(count, fields),
            "take" => self.take(count),
            "pending" => shown(self.alloc, self.queue.pending()),
            "front" => self.front(count),
            "shared" => self.shared(),
            "batch" => self.fill(count, fields.rest),
            "run" => self.push_run(count, fields.number()),
            "drain" => self.drain(count),
            _ => Err(Fault::Unknown),
        }
    }
}
