// The frames of a stream, block by block.
use crate::listing::{Listing, Message};
use crate::options::{Form, Options};
use anyhow::{Result, anyhow, bail};
use flatbuf::FlatBuffers;
use framing::{Event, FrameDecoder};
use message::{Fault, Reading};
use slip::Slip;
use std::alloc::Global;
use std::fs::File;
use std::io;
use std::io::{Read, Write};
use std::process::ExitCode;
use std::rt::Files;

// How many bytes are read at a time.
const BLOCK: usize = 262144;

// What is made of a stream.
#[derive(Clone, Copy, Debug, PartialEq, Eq)]
pub(crate) enum Verdict {
    Accepted,
    Refused,
}

impl From<Verdict> for ExitCode {
    fn from(verdict: Verdict) -> ExitCode {
        match verdict {
            Verdict::Accepted => ExitCode::SUCCESS,
            Verdict::Refused => ExitCode::FAILURE,
        }
    }
}

// Lists the frames of a stream.
pub(crate) fn inspect<R: Files + Input + Print + AllocGlobal>(
    rt: &R,
    options: &Options,
) -> Result<Verdict> {
    let file = options.file.as_str();
    if file == "-" {
        return read_as(rt, options, rt.reader());
    }
    let source = File::open(rt, file).map_err(|e| unreadable("open", file, &e))?;
    read_as(rt, options, source)
}

fn unreadable(step: &str, file: &str, error: &io::Error) -> anyhow::Error {
    anyhow!("can't {step} '{file}': {error}; give a file that can be read")
}

fn read_as<R: Print + AllocGlobal, S: Read + Drop>(
    rt: &R,
    options: &Options,
    source: S,
) -> Result<Verdict> {
    match options.form {
        Form::FlatBuffers => list(rt, &FlatBuffers, options, source),
        Form::Slip => list(rt, &Slip, options, source),
    }
}

fn list<R: Print + AllocGlobal, F: Reading, S: Read + Drop>(
    rt: &R,
    reading: &F,
    options: &Options,
    mut source: S,
) -> Result<Verdict> {
    let mut inspection = Inspection::new(rt.alloc(), reading, options, io::writer(rt))?;
    let mut block = vec![in rt.alloc(); 0u8; BLOCK]?;
    let file = options.file.as_str();
    // bounded, since nothing says that a reader of unknown bytes ends
    for _ in 0..u64::MAX {
        // no map_err: tried, and the bound on n was not proved behind it
        let n = match source.read(&mut block) {
            Ok(n) => n,
            Err(e) => return Err(unreadable("read", file, &e)),
        };
        if n == 0 {
            break;
        }
        if let Some(fault) = inspection.block(&block[..n])? {
            return inspection.refuse(fault);
        }
    }
    inspection.end()
}

// A stream that is being listed.
#[derive(Drop)]
struct Inspection<'a, F, W: Write + Drop> {
    reading: &'a F,
    decoder: FrameDecoder,
    metadata: Vec<u8>,
    body: Vec<u8>,
    listing: Listing<W>,
}

impl<'a, F: Reading, W: Write + Drop> Inspection<'a, F, W> {
    fn new(heap: Global, reading: &'a F, options: &Options, out: W) -> Result<Self> {
        let Ok(decoder) = FrameDecoder::new(options.metadata, options.body) else {
            bail!("the holds are too short or too long; write 'fegzund help' for their lengths");
        };
        Ok(Inspection {
            reading,
            decoder,
            metadata: vec![in heap; 0u8; options.metadata]?,
            body: vec![in heap; 0u8; options.body]?,
            listing: Listing::new(out),
        })
    }

    // Lists the frames that a block makes whole; the fault of one that is refused.
    fn block(&mut self, block: &[u8]) -> Result<Option<Fault>> {
        let mut rest = block;
        // each turn uses a byte at least, and no more than are left; the contract says so only by what the stream's
        // definition gives, so the bound and the `unwrap_or` below take the place of two lemmas
        for _ in 0..block.len() {
            let step = match self
                .decoder
                .advance(self.reading, &mut self.metadata, &mut self.body, rest)
            {
                Ok(step) => step,
                Err(fault) => return Ok(Some(fault)),
            };
            rest = rest.get(step.used..).unwrap_or(&[]);
            match &step.event {
                Some(Event::End { place }) => self.listing.end_mark(place)?,
                Some(Event::Frame { head }) => {
                    let message = Message {
                        reading: self.reading,
                        bytes: self.metadata.get(..head.opening.size).unwrap_or(&[]),
                    };
                    self.listing.frame(head, &message)?;
                }
                None => {}
            }
            if rest.is_empty() {
                break;
            }
        }
        Ok(None)
    }

    fn refuse(&mut self, fault: Fault) -> Result<Verdict> {
        self.listing.refused(&fault)?;
        self.listing.flush()?;
        Ok(Verdict::Refused)
    }

    // The last line; whether the stream is accepted.
    fn end(&mut self) -> Result<Verdict> {
        let end = self.decoder.check_end();
        self.listing.finish(&end)?;
        self.listing.flush()?;
        match end {
            Ok(()) => Ok(Verdict::Accepted),
            Err(_) => Ok(Verdict::Refused),
        }
    }
}
