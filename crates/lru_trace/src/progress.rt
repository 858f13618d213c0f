use std::alloc::Global;
use std::io::Write;

const STEP: u64 = 1_000_000;

#[derive(Drop)]
pub struct Progress<P> {
    alloc: Global,
    writer: Option<P>,
}

impl<P: Write> Progress<P> {
    pub fn new(alloc: Global, writer: Option<P>) -> Self {
        Progress { alloc, writer }
    }

    /// After each million lines, writes the number of lines. Ignores a failed write or allocation.
    pub fn note(&mut self, lines: u64) {
        if lines == 0 || lines % STEP != 0 {
            return;
        }
        if let Some(writer) = &mut self.writer {
            if let Ok(text) = format!(in self.alloc; "{lines} lines\n") {
                let _ = writer.write_all(text.as_bytes());
            }
        }
    }
}
