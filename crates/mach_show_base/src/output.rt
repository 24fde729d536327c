//! Where a job writes, and how it ended.
use std::io::BufWriter;
use std::rt::Stdout;

/// Standard output, behind a buffer.
pub type Output = BufWriter<Stdout>;

/// How a job ended.
#[derive(Clone, Copy)]
pub enum Done {
    /// It was done, and no line is bad.
    Well,
    /// A line is bad.
    BadLines,
    /// None of so many entries was shown.
    Unseen(u64),
}
