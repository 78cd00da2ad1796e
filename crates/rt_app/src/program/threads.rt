//! The number of threads on which files are read, a query or a comparison executes its feed files, and tables are compared.

use std::thread::{self, Threads};

/// The bytes of files for which a further thread pays when they are read: with fewer, it takes longer to create the thread than
/// to read them.
const BYTES_PER_READING_THREAD: u64 = 1 << 20;

/// The bytes of feed files for which a further thread pays: with fewer, it takes longer to create the thread than to
/// execute them.
const BYTES_PER_THREAD: usize = 1 << 18;

/// Each address is looked up in the table of each thread. A further thread pays if the feed files are this many times as
/// long as the file of addresses, for each thread.
const BYTES_PER_ADDRESS_BYTE: usize = 4;

/// The bytes of the feed files of both sides for which a further thread pays in a comparison: with fewer, it takes longer to
/// create the threads than to compare.
const BYTES_PER_COMPARING_THREAD: usize = 1 << 20;

/// Returns the number of threads on which this number of files, with this number of bytes in all, are read, at least one: at
/// most one for each processor and for each file, and no further thread that doesn't pay.
pub(super) fn threads_to_read<R: Threads>(rt: &R, files: usize, bytes: u64) -> usize {
    let paying = usize::try_from(bytes / BYTES_PER_READING_THREAD).unwrap_or(usize::MAX);
    processors_for(rt, files.min(paying))
}

/// Returns the number of threads on which these texts of feeds are executed, at least one: at most one for each processor
/// and for each text that isn't empty, and no further thread that doesn't pay. The text of addresses, which are looked up
/// then, has `address_bytes` bytes.
pub(super) fn threads_for<R: Threads>(rt: &R, texts: &[Vec<u8>], address_bytes: usize) -> usize {
    let mut count = 0usize;
    for text in texts {
        count = count.saturating_add(usize::from(!text.is_empty()));
    }
    let bytes = bytes_of(texts);
    let bytes_per_thread = address_bytes
        .saturating_mul(BYTES_PER_ADDRESS_BYTE)
        .max(BYTES_PER_THREAD);
    processors_for(rt, count.min(bytes / bytes_per_thread))
}

/// Returns the number of threads which share these old and new texts, and on which their tables are compared, at least one: at
/// most one for each processor, and no further thread that doesn't pay.
pub(super) fn threads_to_compare<R: Threads>(rt: &R, old: &[Vec<u8>], new: &[Vec<u8>]) -> usize {
    let bytes = bytes_of(old).saturating_add(bytes_of(new));
    processors_for(rt, bytes / BYTES_PER_COMPARING_THREAD)
}

/// Returns the number of bytes of the texts.
fn bytes_of(texts: &[Vec<u8>]) -> usize {
    let mut bytes = 0usize;
    for text in texts {
        bytes = bytes.saturating_add(text.len());
    }
    bytes
}

/// Returns the number of threads of which at most this many pay: at least one, and at most one for each processor.
fn processors_for<R: Threads>(rt: &R, paying: usize) -> usize {
    if paying < 2 {
        return 1;
    }
    match thread::available_parallelism(rt) {
        Ok(processors) => paying.min(processors.get()),
        Err(_) => 1,
    }
}
