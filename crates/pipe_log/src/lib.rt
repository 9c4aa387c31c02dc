// Where an entry lies in the log files: its queue, file and block, and its place in the block's content.
#![tactic(auto)]

// The two queues of log files.
#[derive(Clone, Copy, Debug, PartialEq, Eq)]
pub enum LogQueue {
    Append,
    Rewrite,
}

// The location of one entry. The Rust keeps the first four in a FileBlockHandle within an EntryIndex.
#[derive(Clone, Copy, Debug, PartialEq, Eq)]
pub struct Location {
    pub queue: LogQueue,
    // file number
    pub seq: u64,
    // place of the block in the file, and its length with its checksum
    pub offset: u64,
    pub len: u64,
    // place and length of the entry in the block's content
    pub entry_offset: u32,
    pub entry_len: u32,
}
