// Bytes that come in pieces, given back line by line.
ghost use Rattle.std.specs.Prelude.{◌≡◌, ◌≢◌, ◌≤◌, ◌<◌, ◌++◌, [], ℕ, drop, length, slice_index, vec_len, IfOk, OnOk, IfSome, IfNone, All};
ghost use Rattle.rule_script.specs.Reading.{longest};
ghost use Rattle.ce_algorithms.specs.Lines.{last_part};
ghost use Rattle.line_feed.specs.Feed.{GivesLine, given};

use ce_base::{Bytes, NoMemory};
use rule_script::LONGEST;
use std::alloc::Global;
use std::marker::Model;

/// The bytes that were fed and whose lines were not given back. A contract sees them as a list.
///
/// The time is linear in what is fed: each byte is searched once, and those left at the end once more; no more
/// bytes are moved to the front than have left since the last move, but at the end the last line is moved whole;
/// and of each other line at most one byte more than `LONGEST` is copied.
#[derive(Drop)]
pub struct Feed {
    bytes: Vec<u8>,
    // Where the bytes that are held begin, and up to where they have no line feed.
    start: usize,
    searched: usize,
}

impl Model for Feed {
    ghost use Rattle.std.specs.Prelude.{◌≢◌, ◌≤◌, ◌<◌, ℕ, List, drop, slice_index, vec_len};

    ghost Value = { List ℕ };

    ghost view = { λ f. drop f.start f.bytes.items };

    ghost invariant = { λ f. (f.start ≤ f.searched) × (f.searched ≤ vec_len f.bytes)
        × ((k : ℕ) → f.start ≤ k → k < f.searched → slice_index f.bytes.items k ≢ 10) };
}

impl Feed {
    /// No bytes.
    pub fn make(alloc: Global) -> Feed
        ensures { result ≡ [] }
    {
        Feed {
            bytes: Vec::new(alloc),
            start: 0,
            searched: 0,
        }
    }

    /// Feeds a piece. NoMemory: memory was refused, and the feed is only dropped.
    pub fn piece(&mut self, alloc: Global, bytes: &[u8]) -> Result<(), NoMemory>
        ensures { OnOk result (self.new ≡ self.old ++ bytes.now) }
    {
        if self.start >= self.bytes.len() - self.start {
            drop_front(&mut self.bytes, self.start);
            self.searched -= self.start;
            self.start = 0;
        }
        self.bytes.extend_from_slice(bytes)?;
        Ok(())
    }

    /// The next line that a line feed ends, without it: of one of more than `LONGEST` bytes so many and one more, which
    /// shows that it is too long. None exactly where no line feed is left. NoMemory: memory was refused, and the feed
    /// is only dropped.
    pub fn next_line(&mut self, alloc: Global) -> Result<Option<Bytes>, NoMemory>
        ensures line { IfOk result (λ o. IfSome o (λ line. GivesLine longest self.old self.new line)) }
        ensures none { IfOk result (λ o. IfNone o (self.new ≡ self.old)) }
        ensures no_line_feed { IfOk result (λ o. IfNone o (All (λ b. b ≢ 10) self.old)) }
    {
        match find_line_feed(&self.bytes, self.searched) {
            None => {
                self.searched = self.bytes.len();
                Ok(None)
            }
            Some(end) => {
                let line = front(&self.bytes[self.start..end], LONGEST).to_vec(alloc)?;
                self.start = end + 1;
                self.searched = end + 1;
                Ok(Some(Bytes::of(line)))
            }
        }
    }

    /// The bytes behind the last line feed: a last line without one, whole. None exactly where there are
    /// none. It takes no memory.
    pub fn rest(self) -> Option<Bytes>
        ensures some { IfSome result (λ rest. rest ≡ last_part self) }
        ensures line { IfSome result (λ rest. 0 < length rest) }
        ensures none { IfNone result (last_part self ≡ []) }
    {
        let mut bytes = self.bytes;
        let start = last_start(&bytes, self.start);
        drop_front(&mut bytes, start);
        if bytes.is_empty() {
            None
        } else {
            Some(Bytes::of(bytes))
        }
    }
}

// What is given of a line.
#[tactic(auto, unfolding(crate::specs::Feed::given))]
fn front(line: &[u8], limit: usize) -> &[u8]
    ensures { result.now ≡ given limit line.now }
{
    if line.len() > limit {
        &line[..limit + 1]
    } else {
        line
    }
}

// Takes so many bytes off the front, in place.
fn drop_front(bytes: &mut Vec<u8>, count: usize)
    requires { count ≤ vec_len bytes.old }
    ensures { bytes.new.items ≡ drop count bytes.old.items }
{
    let left = bytes.len() - count;
    bytes.copy_within(count.., 0);
    bytes.truncate(left);
}

// Where the bytes behind the last line feed begin, from a place on.
fn last_start(bytes: &[u8], from: usize) -> usize
    requires { from ≤ length bytes.now }
    ensures within { result ≤ length bytes.now }
    ensures part { drop result bytes.now ≡ last_part (drop from bytes.now) }
{
    let mut start = from;
    while let Some(end) = find_line_feed(bytes, start) {
        start = end + 1;
    }
    start
}

// Where the first line feed from a place on is.
fn find_line_feed(bytes: &[u8], from: usize) -> Option<usize>
    requires { from ≤ length bytes.now }
    ensures found { IfSome result (λ at. (from ≤ at) × (at < length bytes.now) × (slice_index bytes.now at ≡ 10)) }
    ensures before { IfSome result (λ at. (k : ℕ) → from ≤ k → k < at → slice_index bytes.now k ≢ 10) }
    ensures none { IfNone result ((k : ℕ) → from ≤ k → k < length bytes.now → slice_index bytes.now k ≢ 10) }
{
    let mut at = from;
    while at < bytes.len() {
        if bytes[at] == b'\n' {
            return Some(at);
        }
        at += 1;
    }
    None
}
