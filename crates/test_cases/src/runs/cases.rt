//! A case: what a run is given, line by line, and what it comes to.

use crate::runs::outside::{Faults, Pieces, Stream};
use crate::runs::running::{Ended, Given, ran, starts};
use disks::{MemDisks, MemFile};
use mt_edge::MemKids;
use octets::{Memory, Octets};
use std::alloc::{AllocError, Global};
use std::test::Fail;
use test_keys::{bytes_from_0_to_255, line as key_line};
use test_lines::{Line, words_of};

/// The most bytes of a read and of a write where a case says no other.
const PIECE_BYTES: usize = 4_096;

/// The bytes of a server's first answer and of the attach behind it, in frames: each read over a link gives so many at most, where
/// a case says no other.
const ANSWER_BYTES: usize = 280;

/// Room for the reads of a link where a case says no other.
const READS: usize = 4_000;

/// What a case has by now: what its run is given, what comes to it over its links and what it sent over them, what a journal holds
/// that its first server left, and what is told.
#[derive(Drop)]
struct Case {
    given: Given,
    down: Stream,
    up: Stream,
    left: Octets,
    text: String,
}

impl Case {
    // Nothing is given but the key file of both keys.
    fn new(alloc: Global) -> Result<Case, Fail> {
        Ok(Case {
            given: Given {
                words: Vec::new(alloc),
                input: Octets::new(alloc),
                keys: both_keys(alloc)?,
                journal: None,
                reads: (PIECE_BYTES, 0),
                writes: (PIECE_BYTES, 0),
                faults: Faults::none(),
                pieces: Pieces {
                    bytes: ANSWER_BYTES,
                    reads: READS,
                },
            },
            down: Stream::new(alloc),
            up: Stream::new(alloc),
            left: Octets::new(alloc),
            text: String::new(alloc),
        })
    }

    // A run of the case's own words, over what came so far.
    fn ran(&self, alloc: Global) -> Result<Ended, Fail> {
        ran(
            alloc,
            &self.given,
            self.given.words.as_slice(),
            &self.down,
            1,
        )
    }

    // The run says what it says over what came so far.
    fn sends(&mut self, alloc: Global) -> Result<(), Fail> {
        let sent = sent_by(self.ran(alloc)?);
        set(&mut self.up, sent);
        Ok(())
    }

    // A server of these words over the first link or the second one hears that, and what it says comes next. The file `j` of the
    // first one is empty, and that of the second one holds what the first one left.
    fn serves(&mut self, line: &mut Line<'_>) -> Result<(), Fail> {
        let alloc = line.alloc;
        let is_first = line.word() == "first";
        let words = words_of(alloc, line.rest())?;
        // (each server draws other words)
        let seed = if is_first { 2 } else { 3 };
        let journal = if is_first {
            Octets::new(alloc)
        } else {
            Octets::copy(alloc, self.left.as_slice())?
        };
        let answered = answer(
            alloc,
            &self.given,
            words.as_slice(),
            self.up.over(is_first),
            seed,
            journal,
        );
        drop(words);
        let (sent, left) = answered?;
        self.down.set(is_first, sent);
        if is_first {
            set(&mut self.left, left);
        }
        Ok(())
    }

    // How a run ends, what it writes, so many bytes of it at most, and the calls of its net and its spawner where they are asked for.
    fn tells(&mut self, alloc: Global, most: usize, verb: &str) -> Result<(), Fail> {
        let ended = self.ran(alloc)?;
        let told = put_ended(&mut self.text, alloc, &ended, most, verb);
        drop(ended);
        told
    }

    // A line that says what a run is given: whether it is one.
    fn is_given(&mut self, line: &mut Line<'_>) -> Result<bool, Fail> {
        let alloc = line.alloc;
        let given = &mut self.given;
        match line.verb {
            "word" => given.words.push(String::from_str(alloc, line.rest())?)?,
            "words" => set(&mut given.words, words_of(alloc, line.rest())?),
            "fill" => put(alloc, &mut given.input, line.bytes()?.as_slice())?,
            "each" => put_each(&mut given.input, line)?,
            "keys" => set(&mut given.keys, keys_of(alloc, line.rest())?),
            "file" => set(&mut given.keys, line.bytes()?),
            "journal" => set(&mut given.journal, Some(line.bytes()?)),
            "read" => given.reads = piece_of(line)?,
            "write" => given.writes = piece_of(line)?,
            "fail" => given.faults.set(line)?,
            "over" => given.pieces.bytes = line.small()? as usize,
            "reads" => given.pieces.reads = line.small()? as usize,
            "comes" => self.down.first = line.bytes()?,
            _ => return Ok(false),
        }
        Ok(true)
    }

    // A line of a case.
    fn plays(&mut self, line: &mut Line<'_>) -> Result<(), Fail> {
        if self.is_given(line)? {
            return Ok(());
        }
        match line.verb {
            "client" => self.sends(line.alloc),
            "server" => self.serves(line),
            "cut" => {
                let most = line.small()? as usize;
                Ok(cut(line.alloc, &mut self.down.first, most)?)
            }
            "again" => {
                let ended = self.ran(line.alloc)?;
                let held = held(line.alloc, &ended.disks);
                drop(ended);
                set(&mut self.given.journal, Some(held?));
                Ok(())
            }
            "turn" => {
                let sent = std::mem::replace(&mut self.up, Stream::new(line.alloc));
                set(&mut self.down, sent);
                Ok(())
            }
            "front" => {
                let most = line.small()? as usize;
                self.tells(line.alloc, most, "front")?;
                Ok(self.text.push_str("\n")?)
            }
            "run" | "pairs" | "serves" | "keeps" => self.tells(line.alloc, usize::MAX, line.verb),
            _ => Err(Fail::new("no such line")),
        }
    }
}

// A value takes the place of another, which is let go of here: a generic function proves that once for each type.
fn set<T: Drop>(place: &mut T, value: T) {
    drop(std::mem::replace(place, value));
}

// What a server of these words writes that hears this over its one connection, and what its journal holds then. The net of a
// server notes its listen first.
fn answer(
    alloc: Global,
    given: &Given,
    words: &[String],
    heard: &Octets,
    seed: u8,
    journal: Octets,
) -> Result<(Octets, Octets), Fail> {
    let come = Stream {
        first: Octets::copy(alloc, heard.as_slice())?,
        second: Octets::new(alloc),
    };
    let given = Given {
        words: Vec::new(alloc),
        input: Octets::new(alloc),
        keys: Octets::copy(alloc, given.keys.as_slice())?,
        journal: Some(journal),
        reads: (PIECE_BYTES, 0),
        writes: (PIECE_BYTES, 0),
        faults: Faults::none(),
        pieces: given.pieces,
    };
    let ended = ran(alloc, &given, words, &come, seed);
    drop(given);
    drop(come);
    let ended = ended?;
    let left = held(alloc, &ended.disks);
    let Stream { second, .. } = sent_by(ended);
    Ok((second, left?))
}

// What a run wrote over its links; all else of it is let go of here.
fn sent_by(ended: Ended) -> Stream {
    let Ended {
        out,
        sent,
        kids,
        disks,
        ..
    } = ended;
    drop(out);
    drop(kids);
    drop(disks);
    sent
}

// Puts how a run ended, what it wrote, and what else is asked for.
fn put_ended(
    text: &mut String,
    alloc: Global,
    ended: &Ended,
    most: usize,
    verb: &str,
) -> Result<(), Fail> {
    put_counted(text, alloc, u64::from(ended.status), "")?;
    put_front(text, ended.out.as_slice(), most)?;
    match verb {
        "pairs" => put_starts(text, alloc, &ended.kids),
        "serves" => put_served(text, alloc, ended),
        "keeps" => put_kept(text, alloc, ended),
        _ => Ok(()),
    }
}

// Puts a number and a word behind it, and ends the line.
fn put_counted(text: &mut String, alloc: Global, count: u64, word: &str) -> Result<(), Fail> {
    let line = format!(in alloc; "{count}{word}\n")?;
    Ok(text.push_str(line.as_str())?)
}

// Puts so many bytes of a text at most.
fn put_front(text: &mut String, bytes: &[u8], most: usize) -> Result<(), Fail> {
    let front = bytes.get(..most).unwrap_or(bytes);
    Ok(text.push_str(str::from_utf8(front).unwrap_or("?"))?)
}

// Puts how many calls a spawner had, and its starts.
fn put_starts(text: &mut String, alloc: Global, kids: &MemKids) -> Result<(), Fail> {
    put_counted(text, alloc, kids.calls().len() as u64, " calls")?;
    Ok(text.push_str(starts(alloc, kids)?.as_str())?)
}

// Puts how many calls a net had, and the frames that were written over the connection of its second one.
fn put_served(text: &mut String, alloc: Global, ended: &Ended) -> Result<(), Fail> {
    put_counted(text, alloc, ended.net_calls as u64, " calls")?;
    put_frames(text, alloc, ended.sent.second.as_slice())
}

// Puts the names of the files that were asked for, how many faults of them were counted, how many bytes the journal holds then and
// the first ones; and then how many calls the net had, and the frames over its second one's connection.
fn put_kept(text: &mut String, alloc: Global, ended: &Ended) -> Result<(), Fail> {
    for name in ended.disks.asked() {
        text.push_str("asked ")?;
        text.push_str(str::from_utf8(name.as_slice()).unwrap_or("?"))?;
        text.push_str("\n")?;
    }
    put_counted(text, alloc, ended.disks.faults(), " faults")?;
    let held = held(alloc, &ended.disks)?;
    let held = held.as_slice();
    let first = hex::encode(alloc, held.get(..8).unwrap_or(held))?;
    let first = if held.is_empty() { "-" } else { first.as_str() };
    let count = held.len();
    let line = format!(in alloc; "{count} bytes held, first {first}\n")?;
    text.push_str(line.as_str())?;
    put_served(text, alloc, ended)
}

// What the first file holds, where it isn't open.
fn held(alloc: Global, disks: &MemDisks) -> Result<Octets, Fail> {
    match disks.files().first() {
        Some(
            MemFile {
                disk: Some(disk),
                ..
            },
        ) => Ok(Octets::copy(alloc, disk.contents())?),
        _ => Ok(Octets::new(alloc)),
    }
}

// Puts a line for each frame of the intermediate form: how many bytes its packet has.
fn put_frames(text: &mut String, alloc: Global, bytes: &[u8]) -> Result<(), Fail> {
    let mut left = bytes;
    for _ in 0..bytes.len() {
        let Some((size, rest)) = left.split_first_chunk::<4>() else {
            break;
        };
        let size = u32::from_le_bytes(*size);
        put_counted(text, alloc, u64::from(size), " bytes")?;
        left = rest.get(size as usize..).unwrap_or(&[]);
    }
    Ok(())
}

// Leaves so many bytes at most.
fn cut(alloc: Global, bytes: &mut Octets, most: usize) -> Result<(), Memory> {
    let whole = bytes.as_slice();
    *bytes = Octets::copy(alloc, whole.get(..most).unwrap_or(whole))?;
    Ok(())
}

// Puts bytes at the end.
fn put(alloc: Global, into: &mut Octets, bytes: &[u8]) -> Result<(), Fail> {
    Ok(into.push_all(alloc, bytes)?)
}

// Puts lines at the end, as often as is said: the line says a number, by how much it grows, how often, and the lines, with `; `
// between them, in which `#` stands for the number.
fn put_each(into: &mut Octets, line: &mut Line<'_>) -> Result<(), Fail> {
    let alloc = line.alloc;
    let (mut number, step, count) = (line.number()?, line.number()?, line.number()?);
    let lines = line.rest().replace(alloc, "; ", "\n")?;
    for _ in 0..count {
        let digits = format!(in alloc; "{number}")?;
        let lines = lines.as_str().replace(alloc, "#", digits.as_str())?;
        put(alloc, into, lines.as_bytes())?;
        put(alloc, into, b"\n")?;
        number = number.wrapping_add(step);
    }
    Ok(())
}

// The key file of the permanent key `00` to `ff` and the temporary one `ff` to `00`.
fn both_keys(alloc: Global) -> Result<Octets, Fail> {
    let perm = key_line(alloc, "perm")?;
    let mut down = bytes_from_0_to_255();
    down.reverse();
    let temp = hex::encode(alloc, down.as_slice())?;
    let text = format!(in alloc; "{perm}\ntemp 7200 {temp}\n")?;
    Ok(Octets::copy(alloc, text.as_bytes())?)
}

// A key file of one line: these words, and the digits of the key `00` to `ff`.
fn keys_of(alloc: Global, words: &str) -> Result<Octets, AllocError> {
    let line = key_line(alloc, words)?;
    match Octets::copy(alloc, line.as_bytes()) {
        Ok(keys) => Ok(keys),
        Err(_) => Err(AllocError),
    }
}

// The most bytes of a call, and which call fails.
fn piece_of(line: &mut Line<'_>) -> Result<(usize, u64), Fail> {
    Ok((line.small()? as usize, line.number()?))
}

/// What is told of a case: its first line, and then what its other lines give.
pub(crate) fn played(alloc: Global, case: &str) -> Result<String, Fail> {
    let (title, lines) = case.split_once('\n').ok_or("no line")?;
    let mut case = Case::new(alloc)?;
    let told = told(alloc, &mut case, title, lines);
    drop(case);
    told
}

fn told(alloc: Global, case: &mut Case, title: &str, lines: &str) -> Result<String, Fail> {
    for line in lines.lines() {
        case.plays(&mut Line::of(alloc, line))?;
    }
    let told = case.text.as_str();
    Ok(format!(in alloc; "{title}\n{told}\n")?)
}
