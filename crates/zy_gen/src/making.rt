//! The capture of generated traffic.
ghost use Rattle.std.specs.Prelude.{◌≡◌, ◌<◌, ◌≤◌, [], ◌∷◌, ◌++◌, flat_map, length, IfOk, OnOk};
ghost use Rattle.zy_capture.specs.Capture.{spelled};
ghost use Rattle.zy_gen.specs.Draw.{draw_command};
ghost use Rattle.zy_gen.specs.Traffic.{command_text, segment_record, one_command, one_round, rounds, gen_bytes};
ghost use Rattle.zy_gen.specs.Traffic.{IsTraffic, head};

use crate::drawing::{draw, draw_command};
use crate::writing::append_text;
use rand_pcg::Lcg64Xsh32;
use std::alloc::Global;
use zy_base::{Blob, NoMemory};

/// Generates the capture of this number: `conns` connections with `commands` commands each,
/// one command of each connection in turn. Each command comes in two segments, either of which may
/// be empty.
pub fn generate(alloc: Global, number: u32, conns: u32, commands: u32) -> Result<Blob, NoMemory>
    requires traffic { IsTraffic number conns commands }
    ensures value { IfOk result (λ made. made ≡ gen_bytes number conns commands) }
{
    let mut making = Making {
        words: Lcg64Xsh32::new(u64::from(number), 54),
        out: Blob::new(alloc),
        line: Blob::new(alloc),
    };
    match making.append_all(conns, commands) {
        Ok(()) => {
            let Making {
                words: _,
                out,
                line,
            } = making;
            drop(line);
            Ok(out)
        }
        Err(e) => {
            drop(making);
            Err(e)
        }
    }
}

// The capture so far, the command that is written, and the numbers that are left.
#[derive(Drop)]
struct Making {
    words: Lcg64Xsh32,
    out: Blob,
    line: Blob,
}

impl Making {
    // Appends the whole capture.
    fn append_all(&mut self, conns: u32, commands: u32) -> Result<(), NoMemory>
        requires few { conns ≤ 4096 }
        ensures ok { OnOk result (self.new.out ≡ self.old.out ++ head conns
            ++ flat_map spelled (rounds conns commands self.old.words).items ++ 69 ∷ []) }
    {
        append_head(&mut self.out, conns)?;
        self.append_rounds(conns, commands)?;
        self.out.append(b"E")
    }

    // Appends the segments of `commands` rounds.
    fn append_rounds(&mut self, conns: u32, commands: u32) -> Result<(), NoMemory>
        requires few { conns ≤ 4096 }
        ensures ok { OnOk result (self.new.out ≡
            self.old.out ++ flat_map spelled (rounds conns commands self.old.words).items) }
    {
        for _ in 0..commands {
            self.append_round(conns)?;
        }
        Ok(())
    }

    // Appends the segments of one command of each connection.
    fn append_round(&mut self, conns: u32) -> Result<(), NoMemory>
        requires few { conns ≤ 4096 }
        ensures ok { OnOk result (self.new.out ≡
            self.old.out ++ flat_map spelled (one_round 0 conns self.old.words).items) }
        ensures left { OnOk result (self.new.words ≡ (one_round 0 conns self.old.words).left) }
    {
        for conn in 0..conns {
            self.append_command(conn)?;
        }
        Ok(())
    }

    // Appends the segments of one command of a connection.
    #[tactic(auto, using(crate::proofs::StepLemmas::cut_on), unfolding(crate::specs::Traffic::one_command))]
    fn append_command(&mut self, conn: u32) -> Result<(), NoMemory>
        requires few { conn < 4096 }
        ensures ok { OnOk result (self.new.out ≡
            self.old.out ++ flat_map spelled (one_command conn self.old.words).items) }
        ensures left { OnOk result (self.new.words ≡ (one_command conn self.old.words).left) }
    {
        draw_text(&mut self.line, &mut self.words, conn)?;
        let bytes = self.line.bytes();
        let at = draw(&mut self.words, bytes.len() as u32 + 1) as usize;
        append_segment(&mut self.out, conn, &bytes[..at])?;
        append_segment(&mut self.out, conn, &bytes[at..])
    }
}

// Appends the magic and the number of connections.
fn append_head(out: &mut Blob, conns: u32) -> Result<(), NoMemory>
    ensures ok { OnOk result (out.new ≡ out.old ++ head conns) }
{
    out.append(b"ZYGCAP1\n")?;
    out.append(&conns.to_be_bytes())
}

// Writes the bytes of the next command of a connection into `line`.
#[tactic(auto, using(crate::proofs::LengthLemmas::text_few))]
fn draw_text(line: &mut Blob, words: &mut Lcg64Xsh32, conn: u32) -> Result<(), NoMemory>
    requires few { conn < 4096 }
    ensures ok { OnOk result (line.new ≡ command_text conn (draw_command words.old).command) }
    ensures few { OnOk result (length line.new ≤ 455) }
    ensures left { words.new ≡ (draw_command words.old).left }
{
    line.truncate(0);
    let command = draw_command(words);
    append_text(line, conn, &command)
}

// Appends a segment.
fn append_segment(out: &mut Blob, conn: u32, bytes: &[u8]) -> Result<(), NoMemory>
    requires few { length bytes.now ≤ 65535 }
    ensures ok { OnOk result (out.new ≡ out.old ++ spelled (segment_record conn bytes.now)) }
{
    out.append(b"S")?;
    out.append(&conn.to_be_bytes())?;
    out.append(&(bytes.len() as u32).to_be_bytes())?;
    out.append(bytes)
}
