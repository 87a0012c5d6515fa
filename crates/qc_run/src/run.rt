//! The program without its outside: words, a source and a sink in, a status out.

ghost use Rattle.qc_script.specs.Script.{lines_of, IsScript};
ghost use Rattle.std.specs.Prelude.{◌≡◌, ◌≢◌, ◌⊎◌, ◌≤◌, ◌<◌, ◌↔◌, ◌++◌, [], ◌∷◌, IsTrue, codes, decimal, length, map, IfOk, OnOk, OnErr};
ghost use Rattle.std.specs.String.{string_bytes};
ghost use Rattle.qc_run.specs.Ending.{AsksRun, Finished, IsBad, NamedBad, NoScript, Performed, line_of, script_line, status_of, usage_line};
ghost use Rattle.qc_run.specs.Outside.{Appends, Rose};
ghost use Rattle.qc_run.specs.RunText.{IsToyRun, IsToyRefusal};

use crate::perform::{Told, perform};
use crate::sink::Sink;
use crate::source::{Failed, Source};
use crate::transfer::{ReadError, SCRIPT_LIMIT, read_all, write_all};
use itoa::Buffer;
use qc_base::HeaderMask;
use qc_crypto::{PacketKey, Session};
use qc_path::{Controller, NewReno};
use qc_script::{ScriptError, read_script};
use qc_toy::{ToyHeaderKey, ToyPacketKey, ToySession};
use std::alloc::Global;

/// How a run of the program ends, with the exit status that it stands for.
#[derive(Clone, Copy, Debug, PartialEq, Eq)]
pub enum Status {
    /// The input was read to its end, it is a script, and the text of its run was written.
    Done = 0,
    /// The input is no script. The line `script line K` names the first bad line, or 0 where the
    /// input has more than 2^26 bytes.
    BadScript = 1,
    /// The words are none that the program knows; nothing was read. A usage line was written.
    Usage = 2,
    /// An input of the script was refused: its time lies before that of an input before it, or a transmit may send no
    /// datagram. The text of the steps before it was written, and the line that names it.
    Refused = 3,
    /// The source failed; the line `read fault` was written.
    ReadFault = 4,
    /// The sink failed.
    WriteFault = 5,
    /// There was no memory; the line `no memory` was written.
    NoMemory = 6,
}

/// Does what the words ask for: `run` reads a script from the source and writes the text of its
/// run to the sink.
///
/// Other words end in `Usage`, a failing source in `ReadFault`, bytes that are no script in
/// `BadScript`, want of memory in `NoMemory`, and a script one of whose inputs can't be taken in
/// `Refused`. Where the sink fails, the status is `WriteFault` in place of any of them.
pub fn run<So: Source, Si: Sink>(
    alloc: Global,
    words: &[String],
    source: &mut So,
    sink: &mut Si,
) -> Status
    ensures done { result ≡ Status.Done → Finished (IsToyRun ⟦<ToySession as Session>⟧ ⟦<ToyHeaderKey as HeaderMask>⟧ ⟦<ToyPacketKey as PacketKey>⟧ ⟦<NewReno as Controller>⟧) (So.left source.old) (So.left source.new) (Si.held sink.old) (Si.held sink.new) }
    ensures refused { result ≡ Status.Refused → Finished (IsToyRefusal ⟦<ToySession as Session>⟧ ⟦<ToyHeaderKey as HeaderMask>⟧ ⟦<ToyPacketKey as PacketKey>⟧ ⟦<NewReno as Controller>⟧) (So.left source.old) (So.left source.new) (Si.held sink.old) (Si.held sink.new) }
    ensures bad_script { result ≡ Status.BadScript → NoScript (So.left source.old) (So.left source.new) (Si.held sink.old) (Si.held sink.new) }

    // Words other than `run` alone are told so, and nothing is read.
    ensures usage { result ≡ Status.Usage → (¬ AsksRun words.now) × Appends (Si.held sink.old) (Si.held sink.new) usage_line }
    ensures other_words { ¬ AsksRun words.now → (result ≡ Status.Usage) ⊎ (result ≡ Status.WriteFault) }
    ensures unread { ¬ AsksRun words.now → source.new ≡ source.old }

    ensures read_fault { result ≡ Status.ReadFault → Rose (So.faults source.old) (So.faults source.new) × Appends (Si.held sink.old) (Si.held sink.new) (codes "read fault\n") }
    ensures write_fault { result ≡ Status.WriteFault → Rose (Si.faults sink.old) (Si.faults sink.new) }
    ensures no_memory { result ≡ Status.NoMemory → Appends (Si.held sink.old) (Si.held sink.new) (codes "no memory\n") }
    ensures source_never_falls { So.faults source.old ≤ So.faults source.new }
    ensures sink_never_falls { Si.faults sink.old ≤ Si.faults sink.new }
{
    if !asks_run(words) {
        return end(sink, b"usage: qconn run | qconn gen N\n", Status::Usage);
    }
    match read_all(alloc, source) {
        Ok(bytes) => follow(alloc, bytes.as_slice(), sink),
        Err(ReadError::Failed) => end(sink, b"read fault\n", Status::ReadFault),
        Err(ReadError::OutOfMemory) => end(sink, b"no memory\n", Status::NoMemory),
    }
}

/// Whether the words are the one word `run`.
fn asks_run(words: &[String]) -> bool
    ensures { IsTrue result ↔ AsksRun words.now }
{
    match words {
        [word] => word.as_str() == "run",
        _ => false,
    }
}

/// Writes the last line and ends with this status.
pub fn end<Si: Sink>(sink: &mut Si, line: &[u8], status: Status) -> Status
    requires { status ≢ Status.WriteFault }
    ensures status { result ≢ Status.WriteFault → result ≡ status }
    ensures written { result ≢ Status.WriteFault → Appends (Si.held sink.old) (Si.held sink.new) line.now }
    ensures cause { result ≡ Status.WriteFault → Rose (Si.faults sink.old) (Si.faults sink.new) }
    ensures never_falls { Si.faults sink.old ≤ Si.faults sink.new }
{
    match write_all(sink, line) {
        Ok(()) => status,
        Err(Failed) => Status::WriteFault,
    }
}

/// Performs the script that these bytes are.
fn follow<Si: Sink>(alloc: Global, bytes: &[u8], sink: &mut Si) -> Status
    ensures done { result ≡ Status.Done → (length bytes.now ≤ SCRIPT_LIMIT) × Performed (IsToyRun ⟦<ToySession as Session>⟧ ⟦<ToyHeaderKey as HeaderMask>⟧ ⟦<ToyPacketKey as PacketKey>⟧ ⟦<NewReno as Controller>⟧) bytes.now (Si.held sink.old) (Si.held sink.new) }
    ensures refused { result ≡ Status.Refused → (length bytes.now ≤ SCRIPT_LIMIT) × Performed (IsToyRefusal ⟦<ToySession as Session>⟧ ⟦<ToyHeaderKey as HeaderMask>⟧ ⟦<ToyPacketKey as PacketKey>⟧ ⟦<NewReno as Controller>⟧) bytes.now (Si.held sink.old) (Si.held sink.new) }
    ensures bad_script { result ≡ Status.BadScript → NamedBad bytes.now (Si.held sink.old) (Si.held sink.new) }
    ensures no_usage { result ≢ Status.Usage }
    ensures no_read_fault { result ≢ Status.ReadFault }
    ensures write_fault { result ≡ Status.WriteFault → Rose (Si.faults sink.old) (Si.faults sink.new) }
    ensures no_memory { result ≡ Status.NoMemory → Appends (Si.held sink.old) (Si.held sink.new) (codes "no memory\n") }
    ensures never_falls { Si.faults sink.old ≤ Si.faults sink.new }
{
    if bytes.len() > SCRIPT_LIMIT {
        return end_bad(sink, 0);
    }
    match read_script(alloc, bytes) {
        Ok(script) => match perform(alloc, &script) {
            Ok(Told::Whole(text)) => end(sink, text.as_slice(), Status::Done),
            Ok(Told::Refused(text)) => end(sink, text.as_slice(), Status::Refused),
            Err(_) => end(sink, b"no memory\n", Status::NoMemory),
        },
        Err(why) => end_refused(sink, why),
    }
}

/// Says why bytes are no script, or that there was no memory to see.
fn end_refused<Si: Sink>(sink: &mut Si, why: ScriptError) -> Status
    ensures status { result ≢ Status.WriteFault → result ≡ status_of why }
    ensures written { result ≢ Status.WriteFault → Appends (Si.held sink.old) (Si.held sink.new) (line_of why) }
    ensures cause { result ≡ Status.WriteFault → Rose (Si.faults sink.old) (Si.faults sink.new) }
    ensures never_falls { Si.faults sink.old ≤ Si.faults sink.new }
{
    match why {
        ScriptError::BadLine(line) => end_bad(sink, line),
        ScriptError::OutOfMemory => end(sink, b"no memory\n", Status::NoMemory),
    }
}

/// Names a bad line.
fn end_bad<Si: Sink>(sink: &mut Si, line: u64) -> Status
    ensures status { result ≢ Status.WriteFault → result ≡ Status.BadScript }
    ensures written { result ≢ Status.WriteFault → Appends (Si.held sink.old) (Si.held sink.new) (script_line line) }
    ensures cause { result ≡ Status.WriteFault → Rose (Si.faults sink.old) (Si.faults sink.new) }
    ensures never_falls { Si.faults sink.old ≤ Si.faults sink.new }
{
    match write_bad(sink, line) {
        Ok(()) => Status::BadScript,
        Err(Failed) => Status::WriteFault,
    }
}

fn write_bad<Si: Sink>(sink: &mut Si, line: u64) -> Result<(), Failed>
    ensures ok { OnOk result (Appends (Si.held sink.old) (Si.held sink.new) (script_line line)) }
    ensures cause { OnErr result (Rose (Si.faults sink.old) (Si.faults sink.new)) }
    ensures never_falls { Si.faults sink.old ≤ Si.faults sink.new }
{
    let mut buffer = Buffer::new();
    write_all(sink, b"script line ")?;
    write_all(sink, buffer.format(line).as_bytes())?;
    write_all(sink, b"\n")?;
    Ok(())
}
