//! A probe of the path's size: a packet of 1-RTT that is larger than the datagrams to the path so far, alone in its datagram.

ghost use Rattle.std.specs.Prelude.{◌≡◌, [], None, Some, length, OnOk, IfOk};
ghost use Rattle.qc_state.specs.Sending.{MayProbe, Probed, kill_in, probe_bytes, probed_after, sent_out, transmit_with};
ghost use Rattle.qc_state.specs.declared.deeds.Quiet.TheVariants.{Killed};
ghost use Rattle.qc_state.specs.declared.form.Form.TheVariants.{OneRtt};
ghost use Rattle.qc_state.specs.View.{ideal, held};

use crate::owing::{is_key_nearly_used_up, next_number};
use crate::sealing::{begin_packet, frame_room, seal, spare, transmit_to};
use crate::sending::hold;
use qc_base::{Instant, SpaceId};
use qc_core::Core;
use qc_state::{Batch, Dids, Form, Means, Quiet, Suite, Transmit};
use std::alloc::{AllocError, Global};

/// Where a datagram of so many bytes goes.
fn probe_to<U: Suite>(core: &Core<U>, batch: &Batch, size: u64) -> Transmit
    ensures { Some result ≡ sent_out (Probed Killed size) (transmit_with (ideal U.Random.stream core.now) batch.now) }
{
    let to = transmit_to(core, batch);
    Transmit {
        destination: to.destination,
        ecn: to.ecn,
        size: size as usize,
        segment_size: None,
        src_ip: to.src_ip,
    }
}

/// Seals a probe of the path's size into the empty buffer, a PING and PADDING up to so many bytes, where nothing else is sent for this cause, and
/// says where it goes: the search waits for it. A probe that is due for losses stays due. This end closes behind it, where its key may seal only
/// one packet more. Want of memory is the only refusal.
pub(crate) fn seal_probe<U: Suite>(
    core: &mut Core<U>,
    alloc: Global,
    now: Instant,
    batch: &Batch,
    quiet: Quiet,
    size: u64,
    buf: &mut Vec<u8>,
    did: &mut Dids,
) -> Result<Transmit, AllocError>
    requires may { MayProbe ⟦<U as Means>⟧.meaning now (ideal U.Random.stream core.old) batch.now quiet size }
    requires fresh { kill_in batch.now (ideal U.Random.stream core.old) OneRtt ≡ None }
    requires empty { buf.old.items ≡ [] }
    ensures leads { OnOk result ((held U.Random.stream core.new did.new) ≡ probed_after ⟦<U as Means>⟧.meaning now size quiet batch.now (held U.Random.stream core.old did.old)) }
    ensures bytes { OnOk result (buf.new.items ≡ probe_bytes ⟦<U as Means>⟧.meaning now size quiet batch.now (held U.Random.stream core.old did.old)) }
    ensures sent { IfOk result (λ sent. Some sent ≡ sent_out (Probed quiet size) (transmit_with (ideal U.Random.stream core.old) batch.now)) }
    ensures size { IfOk result (λ sent. length buf.new.items ≡ sent.size) }
{
    let to = probe_to(core, batch, size);
    hold(core, did, now, batch, quiet);
    core.do_ask(SpaceId::Data);
    begin_packet(core, Form::OneRtt, false, did)?;
    let nearly = is_key_nearly_used_up(core, Form::OneRtt);
    let left = size as usize;
    let room = frame_room(core, left, Form::OneRtt);
    let number = next_number(core, SpaceId::Data);
    let frames = core.do_take_ping(alloc)?;
    let sealed = seal(
        core,
        alloc,
        did,
        now,
        Form::OneRtt,
        left,
        room,
        left,
        frames,
        buf,
    )?;
    core.fly_after(did, now, sealed.size, sealed.counts);
    core.do_probe(now, number, size, quiet);
    spare(core, did, now, nearly)?;
    Ok(to)
}
