//! Sealing a packet behind what stands in a buffer.

ghost use Rattle.std.specs.Prelude.{◌≡◌, ◌+◌, ◌≤◌, ◌++◌, length, replicate, take, OnOk, OnErr, IfOk, IfErr, IfSome, IsSome, Err, None};
ghost use Rattle.std.specs.List.{list_any};
ghost use Rattle.qc_frame.specs.FrameSpelling.{elicits, frames_spelling};
ghost use Rattle.qc_frame.specs.declared.frames.FrameOf.TheVariants.{Padding};
ghost use Rattle.qc_header.specs.HeaderSpelling.{header_spelling, header_number};
ghost use Rattle.qc_packet.specs.Building.{builder_for, padded_builder, kill_of, min_size_of, max_size_of, padded_size, IsReady, IsSound};
ghost use Rattle.qc_packet.specs.PacketSpelling.{padding_len, sealed_packet, with_flip};

use crate::builder::PacketBuilder;
use crate::slot::{BuildError, Slot};
use qc_crypto::{HeaderKey, PacketKey};
use qc_frame::FrameList;
use qc_header::Header;

/// How far a packet number may lie above the greatest acknowledged one: from this distance on no packet can spell it
/// (RFC 9000, section 17.1).
pub const NUMBER_LIMIT: u64 = 2_147_483_648;

/// Begins a packet of at most `capacity` bytes at the end of a buffer: its sizes count from there.
fn begin_behind(
    slot: &Slot,
    header: &Header,
    eliciting: bool,
    capacity: usize,
    buf: &mut Vec<u8>,
) -> Result<PacketBuilder, BuildError>
    requires sized { min_size_of 0 header.now ≤ max_size_of 0 header.now capacity }
    requires small { capacity ≤ 65535 }
    ensures kill { IfSome (kill_of slot.now header.now 0 capacity) (λ k. result ≡ Err (BuildError.Kill k)) }
    ensures memory { kill_of slot.now header.now 0 capacity ≡ None → IfErr result (λ e. e ≡ BuildError.OutOfMemory) }
    ensures refused { OnErr result (buf.new.items ≡ buf.old.items) }
    ensures header { OnOk result (buf.new.items ≡ buf.old.items ++ with_flip slot.now.flip (header_spelling header.now 0)) }
    ensures builder { IfOk result (λ b. b ≡ builder_for slot.now.space slot.now.number header.now (length buf.old.items) (length buf.old.items + capacity) (length buf.old.items) eliciting) }
    ensures sound { IfOk result (λ b. IsSome (header_number header.now) → IsSound b) }
{
    let start = buf.len();
    PacketBuilder::new(slot, header, buf, start + capacity, start, eliciting)
}

/// The same, with these frames behind the header, and `least` bytes asked for.
fn begin_padded(
    slot: &Slot,
    header: &Header,
    frames: &FrameList,
    capacity: usize,
    least: usize,
    buf: &mut Vec<u8>,
) -> Result<PacketBuilder, BuildError>
    requires numbered { IsSome (header_number header.now) }
    requires sized { min_size_of 0 header.now ≤ max_size_of 0 header.now capacity }
    requires room { length (header_spelling header.now 0) + length (frames_spelling frames.now) ≤ max_size_of 0 header.now capacity }
    requires least { least ≤ max_size_of 0 header.now capacity + 16 }
    requires small { capacity ≤ 65535 }
    ensures kill { IfSome (kill_of slot.now header.now 0 capacity) (λ k. result ≡ Err (BuildError.Kill k)) }
    ensures memory { kill_of slot.now header.now 0 capacity ≡ None → IfErr result (λ e. e ≡ BuildError.OutOfMemory) }
    ensures bytes { OnOk result (buf.new.items ≡ buf.old.items ++ (with_flip slot.now.flip (header_spelling header.now 0) ++ frames_spelling frames.now)) }
    ensures builder { IfOk result (λ b. b ≡ padded_builder slot.now.space slot.now.number header.now (length buf.old.items) capacity (list_any elicits frames.now) least) }
    ensures ready { IfOk result (λ b. IsReady b (length buf.new.items)) }
    ensures kept { take (length buf.old.items) buf.new.items ≡ buf.old.items }
{
    let mut builder = begin_behind(slot, header, frames.elicits(), capacity, buf)?;
    frames.put(buf)?;
    builder.pad_to(least as u16);
    Ok(builder)
}

/// Writes a header and frames at the end of a buffer, pads the packet and seals it. Answers how many bytes of padding there
/// are. What stood in the buffer stays at its front.
fn build_padded<H: HeaderKey, P: PacketKey>(
    header_key: &H,
    packet_key: &P,
    slot: &Slot,
    header: &Header,
    frames: &FrameList,
    capacity: usize,
    least: usize,
    buf: &mut Vec<u8>,
) -> Result<u64, BuildError>
    requires numbered { IsSome (header_number header.now) }
    requires sized { min_size_of 0 header.now ≤ max_size_of 0 header.now capacity }
    requires room { length (header_spelling header.now 0) + length (frames_spelling frames.now) ≤ max_size_of 0 header.now capacity }
    requires least { least ≤ max_size_of 0 header.now capacity + 16 }
    requires small { capacity ≤ 65535 }
    ensures kill { IfSome (kill_of slot.now header.now 0 capacity) (λ k. result ≡ Err (BuildError.Kill k)) }
    ensures memory { kill_of slot.now header.now 0 capacity ≡ None → IfErr result (λ e. e ≡ BuildError.OutOfMemory) }
    ensures bytes { OnOk result (buf.new.items ≡ buf.old.items ++ sealed_packet (H.mask_of header_key.now) (P.seal packet_key.now) slot.now.flip header.now slot.now.number (frames_spelling (frames.now ++ replicate (padding_len header.now frames.now (padded_size header.now frames.now least)) Padding))) }
    ensures full { OnOk result (length buf.new.items ≡ length buf.old.items + padded_size header.now frames.now least) }
    ensures padding { IfOk result (λ n. n ≡ padding_len header.now frames.now (padded_size header.now frames.now least)) }
    ensures kept { take (length buf.old.items) buf.new.items ≡ buf.old.items }
{
    let builder = begin_padded(slot, header, frames, capacity, least, buf)?;
    let padding = builder.min_size.saturating_sub(buf.len());
    let _ = builder.finish(header_key, packet_key, buf)?;
    Ok(padding as u64)
}

/// The same, with the PADDING frames added to the list at its end.
fn build_listed<H: HeaderKey, P: PacketKey>(
    header_key: &H,
    packet_key: &P,
    slot: &Slot,
    header: &Header,
    frames: &mut FrameList,
    capacity: usize,
    least: usize,
    buf: &mut Vec<u8>,
) -> Result<(), BuildError>
    requires numbered { IsSome (header_number header.now) }
    requires sized { min_size_of 0 header.now ≤ max_size_of 0 header.now capacity }
    requires room { length (header_spelling header.now 0) + length (frames_spelling frames.old) ≤ max_size_of 0 header.now capacity }
    requires least { least ≤ max_size_of 0 header.now capacity + 16 }
    requires small { capacity ≤ 65535 }
    ensures kill { IfSome (kill_of slot.now header.now 0 capacity) (λ k. result ≡ Err (BuildError.Kill k)) }
    ensures memory { kill_of slot.now header.now 0 capacity ≡ None → IfErr result (λ e. e ≡ BuildError.OutOfMemory) }
    ensures frames { OnOk result (frames.new ≡ frames.old ++ replicate (padding_len header.now frames.old (padded_size header.now frames.old least)) Padding) }
    ensures bytes { OnOk result (buf.new.items ≡ buf.old.items ++ sealed_packet (H.mask_of header_key.now) (P.seal packet_key.now) slot.now.flip header.now slot.now.number (frames_spelling frames.new)) }
    ensures full { OnOk result (length buf.new.items ≡ length buf.old.items + padded_size header.now frames.old least) }
    ensures frames_kept { OnErr result (frames.new ≡ frames.old) }
    ensures kept { take (length buf.old.items) buf.new.items ≡ buf.old.items }
{
    let padding = build_padded(
        header_key, packet_key, slot, header, frames, capacity, least, buf,
    )?;
    frames.push_padding(padding)?;
    Ok(())
}

/// Seals a packet with these frames at the end of a buffer, whatever stands there. It has at most `capacity` bytes, and its
/// Length field stays below 2^14; it is filled up with PADDING to `least` bytes at least (RFC 9000, section 14.1), and to what a
/// packet always needs (RFC 9001, section 5.4.2; RFC 9000, section 10.3). All these sizes are the packet's own. The PADDING
/// frames are added to the list.
///
/// # Errors
///
/// `Kill` exactly where no packet like it can be begun, as `PacketBuilder::new` says of a packet that begins its buffer; else
/// `OutOfMemory`. List and buffer are then as before.
pub fn seal_padded<H: HeaderKey, P: PacketKey>(
    header_key: &H,
    packet_key: &P,
    slot: &Slot,
    header: &Header,
    frames: &mut FrameList,
    capacity: usize,
    least: usize,
    buf: &mut Vec<u8>,
) -> Result<(), BuildError>
    requires numbered { IsSome (header_number header.now) }
    requires sized { min_size_of 0 header.now ≤ max_size_of 0 header.now capacity }
    requires room { length (header_spelling header.now 0) + length (frames_spelling frames.old) ≤ max_size_of 0 header.now capacity }
    requires least { least ≤ max_size_of 0 header.now capacity + 16 }
    requires small { capacity ≤ 65535 }
    ensures kill { IfSome (kill_of slot.now header.now 0 capacity) (λ k. result ≡ Err (BuildError.Kill k)) }
    ensures memory { kill_of slot.now header.now 0 capacity ≡ None → IfErr result (λ e. e ≡ BuildError.OutOfMemory) }
    ensures frames { OnOk result (frames.new ≡ frames.old ++ replicate (padding_len header.now frames.old (padded_size header.now frames.old least)) Padding) }
    ensures bytes { OnOk result (buf.new.items ≡ buf.old.items ++ sealed_packet (H.mask_of header_key.now) (P.seal packet_key.now) slot.now.flip header.now slot.now.number (frames_spelling frames.new)) }
    ensures full { OnOk result (length buf.new.items ≡ length buf.old.items + padded_size header.now frames.old least) }
    ensures frames_kept { OnErr result (frames.new ≡ frames.old) }
    ensures buf_kept { OnErr result (buf.new.items ≡ buf.old.items) }
{
    let start = buf.len();
    match build_listed(
        header_key, packet_key, slot, header, frames, capacity, least, buf,
    ) {
        Ok(()) => Ok(()),
        Err(e) => {
            buf.truncate(start);
            Err(e)
        }
    }
}
